//! Reads of fields that also have an old name, which may be deprecated.
ghost use Rattle.std.specs.Prelude.{◌≡◌, ◌⊎◌, ◌+◌, ◌≤◌, ◌++◌, IfOk, IfSome, IsTrue, OnErr, OnOk, Some, map, option_map};
ghost use Rattle.toml_span_tree.specs.Error.{content_of};
ghost use Rattle.toml_span_tree.specs.Value.{is_whole, view};
ghost use Rattle.toml_span_typed.specs.Aliases.{AsksDeprecated, AsksEither, ReadsMoved, AfterAllocErrorDeprecated};
ghost use Rattle.toml_span_typed.specs.Aliases.{TriesDeprecated, TriesEither, Warns, duplicate_key_error, asked_both};
ghost use Rattle.toml_span_typed.specs.Aliases.{asked_deprecated, either, entry_of, first_value, keeping_twice, lacks};
ghost use Rattle.toml_span_typed.specs.Aliases.{newer, outdated, outdated_at, passed, twice};
ghost use Rattle.toml_span_typed.specs.Fields.{kept, lacking};
ghost use Rattle.toml_span_typed.specs.TableHelper.{AllWhole, AfterAllocError, noted, state_of};

use crate::de_helpers::table_helper::{TableHelper, missing_field, remove};
use crate::deserialize::{Deserialize, read_or_keep};
use std::alloc::{AllocError, Global};
use toml_span_lex::span::Span;
use toml_span_tree::{Error, ErrorKind, Value};

impl<'de> TableHelper<'de> {
    /// Reads the field `name` or, if `name` is absent, the field `old`. Records both names, `name` first. If neither is
    /// present, keeps the error `MissingField` for `name`, and returns `None`. If the read fails, keeps its errors, and
    /// returns `None`.
    ///
    /// If both names are present, reads the value of `name`, and keeps the error `DuplicateKey` at the later of the two
    /// keys. If an allocation fails, at most this error is kept, but the names may be recorded and their entries gone.
    pub fn read_either<T: Deserialize<'de>>(
        &mut self,
        name: &'de str,
        old: &'de str,
    ) -> Result<Option<T>, AllocError>
        requires { AllWhole (state_of self.old) }
        ensures answer { AsksEither T.reads name.now old.now (state_of self.old) result (state_of self.new) }
        ensures recorded { IfOk result (λ field. kept (state_of self.old) + lacking field ≤ kept (state_of self.new)) }
        ensures whole { AllWhole (state_of self.new) }
    {
        let value = self.take_either(name, old)?;
        self.read_or_miss(name, value)
    }

    /// Reads the optional field `name` or, if `name` is absent, the field `old`. Records both names, `name` first.
    /// Returns `None` if neither is present. Also returns `None` if the read fails, after keeping its errors.
    ///
    /// If both names are present, reads the value of `name`, and keeps the error `DuplicateKey`, as `read_either` does.
    /// If an allocation fails, at most this error is kept, but the names may be recorded and their entries gone.
    pub fn read_optional_either<T: Deserialize<'de>>(
        &mut self,
        name: &'de str,
        old: &'de str,
    ) -> Result<Option<T>, AllocError>
        requires { AllWhole (state_of self.old) }
        ensures answer { TriesEither T.reads name.now old.now (state_of self.old) result (state_of self.new) }
        ensures recorded { OnOk result (kept (state_of self.old) ≤ kept (state_of self.new)) }
        ensures whole { AllWhole (state_of self.new) }
    {
        let value = self.take_either(name, old)?;
        self.read_if_there(value)
    }

    /// Reads the field `name` or, if `name` is absent, the deprecated field `old`, as `read_either` does. Records only
    /// `name`, so the error `UnexpectedKeys` does not list `old` as expected. If `old` is present, appends the warning
    /// `Deprecated`, at the span of the old key, to `warnings`, even if the read fails.
    ///
    /// If an allocation fails, at most the error `DuplicateKey` is kept. The warning may then have been appended,
    /// `name` recorded, and the entries removed.
    pub fn read_deprecated<T: Deserialize<'de>>(
        &mut self,
        name: &'de str,
        old: &'de str,
        warnings: &mut Vec<Error<'de>>,
    ) -> Result<Option<T>, AllocError>
        requires { AllWhole (state_of self.old) }
        ensures answer { AsksDeprecated T.reads name.now old.now (state_of self.old) result (state_of self.new) }
        ensures warned { Warns (map content_of warnings.old.items) (outdated name.now old.now (state_of self.old))
            result
            (map content_of warnings.new.items) }
        ensures recorded { IfOk result (λ field. kept (state_of self.old) + lacking field ≤ kept (state_of self.new)) }
        ensures whole { AllWhole (state_of self.new) }
    {
        let value = self.take_deprecated(name, old, warnings)?;
        self.read_or_miss(name, value)
    }

    /// Reads the optional field `name` or, if `name` is absent, the deprecated field `old`. Records only `name`.
    /// Returns `None` if neither is present. Also returns `None` if the read fails, after keeping its errors.
    ///
    /// If `old` is present, appends the warning `Deprecated`, at the span of the old key, to `warnings`. If both names
    /// are present, also keeps the error `DuplicateKey`. If an allocation fails, the state is as after a failed
    /// `read_deprecated`.
    pub fn read_optional_deprecated<T: Deserialize<'de>>(
        &mut self,
        name: &'de str,
        old: &'de str,
        warnings: &mut Vec<Error<'de>>,
    ) -> Result<Option<T>, AllocError>
        requires { AllWhole (state_of self.old) }
        ensures answer { TriesDeprecated T.reads name.now old.now (state_of self.old) result (state_of self.new) }
        ensures warned { Warns (map content_of warnings.old.items) (outdated name.now old.now (state_of self.old))
            result
            (map content_of warnings.new.items) }
        ensures recorded { OnOk result (kept (state_of self.old) ≤ kept (state_of self.new)) }
        ensures whole { AllWhole (state_of self.new) }
    {
        let value = self.take_deprecated(name, old, warnings)?;
        self.read_if_there(value)
    }

    /// Reads `value`, which was moved out of the table. If the read fails, keeps its errors, and returns `None`. If
    /// `value` is `None`, keeps the error `MissingField` for `name`, and returns `None`. If an allocation fails, no
    /// error is kept.
    fn read_or_miss<T: Deserialize<'de>>(
        &mut self,
        name: &'de str,
        value: Option<Value<'de>>,
    ) -> Result<Option<T>, AllocError>
        requires whole { AllWhole (state_of self.old) }
        requires good { IfSome value (λ v. IsTrue (is_whole (view v))) }
        ensures answer { IfOk result (λ field. ReadsMoved T.reads (lacks name.now) (option_map view value.entry)
            (state_of self.old) field (state_of self.new)) }
        ensures err { OnErr result (state_of self.new ≡ state_of self.old) }
        ensures recorded { IfOk result (λ field. kept (state_of self.old) + lacking field ≤ kept (state_of self.new)) }
        ensures whole { AllWhole (state_of self.new) }
    {
        match value {
            Some(value) => read_or_keep(self.alloc, value, &mut self.errors),
            None => {
                self.keep(missing_field(name, self.span))?;
                Ok(None)
            }
        }
    }

    /// Reads `value`, which was moved out of the table. Returns `None` if `value` is `None`. If the read fails, keeps
    /// its errors, and returns `None`. If an allocation fails, no error is kept.
    fn read_if_there<T: Deserialize<'de>>(
        &mut self,
        value: Option<Value<'de>>,
    ) -> Result<Option<T>, AllocError>
        requires whole { AllWhole (state_of self.old) }
        requires good { IfSome value (λ v. IsTrue (is_whole (view v))) }
        ensures answer { IfOk result (λ field. ReadsMoved T.reads (λ s. s) (option_map view value.entry)
            (state_of self.old) field (state_of self.new)) }
        ensures err { OnErr result (state_of self.new ≡ state_of self.old) }
        ensures recorded { OnOk result (kept (state_of self.old) ≤ kept (state_of self.new)) }
        ensures whole { AllWhole (state_of self.new) }
    {
        match value {
            Some(value) => read_or_keep(self.alloc, value, &mut self.errors),
            None => Ok(None),
        }
    }

    /// Records both names, and moves their entries out of the table. Returns the value of `name` or, if `name` is
    /// absent, of `old`. Returns `None` if neither is present. If both are present, keeps the error `DuplicateKey`. If
    /// an allocation fails, no error is kept, but the names may be recorded and their entries gone.
    fn take_either(
        &mut self,
        name: &'de str,
        old: &'de str,
    ) -> Result<Option<Value<'de>>, AllocError>
        requires { AllWhole (state_of self.old) }
        ensures value { IfOk result (λ value. option_map view value ≡ either name.now old.now (state_of self.old)) }
        ensures state { OnOk result (state_of self.new ≡ asked_both name.now old.now (state_of self.old)) }
        ensures err { OnErr result (AfterAllocError name.now (state_of self.old) (state_of self.new)
            ⊎ (state_of self.new ≡ noted old.now (noted name.now (state_of self.old)))) }
        ensures recorded { OnOk result (kept (state_of self.old) ≤ kept (state_of self.new)) }
        ensures good { IfOk result (λ value. IfSome value (λ v. IsTrue (is_whole (view v)))) }
        ensures whole { AllWhole (state_of self.new) }
    {
        let newer = self.take_placed(name)?;
        let older = self.take_placed(old)?;
        self.choose(name, newer, old, older)
    }

    /// Does the same as `take_either`, but does not record `old`, and appends a warning to `warnings` if `old` is
    /// present. If an allocation fails, `warnings` is unchanged, but the error `DuplicateKey` may have been kept.
    fn take_deprecated(
        &mut self,
        name: &'de str,
        old: &'de str,
        warnings: &mut Vec<Error<'de>>,
    ) -> Result<Option<Value<'de>>, AllocError>
        requires { AllWhole (state_of self.old) }
        ensures value { IfOk result (λ value. option_map view value ≡ either name.now old.now (state_of self.old)) }
        ensures state { OnOk result (state_of self.new ≡ asked_deprecated name.now old.now (state_of self.old)) }
        ensures warned { OnOk result (map content_of warnings.new.items
            ≡ map content_of warnings.old.items ++ outdated name.now old.now (state_of self.old)) }
        ensures err { OnErr result (AfterAllocErrorDeprecated name.now old.now (state_of self.old)
            (state_of self.new)) }
        ensures unwarned { OnErr result (map content_of warnings.new.items ≡ map content_of warnings.old.items) }
        ensures recorded { OnOk result (kept (state_of self.old) ≤ kept (state_of self.new)) }
        ensures good { IfOk result (λ value. IfSome value (λ v. IsTrue (is_whole (view v)))) }
        ensures whole { AllWhole (state_of self.new) }
    {
        let newer = self.take_placed(name)?;
        let older = self.pass(old);
        let place = place_of(&older);
        let value = self.choose(name, newer, old, older)?;
        warn(warnings, name, old, place)?;
        Ok(value)
    }

    /// Returns the value of `newer` or, if `newer` is `None`, the value of `older`. Returns `None` if both are `None`.
    /// `newer` is the entry of `name`, and `older` is the entry of `old`, each as the span of its key and its value. If
    /// both are `Some`, keeps the error `DuplicateKey` at the later key. If an allocation fails, no error is kept.
    fn choose(
        &mut self,
        name: &str,
        newer: Option<(Span, Value<'de>)>,
        old: &str,
        older: Option<(Span, Value<'de>)>,
    ) -> Result<Option<Value<'de>>, AllocError>
        requires newer { IfSome newer (λ e. IsTrue (is_whole (view e.1))) }
        requires older { IfSome older (λ e. IsTrue (is_whole (view e.1))) }
        ensures value { IfOk result (λ value. option_map view value
            ≡ first_value (option_map entry_of newer.entry) (option_map entry_of older.entry)) }
        ensures state { OnOk result (state_of self.new ≡ keeping_twice name.now (option_map entry_of newer.entry)
            old.now (option_map entry_of older.entry) (state_of self.old)) }
        ensures err { OnErr result (state_of self.new ≡ state_of self.old) }
        ensures recorded { OnOk result (kept (state_of self.old) ≤ kept (state_of self.new)) }
        ensures good { IfOk result (λ value. IfSome value (λ v. IsTrue (is_whole (view v)))) }
        ensures whole { AllWhole (state_of self.old) → AllWhole (state_of self.new) }
    {
        match (newer, older) {
            (Some((span, value)), Some((other, earlier))) => {
                drop(earlier);
                self.keep(both_names_error(self.alloc, name, span, old, other)?)?;
                Ok(Some(value))
            }
            (Some((_, value)), None) | (None, Some((_, value))) => Ok(Some(value)),
            (None, None) => Ok(None),
        }
    }

    /// Records the name, and moves its entry out of the table. Returns the value with the span of its key, or `None` if
    /// the table has no entry of this name. If an allocation fails, nothing has changed.
    #[tactic(auto, using(crate::proofs::Whole::placed_whole))]
    pub(super) fn take_placed(
        &mut self,
        name: &'de str,
    ) -> Result<Option<(Span, Value<'de>)>, AllocError>
        requires { AllWhole (state_of self.old) }
        ensures entry { IfOk result (λ entry. option_map entry_of entry ≡ newer name.now (state_of self.old)) }
        ensures state { OnOk result (state_of self.new ≡ noted name.now (state_of self.old)) }
        ensures err { OnErr result (state_of self.new ≡ state_of self.old) }
        ensures good { IfOk result (λ entry. IfSome entry (λ e. IsTrue (is_whole (view e.1)))) }
        ensures whole { AllWhole (state_of self.new) }
    {
        match self.take(name)? {
            Some((key, value)) => {
                let span = key.span;
                drop(key);
                Ok(Some((span, value)))
            }
            None => Ok(None),
        }
    }

    /// Moves the entry with this name out of the table, without recording the name. Returns the value with the span of
    /// its key, or `None` if the table has no such entry.
    #[tactic(auto, using(crate::proofs::Whole::placed_whole, crate::proofs::Whole::without_whole))]
    fn pass(&mut self, name: &'de str) -> Option<(Span, Value<'de>)>
        requires { AllWhole (state_of self.old) }
        ensures entry { option_map entry_of result ≡ newer name.now (state_of self.old) }
        ensures state { state_of self.new ≡ passed name.now (state_of self.old) }
        ensures good { IfSome result (λ e. IsTrue (is_whole (view e.1))) }
        ensures whole { AllWhole (state_of self.new) }
    {
        match remove(&mut self.table, name) {
            Some((key, value)) => {
                let span = key.span;
                drop(key);
                Some((span, value))
            }
            None => None,
        }
    }
}

/// Returns the span of the key of `entry`, or `None` if `entry` is `None`.
fn place_of(entry: &Option<(Span, Value)>) -> Option<Span>
    ensures { option_map (λ span. Some span) result ≡ option_map (λ e. e.0) (option_map entry_of entry.now) }
{
    match entry {
        Some((span, _)) => Some(*span),
        None => None,
    }
}

/// Returns the error `DuplicateKey` for a field that is present under its name, at `span`, and under its old name, at
/// `other`. The error is at the later of the two keys.
fn both_names_error<'s>(
    alloc: Global,
    name: &str,
    span: Span,
    old: &str,
    other: Span,
) -> Result<Error<'s>, AllocError>
    ensures { IfOk result (λ error. content_of error ≡ twice name.now span old.now other) }
{
    if span.start < other.start {
        duplicate_key(alloc, old, other, span)
    } else {
        duplicate_key(alloc, name, span, other)
    }
}

/// Returns the error `DuplicateKey` at `span` for the key `name`, with `first` as the span of the earlier key.
fn duplicate_key<'s>(
    alloc: Global,
    name: &str,
    span: Span,
    first: Span,
) -> Result<Error<'s>, AllocError>
    ensures { IfOk result (λ error. content_of error ≡ duplicate_key_error name.now span first) }
{
    let key = String::from_str(alloc, name)?;
    Ok(Error::from((ErrorKind::DuplicateKey { key, first }, span)))
}

/// Appends to `warnings` that `old` is deprecated in favor of `name`. `place`, the span of the old key, is the span of
/// the warning. If `place` is `None`, appends nothing. If an allocation fails, `warnings` is unchanged.
fn warn<'s>(
    warnings: &mut Vec<Error<'s>>,
    name: &'s str,
    old: &'s str,
    place: Option<Span>,
) -> Result<(), AllocError>
    ensures ok { OnOk result (map content_of warnings.new.items
        ≡ map content_of warnings.old.items
        ++ outdated_at name.now old.now (option_map (λ span. Some span) place)) }
    ensures err { OnErr result (map content_of warnings.new.items ≡ map content_of warnings.old.items) }
{
    if let Some(span) = place {
        let kind = ErrorKind::Deprecated { old, new: name };
        warnings.push(Error::from((kind, span)))?;
    }
    Ok(())
}
