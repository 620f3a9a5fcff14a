//! Reads an enum's tag, the other entries of its table, and strings that must be one of some names.
ghost use Rattle.std.specs.Prelude.{◌≡◌, ◌+◌, ◌≤◌, IfOk, OnErr, Result, false, map, option_map};
ghost use Rattle.toml_span_tree.specs.Error.{content_of};
ghost use Rattle.toml_span_tree.specs.Value.{is_taken, view};
ghost use Rattle.toml_span_tree.specs.Errors.{all};
ghost use Rattle.toml_span_typed.specs.Fields.{kept, lacking};
ghost use Rattle.toml_span_typed.specs.Rests.{ReadsRest, emptied, remaining};
ghost use Rattle.toml_span_typed.specs.TableHelper.{AllWhole, AfterAllocError, missing, state_of};
ghost use Rattle.toml_span_typed.specs.Reads.{Taken};
ghost use Rattle.toml_span_typed.specs.Tags.{IsNameOf, IsUnexpected, among, asked_tag, keeping_tag, first_or, read_tag};
ghost use Rattle.toml_span_typed.specs.code.Tags.{tag_result};

use crate::de_helpers::table_helper::{TableHelper, missing_field};
use crate::deserialize::{Deserialize, read_or_keep};
use std::alloc::{AllocError, Global};
use std::mem;
use toml_span_lex::stop::Stop;
use toml_span_tree::{DeserError, Error, ErrorKind, Table, Value, ValueInner};

impl<'de> TableHelper<'de> {
    /// Reads the field of this name, which must be a string that equals one of `tags`. Returns this tag. Records the
    /// name, and moves its entry out of the table.
    ///
    /// Returns `None`, and keeps an error, in three cases: `MissingField` at the table's span if the table has no entry
    /// of this name; `Wanted` at the value's span if the value is not a string; and `UnexpectedValue` at the value's
    /// span if the string is not one of the tags. If an allocation fails, no error is kept, but the name may be
    /// recorded and its entry gone.
    pub fn read_tag(
        &mut self,
        name: &'de str,
        tags: &'de [&'de str],
    ) -> Result<Option<&'de str>, AllocError>
        requires { AllWhole (state_of self.old) }
        ensures answer { IfOk result (λ tag. (option_map (λ t. t.now) tag, state_of self.new)
            ≡ asked_tag name.now (map (λ t. t.now) tags.now) (state_of self.old)) }
        ensures after_alloc_error { OnErr result (AfterAllocError name.now (state_of self.old) (state_of self.new)) }
        ensures recorded { IfOk result (λ tag. kept (state_of self.old) + lacking tag ≤ kept (state_of self.new)) }
        ensures whole { AllWhole (state_of self.new) }
    {
        let tag = match self.take_placed(name)? {
            Some((_, mut value)) => tag_of(self.alloc, &mut value, tags)?,
            None => Err(missing_field(name, self.span)),
        };
        self.keep_tag(tag)
    }

    /// Returns the tag. If `tag` is an error, keeps the error, and returns `None`.
    fn keep_tag(
        &mut self,
        tag: Result<&'de str, Error<'de>>,
    ) -> Result<Option<&'de str>, AllocError>
        ensures answer { IfOk result (λ t. (option_map (λ t. t.now) t, state_of self.new)
            ≡ keeping_tag (state_of self.old) (tag_result tag.entry)) }
        ensures err { OnErr result (state_of self.new ≡ state_of self.old) }
        ensures recorded { IfOk result (λ t. kept (state_of self.old) + lacking t ≤ kept (state_of self.new)) }
        ensures whole { AllWhole (state_of self.old) → AllWhole (state_of self.new) }
    {
        match tag {
            Ok(tag) => Ok(Some(tag)),
            Err(error) => {
                self.keep(error)?;
                Ok(None)
            }
        }
    }

    /// Ends the read of a table whose tag could not be read. Returns the errors that were kept or, if no error was
    /// kept, `MissingField` for `name`. Does not report the entries that remain. Does not allocate.
    pub fn untagged(self, name: &'de str) -> DeserError<'de>
        ensures { all result ≡ first_or (missing name.now (state_of self.entry)) (state_of self.entry).errors }
    {
        match DeserError::from_list(self.errors) {
            Some(errors) => errors,
            None => DeserError::from(missing_field(name, self.span)),
        }
    }

    /// Reads all entries that remain into a `T`, as a table with the span of the whole table. If the read fails, keeps
    /// its errors, and returns `None`. If an allocation fails, no error is kept, but the entries are gone.
    pub fn read_rest<T: Deserialize<'de>>(&mut self) -> Result<Option<T>, AllocError>
        requires { AllWhole (state_of self.old) }
        ensures answer { IfOk result (λ rest. ReadsRest T.reads (state_of self.old) rest (state_of self.new)) }
        ensures err { OnErr result (state_of self.new ≡ emptied (state_of self.old)) }
        ensures recorded { IfOk result (λ rest. kept (state_of self.old) + lacking rest ≤ kept (state_of self.new)) }
        ensures whole { AllWhole (state_of self.new) }
    {
        let rest = self.take_rest();
        read_or_keep(self.alloc, rest, &mut self.errors)
    }

    /// Moves the entries that remain into a new table, and returns it with the span of the whole table.
    fn take_rest(&mut self) -> Value<'de>
        ensures rest { view result ≡ remaining (state_of self.old) }
        ensures state { state_of self.new ≡ emptied (state_of self.old) }
    {
        let empty: Table<'de> = Table::new(self.alloc);
        let table: Table<'de> = mem::replace::<Table<'de>>(&mut self.table, empty);
        Value::with_span(ValueInner::Table(table), self.span)
    }
}

/// Reads a string that must be one of `names`, and returns that name. `read_name!` calls this. Takes the value in every
/// case. Callers must prove that it has not been taken already (`is_taken`).
///
/// Fails with `Wanted` if the value is not a string, and with `UnexpectedValue`, which lists the names, if the string
/// is not one of them. Both errors are at the value's span. Only `UnexpectedValue` needs an allocation. Fails with
/// `Stop::Memory` if this allocation fails.
pub fn name_of<'de>(
    alloc: Global,
    value: &mut Value<'de>,
    names: &'de [&'de str],
) -> Result<&'de str, Stop<DeserError<'de>>>
    requires { is_taken (view value.old) ≡ false }
    ensures answer { IsNameOf (map (λ name. name.now) names.now) (view value.old) result }
    ensures taken { Taken (view value.old) (view value.new) }
{
    match tag_of(alloc, value, names)? {
        Ok(name) => Ok(name),
        Err(error) => Err(error.into()),
    }
}

/// Returns the tag that equals the value's string. The inner error is `Wanted` if the value is not a string, and
/// `UnexpectedValue` if no tag equals the string. Takes the value in every case.
fn tag_of<'de>(
    alloc: Global,
    value: &mut Value<'de>,
    tags: &'de [&'de str],
) -> Result<Result<&'de str, Error<'de>>, AllocError>
    requires { is_taken (view value.old) ≡ false }
    ensures tag { IfOk result (λ tag. tag_result tag ≡ read_tag (map (λ t. t.now) tags.now) (view value.old)) }
    ensures err { OnErr result (IsUnexpected (map (λ t. t.now) tags.now) (view value.old)) }
    ensures taken { Taken (view value.old) (view value.new) }
{
    let span = value.span;
    let text = match value.take_string(None) {
        Ok(text) => text,
        Err(error) => return Ok(Err(error)),
    };
    if let Some(tag) = tag_among(text.as_str(), tags) {
        return Ok(Ok(tag));
    }
    let kind = ErrorKind::UnexpectedValue {
        expected: tags,
        value: Some(String::from_str(alloc, text.as_str())?),
    };
    Ok(Err(Error::from((kind, span))))
}

/// Returns the first tag that equals the text, or `None` if no tag does.
fn tag_among<'t>(text: &str, tags: &'t [&'t str]) -> Option<&'t str>
    ensures { option_map (λ tag. tag.now) result ≡ among text.now (map (λ t. t.now) tags.now) }
{
    match tags {
        [tag, rest @ ..] => {
            if *tag == text {
                Some(*tag)
            } else {
                tag_among(text, rest)
            }
        }
        [] => None,
    }
}
