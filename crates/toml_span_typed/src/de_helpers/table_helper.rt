//! A helper that reads a table field by field and collects the errors.
ghost use Rattle.std.specs.Prelude.{◌≡◌, true, Some, None, IfOk, IfSome, is_some, option_map, map, string_bytes};
ghost use Rattle.std.specs.Cow.{cow_str_bytes};
ghost use Rattle.toml_span_tree.specs.Error.{content_of, missing_field};
ghost use Rattle.toml_span_tree.specs.Node.{entry_at};
ghost use Rattle.toml_span_tree.specs.Value.{is_filled, members_view, view};
ghost use Rattle.toml_span_typed.specs.TableHelper.{EndsWithErrors, remaining_keys, without};
ghost use Rattle.toml_span_typed.specs.code.TableHelper.{key_text};

mod aliases;
mod fields;
mod names;
mod ranges;
mod tags;
mod with_warnings;

use crate::de_helpers::expected;
use crate::deserialize::{Deserialize, read_or_keep};
use std::alloc::{AllocError, Global};
pub use tags::name_of;
use toml_span_lex::key::Key;
use toml_span_lex::span::Span;
use toml_span_lex::spanned::Spanned;
use toml_span_lex::stop::Stop;
use toml_span_tree::{DeserError, Error, ErrorKind, Table, Value, ValueInner};

/// Reads the entries of a table one by one.
///
/// The helper keeps errors until the end. It records the name of each field that a method reads or takes, even if the
/// table has no such key; deprecated names are not recorded. The error `UnexpectedKeys` lists the recorded names as
/// expected. Callers of methods that read values must prove that nothing has been taken from the entries that remain
/// (`is_whole`); for `required` and `optional`, a proof for the field's value suffices.
#[derive(Drop)]
pub struct TableHelper<'de> {
    /// The entries that remain; reading or taking a field moves its entry out.
    pub table: Table<'de>,
    /// The errors so far, in order.
    pub errors: Vec<Error<'de>>,
    asked: Vec<&'de str>,
    span: Span,
    alloc: Global,
}

/// Why the read of a table failed.
#[derive(Drop)]
pub enum Unfinished<'de> {
    /// All errors that were kept.
    Faults(DeserError<'de>),
    /// An allocation failed. The helper is unchanged.
    Memory(TableHelper<'de>),
}

impl<'de> From<Unfinished<'de>> for Stop<DeserError<'de>> {
    ghost use Rattle.toml_span_typed.specs.Fields.{stop_of};

    ghost from_gives = { λ unfinished stop. stop ≡ stop_of unfinished };

    fn from(unfinished: Unfinished<'de>) -> Stop<DeserError<'de>> {
        match unfinished {
            Unfinished::Faults(faults) => Stop::Fault(faults),
            Unfinished::Memory(_) => Stop::Memory(AllocError),
        }
    }
}

impl<'de> TableHelper<'de> {
    ghost use Rattle.std.specs.Prelude.{[], ◌∷◌, IsTrue, OnOk, OnErr, false};
    ghost use Rattle.toml_span_tree.specs.Value.{is_taken, is_whole};
    ghost use Rattle.toml_span_tree.specs.Errors.{all};
    ghost use Rattle.toml_span_typed.specs.Reads.{Taken, result_map, spanned};
    ghost use Rattle.toml_span_typed.specs.TableHelper.{AllWhole, EndsWithErrors, Finalizes, HoldsRest, Leaves};
    ghost use Rattle.toml_span_typed.specs.TableHelper.{OpensTable, Refuses};
    ghost use Rattle.toml_span_typed.specs.TableHelper.{Requires, Takes, Tries, found, fresh, keeping};
    ghost use Rattle.toml_span_typed.specs.TableHelper.{state_of, unasked, unexpected_entries};
    ghost use Rattle.toml_span_typed.specs.code.TableHelper.{ReadsValue};

    /// Takes the table out of `value`, and returns a helper for it. Callers must prove that the content of `value` has
    /// not been taken already (`is_taken`). Fails with `Wanted`, which expects "a table", if the value is of another
    /// kind; its content is taken even then. Does not allocate.
    pub fn new(alloc: Global, value: &mut Value<'de>) -> Result<TableHelper<'de>, DeserError<'de>>
        requires { is_taken (view value.old) ≡ false }
        ensures answer { OpensTable (view value.old) (result_map state_of result) }
        ensures taken { Taken (view value.old) (view value.new) }
        ensures whole { IsTrue (is_whole (view value.old)) → IfOk result (λ helper. AllWhole (state_of helper)) }
    {
        match value.take() {
            ValueInner::Table(table) => Ok(TableHelper::from_table(alloc, table, value.span)),
            other => Err(expected("a table", other, value.span).into()),
        }
    }

    /// Returns a helper for a table whose span is `span`. Does not allocate.
    pub fn from_table(alloc: Global, table: Table<'de>, span: Span) -> TableHelper<'de>
        ensures { state_of result ≡ fresh (members_view table.entry.entries) span }
    {
        TableHelper {
            table,
            errors: Vec::new(alloc),
            asked: Vec::new(alloc),
            span,
            alloc,
        }
    }

    /// Returns whether an entry of this name remains in the table. Does not record the name.
    pub fn contains(&self, name: &'de str) -> bool
        ensures { result ≡ is_some (found name.now (state_of self.now)) }
    {
        self.table.contains_key(&Key::named(name))
    }

    /// Returns a copy of the text, for a field whose default it is.
    #[doc(hidden)]
    pub fn text(&self, text: &str) -> Result<String, AllocError>
        ensures { IfOk result (λ copy. string_bytes copy ≡ text.now) }
    {
        String::from_str(self.alloc, text)
    }

    /// Records the name, and moves its entry out of the table. Returns the entry, or `None` if the table has no entry
    /// of this name. If an allocation fails, nothing has changed.
    #[tactic(auto, using(crate::proofs::Whole::without_whole))]
    pub fn take(&mut self, name: &'de str) -> Result<Option<(Key<'de>, Value<'de>)>, AllocError>
        ensures answer { Takes name.now (state_of self.old) result (state_of self.new) }
        ensures whole { AllWhole (state_of self.old) → AllWhole (state_of self.new) }
    {
        if self.asked.push(name).is_err() {
            return Err(AllocError);
        }
        Ok(remove(&mut self.table, name))
    }

    /// Records the name, moves its entry out of the table, and reads the value.
    ///
    /// If the table has no entry of this name, keeps the error `MissingField` at the table's span, and fails with a
    /// copy of the error. If the read fails, keeps all its errors, and fails with a copy of the last error. If an
    /// allocation fails, no error is kept, but the name may be recorded and its entry gone.
    pub fn required<T: Deserialize<'de>>(&mut self, name: &'de str) -> Result<T, Stop<Error<'de>>>
        requires { IfSome (found name.now (state_of self.old)) (λ value. IsTrue (is_whole value)) }
        ensures answer { Requires T.reads name.now (state_of self.old) result (state_of self.new) }
        ensures whole { AllWhole (state_of self.old) → AllWhole (state_of self.new) }
    {
        match self.take(name) {
            Ok(Some((key, value))) => {
                drop(key);
                self.read_value(value)
            }
            Ok(None) => {
                self.keep(missing_field(name, self.span))?;
                Err(Stop::Fault(missing_field(name, self.span)))
            }
            Err(e) => Err(Stop::Memory(e)),
        }
    }

    /// Reads a field as `required` does, and returns it with the value's span.
    pub fn required_s<T: Deserialize<'de>>(
        &mut self,
        name: &'de str,
    ) -> Result<Spanned<T>, Stop<Error<'de>>>
        requires { IfSome (found name.now (state_of self.old)) (λ value. IsTrue (is_whole value)) }
        ensures answer { Requires (spanned T.reads (λ s. s.value) (λ s. s.span)) name.now (state_of self.old) result
            (state_of self.new) }
        ensures whole { AllWhole (state_of self.old) → AllWhole (state_of self.new) }
    {
        self.required(name)
    }

    /// Records the name, moves its entry out of the table, if there is one, and reads the value.
    ///
    /// Returns `None` if the table has no entry of this name. Also returns `None` if the read fails, after keeping all
    /// its errors. If an allocation fails, no error is kept, but the name may be recorded and its entry gone.
    pub fn optional<T: Deserialize<'de>>(&mut self, name: &'de str) -> Result<Option<T>, AllocError>
        requires { IfSome (found name.now (state_of self.old)) (λ value. IsTrue (is_whole value)) }
        ensures answer { Tries T.reads name.now (state_of self.old) result (state_of self.new) }
        ensures whole { AllWhole (state_of self.old) → AllWhole (state_of self.new) }
    {
        match self.take(name) {
            Ok(Some((key, value))) => {
                drop(key);
                read_or_keep(self.alloc, value, &mut self.errors)
            }
            Ok(None) => Ok(None),
            Err(e) => Err(e),
        }
    }

    /// Reads a field as `optional` does, and returns it with the value's span.
    pub fn optional_s<T: Deserialize<'de>>(
        &mut self,
        name: &'de str,
    ) -> Result<Option<Spanned<T>>, AllocError>
        requires { IfSome (found name.now (state_of self.old)) (λ value. IsTrue (is_whole value)) }
        ensures answer { Tries (spanned T.reads (λ s. s.value) (λ s. s.span)) name.now (state_of self.old) result
            (state_of self.new) }
        ensures whole { AllWhole (state_of self.old) → AllWhole (state_of self.new) }
    {
        self.optional(name)
    }

    /// Ends the read. Returns `Ok` if no error was kept, otherwise fails with all errors in order.
    ///
    /// If `original` is `Some(value)`, puts the entries that remain back into `value` as a table, even if errors were
    /// kept. `value` keeps its span, and nothing is allocated.
    ///
    /// If `original` is `None`, also fails if entries remain: the last error is then `UnexpectedKeys` at the table's
    /// span. This error has the keys that remain, in the order of their names, and the recorded names, in the order in
    /// which they were recorded. If an allocation fails, returns the helper unchanged, in `Unfinished::Memory`.
    pub fn finalize(self, original: Option<&mut Value<'de>>) -> Result<(), Unfinished<'de>>
        ensures answer { Finalizes (state_of self.entry) original.entry result }
        ensures rest { Leaves (HoldsRest self.entry.table) original.entry original.exit }
    {
        match original {
            Some(value) => self.put_back(value),
            None => self.refuse_rest(),
        }
    }

    /// Ends the read, and puts the entries that remain back into `value`. Fails if any errors were kept, with all of
    /// them.
    fn put_back(self, value: &mut Value<'de>) -> Result<(), Unfinished<'de>>
        ensures answer { EndsWithErrors (state_of self.entry).errors result }
        ensures rest { HoldsRest self.entry.table value.old value.new }
    {
        let TableHelper {
            table,
            errors,
            asked: _,
            span: _,
            alloc: _,
        } = self;
        value.set(ValueInner::Table(table));
        finish(errors)
    }

    /// Ends the read. If entries remain, keeps the error `UnexpectedKeys`. Fails if any errors were kept, with all of
    /// them. If an allocation fails, fails with the unchanged helper in `Unfinished::Memory`.
    fn refuse_rest(mut self) -> Result<(), Unfinished<'de>>
        ensures { Refuses (state_of self.entry) result }
    {
        if self.keep_unasked().is_err() {
            return Err(Unfinished::Memory(self));
        }
        finish(self.errors)
    }

    /// Keeps the error `UnexpectedKeys` if entries remain. If an allocation fails, nothing has changed.
    fn keep_unasked(&mut self) -> Result<(), AllocError>
        ensures ok { OnOk result (state_of self.new ≡ keeping (unasked (state_of self.old)) (state_of self.old)) }
        ensures some { OnErr result (is_filled (state_of self.old).members ≡ true) }
        ensures err { OnErr result (state_of self.new ≡ state_of self.old) }
    {
        if self.table.is_empty() {
            return Ok(());
        }
        let error = self.unexpected_keys()?;
        self.keep(error)
    }

    /// Returns the error `UnexpectedKeys` for the entries that remain.
    fn unexpected_keys(&self) -> Result<Error<'de>, AllocError>
        ensures { IfOk result (λ e. content_of e ≡ unexpected_entries (state_of self.now)) }
    {
        let keys = key_names(self.alloc, &self.table)?;
        let expected = copied_texts(self.alloc, self.asked.as_slice())?;
        Ok(Error::from((ErrorKind::UnexpectedKeys { keys, expected }, self.span)))
    }

    /// Reads a value. If the read fails, keeps all its errors, and fails with a copy of the last error. If an
    /// allocation fails, keeps no error.
    fn read_value<T: Deserialize<'de>>(
        &mut self,
        mut value: Value<'de>,
    ) -> Result<T, Stop<Error<'de>>>
        requires { IsTrue (is_whole (view value)) }
        ensures { ReadsValue T.reads (view value.entry) (state_of self.old) result (state_of self.new) }
    {
        let read = T::deserialize(self.alloc, &mut value);
        drop(value);
        match read {
            Ok(x) => Ok(x),
            Err(Stop::Memory(e)) => Err(Stop::Memory(e)),
            Err(Stop::Fault(faults)) => Err(Stop::Fault(self.keep_all(faults)?)),
        }
    }

    /// Keeps one error. If an allocation fails, nothing has changed.
    fn keep(&mut self, error: Error<'de>) -> Result<(), AllocError>
        ensures ok { OnOk result (state_of self.new ≡ keeping (content_of error.entry ∷ []) (state_of self.old)) }
        ensures err { OnErr result (state_of self.new ≡ state_of self.old) }
    {
        self.errors.push(error)?;
        Ok(())
    }

    /// Keeps all errors of a read, and returns a copy of the last error. If an allocation fails, keeps no error.
    fn keep_all(&mut self, faults: DeserError<'de>) -> Result<Error<'de>, AllocError>
        ensures ok { IfOk result (λ e. (content_of e ≡ faults.entry.last)
            × (state_of self.new ≡ keeping (all faults.entry) (state_of self.old))) }
        ensures err { OnErr result (state_of self.new ≡ state_of self.old) }
    {
        let last = match faults.last().clone(self.alloc) {
            Ok(last) => last,
            Err(e) => {
                drop(faults);
                return Err(e);
            }
        };
        match faults.append_to(&mut self.errors) {
            Ok(()) => Ok(last),
            Err(e) => {
                drop(last);
                Err(e)
            }
        }
    }
}

/// Moves the entry with this name out of the table, and returns it. Returns `None` if the table has no such entry.
fn remove<'de>(table: &mut Table<'de>, name: &'de str) -> Option<(Key<'de>, Value<'de>)>
    ensures rest { members_view table.new.entries ≡ without name.now (members_view table.old.entries) }
    ensures entry { option_map (λ e. (Some e.0.span, view e.1)) result
        ≡ entry_at name.now (members_view table.old.entries) }
    ensures name { IfSome result (λ e. cow_str_bytes e.0.name ≡ name.now) }
{
    table.remove_entry(&Key::named(name))
}

/// Returns the error `MissingField` for the field `name`. `span` is the span of the table.
fn missing_field<'s>(name: &'s str, span: Span) -> Error<'s>
    ensures { content_of result ≡ record { kind = missing_field name.now; span = span; line_info = None } }
{
    Error::from((ErrorKind::MissingField(name), span))
}

/// Returns `Ok` if `errors` is empty, otherwise fails with all of `errors`.
fn finish<'de>(errors: Vec<Error<'de>>) -> Result<(), Unfinished<'de>>
    ensures { EndsWithErrors (map content_of errors.entry.items) result }
{
    match DeserError::from_list(errors) {
        None => Ok(()),
        Some(faults) => Err(Unfinished::Faults(faults)),
    }
}

/// Returns the names and spans of a table's keys, in the order of the names.
fn key_names(alloc: Global, table: &Table) -> Result<Vec<(String, Span)>, AllocError>
    ensures { IfOk result (λ names. map key_text names.items ≡ remaining_keys (members_view table.now.entries)) }
{
    let mut names = Vec::new(alloc);
    for key in table.keys() {
        let name = String::from_str(alloc, key.name.as_str())?;
        names.push((name, key.span))?;
    }
    Ok(names)
}

/// Returns a list of copies of the texts.
fn copied_texts(alloc: Global, texts: &[&str]) -> Result<Vec<String>, AllocError>
    ensures { IfOk result (λ copies. map string_bytes copies.items ≡ map (λ text. text.now) texts.now) }
{
    let mut copies = Vec::new(alloc);
    for text in texts {
        copies.push(String::from_str(alloc, *text)?)?;
    }
    Ok(copies)
}
