//! Names that must not be repeated in a list.
ghost use Rattle.std.specs.Prelude.{◌≡◌, ◌≤◌, ◌++◌, [], IfOk, OnErr, OnOk, map, option_map};
ghost use Rattle.toml_span_tree.specs.Error.{content_of};
ghost use Rattle.toml_span_tree.specs.Node.{get_member};
ghost use Rattle.toml_span_tree.specs.Value.{items_view, members_view, view};
ghost use Rattle.toml_span_typed.specs.Fields.{kept};
ghost use Rattle.toml_span_typed.specs.Names as spec;
ghost use Rattle.toml_span_typed.specs.Names.{named};
ghost use Rattle.toml_span_typed.specs.TableHelper.{AllWhole, found, keeping, state_of};

use crate::de_helpers::table_helper::TableHelper;
use std::alloc::{AllocError, Global};
use std::borrow::CowStr;
use std::collections::BTreeMap;
use toml_span_lex::key::Key;
use toml_span_lex::span::Span;
use toml_span_tree::{Error, ErrorKind, Table, Value};

impl<'de> TableHelper<'de> {
    /// Returns an empty list of names, for `keep_repeated`.
    #[doc(hidden)]
    pub fn no_names<'a>(&self) -> Vec<(&'a str, Span)>
        ensures { result.items ≡ [] }
    {
        Vec::new(self.alloc)
    }

    /// Returns the errors of `keep_repeated` for the names in the array at `key`: the strings with the key `name` in
    /// its elements. Skips an element that is not a table with such a string. Returns no error if the table has no such
    /// array.
    pub fn repeated_at(&self, key: &'de str, name: &'de str) -> Result<Vec<Error<'de>>, AllocError>
        ensures { IfOk result (λ errors. map content_of errors.items
            ≡ spec.repeated (spec.names_at name.now (found key.now (state_of self.now)))) }
    {
        match entry(&self.table, key) {
            Some(value) => repeated_in(self.alloc, value, name),
            None => Ok(Vec::new(self.alloc)),
        }
    }

    /// Keeps an error for each of `names` that equals an earlier name in the list: `Marked` with the code
    /// `duplicate-name`, at the name's span. The error also marks the previous occurrence. If an allocation fails, no
    /// error is kept.
    pub fn keep_repeated(&mut self, names: &[(&str, Span)]) -> Result<(), AllocError>
        ensures ok { OnOk result (state_of self.new
            ≡ keeping (spec.repeated (map named names.now)) (state_of self.old)) }
        ensures recorded { OnOk result (kept (state_of self.old) ≤ kept (state_of self.new)) }
        ensures err { OnErr result (state_of self.new ≡ state_of self.old) }
        ensures whole { AllWhole (state_of self.old) → AllWhole (state_of self.new) }
    {
        self.keep_errors(repeated(self.alloc, names)?)
    }

    /// Keeps the errors, in order. If an allocation fails, keeps none.
    pub fn keep_errors(&mut self, errors: Vec<Error<'de>>) -> Result<(), AllocError>
        ensures ok { OnOk result (state_of self.new
            ≡ keeping (map content_of errors.entry.items) (state_of self.old)) }
        ensures recorded { OnOk result (kept (state_of self.old) ≤ kept (state_of self.new)) }
        ensures err { OnErr result (state_of self.new ≡ state_of self.old) }
        ensures whole { AllWhole (state_of self.old) → AllWhole (state_of self.new) }
    {
        let mut errors = errors;
        self.errors.append(&mut errors)
    }
}

/// Returns the value of the entry with this name, or `None` if the table has no such entry.
fn entry<'v, 'de>(table: &'v Table<'de>, name: &'de str) -> Option<&'v Value<'de>>
    ensures { option_map (λ v. view v.now) result ≡ get_member name.now (members_view table.now.entries) }
{
    table.get(&Key::named(name))
}

/// Returns the string with the key `name` in a table, with its span. Returns `None` if the value is not a table with
/// such a string.
fn name_in<'v, 'de>(value: &'v Value<'de>, name: &'de str) -> Option<(&'v str, Span)>
    ensures { option_map named result ≡ spec.name_in name.now (view value.now) }
{
    let found = entry(value.as_table()?, name)?;
    Some((found.as_str()?, found.span))
}

/// Returns the strings with the key `name` in the elements, with their spans. Skips elements that have none.
fn names_of<'v, 'de>(
    alloc: Global,
    items: &'v [Value<'de>],
    name: &'de str,
) -> Result<Vec<(&'v str, Span)>, AllocError>
    ensures { IfOk result (λ names. map named names.items ≡ spec.names_of name.now (items_view items.now)) }
{
    let mut names = Vec::new(alloc);
    for item in items {
        if let Some(found) = name_in(item, name) {
            names.push(found)?;
        }
    }
    Ok(names)
}

/// Returns an error for each name in an array that equals an earlier one. The names are the strings with the key `name`
/// in the elements. Returns no errors if the value is not an array.
fn repeated_in<'s, 'de>(
    alloc: Global,
    value: &Value<'de>,
    name: &'de str,
) -> Result<Vec<Error<'s>>, AllocError>
    ensures { IfOk result (λ errors. map content_of errors.items
        ≡ spec.repeated (spec.names_in name.now (view value.now))) }
{
    match value.as_array() {
        Some(items) => {
            let names = names_of(alloc, items.as_slice(), name)?;
            repeated(alloc, names.as_slice())
        }
        None => Ok(Vec::new(alloc)),
    }
}

/// Returns an error for each name that equals an earlier name in the list, in order.
fn repeated<'s>(alloc: Global, names: &[(&str, Span)]) -> Result<Vec<Error<'s>>, AllocError>
    ensures { IfOk result (λ errors. map content_of errors.items ≡ spec.repeated (map named names.now)) }
{
    let mut errors = Vec::new(alloc);
    let mut places = BTreeMap::new(alloc);
    for name in names {
        let before = places.insert(name.0, name.1)?;
        push_repeated(alloc, name, before, &mut errors)?;
    }
    drop(places);
    Ok(errors)
}

/// Appends the error for `name`, a name with its span that also occurs at `before`, to `errors`. Appends nothing if
/// `before` is `None`.
fn push_repeated<'s>(
    alloc: Global,
    name: &(&str, Span),
    before: Option<Span>,
    errors: &mut Vec<Error<'s>>,
) -> Result<(), AllocError>
    ensures { OnOk result (map content_of errors.new.items
        ≡ map content_of errors.old.items ++ spec.duplicate_errors (named name.now) before) }
{
    if let Some(before) = before {
        errors.push(repeated_name(alloc, name.0, name.1, before)?)?;
    }
    Ok(())
}

/// Returns the error for `name`, which occurs at `before` and again at `span`. The error is at `span`.
fn repeated_name<'s>(
    alloc: Global,
    name: &str,
    span: Span,
    before: Span,
) -> Result<Error<'s>, AllocError>
    ensures { IfOk result (λ error. content_of error ≡ spec.duplicate_name_error (name.now, span) before) }
{
    let mut places = Vec::new(alloc);
    places.push((String::from_str(alloc, "also here")?, before))?;
    let message = format!(in alloc; "duplicate name: `{name}`")?;
    let kind = ErrorKind::Marked {
        code: "duplicate-name",
        message: CowStr::Owned(message),
        places,
    };
    Ok(Error::from((kind, span)))
}
