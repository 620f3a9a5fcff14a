//! The values directly inside a value.
ghost use Rattle.std.specs.Prelude.{◌≡◌, ◌++◌, IfOk, OnOk, map};
ghost use Rattle.toml_span_tree.specs.Value.{inner_of, items_view, members_view, view};
ghost use Rattle.toml_span_schema.specs.Parts.{elements_from, entries_of, kind_in, part_of};
ghost use Rattle.toml_span_schema.specs.Parts.{parts_of, value_of};

use std::alloc::{AllocError, Global};
use toml_span_lex::key::Key;
use toml_span_lex::span::Span;
use toml_span_tree::{Table, Value, ValueInner};

/// A value by its place: an entry of a table with its key, an element of an array with its position, or a value of
/// which the place does not matter.
#[derive(Clone, Copy)]
pub(crate) enum Part<'v, 'de> {
    Member(&'v Key<'de>, &'v Value<'de>),
    Element(usize, &'v Value<'de>),
    Whole(&'v Value<'de>),
}

impl<'v, 'de> Part<'v, 'de> {
    /// Returns the value of the entry, the element, or the value.
    pub(crate) fn value(&self) -> &'v Value<'de>
        ensures { view result.now ≡ value_of (part_of self.now) }
    {
        match self {
            Part::Member(_, value) => *value,
            Part::Element(_, value) => *value,
            Part::Whole(value) => *value,
        }
    }

    /// Returns the span that marks the value in a report: that of its key if the value has a header, the start of
    /// a document, and otherwise the value's own.
    pub(crate) fn mark(&self) -> Span {
        let Span { start, end } = self.value().span;
        match self {
            Part::Member(key, _) if self.is_header() => key.span,
            Part::Whole(value) if value.as_table().is_some() => Span { start, end: start },
            _ => Span { start, end },
        }
    }

    /// Returns whether the value is a table or an array of tables with a header, in which its key is.
    pub(crate) fn is_header(&self) -> bool {
        match self {
            Part::Member(key, value) => {
                value.span.start < key.span.start && key.span.end <= value.span.end
            }
            _ => false,
        }
    }
}

/// Lists the values directly inside a value: the elements of an array in order, or the entries of a table in the order
/// of their names. The list is empty for other values and for taken values.
pub(crate) fn parts<'v, 'de>(
    alloc: Global,
    value: &'v Value<'de>,
) -> Result<Vec<Part<'v, 'de>>, AllocError>
    ensures { IfOk result (λ list. map part_of list.items ≡ parts_of (view value.now)) }
{
    let mut list = Vec::new(alloc);
    if value.is_taken() {
        return Ok(list);
    }
    match value.as_ref() {
        ValueInner::Array(array) => push_elements(&mut list, array.as_slice())?,
        ValueInner::Table(table) => push_members(&mut list, table)?,
        _ => {}
    }
    Ok(list)
}

/// Lists the entries of a table if `entries` is set, otherwise the elements of an array. The list is empty for all
/// other values.
pub(crate) fn parts_of_kind<'v, 'de>(
    alloc: Global,
    value: &'v Value<'de>,
    entries: bool,
) -> Result<Vec<Part<'v, 'de>>, AllocError>
    ensures { IfOk result (λ list. map part_of list.items ≡ kind_in entries (inner_of (view value.now))) }
{
    let mut list = Vec::new(alloc);
    if value.is_taken() {
        return Ok(list);
    }
    match value.as_ref() {
        ValueInner::Array(array) if !entries => push_elements(&mut list, array.as_slice())?,
        ValueInner::Table(table) if entries => push_members(&mut list, table)?,
        _ => {}
    }
    Ok(list)
}

/// Appends the elements of an array to `list`, with their positions.
fn push_elements<'v, 'de>(
    list: &mut Vec<Part<'v, 'de>>,
    array: &'v [Value<'de>],
) -> Result<(), AllocError>
    ensures { OnOk result (map part_of list.new.items
        ≡ map part_of list.old.items ++ elements_from 0 (items_view array.now)) }
{
    for (i, value) in array.iter().enumerate() {
        list.push(Part::Element(i, value))?;
    }
    Ok(())
}

/// Appends the entries of a table to `list`, with their keys.
fn push_members<'v, 'de>(
    list: &mut Vec<Part<'v, 'de>>,
    table: &'v Table<'de>,
) -> Result<(), AllocError>
    ensures { OnOk result (map part_of list.new.items
        ≡ map part_of list.old.items ++ entries_of (members_view table.now.entries)) }
{
    for (key, value) in table.iter() {
        list.push(Part::Member(key, value))?;
    }
    Ok(())
}
