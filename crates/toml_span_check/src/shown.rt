//! Prints values as JSON, or strings, floats, dates and times as their text.
ghost use Rattle.std.specs.Prelude.{◌≡◌, ◌++◌, false, true, map, OnOk, IfOk, string_bytes, codes};
ghost use Rattle.toml_span_tree.specs.Order.{entry_of};
ghost use Rattle.toml_span_tree.specs.Value.{float_value, view, inner_view, items_view, members_view};
ghost use Rattle.toml_span_check.specs.Order.{in_order, items_in_order, members_in_order};
ghost use Rattle.toml_span_check.specs.Shown as spec;
ghost use Rattle.toml_span_check.specs.code.Entries.{entries_in_order};

use crate::dates::{date_type, with_seconds};
use std::alloc::{AllocError, Global};
use toml_span::value::{FloatText, Table, Value, ValueInner};
use toml_span_lex::key::Key;
use toml_span_report::visible::push_quoted;

/// Returns a boolean as text: `true` or `false`.
pub(crate) fn truth(is_true: bool) -> &'static str
    ensures { result.now ≡ spec.truth is_true }
{
    if is_true { "true" } else { "false" }
}

/// Appends a comma if `later` is true, as it is for each element or entry except the first.
pub(crate) fn push_comma(out: &mut String, later: bool) -> Result<(), AllocError>
    ensures { OnOk result (string_bytes out.new ≡ string_bytes out.old ++ spec.comma_if later) }
{
    if later {
        out.push_str(",")?;
    }
    Ok(())
}

/// Appends a JSON object with the type and the value of a scalar.
fn push_tagged(
    alloc: Global,
    out: &mut String,
    type_name: &str,
    value: &str,
) -> Result<(), AllocError>
    ensures { OnOk result (string_bytes out.new ≡ string_bytes out.old ++ spec.tagged type_name.now value.now) }
{
    out.push_str("{\"type\":")?;
    push_quoted(alloc, out, type_name)?;
    out.push_str(",\"value\":")?;
    push_quoted(alloc, out, value)?;
    out.push_str("}")
}

/// Appends a scalar as a JSON object with its type and value, or nothing for an array or a table.
fn push_typed(alloc: Global, out: &mut String, scalar: &ValueInner<'_>) -> Result<(), AllocError>
    ensures { OnOk result (string_bytes out.new ≡ string_bytes out.old ++ spec.own_text true (inner_view scalar.now)) }
{
    match scalar {
        ValueInner::String(text) => push_tagged(alloc, out, "string", text.as_ref()),
        ValueInner::Integer(number) => {
            let digits = number.to_string(alloc)?;
            push_tagged(alloc, out, "integer", digits.as_str())
        }
        ValueInner::Float(float) => push_tagged(alloc, out, "float", float.text()),
        ValueInner::Boolean(is_true) => push_tagged(alloc, out, "bool", truth(*is_true)),
        ValueInner::Datetime(date) => {
            let text = with_seconds(alloc, date.text())?;
            push_tagged(alloc, out, date_type(date.text()), text.as_str())
        }
        ValueInner::Array(_) => Ok(()),
        ValueInner::Table(_) => Ok(()),
    }
}

/// Appends a float as a JSON number or, since JSON has no infinity and no NaN, as a string: `"inf"`, `"-inf"`, `"nan"` or
/// `"-nan"`.
fn push_float(alloc: Global, out: &mut String, float: &FloatText) -> Result<(), AllocError>
    ensures { OnOk result (string_bytes out.new ≡ string_bytes out.old ++ spec.plain_float (float_value float.now)) }
{
    match float {
        FloatText::Finite(text) => out.push_str(text.as_str()),
        FloatText::Infinite { .. } | FloatText::NotANumber { .. } => push_quoted(
            alloc,
            out,
            float.text(),
        ),
    }
}

/// Appends a scalar as JSON, with dates and times as strings. Appends nothing for an array or a table.
fn push_plain(alloc: Global, out: &mut String, scalar: &ValueInner<'_>) -> Result<(), AllocError>
    ensures { OnOk result (string_bytes out.new ≡ string_bytes out.old ++ spec.own_text false (inner_view scalar.now)) }
{
    match scalar {
        ValueInner::String(text) => push_quoted(alloc, out, text.as_ref()),
        ValueInner::Integer(number) => {
            let digits = number.to_string(alloc)?;
            out.push_str(digits.as_str())
        }
        ValueInner::Float(float) => push_float(alloc, out, float),
        ValueInner::Boolean(is_true) => out.push_str(truth(*is_true)),
        ValueInner::Datetime(date) => push_quoted(alloc, out, date.text()),
        ValueInner::Array(_) => Ok(()),
        ValueInner::Table(_) => Ok(()),
    }
}

/// How to print a value.
#[derive(Clone, Copy)]
pub(crate) struct Shape {
    pub(crate) alloc: Global,
    /// Whether scalars have their types, as in the test suite `toml-test`.
    pub(crate) is_tagged: bool,
    /// Whether keys are sorted. Otherwise, they are in the order of the text.
    pub(crate) is_sorted: bool,
}

/// Returns the entries of a table in the order of their names or, unless `is_sorted`, in the order in which their keys
/// start in the text.
fn entries_of<'v, 'de>(
    alloc: Global,
    table: &'v Table<'de>,
    is_sorted: bool,
) -> Result<Vec<(&'v Key<'de>, &'v Value<'de>)>, AllocError>
    ensures { IfOk result (λ entries. map entry_of entries.items ≡ entries_in_order is_sorted table.now.entries) }
{
    let mut entries = listed(alloc, table)?;
    if is_sorted {
        return Ok(entries);
    }
    entries.sort_by_key(|entry| entry.0.span.start)?;
    Ok(entries)
}

/// Returns the entries of a table in the order of their names.
fn listed<'v, 'de>(
    alloc: Global,
    table: &'v Table<'de>,
) -> Result<Vec<(&'v Key<'de>, &'v Value<'de>)>, AllocError>
    ensures { IfOk result (λ entries. map entry_of entries.items ≡ table.now.entries) }
{
    let mut entries = Vec::with_capacity(alloc, table.len())?;
    for (key, value) in table.iter() {
        entries.push((key, value))?;
    }
    Ok(entries)
}

/// Appends a value as JSON. A value that has been taken is `null`.
#[cycle(push_value)]
fn push_value(shape: Shape, out: &mut String, value: &Value<'_>) -> Result<(), AllocError>
    ensures { OnOk result (string_bytes out.new ≡ string_bytes out.old
        ++ spec.to_json shape.is_tagged (in_order shape.is_sorted (view value.now))) }
{
    if value.is_taken() {
        out.push_str("null")?;
        return Ok(());
    }
    let inner = value.as_ref();
    match inner {
        ValueInner::Array(elements) => push_elements(shape, out, elements.as_slice()),
        ValueInner::Table(table) => push_entries(shape, out, table),
        _ => {
            if shape.is_tagged {
                push_typed(shape.alloc, out, inner)
            } else {
                push_plain(shape.alloc, out, inner)
            }
        }
    }
}

/// Appends the elements of an array, in brackets.
#[cycle(push_value)]
fn push_elements(shape: Shape, out: &mut String, elements: &[Value<'_>]) -> Result<(), AllocError>
    ensures { OnOk result (string_bytes out.new ≡ string_bytes out.old ++ (codes "["
        ++ spec.items_shown shape.is_tagged false (items_in_order shape.is_sorted (items_view elements.now)))) }
{
    out.push_str("[")?;
    let mut later = false;
    for element in elements {
        push_comma(out, later)?;
        push_value(shape, out, element)?;
        later = true;
    }
    out.push_str("]")?;
    Ok(())
}

/// Appends the entries of a table, in braces.
#[cycle(push_value)]
fn push_entries(shape: Shape, out: &mut String, table: &Table<'_>) -> Result<(), AllocError>
    ensures { OnOk result (string_bytes out.new ≡ string_bytes out.old ++ (codes "{"
        ++ spec.members_shown shape.is_tagged false
        (members_in_order shape.is_sorted (members_view table.now.entries)))) }
{
    out.push_str("{")?;
    let entries = entries_of(shape.alloc, table, shape.is_sorted)?;
    let mut later = false;
    for entry in &entries {
        push_comma(out, later)?;
        push_quoted(shape.alloc, out, entry.0.name.as_ref())?;
        out.push_str(":")?;
        push_value(shape, out, entry.1)?;
        later = true;
    }
    out.push_str("}")?;
    Ok(())
}

/// Returns a value as JSON.
pub(crate) fn to_json(shape: Shape, value: &Value<'_>) -> Result<String, AllocError>
    ensures { IfOk result (λ out. string_bytes out
        ≡ spec.to_json shape.is_tagged (in_order shape.is_sorted (view value.now))) }
{
    let mut out = String::new(shape.alloc);
    push_value(shape, &mut out, value)?;
    Ok(out)
}

/// Returns a string, float, date or time as its text, and any other value as JSON, with sorted keys if `is_sorted`.
pub(crate) fn raw(alloc: Global, value: &Value<'_>, is_sorted: bool) -> Result<String, AllocError>
    ensures { IfOk result (λ out. string_bytes out ≡ spec.raw (in_order is_sorted (view value.now))) }
{
    if value.is_taken() {
        return String::from_str(alloc, "null");
    }
    let shape = Shape {
        alloc,
        is_tagged: false,
        is_sorted,
    };
    match value.as_ref() {
        ValueInner::String(text) => String::from_str(alloc, text.as_ref()),
        ValueInner::Float(float) => String::from_str(alloc, float.text()),
        ValueInner::Datetime(date) => String::from_str(alloc, date.text()),
        _ => to_json(shape, value),
    }
}
