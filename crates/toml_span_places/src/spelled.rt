//! Writes values as TOML.
ghost use Rattle.std.specs.Prelude.{◌≡◌, ◌++◌, IfOk, OnOk, true, string_bytes};
ghost use Rattle.std.specs.Fmt.{signed_decimal};
ghost use Rattle.std.specs.Str.{IsUtf8};
ghost use Rattle.toml_span_tree.specs.Node.{integer};
ghost use Rattle.toml_span_tree.specs.Value.{view, inner_view, items_view, members_view};
ghost use Rattle.toml_span_read.specs.Again.{ReadsAsValue};
ghost use Rattle.toml_span_places.specs.Quoted as quoted;
ghost use Rattle.toml_span_places.specs.Spelled as spec;
ghost use Rattle.toml_span_places.specs.code.Spelled.{AreHeld, IsHeld, IsHeldScalar, MembersHeld};

use crate::quoted::{quote_key, quote_string};
use std::alloc::{AllocError, Global};
use std::fmt::Write;
use toml_span_tree::{Table, Value, ValueInner};

/// Appends `text` to `out` as a TOML string.
fn push_string(alloc: Global, text: &str, out: &mut String) -> Result<(), AllocError>
    ensures text { OnOk result (string_bytes out.new ≡ string_bytes out.old ++ quoted.quoted text.now) }
    ensures held { OnOk result (IsUtf8 text.now) }
{
    let spelled = quote_string(alloc, text)?;
    out.push_str(spelled.as_str())
}

/// Appends `name` to `out` as a TOML key, and then ` = `.
fn push_key(alloc: Global, name: &str, out: &mut String) -> Result<(), AllocError>
    ensures text { OnOk result (string_bytes out.new ≡ string_bytes out.old ++ spec.key_equals name.now) }
    ensures held { OnOk result (IsUtf8 name.now) }
{
    let spelled = quote_key(alloc, name)?;
    out.push_str(spelled.as_str())?;
    out.push_str(" = ")
}

/// Appends `number` to `out` in decimal.
fn push_integer(number: i64, out: &mut String) -> Result<(), AllocError>
    ensures text { OnOk result (string_bytes out.new ≡ string_bytes out.old ++ signed_decimal number) }
    ensures held { OnOk result (IsHeldScalar (integer number)) }
{
    write!(out, "{number}")
}

/// Appends to `out` the comma and space before an element or a pair. Appends nothing before the first.
fn push_separator(is_first: bool, out: &mut String) -> Result<(), AllocError>
    ensures { OnOk result (string_bytes out.new ≡ string_bytes out.old ++ spec.separator is_first) }
{
    out.push_str(if is_first { "" } else { ", " })
}

/// Appends `value` to `out` as TOML on one line. Appends nothing for a taken value.
#[cycle(push_value)]
fn push_value(alloc: Global, value: &Value<'_>, out: &mut String) -> Result<(), AllocError>
    ensures text { OnOk result (string_bytes out.new ≡ string_bytes out.old ++ spec.value_text (view value.now)) }
    ensures held { OnOk result (IsHeld (view value.now)) }
{
    if value.is_taken() {
        return Ok(());
    }
    match value.as_ref() {
        ValueInner::String(text) => push_string(alloc, text.as_ref(), out),
        ValueInner::Integer(number) => push_integer(*number, out),
        ValueInner::Float(float) => out.push_str(float.text()),
        ValueInner::Boolean(truth) => out.push_str(if *truth { "true" } else { "false" }),
        ValueInner::Datetime(date) => out.push_str(date.text()),
        ValueInner::Array(elements) => {
            out.push('[')?;
            push_elements(alloc, elements.as_slice(), out)?;
            out.push(']')
        }
        ValueInner::Table(table) => {
            out.push('{')?;
            push_entries(alloc, table, out)?;
            out.push('}')
        }
    }
}

/// Appends the elements of an array to `out`, separated by commas, without the brackets.
#[cycle(push_value)]
fn push_elements(alloc: Global, elements: &[Value<'_>], out: &mut String) -> Result<(), AllocError>
    ensures text { OnOk result (string_bytes out.new ≡ string_bytes out.old
        ++ spec.items_text true (items_view elements.now)) }
    ensures held { OnOk result (AreHeld (items_view elements.now)) }
{
    let mut is_first = true;
    for element in elements {
        push_separator(is_first, out)?;
        push_value(alloc, element, out)?;
        is_first = false;
    }
    Ok(())
}

/// Appends the entries of a table to `out`, separated by commas, without the braces.
#[cycle(push_value)]
fn push_entries(alloc: Global, table: &Table<'_>, out: &mut String) -> Result<(), AllocError>
    ensures text { OnOk result (string_bytes out.new ≡ string_bytes out.old
        ++ spec.members_text true (members_view table.now.entries)) }
    ensures held { OnOk result (MembersHeld (members_view table.now.entries)) }
{
    let mut is_first = true;
    for (key, value) in table.iter() {
        push_separator(is_first, out)?;
        push_key(alloc, key.name.as_ref(), out)?;
        push_value(alloc, value, out)?;
        is_first = false;
    }
    Ok(())
}

/// Returns `value` as TOML on one line.
fn spelled_value(alloc: Global, value: &Value<'_>) -> Result<String, AllocError>
    ensures text { IfOk result (λ text. string_bytes text ≡ spec.value_text (view value.now)) }
    ensures held { OnOk result (IsHeld (view value.now)) }
{
    let mut out = String::new(alloc);
    push_value(alloc, value, &mut out)?;
    Ok(out)
}

/// Returns `value` as TOML on one line: strings and keys as `quote_string` and `quote_key` write them, integers in
/// decimal, floats and dates as their texts, arrays in brackets, and tables as inline tables with their keys in the
/// order of the names.
///
/// Where a value may begin in a document, the result is read as this value, unless the bytes after the result continue
/// it (see `may_follow` in `toml_span_read`). That holds if `value` is whole (`is_whole`), if the texts of its floats
/// are valid, as in every tree that `parse` returns, and if it is not nested deeper than the reader's limit. Otherwise
/// the result may be read as another value, or not at all. Fails if an allocation fails.
pub fn to_toml(alloc: Global, value: &Value<'_>) -> Result<String, AllocError>
    ensures spelling { IfOk result (λ text. string_bytes text ≡ spec.value_text (view value.now)) }
    ensures reads { IfOk result (λ text. ReadsAsValue (view value.now) (string_bytes text)) }
{
    spelled_value(alloc, value)
}
