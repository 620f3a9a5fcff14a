//! Canonical texts: two values are equal for JSON Schema if and only if their canonical texts are the same.

ghost use Rattle.std.specs.Prelude.{◌≡◌, ◌++◌, [], IfOk, OnOk, map, string_bytes};
ghost use Rattle.toml_span_tree.specs.Value.{items_view, members_view, view};
ghost use Rattle.toml_span_schema.specs.Canonical.{all_new, canonical, items_form, members_form};
ghost use Rattle.toml_span_schema.specs.Canonical.{plain_form, text_form};
ghost use Rattle.toml_span_schema.specs.Numbers.{plain};

use crate::dates::rfc3339;
use crate::decimal::number_in;
use crate::error::CheckError;
use crate::numbers::{Decimal, Number};
use std::alloc::{AllocError, Global};
use std::collections::BTreeSet;
use toml_span_tree::{Table, Value, ValueInner};

/// The limit on how deep values nest. No document reaches this limit: a header has at most 128 parts, each of which can
/// be an array and a table, and an assignment adds at most 128 levels.
pub(crate) const LEVELS: usize = 1_000;

/// Appends the length of `text` in bytes, a colon and `text`.
pub(crate) fn push_text(out: &mut String, text: &str) -> Result<(), AllocError>
    ensures { OnOk result (string_bytes out.new ≡ string_bytes out.old ++ text_form text.now) }
{
    let alloc = *out.allocator();
    let length = text.len();
    let front = format!(in alloc; "{length}:")?;
    out.push_str(front.as_str())?;
    out.push_str(text)
}

/// Appends the canonical text of a finite number: its sign, its digits, `e`, its `point` and `;`.
pub(crate) fn push_decimal(out: &mut String, number: &Decimal) -> Result<(), AllocError>
    ensures { OnOk result (string_bytes out.new ≡ string_bytes out.old ++ plain_form (plain number.now)) }
{
    let alloc = *out.allocator();
    out.push(if number.negative { '-' } else { '+' })?;
    for digit in number.digits.as_slice() {
        out.push(char::from(*digit))?;
    }
    let point = number.point;
    let end = format!(in alloc; "e{point};")?;
    out.push_str(end.as_str())
}

/// Appends the canonical text of a value: of infinity `>` or, if it is negative, `<`, and of NaN `?`. Fails with
/// `TooDeep` if the value nests `depth` or more levels deep or contains a taken value. After a failure, `out` may
/// contain a part of the text.
#[cycle(canonical)]
fn push_canonical(out: &mut String, depth: usize, value: &Value<'_>) -> Result<(), CheckError>
    ensures { OnOk result (string_bytes out.new ≡ string_bytes out.old ++ canonical (view value.now)) }
{
    if depth == 0 || value.is_taken() {
        return Err(CheckError::TooDeep);
    }
    match value.as_ref() {
        ValueInner::String(text) => push_text(out, text.as_ref())?,
        ValueInner::Datetime(date) => {
            let text = rfc3339(*out.allocator(), date.text())?;
            push_text(out, text.as_str())?;
        }
        ValueInner::Boolean(truth) => out.push(if *truth { 't' } else { 'f' })?,
        ValueInner::Array(array) => {
            out.push('[')?;
            push_items(out, depth - 1, array.as_slice())?;
            out.push(']')?;
        }
        ValueInner::Table(table) => {
            out.push('{')?;
            push_entries(out, depth - 1, table)?;
            out.push('}')?;
        }
        _ => {
            if let Some(number) = number_in(*out.allocator(), value)? {
                match number {
                    Number::Finite(number) => push_decimal(out, &number)?,
                    Number::Infinite(true) => out.push('<')?,
                    Number::Infinite(false) => out.push('>')?,
                    Number::NotANumber => out.push('?')?,
                }
            }
        }
    }
    Ok(())
}

/// Appends the canonical texts of the elements of an array. Fails with `TooDeep` if an element nests `depth` or more
/// levels deep or contains a taken value.
#[cycle(canonical)]
fn push_items(out: &mut String, depth: usize, values: &[Value<'_>]) -> Result<(), CheckError>
    ensures { OnOk result (string_bytes out.new ≡ string_bytes out.old ++ items_form (items_view values.now)) }
{
    for value in values {
        push_canonical(out, depth, value)?;
    }
    Ok(())
}

/// Appends the name and the canonical text of each entry of a table. Fails with `TooDeep` if a value nests `depth` or
/// more levels deep or contains a taken value.
#[cycle(canonical)]
fn push_entries(out: &mut String, depth: usize, table: &Table<'_>) -> Result<(), CheckError>
    ensures { OnOk result (string_bytes out.new
        ≡ string_bytes out.old ++ members_form (members_view table.now.entries)) }
{
    for (key, value) in table.iter() {
        push_text(out, key.name.as_ref())?;
        push_canonical(out, depth, value)?;
    }
    Ok(())
}

/// Returns the canonical text of a value. Fails with `TooDeep` if the value nests `LEVELS` or more levels deep or
/// contains a taken value.
pub(crate) fn canonical(alloc: Global, value: &Value<'_>) -> Result<String, CheckError>
    ensures { IfOk result (λ text. string_bytes text ≡ canonical (view value.now)) }
{
    let mut out = String::new(alloc);
    push_canonical(&mut out, LEVELS, value)?;
    Ok(out)
}

/// Returns whether all values differ from one another. Fails like `canonical`.
pub(crate) fn all_differ(alloc: Global, values: &[Value<'_>]) -> Result<bool, CheckError>
    ensures { IfOk result (λ r. r ≡ all_new [] (map (λ v. canonical (view v)) values.now)) }
{
    let mut seen = BTreeSet::new(alloc);
    for value in values {
        if !seen.insert(canonical(alloc, value)?)? {
            return Ok(false);
        }
    }
    Ok(true)
}
