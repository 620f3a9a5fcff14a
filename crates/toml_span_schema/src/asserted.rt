//! Checks values against the keywords that have no subschemas.
ghost use Rattle.std.specs.Prelude.{◌≡◌, IfOk};
ghost use Rattle.toml_span_tree.specs.Value.{inner_of, items_view, view};
ghost use Rattle.toml_span_schema.specs.Asserted.{allows_items, allows_kind, allows_number};
ghost use Rattle.toml_span_schema.specs.Asserted.{allows_simple, allows_table_of, allows_text};
ghost use Rattle.toml_span_schema.specs.Asserted.{characters, has_all, has_dependents};
ghost use Rattle.toml_span_schema.specs.Asserted.{has_type};
ghost use Rattle.toml_span_schema.specs.Numbers.{quantity};

use crate::applied::{has_key, matches};
use crate::canonical::{all_differ, canonical};
use crate::dates::rfc3339;
use crate::decimal::number_in;
use crate::error::CheckError;
use crate::formats::fits_leap_second;
use crate::keyword::{Keyword, Types};
use crate::numbers::{Decimal, Number};
use crate::patterns::is_pattern;
use crate::schema::Schema;
use std::alloc::{AllocError, Global};
use std::cmp::Ordering;
use toml_span_tree::{FloatText, Value, ValueInner};

/// Returns whether the type of a value is one of `types`. Dates and times are strings. Returns false for a taken value.
fn has_type(alloc: Global, types: Types, value: &Value<'_>) -> Result<bool, AllocError>
    ensures { IfOk result (λ r. r ≡ has_type types (inner_of (view value.now))) }
{
    if value.is_taken() {
        return Ok(false);
    }
    match value.as_ref() {
        ValueInner::String(_) | ValueInner::Datetime(_) => Ok(types.string),
        ValueInner::Integer(_) => Ok(types.number || types.integer),
        ValueInner::Float(FloatText::Finite(text)) => Ok(
            types.number || types.whole && Decimal::parse(alloc, text.as_str())?.is_whole(),
        ),
        ValueInner::Float(_) => Ok(types.number),
        ValueInner::Boolean(_) => Ok(types.boolean),
        ValueInner::Array(_) => Ok(types.array),
        ValueInner::Table(_) => Ok(types.object),
    }
}

/// Returns whether a keyword for numbers, such as `minimum`, allows a number. Other keywords allow any number. Fails
/// with `TooLong` if the division for `multipleOf` takes too many steps.
#[tactic(auto, unfolding(crate::specs::Asserted::allows_number))]
fn allows_number(keyword: &Keyword, number: &Number) -> Result<bool, CheckError>
    ensures { IfOk result (λ r. r ≡ allows_number keyword.now (quantity number.now)) }
{
    match keyword {
        Keyword::Minimum(limit) => Ok(matches!(
            number.compare(limit),
            Some(Ordering::Greater | Ordering::Equal)
        )),
        Keyword::ExclusiveMinimum(limit) => Ok(number.compare(limit) == Some(Ordering::Greater)),
        Keyword::Maximum(limit) => Ok(matches!(
            number.compare(limit),
            Some(Ordering::Less | Ordering::Equal)
        )),
        Keyword::ExclusiveMaximum(limit) => Ok(number.compare(limit) == Some(Ordering::Less)),
        Keyword::MultipleOf(size, power) => match number {
            Number::Finite(number) => number.is_multiple_of(*size, *power),
            _ => Ok(false),
        },
        _ => Ok(true),
    }
}

/// Returns the number of characters of a string.
fn characters(text: &str) -> u64
    ensures { result ≡ characters text.now }
{
    text.chars().count() as u64
}

/// Returns whether a keyword for strings, such as `pattern`, allows a string. Other keywords allow any string. For the
/// format `regex`, fails with `TooLong` if the string is a regular expression that is too large or nests too deep.
#[tactic(auto, unfolding(crate::specs::Asserted::allows_text))]
fn allows_text(schema: &Schema, keyword: &Keyword, text: &str) -> Result<bool, CheckError>
    ensures { IfOk result (λ r. r ≡ allows_text schema.now keyword.now text.now) }
{
    match keyword {
        Keyword::MinLength(least) => Ok(*least <= characters(text)),
        Keyword::MaxLength(most) => Ok(characters(text) <= *most),
        Keyword::Pattern(pattern) => Ok(matches(schema, *pattern, text)?),
        Keyword::Format(pattern, most, leap) => {
            if !schema.formats {
                return Ok(true);
            }
            let matched = matches(schema, *pattern, text)?;
            Ok(matched && characters(text) <= *most && (!*leap || fits_leap_second(text)))
        }
        Keyword::RegexFormat => Ok(!schema.formats || is_pattern(schema.alloc(), text)?),
        _ => Ok(true),
    }
}

/// Returns whether a keyword for arrays, such as `minItems`, allows these elements. Other keywords allow any elements.
/// For `uniqueItems`, fails with `TooDeep` if an element nests too deep or contains a taken value.
#[tactic(auto, using(crate::proofs::Views::arrays), unfolding(crate::specs::Asserted::allows_items))]
fn allows_items(alloc: Global, keyword: &Keyword, values: &[Value<'_>]) -> Result<bool, CheckError>
    ensures { IfOk result (λ r. r ≡ allows_items keyword.now (items_view values.now)) }
{
    match keyword {
        Keyword::MinItems(least) => Ok(*least <= values.len() as u64),
        Keyword::MaxItems(most) => Ok(values.len() as u64 <= *most),
        Keyword::UniqueItems => all_differ(alloc, values),
        _ => Ok(true),
    }
}

/// Returns whether a table has all keys in `names`.
pub(crate) fn has_all(value: &Value<'_>, names: &[String]) -> bool
    ensures { result ≡ has_all (view value.now) names.now }
{
    for name in names {
        if !has_key(value, name.as_str()) {
            return false;
        }
    }
    true
}

/// Returns whether a table has the keys that its other keys require. Each pair in `required` has a key, and the keys
/// that a table with this key must have.
fn has_dependents(value: &Value<'_>, required: &[(String, Vec<String>)]) -> bool
    ensures { result ≡ has_dependents (view value.now) required.now }
{
    for entry in required {
        if has_key(value, entry.0.as_str()) && !has_all(value, entry.1.as_slice()) {
            return false;
        }
    }
    true
}

/// Returns whether a keyword for objects, such as `required`, allows the table `value`, which has `count` entries.
/// Other keywords allow any table.
#[tactic(auto, unfolding(crate::specs::Asserted::allows_table_of))]
fn allows_table(keyword: &Keyword, value: &Value<'_>, count: usize) -> bool
    ensures { result ≡ allows_table_of keyword.now count (view value.now) }
{
    match keyword {
        Keyword::MinProperties(least) => *least <= count as u64,
        Keyword::MaxProperties(most) => count as u64 <= *most,
        Keyword::Required(names) => has_all(value, names.as_slice()),
        Keyword::DependentRequired(required) => has_dependents(value, required.as_slice()),
        _ => true,
    }
}

/// Returns whether a keyword without subschemas allows a value. A keyword for one type, such as `minimum`, allows all
/// values of other types. Fails with `TooDeep` if a value that `enum`, `const` or `uniqueItems` compares nests too deep
/// or contains a taken value. Fails with `TooLong` if the division for `multipleOf` takes too many steps, or if a
/// string that must have the format `regex` is too large a regular expression or nests too deep.
#[tactic(auto, unfolding(crate::specs::Asserted::allows_simple))]
pub(crate) fn allows_simple(
    schema: &Schema,
    keyword: &Keyword,
    value: &Value<'_>,
) -> Result<bool, CheckError>
    ensures { IfOk result (λ r. r ≡ allows_simple schema.now keyword.now (view value.now)) }
{
    let alloc = schema.alloc();
    match keyword {
        Keyword::Never => Ok(false),
        Keyword::Type(types) => Ok(has_type(alloc, *types, value)?),
        Keyword::Enum(values, _) => {
            let text = canonical(alloc, value)?;
            Ok(values.contains(text.as_str()))
        }
        _ => allows_kind(schema, keyword, value),
    }
}

/// Returns whether a keyword for one type, such as `minimum`, allows a value. All values of other types are allowed.
/// Fails like `allows_simple`.
#[tactic(auto, unfolding(crate::specs::Asserted::allows_kind))]
fn allows_kind(schema: &Schema, keyword: &Keyword, value: &Value<'_>) -> Result<bool, CheckError>
    ensures { IfOk result (λ r. r ≡ allows_kind schema.now keyword.now (view value.now) (inner_of (view value.now))) }
{
    let alloc = schema.alloc();
    if value.is_taken() {
        return Ok(true);
    }
    match value.as_ref() {
        ValueInner::String(text) => allows_text(schema, keyword, text.as_ref()),
        ValueInner::Datetime(date) => {
            let text = rfc3339(alloc, date.text())?;
            allows_text(schema, keyword, text.as_str())
        }
        ValueInner::Array(array) => allows_items(alloc, keyword, array.as_slice()),
        ValueInner::Table(table) => Ok(allows_table(keyword, value, table.len())),
        _ => match number_in(alloc, value)? {
            Some(number) => allows_number(keyword, &number),
            None => Ok(true),
        },
    }
}
