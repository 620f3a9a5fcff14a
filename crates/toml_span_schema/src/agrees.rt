//! Compares the values of compiled keywords without subschemas with their JSON. Drafts are numbered 4, 6, 7, 19 and 20.
ghost use Rattle.std.specs.Prelude.{◌≡◌, IfOk, map, option_map, slice_get};
ghost use Rattle.json.specs.Value.{items_view, members_view, value_view};
ghost use Rattle.toml_span_schema.specs.Agrees as spec;

use crate::canonical::{push_decimal, push_text};
use crate::decimal::count_in;
use crate::keyword::{Keyword, Placed, Types};
use crate::numbers::Decimal;
use crate::sources::is_true;
use json::Value as Json;
use std::alloc::{AllocError, Global};
use std::collections::BTreeSet;
use std::slice;

/// Returns the elements of an array, or an empty slice for other values.
fn elements<'v, 'a>(value: &'v Json<'a>) -> &'v [Json<'a>]
    ensures { items_view result.now ≡ spec.elements (value_view value.now) }
{
    match value {
        Json::Array(items) => items.as_slice(),
        _ => &[],
    }
}

/// Returns the members of an object, or an empty slice for other values.
fn members<'v, 'a>(value: &'v Json<'a>) -> &'v [(&'a str, Json<'a>)]
    ensures { members_view result.now ≡ spec.members (value_view value.now) }
{
    match value {
        Json::Object(members) => members.as_slice(),
        _ => &[],
    }
}

/// Returns whether a value is this string.
fn is_text(value: &Json<'_>, text: &str) -> bool
    ensures { result ≡ spec.is_text (value_view value.now) text.now }
{
    match value {
        Json::String(own) => *own == text,
        _ => false,
    }
}

/// Returns whether `value`, the value of `type`, names a type.
fn names(value: &Json<'_>, name: &str) -> bool
    ensures { result ≡ spec.names (value_view value.now) name.now }
{
    let Json::Array(items) = value else {
        return is_text(value, name);
    };
    for item in items.as_slice() {
        if is_text(item, name) {
            return true;
        }
    }
    false
}

/// Returns whether `types` are the types that `value`, the value of `type`, names.
#[tactic(auto, unfolding(crate::specs::Agrees::are_types))]
fn are_types(draft: u8, value: &Json<'_>, types: Types) -> bool
    ensures { result ≡ spec.are_types draft (value_view value.now) types }
{
    types.boolean == names(value, "boolean")
        && types.object == names(value, "object")
        && types.array == names(value, "array")
        && types.string == names(value, "string")
        && types.number == names(value, "number")
        && types.integer == names(value, "integer")
        && types.whole == (types.integer && 4 < draft)
}

/// Returns whether the text at position `at` is the string `item`.
fn is_text_at(texts: &[String], at: usize, item: &Json<'_>) -> bool
    ensures { result ≡ spec.is_text_of (slice_get texts.now at) (value_view item.now) }
{
    match texts.get(at) {
        Some(text) => is_text(item, text.as_str()),
        None => false,
    }
}

/// Returns whether `texts` are the strings `items`.
fn are_texts(texts: &[String], items: &[Json<'_>]) -> bool
    ensures { result ≡ spec.are_texts texts.now 0 (items_view items.now) }
{
    for (at, item) in items.iter().enumerate() {
        if !is_text_at(texts, at, item) {
            return false;
        }
    }
    texts.len() <= items.len()
}

/// Returns whether the entry at position `at` has this name and the strings `items`.
fn is_list_at(entries: &[(String, Vec<String>)], at: usize, name: &str, items: &[Json<'_>]) -> bool
    ensures { result ≡ spec.is_list (slice_get entries.now at) name.now (items_view items.now) }
{
    match entries.get(at) {
        Some(entry) => entry.0.as_str() == name && are_texts(entry.1.as_slice(), items),
        None => false,
    }
}

/// Returns whether `entries` are the members that are arrays.
fn are_lists(entries: &[(String, Vec<String>)], members: &[(&str, Json<'_>)]) -> bool
    ensures { result ≡ spec.are_lists entries.now 0 (members_view members.now) }
{
    let mut at = 0;
    for member in members {
        if let Json::Array(items) = &member.1 {
            if !is_list_at(entries, at, member.0, items.as_slice()) {
                return false;
            }
            at += 1;
        }
    }
    entries.len() <= at
}

/// Returns whether a boolean, a number or a string is in `values`, a set of canonical texts. Returns true for other
/// values.
fn has_constant(
    alloc: Global,
    values: &BTreeSet<String>,
    value: &Json<'_>,
) -> Result<bool, AllocError>
    ensures { IfOk result (λ r. r ≡ spec.has_constant values.now (value_view value.now)) }
{
    let mut text = String::new(alloc);
    match value {
        Json::Bool(truth) => text.push(if *truth { 't' } else { 'f' })?,
        Json::Number(number) => push_decimal(&mut text, &Decimal::parse(alloc, *number)?)?,
        Json::String(string) => push_text(&mut text, *string)?,
        _ => return Ok(true),
    }
    Ok(values.contains(text.as_str()))
}

/// Returns whether `values`, a set of canonical texts, has the booleans, numbers and strings among `items`, and is not
/// larger than the number of items other than `null`.
fn are_constants(
    alloc: Global,
    values: &BTreeSet<String>,
    items: &[Json<'_>],
) -> Result<bool, AllocError>
    ensures { IfOk result (λ r. r ≡ spec.are_constants values.now (items_view items.now)) }
{
    let mut most = 0;
    for item in items {
        if !has_constant(alloc, values, item)? {
            return Ok(false);
        }
        if !item.is_null() {
            most += 1;
        }
    }
    Ok(values.len() <= most)
}

/// Returns whether a keyword is the one called `name` with the number `text`.
#[tactic(auto, unfolding(crate::specs::Agrees::number_agrees))]
fn number_agrees(
    alloc: Global,
    name: &str,
    text: &str,
    keyword: &Keyword,
) -> Result<bool, AllocError>
    ensures { IfOk result (λ r. r ≡ spec.number_agrees name.now text.now keyword.now) }
{
    let number = Decimal::parse(alloc, text)?;
    let count = count_in(text);
    match keyword {
        Keyword::Minimum(limit) => Ok(name == "minimum" && limit.compare(&number).is_eq()),
        Keyword::ExclusiveMinimum(limit) => {
            Ok(name == "exclusiveMinimum" && limit.compare(&number).is_eq())
        }
        Keyword::Maximum(limit) => Ok(name == "maximum" && limit.compare(&number).is_eq()),
        Keyword::ExclusiveMaximum(limit) => {
            Ok(name == "exclusiveMaximum" && limit.compare(&number).is_eq())
        }
        Keyword::MultipleOf(size, power) => {
            let digits = format!(in alloc; "{size}")?;
            let is_size = number.digits.as_slice() == digits.as_bytes();
            Ok(name == "multipleOf" && is_size && number.exponent() == *power)
        }
        Keyword::MinLength(limit) => Ok(name == "minLength" && *limit == count),
        Keyword::MaxLength(limit) => Ok(name == "maxLength" && *limit == count),
        Keyword::MinItems(limit) => Ok(name == "minItems" && *limit == count),
        Keyword::MaxItems(limit) => Ok(name == "maxItems" && *limit == count),
        Keyword::MinProperties(limit) => Ok(name == "minProperties" && *limit == count),
        Keyword::MaxProperties(limit) => Ok(name == "maxProperties" && *limit == count),
        _ => Ok(false),
    }
}

/// Returns the count that a value says, or `otherwise` for other values.
pub(crate) fn count_or(otherwise: u64, value: Option<&Json<'_>>) -> u64
    ensures { result ≡ spec.count_or otherwise (option_map (λ v. value_view v.now) value.entry) }
{
    match value {
        Some(Json::Number(text)) => count_in(*text),
        _ => otherwise,
    }
}

/// Returns whether `least` and `most` are the counts of `minContains` and `maxContains` in a schema.
fn are_counts(draft: u8, value: &Json<'_>, least: u64, most: u64) -> bool
    ensures { result ≡ spec.are_counts draft (value_view value.now) least most }
{
    if draft < 19 {
        return least == 1 && most == u64::MAX;
    }
    least == count_or(1, value.get("minContains"))
        && most == count_or(u64::MAX, value.get("maxContains"))
}

/// Returns the keyword that lists the keys that other keys require.
pub(crate) fn dependencies(draft: u8) -> &'static str
    ensures { result.now ≡ spec.dependencies draft }
{
    if draft < 19 {
        "dependencies"
    } else {
        "dependentRequired"
    }
}

/// Returns whether a keyword is the one called `name` with this value or, for `contains`, with those in this schema.
#[tactic(auto, unfolding(crate::specs::Agrees::agrees))]
fn agrees(
    alloc: Global,
    draft: u8,
    name: &str,
    value: &Json<'_>,
    keyword: &Keyword,
) -> Result<bool, AllocError>
    ensures { IfOk result (λ r. r ≡ spec.agrees draft name.now (value_view value.now) keyword.now) }
{
    match keyword {
        Keyword::Type(types) => Ok(name == "type" && are_types(draft, value, *types)),
        Keyword::Enum(values, _) if name == "const" => {
            are_constants(alloc, values, slice::from_ref(value))
        }
        Keyword::Enum(values, _) => {
            Ok(name == "enum" && are_constants(alloc, values, elements(value))?)
        }
        Keyword::Required(names) => {
            Ok(name == "required" && are_texts(names.as_slice(), elements(value)))
        }
        Keyword::DependentRequired(entries) => {
            Ok(name == dependencies(draft) && are_lists(entries.as_slice(), members(value)))
        }
        Keyword::UniqueItems => Ok(name == "uniqueItems"),
        Keyword::Contains(_, least, most, evaluates) => {
            let is_named = name == "contains" && *evaluates == (draft == 20);
            Ok(is_named && are_counts(draft, value, *least, *most))
        }
        _ => match value {
            Json::Number(text) => number_agrees(alloc, name, *text, keyword),
            _ => Ok(false),
        },
    }
}

/// Returns whether the keyword `name` is compiled with this value. Returns true if there is no value.
pub(crate) fn has_value(
    alloc: Global,
    draft: u8,
    keywords: &[Placed],
    name: &str,
    value: Option<&Json<'_>>,
) -> Result<bool, AllocError>
    ensures { IfOk result (λ r. r ≡ spec.has_value draft keywords.now name.now
        (option_map (λ v. value_view v.now) value.entry)) }
{
    let Some(value) = value else {
        return Ok(true);
    };
    for placed in keywords {
        if placed.name == name && agrees(alloc, draft, name, value, &placed.keyword)? {
            return Ok(true);
        }
    }
    Ok(false)
}

/// Returns whether those of the keywords `names` that the schema has are compiled with their values.
pub(crate) fn have_values(
    alloc: Global,
    draft: u8,
    keywords: &[Placed],
    names: &[&str],
    value: &Json<'_>,
) -> Result<bool, AllocError>
    ensures { IfOk result (λ r. r ≡ spec.have_values draft keywords.now (map (λ n. n.now) names.now)
        (value_view value.now)) }
{
    for name in names {
        if !has_value(alloc, draft, keywords, *name, value.get(*name))? {
            return Ok(false);
        }
    }
    Ok(true)
}

/// Returns whether the limit `names.0`, if the schema has it, is compiled with its value. In draft 4, `names.1` says
/// whether the limit is excluded, and is then its name.
pub(crate) fn has_limit(
    alloc: Global,
    draft: u8,
    keywords: &[Placed],
    names: (&str, &str),
    value: &Json<'_>,
) -> Result<bool, AllocError>
    ensures { IfOk result (λ r. r ≡ spec.has_limit draft keywords.now names.entry.0.now names.entry.1.now
        (value_view value.now)) }
{
    let name = if draft == 4 && is_true(value, names.1) {
        names.1
    } else {
        names.0
    };
    has_value(alloc, draft, keywords, name, value.get(names.0))
}
