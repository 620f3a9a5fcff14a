//! The keywords of JSON Schema, with the values that they may have.

use crate::numbers::Decimal;
use json::Value as Json;
use std::alloc::{AllocError, Global};

/// What the value of a keyword, or a part of such a value, must be.
#[derive(Clone, Copy)]
pub(crate) enum Want {
    Any,
    Text,
    Flag,
    Number,
    /// A divisor of `multipleOf`.
    Divisor,
    Count,
    TypeName,
    TypeNames,
    /// `TypeName` or `TypeNames`.
    Types,
    List,
    Object,
    Names,
    /// An object of `Names`.
    NamesByKey,
    Schema,
    Schemas,
    /// `Schema` or `Schemas`.
    Items,
    SchemasByKey,
    /// `Schema` or `Names`.
    Dependency,
    /// An object of `Dependency`.
    Dependencies,
}

/// Keywords, with the first and the last draft that has them (see `Dialect`), and what their values must be in these
/// drafts.
const KEYWORDS: [(&str, u8, u8, Want); 42] = [
    ("additionalProperties not", 4, 20, Want::Schema),
    ("additionalItems", 4, 19, Want::Schema),
    ("contains propertyNames", 6, 20, Want::Schema),
    ("else if then", 7, 20, Want::Schema),
    ("contentSchema unevaluatedItems", 19, 20, Want::Schema),
    ("unevaluatedProperties", 19, 20, Want::Schema),
    ("items", 20, 20, Want::Schema),
    ("items", 4, 19, Want::Items),
    ("allOf anyOf oneOf", 4, 20, Want::Schemas),
    ("prefixItems", 20, 20, Want::Schemas),
    ("$defs definitions", 4, 20, Want::SchemasByKey),
    ("patternProperties properties", 4, 20, Want::SchemasByKey),
    ("dependentSchemas", 19, 20, Want::SchemasByKey),
    ("dependencies", 4, 20, Want::Dependencies),
    ("dependentRequired", 19, 20, Want::NamesByKey),
    ("required", 4, 20, Want::Names),
    ("type", 4, 20, Want::Types),
    ("maxItems maxLength maxProperties", 4, 20, Want::Count),
    ("minItems minLength minProperties", 4, 20, Want::Count),
    ("maxContains minContains", 19, 20, Want::Count),
    ("maximum minimum", 4, 20, Want::Number),
    ("exclusiveMaximum exclusiveMinimum", 6, 20, Want::Number),
    ("exclusiveMaximum exclusiveMinimum", 4, 4, Want::Flag),
    ("multipleOf", 4, 20, Want::Divisor),
    ("uniqueItems", 4, 20, Want::Flag),
    ("readOnly writeOnly", 7, 20, Want::Flag),
    ("deprecated", 19, 20, Want::Flag),
    ("$recursiveAnchor", 19, 19, Want::Flag),
    ("$ref $schema description", 4, 20, Want::Text),
    ("format pattern title", 4, 20, Want::Text),
    ("id", 4, 4, Want::Text),
    ("$id", 6, 20, Want::Text),
    ("$comment contentEncoding", 7, 20, Want::Text),
    ("contentMediaType", 7, 20, Want::Text),
    ("$anchor", 19, 20, Want::Text),
    ("$dynamicAnchor $dynamicRef", 20, 20, Want::Text),
    ("$recursiveRef", 19, 19, Want::Text),
    ("$vocabulary", 19, 20, Want::Object),
    ("enum", 4, 20, Want::List),
    ("examples", 6, 20, Want::List),
    ("const", 6, 20, Want::Any),
    ("default", 4, 20, Want::Any),
];

/// The formats that the keyword `format` may name.
pub(crate) const FORMATS: &str =
    "date date-time duration email hostname idn-email idn-hostname ipv4 ipv6 iri \
    iri-reference json-pointer regex relative-json-pointer time uri uri-reference uri-template uuid";

/// The types that the keyword `type` may name.
pub(crate) const TYPES: &str = "array boolean integer null number object string";

/// The keywords that decide which values are valid, except for those of only some drafts.
pub(crate) const ASSERTING: &str =
    "$ref additionalProperties allOf anyOf const contains dependencies \
    dependentRequired dependentSchemas else enum exclusiveMaximum exclusiveMinimum format if items maxContains \
    maxItems maxLength maxProperties maximum minContains minItems minLength minProperties minimum multipleOf not \
    oneOf pattern patternProperties prefixItems properties propertyNames required then type unevaluatedItems \
    unevaluatedProperties uniqueItems";

/// Returns what the value of the keyword `name` must be, or `None` if a schema of this draft has no such keyword.
pub(crate) fn want_of(name: &str, draft: u8) -> Option<Want> {
    for row in KEYWORDS.iter() {
        let (keywords, first, last, want) = *row;
        if first <= draft && draft <= last && has_word(keywords, name) {
            return Some(want);
        }
    }
    None
}

/// Returns whether a word is among `words`, which spaces separate.
pub(crate) fn has_word(words: &str, word: &str) -> bool {
    for other in words.split(' ') {
        if other == word {
            return true;
        }
    }
    false
}

/// Returns whether a schema of any draft has the keyword `name`.
pub(crate) fn is_keyword(name: &str) -> bool {
    for row in KEYWORDS.iter() {
        if has_word(row.0, name) {
            return true;
        }
    }
    false
}

/// Returns what a value must be, if `want` leaves the choice between an array and another value.
pub(crate) fn chosen(want: Want, value: &Json<'_>) -> Want {
    let is_array = matches!(value, Json::Array(_));
    match want {
        Want::Types if is_array => Want::TypeNames,
        Want::Types => Want::TypeName,
        Want::Items if is_array => Want::Schemas,
        Want::Dependency if is_array => Want::Names,
        Want::Items | Want::Dependency => Want::Schema,
        _ => want,
    }
}

/// Returns what the elements or the members of a value must be, or `None` if they may be anything. For a schema, the
/// names of its members decide that.
pub(crate) fn part_of(want: Want) -> Option<Want> {
    match want {
        Want::TypeNames => Some(Want::TypeName),
        Want::Names => Some(Want::Text),
        Want::NamesByKey => Some(Want::Names),
        Want::Schemas | Want::SchemasByKey => Some(Want::Schema),
        Want::Dependencies => Some(Want::Dependency),
        _ => None,
    }
}

/// Returns whether a value is what `want` says, without looking at its elements or members.
pub(crate) fn fits(alloc: Global, want: Want, value: &Json<'_>) -> Result<bool, AllocError> {
    Ok(match (want, value) {
        (Want::Any, _)
        | (Want::Text, Json::String(_))
        | (Want::Flag, Json::Bool(_))
        | (Want::Number, Json::Number(_))
        | (Want::List | Want::Names | Want::TypeNames, Json::Array(_))
        | (Want::Schema, Json::Bool(_) | Json::Object(_)) => true,
        (
            Want::Object | Want::NamesByKey | Want::SchemasByKey | Want::Dependencies,
            Json::Object(_),
        ) => true,
        (Want::Count, Json::Number(text)) => {
            let number = Decimal::parse(alloc, *text)?;
            !number.negative && number.is_whole()
        }
        (Want::Divisor, Json::Number(text)) => {
            let number = Decimal::parse(alloc, *text)?;
            let size = number.size().unwrap_or(0);
            !number.negative && size > 0 && size < 1_000_000_000_000_000_000
        }
        (Want::TypeName, Json::String(name)) => has_word(TYPES, *name),
        (Want::Schemas, Json::Array(items)) => !items.is_empty(),
        _ => false,
    })
}

/// Returns what a value must be, as messages say it.
pub(crate) fn expected_text(want: Want) -> &'static str {
    match want {
        Want::Text => "a string",
        Want::Flag => "a boolean",
        Want::Number => "a number",
        Want::Divisor => "a number above 0 with at most 18 digits",
        Want::Count => "an integer of at least 0",
        Want::TypeName => "`array`, `boolean`, `integer`, `null`, `number`, `object` or `string`",
        Want::TypeNames => "an array of names of types",
        Want::Names => "an array of strings",
        Want::NamesByKey => "an object of arrays of strings",
        Want::Schema => "an object or a boolean",
        Want::Schemas => "an array of schemas",
        Want::Object | Want::SchemasByKey | Want::Dependencies => "an object",
        _ => "an array",
    }
}

/// Returns a value as messages show it.
pub(crate) fn found_text(alloc: Global, value: &Json<'_>) -> Result<String, AllocError> {
    match value {
        Json::Null => String::from_str(alloc, "`null`"),
        Json::Bool(truth) => format!(in alloc; "`{truth}`"),
        Json::Number(text) => format!(in alloc; "`{text}`"),
        Json::String(text) => format!(in alloc; "`\"{text}\"`"),
        Json::Array(items) if items.is_empty() => String::from_str(alloc, "an empty array"),
        Json::Array(_) => String::from_str(alloc, "an array"),
        Json::Object(_) => String::from_str(alloc, "an object"),
    }
}
