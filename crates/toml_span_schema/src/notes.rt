//! Reads the notes for people in schemas.

use crate::read::{DEPTH, to_toml};
use crate::sources::{is_true, text_of};
use json::Value as Json;
use std::alloc::{AllocError, Global};
use toml_span_tree::Value;

/// The notes for people in a schema: the keywords that describe values or list the allowed values.
#[derive(Drop)]
pub struct Notes {
    /// The string in `title`.
    pub title: Option<String>,
    /// The string in `description`.
    pub description: Option<String>,
    /// The value of `default`, or `None` if the schema has no `default` or one that is or contains `null`.
    pub default: Option<Value<'static>>,
    /// The values of `enum`, then, from draft 6 on, the value of `const`, without values that are or contain `null`.
    pub values: Vec<Value<'static>>,
    /// Whether the schema says `deprecated: true`.
    pub is_deprecated: bool,
}

/// Returns a copy of the string in the member `name`, or `None` if the member is missing or not a string.
pub(crate) fn text_in(
    alloc: Global,
    value: &Json<'_>,
    name: &str,
) -> Result<Option<String>, AllocError> {
    match text_of(value, name) {
        Some(text) => Ok(Some(String::from_str(alloc, text)?)),
        None => Ok(None),
    }
}

/// Appends a JSON value to `values` as a TOML value, unless the JSON value is or contains `null`.
fn push_value(
    alloc: Global,
    value: &Json<'_>,
    values: &mut Vec<Value<'static>>,
) -> Result<(), AllocError> {
    if let Some(value) = to_toml(alloc, value, DEPTH)? {
        values.push(value)?;
    }
    Ok(())
}

/// Returns the notes in a schema of the given draft.
pub(crate) fn read_notes(alloc: Global, value: &Json<'_>, draft: u8) -> Result<Notes, AllocError> {
    let mut notes = Notes {
        title: text_in(alloc, value, "title")?,
        description: None,
        default: None,
        values: Vec::new(alloc),
        is_deprecated: is_true(value, "deprecated"),
    };
    notes.description = text_in(alloc, value, "description")?;
    if let Some(default) = value.get("default") {
        notes.default = to_toml(alloc, default, DEPTH)?;
    }
    if let Some(Json::Array(items)) = value.get("enum") {
        for item in items.as_slice() {
            push_value(alloc, item, &mut notes.values)?;
        }
    }
    if draft > 4 {
        if let Some(only) = value.get("const") {
            push_value(alloc, only, &mut notes.values)?;
        }
    }
    Ok(notes)
}
