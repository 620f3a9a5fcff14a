//! Finds the subschemas that apply to a value of a document, and collects their descriptions and suggested values.
use crate::keys::child;
use std::alloc::{AllocError, Global};
use toml_span::Value;
use toml_span::value::Step;
use toml_span_places::to_toml;
use toml_span_schema::{Guide, Notes, Subschemas};

/// The maximum number of values to list.
const MOST: usize = 30;

/// Returns the subschemas that apply to the value at `path` in the tree `root`. The value need not exist.
pub(crate) fn subschemas_at(
    alloc: Global,
    guide: &Guide,
    root: &Value<'_>,
    path: &[Step<'_>],
) -> Result<Subschemas, AllocError> {
    let mut value = Some(root);
    let mut found = guide.subschemas(alloc, value)?;
    for step in path {
        value = match value {
            Some(outer) => child(outer, *step),
            None => None,
        };
        found = guide.subschemas_inside(alloc, &found, *step, value)?;
    }
    Ok(found)
}

/// Returns whether one of `texts` is `text`.
pub(crate) fn has_text(texts: &[String], text: &str) -> bool {
    for other in texts {
        if other.as_str() == text {
            return true;
        }
    }
    false
}

/// Returns the values of `enum` and `const` in the subschemas, each once, as TOML.
pub(crate) fn listed_values(
    alloc: Global,
    guide: &Guide,
    found: &Subschemas,
) -> Result<Vec<String>, AllocError> {
    let mut values: Vec<String> = Vec::new(alloc);
    for note in guide.notes_of(alloc, found)? {
        for value in &note.values {
            let value = to_toml(alloc, value)?;
            if !has_text(values.as_slice(), value.as_str()) {
                values.push(value)?;
            }
        }
    }
    Ok(values)
}

/// Returns the default value of the first subschema that has one, as TOML, or `None` if no subschema has one.
pub(crate) fn default_of(
    alloc: Global,
    guide: &Guide,
    found: &Subschemas,
) -> Result<Option<String>, AllocError> {
    for note in guide.notes_of(alloc, found)? {
        if let Some(value) = &note.default {
            return Ok(Some(to_toml(alloc, value)?));
        }
    }
    Ok(None)
}

/// Returns whether any of the subschemas has `deprecated: true`.
pub(crate) fn is_deprecated(
    alloc: Global,
    guide: &Guide,
    found: &Subschemas,
) -> Result<bool, AllocError> {
    for note in guide.notes_of(alloc, found)? {
        if note.is_deprecated {
            return Ok(true);
        }
    }
    Ok(false)
}

/// Appends a paragraph, or nothing if `text` is empty or one of the paragraphs already.
fn push_paragraph(paragraphs: &mut Vec<String>, text: String) -> Result<(), AllocError> {
    if !text.is_empty() && !has_text(paragraphs.as_slice(), text.as_str()) {
        paragraphs.push(text)?;
    }
    Ok(())
}

/// Appends the title (in bold) and the description of a schema, each as a paragraph, if the schema has them.
fn push_notes(alloc: Global, note: &Notes, paragraphs: &mut Vec<String>) -> Result<(), AllocError> {
    if let Some(title) = &note.title {
        push_paragraph(paragraphs, format!(in alloc; "**{title}**")?)?;
    }
    if let Some(description) = &note.description {
        let description = String::from_str(alloc, description.as_str().trim_ascii())?;
        push_paragraph(paragraphs, description)?;
    }
    Ok(())
}

/// Returns a line that lists the first `MOST` values, or an empty text if there are none.
fn values_line(alloc: Global, values: &[String]) -> Result<String, AllocError> {
    let mut line = String::new(alloc);
    for (count, value) in values.iter().enumerate() {
        if count >= MOST {
            line.push_str(", …")?;
            break;
        }
        line.push_str(if count == 0 { "Values: `" } else { ", `" })?;
        line.push_str(value.as_str())?;
        line.push('`')?;
    }
    Ok(line)
}

/// Returns the documentation of a value in Markdown, from the subschemas `found` for the value. If `is_described`, it
/// has `Deprecated.` if one of them is deprecated, their titles (in bold) and their descriptions. If `has_choices`, it
/// has the default, and the values of `enum` and `const`. The text is empty if there are none of these.
pub(crate) fn documentation(
    alloc: Global,
    guide: &Guide,
    found: &Subschemas,
    is_described: bool,
    has_choices: bool,
) -> Result<String, AllocError> {
    let mut paragraphs = Vec::new(alloc);
    if is_described {
        if is_deprecated(alloc, guide, found)? {
            push_paragraph(&mut paragraphs, String::from_str(alloc, "Deprecated.")?)?;
        }
        for note in guide.notes_of(alloc, found)? {
            push_notes(alloc, note, &mut paragraphs)?;
        }
    }
    if has_choices {
        if let Some(default) = default_of(alloc, guide, found)? {
            push_paragraph(&mut paragraphs, format!(in alloc; "Default: `{default}`")?)?;
        }
        let values = listed_values(alloc, guide, found)?;
        push_paragraph(&mut paragraphs, values_line(alloc, values.as_slice())?)?;
    }
    let mut out = String::new(alloc);
    for paragraph in &paragraphs {
        out.push_str(if out.is_empty() { "" } else { "\n\n" })?;
        out.push_str(paragraph.as_str())?;
    }
    Ok(out)
}
