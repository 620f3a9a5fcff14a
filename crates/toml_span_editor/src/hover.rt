//! Describes, in Markdown, the key or value at an offset.
ghost use Rattle.std.specs.Prelude.{◌≡◌, IfOk, IfSome, Some, map};
ghost use Rattle.toml_span_editor.specs.Hovers.{IsDescribed};
ghost use Rattle.toml_span_editor.specs.Renaming.{span_at};
ghost use Rattle.toml_span_read.specs.Data.{parsed_section};
ghost use Rattle.toml_span_tree.specs.Value.{view};

use crate::document::Document;
use crate::keys::{key_at, value_of};
use crate::schemas::{documentation, subschemas_at};
use std::alloc::{AllocError, Global};
use std::fmt::Write;
use toml_span::Value;
use toml_span::value::Step;
use toml_span_lex::span::Span;
use toml_span_places::{key_places, literal_span, node_at, quote_key};
use toml_span_schema::Guide;

/// The maximum number of keys to list.
const MOST: usize = 12;

/// The names of the months, each after a blank.
const MONTHS: &str =
    " January February March April May June July August September October November December";

/// The span of a key or value, and its description in Markdown.
#[derive(Drop)]
pub struct Hover {
    pub span: Span,
    pub text: String,
}

/// Returns the text between two offsets. Returns an empty text if they are not in order or not character boundaries.
fn part(text: &str, from: usize, to: usize) -> &str {
    text.get(from..to).unwrap_or("")
}

/// Appends a time, with its offset from UTC if there is one.
fn push_time(time: &str, out: &mut String) -> Result<(), AllocError> {
    let is_utc = time.ends_with('Z') || time.ends_with('z');
    let local = time.find(['Z', 'z', '+', '-']).unwrap_or(time.len());
    out.push_str(part(time, 0, local))?;
    if is_utc {
        out.push_str(" UTC")?;
    } else if local < time.len() {
        out.push_str(" UTC")?;
        out.push_str(part(time, local, time.len()))?;
    }
    Ok(())
}

/// Appends a date, a time, or both, such as `5 January 2024, 10:00:00 UTC`.
fn push_date(date: &str, out: &mut String) -> Result<(), AllocError> {
    if date.as_bytes().get(4) != Some(&b'-') {
        return push_time(date, out);
    }
    let (day, month) = (part(date, 8, 10), part(date, 5, 7));
    let month = month.parse::<usize>().unwrap_or(0);
    out.push_str(day.strip_prefix('0').unwrap_or(day))?;
    out.push(' ')?;
    out.push_str(MONTHS.split(' ').nth(month).unwrap_or(""))?;
    out.push(' ')?;
    out.push_str(part(date, 0, 4))?;
    if date.len() > 11 {
        out.push_str(", ")?;
        push_time(part(date, 11, date.len()), out)?;
    }
    Ok(())
}

/// Appends a count and a noun, as in `3 elements`. `word` is the singular of the noun.
fn push_count(out: &mut String, count: usize, word: &str) -> Result<(), AllocError> {
    write!(out, "{count} {word}")?;
    if count != 1 {
        out.push('s')?;
    }
    Ok(())
}

/// Appends the decimal value of an integer, a date (in words) or time, the size of a string or array, or the number of
/// a table's keys, and the names of the first `MOST` keys. Appends nothing for a float or boolean, or for an integer
/// whose `literal` is its decimal value already.
fn push_details(value: &Value<'_>, literal: &str, out: &mut String) -> Result<(), AllocError> {
    if let Some(number) = value.as_integer() {
        let number = format!(in *out.allocator(); "{number}")?;
        if number.as_str() != literal {
            write!(out, "`{literal}` = {number}")?;
        }
    }
    if let Some(date) = value.as_datetime() {
        push_date(date.text(), out)?;
    }
    if let Some(text) = value.as_str() {
        push_count(out, text.chars().count(), "character")?;
    }
    if let Some(array) = value.as_array() {
        push_count(out, array.len(), "element")?;
    }
    let Some(table) = value.as_table() else {
        return Ok(());
    };
    push_count(out, table.len(), "key")?;
    for (count, (key, _)) in table.iter().enumerate() {
        if count >= MOST {
            return out.push_str(", …");
        }
        out.push_str(if count == 0 { ": `" } else { ", `" })?;
        out.push_str(key.name.as_ref())?;
        out.push('`')?;
    }
    Ok(())
}

/// Appends a paragraph, after a blank line if it is not the first. Appends nothing if `text` is empty.
fn push_paragraph(out: &mut String, text: &str) -> Result<(), AllocError> {
    if !out.is_empty() && !text.is_empty() {
        out.push_str("\n\n")?;
    }
    out.push_str(text)
}

/// Returns a path as a pointer, such as `/a/0/b`. Names are not escaped.
fn pointer(alloc: Global, path: &[Step<'_>]) -> Result<String, AllocError> {
    let mut out = String::new(alloc);
    for step in path {
        out.push('/')?;
        match *step {
            Step::Key(name) => out.push_str(name)?,
            Step::Position(at) => write!(out, "{at}")?,
        }
    }
    Ok(out)
}

/// Returns a path as a dotted key with positions in brackets, such as `a[0].b`.
fn dotted(alloc: Global, path: &[Step<'_>]) -> Result<String, AllocError> {
    let mut out = String::new(alloc);
    for step in path {
        match *step {
            Step::Key(name) => {
                if !out.is_empty() {
                    out.push('.')?;
                }
                out.push_str(quote_key(alloc, name)?.as_str())?;
            }
            Step::Position(at) => write!(out, "[{at}]")?,
        }
    }
    Ok(out)
}

/// Appends the `path` and the kind of `value`, and the details that `push_details` appends. `text` is the source of the
/// document.
fn push_value(
    alloc: Global,
    text: &str,
    path: &[Step<'_>],
    value: &Value<'_>,
    out: &mut String,
) -> Result<(), AllocError> {
    let kind = value.type_str();
    let key = dotted(alloc, path)?;
    let pointer = pointer(alloc, path)?;
    let head = format!(in alloc; "`{key}`: {kind}\n\n`{pointer}`")?;
    push_paragraph(out, head.as_str())?;
    let span = literal_span(text, value);
    let mut details = String::new(alloc);
    push_details(value, part(text, span.start, span.end), &mut details)?;
    push_paragraph(out, details.as_str())
}

/// Returns a description of `value` in Markdown: what the schema `guide` says about it, its path, its kind, its
/// details, and the values that the schema suggests.
fn described(
    alloc: Global,
    document: &Document<'_>,
    guide: Option<&Guide>,
    path: &[Step<'_>],
    value: &Value<'_>,
) -> Result<String, AllocError> {
    let mut out = String::new(alloc);
    let Some(guide) = guide else {
        push_value(alloc, document.text, path, value, &mut out)?;
        return Ok(out);
    };
    let found = subschemas_at(alloc, guide, &document.root, path)?;
    let said = documentation(alloc, guide, &found, true, false)?;
    let choices = documentation(alloc, guide, &found, false, true)?;
    push_paragraph(&mut out, said.as_str())?;
    push_value(alloc, document.text, path, value, &mut out)?;
    push_paragraph(&mut out, choices.as_str())?;
    Ok(out)
}

/// Returns the description of the key at the offset `at`, or `None` if no key is there.
fn key_hover(
    alloc: Global,
    document: &Document<'_>,
    guide: Option<&Guide>,
    at: usize,
) -> Result<Option<Hover>, AllocError>
    ensures { IfOk result (λ found. IfSome found (λ hover. Some hover.span
        ≡ span_at at document.now.text.now (map parsed_section document.now.sections.items))) }
{
    let keys = key_places(alloc, document.text, document.sections.as_slice())?;
    let Some(key) = key_at(keys.as_slice(), at) else {
        return Ok(None);
    };
    let path = key.path.as_slice();
    let Some(value) = value_of(&document.root, path) else {
        return Ok(None);
    };
    Ok(Some(Hover {
        span: key.whole,
        text: described(alloc, document, guide, path, value)?,
    }))
}

/// Describes the key or value at the byte offset `at`: what the schema `guide` says about it, its path and kind, the
/// decimal value of an integer, a date (in words) or time, the size of a string or array, the keys of a table, and the
/// values that the schema suggests. Returns `None` if neither a key nor a value other than a table is at `at`. Fails if
/// an allocation fails.
pub fn hover_at(
    alloc: Global,
    document: &Document<'_>,
    guide: Option<&Guide>,
    at: usize,
) -> Result<Option<Hover>, AllocError>
    ensures { IfOk result (λ found. IfSome found (λ hover. IsDescribed at document.now.text.now
        (map parsed_section document.now.sections.items) (view document.now.root) hover.span)) }
{
    if let Some(found) = key_hover(alloc, document, guide, at)? {
        return Ok(Some(found));
    }
    let Some(place) = node_at(alloc, &document.root, document.text, at)? else {
        return Ok(None);
    };
    if place.path.is_empty() || place.value.as_table().is_some() {
        return Ok(None);
    }
    let path = place.path.as_slice();
    Ok(Some(Hover {
        span: place.span,
        text: described(alloc, document, guide, path, place.value)?,
    }))
}
