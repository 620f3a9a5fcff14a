//! Writes arrays with one element per line, and values on one line.
use crate::conversions::Proposal;
use crate::document::Document;
use crate::lines::{line_end, part, spanned};
use crate::places::{array_at, parts_text};
use std::alloc::AllocError;
use toml_span_lex::span::Span;
use toml_span_places::val_literal_span;
use toml_span_read::{Assignment, Val, ValKind};

/// Returns whether there is a comment between the offsets `start` and `end`. This part of the text must not contain
/// strings.
fn has_comment(text: &str, start: usize, end: usize) -> bool {
    part(text, start, end).contains('#')
}

/// Appends to `out`, on one line, the array at `span`, whose elements are `items`. Returns false in the cases in which
/// `push_flat` does.
#[cycle(push_flat)]
fn push_items(
    text: &str,
    span: Span,
    items: &[Val<'_>],
    out: &mut String,
) -> Result<bool, AllocError> {
    let mut from = span.start.saturating_add(1);
    out.push('[')?;
    for (index, item) in items.iter().enumerate() {
        let literal = val_literal_span(text, item);
        out.push_str(if index > 0 { ", " } else { "" })?;
        if has_comment(text, from, literal.start) || !push_flat(text, item, out)? {
            return Ok(false);
        }
        from = literal.end;
    }
    out.push(']')?;
    Ok(!has_comment(text, from, span.end))
}

/// Appends to `out`, on one line, an inline table of `pairs`, the only assignments between the offsets `start` and
/// `end`. Returns false if a comment is between these offsets, except around an `=`, and in the cases in which
/// `push_flat` does.
#[cycle(push_flat)]
pub(crate) fn push_pairs(
    text: &str,
    start: usize,
    end: usize,
    pairs: &[Assignment<'_>],
    out: &mut String,
) -> Result<bool, AllocError> {
    let mut from = start;
    out.push('{')?;
    for (index, pair) in pairs.iter().enumerate() {
        out.push_str(if index > 0 { ", " } else { " " })?;
        out.push_str(parts_text(text, &pair.parts, 0, pair.parts.inner.len()))?;
        out.push_str(" = ")?;
        if has_comment(text, from, pair.extent.start) || !push_flat(text, &pair.value, out)? {
            return Ok(false);
        }
        from = pair.extent.end;
    }
    out.push_str(if pairs.is_empty() { "}" } else { " }" })?;
    Ok(!has_comment(text, from, end))
}

/// Appends `value` to `out` on one line, without comments around the `=` of pairs. Returns false if `value` contains
/// any other comment or a string on several lines; `out` may then have a part of the value.
#[cycle(push_flat)]
pub(crate) fn push_flat(text: &str, value: &Val<'_>, out: &mut String) -> Result<bool, AllocError> {
    let Span { start, end } = value.span;
    match &value.kind {
        ValKind::Array(items) => push_items(text, value.span, items.as_slice(), out),
        ValKind::Inline(pairs) => {
            push_pairs(text, start.saturating_add(1), end, pairs.as_slice(), out)
        }
        _ => {
            let literal = spanned(text, val_literal_span(text, value));
            out.push_str(literal)?;
            Ok(!literal.contains('\n'))
        }
    }
}

/// The indentation of the elements, in addition to that of the array's line.
const INDENT: &str = "    ";

/// Returns `array` with one element per line. `items` are its elements.
fn lines_of(
    document: Document<'_, '_>,
    array: &Val<'_>,
    items: &[Val<'_>],
) -> Result<String, AllocError> {
    let text = document.text;
    let line = part(text, 0, array.span.start)
        .split('\n')
        .next_back()
        .unwrap_or("");
    let rest = line.trim_start_matches([' ', '\t']);
    let indent = part(line, 0, line.len().saturating_sub(rest.len()));
    let end = line_end(text);
    let mut out = String::from_str(document.alloc, "[")?;
    out.push_str(end)?;
    for item in items {
        out.push_str(indent)?;
        out.push_str(INDENT)?;
        out.push_str(spanned(text, val_literal_span(text, item)))?;
        out.push_str(",")?;
        out.push_str(end)?;
    }
    out.push_str(indent)?;
    out.push_str("]")?;
    Ok(out)
}

/// Proposes to write the array at the offset `at` with one element per line or, if `on_one_line`, on one line. Returns
/// `None` if `array_at` finds no array there, or if the array is written like that, is empty, or can't be written on
/// one line (see `push_flat`).
pub(crate) fn array_laid_out(
    document: Document<'_, '_>,
    at: usize,
    on_one_line: bool,
) -> Result<Option<Proposal>, AllocError> {
    let text = document.text;
    let Some(array) = array_at(document, at) else {
        return Ok(None);
    };
    if spanned(text, array.span).contains('\n') != on_one_line {
        return Ok(None);
    }
    if on_one_line {
        let mut line = String::new(document.alloc);
        let is_flat = push_flat(text, array, &mut line)?;
        return Ok(if is_flat {
            Some(Proposal::Array(array.span, line))
        } else {
            None
        });
    }
    match &array.kind {
        ValKind::Array(items) if !items.is_empty() => {
            let lines = lines_of(document, array, items.as_slice())?;
            Ok(Some(Proposal::Array(array.span, lines)))
        }
        _ => Ok(None),
    }
}
