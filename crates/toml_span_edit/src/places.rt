//! Finds the assignment or array at an offset, and the text of keys.
use crate::document::Document;
use crate::lines::part;
use crate::mentions::part_at;
use toml_span_lex::span::Span;
use toml_span_lex::tokenizer::first_place;
use toml_span_places::{assignment_lines, with_quotes};
use toml_span_read::{Assignment, DottedKey, Section, Val, ValKind};

/// An assignment on a line, and its section.
#[derive(Clone, Copy)]
pub(crate) struct FoundAssignment<'s, 'de> {
    pub(crate) section: &'s Section<'de>,
    pub(crate) assignment: &'s Assignment<'de>,
    /// The offset after the lines of the preceding assignment or, for the first assignment, the `body_start` of the
    /// section.
    pub(crate) above: usize,
}

/// Returns whether an offset is in a span or at the end of the span.
pub(crate) fn touches(span: Span, at: usize) -> bool {
    span.start <= at && at <= span.end
}

/// Returns the offset after the line of a section's header. Without a header, returns the start of the text, after a
/// byte order mark.
pub(crate) fn body_start(text: &str, section: &Section<'_>) -> usize {
    if section.header.as_slice().is_empty() {
        first_place(text)
    } else {
        section.header_span.end
    }
}

/// Returns the assignment that contains or touches the offset `at`, or `None` if no assignment does. Ignores
/// assignments in inline tables.
pub(crate) fn assignment_at<'s, 'de>(
    document: Document<'s, 'de>,
    at: usize,
) -> Option<FoundAssignment<'s, 'de>> {
    for section in document.sections {
        let mut above = body_start(document.text, section);
        for assignment in &section.assignments {
            if touches(assignment.extent, at) {
                return Some(FoundAssignment {
                    section,
                    assignment,
                    above,
                });
            }
            above = assignment_lines(document.text, assignment).end;
        }
    }
    None
}

/// Returns the innermost array that contains or touches the offset `at`: `value` itself or an array in it. Returns
/// `None` if no array does.
#[cycle(array_in)]
fn array_in<'s, 'de>(value: &'s Val<'de>, at: usize) -> Option<&'s Val<'de>> {
    if !touches(value.span, at) {
        return None;
    }
    match &value.kind {
        ValKind::Array(items) => {
            for item in items {
                if let Some(found) = array_in(item, at) {
                    return Some(found);
                }
            }
            Some(value)
        }
        ValKind::Inline(pairs) => {
            for pair in pairs {
                if let Some(found) = array_in(&pair.value, at) {
                    return Some(found);
                }
            }
            None
        }
        _ => None,
    }
}

/// Returns the innermost array that contains or touches the offset `at`, or `None` if no array does. An offset in the
/// key of an assignment, or between its key and its value, counts as the start of the value.
pub(crate) fn array_at<'s, 'de>(document: Document<'s, 'de>, at: usize) -> Option<&'s Val<'de>> {
    let value = &assignment_at(document, at)?.assignment.value;
    array_in(value, at.max(value.span.start))
}

/// Returns the parts of a dotted key from the position `first` to the position `last`, inclusive, as they are written
/// in the text.
pub(crate) fn parts_text<'t>(
    text: &'t str,
    parts: &DottedKey<'_>,
    first: usize,
    last: usize,
) -> &'t str {
    let start = with_quotes(text, part_at(parts, first).span).start;
    let end = with_quotes(text, part_at(parts, last).span).end;
    part(text, start, end)
}

/// Returns the parts of a section's header up to the position `last`, inclusive, as they are written in the text.
/// Returns an empty string if the header has no part at `last`.
pub(crate) fn header_text<'t>(text: &'t str, section: &Section<'_>, last: usize) -> &'t str {
    let keys = section.header.as_slice();
    match (keys.first(), keys.get(last)) {
        (Some(first), Some(last)) => {
            let start = with_quotes(text, first.span).start;
            part(text, start, with_quotes(text, last.span).end)
        }
        _ => "",
    }
}
