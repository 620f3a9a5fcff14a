//! Converts sections to inline tables.
use crate::conversions::Proposal;
use crate::document::Document;
use crate::flat::push_pairs;
use crate::lines::{comments_start, indent_of, line_end, part, spanned};
use crate::places::{body_start, header_text, touches};
use crate::writer::Writer;
use std::alloc::AllocError;
use toml_span_lex::key::Key;
use toml_span_lex::span::Span;
use toml_span_lex::tokenizer::first_place;
use toml_span_places::{section_lines, with_quotes};
use toml_span_read::Section;

/// A section that becomes an inline table.
#[derive(Clone, Copy)]
struct Found<'s, 'de> {
    section: &'s Section<'de>,
    /// The position of the section among all sections, counted from 0.
    index: usize,
    /// The last part of the header.
    key: &'s Key<'de>,
    /// The start of the comment lines above the header or, without such lines, of the header's line.
    comments: usize,
    /// The start of the header's line.
    header: usize,
}

/// Returns the section whose header contains or touches the offset `at`, or `None` if no header does. Ignores headers
/// in double brackets. A comment after the header counts as part of the header.
fn section_at<'s, 'de>(document: Document<'s, 'de>, at: usize) -> Option<Found<'s, 'de>> {
    let text = document.text;
    let mut above = first_place(text);
    for (index, section) in document.sections.iter().enumerate() {
        let lines = section_lines(text, section);
        let start = section.header_span.start;
        let end = start.saturating_add(spanned(text, section.header_span).trim_end().len());
        if let Some(key) = section.header.as_slice().last() {
            if touches(Span { start, end }, at) && !section.array {
                return Some(Found {
                    section,
                    index,
                    key,
                    comments: comments_start(text, above, lines.start),
                    header: lines.start,
                });
            }
        }
        above = lines.end;
    }
    None
}

/// How the header of a section is related to a table.
#[derive(Clone, Copy, PartialEq, Eq)]
enum Relation {
    /// The header names the table.
    Same,
    /// The header begins a new element of an array around the table.
    Element,
    Other,
}

/// Returns how the header of a section is related to the table whose header has the parts `keys`.
fn relation_of(section: &Section<'_>, keys: &[Key<'_>]) -> Relation {
    let header = section.header.as_slice();
    let mut rest = keys.iter();
    for key in header {
        match rest.next() {
            Some(other) if other.name.as_str() == key.name.as_str() => {}
            _ => return Relation::Other,
        }
    }
    match rest.next() {
        None => Relation::Same,
        Some(_) if section.array => Relation::Element,
        Some(_) => Relation::Other,
    }
}

/// Returns the section of the table around the section at the position `index`, or `None` if that table has no section.
/// `keys` are the parts of that table's header; for the root, the slice is empty.
fn parent_of<'s, 'de>(
    sections: &'s [Section<'de>],
    index: usize,
    keys: &[Key<'_>],
) -> Option<&'s Section<'de>> {
    let (before, after) = sections.split_at(index.min(sections.len()));
    for section in before.iter().rev() {
        match relation_of(section, keys) {
            Relation::Same => return Some(section),
            Relation::Element => break,
            Relation::Other => {}
        }
    }
    for section in after {
        match relation_of(section, keys) {
            Relation::Same if !section.array => return Some(section),
            Relation::Same | Relation::Element => break,
            Relation::Other => {}
        }
    }
    None
}

/// Returns the line that replaces the section `found`: the last part of the section's header, ` = `, the inline table
/// `braces`, and the comment after the header.
fn line_of(
    document: Document<'_, '_>,
    found: Found<'_, '_>,
    braces: &str,
) -> Result<String, AllocError> {
    let (text, end) = (document.text, line_end(document.text));
    let whole = with_quotes(text, found.key.span);
    let key = spanned(text, whole);
    let rest = part(text, whole.end, found.section.header_span.end);
    let note = rest.trim_start_matches([' ', '\t']);
    let note = note.strip_prefix(']').unwrap_or("").trim_end();
    format!(in document.alloc; "{key} = {braces}{note}{end}")
}

/// Returns the text without the section `found`, and with `line` at the end of the section `parent`. The comments above
/// the header of `found` are written above `line`.
fn move_line(
    document: Document<'_, '_>,
    found: Found<'_, '_>,
    parent: &Section<'_>,
    line: &str,
) -> Result<String, AllocError> {
    let text = document.text;
    let parent_lines = section_lines(text, parent);
    let (to, front) = match parent.assignments.last() {
        Some(assignment) => (parent_lines.end, indent_of(text, assignment)),
        None => {
            let front = part(text, parent_lines.start, parent.header_span.start);
            (body_start(text, parent), front)
        }
    };
    let above = part(text, found.comments, found.header);
    let mut writer = Writer::new(document);
    let (start, end) = (found.comments, section_lines(text, found.section).end);
    let lines = Span { start, end };
    if to > found.comments {
        writer.skip_lines(lines, text.len())?;
    }
    writer.copy_to(to)?;
    writer.begin_line()?;
    writer.push(above)?;
    writer.push(front)?;
    writer.push(line)?;
    if to <= found.comments {
        writer.skip_lines(lines, text.len())?;
    }
    writer.finish_after(end)
}

/// Returns the text in which `line` replaces the section `found`. The table around `found` must have no section. Writes
/// `line` below a new header for that table or, if the table is the root, before the first header.
fn write_line(
    document: Document<'_, '_>,
    found: Found<'_, '_>,
    line: &str,
) -> Result<String, AllocError> {
    let (text, first) = (document.text, first_header(document));
    let mut writer = Writer::new(document);
    let line_end = line_end(text);
    let end = section_lines(text, found.section).end;
    let count = found.section.header.len();
    if count > 1 {
        let table = header_text(text, found.section, count.saturating_sub(2));
        let header = format!(in document.alloc; "[{table}]")?;
        writer.copy_to(found.section.header_span.start)?;
        writer.push(header.as_str())?;
        writer.push(line_end)?;
        writer.push(part(text, found.header, found.section.header_span.start))?;
        writer.push(line)?;
    } else if first < found.comments {
        writer.copy_to(first)?;
        writer.push(part(text, found.comments, found.header))?;
        writer.push(line)?;
        writer.push(line_end)?;
        let start = found.comments;
        writer.skip_lines(Span { start, end }, text.len())?;
        return writer.finish_after(end);
    } else {
        writer.copy_to(found.header)?;
        writer.push(line)?;
    }
    let start = found.header;
    writer.skip(Span { start, end })?;
    writer.finish()
}

/// Returns the start of the comment lines above the first header or, without such lines, of the header's line. If the
/// text has only the root section, returns the start of the text, after a byte order mark.
fn first_header(document: Document<'_, '_>) -> usize {
    let text = document.text;
    let from = first_place(text);
    for section in document.sections {
        if !section.header.as_slice().is_empty() {
            return comments_start(text, from, section_lines(text, section).start);
        }
    }
    from
}

/// Proposes an inline table for the section whose header is at the offset `at`. Returns `None` if `section_at` finds no
/// section there, or if the section can't be written on one line (see `push_pairs`).
pub(crate) fn section_to_inline(
    document: Document<'_, '_>,
    at: usize,
) -> Result<Option<Proposal>, AllocError> {
    let Some(found) = section_at(document, at) else {
        return Ok(None);
    };
    let start = found.section.header_span.end;
    let end = section_lines(document.text, found.section).end;
    let pairs = found.section.assignments.as_slice();
    let mut braces = String::new(document.alloc);
    if !push_pairs(document.text, start, end, pairs, &mut braces)? {
        return Ok(None);
    }
    let line = line_of(document, found, braces.as_str())?;
    let keys = found.section.header.as_slice();
    let keys = keys.get(..keys.len().saturating_sub(1)).unwrap_or(&[]);
    let new = match parent_of(document.sections, found.index, keys) {
        Some(parent) => move_line(document, found, parent, line.as_str())?,
        None => write_line(document, found, line.as_str())?,
    };
    Ok(Some(Proposal::Table(new)))
}
