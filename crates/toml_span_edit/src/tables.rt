//! Converts inline tables and dotted keys to sections.
use crate::conversions::Proposal;
use crate::document::Document;
use crate::lines::{comments_start, indent_of, part};
use crate::mentions::{last_part, part_at};
use crate::places::{FoundAssignment, assignment_at, body_start, header_text, parts_text, touches};
use crate::writer::Writer;
use std::alloc::AllocError;
use toml_span_lex::span::Span;
use toml_span_places::{assignment_lines, section_lines, with_quotes};
use toml_span_read::{Assignment, DottedKey, Section, ValKind};

/// Returns the header of the table `key` in a section: `[a.b.c]` if the header of the section is `[a]` and `key` is
/// `b.c`.
pub(crate) fn header_of(
    document: Document<'_, '_>,
    section: &Section<'_>,
    key: &str,
) -> Result<String, AllocError> {
    let table = header_text(document.text, section, last_part(section));
    let dot = if table.is_empty() { "" } else { "." };
    format!(in document.alloc; "[{table}{dot}{key}]")
}

/// Ends the last line of `out`, and appends the comments in `gap`, the text of an inline table before, between or after
/// its pairs. A comment in the first line of `gap` goes to the end of the last line of `out`. Each other comment gets a
/// line of its own, which begins with `indent`. `end` is the line end to write.
fn push_gap(out: &mut String, gap: &str, indent: &str, end: &str) -> Result<(), AllocError> {
    for (index, line) in gap.split('\n').enumerate() {
        let comment = part(line, line.find('#').unwrap_or(line.len()), line.len()).trim_end();
        if index == 0 {
            out.push_str(if comment.is_empty() { "" } else { " " })?;
            out.push_str(comment)?;
            out.push_str(end)?;
        } else if !comment.is_empty() {
            out.push_str(indent)?;
            out.push_str(comment)?;
            out.push_str(end)?;
        }
    }
    Ok(())
}

/// Ends the last line of `out`, and appends the pairs and comments of an inline table, each pair on a line of its own,
/// which begins with `indent`. `braces` is the span of the table, and `end` the line end to write.
fn push_pairs(
    out: &mut String,
    text: &str,
    braces: Span,
    pairs: &[Assignment<'_>],
    indent: &str,
    end: &str,
) -> Result<(), AllocError> {
    let mut from = braces.start.saturating_add(1);
    for pair in pairs {
        push_gap(out, part(text, from, pair.extent.start), indent, end)?;
        out.push_str(indent)?;
        out.push_str(part(text, pair.extent.start, pair.extent.end))?;
        from = pair.extent.end;
    }
    let gap = part(text, from, braces.end.saturating_sub(1));
    push_gap(out, gap, indent, end)
}

/// Returns the section for the inline table in `found`, whose pairs are `pairs`. `above` has the comment lines above
/// `found`, and `end` is the line end to write. The comment after the table is written after the header or, if a
/// comment follows the opening brace on the same line, above the header.
fn section_of(
    document: Document<'_, '_>,
    found: FoundAssignment<'_, '_>,
    pairs: &[Assignment<'_>],
    above: &str,
    end: &str,
) -> Result<String, AllocError> {
    let (text, assignment) = (document.text, found.assignment);
    let braces = assignment.value.span;
    let first = match pairs.first() {
        Some(pair) => pair.extent.start,
        None => braces.end,
    };
    let mut opening = part(text, braces.start, first).split('\n');
    let header_has_comment = opening.next().unwrap_or("").contains('#');
    let line_end = assignment_lines(text, assignment).end;
    let after = part(text, assignment.extent.end, line_end).trim_end();
    let front = indent_of(text, assignment);
    let mut out = String::from_str(document.alloc, above)?;
    if header_has_comment && !after.is_empty() {
        out.push_str(front)?;
        out.push_str(after.trim_start())?;
        out.push_str(end)?;
    }
    let key = parts_text(text, &assignment.parts, 0, assignment.parts.inner.len());
    out.push_str(front)?;
    out.push_str(header_of(document, found.section, key)?.as_str())?;
    out.push_str(if header_has_comment { "" } else { after })?;
    push_pairs(&mut out, text, braces, pairs, front, end)?;
    Ok(out)
}

/// Proposes a section for the inline table at the offset `at`, after the section that contains the table. Returns
/// `None` unless an assignment with an inline table as its value contains or touches `at`.
pub(crate) fn inline_to_section(
    document: Document<'_, '_>,
    at: usize,
) -> Result<Option<Proposal>, AllocError> {
    let text = document.text;
    let Some(found) = assignment_at(document, at) else {
        return Ok(None);
    };
    let ValKind::Inline(pairs) = &found.assignment.value.kind else {
        return Ok(None);
    };
    let lines = assignment_lines(text, found.assignment);
    let start = comments_start(text, found.above, lines.start);
    let above = part(text, start, lines.start);
    let body_end = section_lines(text, found.section).end;
    let mut writer = Writer::new(document);
    let new = section_of(document, found, pairs.as_slice(), above, writer.end)?;
    let end = lines.end;
    writer.skip_lines(Span { start, end }, body_end)?;
    writer.copy_to(body_end)?;
    writer.push_apart(new.as_str())?;
    Ok(Some(Proposal::Table(writer.finish()?)))
}

/// Returns whether both keys have more than `count` parts and the same first `count` parts.
fn has_front(key: &DottedKey<'_>, other: &DottedKey<'_>, count: usize) -> bool {
    for index in 0..count {
        match (key.inner.get(index), other.inner.get(index)) {
            (Some(part), Some(other)) if part.name.as_str() == other.name.as_str() => {}
            _ => return false,
        }
    }
    true
}

/// Returns the number of parts, at the start of `key`, that name the table to convert. Counts the parts up to the one
/// at the offset `at`, inclusive, but never the last part of `key`. If no part is at `at`, returns 1, or 0 for a key of
/// one part.
fn table_parts(text: &str, key: &DottedKey<'_>, at: usize) -> usize {
    for (index, part) in key.inner.iter().enumerate() {
        if touches(with_quotes(text, part.span), at) {
            return index.saturating_add(1);
        }
    }
    if touches(with_quotes(text, key.last.span), at) {
        return key.inner.len();
    }
    key.inner.len().min(1)
}

/// Copies the old text to `writer`, up to the end of the section of `found`. Leaves out the assignments whose keys
/// begin with the first `count` parts of the key of `found`. Appends these assignments to `out`, with their comments
/// and without the `count` parts.
fn move_rest(
    writer: &mut Writer<'_>,
    text: &str,
    found: FoundAssignment<'_, '_>,
    count: usize,
    out: &mut String,
) -> Result<(), AllocError> {
    let body_end = section_lines(text, found.section).end;
    let mut above = body_start(text, found.section);
    for assignment in &found.section.assignments {
        let lines = assignment_lines(text, assignment);
        if has_front(&assignment.parts, &found.assignment.parts, count) {
            let start = comments_start(text, above, lines.start);
            let end = lines.end;
            out.push_str(part(text, start, lines.start))?;
            let key = with_quotes(text, part_at(&assignment.parts, count).span);
            out.push_str(indent_of(text, assignment))?;
            out.push_str(part(text, key.start, end).trim_end_matches(['\n', '\r']))?;
            out.push_str(writer.end)?;
            writer.skip_lines(Span { start, end }, body_end)?;
        }
        above = lines.end;
    }
    writer.copy_to(body_end)
}

/// Proposes to write the table of the dotted key at the offset `at` as a section, after the section that contains the
/// key. Returns `None` unless an assignment with a dotted key contains or touches `at`.
pub(crate) fn dotted_to_section(
    document: Document<'_, '_>,
    at: usize,
) -> Result<Option<Proposal>, AllocError> {
    let text = document.text;
    let Some(found) = assignment_at(document, at) else {
        return Ok(None);
    };
    let count = table_parts(text, &found.assignment.parts, at);
    if count == 0 {
        return Ok(None);
    }
    let mut writer = Writer::new(document);
    let table = parts_text(text, &found.assignment.parts, 0, count.saturating_sub(1));
    let mut new = String::from_str(document.alloc, indent_of(text, found.assignment))?;
    new.push_str(header_of(document, found.section, table)?.as_str())?;
    new.push_str(writer.end)?;
    move_rest(&mut writer, text, found, count, &mut new)?;
    writer.push_apart(new.as_str())?;
    Ok(Some(Proposal::Table(writer.finish()?)))
}
