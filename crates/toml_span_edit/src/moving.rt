//! Moves values to other paths.
use crate::adding::names_array;
use crate::document::{Document, written};
use crate::headed::{ElementPlace, element_place, insert};
use crate::items::{Item, comments_of};
use crate::lines::{is_apart, line_end, line_start, line_stop, part, point};
use crate::mentions::{Home, PathMention, last_part, part_at};
use crate::missing::{Place, first_position, is_array, known_prefix_len, new_place, put_missing};
use crate::paths::{front_of, rest_of};
use crate::plan::Plan;
use crate::reason::{Edited, already_there};
use crate::removing::is_implied;
use crate::text::Text;
use std::alloc::AllocError;
use toml_span_places::{assignment_lines, section_lines, val_literal_span, with_quotes};
use toml_span_read::{Assignment, Section};
use toml_span_tree::pointer::position;

/// Returns the value at `path` with its comments: the lines directly above it and the comment that follows it on its
/// line. Returns `None` if `path` names nothing, or if the value is not written as a literal.
pub(crate) fn moved_value<'s>(
    document: Document<'s, '_>,
    path: &[&str],
) -> Result<Option<Item<'s>>, AllocError> {
    let text = document.text;
    let mentions = document.mentions(path)?;
    let Some(value) = written(mentions.as_slice()) else {
        return Ok(None);
    };
    let literal = val_literal_span(text, value);
    let value = part(text, literal.start, literal.end);
    let (above, note) = match mentions.as_slice().first() {
        Some(PathMention::Assigned(assignment, Home::Lines)) => {
            let start = line_start(text, assignment.extent.start);
            let above = part(text, document.above(start), start);
            (above, part(text, literal.end, line_stop(text, literal.end)))
        }
        Some(PathMention::Assigned(_, Home::Braces(list, index))) => comments_of(
            text, list, *index,
        ),
        Some(PathMention::Element(list, index)) => comments_of(text, list, *index),
        _ => ("", ""),
    };
    Ok(Some(Item { above, value, note }))
}

/// Adds to `plan` the changes that put the value `item` at `path`: as an element if `path` leads into an array,
/// otherwise as an entry of a table. Fails with a reason if this is not possible.
pub(crate) fn put_moved(
    document: Document<'_, '_>,
    path: &[&str],
    item: Item<'_>,
    plan: &mut Plan,
) -> Edited<()> {
    let [front @ .., _] = path else {
        return Err(already_there(document.alloc));
    };
    if is_array(document, front)? {
        return insert(document, path, item, plan);
    }
    put_missing(document, path, item, plan)
}

// ---- tables and arrays of tables

/// Where the sections of a moved table or array of tables are written.
#[derive(Drop)]
pub(crate) struct Site {
    /// The byte offset before which they are written.
    pub at: usize,
    /// The header, without brackets.
    pub header: String,
    /// Whether the table becomes an element of an array of tables.
    pub is_element: bool,
    /// Whether only headers have to change: the target is not inside an array of tables.
    pub is_plain: bool,
}

/// Returns where the sections of a table that is moved to `path` are written in `document`, which lacks the table.
/// Returns `None` if the table must be written in braces there. Fails with a reason if `path` names a value that stays
/// there, or an element that can't be added.
pub(crate) fn section_site(document: Document<'_, '_>, path: &[&str]) -> Edited<Option<Site>> {
    let [front @ .., segment] = path else {
        return Err(already_there(document.alloc));
    };
    let (is_array, is_written) = {
        let mentions = document.mentions(front)?;
        (
            names_array(mentions.as_slice()),
            written(mentions.as_slice()).is_some(),
        )
    };
    if let (Some(at), false, true) = (position(*segment), front.is_empty(), is_array) {
        let ElementPlace { at, header } = element_place(document, front, path, at)?;
        return Ok(Some(Site {
            at,
            header: String::from_str(document.alloc, header)?,
            is_element: true,
            is_plain: false,
        }));
    }
    if is_written {
        return Ok(None);
    }
    if document.has(path)? {
        return Err(already_there(document.alloc));
    }
    new_site(document, path)
}

/// Returns where the sections of a table that is moved to `path` are written in `document`, where `path` names nothing
/// yet. Returns `None` if the table must be written in braces there. Fails with `PastEnd` as `first_position` does.
fn new_site(document: Document<'_, '_>, path: &[&str]) -> Edited<Option<Site>> {
    let depth = known_prefix_len(document, path)?;
    let (end, is_element) = match first_position(rest_of(path, depth))? {
        Some(index) => (depth.saturating_add(index), true),
        None => (path.len(), false),
    };
    if is_element && end.saturating_add(1) < path.len() {
        return Ok(None);
    }
    let mut is_plain = !is_element;
    for depth in 1..path.len() {
        is_plain &= !names_array(document.mentions(front_of(path, depth))?.as_slice());
    }
    let Some(Place { at, header }) = new_place(document, front_of(path, end))? else {
        return Ok(None);
    };
    Ok(Some(Site {
        at,
        header,
        is_element,
        is_plain,
    }))
}

/// Adds to `plan` the insertion of a header of the table around the value at `path`, above the first header of the
/// value, if the table exists only because of this value. Only headers must name the value.
pub(crate) fn keep_header(
    document: Document<'_, '_>,
    path: &[&str],
    plan: &mut Plan,
) -> Result<(), AllocError> {
    let [front @ .., _] = path else {
        return Ok(());
    };
    let count = document.mentions(path)?.len();
    let table = document.mentions(front)?;
    if front.is_empty() || !is_implied(table.as_slice(), count) {
        return Ok(());
    }
    if let Some(PathMention::Below(section, index)) = table.as_slice().first() {
        let (header, end) = (
            document.header_text(*section, *index),
            line_end(document.text),
        );
        let at = document.above(section.header_span.start);
        plan.put(point(at), "[", header, "]");
        plan.put(point(at), end, end, "");
    }
    Ok(())
}

/// Adds to `plan` the changes that write `header` instead of `path` in the headers of the table, or array of tables, at
/// `path`, and of the tables inside it.
pub(crate) fn rename_headers(
    document: Document<'_, '_>,
    path: &[&str],
    header: &str,
    plan: &mut Plan,
) -> Result<(), AllocError> {
    for mention in document.mentions(path)? {
        let span = match mention {
            PathMention::Own(section) => document.header_span(section, last_part(section)),
            PathMention::Below(section, index) => document.header_span(section, index),
            _ => return Ok(()),
        };
        plan.put(span, header, "", "");
    }
    Ok(())
}

/// Appends `lines`, and a line end if the last line has none.
fn push_lines(document: Document<'_, '_>, lines: &str, out: &mut Text) {
    out.push(lines);
    if !lines.ends_with('\n') {
        out.push(line_end(document.text));
    }
}

/// Returns the text after the brackets of a section's header, up to the byte offset `stop`.
fn after_header<'s>(document: Document<'s, '_>, section: &Section<'_>, stop: usize) -> &'s str {
    let end = document.header_span(section, last_part(section)).end;
    let rest = part(document.text, end, stop).trim_start_matches([' ', '\t']);
    let bracket = if section.array { "]]" } else { "]" };
    rest.strip_prefix(bracket).unwrap_or(rest)
}

/// Returns the comment lines directly above the header of the table at `path`, line ends included, and the spaces, tabs
/// and comment after the header. Both are empty if the table has no header of its own.
pub(crate) fn header_comments<'s>(
    document: Document<'s, '_>,
    path: &[&str],
) -> Result<(&'s str, &'s str), AllocError> {
    let text = document.text;
    for mention in document.mentions(path)? {
        if let PathMention::Own(section) = mention {
            let open = section.header_span.start;
            let above = part(text, document.above(open), line_start(text, open));
            return Ok((
                above,
                after_header(document, section, line_stop(text, open)),
            ));
        }
    }
    Ok(("", ""))
}

/// Appends a header in brackets: in double brackets if `is_element`.
fn push_header(header: &str, is_element: bool, out: &mut Text) {
    if is_element {
        out.push_all("[[", header, "]]");
    } else {
        out.push_all("[", header, "]");
    }
}

/// Appends the section of a table inside a moved table, with its comments. `header` replaces the header up to the part
/// at `index`. A blank line comes first if one is above the section, unless `out` is empty.
fn push_below(
    document: Document<'_, '_>,
    section: &Section<'_>,
    index: usize,
    header: &str,
    out: &mut Text,
) {
    let text = document.text;
    let start = document.above(section.header_span.start);
    let span = document.header_span(section, index);
    if out.len() > 0 && is_apart(text, start) {
        out.push(line_end(text));
    }
    out.push_all(part(text, start, span.start), header, "");
    let rest = part(text, span.end, section_lines(text, section).end);
    push_lines(document, rest, out);
}

/// Appends the lines of an assignment, with its comments, and without the first parts of its key, up to the part at
/// `index`.
fn push_entry(
    document: Document<'_, '_>,
    assignment: &Assignment<'_>,
    index: usize,
    out: &mut Text,
) {
    let (text, lines) = (document.text, assignment_lines(document.text, assignment));
    let part_span = part_at(&assignment.parts, index.saturating_add(1)).span;
    let key = with_quotes(text, part_span);
    out.push(part(text, document.above(lines.start), assignment.extent.start));
    push_lines(document, part(text, key.start, lines.end), out);
}

/// Returns the sections of the table, or array of tables, at `path`, with `header` instead of `path` in their headers,
/// and with their comments. If `is_element`, the table becomes an element of an array of tables. Entries that are
/// written by dotted keys come below the table's own header.
pub(crate) fn sections_text(
    document: Document<'_, '_>,
    path: &[&str],
    header: &str,
    is_element: bool,
) -> Result<String, AllocError> {
    let (text, mentions) = (document.text, document.mentions(path)?);
    let mut needs_header = is_element;
    let mut out = Text::new(document.alloc);
    for mention in &mentions {
        match mention {
            PathMention::Own(section) => {
                let open = section.header_span.start;
                out.push(part(text, document.above(open), open));
                push_header(header, is_element, &mut out);
                let rest = after_header(document, *section, section_lines(text, *section).end);
                push_lines(document, rest, &mut out);
            }
            PathMention::Dotted(_, _, _) => needs_header = true,
            _ => {}
        }
    }
    if out.len() == 0 && needs_header {
        push_header(header, is_element, &mut out);
        out.push(line_end(text));
    }
    for mention in &mentions {
        if let PathMention::Dotted(assignment, index, _) = mention {
            push_entry(document, *assignment, *index, &mut out);
        }
    }
    for mention in &mentions {
        if let PathMention::Below(section, index) = mention {
            push_below(document, *section, *index, header, &mut out);
        }
    }
    out.finish()
}
