//! Adds entries to existing tables.
ghost use Rattle.std.specs.Prelude.{◌≡◌, false, true};
ghost use Rattle.std.specs.List.{list_all};
ghost use Rattle.toml_span_edit.specs.Kept.{InsertsLines, is_line_end};

use crate::document::{Document, written};
use crate::given::{check_value, key_text};
use crate::items::{Item, bare, count_of, put_item};
use crate::lines::{begins_line, indent, is_directive, is_open, line_end, part, point};
use crate::mentions::{Home, PathMention, opens_element};
use crate::plan::Plan;
use crate::reach::after_line;
use crate::reason::{Edited, Reason, already_there};
use crate::text::joined;
use std::alloc::AllocError;
use toml_span::Stop;
use toml_span_lex::tokenizer::first_place;
use toml_span_places::{assignment_lines, section_lines};
use toml_span_read::{Assignment, Section, Val, ValKind};

/// Where an entry of a table can be written.
#[derive(Clone, Copy)]
pub(crate) enum EntrySite<'s, 'de> {
    /// At the offset that `top_of` returns, in a document that has no assignment before its first header.
    Top,
    /// On a new line at the end of this section, the section of the table.
    Body(&'s Section<'de>),
    /// After this assignment, on the next line or in the same braces. The part of its dotted key with this index names
    /// the table.
    Dotted(&'s Assignment<'de>, usize, Home<'s, 'de>),
    /// Inside the braces of this inline table.
    Braces(&'s Val<'de>),
    /// Under a new header of the table, before this section. The part of this section's header with this index names
    /// the table.
    Header(&'s Section<'de>, usize),
}

/// Returns whether `mentions` name an array of tables, that is, whether the first mention is a section that opens an
/// element of the array. `mentions` must not be those of the root.
pub(crate) fn names_array(mentions: &[PathMention<'_, '_>]) -> bool {
    match mentions.first() {
        Some(PathMention::Below(section, index)) => opens_element(*section, *index),
        _ => false,
    }
}

/// Returns where an entry can be written in the table that `mentions` name. Returns `None` if `mentions` is empty, or
/// if they name anything but a table. `mentions` must not be those of the root.
fn entry_site<'s, 'de>(mentions: &[PathMention<'s, 'de>]) -> Option<EntrySite<'s, 'de>> {
    let mut target = None;
    if names_array(mentions) {
        return None;
    }
    for mention in mentions {
        target = match (*mention, target) {
            (PathMention::Own(section), _) => Some(EntrySite::Body(section)),
            (_, Some(EntrySite::Body(section))) => Some(EntrySite::Body(section)),
            (PathMention::Dotted(assignment, index, home), _) => {
                Some(EntrySite::Dotted(assignment, index, home))
            }
            (PathMention::Below(section, index), None) => Some(EntrySite::Header(section, index)),
            (_, target) => target,
        };
    }
    match written(mentions) {
        Some(value) if matches!(&value.kind, ValKind::Inline(_)) => Some(EntrySite::Braces(value)),
        Some(_) => None,
        None => target,
    }
}

/// Returns the byte offset after the last directive above the first header and assignment of `text`. Without a
/// directive, returns the start of `text`, after a byte order mark.
fn after_directives(text: &str) -> usize {
    let mut at = first_place(text);
    let mut found = at;
    for line in part(text, at, text.len()).split_inclusive('\n') {
        if !line.trim().is_empty() && !line.trim_start().starts_with('#') {
            break;
        }
        at = at.saturating_add(line.len());
        if is_directive(line) {
            found = at;
        }
    }
    found
}

/// Returns the byte offset for an entry at the top of `text`, after a byte order mark if there is one. If comment lines
/// begin there, and a blank line or the end of `text` follows them, the offset is after the comment lines and the blank
/// line. It is not before a directive.
fn top_of(text: &str) -> usize {
    let start = first_place(text);
    let mut at = start;
    for line in part(text, start, text.len()).split_inclusive('\n') {
        if !line.trim_start().starts_with('#') {
            break;
        }
        at = at.saturating_add(line.len());
    }
    let rest = part(text, at, after_line(text, at));
    let place = if at > start && rest.trim().is_empty() {
        after_line(text, at)
    } else {
        start
    };
    place.max(after_directives(text))
}

/// Returns the line end to insert before new lines at the byte offset `at`: none at the start of a line.
fn gap_at(text: &str, at: usize) -> &'static str
    ensures { list_all is_line_end result.now ≡ true }
{
    if is_open(text, at) {
        line_end(text)
    } else {
        ""
    }
}

/// Adds to `plan` the insertion of `lines` at the byte offset `at`, and of a line end before them if `at` is not at the
/// start of a line.
pub(crate) fn put_lines(text: &str, at: usize, lines: &str, plan: &mut Plan)
    ensures { plan.new.is_refused ≡ false → InsertsLines at lines.now plan.old plan.new }
{
    plan.put(point(at), "", gap_at(text, at), lines);
}

/// Adds to `plan` the insertion of an entry with the key `key` and the value `item` at the byte offset `at`: its
/// comment lines, and a line that begins with the indent `front`.
fn put_line(text: &str, at: usize, front: &str, key: &str, item: Item<'_>, plan: &mut Plan) {
    put_lines(text, at, item.above, plan);
    plan.put(point(at), front, key, " = ");
    plan.put(point(at), item.value, item.note, line_end(text));
}

/// Adds to `plan` the insertion of an entry with the key `key` and the value `item` at the offset that `top_of`
/// returns. If comments are above this offset, and the next line is not blank, a blank line follows.
fn put_at_top(text: &str, key: &str, item: Item<'_>, plan: &mut Plan) {
    let at = top_of(text);
    put_line(text, at, "", key, item, plan);
    let is_blank = part(text, at, after_line(text, at)).trim().is_empty();
    if at > first_place(text) && !is_blank {
        plan.put(point(at), line_end(text), "", "");
    }
}

/// Returns the indent of a new line in a section: the indent of the section's last assignment or, without assignments,
/// of its header.
fn body_indent<'s>(text: &'s str, section: &Section<'_>) -> &'s str {
    match section.assignments.as_slice().last() {
        Some(assignment) if begins_line(text, assignment.extent.start) => {
            indent(text, assignment.extent.start)
        }
        _ => indent(text, section.header_span.start),
    }
}

/// Adds to `plan` the insertion of an entry with the key `key` and the value `item` into `list`, as the pair at
/// `index`.
fn put_pair(
    document: Document<'_, '_>,
    list: &Val<'_>,
    index: usize,
    key: &str,
    item: Item<'_>,
    plan: &mut Plan,
) -> Result<(), AllocError> {
    let Item { above, value, note } = item;
    let pair = joined(document.alloc, key, " = ", value)?;
    let value = pair.as_str();
    put_item(
        document.text,
        list,
        index,
        Item { above, value, note },
        plan,
    );
    Ok(())
}

/// Adds to `plan` the insertion of an entry with the key `key` and the value `item` at `target`. Its comments are left
/// out if the entry does not get a line of its own.
pub(crate) fn put_entry(
    document: Document<'_, '_>,
    target: EntrySite<'_, '_>,
    key: &str,
    item: Item<'_>,
    plan: &mut Plan,
) -> Result<(), AllocError> {
    let text = document.text;
    match target {
        EntrySite::Top => put_at_top(text, key, item, plan),
        EntrySite::Body(section) => {
            let at = section_lines(text, section).end;
            put_line(text, at, body_indent(text, section), key, item, plan);
        }
        EntrySite::Dotted(assignment, index, home) => {
            let table = document.dotted_text(assignment, index);
            let key = joined(document.alloc, table, ".", key)?;
            let key = key.as_str();
            match home {
                Home::Lines => {
                    let front = indent(text, assignment.extent.start);
                    let at = assignment_lines(text, assignment).end;
                    put_line(text, at, front, key, item, plan);
                }
                Home::Braces(list, pair) => {
                    return put_pair(document, list, pair.saturating_add(1), key, item, plan);
                }
            }
        }
        EntrySite::Braces(list) => {
            return put_pair(document, list, count_of(list), key, item, plan);
        }
        EntrySite::Header(section, index) => {
            let (header, end) = (document.header_text(section, index), line_end(text));
            let at = document.above(section.header_span.start);
            put_lines(text, at, "[", plan);
            plan.put(point(at), header, "]", end);
            put_line(text, at, "", key, item, plan);
            plan.put(point(at), end, "", "");
        }
    }
    Ok(())
}

/// Returns where an entry of the table at `path` can be written. Fails with `Nothing` if `path` names nothing, and with
/// `NoTable` if the value there is not a table.
pub(crate) fn table_entry_site<'s, 'de>(
    document: Document<'s, 'de>,
    path: &[&str],
) -> Edited<EntrySite<'s, 'de>> {
    let mentions = document.mentions(path)?;
    if path.is_empty() {
        return Ok(match mentions.as_slice().first() {
            Some(PathMention::Own(section)) if section.header.as_slice().is_empty() => {
                EntrySite::Body(*section)
            }
            _ => EntrySite::Top,
        });
    }
    match entry_site(mentions.as_slice()) {
        Some(target) => Ok(target),
        None if mentions.is_empty() => Err(Stop::Fault(Reason::Nothing)),
        None => Err(Stop::Fault(Reason::NoTable)),
    }
}

/// Adds to `plan` the insertion of an entry with the TOML value `value` into an existing table. The last segment of
/// `path` is the new key. Fails with a reason if this is not possible.
pub(crate) fn add(
    document: Document<'_, '_>,
    path: &[&str],
    value: &str,
    plan: &mut Plan,
) -> Edited<()> {
    check_value(document.alloc, value)?;
    let [front @ .., name] = path else {
        return Err(already_there(document.alloc));
    };
    let target = table_entry_site(document, front)?;
    if document.has(path)? {
        return Err(already_there(document.alloc));
    }
    let key = key_text(document.alloc, *name)?;
    put_entry(document, target, key.as_str(), bare(value), plan)?;
    Ok(())
}
