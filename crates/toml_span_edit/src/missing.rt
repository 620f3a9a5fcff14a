//! Adds values with the tables and arrays missing on the way.
use crate::adding::{names_array, put_entry, put_lines, table_entry_site};
use crate::document::{Document, written};
use crate::edits::{path_text, push_more};
use crate::given::key_text;
use crate::headed::{ElementPlace, element_text, is_inline};
use crate::items::{Item, bare};
use crate::lines::{is_apart, line_end, part, point};
use crate::mentions::{PathMention, last_part, opens_element};
use crate::paths::{front_of, rest_of};
use crate::plan::Plan;
use crate::reach::after_line;
use crate::reason::{Edited, Reason, already_there};
use crate::text::{Text, joined};
use std::alloc::{AllocError, Global};
use toml_span::Stop;
use toml_span_places::section_lines;
use toml_span_read::ValKind;
use toml_span_tree::pointer::position;

/// Returns the number of segments in the longest prefix of `path`, shorter than `path`, that names an existing value.
/// The empty prefix names the root.
pub(crate) fn known_prefix_len(
    document: Document<'_, '_>,
    path: &[&str],
) -> Result<usize, AllocError> {
    for depth in (1..path.len()).rev() {
        if document.has(front_of(path, depth))? {
            return Ok(depth);
        }
    }
    Ok(0)
}

/// Returns the index of the first segment after the first one that is `0`: the position of the only element of an array
/// that is missing too. Returns `None` if there is none. Fails with `PastEnd` if such a segment is another position.
pub(crate) fn first_position(missing: &[&str]) -> Edited<Option<usize>> {
    let mut first = None;
    for (index, segment) in missing.iter().enumerate().skip(1) {
        match position(*segment) {
            Some(0) => first = first.or(Some(index)),
            Some(_) => return Err(Stop::Fault(Reason::PastEnd)),
            None => {}
        }
    }
    Ok(first)
}

/// Returns whether the value at `path` is an array, either in brackets or an array of tables. Returns false if `path`
/// names nothing.
pub(crate) fn is_array(document: Document<'_, '_>, path: &[&str]) -> Result<bool, AllocError> {
    let mentions = document.mentions(path)?;
    if let Some(value) = written(mentions.as_slice()) {
        return Ok(matches!(&value.kind, ValKind::Array(_)));
    }
    Ok(!path.is_empty() && names_array(mentions.as_slice()))
}

/// Returns the byte offset after the last section whose header names the table at `path`, and this header up to the
/// part that names the table, without brackets. Returns the end of the text and an empty string for the root. Returns
/// `None` if anything but headers names the table, if it is an array of tables, or if nothing names it.
fn section_place<'s>(
    document: Document<'s, '_>,
    path: &[&str],
) -> Result<Option<(usize, &'s str)>, AllocError> {
    if path.is_empty() {
        return Ok(Some((document.text.len(), "")));
    }
    let mut place = None;
    for mention in document.mentions(path)? {
        let (section, index) = match mention {
            PathMention::Own(section) => (section, last_part(section)),
            PathMention::Below(section, index) if !opens_element(section, index) => (
                section, index,
            ),
            _ => return Ok(None),
        };
        place = Some((
            section_lines(document.text, section).end,
            document.header_text(section, index),
        ));
    }
    Ok(place)
}

/// Where the sections of a table can be written.
#[derive(Drop)]
pub(crate) struct Place {
    /// The byte offset before which they are written.
    pub at: usize,
    /// The table's header, without brackets.
    pub header: String,
}

/// Returns where the sections of a table at `path` can be written, which must name nothing, and must have no positions
/// in missing arrays. Returns `None` if anything but headers defines the innermost table that exists.
pub(crate) fn new_place(
    document: Document<'_, '_>,
    path: &[&str],
) -> Result<Option<Place>, AllocError> {
    let depth = known_prefix_len(document, path)?;
    let Some((at, table)) = section_place(document, front_of(path, depth))? else {
        return Ok(None);
    };
    let names = rest_of(path, depth);
    if table.is_empty() {
        let header = path_text(document.alloc, names)?;
        return Ok(Some(Place { at, header }));
    }
    let mut header = String::from_str(document.alloc, table)?;
    push_more(document.alloc, names, &mut header)?;
    Ok(Some(Place { at, header }))
}

/// Adds to `plan` the insertion of a blank line before a section at the byte offset `at`, unless one is there already.
fn begin_section(text: &str, at: usize, plan: &mut Plan) {
    let gap = if is_apart(text, at) {
        ""
    } else {
        line_end(text)
    };
    put_lines(text, at, gap, plan);
}

/// Adds to `plan` the insertion of a blank line after a section at the byte offset `at`, unless one is there already.
fn end_section(text: &str, at: usize, plan: &mut Plan) {
    let next = part(text, at, after_line(text, at));
    if !next.trim().is_empty() {
        plan.put(point(at), line_end(text), "", "");
    }
}

/// Adds to `plan` the insertion of the lines `section` at the byte offset `at`, with blank lines between them and the
/// text above and below.
pub(crate) fn put_section(text: &str, at: usize, section: &str, plan: &mut Plan) {
    begin_section(text, at, plan);
    plan.put(point(at), section, "", "");
    end_section(text, at, plan);
}

/// Adds to `plan` the insertion of the element `value` of an array of tables as a section at `place`. Fails with
/// `NoValue` if `value` is not a TOML value, and with `NoInlineTable` if it is not an inline table.
pub(crate) fn put_element(
    document: Document<'_, '_>,
    place: ElementPlace<'_>,
    value: &str,
    plan: &mut Plan,
) -> Edited<()> {
    let end = line_end(document.text);
    let lines = element_text(document.alloc, end, place.header, value)?;
    put_section(document.text, place.at, lines.as_str(), plan);
    Ok(())
}

/// Adds to `plan` the insertion of the value `item` with the name `name` in a table with a new header at `place`.
fn put_in_section(
    document: Document<'_, '_>,
    place: &Place,
    name: &str,
    item: Item<'_>,
    plan: &mut Plan,
) -> Result<(), AllocError> {
    let (text, at, end) = (document.text, point(place.at), line_end(document.text));
    let key = key_text(document.alloc, name)?;
    begin_section(text, place.at, plan);
    plan.put(at, "[", place.header.as_str(), "]");
    plan.put(at, end, item.above, key.as_str());
    plan.put(at, " = ", item.value, item.note);
    plan.put(at, end, "", "");
    end_section(text, place.at, plan);
    Ok(())
}

/// Adds to `plan` the insertion of the value `item` at `path`, which must name nothing, and must have no positions in
/// missing arrays. Tables missing on the way get a new header or, if braces or dotted keys define the table around
/// them, a dotted key. Fails with a reason if the insertion is not possible.
fn put_value(
    document: Document<'_, '_>,
    path: &[&str],
    item: Item<'_>,
    plan: &mut Plan,
) -> Edited<()> {
    let depth = known_prefix_len(document, path)?;
    let (table, missing) = (front_of(path, depth), rest_of(path, depth));
    let [front @ .., name] = path else {
        return Err(already_there(document.alloc));
    };
    if missing.len() > 1 {
        if let Some(place) = new_place(document, front)? {
            return Ok(put_in_section(document, &place, *name, item, plan)?);
        }
    }
    let is_position = match missing {
        [name, ..] => position(*name).is_some(),
        [] => false,
    };
    if is_position && is_array(document, table)? {
        return Err(Stop::Fault(Reason::PastEnd));
    }
    let target = table_entry_site(document, table)?;
    let key = path_text(document.alloc, missing)?;
    Ok(put_entry(document, target, key.as_str(), item, plan)?)
}

/// Adds to `plan` the insertion of an array with `value` as its only element at `path`, which must name nothing, and
/// must have no positions in missing arrays. If `value` is an inline table, and no braces or dotted keys define the
/// table around the array, the element is written as a section with a header `[[..]]`. Fails with a reason if the
/// insertion is not possible.
pub(crate) fn put_array(
    document: Document<'_, '_>,
    path: &[&str],
    value: &str,
    plan: &mut Plan,
) -> Edited<()> {
    if is_inline(document, value)? {
        if let Some(Place { at, header }) = new_place(document, path)? {
            let header = header.as_str();
            return put_element(document, ElementPlace { at, header }, value, plan);
        }
    }
    let array = joined(document.alloc, "[", value, "]")?;
    put_value(document, path, bare(array.as_str()), plan)
}

/// Returns `value` inside nested inline tables and arrays: for each of `names`, from the outermost inward, a table
/// whose only entry has this name or, for `0`, an array.
fn wrapped(alloc: Global, names: &[&str], value: &str) -> Result<String, AllocError> {
    let mut out = Text::new(alloc);
    for name in names {
        if *name == "0" {
            out.push("[");
        } else {
            out.push("{");
            out.push(key_text(alloc, *name)?.as_str());
            out.push(" = ");
        }
    }
    out.push(value);
    for name in names.iter().rev() {
        out.push(if *name == "0" { "]" } else { "}" });
    }
    out.finish()
}

/// Adds to `plan` the insertion of the value `item`, and of the tables and arrays missing on the way, at `path`. Fails
/// with `AlreadyThere` if `path` names a value, with `PastEnd` if it leads to an element that is missing, other than
/// the first one of a missing array, and with another reason if the insertion is not possible.
pub(crate) fn put_missing(
    document: Document<'_, '_>,
    path: &[&str],
    item: Item<'_>,
    plan: &mut Plan,
) -> Edited<()> {
    if path.is_empty() || document.has(path)? {
        return Err(already_there(document.alloc));
    }
    let depth = known_prefix_len(document, path)?;
    let Some(index) = first_position(rest_of(path, depth))? else {
        return put_value(document, path, item, plan);
    };
    let at = depth.saturating_add(index);
    let names = rest_of(path, at.saturating_add(1));
    let element = wrapped(document.alloc, names, item.value)?;
    put_array(document, front_of(path, at), element.as_str(), plan)
}

/// Adds to `plan` the insertion of an empty table at `path`: a header or, in a table that braces or dotted keys define,
/// an entry with `{}`. Fails as `put_missing` does.
pub(crate) fn add_table(document: Document<'_, '_>, path: &[&str], plan: &mut Plan) -> Edited<()> {
    let depth = known_prefix_len(document, path)?;
    let is_plain = first_position(rest_of(path, depth))?.is_none();
    if path.is_empty() || document.has(path)? {
        return Err(already_there(document.alloc));
    }
    if is_plain {
        if let Some(Place { at, header }) = new_place(document, path)? {
            let text = document.text;
            begin_section(text, at, plan);
            plan.put(point(at), "[", header.as_str(), "]");
            plan.put(point(at), line_end(text), "", "");
            end_section(text, at, plan);
            return Ok(());
        }
    }
    put_missing(document, path, bare("{}"), plan)
}
