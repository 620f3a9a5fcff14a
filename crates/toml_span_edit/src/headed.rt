//! Adds elements to arrays, and finds the places for sections of arrays of tables.
use crate::document::{Document, written};
use crate::given::{check_value, probe_text, probed};
use crate::items::{Item, bare, count_of, put_item};
use crate::lines::part;
use crate::mentions::{PathMention, opens_element};
use crate::missing::{first_position, known_prefix_len, put_array, put_element, put_missing};
use crate::paths::rest_of;
use crate::plan::Plan;
use crate::reason::{Edited, Reason};
use crate::text::{Text, joined};
use std::alloc::Global;
use toml_span::Stop;
use toml_span_places::section_lines;
use toml_span_read::{Assignment, Section, Val, ValKind};
use toml_span_tree::pointer::position;

/// Returns the pairs of the inline table that is the value of the first assignment in the first section. Returns `None`
/// if it is another value, or missing.
fn inline_pairs<'s, 'de>(sections: &'s [Section<'de>]) -> Option<&'s [Assignment<'de>]> {
    match &sections.first()?.assignments.as_slice().first()?.value.kind {
        ValKind::Inline(pairs) => Some(pairs.as_slice()),
        _ => None,
    }
}

/// Returns whether the TOML value `value` is an inline table. Fails with `NoValue` if `value` is not a TOML value.
pub(crate) fn is_inline(document: Document<'_, '_>, value: &str) -> Edited<bool> {
    let probe = probe_text(document.alloc, value)?;
    let sections = probed(document.alloc, probe.as_str(), value)?;
    Ok(inline_pairs(sections.as_slice()).is_some())
}

/// Returns a section for a new element of an array of tables: the header `[[header]]`, and a line for each pair of
/// `value`. `end` is the line end. Fails with `NoValue` if `value` is not a TOML value, and with `NoInlineTable` if it
/// is not an inline table.
pub(crate) fn element_text(alloc: Global, end: &str, header: &str, value: &str) -> Edited<String> {
    let probe = probe_text(alloc, value)?;
    let sections = probed(alloc, probe.as_str(), value)?;
    let Some(pairs) = inline_pairs(sections.as_slice()) else {
        return Err(Stop::Fault(Reason::NoInlineTable));
    };
    let mut lines = Text::new(alloc);
    lines.push_all("[[", header, "]]");
    lines.push(end);
    for pair in pairs {
        let line = part(probe.as_str(), pair.extent.start, pair.extent.end);
        lines.push_all(line, end, "");
    }
    Ok(lines.finish()?)
}

/// Where a section of an array of tables can be written.
#[derive(Clone, Copy)]
pub(crate) struct ElementPlace<'s> {
    /// The byte offset before which it is written.
    pub at: usize,
    /// The header of the array, without brackets.
    pub header: &'s str,
}

/// Returns where the sections of a new element at the end of an array of tables can be written. `mentions` are the
/// array's. Returns `None` if they name anything but an array of tables.
pub(crate) fn end_place<'s>(
    document: Document<'s, '_>,
    mentions: &[PathMention<'_, '_>],
) -> Option<ElementPlace<'s>> {
    match (mentions.first(), mentions.last()) {
        (Some(PathMention::Below(first, index)), Some(PathMention::Below(last, _)))
            if opens_element(*first, *index) => {
            Some(ElementPlace {
                at: section_lines(document.text, *last).end,
                header: document.header_text(*first, *index),
            })
        }
        _ => None,
    }
}

/// Returns where the sections of a new element of the array of tables at `array` can be written, before the element at
/// the position `at`. Fails with `PastEnd` if there are fewer than `at` elements, and with `NoArray` if the value is
/// not an array of tables. `path` is the path of the new element.
pub(crate) fn element_place<'s>(
    document: Document<'s, '_>,
    array: &[&str],
    path: &[&str],
    at: usize,
) -> Edited<ElementPlace<'s>> {
    let next = document.mentions(path)?;
    let mentions = document.mentions(array)?;
    let (Some(end), false) = (end_place(document, mentions.as_slice()), array.is_empty()) else {
        return Err(Stop::Fault(Reason::NoArray));
    };
    // The number of sections that open an element of the array.
    let mut count: usize = 0;
    for mention in &mentions {
        match mention {
            PathMention::Below(section, index) if opens_element(*section, *index) => {
                count = count.saturating_add(1);
            }
            _ => {}
        }
    }
    match next.as_slice().first() {
        Some(PathMention::Own(next)) => Ok(ElementPlace {
            at: document.above(next.header_span.start),
            header: end.header,
        }),
        _ if at == count => Ok(end),
        _ => Err(Stop::Fault(Reason::PastEnd)),
    }
}

/// Adds to `plan` the insertion of `item` into the array `list` at the position `at`. Fails with `NoArray` if `list` is
/// not an array, and with `PastEnd` if it has fewer than `at` elements.
fn put_at(
    document: Document<'_, '_>,
    list: &Val<'_>,
    at: usize,
    item: Item<'_>,
    plan: &mut Plan,
) -> Edited<()> {
    if !matches!(&list.kind, ValKind::Array(_)) {
        return Err(Stop::Fault(Reason::NoArray));
    }
    if at > count_of(list) {
        return Err(Stop::Fault(Reason::PastEnd));
    }
    put_item(document.text, list, at, item, plan);
    Ok(())
}

/// Adds to `plan` the insertion of the element `value` at the end of the array at `path`. If `path` names nothing,
/// inserts an array with only this element. In an array of tables, the element becomes a section, and `value` must be
/// an inline table. Fails with a reason if the insertion is not possible.
pub(crate) fn append(
    document: Document<'_, '_>,
    path: &[&str],
    value: &str,
    plan: &mut Plan,
) -> Edited<()> {
    check_value(document.alloc, value)?;
    if path.is_empty() {
        return Err(Stop::Fault(Reason::NoArray));
    }
    let mentions = document.mentions(path)?;
    if mentions.is_empty() {
        let depth = known_prefix_len(document, path)?;
        if first_position(rest_of(path, depth))?.is_none() {
            return put_array(document, path, value, plan);
        }
        let array = joined(document.alloc, "[", value, "]")?;
        return put_missing(document, path, bare(array.as_str()), plan);
    }
    if let Some(list) = written(mentions.as_slice()) {
        return put_at(document, list, count_of(list), bare(value), plan);
    }
    let Some(end) = end_place(document, mentions.as_slice()) else {
        return Err(Stop::Fault(Reason::NoArray));
    };
    put_element(document, end, value, plan)
}

/// Adds to `plan` the insertion of the element `item` into an array. The last segment of `path` is the position of the
/// new element: at most the number of elements in the array. Fails with `NoArray` if the array does not exist, or if
/// the last segment is not a position. Fails with another reason if the element can't be written there.
pub(crate) fn insert(
    document: Document<'_, '_>,
    path: &[&str],
    item: Item<'_>,
    plan: &mut Plan,
) -> Edited<()> {
    check_value(document.alloc, item.value)?;
    let [front @ .., segment] = path else {
        return Err(Stop::Fault(Reason::NoArray));
    };
    let Some(at) = position(*segment) else {
        return Err(Stop::Fault(Reason::NoArray));
    };
    let mentions = document.mentions(front)?;
    if let Some(list) = written(mentions.as_slice()) {
        return put_at(document, list, at, item, plan);
    }
    let place = element_place(document, front, path, at)?;
    put_element(document, place, item.value, plan)
}
