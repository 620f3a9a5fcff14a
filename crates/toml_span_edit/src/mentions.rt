//! Finds the places where a document names the value at a path.
use crate::paths::{has_position, has_segment, rest_of};
use std::alloc::{AllocError, Global};
use toml_span::value::Key;
use toml_span_read::{Assignment, DottedKey, Section, Val, ValKind};

/// Where an assignment is written.
#[derive(Clone, Copy)]
pub(crate) enum Home<'s, 'de> {
    /// On a line of a section.
    Lines,
    /// In the braces of this inline table, as the pair with this index.
    Braces(&'s Val<'de>, usize),
}

/// A place in the text that names the value at a path.
#[derive(Clone, Copy)]
pub(crate) enum PathMention<'s, 'de> {
    /// The section of the table at the path. For the root, the section without a header.
    Own(&'s Section<'de>),
    /// The section of a table inside the value. The part of the section's header with this index names the value. For
    /// the root, the index is 0.
    Below(&'s Section<'de>, usize),
    /// An assignment with a dotted key. The part of the key with this index, which is not the last part, names the
    /// value.
    Dotted(&'s Assignment<'de>, usize, Home<'s, 'de>),
    /// The assignment of the value.
    Assigned(&'s Assignment<'de>, Home<'s, 'de>),
    /// In this array, written in brackets, the element at this index.
    Element(&'s Val<'de>, usize),
}

/// Where the table of a section is, relative to the value at a path.
enum Placement {
    /// Neither at the path, nor on the way to it, nor inside the value.
    Apart,
    /// At the path or on the way to it: this many of the path's first segments name the table.
    Above(usize),
    /// Inside the value. The part of the header with this index names the value; for the root, the index is 0.
    Below(usize),
}

/// Returns the part of a key at `index`, or the last part if `index` is out of range.
pub(crate) fn part_at<'s, 'de>(parts: &'s DottedKey<'de>, index: usize) -> &'s Key<'de> {
    if let Some(key) = parts.inner.get(index) {
        return key;
    }
    &parts.last
}

/// Returns the index of the last part of a section's header.
pub(crate) fn last_part(section: &Section<'_>) -> usize {
    section.header.len().saturating_sub(1)
}

/// Adds 1 to `counts[depth]` (see `placement_of`), and returns the number before. If `depth` is out of range, changes
/// nothing and returns 0.
fn count_up(counts: &mut Vec<usize>, depth: usize) -> usize {
    match counts.get_mut(depth) {
        Some(count) => {
            let before = *count;
            *count = before.saturating_add(1);
            before
        }
        None => 0,
    }
}

/// Returns where the table of `section` is, relative to the value at `path`. `counts[n]` is the number of elements that
/// earlier sections opened in the array of tables at the first `n` segments of `path`. If `section` opens one more,
/// adds 1 to that number.
fn placement_of(section: &Section<'_>, path: &[&str], counts: &mut Vec<usize>) -> Placement {
    let mut depth: usize = 0;
    let last = last_part(section);
    for (index, key) in section.header.as_slice().iter().enumerate() {
        if depth >= path.len() {
            return Placement::Below(index.saturating_sub(1));
        }
        if !has_segment(path, depth, key.name.as_ref()) {
            return Placement::Apart;
        }
        depth = depth.saturating_add(1);
        let opened = counts.get(depth).copied().unwrap_or(0);
        let is_element = section.array && index == last;
        let element = if is_element {
            count_up(counts, depth)
        } else {
            opened.saturating_sub(1)
        };
        if is_element || opened > 0 {
            if depth >= path.len() {
                return Placement::Below(index);
            }
            if !has_position(path, depth, element) {
                return Placement::Apart;
            }
            depth = depth.saturating_add(1);
        }
    }
    Placement::Above(depth)
}

/// Appends to `out` the mentions of `path` in `assignment`, which is written at `home`. `path` begins at the table
/// around `assignment`, and must not be empty.
#[cycle(push_inside)]
fn push_assigned<'s, 'de>(
    assignment: &'s Assignment<'de>,
    home: Home<'s, 'de>,
    path: &[&str],
    out: &mut Vec<PathMention<'s, 'de>>,
) -> Result<(), AllocError> {
    let parts = &assignment.parts;
    let count = parts.inner.len().saturating_add(1).min(path.len());
    for index in 0..count {
        if !has_segment(path, index, part_at(parts, index).name.as_ref()) {
            return Ok(());
        }
    }
    if count <= parts.inner.len() {
        out.push(PathMention::Dotted(assignment, count.saturating_sub(1), home))?;
    } else if count >= path.len() {
        out.push(PathMention::Assigned(assignment, home))?;
    } else {
        push_inside(&assignment.value, rest_of(path, count), out)?;
    }
    Ok(())
}

/// Appends to `out` the mentions of `path` inside `value`. `path` begins at `value`; if `path` is empty, appends
/// nothing.
#[cycle(push_inside)]
fn push_inside<'s, 'de>(
    value: &'s Val<'de>,
    path: &[&str],
    out: &mut Vec<PathMention<'s, 'de>>,
) -> Result<(), AllocError> {
    match &value.kind {
        ValKind::Inline(pairs) if !path.is_empty() => {
            for (index, pair) in pairs.iter().enumerate() {
                push_assigned(pair, Home::Braces(value, index), path, out)?;
            }
        }
        ValKind::Array(items) => {
            for (index, item) in items.iter().enumerate() {
                if has_position(path, 0, index) {
                    let rest = rest_of(path, 1);
                    if rest.is_empty() {
                        out.push(PathMention::Element(value, index))?;
                    }
                    push_inside(item, rest, out)?;
                }
            }
        }
        _ => {}
    }
    Ok(())
}

/// Returns the places in `sections` that name the value at `path`, in the order of the text. Returns an empty list if
/// nothing names the value.
pub(crate) fn mentions_of<'s, 'de>(
    alloc: Global,
    sections: &'s [Section<'de>],
    path: &[&str],
) -> Result<Vec<PathMention<'s, 'de>>, AllocError> {
    let mut counts = vec![in alloc; 0usize; path.len().saturating_add(1)]?;
    let mut out = Vec::new(alloc);
    for section in sections {
        match placement_of(section, path, &mut counts) {
            Placement::Apart => {}
            Placement::Below(part) => out.push(PathMention::Below(section, part))?,
            Placement::Above(depth) if depth >= path.len() => {
                out.push(PathMention::Own(section))?;
            }
            Placement::Above(depth) => {
                for assignment in &section.assignments {
                    push_assigned(assignment, Home::Lines, rest_of(path, depth), &mut out)?;
                }
            }
        }
    }
    Ok(out)
}

/// Returns whether the header of `section` has double brackets, and its last part has the index `part`.
pub(crate) fn opens_element(section: &Section<'_>, part: usize) -> bool {
    section.array && part.saturating_add(1) == section.header.len()
}
