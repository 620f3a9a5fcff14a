//! Makes the new text of an edit, and checks which bytes of the old text it keeps.
ghost use Rattle.std.specs.Prelude.{◌≡◌, ◌≤◌, ◌⊎◌, [], IfOk, false, true, map, slice_range, string_bytes};
ghost use Rattle.toml_span_tree.specs.Value.{view};
ghost use Rattle.toml_span_edit.specs.Comments.{AddsNoComment};
ghost use Rattle.toml_span_edit.specs.Kept as spec;

use crate::adding::{add, put_lines};
use crate::comments::check_comments;
use crate::document::{Document, Old, sections_of};
use crate::edits::{Change, Edit};
use crate::given::check_value;
use crate::headed::{ElementPlace, append, element_text, insert};
use crate::inlined::inline_text;
use crate::items::{Item, bare};
use crate::kept::{keeps_around, only_comments};
use crate::lines::{comments_above, line_end, part};
use crate::made::value_at;
use crate::mentions::{Home, PathMention, last_part};
use crate::missing::{add_table, put_missing, put_section};
use crate::moving::{
    Site, header_comments, keep_header, moved_value, put_moved, rename_headers, section_site,
    sections_text,
};
use crate::plan::Plan;
use crate::reach::around;
use crate::reason::{Edited, Reason, already_there};
use crate::removing::remove;
use crate::setting::{Written, how_written, renamed_text, set_text, write_over};
use std::alloc::Global;
use toml_span::value::Value;
use toml_span::{Span, Stop};
use toml_span_places::section_lines;

// ---- what is inserted

/// What is inserted into a text.
#[derive(Clone, Copy)]
enum Insertion<'i> {
    /// What this change adds at a path.
    Change(Change<'i>),
    /// This value, at a path.
    Moved(Item<'i>),
    /// A header of the table around the value at a path, if the table exists only because of this value, which only
    /// headers must name.
    Header,
}

/// Returns `text` with `insertion` at `path`, only by inserting text. Fails with a reason if this is not possible, and
/// with `WouldDiffer` for the changes `Set`, `Replace`, `Rename`, `Remove` and `MoveTo`.
fn inserted_text(
    alloc: Global,
    text: &str,
    path: &[&str],
    insertion: Insertion<'_>,
) -> Edited<String>
    ensures { IfOk result (λ new. spec.IsInserted text.now (string_bytes new)) }
{
    let sections = sections_of(alloc, text)?;
    let document = Document {
        alloc,
        text,
        sections: sections.as_slice(),
    };
    let mut plan = Plan::new(alloc);
    match insertion {
        Insertion::Change(Change::SetOrAdd(value)) => {
            check_value(alloc, value)?;
            put_missing(document, path, bare(value), &mut plan)?;
        }
        Insertion::Change(Change::Add(value)) => add(document, path, value, &mut plan)?,
        Insertion::Change(Change::AddTable) => add_table(document, path, &mut plan)?,
        Insertion::Change(Change::Append(value)) => append(document, path, value, &mut plan)?,
        Insertion::Change(Change::Insert(value)) => {
            insert(document, path, bare(value), &mut plan)?;
        }
        Insertion::Change(_) => return Err(Stop::Fault(Reason::WouldDiffer)),
        Insertion::Moved(item) => put_moved(document, path, item, &mut plan)?,
        Insertion::Header => keep_header(document, path, &mut plan)?,
    }
    plan.inserted(text)
}

/// Returns `text` with `change` made at `path`, only by inserting text, and without a comment that is not in `value`.
/// Fails with a reason if this is not possible.
fn added_text(
    alloc: Global,
    text: &str,
    path: &[&str],
    change: Change<'_>,
    value: &str,
) -> Edited<String>
    ensures { IfOk result (λ new. spec.IsAdded value.now text.now (string_bytes new)) }
{
    let new = inserted_text(alloc, text, path, Insertion::Change(change))?;
    check_comments(alloc, value, text, new.as_str())?;
    Ok(new)
}

// ---- what is removed

/// Returns `new` if it can be made from `text` by replacing the bytes `start..end`. Fails with `WouldDiffer` otherwise.
fn if_around(text: &str, start: usize, end: usize, new: String) -> Edited<String>
    ensures { IfOk result (λ out. spec.KeepsAround text.now (record { start = start; end = end })
        (string_bytes out)) }
{
    let span = Span { start, end };
    if keeps_around(text.as_bytes(), span, new.as_str().as_bytes()) {
        Ok(new)
    } else {
        Err(Stop::Fault(Reason::WouldDiffer))
    }
}

/// Returns `old` without the value at `path` and, if `cuts_comments`, without the comment lines directly above it. Also
/// returns the span that `around` returns for `old`. Fails with a reason if the value can't be removed.
fn removed_around(old: Old<'_, '_>, path: &[&str], cuts_comments: bool) -> Edited<(String, Span)>
    ensures { IfOk result (λ cut. spec.IsAround (map (λ s. s.now) path.now) (view old.entry.tree.now) old.entry.text.now
        cut.1) }
{
    let Old { alloc, text, tree } = old;
    let sections = sections_of(alloc, text)?;
    let document = Document {
        alloc,
        text,
        sections: sections.as_slice(),
    };
    let mut pieces = Plan::new(alloc);
    remove(document, path, cuts_comments, &mut pieces)?;
    let new = pieces.applied(text)?;
    Ok((new, around(document, path, tree)?))
}

/// Returns `old` without the value at `path`. Fails with a reason if the value can't be removed, or if bytes outside
/// the span that `around` returns would change.
fn cut_text(old: Old<'_, '_>, path: &[&str]) -> Edited<String>
    ensures { IfOk result (λ new. spec.IsCut (map (λ s. s.now) path.now) (view old.entry.tree.now) old.entry.text.now
        (string_bytes new)) }
{
    let (new, span) = removed_around(old, path, false)?;
    if_around(old.text, span.start, span.end, new)
}

/// Returns the start of the comment lines directly above the byte offset `at`. Without such lines, returns `at`.
fn comments_from(text: &str, at: usize) -> usize
    ensures on { result ≤ at }
    ensures comments { spec.only_comments false (slice_range text.now result at) ≡ true }
{
    let start = comments_above(text, 0, at);
    if start < at && only_comments(text, start, at) {
        return start;
    }
    at
}

/// Returns `old` without the value at `path` and the comment lines directly above it. Fails with a reason if the value
/// can't be removed, or if bytes outside the span that `around` returns, and outside the comment lines directly above
/// this span, would change.
fn cut_with_comments(old: Old<'_, '_>, path: &[&str]) -> Edited<String>
    ensures { IfOk result (λ new. spec.IsCutWithComments (map (λ s. s.now) path.now) (view old.entry.tree.now)
        old.entry.text.now (string_bytes new)) }
{
    let (new, span) = removed_around(old, path, true)?;
    if_around(old.text, comments_from(old.text, span.start), span.end, new)
}

/// Returns where the section of the element of an array of tables at `path` begins, and whether the array has no other
/// elements. Returns `None` if `path` leads to any other value, or names nothing. Fails with `WouldDiffer` if `text`
/// can't be split into sections.
fn element_at<'t>(
    alloc: Global,
    text: &'t str,
    path: &[&str],
) -> Edited<Option<(ElementPlace<'t>, bool)>> {
    let [front @ .., _] = path else {
        return Ok(None);
    };
    let sections = sections_of(alloc, text)?;
    let document = Document {
        alloc,
        text,
        sections: sections.as_slice(),
    };
    let count = document.mentions(front)?.len();
    let mentions = document.mentions(path)?;
    Ok(match mentions.as_slice().first() {
        Some(PathMention::Own(section)) if section.array => {
            let span = document.header_span(*section, last_part(*section));
            let place = ElementPlace {
                at: section_lines(text, *section).start,
                header: part(text, span.start, span.end),
            };
            Some((place, count == mentions.len()))
        }
        _ => None,
    })
}

/// Returns `old` without the array of tables that holds the value at `path`, and with `[]` in its place. Fails with a
/// reason if this is not possible.
fn emptied_text(old: Old<'_, '_>, path: &[&str]) -> Edited<String>
    ensures { IfOk result (λ new. spec.IsEmptied (map (λ s. s.now) path.now) (view old.entry.tree.now)
        old.entry.text.now (string_bytes new)) }
{
    let [front @ .., _] = path else {
        return Err(Stop::Fault(Reason::Root));
    };
    let without = cut_with_comments(old, front)?;
    let empty = Insertion::Change(Change::SetOrAdd("[]"));
    inserted_text(old.alloc, without.as_str(), front, empty)
}

/// Returns `old` without the value at `path`, and without the comments directly above it. If the value is the only
/// element of an array of tables, the array becomes `[]`. Fails with a reason if the value can't be removed.
pub(crate) fn text_without(old: Old<'_, '_>, path: &[&str]) -> Edited<String>
    ensures { IfOk result (λ new. spec.IsRemoved (map (λ s. s.now) path.now) (view old.entry.tree.now)
        old.entry.text.now (string_bytes new)) }
{
    match element_at(old.alloc, old.text, path)? {
        Some((_, true)) => emptied_text(old, path),
        _ => cut_with_comments(old, path),
    }
}

/// Returns `text` with `value` inserted: as a section at `place` or, without a place, at `path`, with the tables
/// missing on the way. At a place, `value` must be an inline table. Fails with a reason if this is not possible.
fn with_value(
    alloc: Global,
    text: &str,
    path: &[&str],
    place: Option<ElementPlace<'_>>,
    value: &str,
) -> Edited<String>
    ensures { IfOk result (λ new. spec.IsInserted text.now (string_bytes new)) }
{
    let Some(place) = place else {
        return inserted_text(
            alloc,
            text,
            path,
            Insertion::Change(Change::SetOrAdd(value)),
        );
    };
    let lines = element_text(alloc, line_end(text), place.header, value)?;
    let mut pieces = Plan::new(alloc);
    put_lines(text, place.at, lines.as_str(), &mut pieces);
    pieces.inserted(text)
}

/// Returns `old` with the value at `path` removed, and then `value` inserted as `with_value` does. Fails with a reason
/// if one of these steps is not possible.
fn cut_then_inserted(
    old: Old<'_, '_>,
    path: &[&str],
    place: Option<ElementPlace<'_>>,
    value: &str,
) -> Edited<String>
    ensures { IfOk result (λ new. spec.IsCutThenInserted (map (λ s. s.now) path.now) (view old.entry.tree.now)
        old.entry.text.now (string_bytes new)) }
{
    let without = cut_text(old, path)?;
    with_value(old.alloc, without.as_str(), path, place, value)
}

/// Returns `old` with `value` in place of the value at `path`, which headers or dotted keys define. If the value is the
/// only element of an array of tables, removes the array. Fails with a reason if this is not possible.
fn rewritten_text(old: Old<'_, '_>, path: &[&str], value: &str) -> Edited<String>
    ensures { IfOk result (λ new. spec.IsRewritten (map (λ s. s.now) path.now) (view old.entry.tree.now)
        old.entry.text.now (string_bytes new)) }
{
    let [front @ .., _] = path else {
        return Err(Stop::Fault(Reason::Root));
    };
    match element_at(old.alloc, old.text, path)? {
        Some((place, true)) => cut_then_inserted(old, front, Some(place), value),
        Some((place, false)) => cut_then_inserted(old, path, Some(place), value),
        None => cut_then_inserted(old, path, None, value),
    }
}

/// Returns `old` with `value` in place of the value at `path`, which headers or dotted keys may define. Fails with a
/// reason if this is not possible, and with `WouldDiffer` if the result has a comment that is neither in `old` nor in
/// `value`.
fn replaced_text(old: Old<'_, '_>, path: &[&str], value: &str) -> Edited<String>
    ensures { IfOk result (λ new. (spec.IsWrittenOver value.now (map (λ s. s.now) path.now) (view old.entry.tree.now)
        old.entry.text.now (string_bytes new)) ⊎ ((spec.IsRewritten (map (λ s. s.now) path.now) (view
        old.entry.tree.now) old.entry.text.now (string_bytes new)) × (AddsNoComment value.now old.entry.text.now
        (string_bytes new)))) }
{
    match how_written(old, path, value)? {
        Written::Literal => write_over(old, path, value),
        _ => {
            let new = rewritten_text(old, path, value)?;
            check_comments(old.alloc, value, old.text, new.as_str())?;
            Ok(new)
        }
    }
}

// ---- what is moved

/// Returns `text` with the headers of the table, or array of tables, at `path` rewritten, so that they begin with
/// `header`. A table that exists only because of it gets a header. Fails with a reason if this is not possible.
fn renamed_headers(alloc: Global, text: &str, path: &[&str], header: &str) -> Edited<String>
    ensures { IfOk result (λ new. spec.HasOtherHeaders text.now (string_bytes new)) }
{
    let kept = inserted_text(alloc, text, path, Insertion::Header)?;
    let text = kept.as_str();
    let sections = sections_of(alloc, text)?;
    let document = Document {
        alloc,
        text,
        sections: sections.as_slice(),
    };
    let mut pieces = Plan::new(alloc);
    rename_headers(document, path, header, &mut pieces)?;
    pieces.in_headers(text)
}

/// Returns where the sections of the value at `path` of `document` are written when it is moved to `target`. `without`
/// is the text without the value. Returns `None` if the value must be written in braces or brackets there. Fails with a
/// reason if the value can't be moved there.
fn site_of(
    document: Document<'_, '_>,
    without: &str,
    path: &[&str],
    target: &[&str],
    is_table: bool,
) -> Edited<Option<Site>> {
    let mut is_braced = false;
    for mention in document.mentions(path)? {
        is_braced |= matches!(mention, PathMention::Dotted(_, _, Home::Braces(_, _)));
    }
    let sections = sections_of(document.alloc, without)?;
    let rest = Document {
        alloc: document.alloc,
        text: without,
        sections: sections.as_slice(),
    };
    match section_site(rest, target)? {
        Some(site) if !is_braced && (is_table || !site.is_element) => Ok(Some(site)),
        _ => Ok(None),
    }
}

/// Returns `without`, a text without the value `value` at `path`, with this value as one TOML value at `target`.
/// Headers or dotted keys define it in `document`. Fails with a reason if this is not possible.
fn inline_moved(
    document: Document<'_, '_>,
    without: &str,
    path: &[&str],
    target: &[&str],
    value: &Value<'_>,
) -> Edited<String>
    ensures { IfOk result (λ new. spec.IsInserted without.now (string_bytes new)) }
{
    let (above, note) = header_comments(document, path)?;
    let text = inline_text(document, path, value)?;
    let value = text.as_str();
    let insertion = Insertion::Moved(Item { above, value, note });
    inserted_text(document.alloc, without, target, insertion)
}

/// Returns `text` of `document` with the value at `path`, which headers or dotted keys define, moved to `site`.
/// `without` is the text without it. Fails with a reason if the value can't be moved.
fn sections_moved(
    document: Document<'_, '_>,
    without: &str,
    path: &[&str],
    site: &Site,
) -> Edited<String>
    ensures { IfOk result (λ new. (spec.IsInserted without.now (string_bytes new))
        ⊎ (spec.HasOtherHeaders document.entry.text.now (string_bytes new))) }
{
    let header = site.header.as_str();
    let mut only_headers = site.is_plain;
    for mention in document.mentions(path)? {
        only_headers &= match mention {
            PathMention::Own(section) => !section.array,
            PathMention::Below(_, _) => true,
            _ => false,
        };
    }
    if only_headers {
        return renamed_headers(document.alloc, document.text, path, header);
    }
    let lines = sections_text(document, path, header, site.is_element)?;
    let mut pieces = Plan::new(document.alloc);
    put_section(without, site.at, lines.as_str(), &mut pieces);
    pieces.inserted(without)
}

/// Returns the new name of the value at `path` if moving it to `target` only renames its key: if both paths lead into
/// the same table of the tree `old`. Fails with `AlreadyThere` if that table has an entry with this name.
fn new_name<'t>(
    alloc: Global,
    path: &[&str],
    target: &[&'t str],
    old: &Value<'_>,
) -> Edited<Option<&'t str>> {
    let ([front @ .., _], [new_front @ .., name]) = (path, target) else {
        return Ok(None);
    };
    let table = match value_at(front, old) {
        Some(table) if front == new_front && table.as_table().is_some() => table,
        _ => return Ok(None),
    };
    if value_at(&[*name], table).is_some() {
        return Err(already_there(alloc));
    }
    Ok(Some(*name))
}

/// Returns `old` with the value `value` at `path` moved to `target`. `without` is what `text_without` returned for
/// `path`. Fails with a reason if the value can't be moved.
pub(crate) fn moved_text(
    old: Old<'_, '_>,
    without: &str,
    path: &[&str],
    target: &[&str],
    value: &Value<'_>,
) -> Edited<String>
    ensures { IfOk result (λ new. (spec.IsInserted without.now (string_bytes new))
        ⊎ ((spec.HasOtherHeaders old.entry.text.now (string_bytes new))
        ⊎ (spec.HasOtherKey (map (λ s. s.now) path.now) old.entry.text.now (string_bytes new)))) }
{
    let Old { alloc, text, tree } = old;
    if let Some(name) = new_name(alloc, path, target, tree)? {
        return renamed_text(alloc, text, path, name);
    }
    let sections = sections_of(alloc, text)?;
    let document = Document {
        alloc,
        text,
        sections: sections.as_slice(),
    };
    match moved_value(document, path)? {
        Some(item) => inserted_text(alloc, without, target, Insertion::Moved(item)),
        None => match site_of(document, without, path, target, value.as_table().is_some())? {
            Some(site) => sections_moved(document, without, path, &site),
            None => inline_moved(document, without, path, target, value),
        },
    }
}

// ---- changes

/// Returns `old` with `edit` made. Fails with a reason if `edit` can't be made, and with `WouldDiffer` if it is a move.
pub(crate) fn edited_text(old: Old<'_, '_>, edit: Edit<'_>) -> Edited<String>
    ensures { IfOk result (λ new. spec.Keeps edit.entry.change (map (λ s. s.now) edit.entry.path.now)
        (view old.entry.tree.now) old.entry.text.now (string_bytes new)) }
{
    let (Old { alloc, text, tree }, Edit { path, change }) = (old, edit);
    match change {
        Change::Set(value) => set_text(old, path, value),
        Change::Replace(value) => replaced_text(old, path, value),
        Change::SetOrAdd(value) => {
            if value_at(path, tree).is_none() {
                return added_text(alloc, text, path, change, value);
            }
            set_text(old, path, value)
        }
        Change::Rename(name) => renamed_text(alloc, text, path, name),
        Change::Remove => {
            let new = text_without(old, path)?;
            check_comments(alloc, "", text, new.as_str())?;
            Ok(new)
        }
        Change::Add(value) => added_text(alloc, text, path, change, value),
        Change::AddTable => added_text(alloc, text, path, change, ""),
        Change::Append(value) => added_text(alloc, text, path, change, value),
        Change::Insert(value) => added_text(alloc, text, path, change, value),
        Change::MoveTo(_) => Err(Stop::Fault(Reason::WouldDiffer)),
    }
}
