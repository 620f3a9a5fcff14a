//! Inserts and removes items in brackets or braces: elements of arrays, and pairs of inline tables.
use crate::lines::{
    begins_line, blanks_before, comments_above, indent, line_end, line_start, line_stop, part,
    point, span_of, spanned,
};
use crate::plan::Plan;
use crate::reach::after_line;
use toml_span::Span;
use toml_span_places::val_literal_span;
use toml_span_read::{Val, ValKind};
use toml_span_syntax::pieces::{Kind, piece_at};

/// A value to write, with its comments. In braces, its key comes first.
#[derive(Clone, Copy)]
pub(crate) struct Item<'i> {
    /// The comment lines directly above the value, line ends included.
    pub above: &'i str,
    pub value: &'i str,
    /// The spaces, tabs and comment that follow the value on its line, without a comma.
    pub note: &'i str,
}

/// Returns a value without comments.
pub(crate) fn bare(value: &str) -> Item<'_> {
    Item {
        above: "",
        value,
        note: "",
    }
}

/// Returns the number of items in an array or inline table, and 0 for any other value.
pub(crate) fn count_of(list: &Val<'_>) -> usize {
    match &list.kind {
        ValKind::Array(items) => items.len(),
        ValKind::Inline(pairs) => pairs.len(),
        _ => 0,
    }
}

/// Returns the span of the item of `list` at `index`: an element's literal, or a pair from its key to the end of its
/// value. Returns `None` if `list` has no such item.
pub(crate) fn item_span(text: &str, list: &Val<'_>, index: usize) -> Option<Span> {
    match &list.kind {
        ValKind::Array(items) => Some(val_literal_span(text, items.get(index)?)),
        ValKind::Inline(pairs) => Some(pairs.get(index)?.extent),
        _ => None,
    }
}

/// Returns the start of the item at `index + 1` or, if `list` has no such item, the offset of the closing bracket or
/// brace.
fn space_end(text: &str, list: &Val<'_>, index: usize) -> usize {
    match item_span(text, list, index.saturating_add(1)) {
        Some(next) => next.start,
        None => list.span.end.saturating_sub(1),
    }
}

/// Returns the byte offset of the first comma between the offsets `start` and `end` that is not in a comment, or
/// `None`. Between these offsets, there must be nothing but commas, blanks, line ends and comments.
fn comma_between(text: &str, start: usize, end: usize) -> Option<usize> {
    let space = part(text, start, end);
    let mut at = 0;
    'pieces: while at < space.len() {
        let piece = piece_at(space, at);
        if matches!(piece.kind, Kind::Mark(b',')) {
            return Some(start.saturating_add(at));
        }
        at = piece.end;
    }
    None
}

/// Adds to `plan` the removal of the items in the span `items`, the rest of their last line, and the comma after the
/// items, which may be on a later line: with that line if nothing else is on it. `space` is the offset of the next item
/// or of the closing bracket or brace, and must be on a later line.
fn cut_to_line_end(text: &str, items: Span, space: usize, plan: &mut Plan) {
    let stop = line_stop(text, items.end);
    let start = blanks_before(text, items.start);
    let end = if begins_line(text, items.start) {
        after_line(text, items.end)
    } else {
        stop
    };
    plan.cut(start, end);
    let Some(comma) = comma_between(text, items.end, space) else {
        return;
    };
    let after = comma.saturating_add(1);
    let rest = part(text, after, line_stop(text, comma));
    if comma >= stop && begins_line(text, comma) && rest.trim().is_empty() {
        plan.cut(blanks_before(text, comma), after_line(text, comma));
    } else if comma >= stop {
        plan.cut(comma, after);
    }
}

/// Adds to `plan` the removal of the items of `list` from index `first` to `last`, both included, with everything
/// between them, at most one other comma, and the comment at the end of their last line unless another item is before
/// that comment. A comment on its own line before or after the items stays. Adds nothing if one of these indices is out
/// of range.
///
/// If the items are the last ones, and the closing bracket or brace is on the line where they end, removes the comma
/// before them if an item is before that comma on the same line, without a comment between. Otherwise removes the comma
/// after the items, if there is one.
pub(crate) fn cut_items(text: &str, list: &Val<'_>, first: usize, last: usize, plan: &mut Plan) {
    let (Some(from), Some(to)) = (item_span(text, list, first), item_span(text, list, last)) else {
        return;
    };
    let items = span_of(from.start, to.end);
    let end = space_end(text, list, last);
    if part(text, items.end, end).contains('\n') {
        return cut_to_line_end(text, items, end, plan);
    }
    if last.saturating_add(1) < count_of(list) {
        return plan.cut(items.start, end);
    }
    if let (true, Some(before)) = (first > 0, item_span(text, list, first.saturating_sub(1))) {
        let between = part(text, before.end, items.start);
        if !between.contains('\n') && !between.contains('#') {
            return plan.cut(before.end, items.end);
        }
    }
    match comma_between(text, items.end, end) {
        Some(comma) => plan.cut(items.start, comma.saturating_add(1)),
        None => plan.cut(items.start, items.end),
    }
}

/// Adds to `plan` the insertion of `item` into the brackets or braces of `list`, which must have no items. The item
/// gets its own line, with its comments, if only blanks and line ends are between the brackets, and at least one line
/// end.
fn put_first(text: &str, list: &Val<'_>, item: Item<'_>, plan: &mut Plan) {
    let start = list.span.start.saturating_add(1);
    let inner = part(text, start, list.span.end.saturating_sub(1));
    let Item { above, value, note } = item;
    if !inner.trim().is_empty() || inner.is_empty() && matches!(&list.kind, ValKind::Inline(_)) {
        plan.put(point(start), " ", value, " ");
    } else if inner.contains('\n') {
        let (front, end) = (indent(text, list.span.start), line_end(text));
        let at = point(after_line(text, start));
        plan.put(at, above, front, "    ");
        plan.put(at, value, ",", note);
        plan.put(at, end, "", "");
    } else {
        let blank = if inner.len() == 1 { " " } else { "" };
        let at = start.saturating_add(inner.len().min(1));
        plan.put(point(at), value, blank, "");
    }
}

/// Adds to `plan` the insertion of `item` after the last item of `list`, whose span is `last`.
///
/// The new item gets its own line if the last item begins a line. It also gets its own line if the closing bracket or
/// brace is on a later line, and a comment follows the last item on its line or, if a comma follows the item, up to the
/// end of the comma's line. In all other cases, the new item follows the last item on the same line.
///
/// There is one exception: instead of getting its own line, the new item follows the comma after the last item if that
/// comma is on a later line than the item, together with the closing bracket or brace.
///
/// The comments of `item` are written only if the new item gets its own line, and the closing bracket or brace is on a
/// later line.
fn put_last(text: &str, list: &Val<'_>, last: Span, item: Item<'_>, plan: &mut Plan) {
    let close = list.span.end.saturating_sub(1);
    let comma = comma_between(text, last.end, close);
    let stop = line_stop(text, comma.unwrap_or(last.end));
    let begins = begins_line(text, last.start);
    if part(text, last.end, close).contains('\n') {
        if begins || part(text, last.end, stop).contains('#') {
            put_line_after(text, list, last, comma, item, plan);
        } else {
            plan.put(point(last.end), ", ", item.value, "");
        }
    } else if begins {
        let (front, more) = front_of(text, list, last);
        let end = line_end(text);
        plan.put(point(last.end), ",", end, front);
        plan.put(point(last.end), more, item.value, "");
    } else {
        plan.put(point(last.end), ", ", item.value, "");
    }
}

/// Does what `put_last` does where the closing bracket or brace is on a later line, and the new item gets its own line.
/// `comma` is the offset of the comma after the last item, if there is one.
fn put_line_after(
    text: &str,
    list: &Val<'_>,
    last: Span,
    comma: Option<usize>,
    item: Item<'_>,
    plan: &mut Plan,
) {
    let Item { above, value, note } = item;
    let ((front, more), end) = (front_of(text, list, last), line_end(text));
    let close = list.span.end.saturating_sub(1);
    match comma {
        Some(comma) if part(text, comma, close).contains('\n') => {
            let at = point(after_line(text, comma));
            plan.put(at, above, front, more);
            plan.put(at, value, ",", note);
            plan.put(at, end, "", "");
        }
        Some(comma) => plan.put(point(comma.saturating_add(1)), " ", value, ""),
        None => {
            let at = point(line_stop(text, last.end));
            plan.put(point(last.end), ",", "", "");
            plan.put(at, end, above, front);
            plan.put(at, more, value, note);
        }
    }
}

/// Returns the indent of a new item on its own line, in two parts: the indent of the line where the item in the span
/// `last` begins, and four spaces more if `list` opens on that line.
fn front_of<'t>(text: &'t str, list: &Val<'_>, last: Span) -> (&'t str, &'static str) {
    let is_open = list.span.start >= line_start(text, last.start);
    (indent(text, last.start), if is_open { "    " } else { "" })
}

/// Adds to `plan` the insertion of `item` before the item of `list` at `index`, whose span is `next`. If `next` begins
/// a line, the new item gets its own line, above the comments of `next`. Otherwise the new item is written on the same
/// line, without its comments.
fn put_before(
    text: &str,
    list: &Val<'_>,
    index: usize,
    next: Span,
    item: Item<'_>,
    plan: &mut Plan,
) {
    let Item { above, value, note } = item;
    let before = match index {
        0 => list.span.start.saturating_add(1),
        _ => match item_span(text, list, index.saturating_sub(1)) {
            Some(before) => { comma_between(text, before.end, next.start).unwrap_or(before.end) }
            None => next.start,
        },
    };
    let line = after_line(text, before);
    if begins_line(text, next.start) && line <= next.start {
        let (front, end) = (indent(text, next.start), line_end(text));
        plan.put(point(line), above, front, value);
        plan.put(point(line), ",", note, end);
    } else {
        plan.put(point(next.start), value, ", ", "");
    }
}

/// Adds to `plan` the insertion of `item` into `list` before the item at `index` or, if `index` is too large, after the
/// last item.
pub(crate) fn put_item(text: &str, list: &Val<'_>, index: usize, item: Item<'_>, plan: &mut Plan) {
    if let Some(next) = item_span(text, list, index) {
        return put_before(text, list, index, next, item, plan);
    }
    match item_span(text, list, count_of(list).saturating_sub(1)) {
        Some(last) => put_last(text, list, last, item, plan),
        None => put_first(text, list, item, plan),
    }
}

/// Returns the span of the comment lines directly above the item of `list` at `index`. Returns an empty span if there
/// are none, or if the item does not begin a line.
pub(crate) fn span_above(text: &str, list: &Val<'_>, index: usize) -> Span {
    let Some(item) = item_span(text, list, index) else {
        return point(0);
    };
    if !begins_line(text, item.start) {
        return point(item.start);
    }
    let floor = match item_span(text, list, index.saturating_sub(1)) {
        Some(before) if index > 0 => before.end,
        _ => list.span.start.saturating_add(1),
    };
    let end = line_start(text, item.start);
    span_of(comments_above(text, floor, end), end)
}

/// Returns the comment lines that `span_above` finds for the item of `list` at `index`, and the comment that follows
/// the item or its comma on the line of the item, with the blanks before the comment. The comment is empty if anything
/// else or nothing follows.
pub(crate) fn comments_of<'t>(text: &'t str, list: &Val<'_>, index: usize) -> (&'t str, &'t str) {
    let Some(item) = item_span(text, list, index) else {
        return ("", "");
    };
    let above = span_above(text, list, index);
    let stop = line_stop(text, item.end);
    let start = match comma_between(text, item.end, stop.min(space_end(text, list, index))) {
        Some(comma) => comma.saturating_add(1),
        None => item.end,
    };
    let rest = part(text, start, stop);
    let note = if rest.trim_start().starts_with('#') {
        rest
    } else {
        ""
    };
    (spanned(text, above), note)
}
