//! Removes values.
use crate::document::Document;
use crate::items::{cut_items, span_above};
use crate::lines::{line_end, line_stop, point, span_of};
use crate::mentions::{Home, PathMention};
use crate::plan::Plan;
use crate::reason::{Edited, Reason};
use toml_span::{Span, Stop};
use toml_span_places::{assignment_lines, section_lines};
use toml_span_read::Val;

/// Adjacent items of one array or inline table, from index `first` to `last`, both included.
#[derive(Clone, Copy)]
struct Run<'s, 'de> {
    list: &'s Val<'de>,
    first: usize,
    last: usize,
}

/// Returns the item to remove for a mention in brackets or braces, as a run of one item. Returns `None` for a mention
/// on lines.
fn run_of<'s, 'de>(mention: &PathMention<'s, 'de>) -> Option<Run<'s, 'de>> {
    let (list, index) = match *mention {
        PathMention::Dotted(_, _, Home::Braces(list, index)) => (list, index),
        PathMention::Assigned(_, Home::Braces(list, index)) => (list, index),
        PathMention::Element(list, index) => (list, index),
        _ => return None,
    };
    Some(Run {
        list,
        first: index,
        last: index,
    })
}

/// Returns the lines to remove for a mention, or `None` for a mention in brackets or braces.
fn lines_of(text: &str, mention: &PathMention<'_, '_>) -> Option<Span> {
    match *mention {
        PathMention::Own(section) => Some(section_lines(text, section)),
        PathMention::Below(section, _) => Some(section_lines(text, section)),
        PathMention::Dotted(assignment, _, Home::Lines) => Some(assignment_lines(text, assignment)),
        PathMention::Assigned(assignment, Home::Lines) => Some(assignment_lines(text, assignment)),
        _ => None,
    }
}

/// Adds to `plan` the removal of `span`, unless it is empty.
fn cut_span(span: Span, plan: &mut Plan) {
    if span.start < span.end {
        plan.cut(span.start, span.end);
    }
}

/// Returns the span of the comment lines directly above the lines or the item of a mention.
fn comments_above(document: Document<'_, '_>, mention: &PathMention<'_, '_>) -> Span {
    match (lines_of(document.text, mention), run_of(mention)) {
        (Some(lines), _) => span_of(document.above(lines.start), lines.start),
        (None, Some(run)) => span_above(document.text, run.list, run.first),
        _ => point(0),
    }
}

/// Adds to `plan` the removal of the items of a run and, if `cuts_comments`, of the comment lines directly above them.
/// Does nothing for `None`.
fn cut_run(text: &str, run: Option<Run<'_, '_>>, cuts_comments: bool, plan: &mut Plan) {
    if let Some(Run { list, first, last }) = run {
        if cuts_comments {
            cut_span(span_above(text, list, first), plan);
        }
        cut_items(text, list, first, last, plan);
    }
}

/// Adds to `plan` the removal of the lines and items that `lines_of` and `run_of` return for `mentions` and, if
/// `cuts_comments`, of the comment lines directly above them.
fn cut_all(
    document: Document<'_, '_>,
    mentions: &[PathMention<'_, '_>],
    cuts_comments: bool,
    plan: &mut Plan,
) {
    let text = document.text;
    let mut open: Option<Run<'_, '_>> = None;
    for mention in mentions {
        if let Some(lines) = lines_of(text, mention) {
            if cuts_comments {
                cut_span(comments_above(document, mention), plan);
            }
            plan.cut(lines.start, lines.end);
        }
        if let Some(next) = run_of(mention) {
            let mut both = next;
            match open {
                Some(run)
                    if run.list.span == next.list.span
                        && run.last.saturating_add(1) == next.first => both.first = run.first,
                _ => cut_run(text, open, cuts_comments, plan),
            }
            open = Some(both);
        }
    }
    cut_run(text, open, cuts_comments, plan);
}

/// Returns whether a table exists only because of one value in it: whether all of `table`, the mentions of the table,
/// name it on the way to this value, by a longer header or a dotted key. `values` is the number of mentions of the
/// value.
pub(crate) fn is_implied(table: &[PathMention<'_, '_>], values: usize) -> bool {
    for mention in table {
        match mention {
            PathMention::Below(_, _) => {}
            PathMention::Dotted(_, _, _) => {}
            _ => return false,
        }
    }
    table.len() == values
}

/// Adds to `plan` the change that writes an empty table in place of the section or assignment of the mention `table`: a
/// header without entries, or a dotted key with `{}`. Does nothing for a mention other than `Below` and `Dotted`.
fn keep_table(document: Document<'_, '_>, table: &PathMention<'_, '_>, plan: &mut Plan) {
    let text = document.text;
    match *table {
        PathMention::Below(section, index) => {
            let (header, end) = (document.header_text(section, index), line_end(text));
            let lines = section_lines(text, section);
            plan.put(lines, "[", header, "]");
            plan.put(point(lines.end), end, "", "");
        }
        PathMention::Dotted(assignment, index, home) => {
            let Span { start, end } = assignment.extent;
            let end = match home {
                Home::Lines => line_stop(text, end),
                Home::Braces(_, _) => end,
            };
            let key = document.dotted_text(assignment, index);
            plan.put(Span { start, end }, key, " = {}", "");
        }
        _ => {}
    }
}

/// Adds to `plan` the removal of the value at `path` and, if `cuts_comments`, of the comment lines directly above it. A
/// table that exists only because of this value stays as an empty table, written as a header or as `{}`. Fails with
/// `Root` for the root, and with `Nothing` if `path` names nothing.
pub(crate) fn remove(
    document: Document<'_, '_>,
    path: &[&str],
    cuts_comments: bool,
    plan: &mut Plan,
) -> Edited<()> {
    let [front @ .., _] = path else {
        return Err(Stop::Fault(Reason::Root));
    };
    let (mentions, table) = (document.mentions(path)?, document.mentions(front)?);
    let [first, rest @ ..] = mentions.as_slice() else {
        return Err(Stop::Fault(Reason::Nothing));
    };
    if front.is_empty() || !is_implied(table.as_slice(), mentions.len()) {
        cut_all(document, mentions.as_slice(), cuts_comments, plan);
        return Ok(());
    }
    if cuts_comments {
        cut_span(comments_above(document, first), plan);
    }
    if let Some(at) = table.as_slice().first() {
        keep_table(document, at, plan);
    }
    cut_all(document, rest, cuts_comments, plan);
    Ok(())
}
