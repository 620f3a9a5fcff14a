//! Strips: the parts of source lines that labels mark. Windows: the parts of source lines that a report prints.
ghost use Rattle.std.specs.Prelude.{◌≡◌, ◌≤◌, ◌<◌, [], IfOk, OnOk, map};
ghost use Rattle.std.specs.List.{fold};
ghost use Rattle.std.specs.Str.{IsCharBoundary};
ghost use Rattle.toml_span_tree.specs.Diagnostic.{label_content};
ghost use Rattle.toml_span_report.specs.Strips as spec;
ghost use Rattle.toml_span_report.specs.Strips.{strip_content};

use crate::places::{
    column, floor_boundary, line_end, line_number, line_start, span_end, span_start,
};
use std::alloc::{AllocError, Global};
use toml_span_tree::Label;

/// A part of a line that is printed once, with the marks of one or more strips below it.
#[derive(Clone, Copy)]
pub(crate) struct Window {
    /// The number of the line, counted from 1.
    pub(crate) number: usize,
    /// The offset in the source at which the first strip in the window begins.
    pub(crate) first: usize,
    /// The offset in the source at which the last strip in the window begins.
    pub(crate) last: usize,
}

/// A marked part of a line, with the text before and after it on the line, which may be cut.
#[derive(Clone, Copy)]
pub(crate) struct Strip<'a> {
    /// The offset in the source at which the marked part begins.
    pub(crate) at: usize,
    /// The number of the line, counted from 1.
    pub(crate) number: usize,
    /// The column of the marked part, counted from 1 in characters.
    pub(crate) column: usize,
    pub(crate) is_cut_before: bool,
    pub(crate) before: &'a str,
    pub(crate) marked: &'a str,
    pub(crate) after: &'a str,
    pub(crate) is_cut_after: bool,
    pub(crate) is_primary: bool,
    /// The message of the label, which may be empty. If the label has two strips, the message of the first is empty.
    pub(crate) message: &'a str,
}

/// Returns the strip from the offset `from` to the offset `to`, or to the end of the line of `from` if that comes
/// first. `message` is the message of the strip.
fn strip_at<'a>(
    text: &'a str,
    from: usize,
    to: usize,
    is_primary: bool,
    message: &'a str,
) -> Strip<'a>
    requires from { IsCharBoundary text.now from }
    requires to { IsCharBoundary text.now to }
    requires forward { from ≤ to }
    ensures { strip_content result ≡ spec.strip_at text.now from to is_primary message.now }
{
    let start = line_start(text, from);
    let end = line_end(text, from);
    let to = to.min(end);
    Strip {
        at: from,
        number: line_number(text, from),
        column: column(text, from),
        is_cut_before: false,
        before: &text[start..from],
        marked: &text[from..to],
        after: &text[to..end],
        is_cut_after: false,
        is_primary,
        message,
    }
}

/// Returns the position of the first strip that begins after the offset `at`, or the number of strips if all begin at
/// or before `at`.
fn earlier(strips: &[Strip<'_>], at: usize) -> usize
    ensures { result ≡ spec.earlier (map strip_content strips.now) at }
{
    for (i, strip) in strips.iter().enumerate() {
        if at < strip.at {
            return i;
        }
    }
    strips.len()
}

/// Inserts `strip` into `strips`, which are sorted by their offsets. Strips at the same offset come before `strip`.
fn insert_strip<'a>(strips: &mut Vec<Strip<'a>>, strip: Strip<'a>) -> Result<(), AllocError>
    ensures { OnOk result (map strip_content strips.new.items
        ≡ spec.placed (map strip_content strips.old.items) (strip_content strip.entry)) }
{
    let at = earlier(strips.as_slice(), strip.at);
    strips.insert(at, strip)?;
    Ok(())
}

/// Inserts the strips of `label` into `strips`, which are sorted by their offsets. A label has a strip on its first
/// line and, if it ends on another line, a strip there. If an allocation fails, `strips` may lack strips of `label`.
fn insert_label<'a, F>(
    strips: &mut Vec<Strip<'a>>,
    text: &'a str,
    label: &'a Label<F>,
) -> Result<(), AllocError>
    ensures { OnOk result (map strip_content strips.new.items
        ≡ fold spec.placed (map strip_content strips.old.items)
        (spec.strips_of text.now (label_content label.now))) }
{
    let from = span_start(text, label.span);
    let to = span_end(text, label.span);
    let again = line_start(text, to);
    if again <= from {
        insert_strip(
            strips,
            strip_at(text, from, to, label.primary, label.message.as_str()),
        )?;
        return Ok(());
    }
    insert_strip(strips, strip_at(text, from, to, label.primary, ""))?;
    insert_strip(
        strips,
        strip_at(text, again, to, label.primary, label.message.as_str()),
    )?;
    Ok(())
}

/// Returns the strips of all labels, sorted by their offsets. `text` is the source.
#[tactic(auto, unfolding(crate::specs::Strips::all_strips))]
pub(crate) fn all_strips<'a, F>(
    alloc: Global,
    text: &'a str,
    labels: &'a [Label<F>],
) -> Result<Vec<Strip<'a>>, AllocError>
    ensures { IfOk result (λ strips. map strip_content strips.items
        ≡ spec.all_strips text.now (map label_content labels.now)) }
{
    let mut strips = Vec::with_capacity(alloc, labels.len())?;
    for label in labels {
        insert_label(&mut strips, text, label)?;
    }
    Ok(strips)
}

/// Returns whether `window` shows `strip`: the strip is on the line of the window, and begins at most 240 bytes after
/// `window.first`.
pub(crate) fn is_near(window: Window, strip: &Strip<'_>) -> bool
    ensures { result ≡ spec.is_near window (strip_content strip.now) }
{
    strip.number == window.number && strip.at.saturating_sub(window.first) <= 240
}

/// Returns `window`, widened to show those of `strips` that come before the first one that is not near (`is_near`).
fn window_from(window: Window, strips: &[Strip<'_>]) -> Window
    ensures { result ≡ spec.window_from window (map strip_content strips.now) }
{
    let mut wide = window;
    for strip in strips {
        if !is_near(wide, strip) {
            return wide;
        }
        wide.last = strip.at;
    }
    wide
}

/// Returns `above` if that window shows `strip` (`is_near`). Otherwise returns a new window. It shows `strip` and, of
/// the `strips` after it, those before the first one that is not near.
pub(crate) fn window_of(above: Option<Window>, strip: &Strip<'_>, strips: &[Strip<'_>]) -> Window
    ensures { result ≡ spec.window_of above (strip_content strip.now) (map strip_content strips.now) }
{
    if let Some(window) = above {
        if is_near(window, strip) {
            return window;
        }
    }
    let own = Window {
        number: strip.number,
        first: strip.at,
        last: strip.at,
    };
    window_from(own, strips)
}

/// Returns `strip` with its line cut to the part that `window` shows. The part begins at most 80 bytes before the first
/// strip in the window, and ends at most 160 bytes after the start of the last one. Both ends are moved back to
/// character boundaries.
#[tactic(auto, unfolding(crate::specs::Strips::seen_in))]
pub(crate) fn seen_in<'a>(window: Window, strip: &Strip<'a>) -> Strip<'a>
    ensures { strip_content result ≡ spec.seen_in window (strip_content strip.now) }
{
    let shift = strip.at.saturating_sub(window.first);
    let hidden = strip.before.len().saturating_sub(shift).saturating_sub(80);
    let room = window.last.saturating_sub(strip.at).min(240) + 160;
    let left = floor_boundary(strip.before, hidden);
    let marked = floor_boundary(strip.marked, room);
    let after = floor_boundary(strip.after, room.saturating_sub(strip.marked.len()));
    Strip {
        at: strip.at,
        number: strip.number,
        column: strip.column,
        is_cut_before: 0 < left,
        before: &strip.before[left..],
        marked: &strip.marked[..marked],
        after: &strip.after[..after],
        is_cut_after: marked < strip.marked.len() || after < strip.after.len(),
        is_primary: strip.is_primary,
        message: strip.message,
    }
}
