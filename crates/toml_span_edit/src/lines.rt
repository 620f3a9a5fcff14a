//! Finds parts of a text: lines, their starts, ends and indents, and the comments above them.
ghost use Rattle.std.specs.Prelude.{◌≡◌, true};
ghost use Rattle.std.specs.List.{list_all};
ghost use Rattle.toml_span_edit.specs.Kept.{is_line_end};

use crate::reach::after_line;
use toml_span::Span;
use toml_span_lex::tokenizer::first_place;
use toml_span_places::assignment_lines;
use toml_span_read::Assignment;

/// Returns `text[start..end]`. Returns an empty string if these byte offsets are out of bounds, out of order, or inside
/// a character.
pub(crate) fn part(text: &str, start: usize, end: usize) -> &str {
    text.get(start..end).unwrap_or("")
}

/// Returns the part of `text` that a span covers, as `part` does.
pub(crate) fn spanned(text: &str, span: Span) -> &str {
    part(text, span.start, span.end)
}

/// Returns the empty span at the byte offset `at`.
pub(crate) fn point(at: usize) -> Span
    ensures { result ≡ record { start = at; end = at } }
{
    Span { start: at, end: at }
}

/// Returns the span of the byte offsets from `start` to `end`.
pub(crate) fn span_of(start: usize, end: usize) -> Span {
    Span { start, end }
}

/// Returns the line end for new lines of `text`: CRLF if `text` contains one, otherwise a line feed.
pub(crate) fn line_end(text: &str) -> &'static str
    ensures { list_all is_line_end result.now ≡ true }
{
    if text.contains("\r\n") { "\r\n" } else { "\n" }
}

/// Returns the start of the line that contains the byte offset `offset`, which must be at a character boundary. The
/// first line starts after a byte order mark.
pub(crate) fn line_start(text: &str, offset: usize) -> usize {
    match part(text, 0, offset).rfind('\n') {
        Some(at) => at.saturating_add(1),
        None => first_place(text),
    }
}

/// Returns the start of the first line end at or after the byte offset `offset`. Without such a line end, returns the
/// length of `text`. `offset` must be at a character boundary.
pub(crate) fn line_stop(text: &str, offset: usize) -> usize {
    let rest = part(text, offset, text.len());
    match rest.find('\n') {
        Some(at) => {
            let stop = offset.saturating_add(at);
            if part(text, offset, stop).ends_with('\r') {
                stop.saturating_sub(1)
            } else {
                stop
            }
        }
        None => text.len(),
    }
}

/// Returns the start of the run of spaces and tabs that ends at the byte offset `offset`, or `offset` if the run is
/// empty. `offset` must be at a character boundary.
pub(crate) fn blanks_before(text: &str, offset: usize) -> usize {
    part(text, 0, offset).trim_end_matches([' ', '\t']).len()
}

/// Returns whether only spaces and tabs are before the byte offset `offset` on its line, apart from a byte order mark.
/// `offset` must be at a character boundary.
pub(crate) fn begins_line(text: &str, offset: usize) -> bool {
    !is_open(text, blanks_before(text, offset))
}

/// Returns the spaces and tabs at the start of the line that contains the byte offset `offset`, which must be at a
/// character boundary.
pub(crate) fn indent(text: &str, offset: usize) -> &str {
    let start = line_start(text, offset);
    let line = part(text, start, text.len());
    let rest = line.trim_start_matches([' ', '\t']);
    part(text, start, text.len().saturating_sub(rest.len()))
}

/// Returns whether a line is a directive, a comment that begins with `#:`, such as `#:schema`. It is about the whole
/// file.
pub(crate) fn is_directive(line: &str) -> bool {
    line.trim_start().starts_with("#:")
}

/// Returns the start of the comment lines directly above the byte offset `offset`, the start of a line. Without such
/// lines, returns `offset`. `floor` is an offset after which there are only blanks, line ends and comments up to
/// `offset`; lines that begin before `floor`, directives, and lines above a directive do not count.
pub(crate) fn comments_above(text: &str, floor: usize, offset: usize) -> usize {
    let mut at = if is_open(text, floor) {
        after_line(text, floor)
    } else {
        floor.max(first_place(text))
    };
    let mut start = at;
    for line in part(text, at, offset).split_inclusive('\n') {
        at = at.saturating_add(line.len());
        if !line.trim_start().starts_with('#') || is_directive(line) {
            start = at;
        }
    }
    start.min(offset)
}

/// Returns whether the byte offset `offset` is neither at the start of `text`, before or after a byte order mark, nor
/// directly after a line feed.
pub(crate) fn is_open(text: &str, offset: usize) -> bool {
    offset > first_place(text) && !part(text, 0, offset).ends_with('\n')
}

/// Returns whether a blank line, or nothing, is above the byte offset `offset`, the start of a line.
pub(crate) fn is_apart(text: &str, offset: usize) -> bool {
    let above = part(text, first_place(text), offset);
    above.trim().is_empty() || above.ends_with("\n\n") || above.ends_with("\n\r\n")
}

/// Returns whether a text is empty, apart from a byte order mark, or ends with two line ends.
pub(crate) fn ends_blank(text: &str) -> bool {
    let text = text.strip_prefix('\u{feff}').unwrap_or(text);
    text.is_empty() || text.ends_with("\n\n") || text.ends_with("\n\r\n")
}

/// Returns the spaces and tabs before an assignment on its line.
pub(crate) fn indent_of<'t>(text: &'t str, assignment: &Assignment<'_>) -> &'t str {
    let line = assignment_lines(text, assignment);
    part(text, line.start, assignment.extent.start)
}

/// Returns the start of the comment lines directly before the offset `to`. Without such lines, returns `to`. Ignores
/// lines before the offset `from`. Both offsets must be starts of lines; `from` may be after a byte order mark.
pub(crate) fn comments_start(text: &str, from: usize, to: usize) -> usize {
    let mut start = from;
    let mut at = from;
    for line in part(text, from, to).split_inclusive('\n') {
        at = at.saturating_add(line.len());
        if !line.trim_start().starts_with('#') {
            start = at;
        }
    }
    start
}
