//! Offsets in a text, and the lines and columns where they are.
ghost use Rattle.std.specs.Prelude.{◌≡◌, ℕ, ◌<◌, ◌≤◌, length, min, slice_index, true};
ghost use Rattle.std.specs.List.{position_or_len};
ghost use Rattle.std.specs.Str.{IsCharBoundary, chars};
ghost use Rattle.toml_span_report.specs.Places as spec;

use toml_span_lex::span::Span;

/// Returns the last character boundary at or before the offset `at`. Returns the length of `text` if `at` is beyond the
/// text.
pub(crate) fn floor_boundary(text: &str, at: usize) -> usize
    ensures value { result ≡ spec.floor_boundary text.now at }
    ensures boundary { IsCharBoundary text.now result }
    ensures within { result ≤ at }
    ensures nearest { (i : ℕ) → i ≤ at → IsCharBoundary text.now i → i ≤ result }
{
    text.floor_char_boundary(at)
}

/// Returns the length of the byte order mark at the start of the text, or 0 if the text has no mark.
#[tactic(auto, using(crate::proofs::PlaceLemmas::mark_boundary), unfolding(crate::specs::Places::bom_end))]
pub fn bom_end(text: &str) -> usize
    ensures value { result ≡ spec.bom_end text.now }
    ensures boundary { IsCharBoundary text.now result }
{
    let bytes = text.as_bytes();
    if bytes.len() > 2 && bytes[0] == 0xEF && bytes[1] == 0xBB && bytes[2] == 0xBF {
        3
    } else {
        0
    }
}

/// Returns the start of the line that contains the offset `at`. A byte order mark at the start of the text is not part
/// of the first line, unless `at` is 0.
pub(crate) fn line_start(text: &str, at: usize) -> usize
    requires { IsCharBoundary text.now at }
    ensures value { result ≡ spec.line_start text.now at }
    ensures boundary { IsCharBoundary text.now result }
    ensures within { result ≤ at }
{
    let bytes = text.as_bytes();
    let first = bom_end(text);
    let mut start = at;
    while start > 0 && start != first && bytes[start - 1] != b'\n' {
        start -= 1;
    }
    start
}

/// Returns the position of the first line feed in `bytes`, or the length of `bytes` if it has no line feed.
fn line_feed(bytes: &[u8]) -> usize
    ensures value { result ≡ position_or_len spec.is_line_feed bytes.now }
    ensures within { result ≤ length bytes.now }
    ensures feed { result < length bytes.now → slice_index bytes.now result ≡ 10 }
{
    for (i, byte) in bytes.iter().enumerate() {
        if *byte == b'\n' {
            return i;
        }
    }
    bytes.len()
}

/// Returns the end of the line that contains the offset `at`: before its LF or CRLF, or at the end of the text. Returns
/// `at` if it is between CR and LF.
pub(crate) fn line_end(text: &str, at: usize) -> usize
    requires { IsCharBoundary text.now at }
    ensures value { result ≡ spec.line_end text.now at }
    ensures boundary { IsCharBoundary text.now result }
    ensures within { at ≤ result }
{
    let bytes = text.as_bytes();
    let (_, rest) = bytes.split_at(at);
    let end = bytes.len() - (rest.len() - line_feed(rest));
    if at < end && end < bytes.len() && bytes[end - 1] == b'\r' {
        end - 1
    } else {
        end
    }
}

/// Returns the position of the first byte in `bytes` that begins a character, or the length of `bytes` if none does.
fn next_start(bytes: &[u8]) -> usize
    ensures value { result ≡ position_or_len spec.begins_character bytes.now }
    ensures within { result ≤ length bytes.now }
    ensures begins { result < length bytes.now → spec.begins_character (slice_index bytes.now result) ≡ true }
{
    for (i, byte) in bytes.iter().enumerate() {
        if *byte < 128 || *byte >= 192 {
            return i;
        }
    }
    bytes.len()
}

/// Returns the first character boundary at or after the offset `at`. Returns the length of `text` if `at` is beyond the
/// text.
#[tactic(auto, unfolding(crate::specs::Places::ceil_boundary))]
fn ceil_boundary(text: &str, at: usize) -> usize
    ensures value { result ≡ spec.ceil_boundary text.now at }
    ensures boundary { IsCharBoundary text.now result }
    ensures reached { min at (length text.now) ≤ result }
{
    let at = at.min(text.len());
    let (_, rest) = text.as_bytes().split_at(at);
    at + next_start(rest)
}

/// Returns the part of a span that is in the text, widened to whole characters. A start beyond the text is moved back
/// to its end, and a reversed span becomes empty.
///
/// `parse` returns some errors whose spans end inside a character or beyond the text, as Rust's `toml_span` does.
#[tactic(auto, unfolding(crate::specs::Places::clipped_span))]
pub fn clipped_span(text: &str, span: Span) -> Span
    ensures value { result ≡ spec.clipped_span text.now span }
    ensures lies { spec.LiesIn text.now result }
{
    let start = floor_boundary(text, span.start);
    let end = ceil_boundary(text, span.end.max(start));
    Span { start, end }
}

/// Returns the number of the line that contains the offset `at`, counted from 1.
#[tactic(auto, unfolding(crate::specs::Places::line_number))]
pub(crate) fn line_number(text: &str, at: usize) -> usize
    requires { at ≤ length text.now }
    ensures { result ≡ spec.line_number text.now at }
{
    let before = &text.as_bytes()[..at];
    before.iter().filter(|byte| **byte == b'\n').count() + 1
}

/// Returns the number of characters in a text.
pub(crate) fn characters(text: &str) -> usize
    ensures value { result ≡ length (chars text.now) }
    ensures bound { result ≤ length text.now }
{
    text.chars().count()
}

/// Returns the column of the offset `at`, counted from 1 in characters.
pub(crate) fn column(text: &str, at: usize) -> usize
    requires { IsCharBoundary text.now at }
    ensures { result ≡ spec.column text.now at }
{
    characters(&text[line_start(text, at)..at]) + 1
}

/// Returns the start of a span, moved back to the nearest character boundary. A start before the end of a byte order
/// mark at the start of the text is moved to the end of the mark.
#[tactic(auto, unfolding(crate::specs::Places::span_start))]
pub(crate) fn span_start(text: &str, span: Span) -> usize
    ensures value { result ≡ spec.span_start text.now span }
    ensures boundary { IsCharBoundary text.now result }
{
    floor_boundary(text, span.start).max(bom_end(text))
}

/// Returns the end of a span, moved back to the nearest character boundary. If the span then ends with a line feed,
/// returns the offset of the line feed. Returns `span_start` for a reversed span, and for an end before the end of a
/// byte order mark at the start of the text.
#[tactic(auto, unfolding(crate::specs::Places::span_start, crate::specs::Places::span_end))]
pub(crate) fn span_end(text: &str, span: Span) -> usize
    ensures value { result ≡ spec.span_end text.now span }
    ensures boundary { IsCharBoundary text.now result }
    ensures forward { spec.span_start text.now span ≤ result }
{
    let first = bom_end(text);
    let from = floor_boundary(text, span.start).max(first);
    let to = floor_boundary(text, span.start.max(span.end)).max(first);
    if from < to && text.as_bytes()[to - 1] == b'\n' {
        to - 1
    } else {
        to
    }
}

/// Returns the line and the column of the offset `at`, as editors show them. Both are counted from 1, the column in
/// characters. An offset inside a character, or beyond the text, is moved back to the nearest character boundary.
///
/// `toml_span::line_and_byte` also counts lines and columns from 1, but columns in bytes. `Error::line_info` counts
/// both from 0, and columns in bytes.
pub fn line_column(text: &str, at: usize) -> (usize, usize)
    ensures line { result.0 ≡ spec.line_number text.now (spec.floor_boundary text.now at) }
    ensures column { result.1 ≡ spec.column text.now (spec.floor_boundary text.now at) }
{
    let at = floor_boundary(text, at);
    (line_number(text, at), column(text, at))
}
