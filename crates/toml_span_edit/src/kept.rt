//! Checks which bytes of a text an edit keeps.
ghost use Rattle.std.specs.Prelude.{◌≡◌, ◌==◌, false, true, map, slice_range};
ghost use Rattle.std.specs.List.{list_all, list_any};
ghost use Rattle.toml_span_places.specs.Replace.{edit_of};
ghost use Rattle.toml_span_edit.specs.Kept as spec;

use crate::reach::line_start;
use toml_span::Span;
use toml_span_lex::bytes::is_blank;
use toml_span_places::Replacement;

/// Returns the bytes of `text` whose offsets are in `start..end`. Offsets after the end of `text` are ignored.
pub(crate) fn bytes_of(text: &str, start: usize, end: usize) -> &[u8]
    ensures { result.now ≡ slice_range text.now start end }
{
    let bytes = text.as_bytes();
    let end = end.min(bytes.len());
    if start < end { &bytes[start..end] } else { &[] }
}

/// Returns whether a replacement only inserts text: whether its span is empty.
fn is_insertion(replacement: Replacement<'_>) -> bool
    ensures { result ≡ spec.is_insertion (edit_of replacement.entry) }
{
    replacement.span.start == replacement.span.end
}

/// Returns whether all replacements in `list` only insert text.
pub(crate) fn are_insertions(list: &[Replacement<'_>]) -> bool
    ensures { result ≡ list_all spec.is_insertion (map edit_of list.now) }
{
    for replacement in list {
        if !is_insertion(*replacement) {
            return false;
        }
    }
    true
}

/// Returns whether two slices of bytes are equal.
fn is_same(bytes: &[u8], others: &[u8]) -> bool
    ensures { result ≡ true → bytes.now ≡ others.now }
{
    bytes == others
}

/// Returns whether `new` can be made from `old` by replacing `span` with some bytes. Returns false if `span` is not
/// inside `old`.
pub(crate) fn keeps_around(old: &[u8], span: Span, new: &[u8]) -> bool
    ensures { result ≡ true → spec.KeepsAround old.now span new.now }
{
    let Span { start, end } = span;
    let rest = old.len().saturating_sub(end);
    let stop = new.len().saturating_sub(rest);
    if start > stop || start > old.len() || end > old.len() {
        return false;
    }
    is_same(&old[..start], &new[..start]) && is_same(&old[end..], &new[stop..])
}

/// Returns whether the bytes of `text` in `start..end` are only spaces, tabs, and comments with their line ends.
/// Returns false if a line end follows no comment.
pub(crate) fn only_comments(text: &str, start: usize, end: usize) -> bool
    ensures { result ≡ spec.only_comments false (slice_range text.now start end) }
{
    let bytes = bytes_of(text, start, end);
    let mut is_within = false;
    for byte in bytes {
        if is_within {
            is_within = *byte != b'\n';
        } else if *byte == b'#' {
            is_within = true;
        } else if !is_blank(*byte) {
            return false;
        }
    }
    true
}

/// Returns whether all of `bytes` are spaces, tabs, opening brackets, or bytes of a byte order mark, as before the keys
/// of a header.
fn is_opening(bytes: &[u8]) -> bool
    ensures { result ≡ list_all spec.is_opening bytes.now }
{
    for byte in bytes {
        if !is_blank(*byte) && !matches!(*byte, b'[' | 0xEF | 0xBB | 0xBF) {
            return false;
        }
    }
    true
}

/// Returns whether `bytes` contains `wanted`.
pub(crate) fn has_byte(bytes: &[u8], wanted: u8) -> bool
    ensures { result ≡ list_any (λ c. c == wanted) bytes.now }
{
    for byte in bytes {
        if *byte == wanted {
            return true;
        }
    }
    false
}

/// Returns whether the span of a replacement is inside one line, and only spaces, tabs, a byte order mark, and one or
/// more opening brackets are before the span on that line.
fn is_header_part(text: &str, replacement: Replacement<'_>) -> bool
    ensures { result ≡ spec.is_header_part text.now (edit_of replacement.entry) }
{
    let Span { start, end } = replacement.span;
    let before = bytes_of(text, line_start(text, start), start);
    is_opening(before) && has_byte(before, b'[') && !has_byte(bytes_of(text, start, end), b'\n')
}

/// Returns whether `is_header_part` returns true for each replacement in `list`.
pub(crate) fn are_header_parts(text: &str, list: &[Replacement<'_>]) -> bool
    ensures { result ≡ list_all (spec.is_header_part text.now) (map edit_of list.now) }
{
    for replacement in list {
        if !is_header_part(text, *replacement) {
            return false;
        }
    }
    true
}
