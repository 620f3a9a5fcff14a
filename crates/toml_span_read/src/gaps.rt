//! Skips gaps, separators and closing brackets. A gap is the white space, comments and line ends between two tokens.
//! Offsets must be character boundaries, except for `byte_at`.
ghost use Rattle.std.specs.Prelude.{◌≡◌, ◌+◌, ◌<◌, slice_index};
ghost use Rattle.std.specs.Str.{IsCharBoundary};
ghost use Rattle.toml_span_read.specs.code.Gaps.{GapPieceGives, TailGives, DotGives, AfterElementGives, SeparatorGives};
ghost use Rattle.toml_span_read.specs.code.Gaps.{EqualsGives, Further};
ghost use Rattle.toml_span_read.specs.Gaps.{MaximalGap};
ghost use Rattle.toml_span_lex.specs.Bytes.{comma, equals};

use toml_span_lex::bytes::{blanks_end, printed_end};
use toml_span_lex::text::line_end;

/// Returns the byte at the byte offset `at`, or 0 at or after the end of the text.
#[inline]
pub fn byte_at(text: &str, at: usize) -> u8
    ensures { result ≡ slice_index text.now at }
{
    let bytes = text.as_bytes();
    if at < bytes.len() { bytes[at] } else { 0 }
}

/// Returns the offset after the space, tab, line end or comment at `at`. Returns `None` at anything else, and at the
/// end of the text.
///
/// `wschar = %x20 / %x09`, `newline = %x0A / %x0D.0A`, `comment = comment-start-symbol *non-eol` (TOML 1.1, Comment)
#[inline]
fn gap_piece(text: &str, at: usize) -> Option<usize>
    requires { IsCharBoundary text.now at }
    ensures { GapPieceGives text.now at result }
{
    match byte_at(text, at) {
        b' ' | b'\t' => Some(at + 1),
        b'#' => Some(printed_end(text, at)),
        b'\n' | b'\r' => line_end(text, at),
        _ => None,
    }
}

/// Returns the offset after the spaces, tabs, line ends and comments that begin at the byte offset `from`, or `from`
/// itself if something else is there.
///
/// `ws-comment-newline = *( wschar / [ comment ] newline )` (TOML 1.1, Array)
pub fn gap_end(text: &str, from: usize) -> usize
    requires { IsCharBoundary text.now from }
    ensures run { MaximalGap text.now from result }
    ensures boundary { IsCharBoundary text.now result }
{
    let mut at = from;
    'gap: while let Some(next) = gap_piece(text, at) {
        at = next;
    }
    at
}

/// Skips the rest of a line from the byte offset `from`: spaces, tabs, perhaps a comment, and the line end or the end
/// of the text. Returns the offset after them. If there is anything else, fails with the offset of its first byte.
///
/// `ws [ comment ] ( newline / end of text )` (TOML 1.1, Overall Structure)
pub fn line_rest(text: &str, from: usize) -> Result<usize, usize>
    requires { IsCharBoundary text.now from }
    ensures { TailGives text.now from result }
{
    let blank = blanks_end(text, from);
    let end = if byte_at(text, blank) == b'#' {
        printed_end(text, blank)
    } else {
        blank
    };
    match line_end(text, end) {
        Some(next) => Ok(next),
        None if end == text.len() => Ok(end),
        None => Err(end),
    }
}

/// Skips the spaces and tabs from the byte offset `at`, a dot, and the spaces and tabs after it. Returns the offset
/// after all of them, or `None` if the dot is missing.
///
/// `dot-sep = ws %x2E ws` (TOML 1.1, Keys)
#[inline(always)]
pub fn dot(text: &str, at: usize) -> Option<usize>
    requires { IsCharBoundary text.now at }
    ensures { DotGives text.now at result }
{
    let end = blanks_end(text, at);
    if byte_at(text, end) == b'.' {
        Some(blanks_end(text, end + 1))
    } else {
        None
    }
}

/// Returns the offset after the ASCII byte at `at`.
#[inline]
pub(crate) fn after_byte(text: &str, at: usize) -> usize
    requires some { 0 < slice_index text.now at }
    requires ascii { slice_index text.now at < 128 }
    ensures value { result ≡ at + 1 }
    ensures further { Further text.now at result }
{
    // Toolchain: in a recursive group of functions, a `&str` is not known to be valid UTF-8 (`c.utf8`), so this step
    // over one character is a separate function.
    let _text = text;
    at + 1
}

/// Skips the ASCII byte at `at`, such as a bracket or a comma, and the gap after the byte. Returns the offset after
/// both.
///
/// `array-open = %x5B`, `inline-table-open = %x7B` (TOML 1.1, Array, Inline Table)
pub(crate) fn opened(text: &str, at: usize) -> usize
    requires some { 0 < slice_index text.now at }
    requires ascii { slice_index text.now at < 128 }
    ensures run { MaximalGap text.now (at + 1) result }
    ensures further { Further text.now at result }
{
    gap_end(text, after_byte(text, at))
}

/// What follows an element of an array or a pair of an inline table.
pub(crate) enum AfterElement {
    /// A comma, with the offset after the comma and the gap that follows the comma.
    Comma(usize),
    /// The closing bracket or brace, with the offset after it.
    Closed(usize),
    /// Something else, or the end of the text, with its offset.
    Neither(usize),
}

/// Skips the gap after an element or pair that ends at `at`, and returns what follows the gap. `close` is the closing
/// bracket or brace.
///
/// `array-sep = %x2C`, `inline-table-sep = %x2C`, `array-close = %x5D`, `inline-table-close = %x7D` (TOML 1.1,
/// Array, Inline Table)
#[inline(always)]
pub(crate) fn after_element(text: &str, at: usize, close: u8) -> AfterElement
    requires boundary { IsCharBoundary text.now at }
    requires some { 0 < close }
    requires ascii { close < 128 }
    requires other { close ≡ comma → ⊥ }
    ensures { AfterElementGives close text.now at result }
{
    let end = gap_end(text, at);
    let byte = byte_at(text, end);
    if byte == b',' {
        AfterElement::Comma(opened(text, end))
    } else if byte == close {
        AfterElement::Closed(after_byte(text, end))
    } else {
        AfterElement::Neither(end)
    }
}

/// Skips the gap at `at`, if there is one, the equals sign of a pair, and the gap after the sign. Returns the offset
/// after all of them. If the sign is missing, fails with the offset at which it was expected.
///
/// `keyval-sep = ws %x3D ws` (TOML 1.1, Inline Table). Unlike in the standard, line ends and comments are allowed too.
pub(crate) fn pair_equals(text: &str, at: usize) -> Result<usize, usize>
    requires { IsCharBoundary text.now at }
    ensures { SeparatorGives equals text.now at result }
{
    let end = gap_end(text, at);
    if byte_at(text, end) == b'=' {
        Ok(opened(text, end))
    } else {
        Err(end)
    }
}

/// Skips the spaces and tabs from `at`, the equals sign of an assignment, and the spaces and tabs after the sign.
/// Returns the offset after all of them. If the sign is missing, fails with the offset at which it was expected.
///
/// `keyval-sep = ws %x3D ws` (TOML 1.1, Key/Value Pair)
pub(crate) fn line_equals(text: &str, at: usize) -> Result<usize, usize>
    requires { IsCharBoundary text.now at }
    ensures { EqualsGives text.now at result }
{
    let end = blanks_end(text, at);
    if byte_at(text, end) == b'=' {
        Ok(blanks_end(text, after_byte(text, end)))
    } else {
        Err(end)
    }
}
