//! The pieces of a string's content, and the closing quotes (TOML 1.1, "String").
ghost use Rattle.std.specs.Prelude.{◌≡◌, ℕ, ◌+◌, ◌≤◌, ◌<◌, ◌==◌, true, length, slice_index, IsTrue, Ok};
ghost use Rattle.std.specs.Str.{IsCharBoundary};
ghost use Rattle.toml_span_lex.specs.Bytes.{MaximalRun, backslash, quotation_mark};
ghost use Rattle.toml_span_lex.specs.Pieces as spec;
ghost use Rattle.toml_span_lex.specs.code.Pieces as code;
ghost use Rattle.toml_span_lex.specs.Strings.{IsQuote};
ghost use Rattle.toml_span_lex.specs.code.Text.{LeadsTo};

use crate::bytes::{blanks_end, is_blank, is_printed};
use crate::escapes::escape;
use crate::lanes::marked_in_strings;
use crate::text::{char_at, is_crlf, line_end};
use crate::tokens::Error;
use std::simd::prelude::*;

/// A piece of a string's content.
#[derive(Clone, Copy)]
pub enum Piece {
    /// A maximal run of bytes that may occur unescaped in a single-line string with the same quotes.
    Plain,
    /// One or two quotes of the string's kind, in a multi-line string.
    Quotes,
    LineEnd,
    Escape(char),
    /// A backslash before a line end, perhaps with white space in between, and all white space and line ends that
    /// follow. They add nothing to the value of the string.
    Dropped,
}

/// Returns whether the byte may occur unescaped in a single-line string quoted with `quote`.
///
/// `basic-unescaped = wschar / %x21 / %x23-5B / %x5D-7E / non-ascii`,
/// `literal-char = %x09 / %x20-26 / %x28-7E / non-ascii`
#[inline(always)]
fn is_plain(quote: u8, byte: u8) -> bool
    ensures { result ≡ spec.is_plain quote byte }
{
    is_printed(byte) && byte != quote && !(quote == b'"' && byte == b'\\')
}

/// Returns the offset of the first byte, from the byte offset `from` on, that may not occur unescaped in a single-line
/// string quoted with `quote`, or the length of the text if all bytes may. `from` must be a character boundary, and
/// `quote` must be an ASCII byte.
#[inline(always)]
pub fn plain_end(text: &str, quote: u8, from: usize) -> usize
    requires boundary { IsCharBoundary text.now from }
    requires ascii { quote < 128 }
    ensures run { MaximalRun (spec.is_plain quote) text.now from result }
    ensures boundary { IsCharBoundary text.now result }
{
    let bytes = text.as_bytes();
    let mut start = from;
    while bytes.len() - start >= 16 {
        let marked = marked_in_strings(quote, u8x16::from_slice(&bytes[start..]));
        if marked != 0 {
            return start + marked.trailing_zeros() as usize;
        }
        start += 16;
    }
    for at in start..bytes.len() {
        if !is_plain(quote, bytes[at]) {
            return at;
        }
    }
    bytes.len()
}

/// Returns the offset after the run of `quote` bytes that begins at `from`, or `from` itself if the run is empty.
fn quotes_end(text: &str, quote: u8, from: usize) -> usize
    requires boundary { IsCharBoundary text.now from }
    requires ascii { quote < 128 }
    ensures run { MaximalRun (λ c. c == quote) text.now from result }
    ensures boundary { (k : ℕ) → from ≤ k → k ≤ result → IsCharBoundary text.now k }
{
    let bytes = text.as_bytes();
    for at in from..bytes.len() {
        if bytes[at] != quote {
            return at;
        }
    }
    bytes.len()
}

/// Returns whether there is a space, a tab or a line end at the byte offset `at`: `wschar / newline`.
#[inline]
fn is_ws_or_newline(bytes: &[u8], at: usize) -> bool
    requires { at < length bytes.now }
    ensures { result ≡ spec.is_ws_or_newline bytes.now at }
{
    is_blank(bytes[at]) || bytes[at] == b'\n' || is_crlf(bytes, at)
}

/// Returns the offset after the run of spaces, tabs and line ends (`*( wschar / newline )`) that begins at the byte
/// offset `from`, or `from` itself if the run is empty.
fn ws_and_newlines_end(text: &str, from: usize) -> usize
    requires { IsCharBoundary text.now from }
    ensures run { spec.WsAndNewlines text.now from result }
    ensures boundary { IsCharBoundary text.now result }
{
    let bytes = text.as_bytes();
    for at in from..bytes.len() {
        if !is_ws_or_newline(bytes, at) {
            return at;
        }
    }
    bytes.len()
}

/// Reads the run of quotes at `at` in a multi-line string. One or two quotes are content: returns `Quotes` with the
/// offset after them. Three or more close the string: returns `None` with the offset after them, or after the fifth if
/// there are more than five.
///
/// `mlb-quotes = 1*2quotation-mark`, `mll-quotes = 1*2apostrophe`, `ml-basic-string-delim = 3quotation-mark`,
/// `ml-literal-string-delim = 3apostrophe`
fn quotes(text: &str, quote: u8, at: usize) -> (Option<Piece>, usize)
    requires within { at < length text.now }
    requires boundary { IsCharBoundary text.now at }
    requires ascii { quote < 128 }
    requires here { slice_index text.now at ≡ quote }
    ensures piece { code.PieceGives quote true 0 text.now at (Ok result) }
    ensures boundary { IsCharBoundary text.now result.1 }
{
    let end = quotes_end(text, quote, at);
    if end - at < 3 {
        (Some(Piece::Quotes), end)
    } else {
        (None, end.min(at + 5))
    }
}

/// Reads the piece that begins with the backslash at `at`: an escape (`escaped`) or, only if `multi`, an escaped line
/// end (`mlb-escaped-nl`). Returns the piece, never `None`, with the offset after it. Fails with the error, and the
/// offset up to which the string was read. `start` is the offset of the opening quote, for the error
/// `UnterminatedString`.
fn escape_piece(
    text: &str,
    multi: bool,
    start: usize,
    at: usize,
) -> Result<(Option<Piece>, usize), (Error, usize)>
    requires within { at < length text.now }
    requires here { slice_index text.now at ≡ backslash }
    ensures piece { code.PieceGives quotation_mark multi start text.now at result }
    ensures boundary { LeadsTo (λ j. IsCharBoundary text.now j) result }
{
    let letter = at + 1;
    if multi && ws_or_newline_at(text, letter) {
        return drop_line(text, start, at);
    }
    match escape(text, start, letter) {
        Ok((c, next)) => Ok((Some(Piece::Escape(c)), next)),
        Err(fault) => Err(fault),
    }
}

/// Returns whether there is a space, a tab or a line end at the byte offset `at`. Returns `false` at or after the end
/// of the text.
fn ws_or_newline_at(text: &str, at: usize) -> bool
    ensures gap { result ≡ spec.is_ws_or_newline text.now at }
    ensures within { IsTrue result → at < length text.now }
{
    let bytes = text.as_bytes();
    at < bytes.len() && is_ws_or_newline(bytes, at)
}

/// Reads an escaped line end in a multi-line string: the backslash at `at`, and all white space and line ends after it.
/// Only white space may be between the backslash and the end of its line: `mlb-escaped-nl = escape ws newline *( wschar
/// / newline )`. Returns the piece `Dropped` with the offset after it.
///
/// Fails with the error, and the offset up to which the string was read: `InvalidEscape` if the line goes on after the
/// white space, `UnterminatedString` if the text ends there. `start` is the offset of the opening quote, for
/// `UnterminatedString`.
fn drop_line(text: &str, start: usize, at: usize) -> Result<(Option<Piece>, usize), (Error, usize)>
    requires within { at + 1 < length text.now }
    requires here { slice_index text.now at ≡ backslash }
    requires gap { spec.is_ws_or_newline text.now (at + 1) ≡ true }
    ensures piece { code.PieceGives quotation_mark true start text.now at result }
    ensures boundary { LeadsTo (λ j. IsCharBoundary text.now j) result }
{
    let bytes = text.as_bytes();
    let letter = at + 1;
    let blank = blanks_end(text, letter);
    match line_end(text, blank) {
        Some(line) => Ok((Some(Piece::Dropped), ws_and_newlines_end(text, line))),
        None if blank == bytes.len() => Err((Error::UnterminatedString(start), blank)),
        None => Err((
            Error::InvalidEscape(letter, char::from(bytes[letter])),
            blank,
        )),
    }
}

/// Reads the piece at the byte offset `at` in a string that is quoted with `quote`, and multi-line if `multi`. Returns
/// the piece with the offset after it. At the closing quotes, returns `None` with the offset after them.
///
/// Fails with the error, and the offset up to which the string was read. `start` is the offset of the opening quote,
/// for the error `UnterminatedString`.
///
/// `basic-char = basic-unescaped / escaped`, `mlb-content = basic-char / newline / mlb-escaped-nl`,
/// `mll-content = literal-char / newline`
pub(crate) fn piece_at(
    text: &str,
    quote: u8,
    multi: bool,
    start: usize,
    at: usize,
) -> Result<(Option<Piece>, usize), (Error, usize)>
    requires boundary { IsCharBoundary text.now at }
    requires quote { IsQuote quote }
    ensures piece { code.PieceGives quote multi start text.now at result }
    ensures boundary { LeadsTo (λ j. IsCharBoundary text.now j) result }
{
    let end = plain_end(text, quote, at);
    if at < end {
        return Ok((Some(Piece::Plain), end));
    }
    let bytes = text.as_bytes();
    if at == bytes.len() {
        return Err((Error::UnterminatedString(start), at));
    }
    if bytes[at] == quote {
        if multi {
            return Ok(quotes(text, quote, at));
        }
        return Ok((None, at + 1));
    }
    if bytes[at] == b'\\' {
        return escape_piece(text, multi, start, at);
    }
    match line_end(text, at) {
        Some(next) if multi => Ok((Some(Piece::LineEnd), next)),
        Some(next) => Err((Error::NewlineInString(at), next)),
        None => {
            let (c, next) = char_at(text, at);
            Err((Error::InvalidCharInString(at, c), next))
        }
    }
}
