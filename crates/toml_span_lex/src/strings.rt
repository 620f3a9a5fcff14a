//! Strings: their content, value and span (TOML 1.1, "String").
ghost use Rattle.std.specs.Prelude.{◌≡◌, ℕ, ◌+◌, ◌≤◌, ◌<◌, length, slice_index, slice_range, string_bytes, Bool, IfOk};
ghost use Rattle.std.specs.Prelude.{IfErr, ◌++◌, List};
ghost use Rattle.std.specs.Str.{IsCharBoundary};
ghost use Rattle.toml_span_lex.specs.Pieces.{IsPiece, piece_value};
ghost use Rattle.toml_span_lex.specs.Strings as spec;
ghost use Rattle.toml_span_lex.specs.code.Strings as code;
ghost use Rattle.toml_span_lex.specs.Strings.{IsQuote};
ghost use Rattle.toml_span_lex.specs.code.Strings.{StringGives, StringBorrows, StringEnds};

use crate::pieces::{Piece, piece_at};
use crate::span::Span;
use crate::stop::Stop;
use crate::text::line_end;
use crate::tokens::{Error, Token};
use std::alloc::{AllocError, Global};
use std::borrow::CowStr;

/// Returns the string `kept` or, if `kept` is `None`, a copy of `text[from..at]`.
fn owned(
    alloc: Global,
    kept: Option<String>,
    text: &str,
    from: usize,
    at: usize,
) -> Result<String, AllocError>
    requires from { IsCharBoundary text.now from }
    requires at { IsCharBoundary text.now at }
    requires forward { from ≤ at }
    ensures { (q : ℕ) → (v : List ℕ) → code.Kept q text.now from at v kept → IfOk result (λ s. string_bytes s ≡ v) }
{
    match kept {
        Some(s) => Ok(s),
        None => String::from_str(alloc, &text[from..at]),
    }
}

/// Returns the value of the string content `text[from..next]`, where `kept` is the value of `text[from..at]`, and the
/// rest is its own value. A value that equals its text is passed and returned as `None`.
fn same(
    kept: Option<String>,
    text: &str,
    from: usize,
    at: usize,
    next: usize,
) -> Result<Option<String>, AllocError>
    requires at { IsCharBoundary text.now at }
    requires next { IsCharBoundary text.now next }
    requires forward { from ≤ at }
    requires on { at ≤ next }
    ensures ok { (q : ℕ) → (v : List ℕ) → code.Kept q text.now from at v kept
        → IfOk result (λ r. code.Kept q text.now from next (v ++ slice_range text.now at next) r) }
    ensures memory { (q : ℕ) → (v : List ℕ) → code.Kept q text.now from at v kept
        → IfErr result (λ _. spec.HasChange q text.now from at) }
{
    match kept {
        None => Ok(None),
        Some(mut s) => {
            s.push_str(&text[at..next])?;
            Ok(Some(s))
        }
    }
}

/// Returns the value of the string content `text[from..next]`, where `kept` is the value of `text[from..at]`, and the
/// rest is the piece `piece`. A value that equals its text is passed and returned as `None`.
fn with_piece(
    alloc: Global,
    kept: Option<String>,
    text: &str,
    from: usize,
    at: usize,
    next: usize,
    piece: Piece,
) -> Result<Option<String>, AllocError>
    requires from { IsCharBoundary text.now from }
    requires at { IsCharBoundary text.now at }
    requires next { IsCharBoundary text.now next }
    requires forward { from ≤ at }
    requires on { at ≤ next }
    ensures ok { (q : ℕ) → (m : Bool) → (v : List ℕ) → IsPiece q m text.now at next piece
        → code.Kept q text.now from at v kept
        → IfOk result (λ r. code.Kept q text.now from next (v ++ piece_value text.now at next piece) r) }
    ensures memory { (q : ℕ) → (m : Bool) → (v : List ℕ) → IsPiece q m text.now at next piece
        → code.Kept q text.now from at v kept
        → IfErr result (λ _. spec.HasChange q text.now from next) }
{
    match piece {
        Piece::Plain | Piece::Quotes => same(kept, text, from, at, next),
        Piece::LineEnd if next == at + 1 => same(kept, text, from, at, next),
        Piece::LineEnd => {
            let mut s = owned(alloc, kept, text, from, at)?;
            s.push('\n')?;
            Ok(Some(s))
        }
        Piece::Escape(c) => {
            let mut s = owned(alloc, kept, text, from, at)?;
            s.push(c)?;
            Ok(Some(s))
        }
        Piece::Dropped => Ok(Some(owned(alloc, kept, text, from, at)?)),
    }
}

/// Reads the content of a string, from the byte offset `from` on, and the closing quotes. The string is quoted with
/// `quote`, and `multi` says whether it is multi-line. Returns the value of the string (`None` if it equals the text of
/// the content), the offset at which the content ends, and the offset after the string.
///
/// Fails with the error and the offset up to which the string was read. `start` is the offset of the opening quote, for
/// the error `UnterminatedString`.
///
/// `*basic-char`, `*literal-char`, `ml-basic-body = *mlb-content *( mlb-quotes 1*mlb-content ) [ mlb-quotes ]`,
/// `ml-literal-body = *mll-content *( mll-quotes 1*mll-content ) [ mll-quotes ]`
fn content(
    alloc: Global,
    text: &str,
    quote: u8,
    multi: bool,
    start: usize,
    from: usize,
) -> Result<(Option<String>, usize, usize), Stop<(Error, usize)>>
    requires boundary { IsCharBoundary text.now from }
    requires quote { IsQuote quote }
    ensures content { code.ContentGives quote multi start text.now from result }
    ensures ends { code.EndsWell text.now from result }
{
    let mut kept = None;
    let mut at = from;
    'pieces: loop {
        match piece_at(text, quote, multi, start, at) {
            Err(fault) => return Err(Stop::Fault(fault)),
            Ok((None, end)) => {
                let to = if multi { end - 3 } else { end - 1 };
                return match same(kept, text, from, at, to) {
                    Ok(kept) => Ok((kept, to, end)),
                    Err(e) => Err(Stop::Memory(e)),
                };
            }
            Ok((Some(piece), next)) => {
                match with_piece(alloc, kept, text, from, at, next, piece) {
                    Ok(more) => kept = more,
                    Err(e) => return Err(Stop::Memory(e)),
                }
                at = next;
            }
        }
    }
}

/// Returns whether the quote at the byte offset `at` is the first of three equal quotes, which open a multi-line
/// string.
#[inline]
fn opens_multi(bytes: &[u8], at: usize) -> bool
    requires within { at < length bytes.now }
    requires some { 0 < slice_index bytes.now at }
    ensures { result ≡ spec.opens_multi bytes.now at }
{
    at + 2 < bytes.len() && bytes[at + 1] == bytes[at] && bytes[at + 2] == bytes[at]
}

/// Returns the offset at which the content of the string at `at` begins: after the opening quote or, if `multi`, after
/// the three opening quotes and a line end directly after them, if any.
fn content_from(text: &str, multi: bool, at: usize) -> usize
    requires within { at < length text.now }
    requires ascii { slice_index text.now at < 128 }
    requires some { 0 < slice_index text.now at }
    requires form { multi ≡ spec.opens_multi text.now at }
    ensures begins { spec.ContentFrom multi text.now at result }
    ensures boundary { IsCharBoundary text.now result }
{
    if !multi {
        return at + 1;
    }
    match line_end(text, at + 3) {
        Some(next) => next,
        None => at + 3,
    }
}

/// Reads the string whose opening quote is at the byte offset `at`. Returns its span, its token, and the offset after
/// its closing quotes. The span covers the content or, if the string is single-line and empty, the opening quote.
///
/// Fails with the error and the offset up to which the string was read, or with `Memory` if an allocation fails.
///
/// `string = ml-basic-string / basic-string / ml-literal-string / literal-string`
/// `basic-string = quotation-mark *basic-char quotation-mark`
/// `ml-basic-string = ml-basic-string-delim [ newline ] ml-basic-body ml-basic-string-delim`
/// `literal-string = apostrophe *literal-char apostrophe`
/// `ml-literal-string = ml-literal-string-delim [ newline ] ml-literal-body ml-literal-string-delim`
pub fn string_at(
    alloc: Global,
    text: &str,
    at: usize,
) -> Result<(Span, Token<'_>, usize), Stop<(Error, usize)>>
    requires within { at < length text.now }
    requires quote { IsQuote (slice_index text.now at) }
    ensures string { StringGives text.now at result }
    ensures borrows { StringBorrows text.now result }
    ensures ends { StringEnds text.now result }
{
    let quote = text.as_bytes()[at];
    let multi = opens_multi(text.as_bytes(), at);
    let from = content_from(text, multi, at);
    match content(alloc, text, quote, multi, at, from) {
        Err(stop) => Err(stop),
        Ok((kept, to, end)) => {
            let val = match kept {
                None => CowStr::Borrowed(&text[from..to]),
                Some(s) => CowStr::Owned(s),
            };
            let span = content_span(multi, at, from, to);
            let src = &text[at..end];
            Ok((
                span,
                Token::String {
                    src,
                    val,
                    multiline: multi,
                },
                end,
            ))
        }
    }
}

/// Returns the span of a string with the content `from..to`: the content or, if it is empty and the string is not
/// `multi`, the opening quote at `at`.
fn content_span(multi: bool, at: usize, from: usize, to: usize) -> Span
    requires { at < usize.MAX }
    ensures { result ≡ spec.content_span multi at from to }
{
    if !multi && from == to {
        Span {
            start: at,
            end: at + 1,
        }
    } else {
        Span {
            start: from,
            end: to,
        }
    }
}

/// Returns the offset after the string whose opening quote is at `at`. Fails with the error, and the offset up to which
/// the string was read. Does not allocate.
pub fn scan_string(text: &str, at: usize) -> Result<usize, (Error, usize)>
    requires within { at < length text.now }
    requires quote { IsQuote (slice_index text.now at) }
    ensures { code.ScanGives text.now at result }
{
    let quote = text.as_bytes()[at];
    let multi = opens_multi(text.as_bytes(), at);
    let from = content_from(text, multi, at);
    let mut place = from;
    'pieces: loop {
        match piece_at(text, quote, multi, at, place) {
            Err((error, next)) => return Err((error, next)),
            Ok((None, end)) => return Ok(end),
            Ok((Some(_), next)) => place = next,
        }
    }
}
