//! Reads strings, as values and as keys.
ghost use Rattle.std.specs.Prelude.{◌≡◌, ◌<◌, ◌||◌, ◌==◌, ◌⊎◌, length, slice_index, IfOk, IfSome, Ok};
ghost use Rattle.toml_span_lex.specs.Bytes.{quotation_mark, apostrophe};
ghost use Rattle.toml_span_lex.specs.Strings.{BorrowsWhereSame};
ghost use Rattle.toml_span_read.specs.code.Faults as faults_code;
ghost use Rattle.toml_span_read.specs.code.Strings.{StringReads};

use crate::fault::{Fault, token_fault};
use crate::gaps::byte_at;
use std::alloc::Global;
use std::borrow::CowStr;
use toml_span_lex::pieces::plain_end;
use toml_span_lex::span::Span;
use toml_span_lex::stop::Stop;
use toml_span_lex::strings::string_at;
use toml_span_lex::tokens::Token;

/// A string that was read. `content` is its value, and `end` is the byte offset after its closing quotes.
#[derive(Drop)]
pub struct StringToken<'de> {
    pub content: CowStr<'de>,
    pub span: Span,
    pub is_multiline: bool,
    pub end: usize,
}

/// Returns whether the byte opens a string.
#[inline]
pub(crate) fn opens_string(byte: u8) -> bool
    ensures { result ≡ (byte == quotation_mark || byte == apostrophe) }
{
    byte == b'"' || byte == b'\''
}

/// Reads the string at `at` if it is single-line, not empty and without escapes. Returns `None` for any other string,
/// and for an invalid string.
#[inline(always)]
pub(crate) fn short_string<'de>(text: &'de str, at: usize) -> Option<StringToken<'de>>
    requires within { at < length text.now }
    requires quote { (slice_index text.now at ≡ quotation_mark) ⊎ (slice_index text.now at ≡ apostrophe) }
    ensures string { IfSome result (λ token. StringReads text.now at (Ok token)) }
    ensures borrows { IfSome result (λ token. BorrowsWhereSame text.now token.span token.content) }
{
    let quote = text.as_bytes()[at];
    let start = at + 1;
    let end = plain_end(text, quote, start);
    if start == end || byte_at(text, end) != quote {
        return None;
    }
    Some(StringToken {
        content: CowStr::Borrowed(&text[start..end]),
        span: Span { start, end },
        is_multiline: false,
        end: end + 1,
    })
}

/// Reads the string at `at` piece by piece. Fails with the tokenizer's fault if the string is not valid.
#[inline(never)]
fn pieced_string<'de>(
    alloc: Global,
    text: &'de str,
    at: usize,
) -> Result<StringToken<'de>, Stop<Fault>>
    requires within { at < length text.now }
    requires quote { (slice_index text.now at ≡ quotation_mark) ⊎ (slice_index text.now at ≡ apostrophe) }
    ensures string { StringReads text.now at result }
    ensures borrows { IfOk result (λ token. BorrowsWhereSame text.now token.span token.content) }
    ensures placed { faults_code.IsPlacedEnd text.now result }
{
    match string_at(alloc, text, at) {
        Ok((span, token, end)) => match token {
            Token::String {
                src: _,
                val,
                multiline,
            } => Ok(StringToken {
                content: val,
                span,
                is_multiline: multiline,
                end,
            }),
            _ => unreachable!(),
        },
        Err(Stop::Memory(e)) => Err(Stop::Memory(e)),
        Err(Stop::Fault((error, _))) => Err(Stop::Fault(token_fault(error))),
    }
}

/// Reads the string at `at`. Fails with the tokenizer's fault if the string is not valid.
///
/// `string = ml-basic-string / basic-string / ml-literal-string / literal-string` (TOML 1.1, String)
#[inline(always)]
pub(crate) fn string<'de>(
    alloc: Global,
    text: &'de str,
    at: usize,
) -> Result<StringToken<'de>, Stop<Fault>>
    requires within { at < length text.now }
    requires quote { (slice_index text.now at ≡ quotation_mark) ⊎ (slice_index text.now at ≡ apostrophe) }
    ensures string { StringReads text.now at result }
    ensures borrows { IfOk result (λ token. BorrowsWhereSame text.now token.span token.content) }
    ensures placed { faults_code.IsPlacedEnd text.now result }
{
    match short_string(text, at) {
        Some(token) => Ok(token),
        None => pieced_string(alloc, text, at),
    }
}
