//! Faults for a token, or the end of the text, where another token is expected.
ghost use Rattle.std.specs.Prelude.{◌≡◌, if◌then◌else◌, slice_index, false};
ghost use Rattle.std.specs.Str.{IsCharBoundary};
ghost use Rattle.toml_span_lex.specs.Tokens.{lexeme};
ghost use Rattle.toml_span_read.specs.Faults as faults;
ghost use Rattle.toml_span_read.specs.Keys as spec;
ghost use Rattle.toml_span_read.specs.code.Faults as faults_code;
ghost use Rattle.toml_span_read.specs.code.Wanted.{FoundGives, WantedGives, NoValueGives};

use crate::fault::{ExpectedToken, Fault, FaultKind, FoundToken, fault_at, token_fault};
use crate::strings::{opens_string, string};
use std::alloc::Global;
use toml_span_lex::span::Span;
use toml_span_lex::stop::Stop;
use toml_span_lex::tokenizer::token_at;
use toml_span_lex::tokens::Token;

/// Returns the `FoundToken` for a token, as the fault `Wanted` contains it.
fn found_of(token: &Token<'_>) -> FoundToken
    ensures { result ≡ faults.found_of (lexeme token.now) }
{
    match token {
        Token::Whitespace(_) => FoundToken::Whitespace,
        Token::Newline => FoundToken::Newline,
        Token::Comment(_) => FoundToken::Comment,
        Token::Equals => FoundToken::Equals,
        Token::Period => FoundToken::Period,
        Token::Comma => FoundToken::Comma,
        Token::Colon => FoundToken::Colon,
        Token::Plus => FoundToken::Plus,
        Token::LeftBrace => FoundToken::LeftBrace,
        Token::RightBrace => FoundToken::RightBrace,
        Token::LeftBracket => FoundToken::LeftBracket,
        Token::RightBracket => FoundToken::RightBracket,
        Token::Keylike(_) => FoundToken::Keylike,
        Token::String { multiline, .. } => string_found(*multiline),
    }
}

/// Returns the `FoundToken` for a string.
fn string_found(is_multiline: bool) -> FoundToken
    ensures { result ≡ (if is_multiline then FoundToken.MultilineString else FoundToken.OneLineString) }
{
    if is_multiline {
        FoundToken::MultilineString
    } else {
        FoundToken::OneLineString
    }
}

/// Returns the token, or the end of the text, that is at `at`, with the offset after it. Fails with the tokenizer's
/// fault if no token can be read.
fn found_at(alloc: Global, text: &str, at: usize) -> Result<(FoundToken, usize), Stop<Fault>>
    requires { IsCharBoundary text.now at }
    ensures found { FoundGives text.now at result }
    ensures placed { faults_code.IsPlacedEnd text.now result }
{
    if at == text.len() {
        return Ok((FoundToken::EndOfText, at));
    }
    if opens_string(text.as_bytes()[at]) {
        return match string(alloc, text, at) {
            Ok(token) => Ok((string_found(token.is_multiline), token.end)),
            Err(stop) => Err(stop),
        };
    }
    match token_at(text, at) {
        Ok((token, end)) => Ok((found_of(&token), end)),
        Err((error, _)) => Err(Stop::Fault(token_fault(error))),
    }
}

/// Returns the fault `Wanted` for the token, or the end of the text, that is at `at`. The fault's span is as long as
/// the name of the found token, so the span may end after the text. If no token can be read at `at`, returns the
/// tokenizer's fault.
#[cold]
pub(crate) fn wanted(alloc: Global, text: &str, at: usize, expected: ExpectedToken) -> Stop<Fault>
    requires { IsCharBoundary text.now at }
    ensures fault { WantedGives text.now at expected result }
    ensures placed { faults_code.IsPlacedStop text.now result }
{
    match found_at(alloc, text, at) {
        Ok((found, _)) => {
            let span = Span {
                start: at,
                end: at + found.words().len(),
            };
            Stop::Fault(Fault {
                kind: FaultKind::Wanted { expected, found },
                span,
            })
        }
        Err(stop) => stop,
    }
}

/// Returns the fault for a missing value at `at`: `UnexpectedEof` at the end of the text, otherwise `Wanted`. If no
/// token can be read at `at`, returns the tokenizer's fault.
#[cold]
pub(crate) fn no_value(alloc: Global, text: &str, at: usize) -> Stop<Fault>
    requires boundary { IsCharBoundary text.now at }
    requires none { spec.opens_string (slice_index text.now at) ≡ false }
    ensures fault { NoValueGives text.now at result }
    ensures placed { faults_code.IsPlacedStop text.now result }
{
    if at == text.len() {
        return Stop::Fault(fault_at(FaultKind::UnexpectedEof, at));
    }
    match found_at(alloc, text, at) {
        Ok((found, end)) => {
            let expected = ExpectedToken::Value;
            Stop::Fault(Fault {
                kind: FaultKind::Wanted { expected, found },
                span: Span { start: at, end },
            })
        }
        Err(stop) => stop,
    }
}
