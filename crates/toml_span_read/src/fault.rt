//! Faults, which say why a text can't be read, and where.
ghost use Rattle.std.specs.Prelude.{◌≡◌, ◌<◌, ◌≤◌, length};
ghost use Rattle.toml_span_tree.specs.Error.{kind_of, content_of};
ghost use Rattle.toml_span_read.specs.Faults as spec;
ghost use Rattle.toml_span_read.specs.Numerals as numerals;
ghost use Rattle.toml_span_read.specs.Faults.{fault_content};
ghost use Rattle.toml_span_read.specs.code.Faults.{Bounded};

use toml_span_lex::lines::line_info;
use toml_span_lex::span::Span;
use toml_span_lex::tokens::Error as TokenError;
use toml_span_tree::{Error, ErrorKind};

/// A token that was expected where another token, or the end of the text, was found.
#[derive(Clone, Copy, Debug)]
pub enum ExpectedToken {
    Value,
    TableKey,
    Equals,
    /// A right bracket. A comma or a dot may be allowed too.
    RightBracket,
    /// A comma. A right brace is allowed too.
    Comma,
    Newline,
}

impl ExpectedToken {
    ghost use Rattle.toml_span_read.specs.Faults.{expected_words};

    /// Returns the name of the token, as `ErrorKind::Wanted` contains it.
    pub fn words(self) -> &'static str
        ensures { result.now ≡ expected_words self }
    {
        match self {
            ExpectedToken::Value => "a value",
            ExpectedToken::TableKey => "a table key",
            ExpectedToken::Equals => "an equals",
            ExpectedToken::RightBracket => "a right bracket",
            ExpectedToken::Comma => "a comma",
            ExpectedToken::Newline => "newline",
        }
    }
}

/// What was found at an offset: a token, or the end of the text.
#[derive(Clone, Copy, Debug)]
pub enum FoundToken {
    EndOfText,
    Whitespace,
    Newline,
    Comment,
    Equals,
    Period,
    Comma,
    Colon,
    Plus,
    LeftBrace,
    RightBrace,
    LeftBracket,
    RightBracket,
    Keylike,
    OneLineString,
    MultilineString,
}

impl FoundToken {
    ghost use Rattle.toml_span_read.specs.Faults.{found_words};

    /// Returns the name of the token, or `eof` for the end of the text, as `ErrorKind::Wanted` contains it.
    pub fn words(self) -> &'static str
        ensures text { result.now ≡ found_words self }
        ensures short { length result.now ≤ 18 }
    {
        match self {
            FoundToken::EndOfText => "eof",
            FoundToken::Whitespace => "whitespace",
            FoundToken::Newline => "a newline",
            FoundToken::Comment => "a comment",
            FoundToken::Equals => "an equals",
            FoundToken::Period => "a period",
            FoundToken::Comma => "a comma",
            FoundToken::Colon => "a colon",
            FoundToken::Plus => "a plus",
            FoundToken::LeftBrace => "a left brace",
            FoundToken::RightBrace => "a right brace",
            FoundToken::LeftBracket => "a left bracket",
            FoundToken::RightBracket => "a right bracket",
            FoundToken::Keylike => "an identifier",
            FoundToken::OneLineString => "a string",
            FoundToken::MultilineString => "a multiline string",
        }
    }
}

/// The kind of a fault. `ErrorKind` has variants with the same names, and documents them.
#[derive(Clone, Copy, Debug)]
pub enum FaultKind {
    UnexpectedEof,
    ExceededDepthLimit,
    InvalidCharInString(char),
    InvalidEscape(char),
    InvalidHexEscape(char),
    InvalidEscapeValue(u32),
    Unexpected(char),
    UnterminatedString,
    InvalidNumber,
    InvalidDatetime,
    UnquotedString,
    Wanted {
        expected: ExpectedToken,
        found: FoundToken,
    },
    MultilineStringKey,
    DottedKeyInvalidType {
        first: Span,
    },
}

/// Why a text can't be read, and where. The span may end after the text, or inside a character.
#[derive(Clone, Copy, Debug)]
pub struct Fault {
    pub kind: FaultKind,
    pub span: Span,
}

/// Returns a fault of this kind with the span `at..at + 1`.
pub(crate) fn fault_at(kind: FaultKind, at: usize) -> Fault
    requires { at < usize.MAX }
    ensures { result ≡ spec.fault_at kind at }
{
    let span = Span {
        start: at,
        end: at + 1,
    };
    Fault { kind, span }
}

/// Returns the fault `InvalidNumber` with the span `start..end`.
pub(crate) fn invalid_number(start: usize, end: usize) -> Fault
    ensures { result ≡ numerals.invalid_number start end }
{
    let span = Span { start, end };
    Fault {
        kind: FaultKind::InvalidNumber,
        span,
    }
}

/// Converts an error of `token_at` or `string_at` into a fault.
pub(crate) fn token_fault(error: TokenError) -> Fault
    requires { Bounded usize.MAX error }
    ensures { result ≡ spec.token_fault error }
{
    match error {
        TokenError::InvalidCharInString(at, c) => fault_at(FaultKind::InvalidCharInString(c), at),
        TokenError::InvalidEscape(at, c) => fault_at(FaultKind::InvalidEscape(c), at),
        TokenError::InvalidHexEscape(at, c) => fault_at(FaultKind::InvalidHexEscape(c), at),
        TokenError::InvalidEscapeValue(at, len, value) => Fault {
            kind: FaultKind::InvalidEscapeValue(value),
            span: Span {
                start: at,
                end: at + len,
            },
        },
        TokenError::NewlineInString(at) => fault_at(FaultKind::InvalidCharInString('\n'), at),
        TokenError::Unexpected(at, c) => fault_at(FaultKind::Unexpected(c), at),
        TokenError::UnterminatedString(at) => fault_at(FaultKind::UnterminatedString, at),
        TokenError::MultilineStringKey(start, end) => Fault {
            kind: FaultKind::MultilineStringKey,
            span: Span { start, end },
        },
        TokenError::Wanted { at, .. } => fault_at(FaultKind::UnexpectedEof, at),
    }
}

/// Converts the kind of a fault into the kind of an error.
fn error_kind<'s>(kind: FaultKind) -> ErrorKind<'s>
    ensures { kind_of result ≡ spec.error_kind kind }
{
    match kind {
        FaultKind::UnexpectedEof => ErrorKind::UnexpectedEof,
        FaultKind::ExceededDepthLimit => ErrorKind::ExceededDepthLimit,
        FaultKind::InvalidCharInString(c) => ErrorKind::InvalidCharInString(c),
        FaultKind::InvalidEscape(c) => ErrorKind::InvalidEscape(c),
        FaultKind::InvalidHexEscape(c) => ErrorKind::InvalidHexEscape(c),
        FaultKind::InvalidEscapeValue(value) => ErrorKind::InvalidEscapeValue(value),
        FaultKind::Unexpected(c) => ErrorKind::Unexpected(c),
        FaultKind::UnterminatedString => ErrorKind::UnterminatedString,
        FaultKind::InvalidNumber => ErrorKind::InvalidNumber,
        FaultKind::InvalidDatetime => ErrorKind::InvalidDatetime,
        FaultKind::UnquotedString => ErrorKind::UnquotedString,
        FaultKind::Wanted { expected, found } => ErrorKind::Wanted {
            expected: expected.words(),
            found: found.words(),
        },
        FaultKind::MultilineStringKey => ErrorKind::MultilineStringKey,
        FaultKind::DottedKeyInvalidType { first } => ErrorKind::DottedKeyInvalidType { first },
    }
}

/// Converts a fault of `text` into an error. The error has the line and the column at which the fault's span starts,
/// both counted from 0, the column in bytes. The span must not start after the end of the text.
pub fn error_of<'s>(text: &str, fault: Fault) -> Error<'s>
    requires { fault.span.start ≤ length text.now }
    ensures { content_of result ≡ fault_content text.now fault }
{
    Error {
        kind: error_kind(fault.kind),
        span: fault.span,
        line_info: Some(line_info(text, fault.span.start)),
    }
}
