//! Converts errors to records, and kinds of errors to numbers and names.
ghost use Rattle.std.specs.Prelude.{◌≡◌};
ghost use Rattle.toml_span_tree.specs.Error.{content_of, kind_of};
ghost use Rattle.toml_span_c.specs.Faults as spec;

use crate::records::Range;
use toml_span_lex::span::Span;
use toml_span_report::clipped_span;
use toml_span_tree::{Error, ErrorKind};

/// The error of a document. Spans are byte offsets, end exclusive, in the document and at character boundaries.
#[repr(C)]
#[derive(Clone, Copy)]
pub struct FaultRecord {
    /// The number of the kind of error. `toml_span_code` writes the name of the kind.
    pub code: u32,
    /// 1 if `first` is set, otherwise 0.
    pub has_first: u32,
    /// The span of the error.
    pub span: Range,
    /// The span of the earlier table, key or value, if the error names one, otherwise `0..0`.
    pub first: Range,
    /// The line where `span` starts, counted from 0.
    pub line: usize,
    /// The number of bytes before the start of `span` on this line.
    pub column: usize,
}

/// Returns the number of a kind of error, or 0 for a kind that `parse` does not return.
fn code_number(kind: &ErrorKind<'_>) -> u32
    ensures { result ≡ spec.code_number (kind_of kind.now) }
{
    match kind {
        ErrorKind::UnexpectedEof => 1,
        ErrorKind::ExceededDepthLimit => 2,
        ErrorKind::InvalidCharInString(_) => 3,
        ErrorKind::InvalidEscape(_) => 4,
        ErrorKind::InvalidHexEscape(_) => 5,
        ErrorKind::InvalidEscapeValue(_) => 6,
        ErrorKind::Unexpected(_) => 7,
        ErrorKind::UnterminatedString => 8,
        ErrorKind::InvalidNumber => 9,
        ErrorKind::InvalidDatetime => 10,
        ErrorKind::Wanted { .. } => 11,
        ErrorKind::DuplicateTable { .. } => 12,
        ErrorKind::DuplicateKey { .. } => 13,
        ErrorKind::RedefineAsArray => 14,
        ErrorKind::MultilineStringKey => 15,
        ErrorKind::DottedKeyInvalidType { .. } => 16,
        ErrorKind::UnquotedString => 17,
        _ => 0,
    }
}

/// Returns the span of the earlier table, key or value, or `None` if the error names none.
fn first_of(kind: &ErrorKind<'_>) -> Option<Span>
    ensures { result ≡ spec.first_of (kind_of kind.now) }
{
    match kind {
        ErrorKind::DuplicateTable { first, .. } => Some(*first),
        ErrorKind::DuplicateKey { first, .. } => Some(*first),
        ErrorKind::DottedKeyInvalidType { first } => Some(*first),
        _ => None,
    }
}

/// Returns the part of a span that is in the document, in whole characters (`clipped_span`).
fn range_in(text: &str, span: Span) -> Range
    ensures { result ≡ spec.range_in text.now span }
{
    let Span { start, end } = clipped_span(text, span);
    Range { start, end }
}

/// Converts an error of the document `text` to a record.
pub(crate) fn fault_of(text: &str, error: &Error<'_>) -> FaultRecord
    ensures { result ≡ spec.fault_of text.now (content_of error.now) }
{
    let first = first_of(&error.kind);
    let (line, column) = error.line_info.unwrap_or((0, 0));
    FaultRecord {
        code: code_number(&error.kind),
        has_first: u32::from(first.is_some()),
        span: range_in(text, error.span),
        first: range_in(text, first.unwrap_or(Span { start: 0, end: 0 })),
        line,
        column,
    }
}

/// Returns the name of the kind of error with the number `code`, or an empty text for any other number.
pub(crate) fn code_name(code: u32) -> &'static str
    ensures { result.now ≡ spec.code_name code }
{
    match code {
        1 => "unexpected-eof",
        2 => "exceeded-depth-limit",
        3 => "invalid-char-in-string",
        4 => "invalid-escape",
        5 => "invalid-hex-escape",
        6 => "invalid-escape-value",
        7 => "unexpected",
        8 => "unterminated-string",
        9 => "invalid-number",
        10 => "invalid-datetime",
        11 => "wanted",
        12 => "duplicate-table",
        13 => "duplicate-key",
        14 => "redefine-as-array",
        15 => "multiline-string-key",
        16 => "dotted-key-invalid-type",
        17 => "unquoted-string",
        _ => "",
    }
}
