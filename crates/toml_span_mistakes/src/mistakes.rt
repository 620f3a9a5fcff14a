//! Recognizes the typical mistake that probably caused an error.
//!
//! The functions of the submodules take byte offsets in `text`. Unless a docstring says otherwise, `at` is the start of
//! the error's span. A function that returns an `Option` returns `None` if it does not recognize a mistake.

mod clashes;
mod dates;
mod keys;
mod lists;
mod numbers;
mod strings;
mod symbols;
mod values;
mod wanted;

use crate::finding::{Finding, marked};
use crate::words::ARRAY_AFTER_TABLE;
use toml_span_lex::span::Span;
use toml_span_tree::ErrorKind;

/// Recognizes the typical mistake that probably caused an error. `kind` and `span` are those of the error, `text` is
/// the source. Returns `None` if no mistake is recognized.
pub(crate) fn mistake_of<'a>(
    kind: &ErrorKind<'_>,
    text: &'a str,
    span: Span,
) -> Option<Finding<'a>> {
    match kind {
        ErrorKind::UnquotedString => Some(lists::word(text, span.start)),
        ErrorKind::Unexpected(c) => symbols::unexpected(text, span.start, *c),
        ErrorKind::Wanted { expected, found } => wanted::wanted(*expected, *found, text, span),
        ErrorKind::UnexpectedEof => lists::missing_value(text, span.start),
        ErrorKind::InvalidNumber => numbers::number(text, span.start),
        ErrorKind::InvalidDatetime => Some(dates::datetime(text, span.start)),
        ErrorKind::InvalidCharInString(c) => Some(strings::character(text, span.start, *c)),
        ErrorKind::InvalidEscape(_) => Some(strings::escape(text, span.start)),
        ErrorKind::InvalidHexEscape(_) => Some(strings::hex_escape(text, span.start)),
        ErrorKind::InvalidEscapeValue(value) => {
            Some(strings::escape_value(text, span.start, *value))
        }
        ErrorKind::UnterminatedString => Some(strings::unterminated(text, span.start)),
        ErrorKind::MultilineStringKey => Some(strings::long_key(text, span.start)),
        ErrorKind::DuplicateTable { first, .. } => Some(clashes::table_twice(text, span, *first)),
        ErrorKind::DuplicateKey { first, .. } => clashes::key_twice(text, span, *first),
        ErrorKind::DottedKeyInvalidType { first } => clashes::through_value(text, span, *first),
        ErrorKind::RedefineAsArray => Some(marked(ARRAY_AFTER_TABLE, span.start, span.end)),
        _ => None,
    }
}
