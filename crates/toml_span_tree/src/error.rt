//! Errors: what is wrong with an input, and where.
ghost use Rattle.std.specs.Prelude.{◌≡◌, map, IfOk, string_bytes};
ghost use Rattle.toml_span_tree.specs.Error.{content_of, kind_of, marked_keys};

use std::alloc::{AllocError, Global};
use std::borrow::CowStr;
use toml_span_lex::span::Span;
use toml_span_lex::stop::Stop;

// Toolchain: `'static` strings in errors would make the check refuse a generic function with `T: Deserialize<'de>` ("a
// call goes by a bound that names a lifetime of the function, whose signature names `'static`"). So the strings have
// the lifetime of the input.
/// What is wrong. Kinds marked "typed reads" come from reading a tree as a type. The others come from `parse`; `Wanted`
/// and `DuplicateKey` come from both. Spans are byte offsets, end exclusive.
#[derive(Debug, Drop)]
pub enum ErrorKind<'s> {
    /// The input ends where a value is expected.
    UnexpectedEof,
    /// A value is nested too deeply, or a header or dotted key has too many parts.
    ExceededDepthLimit,
    /// A character that may not occur in the string that contains it, such as a line feed in a single-line string.
    InvalidCharInString(char),
    /// The character after a backslash, if the two do not begin a valid escape.
    InvalidEscape(char),
    /// A character where a hexadecimal digit is expected.
    InvalidHexEscape(char),
    /// The number that an escape spells, which is not a Unicode scalar value.
    InvalidEscapeValue(u32),
    /// A character at which no token begins, such as a carriage return without a line feed after it.
    Unexpected(char),
    /// The input ends inside a string.
    UnterminatedString,
    /// A malformed number, or an integer that does not fit into an `i64`.
    InvalidNumber,
    /// An invalid date or time.
    InvalidDatetime,
    /// A number that the type with this name can't represent (typed reads).
    OutOfRange(&'s str),
    /// A token other than the expected one, or the end of the input instead of it. In typed reads, a value of another
    /// kind than the expected one.
    Wanted {
        expected: &'s str,
        found: &'s str,
    },
    /// A table that two headers define, at least one of them in single brackets. `first` is the span of the earlier
    /// header's line, including the line end.
    DuplicateTable {
        name: String,
        first: Span,
    },
    /// A key that is defined twice. In typed reads, two keys for the same field, such as its name and an old name.
    /// `first` is the span of the earlier key.
    DuplicateKey {
        key: String,
        first: Span,
    },
    /// A header in double brackets for a table that an earlier header passes through, such as `[[a]]` after `[a.b]`.
    RedefineAsArray,
    /// A multi-line string as a key.
    MultilineStringKey,
    /// An error with its own message (typed reads).
    Custom(CowStr<'s>),
    /// A dotted key that goes through an earlier value that can't be extended: an inline table, or a value that is not
    /// a table. `first` is the span of the last part of that value's key.
    DottedKeyInvalidType {
        first: Span,
    },
    /// Unknown keys in a table, with their spans, and the expected names (typed reads).
    UnexpectedKeys {
        keys: Vec<(String, Span)>,
        expected: Vec<String>,
    },
    /// A bare word where a value is expected, such as `yes`.
    UnquotedString,
    /// The name of a field that the table lacks (typed reads).
    MissingField(&'s str),
    /// A field that the input has under the deprecated name `old`; `new` is the current name (typed reads that warn).
    Deprecated {
        old: &'s str,
        new: &'s str,
    },
    /// A value that is not one of the expected values (typed reads). `value` is its text, if the text is known.
    UnexpectedValue {
        expected: &'s [&'s str],
        value: Option<String>,
    },
    /// An error with its own code and message, and with further labeled spans (typed reads). `places` has the text and
    /// the span of each label. `TableHelper::keep_repeated` uses the code `duplicate-name`, and reads of `InRange` use
    /// `out-of-range`. `toml_span_serde` and callers use other codes.
    Marked {
        code: &'s str,
        message: CowStr<'s>,
        places: Vec<(String, Span)>,
    },
}

/// An error: what is wrong, and where.
#[derive(Debug, Drop)]
pub struct Error<'s> {
    pub kind: ErrorKind<'s>,
    /// The bytes of the input that the error is about. The span may end after the input, or inside a character.
    pub span: Span,
    /// The line and the column of `span.start`, both counted from 0, the column in bytes. `None` if they are not known,
    /// as in typed reads.
    pub line_info: Option<(usize, usize)>,
}

impl<'s> From<(ErrorKind<'s>, Span)> for Error<'s> {
    ghost use Rattle.std.specs.Prelude.{◌≡◌, None};
    ghost use Rattle.toml_span_tree.specs.declared.error.Error.{Error};

    ghost from_gives = { λ parts error.
        error ≡ record { kind = parts.0; span = parts.1; line_info = None } };

    fn from(parts: (ErrorKind<'s>, Span)) -> Self {
        Error {
            kind: parts.0,
            span: parts.1,
            line_info: None,
        }
    }
}

/// Lets `?` convert an `Error` in a function that fails with a `Stop<E>`, if `E` implements `From<Error>`.
impl<'s, E: From<Error<'s>>> From<Error<'s>> for Stop<E> {
    ghost use Rattle.toml_span_tree.specs.Error.{IsFaultOf};

    ghost from_gives = { λ error stop. IsFaultOf E.from_gives error stop };

    fn from(error: Error<'s>) -> Stop<E> {
        Stop::Fault(E::from(error))
    }
}

/// Returns a copy of a list of keys with their spans.
#[tactic(auto, using(crate::proofs::Clones::keys_cloned))]
fn clone_keys(keys: &Vec<(String, Span)>) -> Result<Vec<(String, Span)>, AllocError>
    ensures { IfOk result (λ copy. marked_keys copy.items ≡ marked_keys keys.now.items) }
{
    keys.clone()
}

/// Returns a copy of a list of names.
#[tactic(auto, using(crate::proofs::Clones::names_cloned))]
fn clone_names(names: &Vec<String>) -> Result<Vec<String>, AllocError>
    ensures { IfOk result (λ copy. map string_bytes copy.items ≡ map string_bytes names.now.items) }
{
    names.clone()
}

impl<'s> ErrorKind<'s> {
    /// Returns a copy. Fails if an allocation fails.
    pub fn clone(&self, alloc: Global) -> Result<Self, AllocError>
        ensures { IfOk result (λ copy. kind_of copy ≡ kind_of self.now) }
    {
        Ok(match self {
            ErrorKind::UnexpectedEof => ErrorKind::UnexpectedEof,
            ErrorKind::ExceededDepthLimit => ErrorKind::ExceededDepthLimit,
            ErrorKind::InvalidCharInString(c) => ErrorKind::InvalidCharInString(*c),
            ErrorKind::InvalidEscape(c) => ErrorKind::InvalidEscape(*c),
            ErrorKind::InvalidHexEscape(c) => ErrorKind::InvalidHexEscape(*c),
            ErrorKind::InvalidEscapeValue(value) => ErrorKind::InvalidEscapeValue(*value),
            ErrorKind::Unexpected(c) => ErrorKind::Unexpected(*c),
            ErrorKind::UnterminatedString => ErrorKind::UnterminatedString,
            ErrorKind::InvalidNumber => ErrorKind::InvalidNumber,
            ErrorKind::InvalidDatetime => ErrorKind::InvalidDatetime,
            ErrorKind::OutOfRange(name) => ErrorKind::OutOfRange(*name),
            ErrorKind::Wanted { expected, found } => ErrorKind::Wanted {
                expected: *expected,
                found: *found,
            },
            ErrorKind::DuplicateTable { name, first } => ErrorKind::DuplicateTable {
                name: String::from_str(alloc, name.as_str())?,
                first: *first,
            },
            ErrorKind::DuplicateKey { key, first } => ErrorKind::DuplicateKey {
                key: String::from_str(alloc, key.as_str())?,
                first: *first,
            },
            ErrorKind::RedefineAsArray => ErrorKind::RedefineAsArray,
            ErrorKind::MultilineStringKey => ErrorKind::MultilineStringKey,
            ErrorKind::Custom(message) => ErrorKind::Custom(message.clone()?),
            ErrorKind::DottedKeyInvalidType { first } => {
                ErrorKind::DottedKeyInvalidType { first: *first }
            }
            ErrorKind::UnexpectedKeys { keys, expected } => ErrorKind::UnexpectedKeys {
                keys: clone_keys(keys)?,
                expected: clone_names(expected)?,
            },
            ErrorKind::UnquotedString => ErrorKind::UnquotedString,
            ErrorKind::MissingField(field) => ErrorKind::MissingField(*field),
            ErrorKind::Deprecated { old, new } => ErrorKind::Deprecated {
                old: *old,
                new: *new,
            },
            ErrorKind::UnexpectedValue { expected, value } => ErrorKind::UnexpectedValue {
                expected: *expected,
                value: match value {
                    Some(value) => Some(String::from_str(alloc, value.as_str())?),
                    None => None,
                },
            },
            ErrorKind::Marked {
                code,
                message,
                places,
            } => ErrorKind::Marked {
                code: *code,
                message: message.clone()?,
                places: clone_keys(places)?,
            },
        })
    }
}

impl<'s> Error<'s> {
    /// Returns a copy. Fails if an allocation fails.
    pub fn clone(&self, alloc: Global) -> Result<Self, AllocError>
        ensures { IfOk result (λ copy. content_of copy ≡ content_of self.now) }
    {
        Ok(Error {
            kind: self.kind.clone(alloc)?,
            span: self.span,
            line_info: self.line_info,
        })
    }
}
