//! The codes and messages of errors.
ghost use Rattle.std.specs.Prelude.{◌≡◌, ◌++◌, codes, map, Some, string_bytes};
ghost use Rattle.std.specs.Fmt.{WritesOnOk};
ghost use Rattle.toml_span_tree.specs.Error.{kind_of, marked_keys};
ghost use Rattle.toml_span_tree.specs.Message.{code_of, deprecated_text, char_text, display_text};
ghost use Rattle.toml_span_tree.specs.Message.{unexpected_keys_text, unexpected_value_text};

use crate::error::{Error, ErrorKind};
use crate::listed::{Keys, LentNames, Names, write_escaped};
use std::fmt;
use std::fmt::{Display, Formatter, Write};
use toml_span_lex::span::Span;

impl<'s> ErrorKind<'s> {
    /// Returns the code of this kind of error, such as `duplicate-key`.
    pub(crate) fn code(&self) -> &'s str
        ensures { result.now ≡ code_of (kind_of self.now) }
    {
        match self {
            ErrorKind::UnexpectedEof => "unexpected-eof",
            ErrorKind::ExceededDepthLimit => "exceeded-depth-limit",
            ErrorKind::InvalidCharInString(_) => "invalid-char-in-string",
            ErrorKind::InvalidEscape(_) => "invalid-escape",
            ErrorKind::InvalidHexEscape(_) => "invalid-hex-escape",
            ErrorKind::InvalidEscapeValue(_) => "invalid-escape-value",
            ErrorKind::Unexpected(_) => "unexpected",
            ErrorKind::UnterminatedString => "unterminated-string",
            ErrorKind::InvalidNumber => "invalid-number",
            ErrorKind::InvalidDatetime => "invalid-datetime",
            ErrorKind::OutOfRange(_) => "out-of-range",
            ErrorKind::Wanted { .. } => "wanted",
            ErrorKind::DuplicateTable { .. } => "duplicate-table",
            ErrorKind::DuplicateKey { .. } => "duplicate-key",
            ErrorKind::RedefineAsArray => "redefine-as-array",
            ErrorKind::MultilineStringKey => "multiline-string-key",
            ErrorKind::Custom(_) => "custom",
            ErrorKind::DottedKeyInvalidType { .. } => "dotted-key-invalid-type",
            ErrorKind::UnexpectedKeys { .. } => "unexpected-keys",
            ErrorKind::UnquotedString => "unquoted-string",
            ErrorKind::MissingField(_) => "missing-field",
            ErrorKind::Deprecated { .. } => "deprecated",
            ErrorKind::UnexpectedValue { .. } => "unexpected-value",
            ErrorKind::Marked { code, .. } => *code,
        }
    }
}

impl Display for ErrorKind<'_> {
    ghost output = { λ kind. Some (code_of (kind_of kind)) };

    fn fmt<W: Write>(&self, f: &mut Formatter<W>) -> fmt::Result {
        f.write_str(self.code())
    }
}

/// A character as it appears in a message: white space other than a space as an escape, any other character as itself.
#[derive(Clone, Copy)]
pub(crate) struct Shown(pub(crate) char);

impl Display for Shown {
    ghost output = { λ shown. Some (char_text shown.0) };

    fn fmt<W: Write>(&self, f: &mut Formatter<W>) -> fmt::Result {
        let c = self.0;
        if !c.is_whitespace() {
            return f.write_char(c);
        }
        write_escaped(f, c)
    }
}

/// Writes `text`, which ends with a backtick, then `c` as it appears in messages (see `Shown`), and a closing backtick.
fn with_char<W: Write>(f: &mut Formatter<W>, text: &str, c: char) -> fmt::Result
    ensures { WritesOnOk W.write_str_gives f.old result (text.now ++ char_text c ++ codes "`") f.new }
{
    let c = Shown(c);
    write!(f, "{text}{c}`")
}

/// Writes the message that the field name `old` is deprecated, and that `new` has replaced it.
fn deprecated<W: Write>(f: &mut Formatter<W>, old: &str, new: &str) -> fmt::Result
    ensures { WritesOnOk W.write_str_gives f.old result (deprecated_text old.now new.now) f.new }
{
    write!(f, "field '{old}")?;
    write!(f, "' is deprecated, '{new}' has replaced it")
}

/// Writes the message that a table has unexpected keys. The message lists `keys` and the names in `expected`.
fn unexpected_keys<W: Write>(
    f: &mut Formatter<W>,
    keys: &[(String, Span)],
    expected: &[String],
) -> fmt::Result
    ensures { WritesOnOk W.write_str_gives f.old result
        (unexpected_keys_text (marked_keys keys.now) (map string_bytes expected.now)) f.new }
{
    let keys = Keys(keys);
    write!(f, "unexpected keys in table: `{keys}")?;
    let expected = Names(expected);
    write!(f, "`\nexpected: {expected}")
}

/// Writes the message for an unexpected value. The message lists the expected values.
fn unexpected_value<W: Write>(f: &mut Formatter<W>, expected: &[&str]) -> fmt::Result
    ensures { WritesOnOk W.write_str_gives f.old result
        (unexpected_value_text (map (λ name. name.now) expected.now)) f.new }
{
    let expected = LentNames(expected);
    write!(f, "expected '{expected}'")
}

impl Display for Error<'_> {
    ghost output = { λ error. Some (display_text (kind_of error.kind)) };

    fn fmt<W: Write>(&self, f: &mut Formatter<W>) -> fmt::Result {
        match &self.kind {
            ErrorKind::UnexpectedEof => f.write_str("unexpected eof encountered"),
            ErrorKind::ExceededDepthLimit => {
                f.write_str("input exceeds the maximum allowed nesting depth")
            }
            ErrorKind::InvalidCharInString(c) => with_char(f, "invalid character in string: `", *c),
            ErrorKind::InvalidEscape(c) => with_char(
                f,
                "invalid escape character in string: `",
                *c,
            ),
            ErrorKind::InvalidHexEscape(c) => {
                with_char(f, "invalid hex escape character in string: `", *c)
            }
            ErrorKind::InvalidEscapeValue(value) => write!(f, "invalid escape value: `{value}`"),
            ErrorKind::Unexpected(c) => with_char(f, "unexpected character found: `", *c),
            ErrorKind::UnterminatedString => f.write_str("unterminated string"),
            ErrorKind::InvalidNumber => f.write_str("invalid number"),
            ErrorKind::InvalidDatetime => f.write_str("invalid datetime"),
            ErrorKind::OutOfRange(name) => write!(f, "out of range of '{name}'"),
            ErrorKind::Wanted { expected, found } => write!(
                f,
                "expected {expected}, found {found}"
            ),
            ErrorKind::DuplicateTable { name, .. } => write!(f, "redefinition of table `{name}`"),
            ErrorKind::DuplicateKey { key, .. } => write!(f, "duplicate key: `{key}`"),
            ErrorKind::RedefineAsArray => f.write_str("table redefined as array"),
            ErrorKind::MultilineStringKey => f.write_str(
                "multiline strings are not allowed for key",
            ),
            ErrorKind::Custom(message) => f.write_str(message.as_str()),
            ErrorKind::DottedKeyInvalidType { .. } => {
                f.write_str("dotted key attempted to extend non-table type")
            }
            ErrorKind::UnexpectedKeys { keys, expected } => {
                unexpected_keys(f, keys.as_slice(), expected.as_slice())
            }
            ErrorKind::UnquotedString => {
                f.write_str("invalid TOML value, did you mean to use a quoted string?")
            }
            ErrorKind::MissingField(field) => write!(f, "missing field '{field}' in table"),
            ErrorKind::Deprecated { old, new } => deprecated(f, old, new),
            ErrorKind::UnexpectedValue { expected, .. } => unexpected_value(f, *expected),
            ErrorKind::Marked { message, .. } => f.write_str(message.as_str()),
        }
    }
}

impl std::error::Error for Error<'_> {}
