//! Errors as diagnostics: a message and labeled spans, for an editor or a terminal.
ghost use Rattle.std.specs.Prelude.{◌≡◌, [], ◌∷◌, ◌++◌, IfOk, map, string_bytes};
ghost use Rattle.toml_span_tree.specs.Error.{kind_of, marked_keys};
ghost use Rattle.toml_span_tree.specs.Message.{code_of, char_text};
ghost use Rattle.toml_span_tree.specs.Diagnostic.{label_text_of, labels_of, label_content, message_of, primary};
ghost use Rattle.toml_span_tree.specs.Diagnostic.{secondary, unexpected_keys_message};

use crate::error::{Error, ErrorKind};
use crate::listed::{LentNames, Names};
use crate::message::Shown;
use std::alloc::{AllocError, Global};
use toml_span_lex::span::Span;

/// An error in the form that editors and terminals show: a code, a message and labeled spans.
#[derive(Debug, Drop)]
pub struct Diagnostic<F> {
    /// The code of the error's kind, such as `duplicate-key`.
    pub code: String,
    /// What is wrong, or an empty string if the primary label alone describes the error.
    pub message: String,
    /// The primary label, at the error's own span, then the secondary labels. For a duplicate key or table, the label
    /// of the earlier key or table comes first. For unexpected keys, there is one secondary label for each key, and no
    /// primary label.
    pub labels: Vec<Label<F>>,
}

/// A span in a file, and a text to show there.
#[derive(Debug, Drop)]
pub struct Label<F> {
    /// Whether this is the primary label, which is at the error's own span. Secondary labels mark, for example, the
    /// first of two equal keys, or an unexpected key.
    pub primary: bool,
    /// The file, as the caller of `to_diagnostic` identified it.
    pub file: F,
    /// The span, in bytes, end exclusive.
    pub span: Span,
    /// The text to show at the span, or an empty string.
    pub message: String,
}

impl ErrorKind<'_> {
    /// Returns the message of the diagnostic, or an empty string if the primary label alone describes the error.
    fn message(&self, alloc: Global) -> Result<String, AllocError>
        ensures { IfOk result (λ text. string_bytes text ≡ message_of (kind_of self.now)) }
    {
        match self {
            ErrorKind::UnexpectedEof => String::from_str(alloc, "unexpected end of file"),
            ErrorKind::ExceededDepthLimit => {
                String::from_str(alloc, "input exceeds the maximum allowed nesting depth")
            }
            ErrorKind::OutOfRange(name) => format!(in alloc; "number is out of range of '{name}'"),
            ErrorKind::RedefineAsArray => String::from_str(alloc, "table redefined as array"),
            ErrorKind::Custom(message) => String::from_str(alloc, message.as_str()),
            ErrorKind::DottedKeyInvalidType { .. } => {
                String::from_str(alloc, "dotted key attempted to extend non-table type")
            }
            ErrorKind::UnexpectedKeys { keys, expected } => {
                unexpected_keys(alloc, keys.len(), expected.as_slice())
            }
            ErrorKind::MissingField(field) => format!(in alloc; "missing field '{field}'"),
            ErrorKind::Deprecated { new, .. } => {
                format!(in alloc; "deprecated field enountered, '{new}' should be used instead")
            }
            ErrorKind::UnexpectedValue { expected, .. } => {
                let expected = LentNames(*expected);
                format!(in alloc; "expected '{expected}'")
            }
            ErrorKind::Marked { message, .. } => String::from_str(alloc, message.as_str()),
            _ => Ok(String::new(alloc)),
        }
    }

    /// Returns the text of the label at the error's own span, or an empty string if the message alone describes the
    /// error.
    fn label_text(&self, alloc: Global) -> Result<String, AllocError>
        ensures { IfOk result (λ text. string_bytes text ≡ label_text_of (kind_of self.now)) }
    {
        match self {
            ErrorKind::ExceededDepthLimit => String::from_str(alloc, "too deeply nested"),
            ErrorKind::InvalidCharInString(c) => {
                around(alloc, "invalid character '", *c, "' in string")
            }
            ErrorKind::InvalidEscape(c) => {
                around(alloc, "invalid escape character '", *c, "' in string")
            }
            ErrorKind::InvalidHexEscape(c) => around(alloc, "invalid hex escape '", *c, "'"),
            ErrorKind::InvalidEscapeValue(_) => String::from_str(alloc, "invalid escape value"),
            ErrorKind::Unexpected(c) => around(alloc, "unexpected character '", *c, "'"),
            ErrorKind::UnterminatedString => {
                String::from_str(alloc, "eof reached before string terminator")
            }
            ErrorKind::InvalidNumber => String::from_str(alloc, "unable to parse number"),
            ErrorKind::InvalidDatetime => String::from_str(alloc, "unable to parse datetime"),
            ErrorKind::Wanted { expected, .. } => format!(in alloc; "expected {expected}"),
            ErrorKind::DuplicateTable { .. } => String::from_str(alloc, "duplicate table"),
            ErrorKind::DuplicateKey { .. } => String::from_str(alloc, "duplicate key"),
            ErrorKind::MultilineStringKey => {
                String::from_str(alloc, "multiline keys are not allowed")
            }
            ErrorKind::DottedKeyInvalidType { .. } => {
                String::from_str(alloc, "attempted to extend table here")
            }
            ErrorKind::UnquotedString => String::from_str(alloc, "string is not quoted"),
            ErrorKind::MissingField(_) => String::from_str(alloc, "table with missing field"),
            ErrorKind::Deprecated { .. } => String::from_str(alloc, "deprecated field"),
            ErrorKind::UnexpectedValue { .. } => String::from_str(alloc, "unexpected value"),
            _ => Ok(String::new(alloc)),
        }
    }
}

/// Returns one string: `before`, then `c` as it appears in messages (see `Shown`), then `after`.
fn around(alloc: Global, before: &str, c: char, after: &str) -> Result<String, AllocError>
    ensures { IfOk result (λ text. string_bytes text ≡ before.now ++ char_text c ++ after.now) }
{
    let c = Shown(c);
    format!(in alloc; "{before}{c}{after}")
}

/// Returns the message for `count` unexpected keys. It lists the names in `expected`.
fn unexpected_keys(alloc: Global, count: usize, expected: &[String]) -> Result<String, AllocError>
    ensures { IfOk result (λ text. string_bytes text
        ≡ unexpected_keys_message count (map string_bytes expected.now)) }
{
    let expected = Names(expected);
    format!(in alloc; "found {count} unexpected keys, expected: {expected}")
}

/// Returns one secondary label for each of `keys`, at the key's span and without text.
fn key_labels<F: Copy>(
    alloc: Global,
    file: F,
    keys: &[(String, Span)],
) -> Result<Vec<Label<F>>, AllocError>
    ensures { IfOk result (λ labels. map label_content labels.items
        ≡ map (λ key. secondary file key.1 []) (marked_keys keys.now)) }
{
    let mut labels = Vec::with_capacity(alloc, keys.len())?;
    for key in keys {
        labels.push(Label {
            primary: false,
            file,
            span: key.1,
            message: String::new(alloc),
        })?;
    }
    Ok(labels)
}

/// Returns a primary label at `span`, without text, and then one secondary label for each of `places`, with the text
/// and the span of the place.
fn marked_labels<F: Copy>(
    alloc: Global,
    file: F,
    span: Span,
    places: &[(String, Span)],
) -> Result<Vec<Label<F>>, AllocError>
    ensures { IfOk result (λ labels. map label_content labels.items
        ≡ primary file span [] ∷ map (λ place. secondary file place.1 place.0) (marked_keys places.now)) }
{
    let own = Label {
        primary: true,
        file,
        span,
        message: String::new(alloc),
    };
    let mut labels = one(alloc, own)?;
    for place in places {
        labels.push(secondary(alloc, file, place.1, place.0.as_str())?)?;
    }
    Ok(labels)
}

impl Error<'_> {
    /// Converts the error into a diagnostic that an editor or a terminal can show. `fid` identifies the file in the
    /// labels.
    ///
    /// Fails if an allocation fails.
    pub fn to_diagnostic<F: Copy + PartialEq>(
        &self,
        alloc: Global,
        fid: F,
    ) -> Result<Diagnostic<F>, AllocError>
        ensures code { IfOk result (λ shown. string_bytes shown.code
            ≡ code_of (kind_of self.now.kind)) }
        ensures message { IfOk result (λ shown. string_bytes shown.message
            ≡ message_of (kind_of self.now.kind)) }
        ensures labels { IfOk result (λ shown. map label_content shown.labels.items
            ≡ labels_of fid self.now.span (kind_of self.now.kind)) }
    {
        Ok(Diagnostic {
            code: String::from_str(alloc, self.kind.code())?,
            message: self.kind.message(alloc)?,
            labels: self.labels(alloc, fid)?,
        })
    }

    /// Returns the labels of the error, in the order that `Diagnostic::labels` describes.
    fn labels<F: Copy>(&self, alloc: Global, file: F) -> Result<Vec<Label<F>>, AllocError>
        ensures { IfOk result (λ labels. map label_content labels.items
            ≡ labels_of file self.now.span (kind_of self.now.kind)) }
    {
        if let ErrorKind::UnexpectedKeys { keys, .. } = &self.kind {
            return key_labels(alloc, file, keys.as_slice());
        }
        if let ErrorKind::Marked { places, .. } = &self.kind {
            return marked_labels(alloc, file, self.span, places.as_slice());
        }
        let primary = Label {
            primary: true,
            file,
            span: self.span,
            message: self.kind.label_text(alloc)?,
        };
        match &self.kind {
            ErrorKind::DuplicateTable { first, .. } => {
                let first = secondary(alloc, file, *first, "first table instance")?;
                two(alloc, first, primary)
            }
            ErrorKind::DuplicateKey { first, .. } => {
                let first = secondary(alloc, file, *first, "first key instance")?;
                two(alloc, first, primary)
            }
            ErrorKind::DottedKeyInvalidType { first } => {
                let first = secondary(alloc, file, *first, "non-table")?;
                two(alloc, primary, first)
            }
            _ => one(alloc, primary),
        }
    }
}

/// Returns a secondary label with a copy of the message.
fn secondary<F: Copy>(
    alloc: Global,
    file: F,
    span: Span,
    message: &str,
) -> Result<Label<F>, AllocError>
    ensures { IfOk result (λ label. label_content label ≡ secondary file span message.now) }
{
    Ok(Label {
        primary: false,
        file,
        span,
        message: String::from_str(alloc, message)?,
    })
}

/// Returns a list that has only this label.
fn one<F: Copy>(alloc: Global, label: Label<F>) -> Result<Vec<Label<F>>, AllocError>
    ensures { IfOk result (λ labels. labels.items ≡ label ∷ []) }
{
    let mut labels = Vec::with_capacity(alloc, 1)?;
    labels.push(label)?;
    Ok(labels)
}

/// Returns a list of the two labels, in this order.
fn two<F: Copy>(
    alloc: Global,
    first: Label<F>,
    second: Label<F>,
) -> Result<Vec<Label<F>>, AllocError>
    ensures { IfOk result (λ labels. labels.items ≡ first ∷ second ∷ []) }
{
    // Toolchain: `vec![in alloc; first, second]` leaves the goal `vec-requires` open if the type of the items is a
    // parameter.
    let mut labels = Vec::with_capacity(alloc, 2)?;
    labels.push(first)?;
    labels.push(second)?;
    Ok(labels)
}
