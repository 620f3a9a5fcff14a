//! Errors that say why a value can't be read as a type.
ghost use Rattle.std.specs.Fmt.{WritesOnOk};
ghost use Rattle.std.specs.List.{flat_map};
ghost use Rattle.std.specs.Prelude.{◌≡◌, ◌++◌, [], IfOk, Some, codes, map, option_map, string_bytes};
ghost use Rattle.toml_span_tree.specs.Error.{content_of, custom, kind_of, marked};
ghost use Rattle.toml_span_tree.specs.Diagnostic.{labels_of, label_content, message_of};
ghost use Rattle.toml_span_tree.specs.Message.{code_of};
ghost use Rattle.toml_span_mistakes.specs.UnknownKeys.{named};
ghost use Rattle.toml_span_serde.specs.Misfits.{content_of_error, content_of_misfit, expected_text, kind_of_reason};
ghost use Rattle.toml_span_serde.specs.Misfits.{kind_of_twice, kinds_text, meant_by, more_kinds_text, name_of};
ghost use Rattle.toml_span_serde.specs.Misfits.{reason_text, words_of};
ghost use Rattle.toml_span_serde.specs.Texts.{read_error_text, further_text, misfit_text, place_text};

use crate::names::meant;
use crate::path::Step;
use std::alloc::{AllocError, Global};
use std::borrow::CowStr;
use std::fmt;
use std::fmt::{Display, Formatter, Write};
use toml_span_lex::span::Span;
use toml_span_tree::{Diagnostic, ErrorKind};

/// The kind of value that a type expects.
#[derive(Clone, Copy, PartialEq, Eq, Debug)]
pub enum Expected {
    Boolean,
    Integer,
    Float,
    Character,
    String,
    /// A string that can be borrowed, because its value is empty or equals the text at its span.
    PlainString,
    Array,
    Table,
    Key,
    Variant,
}

/// The kind of a value or key that was found.
#[derive(Clone, Copy, PartialEq, Eq, Debug)]
pub enum Found {
    String,
    Integer,
    Float,
    Boolean,
    Datetime,
    Array,
    Table,
    Key,
    /// A value whose content has been taken.
    Nothing,
}

impl Expected {
    /// Returns the name of the kind with its article, such as `an integer`.
    pub(crate) fn words(self) -> &'static str
        ensures { result.now ≡ words_of self }
    {
        match self {
            Expected::Boolean => "a boolean",
            Expected::Integer => "an integer",
            Expected::Float => "a float",
            Expected::Character => "a character",
            Expected::String => "a string",
            Expected::PlainString => "a string without escapes",
            Expected::Array => "an array",
            Expected::Table => "a table",
            Expected::Key => "a key",
            Expected::Variant => "the name of a variant",
        }
    }
}

impl Found {
    /// Returns the name of the kind, such as `integer`.
    pub(crate) fn name(self) -> &'static str
        ensures { result.now ≡ name_of self }
    {
        match self {
            Found::String => "string",
            Found::Integer => "integer",
            Found::Float => "float",
            Found::Boolean => "boolean",
            Found::Datetime => "datetime",
            Found::Array => "array",
            Found::Table => "table",
            Found::Key => "key",
            Found::Nothing => "nothing",
        }
    }
}

/// Why a value does not fit a type.
#[derive(Debug, Drop)]
pub enum Reason {
    /// A value of another kind was expected.
    Wanted {
        expected: Expected,
        found: Found,
    },
    /// A value of one of several other kinds was expected. No variant of an `untagged` enum accepts the kind `found`.
    WantedOneOf {
        expected: Vec<Expected>,
        found: Found,
    },
    /// The type does not accept a value of this kind. In an `untagged` enum, a variant may accept the kind, but not the
    /// rest of the value.
    Unexpected(Found),
    /// The table lacks the key of this field.
    MissingField(String),
    /// Two keys of a table name this field. The misfit is at the later key. `first` is the span of the earlier key, if
    /// known.
    DuplicateField {
        name: String,
        first: Option<Span>,
    },
    /// The table has the key `name`, which is not the name of a field. `expected` lists the names and aliases of the
    /// fields.
    UnknownField {
        name: String,
        expected: Vec<String>,
    },
    /// The text `name` is not the name of a variant. `expected` lists the names and aliases of the variants.
    UnknownVariant {
        name: String,
        expected: Vec<String>,
    },
    /// The array has this number of elements, and the type expects another number.
    Length(usize),
    /// The type expects this number of elements, and the array has more.
    TooLong(usize),
    /// The type can't represent the number.
    OutOfRange,
    /// The number is negative, and the type is unsigned.
    Negative,
    /// The type does not accept the value.
    Invalid,
    /// The type does not accept the value, for the reason in this message.
    Custom(String),
}

/// Writes each of the names in backticks, with a comma before it.
fn write_more<W: Write>(f: &mut Formatter<W>, names: &[String]) -> fmt::Result
    ensures { WritesOnOk W.write_str_gives f.old result
        (flat_map (λ name. codes ", " ++ named name) (map string_bytes names.now)) f.new }
{
    for name in names {
        write!(f, ", `{name}`")?;
    }
    Ok(())
}

/// Writes that one of the names was expected, such as "expected one of `a`, `b`". If `names` is empty, writes `none`.
fn write_expected<W: Write>(f: &mut Formatter<W>, none: &str, names: &[String]) -> fmt::Result
    ensures { WritesOnOk W.write_str_gives f.old result (expected_text none.now (map string_bytes names.now)) f.new }
{
    match names.split_first() {
        None => f.write_str(none),
        Some((first, [])) => write!(f, "expected `{first}`"),
        Some((first, more)) => {
            write!(f, "expected one of `{first}`")?;
            write_more(f, more)
        }
    }
}

/// Writes each of the kinds, with a comma before it.
fn write_parted<W: Write>(f: &mut Formatter<W>, kinds: &[Expected]) -> fmt::Result
    ensures { WritesOnOk W.write_str_gives f.old result
        (flat_map (λ kind. codes ", " ++ words_of kind) kinds.now) f.new }
{
    for kind in kinds {
        let words = kind.words();
        write!(f, ", {words}")?;
    }
    Ok(())
}

/// Writes the kinds, which follow another kind: the last one with "or" before it, the others with commas before them.
fn write_more_kinds<W: Write>(f: &mut Formatter<W>, kinds: &[Expected]) -> fmt::Result
    ensures { WritesOnOk W.write_str_gives f.old result (more_kinds_text kinds.now) f.new }
{
    match kinds.split_last() {
        Some((last, before)) => {
            write_parted(f, before)?;
            let last = last.words();
            write!(f, " or {last}")
        }
        None => Ok(()),
    }
}

/// Writes the kinds, with commas between them and "or" before the last one.
fn write_kinds<W: Write>(f: &mut Formatter<W>, kinds: &[Expected]) -> fmt::Result
    ensures { WritesOnOk W.write_str_gives f.old result (kinds_text kinds.now) f.new }
{
    match kinds.split_first() {
        Some((first, more)) => {
            f.write_str(first.words())?;
            write_more_kinds(f, more)
        }
        None => Ok(()),
    }
}

impl Display for Reason {
    ghost output = { λ reason. Some (reason_text reason) };

    fn fmt<W: Write>(&self, f: &mut Formatter<W>) -> fmt::Result {
        match self {
            Reason::Wanted { expected, found } => {
                let (expected, found) = (expected.words(), found.name());
                write!(f, "expected {expected}, found {found}")
            }
            Reason::WantedOneOf { expected, found } => {
                f.write_str("expected ")?;
                write_kinds(f, expected.as_slice())?;
                let found = found.name();
                write!(f, ", found {found}")
            }
            Reason::Unexpected(found) => {
                let found = found.name();
                write!(f, "unexpected {found}")
            }
            Reason::MissingField(name) => write!(f, "missing key `{name}`"),
            Reason::DuplicateField { name, .. } => write!(f, "duplicate key: `{name}`"),
            Reason::UnknownField { name, expected } => {
                write!(f, "unknown key `{name}`, ")?;
                write_expected(f, "this table can't have keys", expected.as_slice())
            }
            Reason::UnknownVariant { name, expected } => {
                write_expected(f, "no value is accepted", expected.as_slice())?;
                write!(f, ", found `{name}`")
            }
            Reason::Length(count) => write!(f, "wrong number of elements: {count}"),
            Reason::TooLong(count) => write!(f, "too many elements, expected {count}"),
            Reason::OutOfRange => f.write_str("number is out of range"),
            Reason::Negative => f.write_str("number is out of range, expected 0 or more"),
            Reason::Invalid => f.write_str("invalid value"),
            Reason::Custom(message) => f.write_str(message.as_str()),
        }
    }
}

impl Reason {
    /// Returns the kind of error for this reason.
    fn kind(&self, alloc: Global) -> Result<ErrorKind<'_>, AllocError>
        ensures { IfOk result (λ kind. kind_of kind ≡ kind_of_reason self.now) }
    {
        Ok(match self {
            Reason::Wanted { expected, found } => ErrorKind::Wanted {
                expected: expected.words(),
                found: found.name(),
            },
            Reason::WantedOneOf { .. } => self.marked(alloc, "wanted")?,
            Reason::MissingField(name) => ErrorKind::MissingField(name.as_str()),
            Reason::DuplicateField { name, first } => self.twice(alloc, name.as_str(), *first)?,
            Reason::UnknownField { .. } => self.marked(alloc, "unexpected-keys")?,
            Reason::UnknownVariant { .. } => self.marked(alloc, "unexpected-value")?,
            Reason::OutOfRange => self.marked(alloc, "out-of-range")?,
            Reason::Negative => self.marked(alloc, "out-of-range")?,
            _ => self.custom(alloc)?,
        })
    }

    /// Returns a `Custom` kind of error with the text of this reason.
    fn custom<'c>(&self, alloc: Global) -> Result<ErrorKind<'c>, AllocError>
        ensures { IfOk result (λ kind. kind_of kind ≡ custom (reason_text self.now)) }
    {
        Ok(ErrorKind::Custom(CowStr::Owned(self.to_string(alloc)?)))
    }

    /// Returns the kind of error for a field that two keys name: `DuplicateKey`, or `Custom` if `first`, the span of
    /// the earlier key, is not known.
    fn twice<'c>(
        &self,
        alloc: Global,
        name: &str,
        first: Option<Span>,
    ) -> Result<ErrorKind<'c>, AllocError>
        ensures { IfOk result (λ kind. kind_of kind ≡ kind_of_twice (reason_text self.now) name.now first) }
    {
        match first {
            Some(first) => Ok(ErrorKind::DuplicateKey {
                key: String::from_str(alloc, name)?,
                first,
            }),
            None => self.custom(alloc),
        }
    }

    /// Returns a `Marked` kind of error with this code and the text of this reason.
    fn marked<'c>(&self, alloc: Global, code: &'c str) -> Result<ErrorKind<'c>, AllocError>
        ensures { IfOk result (λ kind. kind_of kind ≡ marked code.now (reason_text self.now) []) }
    {
        Ok(ErrorKind::Marked {
            code,
            message: CowStr::Owned(self.to_string(alloc)?),
            places: Vec::new(alloc),
        })
    }

    /// Returns the expected name that is nearest to an unknown key or variant. Returns `None` if no name is near enough
    /// (`toml_span_report::nearest`), or if this is neither `UnknownField` nor `UnknownVariant`. Fails if an allocation
    /// fails.
    pub fn meant(&self, alloc: Global) -> Result<Option<&str>, AllocError>
        ensures { IfOk result (λ found. option_map (λ name. name.now) found ≡ meant_by self.now) }
    {
        match self {
            Reason::UnknownField { name, expected } => meant(
                alloc,
                name.as_str(),
                expected.as_slice(),
            ),
            Reason::UnknownVariant { name, expected } => {
                meant(alloc, name.as_str(), expected.as_slice())
            }
            _ => Ok(None),
        }
    }
}

/// Why a value could not be read as a type, and where it is.
#[derive(Debug, Drop)]
pub struct Misfit {
    pub reason: Reason,
    /// The span of the value or key at which the read stopped.
    pub span: Span,
    /// The line and the column of `span.start`, if known. Both are counted from 0, the column in bytes.
    pub line_info: Option<(usize, usize)>,
    /// The path to the value at which the read stopped or, for a key, to the value that the key names.
    pub path: Vec<Step>,
}

impl Misfit {
    /// Converts the misfit to an error with the same span, line and column. Fails if an allocation fails.
    pub fn to_error(&self, alloc: Global) -> Result<toml_span_tree::Error<'_>, AllocError>
        ensures { IfOk result (λ error. content_of error ≡ content_of_misfit self.now) }
    {
        Ok(toml_span_tree::Error {
            kind: self.reason.kind(alloc)?,
            span: self.span,
            line_info: self.line_info,
        })
    }
}

/// Why a document could not be read as a type.
#[derive(Debug, Drop)]
pub enum Error<'s> {
    /// The text is not valid TOML.
    Refused(toml_span_tree::Error<'s>),
    /// A value of the document does not fit the type.
    Misfit(Misfit),
}

/// Writes the steps after the first step of a path: a key with `.` before it, and a position in brackets.
fn write_further<W: Write>(f: &mut Formatter<W>, steps: &[Step]) -> fmt::Result
    ensures { WritesOnOk W.write_str_gives f.old result (flat_map further_text steps.now) f.new }
{
    for step in steps {
        if let Step::Key(_) = step {
            f.write_str(".")?;
        }
        write!(f, "{step}")?;
    }
    Ok(())
}

/// Writes a path and a colon, as in `servers[1].port: `, or nothing for the root.
fn write_place<W: Write>(f: &mut Formatter<W>, path: &[Step]) -> fmt::Result
    ensures { WritesOnOk W.write_str_gives f.old result (place_text path.now) f.new }
{
    match path.split_first() {
        Some((first, further)) => {
            write!(f, "{first}")?;
            write_further(f, further)?;
            f.write_str(": ")
        }
        None => Ok(()),
    }
}

impl Display for Misfit {
    ghost output = { λ misfit. Some (misfit_text misfit) };

    /// Writes the path and the reason, as in `servers[1].port: ..`.
    fn fmt<W: Write>(&self, f: &mut Formatter<W>) -> fmt::Result {
        write_place(f, self.path.as_slice())?;
        let reason = &self.reason;
        write!(f, "{reason}")
    }
}

impl Display for Error<'_> {
    ghost output = { λ error. Some (read_error_text error) };

    fn fmt<W: Write>(&self, f: &mut Formatter<W>) -> fmt::Result {
        match self {
            Error::Refused(error) => write!(f, "{error}"),
            Error::Misfit(misfit) => write!(f, "{misfit}"),
        }
    }
}

impl std::error::Error for Error<'_> {}

impl Error<'_> {
    /// Returns the span of the error.
    pub fn span(&self) -> Span
        ensures { result ≡ (content_of_error self.now).span }
    {
        self.place().0
    }

    /// Returns the line and the column of the span's start, or `None` if they are not known. Both are counted from 0,
    /// the column in bytes.
    pub fn line_info(&self) -> Option<(usize, usize)>
        ensures { result ≡ (content_of_error self.now).line_info }
    {
        self.place().1
    }

    /// Returns the span, and the line and the column of its start, if known.
    fn place(&self) -> (Span, Option<(usize, usize)>)
        ensures { (result.0 ≡ (content_of_error self.now).span) × (result.1 ≡ (content_of_error self.now).line_info) }
    {
        match self {
            Error::Refused(error) => (error.span, error.line_info),
            Error::Misfit(misfit) => (misfit.span, misfit.line_info),
        }
    }

    /// Converts the error to a diagnostic that an editor or a terminal can show. `fid` identifies the file in the
    /// labels. Fails if an allocation fails.
    pub fn to_diagnostic<F: Copy + PartialEq>(
        &self,
        alloc: Global,
        fid: F,
    ) -> Result<Diagnostic<F>, AllocError>
        ensures code { IfOk result (λ shown. string_bytes shown.code ≡ code_of (content_of_error self.now).kind) }
        ensures message { IfOk result (λ shown.
            string_bytes shown.message ≡ message_of (content_of_error self.now).kind) }
        ensures labels { IfOk result (λ shown. map label_content shown.labels.items
            ≡ labels_of fid (content_of_error self.now).span (content_of_error self.now).kind) }
    {
        match self {
            Error::Refused(error) => error.to_diagnostic(alloc, fid),
            Error::Misfit(misfit) => misfit.to_error(alloc)?.to_diagnostic(alloc, fid),
        }
    }
}
