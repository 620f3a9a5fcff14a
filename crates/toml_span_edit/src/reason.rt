//! Why an edit was refused.
ghost use Rattle.std.specs.Prelude.{◌≡◌, Some};
ghost use Rattle.toml_span_edit.specs.Reasons.{reason_detail, reason_text, reason_words};

use std::alloc::Global;
use std::fmt;
use std::fmt::{Display, Formatter, Write};
use toml_span::Stop;

/// Why an edit was refused. A reason may come with more text, which `detail` returns.
#[derive(Debug, Drop)]
pub enum Reason {
    /// The document is not valid TOML. The string is its error with line and column.
    InvalidDocument(String),
    /// The path, which is written as text, can't be read. The string is its error with the column.
    InvalidPath(String),
    /// The path does not name a value.
    Nothing,
    /// The new value is not a TOML value. For a word such as `abc`, the string is `'"abc"'?`: what was probably meant,
    /// quoted for a shell, to complete `did you mean`.
    NoValue(Option<String>),
    /// The path leads to the root, which can't be replaced or removed.
    Root,
    /// Headers or dotted keys define the value at the path.
    NotLiteral,
    /// The path does not name a key.
    NoKey,
    /// The new path already names a value. The string has the line and column of its key or, for an element, of the
    /// value; it is empty if they are not known.
    AlreadyThere(String),
    /// The value to which an entry would be added is not a table.
    NoTable,
    /// The value to which an element would be added is not an array, or the path does not end with a position.
    NoArray,
    /// The path leads to an element that the array, which may be missing too, does not have.
    PastEnd,
    /// The new element of an array whose elements have headers is not an inline table or, in a move, not a table.
    NoInlineTable,
    /// The result would not be valid TOML. The string is its error with line and column.
    ResultInvalid(String),
    /// The edit would change something else too.
    WouldDiffer,
}

impl Reason {
    /// Returns the reason as text. If `detail` returns a string that is not empty, that string continues this text.
    pub fn text(&self) -> &'static str
        ensures { result.now ≡ reason_words self.now }
    {
        match self {
            Reason::InvalidDocument(_) => "the file is not valid TOML: ",
            Reason::InvalidPath(_) => "the path is invalid at ",
            Reason::Nothing => "there is nothing at this path",
            Reason::NoValue(None) =>
                "the new value is not a single TOML value (strings need quotes: `'\"b\"'`)",
            Reason::NoValue(Some(_)) => "the new value is not a single TOML value: did you mean ",
            Reason::Root => {
                "the path names the whole document; set or remove the values in it instead"
            }
            Reason::NotLiteral => {
                "headers or dotted keys define this table or array; set the values in it instead"
            }
            Reason::NoKey => "the path does not name a key",
            Reason::AlreadyThere(_) => "this path already has a value",
            Reason::NoTable => "the path does not name a table",
            Reason::NoArray => {
                "the path does not name an array, or does not end with a position such as `[0]`"
            }
            Reason::PastEnd =>
                "no array has an element at this position: `append` adds one; for a number as a key, set its table",
            Reason::NoInlineTable =>
                "this array has `[[..]]` headers, so each element must be a table",
            Reason::ResultInvalid(_) => "the result would not be valid TOML: ",
            Reason::WouldDiffer => "this would change more than the value at the path",
        }
    }

    /// Returns the string in the reason, to write after what `text` returns: the place and message of an error, the
    /// place of a value, or the string that was probably meant. Returns an empty string for other reasons.
    pub fn detail(&self) -> &str
        ensures { result.now ≡ reason_detail self.now }
    {
        match self {
            Reason::InvalidDocument(fault) => fault.as_str(),
            Reason::InvalidPath(fault) => fault.as_str(),
            Reason::AlreadyThere(place) => place.as_str(),
            Reason::ResultInvalid(fault) => fault.as_str(),
            Reason::NoValue(Some(string)) => string.as_str(),
            _ => "",
        }
    }
}

/// Writes what `text` and `detail` return.
impl Display for Reason {
    ghost output = { λ reason. Some (reason_text reason) };

    fn fmt<W: Write>(&self, f: &mut Formatter<W>) -> fmt::Result {
        f.write_str(self.text())?;
        f.write_str(self.detail())
    }
}

impl std::error::Error for Reason {}

/// The result of a step of an edit, which may be refused.
pub(crate) type Edited<T> = Result<T, Stop<Reason>>;

/// Returns the error that the new path already names a value, whose place is not known.
pub(crate) fn already_there(alloc: Global) -> Stop<Reason> {
    Stop::Fault(Reason::AlreadyThere(String::new(alloc)))
}
