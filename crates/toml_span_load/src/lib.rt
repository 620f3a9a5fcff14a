//! Reads a TOML file as a type, with errors and warnings that outlive the text of the file.
#![tactic(auto)]

ghost use Rattle.std.specs.Prelude.{◌≡◌, IfErr, IfOk, Ok, Some, map, string_bytes};
ghost use Rattle.toml_span.specs.FromText.{IsReadAs};
ghost use Rattle.toml_span_load.specs.Load.{AreShown, IsLoaded, IsUnreadable, NotLoaded, NotLoadedWithWarnings};
ghost use Rattle.toml_span_load.specs.Load as spec;
ghost use Rattle.toml_span_load.specs.Load.{NotOpened, shown};
ghost use Rattle.toml_span_report.specs.Report.{report_content};
ghost use Rattle.toml_span_tree.specs.Error.{content_of};

use std::alloc::{AllocError, Global};
use std::fmt::{Display, Formatter, Write};
use std::io::ErrorKind;
use std::rt::Files;
use std::{fmt, fs, io};
use toml_span::{
    DeserError, Deserialize, DeserializeWithWarnings, Error, Stop, from_str, from_str_with_warnings,
};
use toml_span_mistakes::{Reported, Style, reports_of};
use toml_span_report::render_all;
use toml_span_report::visible::push_visible;

/// Why a file could not be read as a type.
#[derive(Debug, Drop)]
pub enum LoadError {
    /// An allocation failed.
    Memory(AllocError),
    /// The file can't be read, or is not valid UTF-8.
    Io(Unreadable),
    /// The text is not valid TOML, or does not fit the type. Contains the reports of the errors of the read and, for a
    /// type that warns, of its warnings.
    Reported(Reported),
}

/// The error of a file that can't be read, or is not valid UTF-8.
#[derive(Debug, Drop)]
pub struct Unreadable {
    /// The name of the file, as it was passed.
    pub name: String,
    /// The kind of the I/O error.
    pub kind: ErrorKind,
    /// The message, such as ``cannot read `a.toml`: No such file or directory (os error 2)``. Control characters in the
    /// name are escaped, and so are characters that end a line or change the direction of the text.
    pub text: String,
}

impl From<AllocError> for LoadError {
    ghost use Rattle.toml_span_load.specs.declared.LoadError.TheVariants.{Memory};

    ghost from_gives = { λ error load. load ≡ Memory error };

    fn from(error: AllocError) -> LoadError {
        LoadError::Memory(error)
    }
}

/// Writes the text of the reports, or one line: `error: ` and the field `text` of `Unreadable`, or
/// `error: memory allocation failed`. In each case, ends with a line feed.
impl Display for LoadError {
    ghost output = { λ error. Some (shown error) };

    fn fmt<W: Write>(&self, f: &mut Formatter<W>) -> fmt::Result {
        match self {
            LoadError::Memory(_) => f.write_str("error: memory allocation failed\n"),
            LoadError::Io(unreadable) => {
                let text = unreadable.text.as_str();
                write!(f, "error: {text}\n")
            }
            LoadError::Reported(reported) => write!(f, "{reported}"),
        }
    }
}

impl std::error::Error for LoadError {}

/// A value that was read from a file, with the warnings of the read.
#[derive(Debug, Drop)]
pub struct Loaded<T> {
    pub value: T,
    /// The reports of the warnings, and their text. Without warnings, both are empty.
    pub warnings: Reported,
}

/// A file's name, which reports print, and its text.
///
/// A value that is read from the file may borrow from its text. The errors of a read do not borrow from the text, so a
/// function can return them: `let file = TextFile::open(&rt, "settings.toml")?; file.read::<Settings>(alloc)`.
#[derive(Debug, Drop)]
pub struct TextFile {
    pub name: String,
    pub text: String,
}

impl TextFile {
    /// Reads the file with the path `name`. Fails with `LoadError::Io` if the file can't be read or is not valid UTF-8,
    /// and with `LoadError::Memory` if an allocation fails.
    pub fn open<R: Files + Alloc<A = Global>>(rt: &R, name: &str) -> Result<TextFile, LoadError>
        ensures name { IfOk result (λ file. string_bytes file.name ≡ name.now) }
        ensures refused { IfErr result (NotOpened name.now) }
    {
        // Toolchain: the bound `T: for<'de> Deserialize<'de>` is refused ("cannot state an item with a bound that binds
        // a lifetime"), so the text is returned, and `read` borrows from it.
        match fs::read_to_string(rt, name) {
            Ok(text) => Ok(TextFile {
                name: String::from_str(rt.alloc(), name)?,
                text,
            }),
            Err(error) => match error.kind() {
                ErrorKind::OutOfMemory => Err(LoadError::Memory(AllocError)),
                _ => Err(LoadError::Io(not_readable(rt.alloc(), name, error)?)),
            },
        }
    }

    /// Reads the text as a `T`, like `toml_span::from_str`. If the text is not valid TOML or does not fit the type,
    /// fails with `LoadError::Reported`, which has the reports of the errors of `from_str`, without colors. Fails with
    /// `LoadError::Memory` if an allocation fails.
    ///
    /// For a type that warns (`DeserializeWithWarnings`), use `read_with_warnings`.
    pub fn read<'de, T: Deserialize<'de>>(&'de self, alloc: Global) -> Result<T, LoadError>
        ensures read { IfOk result (λ x. IsReadAs T.reads (string_bytes self.now.text) (Ok x)) }
        ensures refused { IfErr result (NotLoaded T.reads (string_bytes self.now.name) (string_bytes self.now.text)) }
    {
        let (name, text) = (self.name.as_str(), self.text.as_str());
        match from_str::<T>(alloc, text) {
            Ok(read) => Ok(read),
            Err(stop) => match Reported::of(alloc, Style::Plain, stop, name, text) {
                Ok(reported) => Err(LoadError::Reported(reported)),
                Err(error) => Err(LoadError::Memory(error)),
            },
        }
    }

    /// Reads the text as a `T`, a type that warns, like `toml_span::from_str_with_warnings`. Returns the value with the
    /// reports of all warnings. If the text is not valid TOML or does not fit the type, fails with
    /// `LoadError::Reported`, which has the reports of the warnings and errors of the read, without colors. Fails with
    /// `LoadError::Memory` if an allocation fails.
    pub fn read_with_warnings<'de, T: DeserializeWithWarnings<'de>>(
        &'de self,
        alloc: Global,
    ) -> Result<Loaded<T>, LoadError>
        ensures read { IfOk result (λ loaded. IsLoaded T.reads (string_bytes self.now.name)
            (string_bytes self.now.text) loaded.value (map report_content loaded.warnings.reports.items)
            (string_bytes loaded.warnings.text)) }
        ensures refused { IfErr result (NotLoadedWithWarnings T.reads (string_bytes self.now.name)
            (string_bytes self.now.text)) }
    {
        let (name, text) = (self.name.as_str(), self.text.as_str());
        let mut warnings = Vec::new(alloc);
        let read = from_str_with_warnings::<T>(alloc, text, &mut warnings);
        let reported = shown_read(alloc, &read, warnings.as_slice(), name, text)?;
        match read {
            Ok(value) => Ok(Loaded {
                value,
                warnings: reported,
            }),
            Err(stop) => Err(failed(stop, reported)),
        }
    }
}

/// Returns the reports of all warnings of a read and, if the read failed, of its errors, with the text of all these
/// reports. Fails if the read failed with `Stop::Memory`.
fn shown_read<T>(
    alloc: Global,
    read: &Result<T, Stop<DeserError<'_>>>,
    warnings: &[Error<'_>],
    name: &str,
    text: &str,
) -> Result<Reported, AllocError>
    ensures { IfOk result (λ made. AreShown read.now (map content_of warnings.now) name.now text.now
        (map report_content made.reports.items) (string_bytes made.text)) }
{
    let reports = reports_of(alloc, read, warnings, text)?;
    let text = render_all(alloc, Style::Plain, reports.as_slice(), name, text)?;
    Ok(Reported { reports, text })
}

/// Returns the error of a read that failed with `stop`: `LoadError::Memory` if an allocation failed, otherwise
/// `LoadError::Reported` with `reported`.
fn failed(stop: Stop<DeserError<'_>>, reported: Reported) -> LoadError
    ensures { result ≡ spec.failed stop.entry reported }
{
    match stop {
        Stop::Fault(_errors) => LoadError::Reported(reported),
        Stop::Memory(error) => LoadError::Memory(error),
    }
}

/// Returns the error for the file `name`, which can't be read because of `error`.
fn not_readable(alloc: Global, name: &str, error: io::Error) -> Result<Unreadable, AllocError>
    ensures { IfOk result (IsUnreadable name.now) }
{
    let kind = error.kind();
    let cause = error.to_string(alloc)?;
    let text = unreadable_text(alloc, name, cause.as_str())?;
    let name = String::from_str(alloc, name)?;
    Ok(Unreadable { name, kind, text })
}

/// Returns the message for the file `name`, which can't be read because of `cause`.
#[tactic(auto, unfolding(crate::specs::Load::unreadable_text))]
fn unreadable_text(alloc: Global, name: &str, cause: &str) -> Result<String, AllocError>
    ensures { IfOk result (λ text. string_bytes text ≡ spec.unreadable_text name.now cause.now) }
{
    let mut text = String::from_str(alloc, "cannot read `")?;
    push_visible(&mut text, name)?;
    text.push_str("`: ")?;
    text.push_str(cause)?;
    Ok(text)
}
