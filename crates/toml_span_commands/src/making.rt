//! Makes edits in the text of a file.
ghost use Rattle.std.specs.Str.{IsValidUpTo};
ghost use Rattle.toml_span_commands.specs.Edits as spec;

use crate::changes::{Action, PathEdit};
use std::alloc::{AllocError, Global};
use std::borrow::CowStr;
use std::fmt::Write;
use toml_span::Stop;
use toml_span_check::encoding::{not_utf8, not_utf8_text};
use toml_span_check::every::check;
use toml_span_check::newer::{Version, version_reports, with_older_forms};
use toml_span_edit::{
    Change, Edit, EditError, Edits, Reason, path_segments, segment_names, string_text,
};
use toml_span_report::{Report, line_column};

/// The text before a value that makes it a document.
const PROBE: &str = "v = ";

/// Why edits were refused.
#[derive(Drop)]
pub(crate) struct Refusal {
    pub(crate) message: String,
    /// Whether the edit would be made if it were allowed to replace a table or array that headers or dotted keys
    /// define.
    pub(crate) is_table: bool,
}

/// A change with the segments of its paths.
#[derive(Drop)]
struct Located<'w> {
    change: PathEdit<'w>,
    path: Vec<CowStr<'w>>,
    /// The segments of the path to which a value is moved. Empty for other changes.
    target: Vec<CowStr<'w>>,
}

/// An edit that is prepared for `toml_span_edit`.
#[derive(Drop)]
struct Prepared<'w> {
    action: Action<'w>,
    /// Whether the edit sets the value even if headers or dotted keys define the old value.
    is_forced: bool,
    path: Vec<&'w str>,
    /// The segments of the path to which a value is moved. Empty for other edits.
    target: Vec<&'w str>,
    /// The value or the new name. Empty for edits that have neither.
    value: String,
}

/// Returns the segments of a path, or an empty list if the path can't be read. The caller checks paths with
/// `PathEdit::wrong_path`.
fn segments_of<'w>(alloc: Global, path: &'w str) -> Result<Vec<CowStr<'w>>, AllocError> {
    match path_segments(alloc, path) {
        Ok(segments) => Ok(segments),
        Err(stop) => {
            stop.fault()?;
            Ok(Vec::new(alloc))
        }
    }
}

/// How to make edits.
#[derive(Clone, Copy)]
pub(crate) struct Way<'w> {
    /// Whether values are the content of strings rather than TOML.
    pub(crate) is_string: bool,
    /// Whether a value may replace a table or array that headers or dotted keys define.
    pub(crate) replaces_tables: bool,
    /// The version of TOML in which values are written.
    pub(crate) version: Version,
    /// The name of the file.
    pub(crate) name: &'w str,
}

/// Returns a value in the version of TOML that the file has. Fails if this version can't have the value on as many
/// lines. A value that can't be read is returned as it is.
fn older_value(alloc: Global, value: &str, way: Way<'_>) -> Result<String, Stop<Refusal>> {
    let probe = format!(in alloc; "{PROBE}{value}")?;
    let made = with_older_forms(alloc, probe.as_str(), way.version, way.name)?;
    let text = made.text.as_str();
    let reports = version_reports(alloc, text, way.version, way.name)?;
    if let Some(report) = reports.first() {
        return Err(Stop::Fault(Refusal {
            message: String::from_str(alloc, report.message.as_str())?,
            is_table: false,
        }));
    }
    Ok(String::from_str(alloc, text.strip_prefix(PROBE).unwrap_or(value))?)
}

/// Returns an argument as TOML: the content of a string if `way.is_string` is set, otherwise a value. Fails as
/// `older_value` does.
fn value_of(alloc: Global, value: &str, way: Way<'_>) -> Result<String, Stop<Refusal>> {
    if way.is_string {
        Ok(string_text(alloc, value)?)
    } else {
        older_value(alloc, value, way)
    }
}

/// Splits the paths of changes into segments.
fn locate_all<'w>(alloc: Global, changes: &[PathEdit<'w>]) -> Result<Vec<Located<'w>>, AllocError> {
    let mut list = Vec::new(alloc);
    for change in changes {
        let target = match change.action {
            Action::Move(to) => segments_of(alloc, to)?,
            _ => Vec::new(alloc),
        };
        list.push(Located {
            change: *change,
            path: segments_of(alloc, change.path)?,
            target,
        })?;
    }
    Ok(list)
}

/// Prepares an edit for `toml_span_edit`. Fails as `value_of` does.
fn prepare<'w>(
    alloc: Global,
    located: &'w Located<'_>,
    way: Way<'_>,
) -> Result<Prepared<'w>, Stop<Refusal>> {
    let mut prepared = Prepared {
        action: located.change.action,
        is_forced: false,
        path: segment_names(alloc, located.path.as_slice())?,
        target: segment_names(alloc, located.target.as_slice())?,
        value: String::new(alloc),
    };
    match located.change.action {
        Action::Set(value) | Action::Append(value) | Action::Insert(value) => {
            prepared.value = value_of(alloc, value, way)?;
        }
        Action::Add(key, value) => {
            prepared.path.push(key)?;
            prepared.value = value_of(alloc, value, way)?;
        }
        Action::Rename(name) => prepared.value = String::from_str(alloc, name)?,
        Action::Move(_) | Action::Remove => {}
    }
    Ok(prepared)
}

/// Prepares edits for `toml_span_edit`. Fails as `value_of` does.
fn prepare_all<'w>(
    alloc: Global,
    changes: &'w [Located<'_>],
    way: Way<'_>,
) -> Result<Vec<Prepared<'w>>, Stop<Refusal>> {
    let mut list = Vec::new(alloc);
    for change in changes {
        list.push(prepare(alloc, change, way)?)?;
    }
    Ok(list)
}

/// Converts a prepared edit to an `Edit` of `toml_span_edit`.
fn edit_of<'w>(prepared: &'w Prepared<'w>) -> Edit<'w>
    ensures { spec.IsEditOf prepared.entry.now result }
{
    let value = prepared.value.as_str();
    let change = match (prepared.action, prepared.is_forced) {
        (Action::Set(_), false) => Change::SetOrAdd(value),
        (Action::Set(_), true) => Change::Replace(value),
        (Action::Rename(_), _) => Change::Rename(value),
        (Action::Remove, _) => Change::Remove,
        (Action::Add(_, _), _) => Change::Add(value),
        (Action::Append(_), _) => Change::Append(value),
        (Action::Insert(_), _) => Change::Insert(value),
        (Action::Move(_), _) => Change::MoveTo(prepared.target.as_slice()),
    };
    Edit {
        path: prepared.path.as_slice(),
        change,
    }
}

/// Makes prepared edits, and returns the new text. Fails with the position of the first refused edit and the reason.
fn finished<'w>(
    alloc: Global,
    text: &'w str,
    list: &'w [Prepared<'w>],
) -> Result<String, Stop<EditError>> {
    let mut edits = Edits::new(alloc, text);
    for prepared in list {
        edits.push(edit_of(prepared))?;
    }
    edits.finish()
}

/// Returns whether the edit that was refused with `error` is a `Set` at a table or array that headers or dotted keys
/// define.
fn sets_table(list: &[Prepared<'_>], error: &EditError) -> bool {
    match (&error.reason, list.get(error.edit)) {
        (Reason::NotLiteral, Some(prepared)) => {
            matches!(prepared.action, Action::Set(_)) && !prepared.is_forced
        }
        _ => false,
    }
}

/// Returns the offset at which the first primary label of a report begins, or 0 if there is none.
fn main_start(report: &Report) -> usize {
    for label in &report.labels {
        if label.primary {
            return label.span.start;
        }
    }
    0
}

/// Returns that a text is not valid TOML, with its first error as `check` reports it.
fn invalid(alloc: Global, text: &str) -> Result<String, AllocError> {
    let mut message = String::from_str(alloc, "the file is not valid TOML")?;
    if let Some(report) = check(alloc, text)?.first() {
        let (line, column) = line_column(text, main_start(report));
        write!(message, ": {line}:{column}: {}", report.message)?;
    }
    Ok(message)
}

/// Returns whether the message about the edit that was refused with `error` names its path: unless it is about the new
/// value, or may be about the new name or the target.
fn names_path(list: &[Prepared<'_>], error: &EditError) -> bool {
    match (&error.reason, list.get(error.edit)) {
        (Reason::Nothing, _) => true,
        (Reason::NoValue(_), _) => false,
        (_, Some(prepared)) => !matches!(prepared.action, Action::Move(_) | Action::Rename(_)),
        (_, None) => false,
    }
}

/// Returns why an edit of `text` in `list` was refused. If there are several edits, the message begins with the number
/// of the edit.
fn refusal_of(
    alloc: Global,
    text: &str,
    list: &[Prepared<'_>],
    error: &EditError,
) -> Result<Refusal, AllocError> {
    let mut message = String::new(alloc);
    if matches!(error.reason, Reason::InvalidDocument(_)) {
        message = invalid(alloc, text)?;
    } else {
        if list.len() > 1 {
            write!(message, "edit {}: ", error.edit.saturating_add(1))?;
        }
        if names_path(list, error) {
            write!(message, "{error}")?;
        } else {
            write!(message, "{}", error.reason)?;
        }
    }
    Ok(Refusal {
        message,
        is_table: sets_table(list, error),
    })
}

/// Makes prepared edits, and returns the new text. If `replaces_tables`, an edit that sets a value may replace a table
/// or array that headers or dotted keys define. Fails if an edit is refused.
fn made(
    alloc: Global,
    text: &str,
    mut list: Vec<Prepared<'_>>,
    replaces_tables: bool,
) -> Result<String, Stop<Refusal>> {
    // Each edit is changed at most once.
    for _ in 0..list.len() {
        let error = match finished(alloc, text, list.as_slice()) {
            Ok(new) => return Ok(new),
            Err(stop) => stop.fault()?,
        };
        if !replaces_tables || !sets_table(list.as_slice(), &error) {
            return Err(Stop::Fault(refusal_of(alloc, text, list.as_slice(), &error)?));
        }
        if let Some(prepared) = list.as_mut_slice().get_mut(error.edit) {
            prepared.is_forced = true;
        }
    }
    match finished(alloc, text, list.as_slice()) {
        Ok(new) => Ok(new),
        Err(stop) => {
            let error = stop.fault()?;
            Err(Stop::Fault(refusal_of(alloc, text, list.as_slice(), &error)?))
        }
    }
}

/// Returns the message that a file is not valid UTF-8. The first invalid byte is at the byte offset `at`. The message
/// has the line and column of this offset, counted from 1.
fn not_text(alloc: Global, bytes: &[u8], at: usize) -> Result<String, AllocError>
    requires { IsValidUpTo bytes.now at }
{
    let (_, text) = not_utf8(alloc, bytes, at)?;
    let (line, column) = line_column(text, at);
    let message = not_utf8_text(alloc, bytes, at)?;
    format!(in alloc; "{message} (line {line}, column {column})")
}

/// Makes edits in the bytes of a file, and returns the new text. Fails if the file is not valid UTF-8 or an edit is
/// refused.
pub(crate) fn new_text(
    alloc: Global,
    bytes: &[u8],
    changes: &[PathEdit<'_>],
    way: Way<'_>,
) -> Result<String, Stop<Refusal>> {
    let text = match str::from_utf8(bytes) {
        Ok(text) => text,
        Err(error) => {
            return Err(Stop::Fault(Refusal {
                message: not_text(alloc, bytes, error.valid_up_to())?,
                is_table: false,
            }));
        }
    };
    let located = locate_all(alloc, changes)?;
    let list = prepare_all(alloc, located.as_slice(), way)?;
    made(alloc, text, list, way.replaces_tables)
}
