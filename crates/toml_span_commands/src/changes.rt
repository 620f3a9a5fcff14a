//! The edits that arguments and scripts describe.
ghost use Rattle.std.specs.Prelude.{◌≡◌, IfOk, length, vec_len};
ghost use Rattle.toml_span_commands.specs.Edits as spec;

use crate::commands::{Command, command_named};
use crate::paths::wrong_path;
use std::alloc::{AllocError, Global};
use toml_span::Stop;
use toml_span_report::visible::visible;

/// An edit at a path.
#[derive(Clone, Copy)]
pub(crate) struct PathEdit<'w> {
    pub(crate) path: &'w str,
    pub(crate) action: Action<'w>,
}

/// The action of an edit.
#[derive(Clone, Copy)]
pub(crate) enum Action<'w> {
    /// Replaces the value at the path with this value. Adds this value if the path has none.
    Set(&'w str),
    /// Renames the key at the path to this name.
    Rename(&'w str),
    /// Removes the value at the path with its key, or the element at the path.
    Remove,
    /// Adds this key with this value to the table at the path.
    Add(&'w str, &'w str),
    /// Adds this value at the end of the array at the path. Adds the array if the path has no value.
    Append(&'w str),
    /// Inserts this value into an array, at the position with which the path ends.
    Insert(&'w str),
    /// Moves the value at the path to this path.
    Move(&'w str),
}

/// Returns the edit that a command makes. `words` are the arguments after the name of the file. Returns `None` if their
/// number is wrong, or if `command` is not a command that makes exactly one edit.
pub(crate) fn change_of<'w>(command: Command, words: &[&'w str]) -> Option<PathEdit<'w>>
    ensures { result ≡ spec.change_of command words.now }
{
    let [path, rest @ ..] = words else {
        return None;
    };
    let action = match (command, rest) {
        (Command::Set, [value]) => Action::Set(*value),
        (Command::Rename, [name]) => Action::Rename(*name),
        (Command::Remove, []) => Action::Remove,
        (Command::Add, [key, value]) => Action::Add(*key, *value),
        (Command::Append, [value]) => Action::Append(*value),
        (Command::Insert, [value]) => Action::Insert(*value),
        (Command::Move, [to]) => Action::Move(*to),
        _ => return None,
    };
    Some(PathEdit {
        path: *path,
        action,
    })
}

impl<'w> PathEdit<'w> {
    /// Returns the message about the first path of the edit that can't be read, or `None` if all paths can be read.
    pub(crate) fn wrong_path(&self, alloc: Global) -> Result<Option<String>, AllocError> {
        match (wrong_path(alloc, self.path)?, self.action) {
            (None, Action::Move(to)) => wrong_path(alloc, to),
            (wrong, _) => Ok(wrong),
        }
    }
}

/// Splits a line after the first word, which may be in quotes. Returns the word without quotes, and the rest of the
/// line without the blanks at its start. Returns `None` if the line is blank, or if the quotes of the word are not
/// closed. Quotes have no escapes.
fn first_word(line: &str) -> Option<(&str, &str)> {
    let line = line.trim_start();
    if line.is_empty() {
        return None;
    }
    let (word, rest) = match (line.strip_prefix('\''), line.strip_prefix('"')) {
        (Some(quoted), _) => quoted.split_once('\'')?,
        (_, Some(quoted)) => quoted.split_once('"')?,
        _ => match line.split_once([' ', '\t']) {
            Some(parts) => parts,
            None => (line, ""),
        },
    };
    Some((word, rest.trim_start()))
}

/// Parses a line of a script: a command and its arguments, separated by blanks. A value is the rest of the line.
/// Returns `None` if the line is not an edit.
fn line_change(line: &str) -> Option<PathEdit<'_>> {
    let (name, rest) = first_word(line)?;
    let command = command_named(name)?;
    let (path, rest) = first_word(rest)?;
    match command {
        Command::Remove => change_of(command, &[path]).filter(|_| rest.is_empty()),
        Command::Add => {
            let (key, value) = first_word(rest)?;
            change_of(command, &[path, key, value])
        }
        Command::Rename | Command::Move => {
            let (to, rest) = first_word(rest)?;
            change_of(command, &[path, to]).filter(|_| rest.is_empty())
        }
        _ => change_of(command, &[path, rest]),
    }
}

/// Returns the message about a line that is not an edit.
fn no_edit(alloc: Global, line: &str) -> Result<String, AllocError> {
    match first_word(line) {
        Some((name, _)) if command_named(name).is_none() => {
            let name = visible(alloc, name)?;
            format!(in alloc;
                "unknown edit `{name}`: use set, add, append, insert, rename, move or remove"
            )
        }
        _ => String::from_str(alloc, "it must be an edit, as in `set package.name \"x\"`"),
    }
}

/// Parses an edit in a script or in `-e`. Fails with a message if the edit is wrong. The message begins with `front`
/// and the number `at`, as in `line 2`.
fn checked<'w>(
    alloc: Global,
    front: &str,
    at: usize,
    line: &'w str,
) -> Result<PathEdit<'w>, Stop<String>> {
    let reason = match line_change(line.trim()) {
        Some(change) => match change.wrong_path(alloc)? {
            Some(reason) => reason,
            None => return Ok(change),
        },
        None => no_edit(alloc, line.trim())?,
    };
    Err(Stop::Fault(format!(in alloc; "{front} {at}: {reason}")?))
}

/// Parses the values of the options `-e`. Fails with a message if an edit is wrong.
pub(crate) fn option_changes<'w>(
    alloc: Global,
    edits: &[&'w str],
) -> Result<Vec<PathEdit<'w>>, Stop<String>>
    ensures { IfOk result (λ changes. vec_len changes ≡ length edits.now) }
{
    let mut changes = Vec::new(alloc);
    for (at, edit) in edits.iter().enumerate() {
        changes.push(checked(alloc, "edit", at.saturating_add(1), *edit)?)?;
    }
    Ok(changes)
}

/// Parses a script with one edit per line. Ignores blanks at the start of a line, blank lines, and lines that begin
/// with `#`. Fails with a message if an edit is wrong.
pub(crate) fn script_changes(
    alloc: Global,
    script: &str,
) -> Result<Vec<PathEdit<'_>>, Stop<String>> {
    let mut changes = Vec::new(alloc);
    for (at, line) in script.lines().enumerate() {
        let line = line.trim();
        if !line.is_empty() && !line.starts_with('#') {
            changes.push(checked(alloc, "line", at.saturating_add(1), line)?)?;
        }
    }
    Ok(changes)
}
