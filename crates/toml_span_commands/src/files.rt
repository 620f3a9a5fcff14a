//! Reads and replaces single files, with options of the command line, and reports files that were not edited.
ghost use Rattle.std.specs.Prelude.{◌≡◌, ◌≤◌, IfOk, is_none, is_ok};
ghost use Rattle.toml_span_commands.specs.Files as spec;

use crate::answers::{Answer, failed};
use std::alloc::{AllocError, Global};
use std::io::ErrorKind;
use toml_span_files::{Failure, Options, put_file};

/// Stores an option that says how to write a file, and that has no value: `--force`, `--change-owner` or `--in-place`.
/// Returns whether `word` is one of these.
#[tactic(auto, unfolding(crate::specs::Files::with_write))]
pub(crate) fn set_write_option(options: &mut Options, word: &str) -> bool
    ensures { (options.new, result) ≡ spec.with_write options.old word.now }
{
    match word {
        "--force" => options.is_forced = true,
        "--change-owner" => options.may_change_owner = true,
        "--in-place" => options.is_in_place = true,
        _ => return false,
    }
    true
}

/// Returns the start of the message about a file that was not edited, and the exit status.
fn beginning(failure: &Failure) -> (&'static str, u8)
    ensures small { result.1 ≤ 3 }
    ensures status { result.1 ≡ spec.failure_status failure.now }
{
    match failure {
        Failure::Unread(_) | Failure::Directory => ("error: cannot read ", 2),
        Failure::TooLong | Failure::ResultTooLong => ("error: cannot edit ", 1),
        _ => ("error: cannot write ", 3),
    }
}

/// Returns the reason why a file was not edited.
fn reason_of(alloc: Global, failure: &Failure) -> Result<String, AllocError> {
    match failure {
        Failure::Unread(error) => match error.kind() {
            ErrorKind::NotFound => String::from_str(alloc, "no such file"),
            ErrorKind::PermissionDenied => String::from_str(alloc, "permission denied"),
            _ => error.to_string(alloc),
        },
        _ => failure.to_string(alloc),
    }
}

/// Returns a line of help on what to do after a failure of an edit with these options, or an empty text if there is
/// nothing to say. `has_wait` says whether the command has the option `--wait`.
fn hint(failure: &Failure, options: Options, has_wait: bool) -> &'static str {
    match failure {
        Failure::Taken(_) => {
            "help: the result is first written to a file of that name; rename or remove yours\n"
        }
        Failure::ReadOnly => "help: `--force` edits it all the same\n",
        Failure::Linked => {
            "help: `--in-place` writes into the file itself, which keeps its names\n"
        }
        Failure::Owner(_) => {
            "help: `--in-place` keeps them; `--change-owner` edits the file without keeping them\n"
        }
        Failure::Busy(_) if has_wait => "help: `--wait SECONDS` waits longer\n",
        Failure::Unwritten(error) => match error.kind() {
            ErrorKind::PermissionDenied | ErrorKind::ResourceBusy if !options.is_in_place => {
                "help: `--in-place` writes into the file itself, not beside it\n"
            }
            _ => "",
        },
        _ => "",
    }
}

/// Returns the answer for a file that was not edited with these options. The answer also says what helps, if anything
/// does. `has_wait` says whether the command has the option `--wait`. Fails if `failure` is `Memory`.
pub(crate) fn unedited(
    alloc: Global,
    file: &str,
    failure: &Failure,
    options: Options,
    has_wait: bool,
) -> Result<Answer, AllocError>
    ensures { IfOk result (λ answer. answer.status ≡ spec.failure_status failure.now) }
{
    if let Failure::Memory = failure {
        return Err(AllocError);
    }
    let (front, status) = beginning(failure);
    let reason = reason_of(alloc, failure)?;
    let mut answer = failed(alloc, front, file, reason.as_str(), status)?;
    answer.errors.push_str(hint(failure, options, has_wait))?;
    Ok(answer)
}

/// Returns `None` if the file `name` was written (`done`), otherwise the answer for a file that was not edited with
/// these options. `has_wait` says whether the command has the option `--wait`. Fails if an allocation fails.
fn unwritten(
    alloc: Global,
    name: &str,
    options: Options,
    has_wait: bool,
    done: Result<(), Failure>,
) -> Result<Option<Answer>, AllocError>
    ensures { IfOk result (λ answer. is_none answer ≡ is_ok done) }
{
    match done {
        Ok(()) => Ok(None),
        Err(failure) => Ok(Some(unedited(alloc, name, &failure, options, has_wait)?)),
    }
}

/// Replaces the content of the file `name` with `text`, if the content is still `bytes`. Returns `None` on success,
/// otherwise the answer for a file that was not written. `has_wait` says whether the command has the option `--wait`.
pub(crate) fn replace(
    alloc: Global,
    rt: &HostRuntime,
    name: &str,
    options: Options,
    has_wait: bool,
    bytes: &[u8],
    text: &str,
) -> Result<Option<Answer>, AllocError> {
    let done = put_file(rt, name, options, bytes, text);
    unwritten(alloc, name, options, has_wait, done)
}
