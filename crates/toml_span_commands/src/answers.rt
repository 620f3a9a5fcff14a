//! The output and the exit status of a command that prints only at its end.
ghost use Rattle.std.specs.Prelude.{◌≡◌, ◌≤◌, IfOk, [], false, string_bytes};
ghost use Rattle.toml_span_commands.specs.Say.{Gives};
ghost use Rattle.toml_span_lex.specs.declared.stop.Stop.TheVariants as stops;

use crate::commands::{Command, edits, help_of};
use crate::help::EDITING;
use crate::say::{misuse_text, quoted_word, say};
use std::alloc::{AllocError, Global};
use toml_span::Stop;
use toml_span_lines::sink::Sink;
use toml_span_report::visible::push_visible;

/// The texts that a command prints on standard output (`out`) and on standard error (`errors`), and its exit status.
#[derive(Drop)]
pub(crate) struct Answer {
    pub(crate) out: String,
    pub(crate) errors: String,
    pub(crate) status: u8,
    ghost small: { status ≤ 4 },
}

/// Returns the answer of a command that succeeds and prints `out`.
pub(crate) fn printed(alloc: Global, out: String) -> Answer
    ensures prints { result.out ≡ out }
    ensures silent { string_bytes result.errors ≡ [] }
    ensures succeeds { result.status ≡ 0 }
{
    Answer {
        out,
        errors: String::new(alloc),
        status: 0,
    }
}

/// Returns the answer of a command that fails with this status. Its line for standard error consists of `front`, the
/// name of the file in backticks, a colon, and `reason`.
pub(crate) fn failed(
    alloc: Global,
    front: &str,
    file: &str,
    reason: &str,
    status: u8,
) -> Result<Answer, AllocError>
    requires { status ≤ 4 }
    ensures { IfOk result (λ answer. answer.status ≡ status) }
{
    let mut errors = String::from_str(alloc, front)?;
    errors.push_str(quoted_word(alloc, file)?.as_str())?;
    errors.push_str(": ")?;
    push_visible(&mut errors, reason)?;
    errors.push('\n')?;
    Ok(warned(alloc, errors, status))
}

/// Returns the answer of a command that prints its help.
pub(crate) fn helped(alloc: Global, command: Command) -> Result<Answer, AllocError>
    ensures { IfOk result (λ answer. answer.status ≡ 0) }
{
    let mut text = String::from_str(alloc, help_of(command))?;
    if edits(command) {
        text.push_str(EDITING)?;
    }
    Ok(printed(alloc, text))
}

/// Returns the answer of a command that fails with this status, and prints `errors` on standard error.
pub(crate) fn warned(alloc: Global, errors: String, status: u8) -> Answer
    requires { status ≤ 4 }
    ensures says { result.errors ≡ errors }
    ensures fails { result.status ≡ status }
{
    Answer {
        out: String::new(alloc),
        errors,
        status,
    }
}

/// Returns the answer for wrong arguments. `message` says what is wrong.
pub(crate) fn misuse(alloc: Global, command: Command, message: &str) -> Result<Answer, AllocError>
    ensures { IfOk result (λ answer. answer.status ≡ 2) }
{
    Ok(warned(alloc, misuse_text(alloc, command, message)?, 2))
}

/// Returns the answer for wrong arguments. `stop` has the message that says what is wrong. Fails if `stop` is
/// `Stop::Memory`.
pub(crate) fn misused(
    alloc: Global,
    command: Command,
    stop: Stop<String>,
) -> Result<Answer, AllocError>
    ensures { IfOk result (λ answer. answer.status ≡ 2) }
{
    let message = stop.fault()?;
    misuse(alloc, command, message.as_str())
}

/// Returns the answer of a command that fails with status 2. `stop` has the message for standard error. Fails if `stop`
/// is `Stop::Memory`.
pub(crate) fn stopped(alloc: Global, stop: Stop<String>) -> Result<Answer, AllocError>
    ensures says { IfOk result (λ answer. stop ≡ stops.Fault answer.errors) }
    ensures fails { IfOk result (λ answer. answer.status ≡ 2) }
{
    Ok(warned(alloc, stop.fault()?, 2))
}

/// Prints an answer. Returns its status, or 3 if a write fails.
pub(crate) fn give<O: Sink, E: Sink>(answer: &Answer, out: &mut O, errors: &mut E) -> u8
    requires out { O.failed out.old ≡ false }
    requires errors { E.failed errors.old ≡ false }
    ensures small { result ≤ 4 }
    ensures gives { Gives (string_bytes answer.now.out) (string_bytes answer.now.errors) answer.now.status
        (O.contents out.old) (O.contents out.new) (O.failed out.new)
        (E.contents errors.old) (E.contents errors.new) (E.failed errors.new) result }
{
    match say(errors, answer.errors.as_str(), 0) {
        0 => say(out, answer.out.as_str(), answer.status),
        _ => 3,
    }
}
