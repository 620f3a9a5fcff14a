//! Carries out the commands that print only at their end.
ghost use Rattle.std.specs.Prelude.{◌≡◌, ◌≤◌, IfOk, false};

use crate::answers::give;
use crate::commands::Command;
use crate::config::config;
use crate::edit::edit;
use crate::explain::explain;
use crate::fmt::fmt;
use crate::helping::help;
use crate::schema::schema;
use std::alloc::{AllocError, Global};
use toml_span_check::input::Host;
use toml_span_lines::sink::Sink;

/// Carries out `fmt`, `config`, `explain`, `schema`, `help` or a command that edits a file. `words` are the name of the
/// command and its arguments. Returns the exit status.
pub fn answer<O: Sink, E: Sink>(
    alloc: Global,
    command: Command,
    words: &[String],
    host: &mut Host,
    out: &mut O,
    errors: &mut E,
) -> Result<u8, AllocError>
    requires out { O.failed out.old ≡ false }
    requires errors { E.failed errors.old ≡ false }
    ensures { IfOk result (λ status. status ≤ 4) }
{
    let words = words.get(1..).unwrap_or(&[]);
    let answer = match command {
        Command::Fmt => fmt(alloc, words, host)?,
        Command::Config => config(alloc, words, host)?,
        Command::Explain => explain(alloc, words)?,
        Command::Schema => schema(alloc, words, host)?,
        Command::Help => help(alloc, words)?,
        _ => edit(alloc, command, words, host)?,
    };
    Ok(give(&answer, out, errors))
}
