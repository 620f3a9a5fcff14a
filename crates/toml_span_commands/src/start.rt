//! Carries out the commands `check` and `get`.
ghost use Rattle.std.specs.Prelude.{◌≡◌, IfOk, List, ℕ, None, false, map, string_bytes};
ghost use Rattle.clap.specs.Values.{kind_of};
ghost use Rattle.toml_span_report.specs.Visible.{visible_lines};
ghost use Rattle.toml_span_check.specs.Schemas.{no_schema};
ghost use Rattle.toml_span_commands.specs.Start.{Refuses, RunsWith, Starts};
ghost use Rattle.toml_span_commands.specs.Start as spec;
ghost use Rattle.toml_span_commands.specs.declared.options.Query.TheVariants as queries;

use crate::colours::Screen;
use crate::commands::Command;
use crate::help::{CHECK, GET, VERSION};
use crate::options::{Query, options_of};
use crate::paths::wrong_path;
use crate::say::{misuse_text, say, usage_text};
use clap::Error;
use clap::error::ErrorKind;
use std::alloc::{AllocError, Global};
use toml_span_check::input::{Host, Inputs};
use toml_span_check::request::Request;
use toml_span_check::run::run;
use toml_span_check::schemas::{NoSchemas, Schemas};
use toml_span_check::words::shown_word;
use toml_span_lines::sink::Sink;
use toml_span_report::visible::{visible, visible_lines};

/// Returns the help text of a command.
fn help_of(query: Query) -> &'static str
    ensures { result.now ≡ spec.help_of query }
{
    match query {
        Query::Check => CHECK,
        Query::Get => GET,
    }
}

/// Returns what clap's message about wrong arguments says is wrong, without the usage after it.
fn problem_of(message: &str) -> &str {
    let message = message.strip_prefix("error: ").unwrap_or(message);
    let end = match message.split_once("\n\nUsage:") {
        Some((front, _)) => front,
        None => message,
    };
    match end.split_once("\n\nFor more") {
        Some((front, _)) => front,
        None => end,
    }
}

/// Returns the message about wrong arguments. `words` are the arguments, escaped for a terminal. If the escaped
/// arguments are right, the mistake is that the path is not valid UTF-8.
fn message_of(alloc: Global, query: Query, words: &[String]) -> Result<String, AllocError> {
    match options_of(alloc, query, words, Screen::PLAIN) {
        Ok(options) => {
            let path = options.request.pointer;
            format!(in alloc; "error: the path `{path}` is not valid UTF-8\n")
        }
        Err(error) => {
            if error.kind() == ErrorKind::OutOfMemory {
                return Err(AllocError);
            }
            let message = error.to_string(alloc)?;
            let problem = problem_of(message.as_str());
            // clap writes dots after `<PATH>`, but files may come before the path.
            let problem = match problem.split_once("<PATH>...") {
                Some((front, rest)) => format!(in alloc; "{front}<PATH>{rest}")?,
                None => String::from_str(alloc, problem)?,
            };
            let command = match query {
                Query::Check => Command::Check,
                Query::Get => Command::Get,
            };
            usage_text(alloc, command, problem.as_str())
        }
    }
}

/// Returns the message about wrong arguments, escaped for a terminal.
fn mistake(alloc: Global, query: Query, words: &[String]) -> Result<String, AllocError>
    ensures { IfOk result (λ out. (message : List ℕ) × (string_bytes out ≡ visible_lines message)) }
{
    let mut shown = Vec::new(alloc);
    for word in words {
        let word = shown_word(alloc, word.as_str())?;
        shown.push(visible(alloc, word.as_str())?)?;
    }
    let message = message_of(alloc, query, shown.as_slice())?;
    visible_lines(alloc, message.as_str())
}

/// Returns the message about a path of `get` that can't be read, escaped for a terminal. Returns `None` if the path can
/// be read.
fn path_mistake(alloc: Global, path: &str) -> Result<Option<String>, AllocError>
    ensures { IfOk result (spec.SaysOfPath path.now) }
{
    match wrong_path(alloc, path)? {
        Some(message) => Ok(Some(misuse_text(alloc, Command::Get, message.as_str())?)),
        None => Ok(None),
    }
}

/// Prints the help or the version if the arguments ask for one of them, otherwise the message about wrong arguments.
/// `error` is clap's error for `words`. Returns the exit status: 0 for the help or version, 2 for wrong arguments, 3 if
/// a write fails, 4 if an allocation fails.
pub(crate) fn refuse<O: Sink, E: Sink>(
    alloc: Global,
    query: Query,
    words: &[String],
    error: &Error,
    out: &mut O,
    errors: &mut E,
) -> u8
    requires out { O.failed out.old ≡ false }
    requires errors { E.failed errors.old ≡ false }
    ensures { Refuses query (kind_of error.now) (O.contents out.old) (O.contents out.new) (O.failed out.new)
        (E.contents errors.old) (E.contents errors.new) (E.failed errors.new) result }
{
    match error.kind() {
        ErrorKind::OutOfMemory => 4,
        ErrorKind::DisplayHelp => say(out, help_of(query), 0),
        ErrorKind::DisplayVersion => say(out, VERSION, 0),
        _ => match mistake(alloc, query, words) {
            Ok(message) => say(errors, message.as_str(), 2),
            Err(_) => 4,
        },
    }
}

/// Carries out `check` or `get` with a request: calls `toml_span_check::run::run`, and returns its exit status. If the
/// path in `request` can't be read, only prints why, with status 2, or 3 if the write fails. The status is 4 if an
/// allocation fails.
pub(crate) fn run_with<I: Inputs, S: Schemas, O: Sink, E: Sink>(
    alloc: Global,
    request: &Request<'_>,
    inputs: &mut I,
    schemas: &mut S,
    out: &mut O,
    errors: &mut E,
) -> u8
    requires out { O.failed out.old ≡ false }
    requires errors { E.failed errors.old ≡ false }
    ensures { RunsWith S.says request.now (I.log inputs.old) (I.log inputs.new)
        (O.contents out.old) (O.contents out.new) (O.failed out.new)
        (E.contents errors.old) (E.contents errors.new) (E.failed errors.new) result }
{
    match path_mistake(alloc, request.pointer) {
        Ok(None) => run(alloc, request, inputs, schemas, out, errors),
        Ok(Some(message)) => say(errors, message.as_str(), 2),
        Err(_) => 4,
    }
}

/// Carries out `get`. If the arguments are wrong, or ask for the help or version, returns the status of `refuse`.
/// Otherwise returns that of `run_with`. `words` are the name of the command and its arguments.
pub fn get<O: Sink, E: Sink>(
    alloc: Global,
    words: &[String],
    screen: Screen,
    host: &mut Host,
    out: &mut O,
    errors: &mut E,
) -> u8
    requires out { O.failed out.old ≡ false }
    requires errors { E.failed errors.old ≡ false }
    ensures { Starts no_schema queries.Get (map (λ w. string_bytes w) words.now) screen None None
        (O.contents out.old) (O.contents out.new) (O.failed out.new)
        (E.contents errors.old) (E.contents errors.new) (E.failed errors.new) result }
{
    match options_of(alloc, Query::Get, words, screen) {
        Ok(options) => run_with(alloc, &options.request, host, &mut NoSchemas, out, errors),
        Err(error) => refuse(alloc, Query::Get, words, &error, out, errors),
    }
}
