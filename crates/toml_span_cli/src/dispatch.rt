//! Carries out the command that the arguments name.
ghost use Rattle.std.specs.Prelude.{◌≡◌, ◌≤◌, IfOk, false, map, string_bytes};
ghost use Rattle.toml_span_cli.specs.Dispatch.{Dispatches, Performs};
ghost use Rattle.toml_span_cli.specs.Dispatch as spec;

use crate::lsp::lsp;
use std::alloc::{AllocError, Global};
use std::fs;
use toml_span_check::input::Host;
use toml_span_commands::answering::answer;
use toml_span_commands::check::check;
use toml_span_commands::colours::Screen;
use toml_span_commands::commands::{Command, command_named};
use toml_span_commands::help::{HELP, VERSION};
use toml_span_commands::helping::say_unknown;
use toml_span_commands::say::say;
use toml_span_commands::show::show;
use toml_span_commands::start::get;
use toml_span_commands::words::{is_file, is_help, is_version};
use toml_span_lines::sink::Sink;

/// The request that the first argument makes.
#[derive(Clone, Copy)]
enum Request {
    /// A command.
    Command(Command),
    /// A check of files: `is_file` holds for the argument, or there is a file or directory with this name.
    Files,
    /// The help of the program.
    Help,
    /// The version of the program.
    Version,
    /// An unknown request: the argument makes none of the other requests.
    Unknown,
}

/// Returns the request that the first argument, `word`, makes. `exists` says whether there is a file or directory with
/// this name.
#[tactic(auto, unfolding(crate::specs::Dispatch::request_of))]
fn request_of(word: &str, exists: bool) -> Request
    ensures { result ≡ spec.request_of word.now exists }
{
    if is_help(word) {
        return Request::Help;
    }
    if is_version(word) {
        return Request::Version;
    }
    match command_named(word) {
        Some(command) => Request::Command(command),
        None if is_file(word) || exists => Request::Files,
        None => Request::Unknown,
    }
}

/// Carries out a command, and returns the exit status. `words` are the name of the command, or of the program, and the
/// arguments.
fn perform<O: Sink, E: Sink>(
    alloc: Global,
    command: Command,
    words: &[String],
    screen: Screen,
    host: &mut Host,
    out: &mut O,
    errors: &mut E,
) -> Result<u8, AllocError>
    requires out { O.failed out.old ≡ false }
    requires errors { E.failed errors.old ≡ false }
    ensures { IfOk result (λ status. Performs command (map (λ w. string_bytes w) words.now) screen
        (O.contents out.old) (O.contents out.new) (O.failed out.new)
        (E.contents errors.old) (E.contents errors.new) (E.failed errors.new) status) }
{
    match command {
        Command::Check => check(alloc, words, screen, host, out, errors),
        Command::Get => Ok(get(alloc, words, screen, host, out, errors)),
        Command::Show => show(alloc, words, host, out, errors),
        Command::Lsp => lsp(alloc, words, host, out, errors),
        Command::Fmt
        | Command::Set
        | Command::Rename
        | Command::Remove
        | Command::Add
        | Command::Append
        | Command::Insert
        | Command::Move
        | Command::Edit
        | Command::Config
        | Command::Explain
        | Command::Schema
        | Command::Help => { answer(alloc, command, words, host, out, errors) }
    }
}

/// Carries out the command that the arguments name. Without arguments, prints the help of the program to `errors`.
/// `words` are the name of the program and its arguments.
///
/// Returns the exit status: 0 for success; 1 for an error in a file, a path of `get` without a value, a refused edit,
/// or a file that `fmt` can't format, or would change with `--check` or `--diff`; 2 if a file can't be read, its schema
/// can't be used, or the arguments are wrong or missing; 3 if a write fails. `show` also returns 2 for a file that is
/// not valid UTF-8 or is larger than 16 MiB. For `lsp`, see `toml_span_lsp::Ended`. If an allocation fails, returns the
/// status 4 or an `AllocError`.
pub(crate) fn dispatch<O: Sink, E: Sink>(
    alloc: Global,
    words: &[String],
    screen: Screen,
    host: &mut Host,
    out: &mut O,
    errors: &mut E,
) -> Result<u8, AllocError>
    requires out { O.failed out.old ≡ false }
    requires errors { E.failed errors.old ≡ false }
    ensures { IfOk result (λ status. Dispatches (map (λ w. string_bytes w) words.now) screen
        (O.contents out.old) (O.contents out.new) (O.failed out.new)
        (E.contents errors.old) (E.contents errors.new) (E.failed errors.new) status) }
{
    let [_, word, ..] = words else {
        return Ok(say(errors, HELP, 2));
    };
    let word = word.as_str();
    match request_of(word, fs::symlink_metadata(&host.rt, word).is_ok()) {
        Request::Command(command) => {
            let words = &words[1..];
            perform(alloc, command, words, screen, host, out, errors)
        }
        Request::Files => {
            let command = Command::Check;
            perform(alloc, command, words, screen, host, out, errors)
        }
        Request::Help => Ok(say(out, HELP, 0)),
        Request::Version => Ok(say(out, VERSION, 0)),
        Request::Unknown => say_unknown(alloc, word, errors),
    }
}
