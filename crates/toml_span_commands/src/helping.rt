//! The command `help`, and the message about an unknown command.
ghost use Rattle.std.specs.Prelude.{◌≡◌, IfOk, false};
ghost use Rattle.toml_span_commands.specs.Say.{Warns};

use crate::answers::{Answer, helped, misuse, warned};
use crate::commands::{Command, NAMES, command_named};
use crate::say::{quoted_word, say, similar_line};
use crate::words::is_help;
use std::alloc::{AllocError, Global};
use toml_span_lines::sink::Sink;

/// Returns the line that names the command that a word probably means, such as a command of other programs, or an empty
/// text if there is none.
fn suggestion(alloc: Global, word: &str) -> Result<String, AllocError> {
    let name = match word {
        "format" | "reformat" => "fmt",
        "lint" | "validate" | "verify" => "check",
        "query" | "read" | "print" => "get",
        "update" | "replace" => "set",
        "delete" | "rm" | "unset" => "remove",
        "mv" => "move",
        "settings" => "config",
        "server" => "lsp",
        _ => return similar_line(alloc, "command", word, &NAMES),
    };
    format!(in alloc; "help: the command is `{name}`\n")
}

/// Returns the text that an argument is neither a command nor a file, with the command that it probably means, if there
/// is one.
fn unknown_text(alloc: Global, word: &str) -> Result<String, AllocError> {
    let shown = quoted_word(alloc, word)?;
    let similar = suggestion(alloc, word)?;
    format!(in alloc;
        "error: no such command or file: {shown}\n{similar}help: `toml-span --help` lists the commands\n"
    )
}

/// Prints the text of `unknown_text` to `errors`. Returns status 2, or 3 if the write fails.
pub fn say_unknown<E: Sink>(alloc: Global, word: &str, errors: &mut E) -> Result<u8, AllocError>
    requires { E.failed errors.old ≡ false }
    ensures { IfOk result (λ status.
        Warns (E.contents errors.old) (E.contents errors.new) (E.failed errors.new) 2 status) }
{
    let text = unknown_text(alloc, word)?;
    Ok(say(errors, text.as_str(), 2))
}

/// Carries out `help`: returns the answer with the help of the program or of a command, or that the arguments are
/// wrong.
pub(crate) fn help(alloc: Global, arguments: &[String]) -> Result<Answer, AllocError> {
    match arguments {
        [name] if !is_help(name.as_str()) => match command_named(name.as_str()) {
            Some(command) => helped(alloc, command),
            None => Ok(warned(alloc, unknown_text(alloc, name.as_str())?, 2)),
        },
        [_, _, ..] => misuse(alloc, Command::Help, "`help` takes one command"),
        _ => helped(alloc, Command::Help),
    }
}
