//! Prints texts, quotes arguments, and reports wrong arguments.
ghost use Rattle.std.specs.Prelude.{◌≡◌, ℕ, List, IfOk, false, map, string_bytes};
ghost use Rattle.toml_span_commands.specs.Words as words;
ghost use Rattle.toml_span_report.specs.Visible.{visible_lines as shown_lines};
ghost use Rattle.toml_span_commands.specs.Say.{Prints, Warns};

use crate::commands::{Command, arguments_of};
use std::alloc::{AllocError, Global};
use toml_span_check::words::shown_word;
use toml_span_lines::run::write_bytes;
use toml_span_lines::sink::Sink;
use toml_span_report::nearest;
use toml_span_report::visible::{push_visible, visible, visible_lines};

/// Writes a text. Returns `status`, or 3 if the write fails.
pub fn say<W: Sink>(writer: &mut W, text: &str, status: u8) -> u8
    requires { W.failed writer.old ≡ false }
    ensures { Prints (W.contents writer.old) (W.contents writer.new) (W.failed writer.new) text.now status result }
{
    if write_bytes(writer, text.as_bytes()) {
        status
    } else {
        3
    }
}

/// Returns an argument in backticks, escaped for a terminal.
pub(crate) fn quoted_word(alloc: Global, word: &str) -> Result<String, AllocError> {
    let word = shown_word(alloc, word)?;
    let mut out = String::from_str(alloc, "`")?;
    push_visible(&mut out, word.as_str())?;
    out.push('`')?;
    Ok(out)
}

/// Returns the line that names the most similar of `names`, or an empty text if none is similar. `kind` says what has
/// these names.
pub(crate) fn similar_line(
    alloc: Global,
    kind: &str,
    word: &str,
    names: &[&str],
) -> Result<String, AllocError> {
    match nearest(alloc, word, names)? {
        Some(name) => format!(in alloc; "help: a {kind} with a similar name exists: `{name}`\n"),
        None => Ok(String::new(alloc)),
    }
}

/// Returns whether `name` is one of `names`.
#[tactic(auto, unfolding(crate::specs::Words::is_among))]
pub(crate) fn is_among(name: &str, names: &[&str]) -> bool
    ensures { result ≡ words.is_among name.now (map (λ n. n.now) names.now) }
{
    for one in names {
        if *one == name {
            return true;
        }
    }
    false
}

/// Returns the name and the value of an argument such as `--name=value`. Any other argument is a name, and has an empty
/// value.
fn option_parts(word: &str) -> (&str, &str) {
    match word.split_once('=') {
        Some((name, value)) if name.len() > 2 && name.starts_with("--") => (name, value),
        _ => (word, ""),
    }
}

/// Returns the message that an argument is unexpected, in the words of clap. An option is named without its value. If
/// one of the options `names` is similar, a second line names it. Otherwise, if the command has the option `--`
/// (`has_dashes`), a second line says how to pass an argument with two dashes as a value.
pub(crate) fn unexpected(
    alloc: Global,
    word: &str,
    has_dashes: bool,
    names: &[&str],
) -> Result<String, AllocError> {
    let shown = shown_word(alloc, word)?;
    let shown = visible(alloc, shown.as_str())?;
    let (name, value) = option_parts(shown.as_str());
    if !value.is_empty() && is_among(name, names) {
        return format!(in alloc;
            "unexpected value '{value}' for '{name}' found; no more were expected"
        );
    }
    if let Some(similar) = nearest(alloc, name, names)? {
        return format!(in alloc;
            "unexpected argument '{name}' found\n\n  tip: a similar argument exists: '{similar}'"
        );
    }
    if has_dashes && name.starts_with('-') {
        return format!(in alloc;
            "unexpected argument '{name}' found\n\n  tip: to pass '{name}' as a value, use '-- {name}'"
        );
    }
    format!(in alloc; "unexpected argument '{name}' found")
}

/// Returns a text about wrong arguments: `message`, which says what is wrong, and the usage of the command.
pub(crate) fn usage_text(
    alloc: Global,
    command: Command,
    message: &str,
) -> Result<String, AllocError> {
    let arguments = arguments_of(command);
    format!(in alloc;
        "error: {message}\n\nUsage: toml-span {arguments}\n\nFor more information, try '--help'.\n"
    )
}

/// Returns a text about wrong arguments, escaped for a terminal. The text has `message`, which says what is wrong, and
/// the usage of the command.
pub(crate) fn misuse_text(
    alloc: Global,
    command: Command,
    message: &str,
) -> Result<String, AllocError>
    ensures { IfOk result (λ out. (text : List ℕ) × (string_bytes out ≡ shown_lines text)) }
{
    let text = usage_text(alloc, command, message)?;
    visible_lines(alloc, text.as_str())
}

/// Prints to `errors` the text that `misuse_text` makes. Returns status 2, or 3 if the write fails.
pub fn say_misuse<E: Sink>(
    alloc: Global,
    command: Command,
    message: &str,
    errors: &mut E,
) -> Result<u8, AllocError>
    requires { E.failed errors.old ≡ false }
    ensures { IfOk result (λ status.
        Warns (E.contents errors.old) (E.contents errors.new) (E.failed errors.new) 2 status) }
{
    let text = misuse_text(alloc, command, message)?;
    Ok(say(errors, text.as_str(), 2))
}
