//! The commands that edit a file.
ghost use Rattle.std.specs.Prelude.{◌≡◌, ◌++◌, IfOk, OnOk, true, string_bytes};
ghost use Rattle.toml_span_commands.specs.Arguments as arguments;
ghost use Rattle.toml_span_commands.specs.Escaped as spec;

use crate::answers::{Answer, failed, helped, misuse, misused, printed, stopped};
use crate::arguments::{Arguments, Show, arguments_asked};
use crate::changes::{PathEdit, change_of, option_changes, script_changes};
use crate::commands::Command;
use crate::configured::UNUSED_NAME;
use crate::files::unedited;
use crate::making::{Refusal, Way, new_text};
use crate::options::search_of;
use std::alloc::{AllocError, Global};
use std::io::IsTerminal;
use toml_span::Stop;
use toml_span_check::input::{Host, Inputs};
use toml_span_check::newer::Version;
use toml_span_check::words::is_bytes;
use toml_span_config::layers::Layer;
use toml_span_config::sources::Sources;
use toml_span_files::{Failed, Failure, LIMIT, edit_file, unified};
use toml_span_lookup::disk::Disk;
use toml_span_report::Style;
use toml_span_report::visible::{push_char, visible};

/// Appends a character, escaped if terminals act on it, unless it is a tab or belongs to a line end.
fn push_kept(out: &mut String, c: char) -> Result<(), AllocError>
    ensures { OnOk result (string_bytes out.new ≡ string_bytes out.old ++ spec.kept_char c) }
{
    if c == '\t' || c == '\r' || c == '\n' {
        out.push(c)
    } else {
        push_char(out, c)
    }
}

/// Returns a text for a terminal: characters that terminals act on are escaped, except tabs and line ends.
fn terminal_text(alloc: Global, text: &str) -> Result<String, AllocError>
    ensures { IfOk result (λ out. string_bytes out ≡ spec.escaped true text.now) }
{
    let mut out = String::new(alloc);
    for c in text.chars() {
        push_kept(&mut out, c)?;
    }
    Ok(out)
}

/// Returns a text as it is printed. For a terminal, characters that terminals act on are escaped, except tabs and line
/// ends.
#[tactic(auto, unfolding(crate::specs::Escaped::escaped))]
pub(crate) fn escaped(alloc: Global, text: String, is_terminal: bool) -> Result<String, AllocError>
    ensures { IfOk result (λ out. string_bytes out ≡ spec.escaped is_terminal (string_bytes text)) }
{
    if is_terminal {
        terminal_text(alloc, text.as_str())
    } else {
        Ok(text)
    }
}

/// Returns the answer for edits that were refused for the reason in `stop`. Fails if `stop` is `Stop::Memory`.
fn refused(alloc: Global, file: &str, stop: Stop<Refusal>) -> Result<Answer, AllocError> {
    let refusal = stop.fault()?;
    let reason = refusal.message.as_str();
    let mut answer = failed(alloc, "error: cannot edit ", file, reason, 1)?;
    if refusal.is_table {
        answer
            .errors
            .push_str("help: `--replace-table` replaces all of it\n")?;
    }
    Ok(answer)
}

/// Makes edits without replacing the file. Returns the answer, which prints the result or, with `--diff`, how the
/// result differs from the file.
fn show(
    alloc: Global,
    file: &str,
    changes: &[PathEdit<'_>],
    asked: &Arguments<'_>,
    way: Way<'_>,
    host: &mut Host,
) -> Result<Answer, AllocError> {
    let bytes = match host.read_file(alloc, file)? {
        Ok(bytes) => bytes,
        Err(reason) => {
            let shown = asked.shown(file);
            return failed(alloc, "error: cannot read ", shown, reason.as_str(), 2);
        }
    };
    let shown = asked.shown(file);
    let new = match new_text(alloc, bytes.as_slice(), changes, way) {
        Ok(new) => new,
        Err(stop) => return refused(alloc, shown, stop),
    };
    if new.len() > LIMIT {
        return unedited(alloc, shown, &Failure::ResultTooLong, asked.options, true);
    }
    if asked.show != Show::Diff {
        return Ok(printed(alloc, escaped(alloc, new, host.rt.stdout().is_terminal())?));
    }
    let old = str::from_utf8(bytes.as_slice()).unwrap_or("");
    let name = visible(alloc, shown)?;
    let diff = unified(alloc, name.as_str(), old, new.as_str())?;
    Ok(printed(alloc, escaped(alloc, diff, host.rt.stdout().is_terminal())?))
}

/// Makes edits, and replaces the file. Returns the answer.
fn write(
    alloc: Global,
    file: &str,
    changes: &[PathEdit<'_>],
    asked: &Arguments<'_>,
    way: Way<'_>,
    host: &mut Host,
) -> Result<Answer, AllocError> {
    let make = |bytes: &[u8]| new_text(alloc, bytes, changes, way);
    match edit_file(&host.rt, file, asked.options, make) {
        Ok(_) => Ok(printed(alloc, String::new(alloc))),
        Err(Failed::Edit(stop)) => refused(alloc, file, stop),
        Err(Failed::File(failure)) => unedited(alloc, file, &failure, asked.options, true),
    }
}

/// Returns the version of TOML of the file, as the arguments and its configuration say. Fails with a message, for
/// standard error, if the configuration file can't be read or is wrong, or if standard input has a name, but is not the
/// file.
fn version_of(
    alloc: Global,
    file: &str,
    asked: &Arguments<'_>,
    host: &mut Host,
) -> Result<Version, Stop<String>> {
    if file != "-" && asked.stdin_name != "-" {
        return Err(Stop::Fault(String::from_str(alloc, UNUSED_NAME)?));
    }
    let search = search_of(asked.config, asked.has_no_config);
    let mut sources = Sources::new(alloc, host, search, Layer::empty(), Style::Plain)?;
    let found = sources.settings_for(alloc, host, asked.shown(file))?;
    Ok(found.settings.toml.value)
}

/// Returns whether the result of edits is printed: for standard input, and with `--dry-run` or `--diff`. Otherwise it
/// replaces the file.
fn is_shown(file: &str, show: Show) -> bool
    ensures { result ≡ arguments.is_shown file.now show }
{
    match show {
        Show::No => file == "-",
        Show::Text | Show::Diff => true,
    }
}

/// Makes edits, and returns the answer. For `-`, `--dry-run` and `--diff`, does what `show` does; otherwise replaces
/// the file. If the configuration file can't be read or is wrong, makes no edits, and the answer says why.
fn perform(
    alloc: Global,
    file: &str,
    changes: &[PathEdit<'_>],
    asked: &Arguments<'_>,
    host: &mut Host,
) -> Result<Answer, AllocError> {
    let version = match version_of(alloc, file, asked, host) {
        Ok(version) => version,
        Err(stop) => return stopped(alloc, stop),
    };
    let way = Way {
        is_string: asked.is_string,
        replaces_tables: asked.replaces_tables,
        version,
        name: asked.shown(file),
    };
    if is_shown(file, asked.show) {
        show(alloc, file, changes, asked, way, host)
    } else {
        write(alloc, file, changes, asked, way, host)
    }
}

/// Reads a script from standard input, and makes its edits in the file `file`. Returns the answer.
fn perform_script(
    alloc: Global,
    file: &str,
    asked: &Arguments<'_>,
    host: &mut Host,
) -> Result<Answer, AllocError> {
    let bytes = match host.read(alloc, "-")? {
        Ok(bytes) => bytes,
        Err(reason) => return failed(alloc, "error: cannot read ", "-", reason.as_str(), 2),
    };
    let Ok(script) = str::from_utf8(bytes.as_slice()) else {
        let reason = "it is not valid UTF-8";
        return failed(alloc, "error: cannot read ", "-", reason, 2);
    };
    match script_changes(alloc, script) {
        Ok(changes) => perform(alloc, file, changes.as_slice(), asked, host),
        Err(stop) => {
            let reason = stop.fault()?;
            failed(alloc, "error: cannot read ", "-", reason.as_str(), 2)
        }
    }
}

/// Returns the answer for a wrong number of arguments. `given` is this number.
fn miscounted(alloc: Global, command: Command, given: usize) -> Result<Answer, AllocError> {
    let wanted = match command {
        Command::Edit => 1,
        Command::Remove => 2,
        Command::Add => 4,
        _ => 3,
    };
    let arguments = if wanted == 1 { "argument" } else { "arguments" };
    let message = format!(in alloc; "expected {wanted} {arguments}, found {given}")?;
    misuse(alloc, command, message.as_str())
}

/// Makes the edits of the options `-e` or, without `-e`, of the script on standard input. Returns the answer.
fn edit_by_script(
    alloc: Global,
    asked: &Arguments<'_>,
    host: &mut Host,
) -> Result<Answer, AllocError> {
    let [file] = asked.words.as_slice() else {
        return miscounted(alloc, Command::Edit, asked.words.len());
    };
    if asked.edits.is_empty() {
        if *file == "-" {
            let message = "standard input can't be both the file and the edits: use `-e`";
            return misuse(alloc, Command::Edit, message);
        }
        return perform_script(alloc, *file, asked, host);
    }
    match option_changes(alloc, asked.edits.as_slice()) {
        Ok(changes) => perform(alloc, *file, changes.as_slice(), asked, host),
        Err(stop) => misused(alloc, Command::Edit, stop),
    }
}

/// Makes the edit that the arguments describe. Returns the answer.
fn edit_once(
    alloc: Global,
    command: Command,
    asked: &Arguments<'_>,
    host: &mut Host,
) -> Result<Answer, AllocError> {
    let words = asked.words.as_slice();
    let [file, rest @ ..] = words else {
        return miscounted(alloc, command, words.len());
    };
    match change_of(command, rest) {
        Some(change) => match change.wrong_path(alloc)? {
            Some(message) => misuse(alloc, command, message.as_str()),
            None => perform(alloc, *file, &[change], asked, host),
        },
        None => miscounted(alloc, command, words.len()),
    }
}

/// Carries out a command that edits a file. Returns the answer.
pub(crate) fn edit(
    alloc: Global,
    command: Command,
    words: &[String],
    host: &mut Host,
) -> Result<Answer, AllocError> {
    if words.iter().any(|word| is_bytes(word.as_str())) {
        return misuse(alloc, command, "an argument is not valid UTF-8");
    }
    let asked = match arguments_asked(alloc, command, words) {
        Ok(asked) => asked,
        Err(stop) => return misused(alloc, command, stop),
    };
    if asked.is_help {
        return helped(alloc, command);
    }
    if command == Command::Edit {
        edit_by_script(alloc, &asked, host)
    } else {
        edit_once(alloc, command, &asked, host)
    }
}
