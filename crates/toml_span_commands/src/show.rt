//! The command `show`.
ghost use Rattle.std.specs.Prelude.{◌≡◌, IfOk, false, map, string_bytes};
ghost use Rattle.toml_span_commands.specs.Show.{PrintsUnread, PerformsShow, ShowsFile};

use crate::commands::Command;
use crate::help::SHOW;
use crate::say::{say, say_misuse};
use crate::words::is_help;
use std::alloc::{AllocError, Global};
use toml_span_check::input::Host;
use toml_span_check::run::push_complaint;
use toml_span_check::words::shown_word;
use toml_span_lines::run::run;
use toml_span_lines::sink::Sink;
use toml_span_lines::tracked::Tracked;
use toml_span_lookup::disk::Disk;

/// Prints to `errors` that the file `name` can't be read, and why. Returns status 2, or 3 if the write fails.
pub(crate) fn say_unread<E: Sink>(
    alloc: Global,
    name: &str,
    reason: &str,
    errors: &mut E,
) -> Result<u8, AllocError>
    requires { E.failed errors.old ≡ false }
    ensures { IfOk result (λ status. PrintsUnread name.now reason.now
        (E.contents errors.old) (E.contents errors.new) (E.failed errors.new) status) }
{
    let mut line = String::new(alloc);
    let name = shown_word(alloc, name)?;
    push_complaint(&mut line, name.as_str(), reason)?;
    Ok(say(errors, line.as_str(), 2))
}

/// Prints the lines of a file's tree, or the line of its error. If the file can't be read, prints why to `errors`.
/// Returns the exit status.
fn show_file<O: Sink, E: Sink>(
    alloc: Global,
    name: &str,
    host: &mut Host,
    out: &mut O,
    errors: &mut E,
) -> Result<u8, AllocError>
    requires out { O.failed out.old ≡ false }
    requires errors { E.failed errors.old ≡ false }
    ensures { IfOk result (λ status. ShowsFile name.now
        (O.contents out.old) (O.contents out.new) (O.failed out.new)
        (E.contents errors.old) (E.contents errors.new) (E.failed errors.new) status) }
{
    match host.read_file(alloc, name)? {
        Ok(bytes) => Ok(run(alloc, &mut Tracked::new(bytes.as_slice()), out)),
        Err(reason) => {
            let status = say_unread(alloc, name, reason.as_str(), errors)?;
            Ok(status)
        }
    }
}

/// Carries out `show`: shows a file (see `show_file`), or prints the help, or that the arguments are wrong. `words` are
/// the name of the command and its arguments. Returns the exit status.
pub fn show<O: Sink, E: Sink>(
    alloc: Global,
    words: &[String],
    host: &mut Host,
    out: &mut O,
    errors: &mut E,
) -> Result<u8, AllocError>
    requires out { O.failed out.old ≡ false }
    requires errors { E.failed errors.old ≡ false }
    ensures { IfOk result (λ status. PerformsShow (map (λ w. string_bytes w) words.now)
        (O.contents out.old) (O.contents out.new) (O.failed out.new)
        (E.contents errors.old) (E.contents errors.new) (E.failed errors.new) status) }
{
    let [_, word] = words else {
        return say_misuse(alloc, Command::Show, "expected one argument", errors);
    };
    if is_help(word.as_str()) {
        return Ok(say(out, SHOW, 0));
    }
    let status = show_file(alloc, word.as_str(), host, out, errors)?;
    Ok(status)
}
