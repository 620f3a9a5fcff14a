//! The command `lsp`.
ghost use Rattle.std.specs.Prelude.{◌≡◌, ◌≤◌, IfOk, false};

use std::alloc::{AllocError, Global};
use toml_span_check::input::Host;
use toml_span_commands::commands::Command;
use toml_span_commands::help::LSP;
use toml_span_commands::say::{say, say_misuse};
use toml_span_commands::words::is_help;
use toml_span_lines::sink::Sink;
use toml_span_lines::tracked::Tracked;
use toml_span_lsp::serve;

/// Runs the language server, which reads standard input and writes to `out`. If something was wrong, prints the reason
/// to `errors`. Returns the exit status.
fn run<O: Sink, E: Sink>(
    alloc: Global,
    host: &mut Host,
    out: &mut O,
    errors: &mut E,
) -> Result<u8, AllocError>
    requires out { O.failed out.old ≡ false }
    requires errors { E.failed errors.old ≡ false }
    ensures { IfOk result (λ status. status ≤ 4) }
{
    let input = host.rt.stdin();
    let end = serve(alloc, host, &mut Tracked::new(input), out);
    if end.reason.is_empty() {
        return Ok(end.status);
    }
    let reason = end.reason;
    let line = format!(in alloc; "error: {reason}\n")?;
    Ok(say(errors, line.as_str(), end.status))
}

/// Carries out `lsp`: runs the language server, prints the help, or prints that the arguments are wrong. `words` are
/// the name of the command and its arguments. Returns the exit status.
pub(crate) fn lsp<O: Sink, E: Sink>(
    alloc: Global,
    words: &[String],
    host: &mut Host,
    out: &mut O,
    errors: &mut E,
) -> Result<u8, AllocError>
    requires out { O.failed out.old ≡ false }
    requires errors { E.failed errors.old ≡ false }
    ensures { IfOk result (λ status. status ≤ 4) }
{
    match words {
        [_] => run(alloc, host, out, errors),
        [_, word] if word.as_str() == "--stdio" => run(alloc, host, out, errors),
        [_, word] if is_help(word.as_str()) => Ok(say(out, LSP, 0)),
        _ => say_misuse(alloc, Command::Lsp, "`lsp` takes no arguments", errors),
    }
}
