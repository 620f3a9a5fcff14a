//! The program `toml-span`, which checks, prints, edits and formats TOML files, and has a language server.
#![tactic(auto)]

ghost use Rattle.std.specs.Prelude.{◌≤◌, IfOk};

mod dispatch;
mod lsp;

use crate::dispatch::dispatch;
use std::alloc::AllocError;
use std::io::IsTerminal;
use std::process::ExitCode;
use toml_span_check::input::Host;
use toml_span_commands::colours::{Screen, wants_colours};
use toml_span_commands::words::given_words;
use toml_span_lines::tracked::Tracked;

/// Runs the program, and returns the exit status.
fn status_of(rt: HostRuntime) -> Result<u8, AllocError>
    ensures { IfOk result (λ status. status ≤ 4) }
{
    let alloc = rt.alloc();
    let words = given_words(&rt)?;
    let out = rt.stdout();
    let is_coloured = wants_colours(&rt, out.is_terminal())?;
    let mut out = Tracked::new(out);
    let errors = rt.stderr();
    let is_watched = errors.is_terminal();
    let screen = Screen {
        is_coloured,
        has_coloured_errors: wants_colours(&rt, is_watched)?,
        is_watched,
    };
    let mut errors = Tracked::new(errors);
    let mut host = Host { rt };
    let words = words.as_slice();
    dispatch(alloc, words, screen, &mut host, &mut out, &mut errors)
}

/// Runs the program. Exits with the status that `status_of` returns, or with 4 if an allocation fails.
fn main(rt: HostRuntime) -> ExitCode {
    match status_of(rt) {
        Ok(status) => ExitCode::from(status),
        Err(_) => ExitCode::from(4),
    }
}
