//! Reads TOML from standard input. Prints a line for each value, with its span, or a line for the error.
#![tactic(auto)]

use std::process::ExitCode;
use toml_span_lines::run::run;
use toml_span_lines::tracked::Tracked;

fn main(rt: HostRuntime) -> ExitCode {
    let mut reader = Tracked::new(rt.stdin());
    let mut writer = Tracked::new(rt.stdout());
    ExitCode::from(run(rt.alloc(), &mut reader, &mut writer))
}
