//! Reads TOML, and prints a line for each value, with its span, or a line for the error. `run::run` is the whole
//! program `toml_span_show`.
#![tactic(auto)]

pub mod held;
pub mod lines;
pub mod run;
pub mod sink;
pub mod source;
pub mod tracked;
