//! Decides whether `--color auto` means colors.
ghost use Rattle.std.specs.Prelude.{◌≡◌};
ghost use Rattle.toml_span_commands.specs.Colours as spec;

use std::alloc::AllocError;
use std::env;
use std::env::VarError;

/// What commands know about standard output and standard error.
#[derive(Clone, Copy)]
pub struct Screen {
    /// Whether reports on standard output have colors with `--color auto`.
    pub is_coloured: bool,
    /// Whether reports on standard error have colors with `--color auto`.
    pub has_coloured_errors: bool,
    /// Whether standard error is a terminal.
    pub is_watched: bool,
}

impl Screen {
    /// No colors, and no terminal.
    pub(crate) const PLAIN: Screen = Screen {
        is_coloured: false,
        has_coloured_errors: false,
        is_watched: false,
    };
}

/// Returns whether reports have colors. They have none if `no_color` is not empty. Otherwise they have colors if
/// `force` is neither empty nor `0`, or if `is_terminal` and `term` is not `dumb`.
///
/// `no_color`, `force` and `term` are the values of the variables `NO_COLOR`, `CLICOLOR_FORCE` and `TERM`, empty if not
/// set.
fn has_colours(is_terminal: bool, no_color: &str, force: &str, term: &str) -> bool
    ensures { result ≡ spec.has_colours is_terminal no_color.now force.now term.now }
{
    if !no_color.is_empty() {
        return false;
    }
    if force.is_empty() || force == "0" {
        is_terminal && term != "dumb"
    } else {
        true
    }
}

/// Returns the value of an environment variable. Returns an empty text if the variable is not set, and `?` if its value
/// is not valid UTF-8.
fn variable(rt: &HostRuntime, name: &str) -> Result<String, AllocError> {
    match env::var(rt, name) {
        Ok(value) => Ok(value),
        Err(VarError::NotPresent) => Ok(String::new(rt.alloc())),
        Err(VarError::NotUnicode) => String::from_str(rt.alloc(), "?"),
        Err(VarError::OutOfMemory) => Err(AllocError),
    }
}

/// Returns whether reports on a stream have colors with `--color auto`. `is_terminal` says whether the stream is a
/// terminal.
pub fn wants_colours(rt: &HostRuntime, is_terminal: bool) -> Result<bool, AllocError> {
    let no_color = variable(rt, "NO_COLOR")?;
    let force = variable(rt, "CLICOLOR_FORCE")?;
    let term = variable(rt, "TERM")?;
    Ok(has_colours(
        is_terminal,
        no_color.as_str(),
        force.as_str(),
        term.as_str(),
    ))
}
