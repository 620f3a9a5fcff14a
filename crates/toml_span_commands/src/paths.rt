//! Paths given as arguments: pointers, and dotted keys with positions.
ghost use Rattle.std.specs.Prelude.{IfOk};
ghost use Rattle.toml_span_commands.specs.Paths.{IsWrong};

use crate::say::quoted_word;
use std::alloc::{AllocError, Global};
use toml_span_edit::{PathError, PathFault, path_error_text, path_segments};

/// Returns a hint about the error of a path, or an empty text. There is a hint if `.` or `[` is expected at the error.
fn hint(path: &str, error: &PathError) -> &'static str {
    let before = path.as_bytes().get(error.at.saturating_sub(1));
    match (error.fault, path.as_bytes().get(error.at)) {
        (PathFault::Step, Some(b'/')) => "; a pointer begins with `/`",
        (PathFault::Step, _) if matches!(before, Some(b']' | b'"' | b'\'')) => {
            "; write a dot before the next key"
        }
        (PathFault::Step, _) => "; keys with other characters need quotes",
        _ => "",
    }
}

/// Returns a message that says where and why a path can't be read, or `None` if the path can be read.
pub(crate) fn wrong_path(alloc: Global, path: &str) -> Result<Option<String>, AllocError>
    ensures { IfOk result (IsWrong path.now) }
{
    match path_segments(alloc, path) {
        Ok(_) => Ok(None),
        Err(stop) => {
            let error = stop.fault()?;
            let shown = quoted_word(alloc, path)?;
            let place = path_error_text(alloc, path, &error)?;
            let hint = hint(path, &error);
            Ok(Some(format!(in alloc; "the path {shown} is invalid at {place}{hint}")?))
        }
    }
}
