//! Prints errors, their messages, diagnostics and clones.
//!
//! - `diagnostic KIND`: an error of this kind, one of those that typed reads cause. The error is at 4..6, line 2 and
//!   column 3. Its names or its message are in the text.
//! - `diagnostics` of a text or of a typed read: the error with its message, and the diagnostic.
//! - `copied` of a text or of a typed read: clones of the error's kind and of the error, and the diagnostic, each made
//!   twice, and then the error.
use crate::Row;
use crate::output::Out;
use crate::trees::shown::push_error_head;
use std::alloc::Global;
use std::borrow::CowStr;
use toml_span::{Error, ErrorKind, Span};

/// The number of the file in a diagnostic.
const FILE: u8 = 7;

/// Prints an error: the code, the span, the line and column, the message, and the diagnostic.
fn push_error(alloc: Global, error: &Error<'_>, out: &mut Out) {
    push_error_head(error, out);
    out.push_str(" ");
    out.display(error);
    out.push_str("\n");
    out.debug(error.to_diagnostic(alloc, FILE));
}

/// Prints an error as `push_error` does, and one more line if the error's clone prints differently.
pub fn push_twice(alloc: Global, error: &Error<'_>, out: &mut Out) {
    push_error(alloc, error, out);
    let Some(copy) = out.ok(error.clone(alloc)) else {
        return;
    };
    let mut again = Out::new(alloc);
    push_error(alloc, &copy, &mut again);
    if !out.text.ends_with(again.text.as_str()) {
        out.push_str("\nthe clone is another");
    }
    out.out_of_memory = out.out_of_memory || again.out_of_memory;
}

/// Prints clones of an error's kind and of the error, and the error's diagnostic, each twice, and then the error.
pub fn push_copies(alloc: Global, error: &Error<'_>, out: &mut Out) {
    for _ in 0..2 {
        out.debug_line(error.kind.clone(alloc));
        out.debug_line(error.clone(alloc));
        out.debug_line(error.to_diagnostic(alloc, FILE));
    }
    out.debug(error);
}

/// Returns the kind of error that `word` names, or `None` for any other word. `text` is the message or the name in the
/// error, or has two names, separated by ` | `.
fn kind_of<'s>(word: &str, text: &'s str) -> Option<ErrorKind<'s>> {
    let (first, second) = text.split_once(" | ").unwrap_or((text, ""));
    Some(match word {
        "out-of-range" => ErrorKind::OutOfRange(text),
        "wanted" => ErrorKind::Wanted {
            expected: first,
            found: second,
        },
        "missing-field" => ErrorKind::MissingField(text),
        "deprecated" => ErrorKind::Deprecated {
            old: first,
            new: second,
        },
        "custom" => ErrorKind::Custom(CowStr::Borrowed(text)),
        _ => return None,
    })
}

/// Prints the answer to a row. Returns `false` if this module has no such call, or if a word of the row is wrong.
pub fn answer(alloc: Global, row: Row<'_>, out: &mut Out) -> bool {
    if row.call != "diagnostic" {
        return false;
    }
    let Some(kind) = kind_of(row.word(0), row.text) else {
        return false;
    };
    let mut error = Error::from((kind, Span::new(4, 6)));
    error.line_info = Some((2, 3));
    push_twice(alloc, &error, out);
    drop(error);
    true
}
