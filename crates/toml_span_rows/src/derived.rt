//! Reads of types that derive `Deserialize`.
//!
//! - `settings`, `device`, `tagged` and `attributes` read the document as the struct of that name. `limits` reads the
//!   document's tree as a map from names to numbers. They print the value, or the code, span, line, column and message
//!   of the error.
//! - `shown` prints the settings, or the error with its source lines.
//!
//! If an allocation fails, `settings`, `device`, `tagged` and `attributes` read the document once more.
use crate::Row;
use crate::output::Out;
use device::{Attributes, Device, Tagged};
use serde::Deserialize;
use settings::{Settings, shown};
use std::alloc::Global;
use std::collections::BTreeMap;
use std::fmt::Debug;
use toml_span::{Stop, parse};
use toml_span_serde::{Error, Spanned, from_str, from_value};

mod device;
mod settings;

/// A map from names to numbers.
type Limits = BTreeMap<Spanned<String>, Spanned<i8>>;

/// Prints the answer to a row. Returns `false` if this module has no such call.
pub fn answer(alloc: Global, row: Row<'_>, out: &mut Out) -> bool {
    let text = row.text;
    match row.call {
        "settings" => push_read::<Settings<'_>>(alloc, text, out),
        "device" => push_read::<Device>(alloc, text, out),
        "tagged" => push_read::<Tagged<'_>>(alloc, text, out),
        "attributes" => push_read::<Attributes<'_>>(alloc, text, out),
        "limits" => {
            push_answer(alloc, limits_of(alloc, text), out);
        }
        "shown" => out.made(shown(alloc, text)),
        _ => return false,
    }
    true
}

/// Reads a text as a type, and prints the result. If an allocation fails, reads the text once more.
fn push_read<'de, T: Deserialize<'de> + Debug + Drop>(
    alloc: Global,
    text: &'de str,
    out: &mut Out,
) {
    if !push_answer(alloc, from_str::<T>(alloc, text), out) {
        push_answer(alloc, from_str::<T>(alloc, text), out);
    }
}

/// Reads the document's tree as limits. Fails with `Refused` if the text is not valid TOML, and with `Misfit` if the
/// tree does not fit.
fn limits_of(alloc: Global, text: &str) -> Result<Limits, Stop<Error<'_>>> {
    let root = match parse(alloc, text) {
        Ok(root) => root,
        Err(stop) => return Err(Stop::Fault(Error::Refused(stop.fault()?))),
    };
    match from_value(alloc, &root) {
        Ok(limits) => Ok(limits),
        Err(stop) => Err(Stop::Fault(Error::Misfit(stop.fault()?))),
    }
}

/// Prints the value that was read, or the error. Returns `false` if an allocation failed.
fn push_answer<T: Debug + Drop>(
    alloc: Global,
    read: Result<T, Stop<Error<'_>>>,
    out: &mut Out,
) -> bool {
    match read {
        Ok(value) => out.debug(value),
        Err(Stop::Fault(error)) => {
            push_error(alloc, &error, out);
            drop(error);
        }
        Err(Stop::Memory(refused)) => {
            out.debug_line(refused);
            return false;
        }
    }
    true
}

/// Prints an error: the code, the span, the line and column, and the message.
fn push_error(alloc: Global, error: &Error<'_>, out: &mut Out) {
    if let Some(diagnostic) = out.ok(error.to_diagnostic(alloc, ())) {
        out.push_str(diagnostic.code.as_str());
    }
    out.push_str(" ");
    out.span(error.span());
    let (line, column) = error.line_info().unwrap_or((0, 0));
    out.push_str(" ");
    out.debug(line);
    out.push_str(":");
    out.debug(column);
    out.push_str(" ");
    out.display(error);
}
