//! Typed reads. The answer is the result of the call, and then the lines of the tree that the call leaves.
//!
//! - `typed TYPE` reads the value at `/a`, and `typed_root TYPE` reads the root. They print the result, or the errors.
//! - `errors TYPE` reads the value at `/a`, and prints the result of each method of the `DeserError`. `diagnostics
//!   TYPE` and `copied TYPE` print the last of these errors (see `faults`).
//! - `merge TYPE TYPE` reads `/a` and `/b`, and appends the errors of the second to those of the first.
//! - `parse_string TYPE` parses the string at `/a`. `open` makes a `TableHelper` for the value at `/a`.
//! - `fields CALL ..` makes a `TableHelper` for the root, and makes each call on it (see `fields`).
mod fields;
mod odd;
pub mod owned;
mod reads;
pub mod structs;
pub mod warned;

use crate::Row;
use crate::faults::{push_copies, push_twice};
use crate::output::Out;
use crate::trees::shown::push_lines;
use crate::typed::odd::Never;
use crate::typed::reads::{errors_at, push_read};
use std::alloc::Global;
use toml_span::DeserError;
use toml_span::de_helpers::{TableHelper, parse};
use toml_span::value::Value;

/// Prints the answer to a row, and then the lines of the tree. Returns `false` if this module has no such call, or if
/// the call can't be made on this tree.
pub fn answer<'de>(alloc: Global, row: Row<'de>, root: &mut Value<'de>, out: &mut Out) -> bool {
    let known = match row.call {
        "typed_root" => push_read(alloc, row.word(0), root, out),
        "fields" => fields::push_fields(alloc, row.words, root, out),
        "errors" | "merge" | "diagnostics" | "copied" => push_errors(alloc, row, root, out),
        _ => push_at(alloc, row, root, out),
    };
    out.push_str("\n");
    push_lines(alloc, root, out);
    known
}

/// Prints the result of the row's call on the value at `/a`. Returns `false` if the value is missing, if the call is
/// unknown, or if the call can't be made on this value.
fn push_at<'de>(alloc: Global, row: Row<'de>, root: &mut Value<'de>, out: &mut Out) -> bool {
    match root.pointer_mut("/a") {
        Some(value) if row.call == "typed" => push_read(alloc, row.word(0), value, out),
        Some(value) => push_call(alloc, row, value, out),
        None => false,
    }
}

/// Prints the result of `parse_string` or `open` on a value. Returns `false` for any other call, or if the value has
/// been taken.
fn push_call<'de>(alloc: Global, row: Row<'_>, value: &mut Value<'de>, out: &mut Out) -> bool {
    if value.is_taken() {
        return false;
    }
    match row.call {
        "parse_string" if row.word(0) == "u8" => out.debug(parse::<u8, _>(alloc, value)),
        "parse_string" => out.debug(parse::<Never, _>(alloc, value)),
        "open" => match TableHelper::new(alloc, value) {
            Ok(helper) => {
                drop(helper);
                out.push_str("opened");
            }
            Err(errors) => out.debug(errors),
        },
        _ => return false,
    }
    true
}

/// Reads the value at `/a` and, for `merge`, the value at `/b`. Prints the errors, or only the last one for `copied`
/// and `diagnostics`. Returns `false` if a read returns no errors.
fn push_errors<'de>(alloc: Global, row: Row<'de>, root: &mut Value<'de>, out: &mut Out) -> bool {
    let Some(mut errors) = errors_at(alloc, row.word(0), root, "/a", out) else {
        return false;
    };
    if row.call == "merge" {
        let Some(more) = errors_at(alloc, row.word(1), root, "/b", out) else {
            return false;
        };
        push_merge(alloc, &mut errors, more, out);
    }
    match row.call {
        "copied" => push_copies(alloc, errors.last(), out),
        "diagnostics" => push_twice(alloc, errors.last(), out),
        _ => push_lists(&errors, out),
    }
    true
}

/// Appends the errors `more` to `errors`, and prints the result. If an allocation fails, tries once more with the
/// errors that `merge` returns.
fn push_merge<'de>(
    alloc: Global,
    errors: &mut DeserError<'de>,
    more: DeserError<'de>,
    out: &mut Out,
) {
    let merged = errors.merge(alloc, more);
    out.debug_line(&merged);
    if let Err(unmerged) = merged {
        out.debug_line(errors.merge(alloc, unmerged.other));
    }
}

/// Prints the result of each method of a `DeserError`: the number of errors, `get` at each position and after the last
/// one, the errors of `iter`, the last error, and the text of all errors.
fn push_lists(errors: &DeserError<'_>, out: &mut Out) {
    let len = errors.len();
    out.debug_line(len);
    for index in 0..=len {
        out.debug_line(errors.get(index));
    }
    for error in errors.iter() {
        out.debug_line(error);
    }
    out.debug_line(errors.last());
    out.display(errors);
}
