//! Calls on the tree of a document. If the text is not valid TOML, the answer is its error.
//!
//! - `parse LIMIT`: the lines of the tree. `twice` parses the text twice, and prints a word for the first result, then
//!   the lines of the second.
//! - `json`: the tree as JSON.
//! - `again`: whether each value that is written in one piece is the same when it is parsed again. See `pieces`.
//! - `node_at OFFSET`: see `places`. `write OPERATION ..`: see `writes`. Typed reads: see `typed`.
//! - `diagnostics`: the message of the error, and its diagnostic. `copied`: clones of the error (see `faults`).

use crate::faults::{push_copies, push_twice};
use crate::output::Out;
use crate::places::push_node_at;
use crate::{Row, typed};
use shown::{push_fault, push_lines};
use std::alloc::Global;
use toml_span::de::parse_with_limit;
use toml_span::value::Value;
use toml_span::{Error, Stop, parse};

mod pieces;
pub mod shown;
mod writes;

/// Returns the depth limit of a row: the first word of `parse`, `read` or `run`, or 128 for any other call. Returns
/// `None` if that word is not a number from 1 to 128.
pub(crate) fn limit_of(row: Row<'_>) -> Option<usize> {
    if !matches!(row.call, "parse" | "read" | "run") {
        return Some(128);
    }
    let limit = row.word(0).parse::<usize>().ok()?;
    if 1 <= limit && limit <= 128 {
        Some(limit)
    } else {
        None
    }
}

/// Prints a tree as JSON, or `not whole` if values have been taken. If an allocation fails, tries once more.
fn push_json(alloc: Global, root: &Value<'_>, out: &mut Out) {
    if !root.is_whole() {
        return out.push_str("not whole");
    }
    let mut made = root.to_json(alloc);
    if let Err(refused) = &made {
        out.debug_line(refused);
        made = root.to_json(alloc);
    }
    if let Some(json) = out.ok(made) {
        out.made(json.to_string(alloc));
    }
}

/// Prints the answer to a call on a tree. Returns `false` if the call is unknown, if a word of the row is wrong, or if
/// the call can't be made on this tree.
fn push_call<'t>(alloc: Global, row: Row<'t>, root: &mut Value<'t>, out: &mut Out) -> bool {
    match row.call {
        "parse" | "twice" => push_lines(alloc, root, out),
        "json" => push_json(alloc, root, out),
        "again" => pieces::push_again(alloc, row.text, root, out),
        "node_at" => return push_node_at(alloc, row, root, out),
        "write" => return writes::push_writes(alloc, row.words, root, out),
        _ => return typed::answer(alloc, row, root, out),
    }
    true
}

/// Prints the error of a text, as the answer to `call`.
fn push_refused(alloc: Global, call: &str, fault: &Error<'_>, out: &mut Out) {
    match call {
        "diagnostics" => push_twice(alloc, fault, out),
        "copied" => push_copies(alloc, fault, out),
        _ => push_fault(fault, out),
    }
}

/// Prints the answer to a row. If the text is not valid TOML, the answer is the error of the text, even for an unknown
/// call. Returns `false` if the limit is wrong or, for a valid text, if `push_call` does.
pub fn answer(alloc: Global, row: Row<'_>, out: &mut Out) -> bool {
    let Some(limit) = limit_of(row) else {
        return false;
    };
    if row.call == "twice" {
        let first = parse(alloc, row.text);
        out.push_str(match &first {
            Ok(_) => "tree\n",
            Err(Stop::Fault(_)) => "fault\n",
            Err(Stop::Memory(_)) => "AllocError\n",
        });
        drop(first);
    }
    match parse_with_limit(alloc, row.text, limit) {
        Ok(mut root) => {
            let known = push_call(alloc, row, &mut root, out);
            drop(root);
            known
        }
        Err(stop) => {
            if let Some(fault) = out.ok(stop.fault()) {
                push_refused(alloc, row.call, &fault, out);
                drop(fault);
            }
            true
        }
    }
}
