//! Calls on a `TableHelper` for the root of a document.
//!
//! - `contains=NAME` and `take=NAME`.
//! - `required=TYPE=NAME`, `required_s=TYPE=NAME`, `optional=TYPE=NAME`, `optional_s=TYPE=NAME`.
//! - The last call is `finalize`, or `finalize_back`, which passes the root.

use crate::output::Out;
use crate::trees::shown::push_back;
use crate::typed::push_lists;
use std::alloc::{AllocError, Global};
use std::fmt::Debug;
use toml_span::de_helpers::{TableHelper, Unfinished};
use toml_span::value::{Key, Value};
use toml_span::{Deserialize, Error, Spanned, Stop};

/// Prints the answer to `fields`. Returns `false` if no helper can be made for the root, if `calls` is empty, or if a
/// call is unknown.
pub fn push_fields<'de>(
    alloc: Global,
    calls: &'de [String],
    root: &mut Value<'de>,
    out: &mut Out,
) -> bool {
    let Some(mut helper) = opened(alloc, root) else {
        return false;
    };
    let Some((last, calls)) = calls.split_last() else {
        return false;
    };
    push_calls(&mut helper, calls, out) && push_last(helper, last.as_str(), root, out)
}

/// Makes a helper for the root of a document. Returns `None` if the root is not whole or not a table, or if an
/// allocation fails.
fn opened<'de>(alloc: Global, root: &mut Value<'de>) -> Option<TableHelper<'de>> {
    if !root.is_whole() {
        return None;
    }
    match TableHelper::new(alloc, root) {
        Ok(helper) => Some(helper),
        Err(_faults) => None,
    }
}

/// Makes calls on a helper, and prints each with its result. Returns `false` at an unknown call.
fn push_calls<'de>(helper: &mut TableHelper<'de>, calls: &'de [String], out: &mut Out) -> bool {
    for call in calls {
        out.push_str(call.as_str());
        out.push_str(": ");
        if !push_call(helper, call.as_str(), out) {
            return false;
        }
        out.push_str("\n");
    }
    true
}

/// Makes one call, and prints the result. Returns `false` for an unknown call or type.
fn push_call<'de>(helper: &mut TableHelper<'de>, call: &'de str, out: &mut Out) -> bool {
    let Some((name, arguments)) = call.split_once('=') else {
        return false;
    };
    match name {
        "contains" => out.debug(helper.contains(arguments)),
        "take" => push_entry(helper.take(arguments), out),
        _ => return push_field(helper, name, arguments, out),
    }
    true
}

/// Prints an entry that was taken, or that there was none.
fn push_entry(entry: Result<Option<(Key<'_>, Value<'_>)>, AllocError>, out: &mut Out) {
    match entry {
        Ok(Some((key, value))) => {
            out.debug((&key, key.span));
            drop(key);
            push_back(" ", value, out);
        }
        Ok(None) => out.push_str("Ok(None)"),
        Err(_) => out.push_str("Err(AllocError)"),
    }
}

/// Reads a field with the call `how`, and prints the result. `arguments` are the type and the name of the field.
/// Returns `false` for an unknown call or type.
fn push_field<'de>(
    helper: &mut TableHelper<'de>,
    how: &str,
    arguments: &'de str,
    out: &mut Out,
) -> bool {
    let Some((kind, name)) = arguments.split_once('=') else {
        return false;
    };
    match kind {
        "u8" => push_as::<u8>(helper, how, name, out),
        "i64" => push_as::<i64>(helper, how, name, out),
        "bool" => push_as::<bool>(helper, how, name, out),
        "String" => push_as::<String>(helper, how, name, out),
        "Vec<u8>" => push_as::<Vec<u8>>(helper, how, name, out),
        _ => false,
    }
}

/// Reads the field `name` as `T` with the call `how`, and prints the result. Returns `false` for an unknown call.
fn push_as<'de, T: Deserialize<'de> + Debug>(
    helper: &mut TableHelper<'de>,
    how: &str,
    name: &'de str,
    out: &mut Out,
) -> bool {
    match how {
        "required" => out.debug(helper.required::<T>(name)),
        "required_s" => push_spanned(helper.required_s::<T>(name), out),
        "optional" => out.debug(helper.optional::<T>(name)),
        "optional_s" => out.debug(helper.optional_s::<T>(name)),
        _ => return false,
    }
    true
}

/// Prints the value that was read and its span, or why the read failed.
fn push_spanned<T: Debug + Drop>(read: Result<Spanned<T>, Stop<Error<'_>>>, out: &mut Out) {
    match read {
        Ok(found) => {
            let span = found.span;
            out.debug((found, span));
        }
        other => out.debug(other),
    }
}

/// Makes the last call, and prints the errors that it returns. If an allocation fails, calls `finalize` on the helper
/// that is returned. Returns `false` for an unknown call.
fn push_last<'de>(
    helper: TableHelper<'de>,
    call: &str,
    root: &mut Value<'de>,
    out: &mut Out,
) -> bool {
    let ended = match call {
        "finalize" => helper.finalize(None),
        "finalize_back" => helper.finalize(Some(root)),
        _ => return false,
    };
    if let Some(helper) = push_ended(ended, out) {
        drop(push_ended(helper.finalize(None), out));
    }
    true
}

/// Prints the errors of the last call. Returns the helper if an allocation failed, otherwise `None`.
fn push_ended<'de>(ended: Result<(), Unfinished<'de>>, out: &mut Out) -> Option<TableHelper<'de>> {
    match ended {
        Ok(()) => out.push_str("no error"),
        Err(Unfinished::Faults(errors)) => {
            push_lists(&errors, out);
            drop(errors);
        }
        Err(Unfinished::Memory(helper)) => {
            out.debug_line(AllocError);
            return Some(helper);
        }
    }
    None
}
