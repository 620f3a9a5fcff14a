//! `write OPERATION ..`: makes calls on the tree of a document, one after the other. Prints the result of each, and
//! then the lines of the tree.
//!
//! | Operation | What it calls |
//! |---|---|
//! | `find=POINTER` | `pointer` |
//! | `look=POINTER` | `look_up` |
//! | `at=POINTER` | `at` with the `Pointer` of this text |
//! | `set=POINTER=INTEGER` | `set` on what `pointer_mut` returns |
//! | `take=POINTER` | `take` on what `pointer_mut` returns |
//! | `take_string=POINTER`, `take_string=POINTER=MESSAGE` | `take_string` on what `pointer_mut` returns |
//! | `replace=POINTER=INTEGER` | `replace` with a `Value::new` |
//! | `taken=POINTER` | `is_taken` on what `pointer` returns |
//! | `has_key=NAME`, `has_keys`, `whole` | `has_key`, `has_keys` and `is_whole` on the root |
use crate::output::Out;
use crate::trees::shown::{push_back, push_lines, push_named, push_string};
use std::alloc::Global;
use toml_span::value::{Pointer, Value, ValueInner};

/// A call on a tree, as a word describes it.
#[derive(Clone, Copy)]
struct Operation<'w> {
    name: &'w str,
    /// A pointer or, for `has_key`, the name of a key.
    place: &'w str,
    /// The text after the second `=`: a number or, for `take_string`, a message.
    rest: Option<&'w str>,
}

/// Makes the call `take` or `take_string` on a value, and prints the result. If the content of the value has been taken
/// before, prints `taken` instead, for any operation. Otherwise returns `false` for an unknown operation.
fn push_taken(value: &mut Value<'_>, operation: Operation<'_>, out: &mut Out) -> bool {
    if value.is_taken() {
        out.push_str("taken");
        return true;
    }
    if operation.name == "take" {
        out.debug(value.take());
        return true;
    }
    match value.take_string(operation.rest) {
        Ok(text) => {
            push_string(&text, out);
            drop(text);
        }
        Err(fault) => out.debug(fault),
    }
    operation.name == "take_string"
}

/// Makes the call `set`, `take` or `take_string` on the value at a pointer, and prints the result. If the value does
/// not exist, prints `none` for any operation. Otherwise returns `false` for an unknown operation, as `push_taken`
/// does. `number` is the new value for `set`.
fn push_lent<'t>(
    root: &mut Value<'t>,
    operation: Operation<'t>,
    number: i64,
    out: &mut Out,
) -> bool {
    let Some(value) = root.pointer_mut(operation.place) else {
        out.push_str("none");
        return true;
    };
    if operation.name != "set" {
        return push_taken(value, operation, out);
    }
    value.set(ValueInner::Integer(number));
    out.push_str("done");
    true
}

/// Prints the value at the `Pointer` of a text, or `no pointer` if the text is not a pointer.
fn push_at(alloc: Global, root: &Value<'_>, text: &str, out: &mut Out) {
    match Pointer::new(alloc, text) {
        Ok(Some(pointer)) => push_named(root.at(&pointer), out),
        Ok(None) => out.push_str("no pointer"),
        Err(_) => out.out_of_memory = true,
    }
}

/// Makes a call, and prints the result. Returns `false` for an unknown operation, as `push_lent` does.
fn push_operation<'t>(
    alloc: Global,
    root: &mut Value<'t>,
    operation: Operation<'t>,
    out: &mut Out,
) -> bool {
    let place = operation.place;
    let number = operation.rest.unwrap_or("").parse::<i64>().unwrap_or(0);
    match operation.name {
        "find" => push_named(root.pointer(place), out),
        "look" => push_named(root.look_up(place), out),
        "at" => push_at(alloc, root, place, out),
        "taken" => match root.pointer(place) {
            Some(value) => out.debug(Some(value.is_taken())),
            None => out.debug(None::<bool>),
        },
        "has_key" => out.debug(root.has_key(place)),
        "has_keys" => out.debug(root.has_keys()),
        "whole" => out.debug(root.is_whole()),
        "replace" => match root.replace(place, Value::new(ValueInner::Integer(number))) {
            Ok(old) => push_back("gives ", old, out),
            Err(back) => push_back("gives back ", back, out),
        },
        _ => return push_lent(root, operation, number, out),
    }
    true
}

/// Makes the calls that the words describe, and prints their results and then the lines of the tree. Stops and returns
/// `false` at a word that is not a call.
pub fn push_writes<'t>(
    alloc: Global,
    words: &'t [String],
    root: &mut Value<'t>,
    out: &mut Out,
) -> bool {
    for word in words {
        let word = word.as_str();
        out.push_str(word);
        out.push_str(" ");
        let (name, after) = word.split_once('=').unwrap_or((word, ""));
        let (place, rest) = match after.split_once('=') {
            Some((place, rest)) => (place, Some(rest)),
            None => (after, None),
        };
        if !push_operation(alloc, root, Operation { name, place, rest }, out) {
            return false;
        }
        out.push_str("\n");
    }
    push_lines(alloc, root, out);
    true
}
