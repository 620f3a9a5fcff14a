//! Prints the lines of trees and of errors.
use crate::output::Out;
use std::alloc::Global;
use std::borrow::CowStr;
use toml_span::Error;
use toml_span::value::{Step, Value, ValueInner, nodes};

/// Prints a path, which is empty for the root. In names, spaces, slashes, percent signs and bytes other than printable
/// ASCII are written as `%` and two hexadecimal digits.
fn push_path(steps: &[Step<'_>], out: &mut Out) {
    for step in steps {
        out.push_str("/");
        match step {
            Step::Key(name) => {
                for byte in name.bytes() {
                    let pushed = if byte.is_ascii_graphic() && byte != b'/' && byte != b'%' {
                        out.text.push(char::from(byte))
                    } else {
                        write!(out.text, "%{byte:02X}")
                    };
                    out.ok(pushed);
                }
            }
            Step::Position(position) => out.debug(position),
        }
    }
}

/// Prints the kind and the span of a value.
pub fn push_kind(value: &Value<'_>, out: &mut Out) {
    out.push_str(if value.is_taken() {
        "taken"
    } else {
        value.as_ref().type_str()
    });
    out.push_str(" ");
    out.span(value.span);
}

/// Prints `owned` if a text is not borrowed from the document.
pub fn push_owned(text: &CowStr<'_>, out: &mut Out) {
    if let CowStr::Owned(_) = text {
        out.push_str(" owned");
    }
}

/// Prints a string, and whether it is owned.
pub fn push_string(text: &CowStr<'_>, out: &mut Out) {
    out.push_str(" ");
    out.debug(text);
    push_owned(text, out);
}

/// Prints the content of a value. Prints nothing for an array, a table or a taken value.
fn push_scalar(value: &Value<'_>, out: &mut Out) {
    if value.is_taken() {
        return;
    }
    let inner = value.as_ref();
    if let ValueInner::String(text) = inner {
        return push_string(text, out);
    }
    if matches!(inner, ValueInner::Array(_) | ValueInner::Table(_)) {
        return;
    }
    out.push_str(" ");
    match inner {
        ValueInner::Integer(number) => out.debug(number),
        ValueInner::Float(float) => out.push_str(float.text()),
        ValueInner::Boolean(truth) => out.debug(truth),
        ValueInner::Datetime(date) => out.push_str(date.text()),
        _ => {}
    }
}

/// Prints the lines of a value and of all values inside.
pub fn push_lines(alloc: Global, value: &Value<'_>, out: &mut Out) {
    let Some(list) = out.ok(nodes(alloc, value)) else {
        return;
    };
    for visited in list.iter() {
        let path = visited.path.as_slice();
        push_path(path, out);
        out.push_str(if path.is_empty() { "root " } else { " " });
        push_kind(visited.value, out);
        if let Some(key) = visited.key {
            out.push_str(" key ");
            out.span(key.span);
            push_owned(&key.name, out);
        }
        push_scalar(visited.value, out);
        out.push_str("\n");
    }
}

/// Prints the kind and the span of a value and, for a scalar, its content. Prints `none` if there is no value.
pub fn push_named(value: Option<&Value<'_>>, out: &mut Out) {
    match value {
        Some(value) => {
            push_kind(value, out);
            push_scalar(value, out);
        }
        None => out.push_str(" none"),
    }
}

/// Prints `said` and a value, and drops the value.
pub fn push_back(said: &str, value: Value<'_>, out: &mut Out) {
    out.push_str(said);
    push_named(Some(&value), out);
    drop(value);
}

/// Prints an error: the code, the span, and the line and column.
pub fn push_error_head(fault: &Error<'_>, out: &mut Out) {
    out.display(&fault.kind);
    out.push_str(" ");
    out.span(fault.span);
    match fault.line_info {
        Some((line, column)) => {
            out.push_str(" ");
            out.debug(line);
            out.push_str(":");
            out.debug(column);
        }
        None => out.push_str(" no line"),
    }
}

/// Prints an error of `parse`: the code, the span, the line and column, and the kind.
pub fn push_fault(fault: &Error<'_>, out: &mut Out) {
    out.push_str("error ");
    push_error_head(fault, out);
    out.push_str(" ");
    out.debug(&fault.kind);
}
