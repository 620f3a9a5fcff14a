//! `again`: parses each number, boolean, date, time, array and inline table of a document again, after `x =`.
use crate::output::Out;
use crate::trees::shown::push_lines;
use std::alloc::Global;
use toml_span::parse;
use toml_span::value::{Value, nodes};

/// Parses `piece`, which begins at the offset `start` of the document, and prints the lines of its value. Blanks before
/// the piece make the spans the same as in the document, if `start` is at least 3.
fn push_reread(alloc: Global, piece: &str, start: usize, out: &mut Out) {
    let width = start.saturating_sub(3);
    let Some(text) = out.ok(format!(in alloc; "x ={:1$}{piece}", "", width)) else {
        return;
    };
    match parse(alloc, text.as_str()) {
        Ok(root) => {
            if let Some(value) = root.pointer("/x") {
                push_lines(alloc, value, out);
            }
            drop(root);
        }
        Err(stop) => drop(out.ok(stop.fault())),
    }
}

/// Returns whether `piece`, parsed by `push_reread`, has the same lines as `value`.
fn is_read_again(alloc: Global, piece: &str, value: &Value<'_>, out: &mut Out) -> bool {
    let mut lines = Out::new(alloc);
    push_lines(alloc, value, &mut lines);
    let mut again = Out::new(alloc);
    push_reread(alloc, piece, value.span.start, &mut again);
    out.out_of_memory = out.out_of_memory || lines.out_of_memory || again.out_of_memory;
    lines.text == again.text
}

/// Returns whether a value is written in one piece: a number, boolean, date or time, an array in brackets, or a table
/// in braces.
fn is_piece(text: &str, value: &Value<'_>) -> bool {
    let start = value.span.start;
    let (bracket, inner) = match (value.as_array(), value.as_table()) {
        (Some(array), _) => (b'[', array.first()),
        (_, Some(table)) => (b'{', table.values().next()),
        _ => return value.as_str().is_none() && !value.is_taken(),
    };
    let is_outer = match inner {
        Some(inner) => inner.span.start != start,
        None => true,
    };
    is_outer && text.as_bytes().get(start).copied() == Some(bracket)
}

/// Prints each piece of a document, and whether it has the same lines when it is parsed again.
pub fn push_again(alloc: Global, text: &str, root: &Value<'_>, out: &mut Out) {
    let Some(list) = out.ok(nodes(alloc, root)) else {
        return;
    };
    for visited in list.iter() {
        let value = visited.value;
        if !is_piece(text, value) {
            continue;
        }
        let Some(piece) = text.get(value.span.start..value.span.end) else {
            return out.push_str("no place of the text\n");
        };
        let is_read = is_read_again(alloc, piece, value, out);
        out.debug(piece);
        out.push_str(if is_read { " the same\n" } else { " another\n" });
    }
}
