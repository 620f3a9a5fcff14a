//! Calls on the sections of a text. If the text can't be read, they print its error.
//!
//! - `read LIMIT`: the sections, one per line. Each key, header and value is followed by `@` and its span. The span of
//!   a header is followed by `@` and the extent of the section, that of a value by `@` and the extent of the
//!   assignment.
//! - `key_places`, `insertion_point` and `table_forms`: see `places`.
use crate::output::Out;
use crate::trees::limit_of;
use crate::trees::shown::push_fault;
use crate::{Row, places};
use std::alloc::Global;
use toml_span::Span;
use toml_span::value::Key;
use toml_span_read::{Assignment, Section, read_sections};

/// Prints a span after `@`.
fn push_place(span: Span, out: &mut Out) {
    out.push_str("@");
    out.span(span);
}

/// Prints a key, its span, and the text `after`.
fn push_key(key: &Key<'_>, after: &str, out: &mut Out) {
    out.push_str(key.name.as_ref());
    push_place(key.span, out);
    out.push_str(after);
}

/// Prints a space and an assignment.
fn push_assignment(assignment: &Assignment<'_>, out: &mut Out) {
    out.push_str(" ");
    for key in &assignment.parts.inner {
        push_key(key, ".", out);
    }
    push_key(&assignment.parts.last, "=", out);
    out.debug(&assignment.value.kind);
    push_place(assignment.value.span, out);
    push_place(assignment.extent, out);
}

/// Prints a line for each section, or `no sections`.
fn push_sections(sections: &[Section<'_>], out: &mut Out) {
    if sections.is_empty() {
        out.push_str("no sections");
    }
    for section in sections {
        out.push_str(if section.array { "[[" } else { "[" });
        for key in section.header.as_slice() {
            push_key(key, ".", out);
        }
        out.push_str("]");
        push_place(section.header_span, out);
        push_place(section.extent, out);
        for assignment in &section.assignments {
            push_assignment(assignment, out);
        }
        out.push_str("\n");
    }
}

/// Prints the answer to a call on sections.
fn push_call(alloc: Global, row: Row<'_>, sections: &[Section<'_>], out: &mut Out) {
    match row.call {
        "read" => push_sections(sections, out),
        "key_places" => places::push_keys(alloc, row.text, sections, out),
        "insertion_point" => places::push_point(alloc, row, sections, out),
        _ => places::push_forms(alloc, row, sections, out),
    }
}

/// Prints the answer to a row. Returns `false` if this module has no such call, or if a word of the row is wrong.
pub fn answer(alloc: Global, row: Row<'_>, out: &mut Out) -> bool {
    if !matches!(
        row.call,
        "read" | "key_places" | "insertion_point" | "table_forms"
    ) {
        return false;
    }
    let Some(limit) = limit_of(row) else {
        return false;
    };
    match read_sections(alloc, row.text, limit) {
        Ok(sections) => push_call(alloc, row, sections.as_slice(), out),
        Err(stop) => {
            if let Some(fault) = out.ok(stop.fault()) {
                push_fault(&fault, out);
                drop(fault);
            }
        }
    }
    true
}
