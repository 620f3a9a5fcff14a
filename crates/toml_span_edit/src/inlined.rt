//! Writes tables that headers or dotted keys define as inline tables.
use crate::document::Document;
use crate::given::probe_text;
use crate::lines::part;
use crate::made::child;
use crate::mentions::{PathMention, last_part, part_at};
use crate::same::same_tree;
use crate::text::Text;
use std::alloc::AllocError;
use toml_span::value::Value;
use toml_span::{Span, Stop, parse};
use toml_span_places::{to_toml, with_quotes};
use toml_span_read::Section;

/// Appends a pair of an inline table, in three pieces, after a comma unless it is the first one.
fn push_pair(one: &str, two: &str, three: &str, out: &mut Text) {
    if out.len() > 1 {
        out.push(", ");
    }
    out.push_all(one, two, three);
}

/// Appends the assignments of `section` as pairs of an inline table. `table` is the dotted key of the section's table
/// in the inline table, or empty if both are the same.
fn push_pairs(text: &str, section: &Section<'_>, table: &str, out: &mut Text) {
    if section.assignments.is_empty() && !table.is_empty() {
        push_pair(table, " = {}", "", out);
    }
    let dot = if table.is_empty() { "" } else { "." };
    for assignment in &section.assignments {
        let Span { start, end } = assignment.extent;
        push_pair(table, dot, part(text, start, end), out);
    }
}

/// Returns the table at `path` as an inline table: its entries as they are written in `document`, in the same order,
/// but with dotted keys for the tables inside it.
fn in_braces(document: Document<'_, '_>, path: &[&str]) -> Result<String, AllocError> {
    let text = document.text;
    let mentions = document.mentions(path)?;
    let mut out = Text::new(document.alloc);
    out.push("{");
    for mention in &mentions {
        match *mention {
            PathMention::Own(section) => push_pairs(text, section, "", &mut out),
            PathMention::Below(section, index) => {
                let start = document.header_span(section, index).end;
                let end = document.header_span(section, last_part(section)).end;
                let table = part(text, start, end).trim_start_matches([' ', '\t', '.']);
                push_pairs(text, section, table, &mut out);
            }
            PathMention::Dotted(assignment, index, _) => {
                let key = part_at(&assignment.parts, index.saturating_add(1));
                let start = with_quotes(text, key.span).start;
                push_pair(part(text, start, assignment.extent.end), "", "", &mut out);
            }
            _ => {}
        }
    }
    out.push("}");
    out.finish()
}

/// Returns the text of `value`, the table or array of tables at `path` of `document`, as one TOML value. The entries of
/// a table are in the order and the spelling of `document`, unless arrays of tables are inside it.
pub(crate) fn inline_text(
    document: Document<'_, '_>,
    path: &[&str],
    value: &Value<'_>,
) -> Result<String, AllocError> {
    let written = in_braces(document, path)?;
    let probe = probe_text(document.alloc, written.as_str())?;
    let is_same = match parse(document.alloc, probe.as_str()) {
        Ok(root) => match child(&root, "v") {
            Some(given) => same_tree(given, value),
            None => false,
        },
        Err(Stop::Fault(_error)) => false,
        Err(Stop::Memory(error)) => return Err(error),
    };
    if is_same {
        return Ok(written);
    }
    to_toml(document.alloc, value)
}
