//! Calls that find places in a text, as editors need them.
//!
//! - `key_places`: for each key, the path to what it names, its role, and its span without and with quotes.
//! - `table_forms STEP ..`: how the text names the table at this path.
//! - `insertion_point STEP ..`: where to insert a line into the table at this path, and the text with `new = 0` there.
//! - `node_at OFFSET`: the key or value at this offset: its path, whether it is a key or a value, its span, and its
//!   text.
//!
//! A STEP that is a number is a position. Any other STEP is a key.
use crate::Row;
use crate::output::Out;
use std::alloc::{AllocError, Global};
use toml_span::Span;
use toml_span::value::{Step, Value};
use toml_span_places::{insertion_point, key_places, node_at, replaced, table_forms};
use toml_span_read::Section;

/// Converts words to the steps of a path: a number to a position, any other word to a key.
fn steps_of<'r>(alloc: Global, words: &'r [String]) -> Result<Vec<Step<'r>>, AllocError> {
    let mut steps = Vec::new(alloc);
    for word in words {
        steps.push(match word.as_str().parse::<usize>() {
            Ok(position) => Step::Position(position),
            Err(_) => Step::Key(word.as_str()),
        })?;
    }
    Ok(steps)
}

/// Prints a path, with a space after each step.
fn push_steps(steps: &[Step<'_>], out: &mut Out) {
    for step in steps {
        match step {
            Step::Key(name) => out.debug(name),
            Step::Position(position) => out.debug(position),
        }
        out.push_str(" ");
    }
}

/// Prints the answer to `key_places`.
pub fn push_keys(alloc: Global, text: &str, sections: &[Section<'_>], out: &mut Out) {
    if let Some(places) = out.ok(key_places(alloc, text, sections)) {
        for place in &places {
            push_steps(place.path.as_slice(), out);
            out.debug_line((place.role, place.span, place.whole));
        }
    }
}

/// Prints the answer to `table_forms`.
pub fn push_forms(alloc: Global, row: Row<'_>, sections: &[Section<'_>], out: &mut Out) {
    let Some(steps) = out.ok(steps_of(alloc, row.words)) else {
        return;
    };
    let Some(forms) = out.ok(table_forms(alloc, sections, steps.as_slice())) else {
        return;
    };
    if forms.is_empty() {
        out.push_str("none");
    }
    for form in &forms {
        out.debug_line(*form);
    }
}

/// Prints the answer to `insertion_point`.
pub fn push_point(alloc: Global, row: Row<'_>, sections: &[Section<'_>], out: &mut Out) {
    let Some(steps) = out.ok(steps_of(alloc, row.words)) else {
        return;
    };
    let made = insertion_point(alloc, row.text, sections, steps.as_slice());
    let Some(Some(point)) = out.ok(made) else {
        return out.push_str("none");
    };
    out.debug_line((point.offset, point.needs_line_end));
    let line = if point.needs_line_end {
        "\nnew = 0\n"
    } else {
        "new = 0\n"
    };
    let spans = [Span::new(point.offset, point.offset)];
    if let Some(Some(new)) = out.ok(replaced(alloc, row.text, &spans, line)) {
        out.debug(new);
    }
}

/// Prints the answer to `node_at`. Returns `false` if the row's first word is not a number.
pub fn push_node_at(alloc: Global, row: Row<'_>, root: &Value<'_>, out: &mut Out) -> bool {
    let Ok(offset) = row.word(0).parse::<usize>() else {
        return false;
    };
    match out.ok(node_at(alloc, root, row.text, offset)) {
        Some(Some(place)) => {
            push_steps(place.path.as_slice(), out);
            out.debug((place.part, place.span));
            out.push_str(" ");
            let span = place.span;
            out.debug_line(row.text.get(span.start..span.end).unwrap_or("no place"));
        }
        _ => out.push_str("none"),
    }
    true
}
