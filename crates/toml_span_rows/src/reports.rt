//! Calls that print reports on a text in the file `a.toml`, find the nearest name, or quote a text.
//!
//! - `nearest WORD`: what `nearest` returns for the word and the names in the text. Spaces separate the names.
//! - `without_labels MESSAGE`: three reports with this message: a warning with three labels, and a note and an error
//!   without labels. They are printed together, then as one line each, then as JSON.
//! - `quoted`: the text as a JSON string. `quote_key`, `quote_string`: the text as a key and as a string of TOML.
use crate::Row;
use crate::output::Out;
use std::alloc::{AllocError, Global};
use toml_span::Span;
use toml_span_places::{quote_key, quote_string};
use toml_span_report::visible::push_quoted;
use toml_span_report::{Report, Severity, Style, nearest, render_all, render_json, render_line};

/// The name of the file in reports.
const FILE: &str = "a.toml";

/// Prints the answer to a row. Returns `false` if this module has no such call.
pub fn answer(alloc: Global, row: Row<'_>, out: &mut Out) -> bool {
    match row.call {
        "nearest" => {
            let made: Result<Vec<&str>, AllocError> = row.text.split(' ').collect(alloc);
            if let Some(names) = out.ok(made) {
                out.debug(nearest(alloc, row.word(0), names.as_slice()));
            }
        }
        "without_labels" => push_without_labels(alloc, row, out),
        "quote_key" => out.made(quote_key(alloc, row.text)),
        "quote_string" => out.made(quote_string(alloc, row.text)),
        "quoted" => {
            let pushed = push_quoted(alloc, &mut out.text, row.text);
            out.ok(pushed);
        }
        _ => return false,
    }
    true
}

/// Returns the reports that `without_labels` prints, each with this message.
fn reports_of(alloc: Global, message: &str) -> Result<Vec<Report>, AllocError> {
    let warning = Report::warning(alloc, "", message)?
        .secondary(Span::new(4, 5), "second")?
        .primary(Span::new(2, 3), "first")?
        .primary(Span::new(0, 1), "")?
        .note("one note")?
        .help("one way")?
        .note("another note")?
        .help("another way")?;
    let mut reports = Vec::new(alloc);
    reports.push(warning)?;
    reports.push(Report::new(alloc, Severity::Note, "noted", message)?)?;
    reports.push(Report::error(alloc, "wrong", message)?)?;
    Ok(reports)
}

/// Prints the answer to `without_labels`.
fn push_without_labels(alloc: Global, row: Row<'_>, out: &mut Out) {
    let Some(reports) = out.ok(reports_of(alloc, row.word(0))) else {
        return;
    };
    out.made(render_all(alloc, Style::Plain, reports.as_slice(), FILE, row.text));
    for report in &reports {
        out.made(render_line(alloc, report, FILE, row.text));
    }
    for report in &reports {
        out.made(render_json(alloc, report, FILE, row.text));
    }
}
