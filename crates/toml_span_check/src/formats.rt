//! Prints reports in each output format.
ghost use Rattle.std.specs.Prelude.{◌≡◌, IfOk, string_bytes};
ghost use Rattle.toml_span_report.specs.Report.{report_content};
ghost use Rattle.toml_span_check.specs.Formats as spec;

use crate::fixable::words_of;
use crate::github::github;
use crate::sarif::sarif;
use std::alloc::{AllocError, Global};
use toml_span_report::{Report, Style, render, render_json, render_line};

/// The output format of reports.
#[derive(Clone, Copy, PartialEq, Eq)]
pub enum Format {
    /// Source lines with marks, and a blank line after each report.
    Text(Style),
    /// One line per report.
    Short,
    /// One line of JSON per report.
    Json,
    /// One command for GitHub Actions per report.
    Github,
    /// One SARIF document for all reports.
    Sarif,
}

/// Returns a report with source lines and marks, and a blank line at the end. `text` is the source of the file `name`.
fn marked_text(
    alloc: Global,
    style: Style,
    report: &Report,
    name: &str,
    text: &str,
) -> Result<String, AllocError>
    ensures { IfOk result (λ out. string_bytes out
        ≡ spec.marked_text style (report_content report.now) name.now text.now) }
{
    let mut out = render(alloc, style, report, name, text)?;
    out.push_str("\n")?;
    Ok(out)
}

/// Returns a report in this format. `text` is the source of the file `name`. In SARIF, the report is a comma, a line
/// feed and a `result` object.
pub(crate) fn formatted_report(
    alloc: Global,
    format: Format,
    report: &Report,
    name: &str,
    text: &str,
) -> Result<String, AllocError>
    ensures { IfOk result (λ out. string_bytes out
        ≡ spec.formatted_report format (report_content report.now) name.now text.now) }
{
    match format {
        Format::Text(style) => marked_text(alloc, style, report, name, text),
        Format::Short => render_line(alloc, report, name, text),
        Format::Json => render_json(alloc, report, name, text),
        Format::Github => github(alloc, report, name, text),
        Format::Sarif => sarif(alloc, report, name, text),
    }
}

/// Returns the text with `words` at the end of its last line that is not blank, and with a blank line after it. Returns
/// the text unchanged if `words` is empty.
fn with_words(alloc: Global, text: String, words: &str) -> Result<String, AllocError>
    ensures { IfOk result (λ out. string_bytes out ≡ spec.with_words (string_bytes text) words.now) }
{
    if words.is_empty() {
        return Ok(text);
    }
    let mut out = String::from_str(alloc, text.as_str().trim_end())?;
    out.push_str(words)?;
    out.push_str("\n\n")?;
    Ok(out)
}

/// Returns a report, whose fix `check --fix` may apply, as `formatted_report` does. In the format `text`, its last line
/// says whether the fix is safe.
pub(crate) fn fixable_report(
    alloc: Global,
    format: Format,
    report: &Report,
    name: &str,
    text: &str,
) -> Result<String, AllocError>
    ensures { IfOk result (λ out. string_bytes out
        ≡ spec.fixable_report format (report_content report.now) name.now text.now) }
{
    let shown = formatted_report(alloc, format, report, name, text)?;
    match format {
        Format::Text(_) => with_words(alloc, shown, words_of(report)),
        _ => Ok(shown),
    }
}
