//! Formats several reports. If an allocation fails, the output so far is dropped.
ghost use Rattle.std.specs.Prelude.{◌≡◌, ◌++◌, codes, IfOk, OnOk, map, option_map, string_bytes};
ghost use Rattle.std.specs.List.{count_by, flat_map};
ghost use Rattle.toml_span_report.specs.Many as spec;
ghost use Rattle.toml_span_report.specs.Many.{AreReportTexts, drawn_content};
ghost use Rattle.toml_span_report.specs.Report.{report_content};
ghost use Rattle.toml_span_report.specs.Strips.{strip_content};

use crate::colours::Style;
use crate::rendering::{drawn_report, main_strip, push_before, severity_word};
use crate::report::{Report, Severity};
use crate::strips::{Strip, all_strips};
use std::alloc::{AllocError, Global};
use std::fmt::Write;

/// A formatted report, and the offset by which it is sorted.
#[derive(Drop)]
pub(crate) struct Drawn {
    at: usize,
    text: String,
}

/// Returns the offset of a strip, or 0 for `None`.
fn sort_offset(strip: Option<Strip<'_>>) -> usize
    ensures { result ≡ spec.sort_offset (option_map strip_content strip.entry) }
{
    match strip {
        Some(strip) => strip.at,
        None => 0,
    }
}

/// Returns the text of a report with the offset of its `main_strip`, or with 0 if it has no labels. `name` is the name
/// of the file, `text` the source.
fn draw(
    alloc: Global,
    style: Style,
    report: &Report,
    name: &str,
    text: &str,
) -> Result<Drawn, AllocError>
    ensures { IfOk result (λ made. drawn_content made
        ≡ spec.drawn_with_offset style name.now text.now (report_content report.now)) }
{
    let strips = all_strips(alloc, text, report.labels.as_slice())?;
    let at = sort_offset(main_strip(strips.as_slice()));
    let text = drawn_report(alloc, style, report, name, strips.as_slice())?;
    Ok(Drawn { at, text })
}

/// Returns the text of each report with the offset by which it is sorted (`draw`). `name` is the name of the file,
/// `text` the source.
fn draw_all(
    alloc: Global,
    style: Style,
    reports: &[Report],
    name: &str,
    text: &str,
) -> Result<Vec<Drawn>, AllocError>
    ensures { IfOk result (λ made. map drawn_content made.items
        ≡ map (λ report. spec.drawn_with_offset style name.now text.now (report_content report)) reports.now) }
{
    let mut made = Vec::with_capacity(alloc, reports.len())?;
    for report in reports {
        made.push(draw(alloc, style, report, name, text)?)?;
    }
    Ok(made)
}

/// Appends the texts of the reports to `out`, each with a blank line after it.
fn push_texts(out: &mut String, drawn: &[Drawn]) -> Result<(), AllocError>
    ensures { OnOk result (string_bytes out.new ≡ string_bytes out.old
        ++ flat_map spec.with_blank_line (map drawn_content drawn.now)) }
{
    for report in drawn {
        out.push_str(report.text.as_str())?;
        out.push_str("\n")?;
    }
    Ok(())
}

/// Returns whether the report has this severity.
fn is_of(severity: Severity, report: &Report) -> bool
    ensures { result ≡ spec.is_of severity (report_content report.now) }
{
    match severity {
        Severity::Error => matches!(report.severity, Severity::Error),
        Severity::Warning => matches!(report.severity, Severity::Warning),
        Severity::Note => matches!(report.severity, Severity::Note),
    }
}

/// Returns the number of reports with this severity.
fn count_of(severity: Severity, reports: &[Report]) -> usize
    ensures { result ≡ count_by (spec.is_of severity) (map report_content reports.now) }
{
    let mut count = 0usize;
    for report in reports {
        if is_of(severity, report) {
            count = count.saturating_add(1);
        }
    }
    count
}

/// Appends `count` and `word` to `line`, such as `3 errors`, or nothing if `count` is 0. A comma comes first unless
/// `line` is empty. `word` is the singular.
fn push_count(line: &mut String, count: usize, word: &str) -> Result<(), AllocError>
    ensures { OnOk result (string_bytes line.new ≡ spec.with_count (string_bytes line.old) count word.now) }
{
    if count == 0 {
        return Ok(());
    }
    if !line.is_empty() {
        line.push_str(", ")?;
    }
    write!(line, "{count} {word}")?;
    if count != 1 {
        line.push_str("s")?;
    }
    Ok(())
}

/// Returns the number of errors, warnings and notes as text, such as `3 errors, 1 warning`. Without reports, the text
/// is empty.
fn total(alloc: Global, reports: &[Report]) -> Result<String, AllocError>
    ensures { IfOk result (λ line. string_bytes line ≡ spec.total (map report_content reports.now)) }
{
    let mut line = String::new(alloc);
    push_count(
        &mut line,
        count_of(Severity::Error, reports),
        severity_word(Severity::Error),
    )?;
    push_count(
        &mut line,
        count_of(Severity::Warning, reports),
        severity_word(Severity::Warning),
    )?;
    push_count(
        &mut line,
        count_of(Severity::Note, reports),
        severity_word(Severity::Note),
    )?;
    Ok(line)
}

/// Returns the texts in `drawn`, each with a blank line after it, and then a line that counts `reports` (`total`).
/// Without reports, the line is left out.
fn joined(alloc: Global, drawn: &[Drawn], reports: &[Report]) -> Result<String, AllocError>
    ensures { IfOk result (λ out. string_bytes out
        ≡ spec.joined (map drawn_content drawn.now) (map report_content reports.now)) }
{
    let mut out = String::new(alloc);
    push_texts(&mut out, drawn)?;
    let total = total(alloc, reports)?;
    push_before(&mut out, "\n", total.as_str())?;
    Ok(out)
}

/// Returns the text of several reports on one source. Each report is formatted by `render`, and followed by a blank
/// line. The last line counts the reports, as in `3 errors, 1 warning`. `name` is the name of the file, `text` the
/// source.
///
/// Reports are sorted by position: the line and column that `render` prints. Reports at the same position keep their
/// order, and a report without labels is sorted as if it were at the start. Without reports, the text is empty. Fails
/// if an allocation fails.
pub fn render_all(
    alloc: Global,
    style: Style,
    reports: &[Report],
    name: &str,
    text: &str,
) -> Result<String, AllocError>
    ensures { IfOk result (λ out. AreReportTexts style name.now text.now (map report_content reports.now)
        (string_bytes out)) }
{
    let mut drawn = draw_all(alloc, style, reports, name, text)?;
    drawn.sort_by_key(|report| report.at)?;
    joined(alloc, drawn.as_slice(), reports)
}
