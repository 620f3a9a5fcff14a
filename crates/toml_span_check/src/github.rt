//! Prints a report as a command for GitHub workflows, which annotates source lines. A command has properties, such as
//! `file=a.toml`, and a message.
ghost use Rattle.std.specs.Prelude.{◌≡◌, ◌++◌, OnOk, IfOk, map, string_bytes};
ghost use Rattle.std.specs.Fmt.{decimal};
ghost use Rattle.toml_span_tree.specs.Diagnostic.{label_content};
ghost use Rattle.toml_span_report.specs.Report.{report_content};
ghost use Rattle.toml_span_check.specs.Github as spec;

use std::alloc::{AllocError, Global};
use std::fmt::Write;
use toml_span::{Label, Span};
use toml_span_report::visible::push_visible;
use toml_span_report::{Report, Severity, clipped_span, clipped_text, line_column};

/// Returns the workflow command, such as `::error`, for a severity.
fn command_of(severity: Severity) -> &'static str
    ensures { result.now ≡ spec.command_of severity }
{
    match severity {
        Severity::Error => "::error",
        Severity::Warning => "::warning",
        Severity::Note => "::notice",
    }
}

/// Appends a character of a message, escaped if a workflow command requires it.
fn push_message_char(out: &mut String, c: char) -> Result<(), AllocError>
    ensures { OnOk result (string_bytes out.new ≡ string_bytes out.old ++ spec.message_char c) }
{
    match c {
        '%' => out.push_str("%25"),
        '\r' => out.push_str("%0D"),
        '\n' => out.push_str("%0A"),
        _ => out.push(c),
    }
}

/// Appends a character of a property's value, escaped if a workflow command requires it.
fn push_property_char(out: &mut String, c: char) -> Result<(), AllocError>
    ensures { OnOk result (string_bytes out.new ≡ string_bytes out.old ++ spec.property_char c) }
{
    match c {
        ':' => out.push_str("%3A"),
        ',' => out.push_str("%2C"),
        _ => push_message_char(out, c),
    }
}

/// Returns a message with the escapes of a workflow command.
fn escaped_message(alloc: Global, text: &str) -> Result<String, AllocError>
    ensures { IfOk result (λ out. string_bytes out ≡ spec.escaped_message text.now) }
{
    let mut out = String::new(alloc);
    for c in text.chars() {
        push_message_char(&mut out, c)?;
    }
    Ok(out)
}

/// Returns the value of a property with the escapes of a workflow command.
fn escaped_property(alloc: Global, text: &str) -> Result<String, AllocError>
    ensures { IfOk result (λ out. string_bytes out ≡ spec.escaped_property text.now) }
{
    let mut out = String::new(alloc);
    for c in text.chars() {
        push_property_char(&mut out, c)?;
    }
    Ok(out)
}

/// Appends a message, cut as `clipped_text` cuts it, with the escapes of a workflow command and of `push_visible`.
fn push_message(alloc: Global, out: &mut String, text: &str) -> Result<(), AllocError>
    ensures { OnOk result (string_bytes out.new ≡ string_bytes out.old ++ spec.message text.now) }
{
    let text = clipped_text(alloc, text)?;
    let escaped = escaped_message(alloc, text.as_str())?;
    push_visible(out, escaped.as_str())
}

/// Appends the value of a property with the escapes of a workflow command and of `push_visible`.
fn push_property(alloc: Global, out: &mut String, text: &str) -> Result<(), AllocError>
    ensures { OnOk result (string_bytes out.new ≡ string_bytes out.old ++ spec.property text.now) }
{
    let escaped = escaped_property(alloc, text)?;
    push_visible(out, escaped.as_str())
}

/// Appends `title` and then a number in decimal digits.
pub(crate) fn push_number(out: &mut String, title: &str, number: usize) -> Result<(), AllocError>
    ensures { OnOk result (string_bytes out.new ≡ string_bytes out.old ++ title.now ++ decimal number) }
{
    out.push_str(title)?;
    write!(out, "{number}")
}

/// Returns the end of a span or, if the span ends with a line feed, the offset of the line feed. If the span ends
/// before its start, returns the start.
fn marked_end(text: &str, span: Span) -> usize
    ensures { result ≡ spec.marked_end text.now span }
{
    let bytes = text.as_bytes();
    if span.start < span.end && span.end <= bytes.len() && bytes[span.end - 1] == b'\n' {
        span.end - 1
    } else {
        span.start.max(span.end)
    }
}

/// Appends the columns of the start and the end of a region, or nothing if they are on different lines. `start` and
/// `end` are pairs of a line and a column, counted from 1. The region ends before `end`.
#[tactic(auto, unfolding(crate::specs::Github::columns))]
fn push_columns(
    out: &mut String,
    start: (usize, usize),
    end: (usize, usize),
) -> Result<(), AllocError>
    ensures { OnOk result (string_bytes out.new ≡ string_bytes out.old ++ spec.columns start end) }
{
    if start.0 != end.0 {
        return Ok(());
    }
    push_number(out, ",col=", start.1)?;
    push_number(out, ",endColumn=", end.1)
}

/// Appends the line numbers of a region and, if it has only one line, its columns. `start` and `end` are pairs of a
/// line and a column, counted from 1. The region ends before `end`.
#[tactic(auto, unfolding(crate::specs::Github::line_properties))]
fn push_lines(
    out: &mut String,
    start: (usize, usize),
    end: (usize, usize),
) -> Result<(), AllocError>
    ensures { OnOk result (string_bytes out.new ≡ string_bytes out.old ++ spec.line_properties start end) }
{
    push_number(out, ",line=", start.0)?;
    push_number(out, ",endLine=", end.0)?;
    push_columns(out, start, end)
}

/// Appends the line numbers of a span in the source `text` (`clipped_span`) and, if the span is on one line, its columns.
fn push_region(out: &mut String, text: &str, span: Span) -> Result<(), AllocError>
    ensures { OnOk result (string_bytes out.new ≡ string_bytes out.old ++ spec.region_properties text.now span) }
{
    let span = clipped_span(text, span);
    let start = line_column(text, span.start);
    let end = line_column(text, marked_end(text, span));
    push_lines(out, start, end)
}

/// Appends the line numbers of the first primary label in the source `text` and, if the label is on one line, its
/// columns. Appends nothing if no label is primary.
fn push_place(out: &mut String, text: &str, labels: &[Label<()>]) -> Result<(), AllocError>
    ensures { OnOk result (string_bytes out.new ≡ string_bytes out.old
        ++ spec.primary_region text.now (map label_content labels.now)) }
{
    for label in labels {
        if label.primary {
            return push_region(out, text, label.span);
        }
    }
    Ok(())
}

/// Returns a report as one workflow command, with a line feed at the end. `text` is the source of the file `name`.
pub(crate) fn github(
    alloc: Global,
    report: &Report,
    name: &str,
    text: &str,
) -> Result<String, AllocError>
    ensures { IfOk result (λ out. string_bytes out ≡ spec.github (report_content report.now) name.now text.now) }
{
    let mut out = String::from_str(alloc, command_of(report.severity))?;
    out.push_str(" file=")?;
    push_property(alloc, &mut out, name)?;
    push_place(&mut out, text, report.labels.as_slice())?;
    out.push_str(",title=")?;
    push_property(alloc, &mut out, report.code.as_str())?;
    out.push_str("::")?;
    push_message(alloc, &mut out, report.message.as_str())?;
    out.push_str("\n")?;
    Ok(out)
}
