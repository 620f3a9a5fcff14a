//! Makes reports of errors, and formats these reports as text.
ghost use Rattle.std.specs.Prelude.{◌≡◌, [], IfOk, OnOk, map, string_bytes};
ghost use Rattle.toml_span_tree.specs.Diagnostic.{label_content, labels_of};
ghost use Rattle.toml_span_tree.specs.Error.{content_of, kind_of};
ghost use Rattle.toml_span_tree.specs.Errors.{all};
ghost use Rattle.toml_span_mistakes.specs.Errors as spec;
ghost use Rattle.toml_span_mistakes.specs.Errors.{AddsReports, AreReports, AreShown, IsReport, ReportsError};
ghost use Rattle.toml_span_mistakes.specs.Findings as findings;
ghost use Rattle.toml_span_mistakes.specs.Findings.{TellsFinding};
ghost use Rattle.toml_span_report.specs.Report.{report_content};
ghost use Rattle.toml_span_report.specs.declared.report.Severity.TheVariants as severities;

use crate::finding::Finding;
use crate::help;
use crate::mistakes::mistake_of;
use crate::repairs::{finding_help, finding_labels, finding_repairs};
use crate::tokens::marked_span;
use crate::unknown_keys::{
    deprecated, key_labels, key_names, lent_names, one_of, suggestions, unknown_keys,
    what_is_expected,
};
use crate::words::code_name;
use std::alloc::{AllocError, Global};
use toml_span_lex::span::Span;
use toml_span_lex::stop::Stop;
use toml_span_report::{Report, Severity, Style, render, render_all};
use toml_span_tree::{DeserError, Error, ErrorKind, Label};

/// Returns the message for the report of `error`, to be used if no recognized mistake has a headline.
fn message(alloc: Global, error: &Error<'_>) -> Result<String, AllocError>
    ensures { IfOk result (λ text. string_bytes text ≡ spec.message (kind_of error.now.kind)) }
{
    match &error.kind {
        ErrorKind::UnexpectedKeys { keys, .. } => {
            let names = key_names(alloc, keys.as_slice())?;
            unknown_keys(alloc, names.as_slice())
        }
        ErrorKind::UnexpectedValue { expected, .. } => one_of(alloc, *expected),
        ErrorKind::OutOfRange(name) => format!(in alloc; "out of range of `{name}`"),
        ErrorKind::MissingField(field) => format!(in alloc; "missing key `{field}`"),
        ErrorKind::Deprecated { old, new } => deprecated(alloc, *old, *new),
        _ => error.to_string(alloc),
    }
}

/// Returns a list with one primary label at `span`, with the message `text`.
fn one_label(alloc: Global, span: Span, text: &str) -> Result<Vec<Label<()>>, AllocError>
    ensures { IfOk result (λ labels. map label_content labels.items ≡ spec.one_label span text.now) }
{
    let mut labels = Vec::new(alloc);
    labels.push(Label {
        primary: true,
        file: (),
        span,
        message: String::from_str(alloc, text)?,
    })?;
    Ok(labels)
}

/// Returns the labels that `Error::to_diagnostic` would return if the span of `error` were `span`.
fn own_labels(alloc: Global, error: &Error<'_>, span: Span) -> Result<Vec<Label<()>>, AllocError>
    ensures { IfOk result (λ labels. map label_content labels.items ≡ labels_of tt span (kind_of error.now.kind)) }
{
    let mut marked = error.clone(alloc)?;
    marked.span = span;
    let diagnostic = marked.to_diagnostic(alloc, ())?;
    Ok(diagnostic.labels)
}

/// Returns the labels of an error without a recognized mistake. The primary label is at `span`, except for
/// `UnexpectedKeys`, which has a primary label at each unknown key.
fn labels(alloc: Global, error: &Error<'_>, span: Span) -> Result<Vec<Label<()>>, AllocError>
    ensures { IfOk result (λ labels. map label_content labels.items ≡ spec.labels span (kind_of error.now.kind)) }
{
    match &error.kind {
        ErrorKind::UnexpectedKeys { keys, .. } => key_labels(alloc, keys.as_slice()),
        ErrorKind::Unexpected(_) => one_label(alloc, span, ""),
        ErrorKind::MissingField(_) => one_label(alloc, span, "this table lacks the key"),
        ErrorKind::Deprecated { .. } => one_label(alloc, span, "deprecated key"),
        _ => own_labels(alloc, error, span),
    }
}

/// Returns the notes of an error. Only `UnexpectedKeys` has a note (`what_is_expected`).
fn notes(alloc: Global, kind: &ErrorKind<'_>) -> Result<Vec<String>, AllocError>
    ensures { IfOk result (λ notes. map string_bytes notes.items ≡ spec.notes (kind_of kind.now)) }
{
    let mut notes = Vec::new(alloc);
    if let ErrorKind::UnexpectedKeys { expected, .. } = kind {
        let names = lent_names(alloc, expected.as_slice())?;
        notes.push(what_is_expected(alloc, names.as_slice())?)?;
    }
    Ok(notes)
}

/// Returns a list with the line of help from `range_help`, or an empty list if `range_help` returns `None`.
fn range(alloc: Global, name: &str) -> Result<Vec<String>, AllocError> {
    let mut help = Vec::new(alloc);
    if let Some(text) = help::range_help(name) {
        help.push(String::from_str(alloc, text)?)?;
    }
    Ok(help)
}

/// Returns the lines of help for an error without a recognized mistake.
fn help(alloc: Global, kind: &ErrorKind<'_>) -> Result<Vec<String>, AllocError>
    ensures { IfOk result (λ help. spec.HasHelp (kind_of kind.now) (map string_bytes help.items)) }
{
    match kind {
        ErrorKind::UnexpectedKeys { keys, expected } => {
            let names = key_names(alloc, keys.as_slice())?;
            let expected = lent_names(alloc, expected.as_slice())?;
            suggestions(alloc, names.as_slice(), expected.as_slice())
        }
        ErrorKind::UnexpectedValue {
            expected,
            value: Some(value),
        } => suggestions(alloc, &[value.as_str()], *expected),
        ErrorKind::OutOfRange(name) => range(alloc, *name),
        ErrorKind::Wanted { expected, .. } => range(alloc, *expected),
        _ => Ok(Vec::new(alloc)),
    }
}

/// Returns the headline of `finding`, or the message of `error` if the headline is empty.
fn headline(alloc: Global, error: &Error<'_>, finding: Finding<'_>) -> Result<String, AllocError>
    ensures { IfOk result (λ text. string_bytes text ≡ findings.headline (kind_of error.now.kind) finding.entry) }
{
    if finding.words.headline.is_empty() {
        message(alloc, error)
    } else {
        String::from_str(alloc, finding.words.headline)
    }
}

/// Returns the report of an error whose mistake is recognized, with the code of the mistake. `text` is the source, and
/// `finding` describes the mistake.
fn mistaken(
    alloc: Global,
    severity: Severity,
    error: &Error<'_>,
    text: &str,
    finding: Finding<'_>,
) -> Result<Report, AllocError>
    ensures reports { IfOk result (λ made. ReportsError severity text.now (content_of error.now) (report_content made)) }
    ensures tells { IfOk result (λ made. TellsFinding text.now (kind_of error.now.kind) finding.entry (report_content made)) }
{
    Ok(Report {
        severity,
        code: String::from_str(alloc, code_name(finding.words.code))?,
        message: headline(alloc, error, finding)?,
        labels: finding_labels(alloc, text, finding)?,
        notes: Vec::new(alloc),
        help: finding_help(alloc, finding)?,
        replacements: finding_repairs(alloc, text, finding)?,
    })
}

/// Returns the report of an error without a recognized mistake. `text` is the source.
fn unrecognized(
    alloc: Global,
    severity: Severity,
    error: &Error<'_>,
    text: &str,
) -> Result<Report, AllocError>
    ensures { IfOk result (λ made. ReportsError severity text.now (content_of error.now) (report_content made)) }
{
    let span = marked_span(&error.kind, error.span, text);
    Ok(Report {
        severity,
        code: error.kind.to_string(alloc)?,
        message: message(alloc, error)?,
        labels: labels(alloc, error, span)?,
        notes: notes(alloc, &error.kind)?,
        help: help(alloc, &error.kind)?,
        replacements: Vec::new(alloc),
    })
}

/// Returns the report of an error in the source `text`, with this severity.
fn report_of(
    alloc: Global,
    severity: Severity,
    error: &Error<'_>,
    text: &str,
) -> Result<Report, AllocError>
    ensures { IfOk result (λ made. ReportsError severity text.now (content_of error.now) (report_content made)) }
{
    match mistake_of(&error.kind, text, error.span) {
        Some(finding) => mistaken(alloc, severity, error, text, finding),
        None => unrecognized(alloc, severity, error, text),
    }
}

/// Returns the report of an error in the source `text`.
///
/// For a typical mistake, such as `True` instead of `true`, the report has a code of `explain` that depends only on the
/// mistake, usually names the mistake and says what to write, and may have a replacement. All other reports have the
/// code and the `Display` text of the error, and the labels of `Error::to_diagnostic`, except:
///
/// - For a `Wanted` error of `parse`, the primary label marks the token at the start of the error's span, up to the end
///   of the line at most. If no token begins there, as at the end of the source, the mark is empty.
/// - For a table that lacks a key, the primary label marks the table, or only the header's line if the table begins with
///   a header. For the root, which is the whole source, the mark is empty, at the start of the source.
/// - Each unknown key has a primary label. A note lists the expected keys, or says that the table can't have keys. For
///   each unknown key, a line of help names the nearest expected key, if one is near enough (`nearest`). Help for an
///   unexpected value names the nearest expected value, if one is near enough.
/// - The label at an unexpected character has no message, since the message of the report names the character. Most
///   errors of typed reads have other messages or labels, such as "missing key" with the name of the key. Help states the
///   range of a type of numbers, for a number that is out of range and for a value that is not an integer.
///
/// Fails if an allocation fails.
pub fn error_report(alloc: Global, error: &Error<'_>, text: &str) -> Result<Report, AllocError>
    ensures { IfOk result (λ made. ReportsError severities.Error text.now (content_of error.now)
        (report_content made)) }
{
    report_of(alloc, Severity::Error, error, text)
}

/// Returns the same report as `error_report`, but as a warning, for a program that continues in spite of the error.
/// Fails if an allocation fails.
pub fn warning_report(alloc: Global, error: &Error<'_>, text: &str) -> Result<Report, AllocError>
    ensures { IfOk result (λ made. ReportsError severities.Warning text.now (content_of error.now)
        (report_content made)) }
{
    report_of(alloc, Severity::Warning, error, text)
}

/// Returns the report of `error` as text, formatted by `render`. `name` is the name of the file, `text` the source.
/// Fails if an allocation fails.
pub fn render_error(
    alloc: Global,
    style: Style,
    error: &Error<'_>,
    name: &str,
    text: &str,
) -> Result<String, AllocError>
    ensures { IfOk result (λ out. IsReport style name.now text.now (content_of error.now) (string_bytes out)) }
{
    let report = error_report(alloc, error, text)?;
    render(alloc, style, &report, name, text)
}

/// Appends the report of each error in `errors` to `reports`. `text` is the source. If an allocation fails, `reports`
/// may have the reports of some errors.
pub(crate) fn push_errors(
    alloc: Global,
    errors: &DeserError<'_>,
    text: &str,
    reports: &mut Vec<Report>,
) -> Result<(), AllocError>
    ensures { OnOk result (AddsReports severities.Error text.now (all errors.now)
        (map report_content reports.old.items) (map report_content reports.new.items)) }
{
    for error in errors.iter() {
        reports.push(error_report(alloc, error, text)?)?;
    }
    Ok(())
}

/// Returns the reports of all errors in `errors`, in the same order. `text` is the source.
pub(crate) fn error_reports(
    alloc: Global,
    errors: &DeserError<'_>,
    text: &str,
) -> Result<Vec<Report>, AllocError>
    ensures { IfOk result (λ made. AddsReports severities.Error text.now (all errors.now) []
        (map report_content made.items)) }
{
    let mut reports = Vec::new(alloc);
    push_errors(alloc, errors, text, &mut reports)?;
    Ok(reports)
}

/// Returns the reports of all errors in `errors` as text, formatted by `render_all`. `name` is the name of the file,
/// `text` the source. Fails if an allocation fails.
pub fn render_errors(
    alloc: Global,
    style: Style,
    errors: &DeserError<'_>,
    name: &str,
    text: &str,
) -> Result<String, AllocError>
    ensures { IfOk result (λ out. AreReports style name.now text.now (all errors.now) (string_bytes out)) }
{
    let reports = error_reports(alloc, errors, text)?;
    render_all(alloc, style, reports.as_slice(), name, text)
}

/// Returns the reports of all errors in `stop` as text, formatted by `render_all`. `stop` is the error that `from_str`
/// returned, `name` is the name of the file, and `text` the source. Fails if `stop` is `Stop::Memory`, or if an
/// allocation fails.
pub fn render_stop(
    alloc: Global,
    style: Style,
    stop: Stop<DeserError<'_>>,
    name: &str,
    text: &str,
) -> Result<String, AllocError>
    ensures { IfOk result (λ out. AreShown style name.now text.now stop.entry (string_bytes out)) }
{
    match stop {
        Stop::Fault(errors) => render_errors(alloc, style, &errors, name, text),
        Stop::Memory(error) => Err(error),
    }
}
