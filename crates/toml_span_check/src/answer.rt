//! Checks one file, or parses it for printing. Returns the verdict and the text for standard output, or the document.
ghost use Rattle.std.specs.Prelude.{◌≡◌, ◌++◌, IfOk, OnOk, ℕ, List, map, string_bytes};
ghost use Rattle.std.specs.Str.{IsValidUpTo};
ghost use Rattle.toml_span_lex.specs.declared.stop.Stop.TheVariants.{Fault};
ghost use Rattle.toml_span.specs.Parsing.{IsRefusal};
ghost use Rattle.toml_span_read.specs.Data.{depth_limit};
ghost use Rattle.toml_span_report.specs.Report.{report_content};
ghost use Rattle.toml_span_tree.specs.Value.{view};
ghost use Rattle.toml_span_check.specs.Answer as spec;
ghost use Rattle.toml_span_check.specs.code.Judged.{Judges, JudgesText, answer_of};

use crate::encoding::not_utf8;
use crate::every::errors_from;
use crate::fixable::{Count, count_of, shown};
use crate::formats::{Format, fixable_report, formatted_report};
use crate::newer::{Version, version_reports};
use crate::schemas::{Chooser, Schemas, complaint_weight, with_errors};
use crate::sums::sum_of;
use std::alloc::{AllocError, Global};
use toml_span::de::parse;
use toml_span::{Error, Value};
use toml_span_lines::run::BOUND;
use toml_span_report::Report;

/// How a document or value is printed.
#[derive(Clone, Copy, PartialEq, Eq)]
pub enum Form {
    /// As JSON.
    Plain,
    /// As JSON in which each scalar has its type, as in the test suite `toml-test`.
    Tagged,
    /// As lines, one for each value, with the value's path, kind and span.
    Items,
    /// A string, float, date or time as its text, anything else as JSON.
    Raw,
    /// As TOML on one line.
    Toml,
}

/// What is printed of a document or value.
#[derive(Clone, Copy, PartialEq, Eq)]
pub struct Printing {
    pub form: Form,
    /// Whether the keys of JSON are sorted. Otherwise, they are in the order of the text.
    pub is_sorted: bool,
    /// Whether the name of the file comes first. `run` sets this if there are several files.
    pub is_named: bool,
}

/// The task for a file.
#[derive(Clone, Copy, PartialEq, Eq)]
pub enum Task {
    /// Report the errors of the file, checked as this version of TOML, and violations of the schema that the chooser
    /// selects.
    Check(Version, Chooser),
    /// Print the document, or a value in it.
    Show(Printing),
}

/// The numbers of errors of a file, and the text for standard error.
#[derive(Drop)]
pub(crate) struct Verdict {
    /// The numbers of errors. A complaint counts as one error.
    pub(crate) count: Count,
    /// If a value is printed, the reports of the errors. Otherwise the lines of `SchemaReports::complaint`, which are
    /// empty if no schema check was attempted, since the file has errors.
    pub(crate) stderr: String,
}

/// Returns the verdict on a file with these errors, and the text for standard output. `text` has the reports of the
/// errors. They are for standard error if `task` is to print a value.
pub(crate) fn reported(alloc: Global, task: Task, count: Count, text: String) -> (Verdict, String)
    ensures { answer_of result ≡ spec.reported task count (string_bytes text) }
{
    let none = String::new(alloc);
    match task {
        Task::Check(_, _) => (
            Verdict {
                count,
                stderr: none,
            },
            text,
        ),
        Task::Show(_) => (
            Verdict {
                count,
                stderr: text,
            },
            none,
        ),
    }
}

/// Returns the text of a report in this format. `text` is the source of the file `name`. If `is_fixable`, `--fix` may
/// apply the fix of the report, and the text is that of `fixable_report`.
fn report_text(
    alloc: Global,
    format: Format,
    is_fixable: bool,
    report: &Report,
    name: &str,
    text: &str,
) -> Result<String, AllocError>
    ensures { IfOk result (λ out. string_bytes out
        ≡ spec.report_text format is_fixable name.now text.now (report_content report.now)) }
{
    if is_fixable {
        fixable_report(alloc, format, report, name, text)
    } else {
        formatted_report(alloc, format, report, name, text)
    }
}

/// Appends the text of each report in this format. `text` is the source of the file `name`. If `are_fixable`, `--fix`
/// may apply the fixes of the reports, and `fixable_report` returns their texts.
fn push_reports(
    alloc: Global,
    out: &mut String,
    format: Format,
    are_fixable: bool,
    reports: &[Report],
    name: &str,
    text: &str,
) -> Result<(), AllocError>
    ensures { OnOk result (string_bytes out.new ≡ string_bytes out.old
        ++ spec.reports_text format are_fixable name.now text.now (map report_content reports.now)) }
{
    for report in reports {
        let next = report_text(alloc, format, are_fixable, report, name, text)?;
        out.push_str(next.as_str())?;
    }
    Ok(())
}

/// Returns the result of `reported` for the reports that `every::check` returns for the source `text`, without the
/// replacements that `with_fixes` does not make. `error` is the error that `parse` returns for `text`.
fn errors_text(
    alloc: Global,
    format: Format,
    task: Task,
    error: &Error<'_>,
    name: &str,
    text: &str,
) -> Result<(Verdict, String), AllocError>
    requires { IsRefusal text.now depth_limit (Fault error.now) }
    ensures { IfOk result (λ out. spec.AreReported format task name.now text.now (answer_of out)) }
{
    let reports = shown(alloc, text, errors_from(alloc, text, error)?)?;
    let count = count_of(reports.as_slice());
    let mut out = String::new(alloc);
    push_reports(
        alloc,
        &mut out,
        format,
        true,
        reports.as_slice(),
        name,
        text,
    )?;
    Ok(reported(alloc, task, count, out))
}

/// The text of a file, and the name of the file.
#[derive(Clone, Copy)]
struct NamedText<'t> {
    name: &'t str,
    text: &'t str,
}

/// Returns the verdict on a source, whose tree is `root`, and the text of its reports: first those of
/// `version_reports`, then those from `schemas`.
fn document_text<S: Schemas>(
    alloc: Global,
    format: Format,
    version: Version,
    chooser: Chooser,
    source: NamedText<'_>,
    root: &Value<'_>,
    schemas: &mut S,
) -> Result<(Verdict, String), AllocError>
    ensures { IfOk result (λ out. spec.AreChecked S.says format version chooser source.entry.name.now
        source.entry.text.now (view root.now) (answer_of out)) }
{
    let NamedText { name, text } = source;
    let reports = version_reports(alloc, text, version, name)?;
    let found = schemas.check(alloc, chooser, name, text, root)?;
    let count = count_of(reports.as_slice());
    let errors = with_errors(count.errors, found.reports.as_slice())?;
    let errors = sum_of(errors, complaint_weight(found.complaint.as_str()))?;
    let mut out = String::new(alloc);
    push_reports(
        alloc,
        &mut out,
        format,
        true,
        reports.as_slice(),
        name,
        text,
    )?;
    push_reports(
        alloc,
        &mut out,
        format,
        false,
        found.reports.as_slice(),
        name,
        text,
    )?;
    let verdict = Verdict {
        count: Count { errors, ..count },
        stderr: found.complaint,
    };
    Ok((verdict, out))
}

/// Returns the result of `reported` for a file `name` that is longer than 16 MiB.
fn too_long(
    alloc: Global,
    format: Format,
    task: Task,
    name: &str,
) -> Result<(Verdict, String), AllocError>
    ensures { IfOk result (λ out. answer_of out ≡ spec.too_long format task name.now) }
{
    let report = Report::error(alloc, "too-long", "the file is larger than 16 MiB")?;
    let text = formatted_report(alloc, format, &report, name, "")?;
    Ok(reported(alloc, task, Count::one(), text))
}

/// Returns the result of `reported` for a file `name` that is not valid UTF-8. `at` is the byte offset of the first
/// invalid byte.
fn not_utf8_fault(
    alloc: Global,
    format: Format,
    task: Task,
    name: &str,
    bytes: &[u8],
    at: usize,
) -> Result<(Verdict, String), AllocError>
    requires { IsValidUpTo bytes.now at }
    ensures { IfOk result (λ out. answer_of out ≡ spec.not_utf8 format task name.now bytes.now at) }
{
    let (report, text) = not_utf8(alloc, bytes, at)?;
    let text = formatted_report(alloc, format, &report, name, text)?;
    Ok(reported(alloc, task, Count::one(), text))
}

/// A document to print.
#[derive(Drop)]
pub(crate) struct Document<'t> {
    pub(crate) printing: Printing,
    pub(crate) text: &'t str,
    pub(crate) root: Value<'t>,
}

/// The result for one file.
pub(crate) enum Judged<'t> {
    /// The verdict and the text for standard output, for a file that has errors or is only to be checked.
    Text(Verdict, String),
    Document(Document<'t>),
}

/// Parses the source `text` of the file `name`. Returns the document if the source is valid and `task` is to print it,
/// otherwise the verdict and the text for standard output.
fn judge_text<'t, S: Schemas>(
    alloc: Global,
    format: Format,
    task: Task,
    name: &str,
    text: &'t str,
    schemas: &mut S,
) -> Result<Judged<'t>, AllocError>
    ensures { IfOk result (λ a. (pointer : List ℕ) → JudgesText S.says format task pointer name.now text.now a) }
{
    match parse(alloc, text) {
        Ok(root) => match task {
            Task::Check(version, chooser) => {
                let source = NamedText { name, text };
                let (verdict, out) = document_text(
                    alloc, format, version, chooser, source, &root, schemas,
                )?;
                Ok(Judged::Text(verdict, out))
            }
            Task::Show(printing) => Ok(Judged::Document(Document {
                printing,
                text,
                root,
            })),
        },
        Err(stop) => {
            let error = stop.fault()?;
            let found = errors_text(alloc, format, task, &error, name, text);
            drop(error);
            let (verdict, out) = found?;
            Ok(Judged::Text(verdict, out))
        }
    }
}

/// Parses the bytes of the file `name`. Returns the document if the file is valid and `task` is to print it, otherwise
/// the verdict and the text for standard output. A file that is longer than `BOUND` or not valid UTF-8 has one error.
pub(crate) fn judge<'t, S: Schemas>(
    alloc: Global,
    format: Format,
    task: Task,
    name: &str,
    bytes: &'t [u8],
    schemas: &mut S,
) -> Result<Judged<'t>, AllocError>
    ensures { IfOk result (λ a. (pointer : List ℕ) → Judges S.says format task pointer name.now bytes.now a) }
{
    if bytes.len() > BOUND {
        let (verdict, out) = too_long(alloc, format, task, name)?;
        return Ok(Judged::Text(verdict, out));
    }
    match str::from_utf8(bytes) {
        Ok(text) => judge_text(alloc, format, task, name, text, schemas),
        Err(error) => {
            let at = error.valid_up_to();
            let (verdict, out) = not_utf8_fault(alloc, format, task, name, bytes, at)?;
            Ok(Judged::Text(verdict, out))
        }
    }
}
