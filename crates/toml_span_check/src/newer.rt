//! Checks documents as TOML 1.0: reports and replaces *newer forms*, which are syntax that TOML 1.0 lacks.
ghost use Rattle.std.specs.Prelude.{◌≡◌, IfOk, map, string_bytes};
ghost use Rattle.toml_span_places.specs.Replace.{edit_of};
ghost use Rattle.toml_span_report.specs.Report.{report_content};
ghost use Rattle.toml_span_check.specs.Fixing.{fixed};
ghost use Rattle.toml_span_check.specs.Newer as spec;

use crate::fixing::{FixLevel, Fixed, push_edits, with_fixes};
use std::alloc::{AllocError, Global};
use toml_span::Stop;
use toml_span_lex::span::Span;
use toml_span_places::{NewerForm, NewerKind, Replacement, newer_forms, replace_all};
use toml_span_read::gaps::byte_at;
use toml_span_read::read_sections;
use toml_span_report::Report;

/// The limit on the depth of values and on the number of parts of a key, as in `parse`.
const DEPTH_LIMIT: usize = 128;

/// The version of TOML that documents are checked against.
#[derive(Clone, Copy, PartialEq, Eq)]
pub enum Version {
    /// TOML 1.0 for files named `pyproject.toml`, which pip reads as TOML 1.0. TOML 1.1 for other files.
    Auto,
    /// TOML 1.0.
    Toml10,
    /// TOML 1.1.
    Toml11,
}

/// Returns whether the last part of a path is `pyproject.toml`.
fn is_pyproject(path: &str) -> bool
    ensures { result ≡ spec.is_pyproject path.now }
{
    let bytes = path.as_bytes();
    let (_, end) = bytes.split_at(bytes.len().saturating_sub(15));
    path == "pyproject.toml" || end == b"/pyproject.toml".as_slice()
}

/// Returns whether to check the file `name` as TOML 1.0. For `Version::Auto`, the name decides.
pub(crate) fn is_older(version: Version, name: &str) -> bool
    ensures { result ≡ spec.is_older version name.now }
{
    match version {
        Version::Auto => is_pyproject(name),
        Version::Toml10 => true,
        Version::Toml11 => false,
    }
}

/// Returns the message of the report on a newer form of this kind.
fn message_of(kind: NewerKind) -> &'static str
    ensures { result.now ≡ spec.message_of kind }
{
    match kind {
        NewerKind::LineEnd => "line ends in inline tables are new in TOML 1.1",
        NewerKind::Comment => "comments in inline tables are new in TOML 1.1",
        NewerKind::TrailingComma => "trailing commas in inline tables are new in TOML 1.1",
        NewerKind::EscapeEscape => "`\\e` is new in TOML 1.1",
        NewerKind::HexEscape => "`\\x` is new in TOML 1.1",
        NewerKind::NoSeconds => "times without seconds are new in TOML 1.1",
        NewerKind::LineEndAtEquals => "line ends around `=` are not valid TOML",
        NewerKind::CommentAtEquals => "comments around `=` are not valid TOML",
        NewerKind::ByteOrderMark => "byte order marks are not valid TOML 1.0",
    }
}

/// Returns the help of the report on a newer form of this kind.
fn help_of(kind: NewerKind) -> &'static str
    ensures { result.now ≡ spec.help_of kind }
{
    match kind {
        NewerKind::LineEnd | NewerKind::LineEndAtEquals => "write the inline table on one line",
        NewerKind::Comment | NewerKind::CommentAtEquals =>
            "move the comment out of the inline table",
        NewerKind::TrailingComma => "remove the comma",
        NewerKind::EscapeEscape => "write `\\u001B`",
        NewerKind::HexEscape => "write `\\u00` before the two digits",
        NewerKind::NoSeconds => "add the seconds: `:00`",
        NewerKind::ByteOrderMark => "save the file as UTF-8 without a byte order mark",
    }
}

/// Returns `\u00` and the two hexadecimal digits before the byte offset `end` in `text`.
fn four_digits(alloc: Global, text: &str, end: usize) -> Result<String, AllocError>
    ensures { IfOk result (λ out. string_bytes out ≡ spec.four_digits text.now end) }
{
    let mut out = String::from_str(alloc, "\\u00")?;
    out.push(char::from(byte_at(text, end.saturating_sub(2))))?;
    out.push(char::from(byte_at(text, end.saturating_sub(1))))?;
    Ok(out)
}

/// Adds to `report` a replacement for `form` that means the same in TOML 1.0, if there is one. Returns the report.
fn with_older(
    alloc: Global,
    report: Report,
    text: &str,
    form: NewerForm,
) -> Result<Report, AllocError>
    ensures { IfOk result (λ made. report_content made
        ≡ spec.with_older (report_content report) text.now form) }
{
    let Span { start: _, end } = form.span;
    match form.kind {
        NewerKind::EscapeEscape => report.replace(form.span, "\\u001B"),
        NewerKind::HexEscape => {
            let escape = four_digits(alloc, text, end)?;
            report.replace(form.span, escape.as_str())
        }
        NewerKind::NoSeconds => report.replace(Span { start: end, end }, ":00"),
        NewerKind::TrailingComma | NewerKind::ByteOrderMark => report.replace(form.span, ""),
        NewerKind::LineEnd
        | NewerKind::Comment
        | NewerKind::LineEndAtEquals
        | NewerKind::CommentAtEquals => Ok(report),
    }
}

/// Returns the report on a newer form, without a replacement or note.
fn plain_report(alloc: Global, form: NewerForm) -> Result<Report, AllocError>
    ensures { IfOk result (λ made. report_content made ≡ spec.plain_report form) }
{
    Report::error(alloc, "newer-toml", message_of(form.kind))?
        .primary(form.span, "not in TOML 1.0")?
        .help(help_of(form.kind))
}

/// If `is_default`, adds a note to `report` that says why the file is checked as TOML 1.0. Returns the report.
fn with_reason(report: Report, is_default: bool) -> Result<Report, AllocError>
    ensures { IfOk result (λ made. report_content made ≡ spec.with_reason (report_content report) is_default) }
{
    if is_default {
        report.note("pip reads TOML 1.0; the option `--toml 1.1` (setting `toml`) allows TOML 1.1")
    } else {
        Ok(report)
    }
}

/// Returns the report on a newer form. `is_default` says whether the file is checked as TOML 1.0 because of its name.
fn newer_report(
    alloc: Global,
    text: &str,
    form: NewerForm,
    is_default: bool,
) -> Result<Report, AllocError>
    ensures { IfOk result (λ made. report_content made ≡ spec.newer_report text.now is_default form) }
{
    let report = plain_report(alloc, form)?;
    let repaired = with_older(alloc, report, text, form)?;
    with_reason(repaired, is_default)
}

/// Returns the report on each newer form. `is_default` says whether the file is checked as TOML 1.0 because of its
/// name.
fn reports_of(
    alloc: Global,
    text: &str,
    forms: &[NewerForm],
    is_default: bool,
) -> Result<Vec<Report>, AllocError>
    ensures { IfOk result (λ reports. map report_content reports.items
        ≡ map (spec.newer_report text.now is_default) forms.now) }
{
    let mut reports = Vec::new(alloc);
    for form in forms {
        reports.push(newer_report(alloc, text, *form, is_default)?)?;
    }
    Ok(reports)
}

/// Returns a report for each newer form in a document, in the order of the text. The list is empty if the text can't be
/// read.
///
/// `is_default` says whether the file is checked as TOML 1.0 because of its name; the reports then say so. Fails if an
/// allocation fails.
pub fn newer_reports(alloc: Global, text: &str, is_default: bool) -> Result<Vec<Report>, AllocError>
    ensures { IfOk result (λ reports. spec.AreNewer text.now is_default (map report_content reports.items)) }
{
    let sections = match read_sections(alloc, text, DEPTH_LIMIT) {
        Ok(sections) => sections,
        Err(Stop::Fault(_)) => return Ok(Vec::new(alloc)),
        Err(Stop::Memory(error)) => return Err(error),
    };
    let forms = newer_forms(alloc, text, sections.as_slice())?;
    reports_of(alloc, text, forms.as_slice(), is_default)
}

/// Returns the reports of `newer_reports` if `version` says to check the file `name` as TOML 1.0, otherwise an empty
/// list. `text` is the source of the file. Fails if an allocation fails.
pub fn version_reports(
    alloc: Global,
    text: &str,
    version: Version,
    name: &str,
) -> Result<Vec<Report>, AllocError>
    ensures { IfOk result (λ reports. spec.Lacks version name.now text.now (map report_content reports.items)) }
{
    if is_older(version, name) {
        newer_reports(alloc, text, matches!(version, Version::Auto))
    } else {
        Ok(Vec::new(alloc))
    }
}

/// Returns the replacements of all reports, converted for `replace_all`.
fn all_edits<'r>(alloc: Global, reports: &'r [Report]) -> Result<Vec<Replacement<'r>>, AllocError>
    ensures { IfOk result (λ edits. map edit_of edits.items ≡ spec.all_edits (map report_content reports.now)) }
{
    let mut edits = Vec::new(alloc);
    for report in reports {
        push_edits(report.replacements.as_slice(), &mut edits)?;
    }
    Ok(edits)
}

/// Replaces newer forms with syntax that means the same in TOML 1.0, if `version` says to check the file `name` as TOML
/// 1.0. Returns the new text with the number of replacements.
///
/// Forms without such a replacement stay. A text that can't be read is returned unchanged. Takes time linear in the
/// length of the text. Fails if an allocation fails.
pub fn with_older_forms(
    alloc: Global,
    text: &str,
    version: Version,
    name: &str,
) -> Result<Fixed, AllocError>
    ensures { IfOk result (λ made. spec.Replaces version name.now text.now made.count (string_bytes made.text)) }
{
    let reports = version_reports(alloc, text, version, name)?;
    let edits = all_edits(alloc, reports.as_slice())?;
    match replace_all(alloc, text, edits.as_slice()) {
        Ok(new) => Ok(Fixed {
            text: new,
            count: edits.len(),
        }),
        Err(Stop::Fault(_)) => Ok(Fixed {
            text: String::from_str(alloc, text)?,
            count: 0,
        }),
        Err(Stop::Memory(error)) => Err(error),
    }
}

/// Fixes errors of a source as `with_fixes` does, and then replaces newer forms as `with_older_forms` does. Returns the
/// new source with the number of errors fixed and forms replaced: what `check --fix` writes, and what "fix all" of an
/// editor makes. Fails if an allocation fails.
pub fn with_all_fixes(
    alloc: Global,
    text: &str,
    version: Version,
    name: &str,
    level: FixLevel,
) -> Result<Fixed, AllocError>
    ensures { IfOk result (λ made. spec.FixesAll version name.now level text.now (fixed made)) }
{
    let made = with_fixes(alloc, text, level)?;
    let older = with_older_forms(alloc, made.text.as_str(), version, name)?;
    Ok(Fixed {
        text: older.text,
        count: made.count.saturating_add(older.count),
    })
}
