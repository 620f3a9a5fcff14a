//! Finds the diagnostics of a text, and repairs for them.
ghost use Rattle.std.specs.Prelude.{◌≡◌, IfOk, IfSome, OnOk, fold, map, option_map, string_bytes};
ghost use Rattle.toml_span_check.specs.Safety as safety;
ghost use Rattle.toml_span_tree.specs.Diagnostic.{label_content};
ghost use Rattle.toml_span_report.specs.Report as plain;
ghost use Rattle.toml_span_report.specs.Report.{report_content};
ghost use Rattle.toml_span_tree.specs.Value.{view};
ghost use Rattle.toml_span_editor.specs.Diagnostics as spec;
ghost use Rattle.toml_span_editor.specs.Edits.{edit_content};
ghost use Rattle.toml_span_editor.specs.Repairs as mending;

use crate::edits::{Edit, differences, edited};
use crate::partial::partial_reports;
use crate::positions::{Encoding, Range};
use crate::spans::{main_span, touches};
use crate::table::PositionTable;
use std::alloc::{AllocError, Global};
use toml_span::{Stop, Value};
use toml_span_check::every::parse_with_reports;
use toml_span_check::fixing::FixLevel;
use toml_span_check::newer::{Version, version_reports, with_all_fixes};
use toml_span_check::schemas::{Chooser, SchemaReports, Schemas};
use toml_span_check::statements::assignment_lines;
use toml_span_lex::span::Span;
use toml_span_report::{Replacement, Report, Severity};
use toml_span_tree::Label;

/// The code of the error that a key is written twice.
const DUPLICATE_KEY: &str = "duplicate-key";

/// The code of the error that a key is missing which a schema requires.
const REQUIRED: &str = "schema-required";

/// A range of the text with a message that explains a diagnostic.
#[derive(Drop)]
pub struct Related {
    pub range: Range,
    pub message: String,
}

/// A report as an editor shows it.
#[derive(Drop)]
pub struct Diagnostic {
    /// The range of the first primary label or, without such a label, the start of the text.
    pub range: Range,
    pub severity: Severity,
    pub code: String,
    /// The message of the report, followed by the messages of its primary labels (if different), its notes, and its
    /// help, each on a line.
    pub message: String,
    /// The labels that are not primary.
    pub related: Vec<Related>,
}

/// A repair of an error.
#[derive(Drop)]
pub struct Repair {
    /// What the repair does: the first help of the report or, without help, the report's message. "did you mean `a`?"
    /// becomes "write `a`". For a duplicate key, the title is "remove this duplicate key".
    pub title: String,
    /// The repaired diagnostic.
    pub diagnostic: Diagnostic,
    pub edits: Vec<Edit>,
    pub is_safe: bool,
}

/// Appends a line with `front` and `text`, or nothing if `text` is empty.
#[tactic(auto, unfolding(crate::specs::Diagnostics::with_line))]
fn push_line(out: &mut String, front: &str, text: &str) -> Result<(), AllocError>
    ensures { OnOk result (string_bytes out.new ≡ spec.with_line front.now (string_bytes out.old) text.now) }
{
    if text.is_empty() {
        return Ok(());
    }
    if !out.is_empty() {
        out.push_str("\n")?;
    }
    out.push_str(front)?;
    out.push_str(text)
}

/// For each text in `lines` that is not empty, appends a line with `front` and the text.
fn push_lines(out: &mut String, front: &str, lines: &[String]) -> Result<(), AllocError>
    ensures { OnOk result (string_bytes out.new
        ≡ fold (spec.with_line front.now) (string_bytes out.old) (map string_bytes lines.now)) }
{
    for line in lines {
        push_line(out, front, line.as_str())?;
    }
    Ok(())
}

/// Appends a line with the message of a label, if the label is primary and its message is neither empty nor `message`.
fn push_label(out: &mut String, message: &str, label: &Label<()>) -> Result<(), AllocError>
    ensures { OnOk result (string_bytes out.new
        ≡ spec.with_label message.now (string_bytes out.old) (label_content label.now)) }
{
    if label.primary && label.message.as_str() != message {
        push_line(out, "", label.message.as_str())?;
    }
    Ok(())
}

/// Appends a line for each primary label whose message is neither empty nor `message`.
fn push_labels(out: &mut String, message: &str, labels: &[Label<()>]) -> Result<(), AllocError>
    ensures { OnOk result (string_bytes out.new
        ≡ fold (spec.with_label message.now) (string_bytes out.old) (map label_content labels.now)) }
{
    for label in labels {
        push_label(out, message, label)?;
    }
    Ok(())
}

/// Returns the message of a report, followed by the messages of its primary labels (if different), its notes, and its
/// help, each on a line.
fn message_of(alloc: Global, report: &Report) -> Result<String, AllocError>
    ensures { IfOk result (λ out. string_bytes out ≡ spec.message_of (report_content report.now)) }
{
    let mut out = String::from_str(alloc, report.message.as_str())?;
    push_labels(&mut out, report.message.as_str(), report.labels.as_slice())?;
    push_lines(&mut out, "note: ", report.notes.as_slice())?;
    push_lines(&mut out, "help: ", report.help.as_slice())?;
    Ok(out)
}

/// Returns the ranges and messages of the labels that are not primary.
fn related_of(
    alloc: Global,
    table: &PositionTable<'_>,
    labels: &[Label<()>],
) -> Result<Vec<Related>, AllocError>
    ensures { IfOk result (λ related. map spec.related_content related.items
        ≡ spec.related_of table.now.encoding table.now.text.now (map label_content labels.now)) }
{
    let mut related = Vec::new(alloc);
    for label in labels {
        if !label.primary {
            related.push(Related {
                range: table.range(label.span),
                message: String::from_str(alloc, label.message.as_str())?,
            })?;
        }
    }
    Ok(related)
}

/// Converts a report to a diagnostic.
#[tactic(auto, unfolding(crate::specs::Diagnostics::diagnostic_of))]
fn diagnostic_of(
    alloc: Global,
    table: &PositionTable<'_>,
    report: &Report,
) -> Result<Diagnostic, AllocError>
    ensures { IfOk result (λ made. spec.diagnostic_content made
        ≡ spec.diagnostic_of table.now.encoding table.now.text.now (report_content report.now)) }
{
    Ok(Diagnostic {
        range: table.range(main_span(report.labels.as_slice())),
        severity: report.severity,
        code: String::from_str(alloc, report.code.as_str())?,
        message: message_of(alloc, report)?,
        related: related_of(alloc, table, report.labels.as_slice())?,
    })
}

/// Converts reports to diagnostics.
fn diagnostics_of(
    alloc: Global,
    table: &PositionTable<'_>,
    reports: &[Report],
) -> Result<Vec<Diagnostic>, AllocError>
    ensures { IfOk result (λ found. map spec.diagnostic_content found.items
        ≡ map (spec.diagnostic_of table.now.encoding table.now.text.now) (map report_content reports.now)) }
{
    let mut found = Vec::new(alloc);
    for report in reports {
        found.push(diagnostic_of(alloc, table, report)?)?;
    }
    Ok(found)
}

/// Converts reports on a text to diagnostics.
fn diagnostics_in(
    alloc: Global,
    encoding: Encoding,
    text: &str,
    reports: &[Report],
) -> Result<Vec<Diagnostic>, AllocError>
    ensures { IfOk result (λ found. map spec.diagnostic_content found.items
        ≡ map (spec.diagnostic_of encoding text.now) (map report_content reports.now)) }
{
    if let [] = reports {
        // (most texts have none, and need no table)
        return Ok(Vec::new(alloc));
    }
    let table = PositionTable::new(alloc, encoding, text)?;
    diagnostics_of(alloc, &table, reports)
}

/// The diagnostics of a text, and any reason why the text can't be checked against its schema.
#[derive(Drop)]
pub struct Diagnosed {
    pub diagnostics: Vec<Diagnostic>,
    /// The reports of which these are the diagnostics.
    pub reports: Vec<Report>,
    /// Error lines that say why the text can't be checked against its schema. Empty if it can, if it has no schema, or
    /// if it is not valid TOML.
    pub complaint: String,
}

/// Returns the reports on a document: first those on syntax that `version` lacks, then those of `schemas`. `text` is
/// the source of the file `name`, and `root` its tree.
#[tactic(auto, using(crate::proofs::DiagnosticLemmas::reports_append))]
fn document_reports<S: Schemas>(
    alloc: Global,
    version: Version,
    chooser: Chooser,
    name: &str,
    text: &str,
    root: &Value<'_>,
    schemas: &mut S,
) -> Result<SchemaReports, AllocError>
    ensures { IfOk result (λ made. spec.AreDocumentReports S.says version chooser name.now text.now (view root.now)
        (map report_content made.reports.items) (string_bytes made.complaint)) }
{
    let mut reports = version_reports(alloc, text, version, name)?;
    let mut found = schemas.check(alloc, chooser, name, text, root)?;
    reports.append(&mut found.reports)?;
    Ok(SchemaReports {
        reports,
        complaint: found.complaint,
    })
}

/// Returns the reports of `check` on a text with errors, followed by those of the schema on what can be read (see
/// `partial_reports`). For a text without errors, returns the result of `document_reports`. `name` is the name of the
/// file.
#[tactic(auto, using(crate::proofs::DiagnosticLemmas::reports_append))]
fn text_reports<S: Schemas>(
    alloc: Global,
    version: Version,
    chooser: Chooser,
    name: &str,
    text: &str,
    schemas: &mut S,
) -> Result<SchemaReports, AllocError>
    ensures { IfOk result (λ made. spec.AreReports S.says version chooser name.now text.now
        (map report_content made.reports.items) (string_bytes made.complaint)) }
{
    match parse_with_reports(alloc, text) {
        Ok(root) => document_reports(alloc, version, chooser, name, text, &root, schemas),
        Err(Stop::Memory(error)) => Err(error),
        Err(Stop::Fault(mut reports)) => {
            let mut found = partial_reports(alloc, chooser, name, text, schemas)?;
            reports.append(&mut found)?;
            Ok(SchemaReports {
                reports,
                complaint: String::new(alloc),
            })
        }
    }
}

/// Returns the diagnostics of a text, in the order in which `toml-span check` prints reports. For a text with errors,
/// they are the reports of `check`, and then what `schemas` finds in what can be read, except for what may be wrong.
/// For valid TOML, they report syntax that `version` lacks, and then what `schemas` finds. `name` is the name of the
/// file. Fails if an allocation fails.
pub fn diagnostics<S: Schemas>(
    alloc: Global,
    encoding: Encoding,
    version: Version,
    chooser: Chooser,
    name: &str,
    text: &str,
    schemas: &mut S,
) -> Result<Diagnosed, AllocError>
    ensures { IfOk result (spec.Diagnoses S.says version chooser name.now encoding text.now) }
{
    let found = text_reports(alloc, version, chooser, name, text, schemas)?;
    Ok(Diagnosed {
        diagnostics: diagnostics_in(alloc, encoding, text, found.reports.as_slice())?,
        reports: found.reports,
        complaint: found.complaint,
    })
}

/// Returns the reports on a text without a schema: those of `check` on a text with errors, otherwise those on syntax
/// that `version` lacks. `name` is the name of the file.
fn reports_without_schema(
    alloc: Global,
    version: Version,
    name: &str,
    text: &str,
) -> Result<Vec<Report>, AllocError>
    ensures { IfOk result (λ reports. spec.AreReportsWithoutSchema version name.now text.now
        (map report_content reports.items)) }
{
    match parse_with_reports(alloc, text) {
        Ok(_) => version_reports(alloc, text, version, name),
        Err(Stop::Memory(error)) => Err(error),
        Err(Stop::Fault(reports)) => Ok(reports),
    }
}

/// Returns the diagnostics of a text without a schema, in the order in which `toml-span check` prints reports. For a
/// text with errors, they are the reports of `check`. For valid TOML, they report syntax that `version` lacks. `name`
/// is the name of the file. Fails if an allocation fails.
pub fn diagnostics_without_schema(
    alloc: Global,
    encoding: Encoding,
    version: Version,
    name: &str,
    text: &str,
) -> Result<Diagnosed, AllocError>
    ensures { IfOk result (spec.DiagnosesWithoutSchema version name.now encoding text.now) }
{
    let reports = reports_without_schema(alloc, version, name, text)?;
    Ok(Diagnosed {
        diagnostics: diagnostics_in(alloc, encoding, text, reports.as_slice())?,
        reports,
        complaint: String::new(alloc),
    })
}

/// Converts replacements to edits.
fn edits_of(alloc: Global, replacements: &[Replacement]) -> Result<Vec<Edit>, AllocError>
    ensures { IfOk result (λ edits. map edit_content edits.items
        ≡ map mending.replacement_edit (map plain.repair_of replacements.now)) }
{
    let mut edits = Vec::new(alloc);
    for replacement in replacements {
        edits.push(Edit {
            span: replacement.span,
            text: String::from_str(alloc, replacement.text.as_str())?,
        })?;
    }
    Ok(edits)
}

/// Returns the edit that removes the lines of the assignment whose key is at the offset `at`. Since only errors about
/// the key or its value can be gone without the assignment, the text has no new ones. Returns `None` if
/// `assignment_lines` does. Takes time linear in the length of the text.
fn without_duplicate(alloc: Global, text: &str, at: usize) -> Result<Option<Vec<Edit>>, AllocError>
    ensures { IfOk result (λ made. mending.RemovesLines text.now at
        (option_map (λ edits. map edit_content edits.items) made)) }
{
    let Some(span) = assignment_lines(alloc, text, at)? else {
        return Ok(None);
    };
    let mut edits = Vec::new(alloc);
    edits.push(Edit {
        span,
        text: String::new(alloc),
    })?;
    Ok(Some(edits))
}

/// Returns the title of a repair whose report has this help: "write `a`" for "did you mean `a`?", otherwise the help.
fn title_of(alloc: Global, help: &str) -> Result<String, AllocError> {
    let meant = match help.strip_prefix("did you mean ") {
        Some(rest) => rest.strip_suffix('?'),
        None => None,
    };
    match meant {
        Some(meant) => format!(in alloc; "write {meant}"),
        None => String::from_str(alloc, help),
    }
}

/// Returns the edits that repair a report, or `None` if there are none. For a duplicate key, they are those of
/// `without_duplicate`. For another report, they make the replacements of the report, if these fit the text.
fn repairing(alloc: Global, text: &str, report: &Report) -> Result<Option<Vec<Edit>>, AllocError>
    ensures { IfOk result (λ found. mending.Mends text.now (report_content report.now)
        (option_map (λ edits. map edit_content edits.items) found)) }
{
    if report.code.as_str() == DUPLICATE_KEY {
        let place = main_span(report.labels.as_slice()).start;
        return without_duplicate(alloc, text, place);
    }
    let edits = edits_of(alloc, report.replacements.as_slice())?;
    if edits.is_empty() {
        return Ok(None);
    }
    match edited(alloc, text, edits.as_slice())? {
        Some(_) => Ok(Some(edits)),
        None => Ok(None),
    }
}

/// Returns the title of the repair of a report.
fn repair_title(alloc: Global, report: &Report) -> Result<String, AllocError> {
    if report.code.as_str() == DUPLICATE_KEY {
        return String::from_str(alloc, "remove this duplicate key");
    }
    match report.help.first() {
        Some(help) => title_of(alloc, help.as_str()),
        None => title_of(alloc, report.message.as_str()),
    }
}

/// Returns whether all the replacements are safe.
fn all_safe(replacements: &[Replacement]) -> bool
    ensures { result ≡ safety.all_safe (map plain.repair_of replacements.now) }
{
    for replacement in replacements {
        if !replacement.is_safe {
            return false;
        }
    }
    true
}

/// Returns the repair for a report on the text of `table`, or `None` if there is none (see `repairing`).
fn repair_of(
    alloc: Global,
    table: &PositionTable<'_>,
    report: &Report,
) -> Result<Option<Repair>, AllocError>
    ensures { IfOk result (λ found. IfSome found
        (mending.IsRepair table.now.encoding table.now.text.now (report_content report.now))) }
{
    let Some(edits) = repairing(alloc, table.text, report)? else {
        return Ok(None);
    };
    let is_certain = report.code.as_str() != DUPLICATE_KEY;
    Ok(Some(Repair {
        title: repair_title(alloc, report)?,
        diagnostic: diagnostic_of(alloc, table, report)?,
        edits,
        is_safe: is_certain && all_safe(report.replacements.as_slice()),
    }))
}

/// Returns the repairs of the diagnostics whose ranges touch `span`, in the order of `diagnostics`. `reports` are the
/// reports on the text of `table`, as `diagnostics` returns them. Leaves out repairs whose edits don't fit the text.
/// Fails if an allocation fails.
pub fn repairs(
    alloc: Global,
    table: &PositionTable<'_>,
    reports: &[Report],
    span: Span,
) -> Result<Vec<Repair>, AllocError> {
    let mut found = Vec::new(alloc);
    for report in reports {
        let place = main_span(report.labels.as_slice());
        if touches(place, span.start) || touches(span, place.start) {
            if let Some(repair) = repair_of(alloc, table, report)? {
                found.push(repair)?;
            }
        }
    }
    Ok(found)
}

/// Returns the diagnostic that the key `name` is missing in the table at `span`, if there is one. `reports` are as for
/// `repairs`. Fails if an allocation fails.
pub fn missing_key(
    alloc: Global,
    table: &PositionTable<'_>,
    reports: &[Report],
    name: &str,
    span: Span,
) -> Result<Option<Diagnostic>, AllocError> {
    let message = format!(in alloc; "missing key `{name}`")?;
    for report in reports {
        let place = main_span(report.labels.as_slice());
        let is_here = touches(place, span.start) || touches(span, place.start);
        let is_missing = report.code.as_str() == REQUIRED
            && report.message.as_str().starts_with(message.as_str());
        if is_here && is_missing {
            return Ok(Some(diagnostic_of(alloc, table, report)?));
        }
    }
    Ok(None)
}

/// Returns edits that make of a text what `toml-span check --fix` writes (see `with_all_fixes`). `name` is the name of
/// the file. The list is empty if there is nothing to change. Fails if an allocation fails.
pub fn all_repairs(
    alloc: Global,
    text: &str,
    version: Version,
    name: &str,
) -> Result<Vec<Edit>, AllocError>
    ensures { IfOk result (λ edits. spec.RepairsAll version name.now text.now (map edit_content edits.items)) }
{
    let made = with_all_fixes(alloc, text, version, name, FixLevel::Safe)?;
    differences(alloc, text, made.text.as_str())
}
