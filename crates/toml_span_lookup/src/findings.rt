//! Checks documents against schemas.
ghost use Rattle.std.specs.Prelude.{IfOk, OnOk, map};
ghost use Rattle.toml_span_lookup.specs.Findings.{AddsWarnings, ChecksWith, IsNotFetched};
ghost use Rattle.toml_span_report.specs.Report.{report_content};
ghost use Rattle.toml_span_tree.specs.Value.{view};

use std::alloc::{AllocError, Global};
use toml_span::{Span, Value};
use toml_span_report::{Report, Severity};
use toml_span_schema::{CheckError, Schema};

/// Appends to `reports` the warnings in `found`.
pub(crate) fn push_warnings(reports: &mut Vec<Report>, found: Vec<Report>) -> Result<(), AllocError>
    ensures { OnOk result (AddsWarnings (map report_content reports.old.items) (map report_content reports.new.items)) }
{
    for report in found {
        match report.severity {
            Severity::Warning => reports.push(report)?,
            Severity::Error | Severity::Note => {}
        }
    }
    Ok(())
}

/// Returns the reports on a document: the violations of the schema, and then warnings about deprecated values. Fails as
/// `Schema::check` does.
pub(crate) fn findings(
    alloc: Global,
    schema: &Schema,
    root: &Value<'_>,
) -> Result<Vec<Report>, CheckError>
    ensures { IfOk result (λ reports. ChecksWith schema.now (view root.now) (map report_content reports.items)) }
{
    let mut reports = schema.check(alloc, root)?;
    let found = schema.warnings(alloc, root)?;
    push_warnings(&mut reports, found)?;
    Ok(reports)
}

/// Returns the warning that the schema at `address` is not fetched. `span` is where the file names the schema, or
/// `None` if the file does not name it. `help` says how to name a local copy.
pub(crate) fn not_fetched(
    alloc: Global,
    address: &str,
    span: Option<Span>,
    help: &str,
) -> Result<Report, AllocError>
    ensures { IfOk result (λ report. IsNotFetched (report_content report)) }
{
    let message = format!(in alloc; "the schema `{address}` is not fetched")?;
    let report = Report::warning(alloc, "schema-not-fetched", message.as_str())?;
    let report = match span {
        Some(span) => report.primary(span, "")?,
        None => report,
    };
    report.help(help)
}
