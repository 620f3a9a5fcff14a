//! Makes the reports of a typed read.
ghost use Rattle.std.specs.Prelude.{IfOk, OnOk, map};
ghost use Rattle.toml_span_tree.specs.Error.{content_of};
ghost use Rattle.toml_span_mistakes.specs.Errors.{AddsReports};
ghost use Rattle.toml_span_mistakes.specs.Reads.{AreReportsOf};
ghost use Rattle.toml_span_report.specs.Report.{report_content};
ghost use Rattle.toml_span_report.specs.declared.report.Severity.TheVariants as severities;

use crate::errors::{push_errors, warning_report};
use std::alloc::{AllocError, Global};
use toml_span_lex::stop::Stop;
use toml_span_report::Report;
use toml_span_tree::{DeserError, Error};

/// Appends the report of each warning to `reports`. `text` is the source. If an allocation fails, `reports` may have
/// the reports of some warnings.
fn push_warnings(
    alloc: Global,
    warnings: &[Error<'_>],
    text: &str,
    reports: &mut Vec<Report>,
) -> Result<(), AllocError>
    ensures { OnOk result (AddsReports severities.Warning text.now (map content_of warnings.now)
        (map report_content reports.old.items) (map report_content reports.new.items)) }
{
    for warning in warnings {
        reports.push(warning_report(alloc, warning, text)?)?;
    }
    Ok(())
}

/// Returns the reports of all warnings of a read and then, if the read failed, the reports of its errors. `text` is the
/// source. `render_all` formats the reports. Fails if the read failed with `Stop::Memory`, or if an allocation fails.
pub fn reports_of<T>(
    alloc: Global,
    read: &Result<T, Stop<DeserError<'_>>>,
    warnings: &[Error<'_>],
    text: &str,
) -> Result<Vec<Report>, AllocError>
    ensures { IfOk result (λ reports. AreReportsOf read.now (map content_of warnings.now) text.now
        (map report_content reports.items)) }
{
    let mut reports = Vec::new(alloc);
    push_warnings(alloc, warnings, text, &mut reports)?;
    match read {
        Ok(_) => Ok(reports),
        Err(Stop::Fault(errors)) => {
            push_errors(alloc, errors, text, &mut reports)?;
            Ok(reports)
        }
        Err(Stop::Memory(error)) => Err(*error),
    }
}
