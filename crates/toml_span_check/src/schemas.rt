//! Checks of documents against schemas, by the trait `Schemas`. Users of this crate implement the trait.
ghost use Rattle.std.specs.Prelude.{◌≡◌, ◌+◌, ℕ, List, [], IfOk, map, string_bytes};
ghost use Rattle.toml_span_check.specs.Schemas as spec;
ghost use Rattle.toml_span_check.specs.Schemas.{Says, no_schema};
ghost use Rattle.toml_span_report.specs.Report.{ReportContent, report_content};
ghost use Rattle.toml_span_tree.specs.Node.{Node};
ghost use Rattle.toml_span_tree.specs.Value.{view};

use crate::sums::sum_of;
use std::alloc::{AllocError, Global};
use toml_span::Value;
use toml_span_report::{Report, Severity};

/// Who chooses the schemas of files.
#[derive(Clone, Copy, PartialEq, Eq)]
pub enum Chooser {
    /// The files themselves, by directives: comments such as `#:schema ./app.schema.json`.
    Files,
    /// Options of the command line or of an editor, and directives.
    Arguments,
}

/// The result of checking a document against its schema.
#[derive(Drop)]
pub struct SchemaReports {
    /// The reports, in the order in which they are printed.
    pub reports: Vec<Report>,
    /// Lines for standard error that say why a schema or a catalog can't be used, or why the document can't be checked.
    /// Empty if neither is the case.
    pub complaint: String,
}

/// A source of schemas: files, or a substitute in tests.
pub trait Schemas {
    ghost use Rattle.toml_span_check.specs.declared.schemas.Chooser.{Chooser};

    /// Says which reports and complaint a check may return: relates the chooser, the name of the file, its text, its
    /// tree, the reports, and the complaint.
    ghost says: { Chooser → List ℕ → List ℕ → Node → List ReportContent → List ℕ → Type 0 };

    /// Finds the schema of a document, if there is one, and checks the document against the schema. `text` is the
    /// source of the file `name`, and `root` its tree. Fails if an allocation fails.
    fn check(
        &mut self,
        alloc: Global,
        chooser: Chooser,
        name: &str,
        text: &str,
        root: &Value<'_>,
    ) -> Result<SchemaReports, AllocError>
        ensures { IfOk result (λ made. says chooser name.now text.now (view root.now)
            (map report_content made.reports.items) (string_bytes made.complaint)) };
}

/// A source without schemas. Its checks report nothing.
#[derive(Drop)]
pub struct NoSchemas;

impl Schemas for NoSchemas {
    ghost says = { no_schema };

    fn check(
        &mut self,
        alloc: Global,
        _chooser: Chooser,
        _name: &str,
        _text: &str,
        _root: &Value<'_>,
    ) -> Result<SchemaReports, AllocError> {
        Ok(SchemaReports {
            reports: Vec::new(alloc),
            complaint: String::new(alloc),
        })
    }
}

/// Returns the number of errors that a report of this severity counts as: 1 for an error, otherwise 0.
fn weight(severity: Severity) -> usize
    ensures { result ≡ spec.weight severity }
{
    match severity {
        Severity::Error => 1,
        Severity::Warning | Severity::Note => 0,
    }
}

/// Returns `count` plus the number of reports that are errors. Fails if the sum overflows.
pub(crate) fn with_errors(count: usize, reports: &[Report]) -> Result<usize, AllocError>
    ensures { IfOk result (λ sum. sum ≡ count + spec.errors_in (map report_content reports.now)) }
{
    let mut sum = count;
    for report in reports {
        sum = sum_of(sum, weight(report.severity))?;
    }
    Ok(sum)
}

/// Returns the number of errors that a complaint counts as: 0 if it is empty, otherwise 1.
pub(crate) fn complaint_weight(complaint: &str) -> usize
    ensures { result ≡ spec.complaint_weight complaint.now }
{
    if complaint.is_empty() { 0 } else { 1 }
}
