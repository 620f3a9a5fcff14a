//! Reports that outlive the source.
ghost use Rattle.std.specs.Prelude.{IfOk, Some, map, string_bytes};
ghost use Rattle.toml_span_report.specs.Report.{report_content};
ghost use Rattle.toml_span_mistakes.specs.Reported.{AreReportsOfStop};

use crate::errors::error_reports;
use std::alloc::{AllocError, Global};
use std::fmt;
use std::fmt::{Display, Formatter, Write};
use toml_span_lex::stop::Stop;
use toml_span_report::{Report, Style, render_all};
use toml_span_tree::DeserError;

/// The reports of the errors and warnings of one read. Unlike a `DeserError`, a `Reported` does not borrow from the
/// source, so a function that reads a file can return a `Reported` and drop the source.
#[derive(Debug, Drop)]
pub struct Reported {
    /// The reports of the warnings, and then the reports of the errors.
    pub reports: Vec<Report>,
    /// The text of all reports, as `render_all` formats it.
    pub text: String,
}

impl Reported {
    /// Returns a report of each error in `stop`, the error that `from_str` returned, and the text of these reports.
    /// `name` is the name of the file, and `text` its source. Fails if `stop` is `Stop::Memory`, or if an allocation
    /// fails.
    pub fn of(
        alloc: Global,
        style: Style,
        stop: Stop<DeserError<'_>>,
        name: &str,
        text: &str,
    ) -> Result<Reported, AllocError>
        ensures { IfOk result (λ made. AreReportsOfStop style name.now text.now stop.entry
            (map report_content made.reports.items) (string_bytes made.text)) }
    {
        match stop {
            Stop::Fault(errors) => {
                let reports = error_reports(alloc, &errors, text)?;
                let text = render_all(alloc, style, reports.as_slice(), name, text)?;
                Ok(Reported { reports, text })
            }
            Stop::Memory(error) => Err(error),
        }
    }
}

/// Writes the field `text`.
impl Display for Reported {
    ghost output = { λ reported. Some (string_bytes reported.text) };

    fn fmt<W: Write>(&self, f: &mut Formatter<W>) -> fmt::Result {
        f.write_str(self.text.as_str())
    }
}

impl std::error::Error for Reported {}
