//! Prints errors as reports.
ghost use Rattle.std.specs.Prelude.{◌≡◌, IfOk, option_map, string_bytes};
ghost use Rattle.toml_span_report.specs.Report.{report_content};
ghost use Rattle.toml_span_serde.specs.Shown.{IsErrorText, IsMisfitText, with_meant};

use crate::misfit::{Error, Misfit};
use std::alloc::{AllocError, Global};
use toml_span_lex::stop::Stop;
use toml_span_mistakes::{error_report, render_error};
use toml_span_report::{Report, Style, render};

/// Returns an error of `from_str` as the text of a report: a message, and the source line with marks. For an unknown
/// key or variant, the report suggests the expected name that is nearest, if one is near enough.
///
/// `text` is the source of the file `name`. Fails if `stop` is `Stop::Memory`, or if an allocation fails.
pub fn render_stop(
    alloc: Global,
    style: Style,
    stop: Stop<Error<'_>>,
    name: &str,
    text: &str,
) -> Result<String, AllocError>
    ensures { IfOk result (λ out. IsErrorText style stop.entry name.now text.now (string_bytes out)) }
{
    match stop {
        Stop::Memory(e) => Err(e),
        Stop::Fault(Error::Refused(error)) => render_error(alloc, style, &error, name, text),
        Stop::Fault(Error::Misfit(misfit)) => render_misfit(alloc, style, &misfit, name, text),
    }
}

/// Returns the text of the report on a misfit.
fn render_misfit(
    alloc: Global,
    style: Style,
    misfit: &Misfit,
    name: &str,
    text: &str,
) -> Result<String, AllocError>
    ensures { IfOk result (λ out. IsMisfitText style misfit.now name.now text.now (string_bytes out)) }
{
    let error = misfit.to_error(alloc)?;
    let report = error_report(alloc, &error, text)?;
    let report = helped(alloc, misfit.reason.meant(alloc)?, report)?;
    render(alloc, style, &report, name, text)
}

/// Adds help that suggests the name `meant` to the report. If `meant` is `None`, returns the report unchanged.
fn helped(alloc: Global, meant: Option<&str>, report: Report) -> Result<Report, AllocError>
    ensures { IfOk result (λ made. report_content made
        ≡ with_meant (option_map (λ name. name.now) meant.entry) (report_content report)) }
{
    match meant {
        Some(name) => {
            let help = format!(in alloc; "did you mean `{name}`?")?;
            report.help(help.as_str())
        }
        None => Ok(report),
    }
}
