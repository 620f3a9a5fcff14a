//! Output formats for the reports of other programs, such as lints: commands for GitHub workflows, and SARIF.
ghost use Rattle.std.specs.Prelude.{◌≡◌, IfOk, string_bytes};
ghost use Rattle.toml_span_check.specs.Github as github_spec;
ghost use Rattle.toml_span_check.specs.Lints as spec;
ghost use Rattle.toml_span_check.specs.Sarif as sarif_spec;
ghost use Rattle.toml_span_report.specs.Report.{report_content};

use crate::github::github;
use crate::sarif::{sarif, without_comma};
use std::alloc::{AllocError, Global};
use toml_span_report::Report;
use toml_span_report::visible::push_quoted;

/// The start of the SARIF document, before the name of the tool.
const HEAD: &str = r#"{
"$schema":"https://docs.oasis-open.org/sarif/sarif/v2.1.0/errata01/os/schemas/sarif-schema-2.1.0.json",
"version":"2.1.0",
"runs":[{"tool":{"driver":{"name":"#;

/// The part of the SARIF document between the name of the tool and the results.
const RESULTS: &str = r#"}},"columnKind":"unicodeCodePoints","results":["#;

/// The end of the SARIF document, after the results.
const TAIL: &str = "\n]}]}\n";

/// Returns a report as a command for GitHub workflows, with a line feed at the end. The command annotates the lines of
/// the first primary label, if there is one. For example:
/// `::error file=a.toml,line=2,endLine=2,col=1,endColumn=5,title=no-version::the package has no version`.
///
/// `text` is the source of the file `name`. Lines and columns are counted from 1, columns in characters. Fails if an
/// allocation fails.
pub fn github_line(
    alloc: Global,
    report: &Report,
    name: &str,
    text: &str,
) -> Result<String, AllocError>
    ensures { IfOk result (λ out. string_bytes out
        ≡ github_spec.github (report_content report.now) name.now text.now) }
{
    github(alloc, report, name, text)
}

/// Returns a report as a SARIF result, after a comma and a line feed, for `sarif_document`. `text` is the source of the
/// file `name`. Fails if an allocation fails.
pub fn sarif_result(
    alloc: Global,
    report: &Report,
    name: &str,
    text: &str,
) -> Result<String, AllocError>
    ensures { IfOk result (λ out. string_bytes out
        ≡ sarif_spec.sarif (report_content report.now) name.now text.now) }
{
    sarif(alloc, report, name, text)
}

/// Returns the SARIF document, version 2.1.0, of a run of the tool `tool`. `results` is the concatenation of the texts
/// that `sarif_result` returned for the reports. Fails if an allocation fails.
#[tactic(auto, unfolding(crate::specs::Lints::sarif_document))]
pub fn sarif_document(alloc: Global, tool: &str, results: &str) -> Result<String, AllocError>
    ensures { IfOk result (λ out. string_bytes out ≡ spec.sarif_document tool.now results.now) }
{
    let mut out = String::from_str(alloc, HEAD)?;
    push_quoted(alloc, &mut out, tool)?;
    out.push_str(RESULTS)?;
    out.push_str(without_comma(results))?;
    out.push_str(TAIL)?;
    Ok(out)
}
