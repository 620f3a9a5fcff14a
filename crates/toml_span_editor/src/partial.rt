//! Checks a text with errors against its schema, as far as the text can be read.
ghost use Rattle.std.specs.Prelude.{◌≡◌, ◌∷◌, ◌++◌, [], IfOk, OnOk, map};
ghost use Rattle.std.specs.List.{list_any};
ghost use Rattle.std.specs.Str.{bytes_eq};
ghost use Rattle.toml_span_report.specs.Report.{report_content};
ghost use Rattle.toml_span_editor.specs.Partial as spec;

use crate::document::{Part, read, read_parts};
use crate::spans::main_span;
use std::alloc::{AllocError, Global};
use toml_span_check::schemas::{Chooser, Schemas};
use toml_span_lex::span::Span;
use toml_span_report::Report;

/// The codes of reports that only depend on a value or key that is written, not on what else is written.
const CERTAIN: [&str; 19] = [
    "schema-additional-properties",
    "schema-const",
    "schema-deprecated",
    "schema-enum",
    "schema-exclusive-maximum",
    "schema-exclusive-minimum",
    "schema-false",
    "schema-format",
    "schema-max-items",
    "schema-max-length",
    "schema-maximum",
    "schema-min-length",
    "schema-minimum",
    "schema-multiple-of",
    "schema-not-fetched",
    "schema-pattern",
    "schema-property-names",
    "schema-type",
    "schema-unique-items",
];

/// A section of a text, and what is in doubt about its table.
#[derive(Clone, Copy)]
pub(crate) struct Doubt {
    /// The span of the section: a header, or the start of the text, and the statements before the next header.
    span: Span,
    /// Whether the header can't be read, so that the table is not known.
    is_unknown: bool,
    /// Whether some statement can't be read, so that the table may have more keys.
    is_partial: bool,
}

/// Returns a section that consists of the header `part` so far.
fn begun(part: Part) -> Doubt
    ensures { result ≡ spec.begun part }
{
    Doubt {
        span: part.span,
        is_unknown: !part.is_kept,
        is_partial: !part.is_kept,
    }
}

/// Returns `section` with the statement `part` added.
fn extended(section: Doubt, part: Part) -> Doubt
    ensures { result ≡ spec.extended section part }
{
    Doubt {
        span: Span {
            start: section.span.start,
            end: part.span.end,
        },
        is_unknown: section.is_unknown,
        is_partial: section.is_partial || !part.is_kept,
    }
}

/// Appends `section` if some statement of it can't be read.
fn push_partial(found: &mut Vec<Doubt>, section: Doubt) -> Result<(), AllocError>
    ensures { OnOk result (found.new.items ≡ found.old.items ++ spec.partial (section ∷ [])) }
{
    if section.is_partial {
        found.push(section)?;
    }
    Ok(())
}

/// Returns the sections with statements that can't be read, in a text with the statements `parts`.
fn doubts(alloc: Global, parts: &[Part]) -> Result<Vec<Doubt>, AllocError>
    ensures { IfOk result (λ found. found.items ≡ spec.doubts parts.now) }
{
    let mut found = Vec::new(alloc);
    let mut section = Doubt {
        span: Span { start: 0, end: 0 },
        is_unknown: false,
        is_partial: false,
    };
    for part in parts {
        if part.is_header {
            push_partial(&mut found, section)?;
            section = begun(*part);
        } else {
            section = extended(section, *part);
        }
    }
    push_partial(&mut found, section)?;
    Ok(found)
}

/// Returns whether `code` is one of `codes`.
fn is_among(code: &str, codes: &[&str]) -> bool
    ensures { result ≡ list_any (bytes_eq code.now) (map (λ one. one.now) codes.now) }
{
    for one in codes {
        if code == *one {
            return true;
        }
    }
    false
}

/// Returns whether a report at the offset `place` may be wrong because of what is in doubt about a section.
/// `is_certain` says whether its code is among the certain ones.
fn is_doubted_by(doubt: Doubt, place: usize, is_certain: bool) -> bool
    ensures { result ≡ spec.is_doubted_by place is_certain doubt }
{
    let is_inside = doubt.span.start <= place && place < doubt.span.end;
    (is_inside && doubt.is_unknown) || ((is_inside || doubt.is_unknown) && !is_certain)
}

/// Returns whether `is_doubted_by` is true for any of `doubts`.
fn is_doubted(doubts: &[Doubt], place: usize, is_certain: bool) -> bool
    ensures { result ≡ spec.is_doubted place is_certain doubts.now }
{
    for doubt in doubts {
        if is_doubted_by(*doubt, place, is_certain) {
            return true;
        }
    }
    false
}

/// Appends a report if `doubts` leaves it certain. `codes` are the codes of reports that do not depend on what else is
/// written.
fn push_certain(
    kept: &mut Vec<Report>,
    report: Report,
    doubts: &[Doubt],
    codes: &[&str],
) -> Result<(), AllocError>
    ensures { OnOk result (map report_content kept.new.items
        ≡ spec.with_certain (map (λ code. code.now) codes.now) doubts.now (map report_content kept.old.items)
        (report_content report)) }
{
    let place = main_span(report.labels.as_slice()).start;
    let is_certain = is_among(report.code.as_str(), codes);
    if is_doubted(doubts, place, is_certain) {
        Ok(())
    } else {
        kept.push(report)?;
        Ok(())
    }
}

/// Returns the reports that `doubts` leaves certain. `codes` are as for `push_certain`.
fn certain(
    alloc: Global,
    reports: Vec<Report>,
    doubts: &[Doubt],
    codes: &[&str],
) -> Result<Vec<Report>, AllocError>
    ensures { IfOk result (λ kept. map report_content kept.items
        ≡ spec.certain (map (λ code. code.now) codes.now) doubts.now (map report_content reports.items)) }
{
    let mut kept = Vec::new(alloc);
    for report in reports {
        push_certain(&mut kept, report, doubts, codes)?;
    }
    Ok(kept)
}

/// Returns the reports of the schema on a text with errors: those on as much of it as can be read (see `readable`),
/// except for those that may be wrong because something can't be read. `name` is the name of the file.
pub(crate) fn partial_reports<S: Schemas>(
    alloc: Global,
    chooser: Chooser,
    name: &str,
    text: &str,
    schemas: &mut S,
) -> Result<Vec<Report>, AllocError>
    ensures { IfOk result (λ found. spec.ArePartialReports S.says chooser name.now text.now
        (map report_content found.items)) }
{
    let kept = read_parts(alloc, text)?;
    let Some(document) = read(alloc, kept.text.as_str())? else {
        return Ok(Vec::new(alloc));
    };
    let made = schemas.check(alloc, chooser, name, kept.text.as_str(), &document.root)?;
    let doubts = doubts(alloc, kept.parts.as_slice())?;
    certain(alloc, made.reports, doubts.as_slice(), &CERTAIN)
}
