//! Which errors `check --fix` can fix: marks in reports, words for people, and numbers.
ghost use Rattle.std.specs.Prelude.{◌≡◌, IfOk, map};
ghost use Rattle.toml_span_report.specs.Report.{repair_of, report_content};
ghost use Rattle.toml_span_check.specs.Fixable as spec;

use crate::drafts::read;
use crate::fixing::{FixLevel, all_safe, is_fixable};
use crate::statements::faulty;
use crate::sums::sum_of;
use std::alloc::{AllocError, Global};
use toml_span_report::{Replacement, Report};
use toml_span_syntax::pieces::Piece;
use toml_span_syntax::statements::Statement;

/// Returns the replacements, marked as safe or unsafe.
fn marked(
    alloc: Global,
    repairs: &[Replacement],
    is_safe: bool,
) -> Result<Vec<Replacement>, AllocError>
    ensures { IfOk result (λ made. map repair_of made.items ≡ map (spec.marked is_safe) (map repair_of repairs.now)) }
{
    let mut made = Vec::new(alloc);
    for repair in repairs {
        made.push(Replacement {
            span: repair.span,
            text: String::from_str(alloc, repair.text.as_str())?,
            is_safe,
        })?;
    }
    Ok(made)
}

/// The number of errors, and of those that have fixes.
#[derive(Clone, Copy, Drop)]
pub(crate) struct Count {
    pub(crate) errors: usize,
    /// The number of errors whose fixes are safe.
    pub(crate) safe_fixes: usize,
    /// The number of errors whose fixes are not all safe.
    pub(crate) unsafe_fixes: usize,
}

impl Count {
    /// Returns the count of a file without errors.
    pub(crate) fn none() -> Count
        ensures { result ≡ spec.no_error }
    {
        Count {
            errors: 0,
            safe_fixes: 0,
            unsafe_fixes: 0,
        }
    }

    /// Returns the count of a file with one error, which has no fix.
    pub(crate) fn one() -> Count
        ensures { result ≡ spec.one_error }
    {
        Count {
            errors: 1,
            safe_fixes: 0,
            unsafe_fixes: 0,
        }
    }

    /// Returns the sums of the numbers of two counts. Fails if a sum overflows.
    pub(crate) fn plus(self, more: Count) -> Result<Count, AllocError>
        ensures { IfOk result (λ sum. sum ≡ spec.plus self more) }
    {
        Ok(Count {
            errors: sum_of(self.errors, more.errors)?,
            safe_fixes: sum_of(self.safe_fixes, more.safe_fixes)?,
            unsafe_fixes: sum_of(self.unsafe_fixes, more.unsafe_fixes)?,
        })
    }
}

/// Returns the level of a fix with these replacements: `Safe` if all of them are safe. Returns `None` if there are
/// none.
fn level_of(repairs: &[Replacement]) -> Option<FixLevel>
    ensures { result ≡ spec.level_of (map repair_of repairs.now) }
{
    match repairs {
        [] => None,
        [_, ..] if all_safe(repairs) => Some(FixLevel::Safe),
        [_, ..] => Some(FixLevel::Unsafe),
    }
}

/// Returns the report of an error in a statement of a text. Its replacements are marked as safe if and only if safe fixes
/// fix the statement (`is_fixable`).
pub(crate) fn settled(
    alloc: Global,
    text: &str,
    pieces: &[Piece],
    statements: &[Statement],
    statement: Statement,
    mut report: Report,
) -> Result<Report, AllocError>
    ensures { IfOk result (λ made. spec.IsSettled text.now pieces.now statements.now statement (report_content report)
        (report_content made)) }
{
    let repairs = report.replacements.as_slice();
    if repairs.is_empty() {
        return Ok(report);
    }
    let is_safe = is_fixable(alloc, text, pieces, statements, statement, FixLevel::Safe)?;
    report.replacements = marked(alloc, repairs, is_safe)?;
    Ok(report)
}

/// Returns the offset at which the first replacement begins, or 0 without replacements.
fn first_start(repairs: &[Replacement]) -> usize
    ensures { result ≡ spec.first_start (map repair_of repairs.now) }
{
    match repairs {
        [first, ..] => first.span.start,
        [] => 0,
    }
}

/// Returns the report of an error of a text, without its replacements if `with_fixes` does not fix the statement of the
/// first one, at `FixLevel::Unsafe` either.
fn without_unmade(
    alloc: Global,
    text: &str,
    pieces: &[Piece],
    statements: &[Statement],
    mut report: Report,
) -> Result<Report, AllocError>
    ensures { IfOk result (λ made. spec.IsShown text.now pieces.now statements.now (report_content report)
        (report_content made)) }
{
    if report.replacements.is_empty() {
        return Ok(report);
    }
    let start = first_start(report.replacements.as_slice());
    let statement = faulty(text, pieces, statements, 0, start, true);
    if is_fixable(alloc, text, pieces, statements, statement, FixLevel::Unsafe)? {
        return Ok(report);
    }
    report.replacements = Vec::new(alloc);
    Ok(report)
}

/// Returns the reports of the errors of a text, without the replacements that `with_fixes` does not make, at
/// `FixLevel::Unsafe` either.
pub(crate) fn shown(
    alloc: Global,
    text: &str,
    reports: Vec<Report>,
) -> Result<Vec<Report>, AllocError>
    ensures { IfOk result (λ made. spec.AreShown text.now (map report_content reports.items)
        (map report_content made.items)) }
{
    let reading = read(alloc, text)?;
    let pieces = reading.pieces.as_slice();
    let statements = reading.statements.as_slice();
    let mut made = Vec::new(alloc);
    for report in reports {
        made.push(without_unmade(alloc, text, pieces, statements, report)?)?;
    }
    Ok(made)
}

/// Returns whether a report has a safe fix (`is_safe`), or a fix that is not safe.
fn has_fix(is_safe: bool, report: &Report) -> bool
    ensures { result ≡ spec.has_fix is_safe (report_content report.now) }
{
    match level_of(report.replacements.as_slice()) {
        None => false,
        Some(FixLevel::Safe) => is_safe,
        Some(FixLevel::Unsafe) => !is_safe,
    }
}

/// Returns the number of reports that have safe fixes (`is_safe`), or fixes that are not safe.
fn fixable(is_safe: bool, reports: &[Report]) -> usize
    ensures { result ≡ spec.fixable is_safe (map report_content reports.now) }
{
    let mut count = 0usize;
    for report in reports {
        if has_fix(is_safe, report) {
            count = count.saturating_add(1);
        }
    }
    count
}

/// Returns the number of reports, and of those that have fixes.
pub(crate) fn count_of(reports: &[Report]) -> Count
    ensures { result ≡ spec.count_of (map report_content reports.now) }
{
    Count {
        errors: reports.len(),
        safe_fixes: fixable(true, reports),
        unsafe_fixes: fixable(false, reports),
    }
}

/// Returns what the help of a report says at its end: whether the fix is safe. Returns an empty text if the report has
/// no fix.
pub(crate) fn words_of(report: &Report) -> &'static str
    ensures { result.now ≡ spec.words_of (report_content report.now) }
{
    match level_of(report.replacements.as_slice()) {
        None => "",
        Some(FixLevel::Safe) => " (safe fix)",
        Some(FixLevel::Unsafe) => " (unsafe fix)",
    }
}
