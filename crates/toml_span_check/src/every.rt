//! Finds the errors of a text, not only the first.
ghost use Rattle.std.specs.Prelude.{◌≡◌, ◌∷◌, ◌++◌, [], IfErr, IfNone, IfOk, IfSome, OnOk};
ghost use Rattle.std.specs.Prelude.{map, length, nat_le, string_bytes};
ghost use Rattle.std.specs.Str.{IsCharBoundary};
ghost use Rattle.toml_span_lex.specs.Stop.{fault_of};
ghost use Rattle.toml_span_lex.specs.declared.stop.Stop.TheVariants.{Fault};
ghost use Rattle.toml_span.specs.Parsing.{IsRefusal, IsTree};
ghost use Rattle.toml_span_read.specs.Data.{depth_limit};
ghost use Rattle.toml_span_report.specs.Report.{report_content};
ghost use Rattle.toml_span_tree.specs.Error.{kind_of};
ghost use Rattle.toml_span_check.specs.Every as spec;
ghost use Rattle.toml_span_check.specs.Every.{Adds, AddsReport, Checks, Finds, HasFound, IsRead, Reads};
ghost use Rattle.toml_span_check.specs.code.Every.{HasNoFault, IsErrorOf, IsNextError, IsRefusedAt};
ghost use Rattle.toml_span_check.specs.code.Every.{progress, source_of};

use crate::drafts::{Reading, read};
use crate::fixable::settled;
use crate::statements::{Extent, extent_of, offset_of};
use std::alloc::{AllocError, Global};
use toml_span::de::parse;
use toml_span::{Error, ErrorKind, Stop, Value};
use toml_span_mistakes::error_report;
use toml_span_read::read_sections;
use toml_span_report::Report;

/// The maximum number of errors to look for.
const MOST: usize = 100;

/// The limit on the depth of values and on the number of parts of a key, as in `parse`.
const DEPTH_LIMIT: usize = 128;

/// The maximum product of the number of errors to look for and the text's length in bytes. Each error may need another
/// parse of the text.
const WORK: usize = 134_217_728;

/// The report of an error, and the statements that the error concerns.
#[derive(Drop)]
struct ErrorAt {
    report: Report,
    /// The byte offset at which the error's span starts.
    place: usize,
    /// Whether `is_clash` is true for the error.
    is_clash: bool,
    extent: Extent,
}

/// The errors found so far.
#[derive(Drop)]
struct Found {
    /// The text, with spaces in place of the statements that the errors concern.
    blanked: String,
    /// The position of the piece at which reading goes on.
    next: usize,
    /// The byte offsets at which the errors' spans start.
    places: Vec<usize>,
    reports: Vec<Report>,
}

/// Returns the maximum number of errors to look for in a text of `len` bytes: from 1 to `MOST`.
fn most(len: usize) -> usize
    ensures { result ≡ spec.most len }
{
    (WORK / len.max(1)).min(MOST).max(1)
}

/// Returns the text with spaces in place of the bytes from `from` to `to`, if there are any.
fn blanked(alloc: Global, text: &str, from: usize, to: usize) -> Result<String, AllocError>
    requires from { IsCharBoundary text.now from }
    requires to { IsCharBoundary text.now to }
    ensures { IfOk result (λ out. string_bytes out ≡ spec.blank from to text.now) }
{
    let to = to.max(from);
    let mut out = String::from_str(alloc, &text[..from])?;
    let spaces = " ".repeat(alloc, to - from)?;
    out.push_str(spaces.as_str())?;
    out.push_str(&text[to..])?;
    Ok(out)
}

/// Returns whether the error is a clash of two keys or headers, or a dotted key that goes through an earlier value. Such
/// an error is reported only if every statement can be read.
fn is_clash(kind: &ErrorKind<'_>) -> bool
    ensures { result ≡ spec.is_clash (kind_of kind.now) }
{
    matches!(
        kind,
        ErrorKind::DuplicateKey { .. }
            | ErrorKind::DuplicateTable { .. }
            | ErrorKind::RedefineAsArray
            | ErrorKind::DottedKeyInvalidType { .. }
    )
}

/// Returns the report of an error of `copy`, a copy of the text with spaces in place of some statements. `reading` has
/// the pieces and statements of the text. The statement with the error begins at or after the piece at `from`.
fn error_at(
    alloc: Global,
    text: &str,
    reading: &Reading,
    copy: &str,
    from: usize,
    error: &Error<'_>,
) -> Result<ErrorAt, AllocError>
    ensures { IfOk result (IsErrorOf (source_of text.now reading.now) copy.now from error.now) }
{
    let pieces = reading.pieces.as_slice();
    let statements = reading.statements.as_slice();
    let place = error.span.start;
    let clash = is_clash(&error.kind);
    let extent = extent_of(text, pieces, statements, from, place, clash);
    let made = error_report(alloc, error, copy)?;
    let report = settled(alloc, text, pieces, statements, extent.statement, made)?;
    Ok(ErrorAt {
        report,
        place,
        is_clash: clash,
        extent,
    })
}

/// Parses `copy`, a copy of the text. Returns its error as `error_at` does, or `None` if it has no error.
fn next_error(
    alloc: Global,
    text: &str,
    reading: &Reading,
    copy: &str,
    from: usize,
) -> Result<Option<ErrorAt>, AllocError>
    ensures { IfOk result (IsNextError (source_of text.now reading.now) copy.now from) }
{
    match parse(alloc, copy) {
        Ok(_) => Ok(None),
        Err(stop) => {
            let error = stop.fault()?;
            let next = error_at(alloc, text, reading, copy, from, &error)?;
            Ok(Some(next))
        }
    }
}

/// Reads `copy`, a copy of the text, without a search for clashes. Returns its first fault as `error_at` does, or `None`
/// if it has no fault.
fn next_fault(
    alloc: Global,
    text: &str,
    reading: &Reading,
    copy: &str,
    from: usize,
) -> Result<Option<ErrorAt>, AllocError>
    ensures fault { IfOk result (λ next. IfSome next (IsRefusedAt (source_of text.now reading.now) copy.now from)) }
    ensures none { IfOk result (λ next. IfNone next (HasNoFault copy.now)) }
{
    match read_sections(alloc, copy, DEPTH_LIMIT) {
        Ok(_) => Ok(None),
        Err(stop) => {
            let error = stop.fault()?;
            let next = error_at(alloc, text, reading, copy, from, &error)?;
            Ok(Some(next))
        }
    }
}

/// Adds `report`, unless an error has already been found at the offset `place`. Adds `place` to `found.places` in
/// either case.
fn push_new(found: &mut Found, report: Report, place: usize) -> Result<(), AllocError>
    ensures { OnOk result (AddsReport (report_content report) place (progress found.old) (progress found.new)) }
{
    if !found.places.contains(&place) {
        found.reports.push(report)?;
    }
    found.places.push(place)?;
    Ok(())
}

/// Returns `found` with the error `next` added, and with spaces in place of the statements that it concerns.
fn with_error(
    alloc: Global,
    text: &str,
    reading: &Reading,
    mut found: Found,
    next: ErrorAt,
) -> Result<Found, AllocError>
    requires reading { IsRead (source_of text.now reading.now) }
    requires found { HasFound (source_of text.now reading.now) (progress found) }
    ensures { IfOk result (λ more. Adds (source_of text.now reading.now) next.extent (report_content next.report)
        next.place (progress found) (progress more)) }
{
    let ErrorAt {
        report,
        place,
        is_clash: _,
        extent,
    } = next;
    let pieces = reading.pieces.as_slice();
    let start = offset_of(text, pieces, extent.statement.first);
    let end = offset_of(text, pieces, extent.end);
    found.blanked = blanked(alloc, found.blanked.as_str(), start, end)?;
    found.next = extent.next;
    push_new(&mut found, report, place)?;
    Ok(found)
}

/// Returns whether `found` has the maximum number of errors for a text of `len` bytes.
fn is_full(found: &Found, len: usize) -> bool
    ensures { result ≡ nat_le (spec.most len) (length found.now.places.items) }
{
    most(len) <= found.places.len()
}

/// Returns `found` with the faults from `found.next` on. After each fault, reading goes on at the next statement. Stops
/// before an error for which `is_clash` is true, and at the maximum number of errors.
fn with_faults(
    alloc: Global,
    text: &str,
    reading: &Reading,
    mut found: Found,
) -> Result<Found, AllocError>
    requires reading { IsRead (source_of text.now reading.now) }
    requires found { Reads (source_of text.now reading.now) (progress found) }
    ensures { IfOk result (λ more. Finds (source_of text.now reading.now) (progress more)) }
{
    'faults: while !is_full(&found, text.len()) {
        let from = found.next;
        let at = offset_of(text, reading.pieces.as_slice(), from);
        let copy = blanked(alloc, text, 0, at)?;
        let next = match next_fault(alloc, text, reading, copy.as_str(), from)? {
            Some(next) => next,
            None => return Ok(found),
        };
        if next.is_clash {
            return Ok(found);
        }
        found = with_error(alloc, text, reading, found, next)?;
    }
    Ok(found)
}

/// Returns the reports, with one more at the end that says that there are more errors.
fn with_too_many(alloc: Global, mut reports: Vec<Report>) -> Result<Vec<Report>, AllocError>
    ensures { IfOk result (λ more. map report_content more.items
        ≡ map report_content reports.items ++ spec.too_many ∷ []) }
{
    let last = Report::error(alloc, "too-many-errors", "too many errors")?;
    reports.push(last)?;
    Ok(reports)
}

/// Returns the reports of `found`, and those of the errors that remain in `found.blanked`. If there are more errors
/// than the maximum, the last report says so.
fn with_clashes(
    alloc: Global,
    text: &str,
    reading: &Reading,
    mut found: Found,
) -> Result<Vec<Report>, AllocError>
    requires reading { IsRead (source_of text.now reading.now) }
    requires found { Finds (source_of text.now reading.now) (progress found) }
    ensures { IfOk result (λ reports. Checks text.now (map report_content reports.items)) }
{
    'clashes: while !is_full(&found, text.len()) {
        match next_error(alloc, text, reading, found.blanked.as_str(), 0)? {
            Some(next) => found = with_error(alloc, text, reading, found, next)?,
            None => return Ok(found.reports),
        }
    }
    match next_error(alloc, text, reading, found.blanked.as_str(), 0)? {
        Some(_) => with_too_many(alloc, found.reports),
        None => Ok(found.reports),
    }
}

/// Returns the reports that `check` returns for a text. `error` is the error that `parse` returns for the text.
pub(crate) fn errors_from(
    alloc: Global,
    text: &str,
    error: &Error<'_>,
) -> Result<Vec<Report>, AllocError>
    requires { IsRefusal text.now depth_limit (Fault error.now) }
    ensures { IfOk result (λ reports. Checks text.now (map report_content reports.items)) }
{
    let reading = read(alloc, text)?;
    let nothing = Found {
        blanked: String::from_str(alloc, text)?,
        next: 0,
        places: Vec::new(alloc),
        reports: Vec::new(alloc),
    };
    let first = error_at(alloc, text, &reading, text, 0, error)?;
    let found = with_error(alloc, text, &reading, nothing, first)?;
    let found = with_faults(alloc, text, &reading, found)?;
    with_clashes(alloc, text, &reading, found)
}

/// Parses a text as `parse` does. Fails with the reports of all errors of the text, as `check` returns them, or with
/// `Stop::Memory` if an allocation fails.
pub fn parse_with_reports<'t>(alloc: Global, text: &'t str) -> Result<Value<'t>, Stop<Vec<Report>>>
    ensures tree { IfOk result (IsTree text.now depth_limit) }
    ensures reports { IfErr result (λ stop. IfOk (fault_of stop) (λ reports. spec.HasErrors text.now
        (map report_content reports.items))) }
{
    match parse(alloc, text) {
        Ok(root) => Ok(root),
        Err(Stop::Memory(error)) => Err(Stop::Memory(error)),
        Err(Stop::Fault(error)) => match errors_from(alloc, text, &error) {
            Ok(reports) => Err(Stop::Fault(reports)),
            Err(error) => Err(Stop::Memory(error)),
        },
    }
}

/// Returns the reports of the errors of a text, not only of the first. The list is empty if and only if `parse` returns
/// a tree. Otherwise the first report is about the error that `parse` returns.
///
/// After a statement that can't be read, reading continues at the next statement. If the unreadable statement is not
/// closed, reading continues at the first header, or key and `=`, that is on a later line and not indented further.
/// Only the first side of a merge conflict is read. Then the statements with errors are replaced with spaces, and the
/// rest is parsed as a whole. If two keys or headers clash, the later one is reported. Its statement is then replaced
/// with spaces as well, a header together with its section. This is repeated until the rest is valid.
///
/// The replacements of a report are marked as safe if and only if `with_fixes` at `FixLevel::Safe` fixes the statement
/// that contains the error.
///
/// No offset is reported twice. At most 100 errors are looked for. In a text of more than 1.28 MiB, the number is
/// lower: 128 MiB divided by the length of the text, but at least one. If there are more errors, the last report has
/// the code `too-many-errors`. Fails if an allocation fails.
pub fn check(alloc: Global, text: &str) -> Result<Vec<Report>, AllocError>
    ensures { IfOk result (λ reports. Checks text.now (map report_content reports.items)) }
{
    match parse_with_reports(alloc, text) {
        Ok(_) => Ok(Vec::new(alloc)),
        Err(Stop::Memory(error)) => Err(error),
        Err(Stop::Fault(reports)) => Ok(reports),
    }
}
