//! Fixes errors with the replacements of their reports.
ghost use Rattle.std.specs.Prelude.{◌≡◌, ◌++◌, IfOk, OnOk, false, length, map, option_map, position};
ghost use Rattle.std.specs.Prelude.{string_bytes};
ghost use Rattle.std.specs.Str.{bytes_eq};
ghost use Rattle.toml_span_tree.specs.Error.{content_of};
ghost use Rattle.toml_span_places.specs.Replace.{edit_of};
ghost use Rattle.toml_span_report.specs.Report.{repair_of};
ghost use Rattle.toml_span_check.specs.Drafts as drafts;
ghost use Rattle.toml_span_syntax.specs.Statements.{is_open_long};
ghost use Rattle.toml_span_check.specs.Fixing as spec;
ghost use Rattle.toml_span_check.specs.Safety as safety;
ghost use Rattle.toml_span_check.specs.Statements.{own_bytes};

use crate::bytes::byte_at;
use crate::comments::comments;
use crate::drafts::{Draft, Reading, empty, is_right, push, read};
use crate::quotes::quotes_value;
use crate::statements::{begins_section, is_continued, own_bytes, own_pieces, with_continued};
use std::alloc::{AllocError, Global};
use toml_span::de::parse;
use toml_span::{Error, Stop};
use toml_span_mistakes::error_report;
use toml_span_places::{Replacement, replace_all};
use toml_span_report::{Replacement as Repair, Report};
use toml_span_syntax::heads::{StatementKind, kind_at};
use toml_span_syntax::pieces::{Kind, Piece};
use toml_span_syntax::statements::Statement;

/// The maximum number of errors to fix in a statement.
const MOST: usize = 100;

/// Which replacements fix errors.
#[derive(Clone, Copy, PartialEq, Eq, Debug)]
pub enum FixLevel {
    /// Replacements that a program may make without asking.
    Safe,
    /// Also those that a person should review.
    Unsafe,
}

/// How errors are fixed.
#[derive(Clone, Copy)]
struct Way {
    level: FixLevel,
    /// Whether lines end with CRLF.
    is_crlf: bool,
    /// The position of the first piece that is a multi-line string without an end, or the number of pieces. Statements
    /// after it are not fixed, since they may be parts of the string.
    limit: usize,
}

/// A source in which errors have been fixed or newer syntax has been replaced, with the number of changes.
#[derive(Drop)]
pub struct Fixed {
    pub text: String,
    /// The number of errors fixed or, from `with_older_forms`, the number of replacements.
    pub count: usize,
}

/// Appends the replacements of a report, converted for `replace_all`, to `edits`.
pub(crate) fn push_edits<'r>(
    repairs: &'r [Repair],
    edits: &mut Vec<Replacement<'r>>,
) -> Result<(), AllocError>
    ensures { OnOk result (map edit_of edits.new.items ≡ map edit_of edits.old.items
        ++ spec.edits (map repair_of repairs.now)) }
{
    for repair in repairs {
        edits.push(Replacement {
            span: repair.span,
            text: repair.text.as_str(),
        })?;
    }
    Ok(())
}

// ---- the replacements of a statement

/// Returns whether all the replacements are safe in kind.
pub(crate) fn all_safe(repairs: &[Repair]) -> bool
    ensures { result ≡ safety.all_safe (map repair_of repairs.now) }
{
    for repair in repairs {
        if !repair.is_safe {
            return false;
        }
    }
    true
}

/// Returns whether the quotes that each replacement adds to a statement enclose a whole value.
fn quote_values(statement: &str, edits: &[Replacement<'_>]) -> bool
    ensures { result ≡ safety.quote_values statement.now (map edit_of edits.now) }
{
    for edit in edits {
        if !quotes_value(statement, edit.span, edit.text) {
            return false;
        }
    }
    true
}

/// Returns whether the replacements may be made in a statement. `edits` are these replacements, converted for
/// `replace_all`.
fn may_be_made(
    statement: &str,
    repairs: &[Repair],
    edits: &[Replacement<'_>],
    level: FixLevel,
) -> bool
    ensures { result ≡ safety.may_be_made statement.now (map repair_of repairs.now) (map edit_of edits.now) level }
{
    match level {
        FixLevel::Safe => all_safe(repairs) && quote_values(statement, edits),
        FixLevel::Unsafe => true,
    }
}

/// Returns the text, or CRLF if it is a line feed and lines end with CRLF.
fn line_ended(text: &str, is_crlf: bool) -> &str
    ensures { result.now ≡ safety.line_ended text.now is_crlf }
{
    if is_crlf && text == "\n" {
        "\r\n"
    } else {
        text
    }
}

/// Converts the replacements of a report to those that `replace_all` takes, with line ends as lines end.
fn edits_of<'r>(
    alloc: Global,
    repairs: &'r [Repair],
    is_crlf: bool,
) -> Result<Vec<Replacement<'r>>, AllocError>
    ensures { IfOk result (λ edits. map edit_of edits.items ≡ safety.edits is_crlf (map repair_of repairs.now)) }
{
    let mut edits = Vec::new(alloc);
    for repair in repairs {
        edits.push(Replacement {
            span: repair.span,
            text: line_ended(repair.text.as_str(), is_crlf),
        })?;
    }
    Ok(edits)
}

/// Returns the statement with these replacements made. Returns `None` if there are no replacements, if they may not be
/// made, or if they do not fit the statement.
fn repaired(
    alloc: Global,
    statement: &str,
    repairs: &[Repair],
    way: Way,
) -> Result<Option<String>, AllocError>
    ensures { IfOk result (λ new. option_map string_bytes new
        ≡ safety.repaired statement.now (map repair_of repairs.now) way) }
{
    let edits = edits_of(alloc, repairs, way.is_crlf)?;
    if repairs.is_empty() {
        return Ok(None);
    }
    if !may_be_made(statement, repairs, edits.as_slice(), way.level) {
        return Ok(None);
    }
    match replace_all(alloc, statement, edits.as_slice()) {
        Ok(new) => Ok(Some(new)),
        Err(Stop::Fault(_)) => Ok(None),
        Err(Stop::Memory(error)) => Err(error),
    }
}

// ---- the errors of a statement

/// Returns the statement with the replacements of this error's report made, as `repaired` does.
fn with_error_fixed(
    alloc: Global,
    statement: &str,
    error: &Error<'_>,
    way: Way,
) -> Result<Option<String>, AllocError>
    ensures { IfOk result (λ new. spec.FixesError statement.now (content_of error.now) way
        (option_map string_bytes new)) }
{
    let report = error_report(alloc, error, statement)?;
    let new = repaired(alloc, statement, report.replacements.as_slice(), way)?;
    Ok(new)
}

/// What comes of the first error of a statement.
#[derive(Drop)]
enum Step {
    /// There is no error.
    Valid,
    /// It can't be fixed.
    Stuck,
    /// The statement with the error fixed.
    Fixed(String),
}

/// Fixes the first error of a statement.
fn next_fix(alloc: Global, statement: &str, way: Way) -> Result<Step, AllocError>
    ensures { IfOk result (λ step. spec.NextFix statement.now way step) }
{
    match parse(alloc, statement) {
        Ok(_) => Ok(Step::Valid),
        Err(stop) => {
            let error = stop.fault()?;
            let new = with_error_fixed(alloc, statement, &error, way)?;
            match new {
                Some(new) => Ok(Step::Fixed(new)),
                None => Ok(Step::Stuck),
            }
        }
    }
}

/// Returns the statement with all its errors fixed, and their number. Returns `None` if one of them can't be fixed, or
/// if there are more than `MOST`.
fn mended(alloc: Global, statement: &str, way: Way) -> Result<Option<Fixed>, AllocError>
    ensures { IfOk result (λ made. spec.Mends statement.now way (option_map spec.fixed made)) }
{
    let mut text = String::from_str(alloc, statement)?;
    for count in 0..MOST {
        match next_fix(alloc, text.as_str(), way)? {
            Step::Valid => return Ok(Some(Fixed { text, count })),
            Step::Stuck => return Ok(None),
            Step::Fixed(new) => text = new,
        }
    }
    Ok(None)
}

// ---- the statements of a text

/// Returns whether the first line end among the pieces is CRLF.
#[tactic(auto, unfolding(crate::specs::Safety::uses_crlf))]
fn uses_crlf(pieces: &[Piece]) -> bool
    ensures { result ≡ safety.uses_crlf pieces.now }
{
    for piece in pieces {
        if matches!(piece.kind, Kind::LineEnd) {
            return piece.end.saturating_sub(piece.start) == 2;
        }
    }
    false
}

/// Returns the position of the first piece that is a multi-line string without an end.
fn open_position(pieces: &[Piece]) -> Option<usize>
    ensures { result ≡ position (λ piece. is_open_long piece.kind) pieces.now }
{
    pieces
        .iter()
        .position(|piece| matches!(piece.kind, Kind::Open(true)))
}

/// Returns the position of the first piece that is a multi-line string without an end, or the number of pieces.
fn first_open(pieces: &[Piece]) -> usize
    ensures { result ≡ safety.first_open pieces.now }
{
    open_position(pieces).unwrap_or(pieces.len())
}

/// Returns how errors of a text with these pieces are fixed at this level.
fn way_of(pieces: &[Piece], level: FixLevel) -> Way
    ensures { result ≡ spec.way_of pieces.now level }
{
    Way {
        level,
        is_crlf: uses_crlf(pieces),
        limit: first_open(pieces),
    }
}

/// Returns whether an item of a YAML list begins at the piece at `index`, perhaps after a blank.
fn is_item(text: &str, pieces: &[Piece], index: usize) -> bool
    ensures { result ≡ safety.is_item text.now pieces.now index }
{
    let next = match pieces.get(index) {
        Some(piece) if matches!(piece.kind, Kind::Blank) => piece.end,
        Some(piece) => piece.start,
        None => text.len(),
    };
    byte_at(text.as_bytes(), next) == b'-'
        && byte_at(text.as_bytes(), next.saturating_add(1)) == b' '
}

/// Returns whether a comma is the last piece, apart from blanks, comments and line ends, after a piece of this kind.
/// `is_last` says whether one is the last before it.
fn still_last(is_last: bool, kind: Kind) -> bool
    ensures { result ≡ safety.still_last is_last kind }
{
    match kind {
        Kind::Blank | Kind::Comment | Kind::LineEnd => is_last,
        Kind::Mark(byte) => byte == b',',
        _ => false,
    }
}

/// Returns whether a comma is the last of these pieces, apart from blanks, comments and line ends.
#[tactic(auto, unfolding(crate::specs::Safety::ends_with_comma))]
fn ends_with_comma(pieces: &[Piece]) -> bool
    ensures { result ≡ safety.ends_with_comma false pieces.now }
{
    let mut is_last = false;
    for piece in pieces {
        is_last = still_last(is_last, piece.kind);
    }
    is_last
}

/// Returns whether a statement ends with a comma, and the line after it is unreadable: it may be the next of several
/// values. Returns `false` at `FixLevel::Unsafe`.
fn is_listed(pieces: &[Piece], statement: Statement, level: FixLevel) -> bool
    ensures { result ≡ safety.is_listed level pieces.now statement }
{
    match level {
        FixLevel::Safe => is_before_line(pieces, statement),
        FixLevel::Unsafe => false,
    }
}

/// Returns whether a statement ends with a comma, and the line after it is unreadable and does not begin with `[`.
fn is_before_line(pieces: &[Piece], statement: Statement) -> bool
    ensures { result ≡ safety.is_before_line pieces.now statement }
{
    let rest = Statement {
        kind: StatementKind::Blank,
        first: statement.end,
        end: pieces.len(),
    };
    statement.end <= pieces.len()
        && matches!(kind_at(pieces, statement.end), StatementKind::Unreadable)
        && !begins_section(pieces, rest)
        && ends_with_comma(own_pieces(pieces, statement))
}

/// Returns whether a statement may be fixed: it is not after `way.limit`, and what follows is neither an unreadable line
/// that is indented further or, for safe fixes, follows a comma, nor an item of a YAML list, which may belong to it.
fn may_fix(text: &str, pieces: &[Piece], statement: Statement, way: Way) -> bool
    ensures { result ≡ safety.may_fix text.now pieces.now statement way }
{
    statement.first <= way.limit
        && !is_continued(pieces, statement)
        && !is_listed(pieces, statement, way.level)
        && !is_item(text, pieces, statement.end)
}

/// Returns whether the bytes are the same.
fn is_same(bytes: &[u8], others: &[u8]) -> bool
    ensures { result ≡ bytes_eq bytes.now others.now }
{
    bytes == others
}

/// Returns whether the pieces of a text have the same comments as those of another text.
fn same_comments(
    alloc: Global,
    text: &str,
    pieces: &[Piece],
    new: &str,
    others: &[Piece],
) -> Result<bool, AllocError>
    ensures { IfOk result (λ same. same ≡ safety.same_comments text.now pieces.now new.now others.now) }
{
    let before = comments(alloc, text, pieces)?;
    let after = comments(alloc, new, others)?;
    Ok(is_same(before.as_slice(), after.as_slice()))
}

/// A statement with its errors fixed.
#[derive(Drop)]
struct Fix {
    new: Fixed,
    reading: Reading,
}

/// Returns the position of the first header among the statements.
fn header_position(statements: &[Statement]) -> Option<usize>
    ensures { result ≡ position (λ s. safety.is_header s.kind) statements.now }
{
    statements.iter().position(|statement| matches!(statement.kind, StatementKind::Header))
}

/// Returns whether a fix of a statement may write a header: the statement begins with `[`, or nothing follows it, or what
/// follows begins with `[`. Otherwise, the keys after it would get into another table.
fn may_head(pieces: &[Piece], statement: Statement) -> bool
    ensures { result ≡ safety.may_head pieces.now statement }
{
    let rest = Statement {
        kind: StatementKind::Blank,
        first: statement.end,
        end: pieces.len(),
    };
    begins_section(pieces, statement)
        || pieces.len() <= statement.end
        || begins_section(pieces, rest)
}

/// Returns whether a new text for the statement with the pieces `own` has the same comments, and no header unless
/// `heads`. `reading` is the reading of the new text.
fn keeps(
    alloc: Global,
    text: &str,
    own: &[Piece],
    heads: bool,
    new: &str,
    reading: &Reading,
) -> Result<bool, AllocError>
    ensures { IfOk result (λ does. does ≡ safety.keeps text.now own.now heads new.now reading.now.pieces.items
        reading.now.statements.items) }
{
    let has_header = header_position(reading.statements.as_slice()).is_some();
    let is_same = same_comments(alloc, text, own, new, reading.pieces.as_slice())?;
    Ok((heads || !has_header) && is_same)
}

/// Returns a new text for a statement with its reading. Returns `None` if there were no errors to fix, if the new text
/// has other comments than the statement or, unless `heads`, if it has a header.
fn checked(
    alloc: Global,
    text: &str,
    own: &[Piece],
    heads: bool,
    new: Fixed,
) -> Result<Option<Fix>, AllocError>
    ensures { IfOk result (λ fix. spec.Checks text.now own.now heads (spec.fixed new) (option_map spec.fix fix)) }
{
    if new.count == 0 {
        return Ok(None);
    }
    let reading = read(alloc, new.text.as_str())?;
    if keeps(alloc, text, own, heads, new.text.as_str(), &reading)? {
        Ok(Some(Fix { new, reading }))
    } else {
        Ok(None)
    }
}

/// Returns the statement with its errors fixed. Returns `None` if there are no errors, if they can't be fixed, or if
/// `may_fix` is false.
fn fix_of(
    alloc: Global,
    text: &str,
    pieces: &[Piece],
    statement: Statement,
    way: Way,
) -> Result<Option<Fix>, AllocError>
    ensures { IfOk result (λ fix. spec.FixOf text.now pieces.now statement way (option_map spec.fix fix)) }
{
    if !may_fix(text, pieces, statement, way) {
        return Ok(None);
    }
    let Ok(old) = str::from_utf8(own_bytes(text, pieces, statement)) else {
        return Ok(None);
    };
    match mended(alloc, old, way)? {
        Some(new) => {
            let heads = may_head(pieces, statement);
            checked(alloc, text, own_pieces(pieces, statement), heads, new)
        }
        None => Ok(None),
    }
}

/// Appends a new text for a statement to the draft.
fn push_fix(draft: &mut Draft, fix: &Fix) -> Result<(), AllocError>
    ensures { OnOk result (drafts.draft draft.new ≡ spec.mended (drafts.draft draft.old) (spec.fix fix.now)) }
{
    push(
        draft,
        fix.new.text.as_bytes(),
        fix.reading.pieces.as_slice(),
        fix.reading.statements.as_slice(),
    )
}

/// Appends a statement to the draft as it is.
fn push_kept(
    draft: &mut Draft,
    text: &str,
    pieces: &[Piece],
    statement: Statement,
) -> Result<(), AllocError>
    ensures { OnOk result (drafts.draft draft.new
        ≡ safety.kept (drafts.draft draft.old) text.now pieces.now statement) }
{
    push(
        draft,
        own_bytes(text, pieces, statement),
        own_pieces(pieces, statement),
        &[statement],
    )
}

/// Returns whether a text is valid.
fn is_document(alloc: Global, text: &str) -> Result<bool, AllocError>
    ensures { IfOk result (spec.Judges text.now) }
{
    match parse(alloc, text) {
        Ok(_) => Ok(true),
        Err(Stop::Fault(error)) => {
            drop(error);
            Ok(false)
        }
        Err(Stop::Memory(error)) => Err(error),
    }
}

/// Returns whether the text of a statement is valid by itself.
fn is_valid(
    alloc: Global,
    text: &str,
    pieces: &[Piece],
    statement: Statement,
) -> Result<bool, AllocError>
    ensures { IfOk result (spec.Judges (own_bytes text.now pieces.now statement)) }
{
    match str::from_utf8(own_bytes(text, pieces, statement)) {
        Ok(own) => is_document(alloc, own),
        Err(_) => Ok(false),
    }
}

/// Returns what is fixed together: the statement or, if it has an error, the statement and the lines that continue it,
/// as one. `rest` has the statements after this one, perhaps also earlier ones.
fn unit_of(
    alloc: Global,
    text: &str,
    pieces: &[Piece],
    rest: &[Statement],
    statement: Statement,
) -> Result<Statement, AllocError>
    ensures { IfOk result (λ unit. spec.IsUnit text.now pieces.now rest.now statement unit) }
{
    if !is_continued(pieces, statement) {
        return Ok(statement);
    }
    if is_valid(alloc, text, pieces, statement)? {
        Ok(statement)
    } else {
        Ok(with_continued(pieces, rest, statement))
    }
}

/// A new text in the making.
#[derive(Drop)]
struct Work {
    draft: Draft,
    /// The number of errors fixed.
    count: usize,
    /// The position after the last piece of the statements that were fixed together last, or could not be fixed
    /// together.
    end: usize,
    /// Whether they were fixed.
    is_fixed: bool,
}

/// Appends `unit`, which begins with this statement, with its errors fixed or, if they can't be fixed, only the
/// statement.
fn push_unit(
    alloc: Global,
    work: &mut Work,
    text: &str,
    pieces: &[Piece],
    statement: Statement,
    unit: Statement,
    way: Way,
) -> Result<(), AllocError>
    ensures { OnOk result (spec.AddsUnit text.now pieces.now statement unit way (spec.work work.old)
        (spec.work work.new)) }
{
    work.end = unit.end;
    match fix_of(alloc, text, pieces, unit, way)? {
        Some(fix) => {
            push_fix(&mut work.draft, &fix)?;
            work.count = work.count.saturating_add(fix.new.count);
            work.is_fixed = true;
        }
        None => {
            push_kept(&mut work.draft, text, pieces, statement)?;
            work.is_fixed = false;
        }
    }
    Ok(())
}

/// Appends the statement at the position `at`, unless it has been fixed together with an earlier one. It is fixed if it
/// can be, and does not continue a statement that can't be fixed.
fn push_fixed(
    alloc: Global,
    work: &mut Work,
    text: &str,
    pieces: &[Piece],
    rest: &[Statement],
    statement: Statement,
    way: Way,
) -> Result<(), AllocError>
    ensures { OnOk result (spec.AddsStatement text.now pieces.now rest.now statement way (spec.work work.old)
        (spec.work work.new)) }
{
    if work.end <= statement.first {
        let unit = unit_of(alloc, text, pieces, rest, statement)?;
        push_unit(alloc, work, text, pieces, statement, unit, way)
    } else if work.is_fixed {
        Ok(())
    } else {
        push_kept(&mut work.draft, text, pieces, statement)
    }
}

/// Returns a draft of all the statements, each with its errors fixed if they can be.
fn drafted(
    alloc: Global,
    text: &str,
    pieces: &[Piece],
    statements: &[Statement],
    way: Way,
) -> Result<Work, AllocError>
    ensures { IfOk result (λ work. spec.Drafts text.now pieces.now statements.now way (length statements.now)
        (spec.work work)) }
{
    let mut work = Work {
        draft: empty(alloc),
        count: 0,
        end: 0,
        is_fixed: false,
    };
    for at in 0..statements.len() {
        push_fixed(
            alloc,
            &mut work,
            text,
            pieces,
            &statements[at..],
            statements[at],
            way,
        )?;
    }
    Ok(work)
}

/// Returns the text of the draft if it has the pieces and statements that it must have. Returns `None` if there are no
/// fixes, or if it has others.
fn finished(alloc: Global, work: &Work) -> Result<Option<Fixed>, AllocError>
    ensures { IfOk result (λ made. spec.Finishes (spec.work work.now)
        (option_map spec.fixed made)) }
{
    let Ok(new) = str::from_utf8(work.draft.text.as_slice()) else {
        return Ok(None);
    };
    if work.count == 0 {
        return Ok(None);
    }
    if is_right(alloc, new, &work.draft)? {
        Ok(Some(Fixed {
            text: String::from_str(alloc, new)?,
            count: work.count,
        }))
    } else {
        Ok(None)
    }
}

/// Returns a text that is not valid with its errors fixed. Returns `None` if there are no fixes.
fn with_statements_fixed(
    alloc: Global,
    text: &str,
    level: FixLevel,
) -> Result<Option<Fixed>, AllocError>
    ensures { IfOk result (λ made. spec.FixesStatements text.now level (option_map spec.fixed made)) }
{
    let reading = read(alloc, text)?;
    let pieces = reading.pieces.as_slice();
    let way = way_of(pieces, level);
    let work = drafted(alloc, text, pieces, reading.statements.as_slice(), way)?;
    finished(alloc, &work)
}

/// Fixes errors of a source. Returns the new source with the number of errors fixed.
///
/// Each statement of the source (a header, an assignment, or a line that is neither) is fixed by itself, but a statement
/// with an error together with the lines that continue it: the next lines, as long as they are unreadable and indented
/// further. As long as there is an error, the replacements of the first error's report are made. Either all errors are
/// fixed, at most 100, or the statement and these lines stay as they are. The statements around it stay the same, and
/// are read as before. If the new source had other statements than these, the source is returned unchanged. Statements
/// after a multi-line string that is not closed stay as they are, since they may be parts of the string. So does a
/// statement before an item of a YAML list, one that would become a header above lines that do not begin with `[` and,
/// at `FixLevel::Safe`, one that ends with a comma before an unreadable line.
///
/// At `FixLevel::Safe`, all replacements are safe, and the quotes that they add enclose a whole value. At either level,
/// a statement keeps its comments, except that the markers `//` and `;` of comments become `#`. Takes time linear in
/// the length of the source and, for each statement with errors, in its length times their number. Fails if an
/// allocation fails.
pub fn with_fixes(alloc: Global, text: &str, level: FixLevel) -> Result<Fixed, AllocError>
    ensures { IfOk result (λ made. spec.Fixes text.now level (spec.fixed made)) }
{
    if parse(alloc, text).is_err() {
        if let Some(made) = with_statements_fixed(alloc, text, level)? {
            return Ok(made);
        }
    }
    Ok(Fixed {
        text: String::from_str(alloc, text)?,
        count: 0,
    })
}

/// Returns whether `with_fixes` at this level fixes the errors of this statement of a text, which does not continue
/// another one.
pub(crate) fn is_fixable(
    alloc: Global,
    text: &str,
    pieces: &[Piece],
    statements: &[Statement],
    statement: Statement,
    level: FixLevel,
) -> Result<bool, AllocError>
    ensures { IfOk result (λ fixes. spec.CanFix text.now pieces.now statements.now statement level fixes) }
{
    let unit = unit_of(alloc, text, pieces, statements, statement)?;
    let way = way_of(pieces, level);
    match fix_of(alloc, text, pieces, unit, way)? {
        Some(_) => Ok(true),
        None => Ok(false),
    }
}
