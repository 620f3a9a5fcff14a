//! Finds the statements that an error concerns, in a text that may have errors. The pieces and statements are those of
//! `toml_span_syntax`.
ghost use Rattle.std.specs.Prelude.{◌≡◌, IfOk, find, option_map};
ghost use Rattle.toml_span_check.specs.Statements as spec;

use crate::bytes::bytes_in;
use crate::drafts::read;
use std::alloc::{AllocError, Global};
use toml_span_lex::span::Span;
use toml_span_syntax::brackets::depth_after;
use toml_span_syntax::heads::{StatementKind, kind_at};
use toml_span_syntax::pieces::{Kind, Piece};
use toml_span_syntax::statements::Statement;

// ---- a statement

/// Returns the offset of the piece at the position `index`, or the length of the text after the last piece.
pub(crate) fn offset_of(text: &str, pieces: &[Piece], index: usize) -> usize
    ensures { result ≡ spec.offset_of text.now pieces.now index }
{
    match pieces.get(index) {
        Some(piece) => piece.start,
        None => text.len(),
    }
}

/// Returns the pieces of a statement.
pub(crate) fn own_pieces(pieces: &[Piece], statement: Statement) -> &[Piece]
    ensures { result.now ≡ spec.own_pieces pieces.now statement }
{
    let end = statement.end.min(pieces.len());
    if statement.first < end {
        &pieces[statement.first..end]
    } else {
        &[]
    }
}

/// Returns the bytes of a statement.
pub(crate) fn own_bytes<'a>(text: &'a str, pieces: &[Piece], statement: Statement) -> &'a [u8]
    ensures { result.now ≡ spec.own_bytes text.now pieces.now statement }
{
    let start = offset_of(text, pieces, statement.first);
    let end = offset_of(text, pieces, statement.end);
    bytes_in(text.as_bytes(), start, end)
}

/// Returns the number of bytes of the blanks at the start of a statement.
fn margin(pieces: &[Piece], statement: Statement) -> usize
    ensures { result ≡ spec.margin pieces.now statement }
{
    match own_pieces(pieces, statement) {
        [
            Piece {
                kind: Kind::Blank,
                start,
                end,
            },
            ..
        ] => end.saturating_sub(*start),
        _ => 0,
    }
}

/// Returns whether a statement begins with `[`, after blanks: whether it is a header, perhaps one that can't be read.
pub(crate) fn begins_section(pieces: &[Piece], statement: Statement) -> bool
    ensures { result ≡ spec.begins_section pieces.now statement }
{
    match own_pieces(pieces, statement) {
        [first, second, ..] if matches!(first.kind, Kind::Blank | Kind::ByteOrderMark) => matches!(
            second.kind,
            Kind::Mark(b'[')
        ),
        [first, ..] => matches!(first.kind, Kind::Mark(b'[')),
        [] => false,
    }
}

/// Returns whether a bracket or a multi-line string is open at the end of a statement.
fn is_open(pieces: &[Piece], statement: Statement) -> bool
    ensures { result ≡ spec.is_open pieces.now statement }
{
    let mut depth = 0;
    for piece in own_pieces(pieces, statement) {
        depth = depth_after(depth, piece.kind);
    }
    depth > 0
}

/// Returns whether a statement begins with this marker of a merge conflict.
fn is_marker(text: &str, pieces: &[Piece], marker: &str, statement: Statement) -> bool
    ensures { result ≡ spec.is_marker text.now pieces.now marker.now statement }
{
    own_bytes(text, pieces, statement).starts_with(marker.as_bytes())
}

/// Returns whether the line after a statement is unreadable and indented further.
pub(crate) fn is_continued(pieces: &[Piece], statement: Statement) -> bool
    ensures { result ≡ spec.is_continued pieces.now statement }
{
    let rest = Statement {
        kind: StatementKind::Blank,
        first: statement.end,
        end: pieces.len(),
    };
    statement.end <= pieces.len()
        && matches!(kind_at(pieces, statement.end), StatementKind::Unreadable)
        && margin(pieces, statement) < margin(pieces, rest)
}

// ---- the statements of an error

/// The statements that an error concerns.
#[derive(Clone, Copy)]
pub(crate) struct Extent {
    /// The statement with the error.
    pub(crate) statement: Statement,
    /// The position of the first piece of the statement at which reading goes on.
    pub(crate) next: usize,
    /// The position after the last piece of the statements that spaces replace: the end of a header's section, or `next`
    /// for another statement.
    pub(crate) end: usize,
}

/// Returns whether an error at the offset `place` is an error of this statement, if it is none of those before: the
/// statement ends after the offset, or is the last one. Or, unless two keys or headers clash, a bracket is open at its
/// end, so that what follows was read as a part of it.
fn has_error(
    text: &str,
    pieces: &[Piece],
    place: usize,
    is_clash: bool,
    statement: Statement,
) -> bool
    ensures { result ≡ spec.has_error text.now pieces.now place is_clash statement }
{
    place < offset_of(text, pieces, statement.end)
        || pieces.len() <= statement.end
        || (!is_clash && is_open(pieces, statement))
}

/// Returns the first statement from the piece at `from` on for which `has_error` is true.
fn found_faulty(
    text: &str,
    pieces: &[Piece],
    statements: &[Statement],
    from: usize,
    place: usize,
    is_clash: bool,
) -> Option<Statement>
    ensures { result ≡ spec.found_faulty text.now pieces.now statements.now from place is_clash }
{
    statements.iter().copied().find(|s| from <= s.first
        && has_error(text, pieces, place, is_clash, *s))
}

/// Returns the statement with the error at the offset `place`. Reading began at the piece at `from`.
pub(crate) fn faulty(
    text: &str,
    pieces: &[Piece],
    statements: &[Statement],
    from: usize,
    place: usize,
    is_clash: bool,
) -> Statement
    ensures { result ≡ spec.faulty text.now pieces.now statements.now from place is_clash }
{
    match found_faulty(text, pieces, statements, from, place, is_clash) {
        Some(statement) => statement,
        None => Statement {
            kind: StatementKind::Blank,
            first: from,
            end: pieces.len(),
        },
    }
}

/// Returns the position of a statement's first piece, or the number of pieces.
fn first_of(pieces: &[Piece], statement: Option<Statement>) -> usize
    ensures { result ≡ spec.first_of pieces.now statement }
{
    match statement {
        Some(statement) => statement.first,
        None => pieces.len(),
    }
}

/// Returns the marker at the end of the side of a merge conflict that a statement opens: of the common ancestor, from
/// `|||||||` to `=======`, or of the second side, from `=======` to `>>>>>>>`.
fn closing_marker(text: &str, pieces: &[Piece], statement: Statement) -> Option<&'static str>
    ensures { option_map (λ marker. marker.now) result ≡ spec.closing_marker text.now pieces.now statement }
{
    if is_marker(text, pieces, "|||||||", statement) {
        Some("=======")
    } else if is_marker(text, pieces, "=======", statement) {
        Some(">>>>>>>")
    } else {
        None
    }
}

/// Returns the first statement from the piece at `from` on that begins with this marker, or begins a merge conflict.
fn found_marker(
    text: &str,
    pieces: &[Piece],
    statements: &[Statement],
    from: usize,
    marker: &str,
) -> Option<Statement>
    ensures { result ≡ spec.found_marker text.now pieces.now statements.now from marker.now }
{
    statements.iter().copied().find(|s| {
        from <= s.first
            && (is_marker(text, pieces, marker, *s) || is_marker(text, pieces, "<<<<<<<", *s))
    })
}

/// Returns the position of the marker at the end of the side of a merge conflict that a statement opens. Returns `None`
/// for any other statement, or if there is no such marker before the next conflict.
fn side_end(
    text: &str,
    pieces: &[Piece],
    statements: &[Statement],
    statement: Statement,
) -> Option<usize>
    ensures { result ≡ spec.side_end text.now pieces.now statements.now statement }
{
    let marker = closing_marker(text, pieces, statement)?;
    let stop = found_marker(text, pieces, statements, statement.end, marker)?;
    if is_marker(text, pieces, marker, stop) {
        Some(stop.first)
    } else {
        None
    }
}

/// Returns whether the statement `next` goes on the statement with an error before it: it is unreadable, and indented
/// further.
fn continues(pieces: &[Piece], statement: Statement, next: Statement) -> bool
    ensures { result ≡ spec.continues pieces.now statement next }
{
    matches!(next.kind, StatementKind::Unreadable)
        && margin(pieces, statement) < margin(pieces, next)
}

/// Returns the first statement after this one, which has an error, that does not continue it.
fn found_next(pieces: &[Piece], statements: &[Statement], statement: Statement) -> Option<Statement>
    ensures { result ≡ spec.found_next pieces.now statements.now statement }
{
    statements.iter().copied().find(|s| statement.end <= s.first
        && !continues(pieces, statement, *s))
}

/// Returns a statement, which has an error, and the statements after it that continue it, as one. `statements` has those
/// after it, perhaps also earlier ones.
pub(crate) fn with_continued(
    pieces: &[Piece],
    statements: &[Statement],
    statement: Statement,
) -> Statement
    ensures { result ≡ spec.with_continued pieces.now statements.now statement }
{
    Statement {
        kind: statement.kind,
        first: statement.first,
        end: first_of(pieces, found_next(pieces, statements, statement)),
    }
}

/// Returns the position at which reading goes on after a statement with an error.
fn next_of(text: &str, pieces: &[Piece], statements: &[Statement], statement: Statement) -> usize
    ensures { result ≡ spec.next_of text.now pieces.now statements.now statement }
{
    match side_end(text, pieces, statements, statement) {
        Some(end) => end,
        None => first_of(pieces, found_next(pieces, statements, statement)),
    }
}

/// Returns the first statement from the piece at `from` on that begins a section.
fn found_section(pieces: &[Piece], statements: &[Statement], from: usize) -> Option<Statement>
    ensures { result ≡ spec.found_section pieces.now statements.now from }
{
    statements
        .iter()
        .copied()
        .find(|s| from <= s.first && begins_section(pieces, *s))
}

/// Returns the position of the first statement from `from` on that begins a section, or the number of pieces.
fn section_end(pieces: &[Piece], statements: &[Statement], from: usize) -> usize
    ensures { result ≡ spec.section_end pieces.now statements.now from }
{
    first_of(pieces, found_section(pieces, statements, from))
}

/// Returns the statements that an error at the offset `place` concerns. Reading began at the piece at `from`. `is_clash`
/// says whether two keys or headers clash.
pub(crate) fn extent_of(
    text: &str,
    pieces: &[Piece],
    statements: &[Statement],
    from: usize,
    place: usize,
    is_clash: bool,
) -> Extent
    ensures { result ≡ spec.extent_of text.now pieces.now statements.now from place is_clash }
{
    let statement = faulty(text, pieces, statements, from, place, is_clash);
    let next = next_of(text, pieces, statements, statement);
    let end = if begins_section(pieces, statement) {
        section_end(pieces, statements, next)
    } else {
        next
    };
    Extent {
        statement,
        next,
        end,
    }
}

// ---- the lines of an assignment

/// Returns the first `=` of a statement.
fn found_equals(pieces: &[Piece], statement: Statement) -> Option<Piece>
    ensures { result ≡ spec.found_equals pieces.now statement }
{
    own_pieces(pieces, statement)
        .iter()
        .copied()
        .find(|piece| matches!(piece.kind, Kind::Mark(b'=')))
}

/// Returns the offset after the first `=` of a statement, or 0 if it has none.
fn equals_end(pieces: &[Piece], statement: Statement) -> usize
    ensures { result ≡ spec.equals_end pieces.now statement }
{
    match found_equals(pieces, statement) {
        Some(piece) => piece.end,
        None => 0,
    }
}

/// Returns whether a statement is an assignment whose key or `=`, or the blanks before them, are at the offset `at`.
fn has_key_at(text: &str, pieces: &[Piece], at: usize, statement: Statement) -> bool
    ensures { result ≡ spec.has_key_at text.now pieces.now at statement }
{
    matches!(statement.kind, StatementKind::Assignment)
        && offset_of(text, pieces, statement.first) <= at
        && at < equals_end(pieces, statement)
}

/// Returns the assignment whose key or `=` is at the offset `at`.
fn assignment_at(
    text: &str,
    pieces: &[Piece],
    statements: &[Statement],
    at: usize,
) -> Option<Statement>
    ensures { result ≡ find (spec.has_key_at text.now pieces.now at) statements.now }
{
    statements
        .iter()
        .copied()
        .find(|s| has_key_at(text, pieces, at, *s))
}

/// Returns the lines of the assignment whose key or `=` is at the offset `at`: from the start of its first line to the
/// start of the line after its value. The offset may also be in the blanks before the key or the `=`. Returns `None`
/// for any other offset. Takes time linear in the length of the text. Fails if an allocation fails.
pub fn assignment_lines(alloc: Global, text: &str, at: usize) -> Result<Option<Span>, AllocError>
    ensures { IfOk result (spec.AreLines text.now at) }
{
    let reading = read(alloc, text)?;
    let pieces = reading.pieces.as_slice();
    match assignment_at(text, pieces, reading.statements.as_slice(), at) {
        Some(statement) => Ok(Some(Span {
            start: offset_of(text, pieces, statement.first),
            end: offset_of(text, pieces, statement.end),
        })),
        None => Ok(None),
    }
}
