//! A new text in the making, and the pieces and statements that it must have.
ghost use Rattle.std.specs.Prelude.{◌≡◌, ◌++◌, IfOk, OnOk};
ghost use Rattle.std.specs.Str.{bytes_eq};
ghost use Rattle.toml_span_check.specs.Drafts as spec;

use std::alloc::{AllocError, Global};
use toml_span_syntax::heads::StatementKind;
use toml_span_syntax::pieces::{Kind, Piece, pieces};
use toml_span_syntax::statements::{Statement, statements};

/// The pieces of a text, and its statements.
#[derive(Drop)]
pub struct Reading {
    pub pieces: Vec<Piece>,
    pub statements: Vec<Statement>,
}

/// Reads a text. Takes time linear in its length. Fails if an allocation fails.
pub fn read(alloc: Global, text: &str) -> Result<Reading, AllocError>
    ensures { IfOk result (λ reading. spec.IsReading text.now reading.pieces.items reading.statements.items) }
{
    let pieces = pieces(alloc, text)?;
    let statements = statements(alloc, pieces.as_slice())?;
    Ok(Reading { pieces, statements })
}

/// A new text, and the pieces and statements that it must have.
#[derive(Drop)]
pub struct Draft {
    pub text: Vec<u8>,
    /// The kind (`kind_code`) and the number of bytes of each piece.
    pub pieces: Vec<usize>,
    /// The kind (`statement_code`) and the number of pieces of each statement.
    pub statements: Vec<usize>,
}

/// Returns a draft of the empty text.
pub fn empty(alloc: Global) -> Draft
    ensures { spec.draft result ≡ spec.empty }
{
    Draft {
        text: Vec::new(alloc),
        pieces: Vec::new(alloc),
        statements: Vec::new(alloc),
    }
}

/// Returns the number that stands for a kind of pieces.
fn kind_code(kind: Kind) -> usize
    ensures { result ≡ spec.kind_code kind }
{
    match kind {
        Kind::Blank => 0,
        Kind::LineEnd => 1,
        Kind::Comment => 2,
        Kind::Bare => 3,
        Kind::String(false) => 4,
        Kind::String(true) => 5,
        Kind::Faulty(false) => 6,
        Kind::Faulty(true) => 7,
        Kind::Open(false) => 8,
        Kind::Open(true) => 9,
        Kind::Invalid => 10,
        Kind::ByteOrderMark => 11,
        Kind::Mark(c) => 12 + c as usize,
    }
}

/// Returns the number that stands for a kind of statements.
fn statement_code(kind: StatementKind) -> usize
    ensures { result ≡ spec.statement_code kind }
{
    match kind {
        StatementKind::Blank => 0,
        StatementKind::Header => 1,
        StatementKind::Assignment => 2,
        StatementKind::Unreadable => 3,
    }
}

/// Appends the kind and the number of bytes of each piece.
fn push_pieces(out: &mut Vec<usize>, pieces: &[Piece]) -> Result<(), AllocError>
    ensures { OnOk result (out.new.items ≡ out.old.items ++ spec.piece_sizes pieces.now) }
{
    for piece in pieces {
        out.push(kind_code(piece.kind))?;
        out.push(piece.end.saturating_sub(piece.start))?;
    }
    Ok(())
}

/// Appends the kind and the number of pieces of each statement.
fn push_statements(out: &mut Vec<usize>, statements: &[Statement]) -> Result<(), AllocError>
    ensures { OnOk result (out.new.items ≡ out.old.items ++ spec.statement_sizes statements.now) }
{
    for statement in statements {
        out.push(statement_code(statement.kind))?;
        out.push(statement.end.saturating_sub(statement.first))?;
    }
    Ok(())
}

/// Appends a part of the new text, with its pieces and statements. If an allocation fails, the draft may have only some
/// of them.
pub fn push(
    draft: &mut Draft,
    text: &[u8],
    pieces: &[Piece],
    statements: &[Statement],
) -> Result<(), AllocError>
    ensures { OnOk result (spec.draft draft.new ≡ spec.add (spec.draft draft.old) text.now pieces.now statements.now) }
{
    draft.text.extend_from_slice(text)?;
    push_pieces(&mut draft.pieces, pieces)?;
    push_statements(&mut draft.statements, statements)
}

/// Returns whether the two slices have the same numbers.
fn is_same(sizes: &[usize], others: &[usize]) -> bool
    ensures { result ≡ bytes_eq sizes.now others.now }
{
    sizes == others
}

/// Returns whether a text has the pieces and statements of a draft. Takes time linear in its length. Fails if an
/// allocation fails.
pub fn is_right(alloc: Global, text: &str, draft: &Draft) -> Result<bool, AllocError>
    ensures { IfOk result (λ right. spec.HasSizes text.now (spec.draft draft.now) right) }
{
    let reading = read(alloc, text)?;
    let mut pieces = Vec::new(alloc);
    push_pieces(&mut pieces, reading.pieces.as_slice())?;
    let mut statements = Vec::new(alloc);
    push_statements(&mut statements, reading.statements.as_slice())?;
    Ok(
        is_same(pieces.as_slice(), draft.pieces.as_slice())
            && is_same(statements.as_slice(), draft.statements.as_slice()),
    )
}
