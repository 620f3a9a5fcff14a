//! Finds the parts of a text that an editor can fold. The text need not be valid.
use crate::spans::span_of;
use crate::syntax::Syntax;
use std::alloc::{AllocError, Global};
use toml_span_lex::span::Span;
use toml_span_syntax::brackets::closes;
use toml_span_syntax::heads::StatementKind;
use toml_span_syntax::pieces::{Kind, Piece};
use toml_span_syntax::statements::Statement;

/// A part of a document that can be folded.
#[derive(Clone, Copy)]
pub struct Fold {
    pub span: Span,
    pub is_comment: bool,
}

/// Appends a fold of a span, or nothing if the span has only one line, not counting blanks and line ends at its end.
fn push_fold(
    text: &str,
    span: Span,
    is_comment: bool,
    folds: &mut Vec<Fold>,
) -> Result<(), AllocError> {
    let part = text.get(span.start..span.end).unwrap_or("");
    if part.trim_ascii_end().contains('\n') {
        folds.push(Fold { span, is_comment })?;
    }
    Ok(())
}

/// Appends a fold for each group of several comments on consecutive lines with nothing else between them.
fn push_comments(text: &str, pieces: &[Piece], folds: &mut Vec<Fold>) -> Result<(), AllocError> {
    let mut group = Span { start: 0, end: 0 };
    for piece in pieces {
        let Piece { kind, start, end } = *piece;
        if kind != Kind::Comment {
            continue;
        }
        let between = text.get(group.end..start).unwrap_or("");
        let is_next_line = between.trim().is_empty() && between.split('\n').count() == 2;
        if is_next_line && group.start < group.end {
            group.end = end;
        } else {
            push_fold(text, group, true, folds)?;
            group = Span { start, end };
        }
    }
    push_fold(text, group, true, folds)
}

/// Appends a fold for each section that begins with a header. A section ends with its last statement that is neither
/// blank nor a comment.
fn push_sections(
    text: &str,
    pieces: &[Piece],
    statements: &[Statement],
    folds: &mut Vec<Fold>,
) -> Result<(), AllocError> {
    let mut section = Span { start: 0, end: 0 };
    for statement in statements {
        let own = span_of(text, pieces, *statement);
        match statement.kind {
            StatementKind::Blank => (),
            StatementKind::Header => {
                push_fold(text, section, false, folds)?;
                section = own;
            }
            _ => if section.start < section.end {
                section.end = own.end;
            },
        }
    }
    push_fold(text, section, false, folds)
}

/// Appends a fold for each array, inline table and multi-line string of a statement.
fn push_values(
    alloc: Global,
    text: &str,
    pieces: &[Piece],
    statement: Statement,
    folds: &mut Vec<Fold>,
) -> Result<(), AllocError> {
    let mut opened = Vec::new(alloc);
    let mut line: usize = 0;
    for piece in pieces.get(statement.first..statement.end).unwrap_or(&[]) {
        let Piece { kind, start, end } = *piece;
        let span = Span { start, end };
        match kind {
            Kind::LineEnd => line = line.saturating_add(1),
            Kind::String(true) | Kind::Faulty(true) => push_fold(text, span, false, folds)?,
            Kind::Mark(b'[' | b'{') => opened.push((start, line))?,
            _ if closes(kind) => match opened.pop() {
                Some((start, first)) if first < line => {
                    let span = Span { start, end };
                    folds.push(Fold {
                        span,
                        is_comment: false,
                    })?;
                }
                _ => (),
            },
            _ => (),
        }
    }
    Ok(())
}

/// Returns the parts of a text that can be folded: sections that begin with a header, arrays, inline tables and
/// multi-line strings, and groups of comments. Leaves out parts on one line. Takes time linear in the length of the
/// text. Fails if an allocation fails.
pub fn folds(alloc: Global, syntax: &Syntax<'_>) -> Result<Vec<Fold>, AllocError> {
    let (text, pieces) = (syntax.text, syntax.pieces.as_slice());
    let mut folds = Vec::new(alloc);
    push_sections(text, pieces, syntax.statements.as_slice(), &mut folds)?;
    for statement in &syntax.statements {
        push_values(alloc, text, pieces, *statement, &mut folds)?;
    }
    push_comments(text, pieces, &mut folds)?;
    Ok(folds)
}
