//! Finds the tokens of a text with their meanings, for syntax highlighting. The text need not be valid.
use crate::syntax::Syntax;
use crate::walk::{Next, Walk, is_name, literal_end};
use std::alloc::{AllocError, Global};
use toml_span_lex::span::Span;
use toml_span_syntax::pieces::{Kind, Piece};
use toml_span_syntax::statements::Statement;

/// The meaning of a token.
#[derive(Clone, Copy)]
pub enum Meaning {
    Comment,
    /// A part of a header.
    Table,
    /// A part of the key of an assignment.
    Key,
    String,
    /// An integer, a float, a date or a time.
    Number,
    Boolean,
}

/// A token. Its span does not include a line end.
#[derive(Clone, Copy)]
pub struct Token {
    pub span: Span,
    pub meaning: Meaning,
}

/// Returns the meaning of a value that is not a string: that of a number if it begins with a digit or a sign. Returns
/// `None` for a word that is not a value.
fn literal_meaning(text: &str) -> Option<Meaning> {
    match text {
        "true" | "false" => Some(Meaning::Boolean),
        "inf" | "nan" => Some(Meaning::Number),
        _ => match text.as_bytes().first() {
            Some(b'0'..=b'9' | b'+' | b'-') => Some(Meaning::Number),
            _ => None,
        },
    }
}

/// Returns the token that begins with the piece at the position `at`: a comment, a key, a string, or a number or word,
/// which may go on with further pieces. `next` is what is expected at the piece. Returns `None` if the piece has no
/// meaning there.
fn token_at(text: &str, pieces: &[Piece], at: usize, next: Next) -> Option<Token> {
    let Piece { kind, start, end } = *pieces.get(at)?;
    let is_word = is_name(kind);
    let meaning = match next {
        _ if kind == Kind::Comment => Meaning::Comment,
        Next::Key if is_word => Meaning::Key,
        Next::Header if is_word => Meaning::Table,
        Next::Value | Next::AfterValue if matches!(kind, Kind::Bare | Kind::Mark(b'+')) => {
            let end = literal_end(pieces, at);
            let meaning = literal_meaning(text.get(start..end)?)?;
            let span = Span { start, end };
            return Some(Token { span, meaning });
        }
        Next::Value if is_word || kind == Kind::Open(true) => Meaning::String,
        _ => return None,
    };
    let span = Span { start, end };
    Some(Token { span, meaning })
}

/// Appends a token for each line of a token, except for empty lines.
fn push_lines(text: &str, token: Token, tokens: &mut Vec<Token>) -> Result<(), AllocError> {
    let Token { span, meaning } = token;
    if span.start >= span.end {
        return Ok(());
    }
    let part = text.get(span.start..span.end).unwrap_or("");
    if !part.contains(['\n', '\r']) && !part.is_empty() {
        // (most tokens)
        tokens.push(token)?;
        return Ok(());
    }
    let mut start = span.start;
    for line in part.split('\n') {
        let length = line.strip_suffix('\r').unwrap_or(line).len();
        let end = start.saturating_add(length);
        if start < end {
            let span = Span { start, end };
            tokens.push(Token { span, meaning })?;
        }
        start = start.saturating_add(line.len()).saturating_add(1);
    }
    Ok(())
}

/// Appends the tokens of a statement.
fn push_statement(
    alloc: Global,
    text: &str,
    pieces: &[Piece],
    statement: Statement,
    tokens: &mut Vec<Token>,
) -> Result<(), AllocError> {
    let mut walk = Walk::new(alloc);
    let mut end = 0;
    for at in statement.first..statement.end.min(pieces.len()) {
        let piece = pieces[at];
        let found = if piece.start < end {
            None
        } else {
            token_at(text, pieces, at, walk.next)
        };
        if let Some(token) = found {
            push_lines(text, token, tokens)?;
            end = token.span.end;
        }
        walk.take(at, piece.kind)?;
    }
    Ok(())
}

/// Returns the tokens of a text in order: keys, values other than tables and arrays, and comments. A string of several
/// lines has a token for each line, except for empty lines. Takes time linear in the length of the text. Fails if an
/// allocation fails.
pub fn tokens(alloc: Global, syntax: &Syntax<'_>) -> Result<Vec<Token>, AllocError> {
    let pieces = syntax.pieces.as_slice();
    let mut tokens = Vec::new(alloc);
    for statement in &syntax.statements {
        push_statement(alloc, syntax.text, pieces, *statement, &mut tokens)?;
    }
    Ok(tokens)
}
