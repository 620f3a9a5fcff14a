//! The tokens and comments of a text, as they are compared.
ghost use Rattle.std.specs.Prelude.{◌≡◌, ◌↔◌, ◌++◌, ◌∷◌, [], IfOk, OnOk, IsTrue, map};
ghost use Rattle.std.specs.List.{filter};
ghost use Rattle.toml_span_syntax.specs.Pieces.{IsSpan};
ghost use Rattle.toml_span_format.specs.Tokens as spec;

use std::alloc::{AllocError, Global};
use toml_span_syntax::pieces::{Kind, Piece};

/// Returns whether formatting may change pieces of this kind: blanks, line ends and commas. A byte order mark counts as
/// a blank.
pub(crate) fn is_layout(kind: Kind) -> bool
    ensures { result ≡ spec.is_layout kind }
{
    matches!(
        kind,
        Kind::Blank | Kind::LineEnd | Kind::ByteOrderMark | Kind::Mark(b',')
    )
}

/// Appends a piece to `found`, without white space at its end, unless formatting may change it.
fn push_token<'t>(text: &'t [u8], piece: Piece, found: &mut Vec<&'t [u8]>) -> Result<(), AllocError>
    requires { IsSpan text.now piece }
    ensures { OnOk result (map (λ t. t.now) found.new.items
        ≡ map (λ t. t.now) found.old.items ++ spec.tokens text.now (piece ∷ [])) }
{
    if is_layout(piece.kind) {
        return Ok(());
    }
    found.push(text[piece.start..piece.end].trim_ascii_end())?;
    Ok(())
}

/// Returns the tokens and comments among these pieces of a text.
pub(crate) fn tokens_of<'t>(
    alloc: Global,
    text: &'t [u8],
    pieces: &[Piece],
) -> Result<Vec<&'t [u8]>, AllocError>
    requires { spec.AllSpans text.now pieces.now }
    ensures { IfOk result (λ found. map (λ t. t.now) found.items ≡ spec.tokens text.now pieces.now) }
{
    let mut found = Vec::new(alloc);
    for piece in pieces {
        push_token(text, *piece, &mut found)?;
    }
    Ok(found)
}

/// Returns whether a token is a comment.
fn is_comment(token: &[u8]) -> bool
    ensures { result ≡ spec.is_comment token.now }
{
    !token.is_empty() && token[0] == b'#'
}

/// Appends a token to `found`, if it is a comment.
fn push_comment<'t>(token: &'t [u8], found: &mut Vec<&'t [u8]>) -> Result<(), AllocError>
    ensures { OnOk result (map (λ t. t.now) found.new.items
        ≡ map (λ t. t.now) found.old.items ++ filter spec.is_comment (token.now ∷ [])) }
{
    if is_comment(token) {
        found.push(token)?;
    }
    Ok(())
}

/// Returns the comments among these tokens.
pub(crate) fn comments_among<'t>(
    alloc: Global,
    tokens: &[&'t [u8]],
) -> Result<Vec<&'t [u8]>, AllocError>
    ensures { IfOk result (λ found. map (λ t. t.now) found.items
        ≡ filter spec.is_comment (map (λ t. t.now) tokens.now)) }
{
    let mut found = Vec::new(alloc);
    for token in tokens {
        push_comment(*token, &mut found)?;
    }
    Ok(found)
}

/// Returns whether two lists have the same texts, in the same order.
pub(crate) fn same_texts(a: &[&[u8]], b: &[&[u8]]) -> bool
    ensures { IsTrue result ↔ (map (λ t. t.now) a.now ≡ map (λ t. t.now) b.now) }
{
    a == b
}
