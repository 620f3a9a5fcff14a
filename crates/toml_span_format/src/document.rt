//! Formats a document.
ghost use Rattle.std.specs.Prelude.{IfOk, IsTrue};
ghost use Rattle.toml_span_format.specs.Document as spec;

use crate::errors::FormatError;
use crate::options::Options;
use crate::printer::print;
use crate::read::{Document, read, read_if_valid};
use crate::reader::items_of;
use crate::same::same_sections;
use crate::tokens::{same_texts, tokens_of};
use std::alloc::{AllocError, Global};
use toml_span_lex::stop::Stop;
use toml_span_syntax::pieces::{Kind, Piece};

/// Returns the first line end outside strings, or LF if there is none.
fn line_end_of(pieces: &[Piece]) -> &'static str {
    match pieces
        .iter()
        .find(|piece| matches!(piece.kind, Kind::LineEnd))
    {
        Some(piece) if piece.end.saturating_sub(piece.start) > 1 => "\r\n",
        _ => "\n",
    }
}

/// Returns these pieces of a document in their new layout. `pieces` are the pieces of the document, perhaps in another
/// order.
pub(crate) fn laid_out(
    alloc: Global,
    document: &Document<'_>,
    pieces: &[Piece],
    options: Options,
) -> Result<String, AllocError> {
    let items = items_of(alloc, document.text, pieces, options)?;
    let line_end = match options.has_crlf {
        Some(true) => "\r\n",
        Some(false) => "\n",
        None => line_end_of(document.pieces.as_slice()),
    };
    print(alloc, document.text, line_end, items.as_slice(), options)
}

/// Returns whether two documents have the same tokens and comments, in the same order.
fn has_same_tokens(
    alloc: Global,
    old: &Document<'_>,
    new: &Document<'_>,
) -> Result<bool, AllocError>
    requires old { spec.IsRead old.now }
    requires new { spec.IsRead new.now }
    ensures { IfOk result (λ same. IsTrue same → spec.SameTokens old.now.text.now new.now.text.now) }
{
    let before = tokens_of(alloc, old.text.as_bytes(), old.pieces.as_slice())?;
    let after = tokens_of(alloc, new.text.as_bytes(), new.pieces.as_slice())?;
    Ok(same_texts(before.as_slice(), after.as_slice()))
}

/// Returns whether `new` has the sections of a document, and its tokens and comments, all in the same order. Returns
/// `false` if `new` can't be read.
fn is_same(alloc: Global, old: &Document<'_>, new: &str) -> Result<bool, AllocError>
    requires { spec.IsRead old.now }
    ensures { IfOk result (λ same. IsTrue same → spec.SameDocument old.now.text.now new.now) }
{
    let Some(new) = read_if_valid(alloc, new)? else {
        return Ok(false);
    };
    if !same_sections(old.sections.as_slice(), new.sections.as_slice()) {
        return Ok(false);
    }
    let same = has_same_tokens(alloc, old, &new)?;
    Ok(same)
}

/// Returns whether two texts have the same sections, and the same tokens and comments, all in the same order. Spans,
/// blanks, line ends, commas and white space at the end of comments may differ. Returns `false` if a text can't be
/// read. Fails if an allocation fails.
pub fn same_document(alloc: Global, old: &str, new: &str) -> Result<bool, AllocError>
    ensures { IfOk result (λ same. IsTrue same → spec.SameDocument old.now new.now) }
{
    let Some(old) = read_if_valid(alloc, old)? else {
        return Ok(false);
    };
    let same = is_same(alloc, &old, new)?;
    Ok(same)
}

/// Formats a document, and returns the new text.
///
/// The result has the same tokens and comments as `text`, in the same order, and the same sections, keys and values.
/// Only blanks, line ends and commas differ. Spaces and tabs at the end of a comment count as blanks.
///
/// # Errors
///
/// `FormatError::Invalid` if the text can't be read as TOML, or `Stop::Memory` if an allocation fails.
/// `FormatError::WouldDiffer` is a bug in the formatter.
pub fn format<'t>(
    alloc: Global,
    text: &'t str,
    options: Options,
) -> Result<String, Stop<FormatError<'t>>>
    ensures { spec.Formats text.now result }
{
    let document = read(alloc, text)?;
    let new = laid_out(alloc, &document, document.pieces.as_slice(), options)?;
    if new.as_str() == text {
        return Ok(new);
    }
    if is_same(alloc, &document, new.as_str())? {
        Ok(new)
    } else {
        Err(Stop::Fault(FormatError::WouldDiffer))
    }
}
