//! Reads documents.
ghost use Rattle.std.specs.Prelude.{◌≡◌, IfOk, IfSome};
ghost use Rattle.toml_span_format.specs.Document as spec;

use crate::errors::FormatError;
use std::alloc::{AllocError, Global};
use toml_span_lex::stop::Stop;
use toml_span_read::{Section, read_sections};
use toml_span_syntax::pieces::{Piece, pieces};

/// A text that can be read as TOML, with its sections and its pieces.
#[derive(Drop)]
pub(crate) struct Document<'t> {
    pub(crate) text: &'t str,
    pub(crate) sections: Vec<Section<'t>>,
    pub(crate) pieces: Vec<Piece>,
}

/// Returns the sections of a text. Fails with `FormatError::Invalid` if the text can't be read.
fn sections_of<'t>(alloc: Global, text: &'t str) -> Result<Vec<Section<'t>>, Stop<FormatError<'t>>>
    ensures { spec.ReadsSections text.now result }
{
    match read_sections(alloc, text, 128) {
        Ok(sections) => Ok(sections),
        Err(Stop::Memory(error)) => Err(Stop::Memory(error)),
        Err(Stop::Fault(error)) => Err(Stop::Fault(FormatError::Invalid(error))),
    }
}

/// Reads a document. Fails with `FormatError::Invalid` if the text can't be read.
pub(crate) fn read<'t>(alloc: Global, text: &'t str) -> Result<Document<'t>, Stop<FormatError<'t>>>
    ensures { spec.ReadsDocument text.now result }
{
    let sections = sections_of(alloc, text)?;
    let pieces = pieces(alloc, text)?;
    Ok(Document {
        text,
        sections,
        pieces,
    })
}

/// Reads a document. Returns `None` if the text can't be read.
pub(crate) fn read_if_valid<'t>(
    alloc: Global,
    text: &'t str,
) -> Result<Option<Document<'t>>, AllocError>
    ensures { IfOk result (λ read. IfSome read (λ found. (found.text.now ≡ text.now) × spec.IsRead found)) }
{
    match read(alloc, text) {
        Ok(document) => Ok(Some(document)),
        Err(Stop::Memory(error)) => Err(error),
        Err(Stop::Fault(_)) => Ok(None),
    }
}
