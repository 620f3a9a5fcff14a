//! Converts the table or array at an offset of a document, and checks that the values and comments are kept.
ghost use Rattle.std.specs.Prelude.{IfOk, IfSome, map, string_bytes};
ghost use Rattle.toml_span_read.specs.Data.{parsed_section};
ghost use Rattle.toml_span_edit.specs.Converted.{HasOtherForm, IsConverted};

use crate::conversions::{Conversion, Proposal};
use crate::document::Document;
use crate::flat::array_laid_out;
use crate::forms::{is_converted, with_array};
use crate::sections::section_to_inline;
use crate::tables::{dotted_to_section, inline_to_section};
use crate::unchanged::validated;
use std::alloc::{AllocError, Global};
use toml_span_format::{permuted_comments, same_document};
use toml_span_lex::stop::Stop;
use toml_span_lex::tokenizer::first_place;
use toml_span_read::Section;

/// Proposes another form for the table or array at the byte offset `at`. Returns `None` if there is nothing to convert
/// at `at`, or if the conversion is not possible (see `Conversion`).
fn proposed(
    document: Document<'_, '_>,
    conversion: Conversion,
    at: usize,
) -> Result<Option<Proposal>, AllocError> {
    let at = at.max(first_place(document.text));
    match conversion {
        Conversion::InlineToSection => inline_to_section(document, at),
        Conversion::SectionToInline => section_to_inline(document, at),
        Conversion::DottedToSection => dotted_to_section(document, at),
        Conversion::ArrayToLines => array_laid_out(document, at, false),
        Conversion::ArrayToLine => array_laid_out(document, at, true),
    }
}

/// Makes the change of `proposal` in `text`, and returns the new text. `sections` are the sections of `text`. Returns
/// `None` if the change is not one that `conversion` makes at the byte offset `at` (see `is_converted` and
/// `with_array`), or if an array would have other tokens or comments.
fn accepted(
    alloc: Global,
    text: &str,
    sections: &[Section<'_>],
    conversion: Conversion,
    at: usize,
    proposal: Proposal,
) -> Result<Option<String>, AllocError>
    ensures { IfOk result (λ made. IfSome made (λ new. HasOtherForm conversion at text.now
        (map parsed_section sections.now) (string_bytes new))) }
{
    match proposal {
        Proposal::Table(new) => {
            if is_converted(alloc, text, sections, conversion, at, new.as_str())? {
                return Ok(Some(new));
            }
        }
        Proposal::Array(span, array) => {
            if let Some(new) = with_array(alloc, conversion, text, at, span, array.as_str())? {
                if same_document(alloc, text, new.as_str())? {
                    return Ok(Some(new));
                }
            }
        }
    }
    Ok(None)
}

/// Returns the document with one table or array written in another form. Converts the inline table, dotted key or array
/// whose assignment contains or touches the byte offset `at`, or the section whose header (in single brackets) does.
/// Among nested arrays, converts the innermost one at `at`. Does not convert inline tables inside other values. An
/// offset in a byte order mark counts as the offset after it. `sections` are the sections of `text`.
///
/// The result has the same keys, values and comments; the comments may be in another order. Returns `None` if the text
/// is not valid TOML, if there is nothing to convert at `at`, or if the conversion is not possible (see `Conversion`).
/// Also returns `None` if the result would not be valid TOML, or would change a value or lose a comment. If there is
/// nothing to convert, the text is not read again. Fails if an allocation fails.
pub fn converted(
    alloc: Global,
    text: &str,
    sections: &[Section<'_>],
    conversion: Conversion,
    at: usize,
) -> Result<Option<String>, AllocError>
    ensures { IfOk result (λ made. IfSome made (λ new. IsConverted conversion at text.now
        (map parsed_section sections.now) (string_bytes new))) }
{
    let document = Document {
        alloc,
        text,
        sections,
    };
    let Some(proposal) = proposed(document, conversion, at)? else {
        return Ok(None);
    };
    let Some(new) = accepted(alloc, text, sections, conversion, at, proposal)? else {
        return Ok(None);
    };
    if !permuted_comments(alloc, text, new.as_str())? {
        return Ok(None);
    }
    match validated(alloc, text, new) {
        Ok(new) => Ok(Some(new)),
        Err(Stop::Memory(error)) => Err(error),
        Err(Stop::Fault(_)) => Ok(None),
    }
}
