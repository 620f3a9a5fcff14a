//! Lists the sections of a text, each with the path of the table that it fills.
ghost use Rattle.std.specs.Prelude.{◌≡◌, IfOk, map, option_map};
ghost use Rattle.toml_span_read.specs.Data.{parsed_section};
ghost use Rattle.toml_span_places.specs.Mentions.{mentioned};
ghost use Rattle.toml_span_places.specs.Sections as spec;
ghost use Rattle.toml_span_places.specs.Sections.{section_mention, document_sections};

use crate::lines::{blanks_start, body_end};
use crate::mentions::{Details, Mention, mentions};
use crate::paths::entered;
use crate::tables::TableForm;
use std::alloc::{AllocError, Global};
use toml_span_lex::span::Span;
use toml_span_read::Section;
use toml_span_tree::nodes::Step;

/// How a section begins.
#[derive(Clone, Copy, Debug, PartialEq, Eq)]
pub enum SectionForm {
    /// With the first assignment, before any header.
    Root,
    /// With a header in single brackets.
    Table,
    /// With a header in double brackets.
    Element,
}

/// A section, the path of the table that it fills, and where it is in the text.
#[derive(Drop)]
pub struct SectionPlace<'t> {
    /// The path from the root to the table that the section fills. If the header has double brackets, the last step is
    /// the position of the element that it adds.
    pub path: Vec<Step<'t>>,
    pub form: SectionForm,
    /// The header's line, from its first bracket to the end of the line, including the line end. 0..0 without a header.
    pub header: Span,
    /// From the end of the header's line to the end of the last assignment's line, including the line end. Without a
    /// header, begins at the spaces and tabs before the first assignment. Without assignments, the empty span after the
    /// header's line.
    pub body: Span,
}

/// Returns how a section begins. `named` is the form in which the section's header names its table, or `None` without a
/// header. Returns `None` for the forms `Passed`, `Dotted` and `Inline`.
fn form_of(named: Option<TableForm>) -> Option<SectionForm>
    ensures { result ≡ spec.form_of named }
{
    match named {
        None => Some(SectionForm::Root),
        Some(TableForm::Header) => Some(SectionForm::Table),
        Some(TableForm::Element) => Some(SectionForm::Element),
        Some(_) => None,
    }
}

/// Returns the `body` of a `SectionPlace`. `form` is how the section begins, and `details` has the details of a mention
/// in the section's header or, without a header, of the root.
fn body_of(text: &str, form: SectionForm, details: Details) -> Span
    ensures { result ≡ spec.body_of text.now form details }
{
    let start = match form {
        SectionForm::Root => blanks_start(text, details.extent.start),
        SectionForm::Table | SectionForm::Element => details.span.end,
    };
    let end = body_end(text, details.span, details.extent);
    Span { start, end }
}

/// Returns the section of `mention`, which must be a mention by a part of a header, or the mention of the root. Returns
/// `None` if that part is not the last part of its header.
fn section_of<'t>(text: &str, mention: Mention<'t>) -> Result<Option<SectionPlace<'t>>, AllocError>
    ensures { IfOk result (λ place. option_map section_mention place
        ≡ spec.section_of text.now (mentioned mention.entry)) }
{
    let Mention { path, details } = mention;
    let Some(form) = form_of(details.form) else {
        return Ok(None);
    };
    let path = entered(path, details.element)?;
    let header = details.span;
    let body = body_of(text, form, details);
    Ok(Some(SectionPlace {
        path,
        form,
        header,
        body,
    }))
}

/// Lists `sections`, in the order of the text, each with the path of the table that it fills.
///
/// `sections` must be what `read_sections` returned for `text`. A section of the root is listed only if there are
/// assignments before the first header. Fails if an allocation fails.
pub fn section_places<'t, 'de>(
    alloc: Global,
    text: &str,
    sections: &'t [Section<'de>],
) -> Result<Vec<SectionPlace<'t>>, AllocError>
    ensures { IfOk result (λ places. map section_mention places.items
        ≡ document_sections text.now (map parsed_section sections.now)) }
{
    let mut out = Vec::new(alloc);
    for mention in mentions(alloc, sections, false)? {
        if let Some(place) = section_of(text, mention)? {
            out.push(place)?;
        }
    }
    Ok(out)
}
