//! Writes answers about a position in a document: definitions, hovers and completion items.
use crate::methods::Request;
use crate::outgoing::{Json, write_location, write_markup};
use crate::suggested::write_items;
use std::alloc::AllocError;
use toml_span_editor::completion::completion_at;
use toml_span_editor::document::Document;
use toml_span_editor::hover::hover_at;
use toml_span_editor::keys::definition;
use toml_span_editor::syntax::Syntax;
use toml_span_schema::Guide;

/// Writes the location where the key at an offset is defined, or null if there is no key at the offset.
pub(crate) fn write_definition(
    request: &Request<'_, '_, '_>,
    document: &Document<'_>,
    at: usize,
    out: &mut Json,
) -> Result<(), AllocError> {
    match definition(request.alloc, document, at)? {
        Some(span) => write_location(out, request.uri, request.table.range(span)),
        None => out.null(),
    }
    Ok(())
}

/// Writes the description of the key or value at an offset. Writes null if neither a key nor a value other than a table
/// is there.
pub(crate) fn write_hover(
    request: &Request<'_, '_, '_>,
    document: &Document<'_>,
    guide: Option<&Guide>,
    at: usize,
    out: &mut Json,
) -> Result<(), AllocError> {
    let Some(found) = hover_at(request.alloc, document, guide, at)? else {
        out.null();
        return Ok(());
    };
    out.begin_object();
    out.key("contents");
    let is_markdown = request.client.has_markdown_hovers;
    write_markup(request.alloc, found.text.as_str(), is_markdown, out)?;
    out.range("range", request.table.range(found.span));
    out.end_object();
    Ok(())
}

/// Writes the completion items for the offset `at`.
pub(crate) fn write_completion(
    request: &Request<'_, '_, '_>,
    document: &Document<'_>,
    guide: Option<&Guide>,
    at: usize,
    out: &mut Json,
) -> Result<(), AllocError> {
    let alloc = request.alloc;
    let made = match request.syntax {
        Some(syntax) => completion_at(alloc, guide, syntax, document, at)?,
        None => {
            let syntax = Syntax::new(alloc, request.table.text)?;
            completion_at(alloc, guide, &syntax, document, at)?
        }
    };
    write_items(request, &made, out)
}
