//! Answers requests about documents.
ghost use Rattle.std.specs.Prelude.{IfOk, IfSome, codes};
ghost use Rattle.json.specs.Value.{value_view};
ghost use Rattle.toml_span_lsp.specs.Params.{HasPosition, IsAsked};

use crate::actions::{span_of, write_actions};
use crate::answers::{write_completion, write_definition, write_hover};
use crate::edits::{write_formatting, write_renamable, write_rename};
use crate::incoming::{position_of, text_in};
use crate::links::write_links;
use crate::lists::{
    write_folds, write_highlights, write_references, write_selection, write_symbols,
};
use crate::methods::{Method, Request};
use crate::outgoing::Json;
use crate::publish::write_report;
use crate::reading::{LARGE, Reading, TextName, is_too_long, kept_of, reading_of};
use crate::refusal::{INVALID_PARAMS, REQUEST_FAILED, Refusal, refused};
use crate::state::State;
use crate::tokens::{write_tokens, write_tokens_in};
use json::Value;
use std::alloc::Global;
use toml_span_editor::document::{Document, read};
use toml_span_editor::positions::{Position, offset_at};
use toml_span_lex::span::Span;
use toml_span_lex::stop::Stop;
use toml_span_schema::Guide;

/// Returns the position in the parameters of a request, or `None` if they have no valid position.
fn asked_position(params: &Value<'_>) -> Option<Position>
    ensures { IfSome result (HasPosition (codes "position") (value_view params.now)) }
{
    position_of(params.get("position")?)
}

/// Returns the offset of the position in a request. Fails with `INVALID_PARAMS` if the request has no valid position.
fn offset_of(request: &Request<'_, '_, '_>) -> Result<usize, Stop<Refusal>>
    ensures { IfOk result (IsAsked (value_view request.now.params.now) request.now.table.now.encoding
        request.now.table.now.text.now) }
{
    let table = request.table;
    match asked_position(request.params) {
        Some(position) => Ok(offset_at(table.encoding, table.text, position)),
        None => Err(refused(
            request.alloc,
            INVALID_PARAMS,
            "`position` must have a `line` and a `character`",
        )),
    }
}

/// Writes the ranges around each of the positions in a request. Fails with `INVALID_PARAMS` if the request has no list
/// of positions, or if a position is not valid.
fn write_selections(
    request: &Request<'_, '_, '_>,
    document: &Document<'_>,
    out: &mut Json,
) -> Result<(), Stop<Refusal>> {
    let (alloc, table) = (request.alloc, request.table);
    let Some(Value::Array(positions)) = request.params.get("positions") else {
        return Err(refused(alloc, INVALID_PARAMS, "`positions` must be a list"));
    };
    out.begin_array();
    for position in positions {
        let Some(position) = position_of(position) else {
            return Err(refused(
                alloc,
                INVALID_PARAMS,
                "each of `positions` must have a `line` and a `character`",
            ));
        };
        let at = offset_at(table.encoding, table.text, position);
        write_selection(alloc, table, document, at, out)?;
    }
    out.end_array();
    Ok(())
}

/// Returns the range in a request. Fails with `INVALID_PARAMS` if the request has no valid range.
fn asked_span(request: &Request<'_, '_, '_>) -> Result<Span, Stop<Refusal>> {
    match span_of(request) {
        Some(span) => Ok(span),
        None => Err(refused(
            request.alloc,
            INVALID_PARAMS,
            "`range` must have a `start` and an `end`",
        )),
    }
}

/// Writes the answer to a request about a document or, for some requests if it has errors, about what can be read of
/// it. Fails with a `Refusal` if the request is refused.
fn write_answer(
    request: &Request<'_, '_, '_>,
    reading: &Reading<'_>,
    guide: Option<&Guide>,
    out: &mut Json,
) -> Result<(), Stop<Refusal>> {
    let whole = reading.document.as_ref();
    match request.method {
        Method::Format | Method::FormatRange => return Ok(write_formatting(request, out)?),
        Method::Folds => return Ok(write_folds(request, out)?),
        Method::TokensInRange => return Ok(write_tokens_in(request, asked_span(request)?, out)?),
        Method::Rename => return write_rename(request, whole, offset_of(request)?, out),
        Method::PrepareRename => return Ok(write_renamable(
            request,
            whole,
            offset_of(request)?,
            out,
        )?),
        _ => {}
    }
    let Some(document) = whole.or(reading.partial.as_ref()) else {
        out.null();
        return Ok(());
    };
    match request.method {
        Method::Symbols => return Ok(write_symbols(request, document, out)?),
        Method::Selections => return write_selections(request, document, out),
        _ => {}
    }
    let at = offset_of(request)?;
    match request.method {
        Method::Highlights => write_highlights(request, document, at, out)?,
        Method::References => write_references(request, document, at, out)?,
        Method::Definition => write_definition(request, document, at, out)?,
        Method::Hover => write_hover(request, document, guide, at, out)?,
        _ => write_completion(request, document, guide, at, out)?,
    }
    Ok(())
}

/// Writes the answer to a request about the open document `uri` that depends on its name or its schema. Reads no files.
/// Fails with a `Refusal` if the request is refused, or if the document is not open.
fn write_named(
    request: &Request<'_, '_, '_>,
    state: &State,
    reading: &Reading<'_>,
    out: &mut Json,
) -> Result<(), Stop<Refusal>> {
    let alloc = request.alloc;
    let Some(open) = state.documents.get(request.uri) else {
        return Err(refused(alloc, REQUEST_FAILED, "the document is not open"));
    };
    let (name, text) = (open.name.as_str(), open.text.as_str());
    let lookup = &state.folders.folder_of(name, open.schemas.as_str()).lookup;
    if request.method == Method::Links {
        return Ok(write_links(request, name, lookup, out)?);
    }
    let guide = lookup.guide_of(alloc, name, text)?;
    write_answer(request, reading, guide, out)
}

/// Writes the answer to a request about the open document `uri`, which has been read. Fails with a `Refusal` if the
/// request is refused.
fn write_known(
    alloc: Global,
    state: &mut State,
    uri: &str,
    method: Method,
    params: &Value<'_>,
    reading: &Reading<'_>,
    out: &mut Json,
) -> Result<(), Stop<Refusal>> {
    let (settings, version) = match state.documents.get(uri) {
        Some(open) => (open.settings, open.version),
        None => (state.settings, None),
    };
    let request = Request {
        alloc,
        method,
        uri,
        table: &reading.table,
        syntax: reading.syntax.as_ref(),
        params,
        settings,
        client: state.client,
        version,
    };
    // The answers to these requests have entries for all of a document.
    let is_for_all = matches!(
        method,
        Method::Symbols | Method::Tokens | Method::TokenChanges
    );
    if is_for_all && reading.table.text.len() > LARGE {
        out.null();
        return Ok(());
    }
    match method {
        Method::Tokens | Method::TokenChanges => Ok(write_tokens(&request, state, out)?),
        Method::Actions => {
            let span = asked_span(&request)?;
            Ok(write_actions(&request, reading.document.as_ref(), state, span, out)?)
        }
        _ => write_named(&request, state, reading, out),
    }
}

/// Writes the answer to a request about an open document. If `known` is a reading of its text, reads nothing again.
/// Writes null for a document that is too long. Fails with a `Refusal` if the request is refused, or if the document is
/// not open.
pub(crate) fn write_result(
    alloc: Global,
    state: &mut State,
    method: Method,
    params: &Value<'_>,
    known: Option<&Reading<'_>>,
    out: &mut Json,
) -> Result<(), Stop<Refusal>> {
    let Some(uri) = text_in(params, &["textDocument", "uri"]) else {
        return Err(refused(alloc, INVALID_PARAMS, "`textDocument` must have a `uri`"));
    };
    if method == Method::Diagnose && write_report(alloc, state, uri, out)? {
        return Ok(());
    }
    let Some(open) = state.documents.get(uri) else {
        return Err(refused(alloc, REQUEST_FAILED, "the document is not open"));
    };
    if is_too_long(open) {
        out.null();
        return Ok(());
    }
    if let Some(reading) = known {
        if reading.name.revision == open.revision {
            return write_known(alloc, state, uri, method, params, reading, out);
        }
    }
    let name = TextName::new(alloc, uri, open.revision)?;
    let text = open.text.clone()?;
    let document = read(alloc, text.as_str())?;
    let kept = kept_of(alloc, document.as_ref(), text.as_str())?;
    let (encoding, whole, part) = (state.encoding, text.as_str(), kept.as_str());
    let reading = reading_of(alloc, encoding, name, whole, document, part)?;
    write_known(alloc, state, uri, method, params, &reading, out)
}
