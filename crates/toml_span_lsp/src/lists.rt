//! Writes answers that list parts of a document: symbols, folds, selections, highlights and references.
use crate::incoming::member;
use crate::methods::Request;
use crate::outgoing::{Json, write_location};
use std::alloc::{AllocError, Global};
use toml_span_editor::document::Document;
use toml_span_editor::folding::folds;
use toml_span_editor::keys::mentions;
use toml_span_editor::outline::{Symbol, outline};
use toml_span_editor::positions::Range;
use toml_span_editor::selection::selections;
use toml_span_editor::syntax::Syntax;
use toml_span_editor::table::PositionTable;
use toml_span_lex::span::Span;

/// Returns the number for the kind of a value (LSP 3.17, SymbolKind).
fn symbol_kind(kind: &str) -> usize {
    match kind {
        "table" => 19,
        "array" => 18,
        "string" => 15,
        "integer" | "float" => 16,
        "boolean" => 17,
        _ => 14,
    }
}

/// Returns the name of a symbol or, since a name must not be empty, quotes for an empty name.
fn name_of(symbol: &Symbol) -> &str {
    if symbol.name.is_empty() {
        "\"\""
    } else {
        symbol.name.as_str()
    }
}

/// Returns the range of the selection of a symbol with the range `whole`. Most symbols begin with their selection.
fn selection_range(table: &PositionTable<'_>, symbol: &Symbol, whole: Range) -> Range {
    let Span { start, end } = symbol.selection;
    Range {
        start: if start == symbol.span.start {
            whole.start
        } else {
            table.position(start)
        },
        end: table.position(end),
    }
}

/// Writes a symbol and the symbols inside it.
fn write_symbol(out: &mut Json, table: &PositionTable<'_>, symbol: &Symbol) {
    let whole = table.range(symbol.span);
    out.begin_object();
    out.text("name", name_of(symbol));
    out.number("kind", symbol_kind(symbol.kind));
    out.range("range", whole);
    out.range("selectionRange", selection_range(table, symbol, whole));
    if !symbol.children.is_empty() {
        out.array("children");
        for child in &symbol.children {
            write_symbol(out, table, child);
        }
        out.end_array();
    }
    out.end_object();
}

/// Writes a symbol and the symbols inside it, one after the other. `container` is the name of the symbol around it, or
/// an empty text.
fn write_flat_symbol(
    request: &Request<'_, '_, '_>,
    container: &str,
    symbol: &Symbol,
    out: &mut Json,
) {
    let name = name_of(symbol);
    out.begin_object();
    out.text("name", name);
    out.number("kind", symbol_kind(symbol.kind));
    out.key("location");
    write_location(out, request.uri, request.table.range(symbol.span));
    if !container.is_empty() {
        out.text("containerName", container);
    }
    out.end_object();
    for child in &symbol.children {
        write_flat_symbol(request, name, child, out);
    }
}

/// Writes the outline of a document: as nested symbols if the client supports them, otherwise as a list.
pub(crate) fn write_symbols(
    request: &Request<'_, '_, '_>,
    document: &Document<'_>,
    out: &mut Json,
) -> Result<(), AllocError> {
    out.begin_array();
    for symbol in &outline(request.alloc, document)? {
        if request.client.has_nested_symbols {
            write_symbol(out, request.table, symbol);
        } else {
            write_flat_symbol(request, "", symbol, out);
        }
    }
    out.end_array();
    Ok(())
}

/// Writes the first and last lines of the parts of a text that can be folded. Leaves out parts on one line.
pub(crate) fn write_folds(request: &Request<'_, '_, '_>, out: &mut Json) -> Result<(), AllocError> {
    let alloc = request.alloc;
    let folds = match request.syntax {
        Some(syntax) => folds(alloc, syntax)?,
        None => folds(alloc, &Syntax::new(alloc, request.table.text)?)?,
    };
    out.begin_array();
    for fold in &folds {
        let place = request.table.range(fold.span);
        let is_before = place.end.character == 0 && place.start.line < place.end.line;
        let end = place.end.line.saturating_sub(if is_before { 1 } else { 0 });
        if place.start.line < end {
            out.begin_object();
            out.number("startLine", place.start.line);
            out.number("endLine", end);
            out.text("kind", if fold.is_comment { "comment" } else { "region" });
            out.end_object();
        }
    }
    out.end_array();
    Ok(())
}

/// Writes the ranges around an offset, from the inside out, each with the next range as its parent.
pub(crate) fn write_selection(
    alloc: Global,
    table: &PositionTable<'_>,
    document: &Document<'_>,
    at: usize,
    out: &mut Json,
) -> Result<(), AllocError> {
    let spans = selections(alloc, document, at)?;
    for (index, span) in spans.iter().enumerate() {
        if index > 0 {
            out.key("parent");
        }
        out.begin_object();
        out.range("range", table.range(*span));
    }
    for _ in &spans {
        out.end_object();
    }
    Ok(())
}

/// Writes the ranges of all places where the key at an offset is written.
pub(crate) fn write_highlights(
    request: &Request<'_, '_, '_>,
    document: &Document<'_>,
    at: usize,
    out: &mut Json,
) -> Result<(), AllocError> {
    out.begin_array();
    for mention in &mentions(request.alloc, document, at)? {
        out.begin_object();
        out.range("range", request.table.range(mention.span));
        out.end_object();
    }
    out.end_array();
    Ok(())
}

/// Writes the locations where the key at an offset is written. Leaves out its definitions if the request says so.
pub(crate) fn write_references(
    request: &Request<'_, '_, '_>,
    document: &Document<'_>,
    at: usize,
    out: &mut Json,
) -> Result<(), AllocError> {
    let asked = member(request.params, &["context", "includeDeclaration"]);
    let all = asked.and_then(|asked| asked.as_bool()).unwrap_or(true);
    out.begin_array();
    for mention in &mentions(request.alloc, document, at)? {
        if all || !mention.is_definition {
            write_location(out, request.uri, request.table.range(mention.span));
        }
    }
    out.end_array();
    Ok(())
}
