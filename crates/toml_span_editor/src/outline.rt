//! The outline of a document: its tables, arrays and keys as nested symbols.
use crate::document::Document;
use crate::spans::cover;
use std::alloc::{AllocError, Global};
use toml_span::value::{Table, Value, ValueInner};
use toml_span_lex::span::Span;
use toml_span_places::{literal_span, with_quotes};

/// An entry of a table, or an element of an array, with the symbols inside it.
#[derive(Drop)]
pub struct Symbol {
    /// The name of the key, or the position of the element.
    pub name: String,
    /// The kind of the value, such as `table` or `integer`.
    pub kind: &'static str,
    /// The span of the entry or element, including its children.
    pub span: Span,
    /// The span of the key alone, or of the element. It is within `span`.
    pub selection: Span,
    /// The symbols inside this one, in the order of the text.
    pub children: Vec<Symbol>,
}

/// Returns the symbol of a value. Its span contains `selection`, the literal of the value, and the children.
fn symbol_of(
    text: &str,
    name: String,
    selection: Span,
    value: &Value<'_>,
    children: Vec<Symbol>,
) -> Symbol {
    let mut span = cover(selection, literal_span(text, value));
    for symbol in &children {
        span = cover(span, symbol.span);
    }
    Symbol {
        name,
        kind: value.type_str(),
        span,
        selection,
        children,
    }
}

/// Returns the symbols inside a value, in the order of the text.
#[cycle(symbols_in)]
fn symbols_in(alloc: Global, text: &str, value: &Value<'_>) -> Result<Vec<Symbol>, AllocError> {
    if value.is_taken() {
        return Ok(Vec::new(alloc));
    }
    match value.as_ref() {
        ValueInner::Array(elements) => element_symbols(alloc, text, elements.as_slice()),
        ValueInner::Table(table) => entry_symbols(alloc, text, table),
        _ => Ok(Vec::new(alloc)),
    }
}

/// Returns the symbols of those elements of an array that are tables or arrays.
#[cycle(symbols_in)]
fn element_symbols(
    alloc: Global,
    text: &str,
    elements: &[Value<'_>],
) -> Result<Vec<Symbol>, AllocError> {
    let mut out = Vec::new(alloc);
    let mut position: usize = 0;
    for element in elements {
        if element.as_table().is_some() || element.as_array().is_some() {
            let children = symbols_in(alloc, text, element)?;
            let name = format!(in alloc; "{position}")?;
            let selection = literal_span(text, element);
            out.push(symbol_of(text, name, selection, element, children))?;
        }
        position = position.saturating_add(1);
    }
    Ok(out)
}

/// Returns the symbols of the entries of a table, in the order of the text.
#[cycle(symbols_in)]
fn entry_symbols(alloc: Global, text: &str, table: &Table<'_>) -> Result<Vec<Symbol>, AllocError> {
    let mut out = Vec::new(alloc);
    for (key, value) in table.iter() {
        let children = symbols_in(alloc, text, value)?;
        let name = String::from_str(alloc, key.name.as_ref())?;
        let selection = with_quotes(text, key.span);
        out.push(symbol_of(text, name, selection, value, children))?;
    }
    out.sort_by_key(|symbol| symbol.span.start)?;
    Ok(out)
}

/// Returns the symbols of a document, in the order of the text. An array lists only those elements that are tables or
/// arrays. Fails if an allocation fails.
pub fn outline(alloc: Global, document: &Document<'_>) -> Result<Vec<Symbol>, AllocError> {
    symbols_in(alloc, document.text, &document.root)
}
