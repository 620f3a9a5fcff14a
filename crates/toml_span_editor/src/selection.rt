//! Finds the parts of a document around an offset, from the smallest to the whole text.
use crate::document::Document;
use crate::spans::{contains, cover, touches};
use std::alloc::{AllocError, Global};
use toml_span::value::nodes;
use toml_span_lex::span::Span;
use toml_span_places::{key_places, literal_span, section_places, with_quotes};

/// Appends a span, or nothing if the span is empty or does not touch the offset `at`.
fn push_touching(span: Span, at: usize, spans: &mut Vec<Span>) -> Result<(), AllocError> {
    if touches(span, at) && span.start < span.end {
        spans.push(span)?;
    }
    Ok(())
}

/// Returns the spans of keys, values, entries, headers and sections that touch the offset `at`, and the span of the
/// whole text.
fn spans_at(alloc: Global, document: &Document<'_>, at: usize) -> Result<Vec<Span>, AllocError> {
    let text = document.text;
    let sections = document.sections.as_slice();
    let mut spans = Vec::new(alloc);
    for key in key_places(alloc, text, sections)? {
        push_touching(key.span, at, &mut spans)?;
        push_touching(key.whole, at, &mut spans)?;
    }
    for node in nodes(alloc, &document.root)? {
        let literal = literal_span(text, node.value);
        push_touching(node.value.span, at, &mut spans)?;
        push_touching(literal, at, &mut spans)?;
        if let Some(key) = node.key {
            push_touching(cover(with_quotes(text, key.span), literal), at, &mut spans)?;
        }
    }
    for section in section_places(alloc, text, sections)? {
        push_touching(section.header, at, &mut spans)?;
        push_touching(cover(section.header, section.body), at, &mut spans)?;
    }
    let end = text.len();
    spans.push(Span { start: 0, end })?;
    Ok(spans)
}

/// Returns the spans around the byte offset `at`, each inside the next: of the key or value, its entry or header, the
/// values and sections around it, and the whole text. Fails if an allocation fails.
pub fn selections(
    alloc: Global,
    document: &Document<'_>,
    at: usize,
) -> Result<Vec<Span>, AllocError> {
    let mut spans = spans_at(alloc, document, at)?;
    spans.sort_by_key(|span| span.end.saturating_sub(span.start))?;
    let mut kept: Vec<Span> = Vec::new(alloc);
    for span in spans {
        let is_next = match kept.last() {
            Some(last) => contains(span, *last) && span != *last,
            None => true,
        };
        if is_next {
            kept.push(span)?;
        }
    }
    Ok(kept)
}
