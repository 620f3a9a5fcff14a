//! Replaces spans of a text.
ghost use Rattle.std.specs.Prelude.{◌≡◌, ◌≤◌, ◌++◌, IfOk, OnOk, map, option_map, slice_range, string_bytes};
ghost use Rattle.std.specs.Str.{IsCharBoundary};
ghost use Rattle.toml_span_places.specs.Replace as spec;
ghost use Rattle.toml_span_places.specs.Replace.{Replaces, edit_of};

use std::alloc::{AllocError, Global};
use thiserror::Error;
use toml_span_lex::span::Span;
use toml_span_lex::stop::Stop;
use toml_span_read::gaps::byte_at;

/// A span of a text in bytes, end exclusive, and the text that replaces it. If the span is empty, the text is inserted.
#[derive(Clone, Copy, Debug, PartialEq, Eq)]
pub struct Replacement<'r> {
    pub span: Span,
    pub text: &'r str,
}

/// What is wrong with the span of a replacement.
#[derive(Clone, Copy, Debug, PartialEq, Eq, Error)]
pub enum SpanFault {
    #[error("the span ends before it starts")]
    Reversed,
    #[error("the span ends after the end of the text")]
    OutOfBounds,
    #[error("the span starts before the end of the one before it")]
    Overlapping,
    #[error("the span starts or ends inside a character")]
    InsideCharacter,
}

/// The first replacement whose span is invalid, and what is wrong with it.
#[derive(Clone, Copy, Debug, PartialEq, Eq, Error)]
#[error("replacement {index}: {fault}")]
pub struct ReplaceError {
    /// The position of the replacement in the list, counted from 0.
    pub index: usize,
    pub fault: SpanFault,
}

/// Returns whether the byte offset `at` is a character boundary of `text`, or after its end.
fn is_boundary(text: &str, at: usize) -> bool
    ensures { result ≡ spec.is_boundary text.now at }
{
    let byte = byte_at(text, at);
    byte < 0x80 || byte >= 0xC0
}

/// Returns what is wrong with `span`, or `None` if it is valid. `from` is the end of the span before it, or 0 for the
/// first span.
fn fault_of(text: &str, from: usize, span: Span) -> Option<SpanFault>
    ensures { result ≡ spec.fault_of text.now from span }
{
    if span.end < span.start {
        Some(SpanFault::Reversed)
    } else if text.len() < span.end {
        Some(SpanFault::OutOfBounds)
    } else if span.start < from {
        Some(SpanFault::Overlapping)
    } else if is_boundary(text, span.start) && is_boundary(text, span.end) {
        None
    } else {
        Some(SpanFault::InsideCharacter)
    }
}

/// Appends to `new` the bytes `from..to` of `text`, and then `then`.
fn push_part(
    new: &mut String,
    text: &str,
    from: usize,
    to: usize,
    then: &str,
) -> Result<(), AllocError>
    requires order { from ≤ to }
    requires from { IsCharBoundary text.now from }
    requires to { IsCharBoundary text.now to }
    ensures { OnOk result (string_bytes new.new ≡ string_bytes new.old ++ (slice_range text.now from to ++ then.now)) }
{
    new.push_str(&text[from..to])?;
    new.push_str(then)
}

/// Returns `text` with all replacements made. The other bytes are unchanged.
///
/// The spans must be in the order of the text, and must not overlap. Fails with `Stop::Fault`, which names the first
/// replacement whose span is invalid or starts before the end of the span before it, and with `Stop::Memory` if an
/// allocation fails.
pub fn replace_all(
    alloc: Global,
    text: &str,
    replacements: &[Replacement<'_>],
) -> Result<String, Stop<ReplaceError>>
    ensures { Replaces text.now (map edit_of replacements.now) result }
{
    let mut new = String::new(alloc);
    let mut from = 0;
    for (index, replacement) in replacements.iter().enumerate() {
        let span = replacement.span;
        if let Some(fault) = fault_of(text, from, span) {
            return Err(Stop::Fault(ReplaceError { index, fault }));
        }
        push_part(&mut new, text, from, span.start, replacement.text)?;
        from = span.end;
    }
    push_part(&mut new, text, from, text.len(), "")?;
    Ok(new)
}

/// Returns a list that replaces each of `spans` with `text`.
fn with_each<'r>(
    alloc: Global,
    spans: &[Span],
    text: &'r str,
) -> Result<Vec<Replacement<'r>>, AllocError>
    ensures { IfOk result (λ list. map edit_of list.items ≡ map (λ span. (span, text.now)) spans.now) }
{
    let mut list = Vec::with_capacity(alloc, spans.len())?;
    for span in spans {
        list.push(Replacement { span: *span, text })?;
    }
    Ok(list)
}

/// Returns `text` with each of `spans` replaced with `with`. Returns `None` if a span is invalid, or starts before the
/// end of the span before it. Fails if an allocation fails.
pub fn replaced(
    alloc: Global,
    text: &str,
    spans: &[Span],
    with: &str,
) -> Result<Option<String>, AllocError>
    ensures { IfOk result (λ new. option_map string_bytes new
        ≡ spec.replaced text.now (map (λ span. (span, with.now)) spans.now)) }
{
    let list = with_each(alloc, spans, with)?;
    match replace_all(alloc, text, list.as_slice()) {
        Ok(new) => Ok(Some(new)),
        Err(Stop::Fault(_)) => Ok(None),
        Err(Stop::Memory(error)) => Err(error),
    }
}
