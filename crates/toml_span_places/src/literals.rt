//! Finds the literals that spell values.
ghost use Rattle.std.specs.Prelude.{◌≡◌};
ghost use Rattle.toml_span_tree.specs.Value.{view};
ghost use Rattle.toml_span_read.specs.Data.{parsed_value};
ghost use Rattle.toml_span_places.specs.Literals as spec;

use crate::keys::is_quote;
use toml_span_lex::span::Span;
use toml_span_read::gaps::byte_at;
use toml_span_read::{Val, ValKind};
use toml_span_tree::Value;

/// Returns the byte at the byte offset `at - back`, or 0 if the text has no such byte.
pub(crate) fn byte_before(text: &str, at: usize, back: usize) -> u8
    ensures { result ≡ spec.byte_before text.now at back }
{
    if at < back {
        0
    } else {
        byte_at(text, at - back)
    }
}

/// Returns the byte offset after the opening quotes of a string whose content begins at `from`. If a line end is
/// directly before `from`, returns the start of that line end, which is not part of the content. Otherwise returns
/// `from`.
fn after_quotes(text: &str, from: usize) -> usize
    ensures { result ≡ spec.after_quotes text.now from }
{
    if byte_before(text, from, 1) != b'\n' {
        from
    } else if byte_before(text, from, 2) == b'\r' {
        from.saturating_sub(2)
    } else {
        from.saturating_sub(1)
    }
}

/// Returns how many quotes open the string whose opening quotes end at the byte offset `at`: three or one.
fn quotes_before(text: &str, at: usize) -> usize
    ensures { result ≡ spec.quotes_before text.now at }
{
    let quote = byte_before(text, at, 1);
    if is_quote(quote) && byte_before(text, at, 2) == quote && byte_before(text, at, 3) == quote {
        3
    } else {
        1
    }
}

/// Returns the span of a string with its quotes. `span` is the span of the content; for an empty value (`is_empty`), it
/// may be the span of the opening quote. Returns `span` itself if no byte of the text follows it.
fn string_literal(text: &str, span: Span, is_empty: bool) -> Span
    ensures { result ≡ spec.string_literal text.now span is_empty }
{
    let Span { start, end } = span;
    if end >= text.len() {
        return span;
    }
    if is_empty && end == start.saturating_add(1) {
        return Span {
            start,
            end: end + 1,
        };
    }
    let after = after_quotes(text, start);
    let quotes = quotes_before(text, after);
    Span {
        start: after.saturating_sub(quotes),
        end: end + quotes,
    }
}

/// Returns the span of the literal that spells `value`. For a string, this span includes the quotes and, if a line end
/// directly follows three opening quotes, that line end. For any other value, returns `value.span`.
///
/// `value` must be in the tree that `parse` returned for `text`.
pub fn literal_span(text: &str, value: &Value<'_>) -> Span
    ensures { result ≡ spec.literal_span text.now (view value.now) }
{
    match value.as_str() {
        Some(string) => string_literal(text, value.span, string.is_empty()),
        None => value.span,
    }
}

/// Returns the span of the literal `value`, as `literal_span` does for the same value in a tree. `value` must be in the
/// sections that `read_sections` returned for `text`.
pub fn val_literal_span(text: &str, value: &Val<'_>) -> Span
    ensures { result ≡ spec.val_literal_span text.now (parsed_value value.now) }
{
    match &value.kind {
        ValKind::String(string) => string_literal(text, value.span, string.is_empty()),
        ValKind::Integer(_)
        | ValKind::Float(_)
        | ValKind::Boolean(_)
        | ValKind::Datetime(_)
        | ValKind::Array(_)
        | ValKind::Inline(_) => value.span,
    }
}
