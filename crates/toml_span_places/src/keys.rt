//! Lists the keys of a text.
ghost use Rattle.std.specs.Prelude.{◌≡◌, IfOk, map, option_map};
ghost use Rattle.toml_span_read.specs.Data.{parsed_section};
ghost use Rattle.toml_span_places.specs.Keys as spec;
ghost use Rattle.toml_span_places.specs.Keys.{key_mention, document_keys};
ghost use Rattle.toml_span_places.specs.Mentions.{mentioned};

use crate::mentions::{Mention, mentions};
use std::alloc::{AllocError, Global};
use toml_span_lex::span::Span;
use toml_span_read::Section;
use toml_span_read::gaps::byte_at;
use toml_span_tree::nodes::Step;

/// Where a part of a key occurs.
#[derive(Clone, Copy, Debug, PartialEq, Eq)]
pub enum Role {
    /// In a header, before its last part.
    Header,
    /// The last part of a header.
    HeaderLast,
    /// In the key of an assignment, before its last part.
    Dotted,
    /// The last part of the key of an assignment, on a line or in an inline table.
    Last,
}

/// A key, or one part of a dotted key, and where it is in the text.
#[derive(Drop)]
pub struct KeyPlace<'t> {
    /// The path from the root to what the key names. Its last step is the key itself.
    pub path: Vec<Step<'t>>,
    /// The bytes of the key without its quotes. For an empty key, its opening quote.
    pub span: Span,
    /// The bytes of the key with its quotes.
    pub whole: Span,
    pub role: Role,
}

/// Returns whether a byte is a quotation mark or an apostrophe.
pub(crate) fn is_quote(byte: u8) -> bool
    ensures { result ≡ spec.is_quote byte }
{
    byte == b'"' || byte == b'\''
}

/// Returns the span of a key or single-line string with its quotes. For a bare key, returns `span` unchanged.
///
/// `span` is the span that parsing `text` gives the key or string: it covers the content or, if the content is empty,
/// the opening quote.
pub fn with_quotes(text: &str, span: Span) -> Span
    ensures { result ≡ spec.with_quotes text.now span }
{
    let Span { start, end } = span;
    if end >= text.len() {
        return span;
    }
    let end = end + 1;
    if start > 0 && is_quote(byte_at(text, start - 1)) {
        let start = start - 1;
        Span { start, end }
    } else if is_quote(byte_at(text, start)) {
        Span { start, end }
    } else {
        span
    }
}

/// Returns the key of `mention` with its place in `text`, or `None` if `mention` has no key.
fn key_of<'t>(text: &str, mention: Mention<'t>) -> Option<KeyPlace<'t>>
    ensures { option_map key_mention result ≡ spec.mentioned_key text.now (mentioned mention.entry) }
{
    let Mention { path, details } = mention;
    let role = details.role?;
    let span = details.key;
    let whole = with_quotes(text, span);
    Some(KeyPlace {
        path,
        span,
        whole,
        role,
    })
}

/// Lists the keys in `sections`, in the order of the text: the parts of each header, and the parts of each assignment's
/// key before the keys inside its value.
///
/// `sections` must be what `read_sections` returned for `text`. Fails if an allocation fails.
pub fn key_places<'t, 'de>(
    alloc: Global,
    text: &str,
    sections: &'t [Section<'de>],
) -> Result<Vec<KeyPlace<'t>>, AllocError>
    ensures { IfOk result (λ places. map key_mention places.items
        ≡ document_keys text.now (map parsed_section sections.now)) }
{
    let mut out = Vec::new(alloc);
    for mention in mentions(alloc, sections, true)? {
        if let Some(place) = key_of(text, mention) {
            out.push(place)?;
        }
    }
    Ok(out)
}
