//! The directive `#:schema`, or the key `"$schema"`, by which a file names its schema.
ghost use Rattle.std.specs.Prelude.{◌≡◌, option_map, take, true};
ghost use Rattle.toml_span_lookup.specs.Addresses.{after};
ghost use Rattle.toml_span_lookup.specs.Directive as spec;

use toml_span_lex::span::Span;
use toml_span_report::bom_end;

/// The beginning of the directive.
pub const SCHEMA: &str = "#:schema";

/// The key that names the schema, in both forms of quotes.
const KEY: &[u8] = b"\"$schema\"";

const LITERAL_KEY: &[u8] = b"'$schema'";

/// A directive `#:schema ADDRESS`, or a first key `"$schema" = "ADDRESS"`.
#[derive(Clone, Copy)]
pub struct Directive<'t> {
    /// The path or the URL of the schema.
    pub address: &'t str,
    /// The span of the address in the file.
    pub span: Span,
}

/// A text from the address of a schema on.
#[derive(Clone, Copy)]
struct Place<'t> {
    rest: &'t [u8],
    /// The number of bytes of the address.
    length: usize,
}

/// Returns the rest of a text that begins with `front`, or `None` if it begins otherwise.
fn rest_after<'t>(front: &[u8], text: &'t [u8]) -> Option<&'t [u8]>
    ensures { option_map (λ rest. rest.now) result ≡ after front.now text.now }
{
    if text.starts_with(front) {
        Some(&text[front.len()..])
    } else {
        None
    }
}

/// Returns whether the byte is a space, a tab or a carriage return.
fn is_white(byte: u8) -> bool
    ensures { result ≡ spec.is_white byte }
{
    matches!(byte, b' ' | b'\t' | b'\r')
}

/// Returns a text without the white space at its start.
fn skip_white(text: &[u8]) -> &[u8]
    ensures { result.now ≡ spec.skip_white text.now }
{
    let mut rest = text;
    while let Some((byte, more)) = rest.split_first() {
        if !is_white(*byte) {
            return rest;
        }
        rest = more;
    }
    rest
}

/// Returns the place at the start of a text of an address of this length, or `None` if the address is empty.
fn sized(text: &[u8], length: usize) -> Option<Place<'_>>
    ensures { option_map spec.place result ≡ spec.sized text.now length }
{
    if length == 0 {
        return None;
    }
    Some(Place { rest: text, length })
}

/// Returns the number of bytes of a line without white space at its end, and without a comment: a `#` at the start, or
/// after white space.
fn word_length(text: &[u8]) -> usize
    ensures { result ≡ spec.word_length true text.now }
{
    let mut end = 0;
    let mut after_white = true;
    for (at, byte) in text.iter().enumerate() {
        if *byte == b'\n' || after_white && *byte == b'#' {
            return end;
        }
        after_white = is_white(*byte);
        if !after_white {
            end = at + 1;
        }
    }
    end
}

/// Returns the address in a line after `#:schema`, or `None` if white space and an address do not follow.
fn after_schema(text: &[u8]) -> Option<Place<'_>>
    ensures { option_map spec.place result ≡ spec.after_schema text.now }
{
    let (first, _) = text.split_first()?;
    if !is_white(*first) {
        return None;
    }
    let word = skip_white(text);
    sized(word, word_length(word))
}

/// Returns the address in a line that is a directive.
fn in_comment(text: &[u8]) -> Option<Place<'_>>
    ensures { option_map spec.place result ≡ spec.in_comment text.now }
{
    after_schema(rest_after(SCHEMA.as_bytes(), skip_white(text))?)
}

/// Returns the number of bytes of a string up to its closing quote, or `None` if the string has an escape or does not
/// end in its line.
fn string_length(quote: u8, text: &[u8]) -> Option<usize>
    ensures { result ≡ spec.string_length quote 0 text.now }
{
    for (at, byte) in text.iter().enumerate() {
        if *byte == quote {
            return Some(at);
        }
        if *byte == b'\n' || quote == b'"' && *byte == b'\\' {
            return None;
        }
    }
    None
}

/// Returns the content of a string that begins with its opening quote.
fn in_string(text: &[u8]) -> Option<Place<'_>>
    ensures { option_map spec.place result ≡ spec.in_string text.now }
{
    let (quote, rest) = text.split_first()?;
    if *quote != b'"' && *quote != b'\'' {
        return None;
    }
    sized(rest, string_length(*quote, rest)?)
}

/// Returns the string after an equals sign.
fn in_value(text: &[u8]) -> Option<Place<'_>>
    ensures { option_map spec.place result ≡ spec.in_value text.now }
{
    in_string(skip_white(rest_after(b"=", skip_white(text))?))
}

/// Returns the string that a line assigns to the key `"$schema"`.
fn in_key(text: &[u8]) -> Option<Place<'_>>
    ensures { option_map spec.place result ≡ spec.in_key text.now }
{
    let key = skip_white(text);
    if let Some(rest) = rest_after(KEY, key) {
        if let Some(found) = in_value(rest) {
            return Some(found);
        }
    }
    in_value(rest_after(LITERAL_KEY, key)?)
}

/// Returns the address that the line at the start of a text names.
fn in_line(text: &[u8]) -> Option<Place<'_>>
    ensures { option_map spec.place result ≡ spec.in_line text.now }
{
    match in_comment(text) {
        Some(found) => Some(found),
        None => in_key(text),
    }
}

/// Returns the first address that a line names, up to the first header or assignment. Lines without these are empty or
/// comments.
fn named(text: &[u8]) -> Option<Place<'_>>
    ensures { option_map spec.place result ≡ spec.named_from true text.now }
{
    let mut rest = text;
    let mut is_start = true;
    while let Some((byte, more)) = rest.split_first() {
        if is_start {
            if let Some(found) = in_line(rest) {
                return Some(found);
            }
            let is_empty = matches!(skip_white(rest), [] | [b'\n' | b'#', ..]);
            if !is_empty {
                return None;
            }
        }
        is_start = *byte == b'\n';
        rest = more;
    }
    None
}

/// Returns a text, or `None` if it is not UTF-8.
#[tactic(auto, using(crate::proofs::Texts::utf8_is, crate::proofs::Texts::not_utf8))]
fn text_of(bytes: &[u8]) -> Option<&str>
    ensures { option_map (λ text. text.now) result ≡ spec.text_of bytes.now }
{
    match str::from_utf8(bytes) {
        Ok(text) => Some(text),
        Err(_) => None,
    }
}

/// Returns the first bytes of a text, or all if it has no more than `length`.
fn front(text: &[u8], length: usize) -> &[u8]
    ensures { result.now ≡ take length text.now }
{
    match text.get(..length) {
        Some(front) => front,
        None => text,
    }
}

/// Returns the address that a file names in a comment `#:schema` above the first header or assignment, or by its first
/// key `"$schema"`. Returns `None` if the file names none.
#[tactic(auto, unfolding(crate::specs::Directive::directive_of))]
pub fn directive_of<'t>(text: &'t str) -> Option<Directive<'t>>
    ensures { option_map (λ found. (found.address.now, found.span)) result ≡ spec.directive_of text.now }
{
    let place = named(&text.as_bytes()[bom_end(text)..])?;
    let address = text_of(front(place.rest, place.length))?;
    let after = place.rest.len().saturating_sub(place.length);
    Some(Directive {
        address,
        span: Span {
            start: text.len().saturating_sub(place.rest.len()),
            end: text.len().saturating_sub(after),
        },
    })
}

/// Returns whether a file names its schema, as `directive_of` finds.
#[tactic(auto, unfolding(crate::specs::Directive::names_schema))]
pub fn names_schema(text: &str) -> bool
    ensures { result ≡ spec.names_schema text.now }
{
    directive_of(text).is_some()
}
