//! Decides whether the quotes that a replacement adds enclose a whole value.
ghost use Rattle.std.specs.Prelude.{◌≡◌, count_by, length};
ghost use Rattle.std.specs.Str.{bytes_eq};
ghost use Rattle.std.specs.List.{list_all, list_any};
ghost use Rattle.toml_span_check.specs.Quotes as spec;

use crate::bytes::{byte_at, bytes_in};
use toml_span_lex::bytes::is_blank;
use toml_span_lex::span::Span;

/// Returns the last of the bytes that is not a blank, or a line feed if there is none.
#[tactic(auto, unfolding(crate::specs::Quotes::last_solid))]
fn last_solid(bytes: &[u8]) -> u8
    ensures { result ≡ spec.last_solid 10 bytes.now }
{
    let mut last = b'\n';
    for byte in bytes {
        last = if is_blank(*byte) { last } else { *byte };
    }
    last
}

/// Returns the first of the bytes that is not a blank, or a line feed if there is none.
#[tactic(auto, unfolding(crate::specs::Quotes::first_solid))]
fn first_solid(bytes: &[u8]) -> u8
    ensures { result ≡ spec.first_solid bytes.now }
{
    for byte in bytes {
        if !is_blank(*byte) {
            return *byte;
        }
    }
    b'\n'
}

/// Returns whether the byte is a quote.
fn is_quote(byte: u8) -> bool
    ensures { result ≡ spec.is_quote byte }
{
    byte == b'"' || byte == b'\''
}

/// Returns the number of quotes among the bytes.
fn quotes(bytes: &[u8]) -> usize
    ensures { result ≡ count_by spec.is_quote bytes.now }
{
    bytes.iter().filter(|byte| is_quote(**byte)).count()
}

/// Returns whether the byte is a bracket, brace or parenthesis.
fn is_bracket(byte: u8) -> bool
    ensures { result ≡ spec.is_bracket byte }
{
    matches!(byte, b'[' | b']' | b'{' | b'}' | b'(' | b')')
}

/// Returns whether the byte can be in a value that a fix puts in quotes: it is no blank, line end, quote, `#`, `;`,
/// `=`, comma, backslash or bracket.
fn is_plain(byte: u8) -> bool
    ensures { result ≡ spec.is_plain byte }
{
    !(is_blank(byte)
        || is_quote(byte)
        || is_bracket(byte)
        || matches!(byte, b'\n' | b'\r' | b'#' | b';' | b'=' | b',' | b'\\'))
}

/// Returns whether all bytes can be in a value that a fix puts in quotes.
fn is_all_plain(bytes: &[u8]) -> bool
    ensures { result ≡ list_all spec.is_plain bytes.now }
{
    for byte in bytes {
        if !is_plain(*byte) {
            return false;
        }
    }
    true
}

/// Returns whether a `=` is among the bytes.
fn has_equals(bytes: &[u8]) -> bool
    ensures { result ≡ list_any spec.is_equals bytes.now }
{
    for byte in bytes {
        if *byte == b'=' {
            return true;
        }
    }
    false
}

/// Returns the number of bytes of the backtick, or of the character from U+2000 to U+203F (such as a curly quote), with
/// which the bytes begin, otherwise 0.
fn mark_width(bytes: &[u8]) -> usize
    ensures { result ≡ spec.mark_width bytes.now }
{
    if byte_at(bytes, 0) == b'`' {
        1
    } else if byte_at(bytes, 0) == 0xE2 && byte_at(bytes, 1) == 0x80 {
        3
    } else {
        0
    }
}

/// Returns the bytes without those of a backtick or curly quote at both ends.
fn unquoted(bytes: &[u8]) -> &[u8]
    ensures { result.now ≡ spec.unquoted bytes.now }
{
    let width = mark_width(bytes);
    bytes_in(bytes, width, bytes.len().saturating_sub(width))
}

/// Returns whether a value can follow these bytes in its statement: there is a `=`, and the last byte that is not a
/// blank is `=`, `[`, a comma, or the end of a line.
fn begins_value(before: &[u8]) -> bool
    ensures { result ≡ spec.begins_value before.now }
{
    let last = last_solid(before);
    has_equals(before) && matches!(last, b'=' | b'[' | b',' | b'\n')
}

/// Returns whether a value can end before these bytes: after blanks, there is a comma, a closing bracket, or the end of
/// the line, or after at least one blank a comment.
fn ends_value(after: &[u8]) -> bool
    ensures { result ≡ spec.ends_value after.now }
{
    let first = first_solid(after);
    matches!(first, b',' | b']' | b'}' | b'\n' | b'\r')
        || (first == b'#' && byte_at(after, 0) != b'#')
}

/// Returns whether the two slices have the same bytes.
fn is_same(bytes: &[u8], others: &[u8]) -> bool
    ensures { result ≡ bytes_eq bytes.now others.now }
{
    bytes == others
}

/// Returns whether `new` is `old` in double quotes, in place of backticks or curly quotes if it has some.
fn is_quoted(old: &[u8], new: &[u8]) -> bool
    ensures { result ≡ spec.is_quoted old.now new.now }
{
    let last = new.len().saturating_sub(1);
    last > 0
        && byte_at(new, 0) == b'"'
        && byte_at(new, last) == b'"'
        && is_same(bytes_in(new, 1, last), unquoted(old))
}

/// Returns whether the quotes that `new` adds in place of `span` in a statement enclose a whole value.
pub fn quotes_value(statement: &str, span: Span, new: &str) -> bool
    ensures { result ≡ spec.quotes_value statement.now span new.now }
{
    let Span { start, end } = span;
    let bytes = statement.as_bytes();
    let old = bytes_in(bytes, start, end);
    let new = new.as_bytes();
    quotes(new) <= quotes(old)
        || (is_quoted(old, new)
            && is_all_plain(old)
            && begins_value(bytes_in(bytes, 0, start))
            && ends_value(bytes_in(bytes, end, bytes.len())))
}
