//! Writes keys and strings as TOML.
ghost use Rattle.std.specs.Prelude.{◌≡◌, ◌<◌, ◌++◌, IfOk, OnOk, string_bytes, encode_utf8};
ghost use Rattle.std.specs.Char.{digit_char};
ghost use Rattle.std.specs.List.{list_all, list_any};
ghost use Rattle.std.specs.Str.{chars};
ghost use Rattle.toml_span_lex.specs.Bytes.{is_keylike as is_keylike_byte};
ghost use Rattle.toml_span_read.specs.Again.{ReadsAsString, ReadsAsKey};
ghost use Rattle.toml_span_places.specs.Quoted as spec;

use std::alloc::{AllocError, Global};
use toml_span_lex::bytes::is_keylike;

/// Returns the letter of the short escape that `c` has in TOML 1.0, such as `n` for a line feed. Returns `None` if `c`
/// has no such escape, and for a tab, which needs no escape.
fn letter_of(c: char) -> Option<char>
    ensures { result ≡ spec.letter_of c }
{
    match c {
        '"' | '\\' => Some(c),
        '\u{8}' => Some('b'),
        '\n' => Some('n'),
        '\u{c}' => Some('f'),
        '\r' => Some('r'),
        _ => None,
    }
}

/// Returns whether `c` is a control character other than a tab. Those from U+0080 to U+009F may be written without an
/// escape, but terminals act on them.
fn is_control(c: char) -> bool
    ensures { result ≡ spec.is_control c }
{
    (c < ' ' && c != '\t') || ('\u{7f}'..='\u{9f}').contains(&c)
}

/// Appends `digit` to `out` as a lower-case hexadecimal digit.
fn push_digit(out: &mut String, digit: u32) -> Result<(), AllocError>
    requires { digit < 16 }
    ensures { OnOk result (string_bytes out.new ≡ string_bytes out.old ++ encode_utf8 (digit_char digit)) }
{
    out.push(char::from_digit(digit, 16).unwrap_or('0'))
}

/// Appends the escape `\u00HH` of `c` to `out`.
fn push_number(out: &mut String, c: char) -> Result<(), AllocError>
    requires { c < 256 }
    ensures { OnOk result (string_bytes out.new ≡ string_bytes out.old ++ spec.number_escape c) }
{
    out.push_str("\\u00")?;
    push_digit(out, c as u32 / 16)?;
    push_digit(out, c as u32 % 16)
}

/// Appends a backslash and `letter` to `out`.
fn push_letter(out: &mut String, letter: char) -> Result<(), AllocError>
    ensures { OnOk result (string_bytes out.new ≡ string_bytes out.old ++ spec.letter_escape letter) }
{
    out.push('\\')?;
    out.push(letter)
}

/// Appends `c` to `out` as it is written in a basic string.
fn push_char(out: &mut String, c: char) -> Result<(), AllocError>
    ensures { OnOk result (string_bytes out.new ≡ string_bytes out.old ++ spec.basic_char c) }
{
    match letter_of(c) {
        Some(letter) => push_letter(out, letter),
        None if is_control(c) => push_number(out, c),
        None => out.push(c),
    }
}

/// Appends `text` to `out` as it is written in a basic string, without the quotes.
fn push_basic(out: &mut String, text: &str) -> Result<(), AllocError>
    ensures { OnOk result (string_bytes out.new ≡ string_bytes out.old ++ spec.basic text.now) }
{
    for c in text.chars() {
        push_char(out, c)?;
    }
    Ok(())
}

/// Returns whether `byte` is a quotation mark or a backslash, which must be escaped in a basic string.
fn is_escaped(byte: u8) -> bool
    ensures { result ≡ spec.is_escaped byte }
{
    byte == b'"' || byte == b'\\'
}

/// Returns whether `c` is an apostrophe or a control character other than a tab, which is not written in a literal
/// string.
fn is_unliteral(c: char) -> bool
    ensures { result ≡ spec.is_unliteral c }
{
    c == '\'' || is_control(c)
}

/// Returns whether any of `bytes` is a quotation mark or a backslash.
fn has_escaped(bytes: &[u8]) -> bool
    ensures { result ≡ list_any spec.is_escaped bytes.now }
{
    bytes.iter().any(|byte| is_escaped(*byte))
}

/// Returns whether any character of `text` is not written in a literal string (see `is_unliteral`).
fn has_unliteral(text: &str) -> bool
    ensures { result ≡ list_any spec.is_unliteral (chars text.now) }
{
    text.chars().any(|c| is_unliteral(c))
}

/// Returns whether `text` can be written as a literal string, and is then shorter than as a basic string.
fn is_literal(text: &str) -> bool
    ensures { result ≡ spec.is_literal text.now }
{
    has_escaped(text.as_bytes()) && !has_unliteral(text)
}

/// Returns `text` as a basic string or, if that is possible and shorter, as a literal string.
fn spelled_string(alloc: Global, text: &str) -> Result<String, AllocError>
    ensures { IfOk result (λ out. string_bytes out ≡ spec.quoted text.now) }
{
    let mut out = String::new(alloc);
    if is_literal(text) {
        out.push_str("'")?;
        out.push_str(text)?;
        out.push_str("'")?;
    } else {
        out.push_str("\"")?;
        push_basic(&mut out, text)?;
        out.push_str("\"")?;
    }
    Ok(out)
}

/// Returns a TOML string whose value is `text`: a basic string or, if that is possible and shorter, a literal string.
/// Only quotation marks, backslashes and control characters are escaped, with escapes of TOML 1.0.
///
/// Where a string may begin in a document, the result is read as a string with the value `text`, unless the bytes after
/// the result continue it (see `may_follow` in `toml_span_read`). Fails if an allocation fails.
///
/// `basic-string = quotation-mark *basic-char quotation-mark`, `literal-string = apostrophe *literal-char apostrophe`
/// (TOML 1.1, String)
pub fn quote_string(alloc: Global, text: &str) -> Result<String, AllocError>
    ensures spelling { IfOk result (λ out. string_bytes out ≡ spec.quoted text.now) }
    ensures reads { IfOk result (λ out. ReadsAsString text.now (string_bytes out)) }
{
    spelled_string(alloc, text)
}

/// Returns whether all of `bytes` may occur in a bare key.
fn all_keylike(bytes: &[u8]) -> bool
    ensures { result ≡ list_all is_keylike_byte bytes.now }
{
    bytes.iter().all(|byte| is_keylike(*byte))
}

/// Returns whether `name` can be written as a bare key.
fn is_bare(name: &str) -> bool
    ensures { result ≡ spec.is_bare name.now }
{
    !name.is_empty() && all_keylike(name.as_bytes())
}

/// Returns `name` as a bare key if possible, otherwise as a string.
fn spelled_key(alloc: Global, name: &str) -> Result<String, AllocError>
    ensures { IfOk result (λ out. string_bytes out ≡ spec.key_text name.now) }
{
    if is_bare(name) {
        String::from_str(alloc, name)
    } else {
        spelled_string(alloc, name)
    }
}

/// Returns the shortest TOML key that spells `name`: `name` itself if it is not empty and consists of ASCII letters,
/// digits, `-` and `_`, otherwise a string.
///
/// Where a key may begin in a document, the result is read as one simple key with the name `name`, unless the bytes
/// after the result continue it (see `may_follow` in `toml_span_read`). Fails if an allocation fails.
///
/// `simple-key = quoted-key / unquoted-key` (TOML 1.1, Keys)
pub fn quote_key(alloc: Global, name: &str) -> Result<String, AllocError>
    ensures spelling { IfOk result (λ out. string_bytes out ≡ spec.key_text name.now) }
    ensures reads { IfOk result (λ out. ReadsAsKey name.now (string_bytes out)) }
{
    spelled_key(alloc, name)
}
