//! Escapes characters that terminals act on, and quotes texts as JSON strings. If an allocation fails, functions that
//! append to `out` may leave a part there.
ghost use Rattle.std.specs.Prelude.{◌≡◌, ◌<◌, ◌++◌, IfOk, OnOk, string_bytes, encode_utf8};
ghost use Rattle.std.specs.Char.{digit_char};
ghost use Rattle.toml_span_report.specs.Visible as spec;

use serde_json::Value as Json;
use std::alloc::{AllocError, Global};

/// Returns whether the character is a control character, ends a line, or changes the direction of the text.
fn is_escaped(c: char) -> bool
    ensures { result ≡ spec.is_escaped c }
{
    matches!(
        c as u32,
        0..=0x1F | 0x7F..=0x9F | 0x61C | 0x200E..=0x200F | 0x2028..=0x202E | 0x2066..=0x2069
    )
}

/// Appends `digit` to `out`, as a hexadecimal digit.
fn push_digit(out: &mut String, digit: u32) -> Result<(), AllocError>
    requires { digit < 16 }
    ensures { OnOk result (string_bytes out.new ≡ string_bytes out.old ++ encode_utf8 (digit_char digit)) }
{
    out.push(char::from_digit(digit, 16).unwrap_or('0'))
}

/// Appends `\u` and the four hexadecimal digits of `code`, which is below 2^16, to `out`.
fn push_code(out: &mut String, code: u32) -> Result<(), AllocError>
    requires { code < 65536 }
    ensures { OnOk result (string_bytes out.new ≡ string_bytes out.old ++ spec.unicode_escape code) }
{
    out.push_str("\\u")?;
    push_digit(out, code / 4096)?;
    push_digit(out, code / 256 % 16)?;
    push_digit(out, code / 16 % 16)?;
    push_digit(out, code % 16)
}

/// Appends `c` to `out`. A character that is a control character, ends a line, or changes the direction of the text is
/// written as an escape, such as `\u202e`. Fails if an allocation fails. `out` may then have a part of the escape.
pub fn push_char(out: &mut String, c: char) -> Result<(), AllocError>
    ensures { OnOk result (string_bytes out.new ≡ string_bytes out.old ++ spec.visible_char c) }
{
    if is_escaped(c) {
        push_code(out, c as u32)
    } else {
        out.push(c)
    }
}

/// Appends `text` to `out`, with escapes such as `\u202e` for characters that terminals act on. These are control
/// characters, characters that end a line (U+2028, U+2029), and characters that change the direction of the text. Fails
/// if an allocation fails. `out` may then have a part of the text.
pub fn push_visible(out: &mut String, text: &str) -> Result<(), AllocError>
    ensures { OnOk result (string_bytes out.new ≡ string_bytes out.old ++ spec.visible text.now) }
{
    for c in text.chars() {
        push_char(out, c)?;
    }
    Ok(())
}

/// Returns `text` with escapes, such as `\u202e`, for characters that terminals act on (`push_visible`). Fails if an
/// allocation fails.
pub fn visible(alloc: Global, text: &str) -> Result<String, AllocError>
    ensures { IfOk result (λ out. string_bytes out ≡ spec.visible text.now) }
{
    let mut out = String::new(alloc);
    push_visible(&mut out, text)?;
    Ok(out)
}

/// Appends `c` to `out` as `push_char` does, but does not escape a line feed.
fn push_line_char(out: &mut String, c: char) -> Result<(), AllocError>
    ensures { OnOk result (string_bytes out.new ≡ string_bytes out.old ++ spec.line_char c) }
{
    if c == '\n' {
        out.push(c)
    } else {
        push_char(out, c)
    }
}

/// Returns `text` with escapes for characters that terminals act on (`push_visible`), except for line feeds. Fails if
/// an allocation fails.
pub fn visible_lines(alloc: Global, text: &str) -> Result<String, AllocError>
    ensures { IfOk result (λ out. string_bytes out ≡ spec.visible_lines text.now) }
{
    let mut out = String::new(alloc);
    for c in text.chars() {
        push_line_char(&mut out, c)?;
    }
    Ok(out)
}

/// Appends `text` to `out` as a JSON string, in quotes. Characters that terminals act on (`push_visible`), such as
/// U+202E, are escaped even if JSON does not require it. Fails if an allocation fails. `out` may then have a part of
/// the string.
pub fn push_quoted(alloc: Global, out: &mut String, text: &str) -> Result<(), AllocError>
    ensures { OnOk result (string_bytes out.new ≡ string_bytes out.old ++ spec.quoted text.now) }
{
    let json = Json::String(String::from_str(alloc, text)?);
    let quoted = json.to_string(alloc)?;
    push_visible(out, quoted.as_str())
}
