//! Command-line arguments and file names as text, even if they are not valid UTF-8.
ghost use Rattle.std.specs.Prelude.{◌≡◌, ◌<◌, ◌++◌, IfOk, OnOk, encode_utf8, string_bytes};
ghost use Rattle.std.specs.Char.{digit_char};
ghost use Rattle.toml_span_check.specs.Words as spec;

use std::alloc::{AllocError, Global};

/// Appends a hexadecimal digit in lower case.
fn push_digit(text: &mut String, digit: u8) -> Result<(), AllocError>
    requires { digit < 16 }
    ensures { OnOk result (string_bytes text.new ≡ string_bytes text.old ++ encode_utf8 (digit_char digit)) }
{
    text.push(char::from_digit(digit as u32, 16).unwrap_or('0'))
}

/// Appends a byte of an argument: an ASCII byte as it is, any other byte as NUL, `x` and two hexadecimal digits.
fn push_byte(text: &mut String, byte: u8) -> Result<(), AllocError>
    ensures { OnOk result (string_bytes text.new ≡ string_bytes text.old ++ spec.word_byte byte) }
{
    if byte < 128 {
        return text.push(byte as char);
    }
    text.push_str("\0x")?;
    push_digit(text, byte / 16)?;
    push_digit(text, byte % 16)
}

/// Returns the bytes of an argument as text: ASCII bytes as they are, any other byte as NUL, `x` and two hexadecimal
/// digits.
fn bytes_text(alloc: Global, word: &[u8]) -> Result<String, AllocError>
    ensures { IfOk result (λ text. string_bytes text ≡ spec.bytes_text word.now) }
{
    let mut text = String::new(alloc);
    for byte in word {
        push_byte(&mut text, *byte)?;
    }
    Ok(text)
}

/// Returns an argument as text. If `word` is not valid UTF-8, each byte that is not ASCII becomes NUL, `x` and two
/// hexadecimal digits. The result is unambiguous, because arguments and file names do not contain NUL. Fails if an
/// allocation fails.
pub fn word_text(alloc: Global, word: &[u8]) -> Result<String, AllocError>
    ensures { IfOk result (λ text. string_bytes text ≡ spec.word_text word.now) }
{
    match str::from_utf8(word) {
        Ok(text) => String::from_str(alloc, text),
        Err(_) => bytes_text(alloc, word),
    }
}

/// Returns whether `word_text` made `text` from an argument that is not valid UTF-8.
pub fn is_bytes(text: &str) -> bool
    ensures { result ≡ spec.is_bytes text.now }
{
    text.as_bytes().contains(&0)
}

/// Returns the text of an argument for display, with `\` instead of NUL, as in `\xe9`. Fails if an allocation fails.
pub fn shown_word(alloc: Global, text: &str) -> Result<String, AllocError>
    ensures { IfOk result (λ shown. string_bytes shown ≡ spec.shown_word text.now) }
{
    let mut shown = String::new(alloc);
    for c in text.chars() {
        shown.push(if c == '\0' { '\\' } else { c })?;
    }
    Ok(shown)
}
