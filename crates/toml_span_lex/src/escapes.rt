//! Escapes in basic strings (TOML 1.1, "String").
ghost use Rattle.std.specs.Prelude.{◌≡◌, ◌≤◌, ◌<◌, length, slice_index};
ghost use Rattle.std.specs.Str.{IsCharBoundary};
ghost use Rattle.toml_span_lex.specs.Escapes as spec;
ghost use Rattle.toml_span_lex.specs.code.Escapes as code;
ghost use Rattle.toml_span_lex.specs.code.Text.{LeadsTo};

use crate::text::char_at;
use crate::tokens::Error;

/// Reads the `len` hexadecimal digits of the escape whose letter is at the byte offset `at`. Returns the character that
/// the digits spell, with the offset after the digits: `%x78 2HEXDIG / %x75 4HEXDIG / %x55 8HEXDIG`.
///
/// Fails with the error, and the offset up to which the escape was read. `start` is the offset of the string's opening
/// quote, for the error `UnterminatedString`.
fn hex_escape(
    text: &str,
    start: usize,
    at: usize,
    len: usize,
) -> Result<(char, usize), (Error, usize)>
    requires within { at < length text.now }
    requires ascii { slice_index text.now at < 128 }
    requires few { len ≤ 8 }
    ensures hex { code.HexGives start text.now at len result }
    ensures boundary { LeadsTo (λ j. IsCharBoundary text.now j) result }
{
    let bytes = text.as_bytes();
    let mut value: u32 = 0;
    for k in 0..len {
        if at + 1 + k == bytes.len() {
            return Err((Error::UnterminatedString(start), bytes.len()));
        }
        match char::from(bytes[at + 1 + k]).to_digit(16) {
            Some(digit) => value = value * 16 + digit,
            None => {
                let (c, next) = char_at(text, at + 1 + k);
                return Err((Error::InvalidHexEscape(at + 1 + k, c), next));
            }
        }
    }
    match char::from_u32(value) {
        Some(c) => Ok((c, at + 1 + len)),
        None => Err((Error::InvalidEscapeValue(at, len, value), at + 1 + len)),
    }
}

/// Returns the character that a backslash and this letter represent, or `None` if the letter needs digits or may not
/// follow a backslash: `escape-seq-char = %x22 / %x5C / %x62 / %x66 / %x6E / %x72 / %x74 / %x65`.
#[inline]
fn simple_escape(letter: u8) -> Option<char>
    ensures { result ≡ spec.simple_escape letter }
{
    match letter {
        b'"' => Some('"'),
        b'\\' => Some('\\'),
        b'b' => Some('\u{8}'),
        b'f' => Some('\u{c}'),
        b'n' => Some('\n'),
        b'r' => Some('\r'),
        b't' => Some('\t'),
        b'e' => Some('\u{1b}'),
        _ => None,
    }
}

/// Returns how many hexadecimal digits must follow a backslash and this letter: 2 for `x`, 4 for `u`, 8 for `U`,
/// otherwise 0 (`escape-seq-char =/ %x78 2HEXDIG / %x75 4HEXDIG / %x55 8HEXDIG`).
#[inline]
fn hex_len(letter: u8) -> usize
    ensures { result ≡ spec.hex_len letter }
{
    match letter {
        b'x' => 2,
        b'u' => 4,
        b'U' => 8,
        _ => 0,
    }
}

/// Reads the escape whose letter, after the backslash, is at the byte offset `at`: `escaped = escape escape-seq-char`.
/// Returns the character, with the offset after the escape.
///
/// Fails with the error, and the offset up to which the escape was read. `start` is the offset of the string's opening
/// quote, for the error `UnterminatedString`.
pub(crate) fn escape(text: &str, start: usize, at: usize) -> Result<(char, usize), (Error, usize)>
    requires { IsCharBoundary text.now at }
    ensures escape { code.EscapeGives start text.now at result }
    ensures boundary { LeadsTo (λ j. IsCharBoundary text.now j) result }
{
    let bytes = text.as_bytes();
    if at == bytes.len() {
        return Err((Error::UnterminatedString(start), at));
    }
    let letter = bytes[at];
    if let Some(c) = simple_escape(letter) {
        return Ok((c, at + 1));
    }
    let len = hex_len(letter);
    if len > 0 {
        hex_escape(text, start, at, len)
    } else {
        let (c, next) = char_at(text, at);
        Err((Error::InvalidEscape(at, c), next))
    }
}
