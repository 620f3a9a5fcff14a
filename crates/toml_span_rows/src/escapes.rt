//! Decodes the texts of rows, in which a backslash begins an escape.
//!
//! Escapes are `\n` `\r` `\t` `\\`, `\u{HEX}` for the character with this code point, and `\{N PART\}` for N copies of
//! PART, which may contain the other escapes.
use std::alloc::{AllocError, Global};

/// Decodes the escape whose backslash is before `piece`. Returns the character and the rest of `piece`, or `None` if
/// the escape is not valid. An empty `piece` is an escaped backslash.
fn escaped(piece: &str) -> Option<(char, &str)> {
    let mut chars = piece.chars();
    let Some(first) = chars.next() else {
        return Some(('\\', piece));
    };
    let rest = chars.as_str();
    match first {
        'n' => Some(('\n', rest)),
        'r' => Some(('\r', rest)),
        't' => Some(('\t', rest)),
        'u' => {
            let (digits, after) = rest.strip_prefix('{')?.split_once('}')?;
            let number = u32::from_str_radix(digits, 16).ok()?;
            Some((char::from_u32(number)?, after))
        }
        _ => None,
    }
}

/// Replaces the end of `text`, from the offset `start` on, with `times` copies of this end.
fn repeat(alloc: Global, times: usize, start: usize, text: &mut String) -> Result<(), AllocError> {
    let part = String::from_str(alloc, text.as_str().get(start..).unwrap_or(""))?;
    if times == 0 {
        *text = String::from_str(alloc, text.as_str().get(..start).unwrap_or(""))?;
    }
    for _ in 1..times {
        text.push_str(part.as_str())?;
    }
    Ok(())
}

/// Decodes `source`, a row's text with escapes, and appends the result to `text`. Returns whether all escapes are
/// valid. If not, it is unspecified what is appended.
pub fn push_text(alloc: Global, source: &str, text: &mut String) -> Result<bool, AllocError> {
    // The number of copies of the part to repeat, and the offset in `text` at which the part starts.
    let mut part = (1, 0);
    // Whether the backslash before the next piece begins an escape. It does not if the last piece is an escape and
    // empty: the two backslashes around that piece are then one escape.
    let mut after = false;
    for piece in source.split('\\') {
        if !after {
            text.push_str(piece)?;
        } else if let Some(rest) = piece.strip_prefix('{') {
            let (digits, front) = rest.split_once(' ').unwrap_or((rest, ""));
            let Ok(times) = digits.parse::<usize>() else {
                return Ok(false);
            };
            part = (times, text.len());
            text.push_str(front)?;
        } else if let Some(rest) = piece.strip_prefix('}') {
            repeat(alloc, part.0, part.1, text)?;
            text.push_str(rest)?;
        } else {
            let Some((c, rest)) = escaped(piece) else {
                return Ok(false);
            };
            text.push(c)?;
            text.push_str(rest)?;
        }
        after = !after || !piece.is_empty();
    }
    Ok(after)
}

/// Decodes the words of a row, which are separated by spaces, and appends them to `found`. `""` is the empty word.
/// Returns whether all escapes are valid.
pub fn push_words(alloc: Global, words: &str, found: &mut Vec<String>) -> Result<bool, AllocError> {
    if words.is_empty() {
        return Ok(true);
    }
    for word in words.split(' ') {
        let mut text = String::new(alloc);
        if word != "\"\"" && !push_text(alloc, word, &mut text)? {
            return Ok(false);
        }
        found.push(text)?;
    }
    Ok(true)
}
