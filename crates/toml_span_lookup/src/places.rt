//! Finds places in JSON texts.
use json::{Reader, Scratch, Token};
use std::alloc::{AllocError, Global};

/// Returns whether a step of a JSON pointer names a key.
fn is_step(alloc: Global, key: &str, step: &str) -> Result<bool, AllocError> {
    let mut name = String::new(alloc);
    for c in key.chars() {
        match c {
            '~' => name.push_str("~0")?,
            '/' => name.push_str("~1")?,
            _ => name.push(c)?,
        }
    }
    Ok(name.as_str() == step)
}

/// Reads up to the value that a step of a JSON pointer names in the next value of `reader`. `most` is the number of
/// bytes of the text. Returns false if there is no such value.
fn enter(
    alloc: Global,
    reader: &mut Reader<'_>,
    step: &str,
    most: usize,
) -> Result<bool, AllocError> {
    let is_object = match reader.next() {
        Some(Token::BeginObject) => true,
        Some(Token::BeginArray) => false,
        _ => return Ok(false),
    };
    let index = fast_float::parse_u64(step.as_bytes()).unwrap_or(0) as usize;
    for at in 0..most {
        if is_object {
            let Ok(Some(key)) = reader.next_key() else {
                return Ok(false);
            };
            if is_step(alloc, key, step)? {
                return Ok(true);
            }
        } else if at == index {
            return Ok(true);
        }
        if reader.skip_value(128).is_err() {
            return Ok(false);
        }
    }
    Ok(false)
}

/// Returns the byte offset of the value at a JSON pointer or, if there is no such value, that of the innermost value
/// around it.
pub(crate) fn place_in(alloc: Global, text: &str, pointer: &str) -> Result<usize, AllocError> {
    let mut scratch = Scratch::new(alloc);
    let mut reader = Reader::new(text, &mut scratch)?;
    let mut at = 0;
    for step in pointer.split('/').skip(1) {
        if !enter(alloc, &mut reader, step, text.len())? {
            break;
        }
        at = reader.offset();
    }
    let bytes = text.as_bytes();
    for _ in 0..bytes.len() {
        match bytes.get(at) {
            Some(b' ' | b'\t' | b'\r' | b'\n' | b':' | b',') => at = at.saturating_add(1),
            _ => break,
        }
    }
    Ok(at)
}
