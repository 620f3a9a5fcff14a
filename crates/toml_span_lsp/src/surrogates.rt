//! Replaces lone surrogates in JSON. An editor whose texts are UTF-16 sends one if the user deletes half of a pair.
use std::alloc::{AllocError, Global};

/// The escape of U+FFFD, the replacement character.
const REPLACEMENT: &[u8; 6] = b"\\ufffd";

/// Returns the UTF-16 code unit of the escape `\uXXXX` at an offset, or `None` if there is no such escape.
fn unit_at(bytes: &[u8], at: usize) -> Option<u16> {
    let digits = bytes.get(at..)?.strip_prefix(b"\\u")?.get(..4)?;
    u16::from_str_radix(str::from_utf8(digits).ok()?, 16).ok()
}

/// Returns the number of bytes of the escape or the other byte at an offset, and whether it is the escape of a lone
/// surrogate. The escapes of a pair of surrogates count as one escape.
fn escape_at(bytes: &[u8], at: usize) -> (usize, bool) {
    let is_escape = bytes.get(at) == Some(&b'\\');
    match unit_at(bytes, at) {
        None => (if is_escape { 2 } else { 1 }, false),
        Some(0xd800..=0xdbff) => match unit_at(bytes, at.saturating_add(6)) {
            Some(0xdc00..=0xdfff) => (12, false),
            _ => (6, true),
        },
        Some(0xdc00..=0xdfff) => (6, true),
        Some(_) => (6, false),
    }
}

/// Returns a copy of `content`, which should be JSON, with the escape of U+FFFD in place of each escape of a lone
/// surrogate. So a position in UTF-16 code units keeps its meaning.
pub(crate) fn without_lone(alloc: Global, content: &[u8]) -> Result<Vec<u8>, AllocError> {
    let mut out = Vec::new(alloc);
    let mut next = 0;
    for at in 0..content.len() {
        if at >= next {
            let (count, is_lone) = escape_at(content, at);
            next = content.len().min(at.saturating_add(count));
            let kept = content.get(at..next).unwrap_or(&[]);
            out.extend_from_slice(if is_lone { REPLACEMENT } else { kept })?;
        }
    }
    Ok(out)
}
