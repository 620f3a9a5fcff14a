//! Classes of bytes, and runs of bytes of a class (TOML 1.1, "Whitespace", "Keys", "Comment"). Offsets must be
//! character boundaries.
ghost use Rattle.std.specs.Prelude.{◌≡◌, ℕ, ◌<◌, ◌==◌, ◌&&◌, not, true, length, slice_index, IsTrue};
ghost use Rattle.std.specs.Str.{IsCharBoundary};
ghost use Rattle.toml_span_lex.specs.Bytes as spec;
ghost use Rattle.toml_span_lex.specs.Bytes.{MaximalRun};

use crate::lanes::{marked_in_comments, marked_in_keys};
use std::simd::prelude::*;

/// Returns whether the byte is a space or a tab: `wschar = %x20 / %x09`.
#[inline]
pub fn is_blank(byte: u8) -> bool
    ensures { result ≡ spec.is_blank byte }
{
    byte == b' ' || byte == b'\t'
}

/// The bit that is set in `CLASS` for the bytes of bare keys.
const KEYLIKE: u8 = 1;

// For each byte, the digit `1` if the byte may occur in a bare key, otherwise `0`. In ASCII, the two digits differ in
// the bit `KEYLIKE` alone, which is set in `1`.
static CLASS: [u8; 256] = *b"\
    00000000000000000000000000000000\
    00000000000001001111111111000000\
    01111111111111111111111111100001\
    01111111111111111111111111100000\
    00000000000000000000000000000000\
    00000000000000000000000000000000\
    00000000000000000000000000000000\
    00000000000000000000000000000000";

/// Returns whether the byte may occur in a bare key: an ASCII letter, a digit, `-` or `_` (`ALPHA / DIGIT / %x2D /
/// %x5F`).
#[inline]
pub fn is_keylike(byte: u8) -> bool
    ensures { result ≡ spec.is_keylike byte }
{
    CLASS[byte as usize] & KEYLIKE != 0
}

/// Returns whether the byte may occur in a comment: a tab, or any byte except ASCII control characters (`non-eol = %x09
/// / %x20-7E / non-ascii`).
#[inline(always)]
pub fn is_printed(byte: u8) -> bool
    ensures { result ≡ spec.is_printed byte }
{
    byte == b'\t' || (byte >= 0x20 && byte != 0x7F)
}

/// Returns the offset after the run of spaces and tabs (`ws = *wschar`) that begins at the byte offset `from`, or
/// `from` itself if the run is empty.
#[inline(always)]
pub fn blanks_end(text: &str, from: usize) -> usize
    requires { IsCharBoundary text.now from }
    ensures run { MaximalRun spec.is_blank text.now from result }
    ensures boundary { IsCharBoundary text.now result }
{
    let bytes = text.as_bytes();
    for at in from..bytes.len() {
        if !is_blank(bytes[at]) {
            return at;
        }
    }
    bytes.len()
}

/// Returns the offset after the run of bare key bytes (`is_keylike`) that begins at the byte offset `from`, or `from`
/// itself if the run is empty. A run that is not empty has the form `unquoted-key = 1*( ALPHA / DIGIT / %x2D / %x5F )`.
pub fn keylike_end(text: &str, from: usize) -> usize
    requires { IsCharBoundary text.now from }
    ensures run { MaximalRun spec.is_keylike text.now from result }
    ensures boundary { IsCharBoundary text.now result }
{
    let bytes = text.as_bytes();
    let mut start = from;
    while bytes.len() - start >= 16 {
        let marked = marked_in_keys(u8x16::from_slice(&bytes[start..]));
        if marked != 0 {
            return start + marked.trailing_zeros() as usize;
        }
        start += 16;
    }
    for at in start..bytes.len() {
        if !is_keylike(bytes[at]) {
            return at;
        }
    }
    bytes.len()
}

/// Returns the offset after the run of comment bytes (`is_printed`, `*non-eol`) that begins at the byte offset `from`,
/// or `from` itself if the run is empty.
pub fn printed_end(text: &str, from: usize) -> usize
    requires { IsCharBoundary text.now from }
    ensures run { MaximalRun spec.is_printed text.now from result }
    ensures boundary { IsCharBoundary text.now result }
{
    let bytes = text.as_bytes();
    let mut start = from;
    while bytes.len() - start >= 16 {
        let marked = marked_in_comments(u8x16::from_slice(&bytes[start..]));
        if marked != 0 {
            return start + marked.trailing_zeros() as usize;
        }
        start += 16;
    }
    for at in start..bytes.len() {
        if !is_printed(bytes[at]) {
            return at;
        }
    }
    bytes.len()
}
