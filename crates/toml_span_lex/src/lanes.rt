//! Tests sixteen bytes at once, with vector instructions.
ghost use Rattle.std.specs.Prelude.{◌≡◌, ◌&&◌, ◌==◌, not};
ghost use Rattle.toml_span_lex.specs.Bytes.{backslash, is_keylike, is_printed};
ghost use Rattle.toml_span_lex.specs.Pieces.{is_plain};
ghost use Rattle.toml_span_lex.specs.code.Lanes.{marked};

use std::simd::prelude::*;

/// Returns a bit mask. Bit `k`, counted from the lowest, is set if byte `k` may not occur in a bare key.
#[inline(always)]
pub(crate) fn marked_in_keys(bytes: u8x16) -> u64
    ensures { result ≡ marked (λ b. not (is_keylike b)) bytes }
{
    let small = bytes | u8x16::splat(0x20);
    let letter = (small - u8x16::splat(b'a')).simd_lt(u8x16::splat(26));
    let digit = (bytes - u8x16::splat(b'0')).simd_lt(u8x16::splat(10));
    let keylike = letter
        | digit
        | bytes.simd_eq(u8x16::splat(b'-'))
        | bytes.simd_eq(u8x16::splat(b'_'));
    (!keylike).to_bitmask()
}

/// Returns a bit mask. Bit `k`, counted from the lowest, is set if byte `k` may not occur in a comment.
#[inline(always)]
pub(crate) fn marked_in_comments(bytes: u8x16) -> u64
    ensures { result ≡ marked (λ b. not (is_printed b)) bytes }
{
    let control = bytes.simd_lt(u8x16::splat(0x20)) & bytes.simd_ne(u8x16::splat(b'\t'));
    (control | bytes.simd_eq(u8x16::splat(0x7F))).to_bitmask()
}

/// Returns a bit mask. Bit `k`, counted from the lowest, is set if byte `k` may not occur unescaped in a single-line
/// string quoted with `quote`.
#[inline(always)]
pub(crate) fn marked_in_strings(quote: u8, bytes: u8x16) -> u64
    ensures { result ≡ marked (λ b. not (is_plain quote b)) bytes }
{
    let escape = if quote == b'"' { b'\\' } else { quote };
    let control = bytes.simd_lt(u8x16::splat(0x20)) & bytes.simd_ne(u8x16::splat(b'\t'));
    let unprinted = control | bytes.simd_eq(u8x16::splat(0x7F));
    let special = bytes.simd_eq(u8x16::splat(quote)) | bytes.simd_eq(u8x16::splat(escape));
    (unprinted | special).to_bitmask()
}
