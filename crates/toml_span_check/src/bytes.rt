//! Bytes at offsets that may lie beyond the end.
ghost use Rattle.std.specs.Prelude.{◌≡◌, slice_index, slice_range};

/// Returns the byte at the position `at`, or 0 after the end.
pub fn byte_at(bytes: &[u8], at: usize) -> u8
    ensures { result ≡ slice_index bytes.now at }
{
    if at < bytes.len() { bytes[at] } else { 0 }
}

/// Returns the bytes from `start` to `end`. Ignores positions after the end, and returns nothing if `end` is before
/// `start`.
pub fn bytes_in(bytes: &[u8], start: usize, end: usize) -> &[u8]
    ensures { result.now ≡ slice_range bytes.now start end }
{
    let end = end.min(bytes.len());
    if start < end { &bytes[start..end] } else { &[] }
}
