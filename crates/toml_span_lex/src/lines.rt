//! Lines and columns of offsets.
ghost use Rattle.std.specs.Prelude.{◌≡◌, ◌+◌, ◌≤◌, ℕ, length, min};
ghost use Rattle.toml_span_lex.specs.Lines as spec;

use crate::span::Span;

/// Returns the line and the column of the byte offset `at`, both counted from 0. The line is the number of line feeds
/// before `at`. The column is the number of bytes from the start of that line to `at`. `at` must be at most the length
/// of the text.
pub fn line_info(text: &str, at: usize) -> (usize, usize)
    requires { at ≤ length text.now }
    ensures { result ≡ spec.line_info text.now at }
{
    let bytes = text.as_bytes();
    let mut line = 0;
    let mut start = 0;
    for i in 0..at {
        if bytes[i] == b'\n' {
            line += 1;
            start = i + 1;
        }
    }
    (line, at - start)
}

/// Returns the line and the column of `span.start`, both counted from 1, the column in bytes. If `span.start` is after
/// the end of the text, returns the line and the column of the end.
///
/// `toml_span::Error::line_info` counts both from 0. `toml_span_report::line_column` counts columns in characters.
pub fn line_and_byte(text: &str, span: Span) -> (usize, usize)
    ensures { let place = spec.line_info text.now (min span.start (length text.now)) in
        result ≡ (place.0 + 1, place.1 + 1) }
{
    let (line, byte) = line_info(text, span.start.min(text.len()));
    (line + 1, byte + 1)
}
