//! The characters and line ends of a text. CRLF counts as one character.
ghost use Rattle.std.specs.Prelude.{◌≡◌, ◌<◌, ◌≤◌, length, IfSome};
ghost use Rattle.std.specs.Str.{IsCharBoundary};
ghost use Rattle.toml_span_lex.specs.Text as spec;
ghost use Rattle.toml_span_lex.specs.code.Text as code;
ghost use Rattle.toml_span_lex.specs.Text.{CharAt};

/// Returns the character at the byte offset `at`, with the offset after it. CRLF counts as the single character `'\n'`.
/// `at` must be a character boundary before the end of the text.
pub fn char_at(text: &str, at: usize) -> (char, usize)
    requires boundary { IsCharBoundary text.now at }
    requires within { at < length text.now }
    ensures char { CharAt text.now at result.0 result.1 }
    ensures boundary { IsCharBoundary text.now result.1 }
{
    let bytes = text.as_bytes();
    let byte = bytes[at];
    if is_crlf(bytes, at) {
        ('\n', at + 2)
    } else if byte < 128 {
        (char::from(byte), at + 1)
    } else {
        match text[at..].chars().next() {
            Some(c) => (c, at + c.len_utf8()),
            None => unreachable!(),
        }
    }
}

/// Returns whether a CRLF begins at the byte offset `at`, which must be less than the length of `bytes`.
#[inline]
pub fn is_crlf(bytes: &[u8], at: usize) -> bool
    requires { at < length bytes.now }
    ensures { result ≡ spec.is_crlf bytes.now at }
{
    bytes[at] == b'\r' && at + 1 < bytes.len() && bytes[at + 1] == b'\n'
}

/// Returns the offset after the line end (`newline = %x0A / %x0D.0A`) at the byte offset `at`, or `None` if no line end
/// begins there. `at` must be at most the length of the text.
#[inline]
#[tactic(auto, using(crate::proofs::Runs::after_line))]
pub fn line_end(text: &str, at: usize) -> Option<usize>
    requires { at ≤ length text.now }
    ensures line_end { code.LineEndGives text.now at result }
    ensures boundary { IfSome result (λ j. IsCharBoundary text.now j) }
{
    let bytes = text.as_bytes();
    if at == bytes.len() {
        None
    } else if bytes[at] == b'\n' {
        Some(at + 1)
    } else if is_crlf(bytes, at) {
        Some(at + 2)
    } else {
        None
    }
}
