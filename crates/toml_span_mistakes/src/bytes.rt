//! Bytes of a text at offsets that may lie beyond its end, and runs of bytes of one class. Here, each LF or CR ends a
//! line.
ghost use Rattle.std.specs.Prelude.{◌≤◌, length};

/// A class of bytes.
#[derive(Clone, Copy)]
pub(crate) enum Class {
    /// A space or a tab.
    Blank,
    /// A space, a tab, LF or CR.
    Gap,
    /// Any byte except LF and CR.
    Line,
    /// A byte of `Line`, except quotes and backticks.
    Unquoted,
    /// A byte of `Line`, except `}` and `)`.
    Enclosed,
    /// A byte of `Line`, except `=` and `#`.
    Left,
    /// A byte of an unquoted value: anything except ASCII control characters, spaces, `"`, `'`, `,`, `;`, `]` and `}`.
    Word,
    /// A byte of `Word`, except `=`, `[` and `{`.
    Atom,
    /// A byte of an unquoted value in an array or inline table, which may be several words: a byte of `Line`, except
    /// quotes, brackets of any kind, and `,`, `;`, `=` and `#`.
    Element,
    /// A byte of a plain word: a byte of `Element`, except blanks, backslashes, control characters, and the first bytes
    /// of the characters that look like blanks, quotes or other ASCII characters, among others.
    Plain,
    /// A byte that stands for itself in a string in double quotes.
    Basic,
    /// A byte that a string in single quotes can contain.
    Literal,
    /// A byte that is written before `=` in operators such as `+=`.
    Operator,
    /// A byte of an unquoted key, even if TOML does not allow it there: a byte of `Atom`, except `.`, `#` and `:`.
    Name,
    /// A byte of `Name`, or `.`.
    Dotted,
    /// A byte of `Name`, or a blank.
    Spaced,
    /// A byte of `Line`, except `.`, `[`, `]`, `"` and `'`.
    Header,
    /// A digit.
    Digit,
    /// A byte of a time: a digit, `:` or `.`.
    Clock,
    /// A digit or `_`.
    Grouped,
    /// A digit, `_` or `.`.
    Decimal,
    /// A digit, or one of `_.+-eE`.
    Number,
    /// A hexadecimal digit.
    Hex,
    /// `0`.
    Zero,
    /// Any byte except a backslash.
    Unescaped,
    /// A byte of `Line`, except `"`.
    WithoutDouble,
    /// A byte of `Line`, except `'`.
    WithoutSingle,
    /// A continuation byte of UTF-8: any byte of a character beyond ASCII except the first.
    Continuation,
    /// A byte of `Line` that does not begin a character from U+2000 to U+2FFF.
    Straight,
    /// A byte of `Line`, except `#`.
    Uncommented,
}

/// Returns whether the byte is of the class `Word`.
fn is_word(byte: u8) -> bool {
    byte > 32 && !matches!(byte, b'"' | b'\'' | b',' | b';' | b']' | b'}' | 127)
}

/// Returns whether the byte is of the class `Atom`.
fn is_atom(byte: u8) -> bool {
    is_word(byte) && !matches!(byte, b'=' | b'[' | b'{')
}

/// Returns whether the byte is of the class `Name`.
fn is_name(byte: u8) -> bool {
    is_atom(byte) && !matches!(byte, b'.' | b'#' | b':')
}

/// Returns whether the byte is of the class `Blank`.
fn is_blank(byte: u8) -> bool {
    matches!(byte, b' ' | b'\t')
}

/// Returns whether the byte is of the class `Line`.
fn is_line(byte: u8) -> bool {
    !matches!(byte, b'\n' | b'\r')
}

/// Returns whether the byte is a quote, a backtick or a bracket of any kind.
fn is_delimiter(byte: u8) -> bool {
    matches!(
        byte,
        b'"' | b'\'' | b'`' | b'(' | b')' | b'[' | b']' | b'{' | b'}'
    )
}

/// Returns whether the byte is of the class `Element`.
fn is_element(byte: u8) -> bool {
    is_line(byte) && !is_delimiter(byte) && !matches!(byte, b',' | b';' | b'=' | b'#')
}

/// Returns whether the byte is of the class `Plain`.
fn is_plain(byte: u8) -> bool {
    is_element(byte)
        && byte > 32
        && !matches!(
            byte,
            b'\\' | 127 | 0xC2 | 0xCC | 0xCD | 0xD8 | 0xE1 | 0xE2 | 0xE3 | 0xEF
        )
}

/// Returns whether a string can contain the byte: it is a tab, or no ASCII control character.
fn is_text(byte: u8) -> bool {
    byte == b'\t' || byte >= 32 && byte != 127
}

/// Returns whether the byte is of the class `Operator`.
fn is_operator(byte: u8) -> bool {
    matches!(
        byte,
        b'+' | b'-' | b'*' | b'/' | b'%' | b'?' | b'!' | b'|' | b'&' | b'^' | b'~' | b'<' | b'>'
    )
}

/// Returns whether the byte is of the class `Digit`.
fn is_digit(byte: u8) -> bool {
    matches!(byte, b'0'..=b'9')
}

/// Returns whether the byte is of the class `class`.
pub(crate) fn is_in(class: Class, byte: u8) -> bool {
    match class {
        Class::Blank => is_blank(byte),
        Class::Gap => is_blank(byte) || !is_line(byte),
        Class::Line => is_line(byte),
        Class::Unquoted => is_line(byte) && !matches!(byte, b'"' | b'\'' | b'`'),
        Class::Enclosed => is_line(byte) && !matches!(byte, b'}' | b')'),
        Class::Left => is_line(byte) && !matches!(byte, b'=' | b'#'),
        Class::Word => is_word(byte),
        Class::Atom => is_atom(byte),
        Class::Element => is_element(byte),
        Class::Plain => is_plain(byte),
        Class::Basic => is_text(byte) && !matches!(byte, b'"' | b'\\'),
        Class::Literal => is_text(byte) && byte != b'\'',
        Class::Operator => is_operator(byte),
        Class::Name => is_name(byte),
        Class::Dotted => is_name(byte) || byte == b'.',
        Class::Spaced => is_name(byte) || is_blank(byte),
        Class::Header => is_line(byte) && !matches!(byte, b'.' | b'[' | b']' | b'"' | b'\''),
        Class::Digit => is_digit(byte),
        Class::Clock => is_digit(byte) || matches!(byte, b':' | b'.'),
        Class::Grouped => is_digit(byte) || byte == b'_',
        Class::Decimal => is_digit(byte) || matches!(byte, b'_' | b'.'),
        Class::Number => {
            is_digit(byte) || matches!(byte, b'_' | b'.' | b'+' | b'-' | b'e' | b'E')
        }
        Class::Hex => is_digit(byte) || matches!(byte, b'a'..=b'f' | b'A'..=b'F'),
        Class::Zero => byte == b'0',
        Class::Unescaped => byte != b'\\',
        Class::WithoutDouble => byte != b'"' && is_line(byte),
        Class::WithoutSingle => byte != b'\'' && is_line(byte),
        Class::Continuation => matches!(byte, 0x80..=0xBF),
        Class::Straight => is_line(byte) && byte != 0xE2,
        Class::Uncommented => is_line(byte) && byte != b'#',
    }
}

/// Returns whether the byte is an ASCII letter, a digit, `_` or `-`, of which keys without quotes and the words in errors
/// (`an identifier`) consist.
pub(crate) fn is_bare(byte: u8) -> bool {
    matches!(byte, b'A'..=b'Z' | b'a'..=b'z' | b'0'..=b'9' | b'_' | b'-')
}

/// Returns the byte at the offset `at`, or 0 if `at` is at or beyond the end of the text.
pub(crate) fn byte_at(text: &str, at: usize) -> u8 {
    let bytes = text.as_bytes();
    if at < bytes.len() { bytes[at] } else { 0 }
}

/// Returns the offset `count` bytes after `at`, but at most the length of the text.
pub(crate) fn ahead(text: &str, at: usize, count: usize) -> usize {
    at.saturating_add(count).min(text.len())
}

/// Returns whether the text has the bytes `front` at the offset `at`.
pub(crate) fn begins(text: &str, at: usize, front: &[u8]) -> bool {
    let bytes = text.as_bytes();
    let (_, rest) = bytes.split_at(at.min(bytes.len()));
    rest.starts_with(front)
}

/// Returns the position of the first byte in `bytes` that is not of the class, or the length of `bytes` if all are.
fn run_of(class: Class, bytes: &[u8]) -> usize
    ensures within { result ≤ length bytes.now }
{
    for (i, byte) in bytes.iter().enumerate() {
        if !is_in(class, *byte) {
            return i;
        }
    }
    bytes.len()
}

/// Returns the offset of the first byte at or after `at` that is not of the class, or the length of the text if all
/// bytes there are of the class. Returns `at` if it is beyond the text.
pub(crate) fn end_of(class: Class, text: &str, at: usize) -> usize {
    let bytes = text.as_bytes();
    if at >= bytes.len() {
        return at;
    }
    let (_, rest) = bytes.split_at(at);
    at + run_of(class, rest)
}

/// Returns the offset after the last byte before `at` that is not of the class, or 0 if all bytes before `at` are of
/// the class. Bytes beyond the text count as 0.
pub(crate) fn start_of(class: Class, text: &str, at: usize) -> usize {
    let mut start = at;
    while start > 0 && is_in(class, byte_at(text, start - 1)) {
        start -= 1;
    }
    start
}

/// Returns the last byte before the offset `at` that is not a blank. Returns 0 if all bytes before `at` are blanks, or
/// if `at` is beyond the text.
pub(crate) fn byte_before(text: &str, at: usize) -> u8 {
    let end = start_of(Class::Blank, text, at);
    if end == 0 { 0 } else { byte_at(text, end - 1) }
}

/// Returns the first byte at or after the offset `at` that is not a blank, or 0 if all bytes there are blanks.
pub(crate) fn byte_after(text: &str, at: usize) -> u8 {
    byte_at(text, end_of(Class::Blank, text, at))
}

/// Returns the start of the line that contains the offset `at`. The first line starts after a byte order mark.
fn line_begin(text: &str, at: usize) -> usize {
    let start = start_of(Class::Line, text, at);
    if start == 0 && begins(text, 0, b"\xEF\xBB\xBF") {
        3
    } else {
        start
    }
}

/// Returns the offset of the first non-blank byte on the line that contains the offset `at`. Returns the end of the
/// line if it has only blanks. A byte order mark at the start of the text is skipped.
pub(crate) fn first_of_line(text: &str, at: usize) -> usize {
    end_of(Class::Blank, text, line_begin(text, at))
}

/// Returns the offset after the last non-blank byte on the line that contains the offset `at`, or the start of the line
/// if it has only blanks. Returns `at` if it is beyond the text.
pub(crate) fn last_of_line(text: &str, at: usize) -> usize {
    start_of(Class::Blank, text, end_of(Class::Line, text, at))
}

/// Returns whether a line end, a comment or the end of the text is at the offset `at`.
pub(crate) fn is_end(text: &str, at: usize) -> bool {
    matches!(byte_at(text, at), 0 | b'\n' | b'\r' | b'#')
}

/// Returns whether only blanks are between the offset `at` and the next line end or NUL, or the end of the text.
pub(crate) fn is_last(text: &str, at: usize) -> bool {
    matches!(byte_after(text, at), 0 | b'\n' | b'\r')
}

/// Returns whether a value can end at the offset `at`: only blanks are between `at` and a line end or NUL, `#`, `,`,
/// `;`, `]`, `}` or the end of the text.
pub(crate) fn ends_value(text: &str, at: usize) -> bool {
    is_last(text, at) || matches!(byte_after(text, at), b'#' | b',' | b';' | b']' | b'}')
}

/// Returns whether the bytes `from..to` are all of the class.
pub(crate) fn are_all(class: Class, text: &str, from: usize, to: usize) -> bool {
    to <= end_of(class, text, from)
}

/// Returns the line end to insert on the line that contains the offset `at`: the one that ends this line or, for the
/// last line of the text, the previous one.
pub(crate) fn line_break(text: &str, at: usize) -> &'static str {
    let end = end_of(Class::Line, text, at);
    let before = start_of(Class::Line, text, at).saturating_sub(2);
    if begins(text, end, b"\r\n") || end >= text.len() && begins(text, before, b"\r\n") {
        "\r\n"
    } else {
        "\n"
    }
}

/// Returns the part of the text from the offset `from` to the offset `to`. An offset inside a character, or beyond the
/// text, is moved back to the nearest character boundary. If `to` is before `from`, the part is empty.
pub(crate) fn part<'a>(text: &'a str, from: usize, to: usize) -> &'a str {
    let start = text.floor_char_boundary(from);
    let end = text.floor_char_boundary(to).max(start);
    &text[start..end]
}
