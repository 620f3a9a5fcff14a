//! Mistakes in strings and quoted keys: missing or wrong quotes, and invalid characters and escapes. The module
//! `mistakes` says what the functions take and return.

use crate::bytes::{
    Class, ahead, are_all, begins, byte_at, end_of, first_of_line, last_of_line, part, start_of,
};
use crate::finding::{Finding, marked, mended, pieces, replaced, span_of};
use crate::scan::{is_long, open_before};
use crate::words::{
    BACKSLASH, BACKSLASH_IN_LONG, CONTINUED, CONTROL, CONTROL_IN_LITERAL, LONG_KEY, NO_CHARACTER,
    OPEN_KEY, OPEN_LITERAL, OPEN_LONG, OPEN_LONG_LITERAL, OPEN_STRING, QUOTE_IN_STRING,
    SHORT_ESCAPE, SURROGATE,
};

/// Returns the finding for a single-line string that is not closed. Its opening quote is at `quote`, and its line ends
/// at `end`. A string at the start of a line, outside brackets, is treated as a key (`open_key`).
fn open_string<'a>(text: &'a str, quote: usize, end: usize) -> Finding<'a> {
    if first_of_line(text, quote) == quote && open_before(text, quote).depth == 0 {
        return open_key(text, quote, end);
    }
    let mistake = if byte_at(text, quote) == b'"' {
        OPEN_STRING
    } else {
        OPEN_LITERAL
    };
    marked(mistake, quote, end)
}

/// Returns the finding for a quoted key that is not closed. Its opening quote is at `quote`, and its line ends at
/// `end`.
fn open_key<'a>(text: &'a str, quote: usize, end: usize) -> Finding<'a> {
    let equals = end_of(Class::Left, text, quote);
    let key_end = start_of(Class::Blank, text, equals);
    let first = part(text, quote, ahead(text, quote, 1));
    if byte_at(text, equals) != b'=' {
        return marked(OPEN_KEY, quote, end);
    }
    let code = pieces(part(text, quote, key_end), first, part(text, key_end, end));
    replaced(OPEN_KEY, quote, end, code)
}

/// Returns the two hexadecimal digits of a byte that is below 32, or is 127. Returns an empty string for any other
/// byte.
fn hex_of(byte: u8) -> &'static str {
    if byte == 127 {
        "7f"
    } else {
        let at = (byte as usize).saturating_mul(2);
        part(
            "000102030405060708090a0b0c0d0e0f101112131415161718191a1b1c1d1e1f",
            at,
            at.saturating_add(2),
        )
    }
}

/// Returns the finding for the control character at `at`, in the string that begins at `quote`.
fn control<'a>(text: &'a str, at: usize, quote: usize) -> Finding<'a> {
    let end = ahead(text, at, 1);
    if byte_at(text, quote) == b'"' {
        let code = pieces("\\u00", hex_of(byte_at(text, at)), "");
        replaced(CONTROL, at, end, code)
    } else {
        marked(CONTROL_IN_LITERAL, at, end)
    }
}

/// Returns the finding for the character `c` at `at`, which is not allowed in the string that contains `at`. For a line
/// end in a single-line string, the finding is that the string is not closed.
pub(crate) fn character<'a>(text: &'a str, at: usize, c: char) -> Finding<'a> {
    let state = open_before(text, at);
    let is_return = c == '\r' && begins(text, at, b"\r\n");
    if (c == '\n' || is_return) && !state.is_long {
        open_string(text, state.string, at)
    } else {
        control(text, at, state.string)
    }
}

/// Returns the finding for the backslash at `at`, which does not begin an escape. The finding marks `at..end`.
fn backslash<'a>(text: &'a str, at: usize, end: usize) -> Finding<'a> {
    let quote = open_before(text, at).string;
    let content = ahead(text, quote, 1);
    let close = end_of(Class::Unquoted, text, content);
    if is_long(text, quote) {
        return marked(BACKSLASH_IN_LONG, at, end);
    }
    if byte_at(text, close) != b'"' {
        return marked(BACKSLASH, at, end);
    }
    let code = pieces("'", part(text, content, close), "'");
    mended(
        BACKSLASH,
        span_of(at, end),
        span_of(quote, ahead(text, close, 1)),
        code,
    )
}

/// Returns the finding for a backslash that does not begin an escape. The character after the backslash is at `at`. A
/// backslash at the end of a line belongs to a string of several lines.
pub(crate) fn escape<'a>(text: &'a str, at: usize) -> Finding<'a> {
    let start = at.saturating_sub(1);
    if matches!(byte_at(text, at), b'\n' | b'\r') {
        marked(CONTINUED, start, at)
    } else {
        backslash(text, start, ahead(text, at, 1))
    }
}

/// Returns the zeros that an escape with this letter and `count` digits lacks. An escape needs eight digits after `U`,
/// four after `u`, and two after any other letter.
fn zeros_of<'a>(letter: u8, count: usize) -> &'a str {
    let wanted: usize = match letter {
        b'U' => 8,
        b'u' => 4,
        _ => 2,
    };
    part("00000000", 0, wanted.saturating_sub(count))
}

/// Returns a label that says how many digits an escape with this letter needs.
fn digits_after(letter: u8) -> &'static str {
    match letter {
        b'U' => "`\\U` needs eight hexadecimal digits",
        b'u' => "`\\u` needs four hexadecimal digits",
        _ => "`\\x` needs two hexadecimal digits",
    }
}

/// Returns the finding for an escape with too few digits. A hexadecimal digit is expected at `at`.
pub(crate) fn hex_escape<'a>(text: &'a str, at: usize) -> Finding<'a> {
    let digits = start_of(Class::Hex, text, at);
    let start = digits.saturating_sub(2);
    let letter = byte_at(text, digits.saturating_sub(1));
    if digits == at || byte_at(text, start) != b'\\' {
        let mut found = backslash(text, start, ahead(text, at, 1));
        found.label = pieces(digits_after(letter), "", "");
        return found;
    }
    let zeros = zeros_of(letter, at.saturating_sub(digits));
    let code = pieces(part(text, start, digits), zeros, part(text, digits, at));
    let mut found = replaced(SHORT_ESCAPE, start, at, code);
    found.label = pieces(digits_after(letter), "", "");
    found
}

/// Returns the finding for an escape whose digits spell `value`, which is not the code point of a character. The letter
/// of the escape is at `at`.
pub(crate) fn escape_value<'a>(text: &'a str, at: usize, value: u32) -> Finding<'a> {
    let start = at.saturating_sub(1);
    let length = if byte_at(text, at) == b'U' { 9 } else { 5 };
    let mistake = if value < 0xE000 {
        SURROGATE
    } else {
        NO_CHARACTER
    };
    marked(mistake, start, ahead(text, at, length))
}

/// Returns the finding for the string that begins at `at`, and is not closed before the end of the text.
pub(crate) fn unterminated<'a>(text: &'a str, at: usize) -> Finding<'a> {
    if begins(text, at, b"\"\"\"") {
        marked(OPEN_LONG, at, ahead(text, at, 3))
    } else if begins(text, at, b"'''") {
        marked(OPEN_LONG_LITERAL, at, ahead(text, at, 3))
    } else {
        open_string(text, at, end_of(Class::Line, text, at))
    }
}

/// Returns the finding for the multi-line string at `at`, which is written as a key.
pub(crate) fn long_key<'a>(text: &'a str, at: usize) -> Finding<'a> {
    marked(LONG_KEY, at, ahead(text, at, 3))
}

/// Returns the other quote for a string that begins with three quotes, or with one (`is_long`), of the kind of `quote`.
fn other_quote(quote: u8, is_long: bool) -> &'static str {
    match (quote, is_long) {
        (b'"', false) => "'",
        (b'"', true) => "'''",
        (_, false) => "\"",
        (_, true) => "\"\"\"",
    }
}

/// Recognizes a string that contains the quote that ends it, as in `a = "b "c" d"`. The string ends too early, before
/// the token at `at`.
pub(crate) fn quote_in_string<'a>(text: &'a str, at: usize) -> Option<Finding<'a>> {
    let equals = end_of(Class::Left, text, first_of_line(text, at));
    let open = end_of(Class::Blank, text, ahead(text, equals, 1));
    let end = last_of_line(text, at);
    let quote = byte_at(text, open);
    let width = if is_long(text, open) { 3 } else { 1 };
    let close = end.saturating_sub(width);
    let content = ahead(text, open, width);
    let is_open = matches!(quote, b'"' | b'\'')
        && begins(text, close, part(text, open, content).as_bytes())
        && at <= close;
    let class = if quote == b'"' {
        Class::WithoutSingle
    } else {
        Class::WithoutDouble
    };
    if is_open
        && are_all(class, text, content, close)
        && are_all(Class::Unescaped, text, content, close)
    {
        let code = pieces(
            other_quote(quote, width == 3),
            part(text, content, close),
            other_quote(quote, width == 3),
        );
        Some(replaced(QUOTE_IN_STRING, open, end, code))
    } else {
        None
    }
}
