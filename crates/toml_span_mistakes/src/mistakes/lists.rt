//! Mistakes such as missing values, and arrays, inline tables and headers that are not closed. The module `mistakes`
//! says what the functions take and return.

use crate::bytes::{
    Class, ahead, begins, byte_after, byte_at, byte_before, end_of, first_of_line, is_end, is_last,
    last_of_line, part, start_of,
};
use crate::finding::{Finding, marked, mended, pieces, removed, replaced, safe_if, span_of};
use crate::mistakes::keys::{header_key, missing_key, other_sign};
use crate::mistakes::values::{unquoted, unquoted_value};
use crate::scan::{innermost, is_closed_after, is_in_header, is_long, open_before};
use crate::words::{
    ARRAY_ALONE, CLOSED_BY_BRACE, CLOSED_BY_BRACKET, EQUALS, EXTRA_CLOSING, EXTRA_COMMA,
    HASH_VALUE, LEADING_POINT, Mistake, NO_COMMA, NO_COMMA_IN_TABLE, NO_NAME,
    NO_VALUE_AFTER_EQUALS, OPEN_ARRAY, OPEN_HEADER, OPEN_TABLE, VALUE_BELOW,
};

/// Returns the finding for the innermost bracket or brace that is still open at the offset `at`.
pub(crate) fn unclosed<'a>(text: &'a str, at: usize) -> Finding<'a> {
    let bracket = innermost(text, at);
    let mistake = if byte_at(text, bracket) == b'{' {
        OPEN_TABLE
    } else {
        OPEN_ARRAY
    };
    let mut found = marked(mistake, at, at);
    found.also = span_of(bracket, ahead(text, bracket, 1));
    found
}

/// Recognizes a bracket or brace that is still open at the offset `at`.
pub(crate) fn open_end<'a>(text: &'a str, at: usize) -> Option<Finding<'a>> {
    if open_before(text, at).depth > 0 {
        Some(unclosed(text, at))
    } else {
        None
    }
}

/// Recognizes a key that ends with a dot, a header without a name, or a bracket that is not closed. At `at`, a key is
/// expected, but a line ends, a comment begins or the text ends.
pub(crate) fn unfinished_key<'a>(text: &'a str, at: usize) -> Option<Finding<'a>> {
    if byte_before(text, at) == b'.' || is_in_header(text, open_before(text, at)) {
        Some(missing_key(NO_NAME, text, at))
    } else {
        open_end(text, at)
    }
}

/// Recognizes a value that begins below the line of its key. The value is expected at `at`.
fn value_below<'a>(text: &'a str, at: usize) -> Option<Finding<'a>> {
    let below = end_of(Class::Gap, text, at);
    let end = last_of_line(text, below);
    let equals = end_of(Class::Left, text, below);
    let is_header = byte_at(text, below) == b'[' && first_of_line(text, below) == below;
    if below < end && end <= equals && !is_header && !is_long(text, below) {
        let start = first_of_line(text, at);
        let code = pieces(
            part(text, start, start_of(Class::Blank, text, at)),
            " ",
            part(text, below, end),
        );
        Some(mended(VALUE_BELOW, span_of(at, at), span_of(start, end), code))
    } else {
        None
    }
}

/// Recognizes a value that is missing after `=`, or a bracket that is not closed. A line end, a comment or the end of
/// the text is at `at`.
pub(crate) fn missing_value<'a>(text: &'a str, at: usize) -> Option<Finding<'a>> {
    if byte_before(text, at) == b'=' {
        match value_below(text, at) {
            Some(found) => Some(found),
            None => Some(marked(NO_VALUE_AFTER_EQUALS, at, at)),
        }
    } else {
        open_end(text, at)
    }
}

/// Recognizes a value of `#` and hexadecimal digits, such as a color, which is read as a comment. Any other comment at
/// `at` is passed to `missing_value`.
fn hash<'a>(text: &'a str, at: usize) -> Option<Finding<'a>> {
    let end = end_of(Class::Hex, text, ahead(text, at, 1));
    if ahead(text, at, 1) < end && end == end_of(Class::Word, text, at) {
        let quoted = pieces("\"", part(text, at, end), "\"");
        Some(replaced(HASH_VALUE, at, end, quoted))
    } else {
        missing_value(text, at)
    }
}

/// Recognizes an extra comma at `at`, where a value is expected. Returns `None` if the comma follows `=`.
fn extra_comma<'a>(text: &'a str, at: usize) -> Option<Finding<'a>> {
    if byte_before(text, at) == b'=' {
        None
    } else {
        let end = ahead(text, at, 1);
        Some(removed(EXTRA_COMMA, at, end))
    }
}

/// Recognizes a float such as `.5`, without an exponent, or a word such as `.x`. The point is at `at`, where a value is
/// expected.
fn point<'a>(text: &'a str, at: usize) -> Option<Finding<'a>> {
    let end = end_of(Class::Word, text, at);
    let digits = end_of(Class::Digit, text, ahead(text, at, 1));
    if ahead(text, at, 1) == digits {
        Some(unquoted_value(text, at))
    } else if digits == end {
        let code = pieces("0", part(text, at, end), "");
        Some(replaced(LEADING_POINT, at, end, code))
    } else {
        None
    }
}

/// Recognizes `==` between a key and its value. The second `=` is at `at`.
fn equals<'a>(text: &'a str, at: usize) -> Option<Finding<'a>> {
    let before = at.saturating_sub(1);
    if begins(text, before, b"==") {
        Some(other_sign(EQUALS, text, before, ahead(text, at, 1)))
    } else {
        None
    }
}

/// Recognizes a brace at `at`, where a value is expected, that closes an array.
fn closing_brace<'a>(text: &'a str, at: usize) -> Option<Finding<'a>> {
    if open_before(text, at).depth > 0 && byte_at(text, innermost(text, at)) == b'[' {
        Some(wrong_closing(CLOSED_BY_BRACE, text, at, "]"))
    } else {
        None
    }
}

/// Recognizes the closing bracket or brace at `at`, where a key is expected: after a dot, in a header without a name,
/// at the end of an inline table, or with nothing to close.
pub(crate) fn closing<'a>(text: &'a str, at: usize) -> Option<Finding<'a>> {
    let state = open_before(text, at);
    if byte_before(text, at) == b'.' || is_in_header(text, state) {
        Some(missing_key(NO_NAME, text, at))
    } else if state.depth == 0 {
        Some(removed(EXTRA_CLOSING, at, ahead(text, at, 1)))
    } else if byte_at(text, at) == b']' {
        Some(wrong_closing(CLOSED_BY_BRACKET, text, at, "}"))
    } else {
        None
    }
}

/// Recognizes the mistake in the token at `at`, where a value is expected.
pub(crate) fn at_value<'a>(text: &'a str, at: usize) -> Option<Finding<'a>> {
    match byte_at(text, at) {
        b',' => extra_comma(text, at),
        b'=' => equals(text, at),
        b'.' => point(text, at),
        b'#' => hash(text, at),
        b'}' => closing_brace(text, at),
        _ if is_end(text, at) => missing_value(text, at),
        _ => None,
    }
}

/// Returns the finding for a header that begins at `bracket`, and is not closed on its line. The `]` is expected at
/// `at`. The replacement is not safe for a header such as `[[bin]`, which may have too many brackets or too few, and
/// for one such as `[c#` or `[c #1]`, where `#` may be part of the name.
fn open_header<'a>(text: &'a str, at: usize, bracket: usize) -> Finding<'a> {
    let end = start_of(Class::Blank, text, at);
    let last = byte_at(text, end.saturating_sub(1));
    let closing = if begins(text, bracket, b"[[") && last != b']' {
        "]]"
    } else {
        "]"
    };
    let code = pieces(part(text, bracket, end), closing, "");
    let comment = part(text, at, last_of_line(text, at));
    let is_whole = (end < at || byte_at(text, at) != b'#') && !comment.contains(']');
    safe_if(
        replaced(OPEN_HEADER, bracket, end, code),
        last != b']' && is_whole,
    )
}

/// Recognizes the mistake in the token at `at`, where the closing bracket of a header is expected. The header begins at
/// `bracket`.
fn header<'a>(text: &'a str, at: usize, bracket: usize) -> Option<Finding<'a>> {
    if is_end(text, at) {
        Some(open_header(text, at, bracket))
    } else if byte_at(text, at) == b',' {
        Some(marked(ARRAY_ALONE, bracket, last_of_line(text, at)))
    } else {
        header_key(text, at)
    }
}

/// Returns whether a pair with an unquoted key, or with one string as its key, begins at the offset `at`.
fn is_pair(text: &str, at: usize) -> bool {
    let end = if matches!(byte_at(text, at), b'"' | b'\'') {
        ahead(text, end_of(Class::Unquoted, text, ahead(text, at, 1)), 1)
    } else {
        end_of(Class::Dotted, text, at)
    };
    at < end && byte_after(text, end) == b'='
}

/// Returns whether an assignment (`is_pair`) begins at the offset `at`, with only blanks before it on its line.
pub(crate) fn is_assignment(text: &str, at: usize) -> bool {
    first_of_line(text, at) == at && is_pair(text, at)
}

/// Returns whether the line of a `[` at `at` is where a statement can begin: it is not indented, or the next line that
/// is not blank is an assignment.
fn is_above_pair(text: &str, at: usize) -> bool {
    let below = end_of(Class::Gap, text, end_of(Class::Line, text, at));
    start_of(Class::Line, text, at) == at || is_assignment(text, below)
}

/// Returns whether the line that contains the offset `at` looks like a header (`is_above_pair`). Such a line begins
/// with `[`. After the word at `at`, it has `]`, at most one more byte, and then only blanks.
fn is_heading(text: &str, at: usize) -> bool {
    let end = end_of(Class::Dotted, text, at);
    let first = first_of_line(text, at);
    byte_at(text, first) == b'['
        && byte_at(text, end) == b']'
        && (is_last(text, ahead(text, end, 1)) || is_last(text, ahead(text, end, 2)))
        && is_above_pair(text, first)
}

/// Returns whether a header begins at the offset `at`: an unindented `[` or, above an assignment, an indented one that
/// is first on a line that ends with `]`.
fn is_section(text: &str, at: usize) -> bool {
    let last = last_of_line(text, at).saturating_sub(1);
    let is_unindented = start_of(Class::Line, text, at) == at;
    byte_at(text, at) == b'['
        && first_of_line(text, at) == at
        && (is_unindented || byte_at(text, last) == b']' && is_above_pair(text, at))
}

/// Returns the finding for the word at `at`, which is written instead of a value. If a bracket is open, and the word
/// begins an assignment or is the name in a header, the finding is that the bracket is not closed.
pub(crate) fn word<'a>(text: &'a str, at: usize) -> Finding<'a> {
    if (is_assignment(text, at) || is_heading(text, at)) && open_before(text, at).depth > 0 {
        unclosed(text, at)
    } else {
        unquoted(text, at)
    }
}

/// Returns the finding for a comma that is missing before the value or pair at `at`. The finding has no replacement if
/// a `#` is before the place for the comma, on the same line, since this place may then be in a comment. The
/// replacement is safe only before a pair, or before a value on a line of its own: `[1 2]` may also be one value.
fn missing_comma<'a>(mistake: Mistake, text: &'a str, at: usize) -> Finding<'a> {
    let end = start_of(Class::Gap, text, at);
    let mut found = marked(mistake, at, end_of(Class::Word, text, at));
    let line = start_of(Class::Line, text, end);
    if end_of(Class::Uncommented, text, line) >= end {
        found.edit = Some(span_of(end, end));
        found.code = pieces(",", "", "");
    }
    safe_if(found, first_of_line(text, at) == at || is_pair(text, at))
}

/// Returns whether the token at `at`, in an array or inline table, begins a statement: a header, or an assignment,
/// unless this is a pair of an inline table that is closed later.
fn is_statement(text: &str, at: usize) -> bool {
    let is_in_table = byte_at(text, innermost(text, at)) == b'{';
    is_section(text, at) || is_assignment(text, at) && !(is_in_table && is_closed_after(text, at))
}

/// Returns the finding for the token at `at`, where a comma or closing bracket is expected. If the token begins a
/// statement (`is_statement`), the finding is that a bracket is not closed, otherwise `mistake`, a missing comma.
fn unseparated<'a>(mistake: Mistake, text: &'a str, at: usize) -> Finding<'a> {
    if is_statement(text, at) {
        unclosed(text, at)
    } else {
        missing_comma(mistake, text, at)
    }
}

/// Returns the finding for the closing bracket at `at`, which is of the wrong kind. `closing` is the correct bracket.
/// The finding also marks the bracket to close.
fn wrong_closing<'a>(
    mistake: Mistake,
    text: &'a str,
    at: usize,
    closing: &'static str,
) -> Finding<'a> {
    let end = ahead(text, at, 1);
    let bracket = innermost(text, at);
    let mut found = replaced(mistake, at, end, pieces(closing, "", ""));
    found.also = span_of(bracket, ahead(text, bracket, 1));
    found
}

/// Recognizes a value in an array or inline table that needs quotes, because it continues with `.`, `:` or `+` at `at`.
fn glued<'a>(text: &'a str, at: usize) -> Option<Finding<'a>> {
    let start = start_of(Class::Atom, text, at);
    if start < at && matches!(byte_at(text, at), b'.' | b':' | b'+') {
        Some(unquoted_value(text, start))
    } else {
        None
    }
}

/// Recognizes the mistake in the token at `at`, where a comma or closing bracket is expected. `mistake` is a missing
/// comma.
fn between<'a>(mistake: Mistake, text: &'a str, at: usize) -> Option<Finding<'a>> {
    match byte_at(text, at) {
        0 => Some(unclosed(text, at)),
        b'.' | b':' | b'+' => glued(text, at),
        _ => Some(unseparated(mistake, text, at)),
    }
}

/// Recognizes the mistake in the token at `at`, where `]` is expected in an array or header.
pub(crate) fn at_bracket<'a>(text: &'a str, at: usize) -> Option<Finding<'a>> {
    let state = open_before(text, at);
    if is_in_header(text, state) {
        return header(text, at, state.bracket);
    }
    match byte_at(text, at) {
        b'}' => Some(wrong_closing(CLOSED_BY_BRACE, text, at, "]")),
        _ => between(NO_COMMA, text, at),
    }
}

/// Recognizes the mistake in the token at `at`, where a comma is expected in an inline table.
pub(crate) fn at_comma<'a>(text: &'a str, at: usize) -> Option<Finding<'a>> {
    match byte_at(text, at) {
        b']' => Some(wrong_closing(CLOSED_BY_BRACKET, text, at, "}")),
        _ => between(NO_COMMA_IN_TABLE, text, at),
    }
}
