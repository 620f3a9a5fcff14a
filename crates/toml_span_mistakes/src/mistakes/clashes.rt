//! Mistakes in keys and headers that clash. The module `mistakes` says what the functions take and return.

use crate::bytes::{
    Class, ahead, begins, byte_after, byte_at, end_of, first_of_line, part, start_of,
};
use crate::finding::{Code, Finding, pieces, six, span_of, without_replacement};
use crate::mistakes::numbers::after_sign;
use crate::scan::{content_end, next_content, open_before};
use crate::words::{
    ARRAY_OF_TABLE, CLOSED_ARRAY, CLOSED_TABLE, CLOSED_TABLE_HEADER, DOTTED_TABLE, TABLE_OF_ARRAY,
    TABLE_TWICE, THROUGH_VALUE, Words,
};
use toml_span_lex::span::Span;

/// Returns the end of the header that begins at `at`: the next `=`, `#` or line end, or the end of the text, moved back
/// over blanks.
fn header_end(text: &str, at: usize) -> usize {
    start_of(Class::Blank, text, end_of(Class::Left, text, at))
}

/// Returns the finding for two headers of one table, or for a header of a table and one of an array of tables with the
/// same path. `first` begins at the earlier header, `span` at the later one.
pub(crate) fn table_twice<'a>(text: &'a str, span: Span, first: Span) -> Finding<'a> {
    let was_array = begins(text, first.start, b"[[");
    let is_array = begins(text, span.start, b"[[");
    let end = header_end(text, span.start);
    let header = part(text, span.start, end);
    if is_array && !was_array {
        let mut found = without_replacement(ARRAY_OF_TABLE, span, first, pieces(header, "", ""));
        found.edit = Some(span_of(first.start, header_end(text, first.start)));
        found
    } else if was_array && !is_array {
        let mut found = without_replacement(TABLE_OF_ARRAY, span, first, pieces("[", header, "]"));
        found.edit = Some(span_of(span.start, end));
        found
    } else {
        without_replacement(TABLE_TWICE, span, first, pieces("[", header, "]"))
    }
}

/// Returns the offset of the value whose key ends at `end`. Without `=` after the key, returns the offset of the first
/// byte after the key that is not a blank.
fn value_at(text: &str, end: usize) -> usize {
    let equals = end_of(Class::Blank, text, end);
    if byte_at(text, equals) == b'=' {
        end_of(Class::Blank, text, ahead(text, equals, 1))
    } else {
        equals
    }
}

/// Returns the label for the value at the offset `at`, such as `this is a string, not a table`.
fn kind_label(text: &str, at: usize) -> &'static str {
    let digits = after_sign(text, at);
    let end = end_of(Class::Grouped, text, digits);
    match byte_at(text, at) {
        b'"' | b'\'' => "this is a string, not a table",
        b'[' => "this is an array, not a table",
        b't' | b'f' => "this is a boolean, not a table",
        _ if matches!(byte_at(text, end), b'.' | b'e' | b'E' | b'i' | b'n') => {
            "this is a float, not a table"
        }
        _ if matches!(byte_at(text, end), b'-' | b':') => "this is a date or time, not a table",
        _ => "this is an integer, not a table",
    }
}

/// Returns the line of an inline table, with the assignment at `at` moved into the table's braces. The dotted key of
/// the assignment goes through the table. The table's key ends at `key_end`, and its `{` is at `table`. Returns empty
/// code if the dotted key does not begin with the table's key and a dot, or if the table's line does not end with `}`.
fn extended<'a>(text: &'a str, key_end: usize, table: usize, at: usize) -> Code<'a> {
    let start = first_of_line(text, key_end);
    let key = part(text, start, key_end);
    let dot = ahead(text, at, key.len());
    let last = content_end(text, table);
    let close = last.saturating_sub(1);
    let end = start_of(Class::Blank, text, close);
    let pair_end = content_end(text, at);
    let comma = if byte_at(text, end.saturating_sub(1)) == b'{' {
        ""
    } else {
        ", "
    };
    if byte_at(text, close) != b'}'
        || !begins(text, at, key.as_bytes())
        || byte_at(text, dot) != b'.'
        || pair_end <= dot
    {
        return pieces("", "", "");
    }
    let pair = part(text, ahead(text, dot, 1), pair_end);
    six(
        part(text, start, end),
        comma,
        pair,
        part(text, end, last),
        "",
        "",
    )
}

/// Returns the content of an inline table that replaces the section whose header ends at `end`. A line that begins with
/// `[` ends the section. Blank lines and comments do not count. Without other lines, the content is empty. If there is
/// only one line, with one `=` and no `#` in a string, the content is this line. Otherwise it is `..`.
fn body<'a>(text: &'a str, end: usize) -> &'a str {
    let start = next_content(text, end);
    let last = content_end(text, start);
    let equals = end_of(Class::Left, text, start);
    let is_pair = byte_at(text, equals) == b'='
        && start < last
        && end_of(Class::Left, text, ahead(text, equals, 1)) >= last;
    let next = byte_at(text, next_content(text, last));
    if matches!(byte_at(text, start), 0 | b'[') {
        ""
    } else if is_pair && matches!(next, 0 | b'[') {
        part(text, start, last)
    } else {
        ".."
    }
}

/// Returns the assignment to write in an inline table, instead of a header that goes through the table. Its value is a
/// table for `[..]`, and an array of one table for `[[..]]`. The part of the header that names the inline table ends at
/// `end`. Returns empty code if this part is the last one, or if the header's line does not end with `]`.
fn subtable<'a>(text: &'a str, end: usize) -> Code<'a> {
    let dot = end_of(Class::Blank, text, end);
    let name = end_of(Class::Blank, text, ahead(text, dot, 1));
    let last = content_end(text, end);
    let close = last.saturating_sub(1);
    let inner = last.saturating_sub(2);
    if byte_at(text, dot) != b'.' || byte_at(text, close) != b']' {
        pieces("", "", "")
    } else if begins(text, inner, b"]]") {
        let name = part(text, name, inner);
        six(name, " = [{", body(text, last), "}]", "", "")
    } else {
        let name = part(text, name, close);
        six(name, " = {", body(text, last), "}", "", "")
    }
}

/// Returns whether a header begins at the offset `at`: a `[` outside brackets.
fn is_header(text: &str, at: usize) -> bool {
    byte_at(text, at) == b'[' && open_before(text, at).depth == 0
}

/// Recognizes a key or header, at `span`, that would extend an earlier value, or a table that a dotted key defines.
/// `first` is the span of the earlier key.
pub(crate) fn through_value<'a>(text: &'a str, span: Span, first: Span) -> Option<Finding<'a>> {
    let line = first_of_line(text, span.start);
    let value = value_at(text, first.end);
    let none = pieces("", "", "");
    match byte_at(text, value) {
        b'{' if is_header(text, line) => {
            Some(without_replacement(CLOSED_TABLE_HEADER, span, first, subtable(text, span.end)))
        }
        b'{' => {
            Some(without_replacement(
                CLOSED_TABLE,
                span,
                first,
                extended(text, first.end, value, line),
            ))
        }
        b'[' if begins(text, line, b"[[") && is_header(text, line) => Some(without_replacement(
            CLOSED_ARRAY,
            span,
            first,
            none,
        )),
        b'.' => Some(without_replacement(DOTTED_TABLE, span, first, none)),
        0 | b']' => None,
        _ => {
            let mut found = without_replacement(THROUGH_VALUE, span, first, none);
            found.words = Words {
                also: kind_label(text, value),
                ..found.words
            };
            Some(found)
        }
    }
}

/// Recognizes a duplicate key, at `span`, that is before a dot, or in a header.
/// `first` is the span of the earlier key. Returns the finding of `through_value`.
pub(crate) fn key_twice<'a>(text: &'a str, span: Span, first: Span) -> Option<Finding<'a>> {
    let line = first_of_line(text, span.start);
    if is_header(text, line) || byte_after(text, span.end) == b'.' {
        through_value(text, span, first)
    } else {
        None
    }
}
