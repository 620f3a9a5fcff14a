//! Mistakes that cause the error `Wanted`: unexpected tokens and, in typed reads, values of the wrong kind. The module
//! `mistakes` says what the functions take and return.

use crate::bytes::{
    Class, ahead, are_all, begins, byte_after, byte_at, byte_before, end_of, first_of_line,
    is_bare, is_in, is_last, last_of_line, line_break, part, start_of,
};
use crate::finding::{
    Finding, in_quotes, marked, mended, pieces, removed, replaced, safe_if, span_of,
};
use crate::mistakes::dates::is_date;
use crate::mistakes::keys::{at_equals, at_key, extra};
use crate::mistakes::lists::{at_bracket, at_comma, at_value, is_assignment};
use crate::mistakes::numbers::{decimal_comma, thousands};
use crate::mistakes::strings::quote_in_string;
use crate::mistakes::values::{begins_number, unquoted_value};
use crate::scan::is_long;
use crate::words::{
    AFTER_VALUE, BARE_ARRAY, COMMA_AFTER_VALUE, EXTRA_CLOSING, FLOAT_EXPECTED, HALF_DAY,
    HEADER_BRACKET, JOINED, KEY_AFTER_HEADER, LAST_COMMA, Mistake, OFFSET_SPACE, SECOND_KEY,
    STRING_EXPECTED, TWO_STRINGS, VALUE_OF_HEADER, ZONE_NAME,
};
use toml_span_lex::span::Span;
use toml_span_report::tables::text_in;

/// Returns the finding for the key at `at`, which should be on the next line. The replacement puts a line end
/// (`line_break`) in place of the bytes `from..at`.
fn onto_next_line<'a>(mistake: Mistake, text: &'a str, from: usize, at: usize) -> Finding<'a> {
    let mark = span_of(at, end_of(Class::Dotted, text, at));
    mended(
        mistake,
        mark,
        span_of(from, at),
        pieces(line_break(text, at), "", ""),
    )
}

/// Returns the offset of the value before the offset `at`, on the same line, as far as this is certain: the first
/// non-blank byte after the first `=` on the line, which does not begin with a quote. Otherwise returns `at`.
fn value_before(text: &str, at: usize) -> usize {
    let line = first_of_line(text, at);
    let equals = end_of(Class::Left, text, line);
    let value = end_of(Class::Blank, text, ahead(text, equals, 1));
    if byte_at(text, equals) == b'=' && !matches!(byte_at(text, line), b'"' | b'\'') {
        value.min(at)
    } else {
        at
    }
}

/// Returns the finding for the comma at `at` after a value, which other values follow on the same line. The code is an
/// array of these values, unless `#` follows, which may be in a string.
fn bare_array<'a>(text: &'a str, at: usize) -> Finding<'a> {
    let value = value_before(text, at);
    let last = last_of_line(text, at);
    let end = ahead(text, at, 1);
    if value == at || !are_all(Class::Uncommented, text, at, last) {
        return marked(BARE_ARRAY, at, end);
    }
    let code = pieces("[", part(text, value, last), "]");
    mended(BARE_ARRAY, span_of(at, end), span_of(value, last), code)
}

/// Returns whether nothing, a comment, a header or an assignment begins at the offset `at`.
fn begins_statement(text: &str, at: usize) -> bool {
    matches!(byte_at(text, at), 0 | b'#' | b'[') || is_assignment(text, at)
}

/// Returns the finding for the comma at `at` at the end of a line. The replacement is safe only if a new statement
/// follows: otherwise, the next line may belong to the value.
fn last_comma<'a>(text: &'a str, at: usize) -> Finding<'a> {
    let below = end_of(Class::Gap, text, end_of(Class::Line, text, at));
    safe_if(
        removed(LAST_COMMA, at, ahead(text, at, 1)),
        begins_statement(text, below),
    )
}

/// Returns the finding for the comma at `at`, after a value on the same line.
fn comma_after_value<'a>(text: &'a str, at: usize) -> Finding<'a> {
    let end = ahead(text, at, 1);
    if let Some(found) = thousands(text, at) {
        return found;
    }
    if let Some(found) = decimal_comma(text, at) {
        return found;
    }
    if is_last(text, end) || byte_after(text, end) == b'#' {
        last_comma(text, at)
    } else if byte_at(text, end_of(Class::Left, text, end)) == b'=' {
        let edit = span_of(at, end_of(Class::Blank, text, end));
        let code = pieces(line_break(text, at), "", "");
        mended(COMMA_AFTER_VALUE, span_of(at, end), edit, code)
    } else {
        bare_array(text, at)
    }
}

/// Returns the finding for a value after the header that begins at `line`. The `=` before the value is at `at`.
fn header_value<'a>(text: &'a str, line: usize, at: usize) -> Finding<'a> {
    let width = if begins(text, line, b"[[") { 2 } else { 1 };
    let stop = start_of(Class::Blank, text, at).saturating_sub(width);
    let last = last_of_line(text, at);
    let name = part(text, ahead(text, line, width), stop);
    let code = pieces(name, " ", part(text, at, last));
    replaced(VALUE_OF_HEADER, line, last, code)
}

/// Returns whether a word or a string of one line begins at the offset `at`.
fn begins_word(text: &str, at: usize) -> bool {
    let byte = byte_at(text, at);
    is_bare(byte) || matches!(byte, b'"' | b'\'') && !is_long(text, at)
}

/// Returns the finding for the token at `at`, which follows a header on its line. The header begins at `line`.
fn after_header<'a>(text: &'a str, line: usize, at: usize) -> Finding<'a> {
    let from = start_of(Class::Blank, text, at);
    if byte_at(text, at) == b']' {
        return extra(HEADER_BRACKET, text, at);
    }
    if byte_at(text, at) == b'=' {
        return header_value(text, line, at);
    }
    if begins_word(text, at) {
        return onto_next_line(KEY_AFTER_HEADER, text, from, at);
    }
    marked(AFTER_VALUE, at, ahead(text, at, 1))
}

/// Returns whether the word is `AM`, `PM`, `am` or `pm`.
fn is_half_day(word: &str) -> bool {
    matches!(word, "AM" | "PM" | "am" | "pm")
}

/// The hours from 1 PM to 11 PM, on a 12-hour clock and on a 24-hour clock.
const AFTERNOON: [(&str, &str); 11] = [
    ("01", "13"),
    ("02", "14"),
    ("03", "15"),
    ("04", "16"),
    ("05", "17"),
    ("06", "18"),
    ("07", "19"),
    ("08", "20"),
    ("09", "21"),
    ("10", "22"),
    ("11", "23"),
];

/// Converts an hour of two digits from a 12-hour clock to a 24-hour clock. `is_late` is set for `PM`. Returns any other
/// text as it is.
fn full_hour<'a>(hour: &'a str, is_late: bool) -> &'a str {
    if is_late {
        match text_in(&AFTERNOON, hour) {
            Some(later) => later,
            None => hour,
        }
    } else if hour == "12" {
        "00"
    } else {
        hour
    }
}

/// Returns the finding for `AM` or `PM`, in `at..end`, after a value that ends with a digit. If the value ends with a
/// time such as `07:32`, with two digits for the hour, the finding has a replacement.
fn half_day<'a>(text: &'a str, at: usize, end: usize) -> Finding<'a> {
    let before = start_of(Class::Blank, text, at);
    let start = start_of(Class::Clock, text, before);
    let minutes = ahead(text, start, 2);
    if byte_at(text, minutes) != b':' {
        return marked(HALF_DAY, at, end);
    }
    let is_late = matches!(byte_at(text, at), b'P' | b'p');
    let hour = full_hour(part(text, start, minutes), is_late);
    let seconds = if before == ahead(text, start, 5) {
        ":00"
    } else {
        ""
    };
    let code = pieces(hour, part(text, minutes, before), seconds);
    mended(HALF_DAY, span_of(at, end), span_of(start, end), code)
}

/// Returns whether the word is `UTC` or `GMT`, for which TOML writes `Z`.
fn is_zone(word: &str) -> bool {
    matches!(word, "UTC" | "GMT")
}

/// Returns the start of the date and time that end at `end`, or `end` if no date and time end there.
fn datetime_before(text: &str, end: usize) -> usize {
    let clock = start_of(Class::Clock, text, end);
    let date = clock.saturating_sub(11);
    if is_date(text, date, clock.saturating_sub(1))
        && byte_at(text, ahead(text, clock, 2)) == b':'
    {
        date
    } else {
        end
    }
}

/// Returns whether an offset such as `+02:00` is in `at..end`.
fn is_offset(text: &str, at: usize, end: usize) -> bool {
    let hours = ahead(text, at, 1);
    let minutes = ahead(text, at, 4);
    matches!(byte_at(text, at), b'+' | b'-')
        && end_of(Class::Digit, text, hours) == ahead(text, at, 3)
        && byte_at(text, ahead(text, at, 3)) == b':'
        && end_of(Class::Digit, text, minutes) == end
        && ahead(text, at, 6) == end
}

/// Recognizes `UTC`, `GMT` or an offset such as `+02:00` after a date and time and a blank. It is at `at`.
fn zone<'a>(text: &'a str, at: usize) -> Option<Finding<'a>> {
    let end = end_of(Class::Word, text, at);
    let before = start_of(Class::Blank, text, at);
    let start = datetime_before(text, before);
    let (time, name) = (part(text, start, before), part(text, at, end));
    if start == before || before == at {
        None
    } else if is_zone(name) {
        Some(mended(
            ZONE_NAME,
            span_of(at, end),
            span_of(start, end),
            pieces(time, "Z", ""),
        ))
    } else if is_offset(text, at, end) {
        Some(mended(
            OFFSET_SPACE,
            span_of(at, end),
            span_of(start, end),
            pieces(time, name, ""),
        ))
    } else {
        None
    }
}

/// Returns the finding for the word at `at`, after a value on the same line that is neither a string nor in brackets.
/// If the word begins with a letter, both are probably one string without quotes.
fn second_value<'a>(text: &'a str, at: usize) -> Finding<'a> {
    let value = value_before(text, at);
    let is_string = value < at
        && are_all(Class::Element, text, value, at)
        && !begins_number(byte_at(text, at));
    if !is_string {
        return marked(AFTER_VALUE, at, end_of(Class::Word, text, at));
    }
    unquoted_value(text, value)
}

/// Returns the finding for the word at `at`, after a value on the same line.
fn word_after<'a>(text: &'a str, at: usize) -> Finding<'a> {
    let end = end_of(Class::Word, text, at);
    if is_in(Class::Digit, byte_before(text, at)) && is_half_day(part(text, at, end)) {
        return half_day(text, at, end);
    }
    if byte_after(text, end_of(Class::Dotted, text, at)) == b'=' {
        return onto_next_line(SECOND_KEY, text, start_of(Class::Blank, text, at), at);
    }
    match zone(text, at) {
        Some(found) => found,
        None => second_value(text, at),
    }
}

/// Returns the finding for the token at `at`, after a string on the same line: a second string, a key, or the rest of
/// the string if it contains the quote that ends it.
fn after_string<'a>(text: &'a str, at: usize) -> Finding<'a> {
    let is_apart = start_of(Class::Blank, text, at) < at;
    let is_string = matches!(byte_at(text, at), b'"' | b'\'');
    if is_apart && !is_string {
        return word_after(text, at);
    }
    if is_apart {
        return marked(TWO_STRINGS, at, ahead(text, at, 1));
    }
    match quote_in_string(text, at) {
        Some(found) => found,
        None => marked(AFTER_VALUE, at, end_of(Class::Word, text, at)),
    }
}

/// Returns the finding for the `+` at `at`, after a value on the same line, with a blank before it.
fn plus<'a>(text: &'a str, at: usize) -> Finding<'a> {
    match zone(text, at) {
        Some(found) => found,
        None => marked(AFTER_VALUE, at, ahead(text, at, 1)),
    }
}

/// Returns the finding for the token at `at`, after a value on the same line.
fn after_value<'a>(text: &'a str, at: usize) -> Finding<'a> {
    let is_string = matches!(byte_before(text, at), b'"' | b'\'');
    let start = start_of(Class::Atom, text, at);
    let is_word = begins_word(text, at);
    match byte_at(text, at) {
        b',' => comma_after_value(text, at),
        b']' | b'}' => removed(EXTRA_CLOSING, at, ahead(text, at, 1)),
        b'+' if is_string => marked(JOINED, at, ahead(text, at, 1)),
        b'.' | b':' | b'+' if start < at => unquoted_value(text, start),
        b'+' => plus(text, at),
        _ if is_word && is_string => after_string(text, at),
        b'"' | b'\'' => marked(AFTER_VALUE, at, ahead(text, at, 1)),
        _ if is_word => word_after(text, at),
        _ => marked(AFTER_VALUE, at, ahead(text, at, 1)),
    }
}

/// Returns the finding for the token at `at`, where a line should end.
fn at_newline<'a>(text: &'a str, at: usize) -> Finding<'a> {
    let line = first_of_line(text, at);
    if byte_at(text, line) == b'[' && byte_before(text, at) == b']' {
        after_header(text, line, at)
    } else {
        after_value(text, at)
    }
}

/// Recognizes the mistake that caused the error `Wanted` at `span`: an unexpected token or, in a typed read, a value of
/// the wrong kind. `expected` and `found` are the fields of the error.
pub(crate) fn wanted<'a>(
    expected: &str,
    found: &str,
    text: &'a str,
    span: Span,
) -> Option<Finding<'a>> {
    let at = span.start;
    match expected {
        "a value" => at_value(text, at),
        "an equals" => at_equals(text, at),
        "a table key" => at_key(text, at),
        "newline" => Some(at_newline(text, at)),
        "a right bracket" => at_bracket(text, at),
        "a comma" => at_comma(text, at),
        _ => other_kind(expected, found, text, span),
    }
}

/// Recognizes a decimal integer, at `span`, where a typed read expects a float, and a number or boolean where it
/// expects a string. `expected` and `found` are the fields of the error `Wanted`.
fn other_kind<'a>(expected: &str, found: &str, text: &'a str, span: Span) -> Option<Finding<'a>> {
    let (from, to) = (span.start, span.end);
    match found {
        "integer" if expected == "a float" && end_of(Class::Number, text, from) == to => {
            let code = pieces(part(text, from, to), ".0", "");
            Some(replaced(FLOAT_EXPECTED, from, to, code))
        }
        "integer" | "float" | "boolean" if expected == "a string" => {
            Some(in_quotes(STRING_EXPECTED, text, from, to))
        }
        _ => None,
    }
}
