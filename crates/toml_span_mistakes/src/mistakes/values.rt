//! Recognizes words that are written instead of values, such as `True` or a string without quotes. The module
//! `mistakes` says what the functions take and return.

use crate::bytes::{
    Class, ahead, are_all, begins, byte_after, byte_at, byte_before, end_of, ends_value,
    first_of_line, is_in, part, start_of,
};
use crate::finding::{
    Finding, Substitute, as_substitute, in_quotes, marked, pieces, replaced, safe_if,
};
use crate::scan::open_before;
use crate::words::{
    INFINITY, NEAR_FALSE, NEAR_TRUE, NULL, NULL_ELEMENT, OTHER_BOOLEAN, OTHER_FLOAT, PREFIXED,
    RAW_STRING, UNQUOTED, UNQUOTED_TEXT, UPPER_BOOLEAN,
};
use toml_span_syntax::brackets::depth_after;
use toml_span_syntax::pieces::piece_at;

/// Returns whether `word` and `name` are equal, or differ only at the offset `at`, where a byte is missing, extra or
/// different, or two bytes are swapped.
fn is_within_one_edit_at(word: &str, name: &str, at: usize) -> bool {
    let (after, last) = (ahead(word, at, 1), word.len());
    let (name_after, name_last) = (ahead(name, at, 1), name.len());
    let rest = part(word, after, last);
    let name_rest = part(name, name_after, name_last);
    let is_swapped = byte_at(word, at) == byte_at(name, name_after)
        && byte_at(word, after) == byte_at(name, at)
        && part(rest, 1, last) == part(name_rest, 1, name_last);
    part(word, 0, at) == part(name, 0, at)
        && (rest == name_rest
            || rest == part(name, at, name_last)
            || part(word, at, last) == name_rest
            || is_swapped)
}

/// Returns whether `word` and `name` are equal, or differ in one byte that is missing, extra or different, or in two
/// adjacent bytes that are swapped. `name` has at most five bytes.
fn is_within_one_edit(word: &str, name: &str) -> bool {
    is_within_one_edit_at(word, name, 0)
        || is_within_one_edit_at(word, name, 1)
        || is_within_one_edit_at(word, name, 2)
        || is_within_one_edit_at(word, name, 3)
        || is_within_one_edit_at(word, name, 4)
        || is_within_one_edit_at(word, name, 5)
}

/// Returns the boolean to write instead of a word that probably misspells it: one in other letter case, or with one
/// mistake (`is_within_one_edit`). Returns `None` for any other word.
fn near_boolean(word: &str) -> Option<Substitute> {
    if word.eq_ignore_ascii_case("true") || is_within_one_edit(word, "true") {
        as_substitute(NEAR_TRUE, "", "true")
    } else if word.eq_ignore_ascii_case("false") || is_within_one_edit(word, "false") {
        as_substitute(NEAR_FALSE, "", "false")
    } else {
        None
    }
}

/// Returns what to write instead of a word of other languages, such as `yes`, or of a misspelled boolean. The code is
/// empty for words such as `null`, which have no counterpart in TOML. Returns `None` for any other word.
pub(crate) fn known_word(word: &str) -> Option<Substitute> {
    match word {
        "True" | "TRUE" => as_substitute(UPPER_BOOLEAN, "", "true"),
        "False" | "FALSE" => as_substitute(UPPER_BOOLEAN, "", "false"),
        "yes" | "Yes" | "YES" | "on" | "On" | "ON" => as_substitute(OTHER_BOOLEAN, "", "true"),
        "no" | "No" | "NO" | "off" | "Off" | "OFF" => as_substitute(OTHER_BOOLEAN, "", "false"),
        "null"
        | "Null"
        | "NULL"
        | "nul"
        | "none"
        | "None"
        | "NONE"
        | "nil"
        | "Nil"
        | "NIL"
        | "undefined" => { as_substitute(NULL, "", "") }
        _ => match float_word(word) {
            Some(known) => Some(known),
            None => near_boolean(word),
        },
    }
}

/// Returns the special float to write instead of a word with other capitals, or instead of `infinity`. Returns `None`
/// for any other word.
pub(crate) fn float_word(word: &str) -> Option<Substitute> {
    match word {
        "NaN" | "NAN" | "Nan" | "NAn" | "nAN" | "nAn" | "naN" => as_substitute(
            OTHER_FLOAT,
            "",
            "nan",
        ),
        "Inf" | "INF" | "INf" | "InF" | "iNF" | "iNf" | "inF" => as_substitute(
            OTHER_FLOAT,
            "",
            "inf",
        ),
        "Infinity" | "infinity" | "INFINITY" => as_substitute(INFINITY, "", "inf"),
        _ => None,
    }
}

/// Returns whether a value can begin at the offset `at`: `=`, `[` or `,` is before it, or only blanks on its line.
fn begins_value(text: &str, at: usize) -> bool {
    matches!(byte_before(text, at), b'=' | b'[' | b',') || first_of_line(text, at) == at
}

/// Returns the end of the value at `at`, which needs quotes, in an array or inline table. The value may have parts in
/// square brackets, as `a[0]` has. Returns `at` if the end is not certain, because a quote, `=`, `;`, another bracket, or
/// `#` without a blank before it comes first.
fn element_end(text: &str, at: usize) -> usize {
    let mut place = text.floor_char_boundary(at);
    let mut end = at;
    let mut depth = 0;
    'pieces: while place < text.len() {
        let piece = piece_at(text, place);
        match byte_at(text, place) {
            b'\n' | b'\r' | b',' | b']' | b'}' if depth == 0 => return end,
            b'#' if depth == 0 && end < place => return end,
            b' ' | b'\t' => (),
            b'[' | b']' => end = piece.end,
            byte if is_in(Class::Element, byte) => end = piece.end,
            _ => return at,
        }
        depth = depth_after(depth, piece.kind);
        place = piece.end;
    }
    if depth == 0 { end } else { at }
}

/// Returns the offset of the first `//` after a blank in `from..to`, or `to` if there is none. The value at `at` has no
/// quotes before it.
fn slashes(text: &str, at: usize, from: usize, to: usize) -> usize {
    for place in from..to {
        if begins(text, place, b"//")
            && is_in(Class::Blank, byte_at(text, place.saturating_sub(1)))
        {
            return if are_all(Class::Unquoted, text, at, place) {
                place
            } else {
                to
            };
        }
    }
    to
}

/// Returns the end of the value at `at`, which needs quotes, outside brackets: the end of its line, or a comment, also
/// one of another language (`//`), after a blank. A `;` at the end is not part of the value. Returns `at` if the end is
/// not certain, because the comment may be part of the value, or the line has a second `=`. The first word of the value
/// ends at `word`.
fn line_value_end(text: &str, at: usize, word: usize) -> usize {
    let far = slashes(text, at, word, end_of(Class::Uncommented, text, word));
    let last = start_of(Class::Blank, text, far);
    let end = if byte_at(text, last.saturating_sub(1)) == b';' {
        start_of(Class::Blank, text, last.saturating_sub(1))
    } else {
        last
    };
    let is_comment = last < far && are_all(Class::Unquoted, text, at, far);
    if byte_at(text, far) == b'#' && !is_comment || end_of(Class::Left, text, word) < far {
        at
    } else {
        end
    }
}

/// Returns the end of the value at `at`, which needs quotes, or `at` if the end is not certain. Takes time linear in
/// `at`, to find out whether the value is in brackets.
pub(crate) fn whole_end(text: &str, at: usize) -> usize {
    if open_before(text, at).depth > 0 {
        element_end(text, at)
    } else {
        line_value_end(text, at, end_of(Class::Word, text, at))
    }
}

/// Returns whether a number, a date or a time can begin with the byte.
pub(crate) fn begins_number(byte: u8) -> bool {
    is_in(Class::Digit, byte) || matches!(byte, b'+' | b'-' | b'.')
}

/// Returns the finding for the value at `at`, which needs quotes. The replacement puts the whole value in quotes. The
/// finding has no replacement if the end of the value is not certain, or no value can begin at `at`. The replacement is
/// not safe before `;` or `//`, or for a value such as `80a` that begins like a number and may be one with a typo.
pub(crate) fn unquoted_value<'a>(text: &'a str, at: usize) -> Finding<'a> {
    let end = whole_end(text, at);
    let is_certain = at < end && begins_value(text, at);
    if !is_certain {
        return marked(UNQUOTED_TEXT, at, end_of(Class::Word, text, at));
    }
    let is_last = byte_after(text, end) != b';' && byte_after(text, end) != b'/';
    let is_word = is_last && !begins_number(byte_at(text, at));
    safe_if(in_quotes(UNQUOTED, text, at, end), is_word)
}

/// Returns the finding for a string with letters before its quote, such as `r".."`. The letters begin at `at`, and the
/// quote is at `quote`.
fn prefixed_string<'a>(text: &'a str, at: usize, quote: usize) -> Finding<'a> {
    let close = end_of(Class::Unquoted, text, ahead(text, quote, 1));
    let content = part(text, ahead(text, quote, 1), close);
    if byte_at(text, close) != byte_at(text, quote) || content.is_empty() {
        marked(UNQUOTED_TEXT, at, quote)
    } else if matches!(byte_at(text, at), b'r' | b'R') {
        replaced(
            RAW_STRING,
            at,
            ahead(text, close, 1),
            pieces("'", content, "'"),
        )
    } else {
        replaced(
            PREFIXED,
            at,
            ahead(text, close, 1),
            pieces(part(text, quote, ahead(text, close, 1)), "", ""),
        )
    }
}

/// Returns the finding for the word in `at..end`, which is written instead of a value. `known` says what to write. The
/// finding has a replacement unless `known.code` is empty.
fn known_value<'a>(at: usize, end: usize, known: Substitute) -> Finding<'a> {
    if known.code.is_empty() {
        marked(known.mistake, at, end)
    } else {
        replaced(known.mistake, at, end, pieces(known.code, "", ""))
    }
}

/// Returns the substitute `known` for the word at `at`. For `null` in an array, the mistake is another one, since an
/// element has no key.
fn at_place(text: &str, at: usize, known: Substitute) -> Substitute {
    if known.code.is_empty() && byte_before(text, at) != b'=' {
        Substitute {
            mistake: NULL_ELEMENT,
            ..known
        }
    } else {
        known
    }
}

/// Returns the finding for the word at `at`, which is written instead of a value.
pub(crate) fn unquoted<'a>(text: &'a str, at: usize) -> Finding<'a> {
    let end = end_of(Class::Word, text, at);
    if end <= ahead(text, at, 2) && matches!(byte_at(text, end), b'"' | b'\'') {
        return prefixed_string(text, at, end);
    }
    match known_word(part(text, at, end)) {
        Some(known) if ends_value(text, end) => known_value(at, end, at_place(text, at, known)),
        _ => unquoted_value(text, at),
    }
}
