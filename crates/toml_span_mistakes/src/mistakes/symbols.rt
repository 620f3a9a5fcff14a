//! Mistakes with characters that do not begin a token, such as curly quotes and `;`. The module `mistakes` says what
//! the functions take and return.

use crate::bytes::{
    Class, ahead, are_all, begins, byte_after, byte_at, byte_before, end_of, ends_value,
    first_of_line, is_in, is_last, last_of_line, line_break, part, start_of,
};
use crate::finding::{
    Finding, Substitute, as_substitute, marked, mended, pieces, replaced, safe_if, span_of,
};
use crate::mistakes::keys::{comment, header_key, other_key, other_sign};
use crate::mistakes::values::unquoted_value;
use crate::scan::{innermost, is_in_header, open_before};
use crate::words::{
    ARROW, BACKTICKS, BLOCK_COMMENT, COMMENT_LINE, CONFLICT, CURLY_QUOTES, INNER_COMMENT,
    INVISIBLE, LONE_RETURN, MARKUP, NO_VALUE_AFTER_EQUALS, OTHER_SIGN, OTHER_SPACE, PARENTHESES,
    SEMICOLON, SEMICOLON_BETWEEN, SEMICOLON_COMMENT, SEMICOLON_IN_ARRAY, SEMICOLON_IN_TABLE,
    SEMICOLONS, SLASHES, YAML_TEXT,
};

/// Returns what to write instead of `c`: the ASCII character that `c` looks like, or empty code if `c` is invisible.
/// Returns `None` for any other character, and for curly quotes.
fn look_alike(c: char) -> Option<Substitute> {
    match c as u32 {
        0xA0 => as_substitute(OTHER_SPACE, "NO-BREAK SPACE (U+00A0)", " "),
        0x2009 => as_substitute(OTHER_SPACE, "THIN SPACE (U+2009)", " "),
        0x202F => as_substitute(OTHER_SPACE, "NARROW NO-BREAK SPACE (U+202F)", " "),
        0x3000 => as_substitute(OTHER_SPACE, "IDEOGRAPHIC SPACE (U+3000)", " "),
        0x200B => as_substitute(INVISIBLE, "ZERO WIDTH SPACE (U+200B)", ""),
        0xFEFF => as_substitute(INVISIBLE, "BYTE ORDER MARK (U+FEFF)", ""),
        0x2013 => as_substitute(OTHER_SIGN, "EN DASH (U+2013)", "-"),
        0x2014 => as_substitute(OTHER_SIGN, "EM DASH (U+2014)", "-"),
        0x2212 => as_substitute(OTHER_SIGN, "MINUS SIGN (U+2212)", "-"),
        0xFF1D => as_substitute(OTHER_SIGN, "FULLWIDTH EQUALS SIGN (U+FF1D)", "="),
        0xFF0C => as_substitute(OTHER_SIGN, "FULLWIDTH COMMA (U+FF0C)", ","),
        _ => None,
    }
}

/// Returns the Unicode name of a curly quote, or an empty string for any other character.
fn curly_name(c: char) -> &'static str {
    match c as u32 {
        0x2018 => "LEFT SINGLE QUOTATION MARK (U+2018)",
        0x2019 => "RIGHT SINGLE QUOTATION MARK (U+2019)",
        0x201A => "SINGLE LOW-9 QUOTATION MARK (U+201A)",
        0x201C => "LEFT DOUBLE QUOTATION MARK (U+201C)",
        0x201D => "RIGHT DOUBLE QUOTATION MARK (U+201D)",
        0x201E => "DOUBLE LOW-9 QUOTATION MARK (U+201E)",
        _ => "",
    }
}

/// Returns whether the last bytes of two curly quotes are those of two single quotes, or of two double quotes.
fn are_paired(first: u8, last: u8) -> bool {
    matches!(first, 0x98..=0x9A) && matches!(last, 0x98..=0x9A)
        || matches!(first, 0x9C..=0x9E) && matches!(last, 0x9C..=0x9E)
}

/// Returns whether a key or a value can end at the offset `at`.
fn ends_key_or_value(text: &str, at: usize) -> bool {
    ends_value(text, at) || matches!(byte_after(text, at), b'=' | b'.' | b':')
}

/// Returns the finding for the curly quote at `at`, whose Unicode name is `name`. The finding has a replacement if a
/// closing quote follows: the next character from U+2000 to U+2FFF on the line must be a curly quote of the same kind,
/// single or double, and a key or value must end there. No straight quote, backtick or backslash may be between the
/// two. The replacement is not safe if `#` is between the two.
fn curly<'a>(text: &'a str, at: usize, name: &'static str) -> Finding<'a> {
    let content = ahead(text, at, 3);
    let close = end_of(Class::Straight, text, content);
    let mark = span_of(at, ahead(text, at, 1));
    let end = ahead(text, close, 3);
    let (open, last) = (
        byte_at(text, ahead(text, at, 2)),
        byte_at(text, ahead(text, close, 2)),
    );
    let is_closed = begins(text, close, b"\xE2\x80")
        && are_paired(open, last)
        && ends_key_or_value(text, end)
        && are_all(Class::Unquoted, text, content, close)
        && are_all(Class::Unescaped, text, content, close);
    let found = if is_closed {
        let code = pieces("\"", part(text, content, close), "\"");
        let found = mended(CURLY_QUOTES, mark, span_of(at, end), code);
        safe_if(found, are_all(Class::Uncommented, text, content, close))
    } else {
        marked(CURLY_QUOTES, mark.start, mark.end)
    };
    Finding {
        label: pieces(name, "", ""),
        ..found
    }
}

/// Returns the finding for the character at `at`, which `meant.code` should replace.
fn other_character<'a>(text: &'a str, at: usize, meant: Substitute) -> Finding<'a> {
    let end = end_of(Class::Continuation, text, ahead(text, at, 1));
    let code = pieces(meant.code, "", "");
    let mut found = replaced(meant.mistake, at, end, code);
    found.label = pieces(meant.name, "", "");
    found
}

/// Recognizes the character `c` at `at` if it looks like a character that TOML uses, or is invisible.
fn alike<'a>(text: &'a str, at: usize, c: char) -> Option<Finding<'a>> {
    let name = curly_name(c);
    if !name.is_empty() {
        return Some(curly(text, at, name));
    }
    match look_alike(c) {
        Some(meant) => Some(other_character(text, at, meant)),
        None => None,
    }
}

/// Returns the finding for the semicolon at `at`, in an array or inline table, where `,` is meant.
fn semicolon_in_brackets<'a>(text: &'a str, at: usize) -> Finding<'a> {
    let mistake = if byte_at(text, innermost(text, at)) == b'[' {
        SEMICOLON_IN_ARRAY
    } else {
        SEMICOLON_IN_TABLE
    };
    replaced(mistake, at, ahead(text, at, 1), pieces(",", "", ""))
}

/// Returns the finding for the semicolon at `at`, outside brackets. It begins a comment if it is first on its line. At
/// the end of a line, or before a comment, it is removed, together with the blanks before it. Before a key and `=`, it
/// separates two assignments. Anywhere else, it probably begins a comment.
fn semicolon<'a>(text: &'a str, at: usize) -> Finding<'a> {
    let end = ahead(text, at, 1);
    let mark = span_of(at, end);
    let rest = end_of(Class::Blank, text, end);
    if first_of_line(text, at) == at {
        comment(SEMICOLONS, text, at, 1)
    } else if is_last(text, end) || byte_at(text, rest) == b'#' {
        let edit = span_of(start_of(Class::Blank, text, at), end);
        mended(SEMICOLON, mark, edit, pieces("", "", ""))
    } else if byte_at(text, end_of(Class::Left, text, end)) == b'=' {
        let code = pieces(line_break(text, at), "", "");
        mended(SEMICOLON_BETWEEN, mark, span_of(at, rest), code)
    } else {
        comment(SEMICOLON_COMMENT, text, at, 1)
    }
}

/// Recognizes the mistake in the semicolon at `at`.
fn any_semicolon<'a>(text: &'a str, at: usize) -> Option<Finding<'a>> {
    let state = open_before(text, at);
    if is_in_header(text, state) {
        header_key(text, at)
    } else if state.depth > 0 {
        Some(semicolon_in_brackets(text, at))
    } else if byte_before(text, at) == b'=' {
        Some(marked(NO_VALUE_AFTER_EQUALS, at, ahead(text, at, 1)))
    } else {
        Some(semicolon(text, at))
    }
}

/// Returns the finding for the string in backticks that begins at `at`. It has a replacement if the string is closed on
/// its line and a key or value ends there. The replacement is not safe if the string contains `#`.
fn backticks<'a>(text: &'a str, at: usize) -> Finding<'a> {
    let content = ahead(text, at, 1);
    let close = end_of(Class::Unquoted, text, content);
    let end = ahead(text, close, 1);
    if byte_at(text, close) != b'`'
        || !are_all(Class::Unescaped, text, content, close)
        || !ends_key_or_value(text, end)
    {
        return marked(BACKTICKS, at, content);
    }
    let code = pieces("\"", part(text, content, close), "\"");
    safe_if(
        replaced(BACKTICKS, at, end, code),
        are_all(Class::Uncommented, text, content, close),
    )
}

/// Returns the finding for the list in parentheses that begins at `at`.
fn parentheses<'a>(text: &'a str, at: usize) -> Finding<'a> {
    let content = ahead(text, at, 1);
    let close = end_of(Class::Enclosed, text, content);
    if byte_at(text, close) != b')' {
        return marked(PARENTHESES, at, content);
    }
    let code = pieces("[", part(text, content, close), "]");
    replaced(PARENTHESES, at, ahead(text, close, 1), code)
}

/// Recognizes a marker of a merge conflict, or a tag of a markup language, that begins at `at`. Only blanks are before
/// `at` on its line.
fn at_line_start<'a>(text: &'a str, at: usize) -> Option<Finding<'a>> {
    let end = last_of_line(text, at);
    if begins(text, at, b"<<<<<<<")
        || begins(text, at, b">>>>>>>")
        || begins(text, at, b"|||||||")
    {
        return Some(marked(CONFLICT, at, end));
    }
    if begins(text, at, b"<") && byte_at(text, end.saturating_sub(1)) == b'>' {
        return Some(marked(MARKUP, at, end));
    }
    None
}

/// Returns the finding for the block comment that begins at `at`. The finding has a replacement if the comment ends at
/// the end of the same line.
fn block_comment<'a>(text: &'a str, at: usize) -> Finding<'a> {
    let start = ahead(text, at, 2);
    let last = last_of_line(text, at);
    let close = last.saturating_sub(2);
    if start > close || !begins(text, close, b"*/") {
        return marked(BLOCK_COMMENT, at, start);
    }
    let content = part(text, start, start_of(Class::Blank, text, close));
    replaced(COMMENT_LINE, at, last, pieces("#", content, ""))
}

/// Recognizes a sign of other languages at `at`: `//`, `/*`, or a carriage return.
fn foreign<'a>(text: &'a str, at: usize) -> Option<Finding<'a>> {
    if begins(text, at, b"//") {
        Some(comment(SLASHES, text, at, 2))
    } else if begins(text, at, b"/*") {
        Some(block_comment(text, at))
    } else if begins(text, at, b"\r") {
        Some(marked(LONE_RETURN, at, ahead(text, at, 1)))
    } else {
        None
    }
}

/// Recognizes a key or value that needs quotes because of the character at `at`. The word that contains the character
/// begins at `start`.
fn unquoted_key_or_value<'a>(text: &'a str, at: usize, start: usize) -> Option<Finding<'a>> {
    let state = open_before(text, at);
    if is_in_header(text, state) {
        return header_key(text, at);
    }
    match other_key(text, at) {
        Some(found) => Some(found),
        None if state.depth > 0 => Some(unquoted_value(text, start)),
        None => None,
    }
}

/// Returns whether the `|` or `>` at `at` begins a text of several lines in YAML: at most two more bytes, the last of
/// which is not a digit, and a line end follow.
fn begins_yaml_text(text: &str, at: usize) -> bool {
    matches!(byte_at(text, at), b'|' | b'>')
        && last_of_line(text, at) <= ahead(text, at, 3)
        && !is_in(
            Class::Digit,
            byte_at(text, last_of_line(text, at).saturating_sub(1)),
        )
}

/// Recognizes the mistake in a value with an invalid character at `at`. The value begins at `start`, after `=`.
fn value<'a>(text: &'a str, at: usize, start: usize) -> Option<Finding<'a>> {
    match byte_at(text, at) {
        b'>' if start == at && byte_at(text, at.saturating_sub(1)) == b'=' => {
            let from = at.saturating_sub(1);
            Some(other_sign(ARROW, text, from, ahead(text, at, 1)))
        }
        _ if start == at && begins_yaml_text(text, at) => {
            Some(marked(YAML_TEXT, at, last_of_line(text, at)))
        }
        b'\r' => Some(marked(LONE_RETURN, at, ahead(text, at, 1))),
        b'/' if start < at && begins(text, at, b"//") => Some(comment(SLASHES, text, at, 2)),
        b'/' if begins(text, at, b"/*") => Some(marked(INNER_COMMENT, at, ahead(text, at, 2))),
        b'/' if begins(text, at, b"//") => Some(safe_if(unquoted_value(text, start), false)),
        b'`' => Some(backticks(text, at)),
        b'(' => Some(parentheses(text, at)),
        _ => Some(unquoted_value(text, start)),
    }
}

/// Recognizes the mistake in the character `c` at `at`, which does not begin a token.
pub(crate) fn unexpected<'a>(text: &'a str, at: usize, c: char) -> Option<Finding<'a>> {
    if let Some(found) = alike(text, at, c) {
        return Some(found);
    }
    if c == ';' {
        return any_semicolon(text, at);
    }
    let start = start_of(Class::Atom, text, at);
    if byte_before(text, start) == b'=' {
        return value(text, at, start);
    }
    if first_of_line(text, at) == at {
        if let Some(found) = at_line_start(text, at) {
            return Some(found);
        }
    }
    match foreign(text, at) {
        Some(found) => Some(found),
        None => unquoted_key_or_value(text, at, start),
    }
}
