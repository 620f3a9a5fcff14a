//! Mistakes in keys and headers. The module `mistakes` says what the functions take and return.

use crate::bytes::{
    Class, ahead, are_all, begins, byte_after, byte_at, byte_before, end_of, ends_value,
    first_of_line, is_end, is_in, is_last, last_of_line, part, start_of,
};
use crate::finding::{
    Code, Finding, Substitute, in_quotes, marked, mended, only_marked, pieces, quote_for, removed,
    replaced, safe_if, six, span_of, without_replacement,
};
use crate::mistakes::dates::is_date;
use crate::mistakes::lists::{closing, unfinished_key};
use crate::mistakes::numbers::after_sign;
use crate::mistakes::values::{known_word, whole_end};
use crate::scan::{bracketed_end, open_before};
use crate::words::{
    BARE_KEY, BRACE_HEADER, BRACED_ARRAY, COLON, COLON_AND_EQUALS, COLON_EQUALS, CONFLICT, DASHES,
    DOCUMENT_MARKER, EXTRA_COMMA, EXTRA_DOT, INDEX, JSON, JSON_DOCUMENT, KEYWORD, LATE_HEADER,
    Mistake, NO_EQUALS, NO_KEY, NO_VALUE, OPERATOR, TEMPLATE, TEMPLATE_LINE, YAML_ITEM, YAML_ITEMS,
    YAML_LIST, YAML_TABLE,
};
use toml_span_lex::span::Span;

/// Returns the finding for a comment of another language. The comment begins at `at`, with a sign of `length` bytes
/// such as `//`. The replacement is safe only if a blank or a line end is before the sign, and only a comment can
/// follow (`is_outside`).
pub(crate) fn comment<'a>(
    mistake: Mistake,
    text: &'a str,
    at: usize,
    length: usize,
) -> Finding<'a> {
    let found = mended(
        mistake,
        span_of(at, last_of_line(text, at)),
        span_of(at, ahead(text, at, length)),
        pieces("#", "", ""),
    );
    safe_if(
        found,
        is_after_gap(text, at) && is_outside(text, at, ahead(text, at, length)),
    )
}

/// Returns whether the text from `from` to the end of its line can be a comment: no bracket is open at `at`, or the
/// text has no bracket, quote or other sign that may belong to an array or inline table.
fn is_outside(text: &str, at: usize, from: usize) -> bool {
    open_before(text, at).depth == 0
        || are_all(Class::Element, text, from, end_of(Class::Line, text, at))
}

/// Returns whether a blank, a line end or the start of the text is before the offset `at`.
fn is_after_gap(text: &str, at: usize) -> bool {
    at == 0 || is_in(Class::Gap, byte_at(text, at.saturating_sub(1)))
}

/// Returns whether an operator with `=`, such as `+=`, is at `at`.
fn is_assigning(text: &str, at: usize) -> bool {
    let equals = end_of(Class::Operator, text, at);
    at < equals && byte_at(text, equals) == b'='
}

/// Returns the finding for an operator such as `+=` at `at`.
fn operator<'a>(text: &'a str, at: usize) -> Finding<'a> {
    let end = ahead(text, end_of(Class::Operator, text, at), 1);
    marked(OPERATOR, at, end)
}

/// Recognizes a part of a header, around the offset `at`, that needs quotes.
pub(crate) fn header_key<'a>(text: &'a str, at: usize) -> Option<Finding<'a>> {
    let from = end_of(Class::Blank, text, start_of(Class::Header, text, at));
    let end = end_of(Class::Header, text, at);
    let to = start_of(Class::Blank, text, end);
    if from < to && matches!(byte_at(text, end), b'.' | b']') {
        Some(in_quotes(BARE_KEY, text, from, to))
    } else {
        None
    }
}

/// Recognizes a key, around the offset `at`, that needs quotes because of its characters, or an operator such as `?=`
/// after a key.
pub(crate) fn other_key<'a>(text: &'a str, at: usize) -> Option<Finding<'a>> {
    let from = start_of(Class::Name, text, at);
    let to = end_of(Class::Name, text, at);
    if is_assigning(text, at) {
        Some(operator(text, at))
    } else if from < to && matches!(byte_after(text, to), b'=' | b'.') && begins_key(text, from) {
        Some(in_quotes(BARE_KEY, text, from, to))
    } else {
        None
    }
}

/// Returns whether a part of a key can begin at the offset `at`: `.`, `{` or `,` is before it, or only blanks on its
/// line.
fn begins_key(text: &str, at: usize) -> bool {
    matches!(byte_before(text, at), b'.' | b'{' | b',') || first_of_line(text, at) == at
}

/// Returns the start of the key that ends at `end`. A key that ends with a quote is taken to begin at the nearest
/// quote, backtick or line end before that. Any other key is the run of bytes of the class `Dotted` that ends at `end`.
fn key_start(text: &str, end: usize) -> usize {
    if matches!(byte_before(text, end), b'"' | b'\'') {
        start_of(Class::Unquoted, text, end.saturating_sub(1)).saturating_sub(1)
    } else {
        start_of(Class::Dotted, text, end)
    }
}

/// Returns the end of the value at `at`. A string is taken to end after the next quote, backtick or line end. Any other
/// value is a word, unless it is in brackets.
fn value_end(text: &str, at: usize) -> usize {
    match byte_at(text, at) {
        b'"' | b'\'' => { ahead(text, end_of(Class::Unquoted, text, ahead(text, at, 1)), 1) }
        b'[' | b'{' => bracketed_end(text, at),
        _ => end_of(Class::Word, text, at),
    }
}

/// Returns whether the word from `at` to `end` looks like a decimal integer, or like a float without an exponent.
fn is_number(text: &str, at: usize, end: usize) -> bool {
    let digits = after_sign(text, at);
    let point = end_of(Class::Grouped, text, digits);
    let other = ahead(text, point, 1);
    if digits == point || byte_at(text, digits) == b'0' && point != ahead(text, digits, 1) {
        return false;
    }
    point == end
        || byte_at(text, point) == b'.' && other < end && end_of(Class::Digit, text, other) == end
}

/// Returns whether the word from `at` to `end` looks like a value. Such a word begins with a quote, bracket or brace,
/// or is a number (`is_number`), a date, a boolean, `inf` or `nan`.
fn is_value(text: &str, at: usize, end: usize) -> bool {
    match byte_at(text, at) {
        b'"' | b'\'' | b'[' | b'{' => true,
        _ if is_number(text, at, end) => true,
        _ if is_date(text, at, end) => true,
        _ => is_named(part(text, at, end)),
    }
}

/// Returns whether a word is a boolean, `inf` or `nan`.
fn is_named(word: &str) -> bool {
    matches!(word, "true" | "false" | "inf" | "nan")
}

/// Returns a finding that marks the span `mark`, with a replacement of the span `edit` by `code` that is not safe.
fn doubtful<'a>(mistake: Mistake, mark: Span, edit: Span, code: Code<'a>) -> Finding<'a> {
    safe_if(mended(mistake, mark, edit, code), false)
}

/// Returns the finding for `key`, a sign other than `=`, and the word at `at`. `mark` is the span of the sign, `edit`
/// the span of all three. `known` says what to write instead of the word. If `known.code` is empty, the finding only
/// marks the word. Otherwise it marks the sign, and replaces `edit`.
fn known_pair<'a>(
    mistake: Mistake,
    key: &'a str,
    mark: Span,
    edit: Span,
    at: usize,
    known: Substitute,
) -> Finding<'a> {
    if known.code.is_empty() {
        return marked(known.mistake, at, edit.end);
    }
    doubtful(mistake, mark, edit, pieces(key, " = ", known.code))
}

/// Returns the finding for `key`, a sign other than `=`, and the word at `at`, which is not a value. `mark` is the span
/// of the sign, `edit` the span of all three. For a word that `known_word` recognizes, returns the finding of
/// `known_pair`. Otherwise the replacement puts the whole value in quotes, if its end is certain (`whole_end`) and the
/// value does not begin with a quote.
fn other_word<'a>(
    mistake: Mistake,
    text: &'a str,
    key: &'a str,
    mark: Span,
    edit: Span,
    at: usize,
) -> Finding<'a> {
    let end = whole_end(text, at);
    if let Some(known) = known_word(part(text, at, edit.end)) {
        if ends_value(text, edit.end) {
            return known_pair(mistake, key, mark, edit, at, known);
        }
    }
    let quote = quote_for(text, at, end);
    if end <= at || quote.is_empty() || matches!(byte_at(text, at), b'"' | b'\'') {
        return only_marked(mistake, mark.start, mark.end);
    }
    let code = six(key, " = ", quote, part(text, at, end), quote, "");
    doubtful(mistake, mark, span_of(edit.start, end), code)
}

/// Returns the finding for the sign in `from..to`, which is written instead of `=` between a key and a value. The sign
/// is empty if `=` is missing.
pub(crate) fn other_sign<'a>(
    mistake: Mistake,
    text: &'a str,
    from: usize,
    to: usize,
) -> Finding<'a> {
    let end = start_of(Class::Blank, text, from);
    let start = key_start(text, end);
    let value = end_of(Class::Blank, text, to);
    let stop = value_end(text, value);
    let key = part(text, start, end);
    let (mark, edit) = (span_of(from, to), span_of(start, stop));
    if is_value(text, value, stop) && ends_value(text, stop) {
        mended(
            mistake,
            mark,
            edit,
            pieces(key, " = ", part(text, value, stop)),
        )
    } else {
        other_word(mistake, text, key, mark, edit, value)
    }
}

/// Returns the code that ends an array, after the text of its last element. `are_values` is set if the elements need no
/// quotes. `has_more` is set if more elements follow, for which `, ..` is written.
fn closing_of(are_values: bool, has_more: bool) -> &'static str {
    match (are_values, has_more) {
        (true, true) => ", ..]",
        (true, false) => "]",
        (false, true) => "\", ..]",
        (false, false) => "\"]",
    }
}

/// Returns the finding for a list in the style of YAML. Its key spans `start..end`, the colon after the key is at
/// `colon`, and the dash of its first item is at `dash`. The code is a header if the first item is a table, otherwise
/// an array of at most two items, and `..` for more.
fn yaml_list<'a>(
    text: &'a str,
    start: usize,
    end: usize,
    colon: usize,
    dash: usize,
) -> Finding<'a> {
    let mark = span_of(start, ahead(text, colon, 1));
    let key = part(text, start, end);
    let first = end_of(Class::Blank, text, ahead(text, dash, 1));
    let first_end = last_of_line(text, first);
    if byte_at(text, end_of(Class::Dotted, text, first)) == b':' {
        return without_replacement(YAML_ITEMS, mark, mark, pieces("[[", key, "]]"));
    }
    let next = end_of(Class::Gap, text, first_end);
    let second = end_of(Class::Blank, text, ahead(text, next, 1));
    let second_end = last_of_line(text, second);
    let has_more = begins(text, end_of(Class::Gap, text, second_end), b"- ");
    let are_values = is_value(text, first, first_end);
    let opening = if are_values { " = [" } else { " = [\"" };
    let comma = if are_values { ", " } else { "\", \"" };
    let closing = closing_of(are_values, has_more);
    let (one, other) = (part(text, first, first_end), part(text, second, second_end));
    if !begins(text, next, b"- ") {
        let code = six(key, opening, one, closing_of(are_values, false), "", "");
        return mended(YAML_LIST, mark, span_of(start, first_end), code);
    }
    let code = six(key, opening, one, comma, other, closing);
    if has_more {
        without_replacement(YAML_LIST, mark, mark, code)
    } else {
        mended(YAML_LIST, mark, span_of(start, second_end), code)
    }
}

/// Returns the finding for the colon at `at`, after a key in the style of YAML. Only blanks, and possibly a comment,
/// follow the colon on its line.
fn yaml<'a>(text: &'a str, at: usize) -> Finding<'a> {
    let next = ahead(text, at, 1);
    let below = end_of(Class::Gap, text, next);
    let end = start_of(Class::Blank, text, at);
    let start = key_start(text, end);
    if begins(text, below, b"- ") {
        return yaml_list(text, start, end, at, below);
    }
    replaced(
        YAML_TABLE,
        start,
        next,
        pieces("[", part(text, start, end), "]"),
    )
}

/// Returns the finding for the colon at `at` after a quoted key, as in JSON. The replacement also removes a comma at
/// the end of the line.
fn json_pair<'a>(text: &'a str, at: usize) -> Finding<'a> {
    let mut found = other_sign(JSON, text, at, ahead(text, at, 1));
    if let Some(edit) = found.edit {
        let end = ahead(text, edit.end, 1);
        if byte_at(text, edit.end) == b',' && is_last(text, end) {
            found.edit = Some(span_of(edit.start, end));
        }
    }
    found
}

/// Returns the finding for the colon at `at`, which is written instead of `=`.
fn colon<'a>(text: &'a str, at: usize) -> Finding<'a> {
    let next = ahead(text, at, 1);
    if begins(text, at, b":=") {
        other_sign(COLON_EQUALS, text, at, ahead(text, at, 2))
    } else if is_last(text, next) || byte_after(text, next) == b'#' {
        yaml(text, at)
    } else if byte_before(text, at) == b'"' {
        json_pair(text, at)
    } else if begins_pair(text, end_of(Class::Blank, text, next)) {
        marked(COLON_AND_EQUALS, start_of(Class::Dotted, text, at), next)
    } else {
        other_sign(COLON, text, at, next)
    }
}

/// Returns whether one or more words and `=` follow at `at`.
fn begins_pair(text: &str, at: usize) -> bool {
    let equals = end_of(Class::Spaced, text, at);
    at < equals && byte_at(text, equals) == b'='
}

/// Returns whether the word is a keyword, such as `let`, that other languages write before a key or an assignment.
fn is_keyword(word: &str) -> bool {
    matches!(word, "export" | "let" | "var" | "const" | "set" | "local")
}

/// Returns the finding for a key that ends at `end`, with no `=` after it, or for the marker `---` of YAML.
fn lone_key<'a>(text: &'a str, end: usize) -> Finding<'a> {
    let start = key_start(text, end);
    match part(text, start, end) {
        "---" => marked(DOCUMENT_MARKER, start, end),
        _ => marked(NO_VALUE, start, end),
    }
}

/// Returns the finding for a key of several words, or for a keyword before a key. The first word ends at `end`, the
/// second begins at `at`, and the `=` after the key is at `stop`.
fn spaced_key<'a>(text: &'a str, end: usize, at: usize, stop: usize) -> Finding<'a> {
    let start = start_of(Class::Name, text, end);
    if is_keyword(part(text, start, end)) {
        return removed(KEYWORD, start, at);
    }
    let from = end_of(Class::Blank, text, start_of(Class::Spaced, text, at));
    let to = start_of(Class::Blank, text, stop);
    in_quotes(BARE_KEY, text, from, to)
}

/// Returns the finding for an item of a YAML list. Its dash is at `dash`, its first word at `at`.
fn yaml_item<'a>(text: &'a str, dash: usize, at: usize) -> Finding<'a> {
    let end = last_of_line(text, at);
    let mark = span_of(dash, ahead(text, dash, 1));
    if byte_at(text, end_of(Class::Left, text, at)) == b'=' {
        mended(
            YAML_ITEM,
            mark,
            span_of(dash, end),
            pieces(part(text, at, end), "", ""),
        )
    } else {
        without_replacement(YAML_ITEMS, mark, mark, pieces("[[name]]", "", ""))
    }
}

/// Returns whether a header such as `[package]` is at `at`, rather than an array, up to the end of the line or a
/// comment.
fn begins_header(text: &str, at: usize) -> bool {
    let name = ahead(text, at, if begins(text, at, b"[[") { 2 } else { 1 });
    let end = end_of(Class::Dotted, text, name);
    let width = if begins(text, end, b"]]") { 2 } else { 1 };
    let last = ahead(text, end, width);
    byte_at(text, at) == b'['
        && byte_at(text, end) == b']'
        && name < end
        && !is_value(text, name, end)
        && (is_last(text, last) || byte_after(text, last) == b'#')
}

/// Recognizes an index, as in `a[0] = 1`. The key before the bracket at `at` ends there.
fn index<'a>(text: &'a str, at: usize) -> Option<Finding<'a>> {
    let start = key_start(text, at);
    let end = end_of(Class::Digit, text, ahead(text, at, 1));
    if byte_at(text, at) == b'[' && byte_at(text, end) == b']' {
        let span = span_of(start, ahead(text, end, 1));
        let code = pieces(part(text, start, at), " = [..]", "");
        Some(without_replacement(INDEX, span, span, code))
    } else {
        None
    }
}

/// Recognizes the mistake in the token at `at`, where `=` is expected. The key before the token ends at `end`.
fn second_word<'a>(text: &'a str, end: usize, at: usize) -> Option<Finding<'a>> {
    let first = first_of_line(text, at);
    let stop = end_of(Class::Spaced, text, at);
    if begins(text, first, b"- ")
        && first_of_line(text, end) == start_of(Class::Dotted, text, end)
    {
        Some(yaml_item(text, first, at))
    } else if begins(text, first, b"-- ") {
        Some(comment(DASHES, text, first, 2))
    } else if end == at {
        match index(text, at) {
            Some(found) => Some(found),
            None => other_key(text, at),
        }
    } else if is_assigning(text, at) {
        Some(operator(text, at))
    } else if begins_header(text, at) {
        Some(marked(LATE_HEADER, at, last_of_line(text, at)))
    } else if byte_at(text, stop) == b'=' {
        Some(spaced_key(text, end, at, stop))
    } else if byte_at(text, end_of(Class::Left, text, at)) == b'=' {
        None
    } else {
        Some(other_sign(NO_EQUALS, text, at, at))
    }
}

/// Returns the finding for the comma or `}` at `at`, after a key that ends at `end`: an array in braces if the key
/// looks like a value, otherwise a key without a value.
fn braced<'a>(text: &'a str, end: usize, at: usize) -> Finding<'a> {
    let start = key_start(text, end);
    let open = start_of(Class::Blank, text, start).saturating_sub(1);
    let content = ahead(text, open, 1);
    let close = end_of(Class::Enclosed, text, at);
    let last = ahead(text, close, 1);
    if byte_at(text, open) != b'{' || !is_value(text, start, end) {
        return marked(NO_VALUE, start, end);
    }
    if byte_at(text, close) != b'}' || !ends_value(text, last) {
        return marked(BRACED_ARRAY, open, content);
    }
    let code = pieces("[", part(text, content, close), "]");
    replaced(BRACED_ARRAY, open, last, code)
}

/// Recognizes the mistake in the token at `at`, where `=` is expected.
pub(crate) fn at_equals<'a>(text: &'a str, at: usize) -> Option<Finding<'a>> {
    let end = start_of(Class::Blank, text, at);
    match byte_at(text, at) {
        b':' => Some(colon(text, at)),
        b',' | b'}' => Some(braced(text, end, at)),
        _ if is_end(text, at) => Some(lone_key(text, end)),
        _ => second_word(text, end, at),
    }
}

/// Recognizes the mistake in the brace at `at`, where a key is expected.
fn brace<'a>(text: &'a str, at: usize) -> Option<Finding<'a>> {
    let before = at.saturating_sub(1);
    let next = ahead(text, at, 1);
    if begins(text, before, b"{{") && at != before {
        Some(placeholder(text, before))
    } else if begins(text, at, b"{{") || begins(text, at, b"{%") || begins(text, at, b"{#") {
        Some(marked(TEMPLATE_LINE, at, last_of_line(text, at)))
    } else if byte_at(text, end_of(Class::Gap, text, next)) == b'"' {
        Some(marked(JSON_DOCUMENT, at, next))
    } else {
        brace_header(text, at)
    }
}

/// Recognizes a header in braces that begins at `at`.
fn brace_header<'a>(text: &'a str, at: usize) -> Option<Finding<'a>> {
    let name = ahead(text, at, 1);
    let end = end_of(Class::Dotted, text, name);
    if name < end && byte_at(text, end) == b'}' && is_last(text, ahead(text, end, 1)) {
        let code = pieces("[", part(text, name, end), "]");
        Some(replaced(BRACE_HEADER, at, ahead(text, end, 1), code))
    } else {
        None
    }
}

/// Returns the finding for a placeholder of a template, such as `{{ name }}`, that begins at `at`. The replacement puts
/// the whole value in quotes.
fn placeholder<'a>(text: &'a str, at: usize) -> Finding<'a> {
    let close = end_of(Class::Enclosed, text, at);
    let end = ahead(text, close, 2);
    if are_all(Class::Unquoted, text, at, close)
        && begins(text, close, b"}}")
        && ends_value(text, end)
    {
        in_quotes(TEMPLATE, text, at, end)
    } else if at < whole_end(text, at) {
        in_quotes(TEMPLATE, text, at, whole_end(text, at))
    } else {
        marked(TEMPLATE, at, ahead(text, at, 2))
    }
}

/// Returns the finding for the extra dot, comma or bracket at `at`.
pub(crate) fn extra<'a>(mistake: Mistake, text: &'a str, at: usize) -> Finding<'a> {
    removed(mistake, at, ahead(text, at, 1))
}

/// Returns the finding for the token at `at`, where a key is expected. The finding has the mistake `mistake`, unless an
/// extra dot or a merge conflict explains the token.
pub(crate) fn missing_key<'a>(mistake: Mistake, text: &'a str, at: usize) -> Finding<'a> {
    if byte_before(text, at) == b'.' {
        let end = start_of(Class::Blank, text, at);
        extra(EXTRA_DOT, text, end.saturating_sub(1))
    } else if begins(text, at, b"=======") {
        marked(CONFLICT, at, last_of_line(text, at))
    } else {
        marked(mistake, at, ahead(text, at, 1))
    }
}

/// Recognizes the mistake in the token at `at`, where a key is expected.
pub(crate) fn at_key<'a>(text: &'a str, at: usize) -> Option<Finding<'a>> {
    match byte_at(text, at) {
        b'.' => Some(extra(EXTRA_DOT, text, at)),
        b',' => Some(extra(EXTRA_COMMA, text, at)),
        b'=' => Some(missing_key(NO_KEY, text, at)),
        b']' | b'}' => closing(text, at),
        b'{' => brace(text, at),
        _ if is_end(text, at) => unfinished_key(text, at),
        _ => None,
    }
}
