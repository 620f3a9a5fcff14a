//! Lists the uses of syntax that TOML 1.0 lacks.
ghost use Rattle.std.specs.Prelude.{◌≡◌, ◌<◌, ◌+◌, ◌++◌, IfOk, OnOk, map, length};
ghost use Rattle.toml_span_read.specs.Data.{parsed_section, parsed_value, parsed_assignment, parts, onto, no_items};
ghost use Rattle.toml_span_read.specs.Data.{pairs_onto, no_pairs, simple_key};
ghost use Rattle.toml_span_tree.specs.Value.{date_bytes};
ghost use Rattle.toml_span_places.specs.Newer as spec;

use crate::keys::with_quotes;
use crate::literals::byte_before;
use crate::points::text_start;
use std::alloc::{AllocError, Global};
use toml_span_lex::bytes::is_blank;
use toml_span_lex::key::Key;
use toml_span_lex::span::Span;
use toml_span_read::gaps::byte_at;
use toml_span_read::{Assignment, DottedKey, Section, Val, ValKind};
use toml_span_tree::DateText;

/// A kind of syntax that TOML 1.0 lacks. The last three are not in any version of TOML, but this parser accepts them.
#[derive(Clone, Copy, Debug, PartialEq, Eq)]
pub enum NewerKind {
    /// A line end in an inline table, outside its pairs.
    LineEnd,
    /// A comment in an inline table, outside its pairs. The span does not include its line end.
    Comment,
    /// The comma after the last pair of an inline table.
    TrailingComma,
    /// The escape `\e` for U+001B.
    EscapeEscape,
    /// An escape `\xHH`.
    HexEscape,
    /// A time without seconds, alone or after a date.
    NoSeconds,
    /// A line end before or after the `=` of a pair in an inline table.
    LineEndAtEquals,
    /// A comment before or after the `=` of a pair in an inline table. The span does not include its line end.
    CommentAtEquals,
    /// A byte order mark at the start of the text.
    ByteOrderMark,
}

/// One use of syntax that TOML 1.0 lacks.
#[derive(Clone, Copy, Debug, PartialEq, Eq)]
pub struct NewerForm {
    pub kind: NewerKind,
    /// The bytes of the line end, comment, comma, escape or byte order mark; for a time, its hours and minutes.
    pub span: Span,
}

/// The kind of a gap in an inline table. A gap lies between a key, value or brace and the next one. It consists of
/// blanks, line ends and comments, and may have a comma or an `=`.
#[derive(Clone, Copy)]
pub(crate) enum Gap {
    /// After the opening brace, or between two pairs.
    BeforePair,
    /// Around the `=` of a pair, between the key and the value.
    AtEquals,
    /// After the last pair, before the closing brace.
    AfterLast,
}

/// Appends to `out` a form of the kind `kind` with the span `start..end`.
fn push(
    kind: NewerKind,
    start: usize,
    end: usize,
    out: &mut Vec<NewerForm>,
) -> Result<(), AllocError>
    ensures { OnOk result (out.new.items ≡ out.old.items ++ spec.one_form kind start end) }
{
    let span = Span { start, end };
    out.push(NewerForm { kind, span })?;
    Ok(())
}

// ---- strings

/// Appends to `out` the escape whose letter is at the byte offset `at`, if it is `\e` or `\xHH`. `is_letter` says
/// whether the byte at `at` is the letter of an escape; if not, appends nothing.
///
/// `escape-seq-char =/ %x65`, `escape-seq-char =/ %x78 2HEXDIG` (TOML 1.1, String)
fn push_escape(
    text: &str,
    is_letter: bool,
    at: usize,
    out: &mut Vec<NewerForm>,
) -> Result<(), AllocError>
    requires { at < length text.now }
    ensures { OnOk result (out.new.items ≡ out.old.items ++ spec.escape text.now is_letter at) }
{
    match byte_at(text, at) {
        b'e' if is_letter => push(NewerKind::EscapeEscape, at.saturating_sub(1), at + 1, out),
        b'x' if is_letter => push(NewerKind::HexEscape, at.saturating_sub(1), at + 3, out),
        _ => Ok(()),
    }
}

/// Returns whether the byte at the byte offset `at + 1` is the letter of an escape. `is_letter` says the same about the
/// byte at `at`.
fn begins_escape(text: &str, is_letter: bool, at: usize) -> bool
    ensures { result ≡ spec.begins_escape text.now is_letter at }
{
    !is_letter && byte_at(text, at) == b'\\'
}

/// Appends to `out` each `\e` and `\xHH` in the string or key with the span `span`. Appends nothing for a literal
/// string or a bare key.
#[tactic(auto, using(crate::proofs::Uses::escapes_next, crate::proofs::Uses::escapes_end))]
fn push_escapes(text: &str, span: Span, out: &mut Vec<NewerForm>) -> Result<(), AllocError>
    ensures { OnOk result (out.new.items ≡ out.old.items ++ spec.string_forms text.now span) }
{
    if span.end >= text.len() || byte_at(text, span.end) != b'"' {
        return Ok(());
    }
    let mut is_letter = false;
    for at in span.start..span.end {
        push_escape(text, is_letter, at, out)?;
        is_letter = begins_escape(text, is_letter, at);
    }
    Ok(())
}

/// Appends to `out` each `\e` and `\xHH` in `keys`.
fn push_keys<'de>(text: &str, keys: &[Key<'de>], out: &mut Vec<NewerForm>) -> Result<(), AllocError>
    ensures { OnOk result (out.new.items ≡ out.old.items ++ spec.key_forms text.now (map simple_key keys.now)) }
{
    for key in keys {
        push_escapes(text, key.span, out)?;
    }
    Ok(())
}

/// Appends to `out` each `\e` and `\xHH` in the parts of `key`.
fn push_parts<'de>(
    text: &str,
    key: &DottedKey<'de>,
    out: &mut Vec<NewerForm>,
) -> Result<(), AllocError>
    ensures { OnOk result (out.new.items ≡ out.old.items ++ spec.key_forms text.now (parts key.now)) }
{
    push_keys(text, key.inner.as_slice(), out)?;
    push_escapes(text, key.last.span, out)
}

// ---- dates and times

/// Returns the byte offset in `date` at which the time begins: 0 for a time alone, otherwise 11. A date alone ends
/// before 11.
fn time_start(date: &str) -> usize
    ensures { result ≡ spec.time_start date.now }
{
    if byte_at(date, 2) == b':' { 0 } else { 11 }
}

/// Appends the form `NoSeconds` to `out` if `date` has a time without seconds. `span` is the span of the value.
fn push_date<'de>(
    date: &DateText<'de>,
    span: Span,
    out: &mut Vec<NewerForm>,
) -> Result<(), AllocError>
    ensures { OnOk result (out.new.items ≡ out.old.items ++ spec.date_forms (date_bytes date.now) span) }
{
    let date = date.text();
    let start = time_start(date);
    let end = start + 5;
    if date.len() <= start || byte_at(date, end) == b':' {
        return Ok(());
    }
    let start = span.end.saturating_sub(date.len() - start);
    let end = span.end.saturating_sub(date.len().saturating_sub(end));
    push(NewerKind::NoSeconds, start, end, out)
}

// ---- gaps in inline tables

/// Returns the start of the line end whose line feed is at the byte offset `at`: `at - 1` for CRLF, otherwise `at`.
fn line_end_start(text: &str, at: usize) -> usize
    ensures { result ≡ spec.line_end_start text.now at }
{
    if byte_before(text, at, 1) == b'\r' {
        at.saturating_sub(1)
    } else {
        at
    }
}

/// Returns the `NewerKind` of a comment in a gap of this kind.
fn comment_kind(gap: Gap) -> NewerKind
    ensures { result ≡ spec.comment_kind gap }
{
    match gap {
        Gap::BeforePair | Gap::AfterLast => NewerKind::Comment,
        Gap::AtEquals => NewerKind::CommentAtEquals,
    }
}

/// Returns the `NewerKind` of a line end in a gap of this kind.
fn line_end_kind(gap: Gap) -> NewerKind
    ensures { result ≡ spec.line_end_kind gap }
{
    match gap {
        Gap::BeforePair | Gap::AfterLast => NewerKind::LineEnd,
        Gap::AtEquals => NewerKind::LineEndAtEquals,
    }
}

/// Appends to `out` the line end whose line feed is at the byte offset `at`, in a gap of the kind `gap`. If `comment`
/// is not `None`, it is the start of the comment that ends at this line end, and this comment is appended first.
fn push_line_end(
    text: &str,
    gap: Gap,
    comment: Option<usize>,
    at: usize,
    out: &mut Vec<NewerForm>,
) -> Result<(), AllocError>
    requires { at < length text.now }
    ensures { OnOk result (out.new.items ≡ out.old.items ++ spec.line_end text.now gap comment at) }
{
    let end = line_end_start(text, at);
    if let Some(start) = comment {
        push(comment_kind(gap), start, end, out)?;
    }
    push(line_end_kind(gap), end, at + 1, out)
}

/// Appends to `out` the newer forms that end with the byte at the offset `at`, in a gap of the kind `gap`: a line end
/// and the comment before it, or the trailing comma. `comment` is the start of the comment that this byte continues or
/// ends, or `None` outside comments.
fn push_byte(
    text: &str,
    gap: Gap,
    comment: Option<usize>,
    at: usize,
    out: &mut Vec<NewerForm>,
) -> Result<(), AllocError>
    requires { at < length text.now }
    ensures { OnOk result (out.new.items ≡ out.old.items ++ spec.byte_forms text.now gap comment at) }
{
    match byte_at(text, at) {
        b'\n' => push_line_end(text, gap, comment, at, out),
        b',' if matches!(gap, Gap::AfterLast) && comment.is_none() => {
            push(NewerKind::TrailingComma, at, at + 1, out)
        }
        _ => Ok(()),
    }
}

/// Returns whether `byte` may occur in a gap, outside comments.
fn is_between(byte: u8) -> bool
    ensures { result ≡ spec.is_between byte }
{
    is_blank(byte) || matches!(byte, b'\n' | b'\r' | b'#' | b',' | b'=')
}

/// Returns whether the gap ends at the byte offset `at`: outside comments, at a key, a value or a brace. `comment` is
/// the start of the comment that the byte at `at` continues or ends, or `None` outside comments.
fn ends_gap(text: &str, comment: Option<usize>, at: usize) -> bool
    ensures { result ≡ spec.ends_gap text.now comment at }
{
    comment.is_none() && !is_between(byte_at(text, at))
}

/// Returns the start of the comment that the byte at the byte offset `at + 1` continues or ends, or `None` outside
/// comments. `comment` is the same for the byte at `at`.
fn next_comment(text: &str, comment: Option<usize>, at: usize) -> Option<usize>
    ensures { result ≡ spec.next_comment text.now comment at }
{
    match byte_at(text, at) {
        b'\n' => None,
        b'#' => Some(comment.unwrap_or(at)),
        _ => comment,
    }
}

/// Appends to `out` the newer forms in the gap of the kind `gap` that begins at the byte offset `from`, up to the next
/// key, value or brace.
#[tactic(auto, using(crate::proofs::Uses::gap_next, crate::proofs::Uses::gap_stop, crate::proofs::Uses::gap_end))]
fn push_gap(text: &str, gap: Gap, from: usize, out: &mut Vec<NewerForm>) -> Result<(), AllocError>
    ensures { OnOk result (out.new.items ≡ out.old.items ++ spec.gap_forms text.now gap from) }
{
    let mut comment = None;
    for at in from..text.len() {
        if ends_gap(text, comment, at) {
            return Ok(());
        }
        push_byte(text, gap, comment, at, out)?;
        comment = next_comment(text, comment, at);
    }
    Ok(())
}

/// Appends to `out` the newer forms in the gap after the opening brace at the byte offset `at`.
#[tactic(auto, using(crate::proofs::Uses::gap_past))]
fn push_opened(text: &str, at: usize, out: &mut Vec<NewerForm>) -> Result<(), AllocError>
    ensures { OnOk result (out.new.items ≡ out.old.items ++ spec.gap_forms text.now Gap.BeforePair (at + 1)) }
{
    if at < text.len() {
        push_gap(text, Gap::BeforePair, at + 1, out)
    } else {
        Ok(())
    }
}

// ---- values

/// Returns the byte offset after a key, quotes included.
#[tactic(auto, using(crate::proofs::Uses::keys_end_last))]
fn key_end<'de>(text: &str, key: &DottedKey<'de>) -> usize
    ensures { result ≡ spec.keys_end text.now 0 (parts key.now) }
{
    with_quotes(text, key.last.span).end
}

/// Returns the kind of the gap after the pair at `position`, counted from 0, in an inline table with `count` pairs.
fn gap_after(position: usize, count: usize) -> Gap
    requires { position < count }
    ensures { result ≡ spec.gap_after position count }
{
    if position + 1 == count {
        Gap::AfterLast
    } else {
        Gap::BeforePair
    }
}

/// Appends to `out` the newer forms in a pair of an inline table, and in the gap after the pair, which is of the kind
/// `after`.
#[cycle(push_value)]
fn push_pair<'de>(
    text: &str,
    pair: &Assignment<'de>,
    after: Gap,
    out: &mut Vec<NewerForm>,
) -> Result<(), AllocError>
    ensures { OnOk result (out.new.items
        ≡ out.old.items ++ spec.pair_forms text.now (parsed_assignment pair.now) after) }
{
    push_parts(text, &pair.parts, out)?;
    push_gap(text, Gap::AtEquals, key_end(text, &pair.parts), out)?;
    push_value(text, &pair.value, out)?;
    push_gap(text, after, pair.extent.end, out)
}

/// Appends to `out` the newer forms in the pairs of an inline table, and in the gaps after them.
#[cycle(push_value)]
fn push_pairs<'de>(
    text: &str,
    pairs: &[Assignment<'de>],
    out: &mut Vec<NewerForm>,
) -> Result<(), AllocError>
    ensures { OnOk result (out.new.items ≡ out.old.items
        ++ spec.pairs_forms text.now (pairs_onto (map parsed_assignment pairs.now) no_pairs)) }
{
    for (position, pair) in pairs.iter().enumerate() {
        push_pair(text, pair, gap_after(position, pairs.len()), out)?;
    }
    Ok(())
}

/// Appends to `out` the newer forms in the elements of an array.
#[cycle(push_value)]
fn push_items<'de>(
    text: &str,
    items: &[Val<'de>],
    out: &mut Vec<NewerForm>,
) -> Result<(), AllocError>
    ensures { OnOk result (out.new.items ≡ out.old.items
        ++ spec.items_forms text.now (onto (map parsed_value items.now) no_items)) }
{
    for item in items {
        push_value(text, item, out)?;
    }
    Ok(())
}

/// Appends to `out` the newer forms in `value`.
#[cycle(push_value)]
fn push_value<'de>(text: &str, value: &Val<'de>, out: &mut Vec<NewerForm>) -> Result<(), AllocError>
    ensures { OnOk result (out.new.items ≡ out.old.items ++ spec.value_forms text.now (parsed_value value.now)) }
{
    match &value.kind {
        ValKind::String(_) => push_escapes(text, value.span, out),
        ValKind::Datetime(date) => push_date(date, value.span, out),
        ValKind::Array(items) => push_items(text, items.as_slice(), out),
        ValKind::Inline(pairs) => {
            push_opened(text, value.span.start, out)?;
            push_pairs(text, pairs.as_slice(), out)
        }
        ValKind::Integer(_) | ValKind::Float(_) | ValKind::Boolean(_) => Ok(()),
    }
}

// ---- the document

/// Appends to `out` the newer forms in `assignments`.
fn push_assignments<'de>(
    text: &str,
    assignments: &[Assignment<'de>],
    out: &mut Vec<NewerForm>,
) -> Result<(), AllocError>
    ensures { OnOk result (out.new.items ≡ out.old.items
        ++ spec.assignments_forms text.now (map parsed_assignment assignments.now)) }
{
    for assignment in assignments {
        push_parts(text, &assignment.parts, out)?;
        push_value(text, &assignment.value, out)?;
    }
    Ok(())
}

/// Lists each use of syntax that TOML 1.0 lacks, in the order of the text: forms that TOML 1.1 added, and forms that
/// only this parser accepts.
///
/// `sections` must be what `read_sections` returned for `text`. Takes time linear in the length of the text. Fails if
/// an allocation fails.
pub fn newer_forms<'de>(
    alloc: Global,
    text: &str,
    sections: &[Section<'de>],
) -> Result<Vec<NewerForm>, AllocError>
    ensures { IfOk result (λ forms. forms.items ≡ spec.newer_forms text.now (map parsed_section sections.now)) }
{
    let mut out = Vec::new(alloc);
    let start = text_start(text);
    if start != 0 {
        push(NewerKind::ByteOrderMark, 0, start, &mut out)?;
    }
    for section in sections {
        push_keys(text, section.header.as_slice(), &mut out)?;
        push_assignments(text, section.assignments.as_slice(), &mut out)?;
    }
    Ok(out)
}
