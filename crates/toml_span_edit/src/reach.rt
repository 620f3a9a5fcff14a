//! Finds where in the text the value at a path is written.
ghost use Rattle.std.specs.Prelude.{◌≡◌, IfOk, Ok, map, option_map};
ghost use Rattle.toml_span_read.specs.Data.{depth_limit, parsed_section};
ghost use Rattle.toml_span_read.specs.Read.{document as read};
ghost use Rattle.toml_span_tree.specs.Node.{entry_at};
ghost use Rattle.toml_span_tree.specs.Value.{inner_of, items_view, members_view, view};
ghost use Rattle.toml_span_places.specs.Lines.{after_line};
ghost use Rattle.toml_span_places.specs.Sections.{section_mention};
ghost use Rattle.toml_span_edit.specs.Kept as spec;

use crate::document::Document;
use crate::made::child;
use crate::paths::names_first;
use crate::reason::{Edited, Reason};
use toml_span::value::{Table, Value, ValueInner};
use toml_span::{Span, Stop};
use toml_span_places::{SectionPlace, literal_span, section_places};
use toml_span_read::gaps::byte_at;

/// Returns the smallest span that contains both spans.
fn hull(one: Span, other: Span) -> Span
    ensures { result ≡ spec.hull one other }
{
    Span {
        start: if one.start <= other.start {
            one.start
        } else {
            other.start
        },
        end: if one.end <= other.end {
            other.end
        } else {
            one.end
        },
    }
}

/// Returns the smallest span that contains the `literal_span` of `value` and of each value inside it, and the spans of
/// the keys inside it.
#[cycle(reach)]
fn reach(text: &str, value: &Value<'_>) -> Span
    ensures { result ≡ spec.reach text.now (view value.now) }
{
    let own = literal_span(text, value);
    if value.is_taken() {
        return own;
    }
    match value.as_ref() {
        ValueInner::Array(array) => items_reach(text, own, array.as_slice()),
        ValueInner::Table(table) => entries_reach(text, own, table),
        _ => own,
    }
}

/// Returns the smallest span that contains `own` and the span that `reach` returns for each of `items`.
#[cycle(reach)]
fn items_reach(text: &str, own: Span, items: &[Value<'_>]) -> Span
    ensures { result ≡ spec.items_reach text.now own (items_view items.now) }
{
    let mut span = own;
    for item in items {
        span = hull(span, reach(text, item));
    }
    span
}

/// Returns the smallest span that contains `own` and, for each entry of `table`, the key's span and the span that
/// `reach` returns for the value.
#[cycle(reach)]
fn entries_reach(text: &str, own: Span, table: &Table<'_>) -> Span
    ensures { result ≡ spec.members_reach text.now own (members_view table.now.entries) }
{
    let mut span = own;
    for (key, value) in table.iter() {
        span = hull(span, hull(key.span, reach(text, value)));
    }
    span
}

/// Returns the value of the entry `name`, and the span of its key. Returns `None` if the table lacks this entry.
fn entry<'v, 'de>(table: &'v Table<'de>, name: &str) -> Option<(Option<Span>, &'v Value<'de>)>
    ensures { option_map (λ e. (e.0, view e.1.now)) result ≡ entry_at name.now (members_view table.now.entries) }
{
    for (key, value) in table.iter() {
        if name == key.name.as_str() {
            return Some((Some(key.span), value));
        }
    }
    None
}

/// Returns the element, or the value of the entry, that `segment` names in `value`. An entry comes with the span of its
/// key. Returns `None` if `segment` names nothing.
pub(crate) fn named<'v, 'de>(
    value: &'v Value<'de>,
    segment: &str,
) -> Option<(Option<Span>, &'v Value<'de>)>
    ensures { option_map (λ e. (e.0, view e.1.now)) result ≡ spec.named segment.now (inner_of (view value.now)) }
{
    if let Some(table) = value.as_table() {
        return entry(table, segment);
    }
    match child(value, segment) {
        Some(below) => Some((None, below)),
        None => None,
    }
}

/// Returns the smallest span that contains `span` and, if there is one, the span `key`.
fn with_key(key: Option<Span>, span: Span) -> Span
    ensures { result ≡ spec.with_key key span }
{
    match key {
        Some(key) => hull(key, span),
        None => span,
    }
}

/// Returns the start of the line that contains the byte offset `at`.
pub(crate) fn line_start(text: &str, at: usize) -> usize
    ensures { result ≡ spec.line_start text.now at }
{
    let mut start = at;
    while start > 0 && byte_at(text, start - 1) != b'\n' {
        start -= 1;
    }
    start
}

/// Returns the byte offset after the first line feed at or after the offset `from`. Without such a line feed, returns
/// the length of `text` or, if larger, `from`.
pub(crate) fn after_line(text: &str, from: usize) -> usize
    ensures { result ≡ after_line text.now from }
{
    let bytes = text.as_bytes();
    for at in from..bytes.len() {
        if bytes[at] == b'\n' {
            return at + 1;
        }
    }
    bytes.len().max(from)
}

/// Returns the end of the line that contains the byte before the byte offset `end`, line end included. Returns 0 if
/// `end` is 0.
fn lines_end(text: &str, end: usize) -> usize
    ensures { result ≡ spec.lines_end text.now end }
{
    if end == 0 || byte_at(text, end - 1) == b'\n' {
        return end;
    }
    after_line(text, end)
}

/// Returns the span of the whole lines that contain `span`, including the last line end.
fn lines_around(text: &str, span: Span) -> Span
    ensures { result ≡ spec.lines_around text.now span }
{
    Span {
        start: line_start(text, span.start),
        end: lines_end(text, span.end),
    }
}

/// Returns whether `value` is an array and `byte` is `[`, or `value` is a table and `byte` is `{`.
fn opens(value: &Value<'_>, byte: u8) -> bool
    ensures { result ≡ spec.opens (inner_of (view value.now)) byte }
{
    if value.as_array().is_some() {
        return byte == b'[';
    }
    value.as_table().is_some() && byte == b'{'
}

/// Returns the span between the brackets or braces of `value`, if they enclose `span`. Otherwise returns `outer`.
fn held_in(text: &str, value: &Value<'_>, span: Span, outer: Option<Span>) -> Option<Span>
    ensures { result ≡ spec.held_in text.now (view value.now) span outer }
{
    let Span { start, end } = value.span;
    if start < span.start && span.end < end && opens(value, byte_at(text, start)) {
        let (start, end) = (start + 1, end - 1);
        return Some(Span { start, end });
    }
    outer
}

/// Returns the span between the innermost brackets or braces around the value at `path` or, without these, the span of
/// the value's lines. Returns `None` if `path` is empty or names nothing. `path` begins at `value`, and `outer` is the
/// span between the brackets or braces around `value`, if any.
fn room(text: &str, path: &[&str], outer: Option<Span>, value: &Value<'_>) -> Option<Span>
    ensures { result ≡ spec.room text.now (map (λ s. s.now) path.now) outer (view value.now) }
{
    let [segment, rest @ ..] = path else {
        return None;
    };
    let (key, below) = named(value, *segment)?;
    let span = with_key(key, reach(text, below));
    let held = held_in(text, value, span, outer);
    if rest.is_empty() {
        return Some(held.unwrap_or(lines_around(text, span)));
    }
    room(text, rest, held, below)
}

/// Returns the smallest span that contains `span` and the lines of each section in `places` whose path begins with
/// `path`.
fn with_sections(text: &str, path: &[&str], span: Span, places: &[SectionPlace<'_>]) -> Span
    ensures { result ≡ spec.with_sections text.now (map (λ s. s.now) path.now) span
        (map section_mention places.now) }
{
    let mut around = span;
    for place in places {
        if names_first(path, place.path.as_slice()) {
            around = hull(around, lines_around(text, hull(place.header, place.body)));
        }
    }
    around
}

/// Returns a span that contains the whole value at `path`: the span that `room` returns, and the lines of the sections
/// of this value and of the tables inside it. `value` is the tree of `document`. Fails with `Nothing` if `path` is
/// empty or names nothing.
pub(crate) fn around(document: Document<'_, '_>, path: &[&str], value: &Value<'_>) -> Edited<Span>
    requires { read document.text.now depth_limit (Ok (map parsed_section document.sections.now)) }
    ensures { IfOk result (λ span. spec.IsAround (map (λ s. s.now) path.now) (view value.now)
        document.entry.text.now span) }
{
    let Some(inner) = room(document.text, path, None, value) else {
        return Err(Stop::Fault(Reason::Nothing));
    };
    let places = section_places(document.alloc, document.text, document.sections)?;
    Ok(with_sections(document.text, path, inner, places.as_slice()))
}
