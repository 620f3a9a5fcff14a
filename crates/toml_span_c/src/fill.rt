//! Writes the records and strings of a document into the caller's two arrays.
ghost use Rattle.std.specs.Prelude.{◌≡◌, ◌≤◌, ◌+◌, ◌++◌, ◌∷◌, [], ℕ, suc, false, length, option_map};
ghost use Rattle.toml_span_lex.specs.declared.span.Span.{Span};
ghost use Rattle.toml_span_tree.specs.Value.{view, inner_of, items_view, members_view, is_taken};
ghost use Rattle.toml_span_c.specs.Records as spec;
ghost use Rattle.toml_span_c.specs.code.Filling.{laid, Fits, IsAt, Puts, PutsBytes};
ghost use Rattle.toml_span_c.specs.code.Sites.{begun, entries_at};

use crate::records::{
    Counts, NONE, Range, Record, Text, boolean_of, children_of, integer_of, kind_of, number_of,
    text_of,
};
use toml_span_lex::span::Span;
use toml_span_tree::{Table, Value};

/// Where a value is in the tree: the name and span of its key, if it has one, the index of its parent's record, and its
/// position in the parent.
#[derive(Clone, Copy)]
pub(crate) struct Site<'a> {
    name: Option<&'a str>,
    key_span: Span,
    parent: usize,
    position: usize,
}

/// Returns whether the bytes of the document at `span` are exactly `text`.
fn is_written_at(document: &str, span: Span, text: &str) -> bool
    ensures { result ≡ spec.is_written_at document.now span text.now }
{
    match document.get(span.start..span.end) {
        Some(there) => there == text,
        None => span.start == span.end && span.end <= document.len() && text.is_empty(),
    }
}

/// Returns the length of an array.
fn room_of<T>(array: &[T]) -> usize
    ensures { result ≡ length array.now }
{
    array.len()
}

/// Writes the bytes to `strings` from the index `count` on, as far as they fit. Adds the length of `bytes` to `count`,
/// even if they don't fit.
fn put_bytes(strings: &mut [u8], count: &mut usize, bytes: &[u8])
    ensures { (m : ℕ) → count.old ≡ m → m + length bytes.now ≤ NONE
        → PutsBytes m bytes.now strings.old strings.new count.new }
{
    let at = *count;
    let room = room_of(strings);
    if at < room {
        let more = bytes.len().min(room - at);
        strings[at..at + more].copy_from_slice(&bytes[..more]);
    }
    *count = at.saturating_add(bytes.len());
}

/// Returns where C finds a text: in the document, if the document has exactly this text at `span`, otherwise in
/// `strings`, to which `put_bytes` then writes the text. For `None`, returns a `Text` without bytes.
#[inline(always)]
fn put_text(
    document: &str,
    span: Span,
    text: Option<&str>,
    strings: &mut [u8],
    count: &mut usize,
) -> Text
    ensures place { (m : ℕ) → count.old ≡ m
        → result ≡ spec.place_of document.now m span (option_map (λ s. s.now) text.entry) }
    ensures put { (m : ℕ) → count.old ≡ m
        → m + length (spec.aside document.now span (option_map (λ s. s.now) text.entry)) ≤ NONE
        → PutsBytes m (spec.aside document.now span (option_map (λ s. s.now) text.entry))
        strings.old strings.new count.new }
{
    let Some(text) = text else {
        return Text {
            source: 0,
            at: 0,
            length: 0,
        };
    };
    if is_written_at(document, span, text) {
        return Text {
            source: 0,
            at: span.start,
            length: text.len(),
        };
    }
    let at = *count;
    put_bytes(strings, count, text.as_bytes());
    Text {
        source: 1,
        at,
        length: text.len(),
    }
}

/// Writes a record at the index `at`, or nothing if the array is too short.
fn put_record(nodes: &mut [Record], at: usize, added: Record)
    ensures { nodes.new ≡ laid at (added ∷ []) nodes.old }
{
    let room = room_of(nodes);
    if at < room {
        nodes[at] = added;
    }
}

/// Returns the record of a value, with 0 as its `next`. Writes the name of the key and the text of the value as
/// `put_text` does.
#[inline(never)]
fn begin_record(
    document: &str,
    value: &Value<'_>,
    site: Site<'_>,
    strings: &mut [u8],
    count: &mut usize,
) -> Record
    requires { is_taken (view value.now) ≡ false }
    ensures begins { (m : ℕ) → count.old ≡ m
        → m + length (spec.entry_strings document.now (begun site.entry value.now)) ≤ NONE
        → result ≡ spec.record_of document.now m (begun site.entry value.now) }
    ensures put { (m : ℕ) → count.old ≡ m
        → m + length (spec.entry_strings document.now (begun site.entry value.now)) ≤ NONE
        → PutsBytes m (spec.entry_strings document.now (begun site.entry value.now))
        strings.old strings.new count.new }
{
    // Not inlined, so that temporary values do not take stack at every level of the recursion.
    let inner = value.as_ref();
    let key = put_text(document, site.key_span, site.name, strings, count);
    let text = put_text(document, value.span, text_of(inner), strings, count);
    Record {
        kind: kind_of(inner),
        boolean: boolean_of(inner),
        span: Range {
            start: value.span.start,
            end: value.span.end,
        },
        key_span: Range {
            start: site.key_span.start,
            end: site.key_span.end,
        },
        key,
        text,
        parent: site.parent,
        position: site.position,
        children: children_of(inner),
        next: 0,
        integer: integer_of(inner),
        number: number_of(inner),
    }
}

/// Writes the record of a value, and then those of the values inside it, with their strings, as far as they fit. Adds
/// to `counts` the numbers of all these records and of all bytes of their strings. Does nothing for a taken value.
#[cycle(put_value)]
fn put_value(
    document: &str,
    value: &Value<'_>,
    site: Site<'_>,
    nodes: &mut [Record],
    strings: &mut [u8],
    counts: &mut Counts,
)
    ensures { (k m : ℕ) → IsAt k m counts.old → Fits document.now k m (entries_at k site.entry value.now)
        → Puts document.now k m (entries_at k site.entry value.now)
        nodes.old nodes.new strings.old strings.new counts.new }
{
    if value.is_taken() {
        return;
    }
    let at = counts.nodes;
    let mut record = begin_record(document, value, site, strings, &mut counts.strings);
    counts.nodes = at.saturating_add(1);
    put_held(document, value, at, nodes, strings, counts);
    record.next = counts.nodes;
    put_record(nodes, at, record);
}

/// Writes the records of the values inside `value`, as `put_value` does. `at` is the index of the record of `value`
/// itself.
#[cycle(put_value)]
fn put_held(
    document: &str,
    value: &Value<'_>,
    at: usize,
    nodes: &mut [Record],
    strings: &mut [u8],
    counts: &mut Counts,
)
    ensures { (k m : ℕ) → at ≡ k → IsAt (suc k) m counts.old
        → Fits document.now (suc k) m (spec.held_entries k (inner_of (view value.now)))
        → Puts document.now (suc k) m (spec.held_entries k (inner_of (view value.now)))
        nodes.old nodes.new strings.old strings.new counts.new }
{
    if let Some(elements) = value.as_array() {
        put_elements(document, elements.as_slice(), at, nodes, strings, counts);
    } else if let Some(table) = value.as_table() {
        put_entries(document, table, at, nodes, strings, counts);
    }
}

/// Writes the records of the elements of an array, as `put_value` does. `parent` is the index of the array's record.
#[cycle(put_value)]
fn put_elements(
    document: &str,
    elements: &[Value<'_>],
    parent: usize,
    nodes: &mut [Record],
    strings: &mut [u8],
    counts: &mut Counts,
)
    ensures { (k m : ℕ) → IsAt k m counts.old
        → Fits document.now k m (spec.items_entries k parent 0 (items_view elements.now))
        → Puts document.now k m (spec.items_entries k parent 0 (items_view elements.now))
        nodes.old nodes.new strings.old strings.new counts.new }
{
    let mut position = 0;
    while position < elements.len() {
        let site = Site {
            name: None,
            key_span: Span { start: 0, end: 0 },
            parent,
            position,
        };
        put_value(document, &elements[position], site, nodes, strings, counts);
        position += 1;
    }
}

/// Writes the records of the entries of a table, as `put_value` does, in the order of their names. `parent` is the
/// index of the table's record.
#[cycle(put_value)]
fn put_entries(
    document: &str,
    table: &Table<'_>,
    parent: usize,
    nodes: &mut [Record],
    strings: &mut [u8],
    counts: &mut Counts,
)
    ensures { (k m : ℕ) → IsAt k m counts.old
        → Fits document.now k m (spec.members_entries k parent 0 (members_view table.now.entries))
        → Puts document.now k m (spec.members_entries k parent 0 (members_view table.now.entries))
        nodes.old nodes.new strings.old strings.new counts.new }
{
    let mut position = 0usize;
    for (key, value) in table.iter() {
        let site = Site {
            name: Some(key.name.as_ref()),
            key_span: key.span,
            parent,
            position,
        };
        put_value(document, value, site, nodes, strings, counts);
        position += 1;
    }
}

/// Writes the records and strings of a document, as far as they fit. Returns the numbers of all records and of all
/// bytes of strings, even if they don't fit.
pub(crate) fn put_tree(
    document: &str,
    root: &Value<'_>,
    nodes: &mut [Record],
    strings: &mut [u8],
) -> Counts
    requires { Fits document.now 0 0 (spec.tree_entries (view root.now)) }
    ensures nodes { nodes.new ≡ spec.filled (spec.tree_records document.now (view root.now)) nodes.old }
    ensures strings { strings.new ≡ spec.filled (spec.tree_strings document.now (view root.now)) strings.old }
    ensures counts { result ≡ spec.tree_counts document.now (view root.now) }
{
    let mut counts = Counts {
        nodes: 0,
        strings: 0,
    };
    let site = Site {
        name: None,
        key_span: Span { start: 0, end: 0 },
        parent: NONE,
        position: 0,
    };
    put_value(document, root, site, nodes, strings, &mut counts);
    counts
}
