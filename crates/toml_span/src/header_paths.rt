//! Places the finished tables of sections in a finished table, at the paths of their headers.
ghost use Rattle.std.specs.Prelude.{◌≡◌, ◌++◌, ◌∷◌, ℕ, List, [], map, IfSome};
ghost use Rattle.toml_span_read.specs.Data.{simple_key, SimpleKey};
ghost use Rattle.toml_span.specs.Claims.{Claims};
ghost use Rattle.toml_span.specs.code.Built.{ArrayBuildsOn, BuildsOn, EntryBuildsOn, IsKeyFor, MakesEntry, PassesElement};
ghost use Rattle.toml_span.specs.code.Built.{PassesOn, Placed};
ghost use Rattle.toml_span.specs.code.Relative.{counts_after, counts_after_through, section_at, through};
ghost use Rattle.toml_span.specs.declared.claims.HeaderInfo.{HeaderInfo};

use crate::branch::in_order;
use std::alloc::Global;
use std::collections::BTreeMap;
use std::collections::btree_map::Entry;
use toml_span_lex::key::Key;
use toml_span_tree::{Array, Table, Value, ValueInner};

/// Places `value`, the table of a section, in `table` at the path `parts`, the remaining parts of the section's header.
/// If the header has double brackets (`array`), `value` becomes an element of the array at that path.
///
/// Returns `None` if `parts` is empty, or if the path goes through anything except tables that headers made and the last
/// elements of arrays of tables. Also returns `None` if the path has a value already, unless the header appends an
/// element to that value, or if an allocation fails. The contents of `table` are then unspecified.
#[cycle(header_paths)]
#[inline(always)]
pub(crate) fn place_table<'de>(
    alloc: Global,
    table: &mut Table<'de>,
    parts: &[Key<'de>],
    array: bool,
    value: Value<'de>,
) -> Option<()>
    ensures { (text : List ℕ) (h : HeaderInfo) (tail : Claims) → Placed text h tail parts.now array value.entry
        → IfSome result (λ _. BuildsOn text table.old table.new
        (λ e. section_at e h (map simple_key parts.now) tail) (λ e. counts_after e h (map simple_key parts.now))) }
{
    let [part, rest @ ..] = parts else {
        return None;
    };
    let key = match part.clone(alloc) {
        Ok(key) => key,
        Err(_) => return None,
    };
    match table.entry(key) {
        Ok(Entry::Occupied(entry)) => {
            if entry.get().span.start >= entry.key().span.start {
                return None;
            }
            pass_value(alloc, entry.into_mut(), rest, array, value)
        }
        Ok(Entry::Vacant(entry)) => {
            let made = new_value(alloc, rest, array, value)?;
            let _ = entry.insert(made);
            Some(())
        }
        Err(_) => None,
    }
}

/// Places `value`, the table of a section, in `child`, a value that headers made: in a table, at the path `rest`; in an
/// array, as `pass_array` does. Returns `None` in all other cases, or where these do; the contents of `child` are then
/// unspecified.
#[cycle(header_paths)]
fn pass_value<'de>(
    alloc: Global,
    child: &mut Value<'de>,
    rest: &[Key<'de>],
    array: bool,
    value: Value<'de>,
) -> Option<()>
    ensures { (text : List ℕ) (h : HeaderInfo) (tail : Claims) (k : Key) (part : SimpleKey)
        → Placed text h tail rest.now array value.entry
        → IfSome result (λ _. EntryBuildsOn text k child.old child.new
        (λ e. through e h part (map simple_key rest.now) tail)
        (λ e. counts_after_through e h (map simple_key rest.now))) }
{
    if child.is_taken() {
        return None;
    }
    let span = child.span;
    match child.take() {
        ValueInner::Table(below) => {
            let below = pass_table(alloc, below, rest, array, value)?;
            *child = Value::with_span(ValueInner::Table(below), span);
            Some(())
        }
        ValueInner::Array(elements) => {
            let elements = pass_array(alloc, elements, rest, array, value)?;
            *child = Value::with_span(ValueInner::Array(elements), span);
            Some(())
        }
        _ => None,
    }
}

/// Places `value`, the table of a section, in an array of tables: at the path `rest` in the last element or, if `rest`
/// is empty and `array` is true, as a new last element. Returns `None` if `rest` is empty and `array` is false, where
/// `place_table` does, or if an allocation fails.
#[cycle(header_paths)]
fn pass_array<'de>(
    alloc: Global,
    mut elements: Array<'de>,
    rest: &[Key<'de>],
    array: bool,
    value: Value<'de>,
) -> Option<Array<'de>>
    ensures { (text : List ℕ) (h : HeaderInfo) (tail : Claims) (k : Key) (part : SimpleKey)
        → Placed text h tail rest.now array value.entry
        → IfSome result (λ made. ArrayBuildsOn text k elements.entry made
        (λ e. through e h part (map simple_key rest.now) tail)
        (λ e. counts_after_through e h (map simple_key rest.now))) }
{
    if !rest.is_empty() {
        let latest = elements.pop()?;
        let passed = pass_element(alloc, latest, rest, array, value)?;
        return with_element(elements, passed);
    }
    if !array {
        return None;
    }
    with_element(elements, value)
}

/// Places `value`, the table of a section, in `element`, an element of an array of tables, at the path `rest`. Returns
/// `None` where `pass_table` does.
#[cycle(header_paths)]
fn pass_element<'de>(
    alloc: Global,
    mut element: Value<'de>,
    rest: &[Key<'de>],
    array: bool,
    value: Value<'de>,
) -> Option<Value<'de>>
    ensures { (text : List ℕ) (h : HeaderInfo) (tail : Claims) → Placed text h tail rest.now array value.entry
        → IfSome result (PassesElement text h tail (map simple_key rest.now) element.entry) }
{
    if element.is_taken() {
        return None;
    }
    let span = element.span;
    match element.take() {
        ValueInner::Table(below) => {
            let below = pass_table(alloc, below, rest, array, value)?;
            Some(Value::with_span(ValueInner::Table(below), span))
        }
        _ => None,
    }
}

/// Places `value`, the table of a section, in `below` at the path `rest`. Returns `None` if `rest` is empty, or where
/// `place_table` does.
#[cycle(header_paths)]
fn pass_table<'de>(
    alloc: Global,
    mut below: Table<'de>,
    rest: &[Key<'de>],
    array: bool,
    value: Value<'de>,
) -> Option<Table<'de>>
    ensures { (text : List ℕ) (h : HeaderInfo) (tail : Claims) → Placed text h tail rest.now array value.entry
        → IfSome result (PassesOn text h tail (map simple_key rest.now) below.entry) }
{
    if rest.is_empty() {
        return None;
    }
    place_table(alloc, &mut below, rest, array, value)?;
    in_order(&below);
    Some(below)
}

/// Returns the value of a new entry: nested tables along `rest`, the remaining parts of a header, with `value` at the
/// end or, if `array`, an array whose only element is `value`. Returns `None` if an allocation fails.
#[cycle(header_paths)]
fn new_value<'de>(
    alloc: Global,
    rest: &[Key<'de>],
    array: bool,
    value: Value<'de>,
) -> Option<Value<'de>>
    ensures { (text : List ℕ) (h : HeaderInfo) (tail : Claims) (k part : Key)
        → Placed text h tail rest.now array value.entry → IsKeyFor text k part
        → IfSome result (λ v. MakesEntry text (k, v)
        (through (λ p. 0) h (simple_key part) (map simple_key rest.now) tail)
        (counts_after_through (λ p. 0) h (map simple_key rest.now))) }
{
    let span = value.span;
    if !rest.is_empty() {
        let mut below = BTreeMap::new(alloc);
        place_table(alloc, &mut below, rest, array, value)?;
        in_order(&below);
        return Some(Value::with_span(ValueInner::Table(below), span));
    }
    if !array {
        return Some(value);
    }
    let mut elements: Array<'de> = Vec::new(alloc);
    match elements.push(value) {
        Ok(()) => Some(Value::with_span(ValueInner::Array(elements), span)),
        Err(_) => None,
    }
}

/// Appends an element to an array. Returns `None` if an allocation fails.
fn with_element<'de>(mut elements: Array<'de>, element: Value<'de>) -> Option<Array<'de>>
    ensures { IfSome result (λ made. made.items ≡ elements.entry.items ++ (element.entry ∷ [])) }
{
    match elements.push(element) {
        Ok(()) => Some(elements),
        Err(_) => None,
    }
}
