//! Compares the tree before an edit with the tree after it.
ghost use Rattle.std.specs.Prelude.{◌≡◌, ◌&&◌, None, Some, map, option_map};
ghost use Rattle.toml_span_tree.specs.Pointer.{position_of};
ghost use Rattle.toml_span_tree.specs.Value.{inner_of, items_view, members_view, view};
ghost use Rattle.toml_span_edit.specs.Made as spec;
ghost use Rattle.toml_span_edit.specs.Paths as paths;
ghost use Rattle.toml_span_edit.specs.Same.{same_members};

use crate::same::{same_items, same_tree};
use std::collections::btree_map::Iter;
use toml_span::value::{Array, Key, Table, Value, ValueInner};
use toml_span_tree::lookup::entry_named;
use toml_span_tree::pointer::{array_entry, position};

/// Returns the element, or the value of the entry, that `segment` names in `value`. Returns `None` if `segment` names
/// nothing, or if `value` is taken.
pub(crate) fn child<'v, 'de>(value: &'v Value<'de>, segment: &str) -> Option<&'v Value<'de>>
    ensures { option_map (λ v. view v.now) result ≡ spec.child segment.now (inner_of (view value.now)) }
{
    if value.is_taken() {
        return None;
    }
    match value.as_ref() {
        ValueInner::Array(array) => array_entry(array, segment),
        ValueInner::Table(table) => entry_named(table, segment),
        _ => None,
    }
}

/// Returns the value at `path`, which begins at `value`, or `None` if `path` names nothing.
pub(crate) fn value_at<'v, 'de>(path: &[&str], value: &'v Value<'de>) -> Option<&'v Value<'de>>
    ensures { option_map (λ v. view v.now) result ≡ paths.found (map (λ s. s.now) path.now) (view value.now) }
{
    let [segment, rest @ ..] = path else {
        return Some(value);
    };
    match child(value, *segment) {
        Some(below) => value_at(rest, below),
        None => None,
    }
}

/// Returns whether two arrays are equal except for their elements at the position `at`. Returns false if one of them
/// has no such element.
#[tactic(auto, using(crate::proofs::Elements::short_but, crate::proofs::Elements::few_but))]
fn items_but(items: &[Value<'_>], at: usize, others: &[Value<'_>]) -> bool
    ensures { result ≡ spec.items_but at (items_view items.now) (items_view others.now) }
{
    if at >= items.len() {
        return false;
    }
    if at >= others.len() {
        return false;
    }
    same_items(&items[..at], &others[..at]) && same_items(&items[at + 1..], &others[at + 1..])
}

/// Returns whether two arrays are equal except for their elements at the position that `segment` spells. Returns false
/// if `segment` spells no position, or if one of the arrays has no such element.
fn array_but(array: &Array<'_>, segment: &str, others: &Array<'_>) -> bool
    ensures { result ≡ spec.at_position (λ i. spec.items_but i (items_view array.now.items)
        (items_view others.now.items)) (position_of segment.now) }
{
    match position(segment) {
        Some(at) => items_but(array.as_slice(), at, others.as_slice()),
        None => false,
    }
}

/// Returns whether two tables have the same names and, except for the entry `name`, the same values.
fn members_but(table: &Table<'_>, name: &str, others: &Table<'_>) -> bool
    ensures { result ≡ spec.members_but name.now (members_view table.now.entries) (members_view others.now.entries) }
{
    let mut rest = others.iter();
    for (key, value) in table.iter() {
        let Some((other_key, other)) = rest.next() else {
            return false;
        };
        if key.name.as_str() != other_key.name.as_str() {
            return false;
        }
        if name != key.name.as_str() && !same_tree(value, other) {
            return false;
        }
    }
    rest.next().is_none()
}

/// Returns whether `value` and `other` are equal except for the entry or element that `segment` names. Returns false
/// unless both are tables with the same names, or both are arrays with this element.
fn same_but(value: &Value<'_>, segment: &str, other: &Value<'_>) -> bool
    ensures { result ≡ spec.same_but segment.now (inner_of (view value.now)) (inner_of (view other.now)) }
{
    if let (Some(array), Some(others)) = (value.as_array(), other.as_array()) {
        return array_but(array, segment, others);
    }
    match (value.as_table(), other.as_table()) {
        (Some(table), Some(others)) => members_but(table, segment, others),
        _ => false,
    }
}

/// Returns whether `others` is `items` without the element at the position `at`. Returns false if `items` has no such
/// element.
#[tactic(auto, using(crate::proofs::Elements::short_gone, crate::proofs::Elements::few_gone))]
fn item_gone(items: &[Value<'_>], at: usize, others: &[Value<'_>]) -> bool
    ensures { result ≡ spec.item_gone at (items_view items.now) (items_view others.now) }
{
    if at >= items.len() {
        return false;
    }
    if at > others.len() {
        return false;
    }
    same_items(&items[..at], &others[..at]) && same_items(&items[at + 1..], &others[at..])
}

/// Returns whether `others` is `array` without the element at the position that `segment` spells. Returns false if
/// `array` has no such element.
fn array_gone(array: &Array<'_>, segment: &str, others: &Array<'_>) -> bool
    ensures { result ≡ spec.at_position (λ i. spec.item_gone i (items_view array.now.items)
        (items_view others.now.items)) (position_of segment.now) }
{
    match position(segment) {
        Some(at) => item_gone(array.as_slice(), at, others.as_slice()),
        None => false,
    }
}

/// Returns whether `others` is `table` without the entry `name`, which `table` need not have.
fn members_gone(table: &Table<'_>, name: &str, others: &Table<'_>) -> bool
    ensures { result ≡ same_members (spec.without name.now (members_view table.now.entries))
        (members_view others.now.entries) }
{
    let mut rest = others.iter();
    for (key, value) in table.iter() {
        if name == key.name.as_str() {
            continue;
        }
        let Some((other_key, other)) = rest.next() else {
            return false;
        };
        if key.name.as_str() != other_key.name.as_str() || !same_tree(value, other) {
            return false;
        }
    }
    rest.next().is_none()
}

/// Returns whether `other` is `value` without the entry or element that `segment` names. Returns false if `value` has
/// no such entry or element.
fn gone(value: &Value<'_>, segment: &str, other: &Value<'_>) -> bool
    ensures { result ≡ spec.gone segment.now (inner_of (view value.now)) (inner_of (view other.now)) }
{
    if let (Some(array), Some(others)) = (value.as_array(), other.as_array()) {
        return array_gone(array, segment, others);
    }
    match (value.as_table(), other.as_table()) {
        (Some(table), Some(others)) => {
            entry_named(table, segment).is_some() && members_gone(table, segment, others)
        }
        _ => false,
    }
}

/// Returns whether `others` is `items` with the element `new` at its end.
fn item_last(items: &[Value<'_>], new: &Value<'_>, others: &[Value<'_>]) -> bool
    ensures { result ≡ spec.item_last (view new.now) (items_view items.now) (items_view others.now) }
{
    let mut rest = others.iter();
    for item in items {
        let Some(other) = rest.next() else {
            return false;
        };
        if !same_tree(item, other) {
            return false;
        }
    }
    match rest.next() {
        Some(other) => same_tree(new, other) && rest.next().is_none(),
        None => false,
    }
}

/// Returns the next entry of `rest` whose name is not `name`, and advances `rest` beyond this entry. Without such an
/// entry, returns `None` and advances `rest` to its end.
fn next_but<'v, 'de>(
    rest: &mut Iter<'v, Key<'de>, Value<'de>>,
    name: &str,
) -> Option<(&'v Key<'de>, &'v Value<'de>)>
    ensures { spec.IsNext name.now rest.old result rest.new }
{
    'entries: while let Some((key, value)) = rest.next() {
        if name != key.name.as_str() {
            return Some((key, value));
        }
    }
    None
}

/// Returns whether `table` without the entry `name` equals `others` without the entry `other_name`.
fn same_without(table: &Table<'_>, name: &str, others: &Table<'_>, other_name: &str) -> bool
    ensures { result ≡ same_members (spec.without name.now (members_view table.now.entries))
        (spec.without other_name.now (members_view others.now.entries)) }
{
    let mut rest = others.iter();
    for (key, value) in table.iter() {
        if name == key.name.as_str() {
            continue;
        }
        let Some((other_key, other)) = next_but(&mut rest, other_name) else {
            return false;
        };
        if key.name.as_str() != other_key.name.as_str() || !same_tree(value, other) {
            return false;
        }
    }
    next_but(&mut rest, other_name).is_none()
}

/// Returns whether `other` is the table `value` with the entry `name` renamed to `new`. Returns false if `value` is not
/// a table with this entry.
fn renamed(value: &Value<'_>, name: &str, new: &str, other: &Value<'_>) -> bool
    ensures { result ≡ spec.renamed name.now new.now (inner_of (view value.now)) (inner_of (view other.now)) }
{
    let (Some(table), Some(others)) = (value.as_table(), other.as_table()) else {
        return false;
    };
    match (entry_named(table, name), entry_named(others, new)) {
        (Some(value), Some(other)) => {
            same_tree(value, other) && same_without(table, name, others, new)
        }
        _ => false,
    }
}

/// A change of a value. In a table, a segment selects an entry; in an array, an element.
#[derive(Clone, Copy)]
pub(crate) enum Local<'l, 'v, 'de> {
    /// The value is replaced with this one.
    Set(&'v Value<'de>),
    /// The entry or element that the segment selects is removed.
    Gone(&'l str),
    /// This value is added as an entry with this name, or inserted as an element at this position.
    Put(&'l str, &'v Value<'de>),
    /// This element is added at the end of the array.
    Last(&'v Value<'de>),
    /// The entry with the first name gets the second name.
    Renamed(&'l str, &'l str),
}

impl Local<'_, '_, '_> {
    /// Returns whether `other` is `value` with this change made.
    fn holds(self, value: &Value<'_>, other: &Value<'_>) -> bool
        ensures { result ≡ spec.local self.entry (view value.now) (view other.now) }
    {
        match self {
            Local::Set(new) => same_tree(new, other),
            Local::Gone(segment) => gone(value, segment, other),
            Local::Put(segment, new) => match child(other, segment) {
                Some(there) => gone(other, segment, value) && same_tree(new, there),
                None => false,
            },
            Local::Last(new) => match (value.as_array(), other.as_array()) {
                (Some(array), Some(others)) => item_last(array.as_slice(), new, others.as_slice()),
                _ => false,
            },
            Local::Renamed(name, new) => renamed(value, name, new, other),
        }
    }
}

/// Returns whether the tree `other` is the tree `value` with the change `local` made at `path`. Returns false if `path`
/// names nothing in one of them.
pub(crate) fn changed(
    path: &[&str],
    local: Local<'_, '_, '_>,
    value: &Value<'_>,
    other: &Value<'_>,
) -> bool
    ensures { result ≡ spec.at (map (λ s. s.now) path.now) (spec.local local.entry) (view value.now) (view other.now) }
{
    let [segment, rest @ ..] = path else {
        return local.holds(value, other);
    };
    match (child(value, *segment), child(other, *segment)) {
        (Some(below), Some(other_below)) => {
            same_but(value, *segment, other) && changed(rest, local, below, other_below)
        }
        _ => false,
    }
}

/// Returns the only element of an array, or `None` for any other value.
#[tactic(auto, using(crate::proofs::Elements::only_none, crate::proofs::Elements::only_many))]
fn only_element<'v, 'de>(value: &'v Value<'de>) -> Option<&'v Value<'de>>
    ensures { option_map (λ v. view v.now) result ≡ spec.only_element (inner_of (view value.now)) }
{
    match value.as_array() {
        Some(array) => match array.as_slice() {
            [only] => Some(only),
            _ => None,
        },
        None => None,
    }
}

/// Returns the value of the only entry of a table if its name is `name`, or `None` for any other value.
fn only_entry<'v, 'de>(value: &'v Value<'de>, name: &str) -> Option<&'v Value<'de>>
    ensures { option_map (λ v. view v.now) result ≡ spec.only_entry name.now (inner_of (view value.now)) }
{
    let Some(table) = value.as_table() else {
        return None;
    };
    let mut entries = table.iter();
    let Some((key, below)) = entries.next() else {
        return None;
    };
    if name != key.name.as_str() {
        return None;
    }
    if entries.next().is_some() {
        return None;
    }
    Some(below)
}

/// Returns whether `value` is `new` inside nested tables and arrays. `names` has, from the outermost inward, the name
/// of a table's only entry, or `0` for an array with one element.
fn is_nested(names: &[&str], new: &Value<'_>, value: &Value<'_>) -> bool
    ensures { result ≡ spec.is_nested (map (λ s. s.now) names.now) (view new.now) (view value.now) }
{
    let [name, rest @ ..] = names else {
        return same_tree(new, value);
    };
    let below = if *name == "0" {
        only_element(value)
    } else {
        only_entry(value, *name)
    };
    match below {
        Some(below) => is_nested(rest, new, below),
        None => false,
    }
}

/// Returns whether the tree `other` is the tree `value` with `new`, and the tables and arrays missing on the way, added
/// at `path`. Returns false if `path` is empty or names something in `value`.
pub(crate) fn added(path: &[&str], new: &Value<'_>, value: &Value<'_>, other: &Value<'_>) -> bool
    ensures { result ≡ spec.added (map (λ s. s.now) path.now) (view new.now) (view value.now) (view other.now) }
{
    let [segment, rest @ ..] = path else {
        return false;
    };
    match (child(value, *segment), child(other, *segment)) {
        (Some(below), Some(other_below)) => {
            same_but(value, *segment, other) && added(rest, new, below, other_below)
        }
        (None, Some(there)) => gone(other, *segment, value) && is_nested(rest, new, there),
        _ => false,
    }
}
