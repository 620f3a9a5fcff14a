//! Places assignments below a branch of the tree under construction, and converts their values.
ghost use Rattle.std.specs.Prelude.{◌≡◌, ⊤, ℕ, List, map, [], IfOk, Some};
ghost use Rattle.std.specs.Cow.{cow_str_bytes};
ghost use Rattle.toml_span_tree.specs.Value.{inner_view};
ghost use Rattle.toml_span_tree.specs.Node as tree;
ghost use Rattle.toml_span_tree.specs.declared.value.ValueInner.TheVariants as inners;
ghost use Rattle.toml_span_read.specs.Borrowed.{assignment_written, assignments_written, joined, key_written};
ghost use Rattle.toml_span_read.specs.Borrowed.{written, AreWrittenRight, IsWrittenRight};
ghost use Rattle.toml_span_read.specs.Data.{parsed_assignment, parsed_value, onto, no_items, ParsedValue as Read};
ghost use Rattle.toml_span_read.specs.Data.{parsed_span, simple_key as part_of};
ghost use Rattle.toml_span.specs.code.Borrowed.{IfPairRight, KeepsBorrows, KeepsName, ValueRight, own_elements};
ghost use Rattle.toml_span.specs.code.Borrowed.{own_table};
ghost use Rattle.toml_span.specs.Borrowed.{AreBorrowedRight};
ghost use Rattle.toml_span.specs.Claims.{item_claims};
ghost use Rattle.toml_span.specs.code.Machine.{OkOrClash, earliest_clash};
ghost use Rattle.toml_span.specs.code.Placing.{assignment_claims, claims_of, PassesPair, Places, ValueGives};
ghost use Rattle.toml_span.specs.code.Placing.{ScopeGives};
ghost use Rattle.toml_span.specs.code.Relative.{pair_at};
ghost use Rattle.toml_span.specs.code.Tree.{child_in, closed_in, closed_infos, counts, child_infos, IsFresh};
ghost use Rattle.toml_span.specs.declared.scopes.Pending.{Pending};

use crate::branch::{Branch, Branches, into_table};
use crate::claims::{ClaimInfo, ClaimKind, PlaceError, check_clash, record_claim};
use crate::rest::Rest;
use std::alloc::Global;
use std::collections::btree_map::Entry;
use toml_span_lex::key::Key;
use toml_span_lex::span::Span;
use toml_span_read::{Assignment, DottedKey, Val, ValKind};
use toml_span_tree::{Array, Table, Value, ValueInner};

/// A list of at most this many assignments keeps its buffer until all are placed. Freeing the buffer earlier would cost
/// time, because the system clears freed memory before handing it out again.
const SHORT_LIST: usize = 65_536;

/// Returns the claim that a part of an assignment's key makes. `span` is the span of the value.
fn pair_info(kind: ClaimKind, key: &Key<'_>, span: Span) -> ClaimInfo
    ensures { result ≡ record { kind = kind; key = key.now.span; line = span; extent = span } }
{
    ClaimInfo {
        kind,
        key: key.span,
        line: span,
        extent: span,
    }
}

/// Fails if the claim `info` clashes with the value in `values` that `key` names.
fn check_beside_value<'de>(
    alloc: Global,
    values: &Table<'de>,
    info: ClaimInfo,
    key: &Key<'de>,
) -> Result<(), PlaceError>
    ensures { OkOrClash result (earliest_clash (closed_infos (closed_in (cow_str_bytes key.now.name) values.now)) info
        (cow_str_bytes key.now.name)) (λ _. ⊤) }
{
    match values.get_key_value(key) {
        Some((earlier, value)) => check_clash(
            alloc,
            &[pair_info(ClaimKind::Assigned, earlier, value.span)],
            info,
            key,
        ),
        None => Ok(()),
    }
}

/// Returns a new branch for `key`, without claims. Fails if the claim `info` clashes with the value in `values` that
/// `key` names.
#[inline(never)]
pub(crate) fn fresh_child<'de>(
    alloc: Global,
    values: &Table<'de>,
    info: ClaimInfo,
    key: &Key<'de>,
) -> Result<Box<Branch<'de>>, PlaceError>
    ensures { OkOrClash result (earliest_clash (closed_infos (closed_in (cow_str_bytes key.now.name) values.now)) info
        (cow_str_bytes key.now.name)) (λ child. IsFresh child.value) }
{
    check_beside_value(alloc, values, info, key)?;
    let child = Box::new(alloc, Branch::new(alloc))?;
    Ok(child)
}

/// Fails if the claim `info` clashes with the branch in `tables` that `key` names.
#[inline(always)]
fn check_beside_table<'de>(
    alloc: Global,
    tables: &Branches<'de>,
    info: ClaimInfo,
    key: &Key<'de>,
) -> Result<(), PlaceError>
    ensures { OkOrClash result (earliest_clash (child_infos (child_in (cow_str_bytes key.now.name) tables.now)) info
        (cow_str_bytes key.now.name)) (λ _. ⊤) }
{
    match tables.get(key) {
        Some(child) => check_clash(alloc, child.infos.as_slice(), info, key),
        None => Ok(()),
    }
}

/// Assigns a value to the name `key` in the branch `node`. `value` is the converted value, or the error of its
/// conversion; `span` is the span of the value in the text. Fails with the clash of the key or, if the key does not
/// clash, with the error in `value`.
#[inline(never)]
fn assign<'de>(
    alloc: Global,
    node: &mut Branch<'de>,
    key: Key<'de>,
    value: Result<Value<'de>, PlaceError>,
    span: Span,
) -> Result<(), PlaceError>
    ensures places { (v : Read) → ValueGives value.entry v → span ≡ parsed_span v
        → Places node.old node.new result (pair_at [] (part_of key.entry) v) (counts node.old) }
    ensures borrows { (text : List ℕ) → IsWrittenRight text (key_written key.entry)
        → ValueRight text value.entry → KeepsBorrows text node.old node.new result }
{
    let info = pair_info(ClaimKind::Assigned, &key, span);
    check_beside_table(alloc, &node.tables, info, &key)?;
    match node.values.entry(key)? {
        Entry::Occupied(entry) => {
            drop(value);
            let earlier = entry.key();
            check_clash(
                alloc,
                &[pair_info(ClaimKind::Assigned, earlier, entry.get().span)],
                info,
                earlier,
            )
        }
        Entry::Vacant(entry) => {
            entry.insert(value?);
            Ok(())
        }
    }
}

/// A value that is about to be assigned. Functions that recurse along a path take it by reference, to keep their stack
/// frames small.
#[derive(Drop)]
struct Pending<'de> {
    /// The last part of the key.
    last: Key<'de>,
    value: Result<Value<'de>, PlaceError>,
}

/// Takes the value out of `pending`, and assigns it in `node`. Does nothing if `pending` is `None`. Fails with the
/// first clash.
#[inline(never)]
fn assign_pending<'de>(
    alloc: Global,
    node: &mut Branch<'de>,
    pending: &mut Option<Pending<'de>>,
    span: Span,
) -> Result<(), PlaceError>
    ensures places { (d : Pending) (v : Read) → pending.old ≡ Some d → ValueGives d.value v → span ≡ parsed_span v
        → Places node.old node.new result (pair_at [] (part_of d.last) v) (counts node.old) }
    ensures borrows { (text : List ℕ) → (d : Pending) → pending.old ≡ Some d
        → IsWrittenRight text (key_written d.last) → ValueRight text d.value
        → KeepsBorrows text node.old node.new result }
{
    match pending.take() {
        Some(next) => assign(alloc, node, next.last, next.value, span),
        None => Ok(()),
    }
}

/// Assigns the pending value in the branch to which `inner`, the remaining parts of a key before the last, lead from
/// `node`. `span` is the span of the value. Fails with the first clash; `node` is then incomplete.
#[cycle(place_pair)]
#[inline(always)]
fn place_pair<'de>(
    alloc: Global,
    node: &mut Branch<'de>,
    inner: &[Key<'de>],
    pending: &mut Option<Pending<'de>>,
    span: Span,
) -> Result<(), PlaceError>
    ensures places { (d : Pending) (v : Read) → pending.old ≡ Some d → ValueGives d.value v → span ≡ parsed_span v
        → Places node.old node.new result (pair_at (map part_of inner.now) (part_of d.last) v) (counts node.old) }
    ensures borrows { (text : List ℕ) → (d : Pending) → pending.old ≡ Some d → IfPairRight text inner.now d
        (KeepsBorrows text node.old node.new result) }
{
    let [part, rest @ ..] = inner else {
        return assign_pending(alloc, node, pending, span);
    };
    match node.tables.entry(part.clone(alloc)?)? {
        Entry::Occupied(entry) => pass_child(alloc, entry.into_mut(), part, rest, pending, span),
        Entry::Vacant(entry) => {
            let info = pair_info(ClaimKind::Dotted, part, span);
            let child = fresh_child(alloc, &node.values, info, part)?;
            pass_child(alloc, entry.insert(child), part, rest, pending, span)
        }
    }
}

/// Does the same as `pass_pair` for the boxed branch `child`.
#[cycle(place_pair)]
fn pass_child<'de>(
    alloc: Global,
    child: &mut Box<Branch<'de>>,
    part: &Key<'de>,
    rest: &[Key<'de>],
    pending: &mut Option<Pending<'de>>,
    span: Span,
) -> Result<(), PlaceError>
    ensures places { (d : Pending) (v : Read) → pending.old ≡ Some d → ValueGives d.value v → span ≡ parsed_span v
        → PassesPair child.old.value child.new.value result part.now rest.now d v }
    ensures borrows { (text : List ℕ) → (d : Pending) → pending.old ≡ Some d → IfPairRight text rest.now d
        (KeepsName text part.now.span child.old.value child.new.value result) }
{
    // Toolchain: the contract of `as_mut` says what it leaves in the box only if the box is a parameter, not if it is
    // lent by an entry of a map.
    pass_pair(alloc, child.as_mut(), part, rest, pending, span)
}

/// Claims `node`, the branch that `part` of a dotted key names, as `Dotted`. Then assigns the pending value where the
/// inner parts `rest` lead from `node`. Fails with the first clash; `node` is then incomplete.
#[cycle(place_pair)]
#[inline(always)]
fn pass_pair<'de>(
    alloc: Global,
    node: &mut Branch<'de>,
    part: &Key<'de>,
    rest: &[Key<'de>],
    pending: &mut Option<Pending<'de>>,
    span: Span,
) -> Result<(), PlaceError>
    ensures places { (d : Pending) (v : Read) → pending.old ≡ Some d → ValueGives d.value v → span ≡ parsed_span v
        → PassesPair node.old node.new result part.now rest.now d v }
    ensures borrows { (text : List ℕ) → (d : Pending) → pending.old ≡ Some d → IfPairRight text rest.now d
        (KeepsName text part.now.span node.old node.new result) }
{
    record_claim(
        alloc,
        &mut node.infos,
        pair_info(ClaimKind::Dotted, part, span),
        part,
    )?;
    place_pair(alloc, node, rest, pending, span)
}

/// Places one assignment below the branch `node`. Fails with the first clash; `node` is then incomplete.
#[cycle(value_of)]
#[inline(always)]
pub(crate) fn place_one<'de>(
    alloc: Global,
    pair: Assignment<'de>,
    node: &mut Branch<'de>,
) -> Result<(), PlaceError>
    ensures places { Places node.old node.new result (assignment_claims (parsed_assignment pair.entry) [])
        (counts node.old) }
    ensures borrows { (text : List ℕ) → AreWrittenRight text (assignment_written pair.entry)
        → KeepsBorrows text node.old node.new result }
{
    let Assignment {
        parts: DottedKey { inner, last },
        value,
        extent: _,
    } = pair;
    let span = value.span;
    let value = value_of(alloc, value);
    if inner.is_empty() {
        return assign(alloc, node, last, value, span);
    }
    let mut pending = Some(Pending { last, value });
    place_pair(alloc, node, inner.as_slice(), &mut pending, span)
}

/// Places assignments below the branch `node`, in order. Fails with the first clash; `node` is then incomplete.
#[cycle(value_of)]
fn place_pairs<'de>(
    alloc: Global,
    pairs: Vec<Assignment<'de>>,
    node: &mut Branch<'de>,
) -> Result<(), PlaceError>
    ensures places { Places node.old node.new result (claims_of pairs.entry.items) (counts node.old) }
    ensures borrows { (text : List ℕ) → AreWrittenRight text (assignments_written pairs.entry.items)
        → KeepsBorrows text node.old node.new result }
{
    for pair in pairs {
        place_one(alloc, pair, node)?;
    }
    Ok(())
}

/// Places the assignments of a section, in order, below `node`, the branch of the section. Frees a long list while it
/// is consumed. Fails with the first clash; `node` is then incomplete.
pub(crate) fn place_all<'de>(
    alloc: Global,
    pairs: Vec<Assignment<'de>>,
    node: &mut Branch<'de>,
) -> Result<(), PlaceError>
    ensures places { Places node.old node.new result (claims_of pairs.entry.items) (counts node.old) }
    ensures borrows { (text : List ℕ) → AreWrittenRight text (assignments_written pairs.entry.items)
        → KeepsBorrows text node.old node.new result }
{
    if pairs.len() <= SHORT_LIST {
        return place_pairs(alloc, pairs, node);
    }
    for pair in Rest::new(pairs) {
        place_one(alloc, pair, node)?;
    }
    Ok(())
}

/// Returns the table that an inline table with these pairs defines. Fails with the first clash.
#[cycle(value_of)]
fn table_of<'de>(alloc: Global, pairs: Vec<Assignment<'de>>) -> Result<Table<'de>, PlaceError>
    ensures scope { ScopeGives result (λ t. inner_view (inners.Table t)) (claims_of pairs.entry.items) }
    ensures borrows { (text : List ℕ) → AreWrittenRight text (assignments_written pairs.entry.items)
        → IfOk result (λ table. AreBorrowedRight text (own_table table.entries)) }
{
    let mut scope = Branch::new(alloc);
    place_pairs(alloc, pairs, &mut scope)?;
    Ok(into_table(scope.tables, scope.values)?)
}

/// Converts the elements of an array into values of the tree. Fails with the first clash inside an element.
#[cycle(value_of)]
fn array_of<'de>(alloc: Global, elements: Vec<Val<'de>>) -> Result<Array<'de>, PlaceError>
    ensures scope { ScopeGives result (λ xs. inner_view (inners.Array xs))
        (item_claims (onto (map parsed_value elements.entry.items) no_items) 0 []) }
    ensures borrows { (text : List ℕ) → AreWrittenRight text (joined (map written elements.entry.items))
        → IfOk result (λ array. AreBorrowedRight text (own_elements array.items)) }
{
    let mut array = Vec::with_capacity(alloc, elements.len())?;
    for element in elements {
        array.push(value_of(alloc, element)?)?;
    }
    Ok(array)
}

/// Converts a value that was read into a value of the tree. Fails with the first clash inside the value.
#[cycle(value_of)]
#[inline(always)]
fn value_of<'de>(alloc: Global, val: Val<'de>) -> Result<Value<'de>, PlaceError>
    ensures value { ValueGives result (parsed_value val.entry) }
    ensures borrows { (text : List ℕ) → AreWrittenRight text (written val.entry) → ValueRight text result }
{
    let Val { kind, span } = val;
    let inner = match kind {
        ValKind::String(text) => ValueInner::String(text),
        ValKind::Integer(number) => ValueInner::Integer(number),
        ValKind::Float(text) => ValueInner::Float(text),
        ValKind::Boolean(truth) => ValueInner::Boolean(truth),
        ValKind::Datetime(text) => ValueInner::Datetime(text),
        ValKind::Array(elements) => ValueInner::Array(array_of(alloc, elements)?),
        ValKind::Inline(pairs) => ValueInner::Table(table_of(alloc, pairs)?),
    };
    Ok(Value::with_span(inner, span))
}
