//! Finds keys that go through earlier values of their section or inline table, such as `a.b = 2` after `a = 1`.
ghost use Rattle.std.specs.Prelude.{◌≡◌, ◌≤◌, ◌+◌, ◌++◌, ◌∷◌, [], map, length, OnOk, Some, unwrap_or};
ghost use Rattle.std.specs.Cow.{cow_str_bytes};
ghost use Rattle.toml_span_read.specs.Data.{SimpleKey, parsed_span, parsed_assignment, simple_key, parts};
ghost use Rattle.toml_span_read.specs.Earlier as spec;
ghost use Rattle.toml_span_read.specs.code.Earlier as code;

use crate::fault::{Fault, FaultKind};
use crate::lists::add;
use crate::value::{Assignment, DottedKey};
use std::alloc::{AllocError, Global};
use std::collections::BTreeMap;
use toml_span_lex::key::Key;
use toml_span_lex::span::Span;
use toml_span_lex::stop::Stop;

/// A node of the tree of paths. Each node represents one path; `below` has the nodes of the paths that are one part
/// longer.
#[derive(Drop)]
struct Node<'de> {
    /// The span of the last part of the first key that assigns a value to this path, or `None` if no key does.
    value: Option<Span>,
    below: BTreeMap<Key<'de>, Node<'de>>,
}

/// Returns a node without a value and without longer paths.
fn empty<'de>(alloc: Global) -> Node<'de>
    ensures { code.holds result ≡ code.no_spans }
{
    Node {
        value: None,
        below: BTreeMap::new(alloc),
    }
}

/// Records that a value is assigned to the path that leads from `node` through the parts `inner` to `last`. Does
/// nothing if a value is recorded there already.
fn put<'de>(
    alloc: Global,
    node: &mut Node<'de>,
    inner: &[Key<'de>],
    last: &Key<'de>,
) -> Result<(), AllocError>
    ensures { OnOk result (code.Puts (spec.part_names (map simple_key inner.now ++ (simple_key last.now ∷ [])))
        last.now.span (code.holds node.old) (code.holds node.new)) }
{
    match inner {
        [] => put_last(alloc, node, last),
        [part, rest @ ..] => match node.below.get_mut(part) {
            Some(child) => put(alloc, child, rest, last),
            None => {
                let mut child = empty(alloc);
                put(alloc, &mut child, rest, last)?;
                put_child(alloc, node, part, child)
            }
        },
    }
}

/// Records that a value is assigned to the path that leads from `node` to `last`. Does nothing if a value is recorded
/// there already.
fn put_last<'de>(alloc: Global, node: &mut Node<'de>, last: &Key<'de>) -> Result<(), AllocError>
    ensures { OnOk result (code.Puts (cow_str_bytes last.now.name ∷ []) last.now.span (code.holds node.old)
        (code.holds node.new)) }
{
    match node.below.get_mut(last) {
        Some(child) => {
            if child.value.is_none() {
                child.value = Some(last.span);
            }
            Ok(())
        }
        None => {
            let mut child = empty(alloc);
            child.value = Some(last.span);
            put_child(alloc, node, last, child)
        }
    }
}

/// Adds `child` to `node` under `key`. `node` must have no child under `key` yet.
fn put_child<'de>(
    alloc: Global,
    node: &mut Node<'de>,
    key: &Key<'de>,
    child: Node<'de>,
) -> Result<(), AllocError>
    ensures { OnOk result (code.PutsBelow (cow_str_bytes key.now.name) (code.holds child.entry) (code.holds node.old)
        (code.holds node.new)) }
{
    let key = key.clone(alloc)?;
    node.below.insert(key, child)?;
    Ok(())
}

/// Follows the parts `inner` from `node` to the first node with a value. Returns the byte offset at which the part that
/// leads to this node starts, and the node's `value`. Returns `None` if no node on the way has a value.
fn crossing<'de>(node: &Node<'de>, inner: &[Key<'de>]) -> Option<(usize, Span)>
    ensures { (last : SimpleKey)
        → result ≡ spec.crossed (code.holds node.now) (map simple_key inner.now ++ (last ∷ [])) }
{
    let [part, rest @ ..] = inner else {
        return None;
    };
    let Some(child) = node.below.get(part) else {
        return None;
    };
    match child.value {
        Some(first) => Some((part.span.start, first)),
        None => crossing(child, rest),
    }
}

/// Returns the key of an assignment.
#[inline]
fn key_of<'x, 'de>(next: &'x Assignment<'de>) -> &'x DottedKey<'de>
    ensures { parts result.now ≡ (parsed_assignment next.now).parts }
{
    &next.parts
}

/// Returns the end of the span of an assignment's value.
#[inline]
fn value_end<'de>(next: &Assignment<'de>) -> usize
    ensures { result ≡ (parsed_span (parsed_assignment next.now).value).end }
{
    next.value.span.end
}

/// The paths of the values that have been assigned in a section or an inline table so far. Assignments are added to
/// `tree` only when a key has more inner parts (parts before the last) than an earlier key, since no other key can go
/// through an earlier value.
#[derive(Drop)]
pub(crate) struct Earlier<'de> {
    /// The lowest number of inner parts of any key so far.
    fewest: usize,
    /// The number of assignments that have been added to the tree.
    known: usize,
    tree: Node<'de>,
}

impl<'de> Earlier<'de> {
    /// Returns an empty collection.
    pub(crate) fn new(alloc: Global) -> Self
        ensures { code.Knows result [] }
    {
        Earlier {
            fewest: usize::MAX,
            known: 0,
            tree: empty(alloc),
        }
    }

    /// Adds the assignments that are missing in the tree. `values` are all assignments so far. If an allocation fails,
    /// some may have been added.
    #[inline(never)]
    fn catch_up(&mut self, alloc: Global, values: &[Assignment<'de>]) -> Result<(), AllocError>
        requires { code.Knows self.now (map parsed_assignment values.now) }
        ensures knows { OnOk result (code.Knows self.new (map parsed_assignment values.now)) }
        ensures all { OnOk result (self.new.known ≡ length values.now) }
        ensures fewest { OnOk result (self.new.fewest ≡ self.old.fewest) }
    {
        for at in self.known..values.len() {
            let parts = key_of(&values[at]);
            put(alloc, &mut self.tree, &parts.inner, &parts.last)?;
        }
        self.known = values.len();
        Ok(())
    }

    /// Returns the fault of the assignment `next` if its key goes through the value of an earlier assignment, otherwise
    /// `None`. `values` are all earlier assignments.
    fn fault(
        &mut self,
        alloc: Global,
        values: &[Assignment<'de>],
        next: &Assignment<'de>,
    ) -> Result<Option<Fault>, AllocError>
        requires { code.Knows self.now (map parsed_assignment values.now) }
        ensures { code.ChecksNext self.new (map parsed_assignment values.now) (parsed_assignment next.now) result }
    {
        let key = key_of(next);
        let inner = key.inner.len();
        if inner <= self.fewest {
            self.fewest = inner;
            return Ok(None);
        }
        self.catch_up(alloc, values)?;
        match crossing(&self.tree, &key.inner) {
            None => Ok(None),
            Some((start, first)) => Ok(Some(Fault {
                kind: FaultKind::DottedKeyInvalidType { first },
                span: Span {
                    start,
                    end: value_end(next),
                },
            })),
        }
    }
}

/// Appends the assignment `next` to `values`, which are all assignments so far. Fails if the key of `next` goes through
/// the value of an earlier assignment.
#[inline(always)]
pub(crate) fn add_clear<'de>(
    alloc: Global,
    earlier: &mut Earlier<'de>,
    values: &mut Vec<Assignment<'de>>,
    next: Assignment<'de>,
) -> Result<(), Stop<Fault>>
    requires knows { code.Knows earlier.now (map parsed_assignment values.now.items) }
    ensures adds { code.AddsClear values.old.items values.new.items next.entry result }
    ensures knows { OnOk result (code.Knows earlier.new (map parsed_assignment values.new.items)) }
{
    match earlier.fault(alloc, values, &next) {
        Err(e) => return Err(Stop::Memory(e)),
        Ok(Some(fault)) => return Err(Stop::Fault(fault)),
        Ok(None) => {}
    }
    match add(values, next) {
        Ok(()) => Ok(()),
        Err(e) => Err(Stop::Memory(e)),
    }
}
