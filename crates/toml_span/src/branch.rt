//! The tree under construction, and its conversion to the finished tree.
ghost use Rattle.std.specs.Prelude.{◌≡◌, [], IfSome, IsOk};
ghost use Rattle.toml_span.specs.Flat as kept;
ghost use Rattle.toml_span.specs.code.ClaimInfos as code;
ghost use Rattle.toml_span.specs.code.Tree.{IsFresh};
ghost use Rattle.toml_span.specs.code.Placing.{Becomes, EachBecomes, Finishes, NamesAscend};

use crate::claims::{ClaimInfo, ClaimInfos, ClaimKind};
use smallvec::SmallVec;
use std::alloc::{AllocError, Global};
use std::collections::BTreeMap;
use std::mem::replace;
use toml_span_lex::key::Key;
use toml_span_lex::span::Span;
use toml_span_tree::{Array, Table, Value, ValueInner};

/// Branches by name. They are boxed to keep the nodes of the map small.
pub type Branches<'de> = BTreeMap<Key<'de>, Box<Branch<'de>>>;

/// A table or an array of tables under construction.
///
/// `values` has the assigned values as the finished tree will have them. No name is in both `values` and `tables`.
#[derive(Drop)]
pub struct Branch<'de> {
    /// The claims on this branch.
    pub infos: ClaimInfos,
    /// The assigned values.
    pub values: Table<'de>,
    /// The tables and arrays of tables that headers and dotted keys created.
    pub tables: Branches<'de>,
    /// The elements of an array of tables, at least one; empty if this is a table.
    pub entries: Vec<Branch<'de>>,
}

impl<'de> Branch<'de> {
    /// Returns an empty table without claims.
    pub fn new(alloc: Global) -> Self
        ensures { IsFresh result }
    {
        Self {
            infos: SmallVec::new(alloc),
            values: BTreeMap::new(alloc),
            tables: BTreeMap::new(alloc),
            entries: Vec::new(alloc),
        }
    }
}

/// Returns whether a header makes claims of this kind.
fn by_header(kind: ClaimKind) -> bool
    ensures { result ≡ kept.by_header kind }
{
    !matches!(kind, ClaimKind::Dotted | ClaimKind::Assigned)
}

/// Returns the claim that determines the spans of a branch: the claim of the first header or, if no header claims the
/// branch, the first claim. Returns `None` if `infos` is empty.
fn deciding(infos: &[ClaimInfo]) -> Option<ClaimInfo>
    ensures { result ≡ code.deciding infos.now }
{
    for info in infos {
        if by_header(info.kind) {
            return Some(*info);
        }
    }
    infos.first().copied()
}

/// Returns the span of the key and the span of the branch, given the claims on the branch. Without claims, both are
/// 0..0.
fn spans(infos: &[ClaimInfo]) -> (Span, Span)
    ensures { IfSome (code.deciding infos.now) (λ m. result ≡ (m.key, m.extent)) }
{
    match deciding(infos) {
        Some(info) => (info.key, info.extent),
        None => (Span::default(), Span::default()),
    }
}

/// Proves that the names in a table ascend, so that no name occurs twice. Does nothing at run time.
pub(crate) fn in_order(table: &Table<'_>)
    ensures { NamesAscend table.now }
{
    // The contract of the map's `len` says that its keys ascend.
    let _ = table.len();
}

/// Returns a finished table: the entries of `values`, and the branches of `tables` turned into values. Fails if an
/// allocation fails, which can only happen if there are branches.
#[cycle(finish)]
pub fn into_table<'de>(
    tables: Branches<'de>,
    mut values: Table<'de>,
) -> Result<Table<'de>, AllocError>
    ensures finishes { Finishes tables.entry values.entry result }
    // Nothing is allocated without branches.
    ensures bare { tables.entry.entries ≡ [] → IsOk result }
{
    if tables.is_empty() {
        drop(tables);
        in_order(&values);
        return Ok(values);
    }
    for (key, mut child) in tables {
        let (span, value) = into_value(child.as_mut())?;
        let key = Key {
            name: key.name,
            span,
        };
        drop(values.insert(key, value)?);
    }
    in_order(&values);
    Ok(values)
}

/// Turns a branch into a value. Returns the span of the value's key, and the value. The branch loses its contents, even
/// if an allocation fails.
#[cycle(finish)]
fn into_value<'de>(node: &mut Branch<'de>) -> Result<(Span, Value<'de>), AllocError>
    ensures { Becomes node.old result }
{
    let (key_span, span) = spans(node.infos.as_slice());
    let alloc = *node.entries.allocator();
    if node.entries.is_empty() {
        let tables = replace(&mut node.tables, BTreeMap::new(alloc));
        let values = replace(&mut node.values, BTreeMap::new(alloc));
        let table = into_table(tables, values)?;
        return Ok((key_span, Value::with_span(ValueInner::Table(table), span)));
    }
    let array = into_array(replace(&mut node.entries, Vec::new(alloc)))?;
    Ok((key_span, Value::with_span(ValueInner::Array(array), span)))
}

/// Turns the elements of an array of tables into values.
#[cycle(finish)]
#[inline(never)]
fn into_array<'de>(entries: Vec<Branch<'de>>) -> Result<Array<'de>, AllocError>
    ensures { EachBecomes entries.entry.items result }
{
    let mut array = Vec::with_capacity(*entries.allocator(), entries.len())?;
    for mut entry in entries {
        let (_, value) = into_value(&mut entry)?;
        array.push(value)?;
    }
    Ok(array)
}
