//! Lists all values of a tree with their paths.
ghost use Rattle.std.specs.Prelude.{◌≡◌, ◌++◌, ◌∷◌, [], IfOk, None, OnOk, map, option_map};
ghost use Rattle.toml_span_tree.specs.Value.{items_view, members_view, view};
ghost use Rattle.toml_span_tree.specs.Nodes.{items_nodes, key_of, members_nodes, nodes_from, seen, step_of};

use crate::value::{Table, Value, ValueInner};
use std::alloc::{AllocError, Global};
use toml_span_lex::key::Key;

/// A step of a path: the name of an entry of a table, or the position of an element of an array, counted from 0.
#[derive(Clone, Copy, Debug, PartialEq, Eq)]
pub enum Step<'t> {
    Key(&'t str),
    Position(usize),
}

/// A value that `nodes` lists. `path` leads to it from the value given to `nodes`. If it is the value of an entry of a
/// table, `key` is the key of that entry. For an element of an array, and for the value given to `nodes`, `key` is
/// `None`.
#[derive(Drop)]
pub struct Visited<'t, 'de> {
    pub path: Vec<Step<'t>>,
    pub key: Option<&'t Key<'de>>,
    pub value: &'t Value<'de>,
}

/// Lists `value` and all values inside it. A value comes before the values inside it; elements are in order, entries in
/// the order of their names. Paths begin at `value`, whose own path is empty. If the content of a value has been taken,
/// the value is listed, but nothing inside it.
///
/// Allocates the list and one path per value. Fails if an allocation fails.
pub fn nodes<'t, 'de>(
    alloc: Global,
    value: &'t Value<'de>,
) -> Result<Vec<Visited<'t, 'de>>, AllocError>
    ensures { IfOk result (λ list. map seen list.items ≡ nodes_from [] None (view value.now)) }
{
    let mut list = Vec::new(alloc);
    push_node(alloc, value, None, &[], &mut list)?;
    Ok(list)
}

/// Returns a copy of `path` with `step` appended.
fn with_step<'t>(
    alloc: Global,
    path: &[Step<'t>],
    step: Step<'t>,
) -> Result<Vec<Step<'t>>, AllocError>
    ensures { IfOk result (λ steps. map step_of steps.items ≡ map step_of path.now ++ step_of step.entry ∷ []) }
{
    let mut steps = Vec::from_slice(alloc, path)?;
    steps.push(step)?;
    Ok(steps)
}

/// Appends `value`, with its key and a copy of its path, to `list`.
fn push_visited<'t, 'de>(
    alloc: Global,
    value: &'t Value<'de>,
    key: Option<&'t Key<'de>>,
    path: &[Step<'t>],
    list: &mut Vec<Visited<'t, 'de>>,
) -> Result<(), AllocError>
    ensures { OnOk result (map seen list.new.items ≡ map seen list.old.items
        ++ (map step_of path.now, option_map (λ k. key_of k.now) key.entry, view value.now) ∷ []) }
{
    let steps = Vec::from_slice(alloc, path)?;
    list.push(Visited {
        path: steps,
        key,
        value,
    })?;
    Ok(())
}

/// Appends `value` and all values inside it to `list`. `key` and `path` are those of `value`. If an allocation fails,
/// some of these values may have been appended.
#[cycle(push_node)]
fn push_node<'t, 'de>(
    alloc: Global,
    value: &'t Value<'de>,
    key: Option<&'t Key<'de>>,
    path: &[Step<'t>],
    list: &mut Vec<Visited<'t, 'de>>,
) -> Result<(), AllocError>
    ensures { OnOk result (map seen list.new.items ≡ map seen list.old.items
        ++ nodes_from (map step_of path.now) (option_map (λ k. key_of k.now) key.entry) (view value.now)) }
{
    push_visited(alloc, value, key, path, list)?;
    if value.is_taken() {
        return Ok(());
    }
    match value.as_ref() {
        ValueInner::Array(elements) => push_elements(alloc, elements.as_slice(), path, list),
        ValueInner::Table(table) => push_entries(alloc, table, path, list),
        _ => Ok(()),
    }
}

/// Appends each of `elements`, and all values inside it, to `list`. `path` is the path of the array. If an allocation
/// fails, some of these values may have been appended.
#[cycle(push_node)]
fn push_elements<'t, 'de>(
    alloc: Global,
    elements: &'t [Value<'de>],
    path: &[Step<'t>],
    list: &mut Vec<Visited<'t, 'de>>,
) -> Result<(), AllocError>
    ensures { OnOk result (map seen list.new.items ≡ map seen list.old.items
        ++ items_nodes (map step_of path.now) 0 (items_view elements.now)) }
{
    for (position, element) in elements.iter().enumerate() {
        let steps = with_step(alloc, path, Step::Position(position))?;
        push_node(alloc, element, None, steps.as_slice(), list)?;
    }
    Ok(())
}

/// Appends the value of each entry of `table`, and all values inside it, to `list`. `path` is the path of the table. If
/// an allocation fails, some of these values may have been appended.
#[cycle(push_node)]
fn push_entries<'t, 'de>(
    alloc: Global,
    table: &'t Table<'de>,
    path: &[Step<'t>],
    list: &mut Vec<Visited<'t, 'de>>,
) -> Result<(), AllocError>
    ensures { OnOk result (map seen list.new.items ≡ map seen list.old.items
        ++ members_nodes (map step_of path.now) (members_view table.now.entries)) }
{
    for (key, value) in table.iter() {
        let steps = with_step(alloc, path, Step::Key(key.name.as_ref()))?;
        push_node(alloc, value, Some(key), steps.as_slice(), list)?;
    }
    Ok(())
}
