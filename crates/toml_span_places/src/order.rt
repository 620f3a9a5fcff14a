//! Lists the values of a tree in the order of the text.
ghost use Rattle.std.specs.Prelude.{◌≡◌, [], IfOk, None, map};
ghost use Rattle.std.specs.List.Sorted.{IsNonDecreasingBy, IsPermutation};
ghost use Rattle.toml_span_tree.specs.Nodes.{nodes_from, seen};
ghost use Rattle.toml_span_tree.specs.Value.{view};
ghost use Rattle.toml_span_places.specs.Order.{start_of};

use std::alloc::{AllocError, Global};
use toml_span_tree::Value;
use toml_span_tree::nodes::{Visited, nodes};

/// Returns the byte offset at which a value or its key starts, whichever comes first.
fn first_start(node: &Visited<'_, '_>) -> usize
    ensures { result ≡ start_of node.now }
{
    let start = node.value.span.start;
    match node.key {
        Some(key) => start.min(key.span.start),
        None => start,
    }
}

/// Lists `value` and all values inside it, with their paths and keys, in the order in which they begin in the text. A
/// value begins where its key or its span begins, whichever comes first. A table that headers name begins at the first
/// of these headers.
///
/// Values that begin at the same byte are in the order of `toml_span_tree::nodes`, a value before the values inside it:
/// for `[[a]]`, the array before its first element. Fails if an allocation fails.
pub fn nodes_in_text_order<'t, 'de>(
    alloc: Global,
    value: &'t Value<'de>,
) -> Result<Vec<Visited<'t, 'de>>, AllocError>
    ensures all { IfOk result (λ list. IsPermutation (nodes_from [] None (view value.now)) (map seen list.items)) }
    ensures ordered { IfOk result (λ list. IsNonDecreasingBy start_of list.items) }
{
    let mut list = nodes(alloc, value)?;
    list.sort_by_key(|node| first_start(node))?;
    Ok(list)
}
