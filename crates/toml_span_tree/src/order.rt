//! The entries of a table, sorted by the starts of their keys' spans.
ghost use Rattle.std.specs.Prelude.{◌≡◌, IfOk, map};
ghost use Rattle.std.specs.List.Sorted.{IsNonDecreasingBy, IsPermutation};
ghost use Rattle.toml_span_tree.specs.Order.{entry_of, start_of};

use crate::value::{Table, Value};
use std::alloc::{AllocError, Global};
use toml_span_lex::key::Key;

/// Returns the entries of a table, sorted by the starts of their keys' spans. Fails if an allocation fails.
pub fn in_text_order<'t, 'de>(
    alloc: Global,
    table: &'t Table<'de>,
) -> Result<Vec<(&'t Key<'de>, &'t Value<'de>)>, AllocError>
    ensures all { IfOk result (λ entries. IsPermutation table.now.entries (map entry_of entries.items)) }
    ensures ordered { IfOk result (λ entries. IsNonDecreasingBy start_of entries.items) }
{
    let mut entries = listed(alloc, table)?;
    entries.sort_by_key(|entry| entry.0.span.start)?;
    Ok(entries)
}

/// Returns the entries of a table in the order of their names.
fn listed<'t, 'de>(
    alloc: Global,
    table: &'t Table<'de>,
) -> Result<Vec<(&'t Key<'de>, &'t Value<'de>)>, AllocError>
    ensures { IfOk result (λ entries. map entry_of entries.items ≡ table.now.entries) }
{
    let mut entries = Vec::with_capacity(alloc, table.len())?;
    for (key, value) in table.iter() {
        entries.push((key, value))?;
    }
    Ok(entries)
}
