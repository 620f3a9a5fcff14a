//! Reads of arrays.
ghost use Rattle.std.specs.Prelude.{IsTrue, OnOk, map};
ghost use Rattle.toml_span_tree.specs.Error.{content_of};
ghost use Rattle.toml_span_tree.specs.Value.{all_whole, is_whole, items_view, view};
ghost use Rattle.toml_span_typed.specs.code.Arrays.{AddsRead, Answered};
ghost use Rattle.toml_span_typed.specs.Reads.{ReadsAll, Taken, array_reads, nodes_of, result_map};

use crate::de_helpers::refused;
use crate::deserialize::{Deserialize, read_or_keep};
use std::alloc::{AllocError, Global};
use toml_span_lex::stop::Stop;
use toml_span_tree::{DeserError, Error, Value, ValueInner};

impl<'de, T: Deserialize<'de>> Deserialize<'de> for Vec<T> {
    ghost reads = { λ v r w. array_reads T.reads v (result_map (λ x. x.items) r) w };

    ghost after_alloc_error = { Taken };

    fn deserialize(alloc: Global, value: &mut Value<'de>) -> Result<Vec<T>, Stop<DeserError<'de>>> {
        match value.take() {
            ValueInner::Array(items) => read_all(alloc, items),
            other => Err(refused("an array", other, value.span)),
        }
    }
}

/// Reads each element. If any reads fail, fails with the errors of all of them.
fn read_all<'de, T: Deserialize<'de>>(
    alloc: Global,
    items: Vec<Value<'de>>,
) -> Result<Vec<T>, Stop<DeserError<'de>>>
    requires { IsTrue (all_whole (items_view items.items)) }
    ensures { Answered result (λ r. ReadsAll T.reads (nodes_of (items_view items.entry.items))
        (result_map (λ v. v.items) r)) }
{
    let mut read = Vec::new(alloc);
    let mut faults = Vec::new(alloc);
    for item in items {
        if let Err(e) = read_next(alloc, item, &mut read, &mut faults) {
            return Err(Stop::Memory(e));
        }
    }
    match DeserError::from_list(faults) {
        None => Ok(read),
        Some(faults) => Err(Stop::Fault(faults)),
    }
}

/// Reads one element, and appends it to `read`. If the read fails, appends its errors to `faults` instead.
fn read_next<'de, T: Deserialize<'de>>(
    alloc: Global,
    item: Value<'de>,
    read: &mut Vec<T>,
    faults: &mut Vec<Error<'de>>,
) -> Result<(), AllocError>
    requires { IsTrue (is_whole (view item)) }
    ensures { OnOk result (AddsRead T.reads (view item.entry) read.old.items (map content_of faults.old.items)
        read.new.items (map content_of faults.new.items)) }
{
    match read_or_keep(alloc, item, faults)? {
        Some(element) => match read.push(element) {
            Ok(()) => Ok(()),
            Err(_) => Err(AllocError),
        },
        None => Ok(()),
    }
}
