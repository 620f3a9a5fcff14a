//! Reads of arrays whose elements have a type that implements `DeserializeWithWarnings`.
ghost use Rattle.std.specs.Prelude.{IsTrue, OnOk, map};
ghost use Rattle.toml_span_tree.specs.Error.{content_of};
ghost use Rattle.toml_span_tree.specs.Value.{all_whole, is_whole, items_view, view};
ghost use Rattle.toml_span_typed.specs.code.Arrays.{Answered};
ghost use Rattle.toml_span_typed.specs.code.WithWarnings.{AddsWithWarnings};
ghost use Rattle.toml_span_typed.specs.Reads.{nodes_of, result_map};
ghost use Rattle.toml_span_typed.specs.WithWarnings.{Extends, ReadsAllWithWarnings, array_with_warnings};

use crate::de_helpers::refused;
use crate::with_warnings::{DeserializeWithWarnings, read_or_keep};
use std::alloc::{AllocError, Global};
use toml_span_lex::stop::Stop;
use toml_span_tree::{DeserError, Error, Value, ValueInner};

impl<'de, T: DeserializeWithWarnings<'de>> DeserializeWithWarnings<'de> for Vec<T> {
    ghost reads = { λ v r warnings more. array_with_warnings T.reads v (result_map (λ x. x.items) r) warnings more };

    fn deserialize_with_warnings(
        alloc: Global,
        value: &mut Value<'de>,
        warnings: &mut Vec<Error<'de>>,
    ) -> Result<Vec<T>, Stop<DeserError<'de>>> {
        match value.take() {
            ValueInner::Array(items) => read_all(alloc, items, warnings),
            other => Err(refused("an array", other, value.span)),
        }
    }
}

/// Reads each element, and appends all warnings to `warnings`. If any reads fail, fails with the errors of all of them.
fn read_all<'de, T: DeserializeWithWarnings<'de>>(
    alloc: Global,
    items: Vec<Value<'de>>,
    warnings: &mut Vec<Error<'de>>,
) -> Result<Vec<T>, Stop<DeserError<'de>>>
    requires { IsTrue (all_whole (items_view items.items)) }
    ensures answer { Answered result (λ r. ReadsAllWithWarnings T.reads (nodes_of (items_view items.entry.items))
        (result_map (λ v. v.items) r) (map content_of warnings.old.items) (map content_of warnings.new.items)) }
    ensures kept { Extends (map content_of warnings.old.items) (map content_of warnings.new.items) }
{
    let mut read = Vec::new(alloc);
    let mut faults = Vec::new(alloc);
    for item in items {
        if let Err(e) = read_next(alloc, item, &mut read, &mut faults, warnings) {
            return Err(Stop::Memory(e));
        }
    }
    match DeserError::from_list(faults) {
        None => Ok(read),
        Some(faults) => Err(Stop::Fault(faults)),
    }
}

/// Reads one element, and appends it to `read`. If the read fails, appends its errors to `faults` instead. In both
/// cases, appends its warnings to `warnings`.
fn read_next<'de, T: DeserializeWithWarnings<'de>>(
    alloc: Global,
    item: Value<'de>,
    read: &mut Vec<T>,
    faults: &mut Vec<Error<'de>>,
    warnings: &mut Vec<Error<'de>>,
) -> Result<(), AllocError>
    requires { IsTrue (is_whole (view item)) }
    ensures ok { OnOk result (AddsWithWarnings T.reads (view item.entry) read.old.items
        (map content_of faults.old.items) read.new.items (map content_of faults.new.items)
        (map content_of warnings.old.items) (map content_of warnings.new.items)) }
    ensures kept { Extends (map content_of warnings.old.items) (map content_of warnings.new.items) }
{
    match read_or_keep(alloc, item, faults, warnings)? {
        Some(element) => match read.push(element) {
            Ok(()) => Ok(()),
            Err(_) => Err(AllocError),
        },
        None => Ok(()),
    }
}
