//! Reads of tables as maps, whose keys can be any names.
ghost use Rattle.std.specs.Prelude.{◌≡◌, IsTrue, OnOk, map};
ghost use Rattle.std.specs.Cow.{cow_str_bytes};
ghost use Rattle.toml_span_tree.specs.Error.{content_of};
ghost use Rattle.toml_span_tree.specs.Value.{all_members_whole, is_whole, members_view, view};
ghost use Rattle.toml_span_typed.specs.code.Arrays.{Answered};
ghost use Rattle.toml_span_typed.specs.code.Maps.{AddsEntry};
ghost use Rattle.toml_span_typed.specs.Maps.{ReadsEntries, hashed_reads, holding, shown_pair, table_reads};
ghost use Rattle.toml_span_typed.specs.Reads.{Taken, result_map};

use crate::de_helpers::refused;
use crate::deserialize::{Deserialize, read_or_keep};
use std::alloc::{AllocError, Global};
use std::collections::{BTreeMap, HashMap};
use toml_span_lex::key::Key;
use toml_span_lex::stop::Stop;
use toml_span_tree::{DeserError, Error, Table, Value, ValueInner};

impl<'de, T: Deserialize<'de>> Deserialize<'de> for BTreeMap<String, T> {
    ghost reads = { λ v r w. table_reads T.reads v (result_map (λ m. map shown_pair m.entries) r) w };

    ghost after_alloc_error = { Taken };

    fn deserialize(
        alloc: Global,
        value: &mut Value<'de>,
    ) -> Result<BTreeMap<String, T>, Stop<DeserError<'de>>> {
        match value.take() {
            ValueInner::Table(table) => read_entries(alloc, table),
            other => Err(refused("a table", other, value.span)),
        }
    }
}

/// Reads the same entries as the implementation for `BTreeMap`. The order in which the map iterates over them is
/// unspecified.
impl<'de, T: Deserialize<'de>> Deserialize<'de> for HashMap<String, T> {
    ghost reads = { hashed_reads T.reads };

    ghost after_alloc_error = { Taken };

    fn deserialize(
        alloc: Global,
        value: &mut Value<'de>,
    ) -> Result<HashMap<String, T>, Stop<DeserError<'de>>> {
        let entries = BTreeMap::<String, T>::deserialize(alloc, value)?;
        Ok(HashMap::from_iter(alloc, entries)?)
    }
}

/// Reads the value of each entry. If any reads fail, fails with the errors of all of them.
fn read_entries<'de, T: Deserialize<'de>>(
    alloc: Global,
    table: Table<'de>,
) -> Result<BTreeMap<String, T>, Stop<DeserError<'de>>>
    requires { IsTrue (all_members_whole (members_view table.entries)) }
    ensures { Answered result (λ r. ReadsEntries T.reads (members_view table.entry.entries)
        (result_map (λ m. map shown_pair m.entries) r)) }
{
    let mut read = BTreeMap::new(alloc);
    let mut faults = Vec::new(alloc);
    for (key, item) in table {
        if let Err(e) = read_entry(alloc, key, item, &mut read, &mut faults) {
            return Err(Stop::Memory(e));
        }
    }
    match DeserError::from_list(faults) {
        None => Ok(read),
        Some(faults) => Err(Stop::Fault(faults)),
    }
}

/// Reads the value of one entry, and inserts it into `read`. If the read fails, appends its errors to `faults` instead.
fn read_entry<'de, T: Deserialize<'de>>(
    alloc: Global,
    key: Key<'de>,
    item: Value<'de>,
    read: &mut BTreeMap<String, T>,
    faults: &mut Vec<Error<'de>>,
) -> Result<(), AllocError>
    requires { IsTrue (is_whole (view item)) }
    ensures { OnOk result (AddsEntry T.reads (cow_str_bytes key.entry.name) (view item.entry)
        (map shown_pair read.old.entries) (map content_of faults.old.items) (map shown_pair read.new.entries)
        (map content_of faults.new.items)) }
{
    match read_or_keep(alloc, item, faults)? {
        Some(element) => put(alloc, read, key, element),
        None => Ok(()),
    }
}

/// Inserts an element into `read` under a copy of the key's name.
#[tactic(auto, using(crate::proofs::Maps::shown_insert))]
fn put<T: Drop>(
    alloc: Global,
    read: &mut BTreeMap<String, T>,
    key: Key<'_>,
    element: T,
) -> Result<(), AllocError>
    ensures { OnOk result (map shown_pair read.new.entries
        ≡ holding (map shown_pair read.old.entries) (cow_str_bytes key.entry.name) element) }
{
    let name = String::from_str(alloc, key.name.as_str());
    drop(key);
    match read.insert(name?, element) {
        Ok(old) => {
            drop(old);
            Ok(())
        }
        Err(_) => Err(AllocError),
    }
}
