//! Compares the entries of two documents.
ghost use Rattle.std.specs.Prelude.{◌≡◌, ◌↔◌, false, IfOk, IfSome, IsTrue, map};
ghost use Rattle.std.specs.List.Sorted.{IsPermutation, IsSortedBy};
ghost use Rattle.toml_span_format.specs.Document.{IsRead};
ghost use Rattle.toml_span_format.specs.Entries as spec;

use crate::entries::Entry;
use crate::read::Document;
use crate::tokens::{same_texts, tokens_of};
use std::alloc::{AllocError, Global};
use std::cmp::Ordering;

/// Compares two entries by their groups, and then by their keys.
fn compare(keys: &[Vec<&str>], a: &Entry, b: &Entry) -> Ordering {
    let groups = a.group.cmp(&b.group);
    groups.then_with(|| keys.get(a.key).cmp(&keys.get(b.key)))
}

/// Returns the entries in their new order: by their groups, and then by their keys.
pub(crate) fn sorted(
    alloc: Global,
    keys: &[Vec<&str>],
    entries: &[Entry],
) -> Result<Vec<Entry>, AllocError>
    ensures { IfOk result (λ found. IsPermutation entries.now found.items) }
{
    let mut found = Vec::from_slice(alloc, entries)?;
    found.sort_by(|a, b| compare(keys, a, b))?;
    Ok(found)
}

/// Returns whether a list of names is less than another one: name by name, by their bytes.
#[tactic(auto, using(crate::proofs::NameLemmas::cmp_now))]
fn is_less(a: &[&str], b: &[&str]) -> bool
    ensures { result ≡ spec.is_less (map (λ t. t.now) a.now) (map (λ t. t.now) b.now) }
{
    matches!(a.cmp(b), Ordering::Less)
}

/// Returns whether an entry may precede another one. May return `false` if an entry has no key in `keys`.
fn is_in_order(keys: &[Vec<&str>], a: Entry, b: Entry) -> bool
    ensures { IsTrue result → spec.is_before (spec.rank (map spec.key_names keys.now) b)
        (spec.rank (map spec.key_names keys.now) a) ≡ false }
{
    if a.group != b.group {
        return a.group < b.group;
    }
    if a.key >= keys.len() || b.key >= keys.len() {
        return false;
    }
    !is_less(keys[b.key].as_slice(), keys[a.key].as_slice())
}

/// Returns whether the entries are sorted. May return `false` if an entry has no key in `keys`.
pub(crate) fn is_sorted(keys: &[Vec<&str>], entries: &[Entry]) -> bool
    ensures { IsTrue result
        → IsSortedBy spec.is_before (map (spec.rank (map spec.key_names keys.now)) entries.now) }
{
    for at in 1..entries.len() {
        if !is_in_order(keys, entries[at - 1], entries[at]) {
            return false;
        }
    }
    true
}

/// Returns whether two lists of names are equal.
fn same_names(a: &[&str], b: &[&str]) -> bool
    ensures { IsTrue result ↔ (map (λ t. t.now) a.now ≡ map (λ t. t.now) b.now) }
{
    a == b
}

/// Returns the tokens and comments of an entry, or `None` if it is not in the document.
fn tokens_in<'t>(
    alloc: Global,
    document: &Document<'t>,
    entry: Entry,
) -> Result<Option<Vec<&'t [u8]>>, AllocError>
    requires { IsRead document.now }
    ensures { IfOk result (λ found. IfSome found (λ ts. map (λ t. t.now) ts.items
        ≡ spec.tokens_in document.now.text.now document.now.pieces.items entry)) }
{
    if entry.first > entry.end || entry.end > document.pieces.len() {
        return Ok(None);
    }
    let pieces = document.pieces.as_slice();
    let found = tokens_of(
        alloc,
        document.text.as_bytes(),
        &pieces[entry.first..entry.end],
    )?;
    Ok(Some(found))
}

/// Returns whether two entries have the same group and names. May return `false` if an entry has no key.
fn same_rank(old_keys: &[Vec<&str>], a: Entry, new_keys: &[Vec<&str>], b: Entry) -> bool
    ensures { IsTrue result
        → spec.rank (map spec.key_names old_keys.now) a ≡ spec.rank (map spec.key_names new_keys.now) b }
{
    a.group == b.group
        && a.key < old_keys.len()
        && b.key < new_keys.len()
        && same_names(old_keys[a.key].as_slice(), new_keys[b.key].as_slice())
}

/// Returns whether two entries have the same tokens. May return `false` if an entry is not in its document.
fn same_tokens(
    alloc: Global,
    old: &Document<'_>,
    a: Entry,
    new: &Document<'_>,
    b: Entry,
) -> Result<bool, AllocError>
    requires old { IsRead old.now }
    requires new { IsRead new.now }
    ensures { IfOk result (λ same. IsTrue same → spec.tokens_in old.now.text.now old.now.pieces.items a
        ≡ spec.tokens_in new.now.text.now new.now.pieces.items b) }
{
    let Some(before) = tokens_in(alloc, old, a)? else {
        return Ok(false);
    };
    let Some(after) = tokens_in(alloc, new, b)? else {
        return Ok(false);
    };
    Ok(same_texts(before.as_slice(), after.as_slice()))
}

/// Returns whether two entries have the same group, names and tokens. May return `false` if an entry is not in its
/// document, or has no key.
fn same_entry(
    alloc: Global,
    old: &Document<'_>,
    old_keys: &[Vec<&str>],
    a: Entry,
    new: &Document<'_>,
    new_keys: &[Vec<&str>],
    b: Entry,
) -> Result<bool, AllocError>
    requires old { IsRead old.now }
    requires new { IsRead new.now }
    ensures { IfOk result (λ same. IsTrue same
        → spec.content old.now.text.now old.now.pieces.items (map spec.key_names old_keys.now) a
        ≡ spec.content new.now.text.now new.now.pieces.items (map spec.key_names new_keys.now) b) }
{
    if !same_rank(old_keys, a, new_keys, b) {
        return Ok(false);
    }
    let same = same_tokens(alloc, old, a, new, b)?;
    Ok(same)
}

/// Returns whether the entries of two documents have the same groups, names and tokens, in the same order.
pub(crate) fn same_entries(
    alloc: Global,
    old: &Document<'_>,
    old_keys: &[Vec<&str>],
    a: &[Entry],
    new: &Document<'_>,
    new_keys: &[Vec<&str>],
    b: &[Entry],
) -> Result<bool, AllocError>
    requires old { IsRead old.now }
    requires new { IsRead new.now }
    ensures { IfOk result (λ same. IsTrue same
        → map (spec.content old.now.text.now old.now.pieces.items (map spec.key_names old_keys.now)) a.now
        ≡ map (spec.content new.now.text.now new.now.pieces.items (map spec.key_names new_keys.now)) b.now) }
{
    if a.len() != b.len() {
        return Ok(false);
    }
    for (i, x) in a.iter().enumerate() {
        if !same_entry(alloc, old, old_keys, *x, new, new_keys, b[i])? {
            return Ok(false);
        }
    }
    Ok(true)
}
