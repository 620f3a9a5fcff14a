//! Finds out why edits are refused, from the tree of the document.
ghost use Rattle.std.specs.Prelude.{◌≡◌, ℕ, List, map, true};
ghost use Rattle.toml_span_tree.specs.Value.{view};
ghost use Rattle.toml_span_edit.specs.Refused as spec;
ghost use Rattle.toml_span_edit.specs.declared.edits.Change.TheVariants as changes;

use crate::document::Old;
use crate::edits::{Change, Edit};
use crate::lines::{line_start, part};
use crate::made::{child, value_at};
use crate::reach::named;
use crate::reason::{Edited, Reason, already_there};
use std::alloc::AllocError;
use toml_span::Stop;
use toml_span::value::Value;
use toml_span_lex::lines::line_info;

/// Returns the reason that something is at the byte offset `at` of `old`, with its line and column. Columns count
/// characters from 1.
fn there(old: Old<'_, '_>, at: usize) -> Result<Reason, AllocError> {
    let text = old.text;
    let line = line_info(text, at.min(text.len())).0.saturating_add(1);
    let before = part(text, line_start(text, at), at).chars().count();
    let column = before.saturating_add(1);
    Ok(Reason::AlreadyThere(format!(in old.alloc; " (line {line}, column {column})")?))
}

/// Checks that `old` has no value at the path that consists of `front` and `name`. Fails with `AlreadyThere` if it has
/// one.
fn check_free(old: Old<'_, '_>, front: &[&str], name: &str) -> Edited<()> {
    let Some(table) = value_at(front, old.tree) else {
        return Ok(());
    };
    match named(table, name) {
        Some((Some(key), _)) => Err(Stop::Fault(there(old, key.start)?)),
        Some((None, value)) => Err(Stop::Fault(there(old, value.span.start)?)),
        None => Ok(()),
    }
}

/// Checks that the path to which `edit` leads has no value in `old`, if the edit needs that. Fails with `AlreadyThere`
/// if it has one. Checks nothing for moves.
pub(crate) fn check_new(old: Old<'_, '_>, edit: Edit<'_>) -> Edited<()> {
    let [front @ .., last] = edit.path else {
        return Ok(());
    };
    match edit.change {
        Change::Add(_) | Change::AddTable => check_free(old, front, *last),
        Change::Rename(name) => {
            if name == *last || value_at(edit.path, old.tree).is_none() {
                return Ok(());
            }
            check_free(old, front, name)
        }
        _ => Ok(()),
    }
}

/// Checks that a value can be moved from `path` to `target`: that the tree `rest`, without the value, has no value at
/// `target`, or an element before which the value can be inserted. Fails with `AlreadyThere` if not.
pub(crate) fn check_target(
    old: Old<'_, '_>,
    path: &[&str],
    target: &[&str],
    rest: &Value<'_>,
) -> Edited<()> {
    let ([from @ .., _], [front @ .., name]) = (path, target) else {
        return Ok(());
    };
    let Some(table) = value_at(front, rest) else {
        return Ok(());
    };
    if table.as_table().is_none() || child(table, *name).is_none() {
        return Ok(());
    }
    // If the value was an element of an array, the path can name another value in `old`.
    let is_shifted = match value_at(from, old.tree) {
        Some(list) => list.as_array().is_some(),
        None => false,
    };
    if !is_shifted {
        check_free(old, front, *name)?;
    }
    Err(already_there(old.alloc))
}

/// Returns whether the tree `value` has a value at `path`.
fn is_there(path: &[&str], value: &Value<'_>) -> bool
    ensures { result ≡ spec.is_there (map (λ s. s.now) path.now) (view value.now) }
{
    value_at(path, value).is_some()
}

/// Returns whether the value at `path` in the tree `value` has the entry or element `name`.
fn has_child(path: &[&str], name: &str, value: &Value<'_>) -> bool
    ensures { result ≡ spec.has_child (map (λ s. s.now) path.now) name.now (view value.now) }
{
    let Some(table) = value_at(path, value) else {
        return false;
    };
    child(table, name).is_some()
}

/// Returns whether the value next to the one at `path` with the name `name` is in the tree `value`.
fn has_sibling(path: &[&str], name: &str, value: &Value<'_>) -> bool
    ensures { result ≡ true
        → spec.IsTaken (changes.Rename name.entry) (map (λ s. s.now) path.now) (view value.now) }
{
    match path {
        [front @ .., _] => has_child(front, name, value),
        [] => false,
    }
}

/// Returns whether the tree `old` has a value at the path to which `edit` leads: at the new name of a key, at the
/// target of a move, or at the path of what is added. Returns false for other edits.
fn is_taken(edit: Edit<'_>, old: &Value<'_>) -> bool
    ensures { result ≡ true
        → spec.IsTaken edit.entry.change (map (λ s. s.now) edit.entry.path.now) (view old.now) }
{
    match edit.change {
        Change::Rename(name) => has_sibling(edit.path, name, old),
        Change::MoveTo(target) => is_there(target, old),
        Change::SetOrAdd(_) => is_there(edit.path, old),
        Change::Add(_) => is_there(edit.path, old),
        Change::AddTable => is_there(edit.path, old),
        _ => false,
    }
}

/// Returns whether the value at `path` in the tree `value` is a table or an array.
fn is_container_at(path: &[&str], value: &Value<'_>) -> bool
    ensures { result ≡ spec.is_container_at (map (λ s. s.now) path.now) (view value.now) }
{
    match value_at(path, value) {
        Some(there) => there.as_array().is_some() || there.as_table().is_some(),
        None => false,
    }
}

/// Returns whether the tree `old` confirms that `reason` is true of `edit`. Returns true for a reason that says nothing
/// of this tree, and false for one that a check of the new text has to find.
fn is_confirmed(reason: &Reason, edit: Edit<'_>, old: &Value<'_>) -> bool
    ensures { (text : List ℕ) → result ≡ true → spec.IsTrueReason reason.now edit.entry.change
        (map (λ s. s.now) edit.entry.path.now) (view old.now) text }
{
    match reason {
        Reason::InvalidDocument(_) => false,
        Reason::ResultInvalid(_) => matches!(edit.change, Change::MoveTo(_)),
        Reason::Nothing => !is_there(edit.path, old),
        Reason::Root => edit.path.is_empty(),
        Reason::NotLiteral => is_container_at(edit.path, old),
        Reason::AlreadyThere(_) => is_taken(edit, old),
        _ => true,
    }
}

/// Returns why `edit` is refused: the reason in `stop` if the tree `old` confirms it, otherwise `WouldDiffer`. Returns
/// a failed allocation as it is.
pub(crate) fn confirmed(stop: Stop<Reason>, edit: Edit<'_>, old: &Value<'_>) -> Stop<Reason>
    ensures { (text : List ℕ) → spec.IsRefusedChange edit.entry.change (map (λ s. s.now) edit.entry.path.now)
        (view old.now) text result }
{
    match stop {
        Stop::Memory(error) => Stop::Memory(error),
        Stop::Fault(reason) => {
            if is_confirmed(&reason, edit, old) {
                Stop::Fault(reason)
            } else {
                Stop::Fault(Reason::WouldDiffer)
            }
        }
    }
}
