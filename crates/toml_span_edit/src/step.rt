//! Makes one edit, and checks that the new tree is the old one with only this change.
ghost use Rattle.std.specs.Prelude.{◌≡◌, ◌⊎◌, [], IfErr, IfOk, OnOk, true, map, string_bytes};
ghost use Rattle.toml_span_read.specs.Data.{depth_limit};
ghost use Rattle.toml_span_tree.specs.Value.{view};
ghost use Rattle.toml_span.specs.Parsing.{IsTree};
ghost use Rattle.toml_span_edit.specs.Edited as spec;
ghost use Rattle.toml_span_edit.specs.Kept as kept;
ghost use Rattle.toml_span_edit.specs.Refused as refusals;
ghost use Rattle.toml_span_edit.specs.Comments.{AddsNoComment};
ghost use Rattle.toml_span_edit.specs.Made.{local};
ghost use Rattle.toml_span_edit.specs.Reasons.{fault_text};

use crate::comments::check_comments;
use crate::document::Old;
use crate::edits::{Change, Edit};
use crate::given::{no_value, probe_text};
use crate::made::{Local, added, changed, child, value_at};
use crate::reason::{Edited, Reason};
use crate::refusing::{check_new, check_target, confirmed};
use crate::retrying::made_over;
use crate::text::joined;
use crate::texts::{edited_text, moved_text, text_without};
use std::alloc::{AllocError, Global};
use toml_span::value::Value;
use toml_span::{Error, Stop, parse};

/// Where a new value goes, relative to the value at a path.
#[derive(Clone, Copy)]
pub(crate) enum Destination<'l> {
    /// In place of the value at the path.
    Here,
    /// In the table at the path, under this key; or in the array at the path, at this position.
    Under(&'l str),
    /// At the end of the array at the path.
    End,
}

/// Returns `fault` as text: its line, its column in bytes, and its message. Line and column count from 1.
fn fault_text(alloc: Global, fault: &Error<'_>) -> Result<String, AllocError>
    ensures { IfOk result (λ text. string_bytes text ≡ fault_text fault.now) }
{
    let (line, column) = fault.line_info.unwrap_or((0, 0));
    let (line, column) = (line.saturating_add(1), column.saturating_add(1));
    format!(in alloc; "{line}:{column}: {fault}")
}

/// Returns the tree of `text` or, if `text` is not valid TOML, its error as text, with line and column.
pub(crate) fn tree<'t>(
    alloc: Global,
    text: &'t str,
) -> Result<Result<Value<'t>, String>, AllocError>
    ensures tree { IfOk result (λ read. IfOk read (λ root. IsTree text.now depth_limit root)) }
    ensures invalid { IfOk result (λ read. IfErr read (λ fault. refusals.IsInvalidAs (string_bytes fault) text.now)) }
{
    match parse(alloc, text) {
        Ok(root) => Ok(Ok(root)),
        Err(Stop::Memory(error)) => Err(error),
        Err(Stop::Fault(fault)) => {
            let reason = fault_text(alloc, &fault);
            drop(fault);
            Ok(Err(reason?))
        }
    }
}

/// Returns the tree of `probe`, which is `v = ` followed by `value`. Fails with `NoValue` if `probe` is not valid TOML.
fn given_tree<'p>(alloc: Global, probe: &'p str, value: &str) -> Edited<Value<'p>>
    ensures { IfOk result (λ root. IsTree probe.now depth_limit root) }
{
    match parse(alloc, probe) {
        Ok(root) => Ok(root),
        Err(stop) => {
            drop(stop.fault()?);
            Err(Stop::Fault(no_value(alloc, value)?))
        }
    }
}

/// Returns the `Local` change that puts `given` at `destination`.
fn local_of<'l, 'v, 'de>(destination: Destination<'l>, given: &'v Value<'de>) -> Local<'l, 'v, 'de>
    ensures { local result ≡ spec.is_placed destination.entry (view given.now) }
{
    match destination {
        Destination::Here => Local::Set(given),
        Destination::Under(segment) => Local::Put(segment, given),
        Destination::End => Local::Last(given),
    }
}

/// Returns whether the tree `new` is the tree `old` with the TOML value `value` put at `destination`, which is relative
/// to the value at `path`. Fails with `NoValue` if `value` can't be read.
fn is_placed(
    alloc: Global,
    destination: Destination<'_>,
    value: &str,
    path: &[&str],
    old: &Value<'_>,
    new: &Value<'_>,
) -> Edited<bool>
    ensures { IfOk result (λ holds. holds ≡ true
        → spec.IsPlaced (spec.is_placed destination.entry) value.now (map (λ s. s.now) path.now) (view old.now)
        (view new.now)) }
{
    let probe = probe_text(alloc, value)?;
    let root = given_tree(alloc, probe.as_str(), value)?;
    match child(&root, "v") {
        Some(given) => Ok(changed(path, local_of(destination, given), old, new)),
        None => Ok(false),
    }
}

/// Returns whether the tree `new` is the tree `old` with the TOML value `value`, and the tables missing on the way,
/// added at `path`. Fails with `NoValue` if `value` can't be read.
fn is_new(
    alloc: Global,
    value: &str,
    path: &[&str],
    old: &Value<'_>,
    new: &Value<'_>,
) -> Edited<bool>
    ensures { IfOk result (λ holds. holds ≡ true
        → spec.IsNew value.now (map (λ s. s.now) path.now) (view old.now) (view new.now)) }
{
    let probe = probe_text(alloc, value)?;
    let root = given_tree(alloc, probe.as_str(), value)?;
    match child(&root, "v") {
        Some(given) => Ok(added(path, given, old, new)),
        None => Ok(false),
    }
}

/// Returns whether the tree `new` is the tree `old` with `edit` made. Returns false for a move. Fails with `NoValue` if
/// the edit's value can't be read.
fn is_made(alloc: Global, edit: Edit<'_>, old: &Value<'_>, new: &Value<'_>) -> Edited<bool>
    ensures { IfOk result (λ holds. holds ≡ true
        → spec.Makes edit.entry.change (map (λ s. s.now) edit.entry.path.now) (view old.now) (view new.now)) }
{
    let Edit { path, change } = edit;
    match change {
        Change::Set(value) => is_placed(alloc, Destination::Here, value, path, old, new),
        Change::Replace(value) => is_placed(alloc, Destination::Here, value, path, old, new),
        Change::SetOrAdd(value) => {
            if value_at(path, old).is_some() {
                return is_placed(alloc, Destination::Here, value, path, old, new);
            }
            is_new(alloc, value, path, old, new)
        }
        Change::Append(value) => {
            if value_at(path, old).is_some() {
                return is_placed(alloc, Destination::End, value, path, old, new);
            }
            let list = joined(alloc, "[", value, "]")?;
            is_new(alloc, list.as_str(), path, old, new)
        }
        Change::AddTable => is_new(alloc, "{}", path, old, new),
        Change::Add(value) => is_under(alloc, value, path, old, new),
        Change::Insert(value) => is_under(alloc, value, path, old, new),
        Change::Remove => Ok(is_gone(path, old, new)),
        Change::Rename(name) => Ok(is_renamed(name, path, old, new)),
        Change::MoveTo(_) => Ok(false),
    }
}

/// Returns whether the tree `new` is the tree `old` with the TOML value `value` added at `path`, in a table or array
/// that `old` has. Returns false if `path` is empty. Fails with `NoValue` if `value` can't be read.
fn is_under(
    alloc: Global,
    value: &str,
    path: &[&str],
    old: &Value<'_>,
    new: &Value<'_>,
) -> Edited<bool>
    ensures { IfOk result (λ holds. holds ≡ true
        → spec.IsUnder value.now (map (λ s. s.now) path.now) (view old.now) (view new.now)) }
{
    match path {
        [front @ .., name] => is_placed(alloc, Destination::Under(*name), value, front, old, new),
        [] => Ok(false),
    }
}

/// Returns whether the tree `new` is the tree `old` without the value at `path`. Returns false if `path` is empty or
/// names nothing in `old`.
fn is_gone(path: &[&str], old: &Value<'_>, new: &Value<'_>) -> bool
    ensures { result ≡ true → spec.IsGone (map (λ s. s.now) path.now) (view old.now) (view new.now) }
{
    match path {
        [front @ .., name] => changed(front, Local::Gone(*name), old, new),
        [] => false,
    }
}

/// Returns whether the tree `new` is the tree `old` with the key at `path` renamed to `new_name`. Returns false if
/// `path` names no key in `old`.
fn is_renamed(new_name: &str, path: &[&str], old: &Value<'_>, new: &Value<'_>) -> bool
    ensures { result ≡ true
        → spec.IsRenamed new_name.now (map (λ s. s.now) path.now) (view old.now) (view new.now) }
{
    match path {
        [front @ .., name] => changed(front, Local::Renamed(*name, new_name), old, new),
        [] => false,
    }
}

/// Returns whether the tree `new` is the tree `old` with `value` added at `path`: as an element of an array, or as an
/// entry, with the tables missing on the way. Returns false if `path` is empty.
fn is_put(path: &[&str], value: &Value<'_>, old: &Value<'_>, new: &Value<'_>) -> bool
    ensures { result ≡ true
        → spec.IsPut (map (λ s. s.now) path.now) (view value.now) (view old.now) (view new.now) }
{
    match path {
        [front @ .., name] => {
            if value_at(front, old).is_some() {
                return changed(front, Local::Put(*name, value), old, new);
            }
            added(path, value, old, new)
        }
        [] => false,
    }
}

/// Returns the tree of the old text `text`. Fails with `InvalidDocument` if `text` is not valid TOML.
pub(crate) fn old_tree<'t>(alloc: Global, text: &'t str) -> Edited<Value<'t>>
    ensures tree { IfOk result (λ root. IsTree text.now depth_limit root) }
    ensures refused { IfErr result (refusals.IsUnread text.now) }
{
    match tree(alloc, text) {
        Ok(Ok(root)) => Ok(root),
        Ok(Err(fault)) => Err(Stop::Fault(Reason::InvalidDocument(fault))),
        Err(error) => Err(Stop::Memory(error)),
    }
}

/// Returns the tree of the new text `text`. Fails with `ResultInvalid` if `text` is not valid TOML.
pub(crate) fn new_tree<'t>(alloc: Global, text: &'t str) -> Edited<Value<'t>>
    ensures tree { IfOk result (λ root. IsTree text.now depth_limit root) }
    ensures refused { IfErr result (refusals.IsUnwritten text.now) }
{
    match tree(alloc, text) {
        Ok(Ok(root)) => Ok(root),
        Ok(Err(fault)) => Err(Stop::Fault(Reason::ResultInvalid(fault))),
        Err(error) => Err(Stop::Memory(error)),
    }
}

/// Checks that `new` is a document whose tree is `old` with `edit` made. Fails with `ResultInvalid` if `new` is not
/// valid TOML, with `NoValue` if the edit's value can't be read, and with `WouldDiffer` if `new` has a different tree
/// or `edit` is a move.
fn check_made(alloc: Global, edit: Edit<'_>, old: &Value<'_>, new: &str) -> Edited<()>
    ensures made { OnOk result (spec.IsMade edit.entry.change (map (λ s. s.now) edit.entry.path.now) (view old.now)
        new.now) }
    ensures refused { IfErr result (refusals.IsUnwritten new.now) }
{
    let root = match new_tree(alloc, new) {
        Ok(root) => root,
        Err(stop) => return Err(stop),
    };
    match is_made(alloc, edit, old, &root) {
        Ok(true) => Ok(()),
        Ok(false) => Err(Stop::Fault(Reason::WouldDiffer)),
        Err(Stop::Memory(error)) => Err(Stop::Memory(error)),
        Err(Stop::Fault(_)) => Err(Stop::Fault(Reason::NoValue(None))),
    }
}

/// Checks that `new` is a document whose tree is `rest` with `value` added at `path`. Fails with `ResultInvalid` if
/// `new` is not valid TOML, and with `WouldDiffer` if it has a different tree.
fn check_put_back(
    alloc: Global,
    path: &[&str],
    value: &Value<'_>,
    rest: &Value<'_>,
    new: &str,
) -> Edited<()>
    ensures { OnOk result (spec.IsPutBack (map (λ s. s.now) path.now) (view value.now) (view rest.now) new.now) }
{
    let root = new_tree(alloc, new)?;
    if is_put(path, value, rest, &root) {
        Ok(())
    } else {
        Err(Stop::Fault(Reason::WouldDiffer))
    }
}

/// Returns the tree of `without`, a text without the value at `path`. `old` is the tree with this value. Fails with a
/// reason if there are other differences.
fn rest_of<'t>(alloc: Global, without: &'t str, path: &[&str], old: &Value<'_>) -> Edited<Value<'t>>
    ensures { IfOk result (λ rest. spec.IsGone (map (λ s. s.now) path.now) (view old.now) (view rest)) }
{
    let rest = new_tree(alloc, without)?;
    if is_gone(path, old, &rest) {
        return Ok(rest);
    }
    Err(Stop::Fault(Reason::WouldDiffer))
}

/// Returns `old` with `value`, the value at `path`, moved to `target`. `base` is what `text_without` returned for
/// `path`. Fails with a reason if the move is refused.
fn moved_from(
    old: Old<'_, '_>,
    base: &str,
    path: &[&str],
    target: &[&str],
    value: &Value<'_>,
) -> Edited<String>
    ensures moved { IfOk result (λ new. spec.IsMoved (map (λ s. s.now) target.now) (map (λ s. s.now) path.now)
        (view value.now) (view old.entry.tree.now) (string_bytes new)) }
    ensures kept { IfOk result (λ new. (kept.IsInserted base.now (string_bytes new))
        ⊎ ((kept.HasOtherHeaders old.entry.text.now (string_bytes new))
        ⊎ (kept.HasOtherKey (map (λ s. s.now) path.now) old.entry.text.now (string_bytes new)))) }
{
    let rest = rest_of(old.alloc, base, path, old.tree)?;
    check_target(old, path, target, &rest)?;
    let new = moved_text(old, base, path, target, value)?;
    check_put_back(old.alloc, target, value, &rest, new.as_str())?;
    Ok(new)
}

/// Returns `old` with `value`, the value at `path`, moved to `target`. Fails with a reason if the move is refused.
fn move_value(old: Old<'_, '_>, path: &[&str], target: &[&str], value: &Value<'_>) -> Edited<String>
    ensures moved { IfOk result (λ new. spec.IsMoved (map (λ s. s.now) target.now) (map (λ s. s.now) path.now)
        (view value.now) (view old.entry.tree.now) (string_bytes new)) }
    ensures kept { IfOk result (λ new. kept.IsMovedText (map (λ s. s.now) path.now) (view old.entry.tree.now)
        old.entry.text.now (string_bytes new)) }
    ensures none { IfOk result (λ new. AddsNoComment [] old.entry.text.now (string_bytes new)) }
{
    let without = text_without(old, path)?;
    let new = moved_from(old, without.as_str(), path, target, value)?;
    check_comments(old.alloc, "", old.text, new.as_str())?;
    Ok(new)
}

/// Returns what `move_value` returns for `value`, the value at the path of `edit`. Fails with a reason that the tree of
/// `old` confirms.
fn moved(old: Old<'_, '_>, edit: Edit<'_>, target: &[&str], value: &Value<'_>) -> Edited<String>
    ensures moved { IfOk result (λ new. spec.IsMoved (map (λ s. s.now) target.now)
        (map (λ s. s.now) edit.entry.path.now) (view value.now) (view old.entry.tree.now) (string_bytes new)) }
    ensures kept { IfOk result (λ new. kept.IsMovedText (map (λ s. s.now) edit.entry.path.now) (view old.entry.tree.now)
        old.entry.text.now (string_bytes new)) }
    ensures none { IfOk result (λ new. AddsNoComment [] old.entry.text.now (string_bytes new)) }
    ensures refused { IfErr result (refusals.IsRefusedChange edit.entry.change (map (λ s. s.now) edit.entry.path.now)
        (view old.entry.tree.now) old.entry.text.now) }
{
    match move_value(old, edit.path, target, value) {
        Ok(new) => Ok(new),
        Err(stop) => Err(confirmed(stop, edit, old.tree)),
    }
}

/// Returns the text that `edited_text` returns for these arguments. Fails with `AlreadyThere` if the edit would replace
/// a value that it must not replace, and with another reason if `edited_text` fails.
fn proposed(old: Old<'_, '_>, edit: Edit<'_>) -> Edited<String>
    ensures { IfOk result (λ new. kept.Keeps edit.entry.change (map (λ s. s.now) edit.entry.path.now)
        (view old.entry.tree.now) old.entry.text.now (string_bytes new)) }
{
    check_new(old, edit)?;
    edited_text(old, edit)
}

/// Returns the text that `proposed` returns for these arguments. Fails with a reason if that fails, or if its tree is
/// not that of `old` with `edit` made. Always refuses a move.
fn checked(old: Old<'_, '_>, edit: Edit<'_>) -> Edited<String>
    ensures made { IfOk result (λ new. spec.IsMade edit.entry.change (map (λ s. s.now) edit.entry.path.now)
        (view old.entry.tree.now) (string_bytes new)) }
    ensures kept { IfOk result (λ new. kept.Keeps edit.entry.change (map (λ s. s.now) edit.entry.path.now)
        (view old.entry.tree.now) old.entry.text.now (string_bytes new)) }
    ensures refused { IfErr result (refusals.IsRefusedChange edit.entry.change (map (λ s. s.now) edit.entry.path.now)
        (view old.entry.tree.now) old.entry.text.now) }
{
    let new = match proposed(old, edit) {
        Ok(new) => new,
        Err(stop) => return Err(confirmed(stop, edit, old.tree)),
    };
    match check_made(old.alloc, edit, old.tree, new.as_str()) {
        Ok(()) => Ok(new),
        Err(stop) => Err(stop),
    }
}

/// Returns `old` with `edit` made, as `checked` does or, if that fails, by writing the value over a literal. Fails with
/// a reason if `edit` is refused. Always refuses a move.
fn edit_value(old: Old<'_, '_>, edit: Edit<'_>) -> Edited<String>
    ensures made { IfOk result (λ new. spec.IsMade edit.entry.change (map (λ s. s.now) edit.entry.path.now)
        (view old.entry.tree.now) (string_bytes new)) }
    ensures kept { IfOk result (λ new. kept.Keeps edit.entry.change (map (λ s. s.now) edit.entry.path.now)
        (view old.entry.tree.now) old.entry.text.now (string_bytes new)) }
    ensures refused { IfErr result (refusals.IsRefusedChange edit.entry.change (map (λ s. s.now) edit.entry.path.now)
        (view old.entry.tree.now) old.entry.text.now) }
    ensures over { IfErr result (refusals.UnlessMemory (refusals.CannotMakeOver edit.entry.change
        (map (λ s. s.now) edit.entry.path.now) (view old.entry.tree.now) old.entry.text.now)) }
{
    let reason = match checked(old, edit) {
        Ok(new) => return Ok(new),
        Err(Stop::Memory(error)) => return Err(Stop::Memory(error)),
        Err(Stop::Fault(reason)) => reason,
    };
    match made_over(old, edit) {
        Ok(Some(new)) => Ok(new),
        Ok(None) => Err(Stop::Fault(reason)),
        Err(error) => Err(Stop::Memory(error)),
    }
}

/// Returns `old` with `edit` made. Fails with a reason if `edit` is refused.
fn changed_text(old: Old<'_, '_>, edit: Edit<'_>) -> Edited<String>
    requires { IsTree old.text.now depth_limit old.tree.now }
    ensures made { IfOk result (λ new. spec.EditMade edit.entry old.entry.text.now (string_bytes new)) }
    ensures refused { IfErr result (refusals.IsRefused edit.entry old.entry.text.now) }
{
    match edit.change {
        Change::MoveTo(target) => match value_at(edit.path, old.tree) {
            Some(value) => moved(old, edit, target, value),
            None => Err(Stop::Fault(Reason::Nothing)),
        },
        _ => edit_value(old, edit),
    }
}

/// Returns `text` with `edit` made. Fails with a reason if `text` is not a document, or if `edit` can't be made without
/// changing anything else in the tree or the text.
pub(crate) fn step(alloc: Global, text: &str, edit: Edit<'_>) -> Edited<String>
    ensures made { IfOk result (λ new. spec.EditMade edit.entry text.now (string_bytes new)) }
    ensures refused { IfErr result (refusals.IsRefused edit.entry text.now) }
{
    match old_tree(alloc, text) {
        Ok(root) => {
            let tree = &root;
            changed_text(Old { alloc, text, tree }, edit)
        }
        Err(stop) => Err(stop),
    }
}
