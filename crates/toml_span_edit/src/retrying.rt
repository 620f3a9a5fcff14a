//! Makes edits that were refused, if writing the new value over a literal makes them.
ghost use Rattle.std.specs.Prelude.{◌≡◌, IfNone, IfOk, IfSome, false, map, string_bytes, true};
ghost use Rattle.toml_span_tree.specs.Value.{view};
ghost use Rattle.toml_span_edit.specs.Edited.{IsMade};
ghost use Rattle.toml_span_edit.specs.Kept.{IsWrittenOver, Keeps};
ghost use Rattle.toml_span_edit.specs.Refused as spec;
ghost use Rattle.toml_span_edit.specs.declared.edits.Change.TheVariants as changes;

use crate::document::Old;
use crate::edits::{Change, Edit};
use crate::given::probe_text;
use crate::made::{Local, changed, child, value_at};
use crate::step::tree;
use std::alloc::{AllocError, Global};
use toml_span::value::Value;
use toml_span_places::{literal_span, replaced};

/// Returns whether `given`, the tree of `probe`, has a value `v` whose literal begins after `v = ` and ends where
/// `probe` ends, and the tree `new` is the tree `old` with this value at `path`.
fn is_set(probe: &str, given: &Value<'_>, path: &[&str], old: &Value<'_>, new: &Value<'_>) -> bool
    ensures { result ≡ spec.is_set probe.now (view given.now) (map (λ s. s.now) path.now) (view old.now)
        (view new.now) }
{
    match child(given, "v") {
        Some(value) => {
            let span = literal_span(probe, value);
            let is_alone = span.start == 4 && span.end == probe.len();
            is_alone && changed(path, Local::Set(value), old, new)
        }
        None => false,
    }
}

/// Returns whether `value` is one TOML value with nothing around it, and `new` is a document whose tree is `old` with
/// this value at `path`.
fn sets(
    alloc: Global,
    value: &str,
    path: &[&str],
    old: &Value<'_>,
    new: &str,
) -> Result<bool, AllocError>
    ensures set { IfOk result (λ holds. holds ≡ true
        → IsMade (changes.Set value.entry) (map (λ s. s.now) path.now) (view old.now) new.now) }
    ensures not_set { IfOk result (λ holds. holds ≡ false
        → spec.IsNotSet value.now (map (λ s. s.now) path.now) (view old.now) new.now) }
{
    let probe = probe_text(alloc, value)?;
    let Ok(given) = tree(alloc, probe.as_str())? else {
        return Ok(false);
    };
    let Ok(root) = tree(alloc, new)? else {
        return Ok(false);
    };
    Ok(is_set(probe.as_str(), &given, path, old, &root))
}

/// Returns `old` with `value` written over the literal of the value at `path`, if that sets the value (see `sets`),
/// otherwise `None`.
fn set_over(old: Old<'_, '_>, path: &[&str], value: &str) -> Result<Option<String>, AllocError>
    ensures made { IfOk result (λ out. IfSome out (λ new. IsMade (changes.Set value.entry)
        (map (λ s. s.now) path.now) (view old.entry.tree.now) (string_bytes new))) }
    ensures kept { IfOk result (λ out. IfSome out (λ new. IsWrittenOver value.now (map (λ s. s.now) path.now)
        (view old.entry.tree.now) old.entry.text.now (string_bytes new))) }
    ensures none { IfOk result (λ out. IfNone out (spec.CannotSetOver value.now (map (λ s. s.now) path.now)
        (view old.entry.tree.now) old.entry.text.now)) }
{
    let Old { alloc, text, tree } = old;
    let Some(there) = value_at(path, tree) else {
        return Ok(None);
    };
    let Some(new) = replaced(alloc, text, &[literal_span(text, there)], value)? else {
        return Ok(None);
    };
    if sets(alloc, value, path, tree, new.as_str())? {
        Ok(Some(new))
    } else {
        Ok(None)
    }
}

/// Returns `old` with `edit` made by writing its value over the literal of the value at its path. Returns `None` if
/// that does not make the edit, or if it is not a `Set`, `Replace` or `SetOrAdd`.
pub(crate) fn made_over(old: Old<'_, '_>, edit: Edit<'_>) -> Result<Option<String>, AllocError>
    ensures made { IfOk result (λ out. IfSome out (λ new. IsMade edit.entry.change
        (map (λ s. s.now) edit.entry.path.now) (view old.entry.tree.now) (string_bytes new))) }
    ensures kept { IfOk result (λ out. IfSome out (λ new. Keeps edit.entry.change
        (map (λ s. s.now) edit.entry.path.now) (view old.entry.tree.now) old.entry.text.now (string_bytes new))) }
    ensures none { IfOk result (λ out. IfNone out (spec.CannotMakeOver edit.entry.change
        (map (λ s. s.now) edit.entry.path.now) (view old.entry.tree.now) old.entry.text.now)) }
{
    let Edit { path, change } = edit;
    match change {
        Change::Set(value) => set_over(old, path, value),
        Change::Replace(value) => set_over(old, path, value),
        Change::SetOrAdd(value) => set_over(old, path, value),
        _ => Ok(None),
    }
}
