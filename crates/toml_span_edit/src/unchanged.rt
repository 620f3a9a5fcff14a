//! Checks that a new text of a document has the same tree.
ghost use Rattle.std.specs.Prelude.{◌≡◌, IfOk, string_bytes, true};
ghost use Rattle.toml_span_edit.specs.Edited.{IsSameDocument};

use crate::reason::{Edited, Reason};
use crate::same::same_tree;
use crate::step::{new_tree, old_tree};
use std::alloc::Global;
use toml_span::Stop;

/// Returns whether `text` and `new` have the same tree except for spans. Fails with `InvalidDocument` if `text` is not
/// valid TOML, and with `ResultInvalid` if `new` is not.
fn has_same_tree(alloc: Global, text: &str, new: &str) -> Edited<bool>
    ensures { IfOk result (λ same. same ≡ true → IsSameDocument text.now new.now) }
{
    let old = old_tree(alloc, text)?;
    let root = new_tree(alloc, new)?;
    Ok(same_tree(&old, &root))
}

/// Returns `new` if it and `text` are valid TOML and have the same tree except for spans: the same keys and values,
/// where floats and dates are compared by their texts. Blanks, comments, the order of entries, and the spelling of
/// strings and integers may differ.
///
/// Fails with `InvalidDocument` if `text` is not valid TOML, with `ResultInvalid` if `new` is not, with `WouldDiffer`
/// if the trees differ, and with `Stop::Memory` if an allocation fails.
pub fn validated(alloc: Global, text: &str, new: String) -> Result<String, Stop<Reason>>
    ensures same { IfOk result (λ out. IsSameDocument text.now (string_bytes out)) }
    ensures text { IfOk result (λ out. string_bytes out ≡ string_bytes new) }
{
    let is_same = has_same_tree(alloc, text, new.as_str())?;
    if is_same {
        Ok(new)
    } else {
        Err(Stop::Fault(Reason::WouldDiffer))
    }
}
