//! Applies the changes that an editor makes to a text.
ghost use Rattle.std.specs.Prelude.{◌≡◌, ◌++◌, IfOk, string_bytes, take, drop};
ghost use Rattle.std.specs.Str.{IsCharBoundary};
ghost use Rattle.toml_span_editor.specs.Changes as spec;

use crate::positions::{Encoding, Range, offset_at};
use std::alloc::{AllocError, Global};

/// Returns the text with `new` in place of the bytes from `from` to `to`.
pub(crate) fn spliced(
    alloc: Global,
    text: &str,
    from: usize,
    to: usize,
    new: &str,
) -> Result<String, AllocError>
    requires from { IsCharBoundary text.now from }
    requires to { IsCharBoundary text.now to }
    ensures { IfOk result (λ made. string_bytes made ≡ take from text.now ++ new.now ++ drop to text.now) }
{
    let mut made = String::from_str(alloc, &text[..from])?;
    made.push_str(new)?;
    made.push_str(&text[to..])?;
    Ok(made)
}

/// Returns the text after a change: `new` replaces the range or, if `range` is `None`, the whole text. If the range
/// ends before its start, the two are swapped. Fails if an allocation fails.
pub fn changed(
    alloc: Global,
    encoding: Encoding,
    text: &str,
    range: Option<Range>,
    new: &str,
) -> Result<String, AllocError>
    ensures { IfOk result (λ made. string_bytes made ≡ spec.changed encoding text.now range new.now) }
{
    let Some(range) = range else {
        return String::from_str(alloc, new);
    };
    let start = offset_at(encoding, text, range.start);
    let end = offset_at(encoding, text, range.end);
    spliced(alloc, text, start.min(end), start.max(end), new)
}
