//! Checks that an edit adds no comment.
ghost use Rattle.std.specs.Prelude.{◌≡◌, ◌++◌, IfOk, OnOk, map};
ghost use Rattle.std.specs.Str.{bytes_eq};
ghost use Rattle.toml_span_edit.specs.Comments as spec;

use crate::kept::bytes_of;
use crate::reason::{Edited, Reason};
use std::alloc::{AllocError, Global};
use toml_span::Stop;
use toml_span_syntax::pieces::{Kind, Piece, pieces};

/// Appends the comments among these pieces of `text`.
fn push_comments<'t>(
    found: &mut Vec<&'t [u8]>,
    text: &'t str,
    pieces: &[Piece],
) -> Result<(), AllocError>
    ensures { OnOk result (map (λ t. t.now) found.new.items
        ≡ map (λ t. t.now) found.old.items ++ spec.comments text.now pieces.now) }
{
    for piece in pieces {
        if matches!(piece.kind, Kind::Comment) {
            found.push(bytes_of(text, piece.start, piece.end))?;
        }
    }
    Ok(())
}

/// Appends the comments of `text`.
fn push_all<'t>(alloc: Global, found: &mut Vec<&'t [u8]>, text: &'t str) -> Result<(), AllocError>
    ensures { OnOk result (spec.AppendsComments text.now (map (λ t. t.now) found.old.items)
        (map (λ t. t.now) found.new.items)) }
{
    let own = pieces(alloc, text)?;
    push_comments(found, text, own.as_slice())
}

/// Returns the comments of `text` and those of `value`, sorted by their bytes.
fn sorted_comments<'t>(
    alloc: Global,
    text: &'t str,
    value: &'t str,
) -> Result<Vec<&'t [u8]>, AllocError>
    ensures { IfOk result (λ found. spec.AreComments text.now value.now (map (λ t. t.now) found.items)) }
{
    let mut found = Vec::new(alloc);
    push_all(alloc, &mut found, text)?;
    push_all(alloc, &mut found, value)?;
    found.sort()?;
    Ok(found)
}

/// Returns whether two comments are the same.
fn is_equal(one: &[u8], other: &[u8]) -> bool
    ensures { result ≡ bytes_eq one.now other.now }
{
    one == other
}

/// Returns whether `parts` are some of `whole`, in order.
fn are_among(parts: &[&[u8]], whole: &[&[u8]]) -> bool
    ensures { result ≡ spec.are_among (map (λ t. t.now) parts.now) (map (λ t. t.now) whole.now) }
{
    let mut at: usize = 0;
    for other in whole {
        if at < parts.len() && is_equal(parts[at], *other) {
            at += 1;
        }
    }
    at >= parts.len()
}

/// Checks that each comment of `new` is one of `text` or of the TOML value `value`, and occurs as often in them. Fails
/// with `WouldDiffer` otherwise.
pub(crate) fn check_comments(alloc: Global, value: &str, text: &str, new: &str) -> Edited<()>
    ensures { OnOk result (spec.AddsNoComment value.now text.now new.now) }
{
    let found = sorted_comments(alloc, new, "")?;
    let allowed = sorted_comments(alloc, text, value)?;
    if are_among(found.as_slice(), allowed.as_slice()) {
        Ok(())
    } else {
        Err(Stop::Fault(Reason::WouldDiffer))
    }
}
