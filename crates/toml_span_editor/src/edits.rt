//! Edits that change one text into another.
ghost use Rattle.std.specs.Prelude.{◌≡◌, IfOk, IsTrue, Some, map, option_map, string_bytes};
ghost use Rattle.toml_span_places.specs.Replace.{edit_of};
ghost use Rattle.toml_span_places.specs.Replace as places;
ghost use Rattle.toml_span_editor.specs.Edits.{ChangesInto, edit_content};

use std::alloc::{AllocError, Global};
use toml_span::Stop;
use toml_span_files::{Part, parts};
use toml_span_lex::span::Span;
use toml_span_places::{Replacement, replace_all};

/// A span of a text, and the text that replaces it.
#[derive(Drop)]
pub struct Edit {
    pub span: Span,
    pub text: String,
}

/// Edits of a text, and the new text that they produce.
#[derive(Drop)]
pub struct Rewritten {
    pub edits: Vec<Edit>,
    pub text: String,
}

/// Converts edits to replacements.
fn replacements<'e>(alloc: Global, edits: &'e [Edit]) -> Result<Vec<Replacement<'e>>, AllocError>
    ensures { IfOk result (λ list. map edit_of list.items ≡ map edit_content edits.now) }
{
    let mut list = Vec::new(alloc);
    for edit in edits {
        list.push(Replacement {
            span: edit.span,
            text: edit.text.as_str(),
        })?;
    }
    Ok(list)
}

/// Applies the edits to `text`, and returns the new text. Returns `None` if the spans overlap, are not in order, or
/// don't fit the text. Fails if an allocation fails.
pub fn edited(alloc: Global, text: &str, edits: &[Edit]) -> Result<Option<String>, AllocError>
    ensures { IfOk result (λ new. option_map string_bytes new
        ≡ places.replaced text.now (map edit_content edits.now)) }
{
    let list = replacements(alloc, edits)?;
    match replace_all(alloc, text, list.as_slice()) {
        Ok(new) => Ok(Some(new)),
        Err(Stop::Memory(error)) => Err(error),
        Err(Stop::Fault(_)) => Ok(None),
    }
}

/// Returns whether the edits change `old` into `new`.
#[tactic(auto, unfolding(crate::specs::Edits::ChangesInto))]
pub(crate) fn changes_into(
    alloc: Global,
    old: &str,
    edits: &[Edit],
    new: &str,
) -> Result<bool, AllocError>
    ensures { IfOk result (λ does. IsTrue does → ChangesInto old.now (map edit_content edits.now) new.now) }
{
    match edited(alloc, old, edits)? {
        Some(made) => Ok(made.as_str() == new),
        None => Ok(false),
    }
}

/// An edit under construction. `text` replaces the lines of the old text from the byte offset `start` to `end`.
#[derive(Drop)]
struct Hunk {
    start: usize,
    end: usize,
    text: String,
}

/// Returns an edit for each group of lines in which the texts differ. The caller must check the edits with
/// `changes_into`.
fn guessed(alloc: Global, old: &str, new: &str) -> Result<Vec<Edit>, AllocError> {
    let mut edits = Vec::new(alloc);
    let mut hunk = Hunk {
        start: 0,
        end: 0,
        text: String::new(alloc),
    };
    for part in parts(alloc, old, new)? {
        match part {
            Part::Old(lines) => hunk.end = hunk.end.saturating_add(lines.len()),
            Part::New(lines) => hunk.text.push_str(lines)?,
            Part::Same(lines) => {
                let next = hunk.end.saturating_add(lines.len());
                push_hunk(hunk, &mut edits)?;
                hunk = Hunk {
                    start: next,
                    end: next,
                    text: String::new(alloc),
                };
            }
        }
    }
    push_hunk(hunk, &mut edits)?;
    Ok(edits)
}

/// Appends the edit of a hunk, or nothing if the hunk changes nothing.
fn push_hunk(hunk: Hunk, edits: &mut Vec<Edit>) -> Result<(), AllocError> {
    let Hunk { start, end, text } = hunk;
    if start < end || !text.is_empty() {
        let span = Span { start, end };
        edits.push(Edit { span, text })?;
    }
    Ok(())
}

/// Returns the edit that replaces the whole text `old` with `new`.
#[tactic(auto, using(crate::proofs::EditLemmas::whole_changes_into))]
fn whole(alloc: Global, old: &str, new: &str) -> Result<Vec<Edit>, AllocError>
    ensures { IfOk result (λ edits. ChangesInto old.now (map edit_content edits.items) new.now) }
{
    let span = Span {
        start: 0,
        end: old.len(),
    };
    let text = String::from_str(alloc, new)?;
    let mut edits = Vec::new(alloc);
    edits.push(Edit { span, text })?;
    Ok(edits)
}

/// Returns edits that change `old` into `new`: one for each group of lines that differ or, if these edits don't make
/// `new`, one that replaces the whole text. Fails if an allocation fails.
pub fn differences(alloc: Global, old: &str, new: &str) -> Result<Vec<Edit>, AllocError>
    ensures { IfOk result (λ edits. ChangesInto old.now (map edit_content edits.items) new.now) }
{
    let edits = guessed(alloc, old, new)?;
    if changes_into(alloc, old, edits.as_slice(), new)? {
        return Ok(edits);
    }
    whole(alloc, old, new)
}
