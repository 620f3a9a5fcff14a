//! The replacements that make an edit.
ghost use Rattle.std.specs.Prelude.{◌≡◌, ◌++◌, ◌∷◌, [], IfOk, OnOk, Some, false, map, string_bytes};
ghost use Rattle.toml_span_places.specs.Replace.{edit_of, replaced};
ghost use Rattle.toml_span_edit.specs.Kept as spec;

use crate::kept::{are_header_parts, are_insertions};
use crate::reason::{Edited, Reason};
use crate::text::joined;
use std::alloc::{AllocError, Global};
use toml_span::{Span, Stop};
use toml_span_places::{Replacement, replace_all};

/// A span, and the text that replaces it.
#[derive(Drop)]
pub(crate) struct Piece {
    pub span: Span,
    pub text: String,
}

/// Replacements in a text. They must be in the order of the text, and their spans must not overlap. A plan remembers
/// whether an allocation failed, so that only making the replacements fails.
#[derive(Drop)]
pub(crate) struct Plan {
    alloc: Global,
    pieces: Vec<Piece>,
    /// Whether replacements are missing because an allocation failed.
    is_refused: bool,
}

impl Plan {
    /// Returns a plan without replacements.
    pub(crate) fn new(alloc: Global) -> Self {
        Plan {
            alloc,
            pieces: Vec::new(alloc),
            is_refused: false,
        }
    }

    /// Adds the replacement of `span` with three texts, one after the other. Fails if an allocation fails.
    fn add(&mut self, span: Span, one: &str, two: &str, three: &str) -> Result<(), AllocError>
        ensures { OnOk result (spec.planned self.new
            ≡ spec.planned self.old ++ (span, one.now ++ (two.now ++ three.now)) ∷ []) }
    {
        let text = joined(self.alloc, one, two, three)?;
        self.pieces.push(Piece { span, text })?;
        Ok(())
    }

    /// Adds the replacement of `span` with three texts, one after the other.
    pub(crate) fn put(&mut self, span: Span, one: &str, two: &str, three: &str)
        ensures { self.new.is_refused ≡ false → spec.planned self.new
            ≡ spec.planned self.old ++ (span, one.now ++ (two.now ++ three.now)) ∷ [] }
    {
        self.is_refused |= self.add(span, one, two, three).is_err();
    }

    /// Adds the removal of the bytes `start..end`.
    pub(crate) fn cut(&mut self, start: usize, end: usize) {
        self.put(Span { start, end }, "", "", "");
    }

    /// Returns the replacements, with their texts borrowed. Fails if an allocation failed.
    fn replacements(&self) -> Result<Vec<Replacement<'_>>, AllocError> {
        if self.is_refused {
            return Err(AllocError);
        }
        let mut list = Vec::with_capacity(self.alloc, self.pieces.len())?;
        for piece in &self.pieces {
            list.push(Replacement {
                span: piece.span,
                text: piece.text.as_str(),
            })?;
        }
        Ok(list)
    }

    /// Returns `text` with the replacements made. Fails with `WouldDiffer` if a span is invalid, or overlaps or
    /// precedes an earlier one.
    pub(crate) fn applied(&self, text: &str) -> Edited<String> {
        let list = self.replacements()?;
        with_replaced(self.alloc, text, list.as_slice())
    }

    /// Returns `text` with the replacements made. Fails with `WouldDiffer` if a replacement replaces anything, or if a
    /// span is invalid or precedes an earlier one.
    pub(crate) fn inserted(&self, text: &str) -> Edited<String>
        ensures { IfOk result (λ new. spec.IsInserted text.now (string_bytes new)) }
    {
        let list = self.replacements()?;
        if !are_insertions(list.as_slice()) {
            return Err(Stop::Fault(Reason::WouldDiffer));
        }
        with_replaced(self.alloc, text, list.as_slice())
    }

    /// Returns `text` with the replacements made. Fails with `WouldDiffer` if `are_header_parts` returns false for the
    /// replacements, or if a span is invalid, or overlaps or precedes an earlier one.
    pub(crate) fn in_headers(&self, text: &str) -> Edited<String>
        ensures { IfOk result (λ new. spec.AreHeadersReplaced text.now (string_bytes new)) }
    {
        let list = self.replacements()?;
        if !are_header_parts(text, list.as_slice()) {
            return Err(Stop::Fault(Reason::WouldDiffer));
        }
        with_replaced(self.alloc, text, list.as_slice())
    }
}

/// Returns `text` with the replacements in `list` made. Fails with `WouldDiffer` if a span is invalid, or overlaps or
/// precedes an earlier one.
fn with_replaced(alloc: Global, text: &str, list: &[Replacement<'_>]) -> Edited<String>
    ensures { IfOk result (λ new. replaced text.now (map edit_of list.now) ≡ Some (string_bytes new)) }
{
    match replace_all(alloc, text, list) {
        Ok(new) => Ok(new),
        Err(Stop::Memory(error)) => Err(Stop::Memory(error)),
        Err(Stop::Fault(_)) => Err(Stop::Fault(Reason::WouldDiffer)),
    }
}
