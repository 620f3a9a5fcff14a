//! A table that converts any byte offset in a text to its position (line and character) in constant time.
ghost use Rattle.std.specs.Prelude.{◌≡◌, ℕ, ◌*◌, ◌<◌, IfOk, length, slice_index_or};
ghost use Rattle.toml_span_editor.specs.Positions as spec;
ghost use Rattle.toml_span_editor.specs.declared.positions.Position.{Position};

use crate::positions::{Encoding, FIRST, Position, Range, advanced};
use std::alloc::{AllocError, Global};
use toml_span_lex::span::Span;

/// The distance in bytes between the offsets whose positions the table stores.
const STEP: usize = 16;

/// A text, and the positions of the byte offsets 0, 16, 32 and so on.
#[derive(Drop)]
pub struct PositionTable<'t> {
    pub text: &'t str,
    pub encoding: Encoding,
    marks: Vec<Position>,
    ghost marked: { (k : ℕ) (d : Position) → k < length marks.items
        → slice_index_or marks.items k d ≡ spec.position_of encoding text.now (k * 16) },
}

impl<'t> PositionTable<'t> {
    /// Makes the table of a text. Fails if an allocation fails.
    pub fn new(alloc: Global, encoding: Encoding, text: &'t str) -> Result<Self, AllocError>
        ensures text { IfOk result (λ made. made.text ≡ text.entry) }
        ensures encoding { IfOk result (λ made. made.encoding ≡ encoding) }
    {
        let mut marks = Vec::new(alloc);
        let mut position = FIRST;
        let mut from = 0;
        for k in 0..text.len() / STEP + 1 {
            let to = k * STEP;
            position = advanced(encoding, text, position, from, to);
            marks.push(position)?;
            from = to;
        }
        Ok(PositionTable {
            text,
            encoding,
            marks,
        })
    }

    /// Returns the position of the byte offset `at`. An offset after the end of the text has the position of the end,
    /// and an offset inside a character the position of the character's end.
    pub fn position(&self, at: usize) -> Position
        ensures { result ≡ spec.position_of self.now.encoding self.now.text.now at }
    {
        let k = at / STEP;
        match self.marks.get(k) {
            Some(position) => advanced(self.encoding, self.text, *position, k * STEP, at),
            None => advanced(self.encoding, self.text, FIRST, 0, at),
        }
    }

    /// Returns the range of a span.
    pub fn range(&self, span: Span) -> Range
        ensures { result ≡ spec.range_of self.now.encoding self.now.text.now span }
    {
        Range {
            start: self.position(span.start),
            end: self.position(span.end),
        }
    }
}
