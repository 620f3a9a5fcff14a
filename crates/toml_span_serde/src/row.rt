//! A tree as a row of pieces, which a `Reader` reads. A piece is a scalar, a taken value, a key, or the beginning or
//! end of an array or table.
ghost use Rattle.std.specs.Prelude.{◌≡◌, ◌<◌, [], IfOk, OnOk, Some, length, slice_get};
ghost use Rattle.toml_span.specs.Ordered.{HasOneEach, IsOrdered};
ghost use Rattle.toml_span_tree.specs.Node.{Node};
ghost use Rattle.toml_span_tree.specs.Value.{view};
ghost use Rattle.toml_span_serde.specs.Ahead.{ahead, pieces_in};
ghost use Rattle.toml_span_serde.specs.Misfits.{IsAt, IsPlaceIn, path_of};
ghost use Rattle.toml_span_serde.specs.Pieces.{pieces};
ghost use Rattle.toml_span_serde.specs.TextOrder.{in_text_order};
ghost use Rattle.toml_span_serde.specs.Stops.{IsOf, IsStopOf, spots};

use crate::misfit::{Misfit, Reason};
use crate::path::path_to;
use crate::pieces::{Piece, pieces_of};
use crate::reader::{Misread, Reader};
use std::alloc::{AllocError, Global};
use toml_span_lex::stop::Stop;
use toml_span_tree::Value;

/// A tree as a list of pieces, which a `Reader` reads: a piece for each scalar, taken value and key, and two for each
/// array and table, at its beginning and end.
#[derive(Drop)]
pub struct Row<'v> {
    pieces: Vec<Piece<'v>>,
}

impl<'v> Row<'v> {
    /// Converts the tree `root` to a row of pieces. The entries of each table are in the order in which their keys'
    /// spans start. Fails if an allocation fails.
    pub fn new(alloc: Global, root: &'v Value<'_>) -> Result<Row<'v>, AllocError>
        ensures pieces { IfOk result (λ row. pieces_in row ≡ pieces (in_text_order (view root.now))) }
        ensures ordered { OnOk result (IsOrdered (view root.now)) }
    {
        Ok(Row {
            pieces: pieces_of(alloc, root)?,
        })
    }

    /// Returns a reader at the first piece.
    pub fn reader(&self, alloc: Global) -> Reader<'_, 'v>
        ensures { ahead result ≡ pieces_in self.now }
    {
        Reader::new(alloc, self.pieces.as_slice())
    }

    /// Converts an error of a reader of this row to a misfit. The misfit has the span of the piece at which the read
    /// stopped, and the path to the value of that piece or, for a key, to the value that the key names. If no piece was
    /// left to read, the misfit is at the root. Passes on `Stop::Memory`, and also returns it if an allocation fails.
    pub fn stopped(&self, alloc: Global, stop: Stop<Misread>) -> Stop<Misfit>
        ensures place { (n : Node) → pieces_in self.now ≡ pieces n → HasOneEach n → IsAt n result }
        ensures reported { (n : Node) → pieces_in self.now ≡ pieces n → IsStopOf n stop result }
    {
        match stop {
            Stop::Memory(e) => Stop::Memory(e),
            Stop::Fault(misread) => match self.placed(alloc, misread) {
                Ok(misfit) => Stop::Fault(misfit),
                Err(e) => Stop::Memory(e),
            },
        }
    }

    /// Converts an error of a reader to a misfit, at the piece of the error or, if no piece was left, at the root.
    fn placed(&self, alloc: Global, misread: Misread) -> Result<Misfit, AllocError>
        ensures place { IfOk result (λ m. (n : Node) → pieces_in self.now ≡ pieces n → HasOneEach n
            → IsPlaceIn (path_of m.path.items) m.span n) }
        ensures reported { IfOk result (λ m. (n : Node) → pieces_in self.now ≡ pieces n → IsOf n misread m) }
    {
        if misread.at < self.pieces.len() {
            return self.misfit_at(alloc, misread.reason, misread.at);
        }
        if self.pieces.is_empty() {
            return Err(AllocError);
        }
        self.misfit_at(alloc, misread.reason, 0)
    }

    /// Returns the misfit with this reason at the piece with the position `at`.
    fn misfit_at(&self, alloc: Global, reason: Reason, at: usize) -> Result<Misfit, AllocError>
        requires { at < length self.now.pieces.items }
        ensures place { IfOk result (λ m. (n : Node) → pieces_in self.now ≡ pieces n → HasOneEach n
            → IsPlaceIn (path_of m.path.items) m.span n) }
        ensures reported { IfOk result (λ m. (n : Node) → pieces_in self.now ≡ pieces n → (m.reason ≡ reason)
            × (slice_get (spots [] n) at ≡ Some (path_of m.path.items, m.span))) }
    {
        let pieces = self.pieces.as_slice();
        let piece = pieces[at];
        let path = path_to(alloc, &pieces[..at], piece.content)?;
        Ok(Misfit {
            reason,
            span: piece.span,
            line_info: None,
            path,
        })
    }
}
