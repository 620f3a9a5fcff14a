//! The pieces and statements of a text, for features that also work on texts with errors.
ghost use Rattle.std.specs.Prelude.{◌≡◌, IfOk};
ghost use Rattle.toml_span_editor.specs.Documents.{IsSplit};

use std::alloc::{AllocError, Global};
use toml_span_syntax::pieces::{Piece, pieces};
use toml_span_syntax::statements::{Statement, statements};

/// A text, valid or not, with its pieces and statements.
#[derive(Drop)]
pub struct Syntax<'t> {
    pub text: &'t str,
    pub(crate) pieces: Vec<Piece>,
    pub(crate) statements: Vec<Statement>,
}

impl<'t> Syntax<'t> {
    /// Splits a text into statements. Takes time linear in the length of the text. Fails if an allocation fails.
    pub fn new(alloc: Global, text: &'t str) -> Result<Self, AllocError>
        ensures text { IfOk result (λ syntax. syntax.text ≡ text.entry) }
        ensures split { IfOk result (λ syntax. IsSplit text.now syntax.pieces.items syntax.statements.items) }
    {
        let pieces = pieces(alloc, text)?;
        let statements = statements(alloc, pieces.as_slice())?;
        Ok(Syntax {
            text,
            pieces,
            statements,
        })
    }
}
