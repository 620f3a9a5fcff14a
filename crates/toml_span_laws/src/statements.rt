//! A law about the statements into which `toml_span_syntax` splits a text that may be broken.
ghost use Rattle.std.specs.Prelude.{ℕ, ◌≤◌, List, length, filter};
ghost use Rattle.std.specs.List.{AllZip};
ghost use Rattle.toml_span_read.specs.Data.{ParsedSection, depth_limit};
ghost use Rattle.toml_span_read.specs.Grammar.{SpellsDocument};
ghost use Rattle.toml_span_syntax.specs.declared.pieces.Piece.{Piece};
ghost use Rattle.toml_span_syntax.specs.declared.statements.Statement.{Statement};
ghost use Rattle.toml_span_syntax.specs.Pieces.{Covers};
ghost use Rattle.toml_span_syntax.specs.Statements.{Splits};
ghost use Rattle.toml_span_laws.specs.Statements.{entries, is_filled, IsEntry};

/// The statements of a document are its headers and assignments, in order, and blank lines: the statements that are not
/// blank are one for each header and assignment, with the same kind. Such a statement begins with blanks, which its
/// header or assignment follows, and ends with the rest of its line. So no statement of a document is unreadable.
pub fn statements_of_a_document()
    ensures { (text : List ℕ) (limit : ℕ) (sections : List ParsedSection) (pieces : List Piece)
        (statements : List Statement) → limit ≤ depth_limit → SpellsDocument sections text limit
        → Covers text 0 pieces (length text) → Splits pieces 0 statements (length pieces)
        → AllZip (IsEntry text pieces) (filter (λ s. is_filled s.kind) statements) (entries sections) }
{}
