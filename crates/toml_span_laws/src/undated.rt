//! Laws about the grammar without dates and times.
ghost use Rattle.std.specs.Prelude.{◌≡◌, ◌==◌, ℕ, false, List, slice_index};
ghost use Rattle.toml_span_lex.specs.Bytes.{colon};
ghost use Rattle.toml_span_read.specs.Data.{ParsedValue, ParsedSection};
ghost use Rattle.toml_span_read.specs.Grammar.{Spells, SpellsDocument};
ghost use Rattle.toml_span_laws.specs.Undated.{SpellsUndated, SpellsUndatedDocument};

/// A value that the grammar without dates and times spells is also spelled by the full grammar, unless a colon follows
/// the value.
#[tactic(auto, using(crate::proofs::WiderDocument::value_dated))]
pub fn undated_value()
    ensures { (text : List ℕ) (limit depth i j : ℕ) (v : ParsedValue) → (slice_index text j == colon) ≡ false
        → SpellsUndated v text limit depth i j → Spells v text limit depth i j }
{}

/// A document that the grammar without dates and times spells is also spelled by the full grammar.
#[tactic(auto, using(crate::proofs::WiderDocument::document_dated))]
pub fn undated_document()
    ensures { (text : List ℕ) (limit : ℕ) (sections : List ParsedSection) → SpellsUndatedDocument sections text limit
        → SpellsDocument sections text limit }
{}
