//! Laws about documents and limits. A text *spells* a document if, by the grammar, it is a way to write that document.
ghost use Rattle.std.specs.Prelude.{◌≤◌, ℕ, List, Vec, Result, Ok, map};
ghost use Rattle.std.specs.Global.{Global};
ghost use Rattle.toml_span_lex.specs.declared.stop.Stop.{Stop};
ghost use Rattle.toml_span_tree.specs.declared.error.Error.{Error};
ghost use Rattle.toml_span_read.specs.declared.section.Section.{Section};
ghost use Rattle.toml_span_read.specs.Data.{ParsedSection, parsed_section};
ghost use Rattle.toml_span_read.specs.Grammar.{SpellsDocument};
ghost use Rattle.toml_span_read.specs.Limits.{WithinSections};
ghost use Rattle.toml_span_read.specs.Reading.{ReadsDocument, AreRead};

/// A text that spells a document within the depth limit `limit` spells the same document within any higher limit.
pub fn wider_document()
    ensures { (text : List ℕ) (limit wider : ℕ) (sections : List ParsedSection) → limit ≤ wider
        → SpellsDocument sections text limit
        → SpellsDocument sections text wider }
{}

/// A text that is read within the depth limit `limit` is read as the same sections within any higher limit, unless an
/// allocation fails.
pub fn read_within_wider()
    ensures { (text : List ℕ) (limit wider : ℕ) (found : Vec Section Global)
        (result : Result (Vec Section Global) (Stop Error)) → limit ≤ wider → ReadsDocument text limit (Ok found)
        → ReadsDocument text wider result → AreRead (map parsed_section found.items) result }
{}

/// In the sections of a document within the depth limit `limit`, each header and each key has at most `limit` parts,
/// and each value is nested at most `limit` levels deep.
pub fn sections_within_the_limit()
    ensures { (text : List ℕ) (limit : ℕ) (sections : List Section)
        → SpellsDocument (map parsed_section sections) text limit
        → WithinSections limit sections }
{}
