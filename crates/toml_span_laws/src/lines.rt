//! Laws about lines, headers, sections and documents. A text *spells* a header, section or document if, by the grammar,
//! it is a way to write that header, section or document.
ghost use Rattle.std.specs.Prelude.{◌≡◌, ◌↔◌, ℕ, Bool, false, List, length, map, slice_index, Result, Ok, Err, Vec};
ghost use Rattle.std.specs.Global.{Global};
ghost use Rattle.toml_span_lex.specs.declared.stop.Stop.{Stop};
ghost use Rattle.toml_span_tree.specs.declared.error.Error.{Error};
ghost use Rattle.toml_span_read.specs.declared.section.Section.{Section};
ghost use Rattle.toml_span_lex.specs.Bytes.{is_blank, left_bracket, MaximalRun};
ghost use Rattle.toml_span_lex.specs.Text.{FirstPlace};
ghost use Rattle.toml_span_read.specs.declared.fault.Fault.{Fault};
ghost use Rattle.toml_span_read.specs.Gaps.{MaximalGap, begins_gap, BlankLines, AfterLines};
ghost use Rattle.toml_span_read.specs.Data.{SimpleKey, ParsedSection, ParsedAssignment, parsed_section};
ghost use Rattle.toml_span_read.specs.Data.{headerless_section};
ghost use Rattle.toml_span_read.specs.Limits.{WithinSection, WithinSections};
ghost use Rattle.toml_span_read.specs.Places.{SectionInside, SectionsInside};
ghost use Rattle.toml_span_laws.specs.Places.{SectionsAscend};
ghost use Rattle.toml_span_read.specs.Grammar.{SpellsDocument, SpellsHeader, SpellsLines, SpellsSection};
ghost use Rattle.toml_span_read.specs.Read as read;
ghost use Rattle.toml_span_read.specs.Reading.{ReadsDocument, AreRead};

/// A text is read as sections within the depth limit `limit` if and only if it spells these sections within that limit.
pub fn documents_are_read()
    ensures { (text : List ℕ) (limit : ℕ) (sections : List ParsedSection)
        → read.document text limit (Ok sections) ↔ SpellsDocument sections text limit }
{}

/// The text spells each section that is read: a section with a header, and the one before the first header. Each
/// section is within the depth limit `limit`, and its header and keys are inside the text.
pub fn sections_are_read()
    ensures section { (text : List ℕ) (limit i j : ℕ) (s : Section) → slice_index text i ≡ left_bracket
        → read.section text limit i (Ok (parsed_section s, j)) → SpellsSection (parsed_section s) text limit i j
        × WithinSection limit s × SectionInside (length text) s }
    ensures first { (text : List ℕ) (limit j : ℕ) (sections : List Section)
        → read.before_headers text limit (Ok (map parsed_section sections, j)) → (start : ℕ)
        × (es : List ParsedAssignment)
        × FirstPlace text start × SpellsLines es text limit start j
        × (map parsed_section sections ≡ headerless_section es)
        × WithinSections limit sections × SectionsInside (length text) sections }
{}

/// Within a depth limit, a text spells at most one list of sections.
pub fn one_document()
    ensures { (text : List ℕ) (limit : ℕ) (sections others : List ParsedSection) → SpellsDocument sections text limit
        → SpellsDocument others text limit → sections ≡ others }
{}

/// A text that spells a document within the depth limit `limit` has no fault within that limit.
pub fn document_or_fault()
    ensures { (text : List ℕ) (limit : ℕ) (sections : List ParsedSection) (fault : Fault)
        → SpellsDocument sections text limit
        → read.document text limit (Err fault) → ⊥ }
{}

/// A text that spells a document within the depth limit `limit` is read as that document, unless an allocation fails.
#[tactic(auto, using(crate::proofs::OneSpelled::document_read))]
pub fn read_where_spelled()
    ensures { (text : List ℕ) (limit : ℕ) (result : Result (Vec Section Global) (Stop Error))
        (sections : List ParsedSection)
        → ReadsDocument text limit result → SpellsDocument sections text limit → AreRead sections result }
{}

/// At most one header is spelled at an offset.
pub fn one_header()
    ensures { (text : List ℕ) (limit i j k : ℕ) (ps qs : List SimpleKey) (array other : Bool)
        → SpellsHeader ps array text limit i j → SpellsHeader qs other text limit i k
        → (ps ≡ qs) × (array ≡ other) × (j ≡ k) }
{}

/// Reading a header that the text spells causes no fault.
pub fn header_or_fault()
    ensures { (text : List ℕ) (limit i j : ℕ) (ps : List SimpleKey) (array : Bool) (fault : Fault)
        → SpellsHeader ps array text limit i j → read.header text limit i (Err fault) → ⊥ }
{}

/// A gap that ends at the end of the text, or at a character other than a control character, consists of lines that are
/// blank or have only a comment, and then of spaces and tabs. Conversely, such lines, spaces and tabs are a gap if no
/// space, tab, line end or comment follows them.
pub fn blank_lines()
    ensures before { (text : List ℕ) (i j : ℕ) → MaximalGap text i j → AfterLines text j
        → (ends : List ℕ) × (k : ℕ) × BlankLines text i ends k × MaximalRun is_blank text k j }
    ensures after { (text : List ℕ) (i j k : ℕ) (ends : List ℕ) → BlankLines text i ends k
        → MaximalRun is_blank text k j → begins_gap text j ≡ false → MaximalGap text i j }
{}

/// The headers, keys and values of a document follow each other in the text.
pub fn document_ascends()
    ensures { (text : List ℕ) (limit : ℕ) (sections : List ParsedSection) → SpellsDocument sections text limit
        → SectionsAscend sections 0 (length text) }
{}

/// The spans of all keys and headers of a document, also of the keys in its inline tables, are inside the text.
pub fn sections_inside_the_text()
    ensures { (text : List ℕ) (limit : ℕ) (sections : List Section)
        → SpellsDocument (map parsed_section sections) text limit
        → SectionsInside (length text) sections }
{}
