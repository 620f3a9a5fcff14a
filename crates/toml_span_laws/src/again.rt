//! Laws: in another document, the text of a value is read as that value again. A text *spells* a value if, by the
//! grammar, it is a way to write that value.
ghost use Rattle.std.specs.Prelude.{◌≡◌, ◌≤◌, ◌++◌, ℕ, true, List, Some, codes, length, slice_range};
ghost use Rattle.toml_span_lex.specs.declared.span.Span.{Span};
ghost use Rattle.toml_span_tree.specs.Node.{Node, Scalar};
ghost use Rattle.toml_span_tree.specs.Path.{Path, Place, place_at, shape_scalar};
ghost use Rattle.toml_span_tree.specs.Value.{is_whole, view};
ghost use Rattle.toml_span_tree.specs.declared.value.Value.{Value};
ghost use Rattle.toml_span_read.specs.Data.{ParsedValue, ParsedSection};
ghost use Rattle.toml_span_read.specs.Grammar.{Spells, SpellsDocument, SpellsScalar};
ghost use Rattle.toml_span.specs.Parsing.{IsTree};
ghost use Rattle.toml_span_read.specs.Again.{HasFloatTexts, IsWithin, ReadsAsKey, ReadsAsValue};
ghost use Rattle.toml_span_laws.specs.Replaced.{CanBeSet, literal_text};
ghost use Rattle.toml_span_laws.specs.Again.{ReadsAsScalar, SpellsAgain, SpellsAssignment, SectionsReadAgain};
ghost use Rattle.toml_span_laws.specs.Again.{CanBeReplaced};

/// If the bytes of a text from `i` to `j` spell a value at a depth of 1 or more, then `x = ` followed by these bytes is
/// a document with one assignment. Its key is `x`, and its value is the same, with all spans moved. In this sense, the
/// bytes spell the value again.
pub fn spelled_again()
    ensures { (text : List ℕ) (limit depth i j : ℕ) (v : ParsedValue) → 1 ≤ depth → Spells v text limit depth i j
        → SpellsAgain v text limit i j }
{}

/// In a document, the text at the span of each number, boolean, date, time, array and inline table, at any depth,
/// spells that value again: `x = ` followed by this text is a document with one assignment of that value.
#[tactic(auto, using(crate::proofs::AgainLaws::parsed_sections_again))]
pub fn values_read_again()
    ensures { (text : List ℕ) (limit : ℕ) (sections : List ParsedSection) → SpellsDocument sections text limit
        → SectionsReadAgain text limit sections }
{}

/// In the tree of a text, the stored text of each finite float is a literal of that float. So the result of `to_toml`
/// for a value of the tree can be read again, if the value is whole and within the depth limit of that read.
pub fn float_texts()
    ensures { (text : List ℕ) (limit : ℕ) (root : Value) → IsTree text limit root → HasFloatTexts (view root) }
{}

/// In a text that has a tree, each scalar can be replaced with the text of any value, such as a result of `to_toml`. In
/// place of the scalar, that value is read, and all values after it are the same as before, with moved spans. The text
/// of the new value must be one that is read as that value wherever it occurs. The value must be whole and within the
/// depth limit, and the texts of its floats must be valid.
pub fn written_over()
    ensures { (text : List ℕ) (limit : ℕ) (root : Value) (path : Path) (place : Place) (s : Scalar)
        → IsTree text limit root → place_at path (view root) ≡ Some place → place.shape ≡ shape_scalar s
        → CanBeReplaced text s place.span }
{}

/// Wherever the text of a scalar occurs, it is read as that scalar, unless the bytes after the text continue it. If a
/// scalar is in the tree of a document, its text is the one at the span that `literal_span` returns.
pub fn scalar_texts()
    ensures spelled { (s : Scalar) (span : Span) (text : List ℕ) (i j : ℕ) → i ≤ j → j ≤ length text
        → SpellsScalar s span text i j → ReadsAsScalar s (slice_range text i j) }
    ensures tree { (text : List ℕ) (limit : ℕ) (root : Value) (path : Path) (place : Place) (s : Scalar)
        → IsTree text limit root → place_at path (view root) ≡ Some place → place.shape ≡ shape_scalar s
        → ReadsAsScalar s (literal_text text s place.span) }
{}

/// In a text that has a tree, any scalar can be replaced by any other. If the literal of a scalar, which is at the span
/// that `literal_span` returns, is replaced by the text of another scalar, the result is a document again, so `parse`
/// accepts it. Its tree is the old tree with the new scalar, except for spans.
pub fn scalar_replaced()
    ensures { (text : List ℕ) (limit : ℕ) (root : Value) (path : Path) (place : Place) (s : Scalar)
        → IsTree text limit root → place_at path (view root) ≡ Some place → place.shape ≡ shape_scalar s
        → CanBeSet text limit root path s place.span }
{}

/// The result of `quote_key` for a name, ` = `, and the result of `to_toml` for a value are together a document with
/// one assignment, of that value to that name. The same holds for any two texts that are read as this key and this
/// value wherever they occur. The value must be whole and within the depth limit `limit`, and the texts of its floats
/// must be valid.
#[tactic(auto, using(crate::proofs::SpelledLine::line_spelled))]
pub fn spelled_assignment()
    ensures { (limit : ℕ) (name key : List ℕ) (n : Node) (value : List ℕ) → ReadsAsKey name key → ReadsAsValue n value
        → is_whole n ≡ true → IsWithin limit 1 n → HasFloatTexts n
        → SpellsAssignment name n (key ++ (codes " = " ++ value)) limit }
{}
