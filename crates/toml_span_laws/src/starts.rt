//! Laws about where headers, keys, arrays and inline tables start.
ghost use Rattle.std.specs.Prelude.{◌≡◌, ℕ, List, Some};
ghost use Rattle.std.specs.List.Sorted.{IsStrictlyIncreasing};
ghost use Rattle.toml_span_tree.specs.Node.{Scalar};
ghost use Rattle.toml_span_tree.specs.Path.{Path, Place, place_at, shape_scalar};
ghost use Rattle.toml_span_tree.specs.Value.{view};
ghost use Rattle.toml_span_tree.specs.declared.value.Value.{Value};
ghost use Rattle.toml_span_read.specs.Data.{ParsedSection};
ghost use Rattle.toml_span_read.specs.Grammar.{SpellsDocument};
ghost use Rattle.toml_span.specs.Parsing.{IsTree};
ghost use Rattle.toml_span_laws.specs.Places.{section_key_starts, section_starts};

/// In the order of the text, each part of a header or key of a document, including the keys in inline tables, starts
/// after the one before, so no two start at the same offset.
pub fn keys_start_apart()
    ensures { (text : List ℕ) (limit : ℕ) (sections : List ParsedSection) → SpellsDocument sections text limit
        → IsStrictlyIncreasing (section_key_starts sections) }
{}

/// The same holds for these parts together with the headers themselves, the arrays and the inline tables.
pub fn brackets_start_apart()
    ensures { (text : List ℕ) (limit : ℕ) (sections : List ParsedSection) → SpellsDocument sections text limit
        → IsStrictlyIncreasing (section_starts sections) }
{}

/// No two scalars of a tree have spans that start at the same offset.
pub fn scalars_start_apart()
    ensures { (text : List ℕ) (limit : ℕ) (root : Value) (p q : Path) (x y : Place) (s t : Scalar)
        → IsTree text limit root → place_at p (view root) ≡ Some x → place_at q (view root) ≡ Some y
        → x.shape ≡ shape_scalar s → y.shape ≡ shape_scalar t → x.span.start ≡ y.span.start → p ≡ q }
{}
