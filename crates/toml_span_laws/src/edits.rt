//! Which edits are never refused because of their result.
ghost use Rattle.std.specs.Prelude.{◌≡◌, ℕ, List, Some};
ghost use Rattle.std.specs.Borrow.{Bor};
ghost use Rattle.toml_span_tree.specs.Node.{Node, Scalar, scalar};
ghost use Rattle.toml_span_tree.specs.Value.{inner_of, view};
ghost use Rattle.toml_span_tree.specs.declared.value.Value.{Value};
ghost use Rattle.toml_span_read.specs.Data.{depth_limit};
ghost use Rattle.toml_span.specs.Parsing.{IsTree};
ghost use Rattle.toml_span_edit.specs.Kept.{IsWrittenOver};
ghost use Rattle.toml_span_edit.specs.Paths.{Path, found};
ghost use Rattle.toml_span_edit.specs.declared.edits.Change.TheVariants as changes;
ghost use Rattle.toml_span_laws.specs.Sets.{IsLiteral, MustBeMade};

/// A `Set`, `Replace` or `SetOrAdd` that replaces a scalar with a scalar is never refused because of its result. If the
/// literal of a scalar is replaced with the literal of any scalar, the new text is a document, and its tree is the old
/// one with the new value at the path. The new literal must have nothing before or after it, not even blanks.
pub fn scalars_are_set()
    ensures set { (text new : List ℕ) (v : Bor (List ℕ)) (path : Path) (root : Value) (m : Node) (s x : Scalar)
        → IsTree text depth_limit root → found path (view root) ≡ Some m → inner_of m ≡ scalar s
        → IsLiteral v.now x → IsWrittenOver v.now path (view root) text new
        → MustBeMade (changes.Set v) path (view root) new }
    ensures replace { (text new : List ℕ) (v : Bor (List ℕ)) (path : Path) (root : Value) (m : Node) (s x : Scalar)
        → IsTree text depth_limit root → found path (view root) ≡ Some m → inner_of m ≡ scalar s
        → IsLiteral v.now x → IsWrittenOver v.now path (view root) text new
        → MustBeMade (changes.Replace v) path (view root) new }
    ensures set_or_add { (text new : List ℕ) (v : Bor (List ℕ)) (path : Path) (root : Value) (m : Node) (s x : Scalar)
        → IsTree text depth_limit root → found path (view root) ≡ Some m → inner_of m ≡ scalar s
        → IsLiteral v.now x → IsWrittenOver v.now path (view root) text new
        → MustBeMade (changes.SetOrAdd v) path (view root) new }
{}
