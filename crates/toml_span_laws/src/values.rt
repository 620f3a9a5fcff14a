//! Laws about values. A text *spells* a value at an offset if, by the grammar, the bytes there are a way to write that
//! value.
ghost use Rattle.std.specs.Prelude.{◌≡◌, ◌≤◌, ◌↔◌, ◌+◌, ◌-◌, ℕ, List, Ok, length};
ghost use Rattle.toml_span_read.specs.Data.{ParsedValue};
ghost use Rattle.toml_span_read.specs.Grammar.{Spells};
ghost use Rattle.toml_span_read.specs.Limits.{Within};
ghost use Rattle.toml_span_read.specs.Places.{Inside};
ghost use Rattle.toml_span_read.specs.Read as read;

/// A value is read at an offset if and only if the text spells it there within the depth limit `limit`.
pub fn values_are_read()
    ensures { (text : List ℕ) (limit depth i j : ℕ) (v : ParsedValue)
        → read.value text limit ((limit + 1) - depth) 0 i (Ok (v, j)) ↔ Spells v text limit depth i j }
{}

/// At most one value is spelled at an offset.
#[tactic(auto, using(crate::proofs::OneSpelled::value_unique))]
pub fn one_value()
    ensures { (text : List ℕ) (limit depth i j k : ℕ) (v w : ParsedValue) → Spells v text limit depth i j
        → Spells w text limit depth i k → (v ≡ w) × (j ≡ k) }
{}

/// A value that is spelled within the depth limit `limit` is spelled within any higher limit.
#[tactic(auto, using(crate::proofs::WiderDocument::value_wider))]
pub fn wider_limit()
    ensures { (text : List ℕ) (limit wider depth i j : ℕ) (v : ParsedValue) → limit ≤ wider
        → Spells v text limit depth i j
        → Spells v text wider depth i j }
{}

/// The spans of a value, and of all values and keys in it, are inside the text that spells it, in the order of the
/// text.
#[tactic(auto, using(toml_span_read::proofs::SpanLaws::value_lies))]
pub fn spans_within()
    ensures { (text : List ℕ) (limit depth i j : ℕ) (v : ParsedValue) → Spells v text limit depth i j
        → Inside v i j × (i ≤ j) × (j ≤ length text) }
{}

/// If a value at depth `depth` is spelled within the depth limit `limit`, then its depth and that of each value in it
/// are at most `limit`, and each key in it has at most `limit` parts.
#[tactic(auto, using(crate::proofs::DepthLaws::value_within))]
pub fn depth_within()
    ensures { (text : List ℕ) (limit depth i j : ℕ) (v : ParsedValue) → Spells v text limit depth i j
        → Within limit depth v }
{}
