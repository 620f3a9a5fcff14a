//! Laws about the spans of keys.
ghost use Rattle.std.specs.Prelude.{ℕ, ◌≤◌, List, length};
ghost use Rattle.toml_span_read.specs.Keys.{SpellsKey};
ghost use Rattle.toml_span_read.specs.Data.{SimpleKey};
ghost use Rattle.toml_span_read.specs.Places.{Ascend};

/// The parts of a dotted key follow each other inside the key, and the key is inside the text.
#[tactic(auto, using(toml_span_read::proofs::KeyOrder::dotted_ascend))]
pub fn parts_ascend()
    ensures { (parts : List SimpleKey) (text : List ℕ) (i j : ℕ) → SpellsKey parts text i j
        → Ascend parts i j × (j ≤ length text) }
{}
