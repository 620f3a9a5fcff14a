//! Laws about keys. A text *spells* a key at an offset if, by the grammar, the bytes there are a way to write that key.
ghost use Rattle.std.specs.Prelude.{◌≡◌, ◌≤◌, ◌↔◌, ℕ, Bool, List, [], length, Result, Ok};
ghost use Rattle.toml_span_read.specs.declared.fault.Fault.{Fault};
ghost use Rattle.toml_span_read.specs.Keys.{SpellsSimpleKey, SpellsKey};
ghost use Rattle.toml_span_read.specs.Data.{SimpleKey};
ghost use Rattle.toml_span_read.specs.Read as read;

/// A simple key is read at an offset if and only if the text spells it there. A key of one or more parts is read at an
/// offset if and only if the text spells it there and it has at most `limit` parts.
pub fn keys_are_read()
    ensures single { (text : List ℕ) (i j : ℕ) (p : SimpleKey)
        → read.simple_key_at text i (Ok (p, j)) ↔ SpellsSimpleKey p text i j }
    ensures dotted { (header : Bool) (text : List ℕ) (limit i j : ℕ) (ps : List SimpleKey)
        → read.key header text limit [] i (Ok (ps, j)) ↔ (SpellsKey ps text i j × (length ps ≤ limit)) }
{}

/// Reading a key at an offset has at most one result: a key or a fault.
pub fn one_key()
    ensures single { (text : List ℕ) (i : ℕ) (r s : Result (SimpleKey × ℕ) Fault) → read.simple_key_at text i r
        → read.simple_key_at text i s → r ≡ s }
    ensures dotted { (header : Bool) (text : List ℕ) (limit i : ℕ) (r s : Result read.Parts Fault)
        → read.key header text limit [] i r → read.key header text limit [] i s → r ≡ s }
{}

/// At most one key is spelled at an offset.
#[tactic(auto, using(crate::proofs::OneSpelled::key_unique))]
pub fn one_dotted_key()
    ensures { (text : List ℕ) (i j k : ℕ) (ps qs : List SimpleKey) → SpellsKey ps text i j → SpellsKey qs text i k
        → (ps ≡ qs) × (j ≡ k) }
{}
