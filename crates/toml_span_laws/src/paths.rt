//! A law about paths as text: a pointer, or a dotted key with positions, such as `a[0].b`.
ghost use Rattle.std.specs.Prelude.{◌≡◌, ℕ, List};
ghost use Rattle.toml_span_places.specs.Dotted.{IsPath, Outcome};

/// Reading a path has at most one result: the list of its names and positions, or an error.
#[tactic(auto, using(crate::proofs::OnePath::path_one))]
pub fn one_path()
    ensures { (text : List ℕ) (r s : Outcome) → IsPath text r → IsPath text s → r ≡ s }
{}
