//! Laws about the output of `toml_span_show`.
ghost use Rattle.std.specs.Prelude.{◌≡◌, ℕ, Bool, true, nat_lt, List, Option, Some};
ghost use Rattle.toml_span_tree.specs.Error.{content_of};
ghost use Rattle.toml_span_tree.specs.Path.{Path, Place};
ghost use Rattle.toml_span_tree.specs.declared.error.Error.{Error};
ghost use Rattle.toml_span_lex.specs.declared.stop.Stop.TheVariants.{Fault};
ghost use Rattle.toml_span.specs.Parsing.{IsRefusal};
ghost use Rattle.toml_span_lines.specs.Lines.{error_line};
ghost use Rattle.toml_span_lines.specs.Run.{IsAnswer, Runs};
ghost use Rattle.toml_span_lines.specs.Shown.{ShowsDocument, ShowsRefusal, ShowsPlaces};

/// The places at all paths determine the lines that show them: at most one text shows these places.
pub fn one_text()
    ensures { (places : Path → Option Place) (text other : List ℕ) → ShowsPlaces places text → ShowsPlaces places other
        → text ≡ other }
{}

/// Bytes that are a document have at most one output, and no error. Bytes that have an error have at most one output,
/// the line of that error.
pub fn one_answer()
    ensures document { (bytes : List ℕ) (limit : ℕ) (text other : List ℕ) → ShowsDocument bytes limit text
        → ShowsDocument bytes limit other → text ≡ other }
    ensures refused { (bytes : List ℕ) (limit : ℕ) (text other : List ℕ) → ShowsDocument bytes limit text
        → ShowsRefusal bytes limit other → ⊥ }
    ensures line { (bytes : List ℕ) (limit : ℕ) (error : Error) (text : List ℕ) → IsRefusal bytes limit (Fault error)
        → ShowsRefusal bytes limit text → text ≡ error_line (content_of error) }
    ensures reported { (bytes : List ℕ) (limit : ℕ) (text other : List ℕ) → ShowsRefusal bytes limit text
        → ShowsRefusal bytes limit other → text ≡ other }
{}

/// The input determines the exit status and the output, unless an allocation, a read or a write fails. An input has at
/// most one answer. Two runs on the same input in which nothing fails return the same status and write the same bytes.
pub fn one_output()
    ensures answer { (bytes : List ℕ) (limit status other : ℕ) (text last : List ℕ) → IsAnswer bytes limit status text
        → IsAnswer bytes limit other last → (status ≡ other) × (text ≡ last) }
    ensures run { (limit status other : ℕ) (input old : List ℕ) (left rest new last : Option (List ℕ)) (a b c d : Bool)
        → Runs limit (Some input) left a (Some old) new b status
        → Runs limit (Some input) rest c (Some old) last d other → nat_lt status 3 ≡ true → nat_lt other 3 ≡ true
        → (status ≡ other) × (new ≡ last) }
{}
