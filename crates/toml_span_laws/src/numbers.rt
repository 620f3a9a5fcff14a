//! Laws about numbers. A text *spells* a number at an offset if, by the grammar, the bytes there are a way to write
//! that number.
ghost use Rattle.std.specs.Prelude.{◌≡◌, ◌||◌, ◌==◌, ℕ, true, List, Ok, Err, slice_index};
ghost use Rattle.toml_span_lex.specs.Bytes.{is_keylike, plus};
ghost use Rattle.toml_span_tree.specs.Node.{Scalar};
ghost use Rattle.toml_span_read.specs.declared.fault.Fault.{Fault};
ghost use Rattle.toml_span_read.specs.Numbers.{IsNumber};
ghost use Rattle.toml_span_read.specs.Numerals.{number};
ghost use Rattle.toml_span_read.specs.code.Gaps.{Further};
ghost use Rattle.toml_span_laws.specs.NumberFaults.{IsNumberFault};

/// A number that the text spells is read. Conversely, the text spells a number that is read at a letter, a digit, a
/// dash, an underscore or a plus sign.
pub fn numbers_are_read()
    ensures read { (text : List ℕ) (i j : ℕ) (s : Scalar) → IsNumber s text i j → number text i ≡ Ok (s, j) }
    ensures spelled { (text : List ℕ) (i j : ℕ) (s : Scalar)
        → (is_keylike (slice_index text i) || slice_index text i == plus) ≡ true → number text i ≡ Ok (s, j)
        → IsNumber s text i j }
{}

/// A number is not empty, and ends at a character boundary.
pub fn number_ends(text: &str)
    ensures { (i j : ℕ) (s : Scalar) → IsNumber s text.now i j → Further text.now i j }
{}

/// At most one number is spelled at an offset.
#[tactic(auto, using(crate::proofs::OneSpelled::number_unique))]
pub fn one_number()
    ensures { (text : List ℕ) (i j k : ℕ) (s t : Scalar) → IsNumber s text i j → IsNumber t text i k
        → (s ≡ t) × (j ≡ k) }
{}

/// `IsNumberFault` lists the faults of numbers. If reading a number at a letter, a digit, a dash, an underscore or a
/// plus sign causes a fault, the text has one of the mistakes in the list, and the fault has the span that the list
/// gives for that mistake.
pub fn number_faults()
    ensures { (text : List ℕ) (i : ℕ) (fault : Fault)
        → (is_keylike (slice_index text i) || slice_index text i == plus) ≡ true → number text i ≡ Err fault
        → IsNumberFault text i fault }
{}
