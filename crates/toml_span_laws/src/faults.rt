//! Laws about faults: nothing after a fault matters, and no document begins with the text up to a fault.
ghost use Rattle.std.specs.Prelude.{◌≡◌, ◌+◌, ℕ, List, take, Err};
ghost use Rattle.toml_span_read.specs.declared.fault.Fault.{Fault};
ghost use Rattle.toml_span_read.specs.Data.{ParsedSection};
ghost use Rattle.toml_span_read.specs.Grammar.{SpellsDocument};
ghost use Rattle.toml_span_read.specs.Read.{document};
ghost use Rattle.toml_span_laws.specs.Reported.{EndsReported, ahead};

/// Nothing after a fault matters. Take the bytes of the text up to the end of those that the fault reports
/// (`EndsReported`), and up to two more, depending on the kind of the fault (`ahead`). Every other text that begins
/// with these bytes has the same fault. If the text ends before the last of these bytes, the law says nothing about
/// other texts.
#[tactic(auto, using(crate::proofs::SameFault::same_fault))]
pub fn nothing_after_a_fault_matters()
    ensures { (text : List ℕ) (limit : ℕ) (fault : Fault) → document text limit (Err fault)
        → (end : ℕ) × EndsReported text fault end
        × ((other : List ℕ) → take (end + ahead fault.kind) text ≡ take (end + ahead fault.kind) other
        → document other limit (Err fault)) }
{}

/// A text has a fault only if no document within the depth limit `limit` begins with the same bytes as the text. These
/// are the bytes up to the end of those that the fault reports (`EndsReported`), and up to two more (`ahead`).
#[tactic(auto, using(crate::proofs::SameFault::none_goes_on))]
pub fn no_document_goes_on_after_a_fault()
    ensures { (text : List ℕ) (limit : ℕ) (fault : Fault) → document text limit (Err fault)
        → (end : ℕ) × EndsReported text fault end
        × ((other : List ℕ) (sections : List ParsedSection)
        → take (end + ahead fault.kind) text ≡ take (end + ahead fault.kind) other
        → SpellsDocument sections other limit → ⊥) }
{}
