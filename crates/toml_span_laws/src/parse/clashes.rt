//! Laws about which clash `parse` reports.
ghost use Rattle.std.specs.Prelude.{◌≡◌, ◌≢◌, ◌↔◌, ◌++◌, ◌∷◌, ℕ, List, [], Some, filter};
ghost use Rattle.toml_span_tree.specs.Path.{Path, position};
ghost use Rattle.toml_span.specs.declared.claims.ClaimKind.TheVariants.{Assigned, Dotted, Passed};
ghost use Rattle.toml_span.specs.Flat.{all_claims, deciding_claim};
ghost use Rattle.toml_span.specs.Claims.{Claim, claims};
ghost use Rattle.toml_span_read.specs.Paths.{same_path};
ghost use Rattle.toml_span.specs.Clashes.{NamedClash, Resolves, first_clash, clash};
ghost use Rattle.toml_span_read.specs.Data.{ParsedSection};
ghost use Rattle.toml_span_read.specs.Grammar.{SpellsDocument};
ghost use Rattle.toml_span_laws.specs.Clashing.{IsFirstPair, IsIn, ShareScope};

/// The clash that is reported is the first by the offsets of its claims. Its later claim starts before every other
/// claim of the document that clashes with an earlier one in its scope (the document, an array in brackets or an inline
/// table). Its earlier claim starts before every other earlier claim that clashes with the later claim.
pub fn reported_is_first_by_place()
    ensures { (text : List ℕ) (limit : ℕ) (sections : List ParsedSection) (reported : NamedClash)
        → SpellsDocument sections text limit
        → (first_clash (claims sections) ≡ Some reported) ↔ ((c d : Claim) × IsFirstPair [] (claims sections) c d
        × (clash c d ≡ Some reported)) }
{}

/// A header that passes through an element of an array never determines the place at the element's position. The
/// element's own claim does, both in an array of tables and in an array in brackets.
pub fn no_header_through_an_element_decides()
    ensures { (text : List ℕ) (limit : ℕ) (sections : List ParsedSection) (path : Path) (index : ℕ) (c : Claim)
        → SpellsDocument sections text limit
        → deciding_claim
        (filter (λ d. same_path d.path (path ++ (position index ∷ []))) (all_claims (claims sections))) ≡ Some c
        → c.info.kind ≢ Passed }
{}

/// If no two claims of a document clash, claims on the same path belong to the same scope: the document, an array in
/// brackets or an inline table.
pub fn claims_on_one_path_are_of_one_scope()
    ensures { (text : List ℕ) (limit : ℕ) (sections : List ParsedSection) (c d : Claim)
        → SpellsDocument sections text limit
        → Resolves (claims sections) → IsIn c (all_claims (claims sections)) → IsIn d (all_claims (claims sections))
        → c.path ≡ d.path → ShareScope (claims sections) c d }
{}

/// The first clash is never that of a dotted key that goes through a value. If the key and the value are in the same
/// section or inline table, this is a fault, so the text does not spell a document. If they are in different sections,
/// two earlier claims clash: on a table that two headers open, or that a header opens and a dotted key creates.
pub fn no_dotted_key_through_a_value_is_reported()
    ensures { (text : List ℕ) (limit : ℕ) (sections : List ParsedSection) (c d : Claim)
        → SpellsDocument sections text limit
        → IsFirstPair [] (claims sections) c d → c.info.kind ≡ Assigned → d.info.kind ≢ Dotted }
{}
