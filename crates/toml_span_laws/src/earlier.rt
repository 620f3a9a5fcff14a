//! Laws about dotted keys that go through earlier values.
ghost use Rattle.std.specs.Prelude.{◌≡◌, ◌≢◌, List, [], ◌∷◌, ◌++◌, Some, None};
ghost use Rattle.std.specs.List.{AllByRecursion};
ghost use Rattle.toml_span_read.specs.declared.fault.FaultKind.TheVariants as kinds;
ghost use Rattle.toml_span_read.specs.Data.{ParsedAssignment, SimpleKey, parsed_span, from_to};
ghost use Rattle.toml_span_read.specs.Earlier.{crossing, last_span, part_names};

/// If the key of `next` goes through no earlier value, no proper prefix of its parts has the names of an earlier key.
#[tactic(auto, using(crate::proofs::EarlierLaws::clear_keys))]
pub fn clear_keys_pass_no_value()
    ensures { (earlier : List ParsedAssignment) (next : ParsedAssignment) (outer rest : List SimpleKey)
        (part more : SimpleKey)
        → crossing earlier next ≡ None → next.parts ≡ outer ++ (part ∷ more ∷ rest)
        → AllByRecursion (λ e. part_names e.parts ≢ part_names (outer ++ (part ∷ []))) earlier }
{}

/// Suppose that a proper prefix of a key's parts has the same names as an earlier key, and that the key goes through no
/// value before the last part of the prefix. Then the fault is `DottedKeyInvalidType`, and its `first` is the span of
/// the last part of the first earlier key with these names. The fault spans from the last part of the prefix to the end
/// of the assigned value's span.
#[tactic(auto, using(crate::proofs::EarlierLaws::first_met))]
pub fn first_value_met_is_the_fault()
    ensures { (before after : List ParsedAssignment) (found next : ParsedAssignment) (outer rest : List SimpleKey)
        (part more : SimpleKey)
        → next.parts ≡ outer ++ (part ∷ more ∷ rest)
        → crossing (before ++ (found ∷ after))
        (record { parts = outer ++ (part ∷ []); value = next.value; extent = next.extent }) ≡ None
        → AllByRecursion (λ e. part_names e.parts ≢ part_names (outer ++ (part ∷ []))) before
        → part_names found.parts ≡ part_names (outer ++ (part ∷ []))
        → crossing (before ++ (found ∷ after)) next ≡ Some (record {
          kind = kinds.DottedKeyInvalidType (last_span found.parts);
          span = from_to part.span.start (parsed_span next.value).end;
        }) }
{}
