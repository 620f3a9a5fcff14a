//! Decides whether a value is valid. In all functions, `depth` is the number of subschemas that may still be nested,
//! and `left` the number that may still be applied.
ghost use Rattle.std.specs.Prelude.{◌≡◌, IfOk, Some, None, false, true, map};
ghost use Rattle.toml_span_tree.specs.Value.{inner_of, view};
ghost use Rattle.toml_span_schema.specs.Applied.{applied_of};
ghost use Rattle.toml_span_schema.specs.Parts.{part_of, whole};
ghost use Rattle.toml_span_schema.specs.Valid.{allows, allows_other, any, contains_enough, count, covers, every};
ghost use Rattle.toml_span_schema.specs.Valid.{is_evaluated_element, judged, optional, passes, reaches, reaches_simply};
ghost use Rattle.toml_span_schema.specs.Valid.{refused, unevaluated_allow};

use crate::applied::{applied, names, push_to_each, schemas_for};
use crate::asserted::allows_simple;
use crate::error::CheckError;
use crate::keyword::Keyword;
use crate::listed::{Part, parts_of_kind};
use crate::schema::Schema;
use std::alloc::AllocError;
use toml_span_tree::{Value, ValueInner};

/// The maximum number of subschemas that are applied to decide whether a value is valid. The same number can be applied
/// again to explain why the value is not valid, or to warn about deprecated values.
pub(crate) const MOST_STEPS: u64 = 50_000_000;

/// Takes 1 from `left`, the number of steps left. Fails with `TooLong` if `left` is 0.
pub(crate) fn spend(left: &mut u64) -> Result<(), CheckError> {
    if *left == 0 {
        return Err(CheckError::TooLong);
    }
    *left -= 1;
    Ok(())
}

impl Schema {
    /// Returns whether a value is valid against the schema at index `node`. Takes 1 from `left` for each subschema that
    /// is applied. Fails with `TooDeep` if more than `depth` subschemas nest, or if a value that `enum`, `const` or
    /// `uniqueItems` compares nests too deep or contains a taken value. Fails with `TooLong` if more than `left`
    /// subschemas are applied, or if a keyword takes too many steps.
    #[cycle(valid)]
    pub(crate) fn is_valid(
        &self,
        left: &mut u64,
        depth: usize,
        node: usize,
        value: &Value<'_>,
    ) -> Result<bool, CheckError>
        ensures { IfOk result (λ r. (judged self.now depth).valid node (view value.now) ≡ Some r) }
    {
        spend(left)?;
        if depth == 0 {
            return Err(CheckError::TooDeep);
        }
        for placed in self.keywords(node) {
            if !self.allows(left, depth - 1, &placed.keyword, value)? {
                return Ok(false);
            }
        }
        Ok(true)
    }

    /// Returns whether a keyword allows a value. Fails like `is_valid`.
    #[cycle(valid)]
    #[tactic(auto, unfolding(crate::specs::Valid::allows))]
    pub(crate) fn allows(
        &self,
        left: &mut u64,
        depth: usize,
        keyword: &Keyword,
        value: &Value<'_>,
    ) -> Result<bool, CheckError>
        ensures { IfOk result (λ r. allows self.now (judged self.now depth) keyword.now (view value.now) ≡ Some r) }
    {
        match keyword {
            Keyword::AllOf(_)
            | Keyword::DependentSchemas(_)
            | Keyword::Items(_, _)
            | Keyword::Properties(_, _, _) => {
                let list = applied(self, keyword, Part::Whole(value))?;
                self.all_valid(left, depth, list.as_slice())
            }
            Keyword::AnyOf(_) => {
                let list = applied(self, keyword, Part::Whole(value))?;
                self.any_valid(left, depth, list.as_slice())
            }
            Keyword::OneOf(_) => {
                let list = applied(self, keyword, Part::Whole(value))?;
                let count = self.count_valid(left, depth, list.as_slice())?;
                Ok(count == 1)
            }
            Keyword::Not(node) => Ok(!self.is_valid(left, depth, *node, value)?),
            Keyword::If(condition, yes, no) => {
                let holds = self.is_valid(left, depth, *condition, value)?;
                match if holds { *yes } else { *no } {
                    Some(next) => self.is_valid(left, depth, next, value),
                    None => Ok(true),
                }
            }
            _ => self.allows_other(left, depth, keyword, value),
        }
    }

    /// Returns whether a keyword allows a value. The keyword must not be one that `allows` decides itself, such as
    /// `allOf` or `if`. Fails like `is_valid`.
    #[cycle(valid)]
    #[tactic(auto, unfolding(crate::specs::Valid::allows_other))]
    fn allows_other(
        &self,
        left: &mut u64,
        depth: usize,
        keyword: &Keyword,
        value: &Value<'_>,
    ) -> Result<bool, CheckError>
        ensures { IfOk result (λ r.
            allows_other self.now (judged self.now depth) keyword.now (view value.now) ≡ Some r) }
    {
        match keyword {
            Keyword::PropertyNames(node) => {
                let names = names(self.alloc(), value)?;
                self.allows_each(left, depth, *node, names.as_slice())
            }
            Keyword::Contains(_, least, most, _) => {
                let list = applied(self, keyword, Part::Whole(value))?;
                self.contains_enough(left, depth, list.as_slice(), (*least, *most), value)
            }
            Keyword::UnevaluatedItems(others, node) => {
                self.allows_unevaluated(left, depth, false, (*others, *node), value)
            }
            Keyword::UnevaluatedProperties(others, node) => {
                self.allows_unevaluated(left, depth, true, (*others, *node), value)
            }
            _ => allows_simple(self, keyword, value),
        }
    }

    /// Returns whether each value in `list` is valid against its subschema. Fails like `is_valid`.
    #[cycle(valid)]
    fn all_valid(
        &self,
        left: &mut u64,
        depth: usize,
        list: &[(usize, Part<'_, '_>)],
    ) -> Result<bool, CheckError>
        ensures { IfOk result (λ r. every (passes (judged self.now depth)) (map applied_of list.now) ≡ Some r) }
    {
        for pair in list {
            if !self.is_valid(left, depth, pair.0, pair.1.value())? {
                return Ok(false);
            }
        }
        Ok(true)
    }

    /// Returns whether at least one value in `list` is valid against its subschema. Fails like `is_valid`.
    #[cycle(valid)]
    fn any_valid(
        &self,
        left: &mut u64,
        depth: usize,
        list: &[(usize, Part<'_, '_>)],
    ) -> Result<bool, CheckError>
        ensures { IfOk result (λ r. any (passes (judged self.now depth)) (map applied_of list.now) ≡ Some r) }
    {
        for pair in list {
            if self.is_valid(left, depth, pair.0, pair.1.value())? {
                return Ok(true);
            }
        }
        Ok(false)
    }

    /// Returns how many values in `list` are valid against their subschemas. Fails like `is_valid`.
    #[cycle(valid)]
    pub(crate) fn count_valid(
        &self,
        left: &mut u64,
        depth: usize,
        list: &[(usize, Part<'_, '_>)],
    ) -> Result<usize, CheckError>
        ensures { IfOk result (λ r. count (passes (judged self.now depth)) 0 (map applied_of list.now) ≡ Some r) }
    {
        let mut count = 0usize;
        for pair in list {
            if self.is_valid(left, depth, pair.0, pair.1.value())? {
                count += 1;
            }
        }
        Ok(count)
    }

    /// Returns whether all of `values` are valid against the subschema at index `node`. Fails like `is_valid`.
    #[cycle(valid)]
    fn allows_each(
        &self,
        left: &mut u64,
        depth: usize,
        node: usize,
        values: &[Value<'_>],
    ) -> Result<bool, CheckError>
        ensures { IfOk result (λ r. every (λ n. (judged self.now depth).valid node n) (map view values.now) ≡ Some r) }
    {
        for value in values {
            if !self.is_valid(left, depth, node, value)? {
                return Ok(false);
            }
        }
        Ok(true)
    }

    /// Returns whether an array has as many elements that `contains` counts as `bounds` allow, the least and the most.
    /// `list` pairs the keyword's subschema with each element. Returns true for a value that is not an array. Fails
    /// like `is_valid`.
    #[cycle(valid)]
    fn contains_enough(
        &self,
        left: &mut u64,
        depth: usize,
        list: &[(usize, Part<'_, '_>)],
        bounds: (u64, u64),
        value: &Value<'_>,
    ) -> Result<bool, CheckError>
        ensures { IfOk result (λ r. contains_enough (judged self.now depth) (map applied_of list.now) bounds.0 bounds.1
            (inner_of (view value.now)) ≡ Some r) }
    {
        if value.is_taken() {
            return Ok(true);
        }
        match value.as_ref() {
            ValueInner::Array(_) => {
                let count = self.count_valid(left, depth, list)?;
                Ok(bounds.0 <= count as u64 && count as u64 <= bounds.1)
            }
            _ => Ok(true),
        }
    }

    /// Returns whether `unevaluatedProperties`, or `unevaluatedItems` if `entries` is false, allows a value. `nodes.0`
    /// is the index of the schema with the other keywords, and `nodes.1` the index of the keyword's subschema. Fails
    /// like `is_valid`.
    #[cycle(valid)]
    fn allows_unevaluated(
        &self,
        left: &mut u64,
        depth: usize,
        entries: bool,
        nodes: (usize, usize),
        value: &Value<'_>,
    ) -> Result<bool, CheckError>
        ensures { IfOk result (λ r.
            unevaluated_allow (judged self.now depth) entries nodes.0 nodes.1 (view value.now) ≡ Some r) }
    {
        let alloc = self.alloc();
        let parts = parts_of_kind(alloc, value, entries)?;
        let rest = self.unevaluated(left, depth, nodes.0, value, parts.as_slice())?;
        let mut list = Vec::new(alloc);
        push_to_each(&mut list, nodes.1, rest.as_slice())?;
        Ok(self.all_valid(left, depth, list.as_slice())?)
    }

    /// Returns those of `parts`, entries or elements of `value`, that the schema at index `node` does not evaluate.
    /// `value` must be valid against the schema. Fails like `is_valid`.
    #[cycle(valid)]
    pub(crate) fn unevaluated<'v, 'de>(
        &self,
        left: &mut u64,
        depth: usize,
        node: usize,
        value: &Value<'_>,
        parts: &[Part<'v, 'de>],
    ) -> Result<Vec<Part<'v, 'de>>, CheckError>
        ensures { IfOk result (λ rest. refused ((judged self.now depth).evaluates node (view value.now))
            (map part_of parts.now) ≡ Some (map part_of rest.items)) }
    {
        spend(left)?;
        if depth == 0 {
            return Err(CheckError::TooDeep);
        }
        let mut rest = Vec::from_slice(self.alloc(), parts)?;
        for placed in self.keywords(node) {
            rest = self.unreached(left, depth - 1, &placed.keyword, value, rest.as_slice())?;
        }
        Ok(rest)
    }

    /// Returns those of `parts`, entries or elements of `value`, that a keyword does not evaluate. The keyword must
    /// allow `value`. Fails like `is_valid`.
    #[cycle(valid)]
    #[tactic(auto, unfolding(crate::specs::Valid::reaches))]
    fn unreached<'v, 'de>(
        &self,
        left: &mut u64,
        depth: usize,
        keyword: &Keyword,
        value: &Value<'_>,
        parts: &[Part<'v, 'de>],
    ) -> Result<Vec<Part<'v, 'de>>, CheckError>
        ensures { IfOk result (λ rest. refused (reaches self.now (judged self.now depth) keyword.now (view value.now))
            (map part_of parts.now) ≡ Some (map part_of rest.items)) }
    {
        match keyword {
            Keyword::AllOf(_)
            | Keyword::AnyOf(_)
            | Keyword::OneOf(_)
            | Keyword::DependentSchemas(_) => {
                let list = applied(self, keyword, Part::Whole(value))?;
                Ok(self.uncovered(left, depth, list.as_slice(), parts)?)
            }
            Keyword::If(condition, yes, no) => {
                if !self.is_valid(left, depth, *condition, value)? {
                    return self.maybe_uncovered(left, depth, *no, value, parts);
                }
                let rest = self.unevaluated(left, depth, *condition, value, parts)?;
                Ok(self.maybe_uncovered(left, depth, *yes, value, rest.as_slice())?)
            }
            Keyword::Contains(node, _, _, evaluates) => {
                if *evaluates {
                    return self.unmatched(left, depth, *node, parts);
                }
                Ok(Vec::from_slice(self.alloc(), parts)?)
            }
            _ => Ok(simply_unreached(self, keyword, parts)?),
        }
    }

    /// Returns those of `parts`, entries or elements of a value, that no pair of a subschema and this value in `list`
    /// covers: the value must be valid against the subschema, and the subschema evaluate the part. Fails like
    /// `is_valid`.
    #[cycle(valid)]
    fn uncovered<'v, 'de>(
        &self,
        left: &mut u64,
        depth: usize,
        list: &[(usize, Part<'_, '_>)],
        parts: &[Part<'v, 'de>],
    ) -> Result<Vec<Part<'v, 'de>>, CheckError>
        ensures { IfOk result (λ rest. refused
            (λ p. any (covers (judged self.now depth) p) (map applied_of list.now))
            (map part_of parts.now) ≡ Some (map part_of rest.items)) }
    {
        let mut rest = Vec::from_slice(self.alloc(), parts)?;
        for pair in list {
            rest = self.uncovered_by(left, depth, *pair, rest.as_slice())?;
        }
        Ok(rest)
    }

    /// Returns those of `parts` that a pair does not cover (see `uncovered`). Fails like `is_valid`.
    #[cycle(valid)]
    fn uncovered_by<'v, 'de>(
        &self,
        left: &mut u64,
        depth: usize,
        pair: (usize, Part<'_, '_>),
        parts: &[Part<'v, 'de>],
    ) -> Result<Vec<Part<'v, 'de>>, CheckError>
        ensures { IfOk result (λ rest. refused (λ p. covers (judged self.now depth) p (applied_of pair.entry))
            (map part_of parts.now) ≡ Some (map part_of rest.items)) }
    {
        let value = pair.1.value();
        if self.is_valid(left, depth, pair.0, value)? {
            self.unevaluated(left, depth, pair.0, value, parts)
        } else {
            Ok(Vec::from_slice(self.alloc(), parts)?)
        }
    }

    /// Returns those of `parts`, entries or elements of `value`, that the subschema at index `node` does not cover (see
    /// `uncovered`), or all if `node` is `None`. Fails like `is_valid`.
    #[cycle(valid)]
    fn maybe_uncovered<'v, 'de>(
        &self,
        left: &mut u64,
        depth: usize,
        node: Option<usize>,
        value: &Value<'_>,
        parts: &[Part<'v, 'de>],
    ) -> Result<Vec<Part<'v, 'de>>, CheckError>
        ensures { IfOk result (λ rest. refused
            (λ p. optional (λ k. covers (judged self.now depth) p (k, whole (view value.now))) (Some false) node)
            (map part_of parts.now) ≡ Some (map part_of rest.items)) }
    {
        match node {
            Some(node) => { self.uncovered_by(left, depth, (node, Part::Whole(value)), parts) }
            None => Ok(Vec::from_slice(self.alloc(), parts)?),
        }
    }

    /// Returns those of `parts` that are entries, or elements that are not valid against the subschema at index `node`.
    /// Fails like `is_valid`.
    #[cycle(valid)]
    fn unmatched<'v, 'de>(
        &self,
        left: &mut u64,
        depth: usize,
        node: usize,
        parts: &[Part<'v, 'de>],
    ) -> Result<Vec<Part<'v, 'de>>, CheckError>
        ensures { IfOk result (λ rest. refused (is_evaluated_element (judged self.now depth) node)
            (map part_of parts.now) ≡ Some (map part_of rest.items)) }
    {
        let mut rest = Vec::new(self.alloc());
        for part in parts {
            let is_matched = match part {
                Part::Element(_, element) => self.is_valid(left, depth, node, *element)?,
                Part::Member(_, _) | Part::Whole(_) => false,
            };
            if !is_matched {
                rest.push(*part)?;
            }
        }
        Ok(rest)
    }
}

/// Returns whether a keyword that needs no verdicts evaluates `part`, an entry or element.
#[tactic(auto, unfolding(crate::specs::Valid::reaches_simply))]
fn reaches_simply(
    schema: &Schema,
    keyword: &Keyword,
    part: Part<'_, '_>,
) -> Result<bool, AllocError>
    ensures { IfOk result (λ r. reaches_simply schema.now keyword.now (part_of part.entry) ≡ r) }
{
    match keyword {
        Keyword::Items(_, _) | Keyword::Properties(_, _, _) => {
            Ok(!schemas_for(schema, keyword, part)?.is_empty())
        }
        Keyword::UnevaluatedItems(_, _) => Ok(!matches!(part, Part::Member(_, _))),
        Keyword::UnevaluatedProperties(_, _) => Ok(matches!(part, Part::Member(_, _))),
        _ => Ok(false),
    }
}

/// Returns those of `parts` that a keyword does not evaluate. The keyword must be one that needs no verdicts.
fn simply_unreached<'v, 'de>(
    schema: &Schema,
    keyword: &Keyword,
    parts: &[Part<'v, 'de>],
) -> Result<Vec<Part<'v, 'de>>, AllocError>
    ensures { IfOk result (λ rest. refused (λ p. Some (reaches_simply schema.now keyword.now p))
        (map part_of parts.now) ≡ Some (map part_of rest.items)) }
{
    let mut rest = Vec::new(schema.alloc());
    for part in parts {
        if !reaches_simply(schema, keyword, *part)? {
            rest.push(*part)?;
        }
    }
    Ok(rest)
}
