//! Compares sections without regard to the order of their assignments.
ghost use Rattle.std.specs.Prelude.{◌≡◌, ◌↔◌, IfOk, IsTrue, map};
ghost use Rattle.std.specs.List.Sorted.{IsPermutation};
ghost use Rattle.toml_span_read.specs.Data.{parsed_section, parsed_assignment};
ghost use Rattle.toml_span_format.specs.Same.{bare_assignment};
ghost use Rattle.toml_span_format.specs.Permuted as spec;

use crate::keys::names_of;
use crate::same::{same_keys, same_pair};
use std::alloc::{AllocError, Global};
use toml_span_read::{Assignment, Section};

/// An assignment and the names of its key, by which it is ordered.
#[derive(Drop)]
#[derive_where(PartialEq, Eq, PartialOrd, Ord)]
struct Named<'s, 't> {
    names: Vec<&'s str>,
    #[derive_where(skip(EqHashOrd))]
    assignment: &'s Assignment<'t>,
}

/// Returns the assignments, sorted by their keys.
fn sorted<'s, 't>(
    alloc: Global,
    assignments: &'s [Assignment<'t>],
) -> Result<Vec<Named<'s, 't>>, AllocError>
    ensures { IfOk result (λ found. IsPermutation (map parsed_assignment assignments.now)
        (map (λ n. parsed_assignment n.assignment.now) found.items)) }
{
    let mut found = Vec::new(alloc);
    for assignment in assignments {
        let names = names_of(alloc, &assignment.parts)?;
        found.push(Named { names, assignment })?;
    }
    found.sort()?;
    Ok(found)
}

/// Returns whether two lists have equal assignments in the same order, without regard to spans.
fn same_named(a: &[Named<'_, '_>], b: &[Named<'_, '_>]) -> bool
    ensures { IsTrue result ↔ (map bare_assignment (map (λ n. parsed_assignment n.assignment.now) a.now)
        ≡ map bare_assignment (map (λ n. parsed_assignment n.assignment.now) b.now)) }
{
    if a.len() != b.len() {
        return false;
    }
    for (i, x) in a.iter().enumerate() {
        if !same_pair(x.assignment, b[i].assignment) {
            return false;
        }
    }
    true
}

/// Returns whether two lists have equal assignments, in any order, without regard to spans. May return `false` if
/// assignments with the same key are in different orders.
fn permuted_pairs(
    alloc: Global,
    a: &[Assignment<'_>],
    b: &[Assignment<'_>],
) -> Result<bool, AllocError>
    ensures { IfOk result (λ same. IsTrue same → IsPermutation (map bare_assignment (map parsed_assignment a.now))
        (map bare_assignment (map parsed_assignment b.now))) }
{
    let before = sorted(alloc, a)?;
    let after = sorted(alloc, b)?;
    Ok(same_named(before.as_slice(), after.as_slice()))
}

/// Returns whether two sections are equal, without regard to spans and the order of assignments. Like `permuted_pairs`,
/// may return `false` if assignments with the same key are in different orders.
fn permuted_section(alloc: Global, a: &Section<'_>, b: &Section<'_>) -> Result<bool, AllocError>
    ensures { IfOk result (λ same. IsTrue same → spec.PermutedSection (parsed_section a.now) (parsed_section b.now)) }
{
    if a.array != b.array || !same_keys(a.header.as_slice(), b.header.as_slice()) {
        return Ok(false);
    }
    permuted_pairs(alloc, a.assignments.as_slice(), b.assignments.as_slice())
}

/// Returns whether two lists of sections are equal, without regard to spans and the order of the assignments in each
/// section. Like `permuted_pairs`, may return `false` if assignments with the same key are in different orders.
pub(crate) fn permuted_sections(
    alloc: Global,
    a: &[Section<'_>],
    b: &[Section<'_>],
) -> Result<bool, AllocError>
    ensures { IfOk result (λ same. IsTrue same
        → spec.PermutedSections (map parsed_section a.now) (map parsed_section b.now)) }
{
    if a.len() != b.len() {
        return Ok(false);
    }
    for (i, x) in a.iter().enumerate() {
        if !permuted_section(alloc, x, &b[i])? {
            return Ok(false);
        }
    }
    Ok(true)
}
