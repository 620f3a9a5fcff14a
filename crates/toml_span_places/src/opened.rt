//! Counts the elements that headers add to each array of tables.
ghost use Rattle.std.specs.Prelude.{◌≡◌, ◌∷◌, [], IfOk, OnOk, map};
ghost use Rattle.toml_span_tree.specs.Nodes.{step_of};
ghost use Rattle.toml_span_places.specs.Mentions.{steps_of};
ghost use Rattle.toml_span_places.specs.code.Opened as spec;
ghost use Rattle.toml_span_places.specs.code.Opened.{counts_of};

use crate::paths::extended;
use std::alloc::{AllocError, Global};
use std::collections::BTreeMap;
use toml_span_tree::nodes::Step;

/// A step of a path, with an order, so that paths can be the keys of a map.
#[derive(Clone, Copy, PartialEq, Eq, PartialOrd, Ord)]
enum SortedStep<'t> {
    Key(&'t str),
    Position(usize),
}

/// The number of elements that the headers so far have added to each array of tables, keyed by the array's path.
#[derive(Drop)]
pub(crate) struct ElementCounts<'t> {
    elements: BTreeMap<Vec<SortedStep<'t>>, usize>,
}

/// Converts a `Step` to a `SortedStep`.
fn sorted_step<'t>(step: Step<'t>) -> SortedStep<'t>
    ensures { spec.sorted_step result ≡ step_of step.entry }
{
    match step {
        Step::Key(name) => SortedStep::Key(name),
        Step::Position(position) => SortedStep::Position(position),
    }
}

/// Converts each step of `path` to a `SortedStep`.
fn sorted_path<'t>(alloc: Global, path: &[Step<'t>]) -> Result<Vec<SortedStep<'t>>, AllocError>
    ensures { IfOk result (λ sorted. map spec.sorted_step sorted.items ≡ map step_of path.now) }
{
    let mut sorted = Vec::new(alloc);
    for step in path {
        sorted.push(sorted_step(*step))?;
    }
    Ok(sorted)
}

impl<'t> ElementCounts<'t> {
    /// Returns an `ElementCounts` in which every count is 0.
    pub fn new(alloc: Global) -> Self
        ensures { counts_of result ≡ spec.no_counts }
    {
        ElementCounts {
            elements: BTreeMap::new(alloc),
        }
    }
}

/// Returns how many elements `opened` counts for the array of tables at `path`, or 0 if `opened` has no such array.
pub(crate) fn elements_of<'t>(
    alloc: Global,
    opened: &ElementCounts<'t>,
    path: &[Step<'t>],
) -> Result<usize, AllocError>
    ensures { IfOk result (λ added. added ≡ counts_of opened.now (map step_of path.now)) }
{
    let sorted = sorted_path(alloc, path)?;
    match opened.elements.get(sorted.as_slice()) {
        Some(added) => Ok(*added),
        None => Ok(0),
    }
}

/// Adds 1 to the number of elements that `opened` counts for the array of tables at `path`. Also fails, with
/// `AllocError`, if the number would not fit into a `usize`.
pub(crate) fn add<'t>(
    alloc: Global,
    opened: &mut ElementCounts<'t>,
    path: &[Step<'t>],
) -> Result<(), AllocError>
    ensures { OnOk result (counts_of opened.new ≡ spec.one_more (counts_of opened.old) (map step_of path.now)) }
{
    let added = elements_of(alloc, opened, path)?;
    let Some(more) = added.checked_add(1) else {
        return Err(AllocError);
    };
    let sorted = sorted_path(alloc, path)?;
    opened.elements.insert(sorted, more)?;
    Ok(())
}

/// Returns the path of the table that a section fills. `path` is the path that the section's header names. If the
/// header has double brackets (`array`), counts in `opened` the element that the header adds, and returns `path` with
/// the position of this element appended.
pub(crate) fn section_path<'t>(
    alloc: Global,
    array: bool,
    path: Vec<Step<'t>>,
    opened: &mut ElementCounts<'t>,
) -> Result<Vec<Step<'t>>, AllocError>
    ensures path { IfOk result (λ below. steps_of below
        ≡ spec.assigned_below (counts_of opened.old) array (steps_of path.entry)) }
    ensures opened { OnOk result (counts_of opened.new
        ≡ spec.with_counted (counts_of opened.old) array (steps_of path.entry)) }
{
    if !array {
        return Ok(path);
    }
    let position = elements_of(alloc, opened, path.as_slice())?;
    add(alloc, opened, path.as_slice())?;
    extended(path, Step::Position(position))
}
