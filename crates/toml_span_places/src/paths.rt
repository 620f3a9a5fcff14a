//! Makes and compares paths.
ghost use Rattle.std.specs.Prelude.{◌≡◌, ◌++◌, ◌∷◌, [], IfOk, map};
ghost use Rattle.toml_span_tree.specs.Nodes.{step_of};
ghost use Rattle.toml_span_read.specs.Data.{simple_key};
ghost use Rattle.toml_span_read.specs.Paths as spec;
ghost use Rattle.toml_span_places.specs.Mentions as mentions;
ghost use Rattle.toml_span_places.specs.Mentions.{inside, steps_of};
ghost use Rattle.toml_span_places.specs.code.Opened.{counts_of};

use crate::opened::{ElementCounts, elements_of};
use std::alloc::{AllocError, Global};
use toml_span_lex::key::Key;
use toml_span_tree::nodes::Step;

/// Returns `path` with `step` appended.
pub(crate) fn extended<'t>(
    mut path: Vec<Step<'t>>,
    step: Step<'t>,
) -> Result<Vec<Step<'t>>, AllocError>
    ensures { IfOk result (λ below. steps_of below ≡ steps_of path.entry ++ (step_of step.entry ∷ [])) }
{
    path.push(step)?;
    Ok(path)
}

/// Returns `path` with a step for `key` appended.
pub(crate) fn with_key<'t, 'de>(
    path: Vec<Step<'t>>,
    key: &'t Key<'de>,
) -> Result<Vec<Step<'t>>, AllocError>
    ensures { IfOk result (λ below. steps_of below ≡ spec.with_key (steps_of path.entry) (simple_key key.now)) }
{
    extended(path, Step::Key(key.name.as_ref()))
}

/// Returns a copy of `path`.
pub(crate) fn copied<'t>(alloc: Global, path: &[Step<'t>]) -> Result<Vec<Step<'t>>, AllocError>
    ensures { IfOk result (λ steps. steps_of steps ≡ map step_of path.now) }
{
    let steps = Vec::from_slice(alloc, path)?;
    Ok(steps)
}

/// Returns the path of the element at `position` of the array at `path`.
pub(crate) fn element_path<'t>(
    alloc: Global,
    path: &[Step<'t>],
    position: usize,
) -> Result<Vec<Step<'t>>, AllocError>
    ensures { IfOk result (λ below. steps_of below ≡ spec.with_position (map step_of path.now) position) }
{
    let mut steps = Vec::from_slice(alloc, path)?;
    steps.push(Step::Position(position))?;
    Ok(steps)
}

/// Returns whether two steps are equal.
fn same_step(step: &Step<'_>, other: &Step<'_>) -> bool
    ensures { result ≡ spec.same_step (step_of step.now) (step_of other.now) }
{
    match step {
        Step::Key(name) => match other {
            Step::Key(name_too) => *name == *name_too,
            Step::Position(_) => false,
        },
        Step::Position(position) => match other {
            Step::Key(_) => false,
            Step::Position(position_too) => *position == *position_too,
        },
    }
}

#[tactic(auto, unfolding(toml_span_read::specs::Paths::same_path))]
/// Returns whether two paths are equal.
pub(crate) fn same_path(path: &[Step<'_>], other: &[Step<'_>]) -> bool
    ensures { result ≡ spec.same_path (map step_of path.now) (map step_of other.now) }
{
    let [step, path_rest @ ..] = path else {
        return other.is_empty();
    };
    let [other_step, other_rest @ ..] = other else {
        return false;
    };
    same_step(step, other_step) && same_path(path_rest, other_rest)
}

/// Returns the position of the latest element that `opened` counts for the array of tables at `path`, or `None` if
/// `opened` counts no elements there.
pub(crate) fn latest<'t>(
    alloc: Global,
    opened: &ElementCounts<'t>,
    path: &[Step<'t>],
) -> Result<Option<usize>, AllocError>
    ensures { IfOk result (λ element. element ≡ mentions.latest (counts_of opened.now (map step_of path.now))) }
{
    let added = elements_of(alloc, opened, path)?;
    Ok(added.checked_sub(1))
}

/// Returns `path` with the position `element` appended, or `path` unchanged if `element` is `None`.
pub(crate) fn entered<'t>(
    path: Vec<Step<'t>>,
    element: Option<usize>,
) -> Result<Vec<Step<'t>>, AllocError>
    ensures { IfOk result (λ path_inside. steps_of path_inside ≡ inside (steps_of path.entry) element) }
{
    match element {
        Some(position) => extended(path, Step::Position(position)),
        None => Ok(path),
    }
}
