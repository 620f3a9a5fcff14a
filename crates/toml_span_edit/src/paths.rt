//! Reads and compares paths: the segments from the root of a tree to a value.
ghost use Rattle.std.specs.Prelude.{◌≡◌, IfOk, count_by, map, string_bytes};
ghost use Rattle.std.specs.Fmt.{is_char_start};
ghost use Rattle.toml_span_tree.specs.Nodes.{step_of};
ghost use Rattle.toml_span_edit.specs.Paths as spec;
ghost use Rattle.toml_span_edit.specs.Reasons.{BeginsWithColumn, column};

use std::alloc::{AllocError, Global};
use toml_span::value::Step;
use toml_span_places::PathError;
use toml_span_tree::pointer::position;

/// Returns the number of characters that begin in `bytes`.
fn begun(bytes: &[u8]) -> usize
    ensures { result ≡ count_by is_char_start bytes.now }
{
    bytes
        .iter()
        .filter(|byte| **byte < 0x80 || **byte >= 0xc0)
        .count()
}

/// Returns the column of the byte offset `at` of `path`: the number of characters that begin before it, and one more.
fn column_of(path: &str, at: usize) -> usize
    ensures { result ≡ column path.now at }
{
    let end = at.min(path.len());
    begun(&path.as_bytes()[..end]).saturating_add(1)
}

/// Returns the column and the message of `error`, with which reading `path` failed, such as `column 3: expected a key`.
/// Columns count characters from 1. Fails if an allocation fails.
pub fn path_error_text(alloc: Global, path: &str, error: &PathError) -> Result<String, AllocError>
    ensures { IfOk result (λ text. BeginsWithColumn path.now error.now.at (string_bytes text)) }
{
    let column = column_of(path, error.at);
    let message = format!(in alloc; "{error}")?;
    format!(in alloc; "column {column}: {message}")
}

/// Returns the segments of `path` after the first `count`. Returns an empty slice if `path` has fewer than `count`
/// segments.
pub(crate) fn rest_of<'p, 'e>(path: &'p [&'e str], count: usize) -> &'p [&'e str] {
    let start = count.min(path.len());
    &path[start..]
}

/// Returns the first `count` segments of `path`, or all of them if there are fewer.
pub(crate) fn front_of<'p, 'e>(path: &'p [&'e str], count: usize) -> &'p [&'e str] {
    path.get(..count).unwrap_or(path)
}

/// Returns whether the segment of `path` at `index` is `segment`. Returns false if `path` is too short.
pub(crate) fn has_segment(path: &[&str], index: usize, segment: &str) -> bool {
    match path.get(index) {
        Some(other) => *other == segment,
        None => false,
    }
}

/// Returns whether the segment of `path` at `index` spells the position `at`. Returns false if `path` is too short.
pub(crate) fn has_position(path: &[&str], index: usize, at: usize) -> bool {
    match path.get(index) {
        Some(segment) => position(*segment) == Some(at),
        None => false,
    }
}

/// Returns whether `segment` is the name of the key `step`, or spells the position `step`.
fn is_step(segment: &str, step: Step<'_>) -> bool
    ensures { result ≡ spec.is_step segment.now (step_of step.entry) }
{
    match step {
        Step::Key(name) => segment == name,
        Step::Position(at) => match position(segment) {
            Some(there) => there == at,
            None => false,
        },
    }
}

/// Returns whether `path` has as many segments as there are `steps`, and each segment names the step at the same index.
pub(crate) fn names_steps(path: &[&str], steps: &[Step<'_>]) -> bool
    ensures { result ≡ spec.names_steps (map (λ s. s.now) path.now) (map step_of steps.now) }
{
    let [segment, path @ ..] = path else {
        return steps.is_empty();
    };
    let [step, steps @ ..] = steps else {
        return false;
    };
    is_step(*segment, *step) && names_steps(path, steps)
}

/// Returns whether each segment of `path` names the step at the same index. There may be more steps than segments, but
/// not fewer.
pub(crate) fn names_first(path: &[&str], steps: &[Step<'_>]) -> bool
    ensures { result ≡ spec.names_first (map (λ s. s.now) path.now) (map step_of steps.now) }
{
    let [segment, path @ ..] = path else {
        return true;
    };
    let [step, steps @ ..] = steps else {
        return false;
    };
    is_step(*segment, *step) && names_first(path, steps)
}
