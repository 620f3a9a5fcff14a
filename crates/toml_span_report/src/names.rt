//! Suggests the name that a misspelled word probably means.
ghost use Rattle.std.specs.Prelude.{◌≡◌, ◌≤◌, IfOk, length, map, option_map};
ghost use Rattle.toml_span_report.specs.Names as spec;

use crate::places::characters;
use std::alloc::{AllocError, Global};
use strsim::osa_distance;

/// Returns the highest distance from `word` at which a name is suggested: a third of the number of characters in
/// `word`, rounded to the nearest integer.
#[tactic(auto, unfolding(crate::specs::Names::reach))]
fn reach(word: &str) -> usize
    ensures value { result ≡ spec.reach word.now }
    ensures within { result ≤ length word.now }
{
    (characters(word) + 1) / 3
}

/// Returns the distance between a word and a name (`strsim::osa_distance`).
#[tactic(auto, unfolding(crate::specs::Names::distance))]
fn distance(alloc: Global, word: &str, name: &str) -> Result<usize, AllocError>
    ensures { IfOk result (λ d. d ≡ spec.distance word.now name.now) }
{
    osa_distance(alloc, word, name)
}

/// Returns the name that a misspelled word probably means: the nearest name, or the first of several that are equally
/// near. Returns `None` if no name is near enough.
///
/// The distance between a word and a name is the number of edits that turn the word into the name
/// (`strsim::osa_distance`). An edit inserts, removes or replaces a character, or swaps two neighbors. A name is near
/// enough if its distance is at most a third of the number of characters in `word`, rounded to the nearest integer. So
/// a word of one character matches only itself. Fails if an allocation fails.
pub fn nearest<'a>(
    alloc: Global,
    word: &str,
    names: &[&'a str],
) -> Result<Option<&'a str>, AllocError>
    ensures { IfOk result (λ found. option_map (λ name. name.now) found
        ≡ spec.nearest word.now (map (λ name. name.now) names.now)) }
{
    let mut best = None;
    let mut bound = reach(word) + 1;
    for name in names {
        let distance = distance(alloc, word, *name)?;
        if distance < bound {
            bound = distance;
            best = Some(*name);
        }
    }
    Ok(best)
}
