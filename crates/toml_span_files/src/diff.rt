//! Compares two texts line by line.
ghost use Rattle.std.specs.Prelude.{◌≡◌, IfOk, IsTrue, string_bytes};
ghost use Rattle.std.specs.List.{flat_map};
ghost use Rattle.toml_span_files.specs.Diff.{Splits};
ghost use Rattle.toml_span_files.specs.Diff as spec;

use std::alloc::{AllocError, Global};

/// The maximum number of lines to skip, in both texts together, before a line that both texts have.
const WINDOW: usize = 256;

/// Zero or more consecutive lines of the old text, of the new text, or of both.
#[derive(Clone, Copy)]
pub enum Part<'t> {
    /// Lines of both texts.
    Same(&'t str),
    /// Lines of the old text only.
    Old(&'t str),
    /// Lines of the new text only.
    New(&'t str),
}

/// Returns the old text: the parts that are `Same` or `Old`, joined.
fn old_text(alloc: Global, parts: &[Part<'_>]) -> Result<String, AllocError>
    ensures { IfOk result (λ text. string_bytes text ≡ flat_map spec.old_part parts.now) }
{
    let mut text = String::new(alloc);
    for part in parts {
        match *part {
            Part::Same(lines) | Part::Old(lines) => text.push_str(lines)?,
            Part::New(_) => {}
        }
    }
    Ok(text)
}

/// Returns the new text: the parts that are `Same` or `New`, joined.
fn new_text(alloc: Global, parts: &[Part<'_>]) -> Result<String, AllocError>
    ensures { IfOk result (λ text. string_bytes text ≡ flat_map spec.new_part parts.now) }
{
    let mut text = String::new(alloc);
    for part in parts {
        match *part {
            Part::Same(lines) | Part::New(lines) => text.push_str(lines)?,
            Part::Old(_) => {}
        }
    }
    Ok(text)
}

/// Returns the length in bytes of the lines that both texts have in common at the beginning.
fn shared_front(old: &str, new: &str) -> usize {
    let mut length = 0usize;
    for (one, other) in old.split_inclusive('\n').zip(new.split_inclusive('\n')) {
        if one != other {
            break;
        }
        length = length.saturating_add(one.len());
    }
    length
}

/// Returns the number of lines that both texts have in common at the end.
fn shared_back(old: &[&str], new: &[&str]) -> usize {
    let mut count = 0usize;
    for (one, other) in old.iter().rev().zip(new.iter().rev()) {
        if *one != *other {
            break;
        }
        count = count.saturating_add(1);
    }
    count
}

/// Returns whether both texts continue with the same line. If the line has at most two bytes without the white space
/// around it, the next lines must also be equal, or both be missing.
fn go_on_alike(old: &[&str], new: &[&str]) -> bool {
    match (old, new) {
        ([one, old_rest @ ..], [other, new_rest @ ..]) => {
            *one == *other && (one.trim().len() > 2 || old_rest.first() == new_rest.first())
        }
        _ => false,
    }
}

/// Returns how many lines of each text to skip until both continue with the same line (`go_on_alike`). The sum of both
/// numbers is the lowest possible from 1 to `WINDOW`. Returns `None` if no such sum is possible.
fn next_alike(old: &[&str], new: &[&str]) -> Option<(usize, usize)> {
    if old.is_empty() || new.is_empty() {
        return None;
    }
    for passed in 1..=WINDOW {
        for of_old in 0..=passed {
            let of_new = passed.saturating_sub(of_old);
            let (old, new) = (
                old.get(of_old..).unwrap_or(&[]),
                new.get(of_new..).unwrap_or(&[]),
            );
            if go_on_alike(old, new) {
                return Some((of_old, of_new));
            }
        }
    }
    None
}

/// Appends the lines of `old` and then the lines of `new` to `parts`, as `Part::Old` and `Part::New`.
fn push_changed<'t>(
    old: &[&'t str],
    new: &[&'t str],
    parts: &mut Vec<Part<'t>>,
) -> Result<(), AllocError> {
    for line in old {
        parts.push(Part::Old(*line))?;
    }
    for line in new {
        parts.push(Part::New(*line))?;
    }
    Ok(())
}

/// Compares two lists of lines, and appends their parts to `parts`.
fn push_lines<'t>(
    old: &[&'t str],
    new: &[&'t str],
    parts: &mut Vec<Part<'t>>,
) -> Result<(), AllocError> {
    let (mut at_old, mut at_new) = (0usize, 0usize);
    for _ in 0..old.len().saturating_add(new.len()) {
        let old_rest = old.get(at_old..).unwrap_or(&[]);
        let new_rest = new.get(at_new..).unwrap_or(&[]);
        let (of_old, of_new) = match (old_rest.first(), new_rest.first()) {
            (Some(one), Some(other)) if *one == *other => {
                parts.push(Part::Same(*one))?;
                (1, 1)
            }
            _ => {
                let all = (old_rest.len(), new_rest.len());
                let (of_old, of_new) = next_alike(old_rest, new_rest).unwrap_or(all);
                let old_front = old_rest.get(..of_old).unwrap_or(old_rest);
                push_changed(old_front, new_rest.get(..of_new).unwrap_or(new_rest), parts)?;
                (of_old, of_new)
            }
        };
        at_old = at_old.saturating_add(of_old);
        at_new = at_new.saturating_add(of_new);
    }
    Ok(())
}

/// Compares two texts, and returns their parts, which `splits` then checks.
fn guessed<'t>(alloc: Global, old: &'t str, new: &'t str) -> Result<Vec<Part<'t>>, AllocError> {
    let front = shared_front(old, new);
    let (same, old) = old.split_at_checked(front).unwrap_or(("", old));
    let new = new.get(front..).unwrap_or("");
    let old_lines: Vec<&'t str> = old.split_inclusive('\n').collect(alloc)?;
    let new_lines: Vec<&'t str> = new.split_inclusive('\n').collect(alloc)?;
    let (old_lines, new_lines) = (old_lines.as_slice(), new_lines.as_slice());
    let back = shared_back(old_lines, new_lines);
    let (old_count, new_count) = (
        old_lines.len().saturating_sub(back),
        new_lines.len().saturating_sub(back),
    );
    let mut parts = vec![in alloc; Part::Same(same)]?;
    push_lines(
        old_lines.get(..old_count).unwrap_or(&[]),
        new_lines.get(..new_count).unwrap_or(&[]),
        &mut parts,
    )?;
    for line in old_lines.get(old_count..).unwrap_or(&[]) {
        parts.push(Part::Same(*line))?;
    }
    Ok(parts)
}

/// Returns whether `parts` join to both texts: `old_text` to `old`, and `new_text` to `new`.
fn splits(alloc: Global, old: &str, new: &str, parts: &[Part<'_>]) -> Result<bool, AllocError>
    ensures { IfOk result (λ does. IsTrue does → Splits old.now new.now parts.now) }
{
    let has_old = old_text(alloc, parts)?.as_str() == old;
    let has_new = new_text(alloc, parts)?.as_str() == new;
    Ok(has_old && has_new)
}

/// Compares two texts line by line, and returns their parts in order. The parts `Same` and `Old` join to `old`, and the
/// parts `Same` and `New` to `new`. Fails if an allocation fails.
pub fn parts<'t>(alloc: Global, old: &'t str, new: &'t str) -> Result<Vec<Part<'t>>, AllocError>
    ensures spelled { IfOk result (λ parts. Splits old.now new.now parts.items) }
{
    let parts = guessed(alloc, old, new)?;
    if splits(alloc, old, new, parts.as_slice())? {
        return Ok(parts);
    }
    Ok(vec![in alloc; Part::Old(old), Part::New(new)]?)
}
