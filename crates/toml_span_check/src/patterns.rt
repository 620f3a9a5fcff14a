//! Patterns of paths, as in `.gitignore` files.
ghost use Rattle.std.specs.List.{cons_option};
ghost use Rattle.std.specs.Prelude.{[], ◌≡◌, ◌∷◌, ◌++◌, ◌<◌, ◌≤◌, IfOk, None, OnOk, false, length, map, option_map};
ghost use Rattle.std.specs.Prelude.{get_or, replicate, slice_index, take, true};
ghost use Rattle.toml_span_check.specs.Globs as globs;
ghost use Rattle.toml_span_check.specs.Patterns as spec;

use crate::globs::{Code, Range, Set, is_any, parts_of_glob};
use std::alloc::{AllocError, Global};

// ---- matching
//
// Marks say which suffixes of a list are left to match: the first mark is for the whole list, the last for the empty
// suffix.

/// Returns marks for a list of `length` elements. Only the whole list is marked.
fn first_marks(alloc: Global, length: usize) -> Result<Vec<bool>, AllocError>
    ensures { IfOk result (λ marks. marks.items ≡ true ∷ replicate length false) }
{
    let mut marks = Vec::new(alloc);
    marks.push(true)?;
    for _ in 0..length {
        marks.push(false)?;
    }
    Ok(marks)
}

/// Marks the suffixes of marked suffixes too.
fn spread(alloc: Global, marks: &[bool]) -> Result<Vec<bool>, AllocError>
    ensures { IfOk result (λ next. next.items ≡ spec.spread false marks.now) }
{
    let mut next = Vec::new(alloc);
    let mut is_marked = false;
    for mark in marks {
        is_marked = is_marked | *mark;
        next.push(is_marked)?;
    }
    Ok(next)
}

/// Returns whether the suffix at `index` is marked.
fn is_marked(marks: &[bool], index: usize) -> bool
    ensures { result ≡ get_or marks.now index false }
{
    match marks.get(index) {
        Some(mark) => *mark,
        None => false,
    }
}

/// Returns whether a byte is in one of the ranges.
fn in_ranges(ranges: &[Range], byte: u8) -> bool
    ensures { result ≡ globs.in_ranges ranges.now byte }
{
    for range in ranges {
        if range.first <= byte && byte <= range.last {
            return true;
        }
    }
    false
}

/// Returns whether a byte of a name is in a set.
fn fits(set: &Set, byte: u8) -> bool
    ensures { result ≡ globs.fits (globs.set_of set.now) byte }
{
    if set.is_negated {
        !in_ranges(set.ranges.as_slice(), byte)
    } else {
        in_ranges(set.ranges.as_slice(), byte)
    }
}

/// Marks what follows the first byte of each marked suffix, if that byte is in a set.
fn after_byte(
    alloc: Global,
    marks: &[bool],
    set: &Set,
    name: &[u8],
) -> Result<Vec<bool>, AllocError>
    ensures { IfOk result (λ next. next.items ≡ false ∷ spec.after (globs.fits (globs.set_of set.now)) marks.now name.now) }
{
    let mut next = Vec::new(alloc);
    next.push(false)?;
    for (index, byte) in name.iter().enumerate() {
        next.push(is_marked(marks, index) & fits(set, *byte))?;
    }
    Ok(next)
}

/// Returns the marks after one more element of a pattern.
fn name_step(
    alloc: Global,
    marks: &[bool],
    code: &Code,
    name: &[u8],
) -> Result<Vec<bool>, AllocError>
    ensures { IfOk result (λ next. next.items ≡ spec.name_step (globs.element code.now) marks.now name.now) }
{
    match code {
        Code::Star => spread(alloc, marks),
        Code::One(set) => after_byte(alloc, marks, set, name),
    }
}

/// Returns whether a part of a pattern matches a name. Fails if an allocation fails.
fn name_matches(alloc: Global, pattern: &[Code], name: &[u8]) -> Result<bool, AllocError>
    ensures { IfOk result (λ found. found ≡ spec.name_matches (globs.codes_of pattern.now) name.now) }
{
    let mut marks = first_marks(alloc, name.len())?;
    for code in pattern {
        marks = name_step(alloc, marks.as_slice(), code, name)?;
    }
    Ok(is_marked(marks.as_slice(), name.len()))
}

/// Marks what follows the first part of each marked suffix of a path, if `pattern` matches that part.
fn after_part(
    alloc: Global,
    marks: &[bool],
    pattern: &[Code],
    path: &[&str],
) -> Result<Vec<bool>, AllocError>
    ensures { IfOk result (λ next. next.items
        ≡ false ∷ spec.after (spec.name_matches (globs.codes_of pattern.now)) marks.now
        (map (λ part. part.now) path.now)) }
{
    let mut next = Vec::new(alloc);
    next.push(false)?;
    for (index, part) in path.iter().enumerate() {
        let is_match = name_matches(alloc, pattern, part.as_bytes())?;
        next.push(is_marked(marks, index) & is_match)?;
    }
    Ok(next)
}

/// Returns the marks after one more part of a pattern.
fn path_step(
    alloc: Global,
    marks: &[bool],
    part: &[Code],
    path: &[&str],
) -> Result<Vec<bool>, AllocError>
    ensures { IfOk result (λ next. next.items
        ≡ spec.path_step (globs.codes_of part.now) marks.now (map (λ part. part.now) path.now)) }
{
    if is_any(part) {
        spread(alloc, marks)
    } else {
        after_part(alloc, marks, part, path)
    }
}

/// Returns whether a pattern matches a path, both given as their parts between slashes. `**` matches any number of
/// parts, and any other part matches one part. Fails if an allocation fails.
fn path_matches(alloc: Global, pattern: &[Vec<Code>], path: &[&str]) -> Result<bool, AllocError>
    ensures { IfOk result (λ found. found
        ≡ spec.path_matches (globs.parts_of pattern.now) (map (λ part. part.now) path.now)) }
{
    let mut marks = first_marks(alloc, path.len())?;
    for part in pattern {
        marks = path_step(alloc, marks.as_slice(), part.as_slice(), path)?;
    }
    Ok(is_marked(marks.as_slice(), path.len()))
}

// ---- patterns

/// A pattern of paths, such as a line of a `.gitignore` file.
#[derive(Drop)]
pub struct Pattern {
    /// The parts between slashes. The first is `**` if the pattern matches at any depth.
    parts: Vec<Vec<Code>>,
    /// Whether the pattern begins with `!`, and so deselects the paths that it matches (see `last_match`).
    is_negated: bool,
    /// Whether the pattern matches only directories.
    is_directory: bool,
}

/// Splits a path at its slashes.
fn parts_of<'t>(alloc: Global, path: &'t str) -> Result<Vec<&'t str>, AllocError>
    ensures { IfOk result (λ parts. map (λ part. part.now) parts.items ≡ spec.parts path.now) }
{
    let mut parts = Vec::new(alloc);
    for part in path.split('/') {
        parts.push(part)?;
    }
    Ok(parts)
}

/// Returns whether a text contains an ASCII character.
fn contains(text: &str, byte: u8) -> bool
    ensures { result ≡ spec.contains byte text.now }
{
    text.as_bytes().contains(&byte)
}

/// Removes a slash at the start of a text.
pub(crate) fn without_root<'t>(text: &'t str) -> &'t str
    ensures { result.now ≡ spec.without_root text.now }
{
    match text.strip_prefix('/') {
        Some(rest) => rest,
        None => text,
    }
}

/// Removes a `!` at the start of a text. Returns whether there was a `!`, and the rest.
fn without_mark<'t>(text: &'t str) -> (bool, &'t str)
    ensures { (result.0, result.1.now) ≡ spec.without_mark text.now }
{
    match text.strip_prefix('!') {
        Some(rest) => (true, rest),
        None => (false, text),
    }
}

/// Removes a slash at the end of a text. Returns whether there was a slash, and the rest.
fn without_slash<'t>(text: &'t str) -> (bool, &'t str)
    ensures { (result.0, result.1.now) ≡ spec.without_slash text.now }
{
    match text.strip_suffix('/') {
        Some(front) => (true, front),
        None => (false, text),
    }
}

/// Parses a pattern, as Git does: a `!` at the start negates it. With a slash at the end, it matches only directories.
/// With any other slash, it matches whole paths, otherwise names at any depth. `*` and `?` match any number of bytes and
/// one byte of a name, `**` any number of directories, a class such as `[a-z]` or `[!a-z]` one byte, and a byte after a
/// backslash matches itself.
///
/// Returns `None` if nothing is left without the `!` and the slash at the end, and for a pattern that matches nothing,
/// since a class is not closed or it ends in a backslash. Named classes such as `[[:alpha:]]` are not supported: they
/// return `None` too. Fails if an allocation fails.
pub fn pattern_of(alloc: Global, text: &str) -> Result<Option<Pattern>, AllocError>
    ensures { IfOk result (λ pattern. option_map spec.pattern pattern ≡ spec.pattern_of text.now) }
{
    let (is_negated, text) = without_mark(text);
    let (is_directory, text) = without_slash(text);
    if text.is_empty() {
        return Ok(None);
    }
    let inside = without_root(text).as_bytes();
    match parts_of_glob(alloc, inside, !contains(text, b'/'))? {
        Some(parts) => Ok(Some(Pattern {
            parts,
            is_negated,
            is_directory,
        })),
        None => Ok(None),
    }
}

/// Returns the length in bytes of a line of a `.gitignore` file without the spaces at its end, except for one after a
/// backslash.
fn kept_length(line: &[u8]) -> usize
    ensures kept { take result line.now ≡ spec.without_spaces line.now }
    ensures within { result ≤ length line.now }
    ensures followed_by_space { result < length line.now → slice_index line.now result ≡ 32 }
{
    let mut end = 0usize;
    let mut is_escaped = false;
    for (index, byte) in line.iter().enumerate() {
        let stays = is_escaped | (*byte != b' ');
        if stays {
            end = index + 1;
        }
        is_escaped = !is_escaped & (*byte == b'\\');
    }
    end
}

/// Returns a line of a `.gitignore` file without the spaces at its end, except for one after a backslash.
fn without_spaces<'t>(line: &'t str) -> &'t str
    ensures { result.now ≡ spec.without_spaces line.now }
{
    match line.get(..kept_length(line.as_bytes())) {
        Some(kept) => kept,
        None => line,
    }
}

/// Removes a byte order mark at the start of a text.
fn without_bom<'t>(text: &'t str) -> &'t str
    ensures { result.now ≡ spec.without_bom text.now }
{
    match text.strip_prefix("\u{FEFF}") {
        Some(rest) => rest,
        None => text,
    }
}

/// Returns the pattern of a line of a `.gitignore` file. Returns `None` for a comment and where `pattern_of` does. Fails
/// if an allocation fails.
fn line_pattern(alloc: Global, line: &str) -> Result<Option<Pattern>, AllocError>
    ensures { IfOk result (λ pattern. option_map spec.pattern pattern ≡ spec.line_pattern line.now) }
{
    if line.starts_with('#') {
        return Ok(None);
    }
    pattern_of(alloc, without_spaces(line))
}

/// Appends the pattern, if there is one. Fails if an allocation fails.
pub(crate) fn push_pattern(
    patterns: &mut Vec<Pattern>,
    pattern: Option<Pattern>,
) -> Result<(), AllocError>
    ensures { OnOk result (patterns.new.items ≡ patterns.old.items ++ cons_option pattern []) }
{
    if let Some(pattern) = pattern {
        patterns.push(pattern)?;
    }
    Ok(())
}

/// Returns the patterns of the lines of a `.gitignore` file, in order. Leaves out comments, and lines that `pattern_of`
/// can't parse. Fails if an allocation fails.
pub(crate) fn ignore_patterns(alloc: Global, text: &str) -> Result<Vec<Pattern>, AllocError>
    ensures { IfOk result (λ patterns. map spec.pattern patterns.items ≡ spec.ignore_patterns text.now) }
{
    let mut patterns = Vec::new(alloc);
    for line in without_bom(text).lines() {
        push_pattern(&mut patterns, line_pattern(alloc, line)?)?;
    }
    Ok(patterns)
}

/// Returns whether a pattern matches a path, given as its parts between slashes. `is_directory` says whether the path
/// names a directory. Fails if an allocation fails.
fn is_match(
    alloc: Global,
    pattern: &Pattern,
    path: &[&str],
    is_directory: bool,
) -> Result<bool, AllocError>
    ensures { IfOk result (λ found. found
        ≡ spec.matches (spec.pattern pattern.now) (map (λ part. part.now) path.now) is_directory) }
{
    if pattern.is_directory && !is_directory {
        return Ok(false);
    }
    path_matches(alloc, pattern.parts.as_slice(), path)
}

/// Returns whether the patterns select `path`: `false` if the last pattern that matches it begins with `!`, otherwise
/// `true`. Returns `None` if no pattern matches.
///
/// `path` is relative to the directory of the patterns. `is_directory` says whether `path` names a directory. Fails if
/// an allocation fails.
pub fn last_match(
    alloc: Global,
    patterns: &[Pattern],
    path: &str,
    is_directory: bool,
) -> Result<Option<bool>, AllocError>
    ensures { IfOk result (λ found. found
        ≡ spec.selected (map spec.pattern patterns.now) (spec.parts path.now) is_directory None) }
{
    let parts = parts_of(alloc, path)?;
    let mut found = None;
    for pattern in patterns {
        if is_match(alloc, pattern, parts.as_slice(), is_directory)? {
            found = Some(!pattern.is_negated);
        }
    }
    Ok(found)
}
