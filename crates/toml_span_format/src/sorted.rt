//! Formats a document with its keys sorted.
ghost use Rattle.std.specs.Prelude.{IfOk, IsTrue, map};
ghost use Rattle.toml_span_format.specs.Document as spec;
ghost use Rattle.toml_span_format.specs.Entries.{key_names};

use crate::compared::{is_sorted, same_entries, sorted};
use crate::document::laid_out;
use crate::entries::{Entry, begins_with_comment, entries_of};
use crate::errors::FormatError;
use crate::keys::keys_of;
use crate::options::Options;
use crate::permuted::permuted_sections;
use crate::read::{Document, read, read_if_valid};
use crate::tokens::{comments_among, is_layout, same_texts, tokens_of};
use std::alloc::{AllocError, Global};
use toml_span_lex::stop::Stop;
use toml_span_syntax::pieces::{Kind, Piece, pieces};
use toml_span_syntax::statements::statements;

/// Returns the comments of a text, sorted by their bytes.
fn sorted_comments<'t>(alloc: Global, text: &'t str) -> Result<Vec<&'t [u8]>, AllocError>
    ensures { IfOk result (λ found. spec.CommentsPermuted text.now (map (λ t. t.now) found.items)) }
{
    let pieces = pieces(alloc, text)?;
    let tokens = tokens_of(alloc, text.as_bytes(), pieces.as_slice())?;
    let mut found = comments_among(alloc, tokens.as_slice())?;
    found.sort()?;
    Ok(found)
}

/// Returns whether two texts have the same comments, in any order. Spaces and tabs at the end of a comment do not count
/// as part of it. Fails if an allocation fails.
pub fn permuted_comments(alloc: Global, old: &str, new: &str) -> Result<bool, AllocError>
    ensures { IfOk result (λ same. IsTrue same → spec.PermutedComments old.now new.now) }
{
    let before = sorted_comments(alloc, old)?;
    let after = sorted_comments(alloc, new)?;
    Ok(same_texts(before.as_slice(), after.as_slice()))
}

/// Returns the entries of a document, in order. `is_headed`: whether comments at its top are comments on the whole
/// document.
fn entries_in(
    alloc: Global,
    document: &Document<'_>,
    is_headed: bool,
) -> Result<Vec<Entry>, AllocError>
    ensures { IfOk result (λ found. spec.HasEntries document.now.text.now document.now.pieces.items is_headed
        found.items) }
{
    let pieces = document.pieces.as_slice();
    let statements = statements(alloc, pieces)?;
    let text = document.text.as_bytes();
    entries_of(alloc, text, pieces, is_headed, statements.as_slice())
}

/// Returns the pieces of the blank lines before the entry at the position `at`.
fn blank_lines_before<'p>(pieces: &'p [Piece], entries: &[Entry], at: usize) -> &'p [Piece] {
    let above = match at.checked_sub(1) {
        Some(above) => entries.get(above).map_or(0, |entry| entry.end),
        None => 0,
    };
    let first = entries.get(at).map_or(above, |entry| entry.first);
    pieces.get(above..first).unwrap_or(&[])
}

/// Returns whether these pieces are comments, apart from blanks, line ends and commas.
fn has_only_comments(pieces: &[Piece]) -> bool {
    pieces.iter().all(|piece| is_layout(piece.kind) || matches!(piece.kind, Kind::Comment))
}

/// Returns the pieces of a document in the order of its sorted entries. `entries` are the entries in the order of the
/// document. A group after a blank line stays after a blank line. If an assignment moves to the top with its comments, a
/// blank line separates them from comments on the whole document.
fn ordered(
    alloc: Global,
    pieces: &[Piece],
    entries: &[Entry],
    sorted: &[Entry],
) -> Result<Vec<Piece>, AllocError> {
    let line_end = Piece {
        kind: Kind::LineEnd,
        start: 0,
        end: 0,
    };
    let mut out = Vec::new(alloc);
    let mut is_head = true;
    for (at, entry) in sorted.iter().enumerate() {
        let found = pieces.get(entry.first..entry.end).unwrap_or(&[]);
        let is_next_to_head = is_head && at > 0 && begins_with_comment(found);
        is_head = is_head && has_only_comments(found);
        let blank_lines = blank_lines_before(pieces, entries, at);
        if entry.group == at && !blank_lines.is_empty() {
            out.extend_from_slice(blank_lines)?;
        } else if entry.group == at && is_next_to_head && !is_head {
            out.push(line_end)?;
        }
        out.extend_from_slice(found)?;
        match out.last() {
            Some(
                Piece {
                    kind: Kind::LineEnd,
                    ..
                },
            ) => (),
            _ => out.push(line_end)?,
        }
    }
    Ok(out)
}

/// Returns whether `new` has the sections and the entries of a document, each group of entries in the order of its keys.
/// `entries` are the entries of the document in their new order, and `keys` its keys. Returns `false` if `new` can't be
/// read.
fn has_sorted(
    alloc: Global,
    old: &Document<'_>,
    keys: &[Vec<&str>],
    is_headed: bool,
    entries: &[Entry],
    new: &str,
) -> Result<bool, AllocError>
    requires { spec.IsRead old.now }
    ensures { IfOk result (λ same. IsTrue same
        → spec.SortsEntries old.now (map key_names keys.now) is_headed entries.now new.now) }
{
    let Some(new) = read_if_valid(alloc, new)? else {
        return Ok(false);
    };
    let (before, after) = (old.sections.as_slice(), new.sections.as_slice());
    if !is_sorted(keys, entries) || !permuted_sections(alloc, before, after)? {
        return Ok(false);
    }
    let found = entries_in(alloc, &new, is_headed)?;
    let new_keys = keys_of(alloc, after)?;
    let same = same_entries(
        alloc,
        old,
        keys,
        entries,
        &new,
        new_keys.as_slice(),
        found.as_slice(),
    )?;
    Ok(same)
}

/// Formats a document, sorts its keys, and returns the new text.
///
/// In each section, the assignments between two blank lines are sorted by their keys: part by part, by the bytes of the
/// names. Assignments with the same key keep their order. Comments on lines of their own move with the assignment right
/// below them, and a comment at the end of a line moves with the line. But comments at the top of the document, up to the
/// first blank line, header or assignment, stay there, and directives (comments that begin with `#:`) stay between the
/// assignments that are before and after them. Keys in inline tables, elements of arrays, and sections are not sorted.
///
/// The result has the same sections in the same order, with the same assignments in each section. It has the same tokens
/// and comments in the same order, except for the order of the assignments in each group.
///
/// # Errors
///
/// `FormatError::Invalid` if the text can't be read as TOML, or `Stop::Memory` if an allocation fails.
/// `FormatError::WouldDiffer` is a bug in the formatter.
pub fn format_sorted<'t>(
    alloc: Global,
    text: &'t str,
    options: Options,
) -> Result<String, Stop<FormatError<'t>>>
    ensures { spec.FormatsSorted text.now result }
{
    let document = read(alloc, text)?;
    let keys = keys_of(alloc, document.sections.as_slice())?;
    let is_headed = begins_with_comment(document.pieces.as_slice());
    let entries = entries_in(alloc, &document, is_headed)?;
    let sorted = sorted(alloc, keys.as_slice(), entries.as_slice())?;
    let pieces = ordered(
        alloc,
        document.pieces.as_slice(),
        entries.as_slice(),
        sorted.as_slice(),
    )?;
    let new = laid_out(alloc, &document, pieces.as_slice(), options)?;
    if has_sorted(
        alloc,
        &document,
        keys.as_slice(),
        is_headed,
        sorted.as_slice(),
        new.as_str(),
    )? {
        Ok(new)
    } else {
        Err(Stop::Fault(FormatError::WouldDiffer))
    }
}
