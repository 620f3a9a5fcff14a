//! The comments of a text, with those of other languages.
ghost use Rattle.std.specs.Prelude.{◌≡◌, ◌++◌, IfOk, OnOk, codes, drop, true};
ghost use Rattle.std.specs.Prelude.{nat_eq};
ghost use Rattle.std.specs.List.{starts_with};
ghost use Rattle.toml_span_check.specs.Comments as spec;

use crate::bytes::bytes_in;
use std::alloc::{AllocError, Global};
use toml_span_syntax::pieces::{Kind, Piece};
use toml_span_syntax::strings::line_stop;

/// Returns whether the text has the bytes `front` at the offset `at`.
fn begins(text: &str, at: usize, front: &[u8]) -> bool
    ensures { result ≡ starts_with nat_eq (drop at text.now) front.now }
{
    let bytes = text.as_bytes();
    let (_, rest) = bytes.split_at(at.min(bytes.len()));
    rest.starts_with(front)
}

/// Returns the length of the marker, if the piece begins a comment of another language: a `;` that is the first of its
/// line, or a `//` after a blank or at the start of a line. Returns 0 for any other piece. `is_first` says whether
/// only blanks are before the piece on its line, and `is_spaced` whether a blank or the start of the line is.
fn marker(text: &str, piece: Piece, is_first: bool, is_spaced: bool) -> usize
    ensures { result ≡ spec.marker text.now piece is_first is_spaced }
{
    if !matches!(piece.kind, Kind::Invalid) {
        0
    } else if is_first && begins(text, piece.start, b";") {
        1
    } else if is_spaced && begins(text, piece.start, b"//") {
        2
    } else {
        0
    }
}

/// Returns the offset of the line end after `at`, or the length of the text.
fn stop_of(text: &str, at: usize) -> usize
    ensures { result ≡ spec.stop_of text.now at }
{
    line_stop(text, at.min(text.len()))
}

/// Appends the comment that a piece is, and a line feed. Appends nothing if the piece is no comment.
fn push_comment(out: &mut Vec<u8>, text: &str, piece: Piece) -> Result<(), AllocError>
    ensures { OnOk result (out.new.items ≡ out.old.items ++ spec.comment text.now piece) }
{
    if matches!(piece.kind, Kind::Comment) {
        out.extend_from_slice(bytes_in(text.as_bytes(), piece.start, piece.end))?;
        out.push(b'\n')?;
    }
    Ok(())
}

/// Appends `#`, the bytes from `start` to `stop`, and a line feed.
fn push_line(out: &mut Vec<u8>, text: &str, start: usize, stop: usize) -> Result<(), AllocError>
    ensures { OnOk result (out.new.items ≡ out.old.items ++ spec.line text.now start stop) }
{
    out.push(b'#')?;
    out.extend_from_slice(bytes_in(text.as_bytes(), start, stop))?;
    out.push(b'\n')?;
    Ok(())
}

/// Appends the comment that begins with a piece, whose marker has `width` bytes if it is a comment of another language.
fn push_any(out: &mut Vec<u8>, text: &str, piece: Piece, width: usize) -> Result<(), AllocError>
    ensures { OnOk result (out.new.items ≡ out.old.items ++ spec.any_comment text.now piece width) }
{
    if width > 0 {
        let start = piece.start.saturating_add(width);
        push_line(out, text, start, stop_of(text, piece.start))
    } else {
        push_comment(out, text, piece)
    }
}

/// Where the next piece is.
#[derive(Clone, Copy)]
struct Place {
    /// The end of the last comment of another language.
    past: usize,
    /// Whether only blanks are before it on its line.
    is_first: bool,
    /// Whether it follows a blank or the start of a line.
    is_spaced: bool,
}

/// Returns where the next piece is after a piece, whose marker has `width` bytes if it begins a comment of another
/// language.
fn after(text: &str, place: Place, piece: Piece, width: usize) -> Place
    ensures { result ≡ spec.after text.now place piece width }
{
    let is_line_end = matches!(piece.kind, Kind::LineEnd);
    let is_blank = matches!(piece.kind, Kind::Blank);
    Place {
        past: if width > 0 {
            stop_of(text, piece.start)
        } else {
            place.past
        },
        is_first: is_line_end || (is_blank && place.is_first),
        is_spaced: is_line_end || is_blank,
    }
}

/// Appends the comment that begins with the next piece, if one does, and returns where the piece after it is. Pieces in
/// a comment of another language are skipped.
fn push_next(out: &mut Vec<u8>, text: &str, place: Place, piece: Piece) -> Result<Place, AllocError>
    ensures next { IfOk result (λ next. next ≡ spec.next text.now place piece) }
    ensures added { OnOk result (out.new.items ≡ out.old.items ++ spec.added text.now place piece) }
{
    if piece.start < place.past {
        return Ok(place);
    }
    let width = marker(text, piece, place.is_first, place.is_spaced);
    push_any(out, text, piece, width)?;
    Ok(after(text, place, piece, width))
}

/// Returns the comments among the pieces of a text, each with a line feed after it. A comment of another language
/// (`marker`) counts too, with `#` in place of its marker. Fails if an allocation fails.
#[tactic(auto, unfolding(crate::specs::Comments::comments_from))]
pub fn comments(alloc: Global, text: &str, pieces: &[Piece]) -> Result<Vec<u8>, AllocError>
    ensures { IfOk result (λ out. out.items ≡ spec.comments text.now pieces.now) }
{
    let mut out = Vec::new(alloc);
    let mut place = Place {
        past: 0,
        is_first: true,
        is_spaced: true,
    };
    for piece in pieces {
        place = push_next(&mut out, text, place, *piece)?;
    }
    Ok(out)
}
