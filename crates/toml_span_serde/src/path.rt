//! Paths from the root of a tree to the values of its pieces.
//!
//! Between two pieces, `downs` is the path to the next piece, from the root inwards. It has a position for each open
//! array: that of the element that is open or comes next. It has a name for each entry whose value has not ended yet.
ghost use Rattle.std.specs.Prelude.{◌≡◌, [], IfOk, OnOk, Some, map, reverse};
ghost use Rattle.toml_span_serde.specs.Misfits.{path_of, step_of};
ghost use Rattle.toml_span_serde.specs.Tasks.{piece_content, piece_of};
ghost use Rattle.toml_span_serde.specs.Texts.{step_text};
ghost use Rattle.toml_span_serde.specs.Walk.{after, down_of, elements_in, ended, outer, walked, way_at, way_of};

use crate::pieces::{Content, Piece};
use std::alloc::{AllocError, Global};
use std::fmt;
use std::fmt::{Display, Formatter, Write};

/// A step of a path: to the entry with this name, or to the element at this position, counted from 0.
#[derive(Debug, Drop)]
pub enum Step {
    Key(String),
    Position(usize),
}

impl Display for Step {
    ghost output = { λ step. Some (step_text step) };

    fn fmt<W: Write>(&self, f: &mut Formatter<W>) -> fmt::Result {
        match self {
            Step::Key(name) => f.write_str(name.as_str()),
            Step::Position(position) => write!(f, "[{position}]"),
        }
    }
}

/// A step of a path, with a name borrowed from the tree.
#[derive(Clone, Copy, Drop)]
enum Down<'v> {
    Key(&'v str),
    Position(usize),
}

/// Returns the path to the value of a piece or, for a key, to the value that the key names. `before` has all pieces
/// before the piece, and `content` is the content of the piece.
pub(crate) fn path_to<'v>(
    alloc: Global,
    before: &[Piece<'v>],
    content: Content<'v>,
) -> Result<Vec<Step>, AllocError>
    ensures { IfOk result (λ path. path_of path.items
        ≡ reverse (way_at (piece_content content.entry) (walked (map piece_of before.now) []))) }
{
    let mut downs = way_after(alloc, before)?;
    go_to_value(&mut downs, content)?;
    steps_of(alloc, downs.as_slice())
}

/// Counts the elements that have ended in the innermost array that is open after the pieces `before`. Returns 0 if no
/// array is open, or if `before` ends inside an entry of a table in that array.
pub(crate) fn elements_in(alloc: Global, before: &[Piece<'_>]) -> Result<usize, AllocError>
    ensures { IfOk result (λ count. count ≡ elements_in (map piece_of before.now)) }
{
    let mut downs = way_after(alloc, before)?;
    match downs.pop() {
        Some(Down::Position(count)) => Ok(count),
        _ => Ok(0),
    }
}

/// Returns the path to the piece after the pieces `before`.
fn way_after<'v>(alloc: Global, before: &[Piece<'v>]) -> Result<Vec<Down<'v>>, AllocError>
    ensures { IfOk result (λ downs. way_of downs.items ≡ walked (map piece_of before.now) []) }
{
    let mut downs = Vec::new(alloc);
    for piece in before {
        pass(&mut downs, piece.content)?;
    }
    Ok(downs)
}

/// Advances `downs` past a piece with this content.
fn pass<'v>(downs: &mut Vec<Down<'v>>, content: Content<'v>) -> Result<(), AllocError>
    ensures { OnOk result (way_of downs.new.items ≡ after (piece_content content.entry) (way_of downs.old.items)) }
{
    match content {
        Content::Key(name) => downs.push(Down::Key(name))?,
        Content::ArrayBegins => downs.push(Down::Position(0))?,
        Content::TableBegins => {}
        Content::ArrayEnds => {
            leave(downs);
            end_value(downs)?;
        }
        _ => end_value(downs)?,
    }
    Ok(())
}

/// Changes `downs`, the path to a piece with this content, to the path to the value of the piece. For a key, this is
/// the value that the key names.
fn go_to_value<'v>(downs: &mut Vec<Down<'v>>, content: Content<'v>) -> Result<(), AllocError>
    ensures { OnOk result (way_of downs.new.items ≡ way_at (piece_content content.entry) (way_of downs.old.items)) }
{
    match content {
        Content::Key(name) => downs.push(Down::Key(name))?,
        Content::ArrayEnds => leave(downs),
        _ => {}
    }
    Ok(())
}

/// Removes the last step of a path.
fn leave(downs: &mut Vec<Down<'_>>)
    ensures { way_of downs.new.items ≡ outer (way_of downs.old.items) }
{
    downs.pop();
}

/// Advances `downs` past the end of a value: to the next element of an array, or out of an entry of a table.
fn end_value(downs: &mut Vec<Down<'_>>) -> Result<(), AllocError>
    ensures { OnOk result (way_of downs.new.items ≡ ended (way_of downs.old.items)) }
{
    if let Some(Down::Position(position)) = downs.pop() {
        let Some(next) = position.checked_add(1) else {
            return Err(AllocError);
        };
        downs.push(Down::Position(next))?;
    }
    Ok(())
}

/// Returns the path `downs` with owned names.
fn steps_of(alloc: Global, downs: &[Down<'_>]) -> Result<Vec<Step>, AllocError>
    ensures { IfOk result (λ path. path_of path.items ≡ map down_of downs.now) }
{
    let mut path = Vec::with_capacity(alloc, downs.len())?;
    for down in downs {
        path.push(own(alloc, *down)?)?;
    }
    Ok(path)
}

/// Returns a step with an owned name.
fn own(alloc: Global, down: Down<'_>) -> Result<Step, AllocError>
    ensures { IfOk result (λ step. step_of step ≡ down_of down.entry) }
{
    match down {
        Down::Key(name) => Ok(Step::Key(String::from_str(alloc, name)?)),
        Down::Position(position) => Ok(Step::Position(position)),
    }
}
