//! Finds the key or value at an offset in a text.
ghost use Rattle.std.specs.Prelude.{◌≡◌, IfOk, Some, option_map};
ghost use Rattle.toml_span_tree.specs.Nodes.{seen};
ghost use Rattle.toml_span_tree.specs.Value.{view};
ghost use Rattle.toml_span_places.specs.Spots as spec;
ghost use Rattle.toml_span_places.specs.Spots.{spot};

use crate::keys::with_quotes;
use crate::literals::literal_span;
use std::alloc::{AllocError, Global};
use toml_span_lex::span::Span;
use toml_span_tree::Value;
use toml_span_tree::nodes::{Step, Visited, nodes};

/// Whether a place is a key or a value.
#[derive(Clone, Copy, Debug, PartialEq, Eq)]
pub enum Part {
    Key,
    Value,
}

/// A key or a value of a tree, with its path and its span.
#[derive(Drop)]
pub struct NodePlace<'t, 'de> {
    /// The path from the root to the value. For a key, the path to the value of the key.
    pub path: Vec<Step<'t>>,
    pub part: Part,
    /// The span of the key or value, quotes included.
    pub span: Span,
    /// The value at the path, even if `part` says that the place is its key.
    pub value: &'t Value<'de>,
}

/// Returns whether `span` contains the byte offset `offset`.
fn holds(span: Span, offset: usize) -> bool
    ensures { result ≡ spec.holds span offset }
{
    span.start <= offset && offset < span.end
}

/// Returns the part, key or value, that contains the byte offset `offset`, with the span of the part. `literal` is the
/// span of the value, and `quoted` the span of its key, if there is one, both with quotes. If both contain the offset,
/// returns the part that starts later, or the value if they start together. If neither contains the offset, returns the
/// value.
fn chosen(offset: usize, literal: Span, quoted: Option<Span>) -> (Part, Span)
    ensures { result ≡ spec.chosen offset literal quoted }
{
    match quoted {
        Some(quoted)
            if holds(quoted, offset)
                && !(holds(literal, offset) && quoted.start <= literal.start) => (
            Part::Key,
            quoted,
        ),
        _ => (Part::Value, literal),
    }
}

/// Returns the value or the key of `node`, as `chosen` chooses, or `None` if neither contains the byte offset `offset`.
fn spot_of<'t, 'de>(text: &str, offset: usize, node: Visited<'t, 'de>) -> Option<NodePlace<'t, 'de>>
    ensures { option_map spot result ≡ spec.spot_of text.now offset (seen node.entry) }
{
    let Visited { path, key, value } = node;
    let quoted = key.map(|key| with_quotes(text, key.span));
    let (part, span) = chosen(offset, literal_span(text, value), quoted);
    if !holds(span, offset) {
        return None;
    }
    Some(NodePlace {
        path,
        part,
        span,
        value,
    })
}

/// Returns `best` or `place`, whichever starts later; `place` if both start at the same offset, or if `best` is `None`.
fn later<'t, 'de>(best: Option<NodePlace<'t, 'de>>, place: NodePlace<'t, 'de>) -> NodePlace<'t, 'de>
    ensures { Some (spot result) ≡ spec.later (option_map spot best.entry) (spot place.entry) }
{
    match best {
        Some(best) if place.span.start < best.span.start => best,
        _ => place,
    }
}

/// Returns the innermost key or value that contains the byte at the offset `offset`, with its path. Returns `None` if
/// `offset` is not below the length of the text.
///
/// The innermost is the one that starts last among the keys and values whose spans, quotes included, contain the byte.
/// If several start at the same offset, it is the deepest in the tree. The tree keeps only one key of each table: where
/// another key names the table again, the result is the innermost value that contains the byte.
///
/// `root` must be the tree that `parse` returned for `text`. Fails if an allocation fails.
pub fn node_at<'t, 'de>(
    alloc: Global,
    root: &'t Value<'de>,
    text: &str,
    offset: usize,
) -> Result<Option<NodePlace<'t, 'de>>, AllocError>
    ensures { IfOk result (λ place. option_map spot place ≡ spec.node_at text.now offset (view root.now)) }
{
    let mut best = None;
    for node in nodes(alloc, root)? {
        if let Some(place) = spot_of(text, offset, node) {
            best = Some(later(best, place));
        }
    }
    Ok(best)
}
