//! Finds keys, the places where they are written, and the values at paths.
ghost use Rattle.std.specs.Prelude.{◌≡◌, IfOk, is_some, map, option_and_then, option_map};
ghost use Rattle.toml_span_editor.specs.Keys as places;
ghost use Rattle.toml_span_editor.specs.Renaming as spec;
ghost use Rattle.toml_span_places.specs.Keys.{document_keys, key_mention};
ghost use Rattle.toml_span_read.specs.Data.{parsed_section};
ghost use Rattle.toml_span_read.specs.Paths as paths;
ghost use Rattle.toml_span_tree.specs.Node.{get_item};
ghost use Rattle.toml_span_tree.specs.Nodes.{step_of};
ghost use Rattle.toml_span_tree.specs.Path as tree;
ghost use Rattle.toml_span_tree.specs.Value.{items_view, view};

use crate::document::Document;
use crate::spans::touches;
use std::alloc::{AllocError, Global};
use toml_span::Value;
use toml_span::value::Step;
use toml_span_lex::span::Span;
use toml_span_places::{KeyPlace, Role, key_places};
use toml_span_tree::Array;
use toml_span_tree::lookup::entry_named;

/// A place where a key is written.
#[derive(Clone, Copy)]
pub struct Mention {
    /// The span of the key with its quotes.
    pub span: Span,
    /// Whether, at this place, the key is the last part of a header or of an assignment's key.
    pub is_definition: bool,
}

/// Returns the first key that contains the offset `at` or ends there, or `None` if no key does.
pub(crate) fn key_at<'p, 't>(keys: &'p [KeyPlace<'t>], at: usize) -> Option<&'p KeyPlace<'t>>
    ensures { option_map (λ key. key_mention key.now) result ≡ spec.key_at at (map key_mention keys.now) }
{
    for key in keys {
        if touches(key.whole, at) {
            return Some(key);
        }
    }
    None
}

/// Returns whether two steps are equal.
fn same_step(step: &Step<'_>, other: &Step<'_>) -> bool
    ensures { result ≡ paths.same_step (step_of step.now) (step_of other.now) }
{
    match step {
        Step::Key(name) => match other {
            Step::Key(name_too) => *name == *name_too,
            Step::Position(_) => false,
        },
        Step::Position(position) => match other {
            Step::Key(_) => false,
            Step::Position(position_too) => *position == *position_too,
        },
    }
}

/// Returns whether two paths are equal.
#[tactic(auto, unfolding(toml_span_read::specs::Paths::same_path))]
fn same_path(path: &[Step<'_>], other: &[Step<'_>]) -> bool
    ensures { result ≡ paths.same_path (map step_of path.now) (map step_of other.now) }
{
    let [step, path_rest @ ..] = path else {
        return other.is_empty();
    };
    let [other_step, other_rest @ ..] = other else {
        return false;
    };
    same_step(step, other_step) && same_path(path_rest, other_rest)
}

/// Returns whether a part with this role is the last part of a header or key.
fn is_last(role: Role) -> bool
    ensures { result ≡ places.is_last role }
{
    matches!(role, Role::HeaderLast | Role::Last)
}

/// Returns the places of those keys that have this path, in order.
fn mentions_of(
    alloc: Global,
    keys: &[KeyPlace<'_>],
    path: &[Step<'_>],
) -> Result<Vec<Mention>, AllocError>
    ensures { IfOk result (λ found. found.items
        ≡ places.mentions_of (map step_of path.now) (map key_mention keys.now)) }
{
    let mut found = Vec::new(alloc);
    for key in keys {
        if same_path(key.path.as_slice(), path) {
            found.push(Mention {
                span: key.whole,
                is_definition: is_last(key.role),
            })?;
        }
    }
    Ok(found)
}

/// Returns the places where the key at the byte offset `at` is written, in the order of the text. The list is empty if
/// no key is at `at`. Fails if an allocation fails.
pub fn mentions(
    alloc: Global,
    document: &Document<'_>,
    at: usize,
) -> Result<Vec<Mention>, AllocError>
    ensures { IfOk result (λ found. found.items ≡ places.mentions_at at
        (document_keys document.now.text.now (map parsed_section document.now.sections.items))) }
{
    let keys = key_places(alloc, document.text, document.sections.as_slice())?;
    match key_at(keys.as_slice(), at) {
        Some(key) => mentions_of(alloc, keys.as_slice(), key.path.as_slice()),
        None => Ok(Vec::new(alloc)),
    }
}

/// Returns the span of the first definition or, without one, of the first place.
fn definition_of(mentions: &[Mention]) -> Option<Span>
    ensures { result ≡ places.definition_of mentions.now }
{
    for mention in mentions {
        if mention.is_definition {
            return Some(mention.span);
        }
    }
    match mentions {
        [first, ..] => Some(first.span),
        [] => None,
    }
}

/// Returns the place where the key at the byte offset `at` is defined: the first place where it is the last part of a
/// header, or of the key of an assignment. If there is no such place, returns the first place where the key is written.
/// Returns `None` if no key is at `at`. Fails if an allocation fails.
pub fn definition(
    alloc: Global,
    document: &Document<'_>,
    at: usize,
) -> Result<Option<Span>, AllocError>
    ensures { IfOk result (λ found. found ≡ places.definition_of (places.mentions_at at
        (document_keys document.now.text.now (map parsed_section document.now.sections.items)))) }
{
    let mentions = mentions(alloc, document, at)?;
    Ok(definition_of(mentions.as_slice()))
}

/// Returns whether `value` is a table with the key `name`. Returns `false` for `None`.
#[tactic(auto, using(crate::proofs::KeyLemmas::is_some_map))]
pub(crate) fn has_key(value: Option<&Value<'_>>, name: &str) -> bool
    ensures { result ≡ is_some (option_and_then (tree.child (tree.key name.now))
        (option_map (λ v. view v.now) value.entry)) }
{
    match value {
        Some(value) => child(value, Step::Key(name)).is_some(),
        None => false,
    }
}

/// Returns the element at the position `at`, or `None` if there is no such element.
fn element<'v, 'de>(array: &'v Array<'de>, at: usize) -> Option<&'v Value<'de>>
    ensures { option_map (λ v. view v.now) result ≡ get_item at (items_view array.now.items) }
{
    array.get(at)
}

/// Returns the value that `step` names in the table or array `value`: the value of an entry, or an element. Returns
/// `None` if there is no such entry or element.
#[tactic(auto, using(crate::proofs::KeyLemmas::child_key, crate::proofs::KeyLemmas::child_position))]
pub(crate) fn child<'v, 'de>(value: &'v Value<'de>, step: Step<'_>) -> Option<&'v Value<'de>>
    ensures { option_map (λ v. view v.now) result ≡ tree.child (step_of step.entry) (view value.now) }
{
    match step {
        Step::Position(at) => element(value.as_array()?, at),
        Step::Key(name) => entry_named(value.as_table()?, name),
    }
}

/// Returns the value at a path, or `None` if it does not exist.
pub(crate) fn value_of<'v, 'de>(root: &'v Value<'de>, path: &[Step<'_>]) -> Option<&'v Value<'de>>
    ensures { option_map (λ v. view v.now) result ≡ places.value_at (map step_of path.now) (view root.now) }
{
    let [step, rest @ ..] = path else {
        return Some(root);
    };
    value_of(child(root, *step)?, rest)
}
