//! Inserts keys that a schema requires.
ghost use Rattle.std.specs.Prelude.{◌≡◌, IfOk, IfSome, map, string_bytes};
ghost use Rattle.std.specs.Cow.{cow_str_bytes};
ghost use Rattle.toml_span_editor.specs.Edits.{edit_content};
ghost use Rattle.toml_span_editor.specs.Missing as spec;
ghost use Rattle.toml_span_tree.specs.Nodes.{step_of};

use crate::document::Document;
use crate::edits::{Edit, differences};
use crate::keys::{has_key, value_of};
use crate::renaming::segments_of;
use crate::schemas::{default_of, listed_values, subschemas_at};
use crate::spans::touches;
use std::alloc::{AllocError, Global};
use std::borrow::CowStr;
use toml_span::Stop;
use toml_span::value::{Step, nodes};
use toml_span_edit::{Change, Edit as KeyEdit, Edits};
use toml_span_lex::span::Span;
use toml_span_places::{quote_key, segment_names};
use toml_span_schema::{Guide, Subschemas};

/// Edits that insert a missing key.
#[derive(Drop)]
pub struct Insertion {
    /// What the edits do, such as "insert `port = 80`".
    pub title: String,
    /// The name of the key.
    pub name: String,
    /// The span of the table's header, dotted key or braces, or the start of the text for the root.
    pub place: Span,
    pub edits: Vec<Edit>,
}

/// Returns a value that a schema may allow, as TOML: its default, the first value that it lists, or an empty value.
/// `inner` are the subschemas for the value.
fn new_value(alloc: Global, guide: &Guide, inner: &Subschemas) -> Result<String, AllocError> {
    if let Some(default) = default_of(alloc, guide, inner)? {
        return Ok(default);
    }
    match listed_values(alloc, guide, inner)?.first() {
        Some(value) => value.clone(),
        None => String::from_str(alloc, guide.kinds_of(inner).empty_value()),
    }
}

/// Returns the text with this value added at `path`. Returns `None` if it can't be added.
fn added<'x>(
    alloc: Global,
    text: &str,
    path: &'x [&'x str],
    value: &'x str,
) -> Result<Option<String>, AllocError>
    ensures { IfOk result (λ made. IfSome made
        (λ new. spec.Adds value.now (map (λ s. s.now) path.now) text.now (string_bytes new))) }
{
    let mut edits = Edits::new(alloc, text);
    let change = Change::SetOrAdd(value);
    edits.push(KeyEdit { path, change })?;
    match edits.finish() {
        Ok(new) => Ok(Some(new)),
        Err(Stop::Memory(error)) => Err(error),
        Err(Stop::Fault(_)) => Ok(None),
    }
}

/// Returns the segments of the path of the key `name` in the table at `path`.
fn segments_to<'d>(
    alloc: Global,
    path: &[Step<'d>],
    name: &'d str,
) -> Result<Vec<CowStr<'d>>, AllocError>
    ensures { IfOk result (λ segments. map cow_str_bytes segments.items
        ≡ spec.segments_to (map step_of path.now) name.now) }
{
    let mut segments = segments_of(alloc, path)?;
    segments.push(CowStr::Borrowed(name))?;
    Ok(segments)
}

/// Returns edits that add the key `name` with this value to the table at `path`. Returns `None` if it can't be added.
fn edits_for<'d>(
    alloc: Global,
    text: &str,
    path: &[Step<'d>],
    name: &'d str,
    value: &str,
) -> Result<Option<Vec<Edit>>, AllocError>
    ensures { IfOk result (λ made. IfSome made (λ edits. spec.AddsBy value.now
        (spec.segments_to (map step_of path.now) name.now) text.now (map edit_content edits.items))) }
{
    let segments = segments_to(alloc, path, name)?;
    let names = segment_names(alloc, segments.as_slice())?;
    let Some(new) = added(alloc, text, names.as_slice(), value)? else {
        return Ok(None);
    };
    let edits = differences(alloc, text, new.as_str())?;
    Ok(Some(edits))
}

/// Appends an insertion for each key that `guide` requires in the table at `path`, and that is missing there. `place`
/// is as in `Insertion`.
fn push_insertions(
    alloc: Global,
    guide: &Guide,
    document: &Document<'_>,
    path: &[Step<'_>],
    place: Span,
    found: &mut Vec<Insertion>,
) -> Result<(), AllocError> {
    let table = subschemas_at(alloc, guide, &document.root, path)?;
    let value = value_of(&document.root, path);
    for name in guide.keys_of(alloc, &table)? {
        if has_key(value, name) || !guide.is_required(&table, name) {
            continue;
        }
        let inner = guide.subschemas_inside(alloc, &table, Step::Key(name), None)?;
        let new = new_value(alloc, guide, &inner)?;
        if let Some(edits) = edits_for(alloc, document.text, path, name, new.as_str())? {
            let key = quote_key(alloc, name)?;
            found.push(Insertion {
                title: format!(in alloc; "insert `{key} = {new}`")?,
                name: String::from_str(alloc, name)?,
                place,
                edits,
            })?;
        }
    }
    Ok(())
}

/// Returns insertions of the keys that the schema `guide` requires and that are missing in tables at `span`: with a
/// header or dotted key that touches `span`, with braces that do, or the root at the start of the text. Fails if an
/// allocation fails.
pub fn insertions(
    alloc: Global,
    guide: &Guide,
    document: &Document<'_>,
    span: Span,
) -> Result<Vec<Insertion>, AllocError> {
    let mut found = Vec::new(alloc);
    for node in nodes(alloc, &document.root)? {
        let place = if node.path.is_empty() {
            Span { start: 0, end: 0 }
        } else {
            node.value.span
        };
        let is_here = touches(place, span.start) || touches(span, place.start);
        if is_here && node.value.as_table().is_some() {
            let path = node.path.as_slice();
            push_insertions(alloc, guide, document, path, place, &mut found)?;
        }
    }
    Ok(found)
}
