//! Renames a key wherever it is written.
ghost use Rattle.std.specs.Prelude.{◌≡◌, IfOk, map, option_map, string_bytes};
ghost use Rattle.std.specs.Cow.{cow_str_bytes};
ghost use Rattle.toml_span_editor.specs.Renaming as spec;
ghost use Rattle.toml_span_editor.specs.Renaming.{Renames, RenamesBy};
ghost use Rattle.toml_span_read.specs.Data.{parsed_section};
ghost use Rattle.toml_span_tree.specs.Nodes.{step_of};

use crate::document::Document;
use crate::edits::{Edit, Rewritten, changes_into, differences};
use crate::keys::{key_at, mentions};
use std::alloc::{AllocError, Global};
use std::borrow::CowStr;
use toml_span::Stop;
use toml_span::value::Step;
use toml_span_edit::{Change, Edit as KeyEdit, Edits};
use toml_span_lex::span::Span;
use toml_span_places::{key_places, quote_key, segment_names};

/// A key that can be renamed.
#[derive(Drop)]
pub struct Renamable<'d> {
    /// The span of the key with its quotes.
    pub span: Span,
    /// The segments of the path from the root to the key's value. The last segment is the name of the key, without
    /// quotes and escapes.
    pub path: Vec<CowStr<'d>>,
}

/// Returns a step as the segment of a path: a name, or a position in decimal digits.
fn segment_of<'d>(alloc: Global, step: Step<'d>) -> Result<CowStr<'d>, AllocError>
    ensures { IfOk result (λ segment. cow_str_bytes segment ≡ spec.segment_of (step_of step.entry)) }
{
    match step {
        Step::Key(name) => Ok(CowStr::Borrowed(name)),
        Step::Position(at) => Ok(CowStr::Owned(format!(in alloc; "{at}")?)),
    }
}

/// Returns the segments of a path.
pub(crate) fn segments_of<'d>(
    alloc: Global,
    path: &[Step<'d>],
) -> Result<Vec<CowStr<'d>>, AllocError>
    ensures { IfOk result (λ segments. map cow_str_bytes segments.items
        ≡ map spec.segment_of (map step_of path.now)) }
{
    let mut segments = Vec::new(alloc);
    for step in path {
        segments.push(segment_of(alloc, *step)?)?;
    }
    Ok(segments)
}

/// Returns the key at the byte offset `at`, or `None` if no key is there. Fails if an allocation fails.
pub fn renamable_at<'d>(
    alloc: Global,
    document: &'d Document<'_>,
    at: usize,
) -> Result<Option<Renamable<'d>>, AllocError>
    ensures path { IfOk result (λ found. option_map (λ key. map cow_str_bytes key.path.items) found
        ≡ spec.path_at at document.now.text.now (map parsed_section document.now.sections.items)) }
    ensures span { IfOk result (λ found. option_map (λ key. key.span) found
        ≡ spec.span_at at document.now.text.now (map parsed_section document.now.sections.items)) }
{
    let keys = key_places(alloc, document.text, document.sections.as_slice())?;
    match key_at(keys.as_slice(), at) {
        Some(key) => Ok(Some(Renamable {
            span: key.whole,
            path: segments_of(alloc, key.path.as_slice())?,
        })),
        None => Ok(None),
    }
}

/// Returns the text with the key at a path renamed to `name`. Fails with a message if the rename is refused.
fn renamed(alloc: Global, text: &str, path: &[&str], name: &str) -> Result<String, Stop<String>>
    ensures { IfOk result (λ new. Renames name.now (map (λ s. s.now) path.now) text.now (string_bytes new)) }
{
    let mut edits = Edits::new(alloc, text);
    edits.push(KeyEdit {
        path,
        change: Change::Rename(name),
    })?;
    match edits.finish() {
        Ok(new) => Ok(new),
        Err(stop) => {
            let error = stop.fault()?;
            Err(Stop::Fault(format!(in alloc; "{}", error.reason)?))
        }
    }
}

/// Returns the edits that rename the key at the byte offset `at` (see `renamable_at`) to `name`, wherever the key is
/// written. The new text is valid, and only the name has changed. Fails with a message if no key is at `at`, or if the
/// rename is refused. Fails with `Stop::Memory` if an allocation fails.
pub fn rename(
    alloc: Global,
    document: &Document<'_>,
    at: usize,
    name: &str,
) -> Result<Rewritten, Stop<String>>
    ensures { IfOk result (RenamesBy at name.now document.now.text.now
        (map parsed_section document.now.sections.items)) }
{
    let Some(key) = renamable_at(alloc, document, at)? else {
        return Err(Stop::Fault(String::from_str(alloc, "there is no key here")?));
    };
    let path = segment_names(alloc, key.path.as_slice())?;
    let text = renamed(alloc, document.text, path.as_slice(), name)?;
    let mut edits = Vec::new(alloc);
    for mention in mentions(alloc, document, at)? {
        edits.push(Edit {
            span: mention.span,
            text: quote_key(alloc, name)?,
        })?;
    }
    if changes_into(alloc, document.text, edits.as_slice(), text.as_str())? {
        return Ok(Rewritten { edits, text });
    }
    let edits = differences(alloc, document.text, text.as_str())?;
    Ok(Rewritten { edits, text })
}
