//! Suggests keys that similar tables have, and booleans.
ghost use Rattle.std.specs.Prelude.{◌≡◌, IfOk};
ghost use Rattle.toml_span_editor.specs.Completions.{Replace};

use crate::completion::{Outer, Site, Suggestion, SuggestionKind};
use crate::keys::value_of;
use crate::suggestions::{is_assigned, snippet_of, value_suggestion};
use std::alloc::{AllocError, Global};
use toml_span::Value;
use toml_span::value::Step;
use toml_span_places::{literal_span, quote_key};
use toml_span_schema::Kinds;

/// The maximum number of similar tables to search for keys.
const MOST_TABLES: usize = 100;

/// The maximum number of keys to suggest.
const MOST: usize = 500;

/// A key that another table has, and its value there.
#[derive(Clone, Copy)]
struct Sibling<'v, 't> {
    name: &'v str,
    value: &'v Value<'t>,
}

/// Appends each key of `table` that the table `outer` lacks and that is not in the list yet. Appends nothing if `table`
/// is not a table.
fn push_keys<'v, 't>(
    table: &'v Value<'t>,
    outer: Outer<'_, '_, '_, '_>,
    found: &mut Vec<Sibling<'v, 't>>,
) -> Result<(), AllocError> {
    let Some(table) = table.as_table() else {
        return Ok(());
    };
    for (key, value) in table.iter() {
        let name = key.name.as_ref();
        let is_new = !outer.has(name) && !found.iter().any(|other| other.name == name);
        if is_new && found.len() < MOST {
            found.push(Sibling { name, value })?;
        }
    }
    Ok(())
}

/// Appends the keys that the table `outer` lacks and that similar tables have: those whose path differs only in the
/// step at `index`, a name or a position.
fn push_siblings<'d, 't>(
    outer: Outer<'d, '_, '_, 't>,
    index: usize,
    found: &mut Vec<Sibling<'d, 't>>,
) -> Result<(), AllocError> {
    let above = outer.steps.get(..index).unwrap_or(&[]);
    let below = outer.steps.get(index.saturating_add(1)..).unwrap_or(&[]);
    let Some(value) = value_of(&outer.document.root, above) else {
        return Ok(());
    };
    if let Some(array) = value.as_array() {
        for element in array.iter().take(MOST_TABLES) {
            if let Some(table) = value_of(element, below) {
                push_keys(table, outer, found)?;
            }
        }
    }
    if let Some(entries) = value.as_table() {
        for (_, entry) in entries.iter().take(MOST_TABLES) {
            if let Some(table) = value_of(entry, below) {
                push_keys(table, outer, found)?;
            }
        }
    }
    Ok(())
}

/// Returns the keys that the table `outer` lacks and that similar tables have: for a table that is an element of an
/// array or inside one, the tables at the same place in the other elements. If these have no such keys, the tables at
/// the same place in the other tables of a table other than the root.
fn siblings<'d, 't>(
    alloc: Global,
    outer: Outer<'d, '_, '_, 't>,
) -> Result<Vec<Sibling<'d, 't>>, AllocError> {
    let mut found = Vec::new(alloc);
    for (index, step) in outer.steps.iter().enumerate().rev() {
        if let Step::Position(_) = step {
            push_siblings(outer, index, &mut found)?;
            break;
        }
    }
    for index in 1..outer.steps.len() {
        if found.is_empty() {
            push_siblings(outer, index, &mut found)?;
        }
    }
    Ok(found)
}

/// Returns a snippet: the text `front`, and then a placeholder for a value of the same kind as `value`, with a number,
/// date or time as it is in `text`.
fn sibling_snippet(
    alloc: Global,
    text: &str,
    front: &str,
    value: &Value<'_>,
    site: Site<'_>,
) -> Result<String, AllocError> {
    let kind = value.type_str();
    let kinds = Kinds {
        string: kind == "string",
        integer: kind == "integer",
        float: kind == "float",
        boolean: kind == "boolean",
        table: kind == "table",
        array: kind == "array",
    };
    let span = literal_span(text, value);
    let is_plain = !(kinds.string || kinds.table || kinds.array) && span.start <= span.end;
    let literal = if is_plain {
        text.get(span.start..span.end)
    } else {
        None
    };
    snippet_of(alloc, front, kinds, &[], literal, site)
}

/// Returns the suggestion of a key.
fn suggestion_of(
    alloc: Global,
    text: &str,
    sibling: Sibling<'_, '_>,
    site: Site<'_>,
) -> Result<Suggestion, AllocError>
    ensures { IfOk result (λ suggestion. suggestion.span ≡ site.entry.typed) }
{
    let label = quote_key(alloc, sibling.name)?;
    let mut new = label.clone()?;
    let mut snippet = None;
    if !is_assigned(site.rest) {
        new.push_str(" = ")?;
        snippet = Some(sibling_snippet(alloc, text, new.as_str(), sibling.value, site)?);
    }
    Ok(Suggestion {
        kind: SuggestionKind::Key,
        label,
        detail: String::from_str(alloc, sibling.value.type_str())?,
        documentation: String::new(alloc),
        is_required: false,
        is_deprecated: false,
        span: site.typed,
        text: new,
        snippet,
    })
}

/// Returns suggestions of the keys that the table `outer` lacks and that similar tables have (see `siblings`).
pub(crate) fn sibling_keys(
    alloc: Global,
    outer: Outer<'_, '_, '_, '_>,
    site: Site<'_>,
) -> Result<Vec<Suggestion>, AllocError>
    ensures { IfOk result (λ suggestions. Replace site.entry.typed suggestions.items) }
{
    let mut suggestions = Vec::new(alloc);
    for sibling in siblings(alloc, outer)? {
        suggestions.push(suggestion_of(alloc, outer.document.text, sibling, site)?)?;
    }
    Ok(suggestions)
}

/// Returns the suggestions `true` and `false`, if they can replace what is written: nothing, or a word.
pub(crate) fn booleans(alloc: Global, site: Site<'_>) -> Result<Vec<Suggestion>, AllocError>
    ensures { IfOk result (λ suggestions. Replace site.entry.typed suggestions.items) }
{
    let mut suggestions = Vec::new(alloc);
    if site.is_word {
        suggestions.push(value_suggestion(alloc, site, "true", "boolean")?)?;
        suggestions.push(value_suggestion(alloc, site, "false", "boolean")?)?;
    }
    Ok(suggestions)
}
