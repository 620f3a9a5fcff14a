//! The subschemas that a keyword applies to a value and to the values inside it, and the keys of a table.
ghost use Rattle.std.specs.Prelude.{◌≡◌, ◌++◌, IfOk, OnOk, false, map};
ghost use Rattle.toml_span_tree.specs.Value.{view};
ghost use Rattle.toml_span_schema.specs.Applied.{applied, applied_of, dependents, each_to, inside};
ghost use Rattle.toml_span_schema.specs.Applied.{matches, matching_for, otherwise, schemas_for};
ghost use Rattle.toml_span_schema.specs.Parts.{has_key, names_of, part_of};
ghost use Rattle.std.specs.BTreeMap.{get_by_text};
ghost use Rattle.std.specs.Prelude.{option_to_list};

use crate::keyword::Keyword;
use crate::listed::{Part, parts, parts_of_kind};
use crate::schema::Schema;
use std::alloc::{AllocError, Global};
use std::borrow::CowStr;
use std::collections::BTreeMap;
use toml_span_tree::{Value, ValueInner};

/// Returns whether the regular expression at position `pattern` in `schema.patterns` matches somewhere in a text, or
/// false if `pattern` is out of range.
pub(crate) fn matches(schema: &Schema, pattern: usize, text: &str) -> Result<bool, AllocError>
    ensures { IfOk result (λ r. r ≡ matches schema.now pattern text.now) }
{
    match schema.patterns.get(pattern) {
        Some(regex) => {
            let mut matcher = regex.matcher(schema.alloc())?;
            Ok(matcher.is_match(text))
        }
        None => Ok(false),
    }
}

/// Appends the subschemas of `patternProperties` whose regular expressions match `name`. `matching` pairs the position
/// of each regular expression with the index of its subschema.
fn push_matching(
    schema: &Schema,
    list: &mut Vec<usize>,
    matching: &[(usize, usize)],
    name: &str,
) -> Result<(), AllocError>
    ensures { OnOk result (list.new.items ≡ list.old.items ++ matching_for schema.now matching.now name.now) }
{
    for property in matching {
        if matches(schema, property.0, name)? {
            list.push(property.1)?;
        }
    }
    Ok(())
}

/// Returns the subschemas for the entry `name`: that of `name` in `named` (`properties`), and those in `matching`
/// (`patternProperties`) whose regular expressions match. If neither has one for `name`, returns `rest`
/// (`additionalProperties`) or, without `rest`, an empty list.
fn for_entry(
    schema: &Schema,
    named: &BTreeMap<String, usize>,
    matching: &[(usize, usize)],
    rest: Option<usize>,
    name: &str,
) -> Result<Vec<usize>, AllocError>
    ensures { IfOk result (λ list. list.items ≡ otherwise
        (option_to_list (get_by_text named.now name.now) ++ matching_for schema.now matching.now name.now) rest) }
{
    let mut list = Vec::new(schema.alloc());
    if let Some(own) = named.get(name) {
        list.push(*own)?;
    }
    push_matching(schema, &mut list, matching, name)?;
    if list.is_empty() {
        if let Some(rest) = rest {
            list.push(rest)?;
        }
    }
    Ok(list)
}

/// Returns the subschemas that `Keyword::Properties` applies to an entry, or `Keyword::Items` to an element. The list
/// is empty for all other pairs of a keyword and a part.
#[tactic(auto, unfolding(crate::specs::Applied::schemas_for))]
pub(crate) fn schemas_for(
    schema: &Schema,
    keyword: &Keyword,
    part: Part<'_, '_>,
) -> Result<Vec<usize>, AllocError>
    ensures { IfOk result (λ list. list.items ≡ schemas_for schema.now keyword.now (part_of part.entry)) }
{
    let alloc = schema.alloc();
    match (keyword, part) {
        (Keyword::Items(prefix, rest), Part::Element(at, _)) => {
            let node = match prefix.get(at) {
                Some(own) => Some(*own),
                None => *rest,
            };
            let mut list = Vec::new(alloc);
            if let Some(node) = node {
                list.push(node)?;
            }
            Ok(list)
        }
        (Keyword::Properties(named, matching, rest), Part::Member(key, _)) => {
            let name = key.name.as_ref();
            for_entry(schema, named, matching.as_slice(), *rest, name)
        }
        _ => Ok(Vec::new(alloc)),
    }
}

/// Appends a pair of `part` and each of the subschemas `nodes`.
fn push_each<'v, 'de>(
    list: &mut Vec<(usize, Part<'v, 'de>)>,
    nodes: &[usize],
    part: Part<'v, 'de>,
) -> Result<(), AllocError>
    ensures { OnOk result (map applied_of list.new.items
        ≡ map applied_of list.old.items ++ each_to (part_of part.entry) nodes.now) }
{
    for node in nodes {
        list.push((*node, part))?;
    }
    Ok(())
}

/// Appends a pair of `node` and each of `parts`.
pub(crate) fn push_to_each<'v, 'de>(
    list: &mut Vec<(usize, Part<'v, 'de>)>,
    node: usize,
    parts: &[Part<'v, 'de>],
) -> Result<(), AllocError>
    ensures { OnOk result (map applied_of list.new.items
        ≡ map applied_of list.old.items ++ map (λ q. (node, q)) (map part_of parts.now)) }
{
    for part in parts {
        list.push((node, *part))?;
    }
    Ok(())
}

/// Returns the subschemas of those of `entries` whose keys are in a value.
fn dependents(
    alloc: Global,
    value: &Value<'_>,
    entries: &[(String, usize)],
) -> Result<Vec<usize>, AllocError>
    ensures { IfOk result (λ nodes. nodes.items ≡ dependents (view value.now) entries.now) }
{
    let mut nodes = Vec::new(alloc);
    for entry in entries {
        if has_key(value, entry.0.as_str()) {
            nodes.push(entry.1)?;
        }
    }
    Ok(nodes)
}

/// Appends pairs of each of `parts` and the subschemas that `Items` or `Properties` applies to it.
fn push_inside<'v, 'de>(
    list: &mut Vec<(usize, Part<'v, 'de>)>,
    schema: &Schema,
    keyword: &Keyword,
    parts: &[Part<'v, 'de>],
) -> Result<(), AllocError>
    ensures { OnOk result (map applied_of list.new.items
        ≡ map applied_of list.old.items ++ inside schema.now keyword.now (map part_of parts.now)) }
{
    let alloc = *list.allocator();
    for part in parts {
        let nodes = schemas_for(schema, keyword, *part)?;
        push_each(list, nodes.as_slice(), *part)?;
    }
    Ok(())
}

/// Returns what a keyword applies to which values: pairs of a subschema and either `part` itself or a value directly
/// inside it. The list is empty for `not`, `if`, `propertyNames`, `unevaluatedItems`, `unevaluatedProperties` and
/// keywords without subschemas.
#[tactic(auto, unfolding(crate::specs::Applied::applied))]
pub(crate) fn applied<'v, 'de>(
    schema: &Schema,
    keyword: &Keyword,
    part: Part<'v, 'de>,
) -> Result<Vec<(usize, Part<'v, 'de>)>, AllocError>
    ensures { IfOk result (λ list. map applied_of list.items ≡ applied schema.now keyword.now (part_of part.entry)) }
{
    let alloc = schema.alloc();
    let mut list = Vec::new(alloc);
    match keyword {
        Keyword::AllOf(nodes) | Keyword::AnyOf(nodes) | Keyword::OneOf(nodes) => {
            push_each(&mut list, nodes.as_slice(), part)?;
        }
        Keyword::DependentSchemas(entries) => {
            let nodes = dependents(alloc, part.value(), entries.as_slice())?;
            push_each(&mut list, nodes.as_slice(), part)?;
        }
        Keyword::Contains(node, _, _, _) => {
            let elements = parts_of_kind(alloc, part.value(), false)?;
            push_to_each(&mut list, *node, elements.as_slice())?;
        }
        Keyword::Items(_, _) | Keyword::Properties(_, _, _) => {
            let inner = parts(alloc, part.value())?;
            push_inside(&mut list, schema, keyword, inner.as_slice())?;
        }
        _ => {}
    }
    Ok(list)
}

/// Returns the keys of a table as strings, with their spans. The list is empty if the value is not a table.
pub(crate) fn names<'v>(alloc: Global, value: &'v Value<'_>) -> Result<Vec<Value<'v>>, AllocError>
    ensures { IfOk result (λ list. map view list.items ≡ names_of (view value.now)) }
{
    let mut list = Vec::new(alloc);
    let Some(table) = value.as_table() else {
        return Ok(list);
    };
    for (key, _value) in table.iter() {
        let name = ValueInner::String(CowStr::Borrowed(key.name.as_ref()));
        list.push(Value::with_span(name, key.span))?;
    }
    Ok(list)
}

/// Returns whether a value is a table with this key.
pub(crate) fn has_key(value: &Value<'_>, name: &str) -> bool
    ensures { result ≡ has_key (view value.now) name.now }
{
    let Some(table) = value.as_table() else {
        return false;
    };
    for (key, _value) in table.iter() {
        if key.name.as_ref() == name {
            return true;
        }
    }
    false
}
