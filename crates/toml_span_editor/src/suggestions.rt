//! Suggests keys, tables and values according to a schema.
ghost use Rattle.std.specs.Prelude.{◌≡◌, IfOk, IfSome};
ghost use Rattle.toml_span_editor.specs.Completions.{Replace};

use crate::completion::{
    Completion, Outer, Site, Suggestion, SuggestionKind, last_element, narrowed,
};
use crate::context::ExpectedText;
use crate::keys::{child, has_key};
use crate::schemas::{default_of, documentation, is_deprecated, listed_values};
use crate::snippets::{OUTSIDE, push_place, push_text};
use crate::spans::touches;
use std::alloc::{AllocError, Global};
use toml_span::Value;
use toml_span::value::Step;
use toml_span_places::{TableForm, quote_key};
use toml_span_schema::{Guide, Kinds, Subschemas};

/// Returns whether `=` or a period follows a key. `rest` is the text after the key and after blanks.
pub(crate) fn is_assigned(rest: &str) -> bool {
    rest.starts_with('=') || rest.starts_with('.')
}

/// Returns the detail of a key: the kinds of its values, and `required` if `is_required`, as in `string or table,
/// required`.
fn detail_of(alloc: Global, kinds: Kinds, is_required: bool) -> Result<String, AllocError> {
    let named = [
        (kinds.string, "string"),
        (kinds.integer, "integer"),
        (kinds.float, "float"),
        (kinds.boolean, "boolean"),
        (kinds.table, "table"),
        (kinds.array, "array"),
    ];
    let mut out = String::new(alloc);
    for (is_named, name) in named {
        if is_named {
            out.push_str(if out.is_empty() { "" } else { " or " })?;
            out.push_str(name)?;
        }
    }
    if is_required {
        out.push_str(if out.is_empty() { "" } else { ", " })?;
        out.push_str("required")?;
    }
    Ok(out)
}

/// Appends what follows a key at the end of a header: the closing brackets that are not there already.
fn push_closing(out: &mut String, site: Site<'_>) -> Result<(), AllocError> {
    let needed = match site.expected {
        ExpectedText::TableInArray => 2,
        _ => 1,
    };
    for at in 0..needed {
        if site.rest.as_bytes().get(at) != Some(&b']') {
            out.push(']')?;
        }
    }
    Ok(())
}

/// Returns the kinds that the first element of an array can have. `inner` are the subschemas for the array.
fn element_kinds(alloc: Global, guide: &Guide, inner: &Subschemas) -> Result<Kinds, AllocError> {
    let elements = guide.subschemas_inside(alloc, inner, Step::Position(0), None)?;
    Ok(guide.kinds_of(&elements))
}

/// Returns whether the key of a value can be written as a whole key or at the end of a header. `inner` are the
/// subschemas for the value. In a header, they must allow a table or, in double brackets, an array of tables.
fn can_end(
    alloc: Global,
    guide: &Guide,
    inner: &Subschemas,
    expected: ExpectedText,
) -> Result<bool, AllocError> {
    let kinds = guide.kinds_of(inner);
    match expected {
        ExpectedText::Table => Ok(kinds.table),
        ExpectedText::TableInArray => Ok(kinds.array && element_kinds(alloc, guide, inner)?.table),
        _ => Ok(true),
    }
}

/// Returns whether `table`, the subschemas for a table, name a key whose value can be a table or an array of tables.
fn has_tables(alloc: Global, guide: &Guide, table: &Subschemas) -> Result<bool, AllocError> {
    for name in guide.keys_of(alloc, table)? {
        let inner = guide.subschemas_inside(alloc, table, Step::Key(name), None)?;
        let kinds = guide.kinds_of(&inner);
        if kinds.table || (kinds.array && element_kinds(alloc, guide, &inner)?.table) {
            return Ok(true);
        }
    }
    Ok(false)
}

/// Returns whether a header that can't end after the key `name` of the table `outer` can go on after it: into a table
/// that the document has or that a header in double brackets may define, or into the last table of an array of tables
/// before the header. `inner` are the subschemas for the value of the key, and `value` is the value in the document.
/// Such a table must have keys that are tables.
fn can_go_on(
    alloc: Global,
    guide: &Guide,
    inner: &Subschemas,
    value: Option<&Value<'_>>,
    outer: Outer<'_, '_, '_, '_>,
    name: &str,
    site: Site<'_>,
) -> Result<bool, AllocError> {
    let Some(value) = value else {
        let is_open = site.expected == ExpectedText::TableInArray || site.rest.starts_with('.');
        return Ok(is_open && has_tables(alloc, guide, inner)?);
    };
    if value.as_table().is_some() {
        return has_tables(alloc, guide, inner);
    }
    let mut path = Vec::new(alloc);
    path.extend_from_slice(outer.steps)?;
    path.push(Step::Key(name))?;
    match last_element(outer.tables, path.as_slice(), site.at) {
        Some(last) => {
            let element = child(value, Step::Position(last));
            let inside = guide.subschemas_inside(alloc, inner, Step::Position(last), element)?;
            has_tables(alloc, guide, &inside)
        }
        None => Ok(false),
    }
}

/// Returns whether `path` is the path of the table `outer` followed by the key `name` and, if `is_element` is set, by a
/// position.
fn is_below(path: &[Step<'_>], outer: Outer<'_, '_, '_, '_>, name: &str, is_element: bool) -> bool {
    let path = match path {
        [front @ .., Step::Position(_)] if is_element => front,
        _ => path,
    };
    match path {
        [front @ .., Step::Key(last)] => *last == name && front == outer.steps,
        _ => false,
    }
}

/// Returns whether a header at the cursor can define the key `name` of the table `outer`, whose value in the document
/// is `value`. It can if there is no value. In single brackets, it can also if only headers of tables inside the table
/// name it, and in double brackets if headers in double brackets do.
fn is_free(
    outer: Outer<'_, '_, '_, '_>,
    name: &str,
    value: Option<&Value<'_>>,
    site: Site<'_>,
) -> bool {
    let is_element = site.expected == ExpectedText::TableInArray;
    let mut is_named = false;
    for table in outer.tables {
        if is_below(table.path.as_slice(), outer, name, is_element) {
            is_named = true;
            let is_compatible = match table.form {
                TableForm::Element => is_element,
                TableForm::Passed => true,
                TableForm::Header => touches(table.span, site.at),
                TableForm::Dotted | TableForm::Inline => false,
            };
            if !is_compatible {
                return false;
            }
        }
    }
    value.is_none() || is_named
}

/// Returns a name for a table inside `value` that `value` does not have yet.
fn new_name(value: Option<&Value<'_>>) -> &'static str {
    for name in ["name", "table", "key"] {
        if !has_key(value, name) {
            return name;
        }
    }
    "new"
}

/// Appends to a key what follows it: `=` or, in a header, the closing brackets or, if `next` is not `None`, a period.
/// Returns a snippet to use in place of the text if a value or another key must follow. `next` is the placeholder for
/// this other key.
fn with_rest(
    alloc: Global,
    guide: &Guide,
    inner: &Subschemas,
    site: Site<'_>,
    text: &mut String,
    next: Option<&str>,
) -> Result<Option<String>, AllocError> {
    if site.expected == ExpectedText::Key {
        text.push_str(" = ")?;
        let values = listed_values(alloc, guide, inner)?;
        let default = default_of(alloc, guide, inner)?;
        let default = default.as_ref().map(|default| default.as_str());
        let kinds = guide.kinds_of(inner);
        let values = values.as_slice();
        return Ok(Some(snippet_of(alloc, text.as_str(), kinds, values, default, site)?));
    }
    let Some(name) = next else {
        push_closing(text, site)?;
        return Ok(None);
    };
    text.push('.')?;
    let mut snippet = String::new(alloc);
    push_text(&mut snippet, text.as_str(), OUTSIDE)?;
    snippet.push_str("${1:")?;
    snippet.push_str(name)?;
    snippet.push('}')?;
    push_closing(&mut snippet, site)?;
    Ok(Some(snippet))
}

/// Returns the suggestion of the key `name`. `inner` are the subschemas for the value of the key. `next` is `None` if a
/// header can end after the key, and otherwise a placeholder for the key that follows.
fn key_suggestion(
    alloc: Global,
    guide: &Guide,
    inner: &Subschemas,
    site: Site<'_>,
    name: &str,
    is_required: bool,
    next: Option<&str>,
) -> Result<Suggestion, AllocError>
    ensures { IfOk result (λ suggestion. suggestion.span ≡ site.entry.typed) }
{
    let kinds = guide.kinds_of(inner);
    let mut text = quote_key(alloc, name)?;
    let label = text.clone()?;
    let mut snippet = None;
    if !is_assigned(site.rest) {
        snippet = with_rest(alloc, guide, inner, site, &mut text, next)?;
    }
    Ok(Suggestion {
        kind: if site.expected == ExpectedText::Key {
            SuggestionKind::Key
        } else {
            SuggestionKind::Table
        },
        label,
        detail: detail_of(alloc, kinds, is_required)?,
        documentation: documentation(alloc, guide, inner, true, true)?,
        is_required,
        is_deprecated: is_deprecated(alloc, guide, inner)?,
        span: site.typed,
        text,
        snippet,
    })
}

/// Returns a snippet: the text `front`, the placeholder for a value that `push_place` appends, and a comma if another
/// pair follows.
pub(crate) fn snippet_of(
    alloc: Global,
    front: &str,
    kinds: Kinds,
    values: &[String],
    default: Option<&str>,
    site: Site<'_>,
) -> Result<String, AllocError> {
    let mut borrowed = Vec::new(alloc);
    for value in values {
        borrowed.push(value.as_str())?;
    }
    let mut out = String::new(alloc);
    push_text(&mut out, front, OUTSIDE)?;
    push_place(&mut out, kinds, borrowed.as_slice(), default)?;
    if site.is_followed {
        out.push(',')?;
    }
    Ok(out)
}

/// Returns the names of the keys that `table`, the subschemas for the table `outer`, names. Leaves out keys that the
/// table has, unless they are for a header.
fn new_names<'s>(
    alloc: Global,
    guide: &'s Guide,
    table: &Subschemas,
    outer: Outer<'_, '_, '_, '_>,
    site: Site<'_>,
) -> Result<Vec<&'s str>, AllocError> {
    let mut names = Vec::new(alloc);
    for name in guide.keys_of(alloc, table)? {
        if site.expected != ExpectedText::Key || !outer.has(name) {
            names.push(name)?;
        }
    }
    Ok(names)
}

/// Returns suggestions of keys for the table `outer`. `table` are the subschemas for the table. Leaves out keys that
/// are not possible in a header (see `can_end`, `is_free` and `can_go_on`) and, for an assignment, keys that the table
/// has.
pub(crate) fn key_suggestions(
    alloc: Global,
    guide: &Guide,
    table: &Subschemas,
    outer: Outer<'_, '_, '_, '_>,
    site: Site<'_>,
) -> Result<Completion, AllocError> {
    let names = new_names(alloc, guide, table, outer, site)?;
    let (names, is_incomplete) = narrowed(alloc, names, site)?;
    let mut suggestions = Vec::new(alloc);
    for name in names {
        let value = match outer.own {
            Some(own) => child(own, Step::Key(name)),
            None => None,
        };
        let inner = guide.subschemas_inside(alloc, table, Step::Key(name), value)?;
        let ends = site.expected == ExpectedText::Key
            || !site.rest.starts_with('.')
                && can_end(alloc, guide, &inner, site.expected)?
                && is_free(outer, name, value, site);
        if ends || can_go_on(alloc, guide, &inner, value, outer, name, site)? {
            let is_required = guide.is_required(table, name);
            let next = if ends { None } else { Some(new_name(value)) };
            let one = key_suggestion(alloc, guide, &inner, site, name, is_required, next)?;
            suggestions.push(one)?;
        }
    }
    Ok(Completion {
        suggestions,
        is_incomplete,
    })
}

/// Appends a literal, unless it is in the list already.
fn push_literal<'l>(literals: &mut Vec<&'l str>, literal: &'l str) -> Result<(), AllocError> {
    if !literals.iter().any(|other| *other == literal) {
        literals.push(literal)?;
    }
    Ok(())
}

/// Returns the suggestion of the value `literal`. A blank comes before it if it is written directly after `=`, and a
/// comma after it if another element follows.
pub(crate) fn value_suggestion(
    alloc: Global,
    site: Site<'_>,
    literal: &str,
    detail: &str,
) -> Result<Suggestion, AllocError>
    ensures { IfOk result (λ suggestion. suggestion.span ≡ site.entry.typed) }
{
    let mut text = String::from_str(alloc, if site.is_tight { " " } else { "" })?;
    text.push_str(literal)?;
    if site.is_followed {
        text.push(',')?;
    }
    Ok(Suggestion {
        kind: SuggestionKind::Value,
        label: String::from_str(alloc, literal)?,
        detail: String::from_str(alloc, detail)?,
        documentation: String::new(alloc),
        is_required: false,
        is_deprecated: false,
        span: site.typed,
        text,
        snippet: None,
    })
}

/// Returns suggestions of these values, one of which may be the default.
#[tactic(auto, using(crate::proofs::SuggestionLemmas::replace_push))]
fn listed_suggestions<'l>(
    alloc: Global,
    literals: Vec<&'l str>,
    default: Option<&'l str>,
    site: Site<'_>,
) -> Result<Completion, AllocError>
    ensures { IfOk result (λ made. Replace site.entry.typed made.suggestions.items) }
{
    let (literals, is_incomplete) = narrowed(alloc, literals, site)?;
    let mut suggestions = Vec::new(alloc);
    for literal in literals {
        let detail = if default == Some(literal) {
            "default"
        } else {
            ""
        };
        let one = value_suggestion(alloc, site, literal, detail)?;
        suggestions.push(one)?;
    }
    Ok(Completion {
        suggestions,
        is_incomplete,
    })
}

/// Returns suggestions of values: the default, the values of `enum` and `const`, and the booleans if they are allowed.
/// `inner` are the subschemas for the value. Returns `None` if there is no value to suggest and `inner` does not
/// restrict the kind of the value.
pub(crate) fn value_suggestions(
    alloc: Global,
    guide: &Guide,
    inner: &Subschemas,
    site: Site<'_>,
) -> Result<Option<Completion>, AllocError>
    ensures { IfOk result (λ found. IfSome found (λ made. Replace site.entry.typed made.suggestions.items)) }
{
    let kinds = guide.kinds_of(inner);
    let default = default_of(alloc, guide, inner)?;
    let default = default.as_ref().map(|default| default.as_str());
    let values = listed_values(alloc, guide, inner)?;
    let mut literals = Vec::new(alloc);
    if let Some(literal) = default {
        literals.push(literal)?;
    }
    for value in &values {
        push_literal(&mut literals, value.as_str())?;
    }
    if kinds.boolean {
        push_literal(&mut literals, "true")?;
        push_literal(&mut literals, "false")?;
    }
    if literals.is_empty() && kinds.is_empty() {
        return Ok(None);
    }
    let made = listed_suggestions(alloc, literals, default, site)?;
    Ok(Some(made))
}
