//! Lists each place where a text names a table or a value. The modules `keys`, `tables` and `sections` pick their
//! places from this list.
ghost use Rattle.std.specs.Prelude.{◌≡◌, ◌++◌, ◌∷◌, [], IfOk, OnOk, map};
ghost use Rattle.toml_span_read.specs.Data.{parsed_section, parsed_value, parsed_assignment, onto, no_items};
ghost use Rattle.toml_span_read.specs.Data.{pairs_onto, no_pairs, simple_key};
ghost use Rattle.toml_span_tree.specs.Nodes.{step_of};
ghost use Rattle.toml_span_read.specs.Paths.{target};
ghost use Rattle.toml_span_places.specs.Mentions as spec;
ghost use Rattle.toml_span_places.specs.Mentions.{below, mentioned, steps_of};
ghost use Rattle.toml_span_places.specs.code.Opened.{counts_of, counts_after};

use crate::keys::Role;
use crate::opened::{ElementCounts, elements_of, section_path};
use crate::paths::{copied, element_path, entered, latest, with_key};
use crate::tables::TableForm;
use std::alloc::{AllocError, Global};
use toml_span_lex::key::Key;
use toml_span_lex::span::Span;
use toml_span_read::{Assignment, Section, Val, ValKind};
use toml_span_tree::nodes::Step;

/// A mention, without its path.
#[derive(Clone, Copy)]
pub(crate) struct Details {
    /// If the mention names an element of an array of tables, the position of that element. The path of the mention
    /// then leads to the array.
    pub element: Option<usize>,
    /// Where the key occurs. `None` for the root and for the braces of an inline table, which have no key.
    pub role: Option<Role>,
    /// How the mention names a table. `None` for the root, and for a key to which a value is assigned.
    pub form: Option<TableForm>,
    /// The bytes of the key without its quotes; for an empty key, its opening quote. Without a key, the same as `span`.
    pub key: Span,
    /// The line of the header; the assignment, from its key to the end of its value; or the inline table with its
    /// braces. 0..0 for the root.
    pub span: Span,
    /// The section, for a mention in a header and for the root. Otherwise the same as `span`.
    pub extent: Span,
}

/// A place in the text that names a table or a value.
#[derive(Drop)]
pub(crate) struct Mention<'t> {
    /// The path from the root to what the mention names or, for an element of an array of tables, to the array.
    pub path: Vec<Step<'t>>,
    pub details: Details,
}

/// Appends to `out` a mention with `details` and a copy of `path`.
fn push<'t>(
    alloc: Global,
    path: &[Step<'t>],
    details: Details,
    out: &mut Vec<Mention<'t>>,
) -> Result<(), AllocError>
    ensures { OnOk result (map mentioned out.new.items ≡ map mentioned out.old.items
        ++ ((map step_of path.now, details) ∷ [])) }
{
    let path = copied(alloc, path)?;
    out.push(Mention { path, details })?;
    Ok(())
}

/// Returns the details of a mention in the header of `section` or, without a header, of the root.
fn by_header(
    section: &Section<'_>,
    element: Option<usize>,
    role: Option<Role>,
    form: Option<TableForm>,
    key: Span,
) -> Details
    ensures { result ≡ spec.by_header (parsed_section section.now) element role form key }
{
    Details {
        element,
        role,
        form,
        key,
        span: section.header_span,
        extent: section.extent,
    }
}

/// Returns the details of a mention by a key of an assignment, or by the braces of an inline table. `span` is the span
/// of the assignment or of the braces.
fn by_value(role: Option<Role>, form: Option<TableForm>, key: Span, span: Span) -> Details
    ensures { result ≡ spec.by_value role form key span }
{
    Details {
        element: None,
        role,
        form,
        key,
        span,
        extent: span,
    }
}

/// Appends to `out` the mention by `key`, the last part of the header of `section`. `path` is the path that the header
/// names, and `opened` counts the elements that earlier headers added to arrays of tables.
fn push_last<'t, 'de>(
    alloc: Global,
    section: &Section<'_>,
    key: &Key<'de>,
    opened: &ElementCounts<'t>,
    path: &[Step<'t>],
    out: &mut Vec<Mention<'t>>,
) -> Result<(), AllocError>
    ensures { OnOk result (map mentioned out.new.items ≡ map mentioned out.old.items
        ++
        (spec.last_mention (counts_of opened.now) (parsed_section section.now) (map step_of path.now)
        (simple_key key.now)
        ∷ [])) }
{
    let role = Some(Role::HeaderLast);
    if !section.array {
        let details = by_header(section, None, role, Some(TableForm::Header), key.span);
        return push(alloc, path, details, out);
    }
    let position = elements_of(alloc, opened, path)?;
    let details = by_header(
        section,
        Some(position),
        role,
        Some(TableForm::Element),
        key.span,
    );
    push(alloc, path, details, out)
}

/// Appends to `out` a mention for each of `parts`, the parts of the header of `section` that come after those in
/// `path`. Without a header, appends the mention of the root. Returns the path that the header names. `opened` counts
/// the elements that earlier headers added to arrays of tables.
fn push_header<'t, 'de>(
    alloc: Global,
    section: &Section<'_>,
    parts: &'t [Key<'de>],
    opened: &ElementCounts<'t>,
    path: Vec<Step<'t>>,
    out: &mut Vec<Mention<'t>>,
) -> Result<Vec<Step<'t>>, AllocError>
    ensures mentions { OnOk result (map mentioned out.new.items ≡ map mentioned out.old.items
        ++ spec.header_mentions (counts_of opened.now) (parsed_section section.now) (steps_of path.entry)
        (map simple_key parts.now)) }
    ensures path { IfOk result (λ path_below. steps_of path_below ≡ target (counts_of opened.now)
        (steps_of path.entry) (map simple_key parts.now)) }
{
    let [key, rest @ ..] = parts else {
        let details = by_header(section, None, None, None, section.header_span);
        push(alloc, path.as_slice(), details, out)?;
        return Ok(path);
    };
    let path_below = with_key(path, key)?;
    if rest.is_empty() {
        push_last(alloc, section, key, opened, path_below.as_slice(), out)?;
        return Ok(path_below);
    }
    let element = latest(alloc, opened, path_below.as_slice())?;
    let role = Some(Role::Header);
    let details = by_header(section, element, role, Some(TableForm::Passed), key.span);
    push(alloc, path_below.as_slice(), details, out)?;
    let inside = entered(path_below, element)?;
    push_header(alloc, section, rest, opened, inside, out)
}

/// Appends to `out` a mention for each part of an assignment's key that comes after those in `path`: the parts `inner`
/// and `last`. Returns the path that the key names. `extent` is the span of the assignment.
fn push_parts<'t, 'de>(
    alloc: Global,
    extent: Span,
    inner: &'t [Key<'de>],
    last: &'t Key<'de>,
    path: Vec<Step<'t>>,
    out: &mut Vec<Mention<'t>>,
) -> Result<Vec<Step<'t>>, AllocError>
    ensures mentions { OnOk result (map mentioned out.new.items ≡ map mentioned out.old.items
        ++ spec.parts_mentions extent (steps_of path.entry)
        (map simple_key inner.now ++ (simple_key last.now ∷ []))) }
    ensures path { IfOk result (λ path_below. steps_of path_below
        ≡ below (steps_of path.entry) (map simple_key inner.now ++ (simple_key last.now ∷ []))) }
{
    let [key, rest @ ..] = inner else {
        let path_below = with_key(path, last)?;
        let details = by_value(Some(Role::Last), None, last.span, extent);
        push(alloc, path_below.as_slice(), details, out)?;
        return Ok(path_below);
    };
    let path_below = with_key(path, key)?;
    let form = Some(TableForm::Dotted);
    let details = by_value(Some(Role::Dotted), form, key.span, extent);
    push(alloc, path_below.as_slice(), details, out)?;
    push_parts(alloc, extent, rest, last, path_below, out)
}

/// Appends to `out` the mentions in `pairs`, assignments of the table at `path`.
#[cycle(push_value)]
fn push_pairs<'t, 'de>(
    alloc: Global,
    pairs: &'t [Assignment<'de>],
    path: &[Step<'t>],
    out: &mut Vec<Mention<'t>>,
) -> Result<(), AllocError>
    ensures { OnOk result (map mentioned out.new.items ≡ map mentioned out.old.items
        ++ spec.pair_mentions (map step_of path.now) (pairs_onto (map parsed_assignment pairs.now) no_pairs)) }
{
    for pair in pairs {
        push_pair(alloc, pair, path, out)?;
    }
    Ok(())
}

/// Appends to `out` the mentions by the key and in the value of `pair`, an assignment of the table at `path`.
#[cycle(push_value)]
fn push_pair<'t, 'de>(
    alloc: Global,
    pair: &'t Assignment<'de>,
    path: &[Step<'t>],
    out: &mut Vec<Mention<'t>>,
) -> Result<(), AllocError>
    ensures { OnOk result (map mentioned out.new.items ≡ map mentioned out.old.items
        ++
        (spec.parts_mentions (parsed_assignment pair.now).extent (map step_of path.now)
        (parsed_assignment pair.now).parts
        ++ spec.value_mentions (below (map step_of path.now) (parsed_assignment pair.now).parts)
        (parsed_assignment pair.now).value)) }
{
    let start = copied(alloc, path)?;
    let inner = pair.parts.inner.as_slice();
    let path_below = push_parts(alloc, pair.extent, inner, &pair.parts.last, start, out)?;
    push_value(alloc, &pair.value, path_below.as_slice(), out)
}

/// Appends to `out` the mentions in `value`, which is at `path`.
#[cycle(push_value)]
fn push_value<'t, 'de>(
    alloc: Global,
    value: &'t Val<'de>,
    path: &[Step<'t>],
    out: &mut Vec<Mention<'t>>,
) -> Result<(), AllocError>
    ensures { OnOk result (map mentioned out.new.items ≡ map mentioned out.old.items
        ++ spec.value_mentions (map step_of path.now) (parsed_value value.now)) }
{
    match &value.kind {
        ValKind::Array(items) => push_items(alloc, items.as_slice(), path, out),
        ValKind::Inline(pairs) => {
            let details = by_value(None, Some(TableForm::Inline), value.span, value.span);
            push(alloc, path, details, out)?;
            push_pairs(alloc, pairs.as_slice(), path, out)
        }
        ValKind::String(_)
        | ValKind::Integer(_)
        | ValKind::Float(_)
        | ValKind::Boolean(_)
        | ValKind::Datetime(_) => Ok(()),
    }
}

/// Appends to `out` the mentions in `items`, the elements of the array at `path`.
#[cycle(push_value)]
fn push_items<'t, 'de>(
    alloc: Global,
    items: &'t [Val<'de>],
    path: &[Step<'t>],
    out: &mut Vec<Mention<'t>>,
) -> Result<(), AllocError>
    ensures { OnOk result (map mentioned out.new.items ≡ map mentioned out.old.items
        ++ spec.item_mentions (map step_of path.now) 0 (onto (map parsed_value items.now) no_items)) }
{
    for (position, item) in items.iter().enumerate() {
        let element = element_path(alloc, path, position)?;
        push_value(alloc, item, element.as_slice(), out)?;
    }
    Ok(())
}

/// Appends to `out` the mentions in the header of `section` and, if `with_assignments`, in its assignments. Counts in
/// `opened` the element that a header with double brackets adds.
fn push_section<'t, 'de>(
    alloc: Global,
    section: &'t Section<'de>,
    with_assignments: bool,
    opened: &mut ElementCounts<'t>,
    out: &mut Vec<Mention<'t>>,
) -> Result<(), AllocError>
    ensures mentions { OnOk result (map mentioned out.new.items ≡ map mentioned out.old.items
        ++ spec.section_mentions with_assignments (counts_of opened.old) (parsed_section section.now)) }
    ensures opened { OnOk result (counts_of opened.new
        ≡ counts_after (counts_of opened.old) (parsed_section section.now)) }
{
    let root = Vec::new(alloc);
    let header = push_header(alloc, section, section.header.as_slice(), opened, root, out)?;
    let path_below = section_path(alloc, section.array, header, opened)?;
    if !with_assignments {
        return Ok(());
    }
    push_pairs(
        alloc,
        section.assignments.as_slice(),
        path_below.as_slice(),
        out,
    )
}

/// Lists the mentions in the headers of `sections` and, if `with_assignments`, in their assignments, in the order of
/// the text.
pub(crate) fn mentions<'t, 'de>(
    alloc: Global,
    sections: &'t [Section<'de>],
    with_assignments: bool,
) -> Result<Vec<Mention<'t>>, AllocError>
    ensures { IfOk result (λ list. map mentioned list.items
        ≡ spec.mentions with_assignments (map parsed_section sections.now)) }
{
    let mut opened = ElementCounts::new(alloc);
    let mut out = Vec::new(alloc);
    for section in sections {
        push_section(alloc, section, with_assignments, &mut opened, &mut out)?;
    }
    Ok(out)
}
