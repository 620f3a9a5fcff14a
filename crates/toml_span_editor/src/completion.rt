//! Suggests what can be written at an offset.
ghost use Rattle.std.specs.Prelude.{◌≡◌, ◌≤◌, IfOk, false, length};

use crate::context::{Context, ExpectedText, NamedStep, context_at};
use crate::document::{Document, read};
use crate::keys::{has_key, value_of};
use crate::schemas::{has_text, subschemas_at};
use crate::siblings::{booleans, sibling_keys};
use crate::suggestions::{key_suggestions, value_suggestions};
use crate::syntax::Syntax;
use std::alloc::{AllocError, Global};
use toml_span::Value;
use toml_span::value::Step;
use toml_span_lex::span::Span;
use toml_span_places::{TableForm, TablePlace, section_places, table_places};
use toml_span_schema::Guide;

/// The maximum number of suggestions.
const MOST: usize = 500;

/// The kind of a suggestion.
#[derive(Clone, Copy)]
pub enum SuggestionKind {
    Key,
    /// The name of a table, in a header.
    Table,
    Value,
}

/// A key, table or value that can be written at an offset.
#[derive(Drop)]
pub struct Suggestion {
    pub kind: SuggestionKind,
    /// The key or value as TOML.
    pub label: String,
    /// For a key or table, the kinds of its values, as in `string or table, required`. For a value, `default` if it is
    /// the default. May be empty.
    pub detail: String,
    /// The schema's documentation of a key or table, in Markdown. Empty for a value, and if there is none.
    pub documentation: String,
    pub is_required: bool,
    pub is_deprecated: bool,
    /// The span that the suggestion replaces.
    pub span: Span,
    /// The text that replaces `span`.
    pub text: String,
    /// An LSP snippet to use in place of `text`, if there is one: for a new key, `=` and a placeholder for the value
    /// follow.
    pub snippet: Option<String>,
}

/// What can be written at an offset.
#[derive(Drop)]
pub struct Completion {
    pub suggestions: Vec<Suggestion>,
    /// Whether suggestions are left out because there are too many. Others may be listed if more is typed.
    pub is_incomplete: bool,
}

/// The place for which suggestions are made.
#[derive(Clone, Copy)]
pub(crate) struct Site<'t> {
    pub(crate) expected: ExpectedText,
    /// The span that a suggestion replaces.
    pub(crate) typed: Span,
    /// The part of the replaced text that is before the cursor, without quotes.
    pub(crate) front: &'t str,
    /// The text from the first character after `typed` that is not a blank.
    pub(crate) rest: &'t str,
    /// Whether a value is expected directly after `=`.
    pub(crate) is_tight: bool,
    /// Whether another element or pair follows, from which a comma must separate what is written.
    pub(crate) is_followed: bool,
    /// Whether the replaced text has only letters, or is empty.
    pub(crate) is_word: bool,
    /// The offset of the cursor.
    pub(crate) at: usize,
}

/// The table that a key belongs to.
#[derive(Clone, Copy)]
pub(crate) struct Outer<'d, 's, 'p, 't> {
    pub(crate) document: &'d Document<'t>,
    /// The path of the table.
    pub(crate) steps: &'s [Step<'p>],
    /// The table, if the document has it.
    pub(crate) own: Option<&'d Value<'t>>,
    /// Where the document names tables. Empty unless the key is in a header.
    pub(crate) tables: &'s [TablePlace<'p>],
    /// The names of keys that an inline table has, whether or not it can be read.
    pub(crate) written: &'s [String],
}

impl Outer<'_, '_, '_, '_> {
    /// Returns whether the table has the key `name`, whether or not it can be read.
    pub(crate) fn has(self, name: &str) -> bool {
        has_key(self.own, name) || has_text(self.written, name)
    }
}

/// Returns whether `label` has the bytes of `front` in order, in either case, with others between them.
fn is_matched(front: &str, label: &str) -> bool {
    let mut left = front.as_bytes();
    for byte in label.bytes() {
        left = match left {
            [first, rest @ ..] if first.eq_ignore_ascii_case(&byte) => rest,
            _ => left,
        };
    }
    left.is_empty()
}

/// Returns the labels of the suggestions to list, and whether others are left out: if there are more than `MOST`, those
/// that have the characters before the cursor in order, and at most `MOST` of them.
pub(crate) fn narrowed<'n>(
    alloc: Global,
    labels: Vec<&'n str>,
    site: Site<'_>,
) -> Result<(Vec<&'n str>, bool), AllocError>
    ensures { length labels.entry.items ≤ 500 → IfOk result (λ kept. kept ≡ (labels.entry, false)) }
{
    if labels.len() <= MOST {
        return Ok((labels, false));
    }
    let mut kept = Vec::new(alloc);
    for label in labels {
        if kept.len() < MOST && is_matched(site.front, label) {
            kept.push(label)?;
        }
    }
    Ok((kept, true))
}

/// Returns whether a part of a header is expected.
fn is_header(expected: ExpectedText) -> bool {
    matches!(expected, ExpectedText::Table | ExpectedText::TableInArray)
}

/// Returns the place for which suggestions are made at the offset `at`. Returns `None` if nothing can be written there.
fn site_of<'t>(text: &'t str, context: &Context<'t>, at: usize) -> Option<Site<'t>> {
    let typed = context.typed;
    let is_new = typed.start == typed.end;
    let may_be_added = match context.rest.as_bytes().first() {
        None | Some(b'\n' | b'\r' | b'#' | b',' | b']' | b'}' | b'=') => true,
        Some(b'.') => is_header(context.expected),
        _ => context.is_followed,
    };
    if context.expected == ExpectedText::Other || (is_new && !may_be_added) {
        return None;
    }
    if typed.start > at || typed.start > typed.end {
        return None;
    }
    let front = text.get(typed.start..at)?;
    let replaced = text.get(typed.start..typed.end)?;
    Some(Site {
        expected: context.expected,
        typed,
        front: front.trim_start_matches(['"', '\'']),
        rest: context.rest,
        is_tight: is_new && text.get(..at)?.ends_with('='),
        is_followed: context.is_followed,
        is_word: replaced.chars().all(|c| c.is_ascii_alphabetic()),
        at,
    })
}

/// Returns the path of the table to which an assignment at the offset `at` belongs. The path is that of the last header
/// before `at`, or empty before the first header.
fn table_path<'d>(
    alloc: Global,
    document: &'d Document<'_>,
    at: usize,
) -> Result<Vec<Step<'d>>, AllocError> {
    let mut path = Vec::new(alloc);
    for section in section_places(alloc, document.text, document.sections.as_slice())? {
        if section.header.end <= at && section.header.start < section.header.end {
            path = section.path;
        }
    }
    Ok(path)
}

/// Appends a step to `steps`.
fn push_step<'p>(step: &'p NamedStep, steps: &mut Vec<Step<'p>>) -> Result<(), AllocError> {
    steps.push(match step {
        NamedStep::Key(name) => Step::Key(name.as_str()),
        NamedStep::Position(at) => Step::Position(*at),
    })?;
    Ok(())
}

/// Returns the position of the last table that a header in double brackets before the offset `at` adds to the array at
/// a path, or `None` if there is none.
pub(crate) fn last_element(
    tables: &[TablePlace<'_>],
    path: &[Step<'_>],
    at: usize,
) -> Option<usize> {
    let mut found = None;
    for table in tables {
        if let [front @ .., Step::Position(position)] = table.path.as_slice() {
            if table.form == TableForm::Element && table.span.end <= at && front == path {
                found = Some(*position);
            }
        }
    }
    found
}

/// Returns the path for `front`, the first parts of a header at the offset `at`. After each part that leads to an array
/// of tables, adds the position of the array's last table before the header.
fn header_steps<'p>(
    alloc: Global,
    tables: &[TablePlace<'_>],
    front: &'p [NamedStep],
    at: usize,
) -> Result<Vec<Step<'p>>, AllocError> {
    let mut steps = Vec::new(alloc);
    for step in front {
        push_step(step, &mut steps)?;
        if let Some(last) = last_element(tables, steps.as_slice(), at) {
            steps.push(Step::Position(last))?;
        }
    }
    Ok(steps)
}

/// Returns the table at the path `steps`.
fn outer_of<'d, 's, 'p, 't>(
    document: &'d Document<'t>,
    steps: &'s [Step<'p>],
    tables: &'s [TablePlace<'p>],
    written: &'s [String],
) -> Outer<'d, 's, 'p, 't> {
    Outer {
        document,
        steps,
        own: value_of(&document.root, steps),
        tables,
        written,
    }
}

/// Returns what can be written at `site`, in the table `outer` (see `completion_at`): the suggestions of the schema
/// `guide` or, if there is nothing to suggest and the schema does not restrict the kind of a value, those without a
/// schema.
fn completed(
    alloc: Global,
    guide: Option<&Guide>,
    outer: Outer<'_, '_, '_, '_>,
    site: Site<'_>,
) -> Result<Completion, AllocError> {
    if let Some(guide) = guide {
        let found = subschemas_at(alloc, guide, &outer.document.root, outer.steps)?;
        if site.expected == ExpectedText::Value {
            if let Some(made) = value_suggestions(alloc, guide, &found, site)? {
                return Ok(made);
            }
        } else {
            let made = key_suggestions(alloc, guide, &found, outer, site)?;
            if !made.suggestions.is_empty() {
                return Ok(made);
            }
        }
    }
    let suggestions = match site.expected {
        ExpectedText::Key => sibling_keys(alloc, outer, site)?,
        ExpectedText::Value => booleans(alloc, site)?,
        _ => Vec::new(alloc),
    };
    Ok(Completion {
        suggestions,
        is_incomplete: false,
    })
}

/// Returns what can be written at `site`, which is in `context` (see `completion_at`).
fn completion_in<'p>(
    alloc: Global,
    guide: Option<&Guide>,
    document: &'p Document<'_>,
    context: &'p Context<'_>,
    site: Site<'_>,
) -> Result<Completion, AllocError> {
    let (path, at) = (context.path.as_slice(), site.at);
    let mut tables = Vec::new(alloc);
    let mut steps;
    if is_header(site.expected) {
        tables = table_places(alloc, document.sections.as_slice())?;
        steps = header_steps(alloc, tables.as_slice(), path, at)?;
    } else {
        steps = table_path(alloc, &*document, at)?;
        for step in path {
            push_step(step, &mut steps)?;
        }
    }
    let outer = outer_of(
        &*document,
        steps.as_slice(),
        tables.as_slice(),
        context.names.as_slice(),
    );
    let made = completed(alloc, guide, outer, site)?;
    if site.expected == ExpectedText::Key && made.suggestions.is_empty() {
        let suggestions = open_siblings(alloc, &*context, site)?;
        return Ok(Completion {
            suggestions,
            ..made
        });
    }
    Ok(made)
}

/// Returns suggestions of the keys that similar tables in the statement of an inline table have. The statement need not
/// be closed. Returns none if the statement can't be read up to the table.
fn open_siblings(
    alloc: Global,
    context: &Context<'_>,
    site: Site<'_>,
) -> Result<Vec<Suggestion>, AllocError> {
    let Some(document) = read(alloc, context.front.as_str())? else {
        return Ok(Vec::new(alloc));
    };
    let mut steps = Vec::new(alloc);
    for step in &context.path {
        push_step(step, &mut steps)?;
    }
    let tables = Vec::new(alloc);
    let outer = outer_of(
        &document,
        steps.as_slice(),
        tables.as_slice(),
        context.names.as_slice(),
    );
    sibling_keys(alloc, outer, site)
}

/// Returns what can be written at the byte offset `at`: keys that the table at `at` lacks, values or, in a header,
/// names of tables. They are those of the schema `guide`. Without a schema, or where it does not say what can be
/// written, they are the booleans or the keys that similar tables have: tables at the same place in the other elements
/// of an array or in the other tables of a table, and inline tables before `at` in the same statement. The list is
/// empty in a comment, and where neither a key nor a value can be added.
///
/// `document` is as much of the text as can be read (see `readable`). Fails if an allocation fails.
pub fn completion_at<'d>(
    alloc: Global,
    guide: Option<&Guide>,
    syntax: &Syntax<'d>,
    document: &'d Document<'_>,
    at: usize,
) -> Result<Completion, AllocError> {
    let context = context_at(alloc, syntax, at)?;
    let Some(site) = site_of(syntax.text, &context, at) else {
        return Ok(Completion {
            suggestions: Vec::new(alloc),
            is_incomplete: false,
        });
    };
    completion_in(alloc, guide, &*document, &context, site)
}
