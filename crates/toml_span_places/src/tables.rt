//! Lists each table of a text once for each place that names it.
ghost use Rattle.std.specs.Prelude.{◌≡◌, IfOk, map, option_map};
ghost use Rattle.toml_span_read.specs.Data.{parsed_section};
ghost use Rattle.toml_span_tree.specs.Nodes.{step_of};
ghost use Rattle.toml_span_places.specs.Mentions.{mentioned};
ghost use Rattle.toml_span_places.specs.Tables as spec;
ghost use Rattle.toml_span_places.specs.Tables.{table_mention, document_tables};

use crate::mentions::{Mention, mentions};
use crate::paths::{entered, same_path};
use std::alloc::{AllocError, Global};
use toml_span_lex::span::Span;
use toml_span_read::Section;
use toml_span_tree::nodes::Step;

/// How a text names a table.
#[derive(Clone, Copy, Debug, PartialEq, Eq)]
pub enum TableForm {
    /// By a header in single brackets: `a.b` in `[a.b]`.
    Header,
    /// By a header in double brackets, which adds it to an array: the new element of `a.b` in `[[a.b]]`.
    Element,
    /// By a header of a table inside it: `a` in `[a.b]` and `[[a.b]]`.
    Passed,
    /// By a dotted key: `a` in `a.b = 1`.
    Dotted,
    /// By the braces of an inline table: `a` in `a = {b = 1}`.
    Inline,
}

/// A table, and one place in the text that names it.
#[derive(Drop)]
pub struct TablePlace<'t> {
    /// The path from the root to the table.
    pub path: Vec<Step<'t>>,
    pub form: TableForm,
    /// The header's line, including the line end; the assignment with the dotted key, from the key to the end of the
    /// value; or the inline table with its braces.
    pub span: Span,
}

/// Returns the table that a mention names, or `None` if the mention does not name a table.
fn table_of<'t>(mention: Mention<'t>) -> Result<Option<TablePlace<'t>>, AllocError>
    ensures { IfOk result (λ place. option_map table_mention place ≡ spec.table_of (mentioned mention.entry)) }
{
    let Mention { path, details } = mention;
    let Some(form) = details.form else {
        return Ok(None);
    };
    let path = entered(path, details.element)?;
    let span = details.span;
    Ok(Some(TablePlace { path, form, span }))
}

/// Lists the tables in `sections` in the order of the text: each table once for each header, dotted key or pair of
/// braces that names it. The root is not listed.
///
/// For `[a]`, `b.c = 1` and `[a.b.d]`, the table `a` is listed as `Header` and as `Passed`, and `a.b` as `Dotted` and
/// as `Passed`. `sections` must be what `read_sections` returned for the text. Fails if an allocation fails.
pub fn table_places<'t, 'de>(
    alloc: Global,
    sections: &'t [Section<'de>],
) -> Result<Vec<TablePlace<'t>>, AllocError>
    ensures { IfOk result (λ places. map table_mention places.items
        ≡ document_tables (map parsed_section sections.now)) }
{
    let mut out = Vec::new(alloc);
    for mention in mentions(alloc, sections, true)? {
        if let Some(place) = table_of(mention)? {
            out.push(place)?;
        }
    }
    Ok(out)
}

/// Returns the form of each of `places` whose path is `path`.
fn forms_of(
    alloc: Global,
    places: &[TablePlace<'_>],
    path: &[Step<'_>],
) -> Result<Vec<TableForm>, AllocError>
    ensures { IfOk result (λ forms. forms.items
        ≡ spec.forms_at (map step_of path.now) (map table_mention places.now)) }
{
    let mut forms = Vec::new(alloc);
    for place in places {
        if same_path(place.path.as_slice(), path) {
            forms.push(place.form)?;
        }
    }
    Ok(forms)
}

/// Returns how the text names the table at `path`: one form for each place that names it, in the order of the text. The
/// list is empty if `path` is the root, or if no table is at `path`.
///
/// `sections` must be what `read_sections` returned for the text. Fails if an allocation fails.
pub fn table_forms<'t, 'de>(
    alloc: Global,
    sections: &'t [Section<'de>],
    path: &[Step<'_>],
) -> Result<Vec<TableForm>, AllocError>
    ensures { IfOk result (λ forms. forms.items
        ≡ spec.forms_at (map step_of path.now) (document_tables (map parsed_section sections.now))) }
{
    let places = table_places(alloc, sections)?;
    forms_of(alloc, places.as_slice(), path)
}
