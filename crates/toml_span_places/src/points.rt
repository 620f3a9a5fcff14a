//! Finds where to insert an assignment into a table.
ghost use Rattle.std.specs.Prelude.{◌≡◌, IfOk, fold, map};
ghost use Rattle.toml_span_read.specs.Data.{parsed_section};
ghost use Rattle.toml_span_tree.specs.Nodes.{step_of};
ghost use Rattle.toml_span_places.specs.Points as spec;
ghost use Rattle.toml_span_places.specs.Sections.{section_mention};

use crate::literals::byte_before;
use crate::paths::same_path;
use crate::sections::{SectionPlace, section_places};
use std::alloc::{AllocError, Global};
use toml_span_lex::span::Span;
use toml_span_read::Section;
use toml_span_read::gaps::byte_at;
use toml_span_tree::nodes::Step;

/// An offset at which to insert a line.
#[derive(Clone, Copy, Debug, PartialEq, Eq)]
pub struct InsertionPoint {
    /// The byte offset.
    pub offset: usize,
    /// Whether the line before the offset has no line end, so that a line end must be written first. That happens only
    /// at the end of the text.
    pub needs_line_end: bool,
}

/// Returns the byte offset after a byte order mark at the start of the text, or 0 without one.
pub(crate) fn text_start(text: &str) -> usize
    ensures { result ≡ spec.text_start text.now }
{
    let is_marked = byte_at(text, 0) == 0xEF
        && byte_at(text, 1) == 0xBB
        && byte_at(text, 2) == 0xBF;
    if is_marked { 3 } else { 0 }
}

/// Returns the insertion point for the table at `path` if no section fills it: for the root, the start of `text`, after
/// a byte order mark. Returns `None` for any other table.
fn without_section(text: &str, path: &[Step<'_>]) -> Option<InsertionPoint>
    ensures { result ≡ spec.without_section text.now (map step_of path.now) }
{
    if !path.is_empty() {
        return None;
    }
    Some(InsertionPoint {
        offset: text_start(text),
        needs_line_end: false,
    })
}

/// Returns the insertion point after the lines of a section's assignments, whose span is `body`.
fn after_body(text: &str, body: Span) -> InsertionPoint
    ensures { result ≡ spec.after_body text.now body }
{
    InsertionPoint {
        offset: body.end,
        needs_line_end: byte_before(text, body.end, 1) != b'\n',
    }
}

/// Returns the insertion point after the last section in `places` that fills the table at `path`, or `point` if no
/// section does.
fn last_point(
    text: &str,
    path: &[Step<'_>],
    places: &[SectionPlace<'_>],
    point: Option<InsertionPoint>,
) -> Option<InsertionPoint>
    ensures { result ≡ fold (spec.later_point text.now (map step_of path.now)) point (map section_mention places.now) }
{
    let mut point = point;
    for place in places {
        if same_path(place.path.as_slice(), path) {
            point = Some(after_body(text, place.body));
        }
    }
    point
}

/// Returns where to insert a line `key = value` into the table at `path`: after the last assignment below its own
/// header or, if it has no assignments there, after the line of the header.
///
/// For the root, returns the point after the last assignment before the first header. Without such an assignment,
/// returns the start of the text, after a byte order mark. For an element of an array of tables, the last step of
/// `path` is its position. Returns `None` if the table has no header of its own: if only longer headers or dotted keys
/// name it, if it is an inline table or an array, or if it does not exist.
///
/// Write the line with a line end after it and, if `needs_line_end`, another line end before it. `sections` must be
/// what `read_sections` returned for `text`. Fails if an allocation fails.
pub fn insertion_point<'t, 'de>(
    alloc: Global,
    text: &str,
    sections: &'t [Section<'de>],
    path: &[Step<'_>],
) -> Result<Option<InsertionPoint>, AllocError>
    ensures { IfOk result (λ point. point
        ≡ spec.insertion_point text.now (map step_of path.now) (map parsed_section sections.now)) }
{
    let places = section_places(alloc, text, sections)?;
    let point = without_section(text, path);
    Ok(last_point(text, path, places.as_slice(), point))
}
