//! Finds the lines that assignments and sections take up.
ghost use Rattle.std.specs.Prelude.{◌≡◌};
ghost use Rattle.toml_span_read.specs.Data.{parsed_section, parsed_assignment};
ghost use Rattle.toml_span_places.specs.Lines as spec;

use toml_span_lex::bytes::is_blank;
use toml_span_lex::span::Span;
use toml_span_read::gaps::byte_at;
use toml_span_read::{Assignment, Section};

/// Returns the start of the run of spaces and tabs that ends at the byte offset `at`, or `at` if the run is empty.
pub(crate) fn blanks_start(text: &str, at: usize) -> usize
    ensures { result ≡ spec.blanks_start text.now at }
{
    let mut start = at;
    while start > 0 && is_blank(byte_at(text, start - 1)) {
        start -= 1;
    }
    start
}

/// Returns the byte offset after the first line feed at or after the offset `from`. Without such a line feed, returns
/// the length of `text` or, if larger, `from`.
fn after_line(text: &str, from: usize) -> usize
    ensures { result ≡ spec.after_line text.now from }
{
    let bytes = text.as_bytes();
    for at in from..bytes.len() {
        if bytes[at] == b'\n' {
            return at + 1;
        }
    }
    bytes.len().max(from)
}

/// Returns the span of an assignment, from its key to the end of its value, quotes included.
fn extent_of(assignment: &Assignment<'_>) -> Span
    ensures { result ≡ (parsed_assignment assignment.now).extent }
{
    assignment.extent
}

/// Returns the span of an assignment's lines, including the spaces and tabs before it, a comment after it, and the line
/// end. To remove the assignment, remove this span.
///
/// `assignment` must be from a section that `read_sections` returned for `text`, and must not be a pair of an inline
/// table.
pub fn assignment_lines(text: &str, assignment: &Assignment<'_>) -> Span
    ensures { result ≡ spec.lines_of text.now (parsed_assignment assignment.now).extent }
{
    let extent = extent_of(assignment);
    Span {
        start: blanks_start(text, extent.start),
        end: after_line(text, extent.end),
    }
}

/// Returns the byte offset after the line of a section's last assignment or, if the section has no assignments, after
/// the line of its header. `header` is the section's `header_span`, and `extent` its `extent`.
pub(crate) fn body_end(text: &str, header: Span, extent: Span) -> usize
    ensures { result ≡ spec.body_end text.now header extent }
{
    if extent.end <= header.end {
        header.end
    } else {
        after_line(text, extent.end)
    }
}

/// Returns the span of a section's lines, with the spaces and tabs before them and the last line end. The first line
/// has the header or, without a header, the first assignment. The last line has the last assignment or, without
/// assignments, the header.
///
/// `section` must be one that `read_sections` returned for `text`.
pub fn section_lines(text: &str, section: &Section<'_>) -> Span
    ensures { result ≡ spec.section_lines text.now (parsed_section section.now) }
{
    Span {
        start: blanks_start(text, section.extent.start),
        end: body_end(text, section.header_span, section.extent),
    }
}
