//! Reads headers, assignments and sections.
ghost use Rattle.std.specs.Prelude.{◌≡◌, ℕ, ◌<◌, ◌≤◌, ◌+◌, ◌++◌, ◌⊎◌, map, length, slice_index, IfSome, IfOk};
ghost use Rattle.std.specs.Str.{IsCharBoundary};
ghost use Rattle.toml_span_read.specs.Borrowed.{AreWrittenRight, keys_written, assignment_written, assignments_written};
ghost use Rattle.toml_span_read.specs.Borrowed.{section_written, sections_written};
ghost use Rattle.toml_span_read.specs.Data as plain;
ghost use Rattle.toml_span_read.specs.Data.{parsed_assignment, parsed_section, headerless_section, depth_limit};
ghost use Rattle.toml_span_read.specs.Grammar.{OpensHeader};
ghost use Rattle.toml_span_read.specs.Read as spec;
ghost use Rattle.toml_span_read.specs.code.Sections.{EndsAtHeader, HeaderReads, FirstReads, SectionReads};
ghost use Rattle.toml_span_read.specs.code.Sections.{first_sections, EndsAfter, LineReads, first_found, head_found};
ghost use Rattle.toml_span_read.specs.code.Sections.{lines_found, section_found, sections_found};
ghost use Rattle.toml_span_read.specs.code.Values.{assignment_found};
ghost use Rattle.toml_span_read.specs.Reading.{AllocatesOnlyAfterGap, ReadsDocument, RefusedInside};
ghost use Rattle.toml_span_read.specs.code.Faults.{Advances, MatchesReading, IsPlacedEnd};
ghost use Rattle.toml_span_read.specs.code.Gaps.{Further};
ghost use Rattle.toml_span_lex.specs.Bytes.{is_blank, left_bracket, MaximalRun};
ghost use Rattle.toml_span_lex.specs.Text.{FirstPlace};

use crate::earlier::{Earlier, add_clear};
use crate::fault::{ExpectedToken, Fault, error_of};
use crate::gaps::{after_byte, byte_at, gap_end, line_equals, line_rest};
use crate::keys::{dotted_key, header_key};
use crate::lists::add;
use crate::section::Section;
use crate::value::Assignment;
use crate::values::{assigned, value};
use crate::wanted::wanted;
use smallvec::SmallVec;
use std::alloc::Global;
use toml_span_lex::bytes::blanks_end;
use toml_span_lex::key::Key;
use toml_span_lex::span::Span;
use toml_span_lex::stop::Stop;
use toml_span_lex::tokenizer::first_place;
use toml_span_tree::Error;

/// Reads the assignment at the byte offset `at`. Returns the assignment with the offset after it. Fails with the first
/// fault, or if an allocation fails. `limit` is the limit on the depth of values and on the number of parts of a key.
///
/// `keyval = key keyval-sep val`, `keyval-sep = ws %x3D ws` (TOML 1.1, Key/Value Pair)
pub fn assignment<'de>(
    alloc: Global,
    text: &'de str,
    at: usize,
    limit: usize,
) -> Result<(Assignment<'de>, usize), Stop<Fault>>
    requires boundary { IsCharBoundary text.now at }
    requires small { limit ≤ depth_limit }
    ensures advances { Advances text.now at result }
    ensures pair { MatchesReading assignment_found (spec.keyval text.now limit (MaximalRun is_blank text.now)
        (spec.value text.now limit (limit + 1)) at) result }
    ensures borrows { IfOk result (λ found. AreWrittenRight text.now (assignment_written found.0)) }
{
    let (parts, key_end) = dotted_key(alloc, text, at, limit)?;
    let from = match line_equals(text, key_end) {
        Ok(from) => from,
        Err(here) => return Err(wanted(alloc, text, here, ExpectedToken::Equals)),
    };
    let depth = parts.inner.len() + 1;
    match value(alloc, text, from, depth, limit) {
        Ok((value, end)) => Ok((assigned(parts, value, at, end), end)),
        Err(stop) => Err(stop),
    }
}

/// Skips the rest of a line from the byte offset `at`. Returns the offset after the line. Fails if the rest has
/// anything but spaces, tabs and a comment, or if an allocation fails.
///
/// `ws [ comment ]` and the line end in `expression =/ ws keyval ws [ comment ]` (TOML 1.1, Overall Structure)
#[inline(always)]
pub fn next_line(alloc: Global, text: &str, at: usize) -> Result<usize, Stop<Fault>>
    requires { IsCharBoundary text.now at }
    ensures reads { LineReads text.now at result }
    ensures rest { MatchesReading (λ j. j) (spec.tail text.now at) result }
{
    match line_rest(text, at) {
        Ok(next) => Ok(next),
        Err(here) => Err(wanted(alloc, text, here, ExpectedToken::Newline)),
    }
}

/// Reads the assignments from `from` up to the next header or the end of the text. Returns them with the offset of the
/// header or the end. Fails with the first fault. `limit` is the limit on the depth of values and on the number of
/// parts of a key.
fn assignments<'de>(
    alloc: Global,
    text: &'de str,
    from: usize,
    limit: usize,
) -> Result<(Vec<Assignment<'de>>, usize), Stop<Fault>>
    requires boundary { IsCharBoundary text.now from }
    requires small { limit ≤ depth_limit }
    ensures read { EndsAfter text.now from result }
    ensures header { EndsAtHeader text.now result }
    ensures lines { MatchesReading lines_found (spec.assignment_lines text.now limit from) result }
    ensures borrows { IfOk result (λ found. AreWrittenRight text.now (assignments_written found.0.items)) }
    ensures memory { AllocatesOnlyAfterGap text.now from result }
{
    let mut found = Vec::new(alloc);
    let mut earlier = Earlier::new(alloc);
    let mut at = gap_end(text, from);
    'lines: while at < text.len() && byte_at(text, at) != b'[' {
        let (next, end) = match assignment(alloc, text, at, limit) {
            Ok(read) => read,
            Err(stop) => return Err(stop),
        };
        let line = match next_line(alloc, text, end) {
            Ok(line) => line,
            Err(stop) => return Err(stop),
        };
        if let Err(stop) = add_clear(alloc, &mut earlier, &mut found, next) {
            return Err(stop);
        }
        at = gap_end(text, line);
    }
    Ok((found, at))
}

/// Returns whether the header at `at` has double brackets, and the offset after its opening brackets.
///
/// `std-table-open = %x5B ws`, `array-table-open = %x5B.5B ws` (TOML 1.1, Table, Array of Tables)
fn header_open(text: &str, at: usize) -> (bool, usize)
    requires opens { slice_index text.now at ≡ left_bracket }
    ensures opens { OpensHeader result.0 text.now at result.1 }
    ensures further { Further text.now at result.1 }
{
    let after = after_byte(text, at);
    if byte_at(text, after) == b'[' {
        (true, after_byte(text, after))
    } else {
        (false, after)
    }
}

/// Skips the spaces and tabs from `at`, and the closing brackets of a header: two if `array`, otherwise one. Returns
/// the offset after the brackets. Fails if a bracket is missing.
///
/// `std-table-close = ws %x5D`, `array-table-close = ws %x5D.5D` (TOML 1.1, Table, Array of Tables)
fn header_close(alloc: Global, text: &str, at: usize, array: bool) -> Result<usize, Stop<Fault>>
    requires { IsCharBoundary text.now at }
    ensures reads { LineReads text.now at result }
    ensures closes { MatchesReading (λ j. j)
        (spec.skipping (MaximalRun is_blank text.now) at (spec.closing array text.now)) result }
{
    let close = blanks_end(text, at);
    if byte_at(text, close) != b']' {
        return Err(wanted(alloc, text, close, ExpectedToken::RightBracket));
    }
    let after = after_byte(text, close);
    if !array {
        return Ok(after);
    }
    if byte_at(text, after) != b']' {
        return Err(wanted(alloc, text, after, ExpectedToken::RightBracket));
    }
    Ok(after_byte(text, after))
}

/// A header: its parts, whether it has double brackets, and the span of its line, including the line end.
#[derive(Drop)]
pub struct Header<'de> {
    pub parts: SmallVec<Key<'de>, 3>,
    pub array: bool,
    pub extent: Span,
}

/// Reads the header whose first bracket is at the byte offset `at`, and the rest of its line. Fails with the first
/// fault, or if an allocation fails. `limit` is the limit on the number of parts.
///
/// `table = std-table / array-table` (TOML 1.1, Table)
pub fn read_header<'de>(
    alloc: Global,
    text: &'de str,
    at: usize,
    limit: usize,
) -> Result<Header<'de>, Stop<Fault>>
    requires opens { slice_index text.now at ≡ left_bracket }
    ensures reads { HeaderReads text.now at result }
    ensures header { MatchesReading head_found (spec.header text.now limit at) result }
    ensures borrows { IfOk result (λ header. AreWrittenRight text.now (keys_written header.parts.items)) }
{
    let (array, open) = header_open(text, at);
    let (parts, key_end) = header_key(alloc, text, blanks_end(text, open), limit)?;
    let close = header_close(alloc, text, key_end, array)?;
    let end = next_line(alloc, text, close)?;
    Ok(Header {
        parts,
        array,
        extent: Span { start: at, end },
    })
}

/// Returns the span of an assignment, from its key to the end of its value.
#[inline]
pub fn extent_of(assignment: &Assignment<'_>) -> Span
    ensures { result ≡ (parsed_assignment assignment.now).extent }
{
    assignment.extent
}

/// Returns the offset after the last assignment, or `without` if the list is empty.
fn last_end(assignments: &[Assignment<'_>], without: usize) -> usize
    ensures { result ≡ plain.last_end without (map parsed_assignment assignments.now) }
{
    match assignments.last() {
        Some(last) => extent_of(last).end,
        None => without,
    }
}

/// Returns the section with this header and these assignments.
fn section_of<'de>(header: Header<'de>, assignments: Vec<Assignment<'de>>) -> Section<'de>
    ensures parsed_section { parsed_section result
        ≡ spec.headed_section header.entry.extent.start (head_found header.entry)
        (map parsed_assignment assignments.entry.items) }
    ensures written { section_written result ≡ keys_written header.entry.parts.items
        ++ assignments_written assignments.entry.items }
{
    let Header {
        parts,
        array,
        extent,
    } = header;
    let end = last_end(&assignments, extent.end);
    Section {
        header: parts,
        array,
        header_span: extent,
        extent: Span {
            start: extent.start,
            end,
        },
        assignments,
    }
}

/// Returns the section with these assignments and no header, or `None` if `assignments` is empty.
fn first_section<'de>(alloc: Global, assignments: Vec<Assignment<'de>>) -> Option<Section<'de>>
    ensures parsed_section { first_sections result
        ≡ headerless_section (map parsed_assignment assignments.entry.items) }
    ensures written { IfSome result (λ section. section_written section ≡ assignments_written assignments.entry.items) }
{
    let start = extent_of(assignments.first()?).start;
    let end = last_end(&assignments, start);
    Some(Section {
        header: SmallVec::new(alloc),
        array: false,
        header_span: Span::default(),
        extent: Span { start, end },
        assignments,
    })
}

/// Reads the assignments before the first header. Returns their section, or `None` if the text has no such assignments,
/// with the offset of the first header, or of the end of the text.
///
/// Fails with the first fault before that offset, or if an allocation fails. `limit`, which must be at most 128, is the
/// limit on the depth of values and on the number of parts of a key.
pub fn read_first<'de>(
    alloc: Global,
    text: &'de str,
    limit: usize,
) -> Result<(Option<Section<'de>>, usize), Stop<Fault>>
    requires small { limit ≤ depth_limit }
    ensures reads { FirstReads text.now result }
    ensures first { MatchesReading first_found (spec.before_headers text.now limit) result }
    ensures memory { (start : ℕ) × FirstPlace text.now start × AllocatesOnlyAfterGap text.now start result }
{
    let (before, end) = assignments(alloc, text, first_place(text), limit)?;
    Ok((first_section(alloc, before), end))
}

/// Reads the section whose header begins at the byte offset `at`. Returns the section with the offset of the next
/// header, or of the end of the text.
///
/// Fails with the first fault, or if an allocation fails. `limit`, which must be at most 128, is the limit on the depth
/// of values and on the number of parts of a key.
#[inline(never)]
pub fn read_section<'de>(
    alloc: Global,
    text: &'de str,
    at: usize,
    limit: usize,
) -> Result<(Section<'de>, usize), Stop<Fault>>
    requires opens { slice_index text.now at ≡ left_bracket }
    requires small { limit ≤ depth_limit }
    ensures reads { SectionReads text.now at result }
    ensures section { MatchesReading section_found (spec.section text.now limit at) result }
{
    let header = read_header(alloc, text, at, limit)?;
    let (after, end) = assignments(alloc, text, header.extent.end, limit)?;
    Ok((section_of(header, after), end))
}

/// Reads all sections of a text. Fails with the first fault. `limit` is the limit on the depth of values and on the
/// number of parts of a key.
fn sections<'de>(
    alloc: Global,
    text: &'de str,
    limit: usize,
) -> Result<Vec<Section<'de>>, Stop<Fault>>
    requires small { limit ≤ depth_limit }
    ensures placed { IsPlacedEnd text.now result }
    ensures document { MatchesReading sections_found (spec.document text.now limit) result }
    ensures borrows { IfOk result (λ found. AreWrittenRight text.now (sections_written found.items)) }
    ensures memory { (start : ℕ) × FirstPlace text.now start × AllocatesOnlyAfterGap text.now start result }
{
    let mut found = Vec::new(alloc);
    let (first, mut at) = read_first(alloc, text, limit)?;
    match first {
        Some(section) => {
            if let Err(e) = add(&mut found, section) {
                return Err(Stop::Memory(e));
            }
        }
        None => {}
    }
    'sections: while at < text.len() {
        let (section, next) = read_section(alloc, text, at, limit)?;
        if let Err(e) = add(&mut found, section) {
            return Err(Stop::Memory(e));
        }
        at = next;
    }
    Ok(found)
}

/// Reads the sections of `text`, in order. Their keys may clash. `limit` is the limit on the depth of values and on the
/// number of parts of a key, as in `parse_with_limit`, and must be from 1 to 128.
///
/// Fails with the first fault, or if an allocation fails.
///
/// `toml = expression *( newline expression )` (TOML 1.1, Overall Structure)
pub fn read_sections<'de>(
    alloc: Global,
    text: &'de str,
    limit: usize,
) -> Result<Vec<Section<'de>>, Stop<Error<'de>>>
    requires some { 1 ≤ limit }
    requires small { limit ≤ depth_limit }
    // The result is the one that the definition `document` determines: the sections, or the fault.
    ensures document { ReadsDocument text.now limit result }
    ensures placed { RefusedInside text.now result }
    // No allocation can fail if the text has only white space, comments and line ends.
    ensures memory { (start : ℕ) × FirstPlace text.now start × AllocatesOnlyAfterGap text.now start result }
    // A string or key is borrowed if and only if it equals the text at its span, or is an empty single-line string.
    ensures borrows { IfOk result (λ found. AreWrittenRight text.now (sections_written found.items)) }
{
    match sections(alloc, text, limit) {
        Ok(found) => Ok(found),
        Err(Stop::Memory(e)) => Err(Stop::Memory(e)),
        Err(Stop::Fault(fault)) => Err(Stop::Fault(error_of(text, fault))),
    }
}
