//! Reads the assignments of a section and places each one as soon as it is read. `limit` is as in `parse_with_limit`.
ghost use Rattle.std.specs.Prelude.{◌≡◌, ◌≤◌, IfOk};
ghost use Rattle.std.specs.Str.{IsCharBoundary};
ghost use Rattle.toml_span_read.specs.Data.{depth_limit};
ghost use Rattle.toml_span_read.specs.Read.{assignment_lines};
ghost use Rattle.toml_span.specs.code.Lines.{fault_in, IsSectionTable, PlacesLines, RefusesAs};
ghost use Rattle.toml_span.specs.code.Tree.{IsScope};

use crate::branch::{Branch, into_table};
use crate::scopes::place_one;
use std::alloc::Global;
use toml_span_lex::stop::Stop;
use toml_span_read::fault::Fault;
use toml_span_read::gaps::{byte_at, gap_end};
use toml_span_read::sections::{assignment, extent_of, next_line};
use toml_span_tree::Table;

/// Returns the fault, or `None` if an allocation failed.
pub(crate) fn fault_of(stop: Stop<Fault>) -> Option<Fault>
    ensures { result ≡ fault_in stop }
{
    match stop {
        Stop::Fault(fault) => Some(fault),
        Stop::Memory(_) => None,
    }
}

/// Reads the assignments from `from` up to the next header or the end of the text, and places them in `node`. Returns
/// the end of the last assignment (`from` without assignments), and the offset of the header or of the end of the text.
///
/// Fails with the first fault if no clash comes before it; with `None` at the first clash, or if an allocation fails.
/// `node` is then incomplete.
pub(crate) fn place_lines<'de>(
    alloc: Global,
    text: &'de str,
    from: usize,
    limit: usize,
    node: &mut Branch<'de>,
) -> Result<(usize, usize), Option<Fault>>
    requires boundary { IsCharBoundary text.now from }
    requires small { limit ≤ depth_limit }
    ensures fault { IsScope node.old → RefusesAs text.now (assignment_lines text.now limit from) result }
    ensures lines { IfOk result (λ ends. PlacesLines text.now limit from node.old node.new ends.0 ends.1) }
{
    let mut end = from;
    let mut at = gap_end(text, from);
    'lines: while at < text.len() && byte_at(text, at) != b'[' {
        let (next, after) = match assignment(alloc, text, at, limit) {
            Ok(read) => read,
            Err(stop) => return Err(fault_of(stop)),
        };
        let line = match next_line(alloc, text, after) {
            Ok(line) => line,
            Err(stop) => return Err(fault_of(stop)),
        };
        end = extent_of(&next).end;
        match place_one(alloc, next, node) {
            Ok(()) => {}
            Err(_) => return Err(None),
        }
        at = gap_end(text, line);
    }
    Ok((end, at))
}

/// The table of a section, read without its header.
#[derive(Drop)]
pub(crate) struct Lines<'de> {
    pub table: Table<'de>,
    /// The end of the last assignment or, without assignments, the offset from which the section was read.
    pub end: usize,
    /// The offset of the next header, or of the end of the text.
    pub next: usize,
}

/// Reads the assignments from `from` up to the next header or the end of the text. Returns the finished table that they
/// define.
///
/// Fails with the first fault if no clash comes before it; with `None` at the first clash, or if an allocation fails.
pub(crate) fn section_table<'de>(
    alloc: Global,
    text: &'de str,
    from: usize,
    limit: usize,
) -> Result<Lines<'de>, Option<Fault>>
    requires boundary { IsCharBoundary text.now from }
    requires small { limit ≤ depth_limit }
    ensures fault { RefusesAs text.now (assignment_lines text.now limit from) result }
    ensures lines { IfOk result (IsSectionTable text.now limit from) }
{
    let mut scope = Branch::new(alloc);
    let (end, next) = match place_lines(alloc, text, from, limit, &mut scope) {
        Ok(ends) => ends,
        Err(fault) => return Err(fault),
    };
    match into_table(scope.tables, scope.values) {
        Ok(table) => Ok(Lines { table, end, next }),
        Err(_) => Err(None),
    }
}
