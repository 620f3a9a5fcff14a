//! Parses a plain document in one pass. A plain document is valid, and each of its headers opens a new table or appends
//! an element to an array of tables. The path of each header leads only through tables that headers created, and through
//! the latest elements of arrays of tables.
ghost use Rattle.std.specs.Prelude.{◌≡◌, ◌≤◌, length, slice_index, IfOk};
ghost use Rattle.toml_span_lex.specs.Bytes.{left_bracket};
ghost use Rattle.toml_span_read.specs.Data.{depth_limit};
ghost use Rattle.toml_span_read.specs.Read.{document, section};
ghost use Rattle.toml_span.specs.code.Lines.{RefusesAs};
ghost use Rattle.toml_span.specs.code.RootTable.{AddsSection};
ghost use Rattle.toml_span.specs.Parsing.{IsBorrowedTree, IsRoot, IsTree};

use crate::branch::in_order;
use crate::header_paths::place_table;
use crate::lines::{Lines, fault_of, section_table};
use std::alloc::Global;
use toml_span_lex::span::Span;
use toml_span_lex::tokenizer::first_place;
use toml_span_read::fault::Fault;
use toml_span_read::sections::{Header, read_header};
use toml_span_tree::{Table, Value, ValueInner};

/// Reads the section whose header is at `at`, and places its table in `root`. Returns the offset of the next header, or
/// of the end of the text.
///
/// Fails with the first fault of the section; with `None` if the section shows before that fault that the document is
/// not plain, or if an allocation fails. The contents of `root` are then unspecified.
fn add_section<'de>(
    alloc: Global,
    text: &'de str,
    at: usize,
    limit: usize,
    root: &mut Table<'de>,
) -> Result<usize, Option<Fault>>
    requires opens { slice_index text.now at ≡ left_bracket }
    requires small { limit ≤ depth_limit }
    ensures fault { RefusesAs text.now (section text.now limit at) result }
    ensures section { IfOk result (AddsSection text.now limit at root.old root.new) }
{
    let Header {
        parts,
        array,
        extent,
    } = match read_header(alloc, text, at, limit) {
        Ok(header) => header,
        Err(stop) => return Err(fault_of(stop)),
    };
    let Lines { table, end, next } = match section_table(alloc, text, extent.end, limit) {
        Ok(lines) => lines,
        Err(fault) => return Err(fault),
    };
    in_order(&table);
    let value = Value::with_span(ValueInner::Table(table), Span { start: at, end });
    match place_table(alloc, root, parts.as_slice(), array, value) {
        Some(()) => Ok(next),
        None => Err(None),
    }
}

/// Parses a plain document in one pass. `limit` is as in `parse_with_limit`.
///
/// Fails with the first fault of `text` if what comes before it is plain. Otherwise fails with `None`, as if an
/// allocation fails; `parse_with_limit` then parses `text` in the general way.
pub(crate) fn plain_tree<'de>(
    alloc: Global,
    text: &'de str,
    limit: usize,
) -> Result<Value<'de>, Option<Fault>>
    requires some { 1 ≤ limit }
    requires small { limit ≤ depth_limit }
    ensures tree { IfOk result (IsTree text.now limit) }
    ensures root { IfOk result (IsRoot (length text.now)) }
    ensures borrows { IfOk result (IsBorrowedTree text.now limit) }
    ensures fault { RefusesAs text.now (document text.now limit) result }
{
    let Lines {
        table,
        end: _,
        next,
    } = match section_table(alloc, text, first_place(text), limit) {
        Ok(lines) => lines,
        Err(fault) => return Err(fault),
    };
    let mut root = table;
    let mut at = next;
    'sections: while at < text.len() {
        at = match add_section(alloc, text, at, limit, &mut root) {
            Ok(next) => next,
            Err(fault) => return Err(fault),
        };
    }
    in_order(&root);
    let span = Span {
        start: 0,
        end: text.len(),
    };
    Ok(Value::with_span(ValueInner::Table(root), span))
}
