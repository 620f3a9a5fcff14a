//! Parses a text into a tree.
ghost use Rattle.std.specs.Prelude.{◌≡◌, ◌≤◌, ℕ, List, true, IfOk, IfErr, IsOk, length};
ghost use Rattle.toml_span_lex.specs.Text.{FirstPlace};
ghost use Rattle.toml_span_read.specs.code.Faults.{IsPlacedStop};
ghost use Rattle.toml_span_read.specs.Data.{ParsedSection, depth_limit};
ghost use Rattle.toml_span_read.specs.Reading.{AllocatesOnlyAfterGap};
ghost use Rattle.toml_span_tree.specs.Value.{is_whole, view};
ghost use Rattle.toml_span.specs.Borrowed.{AreBorrowedRight, first_key, strings_and_keys};
ghost use Rattle.toml_span.specs.Claims.{claims};
ghost use Rattle.toml_span.specs.code.Assembling.{AssembleReturns, AssemblyBorrows, IsAssemblyOf, IsBare};
ghost use Rattle.toml_span.specs.code.Assembling.{IsAssemblyInside};
ghost use Rattle.toml_span_read.specs.Read.{document};
ghost use Rattle.toml_span.specs.Parsing.{IsParseResult, IsBorrowedTree, IsRoot};

use crate::plain::plain_tree;
use crate::sections::{Assembly, add_section, begin, finish};
use std::alloc::Global;
use toml_span_lex::lines::line_info;
use toml_span_lex::stop::Stop;
use toml_span_read::fault::{Fault, error_of};
use toml_span_read::{read_first, read_section};
use toml_span_tree::{Error, Value};

/// The limit of `parse` on the depth of values and on the number of parts of a key or header.
const LIMIT: usize = 128;

/// Reads the sections of `text` into an assembly. `limit` is as in `parse_with_limit`. Fails with the first fault. A
/// clash does not stop the reading; the assembly keeps the first clash.
fn assemble<'de>(alloc: Global, text: &'de str, limit: usize) -> Result<Assembly<'de>, Stop<Fault>>
    requires some { 1 ≤ limit }
    requires small { limit ≤ depth_limit }
    ensures placed { IfErr result (IsPlacedStop text.now) }
    ensures assembly { AssembleReturns text.now limit result }
    ensures memory { (start : ℕ) × FirstPlace text.now start × AllocatesOnlyAfterGap text.now start result }
{
    let (first, start) = read_first(alloc, text, limit)?;
    let mut assembly = match begin(alloc, first) {
        Ok(assembly) => assembly,
        Err(error) => return Err(Stop::Memory(error)),
    };
    let mut at = start;
    'sections: while at < text.len() {
        let (section, next) = read_section(alloc, text, at, limit)?;
        if let Err(error) = add_section(alloc, &mut assembly, section) {
            return Err(Stop::Memory(error));
        }
        at = next;
    }
    Ok(assembly)
}

/// Returns the finished tree of `assembly`, which was read from `text`. If the assembly has a clash, fails with the
/// error that reports it.
fn tree_of<'de>(assembly: Assembly<'de>, text: &'de str) -> Result<Value<'de>, Stop<Error<'de>>>
    requires inside { IsAssemblyInside (length text.now) assembly }
    ensures answers { (bs : List ParsedSection) (limit : ℕ) → document text.now limit (Ok bs)
        → IsAssemblyOf bs assembly.entry
        → IsParseResult text.now limit result }
    ensures root { IfOk result (IsRoot (length text.now)) }
    ensures borrows { (bs : List ParsedSection) → IsAssemblyOf bs assembly.entry
        → AssemblyBorrows text.now assembly.entry
        → IfOk result (λ root. AreBorrowedRight text.now (strings_and_keys root (first_key (claims bs)))) }
    ensures bare { IsBare assembly.entry → IsOk result }
{
    match finish(assembly, text.len()) {
        Ok(root) => Ok(root),
        Err(Stop::Memory(error)) => Err(Stop::Memory(error)),
        Err(Stop::Fault(clash)) => {
            let clash = Box::into_inner(clash);
            let place = line_info(text, clash.info.span.start);
            Err(Stop::Fault(clash.into_error(place)))
        }
    }
}

/// Parses a TOML 1.1 document into a tree. Does the same as `parse_with_limit` with the limit 128.
///
/// Fails with the first fault, that is, the first thing in the text that can't be read. If the text has no fault, but
/// keys or headers clash, fails with the first clash, such as a table that is defined twice. Fails with `Stop::Memory`
/// if an allocation fails.
pub fn parse<'de>(alloc: Global, s: &'de str) -> Result<Value<'de>, Stop<Error<'de>>>
    ensures answers { IsParseResult s.now depth_limit result }
    ensures root { IfOk result (IsRoot (length s.now)) }
    ensures whole { IfOk result (λ root. is_whole (view root) ≡ true) }
    ensures borrows { IfOk result (IsBorrowedTree s.now depth_limit) }
    // Nothing is allocated for a text of comments and blank lines.
    ensures memory { (start : ℕ) × FirstPlace s.now start × AllocatesOnlyAfterGap s.now start result }
{
    parse_with_limit(alloc, s, LIMIT)
}

/// Parses a TOML 1.1 document into a tree. Spans are byte offsets in `s`, the end exclusive.
///
/// Values may be nested at most `limit` levels deep. Each array or inline table around a value counts as one level, and
/// so does each part of the value's key and of the keys around it. Headers do not count. A header or dotted key may
/// have at most `limit` parts. Beyond these limits, the error is `ExceededDepthLimit`. The other errors are those of
/// `parse`.
///
/// Callers must prove that `limit` is from 1 to 128. The limit is not checked at run time.
pub fn parse_with_limit<'de>(
    alloc: Global,
    s: &'de str,
    limit: usize,
) -> Result<Value<'de>, Stop<Error<'de>>>
    requires some { 1 ≤ limit }
    requires small { limit ≤ depth_limit }
    ensures answers { IsParseResult s.now limit result }
    ensures root { IfOk result (IsRoot (length s.now)) }
    ensures whole { IfOk result (λ root. is_whole (view root) ≡ true) }
    ensures borrows { IfOk result (IsBorrowedTree s.now limit) }
    // Nothing is allocated for a text of comments and blank lines.
    ensures memory { (start : ℕ) × FirstPlace s.now start × AllocatesOnlyAfterGap s.now start result }
{
    match plain_tree(alloc, s, limit) {
        Ok(root) => return Ok(root),
        Err(Some(fault)) => return Err(Stop::Fault(error_of(s, fault))),
        Err(None) => {}
    }
    match assemble(alloc, s, limit) {
        Ok(assembly) => tree_of(assembly, s),
        Err(Stop::Memory(error)) => Err(Stop::Memory(error)),
        Err(Stop::Fault(fault)) => Err(Stop::Fault(error_of(s, fault))),
    }
}
