//! Reads values.
ghost use Rattle.toml_span_read.specs.Data.{depth_limit, parsed_value, parsed_kind, parsed_assignment, parsed};
ghost use Rattle.toml_span_read.specs.Data.{scalar as scalar_node, array as array_node, parts as parts_of};
ghost use Rattle.toml_span_read.specs.Data.{inline as inline_node, onto, pairs_onto, no_items, no_pairs};
ghost use Rattle.std.specs.Prelude.{◌≡◌, ◌+◌, ◌-◌, ◌<◌, ◌≤◌, ◌||◌, ◌==◌, ◌⊎◌, ◌++◌, ◌∷◌, [], true, false, length};
ghost use Rattle.std.specs.Prelude.{slice_index, map, IfOk};
ghost use Rattle.std.specs.Str.{IsCharBoundary};
ghost use Rattle.toml_span_lex.specs.Bytes.{is_keylike, quotation_mark, apostrophe, left_bracket, left_brace};
ghost use Rattle.toml_span_read.specs.code.Faults.{Advances, MatchesReading, IsPlacedStop};
ghost use Rattle.std.specs.Cow.{cow_str_bytes};
ghost use Rattle.toml_span_tree.specs.Node.{text as text_node, boolean, datetime};
ghost use Rattle.toml_span_tree.specs.Value.{date_bytes};
ghost use Rattle.toml_span_read.specs.Borrowed.{AreWrittenRight, string as string_written, written, kind_written};
ghost use Rattle.toml_span_read.specs.Borrowed.{joined, assignment_written, assignments_written, dotted_written};
ghost use Rattle.toml_span_read.specs.Faults.{opens_nested, begins_bare, begins_number};
ghost use Rattle.toml_span_read.specs.Gaps.{MaximalGap};
ghost use Rattle.toml_span_read.specs.Read as spec;
ghost use Rattle.toml_span_read.specs.code.Values.{IsRunOf, IsTooDeep, ScalarGives, value_found, assignment_found};
ghost use Rattle.toml_span_read.specs.Dates as date_spec;
ghost use Rattle.toml_span_read.specs.Keys.{opens_string};

use crate::dates::{begins_date, date};
use crate::earlier::{Earlier, add_clear};
use crate::fault::{ExpectedToken, Fault, FaultKind, fault_at};
use crate::gaps::{AfterElement, after_byte, after_element, byte_at, opened, pair_equals};
use crate::keys::dotted_key;
use crate::lists::add;
use crate::numbers::{number, short_integer};
use crate::strings::string;
use crate::value::{Assignment, DottedKey, Val, ValKind};
use crate::wanted::{no_value, wanted};
use std::alloc::Global;
use std::borrow::CowStr;
use toml_span_lex::bytes::{is_keylike, keylike_end};
use toml_span_lex::span::Span;
use toml_span_lex::stop::Stop;
use toml_span_tree::DateText;

/// Reads the value at the byte offset `at`. Returns the value with the offset after it. `depth` is the number of
/// brackets and braces around the value, plus the number of parts of its own key and of the keys around it.
///
/// Fails with the first fault. `limit` is the limit on the depth of values and on the number of parts of a key; the
/// fault of a value or part beyond it is `ExceededDepthLimit`.
///
/// `val = string / boolean / array / inline-table / date-time / float / integer` (TOML 1.1, Key/Value Pair)
#[cycle(read)]
#[inline(always)]
pub(crate) fn value<'de>(
    alloc: Global,
    text: &'de str,
    at: usize,
    depth: usize,
    limit: usize,
) -> Result<(Val<'de>, usize), Stop<Fault>>
    requires boundary { IsCharBoundary text.now at }
    requires small { limit ≤ depth_limit }
    ensures advances { Advances text.now at result }
    ensures value { MatchesReading value_found (spec.value text.now limit ((limit + 1) - depth) 0 at) result }
    ensures borrows { IfOk result (λ found. AreWrittenRight text.now (written found.0)) }
{
    match byte_at(text, at) {
        b'[' | b'{' if depth > limit => Err(too_deep(text, at)),
        b'[' => array(alloc, text, at, depth, limit),
        b'{' => inline_table(alloc, text, at, depth, limit),
        b'"' | b'\'' => string_value(alloc, text, at, depth, limit),
        _ => scalar(alloc, text, at, depth, limit),
    }
}

/// Returns the fault `ExceededDepthLimit` at `at`.
fn too_deep(text: &str, at: usize) -> Stop<Fault>
    requires { at ≤ length text.now }
    ensures fault { IsTooDeep at result }
    ensures placed { IsPlacedStop text.now result }
{
    let _text = text;
    Stop::Fault(fault_at(FaultKind::ExceededDepthLimit, at))
}

/// Reads the string at `at`, which is nested `depth` levels deep. Returns the string with the offset after it. Fails if
/// the string is not valid, and with `ExceededDepthLimit` if `depth` exceeds `limit`.
///
/// `string = ml-basic-string / basic-string / ml-literal-string / literal-string` (TOML 1.1, String)
#[inline(always)]
fn string_value<'de>(
    alloc: Global,
    text: &'de str,
    at: usize,
    depth: usize,
    limit: usize,
) -> Result<(Val<'de>, usize), Stop<Fault>>
    requires boundary { IsCharBoundary text.now at }
    requires quote { (slice_index text.now at ≡ quotation_mark) ⊎ (slice_index text.now at ≡ apostrophe) }
    ensures advances { Advances text.now at result }
    ensures value { MatchesReading value_found (spec.value text.now limit ((limit + 1) - depth) 0 at) result }
    ensures borrows { IfOk result (λ found. AreWrittenRight text.now (written found.0)) }
{
    let token = string(alloc, text, at)?;
    if depth > limit {
        return Err(too_deep(text, at));
    }
    Ok((string_of(token.content, token.span), token.end))
}

/// Reads the number, boolean, date or time at `at`, which is nested `depth` levels deep. Returns the value with the
/// offset after it. Fails if the value is missing or not valid, and with `ExceededDepthLimit` if `depth` exceeds
/// `limit`.
fn scalar<'de>(
    alloc: Global,
    text: &'de str,
    at: usize,
    depth: usize,
    limit: usize,
) -> Result<(Val<'de>, usize), Stop<Fault>>
    requires boundary { IsCharBoundary text.now at }
    requires plain { (opens_nested (slice_index text.now at) || opens_string (slice_index text.now at)) ≡ false }
    ensures advances { Advances text.now at result }
    ensures value { MatchesReading value_found (spec.value text.now limit ((limit + 1) - depth) 0 at) result }
    ensures borrows { IfOk result (λ found. AreWrittenRight text.now (written found.0)) }
{
    let byte = byte_at(text, at);
    if !is_keylike(byte) && byte != b'+' {
        return Err(no_value(alloc, text, at));
    }
    if depth > limit {
        return Err(too_deep(text, at));
    }
    let (kind, end) = bare(alloc, text, at)?;
    Ok((scalar_of(kind, at, end), end))
}

/// Reads the number, boolean, date or time at `at`. Returns the value with the offset after it. Fails if the value is
/// not valid.
///
/// `val =/ boolean / date-time / float / integer` (TOML 1.1, Key/Value Pair)
fn bare<'de>(alloc: Global, text: &'de str, at: usize) -> Result<(ValKind<'de>, usize), Stop<Fault>>
    requires boundary { IsCharBoundary text.now at }
    requires begins { begins_bare (slice_index text.now at) ≡ true }
    ensures advances { Advances text.now at result }
    ensures scalar { ScalarGives (spec.bare text.now at) result }
{
    if let Some(found) = short_integer(text, at) {
        return Ok(found);
    }
    if begins_date(text, at) {
        return match date(text, at) {
            Ok((date, end)) => Ok((dated(date), end)),
            Err(fault) => Err(Stop::Fault(fault)),
        };
    }
    let byte = byte_at(text, at);
    if byte.is_ascii_digit() || byte == b'-' || byte == b'+' {
        number(alloc, text, at)
    } else {
        word(alloc, text, at)
    }
}

/// The word that a run of letters, digits, dashes and underscores spells.
pub(crate) enum Run {
    True,
    False,
    /// `inf` or `nan`.
    Special,
    Other,
}

/// Returns the word that the bytes of a run spell.
fn run_of(bytes: &[u8]) -> Run
    ensures { IsRunOf bytes.now result }
{
    // Toolchain: a match on byte strings has one goal for each way through the bytes. They are proved without help in a
    // function that returns an enum.
    match bytes {
        b"true" => Run::True,
        b"false" => Run::False,
        b"inf" | b"nan" => Run::Special,
        _ => Run::Other,
    }
}

/// Reads `true`, `false`, `inf` or `nan` at `at`. Returns the value with the offset after it. Fails with
/// `UnquotedString` at any other word, and with `InvalidNumber` if a dot follows `inf` or `nan`.
///
/// `boolean = true / false` (TOML 1.1, Boolean)
fn word<'de>(alloc: Global, text: &'de str, at: usize) -> Result<(ValKind<'de>, usize), Stop<Fault>>
    requires boundary { IsCharBoundary text.now at }
    requires begins { is_keylike (slice_index text.now at) ≡ true }
    requires no_date { date_spec.begins_date text.now at ≡ false }
    requires no_number { begins_number (slice_index text.now at) ≡ false }
    ensures advances { Advances text.now at result }
    ensures scalar { ScalarGives (spec.bare text.now at) result }
{
    let end = keylike_end(text, at);
    match run_of(&text.as_bytes()[at..end]) {
        Run::True => Ok((truth(true), end)),
        Run::False => Ok((truth(false), end)),
        Run::Special => number(alloc, text, at),
        Run::Other => Err(Stop::Fault(Fault {
            kind: FaultKind::UnquotedString,
            span: Span { start: at, end },
        })),
    }
}

/// Reads the array at `at`, which is nested `depth` levels deep. Returns the array with the offset after it. Fails with
/// the first fault. `limit` is the limit on the depth of values and on the number of parts of a key.
///
/// `array = array-open [ array-values ] ws-comment-newline array-close` (TOML 1.1, Array)
#[cycle(read)]
fn array<'de>(
    alloc: Global,
    text: &'de str,
    at: usize,
    depth: usize,
    limit: usize,
) -> Result<(Val<'de>, usize), Stop<Fault>>
    requires boundary { IsCharBoundary text.now at }
    requires opens { slice_index text.now at ≡ left_bracket }
    requires small { limit ≤ depth_limit }
    requires depth { depth ≤ limit }
    ensures advances { Advances text.now at result }
    ensures value { MatchesReading value_found (spec.value text.now limit ((limit + 1) - depth) 0 at) result }
    ensures borrows { IfOk result (λ found. AreWrittenRight text.now (written found.0)) }
{
    let mut items = Vec::new(alloc);
    let mut next = opened(text, at);
    'items: loop {
        if byte_at(text, next) == b']' {
            let close = after_byte(text, next);
            return Ok((array_of(items, at, close), close));
        }
        let (item, end) = match value(alloc, text, next, depth + 1, limit) {
            Ok(found) => found,
            Err(stop) => return Err(stop),
        };
        if let Err(e) = add(&mut items, item) {
            return Err(Stop::Memory(e));
        }
        match after_element(text, end, b']') {
            AfterElement::Comma(on) => next = on,
            AfterElement::Closed(close) => return Ok((array_of(items, at, close), close)),
            AfterElement::Neither(here) => return Err(wanted(
                alloc,
                text,
                here,
                ExpectedToken::RightBracket,
            )),
        }
    }
}

/// Reads the inline table at `at`, which is nested `depth` levels deep. Returns the table with the offset after it.
/// Fails with the first fault. `limit` is the limit on the depth of values and on the number of parts of a key.
///
/// `inline-table = inline-table-open [ inline-table-keyvals ] ws-comment-newline inline-table-close` (TOML 1.1, Inline
/// Table)
#[cycle(read)]
fn inline_table<'de>(
    alloc: Global,
    text: &'de str,
    at: usize,
    depth: usize,
    limit: usize,
) -> Result<(Val<'de>, usize), Stop<Fault>>
    requires boundary { IsCharBoundary text.now at }
    requires opens { slice_index text.now at ≡ left_brace }
    requires small { limit ≤ depth_limit }
    requires depth { depth ≤ limit }
    ensures advances { Advances text.now at result }
    ensures value { MatchesReading value_found (spec.value text.now limit ((limit + 1) - depth) 0 at) result }
    ensures borrows { IfOk result (λ found. AreWrittenRight text.now (written found.0)) }
{
    let mut pairs = Vec::new(alloc);
    let mut earlier = Earlier::new(alloc);
    let mut next = opened(text, at);
    'pairs: loop {
        if byte_at(text, next) == b'}' {
            let close = after_byte(text, next);
            return Ok((inline_of(pairs, at, close), close));
        }
        let (found, end) = match pair(alloc, text, next, depth + 1, limit) {
            Ok(found) => found,
            Err(stop) => return Err(stop),
        };
        if let Err(stop) = add_clear(alloc, &mut earlier, &mut pairs, found) {
            return Err(stop);
        }
        match after_element(text, end, b'}') {
            AfterElement::Comma(on) => next = on,
            AfterElement::Closed(close) => return Ok((inline_of(pairs, at, close), close)),
            AfterElement::Neither(here) => return Err(wanted(
                alloc,
                text,
                here,
                ExpectedToken::Comma,
            )),
        }
    }
}

/// Reads the pair at `at` in an inline table. Returns the pair with the offset after it. Fails with the first fault.
/// `depth` is the number of brackets, braces and parts of keys around the pair. `limit` is the limit on the depth of
/// values and on the number of parts of a key.
///
/// `keyval = key keyval-sep val` (TOML 1.1, Inline Table)
#[cycle(read)]
#[inline(always)]
fn pair<'de>(
    alloc: Global,
    text: &'de str,
    at: usize,
    depth: usize,
    limit: usize,
) -> Result<(Assignment<'de>, usize), Stop<Fault>>
    requires boundary { IsCharBoundary text.now at }
    requires small { limit ≤ depth_limit }
    requires depth { depth ≤ limit + 1 }
    ensures advances { Advances text.now at result }
    ensures pair { MatchesReading assignment_found
        (spec.keyval text.now limit (MaximalGap text.now) (spec.value text.now limit ((limit + 1) - depth)) at) result }
    ensures borrows { IfOk result (λ found. AreWrittenRight text.now (assignment_written found.0)) }
{
    let (parts, key_end) = dotted_key(alloc, text, at, limit)?;
    let from = match pair_equals(text, key_end) {
        Ok(from) => from,
        Err(here) => return Err(wanted(alloc, text, here, ExpectedToken::Equals)),
    };
    let inside = depth + (parts.inner.len() + 1);
    match value(alloc, text, from, inside, limit) {
        Ok((value, end)) => Ok((assigned(parts, value, at, end), end)),
        Err(stop) => Err(stop),
    }
}

/// Returns the string `content` as a value with this span.
fn string_of<'de>(content: CowStr<'de>, span: Span) -> Val<'de>
    ensures parsed_value { parsed_value result ≡ parsed (scalar_node (text_node (cow_str_bytes content.entry))) span }
    ensures written { written result ≡ string_written content.entry span ∷ [] }
{
    let kind = ValKind::String(content);
    Val { kind, span }
}

/// Returns a boolean as a `ValKind`.
fn truth<'de>(value: bool) -> ValKind<'de>
    ensures { parsed_kind result ≡ scalar_node (boolean value) }
{
    ValKind::Boolean(value)
}

/// Returns a date or time as a `ValKind`.
fn dated<'de>(date: DateText<'de>) -> ValKind<'de>
    ensures { parsed_kind result ≡ scalar_node (datetime (date_bytes date.entry)) }
{
    ValKind::Datetime(date)
}

/// Returns the value with this `kind` and the span `start..end`.
fn scalar_of<'de>(kind: ValKind<'de>, start: usize, end: usize) -> Val<'de>
    ensures parsed_value { parsed_value result ≡ parsed (parsed_kind kind.entry) (record { start = start; end = end }) }
    ensures written { written result ≡ kind_written kind.entry (record { start = start; end = end }) }
{
    let span = Span { start, end };
    Val { kind, span }
}

/// Returns the array of these elements, with the span `start..end`.
fn array_of<'de>(items: Vec<Val<'de>>, start: usize, end: usize) -> Val<'de>
    ensures parsed_value { parsed_value result
        ≡ parsed (array_node (onto (map parsed_value items.entry.items) no_items))
        (record { start = start; end = end }) }
    ensures written { written result ≡ joined (map written items.entry.items) }
{
    let kind = ValKind::Array(items);
    Val {
        kind,
        span: Span { start, end },
    }
}

/// Returns the inline table of these pairs, with the span `start..end`.
fn inline_of<'de>(pairs: Vec<Assignment<'de>>, start: usize, end: usize) -> Val<'de>
    ensures parsed_value { parsed_value result
        ≡ parsed (inline_node (pairs_onto (map parsed_assignment pairs.entry.items) no_pairs))
        (record { start = start; end = end }) }
    ensures written { written result ≡ assignments_written pairs.entry.items }
{
    let kind = ValKind::Inline(pairs);
    Val {
        kind,
        span: Span { start, end },
    }
}

/// Returns the assignment of `value` to the key `parts`. Its extent is `start..end`.
pub(crate) fn assigned<'de>(
    parts: DottedKey<'de>,
    value: Val<'de>,
    start: usize,
    end: usize,
) -> Assignment<'de>
    ensures parsed_assignment { parsed_assignment result
        ≡ record {
          parts = parts_of parts.entry;
          value = parsed_value value.entry;
          extent = record { start = start; end = end };
        } }
    ensures written { assignment_written result ≡ dotted_written parts.entry ++ written value.entry }
{
    let extent = Span { start, end };
    Assignment {
        parts,
        value,
        extent,
    }
}
