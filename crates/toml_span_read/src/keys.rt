//! Reads keys.
ghost use Rattle.std.specs.Prelude.{◌≡◌, ◌<◌, ◌⊎◌, true, false, length, slice_index, [], IfOk};
ghost use Rattle.toml_span_read.specs.Data as read_data;
ghost use Rattle.std.specs.Str.{IsCharBoundary};
ghost use Rattle.toml_span_lex.specs.Bytes.{quotation_mark, apostrophe};
ghost use Rattle.toml_span_lex.specs.Strings.{BorrowsWhereSame};
ghost use Rattle.toml_span_read.specs.Borrowed.{AreWrittenRight, dotted_written, keys_written};
ghost use Rattle.toml_span_read.specs.Read as spec;
ghost use Rattle.toml_span_read.specs.code.Keys.{key_found, parts_found, header_found, PartGives};
ghost use Rattle.toml_span_read.specs.code.Faults.{Advances, MatchesReading};

use crate::fault::{ExpectedToken, Fault, FaultKind, fault_at};
use crate::gaps::{byte_at, dot};
use crate::lists::add;
use crate::strings::{opens_string, string};
use crate::value::DottedKey;
use crate::wanted::wanted;
use smallvec::SmallVec;
use std::alloc::Global;
use std::borrow::CowStr;
use toml_span_lex::bytes::{is_keylike, keylike_end};
use toml_span_lex::key::Key;
use toml_span_lex::span::Span;
use toml_span_lex::stop::Stop;

/// Reads the quoted key at `at`. Returns the key with the offset after it. Fails with `MultilineStringKey` at a
/// multi-line string, and with the tokenizer's fault at an invalid string.
///
/// `quoted-key = basic-string / literal-string` (TOML 1.1, Keys)
#[tactic(auto, using(crate::proofs::KeyLemmas::string_stops))]
#[inline(never)]
fn quoted_key<'de>(
    alloc: Global,
    text: &'de str,
    at: usize,
) -> Result<(Key<'de>, usize), Stop<Fault>>
    requires within { at < length text.now }
    requires quote { (slice_index text.now at ≡ quotation_mark) ⊎ (slice_index text.now at ≡ apostrophe) }
    ensures key { MatchesReading key_found (spec.simple_key_at text.now at) result }
    ensures borrows { IfOk result (λ found. BorrowsWhereSame text.now found.0.span found.0.name) }
    ensures advances { Advances text.now at result }
{
    let token = string(alloc, text, at)?;
    if token.is_multiline {
        let span = Span {
            start: at,
            end: at + token.content.as_ref().len(),
        };
        return Err(Stop::Fault(Fault {
            kind: FaultKind::MultilineStringKey,
            span,
        }));
    }
    let key = Key {
        name: token.content,
        span: token.span,
    };
    Ok((key, token.end))
}

/// Reads the simple key at the byte offset `at`. Returns the key with the offset after it.
///
/// Fails with `MultilineStringKey` at a multi-line string, with `Wanted` at another token or the end of the text, and
/// with the tokenizer's fault if no token can be read.
///
/// `simple-key = quoted-key / unquoted-key` (TOML 1.1, Keys)
#[tactic(auto, using(crate::proofs::KeyLemmas::wanted_stops))]
#[inline(always)]
pub(crate) fn simple_key<'de>(
    alloc: Global,
    text: &'de str,
    at: usize,
) -> Result<(Key<'de>, usize), Stop<Fault>>
    requires { IsCharBoundary text.now at }
    ensures key { MatchesReading key_found (spec.simple_key_at text.now at) result }
    ensures borrows { IfOk result (λ found. BorrowsWhereSame text.now found.0.span found.0.name) }
    ensures advances { Advances text.now at result }
{
    let byte = byte_at(text, at);
    if is_keylike(byte) {
        let end = keylike_end(text, at);
        let name = CowStr::Borrowed(&text[at..end]);
        let span = Span { start: at, end };
        Ok((Key { name, span }, end))
    } else if opens_string(byte) {
        quoted_key(alloc, text, at)
    } else {
        Err(wanted(alloc, text, at, ExpectedToken::TableKey))
    }
}

/// Returns the fault for a key with too many parts. `key`, at the byte offset `at`, is the first part beyond the limit.
/// The fault spans `key.span` in a header, otherwise the byte at `at`.
fn one_too_many(key: &Key<'_>, at: usize, in_header: bool) -> Fault
    requires { at < usize.MAX }
    ensures { result ≡ spec.one_too_many in_header at (read_data.simple_key key.now) }
{
    let kind = FaultKind::ExceededDepthLimit;
    if in_header {
        let span = key.span;
        Fault { kind, span }
    } else {
        fault_at(kind, at)
    }
}

/// Reads one part of a key, at `at`, after `others` earlier parts. Returns the part, the offset after it, and the
/// offset of the next part (`None` if no dot follows). Fails with the fault of the part, or with the fault of
/// `one_too_many` if `others` is `limit` or more.
///
/// `dot-sep simple-key` (TOML 1.1, Keys)
#[tactic(auto, using(crate::proofs::KeyLemmas::part_stops))]
#[inline(always)]
fn part<'de>(
    alloc: Global,
    text: &'de str,
    at: usize,
    others: usize,
    limit: usize,
    in_header: bool,
) -> Result<(Key<'de>, usize, Option<usize>), Stop<Fault>>
    requires { IsCharBoundary text.now at }
    ensures key { PartGives in_header text.now limit others at result }
    ensures borrows { IfOk result (λ found. BorrowsWhereSame text.now found.0.span found.0.name) }
{
    let (key, end) = simple_key(alloc, text, at)?;
    if others >= limit {
        return Err(Stop::Fault(one_too_many(&key, at, in_header)));
    }
    Ok((key, end, dot(text, end)))
}

/// Reads the key of an assignment or pair at `at`. Returns the key with the offset after it.
///
/// Fails with the fault of a part, or with `ExceededDepthLimit` if the key has more than `limit` parts.
///
/// `key = simple-key / dotted-key`, `dotted-key = simple-key 1*( dot-sep simple-key )` (TOML 1.1, Keys)
#[tactic(auto, using(crate::proofs::KeyLemmas::part_placed, crate::proofs::KeyLemmas::none_after))]
#[inline(always)]
pub(crate) fn dotted_key<'de>(
    alloc: Global,
    text: &'de str,
    at: usize,
    limit: usize,
) -> Result<(DottedKey<'de>, usize), Stop<Fault>>
    requires boundary { IsCharBoundary text.now at }
    ensures key { MatchesReading parts_found (spec.key false text.now limit [] at) result }
    ensures borrows { IfOk result (λ found. AreWrittenRight text.now (dotted_written found.0)) }
    ensures advances { Advances text.now at result }
{
    let mut inner = Vec::new(alloc);
    let mut next = at;
    'parts: loop {
        let (key, end, after) = part(alloc, text, next, inner.len(), limit, false)?;
        match after {
            None => return Ok((DottedKey { inner, last: key }, end)),
            Some(on) => {
                if let Err(e) = add(&mut inner, key) {
                    return Err(Stop::Memory(e));
                }
                next = on;
            }
        }
    }
}

/// Reads the key of a header at `at`. Returns its parts with the offset after them. Fails with the fault of a part, or
/// with `ExceededDepthLimit` if there are more than `limit` parts.
///
/// `key = simple-key / dotted-key`, in `std-table = std-table-open key std-table-close` (TOML 1.1, Table)
#[tactic(auto, using(crate::proofs::KeyLemmas::part_placed, crate::proofs::KeyLemmas::none_after))]
pub(crate) fn header_key<'de>(
    alloc: Global,
    text: &'de str,
    at: usize,
    limit: usize,
) -> Result<(SmallVec<Key<'de>, 3>, usize), Stop<Fault>>
    requires boundary { IsCharBoundary text.now at }
    ensures key { MatchesReading header_found (spec.key true text.now limit [] at) result }
    ensures borrows { IfOk result (λ found. AreWrittenRight text.now (keys_written found.0.items)) }
    ensures advances { Advances text.now at result }
{
    let mut parts = SmallVec::new(alloc);
    let mut next = at;
    'parts: loop {
        let (key, end, after) = part(alloc, text, next, parts.len(), limit, true)?;
        if let Err(e) = parts.push(key) {
            return Err(Stop::Memory(e.into()));
        }
        match after {
            None => return Ok((parts, end)),
            Some(on) => next = on,
        }
    }
}
