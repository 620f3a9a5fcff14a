//! Reads paths that are written as text, as pointers or as dotted keys with positions in brackets, and finds the values
//! that they name.
ghost use Rattle.std.specs.Prelude.{◌≡◌, ◌<◌, ◌++◌, IfOk, OnOk, length, map, option_map, slice_index};
ghost use Rattle.std.specs.Char.{is_ascii_digit};
ghost use Rattle.std.specs.Cow.{cow_str_bytes};
ghost use Rattle.std.specs.List.{list_all};
ghost use Rattle.std.specs.Str.{IsCharBoundary};
ghost use Rattle.toml_span_lex.specs.Bytes.{left_bracket};
ghost use Rattle.toml_span_lex.specs.Strings.{IsQuote};
ghost use Rattle.toml_span_lex.specs.declared.stop.Stop.TheVariants.{Fault};
ghost use Rattle.toml_span_tree.specs.Pointer.{segments};
ghost use Rattle.toml_span_tree.specs.Value.{view};
ghost use Rattle.toml_span_places.specs.Dotted as spec;
ghost use Rattle.toml_span_places.specs.Dotted.{IsDotted, IsPath, Reads};
ghost use Rattle.toml_span_places.specs.code.Dotted.{KeyGives, PositionGives, StepGives, StringGives};

use std::alloc::{AllocError, Global};
use std::borrow::CowStr;
use thiserror::Error;
use toml_span_lex::bytes::{is_keylike, keylike_end};
use toml_span_lex::stop::Stop;
use toml_span_lex::strings::string_at;
use toml_span_lex::tokens::{self, Token};
use toml_span_read::gaps::{byte_at, dot};
use toml_span_tree::Value;
use toml_span_tree::lookup::child_of;
use toml_span_tree::pointer::cut;

/// What is wrong with a path that does not begin with a slash.
#[derive(Clone, Copy, Debug, PartialEq, Eq, Error)]
pub enum PathFault {
    #[error("expected a key")]
    Key,
    #[error("this key has no closing quote")]
    Open,
    #[error("invalid quoted key")]
    Quoted,
    #[error("expected a position in brackets, such as `[0]`")]
    Position,
    #[error("expected `.` or `[`")]
    Step,
}

/// Why a path can't be read.
#[derive(Clone, Copy, Debug, PartialEq, Eq, Error)]
#[error("{fault}")]
pub struct PathError {
    /// The byte offset of the error in the path.
    pub at: usize,
    pub fault: PathFault,
}

/// Returns the error `fault` at the byte offset `at` of the path.
fn stop(at: usize, fault: PathFault) -> Stop<PathError>
    ensures { result ≡ Fault (spec.error at fault) }
{
    Stop::Fault(PathError { at, fault })
}

/// Converts the tokenizer's error about the string that begins at the byte offset `at` and was read up to `end`. A
/// string that is not closed is reported at `at`, any other error at `end`.
fn string_error(at: usize, end: usize, error: tokens::Error) -> Stop<PathError>
    ensures { result ≡ Fault (spec.string_error at end error) }
{
    match error {
        tokens::Error::UnterminatedString(_) => stop(at, PathFault::Open),
        _ => stop(end, PathFault::Quoted),
    }
}

/// Reads the string at the byte offset `at`. Returns its value, whether it has three quotes on each side, and the
/// offset after it. Fails if the string can't be read.
fn string_read<'p>(
    alloc: Global,
    path: &'p str,
    at: usize,
) -> Result<(CowStr<'p>, bool, usize), Stop<PathError>>
    requires within { at < length path.now }
    requires quote { IsQuote (slice_index path.now at) }
    ensures { StringGives path.now at result }
{
    match string_at(alloc, path, at) {
        Ok((_, token, end)) => match token {
            Token::String {
                src: _,
                val,
                multiline,
            } => Ok((val, multiline, end)),
            _ => unreachable!(),
        },
        Err(Stop::Fault((error, end))) => Err(string_error(at, end, error)),
        Err(Stop::Memory(error)) => Err(Stop::Memory(error)),
    }
}

/// Reads the key in quotes at the byte offset `at`. Returns its name and the offset after it. Fails if the key can't be
/// read or has three quotes on each side.
///
/// `quoted-key = basic-string / literal-string` (TOML 1.1, Keys)
fn quoted_at<'p>(
    alloc: Global,
    path: &'p str,
    at: usize,
) -> Result<(CowStr<'p>, usize), Stop<PathError>>
    requires within { at < length path.now }
    requires quote { IsQuote (slice_index path.now at) }
    ensures { KeyGives path.now at result }
{
    let (name, is_multiline, end) = string_read(alloc, path, at)?;
    if is_multiline {
        Err(stop(at, PathFault::Quoted))
    } else {
        Ok((name, end))
    }
}

/// Reads the key at the byte offset `at`. Returns its name and the offset after it. Fails if no key begins there, or if
/// the key can't be read.
///
/// `simple-key = quoted-key / unquoted-key` (TOML 1.1, Keys)
#[tactic(auto, using(toml_span_read::proofs::Places::run_some))]
fn key_at<'p>(
    alloc: Global,
    path: &'p str,
    at: usize,
) -> Result<(CowStr<'p>, usize), Stop<PathError>>
    requires { IsCharBoundary path.now at }
    ensures { KeyGives path.now at result }
{
    let byte = byte_at(path, at);
    if is_keylike(byte) {
        let end = keylike_end(path, at);
        Ok((CowStr::Borrowed(&path[at..end]), end))
    } else if byte == b'"' || byte == b'\'' {
        quoted_at(alloc, path, at)
    } else {
        Err(stop(at, PathFault::Key))
    }
}

/// Returns whether a byte is an ASCII digit.
fn is_digit(byte: u8) -> bool
    ensures { result ≡ is_ascii_digit byte }
{
    byte.is_ascii_digit()
}

/// Returns whether all of `bytes` are ASCII digits.
fn are_digits(bytes: &[u8]) -> bool
    ensures { result ≡ list_all is_ascii_digit bytes.now }
{
    bytes.iter().all(|byte| is_digit(*byte))
}

/// Returns whether `run` is a position: ASCII digits without a leading zero, or `0`. `run` must not be empty.
fn is_position(run: &str) -> bool
    ensures { result ≡ spec.is_position run.now }
{
    are_digits(run.as_bytes()) && (run.len() == 1 || byte_at(run, 0) != b'0')
}

/// Returns whether `digits`, which end at the byte offset `end` of `path`, are a position, and a closing bracket
/// follows them.
fn is_closed(path: &str, digits: &str, end: usize) -> bool
    ensures { result ≡ spec.is_closed path.now digits.now end }
{
    is_position(digits) && byte_at(path, end) == b']'
}

/// Reads the position after the opening bracket at the byte offset `at`. Returns the digits of the position, and the
/// offset after the closing bracket. Fails unless a position and a closing bracket follow.
#[tactic(auto, using(toml_span_read::proofs::Places::run_some))]
fn opened_at<'p>(path: &'p str, at: usize) -> Result<(CowStr<'p>, usize), Stop<PathError>>
    requires { slice_index path.now at ≡ left_bracket }
    ensures { PositionGives path.now at result }
{
    let from = at + 1;
    if !is_keylike(byte_at(path, from)) {
        return Err(stop(from, PathFault::Position));
    }
    let end = keylike_end(path, from);
    let digits = &path[from..end];
    if is_closed(path, digits, end) {
        Ok((CowStr::Borrowed(digits), end + 1))
    } else {
        Err(stop(from, PathFault::Position))
    }
}

/// Reads the position in brackets at the byte offset `at`. Returns the digits of the position, and the offset after the
/// closing bracket. Fails if anything else is there.
fn position_at<'p>(path: &'p str, at: usize) -> Result<(CowStr<'p>, usize), Stop<PathError>>
    ensures { PositionGives path.now at result }
{
    if byte_at(path, at) == b'[' {
        opened_at(path, at)
    } else {
        Err(stop(at, PathFault::Step))
    }
}

/// Reads the step at the byte offset `at`: a dot and a key, or a position in brackets. Returns the name of the key or
/// the digits of the position, and the offset after the step. Fails if anything else is there.
fn step_at<'p>(
    alloc: Global,
    path: &'p str,
    at: usize,
) -> Result<(CowStr<'p>, usize), Stop<PathError>>
    requires { IsCharBoundary path.now at }
    ensures { StepGives path.now at result }
{
    match dot(path, at) {
        Some(next) => key_at(alloc, path, next),
        None => position_at(path, at),
    }
}

/// Reads a dotted key with positions, such as `a.b[0]`. Returns the names of its keys and the digits of its positions,
/// in order. Fails at the first place that can't be read.
#[tactic(auto, using(crate::proofs::DottedLemmas::after_first, crate::proofs::DottedLemmas::after_more))]
fn dotted<'p>(alloc: Global, path: &'p str) -> Result<Vec<CowStr<'p>>, Stop<PathError>>
    ensures { Reads (IsDotted path.now) result }
{
    let (first, mut at) = key_at(alloc, path, 0)?;
    let mut parts = vec![in alloc; first]?;
    'steps: while at < path.len() {
        let (part, end) = step_at(alloc, path, at)?;
        parts.push(part)?;
        at = end;
    }
    Ok(parts)
}

/// Appends to `parts` the segments of `path`, which are separated by slashes.
fn push_segments<'p>(path: &'p str, parts: &mut Vec<CowStr<'p>>) -> Result<(), AllocError>
    ensures { OnOk result (map cow_str_bytes parts.new.items
        ≡ map cow_str_bytes parts.old.items ++ segments path.now) }
{
    let (segment, rest) = cut(path);
    parts.push(CowStr::Borrowed(segment))?;
    match rest {
        Some(rest) => push_segments(rest, parts),
        None => Ok(()),
    }
}

/// Returns the segments of `path`: names of keys, and positions of elements in decimal digits.
///
/// An empty path, or one that begins with a slash, is a pointer such as `/a/0`, and can always be read. It has no
/// escapes, unlike a JSON Pointer. Any other path is a dotted key with positions in brackets, such as `a."b/c"[0]`.
/// Fails at the first place that can't be read, or if an allocation fails.
pub fn path_segments<'p>(alloc: Global, path: &'p str) -> Result<Vec<CowStr<'p>>, Stop<PathError>>
    ensures { Reads (IsPath path.now) result }
{
    let mut parts = Vec::new(alloc);
    if path.is_empty() {
        return Ok(parts);
    }
    match path.strip_prefix('/') {
        Some(rest) => {
            push_segments(rest, &mut parts)?;
            Ok(parts)
        }
        None => dotted(alloc, path),
    }
}

/// Returns the value at `path`, which begins at `value`. Returns `None` if `path` names nothing, or if the value at
/// `path`, or a value around it, is taken. An empty path always leads to `value`.
///
/// A segment of the path is the name of a key in a table, or a position in an array (see `path_segments`). Takes time
/// linear in the number of entries of each table on the way.
pub fn value_at<'v, 'de>(value: &'v Value<'de>, path: &[CowStr<'_>]) -> Option<&'v Value<'de>>
    ensures { option_map (λ v. view v.now) result ≡ spec.named (map cow_str_bytes path.now) (view value.now) }
{
    let [segment, rest @ ..] = path else {
        return Some(value);
    };
    value_at(child_of(value, segment.as_ref())?, rest)
}

/// Returns `segments` as string slices, as `Edits` of `toml_span_edit` takes them. Fails if an allocation fails.
pub fn segment_names<'s>(
    alloc: Global,
    segments: &'s [CowStr<'_>],
) -> Result<Vec<&'s str>, AllocError>
    ensures { IfOk result (λ names. map (λ name. name.now) names.items ≡ map cow_str_bytes segments.now) }
{
    let mut names = Vec::new(alloc);
    for segment in segments {
        names.push(segment.as_ref())?;
    }
    Ok(names)
}
