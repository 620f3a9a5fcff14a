//! Reads of arrays of two elements, whose types may differ.
ghost use Rattle.std.specs.Prelude.{◌≡◌, IfErr, IfOk, IsTrue};
ghost use Rattle.toml_span_tree.specs.Value.{is_whole, view};
ghost use Rattle.toml_span_typed.specs.Reads.{Taken};
ghost use Rattle.toml_span_typed.specs.Tuples.{RefusesLength, StopsWith, holds_two, other_length, pair_reads};

use crate::de_helpers::refused;
use crate::deserialize::{Deserialize, read_or_keep};
use std::alloc::Global;
use std::borrow::CowStr;
use toml_span_lex::span::Span;
use toml_span_lex::stop::Stop;
use toml_span_tree::{DeserError, Error, ErrorKind, Value, ValueInner};

// Toolchain: an `impl` for `[T; N]` is refused ("a struct that owns memory and names a lifetime has a field that holds
// a `&mut`, or ..").
/// Reads an array of two elements. For any other number of elements, reads no element, and fails with `Custom` at the
/// array's span: `expected 2 elements, found` and the number.
impl<'de, A: Deserialize<'de>, B: Deserialize<'de>> Deserialize<'de> for (A, B) {
    ghost reads = { pair_reads A.reads B.reads };

    ghost after_alloc_error = { Taken };

    #[tactic(auto, using(crate::proofs::Tuples::two_refused))]
    fn deserialize(alloc: Global, value: &mut Value<'de>) -> Result<(A, B), Stop<DeserError<'de>>> {
        let (first, second) = match two(alloc, value) {
            Ok(elements) => elements,
            Err(stop) => return Err(stop),
        };
        let mut faults: Vec<Error<'de>> = Vec::new(alloc);
        let first: Option<A> = match read_or_keep(alloc, first, &mut faults) {
            Ok(first) => first,
            Err(e) => {
                drop(second);
                return Err(Stop::Memory(e));
            }
        };
        let second: Option<B> = read_or_keep(alloc, second, &mut faults)?;
        match DeserError::from_list(faults) {
            None => Ok((first.unwrap(), second.unwrap())),
            Some(faults) => Err(Stop::Fault(faults)),
        }
    }
}

/// Takes the value, and returns its two elements. Fails with `Wanted` if the value is not an array, and with `Custom`
/// if the array does not have two elements.
fn two<'de>(
    alloc: Global,
    value: &mut Value<'de>,
) -> Result<(Value<'de>, Value<'de>), Stop<DeserError<'de>>>
    requires { IsTrue (is_whole (view value.old)) }
    ensures ok { IfOk result (λ pair. view value.old ≡ holds_two (view pair.0) (view pair.1) value.old.span) }
    ensures err { IfErr result (RefusesLength 2 (view value.old)) }
    ensures taken { Taken (view value.old) (view value.new) }
{
    let span = value.span;
    match value.take() {
        ValueInner::Array(mut elements) => {
            let found = elements.len();
            if found != 2 {
                return Err(miscounted(alloc, 2, found, span));
            }
            let second = elements.pop().unwrap();
            let first = elements.pop().unwrap();
            Ok((first, second))
        }
        other => Err(refused("an array", other, span)),
    }
}

/// Returns the error `Custom` at `span` for an array of `found` elements instead of `wanted`.
fn miscounted<'s>(alloc: Global, wanted: usize, found: usize, span: Span) -> Stop<DeserError<'s>>
    ensures { StopsWith (other_length wanted found span) result }
{
    match format!(in alloc; "expected {wanted} elements, found {found}") {
        Ok(text) => {
            let kind = ErrorKind::Custom(CowStr::Owned(text));
            Stop::Fault(Error::from((kind, span)).into())
        }
        Err(e) => Stop::Memory(e),
    }
}
