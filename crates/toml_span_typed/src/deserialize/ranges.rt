//! Reads of integers that must be in a range.
ghost use Rattle.std.specs.Prelude.{◌≡◌, ◌⊎◌, ◌++◌, IfOk, OnOk, option_map, string_bytes};
ghost use Rattle.std.specs.Fmt.{signed_decimal};
ghost use Rattle.toml_span_tree.specs.Error.{content_of};
ghost use Rattle.toml_span_tree.specs.Value.{view};
ghost use Rattle.toml_span_typed.specs.Ranges as spec;
ghost use Rattle.toml_span_typed.specs.Ranges.{in_range, range_fault};
ghost use Rattle.toml_span_typed.specs.Reads.{Unchanged, result_map};

use crate::deserialize::Deserialize;
use std::alloc::{AllocError, Global};
use std::borrow::CowStr;
use std::fmt::Write;
use std::num::TryFromIntError;
use toml_span_lex::span::Span;
use toml_span_lex::stop::Stop;
use toml_span_tree::{DeserError, Error, ErrorKind, Value};

/// An integer from `LOW` to `HIGH`, both included. `read_table!` reads a field with `range(LOW..=HIGH)` as this type.
#[derive(Debug, Drop)]
pub struct InRange<T, const LOW: i64, const HIGH: i64> {
    pub value: T,
}

/// Reads an integer as a `T`. If the integer is not in the range, fails with `Marked`, with the code `out-of-range`, at
/// the value's span, even if a `T` can't represent the integer. The message names the range and the integer.
impl<
    'de,
    T: Deserialize<'de> + TryFrom<i64, Error = TryFromIntError>,
    const LOW: i64,
    const HIGH: i64,
> Deserialize<'de> for InRange<T, LOW, HIGH> {
    ghost reads = { λ v r w. in_range LOW HIGH T.Deserialize.reads v (result_map (λ n. n.value) r) w };

    ghost after_alloc_error = { λ v w. T.Deserialize.after_alloc_error v w ⊎ Unchanged v w };

    fn deserialize(
        alloc: Global,
        value: &mut Value<'de>,
    ) -> Result<InRange<T, LOW, HIGH>, Stop<DeserError<'de>>> {
        if let Some(fault) = range_fault(alloc, LOW, HIGH, value)? {
            return Err(fault.into());
        }
        match T::deserialize(alloc, value) {
            Ok(value) => Ok(InRange { value }),
            Err(stop) => Err(stop),
        }
    }
}

/// Returns the error if the value is an integer outside the range `low..=high`, or `None` for any other value.
fn range_fault<'s>(
    alloc: Global,
    low: i64,
    high: i64,
    value: &Value,
) -> Result<Option<Error<'s>>, AllocError>
    ensures { IfOk result (λ fault. option_map content_of fault ≡ spec.range_fault low high (view value.now)) }
{
    match value.as_integer() {
        Some(found) if found < low || high < found => {
            Ok(Some(out_of_range(alloc, low, high, value.span, found)?))
        }
        _ => Ok(None),
    }
}

/// Returns the error at `span` for the integer `found`, which is not in the range `low..=high`.
fn out_of_range<'s>(
    alloc: Global,
    low: i64,
    high: i64,
    span: Span,
    found: i64,
) -> Result<Error<'s>, AllocError>
    ensures { IfOk result (λ fault. content_of fault ≡ spec.out_of_range low high span found) }
{
    Ok(outside(alloc, range_message(alloc, low, high, found)?, span))
}

/// Returns the error with this message at `span`, the span of a number that is not in a range.
pub(crate) fn outside<'s>(alloc: Global, message: String, span: Span) -> Error<'s>
    ensures { content_of result ≡ spec.outside (string_bytes message) span }
{
    let kind = ErrorKind::Marked {
        code: "out-of-range",
        message: CowStr::Owned(message),
        places: Vec::new(alloc),
    };
    Error::from((kind, span))
}

/// Returns the message for the integer `found`, which is not in the range `low..=high`.
#[tactic(auto, unfolding(crate::specs::Ranges::range_message))]
fn range_message(alloc: Global, low: i64, high: i64, found: i64) -> Result<String, AllocError>
    ensures { IfOk result (λ message. string_bytes message ≡ spec.range_message low high found) }
{
    let mut out = String::from_str(alloc, "expected a value in ")?;
    push_integer(low, &mut out)?;
    out.push_str("..=")?;
    push_integer(high, &mut out)?;
    out.push_str(", found ")?;
    push_integer(found, &mut out)?;
    Ok(out)
}

/// Appends an integer in decimal to `out`.
fn push_integer(number: i64, out: &mut String) -> Result<(), AllocError>
    ensures { OnOk result (string_bytes out.new ≡ string_bytes out.old ++ signed_decimal number) }
{
    write!(out, "{number}")
}
