//! Reads of floats as `f64` and `f32`.
ghost use Rattle.std.specs.Prelude.{◌≡◌, codes};
ghost use Rattle.std.specs.Float.{binary32, binary64};
ghost use Rattle.toml_span_typed.specs.Floats.{finite_float, or_beyond, read_number};
ghost use Rattle.toml_span_typed.specs.Reads.{Gives, Never};

use crate::de_helpers::refused;
use crate::deserialize::Deserialize;
use crate::deserialize::integers::out_of_range;
use std::alloc::Global;
use toml_span_lex::span::Span;
use toml_span_lex::stop::Stop;
use toml_span_tree::{DeserError, Value, ValueInner};

/// Returns the `f64` nearest to the float `text`, or `None` if the `f64` is not finite.
fn double_of(text: &str) -> Option<f64>
    ensures { result ≡ finite_float binary64 text.now }
{
    let double = fast_float::parse::<f64, _>(text).ok()?;
    if double.is_finite() {
        Some(double)
    } else {
        None
    }
}

/// Returns the `f32` nearest to the float `text`, or `None` if the `f32` is not finite.
fn single_of(text: &str) -> Option<f32>
    ensures { result ≡ finite_float binary32 text.now }
{
    let single = fast_float::parse::<f32, _>(text).ok()?;
    if single.is_finite() {
        Some(single)
    } else {
        None
    }
}

/// Returns the number. If `number` is `None`, fails with `OutOfRange` at `span`, for the number type called `name`.
fn or_out_of_range<'s, T: Drop>(
    number: Option<T>,
    name: &'s str,
    span: Span,
) -> Result<T, Stop<DeserError<'s>>>
    ensures { result ≡ or_beyond name.now span number }
{
    match number {
        Some(number) => Ok(number),
        None => Err(Stop::Fault(out_of_range(name, span))),
    }
}

/// Reads a float as the nearest `f64`. Fails with `OutOfRange` if the `f64` is not finite, as for `inf`, `nan` and
/// `1e400`. To accept these floats too, read a `FloatText`.
impl<'de> Deserialize<'de> for f64 {
    ghost reads = { Gives (read_number (codes "f64") binary64) };

    ghost after_alloc_error = { Never };

    fn deserialize(_alloc: Global, value: &mut Value<'de>) -> Result<f64, Stop<DeserError<'de>>> {
        match value.take() {
            ValueInner::Float(float) => {
                let number = double_of(float.text());
                drop(float);
                or_out_of_range(number, "f64", value.span)
            }
            other => Err(refused("a float", other, value.span)),
        }
    }
}

/// Reads a float as the nearest `f32`. Fails with `OutOfRange` if the `f32` is not finite.
impl<'de> Deserialize<'de> for f32 {
    ghost reads = { Gives (read_number (codes "f32") binary32) };

    ghost after_alloc_error = { Never };

    fn deserialize(_alloc: Global, value: &mut Value<'de>) -> Result<f32, Stop<DeserError<'de>>> {
        match value.take() {
            ValueInner::Float(float) => {
                let number = single_of(float.text());
                drop(float);
                or_out_of_range(number, "f32", value.span)
            }
            other => Err(refused("a float", other, value.span)),
        }
    }
}
