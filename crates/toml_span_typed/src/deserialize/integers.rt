//! Reads of integers.
ghost use Rattle.std.specs.Prelude.{◌≡◌, ◌^◌, ℤ, Option, codes, false};
ghost use Rattle.toml_span_tree.specs.Value.{is_taken, view};
ghost use Rattle.toml_span_tree.specs.Errors.{one};
ghost use Rattle.toml_span_typed.specs.code.Integers.{Converts};
ghost use Rattle.toml_span_typed.specs.Reads.{Answers, Gives, Never, read_integer, beyond_range, unsigned, signed};

use crate::de_helpers::refused;
use crate::deserialize::Deserialize;
use std::alloc::Global;
use std::num::TryFromIntError;
use toml_span_lex::span::Span;
use toml_span_lex::stop::Stop;
use toml_span_tree::{DeserError, Error, ErrorKind, Value, ValueInner};

/// Returns the error `OutOfRange` at `span`, for the number type called `name`.
pub(crate) fn out_of_range<'s>(name: &'s str, span: Span) -> DeserError<'s>
    ensures { result ≡ one (beyond_range name.now span) }
{
    Error::from((ErrorKind::OutOfRange(name), span)).into()
}

/// Reads an integer as a `T`, which errors call `name`. Takes the value in every case. Fails with `Wanted`, which
/// expects `name`, if the value is of another kind, and with `OutOfRange` if a `T` can't represent the integer.
fn narrowed<'s, T: TryFrom<i64, Error = TryFromIntError> + Drop>(
    name: &'s str,
    value: &mut Value,
) -> Result<T, Stop<DeserError<'s>>>
    requires { is_taken (view value.old) ≡ false }
    ensures { (held : ℤ → Option T) → Converts T.try_from_gives held
        → Answers (Gives (read_integer name.now held)) Never (view value.old) result (view value.new) }
{
    match value.take() {
        ValueInner::Integer(i) => match T::try_from(i) {
            Ok(n) => Ok(n),
            Err(_) => Err(Stop::Fault(out_of_range(name, value.span))),
        },
        other => Err(refused(name, other, value.span)),
    }
}

impl<'de> Deserialize<'de> for u8 {
    ghost reads = { Gives (read_integer (codes "u8") (unsigned (2 ^ 8))) };

    ghost after_alloc_error = { Never };

    fn deserialize(_alloc: Global, value: &mut Value<'de>) -> Result<u8, Stop<DeserError<'de>>> {
        narrowed("u8", value)
    }
}

impl<'de> Deserialize<'de> for u16 {
    ghost reads = { Gives (read_integer (codes "u16") (unsigned (2 ^ 16))) };

    ghost after_alloc_error = { Never };

    fn deserialize(_alloc: Global, value: &mut Value<'de>) -> Result<u16, Stop<DeserError<'de>>> {
        narrowed("u16", value)
    }
}

impl<'de> Deserialize<'de> for u32 {
    ghost reads = { Gives (read_integer (codes "u32") (unsigned (2 ^ 32))) };

    ghost after_alloc_error = { Never };

    fn deserialize(_alloc: Global, value: &mut Value<'de>) -> Result<u32, Stop<DeserError<'de>>> {
        narrowed("u32", value)
    }
}

impl<'de> Deserialize<'de> for u64 {
    ghost reads = { Gives (read_integer (codes "u64") (unsigned (2 ^ 64))) };

    ghost after_alloc_error = { Never };

    fn deserialize(_alloc: Global, value: &mut Value<'de>) -> Result<u64, Stop<DeserError<'de>>> {
        narrowed("u64", value)
    }
}

impl<'de> Deserialize<'de> for usize {
    ghost reads = { Gives (read_integer (codes "usize") (unsigned (2 ^ 64))) };

    ghost after_alloc_error = { Never };

    fn deserialize(_alloc: Global, value: &mut Value<'de>) -> Result<usize, Stop<DeserError<'de>>> {
        narrowed("usize", value)
    }
}

impl<'de> Deserialize<'de> for i8 {
    ghost reads = { Gives (read_integer (codes "i8") (signed (2 ^ 7))) };

    ghost after_alloc_error = { Never };

    fn deserialize(_alloc: Global, value: &mut Value<'de>) -> Result<i8, Stop<DeserError<'de>>> {
        narrowed("i8", value)
    }
}

impl<'de> Deserialize<'de> for i16 {
    ghost reads = { Gives (read_integer (codes "i16") (signed (2 ^ 15))) };

    ghost after_alloc_error = { Never };

    fn deserialize(_alloc: Global, value: &mut Value<'de>) -> Result<i16, Stop<DeserError<'de>>> {
        narrowed("i16", value)
    }
}

impl<'de> Deserialize<'de> for i32 {
    ghost reads = { Gives (read_integer (codes "i32") (signed (2 ^ 31))) };

    ghost after_alloc_error = { Never };

    fn deserialize(_alloc: Global, value: &mut Value<'de>) -> Result<i32, Stop<DeserError<'de>>> {
        narrowed("i32", value)
    }
}

impl<'de> Deserialize<'de> for i64 {
    ghost reads = { Gives (read_integer (codes "i64") (signed (2 ^ 63))) };

    ghost after_alloc_error = { Never };

    fn deserialize(_alloc: Global, value: &mut Value<'de>) -> Result<i64, Stop<DeserError<'de>>> {
        narrowed("i64", value)
    }
}

impl<'de> Deserialize<'de> for isize {
    ghost reads = { Gives (read_integer (codes "isize") (signed (2 ^ 63))) };

    ghost after_alloc_error = { Never };

    fn deserialize(_alloc: Global, value: &mut Value<'de>) -> Result<isize, Stop<DeserError<'de>>> {
        narrowed("isize", value)
    }
}
