//! Reads of strings with `FromStr` or with a function, for use as the body of `deserialize`.
ghost use Rattle.std.specs.Fn.{FnOnceReturnsAt};
ghost use Rattle.std.specs.Prelude.{◌≡◌, false};
ghost use Rattle.toml_span_tree.specs.Value.{is_taken, view};
ghost use Rattle.toml_span_typed.specs.Fields.{ParsesAll, ParsesWith};
ghost use Rattle.toml_span_typed.specs.Reads.{Taken};

use crate::de_helpers::{parse, unparsed};
use std::alloc::Global;
use std::fmt::Display;
use std::str::FromStr;
use toml_span_lex::stop::Stop;
use toml_span_tree::{DeserError, Value};

/// Does the same as `parse`, but returns the error in a `DeserError`, so that `deserialize` can pass it on with `?`.
pub fn parsed<'de, T: FromStr<Err = E>, E: Display + Drop>(
    alloc: Global,
    value: &mut Value<'de>,
) -> Result<T, Stop<DeserError<'de>>>
    requires { is_taken (view value.old) ≡ false }
    ensures answer { ParsesAll T.from_str_gives E.output (view value.old) result }
    ensures taken { Taken (view value.old) (view value.new) }
{
    match parse(alloc, value) {
        Ok(parsed) => Ok(parsed),
        Err(Stop::Fault(error)) => Err(Stop::Fault(error.into())),
        Err(Stop::Memory(e)) => Err(Stop::Memory(e)),
    }
}

/// Reads a value's string with the function `make`. Use it as the body of `deserialize` for a type that owns text,
/// because `FromStr` has no allocator to copy the text with.
///
/// Takes the value in every case. Callers must prove that it has not been taken already (`is_taken`). Fails with
/// `Wanted`, which expects "a string", if the value is of another kind; `make` is not called then. If `make` fails with
/// `Stop::Fault`, the error is `Custom`: `failed to parse string: ` and the text of the error of `make`. Both errors
/// are at the value's span. Fails with `Stop::Memory` if `make` does, or if an allocation fails.
pub fn parse_with<'de, T: Drop, E: Display + Drop, F: FnOnce(&str) -> Result<T, Stop<E>> + Drop>(
    alloc: Global,
    value: &mut Value<'de>,
    make: F,
) -> Result<T, Stop<DeserError<'de>>>
    requires there { is_taken (view value.old) ≡ false }
    requires callable { F.IsAlwaysCallable make }
    ensures answer { ParsesWith (FnOnceReturnsAt F.FnOnce make) E.output (view value.old) result }
    ensures taken { Taken (view value.old) (view value.new) }
{
    let text = match value.take_string(None) {
        Ok(text) => text,
        Err(error) => return Err(error.into()),
    };
    let made = make(text.as_str());
    drop(text);
    match made {
        Ok(made) => Ok(made),
        Err(Stop::Fault(refusal)) => Err(unparsed(alloc, refusal, value.span)?.into()),
        Err(Stop::Memory(e)) => Err(Stop::Memory(e)),
    }
}
