//! Reads of values into a `Box` or an `Option`, and of strings with `FromStr`.
ghost use Rattle.std.specs.Prelude.{◌⊎◌};
ghost use Rattle.toml_span_typed.specs.Fields.{AsParsed, AsRead, AsSome};
ghost use Rattle.toml_span_typed.specs.Reads.{Taken, result_map};

use crate::de_helpers::parsed;
use crate::deserialize::Deserialize;
use std::alloc::{AllocError, Global};
use std::char::ParseCharError;
use std::fmt::Display;
use std::str::FromStr;
use toml_span_lex::stop::Stop;
use toml_span_tree::{DeserError, Value};

impl<'de, T: Deserialize<'de>> Deserialize<'de> for Box<T> {
    ghost reads = { λ v r w. T.reads v (result_map (λ b. b.value) r) w };

    ghost after_alloc_error = { λ v w. T.after_alloc_error v w ⊎ AsRead T.reads v w };

    fn deserialize(alloc: Global, value: &mut Value<'de>) -> Result<Box<T>, Stop<DeserError<'de>>> {
        match T::deserialize(alloc, value) {
            Ok(element) => match Box::new(alloc, element) {
                Ok(boxed) => Ok(boxed),
                Err(_) => Err(Stop::Memory(AllocError)),
            },
            Err(stop) => Err(stop),
        }
    }
}

/// Reads the value as a `T`, and returns it in `Some`. If a key is absent, `read_table!` sets a field of type
/// `Option<T>` to `None` without this implementation.
impl<'de, T: Deserialize<'de>> Deserialize<'de> for Option<T> {
    ghost reads = { AsSome T.reads };

    ghost after_alloc_error = { T.after_alloc_error };

    fn deserialize(
        alloc: Global,
        value: &mut Value<'de>,
    ) -> Result<Option<T>, Stop<DeserError<'de>>> {
        Ok(Some(T::deserialize(alloc, value)?))
    }
}

impl<'de> Deserialize<'de> for char {
    ghost reads = { λ v r w. AsParsed ⟦<char as FromStr>⟧.from_str_gives ⟦<ParseCharError as Display>⟧.output v r
        × Taken v w };

    ghost after_alloc_error = { Taken };

    fn deserialize(alloc: Global, value: &mut Value<'de>) -> Result<char, Stop<DeserError<'de>>> {
        parsed(alloc, value)
    }
}

/// A value that is read from a string with `FromStr`. `T` need not implement `Deserialize`.
#[derive(Debug, Drop)]
pub struct Parsed<T> {
    pub value: T,
}

impl<'de, T: FromStr<Err = E> + Drop, E: Display + Drop> Deserialize<'de> for Parsed<T> {
    ghost reads = { λ v r w. AsParsed T.from_str_gives E.output v (result_map (λ p. p.value) r) × Taken v w };

    ghost after_alloc_error = { Taken };

    fn deserialize(
        alloc: Global,
        value: &mut Value<'de>,
    ) -> Result<Parsed<T>, Stop<DeserError<'de>>> {
        Ok(Parsed {
            value: parsed(alloc, value)?,
        })
    }
}
