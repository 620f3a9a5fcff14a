//! Reads of a value with its span.
ghost use Rattle.toml_span_typed.specs.Reads.{spanned};

use crate::deserialize::Deserialize;
use std::alloc::Global;
use toml_span_lex::spanned::Spanned;
use toml_span_lex::stop::Stop;
use toml_span_tree::{DeserError, Value};

impl<'de, T: Deserialize<'de>> Deserialize<'de> for Spanned<T> {
    ghost reads = { spanned T.reads (λ s. s.value) (λ s. s.span) };

    ghost after_alloc_error = { T.after_alloc_error };

    fn deserialize(
        alloc: Global,
        value: &mut Value<'de>,
    ) -> Result<Spanned<T>, Stop<DeserError<'de>>> {
        let span = value.span;
        match T::deserialize(alloc, value) {
            Ok(element) => Ok(Spanned::with_span(element, span)),
            Err(stop) => Err(stop),
        }
    }
}
