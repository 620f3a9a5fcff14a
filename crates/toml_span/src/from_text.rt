//! Parses a document and reads it as a type.
ghost use Rattle.std.specs.Prelude.{IfOk, IfErr, Ok, map};
ghost use Rattle.toml_span_tree.specs.Error.{content_of};
ghost use Rattle.toml_span_typed.specs.WithWarnings.{Extends};
ghost use Rattle.toml_span.specs.FromText.{IsReadAs, IsReadWithWarnings, NotRead, NotReadWithWarnings};

use crate::de::parse;
use std::alloc::Global;
use toml_span_lex::stop::Stop;
use toml_span_tree::Error;
use toml_span_typed::{DeserError, Deserialize, DeserializeWithWarnings};

/// Parses a document and reads its root as a `T`.
///
/// Fails with the error of `parse`, with all errors of `T::deserialize`, or with `Stop::Memory` if an allocation fails.
/// The spans of all errors are byte offsets in `text`.
pub fn from_str<'de, T: Deserialize<'de>>(
    alloc: Global,
    text: &'de str,
) -> Result<T, Stop<DeserError<'de>>>
    ensures read { IfOk result (λ x. IsReadAs T.reads text.now (Ok x)) }
    ensures refused { IfErr result (NotRead T.reads text.now) }
{
    let mut root = match parse(alloc, text) {
        Ok(root) => root,
        Err(Stop::Fault(error)) => return Err(Stop::Fault(error.into())),
        Err(Stop::Memory(error)) => return Err(Stop::Memory(error)),
    };
    T::deserialize(alloc, &mut root)
}

/// Does the same as `from_str` for a type whose reads can warn, and appends the warnings to `warnings`, even if the
/// read fails. If the text can't be parsed, `warnings` is unchanged.
pub fn from_str_with_warnings<'de, T: DeserializeWithWarnings<'de>>(
    alloc: Global,
    text: &'de str,
    warnings: &mut Vec<Error<'de>>,
) -> Result<T, Stop<DeserError<'de>>>
    ensures read { IfOk result (λ x. IsReadWithWarnings T.reads text.now (Ok x) (map content_of warnings.old.items)
        (map content_of warnings.new.items)) }
    ensures refused { IfErr result (λ stop. NotReadWithWarnings T.reads text.now stop
        (map content_of warnings.old.items) (map content_of warnings.new.items)) }
    ensures kept { Extends (map content_of warnings.old.items) (map content_of warnings.new.items) }
{
    let mut root = match parse(alloc, text) {
        Ok(root) => root,
        Err(Stop::Fault(refusal)) => return Err(Stop::Fault(refusal.into())),
        Err(Stop::Memory(error)) => return Err(Stop::Memory(error)),
    };
    T::deserialize_with_warnings(alloc, &mut root, warnings)
}
