//! Laws: facts that follow from the contracts of this crate.
ghost use Rattle.std.specs.Prelude.{◌≡◌, IfOk};
ghost use Rattle.toml_span_serde.specs.Ahead.{ahead};
ghost use Rattle.toml_span_serde.specs.Reads.{BeginsAt};

use crate::reader::{Misread, Reader};
use crate::spanned::Spanned;
use serde::{Deserialize, Deserializer};
use std::alloc::Global;
use toml_span_lex::stop::Stop;

/// A `Spanned` that is read from a tree has the span of the value or key that it was read from.
pub fn spanned_has_its_bytes<'de, T: Deserialize<'de>>(
    alloc: Global,
    input: &'de [u8],
    reader: &mut Reader<'_, '_>,
) -> Result<Spanned<T>, Stop<Misread>>
    ensures { IfOk result (λ read. BeginsAt read.span (ahead reader.old)) }
{
    Spanned::deserialize(alloc, &mut Deserializer::new(input, reader))
}
