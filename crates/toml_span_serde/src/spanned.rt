//! Values with their spans, for types that derive `Deserialize`.
ghost use Rattle.std.specs.Prelude.{◌≡◌, IfOk};
ghost use Rattle.toml_span_serde.specs.Asks.{HasSpan};

use serde::{Deserialize, DeserializeOwned, Deserializer, Format, Name};
use std::alloc::Global;
use toml_span_lex::span::Span;
use toml_span_lex::spanned;

/// The name of a variant by which `Spanned` asks a reader for the start of the next value's span.
pub(crate) const START: &str = "$toml_span::start";

/// The name of a variant by which `Spanned` asks a reader for the end of the next value's span.
pub(crate) const END: &str = "$toml_span::end";

/// A value, or the key of a map, with its span. Comparisons ignore the span.
///
/// A `Spanned` must be read with a `Reader` of this crate, since other formats of serde don't know spans.
#[derive(Debug, Drop)]
#[derive_where(PartialEq, Eq, PartialOrd, Ord; T)]
pub struct Spanned<T> {
    pub value: T,
    #[derive_where(skip(EqHashOrd))]
    pub span: Span,
}

impl<T> From<Spanned<T>> for spanned::Spanned<T> {
    ghost from_gives = { λ read spanned. (spanned.value ≡ read.value) × (spanned.span ≡ read.span) };

    fn from(read: Spanned<T>) -> spanned::Spanned<T> {
        let Spanned { value, span } = read;
        spanned::Spanned { value, span }
    }
}

impl<'de, T: Deserialize<'de>> Deserialize<'de> for Spanned<T> {
    fn deserialize<F: Format>(
        alloc: Global,
        from: &mut Deserializer<'de, '_, F>,
    ) -> Result<Spanned<T>, F::Error>
        ensures { IfOk result (λ read. HasSpan F.picks from.old read.span) }
    {
        let span = span_ahead(from)?;
        let value = T::deserialize(alloc, from)?;
        Ok(Spanned { value, span })
    }
}

impl<T: DeserializeOwned> DeserializeOwned for Spanned<T> {
    fn deserialize_owned<F: Format>(
        alloc: Global,
        from: &mut Deserializer<'_, '_, F>,
    ) -> Result<Spanned<T>, F::Error>
        ensures { IfOk result (λ read. HasSpan F.picks from.old read.span) }
    {
        let span = span_ahead(from)?;
        let value = T::deserialize_owned(alloc, from)?;
        Ok(Spanned { value, span })
    }
}

/// Returns the span of the next value or key, without reading it.
fn span_ahead<F: Format>(from: &mut Deserializer<'_, '_, F>) -> Result<Span, F::Error>
    ensures { IfOk result (λ span. HasSpan F.picks from.old span) }
{
    let start = from.variant(&[Name::exact(START)])?;
    let end = from.variant(&[Name::exact(END)])?;
    Ok(Span { start, end })
}
