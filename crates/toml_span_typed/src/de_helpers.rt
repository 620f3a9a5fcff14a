//! Helpers for implementations of `Deserialize`.
ghost use Rattle.std.specs.Prelude.{◌≡◌, IfOk, false};
ghost use Rattle.toml_span_lex.specs.declared.stop.Stop.TheVariants.{Fault};
ghost use Rattle.toml_span_tree.specs.Error.{content_of};
ghost use Rattle.toml_span_tree.specs.Node.{node};
ghost use Rattle.toml_span_tree.specs.Value.{inner_view, is_taken, wrong_kind, view};
ghost use Rattle.toml_span_tree.specs.Errors.{one};
ghost use Rattle.toml_span_typed.specs.Parse.{Parses, ReportsRefusal};
ghost use Rattle.toml_span_typed.specs.Reads.{Taken};

mod strings;
mod table_helper;

use std::alloc::{AllocError, Global};
use std::borrow::CowStr;
use std::fmt::Display;
use std::str::FromStr;
pub use strings::{parse_with, parsed};
pub use table_helper::{TableHelper, Unfinished, name_of};
use toml_span_lex::span::Span;
use toml_span_lex::stop::Stop;
use toml_span_tree::{DeserError, Error, ErrorKind, Value, ValueInner};

/// Returns the error `Wanted` at `span`. `expected` describes the expected value, such as "a table". `found` is the
/// value that is there instead; the error contains the name of its kind. Does not allocate.
pub fn expected<'s>(expected: &'s str, found: ValueInner, span: Span) -> Error<'s>
    ensures { content_of result ≡ wrong_kind expected.now (node (inner_view found.entry) span) }
{
    Error::from((
        ErrorKind::Wanted {
            expected,
            found: found.type_str(),
        },
        span,
    ))
}

/// Returns the error `expected(wanted, found, span)` as a `Stop::Fault`.
pub(crate) fn refused<'s>(wanted: &'s str, found: ValueInner, span: Span) -> Stop<DeserError<'s>>
    ensures { result ≡ Fault (one (wrong_kind wanted.now (node (inner_view found.entry) span))) }
{
    Stop::Fault(expected(wanted, found, span).into())
}

/// Reads a value's string with `FromStr`. Takes the value in every case. Callers must prove that it has not been taken
/// already (`is_taken`).
///
/// Fails with `Wanted`, which expects "a string", if the value is of another kind. If `FromStr` fails, the error is
/// `Custom`: `failed to parse string: ` and the text of the error of `FromStr`. Both errors are at the value's span.
/// Only the text of `Custom` is allocated, so `Stop::Memory` is possible only if `FromStr` fails.
pub fn parse<'de, T: FromStr<Err = E>, E: Display + Drop>(
    alloc: Global,
    value: &mut Value<'de>,
) -> Result<T, Stop<Error<'de>>>
    requires { is_taken (view value.old) ≡ false }
    ensures answer { Parses T.from_str_gives E.output (view value.old) result }
    ensures taken { Taken (view value.old) (view value.new) }
{
    let text = match value.take_string(None) {
        Ok(text) => text,
        Err(error) => return Err(Stop::Fault(error)),
    };
    let read = text.as_str().parse::<T>();
    drop(text);
    match read {
        Ok(parsed) => Ok(parsed),
        Err(refusal) => match unparsed(alloc, refusal, value.span) {
            Ok(error) => Err(Stop::Fault(error)),
            Err(e) => Err(Stop::Memory(e)),
        },
    }
}

/// Returns the error `Custom` at `span` for a string that could not be read because of the error `refusal`.
fn unparsed<'s, E: Display + Drop>(
    alloc: Global,
    refusal: E,
    span: Span,
) -> Result<Error<'s>, AllocError>
    ensures { IfOk result (λ error. ReportsRefusal (E.output refusal) span (content_of error)) }
{
    let shown = refusal.to_string(alloc)?;
    let message = format!(in alloc; "failed to parse string: {shown}")?;
    Ok(Error::from((ErrorKind::Custom(CowStr::Owned(message)), span)))
}
