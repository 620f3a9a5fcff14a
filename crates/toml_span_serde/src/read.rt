//! Reads documents and values as types.
ghost use Rattle.std.specs.Prelude.{◌≡◌, ⊤, IfErr, OnOk};
ghost use Rattle.toml_span_tree.specs.Value.{view};
ghost use Rattle.toml_span_serde.specs.Misfits.{HasLine, HasTree, IsAt, IsRefused};

use crate::misfit::{Error, Misfit};
use crate::reader::{Misread, Reader};
use crate::row::Row;
use serde::{Deserialize, DeserializeOwned, Deserializer};
use std::alloc::Global;
use toml_span::parse;
use toml_span_lex::lines::line_info;
use toml_span_lex::stop::Stop;
use toml_span_tree::Value;

/// Reads a document as a type that derives `Deserialize`.
///
/// Types such as `&str` borrow from the text. They can be read only from strings and keys whose value is empty or
/// equals the text at their span, so not from a string with an escape.
///
/// Fails with `Error::Refused` if the text is not valid TOML, and with `Error::Misfit` if a value does not fit the
/// type. Fails with `Stop::Memory` if an allocation fails.
pub fn from_str<'de, T: Deserialize<'de>>(
    alloc: Global,
    text: &'de str,
) -> Result<T, Stop<Error<'de>>>
    ensures ok { OnOk result (HasTree text.now (λ _. ⊤)) }
    ensures refused { IfErr result (IsRefused text.now) }
{
    let root = match parse(alloc, text) {
        Ok(root) => root,
        Err(Stop::Memory(e)) => return Err(Stop::Memory(e)),
        Err(Stop::Fault(error)) => return Err(Stop::Fault(Error::Refused(error))),
    };
    let read = read_lent(alloc, text, &root);
    drop(root);
    match read {
        Ok(read) => Ok(read),
        Err(Stop::Memory(e)) => Err(Stop::Memory(e)),
        Err(Stop::Fault(misfit)) => Err(Stop::Fault(Error::Misfit(lined(text, misfit)))),
    }
}

/// Reads a value as a type that derives `Deserialize` and borrows nothing. Fails with a `Misfit` without line and
/// column if the value does not fit the type. Fails with `Stop::Memory` if an allocation fails.
#[tactic(auto, using(crate::proofs::Places::stopped_in_order))]
pub fn from_value<T: DeserializeOwned>(alloc: Global, value: &Value<'_>) -> Result<T, Stop<Misfit>>
    ensures { IfErr result (IsAt (view value.now)) }
{
    let row = match Row::new(alloc, value) {
        Ok(row) => row,
        Err(e) => return Err(Stop::Memory(e)),
    };
    match read_owned(alloc, &mut row.reader(alloc)) {
        Ok(read) => Ok(read),
        Err(stop) => Err(row.stopped(alloc, stop)),
    }
}

/// Reads the tree `root` of the text as a type that may borrow from the text. Fails if a value does not fit the type.
#[tactic(auto, using(crate::proofs::Places::stopped_in_order))]
fn read_lent<'de, T: Deserialize<'de>>(
    alloc: Global,
    text: &'de str,
    root: &Value<'_>,
) -> Result<T, Stop<Misfit>>
    ensures { IfErr result (IsAt (view root.now)) }
{
    let row = match Row::new(alloc, root) {
        Ok(row) => row,
        Err(e) => return Err(Stop::Memory(e)),
    };
    match read_by(alloc, text.as_bytes(), &mut row.reader(alloc)) {
        Ok(read) => Ok(read),
        Err(stop) => Err(row.stopped(alloc, stop)),
    }
}

/// Reads the next value as a type that may borrow from `input`. Fails if the value does not fit the type.
fn read_by<'de, T: Deserialize<'de>>(
    alloc: Global,
    input: &'de [u8],
    reader: &mut Reader<'_, '_>,
) -> Result<T, Stop<Misread>> {
    // serde's trait promises nothing about the result, so this function has no contract. Rows test each `Reason`.
    T::deserialize(alloc, &mut Deserializer::new(input, reader))
}

/// Reads the next value as a type that borrows nothing. Fails if the value does not fit the type.
fn read_owned<T: DeserializeOwned>(
    alloc: Global,
    reader: &mut Reader<'_, '_>,
) -> Result<T, Stop<Misread>> {
    T::deserialize_owned(alloc, &mut Deserializer::new(&[], reader))
}

/// Sets the line and the column of a misfit from its span's start in the text. Leaves them unset if the start is after
/// the end of the text.
fn lined(text: &str, mut misfit: Misfit) -> Misfit
    ensures place { (result.span ≡ misfit.span) × (result.path ≡ misfit.path) }
    ensures line { HasLine text.now result }
{
    if misfit.span.start <= text.len() {
        misfit.line_info = Some(line_info(text, misfit.span.start));
    }
    misfit
}
