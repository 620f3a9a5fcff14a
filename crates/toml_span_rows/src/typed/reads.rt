//! Reads values as the type that a row names.
use crate::output::Out;
use crate::trees::shown::push_owned;
use crate::typed::odd::Odd;
use crate::typed::owned::Name;
use crate::typed::structs::{Holders, Panel, Range, Ratio, Relay, Server, Target, Upload};
use std::alloc::Global;
use std::borrow::CowStr;
use std::collections::{BTreeMap, HashMap};
use std::fmt::Debug;
use toml_span::value::{DateText, FloatText, Value};
use toml_span::{DeserError, Deserialize, Parsed, Spanned, Stop};

/// Reads a value as a type, and prints the result. If an allocation fails and the value is still whole, reads the value
/// once more. Returns `false` if the value is not whole.
fn push_as<'de, T: Deserialize<'de> + Debug>(
    alloc: Global,
    value: &mut Value<'de>,
    out: &mut Out,
) -> bool {
    if !value.is_whole() {
        return false;
    }
    let read = T::deserialize(alloc, value);
    let is_told = matches!(&read, Ok(_) | Err(Stop::Fault(_)));
    out.debug(read);
    if !is_told && value.is_whole() {
        out.push_str("\n");
        out.debug(T::deserialize(alloc, value));
    }
    true
}

/// Reads a value as the type with this name, and prints the result. Returns `false` for an unknown name, or if the
/// value is not whole.
pub fn push_read<'de>(alloc: Global, name: &str, value: &mut Value<'de>, out: &mut Out) -> bool {
    match name {
        "u8" => push_as::<u8>(alloc, value, out),
        "i64" => push_as::<i64>(alloc, value, out),
        "bool" => push_as::<bool>(alloc, value, out),
        "f64" => push_as::<f64>(alloc, value, out),
        "f32" => push_as::<f32>(alloc, value, out),
        "String" => push_as::<String>(alloc, value, out),
        "CowStr" => push_cow(alloc, value, out),
        "FloatText" => push_as::<FloatText>(alloc, value, out),
        "DateText" => push_as::<DateText<'de>>(alloc, value, out),
        "Vec<u8>" => push_as::<Vec<u8>>(alloc, value, out),
        "Vec<String>" => push_as::<Vec<String>>(alloc, value, out),
        "Vec<Spanned<u8>>" => push_as::<Vec<Spanned<u8>>>(alloc, value, out),
        "BTreeMap<String,u8>" => push_as::<BTreeMap<String, u8>>(alloc, value, out),
        "HashMap<String,u8>" => push_as::<HashMap<String, u8>>(alloc, value, out),
        "Box<u8>" => push_as::<Box<u8>>(alloc, value, out),
        "char" => push_as::<char>(alloc, value, out),
        "Parsed<u8>" => push_as::<Parsed<u8>>(alloc, value, out),
        _ => push_own(alloc, name, value, out),
    }
}

/// Reads a value as the type of this crate with this name, and prints the result. Returns `false` for an unknown name,
/// or if the value is not whole.
fn push_own<'de>(alloc: Global, name: &str, value: &mut Value<'de>, out: &mut Out) -> bool {
    match name {
        "Vec<Odd>" => push_as::<Vec<Odd>>(alloc, value, out),
        "Odd" => push_as::<Odd>(alloc, value, out),
        "Server" => push_as::<Server<'de>>(alloc, value, out),
        "Holders" => push_as::<Holders>(alloc, value, out),
        "Upload" => push_as::<Upload>(alloc, value, out),
        "Range" => push_as::<Range>(alloc, value, out),
        "Target" => push_as::<Target>(alloc, value, out),
        "Relay" => push_as::<Relay>(alloc, value, out),
        "Panel" => push_as::<Panel>(alloc, value, out),
        "Ratio" => push_as::<Ratio>(alloc, value, out),
        "Name" => push_as::<Name>(alloc, value, out),
        _ => false,
    }
}

/// Reads a value as a `CowStr`. Prints the string, and whether it is owned. Returns `false` if the value is not whole.
fn push_cow(alloc: Global, value: &mut Value<'_>, out: &mut Out) -> bool {
    if !value.is_whole() {
        return false;
    }
    match CowStr::deserialize(alloc, value) {
        Ok(text) => {
            out.debug(&text);
            push_owned(&text, out);
            drop(text);
        }
        other => out.debug(other),
    }
    true
}

/// Reads a value as `T`, and returns the errors. Returns `None` if the read succeeds, if the value is not whole, or if
/// an allocation fails.
fn errors_as<'de, T: Deserialize<'de>>(
    alloc: Global,
    value: &mut Value<'de>,
    out: &mut Out,
) -> Option<DeserError<'de>> {
    if !value.is_whole() {
        return None;
    }
    match T::deserialize(alloc, value) {
        Ok(_) => None,
        Err(stop) => out.ok(stop.fault()),
    }
}

/// Reads the value at `place` as the type with this name, and returns the errors. Returns `None` for an unknown type or
/// place, and in the cases of `errors_as`.
pub fn errors_at<'de>(
    alloc: Global,
    name: &str,
    root: &mut Value<'de>,
    place: &'de str,
    out: &mut Out,
) -> Option<DeserError<'de>> {
    let value = root.pointer_mut(place)?;
    match name {
        "bool" => errors_as::<bool>(alloc, value, out),
        "Vec<u8>" => errors_as::<Vec<u8>>(alloc, value, out),
        "Vec<Odd>" => errors_as::<Vec<Odd>>(alloc, value, out),
        "Range" => errors_as::<Range>(alloc, value, out),
        "Target" => errors_as::<Target>(alloc, value, out),
        "Name" => errors_as::<Name>(alloc, value, out),
        _ => None,
    }
}
