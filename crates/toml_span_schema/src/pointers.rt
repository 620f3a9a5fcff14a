//! JSON pointers, which name places in a document.

use json::Value as Json;
use std::alloc::{AllocError, Global};

/// Appends a slash and `name` to a pointer, with each `~` and `/` in `name` escaped.
pub(crate) fn push_step(pointer: &mut String, name: &str) -> Result<(), AllocError> {
    pointer.push('/')?;
    for c in name.chars() {
        match c {
            '~' => pointer.push_str("~0")?,
            '/' => pointer.push_str("~1")?,
            _ => pointer.push(c)?,
        }
    }
    Ok(())
}

/// Returns `pointer` followed by a slash and `name`, with each `~` and `/` in `name` escaped.
pub(crate) fn with_step(alloc: Global, pointer: &str, name: &str) -> Result<String, AllocError> {
    let mut made = String::from_str(alloc, pointer)?;
    push_step(&mut made, name)?;
    Ok(made)
}

/// Returns a step of a pointer with the escapes `~0` and `~1` decoded, or `None` if the step has another escape.
fn unescaped(alloc: Global, step: &str) -> Result<Option<String>, AllocError> {
    let mut name = String::new(alloc);
    let mut after_tilde = false;
    for c in step.chars() {
        match (after_tilde, c) {
            (true, '0') => name.push('~')?,
            (true, '1') => name.push('/')?,
            (true, _) => return Ok(None),
            (false, '~') => {}
            (false, _) => name.push(c)?,
        }
        after_tilde = !after_tilde && c == '~';
    }
    Ok(if after_tilde { None } else { Some(name) })
}

/// Returns the element or member that a step of a pointer names in a value. Returns `None` if it does not exist, or if
/// the step has an invalid escape. The position of an element is a 64-bit unsigned integer.
fn inside<'v, 'a>(
    alloc: Global,
    value: &'v Json<'a>,
    step: &str,
) -> Result<Option<&'v Json<'a>>, AllocError> {
    if let Json::Array(_) = value {
        return match fast_float::parse_u64(step.as_bytes()) {
            Ok(at) => Ok(value.at(at as usize)),
            Err(_) => Ok(None),
        };
    }
    match unescaped(alloc, step)? {
        Some(name) => Ok(value.get(name.as_str())),
        None => Ok(None),
    }
}

/// Returns the value that the steps of a pointer name inside `value`, or `None` if it does not exist.
fn walked<'v, 'a>(
    alloc: Global,
    value: &'v Json<'a>,
    steps: &[&str],
) -> Result<Option<&'v Json<'a>>, AllocError> {
    let [step, rest @ ..] = steps else {
        return Ok(Some(value));
    };
    match inside(alloc, value, *step)? {
        Some(next) => walked(alloc, next, rest),
        None => Ok(None),
    }
}

/// Returns the value that a pointer names inside `root`, or `None` if it does not exist.
pub(crate) fn pointed<'v, 'a>(
    alloc: Global,
    root: &'v Json<'a>,
    pointer: &str,
) -> Result<Option<&'v Json<'a>>, AllocError> {
    let mut steps = Vec::new(alloc);
    for step in pointer.split('/').skip(1) {
        steps.push(step)?;
    }
    walked(alloc, root, steps.as_slice())
}
