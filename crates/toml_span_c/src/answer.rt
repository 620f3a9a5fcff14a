//! Parses the bytes of a document.
ghost use Rattle.toml_span_c.specs.code.Answers.{IsAnswer};

use std::alloc::Global;
use toml_span::de::parse;
use toml_span::value::Value;
use toml_span::{Error, Stop};

/// The maximum length of a document, in bytes.
pub const BOUND: usize = 16_777_216;

/// The result of parsing the bytes of a document: the text with the tree or the error.
#[derive(Drop)]
pub(crate) enum Answer<'de> {
    Tree(&'de str, Value<'de>),
    Fault(&'de str, Error<'de>),
    /// The bytes are not valid UTF-8, or more than `BOUND`.
    Unread,
    Memory,
}

/// Parses a document. Returns `Unread` if the bytes are more than `BOUND` or not valid UTF-8, and `Memory` if an
/// allocation fails.
pub(crate) fn answer_to<'de>(alloc: Global, bytes: &'de [u8]) -> Answer<'de>
    ensures { IsAnswer bytes.now result }
{
    if bytes.len() > BOUND {
        return Answer::Unread;
    }
    let Ok(text) = str::from_utf8(bytes) else {
        return Answer::Unread;
    };
    match parse(alloc, text) {
        Ok(root) => Answer::Tree(text, root),
        Err(Stop::Fault(error)) => Answer::Fault(text, error),
        Err(Stop::Memory(_)) => Answer::Memory,
    }
}
