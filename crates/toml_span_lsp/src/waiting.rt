//! Looks at messages that have been read but not carried out yet.
use crate::frames::{Framed, frame};
use crate::incoming::{Id, Message, message_of, text_in};
use crate::methods::{Method, method_named};
use crate::reading::{TextName, is_too_long};
use crate::state::{Phase, Server};
use json::{Error, Scratch, Value};
use std::alloc::{AllocError, Global};

/// The notification that cancels a request.
const CANCEL: &str = "$/cancelRequest";

/// The length in bytes of the content of a message up to which `next_text` looks at it.
const LONGEST_REQUEST: usize = 65_536;

/// Returns whether the message in `content` cancels the request `id`.
fn is_cancellation(alloc: Global, content: &[u8], id: Id<'_>) -> Result<bool, AllocError> {
    let text = str::from_utf8(content).unwrap_or("");
    if !text.contains(CANCEL) {
        return Ok(false);
    }
    let mut scratch = Scratch::new(alloc);
    let value = match Value::from_slice(alloc, content, &mut scratch) {
        Ok(value) => value,
        Err(Error::OutOfMemory) => return Err(AllocError),
        Err(_) => return Ok(false),
    };
    let Message::Call(call) = message_of(&value) else {
        return Ok(false);
    };
    let is_asked = match (id, call.params.get("id")) {
        (Id::Number(number), Some(value)) => value.as_i64() == Some(number),
        (Id::Text(text), Some(value)) => value.as_str() == Some(text),
        _ => false,
    };
    Ok(call.id.is_none() && call.method == CANCEL && is_asked)
}

/// Returns whether a message in `waiting`, which are frames and maybe a part of one, cancels the request `id`.
pub(crate) fn is_cancelled(alloc: Global, waiting: &[u8], id: Id<'_>) -> Result<bool, AllocError> {
    let mut rest = waiting;
    for _ in 0..waiting.len() {
        let Framed::Whole { start, end } = frame(rest) else {
            return Ok(false);
        };
        if is_cancellation(alloc, rest.get(start..end).unwrap_or(&[]), id)? {
            return Ok(true);
        }
        rest = rest.get(end..).unwrap_or(&[]);
    }
    Ok(false)
}

/// Returns the text of the open document that the request in the first frame of `bytes` is about and that has to be
/// read for it. Returns `None` if there is no whole frame, if the frame has another message or a very long one, or if
/// the document is too long to be read.
pub(crate) fn next_text(
    alloc: Global,
    server: &Server,
    bytes: &[u8],
) -> Result<Option<TextName>, AllocError> {
    let Framed::Whole { start, end } = frame(bytes) else {
        return Ok(None);
    };
    if server.phase != Phase::Running || end.saturating_sub(start) > LONGEST_REQUEST {
        return Ok(None);
    }
    let content = bytes.get(start..end).unwrap_or(&[]);
    let mut scratch = Scratch::new(alloc);
    let value = match Value::from_slice(alloc, content, &mut scratch) {
        Ok(value) => value,
        Err(Error::OutOfMemory) => return Err(AllocError),
        Err(_) => return Ok(None),
    };
    let Message::Call(call) = message_of(&value) else {
        return Ok(None);
    };
    let uri = text_in(call.params, &["textDocument", "uri"]).unwrap_or("");
    let is_read = method_named(call.method).map_or(false, |method| method != Method::Diagnose);
    match server.state.documents.get(uri) {
        Some(open) if is_read && !is_too_long(open) => {
            Ok(Some(TextName::new(alloc, uri, open.revision)?))
        }
        _ => Ok(None),
    }
}
