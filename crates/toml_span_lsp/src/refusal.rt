//! The errors with which the server refuses requests.
use std::alloc::Global;
use toml_span_lex::stop::Stop;

/// The content of a frame is not JSON.
pub(crate) const PARSE_ERROR: i64 = -32700;

/// The content of a frame is JSON but not a valid message, or a request came in the wrong phase of the server.
pub(crate) const INVALID_REQUEST: i64 = -32600;

/// The method of a request is not known.
pub(crate) const METHOD_NOT_FOUND: i64 = -32601;

/// A parameter of a request is missing, or has the wrong type.
pub(crate) const INVALID_PARAMS: i64 = -32602;

/// A request came before `initialize`.
pub(crate) const NOT_INITIALIZED: i64 = -32002;

/// The client cancelled a request.
pub(crate) const REQUEST_CANCELLED: i64 = -32800;

/// A request was refused for the reason in the message.
pub(crate) const REQUEST_FAILED: i64 = -32803;

/// Why a request is answered with an error.
#[derive(Drop)]
pub(crate) struct Refusal {
    pub code: i64,
    pub message: String,
}

/// Returns `Stop::Fault` with a refusal that has a copy of `message`, or `Stop::Memory` if an allocation fails.
pub(crate) fn refused(alloc: Global, code: i64, message: &str) -> Stop<Refusal> {
    match String::from_str(alloc, message) {
        Ok(message) => Stop::Fault(Refusal { code, message }),
        Err(error) => Stop::Memory(error),
    }
}
