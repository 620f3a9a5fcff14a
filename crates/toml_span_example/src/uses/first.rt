//! The first example in README.md: parses a text, and describes a value or the error.
use std::alloc::{AllocError, Global};
use toml_span::parse;
use toml_span_mistakes::{Style, render_stop};

/// Returns a sentence with the span of the value at `/server/port`, or that there is no such value. If the text is not
/// valid TOML, returns the report of the error.
pub fn describe_port(alloc: Global, text: &str) -> Result<String, AllocError> {
    match parse(alloc, text) {
        Ok(root) => match root.pointer("/server/port") {
            Some(port) => format!(in alloc;
                "the port is at {}..{}",
                port.span.start, port.span.end
            ),
            None => format!(in alloc; "there is no port"),
        },
        Err(stop) => render_stop(alloc, Style::Plain, stop.convert(), "server.toml", text),
    }
}
