//! The output of the program.
use std::alloc::{AllocError, Global};
use std::fmt::{Debug, Display};
use toml_span::Span;

/// A text to which parts are appended. It records whether an allocation failed, so that callers need not check.
#[derive(Drop)]
pub struct Out {
    pub text: String,
    /// Whether an allocation failed.
    pub out_of_memory: bool,
}

impl Out {
    /// Returns an empty output.
    pub fn new(alloc: Global) -> Out {
        Out {
            text: String::new(alloc),
            out_of_memory: false,
        }
    }

    /// Returns the value that a call returned. If the call failed, records a failed allocation and returns `None`.
    pub fn ok<T: Drop>(&mut self, made: Result<T, AllocError>) -> Option<T> {
        match made {
            Ok(value) => Some(value),
            Err(_) => {
                self.out_of_memory = true;
                None
            }
        }
    }

    /// Appends a text.
    pub fn push_str(&mut self, text: &str) {
        if self.text.push_str(text).is_err() {
            self.out_of_memory = true;
        }
    }

    /// Appends the text that a call returned, or records that the call failed.
    pub fn made(&mut self, made: Result<String, AllocError>) {
        if let Some(text) = self.ok(made) {
            self.push_str(text.as_str());
        }
    }

    /// Appends the `Debug` output of a value.
    pub fn debug<T: Debug + Drop>(&mut self, value: T) {
        if write!(self.text, "{value:?}").is_err() {
            self.out_of_memory = true;
        }
    }

    /// Appends the `Debug` output of a value and a line feed.
    pub fn debug_line<T: Debug + Drop>(&mut self, value: T) {
        self.debug(value);
        self.push_str("\n");
    }

    /// Appends the `Display` output of a value.
    pub fn display<T: Display + Drop>(&mut self, value: T) {
        if write!(self.text, "{value}").is_err() {
            self.out_of_memory = true;
        }
    }

    /// Appends a span as `start..end`.
    pub fn span(&mut self, span: Span) {
        self.debug(span.start);
        self.push_str("..");
        self.debug(span.end);
    }
}
