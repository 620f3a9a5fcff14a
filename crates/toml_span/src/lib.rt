//! Parses TOML into a tree that has the byte span of every key and every value.
#![tactic(auto)]

mod branch;
mod claims;
pub mod de;
mod from_text;
mod header_paths;
mod lines;
mod plain;
mod rest;
mod scopes;
mod sections;

pub use de::parse;
pub use from_text::{from_str, from_str_with_warnings};
pub use toml_span_lex::lines::line_and_byte;
pub use toml_span_lex::span::Span;
pub use toml_span_lex::spanned::Spanned;
pub use toml_span_lex::stop::Stop;
pub use toml_span_tree::{Diagnostic, Error, ErrorKind, Label, Value};
pub use toml_span_typed::{
    DeserError, Deserialize, DeserializeWithWarnings, ErrorIter, InRange, Parsed, Unmerged,
    read_name, read_table, read_tagged,
};

/// Helpers for implementations of `Deserialize`.
pub mod de_helpers {
    pub use toml_span_typed::de_helpers::{
        TableHelper, Unfinished, expected, name_of, parse, parse_with, parsed,
    };
}

/// Spans, which are ranges of bytes in a text, and values with spans.
pub mod span {
    pub use toml_span_lex::span::Span;
    pub use toml_span_lex::spanned::Spanned;
}

/// Splits a text into tokens.
pub mod tokens {
    pub use toml_span_lex::tokenizer::Tokenizer;
    pub use toml_span_lex::tokens::{Error, Token};
}

/// The values of a tree, and functions that find and list them.
pub mod value {
    pub use toml_span_lex::key::Key;
    pub use toml_span_tree::nodes::{Step, Visited, nodes};
    pub use toml_span_tree::{
        Array, DateText, FloatText, Pointer, Table, Value, ValueInner, in_text_order,
    };
}
