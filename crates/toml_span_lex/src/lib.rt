//! Splits a text into TOML tokens with spans. Also defines `Span`, `Spanned`, `Key` and `Stop`.
#![tactic(auto)]

pub mod bytes;
mod escapes;
pub mod key;
mod lanes;
pub mod laws;
pub mod lines;
pub mod pieces;
pub mod span;
pub mod spanned;
pub mod stop;
pub mod strings;
pub mod text;
pub mod tokenizer;
pub mod tokens;
