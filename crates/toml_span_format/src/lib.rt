//! Formats TOML documents.
#![tactic(auto)]

mod aligned;
mod compared;
mod document;
mod entries;
mod errors;
mod items;
mod keys;
mod options;
mod permuted;
mod printer;
mod read;
mod reader;
mod same;
mod sorted;
mod tokens;

pub use document::{format, same_document};
pub use errors::FormatError;
pub use options::Options;
pub use sorted::{format_sorted, permuted_comments};
