//! Reads TOML values as Rust types, and tables field by field.
#![tactic(auto)]

pub mod de_helpers;
mod deserialize;
mod read_name;
mod read_table;
mod read_tagged;
mod with_warnings;

/// `read_table!` turns an unknown option into a path in this module. The compiler then reports the error at the option,
/// and names this module, whose name lists the known options.
#[doc(hidden)]
pub mod words_are_alias_deprecated_flatten_optional_or_parsed_range_unique_with_warnings {}

pub use deserialize::{Deserialize, InRange, Parsed};
#[doc(hidden)]
pub use toml_span_lex::spanned::Spanned;
#[doc(hidden)]
pub use toml_span_tree::FloatText;
pub use toml_span_tree::{DeserError, ErrorIter, Unmerged};
pub use with_warnings::DeserializeWithWarnings;
