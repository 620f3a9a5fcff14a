//! Reads a document or tree as a type that derives serde's `Deserialize`.
#![tactic(auto)]

pub mod laws;
mod misfit;
mod names;
mod path;
mod pieces;
mod read;
mod reader;
mod row;
mod shown;
mod spanned;
mod tried;
mod twice;

pub use misfit::{Error, Expected, Found, Misfit, Reason};
pub use path::Step;
pub use read::{from_str, from_value};
pub use reader::{Misread, Reader};
pub use row::Row;
pub use shown::render_stop;
pub use spanned::Spanned;
pub use toml_span_report::Style;
