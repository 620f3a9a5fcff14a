//! Values with spans, pointers to them, and the errors of `parse` and of typed reads.
#![tactic(auto)]

mod date;
mod deser_error;
mod diagnostic;
mod error;
mod float;
mod json;
pub mod laws;
mod listed;
pub mod lookup;
mod message;
pub mod nodes;
mod order;
pub mod pointer;
mod value;

pub use date::DateText;
pub use deser_error::{DeserError, ErrorIter, Unmerged};
pub use diagnostic::{Diagnostic, Label};
pub use error::{Error, ErrorKind};
pub use float::FloatText;
pub use lookup::Pointer;
pub use order::in_text_order;
pub use value::{Array, Table, Value, ValueInner};
