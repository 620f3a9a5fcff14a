//! The calls for C, which parse, edit and format documents, and describe errors. Parsing writes a record for each value
//! of a document into one array of the caller, and strings into another.
//!
//! A call keeps no state, and returns nothing that it has allocated. include/toml_span.h describes the calls for C
//! programmers.
#![tactic(auto)]

mod answer;
pub mod edits;
pub mod faults;
mod fill;
pub mod format;
pub mod laws;
pub mod parse;
pub mod records;
pub mod texts;
