//! Laws about the grammar, reading, `parse`, paths, edits and the output of `toml_span_show`: facts that follow from
//! the definitions that contracts cite.
//!
//! A text *spells* a key, value or document if, by the grammar, it is a way to write that key, value or document. In
//! these laws, the claims of a document may clash, unless the law says that they do not.
#![tactic(auto)]

pub mod again;
pub mod earlier;
pub mod edits;
pub mod faults;
pub mod judged;
pub mod keys;
pub mod keys_order;
pub mod limits;
pub mod lines;
pub mod numbers;
pub mod parse;
pub mod paths;
pub mod reading;
pub mod shown;
pub mod starts;
pub mod statements;
pub mod strings;
pub mod undated;
pub mod values;
