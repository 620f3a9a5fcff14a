//! Reads a TOML text into sections of assignments.
#![tactic(auto)]

pub mod dates;
mod earlier;
pub mod fault;
pub mod gaps;
mod keys;
mod lists;
pub mod numbers;
pub mod section;
pub mod sections;
pub mod strings;
pub mod value;
mod values;
mod wanted;

pub use section::Section;
pub use sections::{read_first, read_section, read_sections};
pub use value::{Assignment, DottedKey, Val, ValKind};
