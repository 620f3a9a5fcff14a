//! Finds, reads and compiles the schemas of TOML files, and checks documents against them. A directive `#:schema`, a
//! catalog or an option names the schema of a file. Nothing is fetched from servers.
#![tactic(auto)]

mod addresses;
mod catalog;
pub mod compiling;
pub mod directive;
pub mod disk;
mod findings;
pub mod lookup;
mod metaschemas;
pub mod options;
mod places;
mod reasons;
