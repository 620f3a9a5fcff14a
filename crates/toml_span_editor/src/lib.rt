//! Answers the requests of editors about a TOML text: positions, changes, outlines, hovers, completion, renames and
//! more.
#![tactic(auto)]

mod aligned;
pub mod changes;
pub mod completion;
mod context;
pub mod conversions;
pub mod diagnostics;
pub mod document;
pub mod edits;
pub mod folding;
pub mod formatting;
pub mod hover;
pub mod keys;
pub mod laws;
pub mod missing;
pub mod outline;
mod partial;
pub mod positions;
pub mod renaming;
mod schemas;
pub mod selection;
mod siblings;
mod snippets;
mod spans;
mod suggestions;
pub mod syntax;
pub mod table;
pub mod tokens;
mod walk;
