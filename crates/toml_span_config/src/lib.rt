//! Reads the configuration of a project, `toml-span.toml`, and says which settings hold for a file.
#![tactic(auto)]

pub mod config;
mod document;
pub mod layers;
mod paths;
pub mod sources;
