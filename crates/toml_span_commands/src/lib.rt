//! The commands of the program `toml-span`, except `lsp`, with their arguments and help texts.
#![tactic(auto)]

pub mod answering;
mod answers;
mod arguments;
mod changes;
pub mod check;
pub mod colours;
pub mod commands;
mod config;
mod configured;
mod edit;
mod explain;
mod files;
mod fmt;
pub mod help;
pub mod helping;
mod making;
pub mod options;
mod paths;
pub mod say;
mod schema;
mod schema_pages;
mod schemas;
pub mod show;
pub mod start;
pub mod words;
