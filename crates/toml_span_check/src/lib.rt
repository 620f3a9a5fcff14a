//! Finds and checks TOML files, reports and fixes their errors, and prints documents or single values.
#![tactic(auto)]

pub mod answer;
mod bytes;
mod comments;
mod dates;
mod document;
mod drafts;
pub mod encoding;
pub mod every;
mod fixable;
pub mod fixing;
pub mod folder;
pub mod formats;
mod github;
mod globs;
pub mod input;
pub mod lints;
mod missing;
pub mod newer;
mod numbers;
pub mod patterns;
mod quotes;
pub mod request;
pub mod run;
mod sarif;
pub mod schemas;
mod shown;
pub mod statements;
mod sums;
pub mod words;
