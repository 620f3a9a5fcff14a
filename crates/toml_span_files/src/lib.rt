//! Edits one file: locks it against other runs, reads it, and replaces it. Also shows the lines that an edit changes.
#![tactic(auto)]

mod beside;
mod diff;
mod disk;
mod editing;
mod failure;
mod hunks;
mod place;
mod steps;

pub use diff::{Part, parts};
pub use disk::{Disk, Options};
pub use editing::{edit, edit_file, put, put_file};
pub use failure::{Failed, Failure};
pub use hunks::unified;
pub use steps::Steps;

/// The maximum number of bytes of a file, before and after an edit: 16 MiB.
pub const LIMIT: usize = 16_777_216;
