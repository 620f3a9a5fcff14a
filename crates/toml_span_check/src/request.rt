//! What to do with which files.
use crate::answer::Task;
use crate::formats::Format;

/// What to do with which files.
#[derive(Drop)]
pub struct Request<'w> {
    pub format: Format,
    pub task: Task,
    /// The path of the value to print, which is empty for the whole document.
    pub pointer: &'w str,
    /// The patterns of files and directories to leave out of a search.
    pub excludes: Vec<&'w str>,
    /// The names of files and directories.
    pub names: Vec<&'w str>,
    /// Whether standard error is a terminal, on which a check with `Format::Text` and without errors prints the number
    /// of files.
    pub is_watched: bool,
    /// Whether to print nothing.
    pub is_quiet: bool,
}

/// What to do with each file.
#[derive(Clone, Copy)]
pub(crate) struct Question<'w> {
    pub(crate) format: Format,
    pub(crate) task: Task,
    /// The path of the value to print.
    pub(crate) pointer: &'w str,
}
