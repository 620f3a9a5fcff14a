//! Comments at the ends of lines that stay aligned.
use crate::items::columns;
use std::alloc::{AllocError, Global};

/// A comment at the end of a line of the output.
#[derive(Clone, Copy)]
struct Comment {
    /// The offset in the output of the space before the comment.
    at: usize,
    /// The column of the comment in the output, and in the document, from 0.
    column: usize,
    old: usize,
    /// The position of its group.
    group: usize,
}

/// Comments that begin in one column of the document, without a blank line between them.
#[derive(Clone, Copy)]
struct Group {
    /// The column in which all of them are to begin.
    column: usize,
    has_several: bool,
}

/// The comments at the ends of lines.
#[derive(Drop)]
pub(crate) struct Comments {
    list: Vec<Comment>,
    groups: Vec<Group>,
    /// Whether the next comment begins a group.
    is_apart: bool,
    /// Whether an allocation has failed. Comments may be missing then.
    has_failed: bool,
}

impl Comments {
    /// Returns an empty list.
    pub(crate) fn new(alloc: Global) -> Comments {
        Comments {
            list: Vec::new(alloc),
            groups: Vec::new(alloc),
            is_apart: true,
            has_failed: false,
        }
    }

    /// Ends the last group, at a blank line.
    pub(crate) fn end_group(&mut self) {
        self.is_apart = true;
    }

    /// Adds a comment, which begins at the offset `start` of the document `text`. In the output, the space before it is
    /// at the offset `at`, and it begins in `column`.
    pub(crate) fn push(&mut self, text: &str, start: usize, at: usize, column: usize) {
        let before = text.get(..start).unwrap_or("");
        let old = columns(before.rsplit_once('\n').map_or(before, |(_, line)| line));
        let is_next = match self.list.last() {
            Some(last) => !self.is_apart && last.old == old,
            None => false,
        };
        match self.groups.last_mut() {
            Some(group) if is_next => {
                group.column = group.column.max(column);
                group.has_several = true;
            }
            _ => {
                let column = old.max(column);
                let group = Group {
                    column,
                    has_several: false,
                };
                self.has_failed = self.groups.push(group).is_err() || self.has_failed;
            }
        }
        self.is_apart = false;
        let group = self.groups.len().saturating_sub(1);
        let comment = Comment {
            at,
            column,
            old,
            group,
        };
        self.has_failed = self.list.push(comment).is_err() || self.has_failed;
    }
}

/// Returns the output with spaces before comments, so that all comments of a group begin in its column.
pub(crate) fn aligned(alloc: Global, out: &str, comments: &Comments) -> Result<String, AllocError> {
    if comments.has_failed {
        return Err(AllocError);
    }
    let mut new = String::new(alloc);
    let mut written = 0;
    for comment in comments.list.as_slice() {
        new.push_str(out.get(written..comment.at).unwrap_or(""))?;
        written = comment.at;
        match comments.groups.get(comment.group) {
            Some(group) if group.has_several => {
                for _ in comment.column..group.column {
                    new.push(' ')?;
                }
            }
            _ => (),
        }
    }
    new.push_str(out.get(written..).unwrap_or(""))?;
    Ok(new)
}
