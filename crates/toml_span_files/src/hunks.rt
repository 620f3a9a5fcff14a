//! Formats differences in the unified format.
use crate::diff::{Part, parts};
use std::alloc::{AllocError, Global};
use std::fmt::Write;

/// The number of unchanged lines to show before and after a change.
const CONTEXT: usize = 3;

/// The lines of one text in a hunk.
#[derive(Clone, Copy)]
struct Range {
    /// The number of lines of the text before the hunk.
    before: usize,
    count: usize,
}

/// Hunks under construction.
#[derive(Drop)]
struct Hunks<'t> {
    /// The complete hunks.
    out: String,
    /// The lines of the current hunk.
    body: String,
    /// Whether the current hunk has a change.
    is_open: bool,
    /// The unchanged lines since the last change or, if no hunk is open, the last three of them. There are at most
    /// seven.
    waiting: Vec<&'t str>,
    old: Range,
    new: Range,
}

impl Range {
    /// Counts one more line of the hunk.
    fn count(&mut self) {
        self.count = self.count.saturating_add(1);
    }

    /// Moves on to the next hunk, which begins `more` lines after the end of this hunk.
    fn pass(&mut self, more: usize) {
        self.before = self.before.saturating_add(self.count).saturating_add(more);
        self.count = 0;
    }

    /// Appends the range to `out` in the form of `diff`: the number of the first line, counted from 1, a comma, and the
    /// number of lines. If the range is empty, the first number is the number of lines before the hunk.
    fn push(self, out: &mut String) -> Result<(), AllocError> {
        let first = if self.count == 0 {
            self.before
        } else {
            self.before.saturating_add(1)
        };
        let count = self.count;
        write!(out, "{first},{count}")
    }
}

impl<'t> Hunks<'t> {
    /// Appends a line to the hunk, after its mark (`-`, `+` or a space). A line without a line end gets one, and a
    /// remark below it.
    fn push(&mut self, mark: char, line: &str) -> Result<(), AllocError> {
        if mark != '+' {
            self.old.count();
        }
        if mark != '-' {
            self.new.count();
        }
        self.body.push(mark)?;
        self.body.push_str(line)?;
        if !line.ends_with('\n') {
            self.body.push_str("\n\\ No newline at end of file\n")?;
        }
        Ok(())
    }

    /// Moves the first `most` waiting lines to the hunk, or all if there are fewer.
    fn push_waiting(&mut self, most: usize) -> Result<(), AllocError> {
        for _ in 0..most {
            if self.waiting.is_empty() {
                break;
            }
            let line = self.waiting.remove(0);
            self.push(' ', line)?;
        }
        Ok(())
    }

    /// Appends the waiting lines to the hunk, and then a line of only one text, with its mark `-` or `+`. Opens the
    /// hunk.
    fn change(&mut self, mark: char, line: &str) -> Result<(), AllocError> {
        self.push_waiting(usize::MAX)?;
        self.is_open = true;
        self.push(mark, line)
    }

    /// Ends the hunk, with up to three of the waiting lines, and appends it to `out`.
    fn close(&mut self) -> Result<(), AllocError> {
        self.push_waiting(CONTEXT)?;
        self.out.push_str("@@ -")?;
        self.old.push(&mut self.out)?;
        self.out.push_str(" +")?;
        self.new.push(&mut self.out)?;
        self.out.push_str(" @@\n")?;
        self.out.push_str(self.body.as_str())?;
        self.body.clear();
        self.is_open = false;
        self.old.pass(0);
        self.new.pass(0);
        Ok(())
    }

    /// Adds a line of both texts to the waiting lines. An open hunk ends if more than six lines wait. Without an open
    /// hunk, only the last three lines wait.
    fn same(&mut self, line: &'t str) -> Result<(), AllocError> {
        self.waiting.push(line)?;
        if self.is_open && self.waiting.len() > CONTEXT * 2 {
            self.close()?;
        }
        if !self.is_open && self.waiting.len() > CONTEXT {
            self.waiting.remove(0);
            self.old.pass(1);
            self.new.pass(1);
        }
        Ok(())
    }

    /// Adds the lines of a part to the hunks.
    fn part(&mut self, part: Part<'t>) -> Result<(), AllocError> {
        match part {
            Part::Same(lines) => {
                for line in lines.split_inclusive('\n') {
                    self.same(line)?;
                }
            }
            Part::Old(lines) => {
                for line in lines.split_inclusive('\n') {
                    self.change('-', line)?;
                }
            }
            Part::New(lines) => {
                for line in lines.split_inclusive('\n') {
                    self.change('+', line)?;
                }
            }
        }
        Ok(())
    }
}

/// Returns the difference of two texts in the unified format, with three lines of context, or an empty text if they are
/// equal. Both head lines have `name` as the path. Nothing is escaped, so the result may have control characters. Fails
/// if an allocation fails.
pub fn unified(alloc: Global, name: &str, old: &str, new: &str) -> Result<String, AllocError> {
    let parts = parts(alloc, old, new)?;
    let none = Range {
        before: 0,
        count: 0,
    };
    let mut hunks = Hunks {
        out: String::new(alloc),
        body: String::new(alloc),
        is_open: false,
        waiting: Vec::new(alloc),
        old: none,
        new: none,
    };
    for part in parts.as_slice() {
        hunks.part(*part)?;
    }
    if hunks.is_open {
        hunks.close()?;
    }
    if hunks.out.is_empty() {
        return Ok(hunks.out);
    }
    let hunks = hunks.out;
    format!(in alloc; "--- {name}\n+++ {name}\n{hunks}")
}
