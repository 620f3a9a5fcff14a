//! Compares a text with its formatted text, line by line.
use crate::edits::Edit;
use std::alloc::{AllocError, Global};
use toml_span_lex::span::Span;

/// Returns the lines that a span touches. A span that ends at the start of a line does not touch that line, unless it
/// is empty.
pub(crate) fn touched_lines(text: &str, span: Span) -> Span {
    let before = text.get(..span.start).unwrap_or("");
    let start = match before.rfind('\n') {
        Some(at) => at.saturating_add(1),
        None => 0,
    };
    let through = text.get(..span.end).unwrap_or("");
    let rest = text.get(span.end..).unwrap_or("");
    let end = match rest.find('\n') {
        _ if span.start < span.end && through.ends_with('\n') => span.end,
        Some(at) => span.end.saturating_add(at).saturating_add(1),
        None => text.len(),
    };
    Span { start, end }
}

/// Returns whether an edit replaces one of these lines, or adds lines before one of them.
pub(crate) fn is_within(lines: Span, edit: Span) -> bool {
    edit.start < lines.end && (lines.start < edit.end || lines.start <= edit.start)
}

/// Returns the number of bytes of a line that formatting keeps: those that are not blanks, line ends or commas.
fn kept_bytes(line: &str) -> usize {
    line.bytes()
        .filter(|byte| !matches!(byte, b' ' | b'\t' | b'\r' | b'\n' | b','))
        .count()
}

/// Lines of the old and of the new text that belong together, because they have the same tokens.
#[derive(Drop)]
struct Aligned<'t> {
    old: &'t str,
    new: Vec<&'t str>,
    edits: Vec<Edit>,
    /// The offsets of the lines of the old text.
    span: Span,
    /// `first`: the position of the first line of the new text. `next`: the position after the last.
    first: usize,
    next: usize,
    /// How many bytes of the old and of the new text have been kept so far (`kept_bytes`).
    old_bytes: usize,
    new_bytes: usize,
}

impl<'t> Aligned<'t> {
    /// Returns the next line of the new text.
    fn peek(&self) -> Option<&'t str> {
        self.new.get(self.next).copied()
    }

    /// Adds the next line of the new text.
    fn take(&mut self, line: &str) {
        self.next = self.next.saturating_add(1);
        self.new_bytes = self.new_bytes.saturating_add(kept_bytes(line));
    }

    /// Appends the edit that replaces the lines of the old text by those of the new text, if they differ. The next
    /// lines belong together.
    fn end(&mut self, alloc: Global) -> Result<(), AllocError> {
        let mut text = String::new(alloc);
        for line in self.new.get(self.first..self.next).unwrap_or(&[]) {
            text.push_str(*line)?;
        }
        let span = self.span;
        if self.old.get(span.start..span.end) != Some(text.as_str()) {
            self.edits.push(Edit { span, text })?;
        }
        self.first = self.next;
        self.span = Span {
            start: span.end,
            end: span.end,
        };
        Ok(())
    }

    /// Adds blank lines of the new text that the old text does not have before `line`, as an edit of their own.
    fn blank_lines(&mut self, alloc: Global, line: &str) -> Result<(), AllocError> {
        let is_first = self.span.start == self.span.end;
        if !is_first || self.first != self.next || kept_bytes(line) == 0 {
            return Ok(());
        }
        for _ in self.next..self.new.len() {
            match self.peek() {
                Some(blank) if kept_bytes(blank) == 0 => self.take(blank),
                _ => break,
            }
        }
        self.end(alloc)
    }

    /// Adds a line of the old text, and the lines of the new text with the same tokens.
    fn line(&mut self, alloc: Global, line: &str) -> Result<(), AllocError> {
        self.blank_lines(alloc, line)?;
        self.span.end = self.span.end.saturating_add(line.len());
        self.old_bytes = self.old_bytes.saturating_add(kept_bytes(line));
        for _ in self.next..self.new.len() {
            match self.peek() {
                Some(next) if self.new_bytes < self.old_bytes => self.take(next),
                _ => break,
            }
        }
        if self.new_bytes != self.old_bytes {
            return Ok(());
        }
        match self.peek() {
            Some(blank) if self.first == self.next && kept_bytes(blank) == 0 => self.take(blank),
            _ => (),
        }
        self.end(alloc)
    }
}

/// Returns edits that change a text into its formatted text, as small as lines allow: lines that formatting joins or
/// splits are changed together. `new` is `old` except for blanks, line ends and commas; for other texts, the edits are
/// unspecified.
pub(crate) fn line_edits(alloc: Global, old: &str, new: &str) -> Result<Vec<Edit>, AllocError> {
    let mut aligned = Aligned {
        old,
        new: new.split_inclusive('\n').collect(alloc)?,
        edits: Vec::new(alloc),
        span: Span { start: 0, end: 0 },
        first: 0,
        next: 0,
        old_bytes: 0,
        new_bytes: 0,
    };
    for line in old.split_inclusive('\n') {
        aligned.line(alloc, line)?;
    }
    aligned.next = aligned.new.len();
    aligned.end(alloc)?;
    Ok(aligned.edits)
}
