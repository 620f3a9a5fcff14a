//! Writes a new text from parts of an old text and from new lines.
use crate::document::Document;
use crate::lines::{ends_blank, line_end, part};
use std::alloc::AllocError;
use toml_span_lex::span::Span;

/// A new text under construction.
#[derive(Drop)]
pub(crate) struct Writer<'t> {
    /// The old text.
    text: &'t str,
    /// The line end for new lines.
    pub(crate) end: &'static str,
    /// The new text, as far as it has been written.
    out: String,
    /// The offset up to which the old text has been copied or left out.
    at: usize,
}

impl<'t> Writer<'t> {
    /// Returns a writer that has written nothing yet.
    pub(crate) fn new(document: Document<'t, '_>) -> Self {
        Writer {
            text: document.text,
            end: line_end(document.text),
            out: String::new(document.alloc),
            at: 0,
        }
    }

    /// Copies the old text up to the offset `to`. Does nothing if the text before `to` has already been copied or left
    /// out.
    pub(crate) fn copy_to(&mut self, to: usize) -> Result<(), AllocError> {
        if self.at < to {
            self.out.push_str(part(self.text, self.at, to))?;
            self.at = to;
        }
        Ok(())
    }

    /// Appends `text` to the new text.
    pub(crate) fn push(&mut self, text: &str) -> Result<(), AllocError> {
        self.out.push_str(text)
    }

    /// Copies the old text up to a span, and leaves out the span.
    pub(crate) fn skip(&mut self, span: Span) -> Result<(), AllocError> {
        self.copy_to(span.start)?;
        self.at = self.at.max(span.end);
        Ok(())
    }

    /// Copies the old text up to `lines`, a span of whole lines, and leaves out `lines`. If `ends_blank` is then true
    /// for the new text, also leaves out the blank lines after `lines`, up to the offset `limit`.
    pub(crate) fn skip_lines(&mut self, lines: Span, limit: usize) -> Result<(), AllocError> {
        self.skip(lines)?;
        if !ends_blank(self.out.as_str()) {
            return Ok(());
        }
        for line in part(self.text, self.at, limit).split_inclusive('\n') {
            if !line.trim().is_empty() {
                break;
            }
            self.at = self.at.saturating_add(line.len());
        }
        Ok(())
    }

    /// Appends a line end to the new text, unless the new text ends with one, or is empty apart from a byte order mark.
    pub(crate) fn begin_line(&mut self) -> Result<(), AllocError> {
        let out = self.out.as_str();
        if out.ends_with('\n') || out.strip_prefix('\u{feff}').unwrap_or(out).is_empty() {
            return Ok(());
        }
        self.out.push_str(self.end)
    }

    /// Writes `lines` with a blank line before and after them. Adds no blank line where there is one already, nor at
    /// the start or the end of the text.
    pub(crate) fn push_apart(&mut self, lines: &str) -> Result<(), AllocError> {
        self.begin_line()?;
        if !ends_blank(self.out.as_str()) {
            self.out.push_str(self.end)?;
        }
        self.out.push_str(lines)?;
        let rest = part(self.text, self.at, self.text.len());
        let next = rest.split_inclusive('\n').next().unwrap_or("");
        if !next.trim().is_empty() {
            self.out.push_str(self.end)?;
        }
        Ok(())
    }

    /// Copies the rest of the old text, and returns the new text.
    pub(crate) fn finish(mut self) -> Result<String, AllocError> {
        let end = self.text.len();
        self.copy_to(end)?;
        Ok(self.out)
    }

    /// Copies the rest of the old text, and returns the new text. If only blank lines follow the offset `end` in the
    /// old text, leaves out the blank lines at the end of the new text.
    pub(crate) fn finish_after(self, end: usize) -> Result<String, AllocError> {
        let is_last = part(self.text, end, self.text.len()).trim().is_empty();
        let line_end = self.end;
        let out = self.finish()?;
        if !is_last || !ends_blank(out.as_str()) {
            return Ok(out);
        }
        let mut kept = String::from_str(*out.allocator(), out.as_str().trim_end())?;
        kept.push_str(line_end)?;
        Ok(kept)
    }
}
