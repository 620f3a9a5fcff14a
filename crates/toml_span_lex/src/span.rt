//! Spans: ranges of byte offsets.
ghost use Rattle.std.specs.Prelude.{◌≡◌, ◌↔◌, IsTrue};

use std::ops::Range;

/// A range of byte offsets in a text. `start` is inclusive, `end` is exclusive.
///
/// A span may be reversed, with `start` after `end`.
#[derive(Clone, Copy, PartialEq, Eq, Default, Debug)]
pub struct Span {
    pub start: usize,
    pub end: usize,
}

impl Span {
    /// Returns the span from `start` to `end`.
    #[inline]
    pub fn new(start: usize, end: usize) -> Self
        ensures start { result.start ≡ start }
        ensures end { result.end ≡ end }
    {
        Self { start, end }
    }

    /// Returns whether `start` equals `end`.
    #[inline]
    pub fn is_empty(&self) -> bool
        ensures { IsTrue result ↔ (self.now.start ≡ self.now.end) }
    {
        self.start == self.end
    }
}

impl From<Span> for (usize, usize) {
    ghost from_gives = { λ span pair. (pair.0 ≡ span.start) × (pair.1 ≡ span.end) };

    fn from(span: Span) -> (usize, usize) {
        (span.start, span.end)
    }
}

impl From<Range<usize>> for Span {
    ghost from_gives = { λ range span. (span.start ≡ range.start) × (span.end ≡ range.end) };

    fn from(range: Range<usize>) -> Self {
        Self {
            start: range.start,
            end: range.end,
        }
    }
}

impl From<Span> for Range<usize> {
    ghost from_gives = { λ span range. (range.start ≡ span.start) × (range.end ≡ span.end) };

    fn from(span: Span) -> Self {
        span.start..span.end
    }
}
