//! Sections of a document.
use crate::value::Assignment;
use smallvec::SmallVec;
use toml_span_lex::key::Key;
use toml_span_lex::span::Span;

/// A header and the assignments after it. The assignments before the first header are a section without a header.
#[derive(Debug, Drop)]
pub struct Section<'de> {
    pub header: SmallVec<Key<'de>, 3>,
    /// Whether the header has double brackets; `false` without a header.
    pub array: bool,
    /// The span from the first bracket of the header to the end of its line, including the line end; 0..0 without a
    /// header.
    pub header_span: Span,
    /// The span from the first bracket of the header (without a header, from the first assignment) to the end of the
    /// last assignment. Without assignments, the same as `header_span`.
    pub extent: Span,
    pub assignments: Vec<Assignment<'de>>,
}
