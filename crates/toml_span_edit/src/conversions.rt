//! The conversions, and their results before they are checked.
use toml_span_lex::span::Span;

/// A change of the form in which a table or an array is written.
#[derive(Clone, Copy, Debug, PartialEq, Eq)]
pub enum Conversion {
    /// An inline table that is the value of an assignment on a line, `a = { b = 1 }`, becomes a section: `[a]` and
    /// `b = 1`. The new section is written after the section that contained the assignment. Comments in the braces are
    /// kept.
    InlineToSection,
    /// A section becomes an inline table on one line, in the section of the table around it. If that table has no
    /// section, the inline table is written below a new header or, in the root, before the first header. The section
    /// must have no comments, except above the header and on the header's line, and no strings on several lines.
    SectionToInline,
    /// The dotted keys of a table, `a.b = 1` and `a.c = 2`, become a section: `[a]`, `b = 1` and `c = 2`. The new
    /// section is written after the section that contained the keys.
    DottedToSection,
    /// An array on one line is written with one element per line. The array must not be empty.
    ArrayToLines,
    /// An array on several lines is written on one line. The array must contain no comments, and no strings on several
    /// lines.
    ArrayToLine,
}

/// A change of the form of a table or an array, before it is checked.
#[derive(Drop)]
pub(crate) enum Proposal {
    /// The whole new text, in which a table has another form.
    Table(String),
    /// The span of an array, and the text that replaces the array.
    Array(Span, String),
}
