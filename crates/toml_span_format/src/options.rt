//! The options of the formatter.
ghost use Rattle.std.specs.Prelude.{◌≡◌};
ghost use Rattle.toml_span_format.specs.Options.{default};

/// How `format` and `format_sorted` lay out a document. `Options::new()` returns the defaults.
#[derive(Clone, Copy, PartialEq, Eq, Debug)]
pub struct Options {
    /// The width of a line in characters. An array is written on one line only if it ends within this width.
    pub width: usize,
    /// The number of spaces by which elements on separate lines are indented, per level. No line is indented by more
    /// than `width` spaces.
    pub indent: usize,
    /// Whether a comma follows the last element if elements are on separate lines. If not, a comma after the last
    /// element does not keep an array on several lines either.
    pub has_trailing_comma: bool,
    /// Whether arrays and inline tables that contain a line end or a comment stay on several lines, and all others on
    /// one line, whatever their width.
    pub keeps_lines: bool,
    /// Whether comments at the ends of lines stay aligned. Comments without a blank line between them that begin in one
    /// column stay in this column, or in the first one with room for all of them.
    pub aligns_comments: bool,
    /// The maximum number of blank lines in a row; 0 counts as 1. There is always one before a header.
    pub blank_lines: usize,
    /// Whether lines end with CRLF. If `None`, all lines end like the first one.
    pub has_crlf: Option<bool>,
}

impl Options {
    /// Returns the defaults: a width of 80 characters, an indent of 4 spaces, a comma after the last element, at most
    /// one blank line, and line ends like the first one. Nothing else is kept or aligned.
    pub fn new() -> Self
        ensures { result ≡ default }
    {
        Options {
            width: 80,
            indent: 4,
            has_trailing_comma: true,
            keeps_lines: false,
            aligns_comments: false,
            blank_lines: 1,
            has_crlf: None,
        }
    }

    /// Sets the width of a line, in characters.
    pub fn with_width(mut self, columns: usize) -> Self
        ensures { result ≡ record self { width = columns } }
    {
        self.width = columns;
        self
    }

    /// Sets the number of spaces per level of indentation.
    pub fn with_indent(mut self, spaces: usize) -> Self
        ensures { result ≡ record self { indent = spaces } }
    {
        self.indent = spaces;
        self
    }
}

impl Default for Options {
    ghost is_default = { λ options. options ≡ default };

    /// Returns the defaults, as `Options::new` does.
    fn default() -> Self {
        Options::new()
    }
}
