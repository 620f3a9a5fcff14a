//! The items of a document: everything except white space, line ends and commas.

/// The line ends between an item and the previous item. A line with only a comma does not count as blank.
#[derive(Clone, Copy, PartialEq, Eq)]
pub(crate) enum Gap {
    /// No line end.
    SameLine,
    /// A line end, but no blank line.
    NextLine,
    /// This many blank lines, at least one.
    BlankLines(usize),
}

impl Gap {
    /// Returns the gap after one more line end.
    pub(crate) fn with_line_end(self) -> Gap {
        match self {
            Gap::SameLine => Gap::NextLine,
            Gap::NextLine => Gap::BlankLines(1),
            Gap::BlankLines(count) => Gap::BlankLines(count.saturating_add(1)),
        }
    }

    /// Returns this gap, or `NextLine` if the gap has no line end.
    pub(crate) fn on_new_line(self) -> Gap {
        match self {
            Gap::SameLine => Gap::NextLine,
            gap => gap,
        }
    }
}

/// How an array or inline table is to be written.
#[derive(Clone, Copy, PartialEq, Eq)]
pub(crate) enum Form {
    /// On one line if the line has room for this many columns, otherwise one element per line.
    IfFits(usize),
    /// On one line, except for arrays inside, which may be written one element per line.
    OneLine,
    /// One element per line.
    Lines,
}

/// The kind of a item.
#[derive(Clone, Copy, PartialEq, Eq)]
pub(crate) enum Kind {
    /// The first bracket of a header.
    Header,
    /// The first part of a key.
    Key,
    /// A dot or a later part of a key, or any later token of a header.
    Part,
    Equals,
    /// A string, number, date or boolean.
    Scalar,
    /// The opening bracket of an array.
    OpenArray(Form),
    /// The opening brace of an inline table.
    OpenTable(Form),
    /// The closing bracket of an array, or the closing brace of an inline table.
    Close,
    Comment,
}

/// A item of a document, and the gap before it.
#[derive(Clone, Copy)]
pub(crate) struct Item<'t> {
    pub(crate) kind: Kind,
    /// The text to write.
    pub(crate) text: &'t str,
    /// The byte offset of the item in the document.
    pub(crate) start: usize,
    pub(crate) gap: Gap,
}

impl Item<'_> {
    /// Returns whether the item is a comment that begins a line.
    pub(crate) fn is_own_comment(&self) -> bool {
        self.kind == Kind::Comment && self.gap != Gap::SameLine
    }
}

/// Returns the number of characters of a text.
pub(crate) fn columns(text: &str) -> usize {
    text.chars().count()
}
