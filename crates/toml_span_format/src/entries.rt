//! Splits a document into the entries that `format_sorted` sorts.
ghost use Rattle.std.specs.Prelude.{◌≡◌, IfOk, OnOk};
ghost use Rattle.toml_span_format.specs.Entries as spec;

use crate::tokens::is_layout;
use std::alloc::{AllocError, Global};
use toml_span_syntax::heads::StatementKind;
use toml_span_syntax::pieces::{Kind, Piece};
use toml_span_syntax::statements::Statement;

/// An assignment with the comments directly above it, a header with those, or comments alone.
#[derive(Clone, Copy)]
pub(crate) struct Entry {
    /// The number of entries before the first entry of the group. Only the entries of a group change their order.
    pub(crate) group: usize,
    /// The number of an assignment, from 1, or 0 for other entries.
    pub(crate) key: usize,
    /// The position of its first piece.
    pub(crate) first: usize,
    /// The position after its last piece.
    pub(crate) end: usize,
}

/// The entries of some statements, and what is known at their end.
#[derive(Drop)]
struct Grouping {
    entries: Vec<Entry>,
    /// The group of the next assignment.
    group: usize,
    /// The number of the next assignment.
    key: usize,
    /// The position after the last entry or blank line. From here on, there are only comments.
    first: usize,
    /// Whether the next line, if it is a comment, is one on the whole document.
    is_head: bool,
}

/// Returns whether the pieces at the positions `first..end` include a token or a comment.
fn has_tokens(pieces: &[Piece], first: usize, end: usize) -> bool
    ensures { result ≡ spec.has_tokens pieces.now first end }
{
    for at in first..end.min(pieces.len()) {
        if !is_layout(pieces[at].kind) {
            return true;
        }
    }
    false
}

/// Returns whether a piece of this kind is a comment.
fn is_comment(kind: Kind) -> bool
    ensures { result ≡ spec.is_comment_kind kind }
{
    matches!(kind, Kind::Comment)
}

/// Returns whether the first of these pieces is a comment, apart from blanks, line ends and commas.
pub(crate) fn begins_with_comment(pieces: &[Piece]) -> bool
    ensures { result ≡ spec.begins_with_comment pieces.now }
{
    for piece in pieces {
        if !is_layout(piece.kind) {
            return is_comment(piece.kind);
        }
    }
    false
}

/// Returns whether a piece of a text is a directive: a comment that begins with `#:`.
fn is_directive(text: &[u8], piece: Piece) -> bool
    ensures { result ≡ spec.is_directive text.now piece }
{
    is_comment(piece.kind)
        && piece.start < text.len()
        && piece.start + 1 < text.len()
        && text[piece.start + 1] == b':'
}

/// Returns whether the pieces at the positions `first..end` include a directive.
fn has_directive(text: &[u8], pieces: &[Piece], first: usize, end: usize) -> bool
    ensures { result ≡ spec.has_directive text.now pieces.now first end }
{
    for at in first..end.min(pieces.len()) {
        if is_directive(text, pieces[at]) {
            return true;
        }
    }
    false
}

impl Grouping {
    /// Ends the group. The comments since the last entry, up to the piece at the position `end`, become an entry.
    fn close(&mut self, pieces: &[Piece], end: usize) -> Result<(), AllocError>
        ensures { OnOk result (spec.state self.new ≡ spec.close pieces.now (spec.state self.old) end) }
    {
        if has_tokens(pieces, self.first, end) {
            self.entries.push(Entry {
                group: self.entries.len(),
                key: 0,
                first: self.first,
                end,
            })?;
        }
        self.group = self.entries.len();
        self.first = end;
        Ok(())
    }

    /// Adds a blank line, which ends the group.
    fn blank(&mut self, pieces: &[Piece], line: Statement) -> Result<(), AllocError>
        ensures { OnOk result (spec.state self.new ≡ spec.blank pieces.now (spec.state self.old) line) }
    {
        self.close(pieces, line.first)?;
        self.first = line.end;
        self.is_head = self.is_head && self.entries.is_empty();
        Ok(())
    }

    /// Adds a line with a comment. A comment on the whole document and a directive do not belong to what is below them.
    fn comment(&mut self, text: &[u8], pieces: &[Piece], line: Statement) -> Result<(), AllocError>
        ensures { OnOk result (spec.state self.new ≡ spec.comment text.now pieces.now (spec.state self.old) line) }
    {
        if self.is_head || has_directive(text, pieces, line.first, line.end) {
            self.close(pieces, line.end)
        } else {
            Ok(())
        }
    }

    /// Adds an assignment to the group.
    fn assignment(&mut self, end: usize) -> Result<(), AllocError>
        ensures { OnOk result (spec.state self.new ≡ spec.assignment (spec.state self.old) end) }
    {
        self.entries.push(Entry {
            group: self.group,
            key: self.key,
            first: self.first,
            end,
        })?;
        self.first = end;
        self.key = self.key.wrapping_add(1);
        self.is_head = false;
        Ok(())
    }

    /// Adds a header, which is a group of its own.
    fn header(&mut self, pieces: &[Piece], end: usize) -> Result<(), AllocError>
        ensures { OnOk result (spec.state self.new ≡ spec.header pieces.now (spec.state self.old) end) }
    {
        self.close(pieces, end)?;
        self.is_head = false;
        Ok(())
    }

    /// Adds a statement.
    fn statement(
        &mut self,
        text: &[u8],
        pieces: &[Piece],
        next: Statement,
    ) -> Result<(), AllocError>
        ensures { OnOk result (spec.state self.new ≡ spec.step text.now pieces.now (spec.state self.old) next) }
    {
        match next.kind {
            StatementKind::Blank => {
                if has_tokens(pieces, next.first, next.end) {
                    self.comment(text, pieces, next)
                } else {
                    self.blank(pieces, next)
                }
            }
            StatementKind::Assignment => self.assignment(next.end),
            StatementKind::Header | StatementKind::Unreadable => self.header(pieces, next.end),
        }
    }
}

/// Returns the entries of a text with these pieces and statements. `is_headed`: whether comments at the top, up to the
/// first blank line, header or assignment, are comments on the whole document.
pub(crate) fn entries_of(
    alloc: Global,
    text: &[u8],
    pieces: &[Piece],
    is_headed: bool,
    statements: &[Statement],
) -> Result<Vec<Entry>, AllocError>
    ensures { IfOk result (λ found. found.items ≡ spec.entries text.now pieces.now is_headed statements.now) }
{
    let mut grouping = Grouping {
        entries: Vec::new(alloc),
        group: 0,
        key: 1,
        first: 0,
        is_head: is_headed,
    };
    for statement in statements {
        grouping.statement(text, pieces, *statement)?;
    }
    grouping.close(pieces, pieces.len())?;
    Ok(grouping.entries)
}
