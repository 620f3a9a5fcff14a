//! Follows the pieces of a statement, valid or not: what is expected next, and the path that leads there.
use std::alloc::{AllocError, Global};
use toml_span_syntax::pieces::{Kind, Piece};

/// The part of a statement that is expected next.
#[derive(Clone, Copy, PartialEq, Eq)]
pub(crate) enum Next {
    /// A part of the key of an assignment.
    Key,
    /// A period or `=`.
    AfterKey,
    Value,
    /// A comma, a closing bracket or brace, or the end of a line.
    AfterValue,
    /// A part of a header.
    Header,
    /// A period or the end of a header.
    AfterHeader,
    /// The rest of a multi-line string that is not closed.
    Rest,
}

/// A step of a path.
#[derive(Clone, Copy)]
pub(crate) enum Segment {
    /// The position of the piece that is the key.
    Key(usize),
    /// The position of an element in its array.
    Element(usize),
}

/// An inline table or an array that is not closed yet.
#[derive(Clone, Copy)]
pub(crate) struct Opened {
    /// The position of the piece that opens it.
    pub(crate) at: usize,
    pub(crate) is_table: bool,
    /// The number of segments of its path.
    length: usize,
    /// The number of commas in it so far.
    commas: usize,
}

/// What is known after some pieces of a statement.
#[derive(Drop)]
pub(crate) struct Walk {
    pub(crate) next: Next,
    /// Whether the statement is a header in double brackets.
    pub(crate) is_in_array: bool,
    /// The path of the key, header or value that is expected. For a part of a key or header, the parts before it.
    pub(crate) path: Vec<Segment>,
    /// The open inline tables and arrays, the outermost first.
    pub(crate) opened: Vec<Opened>,
}

/// Returns whether a piece of this kind is a word or a string: a part of a key or header, or a value.
pub(crate) fn is_name(kind: Kind) -> bool {
    matches!(
        kind,
        Kind::Bare | Kind::String(_) | Kind::Faulty(_) | Kind::Open(false)
    )
}

impl Walk {
    /// Returns the state before the first piece of a statement.
    pub(crate) fn new(alloc: Global) -> Self {
        Walk {
            next: Next::Key,
            is_in_array: false,
            path: Vec::new(alloc),
            opened: Vec::new(alloc),
        }
    }

    /// Takes a word or a string.
    fn take_name(&mut self, at: usize) -> Result<(), AllocError> {
        self.next = match self.next {
            Next::Key => Next::AfterKey,
            Next::Header => Next::AfterHeader,
            Next::Value => {
                self.next = Next::AfterValue;
                return Ok(());
            }
            _ => return Ok(()),
        };
        self.path.push(Segment::Key(at))?;
        Ok(())
    }

    /// Opens an inline table or an array.
    pub(crate) fn open(&mut self, at: usize, is_table: bool) -> Result<(), AllocError> {
        self.opened.push(Opened {
            at,
            is_table,
            length: self.path.len(),
            commas: 0,
        })?;
        if is_table {
            self.next = Next::Key;
        } else {
            self.path.push(Segment::Element(0))?;
        }
        Ok(())
    }

    /// Takes a comma: the next key of an inline table or the next element of an array follows.
    fn take_comma(&mut self) -> Result<(), AllocError> {
        let Some(mut opened) = self.opened.pop() else {
            return Ok(());
        };
        opened.commas = opened.commas.saturating_add(1);
        self.path.truncate(opened.length);
        self.opened.push(opened)?;
        if opened.is_table {
            self.next = Next::Key;
            return Ok(());
        }
        self.next = Next::Value;
        self.path.push(Segment::Element(opened.commas))?;
        Ok(())
    }

    /// Takes the mark `mark`. `[` opens an array, or a header at the start of a statement. `]` or `}` closes the
    /// innermost inline table or array, or the header.
    fn take_mark(&mut self, at: usize, mark: u8) -> Result<(), AllocError> {
        match mark {
            b'[' => match self.next {
                Next::Value => return self.open(at, false),
                Next::Key if self.path.is_empty() && self.opened.is_empty() => {
                    self.next = Next::Header;
                }
                Next::Header if self.path.is_empty() => self.is_in_array = true,
                _ => (),
            },
            b'{' if self.next == Next::Value => return self.open(at, true),
            b',' => return self.take_comma(),
            b']' | b'}' => {
                if let Some(opened) = self.opened.pop() {
                    self.path.truncate(opened.length);
                }
                self.next = Next::AfterValue;
            }
            _ => self.next = match (self.next, mark) {
                (Next::AfterKey, b'.') => Next::Key,
                (Next::AfterKey, b'=') => Next::Value,
                (Next::AfterHeader, b'.') => Next::Header,
                (Next::Key, b'=') | (Next::Value, b'+') => Next::AfterValue,
                (next, _) => next,
            },
        }
        Ok(())
    }

    /// Takes the next piece, which is at the position `at` and has this kind.
    pub(crate) fn take(&mut self, at: usize, kind: Kind) -> Result<(), AllocError> {
        match kind {
            _ if self.next == Next::Rest => (),
            Kind::LineEnd if self.opened.is_empty() => {
                self.next = Next::Key;
                self.is_in_array = false;
                self.path.clear();
            }
            Kind::Open(true) => self.next = Next::Rest,
            Kind::Mark(mark) => return self.take_mark(at, mark),
            kind if is_name(kind) => return self.take_name(at),
            _ => (),
        }
        Ok(())
    }
}

/// Returns the offset after the number, date, time or word that begins with the piece at `at`, or 0 if there is no such
/// piece.
pub(crate) fn literal_end(pieces: &[Piece], at: usize) -> usize {
    let mut end = 0;
    for piece in pieces.get(at..).unwrap_or(&[]) {
        if !matches!(piece.kind, Kind::Bare | Kind::Mark(b'.' | b'+' | b':')) {
            break;
        }
        end = piece.end;
    }
    end
}
