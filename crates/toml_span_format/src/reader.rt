//! Splits a document into items.
use crate::items::{Form, Gap, Item, Kind, columns};
use crate::options::Options;
use std::alloc::{AllocError, Global};
use toml_span_syntax::pieces::{Kind as PieceKind, Piece};

/// The part of the document to which the next tokens belong.
#[derive(Clone, Copy, PartialEq, Eq)]
enum Place {
    /// A new line, on which a header or a key may begin.
    Line,
    Header,
    Key,
    Value,
}

/// An array or inline table that has been opened and not closed.
#[derive(Clone, Copy)]
struct Frame {
    is_table: bool,
    /// The position of the item that opens the array or inline table.
    at: usize,
    /// The number of columns of the elements, with ` = ` in pairs, but without commas.
    width: usize,
    elements: usize,
    /// Whether a comma follows the last element.
    ends_in_comma: bool,
    has_comment: bool,
    /// Whether the array or inline table directly contains a line end or, unless line ends are kept, an inline table
    /// whose form is not `OneLine`.
    has_line_end: bool,
    /// Whether an element, such as a string with a line end, takes more than one line in any layout.
    has_lines: bool,
}

impl Frame {
    /// Returns the number of columns that the array or inline table takes on one line.
    fn whole_width(&self) -> usize {
        let brackets = if self.is_table && self.elements > 0 {
            4
        } else {
            2
        };
        let commas = self.elements.saturating_sub(1).saturating_mul(2);
        self.width.saturating_add(commas).saturating_add(brackets)
    }

    /// Returns the form in which to write the array or inline table. An inline table without a line end
    /// (`has_line_end`), a comment or a trailing comma stays on one line, because TOML 1.0 allows no line ends in
    /// inline tables.
    fn form(&self, options: Options) -> Form {
        let keeps = options.keeps_lines;
        if self.has_comment || self.ends_in_comma && options.has_trailing_comma && !keeps {
            Form::Lines
        } else if !self.has_line_end && (self.is_table || keeps) {
            Form::OneLine
        } else if self.has_lines || keeps && self.elements > 0 {
            Form::Lines
        } else {
            Form::IfFits(self.whole_width())
        }
    }
}

/// The items read so far, and the open arrays and inline tables.
#[derive(Drop)]
struct Reader<'t> {
    text: &'t str,
    options: Options,
    items: Vec<Item<'t>>,
    open: Vec<Frame>,
    place: Place,
    /// Whether a key has begun, and its value has not.
    in_key: bool,
    /// Whether the last item is a scalar that the next token may continue.
    in_scalar: bool,
    /// The gap between the last item and the next token.
    gap: Gap,
    /// Whether there is a comma on the current line, after the last item. A line with only a comma does not count as
    /// blank.
    has_comma: bool,
    /// Whether an allocation has failed. Items may be missing then.
    has_failed: bool,
}

impl<'t> Reader<'t> {
    /// Appends an item that begins at the offset `start` to `items`, with the current gap before it. Starts a new gap.
    fn add(&mut self, kind: Kind, text: &'t str, start: usize) {
        let gap = self.gap;
        self.gap = Gap::SameLine;
        self.has_comma = false;
        let item = Item {
            kind,
            text,
            start,
            gap,
        };
        self.has_failed = self.items.push(item).is_err() || self.has_failed;
    }

    /// Adds `by` columns to the innermost open array or inline table, if there is one.
    fn widen(&mut self, by: usize) {
        if let Some(frame) = self.open.last_mut() {
            frame.width = frame.width.saturating_add(by);
        }
    }

    /// Adds the columns of `text` to the innermost open array or inline table, if there is one.
    fn widen_by(&mut self, text: &str) {
        if let Some(frame) = self.open.last_mut() {
            frame.width = frame.width.saturating_add(columns(text));
        }
    }

    /// Counts one more element of the innermost open array or inline table, if there is one.
    fn count(&mut self) {
        if let Some(frame) = self.open.last_mut() {
            frame.elements = frame.elements.saturating_add(1);
            frame.ends_in_comma = false;
        }
    }

    /// Returns whether an inline table is open, and is the innermost open array or inline table.
    fn is_in_table(&self) -> bool {
        match self.open.last() {
            Some(frame) => frame.is_table,
            None => false,
        }
    }

    /// Adds a line end to the gap. Sets `has_line_end` of the innermost open array or inline table. If none is open, the
    /// next token begins a line.
    fn line_end(&mut self) {
        self.gap = if self.has_comma {
            self.gap.on_new_line()
        } else {
            self.gap.with_line_end()
        };
        self.has_comma = false;
        match self.open.last_mut() {
            Some(frame) => frame.has_line_end = true,
            None => self.place = Place::Line,
        }
    }

    /// Appends a comment to `items`.
    fn comment(&mut self, text: &'t str, start: usize) {
        self.add(Kind::Comment, text, start);
        if let Some(frame) = self.open.last_mut() {
            frame.has_comment = true;
        }
    }

    /// Appends the bracket that begins a header to `items`. Puts a blank line before the header and the comments
    /// directly above it, unless they begin the document.
    fn header(&mut self, start: usize) {
        self.add(Kind::Header, "[", start);
        self.place = Place::Header;
        for at in (1..self.items.len()).rev() {
            let is_attached = match self.items.get(at - 1) {
                Some(before) => before.is_own_comment(),
                None => false,
            };
            if let Some(first) = self.items.get_mut(at) {
                if matches!(first.gap, Gap::BlankLines(_)) {
                    break;
                }
                if !is_attached {
                    first.gap = Gap::BlankLines(1);
                    break;
                }
            }
        }
    }

    /// Appends a dot or a part of a key to `items`. The first part counts as an element.
    fn part(&mut self, text: &'t str, start: usize) {
        self.widen_by(text);
        let kind = if self.in_key { Kind::Part } else { Kind::Key };
        if !self.in_key {
            self.count();
        }
        self.place = Place::Key;
        self.in_key = true;
        self.add(kind, text, start);
    }

    /// Appends an equals sign to `items`. The next token begins a value.
    fn equals(&mut self, start: usize) {
        self.widen(3);
        self.place = Place::Value;
        self.in_scalar = false;
        self.add(Kind::Equals, "=", start);
    }

    /// Begins a value. A value without a key counts as an element.
    fn begin_value(&mut self) {
        if !self.in_key {
            self.count();
        }
        self.in_key = false;
    }

    /// Appends a scalar to `items`, or extends the last item by a token that continues it.
    fn scalar(&mut self, text: &'t str, start: usize) {
        if !self.in_scalar {
            self.begin_value();
            self.widen_by(text);
            self.add(Kind::Scalar, text, start);
            self.in_scalar = true;
            return;
        }
        let end = start.saturating_add(text.len());
        let Some(last) = self.items.last_mut() else {
            return;
        };
        let before = last.text.len();
        last.text = self.text.get(last.start..end).unwrap_or("");
        // (all bytes are ASCII here, so each is one column)
        let more = last.text.len().saturating_sub(before);
        self.widen(more);
    }

    /// Appends the opening bracket or brace at `start` to `items`, and opens the array or inline table.
    fn begin(&mut self, is_table: bool, start: usize) {
        self.begin_value();
        let at = self.items.len();
        if is_table {
            self.place = Place::Key;
            self.add(Kind::OpenTable(Form::Lines), "{", start);
        } else {
            self.add(Kind::OpenArray(Form::Lines), "[", start);
        }
        let frame = Frame {
            is_table,
            at,
            width: 0,
            elements: 0,
            ends_in_comma: false,
            has_comment: false,
            has_line_end: false,
            has_lines: false,
        };
        self.has_failed = self.open.push(frame).is_err() || self.has_failed;
    }

    /// Adds the columns of `frame`, which was just closed, to the innermost open array or inline table, if there is
    /// one. Also updates `has_line_end` and `has_lines` there. `form` is the form of `frame`.
    fn add_to_outer(&mut self, frame: &Frame, form: Form) {
        self.widen(frame.whole_width());
        let keeps = self.options.keeps_lines;
        if let Some(outer) = self.open.last_mut() {
            outer.has_line_end |= !keeps && frame.is_table && form != Form::OneLine;
            outer.has_lines |= frame.has_lines || form == Form::Lines;
        }
    }

    /// Appends the closing bracket or brace `text` to `items`, closes the innermost array or inline table, and sets
    /// its form.
    fn close(&mut self, text: &'t str, start: usize) {
        self.in_scalar = false;
        self.place = Place::Value;
        self.add(Kind::Close, text, start);
        let Some(frame) = self.open.pop() else {
            return;
        };
        let form = frame.form(self.options);
        if let Some(opening) = self.items.get_mut(frame.at) {
            opening.kind = if frame.is_table {
                Kind::OpenTable(form)
            } else {
                Kind::OpenArray(form)
            };
        }
        self.add_to_outer(&frame, form);
    }

    /// Ends an element at a comma. In an inline table, the next token begins a key.
    fn comma(&mut self) {
        self.in_scalar = false;
        self.has_comma = true;
        if let Some(frame) = self.open.last_mut() {
            frame.ends_in_comma = true;
        }
        if self.is_in_table() {
            self.place = Place::Key;
        }
    }

    /// Adds a token, such as a bare word, to the key, header or scalar to which it belongs.
    fn word(&mut self, text: &'t str, start: usize) {
        match self.place {
            Place::Line | Place::Key => self.part(text, start),
            Place::Header => self.add(Kind::Part, text, start),
            Place::Value => self.scalar(text, start),
        }
    }

    /// Adds the string with the source text `src` as `word` does. If it has several lines, sets `has_lines` of the
    /// innermost open array or inline table.
    fn string(&mut self, src: &'t str, start: usize, multiline: bool) {
        self.word(src, start);
        if multiline && src.contains('\n') {
            if let Some(frame) = self.open.last_mut() {
                frame.has_lines = true;
            }
        }
    }

    /// Begins a header or an array, or adds the second bracket of a header.
    fn left_bracket(&mut self, start: usize) {
        match self.place {
            Place::Line => self.header(start),
            Place::Header => self.word("[", start),
            _ => self.begin(false, start),
        }
    }

    /// Adds a closing bracket to a header, or closes an array.
    fn right_bracket(&mut self, start: usize) {
        match self.place {
            Place::Header => self.word("]", start),
            _ => self.close("]", start),
        }
    }

    /// Adds a mark, such as a comma or a bracket.
    fn mark(&mut self, mark: u8, text: &'t str, start: usize) {
        match mark {
            b'=' => self.equals(start),
            b',' => self.comma(),
            b'{' => self.begin(true, start),
            b'}' => self.close(text, start),
            b'[' => self.left_bracket(start),
            b']' => self.right_bracket(start),
            _ => self.word(text, start),
        }
    }

    /// Adds the next piece of the text to the items, and updates the state of the reader.
    fn piece(&mut self, piece: &Piece) {
        let text = self.text.get(piece.start..piece.end).unwrap_or("");
        match piece.kind {
            PieceKind::Blank | PieceKind::ByteOrderMark => {}
            PieceKind::LineEnd => self.line_end(),
            PieceKind::Comment => self.comment(text, piece.start),
            PieceKind::Mark(mark) => self.mark(mark, text, piece.start),
            PieceKind::String(is_multiline) => self.string(text, piece.start, is_multiline),
            PieceKind::Bare | PieceKind::Faulty(_) | PieceKind::Open(_) | PieceKind::Invalid => {
                self.word(text, piece.start)
            }
        }
    }
}

/// Returns the items of a text with these pieces, which must be readable as TOML. For any other text, the items are
/// unspecified.
pub(crate) fn items_of<'t>(
    alloc: Global,
    text: &'t str,
    pieces: &[Piece],
    options: Options,
) -> Result<Vec<Item<'t>>, AllocError> {
    let mut reader = Reader {
        text,
        options,
        items: Vec::new(alloc),
        open: Vec::new(alloc),
        place: Place::Line,
        in_key: false,
        in_scalar: false,
        gap: Gap::NextLine,
        has_comma: false,
        has_failed: false,
    };
    for piece in pieces {
        reader.piece(piece);
    }
    if reader.has_failed {
        return Err(AllocError);
    }
    Ok(reader.items)
}
