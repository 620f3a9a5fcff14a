//! Prints items in their new layout.
use crate::aligned::{Comments, aligned};
use crate::items::{Form, Gap, Item, Kind, columns};
use crate::options::Options;
use std::alloc::{AllocError, Global};

/// How an open array or inline table is being printed.
#[derive(Clone, Copy, PartialEq, Eq)]
enum Mode {
    /// On one line, with everything in it.
    Flat,
    /// On one line, except for arrays inside, which may be printed one element per line.
    OneLine,
    /// One element per line.
    Lines,
}

/// An array or inline table that has been opened and not closed.
#[derive(Clone, Copy)]
struct Frame {
    mode: Mode,
    is_table: bool,
    is_empty: bool,
    /// The number of columns to keep free after an element, for closing brackets and commas.
    reserved: usize,
}

/// The output so far, and the open arrays and inline tables.
#[derive(Drop)]
struct Printer<'t> {
    text: &'t str,
    out: String,
    options: Options,
    line_end: &'static str,
    open: Vec<Frame>,
    /// The indentation of a new line in spaces. `begin_line` writes at most `options.width` of them.
    spaces: usize,
    /// The offset in `out` up to which `column` counts the columns of the current line.
    counted: usize,
    column: usize,
    /// Whether the first line has begun.
    is_begun: bool,
    /// `is_after_open`: whether an array or inline table has been opened with one element per line, and no line has
    /// begun since then. `is_after_equals`: whether a value has to follow an equals sign. `is_after_comment`: whether
    /// the last item is a comment.
    is_after_open: bool,
    is_after_equals: bool,
    is_after_comment: bool,
    /// Whether the item is the last element of its array or inline table, and gets no comma.
    is_last: bool,
    /// The comments at the ends of lines, if they are to stay aligned.
    comments: Comments,
    /// Whether an allocation has failed. Parts of the output may be missing then.
    has_failed: bool,
}

/// Returns whether these items, which follow an element, have no other element of the same array or inline table.
fn ends_list(items: &[Item<'_>]) -> bool {
    match items.iter().find(|item| item.kind != Kind::Comment) {
        Some(item) => item.kind == Kind::Close,
        None => false,
    }
}

impl Printer<'_> {
    /// Writes `text`.
    fn write(&mut self, text: &str) {
        self.has_failed = self.out.push_str(text).is_err() || self.has_failed;
    }

    /// Writes a line end.
    fn end_line(&mut self) {
        let line_end = self.line_end;
        self.write(line_end);
        self.counted = self.out.len();
        self.column = 0;
    }

    /// Writes blank lines, as many as the options allow.
    fn blank_lines(&mut self, count: usize) {
        self.comments.end_group();
        for _ in 0..count.min(self.options.blank_lines).max(1) {
            self.end_line();
        }
    }

    /// Ends the current line, and begins a new one with its indentation. For `BlankLines`, writes blank lines between
    /// the two, unless the new line is the first inside an array or inline table. At the start of the output, no line
    /// is ended.
    fn begin_line(&mut self, gap: Gap) {
        if self.is_begun {
            self.end_line();
            match gap {
                Gap::BlankLines(count) if !self.is_after_open => self.blank_lines(count),
                _ => {}
            }
        }
        self.is_begun = true;
        self.is_after_open = false;
        self.is_after_comment = false;
        // (at most the width, so that deep nesting does not make the output grow without limit)
        for _ in 0..self.spaces.min(self.options.width) {
            self.write(" ");
        }
    }

    /// Returns the number of columns of the current line so far.
    fn column(&mut self) -> usize {
        let more = columns(self.out.as_str().get(self.counted..).unwrap_or(""));
        self.counted = self.out.len();
        self.column = self.column.saturating_add(more);
        self.column
    }

    /// Begins an element of the innermost open array or inline table: on a new line, or on the same line, with a comma
    /// after the previous element. Does nothing if no array or inline table is open.
    fn begin_element(&mut self, gap: Gap) {
        let Some(frame) = self.open.last_mut() else {
            return;
        };
        let is_first = frame.is_empty;
        frame.is_empty = false;
        match frame.mode {
            Mode::Lines => self.begin_line(gap),
            _ if !is_first => self.write(", "),
            _ if frame.is_table => self.write(" "),
            _ => {}
        }
    }

    /// Continues the line, after the text `between`. After a comment, begins a new line instead.
    fn go_on(&mut self, between: &str) {
        if self.is_after_comment {
            self.begin_line(Gap::NextLine);
        } else {
            self.write(between);
        }
    }

    /// Begins a value. After an equals sign, the value continues the line; otherwise it is an element
    /// (`begin_element`).
    fn begin_value(&mut self, gap: Gap) {
        if self.is_after_equals {
            self.is_after_equals = false;
            self.go_on(" ");
            return;
        }
        self.begin_element(gap);
    }

    /// Ends an element of the innermost open array or inline table. Writes a comma if each element has its own line.
    fn end_element(&mut self) {
        if self.is_last {
            return;
        }
        match self.open.last() {
            Some(
                Frame {
                    mode: Mode::Lines,
                    ..
                },
            ) => self.write(","),
            _ => {}
        }
    }

    /// Prints a comment, on its own line or at the end of the current line.
    fn comment(&mut self, item: &Item<'_>) {
        if item.is_own_comment() {
            self.begin_line(item.gap);
        } else {
            if self.options.aligns_comments {
                let column = self.column().saturating_add(1);
                let at = self.out.len();
                self.comments.push(self.text, item.start, at, column);
            }
            self.write(" ");
        }
        self.is_after_comment = true;
        self.write(item.text.trim_ascii_end());
    }

    /// Prints the first part of a key.
    fn key(&mut self, item: &Item<'_>) {
        if self.open.is_empty() {
            self.begin_line(item.gap);
        } else {
            self.begin_element(item.gap);
        }
        self.write(item.text);
    }

    /// Prints a string, number, date or boolean.
    fn scalar(&mut self, item: &Item<'_>) {
        self.begin_value(item.gap);
        let start = self.out.len();
        self.write(item.text);
        if let Some((lines, _)) = item.text.rsplit_once('\n') {
            self.counted = start.saturating_add(lines.len()).saturating_add(1);
            self.column = 0;
        }
        self.end_element();
    }

    /// Returns how to print an array or inline table of this form that begins in the current column.
    fn mode_of(&mut self, form: Form) -> Mode {
        let (is_flat, reserved) = match self.open.last() {
            Some(frame) => (frame.mode == Mode::Flat, frame.reserved),
            None => (false, 0),
        };
        match form {
            _ if is_flat => Mode::Flat,
            Form::Lines => Mode::Lines,
            Form::OneLine => Mode::OneLine,
            Form::IfFits(width) => {
                let end = self.column().saturating_add(width).saturating_add(reserved);
                if end <= self.options.width {
                    Mode::Flat
                } else {
                    Mode::Lines
                }
            }
        }
    }

    /// Prints an opening bracket or brace.
    fn begin(&mut self, item: &Item<'_>, is_table: bool, form: Form) {
        self.begin_value(item.gap);
        let mode = self.mode_of(form);
        let outer = match self.open.last() {
            Some(frame) => frame.reserved,
            None => 0,
        };
        let reserved = match mode {
            Mode::Lines => {
                self.spaces = self.spaces.saturating_add(self.options.indent);
                self.is_after_open = true;
                1
            }
            _ => outer.saturating_add(2),
        };
        let frame = Frame {
            mode,
            is_table,
            is_empty: true,
            reserved,
        };
        self.has_failed = self.open.push(frame).is_err() || self.has_failed;
        self.write(item.text);
    }

    /// Prints a closing bracket or brace.
    fn close(&mut self, item: &Item<'_>) {
        match self.open.pop() {
            Some(frame) if frame.mode == Mode::Lines => {
                self.spaces = self.spaces.saturating_sub(self.options.indent);
                self.begin_line(Gap::NextLine);
            }
            Some(frame) if frame.is_table && !frame.is_empty => self.write(" "),
            _ => {}
        }
        self.write(item.text);
        self.end_element();
    }

    /// Prints a item.
    fn item(&mut self, item: &Item<'_>) {
        match item.kind {
            Kind::Header => {
                self.begin_line(item.gap);
                self.write(item.text);
            }
            Kind::Key => self.key(item),
            Kind::Part => {
                self.go_on("");
                self.write(item.text);
            }
            Kind::Equals => {
                self.go_on(" ");
                self.is_after_equals = true;
                self.write("=");
            }
            Kind::Scalar => self.scalar(item),
            Kind::OpenArray(form) => self.begin(item, false, form),
            Kind::OpenTable(form) => self.begin(item, true, form),
            Kind::Close => self.close(item),
            Kind::Comment => self.comment(item),
        }
    }
}

/// Returns the byte order mark at the start of the text, or an empty string.
fn mark_of(text: &str) -> &'static str {
    if text.starts_with('\u{feff}') {
        "\u{feff}"
    } else {
        ""
    }
}

/// Returns the text of all items of the document `text` in their new layout. Its lines end with `line_end`, except
/// inside strings. A byte order mark is kept.
pub(crate) fn print(
    alloc: Global,
    text: &str,
    line_end: &'static str,
    items: &[Item<'_>],
    options: Options,
) -> Result<String, AllocError> {
    let mark = mark_of(text);
    let mut printer = Printer {
        text,
        out: String::from_str(alloc, mark)?,
        options,
        line_end,
        open: Vec::new(alloc),
        spaces: 0,
        counted: mark.len(),
        column: 0,
        is_begun: false,
        is_after_open: false,
        is_after_equals: false,
        is_after_comment: false,
        is_last: false,
        comments: Comments::new(alloc),
        has_failed: false,
    };
    for (at, item) in items.iter().enumerate() {
        if !options.has_trailing_comma && matches!(item.kind, Kind::Scalar | Kind::Close) {
            printer.is_last = ends_list(items.get(at.saturating_add(1)..).unwrap_or(&[]));
        }
        printer.item(item);
    }
    if printer.is_begun {
        printer.end_line();
    }
    if printer.has_failed {
        return Err(AllocError);
    }
    if options.aligns_comments {
        return aligned(alloc, printer.out.as_str(), &printer.comments);
    }
    Ok(printer.out)
}
