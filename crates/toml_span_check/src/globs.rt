//! Reads the parts of a pattern of paths.
ghost use Rattle.std.specs.Prelude.{◌≡◌, [], IfOk, OnOk, option_map, true};
ghost use Rattle.toml_span_check.specs.Globs as spec;
ghost use Rattle.toml_span_check.specs.Globs.{codes_of, content, parts_of};

use std::alloc::{AllocError, Global};
use std::mem::replace;

/// The bytes from `first` to `last`.
#[derive(Clone, Copy)]
pub(crate) struct Range {
    pub(crate) first: u8,
    pub(crate) last: u8,
}

/// A set of bytes: those in the ranges or, if `is_negated`, all others.
#[derive(Drop)]
pub(crate) struct Set {
    pub(crate) ranges: Vec<Range>,
    pub(crate) is_negated: bool,
}

/// An element of a part of a pattern.
#[derive(Drop)]
pub(crate) enum Code {
    /// Any number of bytes: `*`.
    Star,
    /// One byte of a set: `?` is any byte, a class such as `[a-z]` one of its bytes, any other byte is itself.
    One(Set),
}

/// The place of the next byte in a pattern.
#[derive(Clone, Copy)]
enum Mode {
    /// Outside of a class.
    Plain,
    /// After a backslash outside of a class.
    Escaped,
    /// After the `[` of a class.
    Opened,
    /// At the first item of a class that begins with `!` or `^`.
    First,
    /// At a later item of a class, or at its end.
    Item,
    /// After a backslash in a class.
    ItemEscaped,
    /// After an item and `-`, which may be a range.
    Dash,
    /// After an item, `-` and a backslash.
    DashEscaped,
    /// After a `[` in a class.
    Bracket,
    /// After a named class such as `[:alpha:]`, which is not supported.
    Unsupported,
}

/// The elements of a pattern so far.
#[derive(Drop)]
struct Reader {
    /// The parts before the last slash.
    parts: Vec<Vec<Code>>,
    /// The elements after the last slash.
    codes: Vec<Code>,
    /// The items of the class that is not closed yet.
    ranges: Vec<Range>,
    is_negated: bool,
    /// The last item of the class, with which a range may begin, or 0.
    previous: u8,
    mode: Mode,
}

impl Reader {
    /// Returns a reader at the start of a pattern.
    fn new(alloc: Global) -> Reader
        ensures { content result ≡ spec.start }
    {
        Reader {
            parts: Vec::new(alloc),
            codes: Vec::new(alloc),
            ranges: Vec::new(alloc),
            is_negated: false,
            previous: 0,
            mode: Mode::Plain,
        }
    }

    /// Ends a part.
    fn end_part(&mut self, alloc: Global) -> Result<(), AllocError>
        ensures { OnOk result (content self.new ≡ spec.end_part (content self.old)) }
    {
        let codes = replace(&mut self.codes, Vec::new(alloc));
        self.parts.push(codes)?;
        Ok(())
    }

    /// Adds an element that matches any byte.
    fn push_any(&mut self, alloc: Global) -> Result<(), AllocError>
        ensures { OnOk result (content self.new ≡ spec.with_set ([], true) (content self.old)) }
    {
        self.codes.push(Code::One(Set {
            ranges: Vec::new(alloc),
            is_negated: true,
        }))?;
        Ok(())
    }

    /// Adds an element that matches one byte, or ends a part at a slash.
    fn literal(&mut self, alloc: Global, byte: u8) -> Result<(), AllocError>
        ensures { OnOk result (content self.new ≡ spec.literal byte (content self.old)) }
    {
        if byte == b'/' {
            return self.end_part(alloc);
        }
        let mut ranges = Vec::new(alloc);
        ranges.push(Range {
            first: byte,
            last: byte,
        })?;
        self.codes.push(Code::One(Set {
            ranges,
            is_negated: false,
        }))?;
        Ok(())
    }

    /// Reads a byte outside of a class.
    fn plain(&mut self, alloc: Global, byte: u8) -> Result<(), AllocError>
        ensures { OnOk result (content self.new ≡ spec.plain byte (content self.old)) }
    {
        if byte == b'*' {
            self.codes.push(Code::Star)?;
            Ok(())
        } else if byte == b'?' {
            self.push_any(alloc)
        } else if byte == b'[' {
            self.is_negated = false;
            self.previous = 0;
            self.mode = Mode::Opened;
            Ok(())
        } else if byte == b'\\' {
            self.mode = Mode::Escaped;
            Ok(())
        } else {
            self.literal(alloc, byte)
        }
    }

    /// Reads a byte after a backslash outside of a class.
    fn escaped(&mut self, alloc: Global, byte: u8) -> Result<(), AllocError>
        ensures { OnOk result (content self.new ≡ spec.escaped byte (content self.old)) }
    {
        self.mode = Mode::Plain;
        self.literal(alloc, byte)
    }

    /// Adds the bytes from `first` to `last` to a class. The next item may be the end of a range from `previous`, unless
    /// that is 0.
    fn push_range(&mut self, first: u8, last: u8, previous: u8) -> Result<(), AllocError>
        ensures { OnOk result (content self.new ≡ spec.with_range first last previous (content self.old)) }
    {
        self.ranges.push(Range { first, last })?;
        self.previous = previous;
        self.mode = Mode::Item;
        Ok(())
    }

    /// Reads an item of a class.
    fn item(&mut self, byte: u8) -> Result<(), AllocError>
        ensures { OnOk result (content self.new ≡ spec.item byte (content self.old)) }
    {
        if byte == b'\\' {
            self.mode = Mode::ItemEscaped;
            Ok(())
        } else if byte == b'-' && self.previous != 0 {
            self.mode = Mode::Dash;
            Ok(())
        } else if byte == b'[' {
            self.mode = Mode::Bracket;
            Ok(())
        } else {
            self.push_range(byte, byte, byte)
        }
    }

    /// Reads the byte after the `[` of a class.
    fn opened(&mut self, byte: u8) -> Result<(), AllocError>
        ensures { OnOk result (content self.new ≡ spec.opened byte (content self.old)) }
    {
        if byte == b'!' || byte == b'^' {
            self.is_negated = true;
            self.mode = Mode::First;
            Ok(())
        } else {
            self.item(byte)
        }
    }

    /// Ends a class.
    fn end_class(&mut self, alloc: Global) -> Result<(), AllocError>
        ensures { OnOk result (content self.new ≡ spec.end_class (content self.old)) }
    {
        let ranges = replace(&mut self.ranges, Vec::new(alloc));
        self.mode = Mode::Plain;
        self.codes.push(Code::One(Set {
            ranges,
            is_negated: self.is_negated,
        }))?;
        Ok(())
    }

    /// Reads a later item of a class, or its end.
    fn item_or_end(&mut self, alloc: Global, byte: u8) -> Result<(), AllocError>
        ensures { OnOk result (content self.new ≡ spec.item_or_end byte (content self.old)) }
    {
        if byte == b']' {
            self.end_class(alloc)
        } else {
            self.item(byte)
        }
    }

    /// Reads a byte after an item of a class and `-`: the end of a range, or the end of the class.
    fn dash(&mut self, alloc: Global, byte: u8) -> Result<(), AllocError>
        ensures { OnOk result (content self.new ≡ spec.dash byte (content self.old)) }
    {
        if byte == b']' {
            self.push_range(b'-', b'-', b'-')?;
            self.end_class(alloc)
        } else if byte == b'\\' {
            self.mode = Mode::DashEscaped;
            Ok(())
        } else {
            self.push_range(self.previous, byte, 0)
        }
    }

    /// Reads a byte after a `[` in a class.
    fn bracket(&mut self, alloc: Global, byte: u8) -> Result<(), AllocError>
        ensures { OnOk result (content self.new ≡ spec.bracket byte (content self.old)) }
    {
        if byte == b':' {
            self.mode = Mode::Unsupported;
            return Ok(());
        }
        self.push_range(b'[', b'[', b'[')?;
        self.item_or_end(alloc, byte)
    }

    /// Reads a byte of a pattern.
    fn step(&mut self, alloc: Global, byte: u8) -> Result<(), AllocError>
        ensures { OnOk result (content self.new ≡ spec.step (content self.old) byte) }
    {
        match self.mode {
            Mode::Plain => self.plain(alloc, byte),
            Mode::Escaped => self.escaped(alloc, byte),
            Mode::Opened => self.opened(byte),
            Mode::First => self.item(byte),
            Mode::Item => self.item_or_end(alloc, byte),
            Mode::ItemEscaped => self.push_range(byte, byte, byte),
            Mode::Dash => self.dash(alloc, byte),
            Mode::DashEscaped => self.push_range(self.previous, byte, 0),
            Mode::Bracket => self.bracket(alloc, byte),
            Mode::Unsupported => Ok(()),
        }
    }
}

/// Returns whether a part of a pattern matches any number of parts of a path: whether it is `**`, with two or more
/// stars.
pub(crate) fn is_any(part: &[Code]) -> bool
    ensures { result ≡ spec.is_any (codes_of part.now) }
{
    for code in part {
        match code {
            Code::Star => {}
            Code::One(_) => return false,
        }
    }
    2 <= part.len()
}

/// Returns a part that consists of this number of stars.
fn stars(alloc: Global, count: usize) -> Result<Vec<Code>, AllocError>
    ensures { IfOk result (λ part. codes_of part.items ≡ spec.stars count) }
{
    let mut part = Vec::new(alloc);
    for _ in 0..count {
        part.push(Code::Star)?;
    }
    Ok(part)
}

/// Returns the parts of a pattern that has been read. A part `**` at the end matches at least one part of a path, so
/// that `a/**` does not match `a` itself. Returns `None` if a class is not closed, if the pattern ends in a backslash,
/// or if it is not supported.
fn finished(alloc: Global, mut reader: Reader) -> Result<Option<Vec<Vec<Code>>>, AllocError>
    ensures { IfOk result (λ parts. option_map (λ all. parts_of all.items) parts ≡ spec.finished (content reader)) }
{
    match reader.mode {
        Mode::Plain => {}
        _ => return Ok(None),
    }
    let is_open = is_any(reader.codes.as_slice());
    reader.end_part(alloc)?;
    if is_open {
        reader.parts.push(stars(alloc, 1)?)?;
    }
    Ok(Some(replace(&mut reader.parts, Vec::new(alloc))))
}

/// Splits a pattern at its slashes into parts. If `is_deep`, the first part is `**`. Returns `None` as `finished` does.
pub(crate) fn parts_of_glob(
    alloc: Global,
    text: &[u8],
    is_deep: bool,
) -> Result<Option<Vec<Vec<Code>>>, AllocError>
    ensures { IfOk result (λ parts. option_map (λ all. parts_of all.items) parts ≡ spec.glob_parts text.now is_deep) }
{
    let mut reader = Reader::new(alloc);
    if is_deep {
        reader.parts.push(stars(alloc, 2)?)?;
    }
    for byte in text {
        reader.step(alloc, *byte)?;
    }
    finished(alloc, reader)
}
