//! Positions in a text, as the Language Server Protocol counts them.
ghost use Rattle.std.specs.Prelude.{◌≡◌, ◌+◌, ◌-◌, ◌<◌, ◌≤◌, drop, length, slice_index};
ghost use Rattle.std.specs.Str.{IsCharBoundary};
ghost use Rattle.toml_span_editor.specs.Positions as spec;

use toml_span_read::gaps::byte_at;

/// The code units in which a position counts the characters of its line.
#[derive(Clone, Copy, Debug, PartialEq, Eq)]
pub enum Encoding {
    Utf8,
    Utf16,
    /// Each character counts as one.
    Utf32,
}

/// A position in a text: a line, and a number of code units from the start of the line, both counted from 0.
#[derive(Clone, Copy, Debug, PartialEq, Eq)]
pub struct Position {
    pub line: usize,
    pub character: usize,
}

/// The text between two positions, the end exclusive.
#[derive(Clone, Copy, Debug, PartialEq, Eq)]
pub struct Range {
    pub start: Position,
    pub end: Position,
}

/// The largest number of the protocol. Larger counts are cut to this number.
const LARGEST: usize = 2_147_483_647;

/// The position of the start of a text.
pub const FIRST: Position = Position {
    line: 0,
    character: 0,
};

/// Returns the sum of two counts, but at most `LARGEST`.
fn plus(count: usize, more: usize) -> usize
    ensures { result ≡ spec.plus count more }
{
    count.saturating_add(more).min(LARGEST)
}

/// Returns the number of code units of a character that has several bytes in UTF-8 and begins with `byte`.
fn wide_units(encoding: Encoding, byte: u8) -> usize
    ensures { result ≡ spec.wide_units encoding byte }
{
    match (encoding, byte) {
        (Encoding::Utf8, 0..=223) => 2,
        (Encoding::Utf8, 224..=239) => 3,
        (Encoding::Utf8, _) => 4,
        (Encoding::Utf16, 0..=239) => 1,
        (Encoding::Utf16, _) => 2,
        (Encoding::Utf32, _) => 1,
    }
}

/// Returns the number of code units of the character that begins with `byte`, or 0 if `byte` is not the first byte of a
/// character.
fn units(encoding: Encoding, byte: u8) -> usize
    ensures { result ≡ spec.units encoding byte }
{
    match byte {
        0..=127 => 1,
        128..=191 => 0,
        _ => wide_units(encoding, byte),
    }
}

/// Returns whether a line ends with `byte`, if the byte after it is `next`. Lines end with LF, CRLF, or a CR alone.
fn ends_line(byte: u8, next: u8) -> bool
    ensures { result ≡ spec.ends_line byte next }
{
    byte == b'\n' || (byte == b'\r' && next != b'\n')
}

/// Returns whether a line ends with the byte at the offset `at`.
fn ends_line_at(text: &str, at: usize) -> bool
    requires { at < length text.now }
    ensures { result ≡ spec.ends_line (slice_index text.now at) (slice_index text.now (at + 1)) }
{
    let byte = byte_at(text, at);
    byte == b'\n' || (byte == b'\r' && byte_at(text, at + 1) != b'\n')
}

/// Returns the position after `byte`, which is at `position` and before the byte `next`. A CR before LF does not change
/// the position.
fn after(encoding: Encoding, position: Position, byte: u8, next: u8) -> Position
    ensures { result ≡ spec.after encoding position byte next }
{
    let Position { line, character } = position;
    if ends_line(byte, next) {
        Position {
            line: plus(line, 1),
            character: 0,
        }
    } else if byte == b'\r' {
        position
    } else {
        Position {
            line,
            character: plus(character, units(encoding, byte)),
        }
    }
}

/// Returns the position after the byte at the offset `at`, which is at `position`.
fn stepped(encoding: Encoding, text: &str, position: Position, at: usize) -> Position
    requires { at < length text.now }
    ensures { result ≡ spec.after encoding position (slice_index text.now at) (slice_index text.now (at + 1)) }
{
    let byte = byte_at(text, at);
    if byte >= b' ' && byte <= b'~' {
        // (one test for most bytes)
        let Position { line, character } = position;
        return Position {
            line,
            character: plus(character, 1),
        };
    }
    after(encoding, position, byte, byte_at(text, at + 1))
}

/// Returns the position of the byte offset `to`, given the `position` of the byte offset `from`. Returns `position` if
/// `to` is not after `from`.
pub(crate) fn advanced(
    encoding: Encoding,
    text: &str,
    position: Position,
    from: usize,
    to: usize,
) -> Position
    ensures { result ≡ spec.position_from encoding position (to - from) (drop from text.now) }
{
    let mut position = position;
    for at in from..to.min(text.len()) {
        position = stepped(encoding, text, position, at);
    }
    position
}

/// Returns the position of the byte offset `at`. An offset after the end of the text has the position of the end, and
/// an offset inside a character the position of the character's end.
pub fn position_at(encoding: Encoding, text: &str, at: usize) -> Position
    ensures { result ≡ spec.position_of encoding text.now at }
{
    advanced(encoding, text, FIRST, 0, at)
}

/// Returns the byte offset at which a line begins, or the length of the text if it has fewer lines. Lines are counted
/// from 0.
pub fn line_start(text: &str, line: usize) -> usize
    ensures value { result ≡ spec.line_start line text.now }
    ensures within { result ≤ length text.now }
{
    let mut left = line;
    let mut at = 0;
    'lines: while left > 0 && at < text.len() {
        if ends_line_at(text, at) {
            left -= 1;
        }
        at += 1;
    }
    at
}

/// Returns the byte offset that is `character` code units after `start`, the start of a line. If the line is shorter,
/// returns the end of the line. If the count ends inside a character, returns the start of the character.
fn column_end(encoding: Encoding, text: &str, start: usize, character: usize) -> usize
    requires { start ≤ length text.now }
    ensures value { result ≡ start + spec.column encoding character (drop start text.now) }
    ensures boundary { IsCharBoundary text.now result }
{
    let mut left = character;
    let mut at = start;
    'units: while at < text.len() {
        let byte = byte_at(text, at);
        let width = units(encoding, byte);
        if byte == b'\n' || byte == b'\r' || left < width {
            return at;
        }
        left -= width;
        at += 1;
    }
    at
}

/// Returns the byte offset of a position. A position past the end of its line counts as the end of the line, and a line
/// past the end of the text as the end of the text. A position inside a character counts as the character's start.
pub fn offset_at(encoding: Encoding, text: &str, position: Position) -> usize
    ensures value { result ≡ spec.offset_of encoding text.now position }
    ensures boundary { IsCharBoundary text.now result }
{
    let start = line_start(text, position.line);
    column_end(encoding, text, start, position.character)
}
