//! Finds out which brackets, or which string, are open at an offset, and where a value ends.

use crate::bytes::{Class, begins, end_of, first_of_line, last_of_line};
use toml_span_syntax::brackets::depth_after;
use toml_span_syntax::pieces::{Kind, Piece, piece_at};

/// What is open at an offset of a text that is valid TOML up to there.
#[derive(Clone, Copy)]
pub(crate) struct Open {
    /// The number of open brackets and braces.
    pub(crate) depth: usize,
    /// The offset of an open bracket or brace: the outermost for `open_before`. Has no meaning if `depth` is 0.
    pub(crate) bracket: usize,
    /// The offset of the latest string, which may be open, or 0 before the first string.
    pub(crate) string: usize,
    /// Whether the latest string begins with three quotes.
    pub(crate) is_long: bool,
}

/// Returns whether three equal quotes begin at the offset `at`.
pub(crate) fn is_long(text: &str, at: usize) -> bool {
    begins(text, at, b"\"\"\"") || begins(text, at, b"'''")
}

/// Returns what is open after `piece`. `state` is what is open before it. `bracket` becomes the start of the piece if
/// this is a bracket that raises the depth to `level`.
fn after(state: Open, piece: Piece, level: usize) -> Open {
    let mut next = state;
    match piece.kind {
        Kind::String(is_long) | Kind::Faulty(is_long) | Kind::Open(is_long) => {
            next.string = piece.start;
            next.is_long = is_long;
        }
        Kind::Mark(b'[' | b'{') => {
            next.depth = state.depth.saturating_add(1);
            if next.depth == level {
                next.bracket = piece.start;
            }
        }
        Kind::Mark(b']' | b'}') => next.depth = state.depth.saturating_sub(1),
        _ => (),
    }
    next
}

/// Returns what is open at the offset `at`, or at the end of the text if `at` is beyond it. `bracket` is the latest
/// bracket before `at` that raises the depth to `level`. Takes time linear in `at`.
fn scanned(text: &str, at: usize, level: usize) -> Open {
    let mut state = Open {
        depth: 0,
        bracket: 0,
        string: 0,
        is_long: false,
    };
    let mut place = 0;
    'pieces: while place < at && place < text.len() {
        let piece = piece_at(text, place);
        state = after(state, piece, level);
        if matches!(piece.kind, Kind::Open(true)) {
            return state;
        }
        place = piece.end;
    }
    state
}

/// Returns what is open at the offset `at`, with the outermost bracket. Takes time linear in `at`.
pub(crate) fn open_before(text: &str, at: usize) -> Open {
    scanned(text, at, 1)
}

/// Returns the offset of the innermost bracket or brace that is open at the offset `at`, or 0 if no bracket is open.
/// Takes time linear in `at`.
pub(crate) fn innermost(text: &str, at: usize) -> usize {
    scanned(text, at, open_before(text, at).depth).bracket
}

/// Returns whether the innermost bracket that is open at the offset `at` is closed after it, before a line that begins
/// with `[`, as a header does.
pub(crate) fn is_closed_after(text: &str, at: usize) -> bool {
    let mut place = text.floor_char_boundary(at);
    let mut depth = 1;
    'pieces: while place < text.len() {
        let piece = piece_at(text, place);
        depth = depth_after(depth, piece.kind);
        if depth == 0 {
            return true;
        }
        if matches!(piece.kind, Kind::LineEnd) && begins(text, piece.end, b"[") {
            return false;
        }
        place = piece.end;
    }
    false
}

/// Returns whether the outermost open bracket of `state` begins a table header: it is the first non-blank byte of its
/// line. Returns `false` if no bracket is open.
pub(crate) fn is_in_header(text: &str, state: Open) -> bool {
    state.depth > 0 && first_of_line(text, state.bracket) == state.bracket
}

/// Returns the end of the last piece from the offset `at` on that is on the line of `at`, and is neither a blank nor a
/// comment. If `is_bracketed` is set, returns the end of the piece that closes the bracket at `at` instead. Returns `at`
/// if the line ends in a string or in brackets, or has no such piece.
fn extent(text: &str, at: usize, is_bracketed: bool) -> usize {
    let line = end_of(Class::Line, text, at);
    let mut place = text.floor_char_boundary(at);
    let mut end = at;
    let mut depth = 0;
    'pieces: while place < line && place < text.len() {
        let piece = piece_at(text, place);
        depth = depth_after(depth, piece.kind);
        if is_bracketed && depth == 0 {
            return piece.end;
        }
        match piece.kind {
            Kind::Comment | Kind::Blank => (),
            _ => end = piece.end,
        }
        place = piece.end;
    }
    if depth == 0 && end <= line { end } else { at }
}

/// Returns the end of the line of `at`, without a comment and the blanks before it. Returns `at` if the line ends in a
/// string or in brackets that begin at or after `at`.
pub(crate) fn content_end(text: &str, at: usize) -> usize {
    extent(text, at, false)
}

/// Returns the end of the array or inline table at `at`, or the end of the line if that comes first.
pub(crate) fn bracketed_end(text: &str, at: usize) -> usize {
    let end = extent(text, at, true);
    if at < end {
        end
    } else {
        last_of_line(text, at)
    }
}

/// Returns the offset of the first byte at or after `at` that is neither a blank, a line end nor in a comment.
pub(crate) fn next_content(text: &str, at: usize) -> usize {
    let mut place = text.floor_char_boundary(at);
    'pieces: while place < text.len() {
        let piece = piece_at(text, place);
        if !matches!(piece.kind, Kind::Blank | Kind::LineEnd | Kind::Comment) {
            return place;
        }
        place = piece.end;
    }
    place
}
