//! Finds out what is being written at an offset. The text need not be valid.
use crate::syntax::Syntax;
use crate::walk::{Next, Opened, Segment, Walk, is_name, literal_end};
use std::alloc::{AllocError, Global};
use toml_span_lex::span::Span;
use toml_span_lex::stop::Stop;
use toml_span_lex::tokenizer::Tokenizer;
use toml_span_syntax::pieces::{Kind, Piece};
use toml_span_syntax::statements::Statement;

/// A step of a path, like `Step`, but with an owned name.
#[derive(Drop)]
pub(crate) enum NamedStep {
    Key(String),
    /// The position of an element of an array.
    Position(usize),
}

/// The kind of text that can be written at an offset.
#[derive(Clone, Copy, PartialEq, Eq)]
pub(crate) enum ExpectedText {
    /// A part of the key of an assignment.
    Key,
    Value,
    /// A part of a header in single brackets.
    Table,
    /// A part of a header in double brackets.
    TableInArray,
    /// A comment, or a place where neither a key nor a value is expected.
    Other,
}

/// The text that is being written at an offset: its kind and its place in the tree.
#[derive(Drop)]
pub(crate) struct Context<'t> {
    pub(crate) expected: ExpectedText,
    /// For a value, its path. For a part of a key, the path of the table that contains it. Both paths begin at the
    /// table of the section. For a part of a header, the parts before it.
    pub(crate) path: Vec<NamedStep>,
    /// Directly in an inline table, the first parts of the table's other keys. Otherwise empty.
    pub(crate) names: Vec<String>,
    /// Directly in an inline table, the statement up to the table, with `{}` in place of the table and with the
    /// brackets around it closed. Otherwise empty.
    pub(crate) front: String,
    /// The span of the word or string that a suggestion replaces. Empty if nothing is replaced.
    pub(crate) typed: Span,
    /// The text from the first character after `typed` that is not a blank.
    pub(crate) rest: &'t str,
    /// Whether nothing is replaced, and an element of the same array or a pair of the same inline table follows.
    pub(crate) is_followed: bool,
}

/// A word or string that a suggestion replaces: the number of pieces before it, and its span. The span is empty if
/// there is none.
#[derive(Clone, Copy)]
struct Typed {
    before: usize,
    span: Span,
}

/// Returns the number of pieces that begin before the offset `at`.
fn count_before(pieces: &[Piece], at: usize) -> usize {
    for (count, piece) in pieces.iter().enumerate() {
        if piece.start >= at {
            return count;
        }
    }
    pieces.len()
}

/// Returns the first piece of the last statement that begins before the piece at `count` or with it, and the position
/// after the statement.
fn statement_at(statements: &[Statement], count: usize) -> (usize, usize) {
    let mut found = (0, 0);
    for statement in statements {
        if statement.first > count {
            return found;
        }
        found = (statement.first, statement.end);
    }
    found
}

/// Returns the word or single-line string that begins at the offset `at`, after `count` pieces, or an empty span.
fn next_typed(pieces: &[Piece], count: usize, at: usize) -> Typed {
    let end = match pieces.get(count) {
        Some(
            Piece {
                kind: Kind::Bare | Kind::String(false) | Kind::Faulty(false),
                start,
                end,
            },
        ) if *start == at => *end,
        _ => at,
    };
    Typed {
        before: count,
        span: Span { start: at, end },
    }
}

/// Returns the word or single-line string at the offset `at`, which `count` pieces begin before. A string that ends at
/// the offset does not count. Returns `None` in a comment or in a multi-line string.
fn typed_at(pieces: &[Piece], count: usize, at: usize) -> Option<Typed> {
    let before = count.saturating_sub(1);
    let last = match pieces.get(before) {
        Some(last) if count > 0 => *last,
        _ => return Some(next_typed(pieces, count, at)),
    };
    let end = match last.kind {
        Kind::Comment | Kind::Open(true) => return None,
        Kind::String(true) | Kind::Faulty(true) if at < last.end => return None,
        Kind::String(false) | Kind::Faulty(false) if at < last.end => last.end,
        Kind::Bare => last.end,
        Kind::Open(false) => at,
        _ => return Some(next_typed(pieces, count, at)),
    };
    let span = Span {
        start: last.start,
        end,
    };
    Some(Typed { before, span })
}

/// Returns the name that a piece of `text`, a part of a key, spells: the text of the piece if it is not valid.
fn name_of(alloc: Global, text: &str, piece: Piece) -> Result<String, AllocError> {
    let text = text.get(piece.start..piece.end).unwrap_or("");
    match Tokenizer::new(text).table_key(alloc) {
        Ok(key) => String::from_str(alloc, key.name.as_ref()),
        Err(Stop::Memory(error)) => Err(error),
        Err(Stop::Fault(_)) => String::from_str(alloc, text),
    }
}

/// Returns `segments` with the names of the keys.
fn named(
    alloc: Global,
    text: &str,
    pieces: &[Piece],
    segments: &[Segment],
) -> Result<Vec<NamedStep>, AllocError> {
    let mut path = Vec::new(alloc);
    for segment in segments {
        match *segment {
            Segment::Element(position) => path.push(NamedStep::Position(position))?,
            Segment::Key(at) => if let Some(piece) = pieces.get(at) {
                path.push(NamedStep::Key(name_of(alloc, text, *piece)?))?;
            },
        }
    }
    Ok(path)
}

/// Returns the first parts of the keys of the inline table that the piece at `open` opens, up to the piece at `end`.
/// Leaves out the piece at `typed`.
fn names_in(
    alloc: Global,
    text: &str,
    pieces: &[Piece],
    open: usize,
    end: usize,
    typed: usize,
) -> Result<Vec<String>, AllocError> {
    let mut names = Vec::new(alloc);
    let mut walk = Walk::new(alloc);
    walk.open(open, true)?;
    for at in open.saturating_add(1)..end.min(pieces.len()) {
        if walk.opened.is_empty() {
            break;
        }
        let is_first = walk.next == Next::Key && walk.path.is_empty() && is_name(pieces[at].kind);
        if is_first && at != typed {
            names.push(name_of(alloc, text, pieces[at])?)?;
        }
        walk.take(at, pieces[at].kind)?;
    }
    Ok(names)
}

/// Returns the statement that begins at the offset `start`, up to the innermost of the inline tables and arrays
/// `opened`, with `{}` in place of that one and with the others closed.
fn closed_front(
    alloc: Global,
    text: &str,
    pieces: &[Piece],
    start: usize,
    opened: &[Opened],
) -> Result<String, AllocError> {
    let mut front = String::new(alloc);
    let [outer @ .., inner] = opened else {
        return Ok(front);
    };
    let end = match pieces.get(inner.at) {
        Some(piece) => piece.start,
        None => start,
    };
    if start <= end {
        front.push_str(text.get(start..end).unwrap_or(""))?;
    }
    front.push_str("{}")?;
    for one in outer.iter().rev() {
        front.push(if one.is_table { '}' } else { ']' })?;
    }
    Ok(front)
}

/// Returns the kind of text that is expected after a walk.
fn expected_after(walk: &Walk) -> ExpectedText {
    match walk.next {
        Next::Key => ExpectedText::Key,
        Next::Value => ExpectedText::Value,
        Next::Header if walk.is_in_array => ExpectedText::TableInArray,
        Next::Header => ExpectedText::Table,
        Next::AfterKey | Next::AfterValue | Next::AfterHeader | Next::Rest => ExpectedText::Other,
    }
}

/// Returns whether a word, a string, an array or an inline table begins with the first of the pieces from the position
/// `from` to `end` that is not a blank, line end or comment.
fn is_followed(pieces: &[Piece], from: usize, end: usize) -> bool {
    for piece in pieces.get(from..end).unwrap_or(&[]) {
        match piece.kind {
            Kind::Blank | Kind::LineEnd | Kind::Comment => (),
            Kind::Mark(mark) => return matches!(mark, b'[' | b'{' | b'+'),
            _ => return true,
        }
    }
    false
}

/// Returns the context of an offset at which nothing can be written.
fn nothing_at<'t>(alloc: Global, at: usize) -> Context<'t> {
    Context {
        expected: ExpectedText::Other,
        path: Vec::new(alloc),
        names: Vec::new(alloc),
        front: String::new(alloc),
        typed: Span { start: at, end: at },
        rest: "",
        is_followed: false,
    }
}

/// Returns what is being written at the byte offset `at` of a text, which need not be valid.
pub(crate) fn context_at<'t>(
    alloc: Global,
    syntax: &Syntax<'t>,
    at: usize,
) -> Result<Context<'t>, AllocError> {
    let (text, pieces) = (syntax.text, syntax.pieces.as_slice());
    let count = count_before(pieces, at);
    let (first, end) = statement_at(syntax.statements.as_slice(), count);
    let mut context = nothing_at(alloc, at);
    let Some(typed) = typed_at(pieces, count, at) else {
        return Ok(context);
    };
    let mut walk = Walk::new(alloc);
    for position in first..typed.before.min(pieces.len()) {
        walk.take(position, pieces[position].kind)?;
    }
    context.expected = expected_after(&walk);
    context.typed = typed.span;
    let is_new = typed.span.start == typed.span.end;
    if context.expected == ExpectedText::Value && !is_new {
        context.typed.end = typed.span.end.max(literal_end(pieces, typed.before));
    }
    let rest = text.get(context.typed.end..).unwrap_or("");
    context.rest = rest.trim_start_matches([' ', '\t']);
    context.path = named(alloc, text, pieces, walk.path.as_slice())?;
    let Some(opened) = walk.opened.last() else {
        return Ok(context);
    };
    let is_pair = opened.is_table && context.expected == ExpectedText::Key;
    let is_element = !opened.is_table && context.expected == ExpectedText::Value;
    context.is_followed = is_new
        && (is_pair || is_element)
        && is_followed(pieces, typed.before, end);
    if is_pair {
        context.names = names_in(alloc, text, pieces, opened.at, end, typed.before)?;
        let start = match pieces.get(first) {
            Some(piece) => piece.start,
            None => 0,
        };
        context.front = closed_front(alloc, text, pieces, start, walk.opened.as_slice())?;
    }
    Ok(context)
}
