//! Values as they were read, and the keys to which they are assigned.
use std::borrow::CowStr;
use toml_span_lex::key::Key;
use toml_span_lex::span::Span;
use toml_span_tree::{DateText, FloatText};

/// A value as it was read, with its span.
#[cycle(val)]
#[derive(Debug, Drop)]
pub struct Val<'de> {
    pub kind: ValKind<'de>,
    /// The span of the value, including brackets, braces and a sign. The span of a string excludes its quotes; an empty
    /// single-line string has the span of its opening quote.
    pub span: Span,
}

/// A value without its span.
#[cycle(val)]
#[derive(Debug, Drop)]
pub enum ValKind<'de> {
    String(CowStr<'de>),
    Integer(i64),
    Float(FloatText),
    Boolean(bool),
    Datetime(DateText<'de>),
    Array(Vec<Val<'de>>),
    /// An inline table: its pairs, in the order of the text. Their keys may clash.
    Inline(Vec<Assignment<'de>>),
}

/// A key and its value, on a line or in an inline table.
#[cycle(val)]
#[derive(Debug, Drop)]
pub struct Assignment<'de> {
    pub parts: DottedKey<'de>,
    pub value: Val<'de>,
    /// The span from the start of the key to the end of the value, quotes included.
    pub extent: Span,
}

/// The parts of a key. If the key is simple, `last` is the only part.
#[derive(Debug, Drop)]
pub struct DottedKey<'de> {
    /// The parts before the last, in order.
    pub inner: Vec<Key<'de>>,
    pub last: Key<'de>,
}
