//! Finds the spans of statements, and compares and joins spans.
ghost use Rattle.std.specs.Prelude.{◌≡◌, ◌&&◌, map, min, max, nat_le, slice_range};
ghost use Rattle.std.specs.Str.{IsCharBoundary};
ghost use Rattle.toml_span_check.specs.Statements.{begins_section, lines_of, offset_of, own_pieces};
ghost use Rattle.toml_span_editor.specs.Labels as spec;
ghost use Rattle.toml_span_tree.specs.Diagnostic.{label_content};

use toml_span_lex::span::Span;
use toml_span_syntax::pieces::{Kind, Piece};
use toml_span_syntax::statements::Statement;
use toml_span_tree::Label;

/// Returns the offset of the piece at the position `index`, or the length of the text after the last piece.
fn offset_of(text: &str, pieces: &[Piece], index: usize) -> usize
    ensures { result ≡ offset_of text.now pieces.now index }
{
    match pieces.get(index) {
        Some(piece) => piece.start,
        None => text.len(),
    }
}

/// Returns the span of a statement, including its line end. `pieces` are the pieces of `text`.
pub(crate) fn span_of(text: &str, pieces: &[Piece], statement: Statement) -> Span
    ensures { result ≡ lines_of text.now pieces.now statement }
{
    Span {
        start: offset_of(text, pieces, statement.first),
        end: offset_of(text, pieces, statement.end),
    }
}

/// Returns the pieces of a statement.
fn own_pieces(pieces: &[Piece], statement: Statement) -> &[Piece]
    ensures { result.now ≡ own_pieces pieces.now statement }
{
    let end = statement.end.min(pieces.len());
    if statement.first < end {
        &pieces[statement.first..end]
    } else {
        &[]
    }
}

/// Returns whether a statement begins with `[`, after blanks: whether it is a header, perhaps one that can't be read.
pub(crate) fn begins_section(pieces: &[Piece], statement: Statement) -> bool
    ensures { result ≡ begins_section pieces.now statement }
{
    match own_pieces(pieces, statement) {
        [first, second, ..] if matches!(first.kind, Kind::Blank | Kind::ByteOrderMark) => matches!(
            second.kind,
            Kind::Mark(b'[')
        ),
        [first, ..] => matches!(first.kind, Kind::Mark(b'[')),
        [] => false,
    }
}

/// Returns the text in a span. The span is empty if its end is before its start.
pub(crate) fn text_in(text: &str, span: Span) -> &str
    requires start { IsCharBoundary text.now span.start }
    requires end { IsCharBoundary text.now span.end }
    ensures { result.now ≡ slice_range text.now span.start span.end }
{
    &text[span.start..span.end.max(span.start)]
}

/// Returns the shortest span that contains both spans.
pub(crate) fn cover(one: Span, other: Span) -> Span
    ensures { result ≡ record { start = min one.start other.start; end = max one.end other.end } }
{
    Span {
        start: one.start.min(other.start),
        end: one.end.max(other.end),
    }
}

/// Returns whether the offset `at` is in a span or at its end.
pub(crate) fn touches(span: Span, at: usize) -> bool
    ensures { result ≡ (nat_le span.start at && nat_le at span.end) }
{
    span.start <= at && at <= span.end
}

/// Returns whether the span `outer` contains the span `inner`.
pub(crate) fn contains(outer: Span, inner: Span) -> bool
    ensures { result ≡ (nat_le outer.start inner.start && nat_le inner.end outer.end) }
{
    outer.start <= inner.start && inner.end <= outer.end
}

/// Returns the span of the first primary label, or `0..0` if no label is primary.
pub(crate) fn main_span(labels: &[Label<()>]) -> Span
    ensures { result ≡ spec.main_span (map label_content labels.now) }
{
    for label in labels {
        if label.primary {
            return label.span;
        }
    }
    Span { start: 0, end: 0 }
}
