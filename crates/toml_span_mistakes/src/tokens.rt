//! Finds the span to mark for an error, such as that of the unexpected token.
ghost use Rattle.std.specs.Prelude.{◌≡◌};
ghost use Rattle.std.specs.Str.{IsCharBoundary};

use crate::bytes::{Class, end_of};
use toml_span_lex::span::Span;
use toml_span_syntax::pieces::{Kind, piece_at};
use toml_span_tree::ErrorKind;

/// Returns whether a piece of this kind is a token.
fn is_token(kind: Kind) -> bool {
    !matches!(
        kind,
        Kind::Faulty(_) | Kind::Open(_) | Kind::Invalid | Kind::ByteOrderMark
    )
}

/// Returns the end of the token that begins at the offset `at`, or the end of the line of `at` if that comes first.
/// Returns `at` if no token begins there.
fn token_mark_end(text: &str, at: usize) -> usize
    requires { IsCharBoundary text.now at }
{
    if at == text.len() {
        return at;
    }
    let piece = piece_at(text, at);
    if is_token(piece.kind) {
        piece.end.min(end_of(Class::Line, text, at))
    } else {
        at
    }
}

/// Returns whether `found`, from the error `Wanted`, names a token or the end of the text, rather than a kind of value.
fn names_token(found: &str) -> bool {
    let found = found.as_bytes();
    found.starts_with(b"a ")
        || found.starts_with(b"an ")
        || found.starts_with(b"eof")
        || found.starts_with(b"whitespace")
}

/// Returns whether an error of `kind` at `span` locates only the start of the unexpected token. The end of `span` may
/// then differ from the end of the token.
fn is_at_token(kind: &ErrorKind<'_>, span: Span) -> bool {
    match kind {
        ErrorKind::Wanted { found, .. } => {
            names_token(found) && span.end.saturating_sub(span.start) == found.len()
        }
        _ => false,
    }
}

/// Returns the span to mark for the table at `span`, which lacks a key: the line of its header if the table begins with
/// a header, otherwise `span`. If `span` is the whole text, as for the root, the mark is empty, at the start of the
/// text.
fn table_mark(text: &str, span: Span) -> Span
    ensures { result.start ≡ span.start }
{
    let at = text.floor_char_boundary(span.start);
    let bytes = text.as_bytes();
    let end = if span.start == 0 && span.end == bytes.len() {
        0
    } else if at < bytes.len() && bytes[at] == b'[' {
        span.end.min(end_of(Class::Line, text, at))
    } else {
        span.end
    };
    Span {
        start: span.start,
        end,
    }
}

/// Returns the span to mark for an error of `kind` at `span`. If `is_at_token`, this is the token that begins there, up
/// to the end of its first line, or an empty span if no token begins there. For `MissingField` it is the `table_mark`,
/// otherwise `span`.
pub(crate) fn marked_span(kind: &ErrorKind<'_>, span: Span, text: &str) -> Span
    ensures { result.start ≡ span.start }
{
    if is_at_token(kind, span) {
        return Span {
            start: span.start,
            end: token_mark_end(text, text.floor_char_boundary(span.start)),
        };
    }
    match kind {
        ErrorKind::MissingField(_) => table_mark(text, span),
        _ => span,
    }
}
