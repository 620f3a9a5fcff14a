//! Finds two keys of a table that name the same field.
ghost use Rattle.std.specs.List.{list_any};
ghost use Rattle.std.specs.Prelude.{◌≡◌, map, option_map, reverse, string_bytes};
ghost use Rattle.std.specs.Str.{bytes_eq};
ghost use Rattle.toml_span_serde.specs.Tasks.{piece_of};
ghost use Rattle.toml_span_serde.specs.Twice as spec;
ghost use Rattle.toml_span_serde.specs.Twice.{key_place};

use crate::pieces::{Content, Piece};
use toml_span_lex::span::Span;

/// A key: its position among the pieces, and its span.
#[derive(Clone, Copy, Drop)]
pub(crate) struct KeyPlace {
    pub at: usize,
    pub span: Span,
}

/// Returns whether `text` is among `texts`.
fn is_among(texts: &[String], text: &str) -> bool
    ensures { result ≡ list_any (λ one. bytes_eq one text.now) (map string_bytes texts.now) }
{
    for one in texts {
        if one.as_str() == text {
            return true;
        }
    }
    false
}

/// Returns the last key in `before` that belongs to the innermost table open after `before`, and that equals one of
/// `forms`. Returns `None` if no key does.
pub(crate) fn earlier(before: &[Piece<'_>], forms: &[String]) -> Option<KeyPlace>
    ensures { option_map key_place result
        ≡ spec.earlier (map string_bytes forms.now) 0 (reverse (map piece_of before.now)) }
{
    let mut depth = 0usize;
    for at in (0..before.len()).rev() {
        let Piece { content, span } = before[at];
        match content {
            Content::Key(key) if depth == 0 && is_among(forms, key) => {
                return Some(KeyPlace { at, span });
            }
            Content::ArrayEnds | Content::TableEnds => depth += 1,
            Content::ArrayBegins | Content::TableBegins if depth == 0 => return None,
            Content::ArrayBegins | Content::TableBegins => depth -= 1,
            _ => {}
        }
    }
    None
}
