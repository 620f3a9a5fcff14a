//! Laws: proved facts about the definitions, stated as contracts of functions that have no effect.
ghost use Rattle.std.specs.Prelude.{◌≡◌, ◌↔◌, true};
ghost use Rattle.std.specs.Str.{IsCharBoundary};
ghost use Rattle.std.specs.declared.cmp.Ordering.{Ordering};
ghost use Rattle.std.specs.declared.cmp.Ordering.TheVariants.{Equal};
ghost use Rattle.toml_span_lex.specs.Laws as law;

use crate::key::Key;
use crate::spanned::Spanned;
use crate::strings::scan_string;
use crate::tokenizer::token_at;
use crate::tokens::Token;

/// At most one token begins at an offset, and its end, span and content are unique.
pub fn one_token()
    ensures { law.OneToken }
{}

/// There is at most one fault at an offset.
pub fn one_fault()
    ensures { law.OneFault }
{}

/// A token and a fault are never at the same offset.
pub fn token_or_fault()
    ensures { law.TokenOrFault }
{}

/// A token is at least one byte long, and ends within the text. At least one byte is read before a fault is reported,
/// and all bytes read are within the text.
pub fn within_the_text()
    ensures tokens { law.TokensWithin }
    ensures faults { law.FaultsWithin }
{}

/// The quote, the form (single-line or multi-line) and the start of a string's content determine its value, the end of
/// the content, and the end of the string.
pub fn one_content()
    ensures { law.OneContent }
{}

/// Reading a text character by character yields the text with each CRLF replaced by one line feed.
pub fn folded_text()
    ensures { law.FoldedText }
{}

/// After a token or a fault, the tokenizer is never between the two bytes of a CRLF.
pub fn line_ends_stay_whole()
    ensures tokens { law.TokensUnfolded }
    ensures faults { law.FaultsUnfolded }
{}

/// Only strings that contain a backslash or a carriage return can need an allocation.
pub fn copied_strings()
    ensures { law.CopiedStrings }
{}

/// Keys are compared by their names alone. `cmp` returns `Equal` if and only if the keys are equal.
pub fn keys_by_name()
    ensures { law.KeysByName ⟦<Key<'static> as PartialEq>⟧.eq ⟦<Key<'static> as Ord>⟧.cmp }
{}

/// Tokens are equal if and only if their kinds and contents are.
pub fn tokens_by_content()
    ensures { law.TokensByContent ⟦<Token<'static> as PartialEq>⟧.eq }
{}

/// Spanned values are equal if and only if their values are.
pub fn spanned_equal_by_value<T: PartialEq>()
    ensures { (a b : Spanned T) → ⟦<Spanned<T> as PartialEq>⟧.eq a b ≡ T.eq a.value b.value }
{}

/// `partial_cmp` of two spanned values returns what `partial_cmp` of their values returns.
pub fn spanned_partly_ordered_by_value<T: PartialOrd>()
    ensures { (a b : Spanned T) → ⟦<Spanned<T> as PartialOrd>⟧.partial_cmp a b ≡ T.partial_cmp a.value b.value }
{}

/// `cmp` of two spanned values returns what `cmp` of their values returns. It returns `Equal` if and only if the
/// spanned values are equal.
pub fn spanned_ordered_by_value<T: Ord>()
    ensures cmp { (a b : Spanned T) → ⟦<Spanned<T> as Ord>⟧.cmp a b ≡ T.cmp a.value b.value }
    ensures ties { (a b : Spanned T)
        → (⟦<Spanned<T> as Ord>⟧.cmp a b ≡ Equal) ↔ (⟦<Spanned<T> as PartialEq>⟧.eq a b ≡ true) }
{}

/// The name of a bare key is the text at its span.
pub fn bare_keys()
    ensures { law.BareKeys }
{}

/// At each character boundary there is a token, a fault, or the end of the text.
pub fn token_fault_or_end(text: &str, at: usize)
    requires { IsCharBoundary text.now at }
    ensures { law.HasTokenOrFault text.now at }
{
    if at == text.len() {
        return;
    }
    let byte = text.as_bytes()[at];
    if byte == b'"' || byte == b'\'' {
        let _ = scan_string(text, at);
    } else {
        let _ = token_at(text, at);
    }
}
