//! Laws about the spans of strings.
ghost use Rattle.std.specs.Prelude.{◌≡◌, ◌↔◌, ℕ, Bool, List, Ok, slice_index, slice_range};
ghost use Rattle.std.specs.Cow.{cow_str_bytes, IsBorrowedStr};
ghost use Rattle.toml_span_lex.specs.declared.span.Span.{Span};
ghost use Rattle.toml_span_lex.specs.Strings.{IsString, IsEmptyOnOneLine, HasChange};
ghost use Rattle.toml_span_read.specs.declared.strings.StringToken.{StringToken};
ghost use Rattle.toml_span_laws.specs.Places.{CutsContent};
ghost use Rattle.toml_span_read.specs.code.Strings.{StringReads};

/// The span of a string or quoted key is everything between its quotes, except for a line end directly after three
/// opening quotes. This does not apply to an empty single-line string or key.
pub fn span_is_the_content()
    ensures { (text : List ℕ) (i j : ℕ) (span : Span) (source value : List ℕ) (multi : Bool)
        → IsString text i j span source value multi → (IsEmptyOnOneLine i j → ⊥)
        → CutsContent text i j span value multi }
{}

/// If the text at the span of a string has no carriage return and, between `"`, no backslash, that text is the string's
/// value. This does not apply to an empty single-line string.
pub fn unchanged_is_the_text()
    ensures { (text : List ℕ) (i j : ℕ) (span : Span) (source value : List ℕ) (multi : Bool)
        → IsString text i j span source value multi → (IsEmptyOnOneLine i j → ⊥)
        → (HasChange (slice_index text i) text span.start span.end → ⊥) → value ≡ slice_range text span.start span.end }
{}

/// A string that is read is borrowed if and only if its value is the text at its span. This does not apply to an empty
/// single-line string.
pub fn borrowed_is_the_text()
    ensures { (text : List ℕ) (i : ℕ) (token : StringToken) → StringReads text i (Ok token)
        → (IsEmptyOnOneLine i token.end → ⊥) → IsBorrowedStr token.content
        ↔ (cow_str_bytes token.content ≡ slice_range text token.span.start token.span.end) }
{}

/// A string that is read is borrowed if and only if the text at its span has no carriage return and, between `"`, no
/// backslash. This does not apply to an empty single-line string.
pub fn borrowed_where_unchanged()
    ensures { (text : List ℕ) (i : ℕ) (token : StringToken) → StringReads text i (Ok token)
        → (IsEmptyOnOneLine i token.end → ⊥) → IsBorrowedStr token.content
        ↔ (HasChange (slice_index text i) text token.span.start token.span.end → ⊥) }
{}
