//! Findings: typical mistakes in a text, with what to mark and the code to write.

ghost use Rattle.std.specs.Prelude.{◌≡◌, ◌&&◌, Some, None};

use crate::bytes::{Class, are_all, part};
use crate::words::{Mistake, Words, words_of};
use toml_span_lex::span::Span;

/// A text in six pieces, each of which may be empty. A piece is a part of the source or a constant. The text is usually
/// code to write.
#[derive(Clone, Copy)]
pub(crate) struct Code<'a> {
    pub(crate) first: &'a str,
    pub(crate) second: &'a str,
    pub(crate) third: &'a str,
    pub(crate) fourth: &'a str,
    pub(crate) fifth: &'a str,
    pub(crate) sixth: &'a str,
    /// A number to append after the pieces.
    pub(crate) number: Option<u64>,
}

/// A typical mistake that was recognized in the source.
#[derive(Clone, Copy)]
pub(crate) struct Finding<'a> {
    pub(crate) words: Words,
    /// The span that the primary label marks.
    pub(crate) mark: Span,
    /// A second span, which is marked if `words.also` is not empty.
    pub(crate) also: Span,
    /// The message of the primary label. If it is empty, the message is `words.label`.
    pub(crate) label: Code<'a>,
    /// The span that `code` replaces, if there is a replacement.
    pub(crate) edit: Option<Span>,
    /// The code to write. May be empty.
    pub(crate) code: Code<'a>,
    /// Other code that the author of the text may have meant. May be empty.
    pub(crate) other: Code<'a>,
}

/// What to write instead of a word or character that TOML does not have, such as `True` or a no-break space.
#[derive(Clone, Copy)]
pub(crate) struct Substitute {
    pub(crate) mistake: Mistake,
    /// The Unicode name of the character, or an empty string for a word.
    pub(crate) name: &'static str,
    pub(crate) code: &'static str,
}

/// Returns `Some` of a `Substitute` with these parts.
pub(crate) fn as_substitute(
    mistake: Mistake,
    name: &'static str,
    code: &'static str,
) -> Option<Substitute> {
    Some(Substitute {
        mistake,
        name,
        code,
    })
}

/// Returns a text of these six pieces, without a number.
pub(crate) fn six<'a>(
    first: &'a str,
    second: &'a str,
    third: &'a str,
    fourth: &'a str,
    fifth: &'a str,
    sixth: &'a str,
) -> Code<'a> {
    Code {
        first,
        second,
        third,
        fourth,
        fifth,
        sixth,
        number: None,
    }
}

/// Returns a text of these three pieces, without a number.
pub(crate) fn pieces<'a>(first: &'a str, second: &'a str, third: &'a str) -> Code<'a> {
    six(first, second, third, "", "", "")
}

/// Returns the span from `start` to `end`.
pub(crate) fn span_of(start: usize, end: usize) -> Span
    ensures { result ≡ record { start = start; end = end } }
{
    Span { start, end }
}

/// Returns a finding with the spans `mark` and `also`, and with `code` to write, but without a replacement.
pub(crate) fn without_replacement<'a>(
    mistake: Mistake,
    mark: Span,
    also: Span,
    code: Code<'a>,
) -> Finding<'a>
    ensures edit { result.edit ≡ None }
    ensures code { result.code ≡ code.entry }
    ensures safe { result.words.is_safe ≡ mistake.entry.6 }
{
    Finding {
        words: words_of(mistake),
        mark,
        also,
        label: pieces("", "", ""),
        edit: None,
        code,
        other: pieces("", "", ""),
    }
}

/// Returns a finding that marks the bytes `from..to`, without code to write.
pub(crate) fn marked<'a>(mistake: Mistake, from: usize, to: usize) -> Finding<'a> {
    let mark = span_of(from, to);
    without_replacement(mistake, mark, mark, pieces("", "", ""))
}

/// Returns a finding that marks the span `mark`, with a replacement of the span `edit` by `code`.
pub(crate) fn mended<'a>(mistake: Mistake, mark: Span, edit: Span, code: Code<'a>) -> Finding<'a>
    ensures edit { result.edit ≡ Some edit }
    ensures code { result.code ≡ code.entry }
    ensures safe { result.words.is_safe ≡ mistake.entry.6 }
{
    let mut found = without_replacement(mistake, mark, mark, code);
    found.edit = Some(edit);
    found
}

/// Returns a finding that marks the bytes `from..to`, with a replacement of these bytes by `code`.
pub(crate) fn replaced<'a>(mistake: Mistake, from: usize, to: usize, code: Code<'a>) -> Finding<'a>
    ensures edit { result.edit ≡ Some (record { start = from; end = to }) }
    ensures code { result.code ≡ code.entry }
    ensures safe { result.words.is_safe ≡ mistake.entry.6 }
{
    mended(mistake, span_of(from, to), span_of(from, to), code)
}

/// Returns a finding that marks the bytes `from..to`, with a replacement that removes them.
pub(crate) fn removed<'a>(mistake: Mistake, from: usize, to: usize) -> Finding<'a> {
    replaced(mistake, from, to, pieces("", "", ""))
}

/// Returns the finding with a replacement that is safe only if it was safe before and `is_safe` is set.
pub(crate) fn safe_if<'a>(found: Finding<'a>, is_safe: bool) -> Finding<'a>
    ensures { result ≡ record found.entry {
      words = record found.entry.words {
        is_safe = found.entry.words.is_safe && is_safe;
      };
    } }
{
    let words = Words {
        is_safe: found.words.is_safe && is_safe,
        ..found.words
    };
    Finding { words, ..found }
}

/// Returns a finding that marks the bytes `from..to`, without help.
pub(crate) fn only_marked<'a>(mistake: Mistake, from: usize, to: usize) -> Finding<'a> {
    let found = marked(mistake, from, to);
    let words = Words {
        help: "",
        ..found.words
    };
    Finding { words, ..found }
}

/// Returns the quote that can be put around the bytes `from..to` of the text so that the string contains just these
/// bytes: `"` or, if that is not possible, `'`. Returns an empty string if neither is possible.
pub(crate) fn quote_for<'a>(text: &'a str, from: usize, to: usize) -> &'a str {
    if are_all(Class::Basic, text, from, to) {
        "\""
    } else if are_all(Class::Literal, text, from, to) {
        "'"
    } else {
        ""
    }
}

/// Returns a finding that marks the bytes `from..to` of the text, with a replacement that puts them in quotes
/// (`quote_for`), unless that is not possible. The replacement is safe only if the bytes are a plain word.
pub(crate) fn in_quotes<'a>(
    mistake: Mistake,
    text: &'a str,
    from: usize,
    to: usize,
) -> Finding<'a> {
    let quote = quote_for(text, from, to);
    if quote.is_empty() {
        return marked(mistake, from, to);
    }
    let code = pieces(quote, part(text, from, to), quote);
    safe_if(
        replaced(mistake, from, to, code),
        are_all(Class::Plain, text, from, to),
    )
}
