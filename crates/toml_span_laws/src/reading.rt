//! Laws about reading: for each text, there is exactly one result, which may be a fault. Also a law about the names of
//! tokens in errors.
ghost use Rattle.std.specs.Prelude.{◌≡◌, ◌+◌, ℕ, Bool, List, [], Result};
ghost use Rattle.std.specs.Str.{IsCharBoundary};
ghost use Rattle.toml_span_lex.specs.Bytes.{is_blank, MaximalRun};
ghost use Rattle.toml_span_lex.specs.Tokens.{Lexeme, words};
ghost use Rattle.toml_span_read.specs.declared.fault.Fault.{Fault};
ghost use Rattle.toml_span_read.specs.Faults.{found_of, found_words};
ghost use Rattle.toml_span_read.specs.Data.{ParsedAssignment, ParsedSection};
ghost use Rattle.toml_span_read.specs.Read as read;

use crate::judged::places_are_judged;
use toml_span_lex::tokenizer::first_place;

/// Reading has at most one result: for a value, an assignment, the rest of a line, a header, and a document.
pub fn one_reading()
    ensures value { (text : List ℕ) (limit left n i : ℕ) (r s : Result read.ValueEnd Fault)
        → read.value text limit left n i r → read.value text limit left n i s → r ≡ s }
    ensures assignment { (text : List ℕ) (limit i : ℕ) (r s : Result (ParsedAssignment × ℕ) Fault)
        → read.keyval text limit (MaximalRun is_blank text) (read.value text limit (limit + 1)) i r
        → read.keyval text limit (MaximalRun is_blank text) (read.value text limit (limit + 1)) i s → r ≡ s }
    ensures rest { (text : List ℕ) (i : ℕ) (r s : Result ℕ Fault) → read.tail text i r → read.tail text i s → r ≡ s }
    ensures header { (text : List ℕ) (limit i : ℕ) (r s : Result read.HeaderEnd Fault) → read.header text limit i r
        → read.header text limit i s → r ≡ s }
    ensures document { (text : List ℕ) (limit : ℕ) (r s : Result (List ParsedSection) Fault)
        → read.document text limit r
        → read.document text limit s → r ≡ s }
{}

/// Reading has at least one result: for a key or a value at each character boundary of a text, and for the text as a
/// document.
pub fn reading_gives(text: &str)
    ensures key { (header : Bool) (limit i : ℕ) → IsCharBoundary text.now i
        → (found : Result read.Parts Fault) × read.key header text.now limit [] i found }
    ensures value { (limit left n i : ℕ) → IsCharBoundary text.now i
        → (found : Result read.ValueEnd Fault) × read.value text.now limit left n i found }
    ensures document { (limit : ℕ) → (found : Result (List ParsedSection) Fault) × read.document text.now limit found }
{
    places_are_judged(text);
    let _ = first_place(text);
}

/// The error `Wanted` and the errors of the tokenizer use the same names for tokens.
pub fn one_wording()
    ensures { (token : Lexeme) → found_words (found_of token) ≡ words token }
{}
