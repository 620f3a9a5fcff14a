//! Laws: at each character boundary of a text, each form that can be read independently of others, such as a token or a
//! dot, is either present or absent.
ghost use Rattle.std.specs.Prelude.{◌≡◌, ℕ, true, Result};
ghost use Rattle.std.specs.Str.{IsCharBoundary};
ghost use Rattle.toml_span_tree.specs.Node.{Scalar};
ghost use Rattle.toml_span_read.specs.declared.fault.Fault.{Fault};
ghost use Rattle.toml_span_read.specs.Dates as date_spec;
ghost use Rattle.toml_span_read.specs.Read as read;
ghost use Rattle.toml_span_laws.specs.code.Judged.{EndsPast, Judged};

use toml_span_lex::bytes::{blanks_end, keylike_end};
use toml_span_lex::laws::token_fault_or_end;
use toml_span_read::dates::{begins_date, date};
use toml_span_read::gaps::{dot, gap_end, line_rest};

/// If a date or time begins at `at`, there is either a valid one or a fault.
pub fn date_or_fault(text: &str, at: usize)
    requires { IsCharBoundary text.now at }
    ensures { date_spec.begins_date text.now at ≡ true
        → (found : Result (Scalar × ℕ) Fault) × read.date text.now at found × EndsPast text.now at found }
{
    if begins_date(text, at) {
        let _ = date(text, at);
    }
}

/// At a character boundary, each form that can be read independently of others is either present or absent: a token, a
/// gap (blanks, line ends and comments), a run of spaces and tabs, a run of bare key bytes, a dot, the rest of a line,
/// and a date or time.
pub fn place_is_judged(text: &str, at: usize)
    requires { IsCharBoundary text.now at }
    ensures { Judged text.now at }
{
    token_fault_or_end(text, at);
    let _ = gap_end(text, at);
    let _ = blanks_end(text, at);
    let _ = keylike_end(text, at);
    let _ = dot(text, at);
    let _ = line_rest(text, at);
    date_or_fault(text, at);
}

/// At every character boundary of a text, each form that can be read independently of others is either present or
/// absent (see `place_is_judged`).
pub fn places_are_judged(text: &str)
    ensures { (i : ℕ) → IsCharBoundary text.now i → Judged text.now i }
{
    let end = text.len();
    for at in 0..end {
        if text.is_char_boundary(at) {
            place_is_judged(text, at);
        }
    }
    place_is_judged(text, end);
}
