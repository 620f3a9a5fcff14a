//! Reads dates and times.
ghost use Rattle.std.specs.Prelude.{◌≡◌, ◌≤◌, true, length, slice_index};
ghost use Rattle.std.specs.Str.{IsCharBoundary};
ghost use Rattle.toml_span_lex.specs.Bytes.{MaximalRun};
ghost use Rattle.std.specs.Char.{is_ascii_digit};
ghost use Rattle.toml_span_read.specs.Dates as spec;
ghost use Rattle.toml_span_read.specs.Dates.{IsCandidate};
ghost use Rattle.toml_span_read.specs.code.Dates.{DateGives};
ghost use Rattle.toml_span_read.specs.code.Numbers.{IsPlacedFault};

use crate::fault::{Fault, FaultKind};
use crate::gaps::byte_at;
use toml_span_lex::bytes::is_keylike;
use toml_span_lex::span::Span;
use toml_span_tree::DateText;

/// Returns whether there is a decimal digit at the byte offset `at`.
#[inline]
fn is_decimal_at(text: &str, at: usize) -> bool
    ensures { result ≡ is_ascii_digit (slice_index text.now at) }
{
    byte_at(text, at).is_ascii_digit()
}

/// Returns whether there are four digits and a dash, or two digits and a colon, at the byte offset `at`. A value that
/// begins with these is read as a date or time.
///
/// `date-fullyear = 4DIGIT`, `time-hour = 2DIGIT` (TOML 1.1, Local Date, Local Time)
#[inline]
pub fn begins_date(text: &str, at: usize) -> bool
    requires { at ≤ length text.now }
    ensures { result ≡ spec.begins_date text.now at }
{
    is_decimal_at(text, at)
        && is_decimal_at(text, at + 1)
        && (byte_at(text, at + 2) == b':'
            || (is_decimal_at(text, at + 2)
                && is_decimal_at(text, at + 3)
                && byte_at(text, at + 4) == b'-'))
}

/// Returns whether the byte is read as part of a date or time: a letter, a digit, or one of `-_:.+`.
#[inline]
fn is_date_byte(byte: u8) -> bool
    ensures { result ≡ spec.is_date_byte byte }
{
    is_keylike(byte) || byte == b':' || byte == b'.' || byte == b'+'
}

/// Returns the offset after the run of date bytes (`is_date_byte`) that begins at `from`, or `from` itself if the run
/// is empty.
fn date_run_end(text: &str, from: usize) -> usize
    requires { IsCharBoundary text.now from }
    ensures run { MaximalRun spec.is_date_byte text.now from result }
    ensures boundary { IsCharBoundary text.now result }
{
    let bytes = text.as_bytes();
    for at in from..bytes.len() {
        if !is_date_byte(bytes[at]) {
            return at;
        }
    }
    bytes.len()
}

/// Returns the offset after the date or time at `at`, valid or not. It extends to the first byte that is not a date
/// byte (`is_date_byte`). If it has ten bytes, and a space and a digit follow, the space and the date bytes after the
/// space also belong to it.
fn date_end(text: &str, at: usize) -> usize
    requires { IsCharBoundary text.now at }
    ensures candidate { IsCandidate text.now at result }
    ensures forward { at ≤ result }
    ensures boundary { IsCharBoundary text.now result }
{
    let end = date_run_end(text, at);
    if end == at + 10 && byte_at(text, end) == b' ' && is_decimal_at(text, end + 1) {
        date_run_end(text, end + 1)
    } else {
        end
    }
}

/// Reads the date or time at the byte offset `at`, where `begins_date` must hold. Returns the date or time with the
/// offset after it.
///
/// Fails with `InvalidDatetime` if the date or time is not valid. The fault spans all bytes that were read.
///
/// `date-time = offset-date-time / local-date-time / local-date / local-time` (TOML 1.1, Offset Date-Time)
#[inline(never)]
pub fn date<'de>(text: &'de str, at: usize) -> Result<(DateText<'de>, usize), Fault>
    requires boundary { IsCharBoundary text.now at }
    requires begins { spec.begins_date text.now at ≡ true }
    ensures date { DateGives text.now at result }
    ensures placed { IsPlacedFault text.now result }
{
    let end = date_end(text, at);
    match DateText::new(&text[at..end]) {
        Some(date) => Ok((date, end)),
        None => Err(Fault {
            kind: FaultKind::InvalidDatetime,
            span: Span { start: at, end },
        }),
    }
}
