//! Reads numbers.
ghost use Rattle.std.specs.Prelude.{◌≡◌, ℕ, ◌+◌, ◌*◌, ◌<◌, ◌≤◌, ◌||◌, ◌==◌, not, true, false, length};
ghost use Rattle.std.specs.Prelude.{slice_index, slice_range, filter, string_bytes, IfOk, IfSome, Ok};
ghost use Rattle.std.specs.Char.{is_ascii_digit};
ghost use Rattle.std.specs.Str.{IsCharBoundary};
ghost use Rattle.std.specs.Str.Parse.{digits_value};
ghost use Rattle.toml_span_lex.specs.Bytes.{is_keylike, period, underscore, plus, small_e};
ghost use Rattle.toml_span_tree.specs.Node.{integer, float};
ghost use Rattle.toml_span_tree.specs.Value.{float_value};
ghost use Rattle.toml_span_read.specs.Data.{parsed_kind, scalar};
ghost use Rattle.toml_span_read.specs.Numbers as spec;
ghost use Rattle.toml_span_read.specs.Numerals.{is_digit_in, after_sign};
ghost use Rattle.toml_span_read.specs.Numerals as numerals;
ghost use Rattle.toml_span_read.specs.code.Faults.{Advances};
ghost use Rattle.toml_span_read.specs.code.Gaps.{Further};
ghost use Rattle.toml_span_read.specs.code.Numbers.{DigitGives, WithinGives, IsNumeral, IsRun};
ghost use Rattle.toml_span_read.specs.code.Values.{ScalarGives, IsScalarKind};
ghost use Rattle.toml_span_read.specs.Read as read;

use crate::fault::{Fault, invalid_number};
use crate::gaps::byte_at;
use crate::value::ValKind;
use std::alloc::{AllocError, Global};
use toml_span_lex::bytes::{is_keylike, keylike_end};
use toml_span_lex::span::Span;
use toml_span_lex::stop::Stop;
use toml_span_tree::FloatText;

/// A number that was read. `Finite` is a finite float, without its text.
#[derive(Clone, Copy)]
pub enum Numeral {
    Integer(i64),
    Finite,
    Infinite { negative: bool },
    NotANumber { negative: bool },
}

/// Returns the offset after the run of letters, digits, dashes and underscores that begins at `from`, or `from` if the
/// run is empty.
#[inline]
fn run_end(text: &str, from: usize) -> usize
    requires { IsCharBoundary text.now from }
    ensures end { result ≡ numerals.run_end text.now from }
    ensures run { IsRun text.now from result }
{
    keylike_end(text, from)
}

/// Returns the value of a digit in this radix, or `None` if the byte is not a digit in this radix.
#[inline]
fn digit(byte: u8, radix: u8) -> Option<u8>
    ensures { DigitGives radix byte result }
{
    let value = match byte {
        b'0'..=b'9' => byte - b'0',
        b'a'..=b'f' => byte - b'a' + 10,
        b'A'..=b'F' => byte - b'A' + 10,
        _ => return None,
    };
    if value < radix { Some(value) } else { None }
}

/// Returns the offset after the digits in this radix that begin at `from`. Single underscores may separate the digits.
/// `piece` is the run (or the rest of the run, after a prefix or an `e`) that has the digits.
///
/// Fails with `InvalidNumber` if a digit is missing at `from`, or if an underscore is not between two digits. The fault
/// spans `piece` or, if there is an underscore at `from`, `from..piece.end`.
///
/// `zero-prefixable-int = DIGIT *( DIGIT / underscore DIGIT )` (TOML 1.1, Float)
fn digits_end(text: &str, piece: Span, from: usize, radix: u8) -> Result<usize, Fault>
    requires within { piece.end ≤ length text.now }
    requires end { from ≤ piece.end }
    requires last { is_keylike (slice_index text.now piece.end) ≡ false }
    ensures ends { IfOk result (λ m. (from < m) × (m ≤ piece.end)) }
    ensures end { result ≡ numerals.digits_end radix text.now piece.start from piece.end }
{
    let bytes = text.as_bytes();
    if from < piece.end && bytes[from] == b'_' {
        return Err(invalid_number(from, piece.end));
    }
    let mut was_digit = false;
    for at in from..piece.end {
        if digit(bytes[at], radix).is_some() {
            was_digit = true;
        } else if bytes[at] == b'_' && was_digit {
            was_digit = false;
        } else if was_digit {
            return Ok(at);
        } else {
            return Err(invalid_number(piece.start, piece.end));
        }
    }
    if was_digit {
        Ok(piece.end)
    } else {
        Err(invalid_number(piece.start, piece.end))
    }
}

/// Returns `number * radix + digit`, or `None` if the result is 2^64 or more.
#[inline]
fn with_digit(number: u64, radix: u8, digit: u8) -> Option<u64>
    ensures { WithinGives (number * radix + digit) result }
{
    number
        .checked_mul(u64::from(radix))?
        .checked_add(u64::from(digit))
}

/// Returns the number that `digits`, which may have underscores between them, spell in this radix. Returns `None` if
/// the number is 2^64 or more.
fn magnitude(digits: &[u8], radix: u8) -> Option<u64>
    ensures { WithinGives (digits_value radix (filter (is_digit_in radix) digits.now)) result }
{
    let mut value: u64 = 0;
    for byte in digits {
        if let Some(d) = digit(*byte, radix) {
            value = with_digit(value, radix, d)?;
        }
    }
    Some(value)
}

/// Returns `magnitude`, negated if `negative`, or `None` if the result does not fit into an `i64`.
#[tactic(auto, unfolding(crate::specs::Numerals::signed))]
fn signed(negative: bool, magnitude: u64) -> Option<i64>
    ensures { result ≡ numerals.signed negative magnitude }
{
    if !negative {
        i64::try_from(magnitude).ok()
    } else if magnitude == 1 << 63 {
        Some(i64::MIN)
    } else {
        match i64::try_from(magnitude) {
            Ok(value) => Some(-value),
            Err(_) => None,
        }
    }
}

/// Returns the integer that the digits from `from` to `piece.end` spell in this radix, negated if `negative`. Fails if
/// the integer does not fit into an `i64`; the fault spans `piece`.
#[tactic(auto, unfolding(crate::specs::Numerals::integer))]
fn integer(text: &str, piece: Span, from: usize, radix: u8, negative: bool) -> Result<i64, Fault>
    requires forward { from ≤ piece.end }
    requires within { piece.end ≤ length text.now }
    ensures { result ≡ numerals.integer radix text.now negative piece.start from piece.end }
{
    let value = match magnitude(&text.as_bytes()[from..piece.end], radix) {
        Some(magnitude) => signed(negative, magnitude),
        None => None,
    };
    match value {
        Some(value) => Ok(value),
        None => Err(invalid_number(piece.start, piece.end)),
    }
}

/// Returns the radix of the prefix `0x`, `0o` or `0b` at the offset `run`, or `None` if none of them is there.
///
/// `hex-prefix = %x30.78`, `oct-prefix = %x30.6F`, `bin-prefix = %x30.62` (TOML 1.1, Integer)
#[inline]
fn radix_of(text: &str, run: usize) -> Option<u8>
    requires { run < usize.MAX }
    ensures { result ≡ numerals.radix_at text.now run }
{
    if byte_at(text, run) != b'0' {
        return None;
    }
    match byte_at(text, run + 1) {
        b'x' => Some(16),
        b'o' => Some(8),
        b'b' => Some(2),
        _ => None,
    }
}

/// Returns the integer that `run` spans, a prefix and digits in this radix. Fails if the digits are not valid, or if
/// the integer is out of range.
///
/// `hex-int`, `oct-int`, `bin-int` (TOML 1.1, Integer)
#[tactic(auto, unfolding(crate::specs::Numerals::radix_integer))]
fn radix_integer(text: &str, run: Span, radix: u8) -> Result<i64, Fault>
    requires within { run.end ≤ length text.now }
    requires prefix { run.start + 2 ≤ run.end }
    requires last { is_keylike (slice_index text.now run.end) ≡ false }
    ensures { result ≡ numerals.radix_integer radix text.now (run.start + 2) run.end }
{
    let piece = Span {
        start: run.start + 2,
        end: run.end,
    };
    let end = digits_end(text, piece, piece.start, radix)?;
    if end < piece.end {
        return Err(invalid_number(piece.start, piece.end));
    }
    integer(text, piece, piece.start, radix, false)
}

/// Returns the offset after the integer part of a decimal number, whose digits begin at `from` in the span `run`. Fails
/// if the digits are invalid or have a leading zero.
///
/// `dec-int = [ minus / plus ] unsigned-dec-int` (TOML 1.1, Integer)
#[tactic(auto, unfolding(crate::specs::Numerals::integer_part))]
fn integer_part(text: &str, run: Span, from: usize) -> Result<usize, Fault>
    requires within { run.end ≤ length text.now }
    requires end { from ≤ run.end }
    requires last { is_keylike (slice_index text.now run.end) ≡ false }
    ensures ends { IfOk result (λ m. (from < m) × (m ≤ run.end)) }
    ensures end { result ≡ numerals.integer_part text.now run.start from run.end }
{
    let end = digits_end(text, run, from, 10)?;
    if text.as_bytes()[from] == b'0' && from + 1 < end {
        let second = if text.as_bytes()[from + 1] == b'_' {
            from + 2
        } else {
            from + 1
        };
        return Err(invalid_number(second, run.end));
    }
    Ok(end)
}

/// Returns whether the byte begins the exponent of a float: `e` or `E`.
#[inline]
fn is_exponent(byte: u8) -> bool
    ensures { result ≡ numerals.is_exponent byte }
{
    byte == b'e' || byte == b'E'
}

/// Returns the offset after the exponent whose `e` is at `letter`. The run with the `e` ends at `end`; after `e+`, the
/// digits are in the next run. Fails if the digits are missing or not valid. `first` is the first run of the number,
/// without a leading plus sign; it is the span of some faults.
///
/// `exp = "e" float-exp-part`, `float-exp-part = [ minus / plus ] zero-prefixable-int` (TOML 1.1, Float)
#[tactic(auto, unfolding(crate::specs::Numerals::exponent))]
fn exponent_end(text: &str, first: Span, letter: usize, end: usize) -> Result<usize, Fault>
    requires letter { letter < end }
    requires run { IsRun text.now letter end }
    ensures { result ≡ numerals.exponent text.now first.start first.end letter end }
{
    if letter + 1 < end {
        let piece = Span {
            start: letter + 1,
            end,
        };
        let minus = text.as_bytes()[piece.start] == b'-';
        let from = if minus { piece.start + 1 } else { piece.start };
        return exponent_digits(text, first, piece, from);
    }
    if byte_at(text, end) != b'+' {
        return Err(invalid_number(first.start, first.end));
    }
    let start = end + 1;
    let piece = Span {
        start,
        end: run_end(text, start),
    };
    if piece.end == piece.start {
        return Err(invalid_number(first.start, first.end));
    }
    exponent_digits(text, first, piece, start)
}

/// Returns the offset after the digits of an exponent, which begin at `from` in the run `piece`. Fails unless the
/// digits are valid and extend to the end of `piece`. `first`, which some faults span, is the first run of the number,
/// without a leading plus sign.
#[tactic(auto, unfolding(crate::specs::Numerals::exponent_digits))]
fn exponent_digits(text: &str, first: Span, piece: Span, from: usize) -> Result<usize, Fault>
    requires within { piece.end ≤ length text.now }
    requires end { from ≤ piece.end }
    requires last { is_keylike (slice_index text.now piece.end) ≡ false }
    ensures { result ≡ numerals.exponent_digits text.now first.start first.end piece.start from piece.end }
{
    if digits_end(text, piece, from, 10)? < piece.end {
        return Err(invalid_number(first.start, first.end));
    }
    Ok(piece.end)
}

/// Returns the offset after the float at `start`. `first` is its first run, without a leading plus sign; the decimal
/// point follows this run. Fails if the digits after the point, or the digits of an exponent, are not valid.
///
/// `frac = decimal-point zero-prefixable-int` (TOML 1.1, Float)
#[tactic(auto, unfolding(crate::specs::Numerals::fraction))]
fn fraction_end(text: &str, start: usize, first: Span) -> Result<usize, Fault>
    requires within { first.end ≤ length text.now }
    requires dot { slice_index text.now first.end ≡ period }
    ensures { result ≡ numerals.fraction text.now start first.start first.end }
{
    let from = first.end + 1;
    let piece = Span {
        start: from,
        end: run_end(text, from),
    };
    if piece.end == piece.start {
        return Err(invalid_number(start, from));
    }
    let digits = digits_end(text, piece, from, 10)?;
    if digits == piece.end {
        Ok(digits)
    } else if is_exponent(text.as_bytes()[digits]) {
        exponent_end(text, first, digits, piece.end)
    } else {
        Err(invalid_number(first.start, first.end))
    }
}

/// Returns the offset after the minus sign at `at`, or `at` itself if another byte is there.
#[inline]
fn after_minus(text: &str, at: usize) -> usize
    requires within { at < length text.now }
    requires run { is_keylike (slice_index text.now at) ≡ true }
    ensures { result ≡ after_sign text.now at }
{
    if byte_at(text, at) == b'-' {
        at + 1
    } else {
        at
    }
}

/// Reads the decimal number at `start`. `first` is its first run, without a leading plus sign. Returns the number with
/// the offset after it. Fails if the number is invalid or out of range.
///
/// `float = float-int-part ( exp / frac [ exp ] )` (TOML 1.1, Float)
#[tactic(auto, unfolding(crate::specs::Numerals::decimal))]
fn decimal_number(text: &str, start: usize, first: Span) -> Result<(Numeral, usize), Fault>
    requires some { first.start < first.end }
    requires run { IsRun text.now first.start first.end }
    ensures { result ≡ numerals.decimal text.now start first.start first.end }
{
    let negative = byte_at(text, first.start) == b'-';
    let from = after_minus(text, first.start);
    let end = integer_part(text, first, from)?;
    if end < first.end {
        if is_exponent(text.as_bytes()[end]) {
            return Ok((Numeral::Finite, exponent_end(text, first, end, first.end)?));
        }
        return Err(invalid_number(first.start, first.end));
    }
    if byte_at(text, end) == b'.' {
        return Ok((Numeral::Finite, fraction_end(text, start, first)?));
    }
    Ok((
        Numeral::Integer(integer(text, first, from, 10, negative)?),
        end,
    ))
}

/// Returns the float that the word `inf` or `nan` denotes, negated if `negative`, or `None` for any other word.
///
/// `special-float = [ minus / plus ] ( inf / nan )` (TOML 1.1, Float)
#[tactic(auto, unfolding(crate::specs::Numerals::special))]
fn special_float(word: &[u8], negative: bool) -> Option<Numeral>
    ensures { result ≡ numerals.special negative word.now }
{
    match word {
        b"inf" => Some(Numeral::Infinite { negative }),
        b"nan" => Some(Numeral::NotANumber { negative }),
        _ => None,
    }
}

/// Returns `numeral`, the `inf` or `nan` that was read in the run `first`, with the offset after it. Fails if a dot
/// follows, as in `inf.5`. `start` is the offset of the number, sign included.
#[tactic(auto, unfolding(crate::specs::Numerals::special_end))]
fn special_end(
    text: &str,
    start: usize,
    first: Span,
    numeral: Numeral,
) -> Result<(Numeral, usize), Fault>
    requires { first.end ≤ length text.now }
    ensures { result ≡ numerals.special_end text.now start first.start first.end numeral }
{
    if byte_at(text, first.end) != b'.' {
        return Ok((numeral, first.end));
    }
    let after = first.end + 1;
    if run_end(text, after) == after {
        Err(invalid_number(start, after))
    } else {
        Err(invalid_number(first.start, first.end))
    }
}

/// Reads the number at `start`. `first` is its first run, without a leading plus sign. Returns the number with the
/// offset after it. Fails if the number is invalid or out of range.
#[tactic(auto, unfolding(crate::specs::Numerals::unsigned))]
fn unsigned(text: &str, start: usize, first: Span) -> Result<(Numeral, usize), Fault>
    requires some { first.start < first.end }
    requires run { IsRun text.now first.start first.end }
    ensures { result ≡ numerals.unsigned text.now start first.start first.end }
{
    if let Some(radix) = radix_of(text, first.start) {
        return Ok((
            Numeral::Integer(radix_integer(text, first, radix)?),
            first.end,
        ));
    }
    let negative = byte_at(text, first.start) == b'-';
    let from = after_minus(text, first.start);
    match special_float(&text.as_bytes()[from..first.end], negative) {
        Some(numeral) => special_end(text, start, first, numeral),
        None => decimal_number(text, start, first),
    }
}

/// Reads the number at `at`. Returns the number with the offset after it. Fails if the number is invalid or out of
/// range.
///
/// `integer = dec-int / hex-int / oct-int / bin-int`, `float = float-int-part ( exp / frac [ exp ] )`,
/// `float =/ special-float` (TOML 1.1, Integer, Float)
#[tactic(auto, unfolding(crate::specs::Numerals::numeral))]
fn number_at(text: &str, at: usize) -> Result<(Numeral, usize), Fault>
    requires boundary { IsCharBoundary text.now at }
    requires begins { (is_keylike (slice_index text.now at) || slice_index text.now at == plus) ≡ true }
    ensures { result ≡ numerals.numeral text.now at }
{
    if byte_at(text, at) != b'+' {
        let first = Span {
            start: at,
            end: run_end(text, at),
        };
        return unsigned(text, at, first);
    }
    let start = at + 1;
    let first = Span {
        start,
        end: run_end(text, start),
    };
    if first.end == first.start {
        return Err(invalid_number(start, start));
    }
    if text.as_bytes()[start] == b'-' || radix_of(text, start).is_some() {
        return Err(invalid_number(at, first.end));
    }
    unsigned(text, at, first)
}

/// Returns the number that the digits at `from` spell, with the offset after them. Stops before the next digit once the
/// number is 2^56 or more, so that it stays below 2^60.
fn few_digits(text: &str, from: usize) -> (u64, usize)
    requires { from ≤ length text.now }
    ensures forward { from ≤ result.1 }
    ensures within { result.1 ≤ length text.now }
    ensures digits { (k : ℕ) → from ≤ k → k < result.1 → is_ascii_digit (slice_index text.now k) ≡ true }
    ensures value { result.0 ≡ numerals.magnitude 10 text.now from result.1 }
{
    let bytes = text.as_bytes();
    let mut value: u64 = 0;
    for at in from..bytes.len() {
        let byte = bytes[at];
        if !byte.is_ascii_digit() || value >= 1 << 56 {
            return (value, at);
        }
        value = value * 10 + u64::from(byte - b'0');
    }
    (value, bytes.len())
}

/// Reads the integer at `at` if `few_digits` reads all its digits, and if it has no sign, prefix, leading zero or
/// underscore. Returns the integer with the offset after it. Returns `None` at anything else.
pub(crate) fn short_integer<'de>(text: &'de str, at: usize) -> Option<(ValKind<'de>, usize)>
    requires { IsCharBoundary text.now at }
    ensures scalar { IfSome result (λ found. ScalarGives (read.bare text.now at) (Ok found)) }
    ensures further { IfSome result (λ found. Further text.now at found.1) }
{
    let (value, end) = few_digits(text, at);
    if at == end || (byte_at(text, at) == b'0' && at + 1 < end) {
        return None;
    }
    let after = byte_at(text, end);
    if is_keylike(after) || after == b'.' || after == b':' {
        return None;
    }
    match signed(false, value) {
        Some(value) => Some((integer_kind(value), end)),
        None => None,
    }
}

/// Returns whether the stored text of a float keeps this byte of the literal: any byte except `_`, `+` and `e`.
#[inline]
fn is_clean(byte: u8) -> bool
    ensures { result ≡ not ((byte == underscore || byte == plus) || byte == small_e) }
{
    byte != b'_' && byte != b'+' && byte != b'e'
}

/// Returns whether `literal`, the literal of a float without a leading plus sign, is stored unchanged.
fn is_kept(literal: &str) -> bool
    ensures { result ≡ true → numerals.cleaned literal.now ≡ literal.now }
{
    for byte in literal.as_bytes() {
        if !is_clean(*byte) {
            return false;
        }
    }
    true
}

/// Returns the text to store for a float: its literal without plus signs and underscores, and with `E` before the
/// exponent.
fn cleaned(alloc: Global, literal: &str) -> Result<String, AllocError>
    requires ascii { (k : ℕ) → slice_index literal.now k < 128 }
    ensures { IfOk result (λ kept. string_bytes kept ≡ numerals.cleaned literal.now) }
{
    if is_kept(literal) {
        return String::from_str(alloc, literal);
    }
    let mut text = String::new(alloc);
    for byte in literal.as_bytes() {
        if is_clean(*byte) {
            text.push(char::from(*byte))?;
        } else if *byte == b'e' {
            text.push('E')?;
        }
    }
    Ok(text)
}

/// Returns an integer as a `ValKind`.
#[inline]
fn integer_kind<'de>(value: i64) -> ValKind<'de>
    ensures { parsed_kind result ≡ scalar (integer value) }
{
    ValKind::Integer(value)
}

/// Returns a float as a `ValKind`.
#[inline]
fn float_kind<'de>(text: FloatText) -> ValKind<'de>
    ensures { parsed_kind result ≡ scalar (float (float_value text)) }
{
    ValKind::Float(text)
}

/// Returns the literal of the float at `at..end`, without a leading plus sign.
fn float_literal<'a>(text: &'a str, at: usize, end: usize) -> &'a str
    requires start { IsCharBoundary text.now at }
    requires end { IsCharBoundary text.now end }
    requires float { spec.FloatLiteral text.now at end }
    ensures ascii { (k : ℕ) → slice_index result.now k < 128 }
    ensures cleaned { numerals.cleaned result.now ≡ numerals.cleaned (slice_range text.now at end) }
{
    if byte_at(text, at) == b'+' {
        &text[at + 1..end]
    } else {
        &text[at..end]
    }
}

/// Converts `numeral`, the number that was read at `at..end`, into a `ValKind`.
fn number_kind<'de>(
    alloc: Global,
    text: &str,
    at: usize,
    numeral: Numeral,
    end: usize,
) -> Result<ValKind<'de>, AllocError>
    requires start { IsCharBoundary text.now at }
    requires end { IsCharBoundary text.now end }
    requires here { IsNumeral text.now at end numeral }
    ensures { IfOk result
        (λ kind. parsed_kind kind ≡ scalar (numerals.scalar_of numeral (slice_range text.now at end))) }
{
    match numeral {
        Numeral::Integer(value) => Ok(integer_kind(value)),
        Numeral::Infinite { negative } => Ok(float_kind(FloatText::Infinite { negative })),
        Numeral::NotANumber { negative } => Ok(float_kind(FloatText::NotANumber { negative })),
        Numeral::Finite => {
            let digits = cleaned(alloc, float_literal(text, at, end))?;
            Ok(float_kind(FloatText::Finite(digits)))
        }
    }
}

/// Reads the number at `at`. Returns the number with the offset after it. Fails if the number is invalid or out of
/// range.
pub(crate) fn number<'de>(
    alloc: Global,
    text: &'de str,
    at: usize,
) -> Result<(ValKind<'de>, usize), Stop<Fault>>
    requires boundary { IsCharBoundary text.now at }
    requires begins { (is_keylike (slice_index text.now at) || slice_index text.now at == plus) ≡ true }
    ensures advances { Advances text.now at result }
    ensures scalar { IsScalarKind result }
    ensures number { ScalarGives (λ r. r ≡ numerals.number text.now at) result }
{
    match number_at(text, at) {
        Err(fault) => Err(Stop::Fault(fault)),
        Ok((numeral, end)) => match number_kind(alloc, text, at, numeral, end) {
            Ok(kind) => Ok((kind, end)),
            Err(e) => Err(Stop::Memory(e)),
        },
    }
}
