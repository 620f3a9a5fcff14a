//! Exact decimal numbers.
ghost use Rattle.std.specs.Prelude.{◌≡◌, ◌<◌, ◌≤◌, ◌+◌, ◌*◌, ◌%◌, ◌^◌, IfOk, Some, length, option_map};
ghost use Rattle.std.specs.Str.Parse.{AllDigits};
ghost use Rattle.toml_span_tree.specs.Value.{inner_of, view};
ghost use Rattle.toml_span_schema.specs.Numbers.{compare, compare_quantity, compare_sizes};
ghost use Rattle.toml_span_schema.specs.Numbers.{count_in, decimal_of, exponent};
ghost use Rattle.toml_span_schema.specs.Numbers.{is_multiple, is_whole, leading_zeros, normal, plain, quantity};
ghost use Rattle.toml_span_schema.specs.Numbers.{quantity_in, raised, sign, significant, unsigned_of, value_after};

use crate::error::CheckError;
use crate::numbers::{Decimal, Number};
use fast_float::{Numeral, parse_u64};
use std::alloc::{AllocError, Global};
use std::cmp::Ordering;
use toml_span_tree::{FloatText, Value};

/// The largest exponent. Larger exponents count as this value.
const LARGEST: u64 = 1_000_000_000_000_000;

/// 2^65, which is added to exponents, so that no exponent is negative.
const RAISED: u128 = 36_893_488_147_419_103_232;

/// The maximum number of zeros that `is_multiple_of` appends to a number for the division.
const MOST_ZEROS: u128 = 100_000;

/// Returns 2^65 plus the exponent with these ASCII digits or, if `negative` is set, 2^65 minus the exponent. Without
/// digits, the exponent is 0. An exponent above `LARGEST` counts as `LARGEST`.
fn raised(digits: &[u8], negative: bool) -> u128
    requires { AllDigits 10 digits.now }
    ensures { result ≡ raised digits.now negative }
{
    let size = if digits.is_empty() {
        0
    } else {
        match parse_u64(digits) {
            Ok(size) => size.min(LARGEST),
            Err(_) => LARGEST,
        }
    };
    if negative {
        RAISED - u128::from(size)
    } else {
        RAISED + u128::from(size)
    }
}

/// Returns the number of zeros at the start of `digits`, which are ASCII digits.
fn leading_zeros(digits: &[u8]) -> usize
    ensures value { result ≡ leading_zeros digits.now }
    ensures within { result ≤ length digits.now }
{
    for (i, digit) in digits.iter().enumerate() {
        if *digit != b'0' {
            return i;
        }
    }
    digits.len()
}

/// Returns the length of `digits`, which are ASCII digits, without the zeros at the end.
fn without_zeros(digits: &[u8]) -> usize
    ensures value { result ≡ significant digits.now }
    ensures within { result ≤ length digits.now }
{
    let mut end = 0usize;
    for (i, digit) in digits.iter().enumerate() {
        if *digit != b'0' {
            end = i + 1;
        }
    }
    end
}

impl Decimal {
    /// Reads a number such as `-12.5e3`. The text must have no underscores, and no `+` before the number.
    pub(crate) fn parse(alloc: Global, text: &str) -> Result<Decimal, AllocError>
        ensures { IfOk result (λ d. plain d ≡ decimal_of text.now) }
    {
        match text.as_bytes() {
            [b'-', rest @ ..] => Decimal::of_unsigned(alloc, true, rest),
            bytes => Decimal::of_unsigned(alloc, false, bytes),
        }
    }

    /// Reads a number without a sign. Returns the negative of the number if `negative` is set.
    fn of_unsigned(alloc: Global, negative: bool, bytes: &[u8]) -> Result<Decimal, AllocError>
        ensures { IfOk result (λ d. plain d ≡ unsigned_of negative bytes.now) }
    {
        let numeral = Numeral::scan(bytes);
        let mut all = Vec::from_slice(alloc, numeral.whole())?;
        all.extend_from_slice(numeral.fraction())?;
        let exponent = raised(numeral.exponent(), numeral.is_exponent_negative());
        let point = exponent + numeral.whole().len() as u128;
        Decimal::normal(alloc, negative, point, all.as_slice())
    }

    /// Returns the number `0.d1d2d3.. * 10^(point - 2^65)`, or its negative if `negative` is set. `digits` are d1, d2
    /// and so on in ASCII, and may begin and end with zeros.
    fn normal(
        alloc: Global,
        negative: bool,
        point: u128,
        digits: &[u8],
    ) -> Result<Decimal, AllocError>
        requires high { point < 2 ^ 67 }
        requires low { length digits.now ≤ point }
        ensures { IfOk result (λ d. plain d ≡ normal negative point digits.now) }
    {
        let end = without_zeros(digits);
        let zeros = leading_zeros(digits);
        if end <= zeros {
            return Ok(Decimal {
                negative: false,
                point: 0,
                digits: Vec::new(alloc),
            });
        }
        Ok(Decimal {
            negative,
            point: point - zeros as u128,
            digits: Vec::from_slice(alloc, &digits[zeros..end])?,
        })
    }

    /// Returns whether the number is an integer.
    pub(crate) fn is_whole(&self) -> bool
        ensures { result ≡ is_whole (plain self.now) }
    {
        self.digits.is_empty() || self.digits.len() as u128 + RAISED <= self.point
    }

    /// Compares two numbers.
    pub(crate) fn compare(&self, other: &Decimal) -> Ordering
        ensures { result ≡ compare (plain self.now) (plain other.now) }
    {
        match (self.sign().cmp(&other.sign()), self.sign()) {
            (Ordering::Equal, 2) => self.compare_sizes(other),
            (Ordering::Equal, 0) => other.compare_sizes(self),
            (order, _) => order,
        }
    }

    /// Returns 2 for a positive number, 1 for zero and 0 for a negative number.
    fn sign(&self) -> u8
        ensures { result ≡ sign (plain self.now) }
    {
        if self.digits.is_empty() {
            1
        } else if self.negative {
            0
        } else {
            2
        }
    }

    /// Compares the absolute values of two numbers other than zero.
    fn compare_sizes(&self, other: &Decimal) -> Ordering
        ensures { result ≡ compare_sizes (plain self.now) (plain other.now) }
    {
        match self.point.cmp(&other.point) {
            Ordering::Equal => self.digits.as_slice().cmp(&other.digits.as_slice()),
            order => order,
        }
    }

    /// Returns the exponent of the last digit's power of ten, plus 2^66: for `1.25`, 2^66 - 2. Returns 2^65 for the
    /// number 0.
    pub(crate) fn exponent(&self) -> u128
        ensures { result ≡ exponent (plain self.now) }
    {
        self.point + RAISED - self.digits.len() as u128
    }

    /// Returns the digits as an integer. Returns `None` for 0, which has no digits, and if the integer is 2^64 or more.
    pub(crate) fn size(&self) -> Option<u64> {
        parse_u64(self.digits.as_slice()).ok()
    }

    /// Returns whether the number is a multiple of `size` times a power of ten, whose exponent is `power` minus 2^66.
    /// Returns true for 0, and false for other numbers whose `exponent` is below `power`. Otherwise, fails with
    /// `TooLong` if `exponent` exceeds `power` by more than `MOST_ZEROS`, or if `size` is 0 or has more than 18 digits.
    pub(crate) fn is_multiple_of(&self, size: u64, power: u128) -> Result<bool, CheckError>
        ensures { IfOk result (λ r. r ≡ is_multiple (plain self.now) size power) }
    {
        if self.digits.is_empty() {
            return Ok(true);
        }
        let own = self.exponent();
        // The last digit is not 0, so a number with more decimals is not a multiple.
        if own < power {
            return Ok(false);
        }
        let zeros = own - power;
        if size == 0 || size >= 1_000_000_000_000_000_000 || zeros > MOST_ZEROS {
            return Err(CheckError::TooLong);
        }
        Ok(remainder_with_zeros(self.digits.as_slice(), zeros as u64, size) == 0)
    }
}

/// Returns `left * 10 + digit` modulo `divisor`.
fn shifted(left: u64, digit: u8, divisor: u64) -> u64
    requires { (0 < divisor) × (divisor < 1000000000000000000) × (left < divisor) }
    ensures value { result ≡ (left * 10 + digit) % divisor }
    ensures less { result < divisor }
{
    (left * 10 + u64::from(digit)) % divisor
}

/// Returns the number with these ASCII digits modulo `divisor`.
fn remainder(digits: &[u8], divisor: u64) -> u64
    requires { (0 < divisor) × (divisor < 1000000000000000000) }
    ensures value { result ≡ value_after 0 digits.now % divisor }
    ensures less { result < divisor }
{
    let mut left = 0u64;
    for digit in digits {
        left = shifted(left, digit.saturating_sub(b'0'), divisor);
    }
    left
}

/// Returns the number with these ASCII digits, followed by `zeros` zeros, modulo `divisor`.
fn remainder_with_zeros(digits: &[u8], zeros: u64, divisor: u64) -> u64
    requires { (0 < divisor) × (divisor < 1000000000000000000) }
    ensures { result ≡ (value_after 0 digits.now * 10 ^ zeros) % divisor }
{
    remainder_of_zeros(remainder(digits, divisor), zeros, divisor)
}

/// Returns `left * 10^zeros` modulo `divisor`.
fn remainder_of_zeros(left: u64, zeros: u64, divisor: u64) -> u64
    requires { (0 < divisor) × (divisor < 1000000000000000000) × (left < divisor) }
    ensures { result ≡ (left * 10 ^ zeros) % divisor }
{
    let mut left = left;
    for zero in 0..zeros {
        left = shifted(left, 0, divisor);
    }
    left
}

/// Returns the count that a JSON number says. A count above `u64::MAX` becomes `u64::MAX`.
pub(crate) fn count_in(text: &str) -> u64
    ensures { result ≡ count_in text.now }
{
    Numeral::scan(text.as_bytes())
        .whole_u64()
        .unwrap_or(u64::MAX)
}

/// Returns the number in a value, or `None` if the value is not a number.
pub(crate) fn number_in(alloc: Global, value: &Value<'_>) -> Result<Option<Number>, AllocError>
    ensures { IfOk result (λ n. option_map quantity n ≡ quantity_in (inner_of (view value.now))) }
{
    if let Some(integer) = value.as_integer() {
        let text = format!(in alloc; "{integer}")?;
        return Ok(Some(Number::Finite(Decimal::parse(alloc, text.as_str())?)));
    }
    Ok(match value.as_float() {
        Some(FloatText::Finite(text)) => {
            Some(Number::Finite(Decimal::parse(alloc, text.as_str())?))
        }
        Some(FloatText::Infinite { negative }) => Some(Number::Infinite(*negative)),
        Some(FloatText::NotANumber { negative: _ }) => Some(Number::NotANumber),
        None => None,
    })
}

impl Number {
    /// Compares this number with a limit. Returns `None` if the number is NaN.
    pub(crate) fn compare(&self, limit: &Decimal) -> Option<Ordering>
        ensures { result ≡ compare_quantity (quantity self.now) (plain limit.now) }
    {
        match self {
            Number::Finite(number) => Some(number.compare(limit)),
            Number::Infinite(true) => Some(Ordering::Less),
            Number::Infinite(false) => Some(Ordering::Greater),
            Number::NotANumber => None,
        }
    }
}
