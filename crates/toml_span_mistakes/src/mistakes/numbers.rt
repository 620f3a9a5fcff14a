//! Mistakes in numbers. Functions that take `start` and `end` are given a number that spans `start..end`. The module
//! `mistakes` says what the functions take and return.

use crate::bytes::{
    Class, ahead, begins, byte_after, byte_at, end_of, ends_value, is_in, part, start_of,
};
use crate::finding::{Code, Finding, marked, pieces, replaced, safe_if, six};
use crate::mistakes::dates::slash_date;
use crate::mistakes::values::{float_word, unquoted_value};
use crate::words::{
    DECIMAL_COMMA, LEADING_ZERO, MISPLACED, Mistake, NO_DIGITS, NO_EXPONENT, NO_SIGNED_DIGITS,
    OCTAL, OTHER_DIGIT, PLUS_PREFIX, SIGNED_DECIMAL, SIGNED_PREFIX, SIGNS, THOUSANDS, TOO_LARGE,
    TRAILING_POINT, UNDERSCORE, UPPER_PREFIX,
};

/// Returns the offset after the sign of the number at `at`, or `at` if the number has no sign.
pub(crate) fn after_sign(text: &str, at: usize) -> usize {
    if matches!(byte_at(text, at), b'+' | b'-') {
        ahead(text, at, 1)
    } else {
        at
    }
}

/// Returns a label that lists the digits of a number with the prefix letter `x`, `o` or `b`, or an empty string for any
/// other letter.
fn digits_of(letter: u8) -> &'static str {
    match letter {
        b'x' => "hexadecimal digits are 0-9, a-f and A-F",
        b'o' => "octal digits are 0-7",
        b'b' => "binary digits are 0 and 1",
        _ => "",
    }
}

/// Returns the lower-case prefix for `X`, `O` or `B`, or an empty string for any other letter.
fn lower_prefix(letter: u8) -> &'static str {
    match letter {
        b'X' => "0x",
        b'O' => "0o",
        b'B' => "0b",
        _ => "",
    }
}

/// Returns the value of a hexadecimal digit, or 16 for any other byte.
fn digit_of(byte: u8) -> u64 {
    match byte {
        b'0'..=b'9' => u64::from(byte - 48),
        b'a'..=b'f' => u64::from(byte - 87),
        b'A'..=b'F' => u64::from(byte - 55),
        _ => 16,
    }
}

/// Returns the base of a number with this letter in its prefix: 16 for `x` or `X`, 8 for `o` or `O`, otherwise 2.
fn base_of(letter: u8) -> u64 {
    match letter {
        b'x' | b'X' => 16,
        b'o' | b'O' => 8,
        _ => 2,
    }
}

/// Returns the value of a number with the digit `byte` appended, capped at `u64::MAX`. `value` is the value without
/// this digit. If `byte` is `_`, returns `value`. Returns `None` if `value` is `None`, or if `byte` is neither `_` nor
/// a digit in this base.
fn next_value(value: Option<u64>, base: u64, byte: u8) -> Option<u64> {
    let value = value?;
    if byte == b'_' {
        Some(value)
    } else if digit_of(byte) < base {
        Some(value.saturating_mul(base).saturating_add(digit_of(byte)))
    } else {
        None
    }
}

/// Returns the value of the digits of a number, capped at `u64::MAX`. Without digits, the value is 0. Returns `None` if
/// a byte is neither `_` nor a digit in this base.
fn value_of(digits: &str, base: u64) -> Option<u64> {
    let mut value = Some(0);
    for i in 0..digits.len() {
        value = next_value(value, base, byte_at(digits, i));
    }
    value
}

/// Returns the code of a number with this value, and with the sign `-` if that is the sign at `start`.
fn decimal_code<'a>(text: &'a str, start: usize, value: u64) -> Code<'a> {
    let sign = if byte_at(text, start) == b'-' {
        "-"
    } else {
        ""
    };
    Code {
        number: Some(value),
        ..pieces(sign, "", "")
    }
}

/// Returns whether the digits of a number with a prefix begin or end with `_`, or have two `_` side by side.
fn is_ungrouped(digits: &str) -> bool {
    byte_at(digits, 0) == b'_'
        || byte_at(digits, digits.len().saturating_sub(1)) == b'_'
        || digits.contains("__")
}

/// Returns the prefix with this letter, in lower case: `0x`, `0o` or `0b`.
fn prefix_of(letter: u8) -> &'static str {
    match letter {
        b'x' | b'X' => "0x",
        b'o' | b'O' => "0o",
        _ => "0b",
    }
}

/// Returns the finding for a number with a sign before a prefix such as `0x`. The `0` of the prefix is at `zero`. The
/// replacement is the number without `+`, or the number in decimal if the sign is `-` or a `_` is misplaced. The finding
/// has no replacement if there are no digits, if a digit is not valid, or if the number is too large or too small for an
/// integer (`largest`).
fn signed_prefix<'a>(text: &'a str, start: usize, zero: usize, end: usize) -> Finding<'a> {
    let letter = byte_at(text, ahead(text, zero, 1));
    let digits = part(text, ahead(text, zero, 2), end);
    let mistake = match value_of(digits, base_of(letter)) {
        Some(_) if digits.is_empty() => NO_SIGNED_DIGITS,
        Some(value) if value > largest(text, start) => TOO_LARGE,
        Some(value) if byte_at(text, start) == b'-' || is_ungrouped(digits) => {
            return replaced(SIGNED_DECIMAL, start, end, decimal_code(text, start, value));
        }
        Some(_) => {
            return replaced(
                PLUS_PREFIX,
                start,
                end,
                pieces(prefix_of(letter), digits, ""),
            );
        }
        None => SIGNED_PREFIX,
    };
    marked(mistake, start, end)
}

/// Returns the finding for a number without a sign, whose prefix has the letter `x`, `o` or `b`. The number has no
/// digits, is too large, or has a misplaced `_` or an invalid digit.
fn unsigned_prefix<'a>(text: &'a str, start: usize, end: usize, letter: u8) -> Finding<'a> {
    let digits = part(text, ahead(text, start, 2), end);
    let mistake = match value_of(digits, base_of(letter)) {
        Some(_) if digits.is_empty() => NO_DIGITS,
        Some(value) if value <= 9223372036854775807 => return marked(MISPLACED, start, end),
        Some(_) => return marked(TOO_LARGE, start, end),
        None => OTHER_DIGIT,
    };
    let mut found = marked(mistake, start, end);
    found.label = pieces(digits_of(letter), "", "");
    found
}

/// Recognizes the mistake in an invalid number with a prefix such as `0x`. Returns `None` unless such a prefix begins
/// at `zero`.
fn prefixed_number<'a>(
    text: &'a str,
    start: usize,
    zero: usize,
    end: usize,
) -> Option<Finding<'a>> {
    let letter = byte_at(text, ahead(text, zero, 1));
    let digits = digits_of(letter);
    let lower = lower_prefix(letter);
    if byte_at(text, zero) != b'0' || (digits.is_empty() && lower.is_empty()) {
        None
    } else if start != zero {
        Some(signed_prefix(text, start, zero, end))
    } else if digits.is_empty() {
        let code = pieces(lower, part(text, ahead(text, zero, 2), end), "");
        Some(replaced(UPPER_PREFIX, start, end, code))
    } else {
        Some(unsigned_prefix(text, start, end, letter))
    }
}

/// Returns the finding for a number with leading zeros. Its digits begin at `digits`, with the zeros. For a number such
/// as `0755`, of one leading zero and three octal digits, without a sign, the replacement is octal (`0o755`). For any
/// other number, the replacement is the number without its leading zeros.
fn zeros<'a>(text: &'a str, start: usize, digits: usize, end: usize) -> Finding<'a> {
    let more = ahead(text, digits, 1);
    let is_mode = ahead(text, digits, 4) == end
        && byte_at(text, more) != b'0'
        && value_of(part(text, more, end), 8).is_some();
    if is_mode && start == digits && end_of(Class::Digit, text, digits) == end {
        let code = pieces("0o", part(text, more, end), "");
        return replaced(OCTAL, start, end, code);
    }
    let other = end_of(Class::Zero, text, digits);
    let kept = if is_in(Class::Digit, byte_at(text, other)) {
        other
    } else {
        other.saturating_sub(1)
    };
    let code = pieces(part(text, start, digits), part(text, kept, end), "");
    replaced(LEADING_ZERO, start, end, code)
}

/// Recognizes a decimal point, at `point`, without a digit after it.
fn trailing_point<'a>(
    text: &'a str,
    start: usize,
    point: usize,
    end: usize,
) -> Option<Finding<'a>> {
    let next = ahead(text, point, 1);
    if byte_at(text, point) == b'.' && (next == end || matches!(byte_at(text, next), b'e' | b'E')) {
        let code = pieces(part(text, start, next), "0", part(text, next, end));
        Some(replaced(TRAILING_POINT, start, end, code))
    } else {
        None
    }
}

/// Returns the largest absolute value of an integer with the sign at `start`.
fn largest(text: &str, start: usize) -> u64 {
    if byte_at(text, start) == b'-' {
        9223372036854775808
    } else {
        9223372036854775807
    }
}

/// Returns the mistake in an integer of digits and `_` that is not too large: a zero before `_` or `__` and a digit, as
/// in `0_1`, or a misplaced `_`. The digits begin at `digits`.
fn grouping_mistake(text: &str, digits: usize) -> Mistake {
    let after = if begins(text, digits, b"0__") {
        ahead(text, digits, 3)
    } else {
        ahead(text, digits, 2)
    };
    if begins(text, digits, b"0_") && is_in(Class::Digit, byte_at(text, after)) {
        LEADING_ZERO
    } else {
        UNDERSCORE
    }
}

/// Returns the finding for an invalid integer of digits and `_`, which begin at `digits`: too large, with a leading
/// zero, or with a misplaced `_`. An integer that is too large has no replacement. For any other integer, the
/// replacement has no leading zeros. The replacement is not safe if the integer ends with `_`, since digits may be
/// missing.
fn integer<'a>(text: &'a str, start: usize, digits: usize, end: usize) -> Finding<'a> {
    let first = end_of(Class::Digit, text, digits);
    let rest = ahead(text, first, 2);
    let is_padded = byte_at(text, digits) == b'0';
    let is_twice = digits < first && !is_padded && begins(text, first, b"__") && rest < end;
    match value_of(part(text, digits, end), 10) {
        Some(value) if value <= largest(text, start) => {
            let code = if is_twice && end_of(Class::Digit, text, rest) == end {
                pieces(part(text, start, first), "_", part(text, rest, end))
            } else {
                decimal_code(text, start, value)
            };
            safe_if(
                replaced(grouping_mistake(text, digits), start, end, code),
                byte_at(text, end.saturating_sub(1)) != b'_',
            )
        }
        _ => marked(TOO_LARGE, start, end),
    }
}

/// Returns whether the byte at `at` is a `_` that lacks a digit on at least one side.
fn is_misplaced(number: &str, at: usize) -> bool {
    let before = byte_at(number, at.saturating_sub(1));
    let after = byte_at(number, ahead(number, at, 1));
    byte_at(number, at) == b'_' && !(is_in(Class::Digit, before) && is_in(Class::Digit, after))
}

/// Returns whether any `_` in `number` lacks a digit on at least one side.
fn has_misplaced(number: &str) -> bool {
    let mut found = false;
    for i in 0..number.len() {
        found |= is_misplaced(number, i);
    }
    found
}

/// Returns whether the number before `end` ends with `e` or `E`, or with one of these and a sign.
fn lacks_exponent(text: &str, end: usize) -> bool {
    let last = byte_at(text, end.saturating_sub(1));
    let letter = if matches!(last, b'+' | b'-') {
        byte_at(text, end.saturating_sub(2))
    } else {
        last
    };
    matches!(letter, b'e' | b'E')
}

/// Recognizes the mistake in an invalid float. After its sign, the first byte that is neither a digit nor `_` is at
/// `point`.
fn float<'a>(text: &'a str, start: usize, point: usize, end: usize) -> Option<Finding<'a>> {
    if let Some(found) = trailing_point(text, start, point, end) {
        return Some(found);
    }
    if lacks_exponent(text, end) {
        Some(marked(NO_EXPONENT, start, end))
    } else if has_misplaced(part(text, start, end)) {
        Some(marked(MISPLACED, start, end))
    } else {
        None
    }
}

/// Recognizes the mistake in a number without `0x`, `0o` or `0b`. Its digits begin at `digits`.
fn plain<'a>(text: &'a str, start: usize, digits: usize, end: usize) -> Option<Finding<'a>> {
    let point = end_of(Class::Grouped, text, digits);
    let has_zero = byte_at(text, digits) == b'0'
        && is_in(Class::Digit, byte_at(text, ahead(text, digits, 1)));
    if has_zero && end <= end_of(Class::Decimal, text, digits) {
        // (without the zeros, `010.0.0.1` and `007 bond` would be other texts, and no numbers)
        let is_number = end_of(Class::Grouped, text, ahead(text, point, 1)) >= end;
        if is_number && ends_value(text, end) {
            Some(zeros(text, start, digits, end))
        } else {
            Some(unquoted_value(text, start))
        }
    } else if digits < point && point == end {
        Some(integer(text, start, digits, end))
    } else if end <= end_of(Class::Number, text, start) {
        float(text, start, point, end)
    } else {
        Some(unquoted_value(text, start))
    }
}

/// Recognizes `Inf`, `NaN` and the like with a sign. The word after the sign is at `digits`.
fn signed_float<'a>(text: &'a str, start: usize, digits: usize, end: usize) -> Option<Finding<'a>> {
    match float_word(part(text, digits, end)) {
        Some(known) => {
            let code = pieces(part(text, start, digits), known.code, "");
            Some(replaced(known.mistake, start, end, code))
        }
        None => None,
    }
}

/// Recognizes the mistake in the invalid number around the offset `at`.
pub(crate) fn number<'a>(text: &'a str, at: usize) -> Option<Finding<'a>> {
    let start = start_of(Class::Atom, text, at);
    let end = end_of(Class::Word, text, at);
    let digits = after_sign(text, start);
    if let Some(found) = slash_date(text, start, end) {
        return Some(found);
    }
    if let Some(found) = prefixed_number(text, start, digits, end) {
        return Some(found);
    }
    let is_signed_twice = matches!(byte_at(text, digits), b'+' | b'-');
    if is_signed_twice && !is_in(Class::Digit, byte_at(text, ahead(text, digits, 1))) {
        return Some(unquoted_value(text, start));
    }
    if is_signed_twice {
        let code = pieces(part(text, digits, end), "", "");
        return Some(replaced(SIGNS, start, end, code));
    }
    match signed_float(text, start, digits, end) {
        Some(found) => Some(found),
        None => plain(text, start, digits, end),
    }
}

/// Recognizes a decimal comma, at `at`, as in `1,5`, without another comma after it.
pub(crate) fn decimal_comma<'a>(text: &'a str, at: usize) -> Option<Finding<'a>> {
    let start = start_of(Class::Atom, text, at);
    let next = ahead(text, at, 1);
    let end = end_of(Class::Digit, text, next);
    let digits = after_sign(text, start);
    if digits == at
        || end_of(Class::Digit, text, digits) != at
        || next == end
        || byte_after(text, end) == b','
        || !ends_value(text, end)
    {
        return None;
    }
    let (whole, rest) = (part(text, start, at), part(text, next, end));
    let mut found = replaced(DECIMAL_COMMA, start, end, pieces(whole, ".", rest));
    found.other = six("[", whole, ", ", rest, "]", "");
    Some(found)
}

/// Recognizes digits that are grouped by commas. The first comma is at `at`.
pub(crate) fn thousands<'a>(text: &'a str, at: usize) -> Option<Finding<'a>> {
    let start = start_of(Class::Atom, text, at);
    let next = ahead(text, at, 1);
    let group = end_of(Class::Digit, text, next);
    let other = ahead(text, group, 1);
    let last = end_of(Class::Digit, text, other);
    if start == at || end_of(Class::Digit, text, start) != at || group != ahead(text, next, 3) {
        None
    } else if byte_at(text, group) == b',' && last == ahead(text, other, 3) {
        let (first, second, third) = (
            part(text, start, at),
            part(text, next, group),
            part(text, other, last),
        );
        let mut found = replaced(
            THOUSANDS,
            start,
            last,
            six(first, "_", second, "_", third, ""),
        );
        found.other = pieces(first, second, third);
        Some(found)
    } else {
        let (first, second) = (part(text, start, at), part(text, next, group));
        let mut found = replaced(THOUSANDS, start, group, pieces(first, "_", second));
        found.other = pieces(first, second, "");
        Some(found)
    }
}
