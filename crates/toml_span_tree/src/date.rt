//! Dates and times as texts.
ghost use Rattle.std.specs.Prelude.{◌≡◌, ◌<◌, ◌↔◌, ◌+◌, slice_index, IsSome, IfSome};
ghost use Rattle.std.specs.Char.{is_ascii_digit};
ghost use Rattle.std.specs.List.{list_all};
ghost use Rattle.toml_span_tree.specs.Date as spec;
ghost use Rattle.toml_span_tree.specs.Date.{IsDateText};

/// A date, a time, or a date and a time, as the document spells it.
///
/// The grammar is that of the TOML 1.1 sections "Offset Date-Time" through "Local Time".
#[derive(Clone, Copy, PartialEq, Eq, Debug)]
pub struct DateText<'de> {
    text: &'de str,
    ghost is_date: { IsDateText text.now },
}

impl<'de> DateText<'de> {
    ghost use Rattle.toml_span_tree.specs.Value.{date_bytes};

    /// Wraps a valid date, time, or date and time, without copying it. Returns `None` if the text is not valid.
    pub fn new(text: &'de str) -> Option<Self>
        ensures found { IsSome result ↔ IsDateText text.now }
        ensures text { IfSome result (λ date. date_bytes date ≡ text.now) }
    {
        if is_date_text(text.as_bytes()) {
            Some(DateText { text })
        } else {
            None
        }
    }

    /// Returns the text.
    pub fn text(&self) -> &'de str
        ensures text { result.now ≡ date_bytes self.now }
        ensures is_date { IsDateText result.now }
    {
        self.text
    }
}

/// Returns the byte at the offset `at`, or 0 if the text is too short.
fn byte_at(text: &[u8], at: usize) -> u8
    ensures { result ≡ slice_index text.now at }
{
    text.get(at).copied().unwrap_or(0)
}

/// Returns the number that the two digits at the byte offset `at` spell. The result is meaningless if one of the two
/// bytes is not a digit.
fn two_digits(text: &[u8], at: usize) -> u32
    requires { at < 100 }
    ensures value { result ≡ spec.two_digits text.now at }
    ensures bound { result < 3000 }
{
    let tens = byte_at(text, at).saturating_sub(b'0');
    let ones = byte_at(text, at + 1).saturating_sub(b'0');
    10 * u32::from(tens) + u32::from(ones)
}

/// Returns whether there are two digits at the byte offset `at` that spell a number from `low` to `high`, both
/// included.
fn is_two_digits(text: &[u8], at: usize, low: u32, high: u32) -> bool
    requires { at < 100 }
    ensures { result ≡ spec.is_two_digits low high text.now at }
{
    let number = two_digits(text, at);
    byte_at(text, at).is_ascii_digit()
        && byte_at(text, at + 1).is_ascii_digit()
        && low <= number
        && number <= high
}

/// Returns whether `year` is a leap year of the Gregorian calendar.
fn is_leap_year(year: u32) -> bool
    ensures { result ≡ spec.is_leap_year year }
{
    (year % 4 == 0 && year % 100 != 0) || year % 400 == 0
}

/// Returns the number of days in a month of `year`. `month` is counted from 1.
fn last_day(year: u32, month: u32) -> u32
    ensures { result ≡ spec.last_day year month }
{
    match month {
        2 => { if is_leap_year(year) { 29 } else { 28 } }
        4 | 6 | 9 | 11 => 30,
        _ => 31,
    }
}

/// Returns the number that the first four digits of the text spell. The result is meaningless if the text does not
/// begin with four digits.
fn year_of(text: &[u8]) -> u32
    ensures { result ≡ spec.year_of text.now }
{
    100 * two_digits(text, 0) + two_digits(text, 2)
}

/// Returns whether the text begins with four digits.
fn has_year(text: &[u8]) -> bool
    ensures { result ≡ spec.has_year text.now }
{
    is_two_digits(text, 0, 0, 99) && is_two_digits(text, 2, 0, 99)
}

/// Returns whether the text is a date: `full-date = date-fullyear "-" date-month "-" date-mday`.
#[tactic(auto, unfolding(crate::specs::Date::is_full_date))]
fn is_full_date(text: &[u8]) -> bool
    ensures { result ≡ spec.is_full_date text.now }
{
    text.len() == 10
        && has_year(text)
        && byte_at(text, 4) == b'-'
        && is_two_digits(text, 5, 1, 12)
        && byte_at(text, 7) == b'-'
        && is_two_digits(text, 8, 1, last_day(year_of(text), two_digits(text, 5)))
}

/// Returns whether the text begins with `time-hour ":" time-minute`.
fn has_hour_minute(text: &[u8]) -> bool
    ensures { result ≡ spec.has_hour_minute text.now }
{
    is_two_digits(text, 0, 0, 23) && byte_at(text, 2) == b':' && is_two_digits(text, 3, 0, 59)
}

/// Returns whether all bytes of the text are ASCII digits.
fn are_digits(text: &[u8]) -> bool
    ensures { result ≡ list_all is_ascii_digit text.now }
{
    text.iter().all(|byte| byte.is_ascii_digit())
}

/// Returns whether the text is a fraction of a second: `time-secfrac = "." 1*DIGIT`.
fn is_time_secfrac(text: &[u8]) -> bool
    ensures { result ≡ spec.is_time_secfrac text.now }
{
    byte_at(text, 0) == b'.' && text.len() > 1 && are_digits(&text[1..])
}

/// Returns whether the text is `[ ":" time-second [ time-secfrac ] ]`.
fn is_seconds(text: &[u8]) -> bool
    ensures { result ≡ spec.is_seconds text.now }
{
    if text.len() <= 3 {
        return text.is_empty()
            || (text.len() == 3 && byte_at(text, 0) == b':' && is_two_digits(text, 1, 0, 60));
    }
    byte_at(text, 0) == b':' && is_two_digits(text, 1, 0, 60) && is_time_secfrac(&text[3..])
}

/// Returns whether the text is a time: `partial-time = time-hour ":" time-minute [ ":" time-second [ time-secfrac ] ]`.
#[tactic(auto, unfolding(crate::specs::Date::is_partial_time))]
fn is_partial_time(text: &[u8]) -> bool
    ensures { result ≡ spec.is_partial_time text.now }
{
    text.len() >= 5 && has_hour_minute(text) && is_seconds(&text[5..])
}

/// Returns whether the text is a time offset: `time-offset = "Z" / ( "+" / "-" ) time-hour ":" time-minute`.
#[tactic(auto, unfolding(crate::specs::Date::is_time_offset))]
fn is_time_offset(text: &[u8]) -> bool
    ensures { result ≡ spec.is_time_offset text.now }
{
    match byte_at(text, 0) {
        b'Z' | b'z' => text.len() == 1,
        b'+' | b'-' => text.len() == 6 && has_hour_minute(&text[1..]),
        _ => false,
    }
}

/// Returns whether the last `len` bytes of the text are a time offset, and the bytes before them a time.
fn is_time_with(len: usize, text: &[u8]) -> bool
    ensures { result ≡ spec.is_time_with len text.now }
{
    let (time, offset) = text.split_at(text.len().saturating_sub(len));
    is_time_offset(offset) && is_partial_time(time)
}

/// Returns whether the text is `partial-time [ time-offset ]`. A time offset has one byte (`Z`) or six (`+01:00`).
#[tactic(auto, unfolding(crate::specs::Date::is_time))]
fn is_time(text: &[u8]) -> bool
    ensures { result ≡ spec.is_time text.now }
{
    is_partial_time(text) || is_time_with(1, text) || is_time_with(6, text)
}

/// Returns whether the byte may separate a date from a time: `T`, `t` or a space.
fn is_time_delim(byte: u8) -> bool
    ensures { result ≡ spec.is_time_delim byte }
{
    byte == b'T' || byte == b't' || byte == b' '
}

/// Returns whether the text is `full-date time-delim partial-time [ time-offset ]`.
fn is_date_time(text: &[u8]) -> bool
    ensures { result ≡ spec.is_date_time text.now }
{
    text.len() > 10 && is_full_date(&text[..10]) && is_time_delim(text[10]) && is_time(&text[11..])
}

#[tactic(auto, unfolding(crate::specs::Date::is_date_text))]
/// Returns whether the text is a valid date, time, or date and time.
fn is_date_text(text: &[u8]) -> bool
    ensures { result ≡ spec.is_date_text text.now }
{
    is_full_date(text) || is_partial_time(text) || is_date_time(text)
}
