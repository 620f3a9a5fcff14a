//! Mistakes in dates and times. The module `mistakes` says what the functions take and return.

use crate::bytes::{Class, ahead, begins, byte_at, end_of, is_in, part, start_of};
use crate::finding::{Code, Finding, marked, pieces, replaced, six};
use crate::words::{DATETIME, NO_DAY, NO_MONTH, NO_TIME, OFFSET, SHORT_DATE, SLASH_DATE};
use toml_span_report::tables::text_in;

/// Returns whether there are exactly `count` digits at the offset `from`. If the text ends sooner, fewer digits
/// suffice.
fn are_digits(text: &str, from: usize, count: usize) -> bool {
    end_of(Class::Digit, text, from) == ahead(text, from, count)
}

/// Returns whether the bytes `start..end` have the form of a date, valid or not.
pub(crate) fn is_date(text: &str, start: usize, end: usize) -> bool {
    let month = ahead(text, start, 5);
    let day = ahead(text, start, 8);
    byte_at(text, ahead(text, start, 4)) == b'-'
        && byte_at(text, ahead(text, start, 7)) == b'-'
        && are_digits(text, start, 4)
        && are_digits(text, month, 2)
        && are_digits(text, day, 2)
        && ahead(text, start, 10) == end
}

/// Recognizes a date with slashes, in `start..end`, with the year at the end, as in `01/31/2026`.
pub(crate) fn slash_date<'a>(text: &'a str, start: usize, end: usize) -> Option<Finding<'a>> {
    let second = ahead(text, start, 3);
    let third = ahead(text, start, 6);
    let is_date = byte_at(text, ahead(text, start, 2)) == b'/'
        && byte_at(text, ahead(text, start, 5)) == b'/'
        && are_digits(text, start, 2)
        && are_digits(text, second, 2)
        && are_digits(text, third, 4)
        && ahead(text, start, 10) == end;
    if is_date {
        let month = part(text, start, ahead(text, start, 2));
        let day = part(text, second, ahead(text, second, 2));
        let code = six(part(text, third, end), "-", month, "-", day, "");
        Some(replaced(SLASH_DATE, start, end, code))
    } else {
        None
    }
}

/// Returns `0` if the number in `from..to` has only one digit, otherwise an empty string.
fn zero_for(from: usize, to: usize) -> &'static str {
    if to.saturating_sub(from) == 1 {
        "0"
    } else {
        ""
    }
}

/// Returns whether the two digits at the offset `at` spell a higher number than the ASCII digits `tens` and `ones`.
fn is_past(text: &str, at: usize, tens: u8, ones: u8) -> bool {
    let first = byte_at(text, at);
    first > tens || first == tens && byte_at(text, ahead(text, at, 1)) > ones
}

/// The two digits of each month except February, with a message about its length.
const MONTHS: [(&str, &str); 11] = [
    ("01", "January has 31 days"),
    ("03", "March has 31 days"),
    ("04", "April has 30 days"),
    ("05", "May has 31 days"),
    ("06", "June has 30 days"),
    ("07", "July has 31 days"),
    ("08", "August has 31 days"),
    ("09", "September has 30 days"),
    ("10", "October has 31 days"),
    ("11", "November has 30 days"),
    ("12", "December has 31 days"),
];

/// Returns whether the number that the two digits at the offset `at` spell is divisible by four.
fn is_multiple_of_four(text: &str, at: usize) -> bool {
    let tens = u32::from(byte_at(text, at));
    (2 * tens + u32::from(byte_at(text, ahead(text, at, 1)))) % 4 == 0
}

/// Returns the message with the length of the month that the two digits in `month` spell. Returns `None` for February
/// and for any other text.
fn days_of(month: &str) -> Option<&'static str> {
    text_in(&MONTHS, month)
}

/// Returns the message with the length of a month, or an empty text if the month does not exist. The digits of the year
/// begin at `year`, the digits of the month at `month`.
fn month_length<'a>(text: &'a str, year: usize, month: usize) -> Code<'a> {
    let years = ahead(text, year, 2);
    let century = if begins(text, years, b"00") {
        year
    } else {
        years
    };
    if begins(text, month, b"02") {
        let days = if is_multiple_of_four(text, century) {
            " has 29 days"
        } else {
            " has 28 days"
        };
        return pieces("February ", part(text, year, ahead(text, year, 4)), days);
    }
    match days_of(part(text, month, ahead(text, month, 2))) {
        Some(days) => pieces(days, "", ""),
        None => pieces("", "", ""),
    }
}

/// Returns the finding for the invalid date or time in `start..end`. Its hour, if it has one, begins at `hour`. The
/// finding names a UTC offset without a colon or an hour that does not exist. For any other mistake, it shows how dates
/// and times are written.
fn time<'a>(text: &'a str, start: usize, hour: usize, end: usize) -> Finding<'a> {
    let offset = start_of(Class::Digit, text, end);
    let colon = ahead(text, offset, 2);
    if are_digits(text, offset, 4)
        && matches!(byte_at(text, offset.saturating_sub(1)), b'+' | b'-')
    {
        let code = pieces(part(text, start, colon), ":", part(text, colon, end));
        return replaced(OFFSET, start, end, code);
    }
    let is_hour = are_digits(text, hour, 2) && byte_at(text, ahead(text, hour, 2)) == b':';
    if is_hour && is_past(text, hour, b'2', b'3') {
        return marked(NO_TIME, start, end);
    }
    marked(DATETIME, start, end)
}

/// Returns the finding for a value that begins with a year of four digits, and has an invalid date or time. The value
/// spans `start..end`, its month begins at `month`, and its day at `day`.
fn date<'a>(text: &'a str, start: usize, month: usize, day: usize, end: usize) -> Finding<'a> {
    let dash = end_of(Class::Digit, text, month);
    let day_end = end_of(Class::Digit, text, day);
    let is_short = dash == ahead(text, month, 1) || day_end == ahead(text, day, 1);
    if is_short && day_end == end {
        let code = six(
            part(text, start, month),
            zero_for(month, dash),
            part(text, month, day),
            zero_for(day, day_end),
            part(text, day, end),
            "",
        );
        return replaced(SHORT_DATE, start, end, code);
    }
    let is_month = are_digits(text, month, 2);
    let is_day = are_digits(text, day, 2);
    if is_month && (is_past(text, month, b'1', b'2') || begins(text, month, b"00")) {
        return marked(NO_MONTH, start, end);
    }
    if is_day && is_month && day_end == end {
        let mut found = marked(NO_DAY, start, end);
        found.label = month_length(text, start, month);
        return found;
    }
    time(text, start, ahead(text, day_end, 1), end)
}

/// Returns the finding for the invalid date or time around the offset `at`.
pub(crate) fn datetime<'a>(text: &'a str, at: usize) -> Finding<'a> {
    let start = start_of(Class::Atom, text, at);
    let end = end_of(Class::Word, text, at);
    let month = ahead(text, start, 5);
    let day = ahead(text, end_of(Class::Digit, text, month), 1);
    if are_digits(text, start, 4)
        && byte_at(text, month.saturating_sub(1)) == b'-'
        && byte_at(text, day.saturating_sub(1)) == b'-'
        && is_in(Class::Digit, byte_at(text, day))
    {
        date(text, start, month, day, end)
    } else {
        time(text, start, start, end)
    }
}
