//! Dates and times in the form of the test suite `toml-test`.
ghost use Rattle.std.specs.Prelude.{◌≡◌, IfOk, string_bytes};
ghost use Rattle.std.specs.List.{list_any};
ghost use Rattle.toml_span_check.specs.Dates as spec;

use std::alloc::{AllocError, Global};

/// Returns whether the byte can begin a time offset: `+`, `-`, `Z` or `z`.
fn begins_offset(byte: u8) -> bool
    ensures { result ≡ spec.begins_offset byte }
{
    matches!(byte, b'Z' | b'z' | b'+' | b'-')
}

/// Returns whether any of the bytes can begin a time offset.
fn has_offset(bytes: &[u8]) -> bool
    ensures { result ≡ list_any spec.begins_offset bytes.now }
{
    for byte in bytes {
        if begins_offset(*byte) {
            return true;
        }
    }
    false
}

/// Returns whether the text of a date or time is a time alone, such as `07:32:00`.
fn is_time(bytes: &[u8]) -> bool
    ensures { result ≡ spec.is_time bytes.now }
{
    bytes.get(2).copied() == Some(b':')
}

/// Returns the type of a date or time, as `toml-test` names it.
pub(crate) fn date_type(date: &str) -> &'static str
    ensures { result.now ≡ spec.date_type date.now }
{
    let bytes = date.as_bytes();
    if is_time(bytes) {
        return "time-local";
    }
    if bytes.len() < 11 {
        return "date-local";
    }
    let (_, after) = bytes.split_at(11);
    if has_offset(after) {
        "datetime"
    } else {
        "datetime-local"
    }
}

/// Returns whether a date or time has a time without seconds. A date alone has no time. `at` is the byte offset after
/// the minutes of the time.
fn lacks_seconds(bytes: &[u8], at: usize) -> bool
    ensures { result ≡ spec.lacks_seconds bytes.now at }
{
    match bytes.get(at) {
        Some(byte) => begins_offset(*byte),
        None => bytes.len() == at,
    }
}

/// Returns the text of a date or time, with `:00` added if its time has no seconds.
pub(crate) fn with_seconds(alloc: Global, date: &str) -> Result<String, AllocError>
    ensures { IfOk result (λ out. string_bytes out ≡ spec.with_seconds date.now) }
{
    let bytes = date.as_bytes();
    let at = if is_time(bytes) { 5 } else { 16 };
    if !lacks_seconds(bytes, at) {
        return String::from_str(alloc, date);
    }
    let (front, after) = date.split_at(at);
    let mut out = String::from_str(alloc, front)?;
    out.push_str(":00")?;
    out.push_str(after)?;
    Ok(out)
}
