//! Dates and times as RFC 3339 writes them.
ghost use Rattle.std.specs.Prelude.{◌≡◌, ◌++◌, ◌==◌, [], IfOk, OnOk, codes, if◌then◌else◌, string_bytes};
ghost use Rattle.toml_span_schema.specs.Dates.{date_piece, next_place, rfc3339};

use std::alloc::{AllocError, Global};

/// Returns the place after a character: 0 before the colon of a time, 1 and 2 in its minutes, 3 after them, and 4 from
/// the next character on.
fn next_place(place: u8, c: char) -> u8
    ensures { result ≡ next_place place c }
{
    if place == 0 {
        if c == ':' { 1 } else { 0 }
    } else if place == 1 {
        2
    } else if place == 2 {
        3
    } else {
        4
    }
}

/// Appends a character of a date or time at a place as RFC 3339 writes it, with seconds before it if they are missing
/// there.
fn push_date(out: &mut String, place: u8, c: char) -> Result<(), AllocError>
    ensures { OnOk result (string_bytes out.new ≡ string_bytes out.old ++ date_piece place c) }
{
    if place == 3 && c != ':' {
        out.push_str(":00")?;
    }
    out.push(match c {
        ' ' | 't' => 'T',
        'z' => 'Z',
        _ => c,
    })
}

/// Appends seconds if a date or time ends at a place where they are missing.
fn push_seconds(out: &mut String, place: u8) -> Result<(), AllocError>
    ensures { OnOk result (string_bytes out.new
        ≡ string_bytes out.old ++ (if place == 3 then codes ":00" else [])) }
{
    if place == 3 {
        out.push_str(":00")
    } else {
        Ok(())
    }
}

/// Returns a date, a time, or a date and a time of TOML as RFC 3339 writes it: with seconds, and with `T` and `Z`.
#[tactic(auto, unfolding(crate::specs::Dates::rfc3339))]
pub(crate) fn rfc3339(alloc: Global, text: &str) -> Result<String, AllocError>
    ensures { IfOk result (λ t. string_bytes t ≡ rfc3339 text.now) }
{
    let mut out = String::new(alloc);
    let mut place = 0;
    for c in text.chars() {
        push_date(&mut out, place, c)?;
        place = next_place(place, c);
    }
    push_seconds(&mut out, place)?;
    Ok(out)
}
