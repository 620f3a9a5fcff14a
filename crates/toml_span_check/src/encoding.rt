//! The report that a file is not UTF-8.
ghost use Rattle.std.specs.Prelude.{◌≡◌, ◌++◌, IfOk, OnOk, slice_index, string_bytes, take};
ghost use Rattle.std.specs.Str.{IsValidUpTo};
ghost use Rattle.toml_span_report.specs.Report.{report_content};
ghost use Rattle.toml_span_check.specs.Encoding as spec;

use crate::sarif::hex_digit;
use std::alloc::{AllocError, Global};
use std::fmt::Write;
use toml_span::Span;
use toml_span_report::Report;

/// An encoding that a file may have instead of UTF-8.
#[derive(Clone, Copy, PartialEq, Eq)]
enum Encoding {
    /// UTF-16 with the byte order mark FF FE.
    LittleEndian,
    /// UTF-16 with the byte order mark FE FF.
    BigEndian,
    Windows1252,
    Latin1,
}

/// Returns the byte at the offset `at`, or 0 past the end.
fn byte_at(bytes: &[u8], at: usize) -> u8
    ensures { result ≡ slice_index bytes.now at }
{
    if at < bytes.len() { bytes[at] } else { 0 }
}

/// Returns the encoding that a file seems to have. `at` is the byte offset of the first byte that is not valid UTF-8.
fn encoding_of(bytes: &[u8], at: usize) -> Encoding
    ensures { result ≡ spec.encoding_of bytes.now at }
{
    let (first, second) = (byte_at(bytes, 0), byte_at(bytes, 1));
    if first == 0xFF && second == 0xFE {
        Encoding::LittleEndian
    } else if first == 0xFE && second == 0xFF {
        Encoding::BigEndian
    } else if byte_at(bytes, at) < 0xA0 {
        Encoding::Windows1252
    } else {
        Encoding::Latin1
    }
}

/// Returns a help text that says which encoding a file seems to have.
fn look_of(encoding: Encoding) -> &'static str
    ensures { result.now ≡ spec.look_of encoding }
{
    match encoding {
        Encoding::LittleEndian => "this looks like UTF-16 (byte order mark FF FE)",
        Encoding::BigEndian => "this looks like UTF-16 (byte order mark FE FF)",
        Encoding::Windows1252 => "this looks like Windows-1252",
        Encoding::Latin1 => "this looks like Latin-1 (ISO-8859-1)",
    }
}

/// Returns a help text that says how to convert a file from this encoding to UTF-8.
fn repair_of(encoding: Encoding) -> &'static str
    ensures { result.now ≡ spec.repair_of encoding }
{
    match encoding {
        Encoding::LittleEndian | Encoding::BigEndian =>
            "convert it with `iconv -f UTF-16 -t UTF-8`",
        Encoding::Windows1252 => "convert it with `iconv -f WINDOWS-1252 -t UTF-8`",
        Encoding::Latin1 => "convert it with `iconv -f ISO-8859-1 -t UTF-8`",
    }
}

/// Appends a byte in the form `0xE9`.
fn push_byte(out: &mut String, byte: u8) -> Result<(), AllocError>
    ensures { OnOk result (string_bytes out.new ≡ string_bytes out.old ++ spec.byte_text byte) }
{
    out.push_str("0x")?;
    out.push(hex_digit(byte / 16) as char)?;
    out.push(hex_digit(byte % 16) as char)
}

/// Returns the message that a file is not valid UTF-8. The message names the first invalid byte and its offset `at`.
/// Fails if an allocation fails.
#[tactic(auto, unfolding(crate::specs::Encoding::not_utf8_text))]
pub fn not_utf8_text(alloc: Global, bytes: &[u8], at: usize) -> Result<String, AllocError>
    ensures { IfOk result (λ out. string_bytes out ≡ spec.not_utf8_text bytes.now at) }
{
    let mut out = String::from_str(alloc, "the file is not valid UTF-8: byte ")?;
    push_byte(&mut out, byte_at(bytes, at))?;
    out.push_str(" at offset ")?;
    write!(out, "{at}")?;
    Ok(out)
}

/// Returns the report that a file is not valid UTF-8. `at` is the byte offset of the first invalid byte.
fn not_utf8_report(alloc: Global, bytes: &[u8], at: usize) -> Result<Report, AllocError>
    ensures { IfOk result (λ report. report_content report ≡ spec.not_utf8_report bytes.now at) }
{
    let encoding = encoding_of(bytes, at);
    let message = not_utf8_text(alloc, bytes, at)?;
    Report::error(alloc, "not-utf-8", message.as_str())?
        .primary(Span::new(at, at), "")?
        .help(look_of(encoding))?
        .help(repair_of(encoding))
}

/// Returns the bytes before the offset `end` as text. They must be valid UTF-8.
#[tactic(auto, using(crate::proofs::EncodingLemmas::front_within, crate::proofs::EncodingLemmas::front_is_utf8))]
fn front_of(bytes: &[u8], end: usize) -> &str
    requires { IsValidUpTo bytes.now end }
    ensures { result.now ≡ take end bytes.now }
{
    match str::from_utf8(&bytes[..end]) {
        Ok(text) => text,
        Err(_) => unreachable!(),
    }
}

/// Returns the report that a file is not valid UTF-8, and the text before the first invalid byte. `at` is the byte
/// offset of the first invalid byte. Fails if an allocation fails.
pub fn not_utf8<'b>(
    alloc: Global,
    bytes: &'b [u8],
    at: usize,
) -> Result<(Report, &'b str), AllocError>
    requires { IsValidUpTo bytes.now at }
    ensures report { IfOk result (λ made. report_content made.0 ≡ spec.not_utf8_report bytes.now at) }
    ensures text { IfOk result (λ made. made.1.now ≡ take at bytes.now) }
{
    let report = not_utf8_report(alloc, bytes, at)?;
    Ok((report, front_of(bytes, at)))
}
