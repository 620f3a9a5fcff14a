//! The calls that describe errors, and functions that write a text to the caller's array.
ghost use Rattle.std.specs.Prelude.{◌≡◌, ◌≢◌, ℕ, List, IsUtf8};
ghost use Rattle.toml_span_tree.specs.Message.{display_text};
ghost use Rattle.toml_span_mistakes.specs.Errors.{IsReport};
ghost use Rattle.toml_span_report.specs.declared.colours.Style.TheVariants.{Plain};
ghost use Rattle.toml_span_c.specs.Calls.{Fills, Holds, IsDocument, IsInvalid, IsStatus};
ghost use Rattle.toml_span_c.specs.Faults as spec;

use crate::answer::{Answer, answer_to};
use crate::faults::code_name;
use std::alloc::Global;
use toml_span_mistakes::{Style, render_error};

/// Writes as much of the text to `out` as fits, and sets `length` to the length of the whole text.
pub(crate) fn put_front(out: &mut [u8], length: &mut usize, text: &str)
    ensures { Fills out.old out.new length.new text.now }
{
    let bytes = text.as_bytes();
    let room = out.len().min(bytes.len());
    out[..room].copy_from_slice(&bytes[..room]);
    *length = bytes.len();
}

/// Writes the text to `out` if the whole text fits, and sets `length` to the length of the text.
pub(crate) fn put_whole(out: &mut [u8], length: &mut usize, text: &str)
    ensures { Holds out.old out.new length.new text.now }
{
    if text.len() <= out.len() {
        put_front(out, length, text);
    } else {
        *length = text.len();
    }
}

/// Writes as much of the name of a kind of error, such as `duplicate-key`, to `out` as fits. Sets `length` to the
/// length of the whole name. `code` is the number of the kind; the name is empty for an unknown number.
#[unsafe(no_mangle)]
pub extern "C" fn toml_span_code(code: u32, out: &mut [u8], length: &mut usize)
    ensures { Fills out.old out.new length.new (spec.code_name code) }
{
    put_front(out, length, code_name(code));
}

/// Writes as much of the message of a document's error to `out` as fits, and sets `length` to the length of the whole
/// message. Returns a status as `toml_span_parse` does. If the status is not 1, `out` and `length` are unchanged.
#[unsafe(no_mangle)]
pub extern "C" fn toml_span_message(
    alloc: Global,
    text: &[u8],
    out: &mut [u8],
    length: &mut usize,
) -> u32
    ensures status { IsStatus text.now result }
    ensures read { result ≡ 0 → IsDocument text.now }
    ensures faulty { result ≡ 1
        → IsInvalid text.now (λ error. Fills out.old out.new length.new (display_text error.kind)) }
    ensures kept { result ≢ 1 → (out.new ≡ out.old) × (length.new ≡ length.old) }
{
    match answer_to(alloc, text) {
        Answer::Tree(_, _) => 0,
        Answer::Fault(_text, error) => match error.to_string(alloc) {
            Ok(message) => {
                put_front(out, length, message.as_str());
                1
            }
            Err(_) => 4,
        },
        Answer::Unread => 2,
        Answer::Memory => 4,
    }
}

/// Writes as much of the report on a document's error to `out` as fits, and sets `length` to the length of the whole
/// report. The report has source lines and marks. `name` is the name of the file.
///
/// Returns a status as `toml_span_parse` does, and 2 also if `name` is not valid UTF-8. If the status is not 1, `out`
/// and `length` are unchanged.
#[unsafe(no_mangle)]
pub extern "C" fn toml_span_report(
    alloc: Global,
    text: &[u8],
    name: &[u8],
    out: &mut [u8],
    length: &mut usize,
) -> u32
    ensures status { IsUtf8 name.now → IsStatus text.now result }
    ensures name { ¬ IsUtf8 name.now → result ≡ 2 }
    ensures read { result ≡ 0 → IsDocument text.now }
    ensures faulty { result ≡ 1 → IsInvalid text.now (λ error. (report : List ℕ)
        × IsReport Plain name.now text.now error report × Fills out.old out.new length.new report) }
    ensures kept { result ≢ 1 → (out.new ≡ out.old) × (length.new ≡ length.old) }
{
    let Ok(name) = str::from_utf8(name) else {
        return 2;
    };
    match answer_to(alloc, text) {
        Answer::Tree(_, _) => 0,
        Answer::Fault(text, error) => match render_error(alloc, Style::Plain, &error, name, text) {
            Ok(report) => {
                put_front(out, length, report.as_str());
                1
            }
            Err(_) => 4,
        },
        Answer::Unread => 2,
        Answer::Memory => 4,
    }
}
