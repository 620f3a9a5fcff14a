//! Frames: headers, an empty line, and the content (LSP 3.17, Base Protocol).
ghost use Rattle.std.specs.Prelude.{◌≡◌, ◌≢◌, ◌+◌, ◌<◌, ◌^◌, ◌++◌, ◌≤◌, IfSome, List, OnOk, Some, codes, length, take};
ghost use Rattle.std.specs.Prelude.{ℕ};
ghost use Rattle.std.specs.List.{All};
ghost use Rattle.toml_span_lsp.specs.Frames as spec;
ghost use Rattle.toml_span_lsp.specs.Frames.{IsShort};
ghost use Rattle.toml_span_lsp.specs.Served.{AreHeaders, Fits, IsFramed};

use std::alloc::AllocError;
use std::fmt::Write;

/// The maximum length of a frame's content, in bytes.
pub const LIMIT: usize = 67_108_864;

/// The maximum length of a frame's headers, in bytes.
const HEADERS: usize = 8192;

/// What is wrong with a frame.
#[derive(Clone, Copy)]
pub enum FrameFault {
    /// The headers are longer than 8 KiB, or are not valid UTF-8.
    Headers,
    /// There is no header `Content-Length`, or its value is not a number or too large.
    Length,
}

/// The result of reading a frame at the start of the bytes.
#[derive(Clone, Copy)]
pub enum Framed {
    /// The whole frame is there. Its content is from `start` to `end`, the end exclusive.
    Whole { start: usize, end: usize },
    /// The content is longer than `LIMIT`, and ends at the offset `end`, which may be past the bytes.
    TooLong { end: usize },
    /// Only a part of the frame is there: more bytes are needed.
    Part,
    /// The bytes don't begin with a frame.
    Fault(FrameFault),
}

/// Returns the offset after the empty line that ends the headers, or `None` if this line does not end in the first 8
/// KiB.
fn headers_end(bytes: &[u8]) -> Option<usize>
    ensures within { IfSome result (λ end. end ≤ length bytes.now) }
    ensures first { (head more rest : List ℕ) → All (λ b. b ≢ 13) head → length head + 4 ≤ 8192
        → bytes.now ++ more ≡ head ++ (codes "\r\n\r\n" ++ rest)
        → result ≡ spec.end_of_headers (length head + 4) (length bytes.now) }
    ensures headers { IfSome result (λ end. AreHeaders (take end bytes.now)) }
{
    let most = bytes.len().min(HEADERS);
    for at in 3..most {
        let rest = &bytes[at - 3..];
        if rest.starts_with(b"\r\n\r\n") {
            return Some(at + 1);
        }
    }
    None
}

/// Returns the value of the header `Content-Length` if it is the only header, written as `push_frame` writes it. `None`
/// only means that the headers have another form.
fn plain_length(headers: &str) -> Option<usize>
    ensures { (n : ℕ) → n < 2 ^ 64 → headers.now ≡ spec.head_of n → result ≡ Some n }
{
    let value = headers.strip_prefix("Content-Length: ")?;
    value.strip_suffix("\r\n\r\n")?.parse().ok()
}

/// Returns the value of the last header `Content-Length`, or `None` if the header is missing or its value is not a
/// number.
fn last_length(headers: &str) -> Option<usize> {
    let mut found = None;
    for line in headers.split("\r\n") {
        if let Some((name, value)) = line.split_once(':') {
            if name.trim_ascii().eq_ignore_ascii_case("content-length") {
                found = value.trim_ascii().parse::<usize>().ok();
            }
        }
    }
    found
}

/// Returns the value of the header `Content-Length`, or `None` if the header is missing or its value is not a number.
fn length_in(headers: &str) -> Option<usize>
    ensures { (n : ℕ) → n < 2 ^ 64 → headers.now ≡ spec.head_of n → result ≡ Some n }
{
    match plain_length(headers) {
        Some(length) => Some(length),
        None => last_length(headers),
    }
}

/// Returns the frame whose content begins at `start` and has `count` bytes. Returns `Part` if the bytes end before the
/// content does, and a fault if no offset is that large.
fn content(bytes: &[u8], start: usize, count: usize) -> Framed
    ensures frame { count ≤ spec.limit → start ≤ 8192
        → result ≡ spec.framed_at start (start + count) (length bytes.now) }
    ensures fits { Fits start count (length bytes.now) result }
{
    let Some(end) = start.checked_add(count) else {
        return Framed::Fault(FrameFault::Length);
    };
    if count > LIMIT {
        return Framed::TooLong { end };
    }
    if end > bytes.len() {
        Framed::Part
    } else {
        Framed::Whole { start, end }
    }
}

/// Reads the frame at the start of the bytes, whose headers end at `start`.
fn frame_after(bytes: &[u8], start: usize) -> Framed
    requires within { start ≤ length bytes.now }
    requires headers { AreHeaders (take start bytes.now) }
    ensures frame { (content more rest : List ℕ) → IsShort content → bytes.now ++ more ≡ spec.frame_of content ++ rest
        → start ≡ length (spec.head_of (length content)) → result ≡ spec.framed content (length bytes.now) }
    ensures framed { IsFramed bytes.now result }
{
    let headers = &bytes[..start];
    let Ok(headers) = str::from_utf8(headers) else {
        return Framed::Fault(FrameFault::Headers);
    };
    match length_in(headers) {
        Some(length) => content(bytes, start, length),
        None => Framed::Fault(FrameFault::Length),
    }
}

/// Reads the frame at the start of the bytes.
pub fn frame(bytes: &[u8]) -> Framed
    ensures frame { (content more rest : List ℕ) → IsShort content → bytes.now ++ more ≡ spec.frame_of content ++ rest
        → result ≡ spec.framed content (length bytes.now) }
    ensures framed { IsFramed bytes.now result }
{
    match headers_end(bytes) {
        Some(start) => frame_after(bytes, start),
        None if bytes.len() < HEADERS => Framed::Part,
        None => Framed::Fault(FrameFault::Headers),
    }
}

/// Appends a frame with this content to `out`. Fails if an allocation fails.
pub fn push_frame(out: &mut Vec<u8>, content: &[u8]) -> Result<(), AllocError>
    ensures { OnOk result (out.new.items ≡ out.old.items ++ spec.frame_of content.now) }
{
    let mut head = String::from_str(*out.allocator(), "Content-Length: ")?;
    let length = content.len();
    write!(head, "{length}")?;
    head.push_str("\r\n\r\n")?;
    out.extend_from_slice(head.as_bytes())?;
    out.extend_from_slice(content)?;
    Ok(())
}
