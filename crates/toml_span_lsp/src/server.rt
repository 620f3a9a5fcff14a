//! The loop of the server, which reads frames and writes the answers.
ghost use Rattle.std.specs.Prelude.{◌≡◌, ◌-◌, ◌≤◌, Bool, IfNone, IfOk, List, None, Option, Some, [], drop, false};
ghost use Rattle.std.specs.Prelude.{length, take, ℕ};
ghost use Rattle.std.specs.List.{flat_map};
ghost use Rattle.toml_span_lsp.specs.Frames as spec;
ghost use Rattle.toml_span_lsp.specs.Frames.{WritesFront};
ghost use Rattle.toml_span_lsp.specs.Phases.{exit_status};
ghost use Rattle.toml_span_lsp.specs.Served.{BeginsNoFrame, Discards, Ends, Finishes, Handles, IsFramed, Refuses};
ghost use Rattle.toml_span_lsp.specs.Served.{Serves, streams};
ghost use Rattle.toml_span_lsp.specs.declared.frames.Framed.TheVariants.{TooLong, Whole};
ghost use Rattle.toml_span_lsp.specs.declared.state.Phase.{Phase};
ghost use Rattle.toml_span_lsp.specs.declared.state.Phase.TheVariants.{New};

use crate::frames::{FrameFault, Framed, frame, push_frame};
use crate::incoming::Id;
use crate::outgoing::error_response;
use crate::reading::{Around, Reading, TextName, kept_of, reading_of, text_of};
use crate::refusal::INVALID_REQUEST;
use crate::state::Server;
use crate::steps::step_around;
use crate::waiting::next_text;
use std::alloc::{AllocError, Global};
use toml_span_editor::document::read;
use toml_span_lex::span::Span;
use toml_span_lines::run::write_bytes;
use toml_span_lines::sink::Sink;
use toml_span_lines::source::Source;
use toml_span_lookup::disk::Disk;

/// How the server ended.
#[derive(Clone, Copy)]
pub struct Ended {
    /// The exit status: 0 after `shutdown` and `exit`, 1 if the client left without one of them, 2 if the input is not
    /// a sequence of whole frames, 3 if a read or a write failed, or 4 if an allocation failed or 2^64 - 1 steps were
    /// made.
    pub status: u8,
    /// What was wrong, or an empty text.
    pub reason: &'static str,
}

/// Returns an `Ended` with this status and reason.
fn end_with(status: u8, reason: &'static str) -> Ended
    ensures { result.status ≡ status }
{
    Ended { status, reason }
}

/// Returns the bytes of frames with these contents, in order.
fn frames_of(alloc: Global, contents: &[Vec<u8>]) -> Result<Vec<u8>, AllocError>
    ensures { IfOk result (λ out. out.items ≡ flat_map (λ content. spec.frame_of content.items) contents.now) }
{
    let mut out = Vec::new(alloc);
    for content in contents {
        push_frame(&mut out, content.as_slice())?;
    }
    Ok(out)
}

/// Carries out the message whose content is at `span` in `bytes`. `reading` is a document that has been read. Returns
/// the frames to write.
fn answer<D: Disk>(
    alloc: Global,
    server: &mut Server,
    disk: &mut D,
    bytes: &[u8],
    span: Span,
    reading: Option<&Reading<'_>>,
) -> Result<Vec<u8>, AllocError>
    requires start { span.start ≤ span.end }
    requires end { span.end ≤ length bytes.now }
    ensures { IfOk result (λ out. Handles (take (span.end - span.start) (drop span.start bytes.now))
        server.old.phase out.items server.new.phase) }
{
    let around = Around {
        waiting: &bytes[span.end..],
        reading,
    };
    let content = &bytes[span.start..span.end];
    let contents = step_around(alloc, server, disk, content, around)?;
    let out = frames_of(alloc, contents.as_slice())?;
    Ok(out)
}

/// Returns the frame that answers a message which is too long.
fn refusal_frame(alloc: Global) -> Result<Vec<u8>, AllocError>
    ensures { IfOk result (λ out. Refuses out.items) }
{
    let message = "the message is longer than 64 MiB";
    let refusal = error_response(alloc, Id::Null, INVALID_REQUEST, message)?;
    let mut out = Vec::new(alloc);
    push_frame(&mut out, refusal.as_slice())?;
    Ok(out)
}

/// Reads more bytes, and appends them to `bytes`. Returns how the server ends if the input has ended, or if a read or
/// an allocation fails. Otherwise returns `None`.
fn read_more<R: Source>(reader: &mut R, bytes: &mut Vec<u8>) -> Option<Ended>
    requires { BeginsNoFrame bytes.old.items (Some []) }
    ensures { (phase : Phase) (written : Option (List ℕ)) (unwritten : Bool) → exit_status phase ≡ None
        → unwritten ≡ false → Serves result phase bytes.old.items
        (streams (R.remaining reader.old) (R.failed reader.old) written unwritten)
        phase bytes.new.items
        (streams (R.remaining reader.new) (R.failed reader.new) written unwritten) }
{
    let mut buffer = [0u8; 65536];
    match reader.read(&mut buffer) {
        Ok(0) if bytes.is_empty() => Some(end_with(1, "")),
        Ok(0) => Some(end_with(2, "the input ends within a message")),
        Ok(count) => match bytes.extend_from_slice(&buffer[..count]) {
            Ok(()) => None,
            Err(_) => Some(end_with(4, "")),
        },
        Err(_) => Some(end_with(3, "the input can't be read")),
    }
}

/// Reads `count` bytes, and discards them. Returns how the server ends if the input ends before, or if a read fails.
/// Otherwise returns `None`.
fn discard<R: Source>(reader: &mut R, count: usize) -> Option<Ended>
    ensures { Discards result (R.remaining reader.old) (R.remaining reader.new) (R.failed reader.new) count }
{
    let mut buffer = [0u8; 8192];
    let mut left = count;
    'rest: while left > 0 {
        let most = buffer.len().min(left);
        match reader.read(&mut buffer[..most]) {
            Ok(0) => return Some(end_with(2, "the input ends within a message")),
            Ok(read) => left -= read,
            Err(_) => return Some(end_with(3, "the input can't be read")),
        }
    }
    None
}

/// Writes `out`, the answer to the first frame in `bytes`, and removes the frame, which ends at the offset `end`, from
/// `bytes`. Returns how the server ends if the write or an allocation fails. Otherwise returns `None`.
fn finish_frame<W: Sink>(
    alloc: Global,
    bytes: &mut Vec<u8>,
    end: usize,
    out: &[u8],
    writer: &mut W,
) -> Option<Ended>
    requires { W.failed writer.old ≡ false }
    ensures bytes { IfNone result (bytes.new.items ≡ drop end bytes.old.items) }
    ensures writer { Finishes result (W.contents writer.old) (W.contents writer.new) (W.failed writer.new) out.now }
{
    if !write_bytes(writer, out) {
        return Some(end_with(3, "the output can't be written"));
    }
    let Ok(rest) = Vec::from_slice(alloc, bytes.get(end..).unwrap_or(&[])) else {
        return Some(end_with(4, ""));
    };
    *bytes = rest;
    None
}

/// Reads the content of the first frame in `bytes`, which is too long and ends at the offset `end`, without carrying it
/// out, and refuses it. Returns how the server ends, or `None` if the server continues.
fn refuse_frame<R: Source, W: Sink>(
    alloc: Global,
    bytes: &mut Vec<u8>,
    end: usize,
    reader: &mut R,
    writer: &mut W,
) -> Option<Ended>
    requires frame { IsFramed bytes.old.items (TooLong end) }
    requires long { (more : List ℕ) → BeginsNoFrame bytes.old.items (Some more) }
    requires writer { W.failed writer.old ≡ false }
    ensures { (phase : Phase) → exit_status phase ≡ None → Serves result phase bytes.old.items
        (streams (R.remaining reader.old) (R.failed reader.old) (W.contents writer.old) (W.failed writer.old))
        phase bytes.new.items
        (streams (R.remaining reader.new) (R.failed reader.new) (W.contents writer.new) (W.failed writer.new)) }
{
    let Ok(out) = refusal_frame(alloc) else {
        return Some(end_with(4, ""));
    };
    let left = end.saturating_sub(bytes.len());
    if let Some(ended) = discard(reader, left) {
        return Some(ended);
    }
    finish_frame(alloc, bytes, end, out.as_slice(), writer)
}

/// Answers the first frame in `bytes`, whose content is at `span`, and removes the frame from `bytes`. `reading` is a
/// document that has been read. Returns how the server ends, or `None` if the server continues.
fn take_frame<D: Disk, W: Sink>(
    alloc: Global,
    server: &mut Server,
    disk: &mut D,
    bytes: &mut Vec<u8>,
    span: Span,
    reading: Option<&Reading<'_>>,
    writer: &mut W,
) -> Option<Ended>
    requires phase { exit_status server.old.phase ≡ None }
    requires frame { IsFramed bytes.old.items (Whole span.start span.end) }
    requires writer { W.failed writer.old ≡ false }
    ensures { (left : Option (List ℕ)) (unread : Bool) → Serves result server.old.phase bytes.old.items
        (streams left unread (W.contents writer.old) (W.failed writer.old))
        server.new.phase bytes.new.items
        (streams left unread (W.contents writer.new) (W.failed writer.new)) }
{
    let Ok(out) = answer(alloc, server, disk, bytes.as_slice(), span, reading) else {
        return Some(end_with(4, ""));
    };
    if let Some(end) = finish_frame(alloc, bytes, span.end, out.as_slice(), writer) {
        return Some(end);
    }
    match server.exit_status() {
        Some(status) => Some(end_with(status, "")),
        None => None,
    }
}

/// Answers the frame at the start of `bytes` or, if the frame is not complete, reads more bytes. `reading` is a
/// document that has been read. Returns how the server ends, or `None` if the server continues.
fn next<D: Disk, R: Source, W: Sink>(
    alloc: Global,
    server: &mut Server,
    disk: &mut D,
    bytes: &mut Vec<u8>,
    reader: &mut R,
    reading: Option<&Reading<'_>>,
    writer: &mut W,
) -> Option<Ended>
    requires phase { exit_status server.old.phase ≡ None }
    requires writer { W.failed writer.old ≡ false }
    ensures { Serves result server.old.phase bytes.old.items
        (streams (R.remaining reader.old) (R.failed reader.old) (W.contents writer.old) (W.failed writer.old))
        server.new.phase bytes.new.items
        (streams (R.remaining reader.new) (R.failed reader.new) (W.contents writer.new) (W.failed writer.new)) }
{
    match frame(bytes.as_slice()) {
        Framed::Part => read_more(reader, bytes),
        Framed::TooLong { end } => refuse_frame(alloc, bytes, end, reader, writer),
        Framed::Fault(FrameFault::Headers) => {
            Some(end_with(2, "the input does not begin with message headers"))
        }
        Framed::Fault(FrameFault::Length) => Some(end_with(2, "no valid `Content-Length` header")),
        Framed::Whole { start, end } => {
            let span = Span { start, end };
            take_frame(alloc, server, disk, bytes, span, reading, writer)
        }
    }
}

/// Returns whether the text `name` is no longer that of its document, or whether the first request in `bytes` is about
/// another text. Returns true if an allocation fails.
fn is_over(alloc: Global, server: &Server, name: &TextName, bytes: &[u8]) -> bool {
    let is_same = match server.state.documents.get(name.uri.as_str()) {
        Some(open) => open.revision == name.revision,
        None => false,
    };
    match next_text(alloc, server, bytes) {
        Ok(Some(next)) => !is_same || next.revision != name.revision,
        Ok(None) => !is_same,
        Err(_) => true,
    }
}

/// Answers frames until the next one asks about another text than `reading`, or until that text is changed or closed.
/// Returns how the server ends, or `None` if the server continues.
fn answer_all<D: Disk, R: Source, W: Sink>(
    alloc: Global,
    server: &mut Server,
    disk: &mut D,
    bytes: &mut Vec<u8>,
    reader: &mut R,
    reading: &Reading<'_>,
    writer: &mut W,
) -> Option<Ended>
    requires phase { exit_status server.old.phase ≡ None }
    requires writer { W.failed writer.old ≡ false }
    ensures { Serves result server.old.phase bytes.old.items
        (streams (R.remaining reader.old) (R.failed reader.old) (W.contents writer.old) (W.failed writer.old))
        server.new.phase bytes.new.items
        (streams (R.remaining reader.new) (R.failed reader.new) (W.contents writer.new) (W.failed writer.new)) }
{
    'messages: for _ in 0..u64::MAX {
        if is_over(alloc, server, &reading.name, bytes.as_slice()) {
            return None;
        }
        match next(alloc, server, disk, bytes, reader, Some(reading), writer) {
            Some(end) => return Some(end),
            None => {}
        }
    }
    None
}

/// Answers the frame at the start of `bytes` or, if the frame is not complete, reads more bytes. If the frame asks
/// about a document, reads the document, and answers that frame and those after it, as `answer_all` does. Returns how
/// the server ends, or `None` if the server continues.
fn next_reading<D: Disk, R: Source, W: Sink>(
    alloc: Global,
    server: &mut Server,
    disk: &mut D,
    bytes: &mut Vec<u8>,
    reader: &mut R,
    writer: &mut W,
) -> Option<Ended>
    requires phase { exit_status server.old.phase ≡ None }
    requires writer { W.failed writer.old ≡ false }
    ensures { Serves result server.old.phase bytes.old.items
        (streams (R.remaining reader.old) (R.failed reader.old) (W.contents writer.old) (W.failed writer.old))
        server.new.phase bytes.new.items
        (streams (R.remaining reader.new) (R.failed reader.new) (W.contents writer.new) (W.failed writer.new)) }
{
    let Ok(asked) = next_text(alloc, server, bytes.as_slice()) else {
        return Some(end_with(4, ""));
    };
    let Some(name) = asked else {
        return next(alloc, server, disk, bytes, reader, None, writer);
    };
    let Ok(Some(text)) = text_of(&server.state, &name) else {
        return Some(end_with(4, ""));
    };
    let Ok(document) = read(alloc, text.as_str()) else {
        return Some(end_with(4, ""));
    };
    let Ok(kept) = kept_of(alloc, document.as_ref(), text.as_str()) else {
        return Some(end_with(4, ""));
    };
    let (encoding, whole, part) = (server.state.encoding, text.as_str(), kept.as_str());
    let Ok(reading) = reading_of(alloc, encoding, name, whole, document, part) else {
        return Some(end_with(4, ""));
    };
    answer_all(alloc, server, disk, bytes, reader, &reading, writer)
}

/// Runs the server until the client ends it, or until an error occurs. Reads schemas from `disk`. Returns the exit
/// status and the reason. Writes only frames, one after the other; the last frame may be cut off if a write fails.
pub fn serve<D: Disk, R: Source, W: Sink>(
    alloc: Global,
    disk: &mut D,
    reader: &mut R,
    writer: &mut W,
) -> Ended
    requires { W.failed writer.old ≡ false }
    ensures status { result.status ≤ 4 }
    ensures frames { WritesFront (W.contents writer.old) (W.contents writer.new) }
    ensures served { Ends New []
        (streams (R.remaining reader.old) (R.failed reader.old) (W.contents writer.old) (W.failed writer.old))
        (streams (R.remaining reader.new) (R.failed reader.new) (W.contents writer.new) (W.failed writer.new))
        result.status }
{
    let mut server = Server::new(alloc);
    let mut bytes = Vec::new(alloc);
    'messages: for _ in 0..u64::MAX {
        match next_reading(alloc, &mut server, disk, &mut bytes, reader, writer) {
            Some(end) => return end,
            None => {}
        }
    }
    end_with(4, "")
}
