//! The program `toml_span_show`: reads TOML, and prints the tree or the error.
ghost use Rattle.std.specs.Prelude.{◌≡◌, ◌≤◌, IfOk, IfErr, false};
ghost use Rattle.toml_span_lines.specs.Run.{HasReadAll, HasCut, Runs, WritesOut, IsAnswer, IsShown};
ghost use Rattle.toml_span_read.specs.Data.{depth_limit};

use crate::lines::{error_line, tree_lines};
use crate::sink::Sink;
use crate::source::Source;
use std::alloc::{AllocError, Global};
use std::io;
use toml_span::Stop;
use toml_span::de::parse_with_limit;

/// The maximum length of the input, in bytes.
pub const BOUND: usize = 16_777_216;

/// The limit of `run` on the depth of values and on the number of parts of a key.
const LIMIT: usize = 128;

/// Why `read_bytes` failed.
#[derive(Clone, Copy, Drop)]
pub enum Cut {
    /// An allocation failed.
    Memory,
    /// A read failed.
    Failed(io::Error),
}

/// Reads the whole input or, if it is longer than `BOUND`, its first `BOUND + 1` bytes. Fails if a read or an
/// allocation fails; the bytes read so far are then lost. No earlier read may have failed.
pub fn read_bytes<R: Source>(alloc: Global, reader: &mut R) -> Result<Vec<u8>, Cut>
    requires { R.failed reader.old ≡ false }
    ensures ok { IfOk result (λ v. HasReadAll (R.remaining reader.old) (R.remaining reader.new) v.items
        × (R.failed reader.new ≡ false)) }
    ensures err { IfErr result (λ c. HasCut (R.remaining reader.old) (R.remaining reader.new) (R.failed reader.new) c) }
{
    let mut bytes = Vec::new(alloc);
    let mut buf = [0u8; 8192];
    while bytes.len() < BOUND + 1 {
        let room = buf.len().min(BOUND + 1 - bytes.len());
        match reader.read(&mut buf[..room]) {
            Ok(0) => return Ok(bytes),
            Ok(n) => {
                if bytes.extend_from_slice(&buf[..n]).is_err() {
                    return Err(Cut::Memory);
                }
            }
            Err(error) => return Err(Cut::Failed(error)),
        }
    }
    Ok(bytes)
}

/// Writes the bytes of `text`, until a write fails. Returns whether all bytes were written. No earlier write may have
/// failed.
pub fn write_bytes<W: Sink>(writer: &mut W, text: &[u8]) -> bool
    requires { W.failed writer.old ≡ false }
    ensures { WritesOut (W.contents writer.old) (W.contents writer.new) text.now (W.failed writer.new) result }
{
    let mut at = 0;
    while at < text.len() {
        match writer.write(&text[at..]) {
            Ok(0) => return false,
            Ok(n) => at += n,
            Err(_) => return false,
        }
    }
    true
}

/// Returns the exit status and the output for a text: 0 and the lines of its tree, or 1 and the line of its error.
/// `limit` is the limit on the depth of values and on the number of parts of a key.
fn answer_text(alloc: Global, text: &str, limit: usize) -> Result<(u8, Vec<u8>), AllocError>
    requires some { 1 ≤ limit }
    requires small { limit ≤ depth_limit }
    ensures { IfOk result (λ a. IsShown text.now limit a.0 a.1.items) }
{
    match parse_with_limit(alloc, text, limit) {
        Ok(root) => Ok((0, tree_lines(alloc, &root)?)),
        Err(Stop::Fault(error)) => Ok((1, error_line(alloc, &error)?)),
        Err(Stop::Memory(error)) => Err(error),
    }
}

/// Returns the exit status and the output for an input. Returns 2 and a line that says so if the input is longer than
/// `BOUND` or not valid UTF-8, otherwise what `answer_text` returns. `limit` is the limit on the depth of values and on
/// the number of parts of a key.
fn answer(alloc: Global, bytes: &[u8], limit: usize) -> Result<(u8, Vec<u8>), AllocError>
    requires some { 1 ≤ limit }
    requires small { limit ≤ depth_limit }
    ensures { IfOk result (λ a. IsAnswer bytes.now limit a.0 a.1.items) }
{
    if bytes.len() > BOUND {
        return Ok((2, Vec::from_slice(alloc, b"error too-long\n")?));
    }
    match str::from_utf8(bytes) {
        Ok(text) => answer_text(alloc, text, limit),
        Err(_) => Ok((2, Vec::from_slice(alloc, b"error not-utf-8\n")?)),
    }
}

/// Reads TOML, and prints the lines of its tree, or the line of its error. `limit` is the limit on the depth of values
/// and on the number of parts of a key, and must be from 1 to 128. No read or write may have failed before.
///
/// Returns the exit status:
///
/// - 0: the tree was printed;
/// - 1: the error was printed;
/// - 2: the input is longer than `BOUND`, or not valid UTF-8, and a line that says so was printed;
/// - 3: a read failed, and nothing was printed, or a write failed, and a prefix of the output was printed;
/// - 4: an allocation failed, and nothing was printed.
pub fn run_with_limit<R: Source, W: Sink>(
    alloc: Global,
    limit: usize,
    reader: &mut R,
    writer: &mut W,
) -> u8
    requires some { 1 ≤ limit }
    requires small { limit ≤ depth_limit }
    requires reader { R.failed reader.old ≡ false }
    requires writer { W.failed writer.old ≡ false }
    ensures { Runs limit (R.remaining reader.old) (R.remaining reader.new) (R.failed reader.new)
        (W.contents writer.old) (W.contents writer.new) (W.failed writer.new) result }
{
    let bytes = match read_bytes(alloc, reader) {
        Ok(bytes) => bytes,
        Err(Cut::Failed(_)) => return 3,
        Err(Cut::Memory) => return 4,
    };
    let Ok((status, text)) = answer(alloc, bytes.as_slice(), limit) else {
        return 4;
    };
    if write_bytes(writer, text.as_slice()) {
        status
    } else {
        3
    }
}

/// Does the same as `run_with_limit` with the limit 128.
pub fn run<R: Source, W: Sink>(alloc: Global, reader: &mut R, writer: &mut W) -> u8
    requires reader { R.failed reader.old ≡ false }
    requires writer { W.failed writer.old ≡ false }
    ensures { Runs depth_limit (R.remaining reader.old) (R.remaining reader.new) (R.failed reader.new)
        (W.contents writer.old) (W.contents writer.new) (W.failed writer.new) result }
{
    run_with_limit(alloc, LIMIT, reader, writer)
}
