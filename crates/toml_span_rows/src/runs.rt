//! The call `run`, which runs the program `toml_span_show` on a reader and a writer in memory.
//!
//! `run LIMIT WORD ..` calls `run` if the limit is 128, otherwise `run_with_limit`, and prints the status and the
//! output. In this run, `each` is 0. If the last word ends in `=each`, it then runs again with 1, 2 and so on in place
//! of `each`, until the status of a run is not 3. For each of these runs, it prints a line with the status, and the
//! numbers of bytes and calls for reads and for writes.
//!
//! | Word | Meaning |
//! |---|---|
//! | `read=N`, `write=N` | the maximum number of bytes per read or write |
//! | `fail_read=K`, `fail_write=K` | which call fails, counted from 1 |
//! | `take_nothing=K` | which write accepts no bytes |
//! | `again=each` | the reader begins the text again at its end, so that the input is endless |

use crate::Row;
use crate::output::Out;
use crate::trees::limit_of;
use std::alloc::Global;
use std::io;
use std::io::{ErrorKind, Read, Write};
use toml_span_lines::run::{run, run_with_limit};
use toml_span_lines::tracked::Tracked;

/// The behavior of the reader and the writer of a run. Calls are counted from 1; 0 means none.
#[derive(Clone, Copy)]
struct Ends {
    read: usize,
    write: usize,
    fail_read: usize,
    fail_write: usize,
    take_nothing: usize,
    again: bool,
}

impl Ends {
    /// Sets the field that `word` names. If `word` ends in `=each`, the number is `each`. Returns `None` if `word`
    /// can't be read.
    fn set(&mut self, word: &str, each: usize) -> Option<()> {
        let (name, number) = word.split_once('=')?;
        let number = match number {
            "each" => each,
            digits => digits.parse::<usize>().ok()?,
        };
        match name {
            "read" => self.read = number,
            "write" => self.write = number,
            "fail_read" => self.fail_read = number,
            "fail_write" => self.fail_write = number,
            "take_nothing" => self.take_nothing = number,
            "again" => self.again = true,
            _ => return None,
        }
        Some(())
    }
}

/// Returns the behavior that `words` describe, or `None` if a word can't be read. In a word that ends in `=each`, the
/// number is `each`.
fn ends_of(words: &[String], each: usize) -> Option<Ends> {
    let mut ends = Ends {
        read: usize::MAX,
        write: usize::MAX,
        fail_read: 0,
        fail_write: 0,
        take_nothing: 0,
        again: false,
    };
    for word in words {
        ends.set(word.as_str(), each)?;
    }
    Some(ends)
}

/// A reader of bytes in memory.
#[derive(Drop)]
struct Given<'b> {
    bytes: &'b [u8],
    left: &'b [u8],
    ends: Ends,
    calls: usize,
    /// The number of bytes read so far.
    given: usize,
}

impl Read for Given<'_> {
    fn read(&mut self, buf: &mut [u8]) -> io::Result<usize> {
        self.calls = self.calls.saturating_add(1);
        if self.calls == self.ends.fail_read {
            return Err(io::Error::from(ErrorKind::Other));
        }
        if self.ends.again && self.left.is_empty() {
            self.left = self.bytes;
        }
        let room = buf.len().min(self.ends.read);
        let given = self.left.read(&mut buf[..room])?;
        self.given = self.given.saturating_add(given);
        Ok(given)
    }
}

/// A writer into memory.
#[derive(Drop)]
struct Taken {
    bytes: Vec<u8>,
    ends: Ends,
    calls: usize,
}

impl Write for Taken {
    fn write(&mut self, buf: &[u8]) -> io::Result<usize> {
        self.calls = self.calls.saturating_add(1);
        if self.calls == self.ends.fail_write {
            return Err(io::Error::from(ErrorKind::Other));
        }
        if self.calls == self.ends.take_nothing {
            return Ok(0);
        }
        let room = buf.len().min(self.ends.write);
        self.bytes.write(&buf[..room])
    }

    fn flush(&mut self) -> io::Result<()> {
        Ok(())
    }
}

/// A run that has ended.
#[derive(Drop)]
struct Ended<'b> {
    status: u8,
    reader: Given<'b>,
    writer: Taken,
}

/// Runs the program on these bytes. `limit` is the depth limit.
fn run_on(alloc: Global, limit: usize, bytes: &[u8], ends: Ends) -> Ended<'_> {
    let mut reader = Tracked::new(Given {
        bytes,
        left: bytes,
        ends,
        calls: 0,
        given: 0,
    });
    let mut writer = Tracked::new(Taken {
        bytes: Vec::new(alloc),
        ends,
        calls: 0,
    });
    let status = if limit == 128 {
        run(alloc, &mut reader, &mut writer)
    } else {
        run_with_limit(alloc, limit, &mut reader, &mut writer)
    };
    Ended {
        status,
        reader: reader.into_inner(),
        writer: writer.into_inner(),
    }
}

/// Prints the status of a run, and its numbers of bytes and calls. If the output of the run is not a prefix of `whole`,
/// prints this output instead.
fn push_front(ended: &Ended<'_>, whole: &[u8], out: &mut Out) {
    let bytes = ended.writer.bytes.as_slice();
    if !whole.starts_with(bytes) {
        return out.debug_line(bytes);
    }
    let counts = [
        (usize::from(ended.status), ", "),
        (ended.reader.given, " bytes in "),
        (ended.reader.calls, " reads, "),
        (bytes.len(), " bytes in "),
        (ended.writer.calls, " writes\n"),
    ];
    out.push_str("status ");
    for (count, of) in counts {
        out.debug(count);
        out.push_str(of);
    }
}

/// Runs the program with 1, 2 and so on in place of `each` in `words`, and prints a line for each run. Stops after the
/// first run with a status other than 3. `whole` is the run with 0 in place of `each`.
fn push_each(alloc: Global, limit: usize, words: &[String], whole: &Ended<'_>, out: &mut Out) {
    for call in 1..usize::MAX {
        let Some(ends) = ends_of(words, call) else {
            return;
        };
        let cut = run_on(alloc, limit, whole.reader.bytes, ends);
        push_front(&cut, whole.writer.bytes.as_slice(), out);
        if cut.status != 3 {
            return;
        }
    }
}

/// Prints the answer to a row. Returns `false` if the row's call is not `run`, or if a word of the row is wrong.
pub fn answer(alloc: Global, row: Row<'_>, out: &mut Out) -> bool {
    if row.call != "run" {
        return false;
    }
    let words = row.words.get(1..).unwrap_or(&[]);
    let (Some(limit), Some(ends)) = (limit_of(row), ends_of(words, 0)) else {
        return false;
    };
    let whole = run_on(alloc, limit, row.text.as_bytes(), ends);
    out.push_str("status ");
    out.debug_line(whole.status);
    out.push_str(str::from_utf8(whole.writer.bytes.as_slice()).unwrap_or("no text"));
    if row
        .word(row.words.len().saturating_sub(1))
        .ends_with("=each")
    {
        push_each(alloc, limit, words, &whole, out);
    }
    true
}
