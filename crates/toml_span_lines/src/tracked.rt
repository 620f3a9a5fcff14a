//! Adapts the readers and writers of std to `Source` and `Sink`.
ghost use Rattle.std.specs.Prelude.{◌≡◌, false};
ghost use Rattle.std.specs.Io.{ReadsAtMost, WritesAtMost};
ghost use Rattle.std.specs.Io.KnownBytes.{ReadConsumes, WriteAppends};

use crate::sink::Sink;
use crate::source::Source;
use std::io;
use std::io::{ErrorKind, Read, Write};

/// A reader or writer of std that records whether a call has failed. It repeats a call that a signal interrupts.
#[derive(Drop)]
pub struct Tracked<T> {
    inner: T,
    failed: bool,
}

impl<T> Tracked<T> {
    /// Wraps a reader or writer. No failure is recorded yet.
    pub fn new(inner: T) -> Self
        ensures inner { result.inner ≡ inner }
        ensures failed { result.failed ≡ false }
    {
        Tracked {
            inner,
            failed: false,
        }
    }

    /// Returns the wrapped reader or writer.
    pub fn into_inner(self) -> T
        ensures { result ≡ self.inner }
    {
        let Tracked { inner, failed: _ } = self;
        inner
    }
}

/// Reads once. Repeats the call as long as a signal interrupts it.
fn read_again<R: Read>(reader: &mut R, buf: &mut [u8]) -> io::Result<usize>
    ensures bound { ReadsAtMost result buf.new }
    ensures bytes { ReadConsumes (R.remaining reader.old) (R.remaining reader.new) result buf.new }
{
    for _ in 0..u64::MAX {
        match reader.read(buf) {
            Err(error) if error.kind() == ErrorKind::Interrupted => {}
            result => return result,
        }
    }
    Err(io::Error::from(ErrorKind::Interrupted))
}

/// Writes once. Repeats the call as long as a signal interrupts it.
fn write_again<W: Write>(writer: &mut W, buf: &[u8]) -> io::Result<usize>
    ensures bound { WritesAtMost result buf.now }
    ensures bytes { WriteAppends (W.contents writer.old) (W.contents writer.new) result buf.now }
{
    for _ in 0..u64::MAX {
        match writer.write(buf) {
            Err(error) if error.kind() == ErrorKind::Interrupted => {}
            result => return result,
        }
    }
    Err(io::Error::from(ErrorKind::Interrupted))
}

impl<T: Read> Source for Tracked<T> {
    ghost remaining = { λ t. T.remaining t.inner };

    ghost failed = { λ t. t.failed };

    fn read(&mut self, buf: &mut [u8]) -> io::Result<usize> {
        let result = read_again(&mut self.inner, buf);
        if result.is_err() {
            self.failed = true;
        }
        result
    }

    fn has_failed(&self) -> bool {
        self.failed
    }
}

impl<T: Write> Sink for Tracked<T> {
    ghost contents = { λ t. T.contents t.inner };

    ghost failed = { λ t. t.failed };

    fn write(&mut self, buf: &[u8]) -> io::Result<usize> {
        match write_again(&mut self.inner, buf) {
            Ok(n) => {
                if n == 0 && !buf.is_empty() {
                    self.failed = true;
                }
                Ok(n)
            }
            Err(error) => {
                self.failed = true;
                Err(error)
            }
        }
    }

    fn has_failed(&self) -> bool {
        self.failed
    }
}
