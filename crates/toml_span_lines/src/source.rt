//! Readers that record failures.
ghost use Rattle.std.specs.Prelude.{◌≡◌, ℕ, Bool, List, Option};
ghost use Rattle.std.specs.Io.{ReadsAtMost};
ghost use Rattle.std.specs.Io.KnownBytes.{ReadConsumes};
ghost use Rattle.toml_span_lines.specs.Ends.{after_read};

use std::io;

/// A reader that records whether a read has failed.
pub trait Source {
    /// The bytes that are left to read, if they are known.
    ghost remaining: { Self → Option (List ℕ) };

    /// Whether a read has returned an error.
    ghost failed: { Self → Bool };

    /// Reads bytes into the front of the buffer, and returns how many were read. 0 means the end of the input, unless
    /// the buffer is empty. Once a read has returned an error, `has_failed` returns `true`.
    fn read(&mut self, buf: &mut [u8]) -> io::Result<usize>
        ensures bound { ReadsAtMost result buf.new }
        ensures bytes { ReadConsumes (remaining self.old) (remaining self.new) result buf.new }
        ensures failed_after { failed self.new ≡ after_read (failed self.old) result };

    /// Returns whether any read so far has returned an error.
    fn has_failed(&self) -> bool
        ensures { result ≡ failed self.now };
}
