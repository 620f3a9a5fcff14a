//! Writers that record failures.
ghost use Rattle.std.specs.Prelude.{◌≡◌, ℕ, Bool, List, Option};
ghost use Rattle.std.specs.Io.{WritesAtMost};
ghost use Rattle.std.specs.Io.KnownBytes.{WriteAppends};
ghost use Rattle.toml_span_lines.specs.Ends.{after_write};

use std::io;

/// A writer that records whether a write has failed.
pub trait Sink {
    /// The bytes written so far, if they are known.
    ghost contents: { Self → Option (List ℕ) };

    /// Whether a write has failed: it returned an error, or accepted no byte of a buffer that was not empty.
    ghost failed: { Self → Bool };

    /// Writes bytes from the front of the buffer, and returns how many were written. A write fails if it returns an
    /// error, or accepts no byte of a buffer that is not empty; from then on, `has_failed` returns `true`.
    fn write(&mut self, buf: &[u8]) -> io::Result<usize>
        ensures bound { WritesAtMost result buf.now }
        ensures bytes { WriteAppends (contents self.old) (contents self.new) result buf.now }
        ensures failed_after { failed self.new ≡ after_write (failed self.old) result buf.now };

    /// Returns whether any write so far has failed.
    fn has_failed(&self) -> bool
        ensures { result ≡ failed self.now };
}
