//! A buffer of output that has not been written yet.
ghost use Rattle.std.specs.Prelude.{◌≡◌, false};
ghost use Rattle.toml_span_lines.specs.Held.{Streams};
ghost use Rattle.toml_span_lines.specs.declared.held.Unwritten.TheVariants.{Memory};

use crate::run::write_bytes;
use crate::sink::Sink;
use std::alloc::AllocError;

/// `write_held` writes a buffer that has at least this many bytes.
const MANY: usize = 65_536;

/// Why the output was not written completely.
#[derive(Clone, Copy, PartialEq, Eq, Drop)]
pub enum Unwritten {
    /// An allocation failed.
    Memory,
    /// A write failed.
    Failed,
}

impl From<AllocError> for Unwritten {
    ghost from_gives = { λ _ e. e ≡ Memory };

    fn from(_: AllocError) -> Unwritten {
        Unwritten::Memory
    }
}

/// If the buffer `held` has at least 64 KiB, writes and empties it. Fails if a write fails; a prefix of the buffer has
/// then been written, and `held` is unchanged. No earlier write may have failed.
pub fn write_held<W: Sink>(writer: &mut W, held: &mut Vec<u8>) -> Result<(), Unwritten>
    requires { W.failed writer.old ≡ false }
    ensures { Streams result (W.contents writer.old) (W.contents writer.new) (W.failed writer.new)
        held.old.items held.new.items }
{
    if held.len() < MANY {
        return Ok(());
    }
    if !write_bytes(writer, held.as_slice()) {
        return Err(Unwritten::Failed);
    }
    held.clear();
    Ok(())
}
