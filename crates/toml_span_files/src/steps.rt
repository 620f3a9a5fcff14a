//! The steps by which a file is edited.
ghost use Rattle.std.specs.Prelude.{◌≡◌, IfOk, OnErr, OnOk};
ghost use Rattle.toml_span_files.specs.Past.{Past, IsReplaceable, with_lock, with_ready, with_replaced, with_seen, without_lock};

use crate::failure::Failure;

/// A file that can be read and replaced step by step. An edit calls `begin`, `read`, `prepare`, `read` again, and
/// `replace`. It may stop after any of these steps. At the end it calls `discard`.
pub trait Steps {
    /// Whether the file is locked, whether it has been read since the new text was prepared, and what has been read,
    /// prepared and replaced so far, if that is known.
    ghost past: { Self → Past };

    /// Locks the file against other runs, and creates the file that will hold the new text, if one is needed. Fails if
    /// that is not possible, or if the file must not be edited.
    fn begin(&mut self) -> Result<(), Failure>
        ensures locked { OnOk result (past self.new ≡ with_lock (past self.old)) }
        ensures err { OnErr result (past self.new ≡ past self.old) };

    /// Returns the bytes of the file as they are now. If the file is longer than `LIMIT`, the result may be only its
    /// beginning, which is then longer than `LIMIT`. Fails if the file can't be read.
    fn read(&mut self) -> Result<Vec<u8>, Failure>
        ensures bytes { IfOk result (λ bytes. past self.new ≡ with_seen bytes.items (past self.old)) }
        ensures err { OnErr result (past self.new ≡ past self.old) };

    /// Stores the new text, which `replace` will use. The file stays as it is. Fails if the text can't be stored.
    fn prepare(&mut self, text: &[u8]) -> Result<(), Failure>
        ensures ready { OnOk result (past self.new ≡ with_ready text.now (past self.old)) }
        ensures err { OnErr result (past self.new ≡ past self.old) };

    /// Replaces the content of the file with the text of `prepare`. The file must be locked, and must have been read
    /// since `prepare`, so that a change by another program is noticed. Fails if the file can't be replaced.
    fn replace(&mut self) -> Result<(), Failure>
        requires replaceable { IsReplaceable (past self.old) }
        ensures replaced { OnOk result (past self.new ≡ with_replaced (past self.old)) }
        ensures err { OnErr result (past self.new ≡ past self.old) };

    /// Removes the file that `begin` has created, if it still exists, and unlocks the edited file.
    fn discard(&mut self)
        ensures { past self.new ≡ without_lock (past self.old) };
}
