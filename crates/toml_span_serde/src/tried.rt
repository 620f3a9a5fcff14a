//! Records failed attempts to read a piece, such as the attempts to read each variant of an `untagged` enum.
ghost use Rattle.std.specs.List.{list_any};
ghost use Rattle.std.specs.Prelude.{◌≡◌, [], false, OnErr, OnOk};
ghost use Rattle.std.specs.Str.{bytes_eq};
ghost use Rattle.toml_span_serde.specs.Misfits.{words_of};
ghost use Rattle.toml_span_serde.specs.Tried.{is_among, kinds_at, missed, noted_read, tries, with_kind};

use crate::misfit::Expected;
use std::alloc::{AllocError, Global};

/// The failed attempts to read one piece.
#[derive(Drop)]
pub(crate) struct Tried {
    /// The position of the piece among all pieces, counted from 0.
    at: usize,
    /// Whether an attempt has read the piece, and failed after that.
    is_read: bool,
    /// The kinds that other attempts expected, each once.
    kinds: Vec<Expected>,
}

impl Tried {
    /// Returns a record of no attempts.
    pub(crate) fn new(alloc: Global) -> Tried
        ensures { tries result ≡ record { at = 0; is_read = false; kinds = [] } }
    {
        Tried {
            at: 0,
            is_read: false,
            kinds: Vec::new(alloc),
        }
    }

    /// Records an attempt that expected the kind `expected` at the position `at`. Forgets attempts at any other
    /// position.
    pub(crate) fn miss(&mut self, at: usize, expected: Expected) -> Result<(), AllocError>
        ensures { OnOk result (tries self.new ≡ missed at expected (tries self.old)) }
    {
        if self.at == at {
            return self.add(expected);
        }
        self.at = at;
        self.is_read = false;
        self.kinds.clear();
        self.kinds.push(expected)?;
        Ok(())
    }

    /// Appends `expected` to `kinds`, unless it is there already.
    fn add(&mut self, expected: Expected) -> Result<(), AllocError>
        ensures kinds { OnOk result (self.new.kinds.items ≡ with_kind expected self.old.kinds.items) }
        ensures stays { (self.new.at ≡ self.old.at) × (self.new.is_read ≡ self.old.is_read) }
    {
        if is_among(self.kinds.as_slice(), expected) {
            return Ok(());
        }
        self.kinds.push(expected)?;
        Ok(())
    }

    /// Records an attempt that has read the piece at the position `at`, and failed later. Forgets all other attempts.
    pub(crate) fn note_read(&mut self, at: usize)
        ensures { tries self.new ≡ noted_read at }
    {
        self.at = at;
        self.is_read = true;
        self.kinds.clear();
    }

    /// Returns the kinds that attempts expected at the position `at`. The list is empty if the attempts were at another
    /// position, or if one of them has read the piece.
    pub(crate) fn kinds_at(&self, at: usize) -> &[Expected]
        ensures { result.now ≡ kinds_at at (tries self.now) }
    {
        if self.at == at && !self.is_read {
            self.kinds.as_slice()
        } else {
            &[]
        }
    }
}

/// Returns whether `expected` is among `kinds`.
fn is_among(kinds: &[Expected], expected: Expected) -> bool
    ensures { result ≡ is_among expected kinds.now }
{
    for kind in kinds {
        if kind.words() == expected.words() {
            return true;
        }
    }
    false
}
