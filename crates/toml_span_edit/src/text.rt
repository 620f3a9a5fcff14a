//! Texts that are written piece by piece.
ghost use Rattle.std.specs.Prelude.{◌≡◌, ◌++◌, IfOk, string_bytes};

use std::alloc::{AllocError, Global};

/// Returns three texts, one after the other.
pub(crate) fn joined(alloc: Global, one: &str, two: &str, three: &str) -> Result<String, AllocError>
    ensures { IfOk result (λ text. string_bytes text ≡ one.now ++ (two.now ++ three.now)) }
{
    let mut text = String::from_str(alloc, one)?;
    text.push_str(two)?;
    text.push_str(three)?;
    Ok(text)
}

/// A text that is written piece by piece. It remembers whether an allocation failed, so that only `finish` fails.
#[derive(Drop)]
pub(crate) struct Text {
    text: String,
    is_refused: bool,
}

impl Text {
    pub(crate) fn new(alloc: Global) -> Text {
        Text {
            text: String::new(alloc),
            is_refused: false,
        }
    }

    pub(crate) fn push(&mut self, piece: &str) {
        self.is_refused |= self.text.push_str(piece).is_err();
    }

    /// Appends three pieces.
    pub(crate) fn push_all(&mut self, one: &str, two: &str, three: &str) {
        self.push(one);
        self.push(two);
        self.push(three);
    }

    /// Returns the length in bytes.
    pub(crate) fn len(&self) -> usize {
        self.text.len()
    }

    /// Returns the text. Fails if an allocation failed.
    pub(crate) fn finish(self) -> Result<String, AllocError> {
        let Text { text, is_refused } = self;
        if is_refused {
            Err(AllocError)
        } else {
            Ok(text)
        }
    }
}
