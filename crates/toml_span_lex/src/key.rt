//! Keys: names with their spans.
ghost use Rattle.std.specs.Prelude.{◌≡◌, [], Some, IfOk, IsOkAnd};
ghost use Rattle.std.specs.Cow.{cow_str_bytes, IsBorrowedStr};

use crate::span::Span;
use std::alloc::{AllocError, Global};
use std::borrow::CowStr;
use std::fmt;
use std::fmt::{Debug, Display, Formatter, Write};

/// A key: its name and its span. The span of a quoted key covers the text between the quotes or, if the key is empty,
/// the opening quote.
///
/// Keys are compared and ordered by the bytes of their names. Their spans are ignored.
#[derive(Drop)]
#[derive_where(PartialEq, Eq, PartialOrd, Ord)]
pub struct Key<'de> {
    pub name: CowStr<'de>,
    #[derive_where(skip(EqHashOrd))]
    pub span: Span,
}

impl<'de> Key<'de> {
    /// Returns a key with this name and the span 0..0, for looking up an entry of a table.
    pub fn named(name: &'de str) -> Self
        ensures { (cow_str_bytes result.name ≡ name.now) × (result.span ≡ record { start = 0; end = 0 })
            × IsBorrowedStr result.name }
    {
        Self {
            name: CowStr::Borrowed(name),
            span: Span::default(),
        }
    }
}

impl Key<'_> {
    /// Returns a copy of the key. The copy borrows its name if and only if `self` does. Fails if an allocation fails.
    pub fn clone(&self, alloc: Global) -> Result<Self, AllocError>
        ensures name { IfOk result (λ key. cow_str_bytes key.name ≡ cow_str_bytes self.now.name) }
        ensures span { IfOk result (λ key. key.span ≡ self.now.span) }
        ensures borrowed { IsBorrowedStr self.now.name → IsOkAnd result (λ key. IsBorrowedStr key.name) }
        ensures owned { IfOk result (λ key. IsBorrowedStr key.name → IsBorrowedStr self.now.name) }
    {
        let name = match &self.name {
            CowStr::Borrowed(name) => CowStr::Borrowed(*name),
            CowStr::Owned(name) => CowStr::Owned(String::from_str(alloc, name.as_str())?),
        };
        Ok(Self {
            name,
            span: self.span,
        })
    }
}

impl Default for Key<'_> {
    ghost is_default = { λ key. (cow_str_bytes key.name ≡ []) × (key.span ≡ record { start = 0; end = 0 }) };

    /// Returns a key with an empty name and the span 0..0.
    fn default() -> Self {
        Self::named("")
    }
}

impl Display for Key<'_> {
    ghost output = { λ key. Some (cow_str_bytes key.name) };

    fn fmt<W: Write>(&self, f: &mut Formatter<W>) -> fmt::Result {
        f.write_str(self.name.as_ref())
    }
}

impl Debug for Key<'_> {
    ghost debug_output = { λ key. Some (cow_str_bytes key.name) };

    fn fmt<W: Write>(&self, f: &mut Formatter<W>) -> fmt::Result {
        Display::fmt(self, f)
    }
}
