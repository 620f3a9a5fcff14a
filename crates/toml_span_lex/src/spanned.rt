//! Values with their spans.
ghost use Rattle.std.specs.Prelude.{◌≡◌, IfOk, IsOk};

use crate::span::Span;
use std::alloc::{AllocError, Global};
use std::fmt;
use std::fmt::{Debug, Formatter, Write};

/// A value with its span. Comparisons ignore the span.
#[derive(Drop)]
#[derive_where(PartialEq, Eq, PartialOrd, Ord; T)]
pub struct Spanned<T> {
    pub value: T,
    #[derive_where(skip(EqHashOrd))]
    pub span: Span,
}

impl<T> Spanned<T> {
    /// Wraps a value. The span is 0..0.
    #[inline]
    pub fn new(value: T) -> Self
        ensures value { result.value ≡ value }
        ensures span { result.span ≡ record { start = 0; end = 0 } }
    {
        Self {
            value,
            span: Span::default(),
        }
    }

    /// Wraps a value with this span.
    #[inline]
    pub fn with_span(value: T, span: Span) -> Self
        ensures value { result.value ≡ value }
        ensures span { result.span ≡ span }
    {
        Self { value, span }
    }

    /// Returns the value without its span.
    #[inline]
    pub fn take(self) -> T
        ensures { result ≡ self.value }
    {
        let Spanned { value, span: _ } = self;
        value
    }

    /// Converts the value with `From`, and keeps the span.
    #[inline]
    pub fn map<V: From<T>>(self) -> Spanned<V>
        ensures value { V.from_gives self.value result.value }
        ensures span { result.span ≡ self.span }
    {
        let Spanned { value, span } = self;
        Spanned {
            value: V::from(value),
            span,
        }
    }

    /// Borrows the value.
    #[inline]
    pub fn as_ref(&self) -> &T
        ensures { result.now ≡ self.now.value }
    {
        &self.value
    }
}

impl<T: PartialEq> Spanned<T> {
    /// Returns whether the value equals `other`.
    #[inline]
    pub fn eq_value(&self, other: &T) -> bool
        ensures { result ≡ T.eq self.now.value other.now }
    {
        self.value == *other
    }
}

impl<T: Clone> Spanned<T> {
    /// Returns a clone of the value, with the same span. Fails if cloning the value fails.
    pub fn clone(&self, _alloc: Global) -> Result<Self, AllocError>
        ensures value { IfOk result (λ copy. T.is_clone self.now.value copy.value) }
        ensures span { IfOk result (λ copy. copy.span ≡ self.now.span) }
        ensures succeeds { T.is_infallible self.now.value → IsOk result }
        ensures equal { ((copy : T) → T.is_clone self.now.value copy → copy ≡ self.now.value)
            → IfOk result (λ copy. copy ≡ self.now) }
    {
        Ok(Self {
            value: self.value.clone()?,
            span: self.span,
        })
    }
}

impl<T: Default> Default for Spanned<T> {
    ghost is_default = { λ spanned. T.is_default spanned.value × (spanned.span ≡ record { start = 0; end = 0 }) };

    fn default() -> Self {
        Self::new(T::default())
    }
}

impl<T: Debug> Debug for Spanned<T> {
    ghost debug_output = { λ spanned. T.debug_output spanned.value };

    fn fmt<W: Write>(&self, f: &mut Formatter<W>) -> fmt::Result {
        self.value.fmt(f)
    }
}
