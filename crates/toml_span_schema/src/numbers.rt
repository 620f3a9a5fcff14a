//! Exact decimal numbers, and the numbers of TOML.
ghost use Rattle.std.specs.Prelude.{◌<◌, ◌^◌};

/// A number `0.d1d2d3.. * 10^(point - 2^65)`, or its negative. The first and the last digit are not 0, so each number
/// has one form. For zero, `digits` is empty, `point` is 0, and `negative` is false.
#[derive(Drop)]
pub(crate) struct Decimal {
    pub(crate) negative: bool,
    pub(crate) point: u128,
    /// The digits in ASCII.
    pub(crate) digits: Vec<u8>,
    ghost small: { point < 2 ^ 67 },
}

/// A TOML number. `Infinite(true)` is negative infinity.
#[derive(Drop)]
pub(crate) enum Number {
    Finite(Decimal),
    Infinite(bool),
    NotANumber,
}
