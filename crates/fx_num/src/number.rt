// Numbers at a scale, and exact sums of their products.
ghost use Rattle.std.specs.Prelude.{◌≡◌};

use crate::carry::{Carry, Plain};

/// A number at scale `F`: `mid` stands for `mid / 2^F`, and `rad` says how far it may be off, in the
/// same unit. It is generic over the radius itself, so that it can be `Copy`; write `Num` or `Fix`.
#[derive(Clone, Copy, Debug, PartialEq, Eq)]
pub struct Number<R, const F: u32> {
    pub mid: i64,
    pub rad: R,
}

/// A number of kind `K` at scale `F`.
pub type Num<K, const F: u32> = Number<<K as Carry>::Rad, F>;

/// A plain number at scale `F`.
pub type Fix<const F: u32> = Num<Plain, F>;

/// An exact sum of products at scale `P`: `mid` stands for `mid / 2^P`, and `rad` is its width. Write
/// `Sum`.
#[derive(Clone, Copy, Debug, PartialEq, Eq)]
pub struct Total<W, const P: u32> {
    pub mid: i128,
    pub rad: W,
}

/// An exact sum of products of numbers of kind `K`, at scale `P`.
pub type Sum<K, const P: u32> = Total<<K as Carry>::Wide, P>;

/// A plain number at scale `F` that may need 128 bits.
#[derive(Clone, Copy, Debug, PartialEq, Eq)]
pub struct Wide<const F: u32> {
    pub raw: i128,
}

impl<const F: u32> Number<(), F> {
    /// The plain number whose stored whole number is `raw`: it stands for `raw / 2^F`.
    pub fn from_raw(raw: i64) -> Self
        ensures { result ≡ record { mid = raw; rad = tt } }
    {
        Number { mid: raw, rad: () }
    }
}
