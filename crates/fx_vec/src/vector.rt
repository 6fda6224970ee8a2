// Vectors of fixed-point numbers, and of exact sums of their products.
use fx_num::{Carry, Fix, Number, Plain, Total};

/// A vector in space whose coordinates are at scale `F`. It is generic over the radius itself, so that
/// it can be `Copy`; write `V3`.
#[derive(Clone, Copy, Debug, PartialEq, Eq)]
pub struct Vector3<R, const F: u32> {
    pub x: Number<R, F>,
    pub y: Number<R, F>,
    pub z: Number<R, F>,
}

/// A vector of numbers of kind `K` at scale `F`.
pub type V3<K, const F: u32> = Vector3<<K as Carry>::Rad, F>;

/// A plain 3 by 3 matrix at scale 32, by its rows.
#[derive(Clone, Copy, Debug, PartialEq, Eq)]
pub struct M3 {
    pub a: V3<Plain, 32>,
    pub b: V3<Plain, 32>,
    pub c: V3<Plain, 32>,
}

/// A plain quaternion at scale 32, its real part first.
#[derive(Clone, Copy, Debug, PartialEq, Eq)]
pub struct Q4 {
    pub w: Fix<32>,
    pub x: Fix<32>,
    pub y: Fix<32>,
    pub z: Fix<32>,
}

/// A spatial vector: a motion (angular, then linear velocity) or a force (moment, then force). Write
/// `Sp6`.
#[derive(Clone, Copy, Debug, PartialEq, Eq)]
pub struct Vector6<R, const F: u32> {
    pub ang: Vector3<R, F>,
    pub lin: Vector3<R, F>,
}

/// A spatial vector of numbers of kind `K` at scale `F`.
pub type Sp6<K, const F: u32> = Vector6<<K as Carry>::Rad, F>;

/// Three exact sums of products at scale `P`, one a coordinate. Write `Sum3`.
#[derive(Clone, Copy, Debug, PartialEq, Eq)]
pub struct Total3<W, const P: u32> {
    pub x: Total<W, P>,
    pub y: Total<W, P>,
    pub z: Total<W, P>,
}

/// Three exact sums of products of numbers of kind `K`, at scale `P`.
pub type Sum3<K, const P: u32> = Total3<<K as Carry>::Wide, P>;

/// Six exact sums of products at scale `P`, one a coordinate of a spatial vector. Write `Sum6`.
#[derive(Clone, Copy, Debug, PartialEq, Eq)]
pub struct Total6<W, const P: u32> {
    pub ang: Total3<W, P>,
    pub lin: Total3<W, P>,
}

/// Six exact sums of products of numbers of kind `K`, at scale `P`.
pub type Sum6<K, const P: u32> = Total6<<K as Carry>::Wide, P>;
