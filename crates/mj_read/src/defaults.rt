// The defaults of the model format: raw values at scale 32, each the nearest to its numeral.

/// 1
pub const ONE: i64 = 4_294_967_296;

/// 0 0 0
pub const ORIGIN: [i64; 3] = [0, 0, 0];

/// 0 0 1
pub const UPWARD: [i64; 3] = [0, 0, 4_294_967_296];

/// 1 0 0 0
pub const UNTURNED: [i64; 4] = [4_294_967_296, 0, 0, 0];

/// 0 0 -9.81
pub const GRAVITY: [i64; 3] = [0, 0, -42_133_629_174];

/// 0.002
pub const TIMESTEP: i64 = 8_589_935;

/// 1e-8
pub const TOLERANCE: i64 = 43;

/// The first of the three coefficients of friction, 1
pub const FRICTION: [i64; 1] = [4_294_967_296];

/// 0.02 1
pub const SOLREF: [i64; 2] = [85_899_346, 4_294_967_296];

/// 0.9 0.95 0.001 0.5 2
pub const SOLIMP: [i64; 5] = [
    3_865_470_566,
    4_080_218_931,
    4_294_967,
    2_147_483_648,
    8_589_934_592,
];

/// 0 1
pub const POLYCOEF: [i64; 2] = [0, 4_294_967_296];
