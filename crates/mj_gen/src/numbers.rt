// The numbers that a seed gives.
ghost use Rattle.std.specs.Prelude.{◌≡◌, ◌<◌, ◌^◌};
ghost use Rattle.mj_gen.specs.Numbers as spec;

const FACTOR: u64 = 6_364_136_223_846_793_005;

const INCREMENT: u64 = 1_442_695_040_888_963_407;

// The number after `x`.
pub(crate) fn number_after(x: u64) -> u64
    ensures { result ≡ spec.number_after x }
{
    FACTOR.wrapping_mul(x).wrapping_add(INCREMENT)
}

// The highest 16 bits of a number.
pub(crate) fn high_bits(x: u64) -> u64
    ensures value { result ≡ spec.high_bits x }
    ensures size { result < 2 ^ 16 }
{
    x >> 48
}
