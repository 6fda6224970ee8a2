// The least step at which a row's parabola has risen to a height. It is seen by comparison alone: a
// guess is tested exactly, and bisection stands behind it.
ghost use Rattle.std.specs.Prelude.{◌≡◌, pos, ◌+◌, ◌*◌, ◌/◌, ◌^◌, ◌<◌, ◌≤◌, ◌-◌, ◌*ℤ◌, ◌<ℤ◌, ◌≤ℤ◌, ◌↔◌, IsTrue, SomeIff, unsigned_abs};
ghost use Rattle.mj_optimum.specs.Box as spec;

use fx_whole::arithmetic::low_half;
use fx_whole::{isqrt, sum, wide_product};

/// The parabola `k (2 g + r k)` of a row of slope `g` and regularizer `r`, and a height.
#[derive(Clone, Copy)]
pub struct Curve {
    pub g: i128,
    pub r: i128,
    pub height: i128,
    pub ghost steep: { unsigned_abs g ≤ 2 ^ 123 },
    pub ghost regular: { pos 0 <ℤ r },
    pub ghost soft: { r ≤ℤ pos (2 ^ 72) },
    pub ghost not_negative: { pos 0 ≤ℤ height },
    pub ghost limited: { height ≤ℤ pos (2 ^ 124) },
}

/// A number of 192 bits: `high * 2^64 + low`.
#[derive(Clone, Copy)]
struct Words {
    high: u128,
    low: u64,
}

/// The bits from 2^64 up.
fn high_half(n: u128) -> u64
    ensures { result ≡ n / 2 ^ 64 }
{
    (n >> 64) as u64
}

/// `a * b`, which always fits.
fn half_product(a: u64, b: u64) -> u128
    ensures value { result ≡ a * b }
    ensures bound { result ≤ (2 ^ 64 - 1) * (2 ^ 64 - 1) }
{
    u128::from(a) * u128::from(b)
}

/// `k * h`.
fn long_product(k: u64, h: u128) -> Words
    ensures { result.high * 2 ^ 64 + result.low ≡ k * h }
{
    let low = half_product(k, low_half(h));
    let high = half_product(k, high_half(h));
    Words {
        high: high + u128::from(high_half(low)),
        low: low_half(low),
    }
}

/// Whether `n` is at most the number of two words.
fn is_at_most(n: u128, product: Words) -> bool
    ensures { IsTrue result ↔ (n ≤ product.high * 2 ^ 64 + product.low) }
{
    let high = u128::from(high_half(n));
    high < product.high || (high == product.high && low_half(n) <= product.low)
}

/// Whether `height <= k h`, of which the product may need more than 128 bits.
fn reaches(k: u64, h: &i128, height: &i128) -> bool
    requires { pos 0 ≤ℤ height.now }
    ensures { IsTrue result ↔ (height.now ≤ℤ (pos k *ℤ h.now)) }
{
    if *h < 0 {
        k == 0 && *height == 0
    } else {
        is_at_most(height.unsigned_abs(), long_product(k, h.unsigned_abs()))
    }
}

/// How many bits `n` has.
fn bits(n: u128) -> u32
    ensures { result ≤ 128 }
{
    128 - n.leading_zeros().min(128)
}

/// `n / d`, rounded down, or one less: by the leading 64 bits where the quotient is below 2^27.
fn quotient(n: u128, d: u128) -> u64 {
    let long = bits(n).max(bits(d)).max(64);
    if long > bits(d) + 28 {
        return low_half(n / d.max(1));
    }
    // rounded up, so that the quotient is never too large
    let by = low_half(d >> (long - 64)).saturating_add(1);
    low_half(n >> (long - 64)) / by
}

impl Curve {
    /// The least step at which the parabola is past its vertex and at least at its height, where that
    /// is at most `top`.
    pub fn rise(&self, top: u64) -> Option<u64>
        requires { top ≤ 2 ^ 52 }
        ensures { SomeIff result
            (spec.rise self.now.g self.now.r self.now.height ≤ top)
            (spec.rise self.now.g self.now.r self.now.height) }
    {
        if !self.has_risen(top) {
            return None;
        }
        let guess = self.guess().min(top);
        if self.has_risen(guess) {
            Some(self.rise_from(guess))
        } else {
            Some(self.rise_past(guess, top))
        }
    }

    /// Whether the rise is at most `k`.
    fn has_risen(&self, k: u64) -> bool
        requires { k ≤ 2 ^ 52 }
        ensures { IsTrue result ↔ (spec.rise self.now.g self.now.r self.now.height ≤ k) }
    {
        let climb = wide_product(self.r, i128::from(k));
        let slope = sum(climb, self.g);
        let height = sum(slope, self.g);
        slope >= 0 && reaches(k, &height, &self.height)
    }

    /// The rise, which is at most `k` and likely `k`.
    fn rise_from(&self, k: u64) -> u64
        requires in_range { k ≤ 2 ^ 52 }
        requires risen { spec.rise self.now.g self.now.r self.now.height ≤ k }
        ensures { result ≡ spec.rise self.now.g self.now.r self.now.height }
    {
        if k == 0 || !self.has_risen(k - 1) {
            return k;
        }
        if self.has_risen(0) {
            return 0;
        }
        self.bisect(0, k - 1)
    }

    /// The rise, which is past `k`, likely by one, and at most `top`.
    fn rise_past(&self, k: u64, top: u64) -> u64
        requires in_range { top ≤ 2 ^ 52 }
        requires before { k < spec.rise self.now.g self.now.r self.now.height }
        requires risen { spec.rise self.now.g self.now.r self.now.height ≤ top }
        ensures { result ≡ spec.rise self.now.g self.now.r self.now.height }
    {
        if self.has_risen(k + 1) {
            return k + 1;
        }
        self.bisect(k + 1, top)
    }

    /// The rise, which is past `low` and at most `high`.
    fn bisect(&self, mut low: u64, mut high: u64) -> u64
        requires in_range { high ≤ 2 ^ 52 }
        requires before { low < spec.rise self.now.g self.now.r self.now.height }
        requires risen { spec.rise self.now.g self.now.r self.now.height ≤ high }
        ensures { result ≡ spec.rise self.now.g self.now.r self.now.height }
    {
        while high - low > 1 {
            let between = low + (high - low) / 2;
            if self.has_risen(between) {
                high = between;
            } else {
                low = between;
            }
        }
        high
    }

    /// Nearly always the rise, or one less. What it gives is tested, so nothing rests on it.
    fn guess(&self) -> u64 {
        let size = self.g.unsigned_abs();
        let height = self.height.unsigned_abs();
        let step = if self.is_straight() {
            quotient(height >> 1, size)
        } else {
            let root = self.root(size, height).wrapping_sub(self.g);
            quotient(root.unsigned_abs(), self.r.unsigned_abs())
        };
        step.wrapping_add(1)
    }

    /// Whether the parabola climbs, and is at its height within a sixteenth of a step before its
    /// tangent at 0, `2 g k`.
    fn is_straight(&self) -> bool {
        let curved = bits(self.r.unsigned_abs()) + 2 * bits(self.height.unsigned_abs()) + 3;
        self.g > 0 && curved < 3 * bits(self.g.unsigned_abs())
    }

    /// `sqrt (g^2 + r height)`, nearly: the parabola is at its height where `g + r k` is that.
    fn root(&self, size: u128, height: u128) -> i128 {
        // so many low bits are left out of the root that what is under it stays below 2^126
        let long = (bits(self.r.unsigned_abs()) + bits(height)).max(124) - 124;
        let shift = (bits(size).max(62) - 62).max(long / 2 + long % 2).min(63);
        let short = size >> shift;
        let area = self.r.unsigned_abs().wrapping_mul(height >> (2 * shift));
        let under = short.wrapping_mul(short).wrapping_add(area) & (u128::MAX >> 2);
        isqrt(under.cast_signed()).wrapping_shl(shift)
    }
}
