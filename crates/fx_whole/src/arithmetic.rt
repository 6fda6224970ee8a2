// Leaf arithmetic: one operation a function, each with the exact value and its size.
ghost use Rattle.std.specs.Prelude.{◌≡◌, pos, ◌+◌, ◌*◌, ◌%◌, ◌^◌, ◌<◌, ◌≤◌, ◌+ℤ◌, ◌-ℤ◌, ◌*ℤ◌, ◌≤ℤ◌, ◌↔◌, neg_ℤ, IsTrue, unsigned_abs};

/// `a * b`, which always fits.
pub fn product(a: i64, b: i64) -> i128
    ensures value { result ≡ a *ℤ b }
    ensures size { unsigned_abs result ≡ unsigned_abs a * unsigned_abs b }
    ensures bound { unsigned_abs result ≤ 2 ^ 126 }
{
    i128::from(a) * i128::from(b)
}

/// `a * b`, where the caller shows that it fits.
pub fn wide_product(a: i128, b: i128) -> i128
    requires { unsigned_abs a * unsigned_abs b < 2 ^ 127 }
    ensures value { result ≡ a *ℤ b }
    ensures size { unsigned_abs result ≡ unsigned_abs a * unsigned_abs b }
{
    a * b
}

/// The sum, where the caller shows that it fits.
pub fn sum(a: i128, b: i128) -> i128
    requires { unsigned_abs a + unsigned_abs b < 2 ^ 127 }
    ensures value { result ≡ a +ℤ b }
    ensures size { unsigned_abs result ≤ unsigned_abs a + unsigned_abs b }
{
    a + b
}

/// The difference, where the caller shows that it fits.
pub fn difference(a: i128, b: i128) -> i128
    requires { unsigned_abs a + unsigned_abs b < 2 ^ 127 }
    ensures value { result ≡ a -ℤ b }
    ensures size { unsigned_abs result ≤ unsigned_abs a + unsigned_abs b }
{
    a - b
}

/// `total + a * b`, where the caller shows that it fits: one step of a sum of products.
pub fn add_product(total: i128, a: i64, b: i64) -> i128
    requires { unsigned_abs total + unsigned_abs a * unsigned_abs b < 2 ^ 127 }
    ensures value { result ≡ total +ℤ a *ℤ b }
    ensures size { unsigned_abs result ≤ unsigned_abs total + unsigned_abs a * unsigned_abs b }
{
    sum(total, product(a, b))
}

/// The negative, of every i128 but the least.
pub fn negate(n: i128) -> i128
    requires { unsigned_abs n < 2 ^ 127 }
    ensures value { result ≡ neg_ℤ n }
    ensures size { unsigned_abs result ≡ unsigned_abs n }
{
    -n
}

/// `n` in 64 bits, where the caller shows that it fits.
pub fn narrow(n: i128) -> i64
    requires { unsigned_abs n < 2 ^ 63 }
    ensures { result ≡ n }
{
    n as i64
}

/// Whether `|n| <= limit`.
pub fn is_within(n: i128, limit: i64) -> bool
    requires { pos 0 ≤ℤ limit }
    ensures { IsTrue result ↔ (unsigned_abs n ≤ unsigned_abs limit) }
{
    n.unsigned_abs() <= u128::from(limit.unsigned_abs())
}

/// Whether the size of `n` is at most that of `most`.
pub fn is_between(n: &i128, most: &i128) -> bool
    requires { pos 0 ≤ℤ most.now }
    ensures { IsTrue result ↔ (unsigned_abs n.now ≤ unsigned_abs most.now) }
{
    -*most <= *n && *n <= *most
}

/// `|n|`.
pub fn size(n: i128) -> u128
    ensures value { result ≡ unsigned_abs n }
    ensures bound { result ≤ 2 ^ 127 }
{
    n.unsigned_abs()
}

/// `2^shift`.
pub fn power(shift: u32) -> i128
    requires { shift ≤ 126 }
    ensures value { result ≡ pos (2 ^ shift) }
    ensures size { unsigned_abs result ≡ 2 ^ shift }
{
    (1u128 << shift).cast_signed()
}

/// `n * 2^shift`, which always fits.
pub fn scale_up(n: i64, shift: u32) -> i128
    requires { shift ≤ 63 }
    ensures value { result ≡ n *ℤ pos (2 ^ shift) }
    ensures size { unsigned_abs result ≡ unsigned_abs n * 2 ^ shift }
{
    scale_up_wide(i128::from(n), shift)
}

/// `n * 2^shift`, where the caller shows that it fits.
pub fn scale_up_wide(n: i128, shift: u32) -> i128
    requires in_width { shift ≤ 126 }
    requires fits { unsigned_abs n * 2 ^ shift < 2 ^ 127 }
    ensures value { result ≡ n *ℤ pos (2 ^ shift) }
    ensures size { unsigned_abs result ≡ unsigned_abs n * 2 ^ shift }
{
    wide_product(n, power(shift))
}

/// The low 64 bits.
pub fn low_half(n: u128) -> u64
    ensures { result ≡ n % 2 ^ 64 }
{
    (n & 0xFFFF_FFFF_FFFF_FFFF) as u64
}
