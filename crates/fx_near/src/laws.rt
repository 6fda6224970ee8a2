// Laws over the definitions that the clauses speak of: for all exact rationals, covered operands give
// covered results.
ghost use Rattle.std.specs.Prelude.{ℕ, ℤ, pos, ◌+◌, ◌-◌, ◌*◌, ◌^◌, ◌<◌, ◌≤◌, ◌<ℤ◌, ◌+ℤ◌, ◌*ℤ◌};
ghost use Rattle.fx_whole.specs.Least.{IsLeast, ceil_div};
ghost use Rattle.fx_num.specs.Radii.{product_width};
ghost use Rattle.fx_num.specs.Settled.{settled_mid, rounding_loss};
ghost use Rattle.fx_near.specs.Covers.{Covers, CoversQuotient, CoversRoot};
ghost use Rattle.fx_near.specs.Widths.{settled_radius, quotient_mid, quotient_radius, root_mid, root_radius};

/// A radius is the least whole number that is at least the error `a` divided by `b`.
pub fn radius_is_least()
    ensures { (a b : ℕ) → 0 < b → IsLeast (λ q. a ≤ q * b) (ceil_div a b) }
{}

/// A number covers its own value, with radius 0.
pub fn exact_covers()
    ensures { (x : ℤ) (f : ℕ) → Covers x 0 f x (2 ^ f) }
{}

/// The exact product of two numbers covers the product of what they cover, at the sum of their scales:
/// this is what `mul_into` adds.
pub fn product_covers()
    ensures { (a b n m : ℤ) (ra rb f g d e : ℕ)
        → Covers a ra f n d → Covers b rb g m e
        → Covers (a *ℤ b) (product_width a ra b rb) (f + g) (n *ℤ m) (d * e) }
{}

/// The sum of two sums covers the sum of what they cover, in the sum of their widths.
pub fn sum_covers()
    ensures { (a b n m : ℤ) (w v f d e : ℕ)
        → Covers a w f n d → Covers b v f m e
        → Covers (a +ℤ b) (w + v) f (n *ℤ pos e +ℤ m *ℤ pos d) (d * e) }
{}

/// A sum that is rounded from scale `p` to scale `f` covers what it covered before: this is what
/// `settle` gives at the kind `Band`.
pub fn settled_covers()
    ensures { (sum n : ℤ) (w f p d : ℕ) → f ≤ p
        → Covers sum w p n d
        → Covers (settled_mid sum (p - f))
        (settled_radius w (rounding_loss sum (p - f)) (p - f)) f n d }
{}

/// The quotient by a number above zero in all that it covers covers the quotients of what its operands
/// cover.
pub fn quotient_covers()
    ensures { (a b n m : ℤ) (ra rb f d e : ℕ) → pos rb <ℤ b
        → Covers a ra f n d → Covers b rb f m e
        → CoversQuotient (quotient_mid f a b) (quotient_radius f a ra b rb) f n d m e }
{}

/// The root of a number above zero in all that it covers covers the roots of what it covers.
pub fn root_covers()
    ensures { (a n : ℤ) (ra f d : ℕ) → pos ra <ℤ a
        → Covers a ra f n d
        → CoversRoot (root_mid f a) (root_radius f a ra) f n d }
{}
