// The kinds of number: what a number carries beside its middle.
ghost use Rattle.std.specs.Prelude.{◌≡◌, ◌+◌, ◌^◌, ◌<◌, ◌≤◌, ℕ, pos, ◌≤ℤ◌, unsigned_abs, IfOk};
ghost use Rattle.fx_num.specs.Radii.{product_width, radius_limit};
ghost use Rattle.fx_num.specs.Refusals.{past};
ghost use Rattle.fx_whole.specs.First.{refusal_of};

/// Why a number isn't given: its value or its radius passes the limit.
#[derive(Clone, Copy, Debug, PartialEq, Eq)]
pub enum Over {
    Value,
    Radius,
}

/// A kind of number. A number has a midpoint, and `Rad` says how far it may be off: `Plain` carries
/// nothing, another kind a radius. `Wide` is the width of an exact sum of products.
///
/// `width` and `wide_width` are these as whole numbers at least zero, and `settled width lost shift`
/// is the radius of a sum of that width that is rounded by `shift` bits and loses `lost`.
pub trait Carry {
    type Rad: Copy;

    type Wide: Copy;

    ghost width: { Self.Rad → ℕ };

    ghost wide_width: { Self.Wide → ℕ };

    ghost settled: { ℕ → ℕ → ℕ → ℕ };

    /// The radius of an exact number.
    fn none() -> Self::Rad
        ensures { width result ≡ 0 };

    /// The width of an empty sum.
    fn wide_none() -> Self::Wide
        ensures { wide_width result ≡ 0 };

    /// The width of the product of `a` and `b` with these radii.
    fn product(a: i64, ra: Self::Rad, b: i128, rb: Self::Rad) -> Self::Wide
        requires { product_width a (width ra) b (width rb) < 2 ^ 128 }
        ensures { wide_width result ≡ product_width a (width ra) b (width rb) };

    /// The width of a sum of two sums, in either order.
    fn join(a: Self::Wide, b: Self::Wide) -> Self::Wide
        requires { wide_width a + wide_width b < 2 ^ 128 }
        ensures { wide_width result ≡ wide_width a + wide_width b };

    /// The radius of a sum of width `w` that was rounded by `shift` bits and lost `lost`.
    /// `Over::Radius` exactly where that radius passes 2^40.
    fn cut(w: Self::Wide, lost: i128, shift: u32) -> Result<Self::Rad, Over>
        requires lost { pos 0 ≤ℤ lost }
        requires shift { shift ≤ 126 }
        ensures rad { IfOk result (λ r.
            width r ≡ settled (wide_width w) (unsigned_abs lost) shift) }
        ensures small { IfOk result (λ r. width r ≤ radius_limit) }
        ensures first { refusal_of result
            ≡ past radius_limit (settled (wide_width w) (unsigned_abs lost) shift) Over.Radius };
}

/// The kind that carries no radius: every width is 0.
#[derive(Clone, Copy, Debug, PartialEq, Eq)]
pub struct Plain;

impl Carry for Plain {
    type Rad = ();

    type Wide = ();

    ghost width = { λ _. 0 };

    ghost wide_width = { λ _. 0 };

    ghost settled = { λ _ _ _. 0 };

    fn none() {}

    fn wide_none() {}

    fn product(_a: i64, _ra: (), _b: i128, _rb: ()) {}

    fn join(_a: (), _b: ()) {}

    fn cut(_w: (), _lost: i128, _shift: u32) -> Result<(), Over> {
        Ok(())
    }
}
