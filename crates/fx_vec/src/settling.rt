// Rounding of the sums of a vector to a lower scale.
ghost use Rattle.std.specs.Prelude.{◌≡◌, ◌+◌, ◌-◌, ◌≤◌, pos, ◌≤ℤ◌, unsigned_abs, IfOk};
ghost use Rattle.fx_num.specs.Radii.{radius_limit};
ghost use Rattle.fx_whole.specs.First.{refusal_of};
ghost use Rattle.fx_vec.specs.Sizes.{Within, Below, Within6, Below6};
ghost use Rattle.fx_vec.specs.Settling as spec;
ghost use Rattle.fx_vec.specs.Views.{mids, radii, sums, widths, spatial, spatial_radii, spatial_sums, spatial_widths};

use crate::vector::{Sp6, Sum3, Sum6, V3, Vector3, Vector6};
use fx_num::{Carry, Over, settle};

/// Three sums at scale `P`, each rounded to scale `F`. The refusal is that of the first coordinate
/// that has one: x before y before z, and of each the value's limit before the radius's.
pub fn settle3<K: Carry, const P: u32, const F: u32>(
    acc: &Sum3<K, P>,
    limit: i64,
) -> Result<V3<K, F>, Over>
    requires below { F ≤ P }
    requires in_width { P ≤ F + 126 }
    requires limit { pos 0 ≤ℤ limit }
    ensures mid { IfOk result (λ r. mids r ≡ spec.settled3 (sums acc.now) (P - F)) }
    ensures within { IfOk result (λ r. Within (mids r) (unsigned_abs limit)) }
    ensures rad { IfOk result (λ r. radii K.width r
        ≡ spec.radii3 K.settled (sums acc.now) (widths K.wide_width acc.now) (P - F)) }
    ensures small { IfOk result (λ r. Below (radii K.width r) radius_limit) }
    ensures first { refusal_of result
        ≡ spec.over3 (unsigned_abs limit) (spec.settled3 (sums acc.now) (P - F))
        (spec.radii3 K.settled (sums acc.now) (widths K.wide_width acc.now) (P - F)) }
{
    match settle::<K, P, F>(acc.x, limit) {
        Ok(x) => match settle::<K, P, F>(acc.y, limit) {
            Ok(y) => match settle::<K, P, F>(acc.z, limit) {
                Ok(z) => Ok(Vector3 { x, y, z }),
                Err(over) => Err(over),
            },
            Err(over) => Err(over),
        },
        Err(over) => Err(over),
    }
}

/// Six sums at scale `P`, each rounded to scale `F`: the angular part as `settle3`, then the linear
/// one.
pub fn settle6<K: Carry, const P: u32, const F: u32>(
    acc: &Sum6<K, P>,
    limit: i64,
) -> Result<Sp6<K, F>, Over>
    requires below { F ≤ P }
    requires in_width { P ≤ F + 126 }
    requires limit { pos 0 ≤ℤ limit }
    ensures mid { IfOk result (λ r. spatial r ≡ spec.settled6 (spatial_sums acc.now) (P - F)) }
    ensures within { IfOk result (λ r. Within6 (spatial r) (unsigned_abs limit)) }
    ensures rad { IfOk result (λ r. spatial_radii K.width r ≡ spec.radii6 K.settled
        (spatial_sums acc.now) (spatial_widths K.wide_width acc.now) (P - F)) }
    ensures small { IfOk result (λ r. Below6 (spatial_radii K.width r) radius_limit) }
    ensures first { refusal_of result
        ≡ spec.over6 (unsigned_abs limit) (spec.settled6 (spatial_sums acc.now) (P - F))
        (spec.radii6 K.settled (spatial_sums acc.now)
        (spatial_widths K.wide_width acc.now) (P - F)) }
{
    match settle3::<K, P, F>(&acc.ang, limit) {
        Ok(ang) => match settle3::<K, P, F>(&acc.lin, limit) {
            Ok(lin) => Ok(Vector6 { ang, lin }),
            Err(over) => Err(over),
        },
        Err(over) => Err(over),
    }
}
