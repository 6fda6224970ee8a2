// A body's inertia about its tree's reference point.
ghost use Rattle.std.specs.Prelude.{◌≡◌, ◌+◌, ◌*◌, ◌^◌, ◌<◌, ◌≤◌, ◌+ℤ◌, ◌*ℤ◌, unsigned_abs, length};
ghost use Rattle.fx_whole.specs.First.{refusal_of, first_to};
ghost use Rattle.mj_types.specs.Placed.{inertia_at};
ghost use Rattle.fx_num.specs.Settled.{settled_mid};
ghost use Rattle.fx_vec.specs.Sizes.{Within};
ghost use Rattle.fx_vec.specs.Vectors.{dot as dot_of};
ghost use Rattle.fx_vec.specs.Views.{mids, inertia};
ghost use Rattle.mj_quat.specs.Rotation as rotation;
ghost use Rattle.mj_types.specs.Lawful.{IsBody};
ghost use Rattle.mj_kin.specs.Bodies as spec;

use fx_list::Array;
use fx_num::{Fix, Plain};
use fx_vec::{Inertia10, M3, V3, Vector3};
use fx_whole::{difference, narrow, nearest_shift, product, sum, wide_product};
use mj_types::{Body, OutOfRange, Quantity};

/// A number of the first moment: the mass times a number of the arm, rounded.
fn moment_one(mass: &Fix<40>, r: &Fix<32>) -> Fix<40>
    requires mass { unsigned_abs mass.now.mid ≤ 2 ^ 53 }
    requires arm { unsigned_abs r.now.mid ≤ 2 ^ 40 }
    ensures value { result.mid ≡ settled_mid (r.now.mid *ℤ mass.now.mid) 32 }
    ensures size { unsigned_abs result.mid ≤ 2 ^ 61 }
{
    Fix::from_raw(narrow(nearest_shift(product(r.mid, mass.mid), 32)))
}

/// The first moment of a mass at `r`.
fn moment(mass: &Fix<40>, r: &V3<Plain, 32>) -> V3<Plain, 40>
    requires mass { unsigned_abs mass.now.mid ≤ 2 ^ 53 }
    requires arm { Within (mids r.now) (2 ^ 40) }
    ensures value { mids result ≡ spec.moment mass.now.mid (mids r.now) }
    ensures size { Within (mids result) (2 ^ 61) }
{
    Vector3 {
        x: moment_one(mass, &r.x),
        y: moment_one(mass, &r.y),
        z: moment_one(mass, &r.z),
    }
}

/// `a d`, exactly.
fn weighted(a: &Fix<32>, d: &Fix<40>) -> i128
    requires a { unsigned_abs a.now.mid ≤ 2 ^ 33 }
    requires d { unsigned_abs d.now.mid ≤ 2 ^ 53 }
    ensures value { result ≡ a.now.mid *ℤ d.now.mid }
    ensures size { unsigned_abs result ≤ 2 ^ 86 }
{
    product(a.mid, d.mid)
}

/// `n b`, exactly, where the caller shows that it fits.
fn scaled(n: &i128, b: &Fix<32>) -> i128
    requires { unsigned_abs n.now * unsigned_abs b.now.mid < 2 ^ 127 }
    ensures value { result ≡ n.now *ℤ b.now.mid }
    ensures size { unsigned_abs result ≡ unsigned_abs n.now * unsigned_abs b.now.mid }
{
    wide_product(*n, i128::from(b.mid))
}

/// `a d b`, exactly.
fn triple(a: &Fix<32>, d: &Fix<40>, b: &Fix<32>) -> i128
    requires a { unsigned_abs a.now.mid ≤ 2 ^ 33 }
    requires d { unsigned_abs d.now.mid ≤ 2 ^ 53 }
    requires b { unsigned_abs b.now.mid ≤ 2 ^ 33 }
    ensures value { result ≡ a.now.mid *ℤ d.now.mid *ℤ b.now.mid }
    ensures size { unsigned_abs result ≤ 2 ^ 119 }
{
    let first = weighted(a, d);
    scaled(&first, b)
}

/// An entry of `X d X^T`, from two rows of X, rounded.
#[tactic(auto, unfolding(crate::specs::Bodies::turned))]
fn turned(a: &V3<Plain, 32>, d: &V3<Plain, 40>, b: &V3<Plain, 32>) -> i128
    requires a { Within (mids a.now) (2 ^ 33) }
    requires d { Within (mids d.now) (2 ^ 53) }
    requires b { Within (mids b.now) (2 ^ 33) }
    ensures value { result ≡ spec.turned (mids a.now) (mids d.now) (mids b.now) }
    ensures size { unsigned_abs result ≤ 2 ^ 57 }
{
    let total = sum(
        sum(triple(&a.x, &d.x, &b.x), triple(&a.y, &d.y, &b.y)),
        triple(&a.z, &d.z, &b.z),
    );
    nearest_shift(total, 64)
}

/// `m r`, exactly.
fn pair(m: &Fix<40>, r: &Fix<32>) -> i128
    requires moment { unsigned_abs m.now.mid ≤ 2 ^ 61 }
    requires arm { unsigned_abs r.now.mid ≤ 2 ^ 40 }
    ensures value { result ≡ m.now.mid *ℤ r.now.mid }
    ensures size { unsigned_abs result ≤ 2 ^ 101 }
{
    product(m.mid, r.mid)
}

/// `m . r`, exactly.
fn dot(m: &V3<Plain, 40>, r: &V3<Plain, 32>) -> i128
    requires moment { Within (mids m.now) (2 ^ 61) }
    requires arm { Within (mids r.now) (2 ^ 40) }
    ensures value { result ≡ dot_of (mids m.now) (mids r.now) }
    ensures size { unsigned_abs result ≤ 2 ^ 103 }
{
    sum(sum(pair(&m.x, &r.x), pair(&m.y, &r.y)), pair(&m.z, &r.z))
}

/// What the mass adds on the diagonal, rounded.
#[tactic(auto, unfolding(crate::specs::Bodies::shifted))]
fn shifted(m: &V3<Plain, 40>, r: &V3<Plain, 32>, ma: &Fix<40>, ra: &Fix<32>) -> i128
    requires moment { Within (mids m.now) (2 ^ 61) }
    requires arm { Within (mids r.now) (2 ^ 40) }
    requires number { unsigned_abs ma.now.mid ≤ 2 ^ 61 }
    requires along { unsigned_abs ra.now.mid ≤ 2 ^ 40 }
    ensures value { result
        ≡ spec.shifted (mids m.now) (mids r.now) ma.now.mid ra.now.mid }
    ensures size { unsigned_abs result ≤ 2 ^ 72 }
{
    nearest_shift(difference(dot(m, r), pair(ma, ra)), 32)
}

/// What the mass adds off the diagonal, rounded.
#[tactic(auto, unfolding(crate::specs::Bodies::shifted_off))]
fn shifted_off(ma: &Fix<40>, rb: &Fix<32>) -> i128
    requires number { unsigned_abs ma.now.mid ≤ 2 ^ 61 }
    requires along { unsigned_abs rb.now.mid ≤ 2 ^ 40 }
    ensures value { result ≡ spec.shifted_off ma.now.mid rb.now.mid }
    ensures size { unsigned_abs result ≤ 2 ^ 72 }
{
    nearest_shift(difference(0, pair(ma, rb)), 32)
}

/// An entry of the inertia on the diagonal, from a row of X.
pub(crate) fn own_entry(
    row: &V3<Plain, 32>,
    d: &V3<Plain, 40>,
    m: &V3<Plain, 40>,
    r: &V3<Plain, 32>,
    ma: &Fix<40>,
    ra: &Fix<32>,
) -> i128
    requires row { Within (mids row.now) (2 ^ 33) }
    requires d { Within (mids d.now) (2 ^ 53) }
    requires moment { Within (mids m.now) (2 ^ 61) }
    requires arm { Within (mids r.now) (2 ^ 40) }
    requires number { unsigned_abs ma.now.mid ≤ 2 ^ 61 }
    requires along { unsigned_abs ra.now.mid ≤ 2 ^ 40 }
    ensures { result ≡ spec.turned (mids row.now) (mids d.now) (mids row.now)
        +ℤ spec.shifted (mids m.now) (mids r.now) ma.now.mid ra.now.mid }
{
    sum(turned(row, d, row), shifted(m, r, ma, ra))
}

/// One off the diagonal, from two rows of X.
pub(crate) fn mixed_entry(
    a: &V3<Plain, 32>,
    d: &V3<Plain, 40>,
    b: &V3<Plain, 32>,
    ma: &Fix<40>,
    rb: &Fix<32>,
) -> i128
    requires a { Within (mids a.now) (2 ^ 33) }
    requires d { Within (mids d.now) (2 ^ 53) }
    requires b { Within (mids b.now) (2 ^ 33) }
    requires number { unsigned_abs ma.now.mid ≤ 2 ^ 61 }
    requires along { unsigned_abs rb.now.mid ≤ 2 ^ 40 }
    ensures { result ≡ spec.turned (mids a.now) (mids d.now) (mids b.now)
        +ℤ spec.shifted_off ma.now.mid rb.now.mid }
{
    sum(turned(a, d, b), shifted_off(ma, rb))
}

/// A number with more bits.
fn wide(n: &Fix<40>) -> i128
    ensures { result ≡ n.now.mid }
{
    i128::from(n.mid)
}

/// The inertia about a point from which the centre of mass is at `r`, of a body whose inertial frame
/// has the matrix `x`.
#[tactic(auto, unfolding(crate::specs::Bodies::inertia_from))]
pub(crate) fn inertia_from(body: &Body, x: &M3, r: &V3<Plain, 32>) -> Inertia10
    requires body { IsBody body.now }
    requires rows { rotation.WithinRows (rotation.rows x.now) (2 ^ 33) }
    requires arm { Within (mids r.now) (2 ^ 40) }
    ensures { inertia result ≡ spec.inertia_from body.now.mass.mid (spec.diagonal body.now)
        (rotation.rows x.now) (spec.moment body.now.mass.mid (mids r.now)) (mids r.now) }
{
    let d = Vector3 {
        x: body.ixx,
        y: body.iyy,
        z: body.izz,
    };
    let m = moment(&body.mass, r);
    Inertia10 {
        xx: own_entry(&x.a, &d, &m, r, &m.x, &r.x),
        xy: mixed_entry(&x.a, &d, &x.b, &m.x, &r.y),
        xz: mixed_entry(&x.a, &d, &x.c, &m.x, &r.z),
        yy: own_entry(&x.b, &d, &m, r, &m.y, &r.y),
        yz: mixed_entry(&x.b, &d, &x.c, &m.y, &r.z),
        zz: own_entry(&x.c, &d, &m, r, &m.z, &r.z),
        mx: wide(&m.x),
        my: wide(&m.y),
        mz: wide(&m.z),
        mass: wide(&body.mass),
    }
}

/// Whether the first moment and the rotational inertia are in their range.
fn is_light(i: &Inertia10) -> bool
    ensures { result ≡ spec.is_light (inertia i.now) }
{
    are_small(&i.mx, &i.my, &i.mz)
        && are_small(&i.xx, &i.xy, &i.xz)
        && are_small(&i.xy, &i.yy, &i.yz)
        && are_small(&i.xz, &i.yz, &i.zz)
}

/// Whether three numbers of an inertia are in their range.
fn are_small(x: &i128, y: &i128, z: &i128) -> bool
    ensures { result ≡ spec.is_near (2 ^ 62) (record { x = x.now; y = y.now; z = z.now }) }
{
    x.unsigned_abs() <= 1 << 62 && y.unsigned_abs() <= 1 << 62 && z.unsigned_abs() <= 1 << 62
}

/// Nothing where the inertia of body `b + 1` is in its range.
fn judge_inertia(b: usize, i: &Inertia10) -> Result<(), OutOfRange>
    requires { b < 2 ^ 62 }
    ensures { refusal_of result ≡ spec.light_fault b (inertia i.now) }
{
    OutOfRange::unless(is_light(i), Quantity::Inertia, b + 1)
}

/// Nothing where all bodies' inertias are in their range.
pub(crate) fn judge_inertias(inertias: &Array<Inertia10>) -> Result<(), OutOfRange>
    requires { length inertias.now ≤ 128 }
    ensures { refusal_of result ≡ first_to (length inertias.now)
        (λ b. spec.light_fault b (inertia_at inertias.now b)) }
{
    for b in 0..inertias.len() {
        judge_inertia(b, inertias.entry(b))?;
    }
    Ok(())
}
