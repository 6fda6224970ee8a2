// The parameters of a contact, from those of its two geoms.
ghost use Rattle.std.specs.Prelude.{◌≡◌, ◌-◌, ◌+◌, ◌/◌, ◌^◌, ◌<◌, ◌≤◌, pos, ◌≤ℤ◌, unsigned_abs, length};
ghost use Rattle.std.specs.Int.{int_min};
ghost use Rattle.mj_types.specs.Lawful.{IsGeom, IsSoft, has_positive_form};
ghost use Rattle.mj_types.specs.Parts.{geom};
ghost use Rattle.mj_rows.specs.Mixing as spec;

use fx_num::Fix;
use fx_whole::{narrow, nearest, sum};
use mj_types::{Geom, Model, Soft};

/// The geom of a number.
pub(crate) fn geom_of(model: &Model, number: usize) -> &Geom
    requires some { 1 ≤ number }
    requires there { number ≤ length model.now.geoms }
    ensures value { result.now ≡ geom model.now.geoms (number - 1) }
    ensures lawful { IsGeom result.now }
    ensures body { result.now.body ≤ length model.now.bodies }
{
    model.geoms.entry(number - 1)
}

/// The friction of two geoms: the larger.
pub(crate) fn friction(a: &Geom, b: &Geom) -> Fix<32>
    ensures { result.mid ≡ spec.friction a.now b.now }
{
    if a.friction.mid < b.friction.mid {
        b.friction
    } else {
        a.friction
    }
}

/// Whether neither of two geoms has friction.
pub(crate) fn is_frictionless(a: &Geom, b: &Geom) -> bool
    ensures { result ≡ spec.is_frictionless a.now b.now }
{
    if a.condim < b.condim {
        b.condim == 1
    } else {
        a.condim == 1
    }
}

// The mean of two numbers.
fn mean(x: &Fix<32>, y: &Fix<32>) -> Fix<32>
    requires x { unsigned_abs x.now.mid ≤ 2 ^ 52 }
    requires y { unsigned_abs y.now.mid ≤ 2 ^ 52 }
    ensures { result ≡ spec.mean x.now y.now }
{
    Fix::from_raw(narrow(nearest(sum(i128::from(x.mid), i128::from(y.mid)), 2)))
}

// The smaller of two numbers.
fn smaller(x: &Fix<32>, y: &Fix<32>) -> Fix<32>
    ensures { result ≡ spec.smaller x.now y.now }
{
    if x.mid < y.mid { *x } else { *y }
}

// One of solref's numbers.
fn mixed_reference(timed: bool, x: &Fix<32>, y: &Fix<32>) -> Fix<32>
    requires x { unsigned_abs x.now.mid ≤ 2 ^ 52 }
    requires y { unsigned_abs y.now.mid ≤ 2 ^ 52 }
    ensures { result ≡ spec.mixed_reference timed x.now y.now }
{
    if timed { mean(x, y) } else { smaller(x, y) }
}

// Whether solref is a time constant and a damping ratio.
fn is_timed(soft: &Soft) -> bool
    requires { IsSoft soft.now }
    ensures { result ≡ has_positive_form soft.now }
{
    soft.tc.mid > 0
}

// Whether that of both is.
fn are_timed(s: &Soft, t: &Soft) -> bool
    requires first { IsSoft s.now }
    requires second { IsSoft t.now }
    ensures { result ≡ spec.are_timed s.now t.now }
{
    is_timed(s) && is_timed(t)
}

// The mix of each of their numbers.
fn blended(s: &Soft, t: &Soft) -> Soft
    requires first { IsSoft s.now }
    requires second { IsSoft t.now }
    ensures { result ≡ spec.mixed s.now t.now }
{
    let timed = are_timed(s, t);
    Soft {
        tc: mixed_reference(timed, &s.tc, &t.tc),
        dr: mixed_reference(timed, &s.dr, &t.dr),
        dmin: mean(&s.dmin, &t.dmin),
        dmax: mean(&s.dmax, &t.dmax),
        width: mean(&s.width, &t.width),
        mid: mean(&s.mid, &t.mid),
        power: (s.power + t.power) / 2,
    }
}

/// The softness of a contact of two geoms.
pub(crate) fn mixed(s: &Soft, t: &Soft) -> Soft
    requires first { IsSoft s.now }
    requires second { IsSoft t.now }
    ensures value { result ≡ spec.mixed s.now t.now }
    ensures soft { IsSoft result }
{
    blended(s, t)
}
