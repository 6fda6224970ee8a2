// Solref and solimp.
ghost use Rattle.std.specs.Prelude.{◌≡◌, ℕ, ◌^◌, ◌<◌, ◌≤◌, ◌&&◌};
ghost use Rattle.mj_judge.specs.Softness as spec;

use crate::numbers::{entry, is_between};
use fx_list::Array;
use fx_num::{Fix, Number};
use mj_types::{ModelCode, Soft};

/// Solref's two numbers: a time constant and a damping ratio, or minus a stiffness and a damping.
#[derive(Clone, Copy)]
pub struct Solref {
    pub tc: Fix<32>,
    pub dr: Fix<32>,
}

/// The numbers of solimp.
#[derive(Clone, Copy)]
pub struct Solimp {
    pub dmin: Fix<32>,
    pub dmax: Fix<32>,
    pub width: Fix<32>,
    pub mid: Fix<32>,
    pub power: u32,
}

fn is_positive(r: &Solref) -> bool
    ensures { result ≡ spec.is_positive r.now }
{
    1 << 20 <= r.tc.mid && (r.tc.mid <= 1 << 42 && (1 << 20 <= r.dr.mid && r.dr.mid <= 1 << 42))
}

fn is_direct(r: &Solref) -> bool
    ensures { result ≡ spec.is_direct r.now }
{
    r.tc.mid <= 0
        && (r.tc.mid.unsigned_abs() <= 1 << 52
            && (r.dr.mid <= 0 && r.dr.mid.unsigned_abs() <= 1 << 52))
}

/// Solref. `BadSolref` unless both numbers are from 2^-12 to 1024, or both from -2^20 to 0.
#[tactic(auto, unfolding(crate::specs::Softness::reference))]
pub fn reference(xs: &Array<Fix<32>>) -> Result<Solref, ModelCode>
    ensures { result ≡ spec.reference xs.now }
{
    let r = Solref {
        tc: entry(xs, 0),
        dr: entry(xs, 1),
    };
    let good = is_positive(&r) || is_direct(&r);
    if good {
        Ok(r)
    } else {
        Err(ModelCode::BadSolref)
    }
}

/// The nearest impedance from 0.0001 to 0.9999.
fn clamped(x: &Fix<32>) -> Fix<32>
    ensures { result ≡ spec.clamped x.now }
{
    if x.mid < 429_497 {
        Number::from_raw(429_497)
    } else if x.mid > 4_294_537_799 {
        Number::from_raw(4_294_537_799)
    } else {
        *x
    }
}

/// The whole number below a raw value, which is at most 2^63 in size.
fn power_of(n: &i64) -> u32
    ensures { result ≡ spec.power_of n.now }
{
    (n.unsigned_abs() / (1 << 32)) as u32
}

/// Whether a raw value is a whole number from 1 to 5.
fn is_power(n: &i64) -> bool
    ensures { result ≡ spec.is_power n.now }
{
    *n >= 0 && (n.unsigned_abs() % (1 << 32) == 0 && (1 <= power_of(n) && power_of(n) <= 5))
}

/// The numbers of solimp, the impedances clamped.
fn impedance_of(xs: &Array<Fix<32>>) -> Solimp
    ensures { result ≡ spec.impedance_of xs.now }
{
    Solimp {
        dmin: clamped(&entry(xs, 0)),
        dmax: clamped(&entry(xs, 1)),
        width: entry(xs, 2),
        mid: clamped(&entry(xs, 3)),
        power: power_of(&entry(xs, 4).mid),
    }
}

/// Whether solimp's width is from 2^-32 to 1024, and its power a whole number from 1 to 5.
fn is_impedance(xs: &Array<Fix<32>>) -> bool
    ensures { result ≡ (spec.is_width (spec.entry xs.now 2).mid
        && spec.is_power (spec.entry xs.now 4).mid) }
{
    is_between(&1, &(1 << 42), &entry(xs, 2).mid) && is_power(&entry(xs, 4).mid)
}

/// Solimp. `BadSolimp` unless its width is from 2^-32 to 1024 and its power a whole number from 1 to 5.
#[tactic(auto, unfolding(crate::specs::Softness::impedance))]
pub fn impedance(xs: &Array<Fix<32>>) -> Result<Solimp, ModelCode>
    ensures { result ≡ spec.impedance xs.now }
{
    if is_impedance(xs) {
        Ok(impedance_of(xs))
    } else {
        Err(ModelCode::BadSolimp)
    }
}

/// Both together.
pub fn soft(r: &Solref, i: &Solimp) -> Soft
    ensures { result ≡ spec.soft r.now i.now }
{
    Soft {
        tc: r.tc,
        dr: r.dr,
        dmin: i.dmin,
        dmax: i.dmax,
        width: i.width,
        mid: i.mid,
        power: i.power,
    }
}
