//! Impedances and reference accelerations, worked by hand from the formulas.
ghost use Rattle.std.specs.Prelude.{◌||◌, IsTrue};
ghost use Rattle.mj_types.specs.Lawful.{IsImpedance, IsSoft, has_direct_form, has_positive_form};

use fx_num::{Fix, Number, Over};
use mj_imp::{impedance, reference};
use mj_types::Soft;
use std::process::Abort;

const HALF: i64 = 1 << 31;

const ONE: i64 = 1 << 32;

macro_rules! number {
    ($x:expr) => {
        Number { mid: $x, rad: () }
    };
}

/// solimp 0.25 0.75 1 0.5 2 and solref -1 -1.
const QUARTERS: Soft = Soft {
    tc: number!(-ONE),
    dr: number!(-ONE),
    dmin: number!(HALF / 2),
    dmax: number!(3 * (HALF / 2)),
    width: number!(ONE),
    mid: number!(HALF),
    power: 2,
};

/// solimp 0.5 0.5 1 0.5 1 and solref -1 -1.
const HALVES: Soft = Soft {
    tc: number!(-ONE),
    dr: number!(-ONE),
    dmin: number!(HALF),
    dmax: number!(HALF),
    width: number!(ONE),
    mid: number!(HALF),
    power: 1,
};

fn is_impedance(x: &Fix<32>) -> bool
    ensures { IsTrue result → IsImpedance x.now }
{
    x.mid >= 429_497 && x.mid <= 4_294_537_799
}

fn has_form(soft: &Soft) -> bool
    ensures { IsTrue result → IsTrue (has_positive_form soft.now || has_direct_form soft.now) }
{
    if soft.tc.mid > 0 {
        soft.tc.mid >= 1 << 20
            && soft.tc.mid <= 1 << 42
            && soft.dr.mid >= 1 << 20
            && soft.dr.mid <= 1 << 42
    } else {
        soft.tc.mid.unsigned_abs() <= 1 << 52
            && soft.dr.mid <= 0
            && soft.dr.mid.unsigned_abs() <= 1 << 52
    }
}

// One test after another, so that each is known where all of them are told.
fn lawful(rt: &impl Abort, soft: &Soft) -> Soft
    ensures { IsSoft result }
{
    assert!(rt; has_form(soft));
    assert!(rt; is_impedance(&soft.dmin));
    assert!(rt; is_impedance(&soft.dmax));
    assert!(rt; is_impedance(&soft.mid));
    assert!(rt; soft.width.mid >= 1);
    assert!(rt; soft.width.mid <= 1 << 42);
    assert!(rt; soft.power >= 1);
    assert!(rt; soft.power <= 5);
    *soft
}

fn impedance_at(rt: &impl Abort, soft: &Soft, r: i64) -> i64 {
    assert!(rt; r.unsigned_abs() <= 1 << 56);
    impedance(&lawful(rt, soft), Fix::from_raw(r)).mid
}

fn reference_at(rt: &impl Abort, soft: &Soft, r: i64, jv: i64) -> Result<i64, Over> {
    assert!(rt; r.unsigned_abs() <= 1 << 56);
    assert!(rt; jv.unsigned_abs() <= 1 << 54);
    match reference(
        &lawful(rt, soft),
        Fix::from_raw(HALF),
        Fix::from_raw(r),
        Fix::from_raw(jv),
    ) {
        Ok(x) => Ok(x.mid),
        Err(over) => Err(over),
    }
}

#[test]
fn impedances_by_violation(rt: HostRuntime) {
    // 0.9 0.95 0.001 0.5 2
    let usual = Soft {
        dmin: number!(3_865_470_566),
        dmax: number!(4_080_218_931),
        width: number!(4_294_967),
        ..QUARTERS
    };
    let cubic = Soft {
        power: 3,
        ..QUARTERS
    };
    let early = Soft {
        mid: number!(HALF / 2),
        ..QUARTERS
    };
    let falling = Soft {
        dmin: QUARTERS.dmax,
        dmax: QUARTERS.dmin,
        ..QUARTERS
    };
    for (soft, r, wanted) in [
        // without a slope it is flat
        (HALVES, 0, HALF),
        (HALVES, -HALF, HALF),
        (HALVES, 5 * ONE, HALF),
        // it ends at dmin and dmax
        (usual, 0, 3_865_470_566),
        (usual, -4_294_967, 4_080_218_931),
        (usual, ONE, 4_080_218_931),
        // two powers meet at the midpoint: 0.3125, 0.5 and 0.6875
        (QUARTERS, HALF / 2, 1_342_177_280),
        (QUARTERS, HALF, HALF),
        (QUARTERS, -3 * (HALF / 2), 2_952_790_016),
        // the third power: 0.28125
        (cubic, HALF / 2, 1_207_959_552),
        // a midpoint of 0.25, and a violation of 0.625: 0.65625
        (early, 5 * (HALF / 4), 2_818_572_288),
        // it may fall: 0.6875
        (falling, HALF / 2, 2_952_790_016),
    ] {
        assert_eq!(rt; impedance_at(&rt, &soft, r), wanted);
    }
}

// At an impedance of 0.5.
#[test]
fn references_by_violation_and_velocity(rt: HostRuntime) {
    // b = 8 and k = 16
    let timed = Soft {
        tc: number!(HALF),
        dr: number!(ONE),
        ..HALVES
    };
    // b = 1
    let damped = Soft {
        dr: number!(-HALF),
        ..HALVES
    };
    // a stiffness of 2^54 raw, and one of 2^66
    let stiff = Soft {
        tc: number!(-(1 << 52)),
        dr: number!(0),
        ..HALVES
    };
    let stiffer = Soft {
        dmax: number!(1 << 25),
        ..stiff
    };
    let fast = 1 << 54;
    for (soft, r, jv, wanted) in [
        // b = 2 and k = 4
        (HALVES, -HALF, 0, Ok(ONE)),
        (HALVES, -HALF, ONE, Ok(-ONE)),
        (timed, -HALF, 0, Ok(4 * ONE)),
        (timed, -HALF, HALF / 2, Ok(2 * ONE)),
        // just the limit, and past it
        (damped, 0, fast, Ok(-fast)),
        (HALVES, 0, fast, Err(Over::Value)),
        (stiff, 0, 0, Ok(0)),
        (stiffer, 0, 0, Err(Over::Value)),
    ] {
        assert_eq!(rt; reference_at(&rt, &soft, r, jv), wanted);
    }
}
