// Plain vectors, spatial vectors and inertias: expected values are worked by hand.
mod with_radii;

use fx_num::{Fix, Number, Over, Plain, Total};
use fx_vec::{
    Inertia10, Total3, Total6, V3, Vector3, Vector6, add6, add10, cross_into, dot_into,
    force_cross_into, inertia_into, minus, motion_cross_into, move_along, pair_into, plus, project,
    settle3, settle6, stretch, times6_into,
};

// Macros and not functions, so that a call's condition is computed from the numbers.
macro_rules! vector {
    ($x:expr, $y:expr, $z:expr) => {
        Vector3 {
            x: Number { mid: $x, rad: () },
            y: Number { mid: $y, rad: () },
            z: Number { mid: $z, rad: () },
        }
    };
}

macro_rules! motion {
    () => {
        Vector6 {
            ang: vector!(1, 2, 3),
            lin: vector!(4, 5, 6),
        }
    };
}

macro_rules! force {
    () => {
        Vector6 {
            ang: vector!(7, 8, 9),
            lin: vector!(10, 11, 12),
        }
    };
}

macro_rules! totals {
    ($x:expr, $y:expr, $z:expr) => {
        Total3 {
            x: Total { mid: $x, rad: () },
            y: Total { mid: $y, rad: () },
            z: Total { mid: $z, rad: () },
        }
    };
}

macro_rules! first_ten {
    () => {
        Inertia10 {
            xx: 1,
            xy: 2,
            xz: 3,
            yy: 4,
            yz: 5,
            zz: 6,
            mx: 7,
            my: 8,
            mz: 9,
            mass: 10,
        }
    };
}

#[test]
fn dot_is_added(rt: HostRuntime) {
    let mut out = Total { mid: 100, rad: () };
    dot_into::<Plain, 2, 3, 5>(&vector!(1, 2, 3), &vector!(4, 5, 6), &mut out);
    assert_eq!(rt; out.mid, 132);
}

#[test]
fn cross_is_added(rt: HostRuntime) {
    let mut out = totals!(100, 200, 300);
    cross_into::<Plain, 2, 3, 5>(&vector!(1, 2, 3), &vector!(4, 5, 6), &mut out);
    assert_eq!(rt; out, totals!(97, 206, 297));
}

#[test]
fn pair_is_the_power(rt: HostRuntime) {
    let mut out = Total { mid: 0, rad: () };
    pair_into::<Plain, 2, 3, 5>(&motion!(), &force!(), &mut out);
    // 7 + 16 + 27 and 40 + 55 + 72
    assert_eq!(rt; out.mid, 217);
}

#[test]
fn motion_cross_is_added(rt: HostRuntime) {
    let mut out = Total6 {
        ang: totals!(0, 0, 0),
        lin: totals!(1, 1, 1),
    };
    motion_cross_into::<Plain, 2, 3, 5>(&motion!(), &force!(), &mut out);
    assert_eq!(rt; out.ang, totals!(-6, 12, -6));
    // (-3, 6, -3) and (-9, 18, -9)
    assert_eq!(rt; out.lin, totals!(-11, 25, -11));
}

#[test]
fn force_cross_is_added(rt: HostRuntime) {
    let mut out = Total6 {
        ang: totals!(1, 1, 1),
        lin: totals!(0, 0, 0),
    };
    force_cross_into::<Plain, 2, 3, 5>(&motion!(), &force!(), &mut out);
    // (-6, 12, -6) twice
    assert_eq!(rt; out.ang, totals!(-11, 25, -11));
    assert_eq!(rt; out.lin, totals!(-9, 18, -9));
}

// The rates of a motion and of a force leave their power as it is: (v x s) . f + s . (v x* f) = 0.
// Here f is (1, 0, 0; 0, 1, 0), and the two powers are 18 and -18.
#[test]
fn rates_keep_the_power(rt: HostRuntime) {
    let mut out = Total6 {
        ang: totals!(0, 0, 0),
        lin: totals!(0, 0, 0),
    };
    let f = Vector6 {
        ang: vector!(1, 0, 0),
        lin: vector!(0, 1, 0),
    };
    force_cross_into::<Plain, 2, 3, 5>(&motion!(), &f, &mut out);
    assert_eq!(rt; out.ang, totals!(-6, 3, 2));
    assert_eq!(rt; out.lin, totals!(-3, 0, 1));
    let rate = Vector6 {
        ang: vector!(-6, 3, 2),
        lin: vector!(-3, 0, 1),
    };
    let s = Vector6 {
        ang: vector!(7, 8, 9),
        lin: vector!(10, 11, 12),
    };
    let mut power = Total { mid: 18, rad: () };
    pair_into::<Plain, 2, 3, 5>(&s, &rate, &mut power);
    assert_eq!(rt; power.mid, 0);
}

#[test]
fn inertia_gives_the_momentum(rt: HostRuntime) {
    let mut out = Total6 {
        ang: totals!(0, 0, 0),
        lin: totals!(0, 0, 0),
    };
    inertia_into::<Plain, 2, 42>(&first_ten!(), &motion!(), &mut out);
    // (14, 25, 31) and (3, -6, 3)
    assert_eq!(rt; out.ang, totals!(17, 19, 34));
    // (40, 50, 60) less (6, -12, 6)
    assert_eq!(rt; out.lin, totals!(34, 62, 54));
}

#[test]
fn inertias_add_up(rt: HostRuntime) {
    let both = add10(&first_ten!(), &first_ten!());
    assert_eq!(rt;
        both,
        Inertia10 {
            xx: 2,
            xy: 4,
            xz: 6,
            yy: 8,
            yz: 10,
            zz: 12,
            mx: 14,
            my: 16,
            mz: 18,
            mass: 20,
        }
    );
}

#[test]
fn six_sums_are_added(rt: HostRuntime) {
    let mut out = Total6 {
        ang: totals!(1, 2, 3),
        lin: totals!(4, 5, 6),
    };
    let more = Total6 {
        ang: totals!(10, 20, 30),
        lin: totals!(40, 50, -60),
    };
    add6::<Plain, 5>(&more, &mut out);
    assert_eq!(rt; out.ang, totals!(11, 22, 33));
    assert_eq!(rt; out.lin, totals!(44, 55, -54));
}

#[test]
fn multiples_are_added(rt: HostRuntime) {
    let mut out = Total6 {
        ang: totals!(1, 1, 1),
        lin: totals!(0, 0, 0),
    };
    times6_into::<Plain, 2, 3, 5>(&Fix::from_raw(-3), &motion!(), &mut out);
    assert_eq!(rt; out.ang, totals!(-2, -5, -8));
    assert_eq!(rt; out.lin, totals!(-12, -15, -18));
}

#[test]
fn settling_judges_in_order(rt: HostRuntime) {
    let sums = totals!(5, 6, -11);
    assert_eq!(rt; settle3::<Plain, 2, 1>(&sums, 5), Ok(vector!(2, 3, -5)));
    assert_eq!(rt; settle3::<Plain, 2, 1>(&sums, 4), Err(Over::Value));
    let six = Total6 {
        ang: totals!(0, 2, 4),
        lin: sums,
    };
    let settled = Vector6 {
        ang: vector!(0, 1, 2),
        lin: vector!(2, 3, -5),
    };
    assert_eq!(rt; settle6::<Plain, 2, 1>(&six, 5), Ok(settled));
    assert_eq!(rt; settle6::<Plain, 2, 1>(&six, 4), Err(Over::Value));
}

#[test]
fn plain_vectors_are_added_and_moved(rt: HostRuntime) {
    let one = 1i64 << 32;
    let a: V3<Plain, 32> = vector!(1, 2, 3);
    let b: V3<Plain, 32> = vector!(10, -20, 30);
    assert_eq!(rt; plus(&a, &b), vector!(11, -18, 33));
    assert_eq!(rt; minus(&a, &b), vector!(-9, 22, -27));
    // a half, a whole and minus a half, times 3: 1.5, 3 and -1.5, each rounded toward zero
    let n: V3<Plain, 32> = vector!(one / 2, one, -(one / 2));
    let three = Fix::from_raw(3);
    assert_eq!(rt; stretch(&n, &three), vector!(1, 3, -1));
    assert_eq!(rt; move_along(&a, &n, &three), vector!(2, 5, 1));
    // 5 - 20 - 15
    assert_eq!(rt; project(&n, &b), Fix::from_raw(-30));
}
