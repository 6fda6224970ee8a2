// Numbers with a radius: products, quotients, roots, and what is refused.
use fx_near::{Band, Near, div_near, exact, root_near};
use fx_num::{
    Fix, Number, Over, Plain, Sum, join_either, join_grouped, mul_alike, mul_into, none, settle,
    settle_alike, widened,
};

// Macros and not functions, so that a call's condition is computed from the numbers.
macro_rules! near {
    ($mid:expr, $rad:expr) => {
        Number {
            mid: $mid,
            rad: $rad,
        }
    };
}

#[test]
fn products_settle(rt: HostRuntime) {
    let mut acc: Sum<Band, 1> = none::<Band, 1>();
    let five = exact::<1>(Fix::<1>::from_raw(5));
    mul_into::<Band, 0, 1, 1>(near!(3, 1), five, &mut acc);
    assert_eq!(rt; acc.mid, 15);
    assert_eq!(rt; acc.rad, 5);
    assert_eq!(rt; settle::<Band, 1, 0>(acc, 7), Ok(near!(7, 3)));
    assert_eq!(rt; settle::<Band, 1, 0>(acc, 6), Err(Over::Value));
}

#[test]
fn a_wide_radius_is_refused(rt: HostRuntime) {
    let widest = widened::<Band, 0>(near!(1, 1 << 40));
    assert_eq!(rt; settle::<Band, 0, 0>(widest, 1), Ok(near!(1, 1 << 40)));
    let wider = widened::<Band, 0>(near!(1, (1 << 40) + 1));
    assert_eq!(rt; settle::<Band, 0, 0>(wider, 1), Err(Over::Radius));
    assert_eq!(rt; settle::<Band, 0, 0>(wider, 0), Err(Over::Value));
}

// By the widened quotient w = a 2^F, its rounded quotient m, and
// (ra 2^F + m rb + |w - m b|) / (b - rb) rounded up.
#[test]
fn quotients_have_radii(rt: HostRuntime) {
    assert_eq!(rt; div_near::<0>(near!(7, 1), near!(2, 0), 3), Ok(near!(3, 1)));
    assert_eq!(rt;
        div_near::<0>(near!(7, 1), near!(2, 0), 2),
        Err(Over::Value)
    );
    assert_eq!(rt; div_near::<0>(near!(7, 1), near!(2, 1), 3), Ok(near!(3, 5)));
    assert_eq!(rt;
        div_near::<0>(near!(7, 1 << 42), near!(2, 0), 3),
        Err(Over::Radius)
    );
    // 2^94 / (3 2^32), which leaves 2^32
    assert_eq!(rt;
        div_near::<32>(near!(1 << 62, 0), near!(3 << 32, 0), i64::MAX),
        Ok(near!(1_537_228_672_809_129_301, 1))
    );
}

// By the widened number w = a 2^F, its root m, and (ra 2^F + w - m m) / m rounded up.
#[test]
fn roots_have_radii(rt: HostRuntime) {
    assert_eq!(rt; root_near::<0>(near!(16, 0), 4), Ok(near!(4, 0)));
    assert_eq!(rt; root_near::<0>(near!(17, 0), 4), Ok(near!(4, 1)));
    assert_eq!(rt; root_near::<0>(near!(16, 0), 3), Err(Over::Value));
    assert_eq!(rt;
        root_near::<0>(near!(1 << 50, 1 << 49), 1 << 40),
        Ok(near!(1 << 25, 1 << 24))
    );
    // w = 2^94 - 2^32 is below the square of 2^47, and 2^48 - 2^32 - 1 above that of the number before
    assert_eq!(rt;
        root_near::<32>(near!((1 << 62) - 1, 0), i64::MAX),
        Ok(near!((1 << 47) - 1, 2))
    );
}

#[test]
fn kinds_agree_on_midpoints(rt: HostRuntime) {
    assert_eq!(rt; join_either::<Band>(1, 2), (3, 3));
    assert_eq!(rt; join_grouped::<Band>(1, 2, 3), (6, 6));
    let mut near = none::<Band, 0>();
    let mut plain = none::<Plain, 0>();
    let three = Fix::<0>::from_raw(3);
    mul_alike::<Band, Plain, 0, 0, 0>(
        (near!(3, 1), three),
        (near!(3, 0), three),
        &mut near,
        &mut plain,
    );
    assert_eq!(rt; near.rad, 3);
    let settled = settle_alike::<Band, Plain, 0, 0>(near, plain, 9);
    assert_eq!(rt; settled.0, Ok(near!(9, 3)));
    assert_eq!(rt; settled.1, Ok(Fix::<0>::from_raw(9)));
}
