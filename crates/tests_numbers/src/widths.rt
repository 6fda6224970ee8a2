// Sums with a width that are settled: value and radius, at shifts and widths for which 64 bits are too
// few, and at those next to them. The radius is (width + what rounding loses) / 2^shift, rounded up.
use fx_near::{Band, Near};
use fx_num::{Number, Over, Total, settle};

fn near<const F: u32>(mid: i64, rad: u64) -> Result<Near<F>, Over> {
    Ok(Number { mid, rad })
}

#[test]
fn sums_settle_unshifted(rt: HostRuntime) {
    for (mid, rad, limit, want) in [
        (-7i128, 1u128 << 40, 7i64, near(-7, 1 << 40)),
        (-7, 1 << 64, 7, Err(Over::Radius)),
        (-7, 1 << 64, 6, Err(Over::Value)),
    ] {
        assert!(rt; limit >= 0);
        assert_eq!(rt; settle::<Band, 3, 3>(Total { mid, rad }, limit), want);
    }
}

// 7/2 loses 1/2: the width that just fits is 2^60 less 2^19.
#[test]
fn sums_settle_by_20_bits(rt: HostRuntime) {
    for (mid, rad, limit, want) in [
        (
            7i128 << 19,
            (1u128 << 60) - (1 << 19),
            3i64,
            near(3, 1 << 40),
        ),
        (7 << 19, (1 << 60) - (1 << 19) + 1, 3, Err(Over::Radius)),
    ] {
        assert!(rt; limit >= 0);
        assert_eq!(rt; settle::<Band, 52, 32>(Total { mid, rad }, limit), want);
    }
}

#[test]
fn sums_settle_by_32_bits(rt: HostRuntime) {
    for (mid, rad, limit, want) in [
        ((5i128 << 32) + 1, 1u128 << 70, 5i64, near(5, (1 << 38) + 1)),
        (5 << 31, (1 << 71) - 1, 2, near(2, (1 << 39) + 1)),
        (5 << 31, 1 << 71, 2, near(2, (1 << 39) + 1)),
        (5 << 32, 1 << 72, 5, near(5, 1 << 40)),
        (5 << 32, (1 << 72) + 1, 5, Err(Over::Radius)),
        (i128::MAX, 0, i64::MAX, Err(Over::Value)),
    ] {
        assert!(rt; limit >= 0);
        assert_eq!(rt; settle::<Band, 72, 40>(Total { mid, rad }, limit), want);
    }
}

// 2^63 less 1/2 is a tie between the greatest number and one that passes it.
#[test]
fn sums_settle_by_63_bits(rt: HostRuntime) {
    let most = (1i128 << 126) - (1 << 62);
    for (mid, rad, want) in [
        (most, 0u128, near(i64::MAX, 1)),
        (most + 1, 0, Err(Over::Value)),
        (-most, (1 << 103) - (1 << 62), near(-i64::MAX, 1 << 40)),
        (-most, 1 << 103, Err(Over::Radius)),
    ] {
        assert_eq!(rt; settle::<Band, 95, 32>(Total { mid, rad }, i64::MAX), want);
    }
}

#[test]
fn sums_settle_by_64_bits(rt: HostRuntime) {
    for (mid, rad, limit, want) in [
        (5i128 << 63, 1u128 << 70, 2i64, near(2, 65)),
        ((5 << 63) + 1, 1 << 70, 3, near(3, 65)),
        ((5 << 63) + 1, 1 << 70, 2, Err(Over::Value)),
        (-(5 << 63), (1 << 104) - (1 << 63), 2, near(-2, 1 << 40)),
        (-(5 << 63), 1 << 104, 2, Err(Over::Radius)),
    ] {
        assert!(rt; limit >= 0);
        assert_eq!(rt; settle::<Band, 96, 32>(Total { mid, rad }, limit), want);
    }
}

// The first row's width and loss add up to more than 128 bits: 4 1/2, less 2^-126.
#[test]
fn sums_settle_by_126_bits(rt: HostRuntime) {
    for (mid, rad, limit, want) in [
        (1i128 << 125, u128::MAX, 0i64, near(0, 5)),
        (i128::MAX, 0, 2, near(2, 1)),
        (i128::MAX, 1 << 126, 2, near(2, 2)),
        (i128::MIN, 0, 2, near(-2, 0)),
        (i128::MIN, 0, 1, Err(Over::Value)),
    ] {
        assert!(rt; limit >= 0);
        assert_eq!(rt; settle::<Band, 126, 0>(Total { mid, rad }, limit), want);
    }
}
