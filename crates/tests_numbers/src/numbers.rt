// Plain numbers in fixed point: settled, multiplied and divided.
ghost use Rattle.std.specs.Prelude.{◌≡◌};

use fx_num::{
    Fix, Over, Plain, Sum, Total, div_nearest, join_either, join_grouped, mul_alike, mul_into,
    none, settle, settle_alike, settle_plain, times, widened,
};

// A sum at scale 64.
fn sum_of(mid: i128) -> Sum<Plain, 64>
    ensures { result.mid ≡ mid }
{
    Total { mid, rad: () }
}

// The stored number of an answer.
fn raw(answer: Result<Fix<32>, Over>) -> Result<i64, Over> {
    match answer {
        Ok(number) => Ok(number.mid),
        Err(over) => Err(over),
    }
}

// A tie goes toward zero. The limit is judged on the rounded number.
#[test]
fn sums_settle(rt: HostRuntime) {
    let half = 1i128 << 31;
    let most = 0x7FFF_FFFF_FFFF_FFFF_0000_0000i128;
    for (mid, limit, want) in [
        (3 * half, 1, Ok(1)),
        (-3 * half, 1, Ok(-1)),
        (3 * half, 0, Err(Over::Value)),
        (3 * half + 1, 2, Ok(2)),
        (3 * half + 1, 1, Err(Over::Value)),
        (-3 * half - 1, 1, Err(Over::Value)),
        (most + half, i64::MAX, Ok(i64::MAX)),
        (most + half + 1, i64::MAX, Err(Over::Value)),
        (-most - half, i64::MAX, Ok(-i64::MAX)),
        (i128::MIN, i64::MAX, Err(Over::Value)),
    ] {
        assert!(rt; limit >= 0);
        assert_eq!(rt; raw(settle::<Plain, 64, 32>(sum_of(mid), limit)), want);
        assert_eq!(rt; raw(settle_plain::<64, 32>(&sum_of(mid), limit)), want);
    }
}

#[test]
fn products_are_added_and_rounded(rt: HostRuntime) {
    let mut acc = none::<Plain, 5>();
    let a = Fix::<2>::from_raw(-6);
    let b = Fix::<3>::from_raw(7);
    mul_into::<Plain, 2, 3, 5>(a, b, &mut acc);
    assert_eq!(rt; acc.mid, -42);
    assert_eq!(rt; widened::<Plain, 2>(a).mid, -6);
    let half = Fix::<32>::from_raw(1 << 31);
    let three = Fix::<32>::from_raw(3);
    assert_eq!(rt; raw(times(&three, &half, 1)), Ok(1));
    assert_eq!(rt; raw(times(&three, &half, 0)), Err(Over::Value));
}

#[test]
fn quotients_are_judged(rt: HostRuntime) {
    for (n, d, limit, want) in [
        (7i128, 2i128, 3i64, Ok(3)),
        (-7, 2, 3, Ok(-3)),
        (8, 3, 3, Ok(3)),
        (8, 2, 3, Err(Over::Value)),
        (-8, 2, 3, Err(Over::Value)),
        (i128::MIN, 1, i64::MAX, Err(Over::Value)),
    ] {
        assert!(rt; d > 0);
        assert!(rt; limit >= 0);
        assert_eq!(rt; div_nearest(n, d, limit), want);
    }
}

#[test]
fn calls_at_two_kinds_agree(rt: HostRuntime) {
    join_either::<Plain>((), ());
    join_grouped::<Plain>((), (), ());
    let mut first = sum_of(1);
    let mut second = sum_of(1);
    let two = Fix::<32>::from_raw(2);
    mul_alike::<Plain, Plain, 32, 32, 64>((two, two), (two, two), &mut first, &mut second);
    assert_eq!(rt; first.mid, 5);
    let settled = settle_alike::<Plain, Plain, 64, 64>(first, second, 5);
    assert_eq!(rt; settled.0, settled.1);
}
