// Rotations: expected values are worked by hand.
use fx_num::{Fix, Number, Over};
use fx_vec::{M3, Q4, Vector3};
use mj_quat::{advance, axis_angle, compose, matrix, renorm, rotate, unit, vector_length};

/// 1 at scale 32.
const ONE: i64 = 1 << 32;

// Macros and not functions, so that a call's condition is computed from the numbers.
macro_rules! quaternion {
    ($w:expr, $x:expr, $y:expr, $z:expr) => {
        Q4 {
            w: Number { mid: $w, rad: () },
            x: Number { mid: $x, rad: () },
            y: Number { mid: $y, rad: () },
            z: Number { mid: $z, rad: () },
        }
    };
}

macro_rules! vector {
    ($x:expr, $y:expr, $z:expr) => {
        Vector3 {
            x: Number { mid: $x, rad: () },
            y: Number { mid: $y, rad: () },
            z: Number { mid: $z, rad: () },
        }
    };
}

// i j = k, and j i = -k. (1 + 2i + 3j + 4k)(5 + 6i + 7j + 8k) = -60 + 12i + 30j + 24k, here with each
// number over 16.
#[test]
fn quaternions_compose(rt: HostRuntime) {
    let i = quaternion!(0, 4294967296, 0, 0);
    let j = quaternion!(0, 0, 4294967296, 0);
    assert_eq!(rt; compose(&i, &j), quaternion!(0, 0, 0, ONE));
    assert_eq!(rt; compose(&j, &i), quaternion!(0, 0, 0, -ONE));
    let a = quaternion!(268435456, 536870912, 805306368, 1073741824);
    let b = quaternion!(1342177280, 1610612736, 1879048192, 2147483648);
    assert_eq!(rt;
        compose(&a, &b),
        quaternion!(
            -60 * (ONE / 256),
            12 * (ONE / 256),
            30 * (ONE / 256),
            24 * (ONE / 256)
        )
    );
}

#[test]
fn identity_has_the_identity_matrix(rt: HostRuntime) {
    assert_eq!(rt;
        matrix(&quaternion!(4294967296, 0, 0, 0)),
        M3 {
            a: vector!(ONE, 0, 0),
            b: vector!(0, ONE, 0),
            c: vector!(0, 0, ONE),
        }
    );
}

// A quarter turn about the third axis: w = z = 3037000500, so 2 w z = 2 z z =
// 18446744074000500000, which is 4294967296 when it is rounded to scale 32, as 1 is.
#[test]
fn a_quarter_turn_takes_the_first_axis_to_the_second(rt: HostRuntime) {
    let q = quaternion!(3037000500, 0, 0, 3037000500);
    assert_eq!(rt; rotate(&q, &vector!(4294967296, 0, 0)), vector!(0, ONE, 0));
    assert_eq!(rt; rotate(&q, &vector!(0, 4294967296, 0)), vector!(-ONE, 0, 0));
    assert_eq!(rt; rotate(&q, &vector!(0, 0, 4294967296)), vector!(0, 0, ONE));
}

#[test]
fn renorm_refuses_past_its_bounds(rt: HostRuntime) {
    let q = quaternion!(8589934592, 0, 0, 0);
    let one = quaternion!(ONE, 0, 0, 0);
    assert_eq!(rt; renorm(&q, 1, 8589934592), Ok(one));
    assert_eq!(rt; renorm(&q, 1, 8589934591), Err(Over::Value));
    assert_eq!(rt; renorm(&q, 8589934592, 8589934592), Ok(one));
    assert_eq!(rt; renorm(&q, 8589934593, 8589934593), Err(Over::Value));
}

// Four numbers of 1/4 have the length 1/2, and 0.3 and 0.4 have it nearly. Four of 512 have the length
// 2^10, as has 2^10 beside numbers of a few units, of which 1536 are a tie; 768 and 1024 have 1280.
#[test]
fn renorm_takes_lengths_far_from_1(rt: HostRuntime) {
    let quarters = quaternion!(1073741824, 1073741824, 1073741824, 1073741824);
    let halves = quaternion!(ONE / 2, ONE / 2, ONE / 2, ONE / 2);
    assert_eq!(rt; renorm(&quarters, 2147483648, 2147483648), Ok(halves));
    let tenths = quaternion!(1288490187, 0, 0, -1717986916);
    let fifths = quaternion!(2576980378, 0, 0, -3435973837);
    assert_eq!(rt; renorm(&tenths, 2147483645, 2147483645), Ok(fifths));
    let even = quaternion!(2199023255552, -2199023255552, 2199023255552, -2199023255552);
    let signed = quaternion!(ONE / 2, -(ONE / 2), ONE / 2, -(ONE / 2));
    assert_eq!(rt; renorm(&even, 4398046511104, 4398046511104), Ok(signed));
    let first = quaternion!(4398046511104, 1536, -1536, 1537);
    let units = quaternion!(ONE, 1, -1, 2);
    assert_eq!(rt; renorm(&first, 4398046511104, 4398046511104), Ok(units));
    let long = quaternion!(3298534883328, 0, 0, -4398046511104);
    assert_eq!(rt; renorm(&long, 5497558138880, 5497558138880), Ok(fifths));
}

// The lengths are 1 and two units, and 1.06 (0.75 times the root of 2, less a part of a unit).
#[test]
fn renorm_takes_lengths_near_1(rt: HostRuntime) {
    let past = quaternion!(4294967297, 65536, 0, -92681);
    let turned = quaternion!(4294967295, 65536, 0, -92681);
    assert_eq!(rt; renorm(&past, 4294967298, 4294967298), Ok(turned));
    let level = quaternion!(3221225472, -3221225472, 0, 0);
    let quarter = quaternion!(3037000501, -3037000501, 0, 0);
    assert_eq!(rt; renorm(&level, 4555500749, 4555500749), Ok(quarter));
}

// 0.6 and 0.8, rounded: 2576980377.6 and 3435973836.8.
#[test]
fn unit_refuses_below_its_bound(rt: HostRuntime) {
    let x = vector!(12884901888, 17179869184, 0);
    assert_eq!(rt;
        unit(&x, 21474836480),
        Ok(vector!(2576980378, 3435973837, 0))
    );
    assert_eq!(rt; unit(&x, 21474836481), Err(Over::Value));
    assert_eq!(rt; vector_length(&x), Fix::from_raw(5 * ONE));
}

// 3 and 4 units, 768 and 1024, and 2^28 thrice.
#[test]
fn unit_takes_lengths_far_from_1(rt: HostRuntime) {
    let fifths = vector!(2576980378, -3435973837, 0);
    assert_eq!(rt; unit(&vector!(3, -4, 0), 5), Ok(fifths));
    assert_eq!(rt;
        unit(&vector!(3298534883328, -4398046511104, 0), 5497558138880),
        Ok(fifths)
    );
    let third = 2479700525;
    assert_eq!(rt;
        unit(
            &vector!(
                1152921504606846976,
                1152921504606846976,
                -1152921504606846976
            ),
            1996918623117814387
        ),
        Ok(vector!(third, third, -third))
    );
}

// The nearest to pi is 13493037705, and to half of it 6746518852, whose sine is 1 and cosine 0.
#[test]
fn a_half_turn_about_an_axis(rt: HostRuntime) {
    let axis = vector!(0, 0, 4294967296);
    assert_eq!(rt;
        axis_angle(
            &axis,
            Number {
                mid: 13493037705,
                rad: ()
            }
        ),
        quaternion!(0, 0, 0, ONE)
    );
    assert_eq!(rt;
        axis_angle(&axis, Number { mid: 0, rad: () }),
        quaternion!(ONE, 0, 0, 0)
    );
}

#[test]
fn a_half_turn_in_a_second(rt: HostRuntime) {
    let second: Fix<32> = Number {
        mid: 4294967296,
        rad: (),
    };
    let w = vector!(0, 0, 13493037705);
    assert_eq!(rt;
        advance(&quaternion!(4294967296, 0, 0, 0), &w, second),
        Ok(quaternion!(0, 0, 0, ONE))
    );
    assert_eq!(rt;
        advance(&quaternion!(0, 0, 0, 0), &w, second),
        Err(Over::Value)
    );
}

// 0.002 is 8589935, whose product with 1 unit is less than half of a unit.
#[test]
fn a_velocity_that_turns_by_nothing_leaves_it(rt: HostRuntime) {
    let q = quaternion!(3037000500, 0, 0, 3037000500);
    let h: Fix<32> = Number {
        mid: 8589935,
        rad: (),
    };
    assert_eq!(rt; advance(&q, &vector!(0, 0, 0), h), Ok(q));
    assert_eq!(rt; advance(&q, &vector!(1, 1, 1), h), Ok(q));
}
