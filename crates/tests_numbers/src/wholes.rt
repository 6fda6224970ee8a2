// Integers: expected values are worked by hand, or apart with integers of any size.
use fx_whole::{
    Divisor, add_product, difference, is_within, isqrt, narrow, nearest, nearest_by, nearest_shift,
    negate, power, product, scale_up, scale_up_wide, size, sum, wide_product,
};

#[test]
fn quotients_are_rounded(rt: HostRuntime) {
    for (n, d, want) in [
        (1i128, 2i128, 0i128),
        (3, 2, 1),
        (-3, 2, -1),
        (5, 2, 2),
        (7, 2, 3),
        (-7, 2, -3),
        (8, 3, 3),
        (i128::MIN, 1, i128::MIN),
        (5 << 72, 1 << 73, 2),
        (7 << 72, 1 << 73, 3),
        (-((7 << 72) + 1), 1 << 73, -4),
        (10_000_000_000_000_000, 2_500_000_000, 4_000_000),
        (10_000_000_001_250_000, 2_500_000_000, 4_000_000),
        (10_000_000_001_250_000_001, 2_500_000_000, 4_000_000_001),
        // here a guess by the reciprocal is one too near to zero
        (69_373_233_891_653_716_868, 260_947, 265_851_816_237_220),
        (
            -166_719_999_424_147_524_186_492_192,
            1_369_346_973_433_305_389,
            -121_751_465,
        ),
        // and here, with a small divisor or a large quotient, it is far off
        (
            i128::MAX,
            1_023,
            166_315_917_361_162_494_361_375_663_456_387_200,
        ),
        (
            i128::MIN,
            1_023,
            -166_315_917_361_162_494_361_375_663_456_387_200,
        ),
        (i128::MAX, 1 << 73, 1 << 54),
    ] {
        assert!(rt; d > 0);
        assert!(rt; d <= 1 << 73);
        assert_eq!(rt; nearest(n, d), want);
        assert_eq!(rt; nearest_by(n, &Divisor::new(d)), want);
    }
}

// Among them are sizes past 2^126 and shifts past 63, where one sum and one shift of an i128 or of 64
// bits don't do.
#[test]
fn shifts_are_rounded(rt: HostRuntime) {
    for (n, shift, want) in [
        (3i128 << 31, 32u32, 1i128),
        (-(3 << 31), 32, -1),
        ((3 << 31) + 1, 32, 2),
        (i128::MIN, 0, i128::MIN),
        (i128::MAX, 0, i128::MAX),
        (1 << 126, 63, 1 << 63),
        ((1 << 126) + (1 << 62), 63, 1 << 63),
        ((1 << 126) + (1 << 62) + 1, 63, (1 << 63) + 1),
        (-(1 << 126) - (1 << 62), 63, -(1 << 63)),
        (-(1 << 126) - (1 << 62) - 1, 63, -(1 << 63) - 1),
        (i128::MAX, 63, 1 << 64),
        (1 << 63, 64, 0),
        ((1 << 63) + 1, 64, 1),
        (i128::MIN, 64, -(1 << 63)),
        ((1 << 126) + (1 << 63), 64, 1 << 62),
        ((1 << 126) + (1 << 63) + 1, 64, (1 << 62) + 1),
        (-(1 << 126) - (1 << 69), 70, -(1 << 56)),
        (-(1 << 126) - (1 << 69) - 1, 70, -(1 << 56) - 1),
        (1 << 125, 126, 0),
        (3 << 125, 126, 1),
        (-(3 << 125), 126, -1),
        (-(3 << 125) - 1, 126, -2),
        (i128::MAX, 126, 2),
        (i128::MIN, 126, -2),
    ] {
        assert!(rt; shift <= 126);
        assert_eq!(rt; nearest_shift(n, shift), want);
    }
}

#[test]
fn roots_are_taken(rt: HostRuntime) {
    for (n, want) in [
        (0i128, 0i128),
        (1, 1),
        (3, 1),
        (4, 2),
        (15, 3),
        (16, 4),
        (10_000_000_000_000_000_000_000, 100_000_000_000),
        (9_999_999_999_999_999_999_999, 99_999_999_999),
        (1 << 126, 1 << 63),
        ((1 << 126) - 1, (1 << 63) - 1),
        (i128::MAX, 13_043_817_825_332_782_212),
        // here a guess without division is one too small
        (19_714_168_324_096, 4_440_064),
        (
            219_461_076_887_730_353_246_356_517_139_984,
            14_814_218_740_376_772,
        ),
        (
            219_461_076_887_730_353_246_356_517_139_983,
            14_814_218_740_376_771,
        ),
    ] {
        assert!(rt; n >= 0);
        assert_eq!(rt; isqrt(n), want);
    }
}

#[test]
fn arithmetic_is_exact(rt: HostRuntime) {
    assert_eq!(rt; product(i64::MIN, i64::MIN), 1 << 126);
    assert_eq!(rt; wide_product(-3, 5), -15);
    assert_eq!(rt; sum(2, -5), -3);
    assert_eq!(rt; add_product(100, 7, -8), 44);
    assert_eq!(rt; difference(2, -5), 7);
    assert_eq!(rt; negate(7), -7);
    assert_eq!(rt; narrow(-9), -9);
    assert!(rt; is_within(-9, 9));
    assert!(rt; !is_within(i128::MIN, 9));
    assert_eq!(rt; size(-9), 9);
    assert_eq!(rt; power(126), 1 << 126);
    assert_eq!(rt; scale_up(-3, 4), -48);
    assert_eq!(rt; scale_up_wide(3, 4), 48);
}
