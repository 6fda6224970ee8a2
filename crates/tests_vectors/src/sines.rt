// Sine and cosine. Expected values are from the true ones, computed apart with decimals of 80 digits.
use fx_num::Fix;
use mj_quat::sin_cos;

/// Raw angles, each with 2^32 times its sine and its cosine, rounded down. The first 24 are up to 1000
/// in size. Of the next five a guess of the nearest quarter turns is one off, and the last two are the
/// largest that a sine is taken of.
const ANGLES: [(i64, i64, i64); 31] = [
    (3272802881, 2965142795, 3107196851),
    (3356495079, 3025123211, 3048831518),
    (2065473994856, -1029115214, -4169852030),
    (2627172457019, 3428274208, -2587214724),
    (3447855903562, -4277743765, 384255588),
    (-2963937104364, 3736193094, 2118396854),
    (1633203522859, -544491476, -4260313734),
    (3176711253553, -4201197178, -892572883),
    (-3402022353546, -1726598599, 3932632878),
    (-1413593436238, -2894010884, -3173554014),
    (3670362832194, 256423982, 4287305775),
    (-4058016621359, -3047213865, -3026752672),
    (-715492060332, 360636863, -4279799660),
    (-3633568797949, 3411188975, -2609699954),
    (-3195012222279, -2635714016, -3391128972),
    (-123183359380, 1698323449, -3944926050),
    (815829205847, 4265945631, 498449536),
    (-672379703908, 2167666340, 3707825064),
    (-2537429515950, -734794958, 4231645122),
    (1203951935119, -2816367131, -3242656359),
    (1700414643143, 291667728, 4285052392),
    (-1403013048706, 262708473, 4286925277),
    (-3481382929160, -179149404, 4291229376),
    (260393919318, -3461897339, -2542048563),
    (96438113733645, -3037000500, -3037000500),
    (-96438113733645, 3037000499, -3037000500),
    (289314341200935, -3037000500, 3037000499),
    (482190568668225, 3037000499, 3037000499),
    (-4492759898177566, -3037000500, -3037000500),
    (4503599627370496, 1419457227, 4053626185),
    (-4503599627370496, -1419457228, 4053626185),
];

/// Whether a number is the true one rounded down, or one more.
fn is_at(number: i64, floor: i64) -> bool {
    number == floor || number.wrapping_sub(1) == floor
}

#[test]
fn angles_meet_the_true_values(rt: HostRuntime) {
    for (angle, sine_floor, cosine_floor) in ANGLES {
        assert!(rt; angle.unsigned_abs() <= 1 << 52);
        let (sine, cosine) = sin_cos(Fix::from_raw(angle));
        assert!(rt; is_at(sine.mid, sine_floor));
        assert!(rt; is_at(cosine.mid, cosine_floor));
    }
}

#[test]
fn known_angles_have_known_values(rt: HostRuntime) {
    for (angle, want_sine, want_cosine) in [
        (0i64, 0i64, 4294967296i64),
        (6746518852, 4294967296, 0),
        (-6746518852, -4294967296, 0),
        (2147483648, 2059117009, 3769188403),
    ] {
        assert!(rt; angle.unsigned_abs() <= 1 << 52);
        let (sine, cosine) = sin_cos(Fix::from_raw(angle));
        assert_eq!(rt; sine.mid, want_sine);
        assert_eq!(rt; cosine.mid, want_cosine);
    }
}
