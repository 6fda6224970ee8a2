//! Pairs of geoms of every two kinds, and the tangents of a contact, worked by hand.
ghost use Rattle.fx_vec.specs.Quaternions.{quaternion};
ghost use Rattle.mj_quat.specs.Rotation.{IsUnit};
ghost use Rattle.mj_touch.specs.Solids.{IsShape};

use fx_num::{Fix, Number, Plain};
use fx_vec::{Q4, V3, Vector3};
use mj_touch::{Shape, TangentPair, Touch, Touches, tangents, touches};
use mj_types::GeomKind;
use std::process::Abort;

const ONE: i64 = 1 << 32;

macro_rules! vector {
    ($x:expr, $y:expr, $z:expr) => {
        Vector3 {
            x: Number { mid: $x, rad: () },
            y: Number { mid: $y, rad: () },
            z: Number { mid: $z, rad: () },
        }
    };
}

macro_rules! touch {
    ($dist:expr, $point:expr, $normal:expr) => {
        Some(Touch {
            dist: Number { mid: $dist, rad: () },
            point: $point,
            normal: $normal,
        })
    };
}

/// A geom whose own z axis is that of the world, or its x axis.
#[derive(Clone, Copy)]
struct Placed {
    kind: GeomKind,
    center: V3<Plain, 32>,
    sideways: bool,
    radius: i64,
    half: i64,
}

// A turn of nothing, or a quarter of one about y.
fn turn(sideways: bool) -> Q4
    ensures { IsUnit (quaternion result) }
{
    if sideways {
        return Q4 {
            w: Fix::from_raw(3_037_000_500),
            x: Fix::from_raw(0),
            y: Fix::from_raw(3_037_000_500),
            z: Fix::from_raw(0),
        };
    }
    Q4 {
        w: Fix::from_raw(1 << 32),
        x: Fix::from_raw(0),
        y: Fix::from_raw(0),
        z: Fix::from_raw(0),
    }
}

fn shape(rt: &impl Abort, placed: &Placed) -> Shape
    ensures { IsShape result }
{
    let center = placed.center;
    assert!(rt; center.x.mid.unsigned_abs() <= 1 << 46);
    assert!(rt; center.y.mid.unsigned_abs() <= 1 << 46);
    assert!(rt; center.z.mid.unsigned_abs() <= 1 << 46);
    assert!(rt; placed.radius >= 0);
    assert!(rt; placed.radius <= 1 << 42);
    assert!(rt; placed.half >= 0);
    assert!(rt; placed.half <= 1 << 42);
    Shape {
        kind: placed.kind,
        center,
        turn: turn(placed.sideways),
        radius: Fix::from_raw(placed.radius),
        half: Fix::from_raw(placed.half),
    }
}

fn touches_of(rt: &impl Abort, a: &Placed, b: &Placed, margin: i64) -> Touches {
    assert!(rt; margin >= 0);
    assert!(rt; margin <= 1 << 42);
    touches(&shape(rt, a), &shape(rt, b), &Fix::from_raw(margin))
}

fn tangents_of(rt: &impl Abort, normal: &V3<Plain, 32>) -> TangentPair {
    assert!(rt; normal.x.mid.unsigned_abs() <= 1 << 32);
    assert!(rt; normal.y.mid.unsigned_abs() <= 1 << 32);
    assert!(rt; normal.z.mid.unsigned_abs() <= 1 << 32);
    tangents(normal)
}

const GROUND: Placed = Placed {
    kind: GeomKind::Plane,
    center: vector!(0, 0, 0),
    sideways: false,
    radius: 0,
    half: 0,
};

/// Radius 1/4, half length 1.
const UPRIGHT: Placed = Placed {
    kind: GeomKind::Capsule,
    center: vector!(0, 0, 0),
    sideways: false,
    radius: 1 << 30,
    half: 1 << 32,
};

/// Radius 1.
const BALL: Placed = Placed {
    kind: GeomKind::Sphere,
    center: vector!(0, 0, 0),
    sideways: false,
    radius: 1 << 32,
    half: 0,
};

#[test]
fn capsules_and_spheres(rt: HostRuntime) {
    let lying = Placed {
        sideways: true,
        ..UPRIGHT
    };
    let beside = Placed {
        center: vector!(1 << 30, 0, 0),
        ..UPRIGHT
    };
    // 3/4 and 1 apart, of radius 1/2
    let smaller = Placed {
        center: vector!(3 << 30, 1 << 32, 0),
        radius: 1 << 31,
        ..BALL
    };
    // its centre is over the point 1/2 above the capsule's centre
    let small = Placed {
        center: vector!(1 << 32, 0, 1 << 31),
        radius: 1 << 31,
        ..BALL
    };
    let thick = Placed {
        radius: 3 << 30,
        ..UPRIGHT
    };
    for (a, b, first) in [
        (
            lying,
            UPRIGHT,
            touch!(-2_147_483_648, vector!(0, 0, 0), vector!(0, 0, ONE)),
        ),
        (
            UPRIGHT,
            beside,
            touch!(
                -1_073_741_824,
                vector!(536_870_912, 0, 0),
                vector!(ONE, 0, 0)
            ),
        ),
        (
            BALL,
            smaller,
            touch!(
                -1_073_741_824,
                vector!(2_254_857_831, 3_006_477_107, 0),
                vector!(2_576_980_378, 3_435_973_837, 0)
            ),
        ),
        (
            small,
            thick,
            touch!(
                -ONE / 4,
                vector!(ONE / 8 * 5, 0, ONE / 2),
                vector!(-ONE, 0, 0)
            ),
        ),
        // a plane comes first
        (smaller, GROUND, None),
    ] {
        let met = touches_of(&rt, &a, &b, 0);
        assert_eq!(rt; met.first, first);
        assert_eq!(rt; met.second, None);
    }
}

#[test]
fn shapes_on_a_plane(rt: HostRuntime) {
    let up = vector!(0, 0, ONE);
    // 1/16 above it
    let near = Placed {
        center: vector!(0, 0, 17 << 28),
        ..BALL
    };
    let above = touch!(ONE / 16, vector!(0, 0, ONE / 32), up);
    // radius 1/8 and half length 1/4, along x: the end at +x comes first
    let capsule = Placed {
        kind: GeomKind::Capsule,
        center: vector!(0, 0, 1 << 28),
        sideways: true,
        radius: 1 << 29,
        half: 1 << 30,
    };
    let end = touch!(-ONE / 16, vector!(ONE / 4, 0, -ONE / 32), up);
    let start = touch!(-ONE / 16, vector!(-ONE / 4, 0, -ONE / 32), up);
    for (b, margin, first, second) in [
        (near, (1 << 28) + 1, above, None),
        (near, 1 << 28, None, None),
        (capsule, 0, end, start),
    ] {
        let met = touches_of(&rt, &GROUND, &b, margin);
        assert_eq!(rt; met.first, first);
        assert_eq!(rt; met.second, second);
    }
}

#[test]
fn the_tangents_of_a_normal(rt: HostRuntime) {
    let up = tangents_of(&rt, &vector!(0, 0, 1 << 32));
    assert_eq!(rt; up.t1, vector!(0, ONE, 0));
    assert_eq!(rt; up.t2, vector!(-ONE, 0, 0));
    // least along y; one unit more by rounding
    let slanted = tangents_of(&rt, &vector!(2_576_980_378, 0, 3_435_973_837));
    assert_eq!(rt; slanted.t1, vector!(-3_435_973_837, 0, 2_576_980_378));
    assert_eq!(rt; slanted.t2, vector!(0, -ONE - 1, 0));
}
