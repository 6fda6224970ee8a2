// Two geoms of any kinds.
ghost use Rattle.std.specs.Prelude.{◌≡◌, ◌+◌, ◌^◌, ◌≤◌, pos, unsigned_abs, IsTrue};
ghost use Rattle.fx_vec.specs.Sizes.{Within};
ghost use Rattle.fx_vec.specs.Views.{mids};
ghost use Rattle.mj_types.specs.Lawful.{IsUpTo};
ghost use Rattle.mj_touch.specs.Culling as culling;
ghost use Rattle.mj_touch.specs.Meetings.{meetings_of, none_met, AreNear};
ghost use Rattle.mj_touch.specs.Pairs as spec;
ghost use Rattle.mj_touch.specs.Solids.{solid_of, IsShape};

use crate::capsules::{capsule_capsule, sphere_capsule};
use crate::leaves::sum;
use crate::planes::{at_center, plane_capsule, plane_sphere};
use crate::shape::{Shape, is_plane};
use crate::spheres::balls;
use crate::touch::{Touches, no_touches, one_touch};
use fx_num::{Fix, Plain};
use fx_vec::V3;
use mj_types::GeomKind;

/// 2^-17: how much farther than its half length and its radius a capsule may go.
const SLACK: i64 = 1 << 15;

/// How far from its centre a shape goes in a coordinate.
fn reach(shape: &Shape) -> Fix<32>
    requires { IsShape shape.now }
    ensures value { result.mid ≡ culling.reach (solid_of shape.now) }
    ensures size { unsigned_abs result.mid ≤ 2 ^ 44 }
{
    sum(&sum(&shape.radius, &shape.half), &Fix::from_raw(SLACK))
}

/// How far apart in a coordinate the centres of shapes may be that touch.
fn limit(a: &Shape, b: &Shape, margin: &Fix<32>) -> Fix<32>
    requires a { IsShape a.now }
    requires b { IsShape b.now }
    requires margin { IsUpTo margin.now (2 ^ 42) }
    ensures { result.mid ≡ culling.limit (solid_of a.now) (solid_of b.now) margin.now.mid }
{
    sum(&sum(&reach(a), &reach(b)), margin)
}

/// Whether two numbers are farther apart than a limit.
fn is_apart(most: &Fix<32>, x: &Fix<32>, y: &Fix<32>) -> bool
    requires x { unsigned_abs x.now.mid ≤ 2 ^ 46 }
    requires y { unsigned_abs y.now.mid ≤ 2 ^ 46 }
    ensures { result ≡ culling.is_apart most.now.mid x.now.mid y.now.mid }
{
    most.mid < (y.mid - x.mid).abs()
}

/// Whether two points are farther apart than a limit in a coordinate.
fn are_apart(most: &Fix<32>, c: &V3<Plain, 32>, e: &V3<Plain, 32>) -> bool
    requires c { Within (mids c.now) (2 ^ 46) }
    requires e { Within (mids e.now) (2 ^ 46) }
    ensures { result ≡ culling.are_apart most.now.mid (mids c.now) (mids e.now) }
{
    is_apart(most, &c.x, &e.x) || is_apart(most, &c.y, &e.y) || is_apart(most, &c.z, &e.z)
}

/// Whether two shapes are too far apart to touch.
fn can_skip(a: &Shape, b: &Shape, margin: &Fix<32>) -> bool
    requires a { IsShape a.now }
    requires b { IsShape b.now }
    requires margin { IsUpTo margin.now (2 ^ 42) }
    ensures value { result ≡ culling.can_skip a.now b.now margin.now.mid }
    ensures law { IsTrue result → spec.meetings a.now b.now margin.now.mid ≡ none_met }
{
    !is_plane(a.kind) && are_apart(&limit(a, b, margin), &a.center, &b.center)
}

/// Two spheres.
fn sphere_sphere(a: &Shape, b: &Shape, margin: &Fix<32>) -> Touches
    requires a { IsShape a.now }
    requires b { IsShape b.now }
    ensures value { meetings_of result
        ≡ spec.sphere_sphere (solid_of a.now) (solid_of b.now) margin.now.mid }
    ensures near { AreNear result }
{
    one_touch(balls(&at_center(a), &at_center(b), margin))
}

/// A plane, and a geom of any kind.
fn with_plane(a: &Shape, b: &Shape, margin: &Fix<32>) -> Touches
    requires a { IsShape a.now }
    requires b { IsShape b.now }
    ensures value { meetings_of result ≡ spec.meetings_by GeomKind.Plane b.now.kind
        (solid_of a.now) (solid_of b.now) margin.now.mid }
    ensures near { AreNear result }
{
    match b.kind {
        GeomKind::Plane => no_touches(),
        GeomKind::Sphere => plane_sphere(a, b, margin),
        GeomKind::Capsule => plane_capsule(a, b, margin),
    }
}

/// A sphere, and a geom of any kind.
fn with_sphere(a: &Shape, b: &Shape, margin: &Fix<32>) -> Touches
    requires a { IsShape a.now }
    requires b { IsShape b.now }
    ensures value { meetings_of result ≡ spec.meetings_by GeomKind.Sphere b.now.kind
        (solid_of a.now) (solid_of b.now) margin.now.mid }
    ensures near { AreNear result }
{
    match b.kind {
        GeomKind::Plane => no_touches(),
        GeomKind::Sphere => sphere_sphere(a, b, margin),
        GeomKind::Capsule => sphere_capsule(a, b, margin),
    }
}

/// A capsule, and a geom of any kind.
fn with_capsule(a: &Shape, b: &Shape, margin: &Fix<32>) -> Touches
    requires a { IsShape a.now }
    requires b { IsShape b.now }
    ensures value { meetings_of result ≡ spec.meetings_by GeomKind.Capsule b.now.kind
        (solid_of a.now) (solid_of b.now) margin.now.mid }
    ensures near { AreNear result }
{
    match b.kind {
        GeomKind::Plane => no_touches(),
        GeomKind::Sphere => no_touches(),
        GeomKind::Capsule => capsule_capsule(a, b, margin),
    }
}

/// Two geoms of any kinds, near to one another or not.
fn by_kinds(a: &Shape, b: &Shape, margin: &Fix<32>) -> Touches
    requires a { IsShape a.now }
    requires b { IsShape b.now }
    ensures value { meetings_of result ≡ spec.meetings a.now b.now margin.now.mid }
    ensures near { AreNear result }
{
    match a.kind {
        GeomKind::Plane => with_plane(a, b, margin),
        GeomKind::Sphere => with_sphere(a, b, margin),
        GeomKind::Capsule => with_capsule(a, b, margin),
    }
}

/// Where two geoms are nearer to one another than the margin, at most two touches (MuJoCo
/// documentation, Computation, collision detection; the closest points of capsules are this project's
/// own). The first geom is of the earlier kind of plane, sphere and capsule; pairs in the other order
/// and two planes have no touch. The normal points from the first to the second. A capsule on a plane
/// may touch with the ball at the end of its axis, and then with that at its start; two capsules touch
/// at most once. Numbers are at scale 32, each rounded once. Geoms that are far apart in a coordinate
/// cost no product.
pub fn touches(a: &Shape, b: &Shape, margin: &Fix<32>) -> Touches
    requires a { IsShape a.now }
    requires b { IsShape b.now }
    requires margin { IsUpTo margin.now (2 ^ 42) }
    ensures value { meetings_of result ≡ spec.meetings a.now b.now margin.now.mid }
    ensures near { AreNear result }
{
    if can_skip(a, b, margin) {
        no_touches()
    } else {
        by_kinds(a, b, margin)
    }
}
