// A plane with a ball and with a capsule.
ghost use Rattle.std.specs.Prelude.{◌≡◌, ◌+◌, ◌^◌, ◌≤◌, neg_ℤ, unsigned_abs, IfSome};
ghost use Rattle.fx_vec.specs.Settling.{moved};
ghost use Rattle.fx_vec.specs.Sizes.{Within};
ghost use Rattle.fx_vec.specs.Views.{mids};
ghost use Rattle.mj_touch.specs.Meetings.{met, meetings_of, standing, IsNear, AreNear};
ghost use Rattle.mj_touch.specs.Planes as spec;
ghost use Rattle.mj_touch.specs.Solids.{solid_of, IsShape, IsBall, IsDirection};

use crate::leaves::{component, difference, negative, offset, on_axis};
use crate::shape::{Shape, axis};
use crate::spheres::Ball;
use crate::touch::{Touch, Touches, one_touch, touch_before};
use fx_num::{Fix, Plain};
use fx_vec::V3;

/// How far a ball is above the plane through `point`.
fn height(point: &V3<Plain, 32>, normal: &V3<Plain, 32>, ball: &Ball) -> Fix<32>
    requires point { Within (mids point.now) (2 ^ 47) }
    requires normal { IsDirection (mids normal.now) }
    requires ball { IsBall ball.now }
    ensures value { result.mid ≡ spec.height (mids point.now) (mids normal.now)
        (mids ball.now.center) ball.now.radius.mid }
    ensures size { unsigned_abs result.mid ≤ 2 ^ 52 }
{
    difference(
        &component(normal, &offset(point, &ball.center)),
        &ball.radius,
    )
}

/// The touch of a plane and a ball, where they are nearer to one another than the margin.
#[tactic(auto, unfolding(crate::specs::Planes::plane_ball))]
fn plane_ball(
    point: &V3<Plain, 32>,
    normal: &V3<Plain, 32>,
    ball: &Ball,
    margin: &Fix<32>,
) -> Option<Touch>
    requires point { Within (mids point.now) (2 ^ 47) }
    requires normal { IsDirection (mids normal.now) }
    requires ball { IsBall ball.now }
    ensures value { met result ≡ standing margin.now.mid (spec.plane_ball (mids point.now)
        (mids normal.now) (mids ball.now.center) ball.now.radius.mid) }
    ensures near { IfSome result (λ t. IsNear t) }
{
    let dist = height(point, normal, ball);
    if dist.mid < margin.mid {
        Some(touch_before(ball, normal, &dist))
    } else {
        None
    }
}

/// The ball of a shape at its centre.
pub(crate) fn at_center(shape: &Shape) -> Ball
    requires { IsShape shape.now }
    ensures value { result ≡ record { center = shape.now.center; radius = shape.now.radius } }
    ensures ball { IsBall result }
{
    Ball {
        center: shape.center,
        radius: shape.radius,
    }
}

/// The ball of a capsule at a place of its axis.
pub(crate) fn at_place(shape: &Shape, axis: &V3<Plain, 32>, place: &Fix<32>) -> Ball
    requires shape { IsShape shape.now }
    requires axis { IsDirection (mids axis.now) }
    requires place { unsigned_abs place.now.mid ≤ 2 ^ 42 }
    ensures center { mids result.center
        ≡ moved (mids shape.now.center) (mids axis.now) place.now.mid }
    ensures radius { result.radius ≡ shape.now.radius }
    ensures ball { IsBall result }
{
    Ball {
        center: on_axis(&shape.center, axis, place),
        radius: shape.radius,
    }
}

/// A plane and a sphere.
pub(crate) fn plane_sphere(a: &Shape, b: &Shape, margin: &Fix<32>) -> Touches
    requires a { IsShape a.now }
    requires b { IsShape b.now }
    ensures value { meetings_of result
        ≡ spec.plane_sphere (solid_of a.now) (solid_of b.now) margin.now.mid }
    ensures near { AreNear result }
{
    one_touch(plane_ball(&a.center, &axis(&a.turn), &at_center(b), margin))
}

/// A plane and a capsule: the ball at the end of its axis, and then that at its start.
pub(crate) fn plane_capsule(a: &Shape, b: &Shape, margin: &Fix<32>) -> Touches
    requires a { IsShape a.now }
    requires b { IsShape b.now }
    ensures value { meetings_of result
        ≡ spec.plane_capsule (solid_of a.now) (solid_of b.now) margin.now.mid }
    ensures near { AreNear result }
{
    let normal = axis(&a.turn);
    let along = axis(&b.turn);
    let end = at_place(b, &along, &b.half);
    let start = at_place(b, &along, &negative(&b.half));
    Touches {
        first: plane_ball(&a.center, &normal, &end, margin),
        second: plane_ball(&a.center, &normal, &start, margin),
    }
}
