// Where two geoms touch.
ghost use Rattle.std.specs.Prelude.{◌≡◌, ◌+◌, ◌^◌, ◌≤◌, ◌+ℤ◌, unsigned_abs};
ghost use Rattle.fx_vec.specs.Views.{mids};
ghost use Rattle.mj_touch.specs.Meetings as spec;
ghost use Rattle.mj_touch.specs.Solids.{IsBall, IsDirection};

use crate::leaves::{along_normal, half, negative, sum};
use crate::spheres::Ball;
use fx_num::{Fix, Plain};
use fx_vec::V3;

/// Where two geoms touch, at scale 32: how far apart they are, negative where they are in one another,
/// a point half way between their surfaces, and the normal from the first to the second.
#[derive(Clone, Copy, Debug, PartialEq, Eq)]
pub struct Touch {
    pub dist: Fix<32>,
    pub point: V3<Plain, 32>,
    pub normal: V3<Plain, 32>,
}

/// The at most two touches of a pair of geoms, in their order.
#[derive(Clone, Copy, Debug, PartialEq, Eq)]
pub struct Touches {
    pub first: Option<Touch>,
    pub second: Option<Touch>,
}

/// How far it is from a ball's centre to half way of a distance past its surface.
fn reach(ball: &Ball, dist: &Fix<32>) -> Fix<32>
    requires ball { IsBall ball.now }
    requires dist { unsigned_abs dist.now.mid ≤ 2 ^ 52 }
    ensures value { result.mid ≡ ball.now.radius.mid +ℤ spec.half_of dist.now.mid }
    ensures size { unsigned_abs result.mid ≤ 2 ^ 53 }
{
    sum(&ball.radius, &half(dist))
}

/// The touch of a ball with what lies past it along a normal, at a distance from it.
pub(crate) fn touch_past(ball: &Ball, normal: &V3<Plain, 32>, dist: &Fix<32>) -> Touch
    requires ball { IsBall ball.now }
    requires normal { IsDirection (mids normal.now) }
    requires dist { unsigned_abs dist.now.mid ≤ 2 ^ 52 }
    ensures value { spec.meeting_of result ≡ spec.past (mids ball.now.center)
        ball.now.radius.mid (mids normal.now) dist.now.mid }
    ensures near { spec.IsNear result }
{
    Touch {
        dist: *dist,
        point: along_normal(&ball.center, normal, &reach(ball, dist)),
        normal: *normal,
    }
}

/// The touch of a ball with what lies before it along a normal, at a distance from it.
pub(crate) fn touch_before(ball: &Ball, normal: &V3<Plain, 32>, dist: &Fix<32>) -> Touch
    requires ball { IsBall ball.now }
    requires normal { IsDirection (mids normal.now) }
    requires dist { unsigned_abs dist.now.mid ≤ 2 ^ 52 }
    ensures value { spec.meeting_of result ≡ spec.before (mids ball.now.center)
        ball.now.radius.mid (mids normal.now) dist.now.mid }
    ensures near { spec.IsNear result }
{
    Touch {
        dist: *dist,
        point: along_normal(&ball.center, normal, &negative(&reach(ball, dist))),
        normal: *normal,
    }
}

/// No touch.
pub(crate) fn no_touches() -> Touches
    ensures value { result ≡ record { first = None; second = None } }
{
    Touches {
        first: None,
        second: None,
    }
}

/// At most one touch.
pub(crate) fn one_touch(first: Option<Touch>) -> Touches
    ensures value { result ≡ record { first = first; second = None } }
{
    Touches {
        first,
        second: None,
    }
}
