// Two balls.
ghost use Rattle.std.specs.Prelude.{◌≡◌, ◌+◌, ◌^◌, ◌≤◌, pos, ◌-ℤ◌, ◌≤ℤ◌, unsigned_abs, IfSome};
ghost use Rattle.fx_vec.specs.Sizes.{Within};
ghost use Rattle.fx_vec.specs.Views.{mids};
ghost use Rattle.mj_quat.specs.Rotation as rotation;
ghost use Rattle.mj_touch.specs.Balls as spec;
ghost use Rattle.mj_touch.specs.Meetings.{met, standing, IsNear};
ghost use Rattle.mj_touch.specs.Solids.{IsBall, IsDirection};

use crate::leaves::{difference, length, offset};
use crate::touch::{Touch, touch_past};
use fx_num::{Fix, Plain};
use fx_vec::{V3, Vector3};
use mj_quat::vector_over;

/// A ball: its centre and its radius, at scale 32.
#[derive(Clone, Copy)]
pub(crate) struct Ball {
    pub center: V3<Plain, 32>,
    pub radius: Fix<32>,
}

/// Up: +z.
fn upward() -> V3<Plain, 32>
    ensures value { mids result ≡ spec.upward }
    ensures size { IsDirection (mids result) }
{
    Vector3 {
        x: Fix::from_raw(0),
        y: Fix::from_raw(0),
        z: Fix::from_raw(1 << 32),
    }
}

/// `d` over its length.
fn over_length(d: &V3<Plain, 32>, length: &Fix<32>) -> V3<Plain, 32>
    requires positive { pos 1 ≤ℤ length.now.mid }
    requires covers { Within (mids d.now) (unsigned_abs length.now.mid) }
    ensures value { mids result ≡ rotation.vector_over (mids d.now) length.now.mid }
    ensures size { IsDirection (mids result) }
{
    vector_over(d, length)
}

/// The direction of `d`, whose length is known.
fn direction(d: &V3<Plain, 32>, length: &Fix<32>) -> V3<Plain, 32>
    requires length { length.now.mid ≡ rotation.vector_length (mids d.now) }
    requires covers { Within (mids d.now) (unsigned_abs length.now.mid) }
    ensures value { mids result ≡ spec.direction (mids d.now) }
    ensures size { IsDirection (mids result) }
{
    if 0 < length.mid {
        over_length(d, length)
    } else {
        upward()
    }
}

/// How far apart the surfaces are, from the distance of the centres.
fn gap(length: &Fix<32>, a: &Ball, b: &Ball) -> Fix<32>
    requires length { unsigned_abs length.now.mid ≤ 2 ^ 49 }
    requires a { IsBall a.now }
    requires b { IsBall b.now }
    ensures value { result.mid ≡ length.now.mid -ℤ a.now.radius.mid -ℤ b.now.radius.mid }
    ensures size { unsigned_abs result.mid ≤ 2 ^ 52 }
{
    difference(&difference(length, &a.radius), &b.radius)
}

/// The touch of two balls, where they are nearer to one another than the margin.
#[tactic(auto, unfolding(crate::specs::Balls::balls))]
pub(crate) fn balls(a: &Ball, b: &Ball, margin: &Fix<32>) -> Option<Touch>
    requires a { IsBall a.now }
    requires b { IsBall b.now }
    ensures value { met result ≡ standing margin.now.mid (spec.balls (mids a.now.center)
        a.now.radius.mid (mids b.now.center) b.now.radius.mid) }
    ensures near { IfSome result (λ t. IsNear t) }
{
    let d = offset(&a.center, &b.center);
    let length = length(&d);
    let dist = gap(&length, a, b);
    if dist.mid < margin.mid {
        Some(touch_past(a, &direction(&d, &length), &dist))
    } else {
        None
    }
}
