// A capsule with a sphere and with a capsule.
ghost use Rattle.std.specs.Prelude.{◌≡◌, ◌+◌, ◌*◌, ◌^◌, ◌≤◌, pos, ◌+ℤ◌, ◌-ℤ◌, ◌*ℤ◌, neg_ℤ, ◌≤ℤ◌, ◌<ℤ◌, unsigned_abs};
ghost use Rattle.fx_vec.specs.Settling.{along};
ghost use Rattle.fx_vec.specs.Sizes.{Within};
ghost use Rattle.fx_vec.specs.Vectors.{minus};
ghost use Rattle.fx_vec.specs.Views.{mids};
ghost use Rattle.mj_types.specs.Lawful.{IsUpTo};
ghost use Rattle.mj_touch.specs.Capsules as spec;
ghost use Rattle.mj_touch.specs.Meetings.{meetings_of, AreNear};
ghost use Rattle.mj_touch.specs.Solids.{solid_of, IsShape, IsDirection};

use crate::leaves::{component, offset};
use crate::planes::{at_center, at_place};
use crate::shape::{Shape, axis};
use crate::spheres::balls;
use crate::touch::{Touches, one_touch};
use fx_num::{Fix, Plain};
use fx_vec::{V3, project};
use fx_whole::{difference, narrow, nearest, nearest_shift, product, scale_up, scale_up_wide, sum};

/// `n` held from `-most` to `most`.
fn hold(most: &Fix<32>, n: &i128) -> Fix<32>
    requires { IsUpTo most.now (2 ^ 42) }
    ensures value { result.mid ≡ spec.held most.now.mid n.now }
    ensures size { unsigned_abs result.mid ≤ 2 ^ 42 }
{
    if *n < i128::from(-most.mid) {
        Fix::from_raw(-most.mid)
    } else if i128::from(most.mid) < *n {
        *most
    } else {
        Fix::from_raw(narrow(*n))
    }
}

/// A number in 128 bits.
fn wide(n: &Fix<32>) -> i128
    ensures { result ≡ n.now.mid }
{
    i128::from(n.mid)
}

/// Where the centre of a sphere falls on a capsule's axis, held within its ends.
fn foot(b: &Shape, axis: &V3<Plain, 32>, center: &V3<Plain, 32>) -> Fix<32>
    requires shape { IsShape b.now }
    requires axis { IsDirection (mids axis.now) }
    requires center { Within (mids center.now) (2 ^ 46) }
    ensures value { result.mid ≡ spec.held b.now.half.mid
        (along (mids axis.now) (minus (mids center.now) (mids b.now.center))) }
    ensures size { unsigned_abs result.mid ≤ 2 ^ 42 }
{
    hold(&b.half, &wide(&component(axis, &offset(&b.center, center))))
}

/// A sphere and a capsule.
pub(crate) fn sphere_capsule(a: &Shape, b: &Shape, margin: &Fix<32>) -> Touches
    requires a { IsShape a.now }
    requires b { IsShape b.now }
    ensures value { meetings_of result
        ≡ spec.sphere_capsule (solid_of a.now) (solid_of b.now) margin.now.mid }
    ensures near { AreNear result }
{
    let along = axis(&b.turn);
    let place = foot(b, &along, &a.center);
    one_touch(balls(&at_center(a), &at_place(b, &along, &place), margin))
}

/// Two lines: the cosine of their directions, and how far the second centre is from the first along
/// the first direction and along the second.
#[derive(Clone, Copy)]
struct Lines {
    cosine: Fix<32>,
    first: Fix<32>,
    second: Fix<32>,
}

/// The cosine of two directions.
fn cosine(a: &V3<Plain, 32>, b: &V3<Plain, 32>) -> Fix<32>
    requires a { IsDirection (mids a.now) }
    requires b { IsDirection (mids b.now) }
    ensures value { result.mid ≡ along (mids a.now) (mids b.now) }
    ensures size { unsigned_abs result.mid ≤ 2 ^ 36 }
{
    project(a, b)
}

/// `2^64 - u u`.
fn spread(u: &Fix<32>) -> i128
    requires { unsigned_abs u.now.mid ≤ 2 ^ 36 }
    ensures { result ≡ spec.spread u.now.mid }
{
    let square = product(u.mid, u.mid);
    difference(1 << 64, square)
}

/// `u q`.
fn lever(u: &Fix<32>, q: &Fix<32>) -> i128
    requires u { unsigned_abs u.now.mid ≤ 2 ^ 36 }
    requires q { unsigned_abs q.now.mid ≤ 2 ^ 51 }
    ensures value { result ≡ u.now.mid *ℤ q.now.mid }
    ensures size { unsigned_abs result ≤ 2 ^ 87 }
{
    product(u.mid, q.mid)
}

/// `p 2^32 - u q`.
fn lead(lines: &Lines) -> i128
    requires { spec.AreLines lines.now.cosine.mid lines.now.first.mid lines.now.second.mid }
    ensures value { result ≡ lines.now.first.mid *ℤ pos (2 ^ 32)
        -ℤ lines.now.cosine.mid *ℤ lines.now.second.mid }
    ensures size { unsigned_abs result ≤ 2 ^ 88 }
{
    difference(
        scale_up(lines.first.mid, 32),
        lever(&lines.cosine, &lines.second),
    )
}

/// Where on the first line it comes nearest to the second. It may pass 64 bits.
#[tactic(auto, unfolding(crate::specs::Capsules::nearest_place))]
fn nearest_place(lines: &Lines) -> i128
    requires { spec.AreLines lines.now.cosine.mid lines.now.first.mid lines.now.second.mid }
    ensures { result ≡ spec.nearest_place lines.now.cosine.mid lines.now.first.mid
        lines.now.second.mid }
{
    let spread = spread(&lines.cosine);
    if 1 << 44 < spread {
        nearest(scale_up_wide(lead(lines), 32), spread)
    } else {
        wide(&lines.first)
    }
}

/// `u k`, rounded.
fn shared(u: &Fix<32>, k: &Fix<32>) -> i128
    requires u { unsigned_abs u.now.mid ≤ 2 ^ 36 }
    requires k { unsigned_abs k.now.mid ≤ 2 ^ 42 }
    ensures value { result ≡ spec.shared u.now.mid k.now.mid }
    ensures size { unsigned_abs result ≤ 2 ^ 46 }
{
    nearest_shift(product(u.mid, k.mid), 32)
}

/// The place on the second axis.
#[tactic(auto, unfolding(crate::specs::Capsules::second_place))]
fn second_place(lines: &Lines, h: &Fix<32>, l: &Fix<32>) -> Fix<32>
    requires lines { spec.AreLines lines.now.cosine.mid lines.now.first.mid lines.now.second.mid }
    requires h { IsUpTo h.now (2 ^ 42) }
    requires l { IsUpTo l.now (2 ^ 42) }
    ensures value { result.mid ≡ spec.second_place lines.now.cosine.mid lines.now.first.mid
        lines.now.second.mid h.now.mid l.now.mid }
    ensures size { unsigned_abs result.mid ≤ 2 ^ 42 }
{
    let free = hold(h, &nearest_place(lines));
    hold(
        l,
        &difference(shared(&lines.cosine, &free), wide(&lines.second)),
    )
}

/// The place on the first axis, from that on the second.
#[tactic(auto, unfolding(crate::specs::Capsules::first_place))]
fn first_place(lines: &Lines, h: &Fix<32>, t: &Fix<32>) -> Fix<32>
    requires lines { spec.AreLines lines.now.cosine.mid lines.now.first.mid lines.now.second.mid }
    requires h { IsUpTo h.now (2 ^ 42) }
    requires t { unsigned_abs t.now.mid ≤ 2 ^ 42 }
    ensures value { result.mid ≡ spec.first_place lines.now.cosine.mid lines.now.first.mid
        h.now.mid t.now.mid }
    ensures size { unsigned_abs result.mid ≤ 2 ^ 42 }
{
    hold(h, &sum(wide(&lines.first), shared(&lines.cosine, t)))
}

/// The lines of two capsules, whose axes are known.
fn lines_of(a: &Shape, b: &Shape, x: &V3<Plain, 32>, y: &V3<Plain, 32>) -> Lines
    requires a { IsShape a.now }
    requires b { IsShape b.now }
    requires x { IsDirection (mids x.now) }
    requires y { IsDirection (mids y.now) }
    ensures cosine { result.cosine.mid ≡ along (mids x.now) (mids y.now) }
    ensures first { result.first.mid
        ≡ along (mids x.now) (minus (mids b.now.center) (mids a.now.center)) }
    ensures second { result.second.mid
        ≡ along (mids y.now) (minus (mids b.now.center) (mids a.now.center)) }
    ensures size { spec.AreLines result.cosine.mid result.first.mid result.second.mid }
{
    let d = offset(&a.center, &b.center);
    Lines {
        cosine: cosine(x, y),
        first: component(x, &d),
        second: component(y, &d),
    }
}

/// Two capsules.
pub(crate) fn capsule_capsule(a: &Shape, b: &Shape, margin: &Fix<32>) -> Touches
    requires a { IsShape a.now }
    requires b { IsShape b.now }
    ensures value { meetings_of result
        ≡ spec.capsule_capsule (solid_of a.now) (solid_of b.now) margin.now.mid }
    ensures near { AreNear result }
{
    let x = axis(&a.turn);
    let y = axis(&b.turn);
    let lines = lines_of(a, b, &x, &y);
    let second = second_place(&lines, &a.half, &b.half);
    let first = first_place(&lines, &a.half, &second);
    one_touch(balls(&at_place(a, &x, &first), &at_place(b, &y, &second), margin))
}
