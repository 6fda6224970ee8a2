// Which pairs of geoms may touch, and which of the two comes first.
ghost use Rattle.std.specs.Prelude.{◌≡◌, ◌≤◌, ◌<◌, length};
ghost use Rattle.mj_types.specs.Parts.{parent_of};
ghost use Rattle.mj_contact.specs.Filter as spec;

use mj_touch::is_plane;
use mj_types::{Geom, GeomKind, Model};

/// Whether two masks have a bit in common.
fn overlap(m: u32, n: u32) -> bool
    ensures { result ≡ spec.overlap m n }
{
    m & n != 0
}

/// Whether the masks of two geoms let them touch.
pub(crate) fn may_touch(a: &Geom, b: &Geom) -> bool
    ensures { result ≡ spec.may_touch a.now b.now }
{
    overlap(a.contype, b.conaffinity) || overlap(b.contype, a.conaffinity)
}

/// A body's parent; the world is its own.
fn parent(model: &Model, b: usize) -> usize
    requires { b ≤ length model.now.bodies }
    ensures { result ≡ parent_of model.now.bodies b }
{
    if b == 0 {
        0
    } else {
        model.bodies.entry(b - 1).parent
    }
}

/// Whether a body is another's parent, and not the world.
fn is_parent(model: &Model, a: usize, b: usize) -> bool
    requires { b ≤ length model.now.bodies }
    ensures { result ≡ spec.is_parent model.now.bodies a b }
{
    0 < a && parent(model, b) == a
}

/// Whether one of two bodies is the other's parent, and not the world.
fn are_linked(model: &Model, a: usize, b: usize) -> bool
    requires a { a ≤ length model.now.bodies }
    requires b { b ≤ length model.now.bodies }
    ensures { result ≡ spec.are_linked model.now.bodies a b }
{
    is_parent(model, a, b) || is_parent(model, b, a)
}

/// Whether some dof moves a body.
pub(crate) fn is_moved(model: &Model, b: usize) -> bool
    requires { b ≤ length model.now.bodies }
    ensures { result ≡ spec.is_moved model.now b }
{
    for d in 0..model.nv {
        if model.moves(d, b) {
            return true;
        }
    }
    false
}

/// Whether two geoms are planes.
fn are_planes(a: &Geom, b: &Geom) -> bool
    ensures { result ≡ spec.are_planes a.now b.now }
{
    is_plane(a.kind) && is_plane(b.kind)
}

/// Whether a pair of geoms is tested, where it is known whether the first one's body is moved.
pub(crate) fn is_tested(model: &Model, a: &Geom, moved: bool, b: &Geom) -> bool
    requires a { a.now.body ≤ length model.now.bodies }
    requires b { b.now.body ≤ length model.now.bodies }
    requires moved { moved ≡ spec.is_moved model.now a.now.body }
    ensures { result ≡ spec.is_tested model.now a.now b.now }
{
    may_touch(a, b)
        && a.body != b.body
        && !are_linked(model, a.body, b.body)
        && (moved || is_moved(model, b.body))
        && !are_planes(a, b)
}

/// The rank of a kind: planes before spheres before capsules.
fn rank(kind: GeomKind) -> u32
    ensures { result ≡ spec.rank kind }
{
    match kind {
        GeomKind::Plane => 0,
        GeomKind::Sphere => 1,
        GeomKind::Capsule => 2,
    }
}

/// Whether the later of two geoms is the first.
pub(crate) fn is_turned(a: &Geom, b: &Geom) -> bool
    ensures { result ≡ spec.is_turned a.now b.now }
{
    rank(b.kind) < rank(a.kind)
}
