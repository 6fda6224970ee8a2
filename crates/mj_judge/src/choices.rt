// Keys whose value is one of a few, ranges, and the sizes of geoms.
ghost use Rattle.std.specs.Prelude.{◌≡◌, ℕ, ◌^◌, ◌<◌, ◌≤◌, ◌&&◌, ◌||◌, pos};
ghost use Rattle.std.specs.Ordering.{int_eq};
ghost use Rattle.mj_judge.specs.Choices as spec;

use crate::names::same_text;
use crate::numbers::{entry, is_between, is_small, unless};
use fx_list::{Array, Text};
use fx_num::{Fix, Number};
use mj_types::{GeomKind, JointKind, ModelCode, Range};

/// Judges a key that may have only this text: `BadRange` for another.
#[tactic(auto, unfolding(crate::specs::Choices::only_text))]
pub fn only_text(text: &Text, known: &[u8]) -> Result<(), ModelCode>
    ensures { result ≡ spec.only_text known.now text.now }
{
    unless(same_text(text, known), ModelCode::BadRange)
}

/// The number of a format, 1 or 2, else `BadRange`.
#[tactic(auto, unfolding(crate::specs::Choices::format))]
pub fn format(n: &i64) -> Result<u32, ModelCode>
    ensures { result ≡ spec.format n.now }
{
    if 1 <= *n && *n <= 2 {
        Ok(n.unsigned_abs() as u32)
    } else {
        Err(ModelCode::BadRange)
    }
}

/// A contact's dimension, 1 or 3, else `BadRange`.
#[tactic(auto, unfolding(crate::specs::Choices::condim))]
pub fn condim(n: &i64) -> Result<u32, ModelCode>
    ensures { result ≡ spec.condim n.now }
{
    if *n == 1 {
        Ok(1)
    } else if *n == 3 {
        Ok(3)
    } else {
        Err(ModelCode::BadRange)
    }
}

/// The type of a joint, if it is one of the four.
pub fn joint_type(text: &Text) -> Option<JointKind>
    ensures { result ≡ spec.joint_type text.now }
{
    if same_text(text, b"free") {
        Some(JointKind::Free)
    } else if same_text(text, b"ball") {
        Some(JointKind::Ball)
    } else if same_text(text, b"hinge") {
        Some(JointKind::Hinge)
    } else if same_text(text, b"slide") {
        Some(JointKind::Slide)
    } else {
        None
    }
}

/// The type of a geom, if it is one of the three.
fn geom_type(text: &Text) -> Option<GeomKind>
    ensures { result ≡ spec.geom_type text.now }
{
    if same_text(text, b"plane") {
        Some(GeomKind::Plane)
    } else if same_text(text, b"sphere") {
        Some(GeomKind::Sphere)
    } else if same_text(text, b"capsule") {
        Some(GeomKind::Capsule)
    } else {
        None
    }
}

/// The type of a joint: `BadRange` if it isn't one of the four, `FreeJoint` if it is free and may not be.
#[tactic(auto, unfolding(crate::specs::Choices::joint_kind_of))]
pub fn joint_kind_of(text: &Text, may_be_free: bool) -> Result<JointKind, ModelCode>
    ensures { result ≡ spec.joint_kind_of may_be_free text.now }
{
    match joint_type(text) {
        None => Err(ModelCode::BadRange),
        Some(kind) => alone(kind, may_be_free),
    }
}

fn alone(kind: JointKind, may_be_free: bool) -> Result<JointKind, ModelCode>
    ensures { result ≡ spec.alone may_be_free kind }
{
    match kind {
        JointKind::Free => if may_be_free {
            Ok(kind)
        } else {
            Err(ModelCode::FreeJoint)
        },
        _ => Ok(kind),
    }
}

/// The type of a geom: `BadRange` if it isn't one of the three, `PlaneOffWorld` for a plane that isn't
/// the world's.
#[tactic(auto, unfolding(crate::specs::Choices::geom_kind_of))]
pub fn geom_kind_of(text: &Text, on_world: bool) -> Result<GeomKind, ModelCode>
    ensures { result ≡ spec.geom_kind_of on_world text.now }
{
    match geom_type(text) {
        None => Err(ModelCode::BadRange),
        Some(kind) => grounded(kind, on_world),
    }
}

fn grounded(kind: GeomKind, on_world: bool) -> Result<GeomKind, ModelCode>
    ensures { result ≡ spec.grounded on_world kind }
{
    match kind {
        GeomKind::Plane => if on_world {
            Ok(kind)
        } else {
            Err(ModelCode::PlaneOffWorld)
        },
        _ => Ok(kind),
    }
}

fn range_of(xs: &Array<Fix<32>>) -> Range
    ensures { result ≡ spec.range_of xs.now }
{
    Range {
        least: entry(xs, 0),
        greatest: entry(xs, 1),
    }
}

fn ends(r: &Range, limit: u64) -> Result<Option<Range>, ModelCode>
    ensures { result ≡ spec.ends limit r.now }
{
    let good = is_small(limit, &r.least.mid) && is_small(limit, &r.greatest.mid);
    unless(good, ModelCode::LimitPassed)?;
    if r.least.mid < r.greatest.mid {
        Ok(Some(*r))
    } else {
        Err(ModelCode::BadRange)
    }
}

/// A range, where there is one: `LimitPassed` where an end has more than this size, then `BadRange`
/// unless the first is below the second.
#[tactic(auto, unfolding(crate::specs::Choices::range))]
pub fn range(xs: &Option<Array<Fix<32>>>, limit: u64) -> Result<Option<Range>, ModelCode>
    ensures { result ≡ spec.range limit xs.now }
{
    match xs {
        None => Ok(None),
        Some(list) => ends(&range_of(list), limit),
    }
}

/// How large a geom is: its radius, and half its length.
#[derive(Clone, Copy)]
pub struct Extent {
    pub radius: Fix<32>,
    pub half: Fix<32>,
}

/// How many numbers a type of geom uses.
fn used(kind: GeomKind) -> usize
    ensures { result ≡ spec.used kind }
{
    match kind {
        GeomKind::Plane => 0,
        GeomKind::Sphere => 1,
        GeomKind::Capsule => 2,
    }
}

fn is_size_at(xs: &Array<Fix<32>>, i: usize) -> bool
    ensures { result ≡ spec.is_size_at xs.now i }
{
    xs.len() <= i || is_between(&1, &(1 << 42), &entry(xs, i).mid)
}

fn are_sizes(kind: GeomKind, xs: &Array<Fix<32>>) -> bool
    ensures { result ≡ spec.are_sizes kind xs.now }
{
    match kind {
        GeomKind::Plane => true,
        GeomKind::Sphere => is_size_at(xs, 0),
        GeomKind::Capsule => is_size_at(xs, 0) && is_size_at(xs, 1),
    }
}

fn extent_of(kind: GeomKind, xs: &Array<Fix<32>>) -> Extent
    ensures { result ≡ spec.extent_of kind xs.now }
{
    match kind {
        GeomKind::Plane => Extent {
            radius: Number::from_raw(0),
            half: Number::from_raw(0),
        },
        GeomKind::Sphere => Extent {
            radius: entry(xs, 0),
            half: Number::from_raw(0),
        },
        GeomKind::Capsule => Extent {
            radius: entry(xs, 0),
            half: entry(xs, 1),
        },
    }
}

#[tactic(auto, unfolding(crate::specs::Choices::sized))]
fn sized(kind: GeomKind, xs: &Array<Fix<32>>) -> Result<Extent, ModelCode>
    ensures { result ≡ spec.sized kind xs.now }
{
    unless(are_sizes(kind, xs), ModelCode::LimitPassed)?;
    if used(kind) <= xs.len() {
        Ok(extent_of(kind, xs))
    } else {
        Err(ModelCode::BadRange)
    }
}

/// How large a geom of this type is. A plane's numbers aren't used; a sphere uses a radius, a capsule
/// also half its length. `LimitPassed` where a number that is used isn't from 2^-32 to 1024, then
/// `BadRange` where there are too few.
#[tactic(auto, unfolding(crate::specs::Choices::size, crate::specs::Choices::sized))]
pub fn size(kind: GeomKind, xs: &Option<Array<Fix<32>>>) -> Result<Extent, ModelCode>
    ensures { result ≡ spec.size kind xs.now }
{
    match xs {
        Some(list) => sized(kind, list),
        None => match kind {
            GeomKind::Plane => Ok(Extent {
                radius: Number::from_raw(0),
                half: Number::from_raw(0),
            }),
            _ => Err(ModelCode::BadRange),
        },
    }
}
