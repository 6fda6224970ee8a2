// The velocity that each dof gives to the point of a contact.
ghost use Rattle.std.specs.Prelude.{◌≡◌, ◌-◌, ◌^◌, ◌<◌, ◌≤◌, pos, ◌+ℤ◌, ◌-ℤ◌, ◌*ℤ◌, unsigned_abs, length, IfOk, IsTrue};
ghost use Rattle.fx_whole.specs.First.{refusal_of};
ghost use Rattle.fx_num.specs.Settled.{settled_mid};
ghost use Rattle.fx_vec.specs.Sizes.{Within, Within6};
ghost use Rattle.fx_vec.specs.Vectors.{minus as minus_of};
ghost use Rattle.fx_vec.specs.Views.{mids, spatial};
ghost use Rattle.mj_types.specs.declared.range.Quantity.TheVariants as kind;
ghost use Rattle.mj_types.specs.Parts.{body, dof};
ghost use Rattle.mj_types.specs.Placed.{AreFrames, placing_of};
ghost use Rattle.mj_types.specs.Ranges.{is_within, unless};
ghost use Rattle.mj_contact.specs.Sizes.{IsUsable};
ghost use Rattle.mj_rows.specs.Constraint as constraint;
ghost use Rattle.mj_rows.specs.Edges as spec;
ghost use Rattle.mj_rows.specs.Slopes.{exact};

use fx_num::{Fix, Plain, Wide};
use fx_vec::{Sp6, V3, Vector3, minus};
use fx_whole::{difference, narrow, nearest_shift, product, scale_up, sum};
use mj_types::{Contact, Frames, Model, OutOfRange, Quantity};

/// A vector before its numbers are judged.
#[derive(Clone, Copy)]
pub(crate) struct Exact {
    pub(crate) x: Wide<32>,
    pub(crate) y: Wide<32>,
    pub(crate) z: Wide<32>,
}

// `s a`, exactly, of a number of a column and one of an arm.
fn lever(s: &Fix<32>, a: &Fix<32>) -> Wide<64>
    requires column { unsigned_abs s.now.mid ≤ 2 ^ 42 }
    requires arm { unsigned_abs a.now.mid ≤ 2 ^ 57 }
    ensures value { result.raw ≡ s.now.mid *ℤ a.now.mid }
    ensures size { unsigned_abs result.raw ≤ 2 ^ 99 }
{
    Wide {
        raw: product(s.mid, a.mid),
    }
}

// `n` at scale 64.
fn widened(n: &Fix<32>) -> Wide<64>
    requires { unsigned_abs n.now.mid ≤ 2 ^ 42 }
    ensures value { result.raw ≡ pos (2 ^ 32) *ℤ n.now.mid }
    ensures size { unsigned_abs result.raw ≤ 2 ^ 74 }
{
    Wide {
        raw: scale_up(n.mid, 32),
    }
}

// `n + a d - b c`, rounded once.
fn carried(n: &Fix<32>, a: &Fix<32>, d: &Fix<32>, b: &Fix<32>, c: &Fix<32>) -> Wide<32>
    requires n { unsigned_abs n.now.mid ≤ 2 ^ 42 }
    requires a { unsigned_abs a.now.mid ≤ 2 ^ 42 }
    requires d { unsigned_abs d.now.mid ≤ 2 ^ 57 }
    requires b { unsigned_abs b.now.mid ≤ 2 ^ 42 }
    requires c { unsigned_abs c.now.mid ≤ 2 ^ 57 }
    ensures { result.raw ≡ settled_mid (pos (2 ^ 32) *ℤ n.now.mid
        +ℤ (a.now.mid *ℤ d.now.mid -ℤ b.now.mid *ℤ c.now.mid)) 32 }
{
    let turned = difference(lever(a, d).raw, lever(b, c).raw);
    Wide {
        raw: nearest_shift(sum(widened(n).raw, turned), 32),
    }
}

// The velocity of a point that moves with `s`, from its place about the point that `s` is about.
#[tactic(auto, unfolding(crate::specs::Edges::velocity_of))]
pub(crate) fn velocity(s: &Sp6<Plain, 32>, arm: &V3<Plain, 32>) -> Exact
    requires column { Within6 (spatial s.now) (2 ^ 42) }
    requires arm { Within (mids arm.now) (2 ^ 57) }
    ensures { exact result ≡ spec.velocity_of (spatial s.now) (mids arm.now) }
{
    Exact {
        x: carried(&s.lin.x, &s.ang.y, &arm.z, &s.ang.z, &arm.y),
        y: carried(&s.lin.y, &s.ang.z, &arm.x, &s.ang.x, &arm.z),
        z: carried(&s.lin.z, &s.ang.x, &arm.y, &s.ang.y, &arm.x),
    }
}

// The place of the root of a dof's tree in the list of bodies.
fn root_of(model: &Model, d: usize) -> usize
    requires { d < model.now.nv }
    ensures value { result ≡ (body model.now.bodies ((dof model.now.dofs d).body - 1)).root - 1 }
    ensures there { result < length model.now.bodies }
{
    let body = model.dofs.entry(d).body;
    model.bodies.entry(body - 1).root - 1
}

// The place of a contact's point about the reference point of a dof's tree.
fn arm_of(model: &Model, frames: &Frames, contact: &Contact, d: usize) -> V3<Plain, 32>
    requires frames { AreFrames model.now frames.now }
    requires contact { IsUsable (length model.now.geoms) contact.now }
    requires dof { d < model.now.nv }
    ensures value { mids result ≡ minus_of (mids contact.now.point)
        (spec.reference_of model.now (placing_of frames.now) d) }
    ensures size { Within (mids result) (2 ^ 57) }
{
    minus(&contact.point, frames.pos.entry(root_of(model, d)))
}

// Whether a number is at most 2^16 in size.
fn is_small(n: &Wide<32>) -> bool
    ensures { result ≡ is_within (2 ^ 48) n.now.raw }
{
    n.raw.unsigned_abs() <= 1 << 48
}

// Whether each number of a vector is.
fn is_near(v: &Exact) -> bool
    ensures { result ≡ constraint.is_near (exact v.now) }
{
    is_small(&v.x) && is_small(&v.y) && is_small(&v.z)
}

// The same number.
fn narrowed(n: &Wide<32>) -> Fix<32>
    requires { IsTrue (is_within (2 ^ 48) n.now.raw) }
    ensures value { result.mid ≡ n.now.raw }
    ensures small { unsigned_abs result.mid ≤ 2 ^ 48 }
{
    Fix::from_raw(narrow(n.raw))
}

// The same vector, whose numbers are small.
fn narrowed_all(v: &Exact) -> V3<Plain, 32>
    requires x { IsTrue (is_within (2 ^ 48) v.now.x.raw) }
    requires y { IsTrue (is_within (2 ^ 48) v.now.y.raw) }
    requires z { IsTrue (is_within (2 ^ 48) v.now.z.raw) }
    ensures value { mids result ≡ exact v.now }
    ensures near { Within (mids result) (2 ^ 48) }
{
    Vector3 {
        x: narrowed(&v.x),
        y: narrowed(&v.y),
        z: narrowed(&v.z),
    }
}

// The same vector, where its numbers are small; else the fault of the row.
fn judged(v: &Exact, number: usize) -> Result<V3<Plain, 32>, OutOfRange>
    ensures value { IfOk result (λ e. mids e ≡ exact v.now) }
    ensures near { IfOk result (λ e. Within (mids e) (2 ^ 48)) }
    ensures first { refusal_of result
        ≡ unless (constraint.is_near (exact v.now)) kind.Jacobian number }
{
    if is_near(v) {
        Ok(narrowed_all(v))
    } else {
        Err(OutOfRange {
            kind: Quantity::Jacobian,
            index: number,
        })
    }
}

/// The velocity that a unit velocity of a dof gives to a contact's point; where a number of it passes
/// 2^16, the fault of the row of that number.
pub(crate) fn lever_of(
    model: &Model,
    frames: &Frames,
    contact: &Contact,
    d: usize,
    number: usize,
) -> Result<V3<Plain, 32>, OutOfRange>
    requires frames { AreFrames model.now frames.now }
    requires contact { IsUsable (length model.now.geoms) contact.now }
    requires dof { d < model.now.nv }
    ensures value { IfOk result (λ e. mids e
        ≡ spec.lever_of model.now (placing_of frames.now) contact.now d) }
    ensures near { IfOk result (λ e. Within (mids e) (2 ^ 48)) }
    ensures first { refusal_of result ≡ unless (constraint.is_near
        (spec.lever_of model.now (placing_of frames.now) contact.now d)) kind.Jacobian number }
{
    let arm = arm_of(model, frames, contact, d);
    judged(&velocity(frames.column.entry(d), &arm), number)
}
