// Composite inertias, carried up the tree.
ghost use Rattle.std.specs.Prelude.{◌≡◌, ℕ, suc, ◌^◌, ◌<◌, ◌==◌, cond, length};
ghost use Rattle.fx_vec.specs.Spatial.{plus_inertia};
ghost use Rattle.fx_vec.specs.Views.{inertia};
ghost use Rattle.mj_types.specs.Parts.{parent_of};
ghost use Rattle.mj_types.specs.Placed.{AreFrames, WithinInertia, inertia_at};
ghost use Rattle.mj_types.specs.Rooms.{CompositeRoom};
ghost use Rattle.mj_inertia.specs.CompositeBodies as spec;

use fx_list::Array;
use fx_vec::{Inertia10, add10};
use mj_types::{Composite, Frames, Model};

// Writes the inertias of `from` into `to`.
fn copy_all(from: &Array<Inertia10>, to: &mut Array<Inertia10>)
    requires { length to.old ≡ length from.now }
    ensures room { length to.new ≡ length to.old }
    ensures same { (b : ℕ) → b < length from.now → inertia_at to.new b ≡ inertia_at from.now b }
{
    for b in 0..from.len() {
        to.put(b, from.at(b));
    }
}

/// The sum of two inertias.
pub(crate) fn plus(a: &Inertia10, b: &Inertia10) -> Inertia10
    requires a { WithinInertia (inertia a.now) (2 ^ 70) }
    requires b { WithinInertia (inertia b.now) (2 ^ 70) }
    ensures { inertia result ≡ plus_inertia (inertia a.now) (inertia b.now) }
{
    add10(a, b)
}

// Adds the entry of the body at a place to that of its parent, where that isn't the world.
fn add_to_parent(model: &Model, b: usize, out: &mut Composite)
    requires body { b < length model.now.bodies }
    requires room { CompositeRoom model.now out.old }
    requires small { (c : ℕ) → c < length model.now.bodies
        → WithinInertia (inertia_at out.old.list c) (2 ^ 70) }
    ensures room { CompositeRoom model.now out.new }
    ensures sums { (c : ℕ) → c < length model.now.bodies → inertia_at out.new.list c
        ≡ cond (suc c == parent_of model.now.bodies (suc b))
        (plus_inertia (inertia_at out.old.list c) (inertia_at out.old.list b))
        (inertia_at out.old.list c) }
{
    let parent = model.bodies.entry(b).parent;
    if parent > 0 {
        let sum = plus(out.list.entry(parent - 1), out.list.entry(b));
        out.list.put(parent - 1, sum);
    }
}

/// For each body the inertia of that body and of all bodies below it together, about their tree's
/// reference point: the sum of the frames' inertias, number by number (composite rigid bodies,
/// Featherstone, Rigid Body Dynamics Algorithms, chapter 6).
pub fn composites(model: &Model, frames: &Frames, out: &mut Composite)
    requires frames { AreFrames model.now frames.now }
    requires room { CompositeRoom model.now out.old }
    ensures room { CompositeRoom model.now out.new }
    ensures sums { spec.IsCompositeOf model.now (inertia_at frames.now.inertia) out.new }
    ensures ranges { spec.AreComposites model.now out.new }
{
    copy_all(&frames.inertia, &mut out.list);
    let bodies = model.bodies.len();
    for s in 0..bodies {
        add_to_parent(model, bodies - 1 - s, out);
    }
}
