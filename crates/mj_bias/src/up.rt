// Up the tree: the wrench of a body and of all bodies below it.
ghost use Rattle.std.specs.Prelude.{◌≡◌, ◌≢◌, ℕ, ◌+◌, ◌-◌, ◌<◌, ◌≤◌, ◌^◌, length};
ghost use Rattle.mj_types.specs.Parts.{parent_of};
ghost use Rattle.mj_bias.specs.Measures as measure;
ghost use Rattle.mj_bias.specs.Steps.{sum_there};
ghost use Rattle.mj_types.specs.Memory.{SumsFit};

use fx_list::Array;
use fx_num::Carry;
use fx_vec::{Sum6, add6};
use mj_types::Model;

// Adds the sum at one place to that at another.
fn add_to<K: Carry>(from: usize, to: usize, wrench: &mut Array<Sum6<K, 72>>)
    requires sums { SumsFit K.Wide.row }
    requires from { from < length wrench.old }
    requires to { to < length wrench.old }
    requires added { measure.IsWithin (measure.totals_at K.wide_width wrench.old from)
        (2 ^ 126 - 1) (2 ^ 126) }
    requires sum { measure.IsWithin (measure.totals_at K.wide_width wrench.old to)
        (2 ^ 126) (2 ^ 126) }
    ensures len { length wrench.new ≡ length wrench.old }
    ensures here { measure.totals_at K.wide_width wrench.new to
        ≡ measure.sum_of (measure.totals_at K.wide_width wrench.old to)
        (measure.totals_at K.wide_width wrench.old from) }
    ensures others { (i : ℕ) → i ≢ to → measure.totals_at K.wide_width wrench.new i
        ≡ measure.totals_at K.wide_width wrench.old i }
{
    let mut sum = wrench.at(to);
    add6::<K, 72>(wrench.entry(from), &mut sum);
    wrench.put(to, sum);
}

/// Adds each body's wrench to its parent's, from the last body on.
pub(crate) fn carry_up<K: Carry>(model: &Model, wrench: &mut Array<Sum6<K, 72>>)
    requires sums { SumsFit K.Wide.row }
    requires room { length wrench.old ≡ length model.now.bodies + 1 }
    requires within { (k : ℕ) → k ≤ length model.now.bodies
        → measure.IsWithin (measure.totals_at K.wide_width wrench.old k) (2 ^ 118) (2 ^ 106) }
    ensures len { length wrench.new ≡ length wrench.old }
    ensures sums { (k : ℕ) → k ≤ length model.now.bodies
        → measure.totals_at K.wide_width wrench.new k
        ≡ sum_there (parent_of model.now.bodies) (length model.now.bodies + 1)
        (measure.totals_at K.wide_width wrench.old) k }
{
    let bodies = model.bodies.len();
    for s in 0..bodies {
        let k = bodies - s;
        add_to::<K>(k, model.bodies.entry(k - 1).parent, wrench);
    }
}
