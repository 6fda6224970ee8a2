// Places in a factor's lists of the dofs above each dof.
ghost use Rattle.std.specs.Prelude.{◌≡◌, ◌*◌, ◌<◌, ◌≤◌};
ghost use Rattle.mj_tree.specs.Listing.{height, start, listed};
ghost use Rattle.mj_types.specs.FactorRooms.{FactorRoom};
ghost use Rattle.mj_types.specs.Forests.{above_in};

use mj_types::{Factor, Model};

/// Where the list of dof `k` begins; at `k = nv` where the last list ends.
pub fn begin(model: &Model, factor: &Factor, k: usize) -> usize
    requires room { FactorRoom model.now factor.now }
    requires dof { k ≤ model.now.nv }
    ensures start { result ≡ start (above_in model.now) k }
    ensures small { result ≤ 64 * 64 }
{
    factor.at.at(k)
}

/// How many dofs are above dof `k`.
pub fn height(model: &Model, factor: &Factor, k: usize) -> usize
    requires room { FactorRoom model.now factor.now }
    requires dof { k < model.now.nv }
    ensures height { result ≡ height (above_in model.now) k }
    ensures small { result ≤ k }
{
    begin(model, factor, k + 1) - begin(model, factor, k)
}

/// The dof that the list of dof `k` names after `c` others.
pub(crate) fn named(model: &Model, factor: &Factor, k: usize, c: usize) -> usize
    requires room { FactorRoom model.now factor.now }
    requires dof { k < model.now.nv }
    requires place { c < height (above_in model.now) k }
    ensures listed { result ≡ listed (above_in model.now) factor.now.above k c }
    ensures before { result < k }
{
    factor.above.at(begin(model, factor, k) + c) - 1
}

/// Whether dof `i` is above dof `k`: whether the list of `k` names `i` after as many dofs as are
/// above `i`.
pub fn is_above(model: &Model, factor: &Factor, i: usize, k: usize) -> bool
    requires room { FactorRoom model.now factor.now }
    requires first { i < model.now.nv }
    requires second { k < model.now.nv }
    ensures { result ≡ above_in model.now i k }
{
    let place = begin(model, factor, k) + height(model, factor, i);
    place < begin(model, factor, k + 1) && factor.above.at(place) == i + 1
}
