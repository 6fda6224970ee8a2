// What a solver begins with: forces of 0, and what it keeps of each row.
ghost use Rattle.std.specs.Prelude.{◌≡◌, ℕ, ◌<◌, ◌≤◌, pos, length};
ghost use Rattle.mj_optimum.specs.Sweep as rule;
ghost use Rattle.mj_types.specs.Parts.{number_at};
ghost use Rattle.mj_types.specs.Problems.{IsSolvable, problem, forces};
ghost use Rattle.mj_pgs.specs.Holding.{HasPlaces, HaveSamePlaces, IsHeld};

use fx_list::Array;
use fx_num::{Fix, Number};
use fx_whole::{Divisor, sum};
use mj_types::{Dual, Forces};

// Writes 0 everywhere.
fn clear<const F: u32>(list: &mut Array<Fix<F>>)
    ensures len { length list.new ≡ length list.old }
    ensures zero { (i : ℕ) → number_at list.new i ≡ pos 0 }
{
    for i in 0..list.len() {
        list.put(i, Number { mid: 0, rad: () });
    }
}

// What the gradient of row i is divided by.
fn divisor(dual: &Dual, i: usize) -> Divisor
    requires row { i < dual.now.m }
    requires solvable { IsSolvable dual.now }
    ensures { result.d ≡ rule.divisor (problem dual.now) i }
{
    Divisor::new(sum(dual.diag.at(i).raw, dual.r.at(i).raw))
}

// How many numbers of a row there are up to the last that isn't 0.
fn used(row: &[Fix<24>]) -> usize
    ensures within { result ≤ length row.now }
    ensures zero { (k : ℕ) → result ≤ k → k < length row.now → number_at row.now k ≡ pos 0 }
{
    let mut used = 0;
    for k in 0..row.len() {
        if row[k].mid != 0 {
            used = k + 1;
        }
    }
    used
}

/// Writes forces of 0, and what is kept of each row.
pub(crate) fn start(dual: &Dual, out: &mut Forces)
    requires solvable { IsSolvable dual.now }
    requires places { HasPlaces dual.now out.old }
    ensures places { HaveSamePlaces out.old out.new }
    ensures held { IsHeld dual.now out.new }
    ensures forces { forces out.new ≡ (λ _. pos 0) }
{
    clear(&mut out.f);
    clear(&mut out.u);
    for i in 0..dual.m {
        out.divisor.put(i, divisor(dual, i));
        out.used.put(i, used(dual.row(i)));
    }
}
