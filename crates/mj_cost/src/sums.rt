// The two sums of the cost that have a limit.
ghost use Rattle.std.specs.Prelude.{◌≡◌, ℕ, ◌+◌, ◌-◌, ◌*◌, ◌^◌, ◌<◌, ◌≤◌, min, unsigned_abs, length, IfOk};
ghost use Rattle.fx_whole.specs.First.{first_to, or_first, refusal_of};
ghost use Rattle.mj_optimum.specs.Limits.{cost_limit, weight_to, pull_to};
ghost use Rattle.mj_types.specs.Problems as problems;
ghost use Rattle.mj_types.specs.Problems.{problem, forces};
ghost use Rattle.mj_types.specs.Ranges.{limited};
ghost use Rattle.mj_cost.specs.Costs as spec;
ghost use Rattle.mj_cost.specs.Costs.{AreSums};

use fx_num::{Fix, Wide};
use fx_whole::{product, size};
use mj_types::{Dual, Forces, OutOfRange, Quantity};

// The greatest sum.
const COST_LIMIT: u128 = 1 << 124;

// The greatest sum of pulls: 2^37 of it are the greatest sum.
const PULL_LIMIT: u128 = 1 << 87;

// The sums of the weights R f^2 and of the pulls b f of some rows, in size.
#[derive(Clone, Copy)]
struct Sums {
    weight: u128,
    pull: u128,
}

// The sum of the weights with a row more; the greatest number where that doesn't fit.
fn with_weight(sums: &Sums, r: Wide<48>, f: Fix<20>) -> u128
    ensures { result ≡ min (sums.now.weight
        + min (unsigned_abs r.raw * (unsigned_abs f.mid * unsigned_abs f.mid))
        (2 ^ 128 - 1)) (2 ^ 128 - 1) }
{
    let square = size(product(f.mid, f.mid));
    sums.weight
        .saturating_add(size(r.raw).saturating_mul(square))
}

// b f in size.
fn pull(b: Fix<32>, f: Fix<20>) -> u128
    requires b { unsigned_abs b.mid ≤ 2 ^ 56 }
    requires f { unsigned_abs f.mid ≤ 2 ^ 50 }
    ensures value { result ≡ unsigned_abs b.mid * unsigned_abs f.mid }
    ensures size { result ≤ 2 ^ 106 }
{
    size(product(b.mid, f.mid))
}

// The sum of the pulls with a row more.
fn with_pull(sums: &Sums, b: Fix<32>, f: Fix<20>) -> u128
    requires sum { sums.now.pull ≤ 2 ^ 87 }
    requires b { unsigned_abs b.mid ≤ 2 ^ 56 }
    requires f { unsigned_abs f.mid ≤ 2 ^ 50 }
    ensures { result ≡ sums.now.pull + unsigned_abs b.mid * unsigned_abs f.mid }
{
    sums.pull + pull(b, f)
}

// The sums with row i.
fn with_row(dual: &Dual, i: usize, out: &Forces, sums: Sums) -> Result<Sums, OutOfRange>
    requires row { i < dual.now.m }
    requires room { dual.now.m ≤ length out.now.f }
    requires small { (i : ℕ) → i < dual.now.m → unsigned_abs (forces out.now i) ≤ 2 ^ 50 }
    requires sums { AreSums (problem dual.now) (forces out.now) i sums.weight sums.pull }
    ensures first { refusal_of result
        ≡ spec.cost_fault (problem dual.now) (problems.place dual.now) (forces out.now) i }
    ensures sums { IfOk result (λ s.
        AreSums (problem dual.now) (forces out.now) (i + 1) s.weight s.pull) }
{
    let f = out.f.at(i);
    let place = dual.place.at(i);
    let weight = with_weight(&sums, dual.r.at(i), f);
    OutOfRange::unless(weight <= COST_LIMIT, Quantity::Cost, place)?;
    let pull = with_pull(&sums, dual.b.at(i), f);
    OutOfRange::unless(pull <= PULL_LIMIT, Quantity::Cost, place)?;
    Ok(Sums { weight, pull })
}

/// Judges the two sums of the forces' cost row by row: it refuses at the first row where one of them
/// passes 2^124, and names that row's `place`.
pub fn judge(dual: &Dual, out: &Forces) -> Result<(), OutOfRange>
    requires room { dual.now.m ≤ length out.now.f }
    requires small { (i : ℕ) → i < dual.now.m → unsigned_abs (forces out.now i) ≤ 2 ^ 50 }
    ensures first { refusal_of result ≡ first_to dual.now.m
        (spec.cost_fault (problem dual.now) (problems.place dual.now) (forces out.now)) }
    ensures weight { IfOk result (λ _.
        weight_to (problem dual.now) (forces out.now) dual.now.m ≤ cost_limit) }
    ensures pull { IfOk result (λ _.
        pull_to (problem dual.now) (forces out.now) dual.now.m ≤ cost_limit) }
{
    let mut sums = Sums { weight: 0, pull: 0 };
    for i in 0..dual.m {
        sums = with_row(dual, i, out, sums)?;
    }
    Ok(())
}
