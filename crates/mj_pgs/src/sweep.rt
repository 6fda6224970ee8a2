// A sweep over all rows, and the judgement of what it gives.
ghost use Rattle.std.specs.Prelude.{◌≡◌, pos, ◌+ℤ◌, ◌-ℤ◌, ◌≤ℤ◌, neg_ℤ, IfOk};
ghost use Rattle.std.specs.Int.{int_wrap};
ghost use mir.Syntax.{w128};
ghost use Rattle.fx_whole.specs.First.{refusal_of};
ghost use Rattle.fx_whole.specs.Sums.{sum_to};
ghost use Rattle.mj_optimum.specs.Cost.{cost};
ghost use Rattle.mj_optimum.specs.Feasible.{IsFeasible};
ghost use Rattle.mj_optimum.specs.Sweep as rule;
ghost use Rattle.mj_types.specs.Problems as problems;
ghost use Rattle.mj_types.specs.Problems.{problem, forces};
ghost use Rattle.mj_types.specs.Solved.{IsSolved};
ghost use Rattle.mj_pgs.specs.Answer as spec;
ghost use Rattle.mj_pgs.specs.Holding.{IsHeld, HaveSamePlaces};

use crate::row::update;
use fx_num::Wide;
use mj_cost::judge;
use mj_types::{Dual, Forces, OutOfRange};

// a + b and -a, in 128 bits.
fn plus(a: Wide<88>, b: Wide<88>) -> Wide<88>
    ensures { result.raw ≡ int_wrap w128 (a.raw +ℤ b.raw) }
{
    Wide {
        raw: a.raw.wrapping_add(b.raw),
    }
}

fn negative(a: Wide<88>) -> Wide<88>
    ensures { result.raw ≡ int_wrap w128 (neg_ℤ a.raw) }
{
    Wide {
        raw: a.raw.wrapping_neg(),
    }
}

// Updates the rows in their order. Gives what the cost changes by, in 128 bits.
fn sweep(dual: &Dual, out: &mut Forces) -> Result<Wide<88>, OutOfRange>
    requires held { IsHeld dual.now out.old }
    ensures places { HaveSamePlaces out.old out.new }
    ensures first { refusal_of result
        ≡ spec.pass_fault (problem dual.now) (problems.place dual.now) (forces out.old) }
    ensures held { IfOk result (λ _. IsHeld dual.now out.new) }
    ensures forces { IfOk result (λ _.
        forces out.new ≡ rule.sweep (problem dual.now) (forces out.old)) }
    ensures change { IfOk result (λ x. x.raw ≡ int_wrap w128
        (sum_to dual.now.m (rule.row_change (problem dual.now) (forces out.old)))) }
{
    let mut total = Wide { raw: 0 };
    for i in 0..dual.m {
        total = plus(total, update(dual, i, out)?);
    }
    Ok(total)
}

/// One sweep, whose forces and sums are judged. Gives what the cost falls by.
pub(crate) fn round(dual: &Dual, out: &mut Forces) -> Result<Wide<88>, OutOfRange>
    requires held { IsHeld dual.now out.old }
    requires feasible { IsFeasible (problem dual.now) (forces out.old) (pos 1) }
    requires cost { cost (problem dual.now) (forces out.old) (pos 1) ≤ℤ pos 0 }
    ensures places { HaveSamePlaces out.old out.new }
    ensures first { refusal_of result
        ≡ spec.sweep_fault (problem dual.now) (problems.place dual.now) (forces out.old) }
    ensures held { IfOk result (λ _. IsHeld dual.now out.new) }
    ensures forces { IfOk result (λ _.
        forces out.new ≡ rule.sweep (problem dual.now) (forces out.old)) }
    ensures solved { IfOk result (λ _. IsSolved dual.now out.new) }
    ensures fall { IfOk result (λ x. x.raw
        ≡ cost (problem dual.now) (forces out.old) (pos 1)
        -ℤ cost (problem dual.now) (forces out.new) (pos 1)) }
{
    let total = sweep(dual, out)?;
    judge(dual, out)?;
    Ok(negative(total))
}
