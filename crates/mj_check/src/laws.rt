// What an accepted dump promises.
ghost use Rattle.std.specs.Prelude.{◌≡◌, ℕ, List, None};
ghost use Rattle.mj_optimum.specs.Problem.{Problem, IsRegular};
ghost use Rattle.mj_types.specs.declared.verdict.Verdict.{Verdict};
ghost use Rattle.mj_types.specs.declared.verdict.Verdict.TheVariants as verdict;
ghost use Rattle.mj_check.specs.Numbers as spec;
ghost use Rattle.mj_check.specs.Verdict.{IsVerdict, BlocksHold};

/// Where the numbers of a block have no fault, its forces are feasible, no feasible rational force
/// costs less than its bound, and each that costs no more than its forces is within its box.
pub fn accepted_numbers_hold()
    ensures { (p : Problem) (place : ℕ → ℕ) (x : spec.Printed) (first cost_line : ℕ)
        → IsRegular p → spec.numbers_fault p place x first cost_line ≡ None
        → spec.Promise p x }
{}

/// What the lines of each block of an accepted text tell keeps the promise.
pub fn accepted_blocks_hold()
    ensures { (text : List ℕ) (blocks : ℕ) → IsVerdict text (verdict.Accepted blocks)
        → BlocksHold text blocks }
{}

/// A text has one verdict.
pub fn verdict_is_one()
    ensures { (text : List ℕ) (a b : Verdict) → IsVerdict text a → IsVerdict text b → a ≡ b }
{}
