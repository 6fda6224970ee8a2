// The row of a constraint that pushes, and never pulls.
ghost use Rattle.std.specs.Prelude.{◌≡◌, ℕ, ◌^◌, ◌≤◌, ℤ, unsigned_abs, false};
ghost use Rattle.fx_vec.specs.Vectors.{Triple};
ghost use Rattle.mj_types.specs.Lawful.{IsSoft};
ghost use Rattle.mj_rows.specs.Constraint as spec;
ghost use Rattle.mj_rows.specs.Working.{IsReady};

use fx_num::Fix;
use mj_types::{Row, Soft, Source};

/// It is violated by `r`.
pub(crate) fn pushing(source: Source, r: &Fix<32>, soft: &Soft) -> Row
    requires soft { IsSoft soft.now }
    requires small { unsigned_abs r.now.mid ≤ 2 ^ 56 }
    ensures row { (lever : ℕ → Triple ℤ) (slope : ℕ → ℤ) → result
        ≡ spec.row_of false (spec.pushing source r.now.mid soft.now lever slope) }
    ensures ready { IsReady result }
{
    Row {
        source,
        r: *r,
        soft: *soft,
        idle: false,
        low: Some(Fix::from_raw(0)),
        high: None,
    }
}
