// Quotients of integers, rounded once.
ghost use Rattle.std.specs.Prelude.{◌≡◌, ◌≤◌, pos, ◌<ℤ◌, ◌≤ℤ◌, unsigned_abs, IfOk};
ghost use Rattle.fx_whole.specs.Nearest as rounding;
ghost use Rattle.fx_whole.specs.First.{refusal_of};
ghost use Rattle.fx_num.specs.Settled.{over_value};

use crate::carry::Over;
use crate::limits::narrow_within;
use fx_whole::nearest;

/// `n / d` rounded to the nearest integer, a tie to the one nearer to zero. `Over::Value` exactly
/// where that integer passes `limit` in size.
pub fn div_nearest(n: i128, d: i128, limit: i64) -> Result<i64, Over>
    requires positive { pos 0 <ℤ d }
    requires limit { pos 0 ≤ℤ limit }
    ensures value { IfOk result (λ m. m ≡ rounding.nearest n d) }
    ensures property { IfOk result (λ m. rounding.IsNearest n d m) }
    ensures within { IfOk result (λ m. unsigned_abs m ≤ unsigned_abs limit) }
    ensures first { refusal_of result ≡ over_value (unsigned_abs limit) (rounding.nearest n d) }
{
    narrow_within(&nearest(n, d), limit)
}
