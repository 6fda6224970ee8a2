// How far a force may go to its bounds.
ghost use Rattle.std.specs.Prelude.{◌≡◌, ◌^◌, ◌<◌, ◌≤◌, ◌+ℤ◌, ◌-ℤ◌, ◌≤ℤ◌, pos, unsigned_abs, option_map, IfSome, IsTrue};
ghost use Rattle.mj_optimum.specs.Feasible.{IsAbove, IsBelow};
ghost use Rattle.mj_optimum.specs.Shortfall as spec;
ghost use Rattle.mj_types.specs.Duals.{bound, is_in_range};

use fx_num::{Fix, Wide};

/// `b - a`.
pub fn distance(a: &Fix<20>, b: &Fix<20>) -> u64
    requires order { a.now.mid ≤ℤ b.now.mid }
    requires a { unsigned_abs a.now.mid ≤ 2 ^ 50 }
    requires b { unsigned_abs b.now.mid ≤ 2 ^ 50 }
    ensures value { pos result ≡ b.now.mid -ℤ a.now.mid }
    ensures size { result ≤ 2 ^ 51 }
{
    (b.mid - a.mid).unsigned_abs()
}

/// From the low bound to `f`.
fn room_below(low: Option<Fix<20>>, f: &Fix<20>) -> Option<u64>
    requires f { unsigned_abs f.now.mid ≤ 2 ^ 50 }
    requires above { IsAbove (bound low) f.now.mid (pos 1) }
    requires small { IsTrue (is_in_range (bound low)) }
    ensures value { option_map pos result ≡ spec.room_below (bound low) f.now.mid }
    ensures size { IfSome result (λ t. t ≤ 2 ^ 51) }
{
    match low {
        None => None,
        Some(low) => Some(distance(&low, f)),
    }
}

/// From `f` to the high bound.
fn room_above(high: Option<Fix<20>>, f: &Fix<20>) -> Option<u64>
    requires f { unsigned_abs f.now.mid ≤ 2 ^ 50 }
    requires below { IsBelow (bound high) f.now.mid (pos 1) }
    requires small { IsTrue (is_in_range (bound high)) }
    ensures value { option_map pos result ≡ spec.room_above (bound high) f.now.mid }
    ensures size { IfSome result (λ t. t ≤ 2 ^ 51) }
{
    match high {
        None => None,
        Some(high) => Some(distance(f, &high)),
    }
}

/// From `f` to the bound that it goes to downhill, where the slope is `g`.
pub fn room_of(
    low: Option<Fix<20>>,
    high: Option<Fix<20>>,
    f: &Fix<20>,
    g: &Wide<68>,
) -> Option<u64>
    requires f { unsigned_abs f.now.mid ≤ 2 ^ 50 }
    requires above { IsAbove (bound low) f.now.mid (pos 1) }
    requires below { IsBelow (bound high) f.now.mid (pos 1) }
    requires low_small { IsTrue (is_in_range (bound low)) }
    requires high_small { IsTrue (is_in_range (bound high)) }
    ensures value { option_map pos result ≡ spec.room (bound low) (bound high) f.now.mid g.now.raw }
    ensures size { IfSome result (λ t. t ≤ 2 ^ 51) }
{
    if g.raw >= 0 {
        room_below(low, f)
    } else {
        room_above(high, f)
    }
}
