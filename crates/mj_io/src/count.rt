// Counts that stand still at their greatest value.
ghost use Rattle.std.specs.Prelude.{◌≡◌};
ghost use Rattle.mj_io.specs.Faults.{raised};
ghost use Rattle.mj_io.specs.System as spec;

// One more, or the greatest value.
pub(crate) fn one_more(count: u64) -> u64
    ensures { result ≡ raised count }
{
    count.saturating_add(1)
}

// A count after a call, which was a fault or wasn't.
pub(crate) fn after_call(count: u64, failed: bool) -> u64
    ensures { result ≡ spec.count_after failed count }
{
    if failed { one_more(count) } else { count }
}
