// How the sweeps of a solver end.

/// Why a solver stopped: there were no rows; or a sweep, counted from 1, was the first to lower the
/// cost by no more than the tolerance; or the limit on sweeps was met.
#[derive(Clone, Copy, Debug, PartialEq, Eq)]
pub enum Stop {
    NoRows,
    Tolerance(u32),
    Limit(u32),
}
