// Where a dump is rejected.
use mj_types::Reason;

/// A line, from 1, and why it is rejected.
#[derive(Clone, Copy, Debug, PartialEq, Eq)]
pub struct Rejection {
    pub line: usize,
    pub reason: Reason,
}
