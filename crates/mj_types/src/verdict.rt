// What the check of a dump finds.
ghost use Rattle.std.specs.Prelude.{◌≡◌};
ghost use Rattle.mj_types.specs.Answers as spec;

/// Why a dump is rejected.
#[derive(Clone, Copy, Debug, PartialEq, Eq)]
pub enum Reason {
    /// The text has more bytes than are read.
    TooLarge,
    /// A line isn't the one that a run writes at its place.
    Form,
    /// A number is past its range.
    Limit,
    /// A row's force isn't within its bounds.
    Feasible,
    /// The cost isn't that of the forces.
    Cost,
    /// The lower bound of the cost isn't the one that the forces give.
    Bound,
    /// An end of a row's box isn't the one that the forces give.
    Box,
}

impl Reason {
    /// The reason's name, as a verdict prints it.
    pub fn name(self) -> &'static str
        ensures { result.now ≡ spec.reason_name self }
    {
        match self {
            Reason::TooLarge => "TooLarge",
            Reason::Form => "Form",
            Reason::Limit => "Limit",
            Reason::Feasible => "Feasible",
            Reason::Cost => "Cost",
            Reason::Bound => "Bound",
            Reason::Box => "Box",
        }
    }
}

/// What is found of a dump: accepted, with so many blocks, or rejected, first at this line, from 1.
#[derive(Clone, Copy, Debug, PartialEq, Eq)]
pub enum Verdict {
    Accepted { blocks: u32 },
    Rejected { line: usize, reason: Reason },
}
