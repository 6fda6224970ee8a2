// What an outcome depends on.
ghost use Rattle.mj_top.specs.Once.{HaveOneOutcome, WorkersDoNotMatter};

/// Words and the files that are held under their names have at most one outcome.
pub fn outcomes_are_one()
    ensures { HaveOneOutcome }
{}

/// The number of workers has no say in a batch's outcome.
pub fn workers_do_not_matter()
    ensures { WorkersDoNotMatter }
{}
