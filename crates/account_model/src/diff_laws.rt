//! A law of diffs. It is a function that does nothing, and whose contract is the law.
ghost use Rattle.account_model.specs.PlanDiff.{DiffsAreExact};

/// What a diff keeps and takes away is the old file, and what it keeps and adds is the new one.
pub fn diffs_are_exact()
    ensures { DiffsAreExact }
{}
