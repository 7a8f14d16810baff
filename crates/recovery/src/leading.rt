// What the answer of a call that can't be refused leads to, with the stage of its fault.
ghost use Rattle.std.specs.Prelude.{IsErrOf};
ghost use Rattle.suite_rules.specs.Outcomes.{LeadsTo, at_stage};

use acct_outside::{CommitStage, FolderFault, StageFault};

/// The next state where the call was done, and else its fault with this stage.
pub fn leads<S: Drop>(
    next: S,
    answer: Result<(), FolderFault>,
    stage: CommitStage,
) -> Result<S, StageFault>
    ensures shown { LeadsTo next (at_stage stage) answer result }
    ensures failed { IsErrOf result (at_stage stage FolderFault.Failed)
        → IsErrOf answer FolderFault.Failed }
{
    match answer {
        Ok(()) => Ok(next),
        Err(fault) => Err(StageFault { fault, stage }),
    }
}
