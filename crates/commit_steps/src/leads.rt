// What the answer of the call that commits leads to, with the stage of its fault.
ghost use Rattle.std.specs.Prelude.{IsErrOf};
ghost use Rattle.suite_rules.specs.Outcomes.{LeadsTo, at_commit};

use acct_outside::{CommitStage, FolderFault, StageFault};

/// The next state where the commit was done. Failed, it may have happened; without memory it didn't.
pub(crate) fn commits<S: Drop>(next: S, answer: Result<(), FolderFault>) -> Result<S, StageFault>
    ensures shown { LeadsTo next at_commit answer result }
    ensures failed { IsErrOf result (at_commit FolderFault.Failed)
        → IsErrOf answer FolderFault.Failed }
{
    match answer {
        Ok(()) => Ok(next),
        Err(FolderFault::Failed) => Err(StageFault {
            fault: FolderFault::Failed,
            stage: CommitStage::Unsure,
        }),
        Err(FolderFault::Memory) => Err(StageFault {
            fault: FolderFault::Memory,
            stage: CommitStage::Before,
        }),
    }
}
