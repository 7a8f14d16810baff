// The read of the intent, from `Keeper<Unknown>` to `Recovering`, or to `Keeper<Clean>` where none
// stands.
ghost use Rattle.std.specs.Prelude.{◌≡◌, IfErr, IsErrOf, Ok};
ghost use Rattle.acct_outside.specs.Calls.{reads};
ghost use Rattle.acct_outside.specs.Contract.{found_result};
ghost use Rattle.suite_rules.specs.Steps.{StandsIn, own_command, TakesStep};
ghost use Rattle.suite_rules.specs.Outcomes.{before_commit};
ghost use Rattle.lock_steps.specs.Stands.{Keeps, KnowsAnything, KnowsNone};
ghost use Rattle.recovery.specs.Stands.{StandsRefused, HoldsSeen};
ghost use Rattle.recovery.specs.Outcomes.{FindsIntent, ReadsBytes, failed_before};

use crate::recovering::Recovering;
use crate::{IntentSeen, RecoveryEnd};
use acct_outside::{CommitStage, Folder, FolderFault, Found, INTENT_LIMIT, Name, StageFault};
use intent_file::{Intent, IntentFault};
use lock_steps::{Keeper, Unknown};
use std::alloc::Global;

/// Reads the intent.
///
/// At `Damaged` it doesn't read, and at `TooLarge` it has more than 100,664,320 bytes; both hand the
/// keeper back. `Fault` says that the folder failed, or that memory ran out for the read or, after
/// it, for the listed tables.
pub fn read_intent<F: Folder>(
    alloc: Global,
    keeper: Keeper<Unknown>,
    folder: &mut F,
) -> Result<IntentSeen, RecoveryEnd>
    requires { StandsIn (F.moment folder.old) keeper.token (Keeps keeper KnowsAnything) }
    ensures step { TakesStep (F.moment folder.old) (F.moment folder.new) keeper.token
        (reads Name.Intent) (λ answer. FindsIntent keeper answer result) HoldsSeen own_command
        (RecoveryEnd.Fault failed_before) result }
    ensures refused { IfErr result (StandsRefused (F.moment folder.new) keeper.token) }
{
    let found = folder.read(keeper.token(), Name::Intent, INTENT_LIMIT);
    after_read(alloc, keeper, folder, found)
}

// What the read of the intent leads to.
fn after_read<F: Folder>(
    alloc: Global,
    keeper: Keeper<Unknown>,
    folder: &F,
    found: Result<Found, FolderFault>,
) -> Result<IntentSeen, RecoveryEnd>
    requires { found ≡ Ok Found.Absent → StandsIn (F.moment folder.now) keeper.token
        (Keeps keeper KnowsNone) }
    ensures shown { FindsIntent keeper (found_result found) result }
    ensures failed { IsErrOf result (RecoveryEnd.Fault failed_before)
        → IsErrOf found FolderFault.Failed }
{
    match found {
        Ok(Found::Absent) => Ok(IntentSeen::Clean(keeper.cleaned(folder))),
        Ok(Found::Held(bytes)) => after_bytes(alloc, keeper, bytes.as_slice()),
        Ok(Found::TooLarge) => Err(RecoveryEnd::TooLarge(keeper)),
        Err(fault) => Err(RecoveryEnd::Fault(at_before(fault))),
    }
}

// What the bytes of an intent lead to.
fn after_bytes(
    alloc: Global,
    keeper: Keeper<Unknown>,
    bytes: &[u8],
) -> Result<IntentSeen, RecoveryEnd>
    ensures shown { ReadsBytes keeper bytes.now result }
    ensures failed { ¬ (IsErrOf result (RecoveryEnd.Fault failed_before)) }
{
    match Intent::read(alloc, bytes) {
        Ok(intent) => Ok(IntentSeen::Listed(Recovering::new(keeper, intent))),
        Err(IntentFault::Part(part)) => Err(RecoveryEnd::Damaged(part, keeper)),
        Err(IntentFault::Memory) => Err(RecoveryEnd::Fault(at_before(FolderFault::Memory))),
    }
}

/// The fault of the folder, before the session's own commit.
pub(crate) fn at_before(fault: FolderFault) -> StageFault
    ensures { result ≡ before_commit fault }
{
    StageFault {
        fault,
        stage: CommitStage::Before,
    }
}
