// The turns in which a session judges the greatest lock, and takes the next one unless it is a report.
ghost use Rattle.std.specs.Prelude.{◌≡◌};
ghost use Rattle.suite_session.specs.Locking.{ShowsFew, after_judging, after_look, after_read, after_listing, cause_of_end, cause_of_fault, cause_of_refusal};
ghost use Rattle.suite_session.specs.Stands.{AnswersWith, StandsAs};
ghost use Rattle.suite_session.specs.Turning.{TakesTurn};

use crate::runner::Runner;
use crate::state::State;
use acct_outside::{CommitStage, Folder, FolderFault};
use lock_steps::{
    Asking, Claimed, Confirmed, Judged, LockEnd, LockRefusal, Looking, Loser, Seen, Told,
};
use std::alloc::Global;
use suite_answers::Cause;

/// Lists the locks. Where there is none, that is judged.
pub(crate) fn look<F: Folder>(
    alloc: Global,
    runner: &Runner,
    looking: Looking,
    folder: &mut F,
) -> State
    requires { StandsAs (F.moment folder.old) runner.now (State.Looking looking) }
    ensures { TakesTurn (F.moment folder.old) (F.moment folder.new) runner.now
        (State.Looking looking) result }
{
    match looking.look(folder) {
        Ok(seen) => after_look(runner, seen),
        Err(end) => stopped(alloc, runner, end),
    }
}

// There is no lock, or a greatest one.
fn after_look(runner: &Runner, seen: Seen) -> State
    ensures { result ≡ after_look runner.now.asked.request seen }
{
    if seen.greatest() == 0 {
        after_judging(runner, seen.none())
    } else {
        State::Reading(seen)
    }
}

// The greatest lock is judged: a report reads without one, and any other command makes the next.
fn after_judging(runner: &Runner, judged: Judged) -> State
    ensures { result ≡ after_judging runner.now.asked.request judged }
{
    if runner.asked.is_report() {
        State::Watching(judged.watch())
    } else {
        State::Claiming(judged)
    }
}

/// Reads the greatest lock.
pub(crate) fn read<F: Folder>(alloc: Global, runner: &Runner, seen: Seen, folder: &mut F) -> State
    requires { StandsAs (F.moment folder.old) runner.now (State.Reading seen) }
    ensures { TakesTurn (F.moment folder.old) (F.moment folder.new) runner.now
        (State.Reading seen) result }
{
    match seen.read(alloc, folder) {
        Ok(told) => after_read(runner, told),
        Err(end) => stopped(alloc, runner, end),
    }
}

// The greatest lock is free, or held by another session.
fn after_read(runner: &Runner, told: Told) -> State
    ensures { result ≡ after_read runner.now.asked.request told }
{
    match told {
        Told::Judged(judged) => after_judging(runner, judged),
        Told::Ask(asking) => State::Asking(asking),
    }
}

/// Asks whether the session that holds the greatest lock still runs.
pub(crate) fn ask<F: Folder>(
    alloc: Global,
    runner: &Runner,
    asking: Asking,
    folder: &mut F,
) -> State
    requires { StandsAs (F.moment folder.old) runner.now (State.Asking asking) }
    ensures { TakesTurn (F.moment folder.old) (F.moment folder.new) runner.now
        (State.Asking asking) result }
{
    match asking.ask(folder) {
        Ok(judged) => after_judging(runner, judged),
        Err(end) => stopped(alloc, runner, end),
    }
}

/// Creates a lock of its own.
pub(crate) fn claim<F: Folder>(
    alloc: Global,
    runner: &Runner,
    judged: Judged,
    folder: &mut F,
) -> State
    requires { StandsAs (F.moment folder.old) runner.now (State.Claiming judged) }
    ensures { TakesTurn (F.moment folder.old) (F.moment folder.new) runner.now
        (State.Claiming judged) result }
{
    match judged.claim(folder) {
        Ok(claimed) => State::Confirming(claimed),
        Err(end) => stopped(alloc, runner, end),
    }
}

/// Lists the locks again.
pub(crate) fn confirm<F: Folder>(
    alloc: Global,
    runner: &Runner,
    claimed: Claimed,
    folder: &mut F,
) -> State
    requires { StandsAs (F.moment folder.old) runner.now (State.Confirming claimed) }
    ensures { TakesTurn (F.moment folder.old) (F.moment folder.new) runner.now
        (State.Confirming claimed) result }
{
    match claimed.confirm(folder) {
        Ok(confirmed) => after_listing(confirmed),
        Err(end) => stopped(alloc, runner, end),
    }
}

// The own lock is the greatest, or a greater one stands.
fn after_listing(confirmed: Confirmed) -> State
    ensures next { result ≡ after_listing confirmed }
    ensures few { ShowsFew confirmed }
{
    match confirmed {
        Confirmed::Keeper(keeper) => {
            // The lower locks aren't asked for: that a number counts them is a clause of it.
            let _ = keeper.lower();
            State::ReadingIntent(keeper)
        }
        Confirmed::Loser(loser) => State::Withdrawing(loser),
    }
}

/// Removes its own lock, which was outrun.
pub(crate) fn withdraw<F: Folder>(
    alloc: Global,
    runner: &Runner,
    loser: Loser,
    folder: &mut F,
) -> State
    requires { StandsAs (F.moment folder.old) runner.now (State.Withdrawing loser) }
    ensures { TakesTurn (F.moment folder.old) (F.moment folder.new) runner.now
        (State.Withdrawing loser) result }
{
    stopped(alloc, runner, loser.withdraw(folder))
}

/// The answer of a step on the locks that doesn't lead on.
pub(crate) fn stopped(alloc: Global, runner: &Runner, end: LockEnd) -> State
    ensures { AnswersWith runner.now.asked.request.tool (cause_of_end end) result }
{
    State::Answering(runner.asked.tell(alloc, cause_of_end(end)))
}

// The cause of a step that doesn't lead on.
fn cause_of_end(end: LockEnd) -> Cause
    ensures { result ≡ cause_of_end end }
{
    match end {
        LockEnd::Refused(refusal) => cause_of_refusal(refusal),
        LockEnd::Folder(fault) => cause_of_fault(CommitStage::Before, fault),
    }
}

// The cause of a refused lock.
fn cause_of_refusal(refusal: LockRefusal) -> Cause
    ensures { result ≡ cause_of_refusal refusal }
{
    match refusal {
        LockRefusal::Held(token) => Cause::Held(token),
        LockRefusal::Gone(number) => Cause::Gone(number),
        LockRefusal::Raced(number) => Cause::Raced(number),
        LockRefusal::Outrun(number, greater) => Cause::Outrun(number, greater),
        LockRefusal::Damaged(number) => Cause::LockDamaged(number),
        LockRefusal::Exhausted => Cause::Exhausted,
    }
}

/// The cause of a fault of the folder at a stage of the commit.
pub(crate) fn cause_of_fault(stage: CommitStage, fault: FolderFault) -> Cause
    ensures { result ≡ cause_of_fault stage fault }
{
    match fault {
        FolderFault::Failed => Cause::DiskFault(stage),
        FolderFault::Memory => Cause::Memory(stage),
    }
}
