// The turns in which a keeper frees its lock, with an answer to give:
//
// 1. It removes the lower locks that are left, one a turn, and then stages the free text (`unlock`).
// 2. It moves the free text to its lock (`free`). Only the answer is left then.
//
// A fault of the folder replaces the answer, and keeps its stage of the commit.
ghost use Rattle.std.specs.Prelude.{◌≡◌, ◌<◌, length};
ghost use Rattle.suite_answers.specs.Reasons.{stage_of};
ghost use Rattle.suite_session.specs.Locking.{cause_of_fault};
ghost use Rattle.suite_session.specs.Stands.{AnswersWith, LeavesWith, StandsAs};
ghost use Rattle.suite_session.specs.Turning.{TakesTurn};

use crate::locking::cause_of_fault;
use crate::runner::Runner;
use crate::state::State;
use acct_outside::{CommitStage, Folder, FolderFault};
use lock_steps::{Freeing, Keeper, Unknown};
use std::alloc::Global;
use suite_answers::{Answer, Cause};

/// Removes the first of the lower locks that are left, or stages the free text.
pub(crate) fn unlock<F: Folder>(
    alloc: Global,
    runner: &Runner,
    keeper: Keeper<Unknown>,
    answer: Answer,
    folder: &mut F,
) -> State
    requires { StandsAs (F.moment folder.old) runner.now (State.Unlocking keeper answer) }
    ensures { TakesTurn (F.moment folder.old) (F.moment folder.new) runner.now
        (State.Unlocking keeper answer) result }
{
    if keeper.lower() == 0 {
        return stage_free(alloc, runner, keeper, answer, folder);
    }
    match keeper.clean_next(folder) {
        Ok(keeper) => State::Unlocking(keeper, answer),
        Err(fault) => replaced(alloc, runner, answer, fault),
    }
}

// Stages the free text, once no lower lock is left.
fn stage_free<F: Folder>(
    alloc: Global,
    runner: &Runner,
    keeper: Keeper<Unknown>,
    answer: Answer,
    folder: &mut F,
) -> State
    requires left { length keeper.lower ≡ 0 }
    requires stands { StandsAs (F.moment folder.old) runner.now (State.Unlocking keeper answer) }
    ensures { TakesTurn (F.moment folder.old) (F.moment folder.new) runner.now
        (State.Unlocking keeper answer) result }
{
    match keeper.stage_free(folder) {
        Ok(freeing) => State::Freeing(freeing, answer),
        Err(fault) => replaced(alloc, runner, answer, fault),
    }
}

/// Moves the free text to the lock.
pub(crate) fn free<F: Folder>(
    alloc: Global,
    runner: &Runner,
    freeing: Freeing,
    answer: Answer,
    folder: &mut F,
) -> State
    requires { StandsAs (F.moment folder.old) runner.now (State.Freeing freeing answer) }
    ensures { TakesTurn (F.moment folder.old) (F.moment folder.new) runner.now
        (State.Freeing freeing answer) result }
{
    match freeing.move_free(folder) {
        Ok(_) => State::Answering(answer),
        Err(fault) => replaced(alloc, runner, answer, fault),
    }
}

// The answer after a fault of the folder, in place of the one that was to be given, whose stage of
// the commit it keeps.
fn replaced(alloc: Global, runner: &Runner, answer: Answer, fault: FolderFault) -> State
    ensures { AnswersWith runner.now.asked.request.tool
        (cause_of_fault (stage_of answer.outcome.cause) fault) result }
{
    let stage = answer.outcome.cause.stage();
    given_up(alloc, runner, answer, stage, fault)
}

/// The answer after a fault of the folder at a stage of the commit, for which another is given up.
pub(crate) fn given_up(
    alloc: Global,
    runner: &Runner,
    answer: Answer,
    stage: CommitStage,
    fault: FolderFault,
) -> State
    ensures { AnswersWith runner.now.asked.request.tool (cause_of_fault stage fault) result }
{
    drop(answer);
    failed(alloc, runner, stage, fault)
}

/// A keeper frees its lock and gives the answer to this cause; without memory for its text only
/// the answer is left.
pub(crate) fn leave(alloc: Global, runner: &Runner, keeper: Keeper<Unknown>, cause: Cause) -> State
    ensures { LeavesWith runner.now.asked.request.tool keeper cause result }
{
    let stage = cause.stage();
    match runner.asked.try_to_tell(alloc, cause) {
        Ok(answer) => State::Unlocking(keeper, answer),
        Err(_) => failed(alloc, runner, stage, FolderFault::Memory),
    }
}

/// The answer after a fault of the folder at a stage of the commit.
pub(crate) fn failed(
    alloc: Global,
    runner: &Runner,
    stage: CommitStage,
    fault: FolderFault,
) -> State
    ensures { AnswersWith runner.now.asked.request.tool (cause_of_fault stage fault) result }
{
    State::Answering(runner.asked.tell(alloc, cause_of_fault(stage, fault)))
}
