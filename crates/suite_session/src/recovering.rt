// The turns in which a keeper reads the intent, and carries out one that another session left.
ghost use Rattle.std.specs.Prelude.{◌≡◌, ◌<◌, length};
ghost use Rattle.recovery.specs.States.{moving_pieces};
ghost use Rattle.suite_session.specs.Locking.{cause_of_fault};
ghost use Rattle.suite_session.specs.Recovering.{after_intent, Refuses};
ghost use Rattle.suite_session.specs.Stands.{AnswersWith, StandsAs};
ghost use Rattle.suite_session.specs.Turning.{TakesTurn};

use crate::runner::Runner;
use crate::state::State;
use crate::unlocking::{failed, leave};
use acct_outside::{Folder, Name, StageFault};
use commit_steps::Loader;
use lock_steps::{Keeper, Unknown};
use recovery::{IntentSeen, Moving, Recovering, RecoveryEnd};
use std::alloc::Global;
use suite_answers::{Cause, Which};

/// Reads the intent.
pub(crate) fn read_intent<F: Folder>(
    alloc: Global,
    runner: &Runner,
    keeper: Keeper<Unknown>,
    folder: &mut F,
) -> State
    requires { StandsAs (F.moment folder.old) runner.now (State.ReadingIntent keeper) }
    ensures { TakesTurn (F.moment folder.old) (F.moment folder.new) runner.now
        (State.ReadingIntent keeper) result }
{
    match recovery::read_intent(alloc, keeper, folder) {
        Ok(seen) => after_intent(seen),
        Err(end) => refused(alloc, runner, end),
    }
}

// No intent stands, or one that reads.
fn after_intent(seen: IntentSeen) -> State
    ensures { result ≡ after_intent seen }
{
    match seen {
        IntentSeen::Clean(keeper) => State::Loading(Loader::start(keeper)),
        IntentSeen::Listed(recovering) => State::Recovering(recovering),
    }
}

// The intent can't be read: the keeper frees its lock, but after a fault of the folder.
fn refused(alloc: Global, runner: &Runner, end: RecoveryEnd) -> State
    ensures { Refuses runner.now.asked.request.tool end result }
{
    match end {
        RecoveryEnd::Fault(fault) => stopped(alloc, runner, fault),
        RecoveryEnd::Damaged(part, keeper) => {
            leave(alloc, runner, keeper, Cause::IntentDamaged(part))
        }
        RecoveryEnd::TooLarge(keeper) => {
            leave(
                alloc,
                runner,
                keeper,
                Cause::TooLarge(Which::File(Name::Intent)),
            )
        }
    }
}

/// Stages the first piece of a table that the intent lists, or removes the intent once none is left.
pub(crate) fn recover<F: Folder>(
    alloc: Global,
    runner: &Runner,
    recovering: Recovering,
    folder: &mut F,
) -> State
    requires { StandsAs (F.moment folder.old) runner.now (State.Recovering recovering) }
    ensures { TakesTurn (F.moment folder.old) (F.moment folder.new) runner.now
        (State.Recovering recovering) result }
{
    if recovering.left() == 0 {
        return remove_intent(alloc, runner, recovering, folder);
    }
    match recovering.stage_next(folder) {
        Ok(moving) => State::Moving(moving),
        Err(fault) => stopped(alloc, runner, fault),
    }
}

// Removes the intent, of which no table is left.
fn remove_intent<F: Folder>(
    alloc: Global,
    runner: &Runner,
    recovering: Recovering,
    folder: &mut F,
) -> State
    requires none { length recovering.left ≡ 0 }
    requires stands { StandsAs (F.moment folder.old) runner.now (State.Recovering recovering) }
    ensures { TakesTurn (F.moment folder.old) (F.moment folder.new) runner.now
        (State.Recovering recovering) result }
{
    match recovering.remove_intent(folder) {
        Ok(keeper) => State::Loading(Loader::start(keeper)),
        Err(fault) => stopped(alloc, runner, fault),
    }
}

/// Appends a further piece of the staged table; where none is left, moves it to its place.
pub(crate) fn move_table<F: Folder>(
    alloc: Global,
    runner: &Runner,
    moving: Moving,
    folder: &mut F,
) -> State
    requires { StandsAs (F.moment folder.old) runner.now (State.Moving moving) }
    ensures { TakesTurn (F.moment folder.old) (F.moment folder.new) runner.now
        (State.Moving moving) result }
{
    if moving.pieces() == 0 {
        return move_whole(alloc, runner, moving, folder);
    }
    match moving.append_next(folder) {
        Ok(moving) => State::Moving(moving),
        Err(fault) => stopped(alloc, runner, fault),
    }
}

// Moves the staged table to its place.
fn move_whole<F: Folder>(alloc: Global, runner: &Runner, moving: Moving, folder: &mut F) -> State
    requires whole { moving_pieces moving ≡ 0 }
    requires stands { StandsAs (F.moment folder.old) runner.now (State.Moving moving) }
    ensures { TakesTurn (F.moment folder.old) (F.moment folder.new) runner.now
        (State.Moving moving) result }
{
    match moving.move_next(folder) {
        Ok(recovering) => State::Recovering(recovering),
        Err(fault) => stopped(alloc, runner, fault),
    }
}

/// The answer after a fault of the folder.
pub(crate) fn stopped(alloc: Global, runner: &Runner, fault: StageFault) -> State
    ensures { AnswersWith runner.now.asked.request.tool (cause_of_fault fault.stage fault.fault)
        result }
{
    failed(alloc, runner, fault.stage, fault.fault)
}
