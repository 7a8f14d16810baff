// The turns in which a keeper commits a change, with the answer that it gives then:
//
// 1. It backs up the tables that differ, and stages the intent (`back_up`).
// 2. It moves the intent to its name: this is the commit (`commit`).
// 3. It puts the tables in place, and removes the intent (`install`).
//
// What is staged goes out in pieces: in each of the three a further piece comes before the next step.
ghost use Rattle.std.specs.Prelude.{◌≡◌};
ghost use Rattle.commit_steps.specs.States.{intent_left};
ghost use Rattle.suite_session.specs.Stands.{StandsAs};
ghost use Rattle.suite_session.specs.Turning.{TakesTurn};

use crate::runner::Runner;
use crate::state::State;
use crate::unlocking::given_up;
use acct_outside::Folder;
use commit_steps::{Backing, Installing, IntentStaged, Walked};
use std::alloc::Global;
use suite_answers::Answer;

/// Makes the next call of the backups, of which the last stages the first piece of the intent.
pub(crate) fn back_up<F: Folder>(
    alloc: Global,
    runner: &Runner,
    backing: Backing,
    answer: Answer,
    folder: &mut F,
) -> State
    requires { StandsAs (F.moment folder.old) runner.now (State.BackingUp backing answer) }
    ensures { TakesTurn (F.moment folder.old) (F.moment folder.new) runner.now
        (State.BackingUp backing answer) result }
{
    match backing.go_on(folder) {
        Ok(Walked::More(backing)) => State::BackingUp(backing, answer),
        Ok(Walked::Done(staged)) => State::Committing(staged, answer),
        Err(fault) => given_up(alloc, runner, answer, fault.stage, fault.fault),
    }
}

/// Appends a further piece of the intent; where none is left, moves it to its name.
pub(crate) fn commit<F: Folder>(
    alloc: Global,
    runner: &Runner,
    staged: IntentStaged,
    answer: Answer,
    folder: &mut F,
) -> State
    requires { StandsAs (F.moment folder.old) runner.now (State.Committing staged answer) }
    ensures { TakesTurn (F.moment folder.old) (F.moment folder.new) runner.now
        (State.Committing staged answer) result }
{
    if staged.pieces() == 0 {
        return commit_intent(alloc, runner, staged, answer, folder);
    }
    match staged.append_intent(folder) {
        Ok(staged) => State::Committing(staged, answer),
        Err(fault) => given_up(alloc, runner, answer, fault.stage, fault.fault),
    }
}

// Moves the intent to its name: done, the change stands.
fn commit_intent<F: Folder>(
    alloc: Global,
    runner: &Runner,
    staged: IntentStaged,
    answer: Answer,
    folder: &mut F,
) -> State
    requires whole { intent_left staged ≡ 0 }
    requires stands { StandsAs (F.moment folder.old) runner.now (State.Committing staged answer) }
    ensures { TakesTurn (F.moment folder.old) (F.moment folder.new) runner.now
        (State.Committing staged answer) result }
{
    match staged.commit(folder) {
        Ok(installing) => State::Installing(installing, answer),
        Err(fault) => given_up(alloc, runner, answer, fault.stage, fault.fault),
    }
}

/// Makes the next call of the installation, of which the last removes the intent.
pub(crate) fn install<F: Folder>(
    alloc: Global,
    runner: &Runner,
    installing: Installing,
    answer: Answer,
    folder: &mut F,
) -> State
    requires { StandsAs (F.moment folder.old) runner.now (State.Installing installing answer) }
    ensures { TakesTurn (F.moment folder.old) (F.moment folder.new) runner.now
        (State.Installing installing answer) result }
{
    match installing.go_on(folder) {
        Ok(Walked::More(installing)) => State::Installing(installing, answer),
        Ok(Walked::Done(keeper)) => State::Unlocking(keeper.forget(), answer),
        Err(fault) => given_up(alloc, runner, answer, fault.stage, fault.fault),
    }
}
