// The turns in which a keeper loads the files. After the last read the tool decides.
ghost use Rattle.suite_session.specs.Loading.{DecidesOn, DecidesTo, EndsLoad};
ghost use Rattle.suite_session.specs.Stands.{StandsAs};
ghost use Rattle.suite_session.specs.Turning.{TakesTurn};

use crate::recovering::stopped;
use crate::runner::Runner;
use crate::state::State;
use crate::tools::{Decided, Tools};
use crate::turning::asks_once;
use crate::unlocking::{failed, given_up, leave};
use acct_outside::{CommitStage, Folder, FolderFault};
use acct_text::NewTables;
use commit_steps::{LoadEnd, Loaded, Loader, Loading};
use std::alloc::Global;
use suite_answers::{Answer, Cause, Which};

/// Reads the next table, or login.defs. Once all are read, the tool decides.
pub(crate) fn load<T: Tools, F: Folder>(
    alloc: Global,
    runner: &Runner,
    loader: Loader,
    folder: &mut F,
) -> State
    requires { StandsAs (F.moment folder.old) runner.now (State.Loading loader) }
    ensures { TakesTurn (F.moment folder.old) (F.moment folder.new) runner.now
        (State.Loading loader) result }
{
    loader.is_sound();
    match loader.load_next(folder) {
        Ok(Loading::More(loader)) => State::Loading(loader),
        Ok(Loading::Done(loaded)) => decided::<T>(alloc, runner, loaded),
        Err(end) => ended(alloc, runner, end),
    }
}

// What the tool decides on the files: a change is backed up next, and any other answer is given
// once the lock is free.
fn decided<T: Tools>(alloc: Global, runner: &Runner, loaded: Loaded) -> State
    ensures { DecidesTo runner.now loaded result }
{
    match T::decide(alloc, &runner.asked, loaded.files(), loaded.defs()) {
        Ok(Decided::Change(new, answer)) => backing_up(alloc, runner, loaded, new, answer),
        Ok(Decided::Stay(answer)) => State::Unlocking(loaded.release().forget(), answer),
        Err(_) => {
            drop(loaded);
            failed(alloc, runner, CommitStage::Before, FolderFault::Memory)
        }
    }
}

// The change that the tool decided is backed up next.
fn backing_up(
    alloc: Global,
    runner: &Runner,
    loaded: Loaded,
    new: NewTables,
    answer: Answer,
) -> State
    requires { DecidesOn runner.now.asked loaded.files loaded.defs (Decided.Change new answer) }
    ensures { DecidesTo runner.now loaded result }
{
    asks_once(&runner.asked);
    match loaded.prepare(alloc, new) {
        Ok(backing) => State::BackingUp(backing, answer),
        Err(_) => given_up(
            alloc,
            runner,
            answer,
            CommitStage::Before,
            FolderFault::Memory,
        ),
    }
}

// A file is too large or absent: the keeper frees its lock, but after a fault of the folder.
fn ended(alloc: Global, runner: &Runner, end: LoadEnd) -> State
    ensures { EndsLoad runner.now.asked.request.tool end result }
{
    match end {
        LoadEnd::Fault(fault) => stopped(alloc, runner, fault),
        LoadEnd::TooLarge(name, keeper) => {
            leave(
                alloc,
                runner,
                keeper.forget(),
                Cause::TooLarge(Which::File(name)),
            )
        }
        LoadEnd::NoTable(table, keeper) => {
            leave(alloc, runner, keeper.forget(), Cause::NoTable(table))
        }
    }
}
