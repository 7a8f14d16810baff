// The turns of a report, which takes no lock once it has judged the greatest one:
//
// 1. It reads the intent (`watch`).
// 2. It reads the tables on which its answer rests, those apart that the intent lists, and login.defs, one a
//    turn (`gather`).
// 3. It lists the locks again (`show`). Where the greatest is the same, nobody was keeper meanwhile, and
//    the tool decides on what was read; else it was outrun. Only the answer is left then.
ghost use Rattle.std.specs.Prelude.{◌≡◌, true, None, find, length, option_map};
ghost use Rattle.acct_text.specs.Tables.{all_tables};
ghost use Rattle.account_model.specs.Request.{is_report};
ghost use Rattle.lock_steps.specs.Watching.{gathering_left};
ghost use Rattle.suite_session.specs.Answers.{cause_of_problem};
ghost use Rattle.suite_session.specs.Reporting.{AnswersFiles, AnswersOn, ReportsTo, bad_table, first_problem, is_unusable};
ghost use Rattle.suite_session.specs.Stands.{AnswersWith, StandsAs};
ghost use Rattle.suite_session.specs.Turning.{TakesTurn};

use crate::locking::stopped;
use crate::runner::Runner;
use crate::state::State;
use crate::tools::{Decided, Tools};
use crate::unlocking::failed;
use acct_outside::{CommitStage, Folder, FolderFault, Name};
use acct_text::Tab;
use lock_steps::{IntentFound, Reading, Shown, Watcher};
use std::alloc::Global;
use suite_answers::{Cause, Which};

/// Reads the intent.
pub(crate) fn watch<F: Folder>(
    alloc: Global,
    runner: &Runner,
    watcher: Watcher,
    folder: &mut F,
) -> State
    requires { StandsAs (F.moment folder.old) runner.now (State.Watching watcher) }
    ensures { TakesTurn (F.moment folder.old) (F.moment folder.new) runner.now
        (State.Watching watcher) result }
{
    match watcher.read_intent(alloc, runner.asked.read_tables(), folder) {
        Ok(reading) => State::Gathering(reading),
        Err(fault) => failed(alloc, runner, CommitStage::Before, fault),
    }
}

/// Reads the next file. Where none is left, lists the locks again, and lets the tool decide.
pub(crate) fn gather<T: Tools, F: Folder>(
    alloc: Global,
    runner: &Runner,
    reading: Reading,
    folder: &mut F,
) -> State
    requires { StandsAs (F.moment folder.old) runner.now (State.Gathering reading) }
    ensures { TakesTurn (F.moment folder.old) (F.moment folder.new) runner.now
        (State.Gathering reading) result }
{
    if reading.left() == 0 {
        return show::<T, F>(alloc, runner, reading, folder);
    }
    reading.is_sound();
    match reading.read_next(folder) {
        Ok(reading) => State::Gathering(reading),
        Err(fault) => failed(alloc, runner, CommitStage::Before, fault),
    }
}

// Lists the locks again, and lets the tool decide on what was read under the same one.
fn show<T: Tools, F: Folder>(
    alloc: Global,
    runner: &Runner,
    reading: Reading,
    folder: &mut F,
) -> State
    requires read { gathering_left reading ≡ 0 }
    requires stands { StandsAs (F.moment folder.old) runner.now (State.Gathering reading) }
    ensures { TakesTurn (F.moment folder.old) (F.moment folder.new) runner.now
        (State.Gathering reading) result }
{
    match reading.confirm(folder) {
        Ok(shown) => {
            shown.is_small();
            reported::<T>(alloc, runner, shown)
        }
        Err(end) => stopped(alloc, runner, end),
    }
}

// The answer on what was shown, where the intent is absent or reads.
fn reported<T: Tools>(alloc: Global, runner: &Runner, shown: Shown) -> State
    requires { is_report runner.now.asked.request ≡ true }
    ensures { ReportsTo runner.now shown result }
{
    match shown.intent() {
        IntentFound::TooLarge => { told(alloc, runner, Cause::TooLarge(Which::File(Name::Intent))) }
        IntentFound::Damaged(part) => told(alloc, runner, Cause::IntentDamaged(part)),
        IntentFound::Absent | IntentFound::Listed => answered_on::<T>(alloc, runner, &shown),
    }
}

// The answer on the files that were shown, where all of them can be used.
fn answered_on<T: Tools>(alloc: Global, runner: &Runner, shown: &Shown) -> State
    requires { is_report runner.now.asked.request ≡ true }
    ensures { AnswersFiles runner.now shown.now.gathered (first_problem shown.now.gathered) result }
{
    match first_problem(shown) {
        Some(cause) => told(alloc, runner, cause),
        None => decided_on::<T>(alloc, runner, shown),
    }
}

// What the tool decides on the files that were shown: no report is a change.
fn decided_on<T: Tools>(alloc: Global, runner: &Runner, shown: &Shown) -> State
    requires report { is_report runner.now.asked.request ≡ true }
    requires usable { first_problem shown.now.gathered ≡ None }
    ensures { AnswersOn runner.now shown.now.gathered result }
{
    // The tool isn't needed: that the words ask for the request is a clause of it.
    let _ = runner.asked.tool();
    match T::decide(alloc, &runner.asked, shown.files(), shown.defs()) {
        Ok(Decided::Stay(answer)) => State::Answering(answer),
        Ok(Decided::Change(_, _)) => unreachable!(),
        Err(_) => failed(alloc, runner, CommitStage::Before, FolderFault::Memory),
    }
}

// The cause of the first file that can't be used, of the tables in their order and login.defs.
fn first_problem(shown: &Shown) -> Option<Cause>
    ensures { result ≡ option_map cause_of_problem (first_problem shown.now.gathered) }
{
    match first_bad(shown) {
        Some(table) => Some(cause_of_table(shown, table)),
        None if shown.too_large(Name::Defs) => Some(Cause::TooLarge(Which::File(Name::Defs))),
        None => None,
    }
}

// The first table that can't be used: it is too large, or must stand and is absent.
fn first_bad(shown: &Shown) -> Option<Tab>
    ensures { result ≡ find (is_unusable shown.now.gathered) all_tables }
{
    for table in &Tab::all() {
        if is_unusable(shown, *table) {
            return Some(*table);
        }
    }
    None
}

// Whether the table can't be used.
fn is_unusable(shown: &Shown, table: Tab) -> bool
    ensures { result ≡ is_unusable shown.now.gathered table }
{
    let must_stand = matches!(table, Tab::Passwd | Tab::Group);
    shown.too_large(Name::Table(table)) || (must_stand && shown.files().table(table).is_none())
}

// Why a table can't be used that can't.
fn cause_of_table(shown: &Shown, table: Tab) -> Cause
    ensures { result ≡ cause_of_problem (bad_table shown.now.gathered table) }
{
    if shown.too_large(Name::Table(table)) {
        Cause::TooLarge(Which::File(Name::Table(table)))
    } else {
        Cause::NoTable(table)
    }
}

// The answer to a cause, as no other call is left.
fn told(alloc: Global, runner: &Runner, cause: Cause) -> State
    ensures { AnswersWith runner.now.asked.request.tool cause result }
{
    State::Answering(runner.asked.tell(alloc, cause))
}
