// The one turn of a session: its begin, a step, or its answer.
ghost use Rattle.std.specs.Prelude.{◌≡◌, ◌+◌, ◌<◌, None, IfOk, IsSome};
ghost use Rattle.suite_session.specs.Answers.{IsTold};
ghost use Rattle.suite_session.specs.Locking.{cause_of_fault};
ghost use Rattle.suite_session.specs.Belongs.{Belongs};
ghost use Rattle.suite_session.specs.Left.{appends_left, calls_left};
ghost use Rattle.suite_session.specs.Runner.{IsRead};
ghost use Rattle.suite_session.specs.Session.{answer_of, given_in, outcome_of, phase_left};
ghost use Rattle.suite_session.specs.Stands.{StandsAs};
ghost use Rattle.suite_session.specs.Turning.{IsFirst, SessionTurns, TakesTurn};

use crate::committing::{back_up, commit, install};
use crate::loading::load;
use crate::locking::{ask, cause_of_fault, claim, confirm, look, read, withdraw};
use crate::recovering::{move_table, read_intent, recover};
use crate::reporting::{gather, watch};
use crate::runner::{Question, Runner};
use crate::session::Phase;
use crate::state::State;
use crate::tools::Tools;
use crate::unlocking::{failed, free, unlock};
use account_model::commands_have_one_reading;
use acct_outside::{CommitStage, Folder, FolderFault, Token};
use lock_steps::Looking;
use std::alloc::{AllocError, Global};
use suite_answers::Answer;

/// The phase after its one turn.
pub(crate) fn turned<T: Tools, F: Folder>(alloc: Global, phase: Phase, folder: &mut F) -> Phase
    requires { Belongs (F.moment folder.old) phase }
    ensures turns { SessionTurns (F.moment folder.old) (F.moment folder.new) phase result }
    ensures nearer { answer_of phase ≡ None → phase_left result < phase_left phase }
    ensures ends { IsSome (answer_of phase) → IsSome (outcome_of result) }
{
    match phase {
        Phase::Waiting(asked) => begin(alloc, asked, folder),
        Phase::Begun(runner, state) => match state {
            State::Answering(answer) => answered(runner, answer, folder),
            state => {
                let next = go_on::<T, F>(alloc, &runner, state, folder);
                Phase::Begun(runner, next)
            }
        },
        Phase::Over(runner, answer) => Phase::Over(runner, answer),
        Phase::Unbegun(tool, answer) => Phase::Unbegun(tool, answer),
    }
}

// Begins the session.
fn begin<F: Folder>(alloc: Global, asked: Question, folder: &mut F) -> Phase
    ensures turns { SessionTurns (F.moment folder.old) (F.moment folder.new) (Phase.Waiting asked)
        result }
    ensures nearer { phase_left result < phase_left (Phase.Waiting asked) }
{
    match folder.begin(&asked.words, &asked.input, asked.day) {
        Ok(token) => {
            let runner = Runner { token, asked };
            let state = first_state(alloc, &runner);
            Phase::Begun(runner, state)
        }
        Err(fault) => Phase::Unbegun(asked.tool(), unbegun(alloc, asked, fault)),
    }
}

// The answer where the begin gave no token.
fn unbegun(alloc: Global, asked: Question, fault: FolderFault) -> Answer
    ensures { IsTold asked.request.tool (cause_of_fault CommitStage.Before fault) result }
{
    let answer = asked.tell(alloc, cause_of_fault(CommitStage::Before, fault));
    drop(asked);
    answer
}

// The first state of a session that has begun: it lists the locks, but without memory for that it
// answers.
fn first_state(alloc: Global, runner: &Runner) -> State
    ensures { IsFirst runner.now result }
{
    match looking(alloc, &runner.token) {
        Ok(looking) => State::Looking(looking),
        Err(_) => failed(alloc, runner, CommitStage::Before, FolderFault::Memory),
    }
}

// The state that lists the locks.
fn looking(alloc: Global, token: &Token) -> Result<Looking, AllocError>
    ensures { IfOk result (λ looking. looking ≡ token.now) }
{
    Looking::start(alloc, token.copy()?)
}

// Makes the one call of a state that doesn't answer, and gives the next state.
fn go_on<T: Tools, F: Folder>(alloc: Global, runner: &Runner, state: State, folder: &mut F) -> State
    requires going { 1 < calls_left state }
    requires stands { StandsAs (F.moment folder.old) runner.now state }
    ensures { TakesTurn (F.moment folder.old) (F.moment folder.new) runner.now state result }
{
    match state {
        State::Looking(looking) => look(alloc, runner, looking, folder),
        State::Reading(seen) => read(alloc, runner, seen, folder),
        State::Asking(asking) => ask(alloc, runner, asking, folder),
        State::Claiming(judged) => claim(alloc, runner, judged, folder),
        State::Confirming(claimed) => confirm(alloc, runner, claimed, folder),
        State::Withdrawing(loser) => withdraw(alloc, runner, loser, folder),
        State::ReadingIntent(keeper) => read_intent(alloc, runner, keeper, folder),
        State::Recovering(recovering) => recover(alloc, runner, recovering, folder),
        State::Moving(moving) => move_table(alloc, runner, moving, folder),
        State::Loading(loader) => load::<T, F>(alloc, runner, loader, folder),
        State::BackingUp(backing, answer) => { back_up(alloc, runner, backing, answer, folder) }
        State::Committing(staged, answer) => { commit(alloc, runner, staged, answer, folder) }
        State::Installing(installing, answer) => {
            install(alloc, runner, installing, answer, folder)
        }
        State::Unlocking(keeper, answer) => { unlock(alloc, runner, keeper, answer, folder) }
        State::Freeing(freeing, answer) => free(alloc, runner, freeing, answer, folder),
        State::Watching(watcher) => watch(alloc, runner, watcher, folder),
        State::Gathering(reading) => gather::<T, F>(alloc, runner, reading, folder),
        State::Answering(answer) => State::Answering(answer),
    }
}

// Gives the answer, the session's last call.
fn answered<F: Folder>(runner: Runner, answer: Answer, folder: &mut F) -> Phase
    requires { Belongs (F.moment folder.old) (Phase.Begun runner (State.Answering answer)) }
    ensures turns { SessionTurns (F.moment folder.old) (F.moment folder.new)
        (Phase.Begun runner (State.Answering answer)) result }
    ensures ends { IsSome (outcome_of result) }
{
    asks_once(&runner.asked);
    folder.answered(&runner.token, answer.outcome.status);
    Phase::Over(runner, answer)
}

/// A law: the words of what was asked have one reading, which is its request; and each line of a batch
/// that isn't skipped asks for something.
pub(crate) fn asks_once(asked: &Question)
    ensures { IsRead asked.now }
{
    commands_have_one_reading();
    asked.tool();
    asked.input();
}
