// Which call of the folder a session makes next, by its state.
ghost use Rattle.std.specs.Prelude.{IfOk};
ghost use Rattle.std.specs.Option.{option_copied};
ghost use Rattle.std.specs.Prelude.{◌≡◌};
ghost use Rattle.lock_steps.specs.NextCall.{IsCallWhere};
ghost use Rattle.suite_session.specs.NextCall.{HasLock, IsReady, NamesNext, state_call};
ghost use Rattle.suite_session.specs.Session.{token_of};

use crate::session::{Phase, Session};
use crate::state::State;
use crate::tools::Tools;
use acct_outside::{Call, Name, Token};
use std::alloc::{AllocError, Global};

impl State {
    /// The call of the folder that it makes next. The error says that memory ran out for its bytes.
    pub(crate) fn next_call(&self, alloc: Global) -> Result<Call, AllocError>
        ensures { IfOk result
            (IsCallWhere (HasLock self.now) (IsReady self.now) (state_call self.now)) }
    {
        match self {
            State::Looking(looking) => Ok(looking.next_call()),
            State::Reading(seen) => Ok(seen.next_call()),
            State::Asking(asking) => asking.next_call(),
            State::Claiming(judged) => Ok(judged.next_call()),
            State::Confirming(claimed) => Ok(claimed.next_call()),
            State::Withdrawing(loser) => Ok(loser.next_call()),
            State::ReadingIntent(_) => Ok(Call::Read(Name::Intent)),
            State::Recovering(recovering) => recovering.next_call(alloc),
            State::Moving(moving) => moving.next_call(alloc),
            State::Loading(loader) => Ok(loader.next_call()),
            State::BackingUp(backing, _) => backing.next_call(alloc),
            State::Committing(staged, _) => staged.next_call(alloc),
            State::Installing(installing, _) => installing.next_call(alloc),
            State::Unlocking(keeper, _) => keeper.unlocking_call(),
            State::Freeing(freeing, _) => Ok(freeing.next_call()),
            State::Watching(watcher) => Ok(watcher.next_call()),
            State::Gathering(reading) => Ok(reading.next_call()),
            State::Answering(answer) => Ok(Call::Answered(answer.outcome.status)),
        }
    }
}

impl<T: Tools> Session<T> {
    /// The call of the folder that the next turn makes, where that finds its memory: the begin of a
    /// session that hasn't begun, the answer of one that has its answer to give, and none of one that has
    /// answered or whose begin gave no token.
    ///
    /// The error says that memory ran out for a copy of what the call names.
    pub fn next_call(&self) -> Result<Option<Call>, AllocError>
        ensures { IfOk result (NamesNext self.now) }
    {
        match &self.phase {
            Phase::Waiting(_) => Ok(Some(Call::Begin)),
            Phase::Begun(_, state) => Ok(Some(state.next_call(self.alloc)?)),
            _ => Ok(None),
        }
    }

    /// The token that its begin gave; none before its begin, and where that gave none.
    pub fn token(&self) -> Option<&Token>
        ensures { option_copied result ≡ token_of self.now }
    {
        match &self.phase {
            Phase::Begun(runner, _) | Phase::Over(runner, _) => Some(&runner.token),
            _ => None,
        }
    }
}
