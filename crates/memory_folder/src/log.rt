// The history of a folder in memory, with what stands after it and the sessions that run.
ghost use Rattle.std.specs.Prelude.{◌≡◌, ◌↔◌, ◌+◌, ◌≤◌, [], Some, None, All, ◌&&◌, not, bytes_eq, IfOk, OnOk, OnErr, true, false, vec_len, vec_capacity};
ghost use Rattle.std.specs.List.Sorted.{IsNonDecreasing};
ghost use Rattle.std.proofs.Props.{props};
ghost use Rattle.acct_outside.specs.History.{after, own_events};
ghost use Rattle.acct_outside.specs.Life.{is_running};
ghost use Rattle.memory_folder.specs.Store.{folder_with};
ghost use Rattle.memory_folder.specs.Stored.{folder_in};
ghost use Rattle.acct_outside.specs.NamedCalls.{IsLaterCall};
ghost use Rattle.memory_folder.specs.Events.{begin_event, call_event, command_of, done_event, ends, has_token, history_of};
ghost use Rattle.acct_outside.specs.Contract.{IsName, IsLockNumber, IsWithinLimit, found_of};
ghost use Rattle.acct_outside.specs.Calls.{lists, reads, found_within};
ghost use Rattle.acct_outside.specs.Tokens.{Token as TokenText};

use crate::event::{Answer, Command, Event, Outcome};
use crate::store::Store;
use crate::tokens::{drop_token, is_among, take_token};
use acct_outside::{Call, Found, Name, Token};
use acct_text::Bytes;
use std::alloc::{AllocError, Global};

/// The events with the folder before the first and after the last, and the sessions that run.
/// There is room for the answer of each of these.
#[derive(Drop)]
pub(crate) struct Log {
    pub first: Store,
    pub events: Vec<Event>,
    pub store: Store,
    pub running: Vec<Token>,
    ghost stands: { folder_in store ≡ after (folder_in first) (history_of events.items) } by { Prim.hlevel props },
    ghost runs: { (token : TokenText) → has_token token running.items
        ≡ is_running token (history_of events.items) } by { Prim.hlevel props },
    ghost room: { vec_len events + vec_len running ≤ vec_capacity events },
}

impl Log {
    ghost use Rattle.memory_folder.specs.Logged.{past_in, with_event, folder_after};

    /// No event yet in a folder with these files. A later one of a name replaces an earlier one.
    pub(crate) fn new(alloc: Global, contents: Vec<(Name, Bytes)>) -> Result<Self, AllocError>
        requires { All (λ file. IsName file.0) contents.items }
        ensures { IfOk result
            (λ log. past_in log ≡ record { first = folder_with contents.items; history = [] }) }
    {
        Ok(Log {
            first: Store::of(alloc, &contents)?,
            events: Vec::new(alloc),
            store: Store::of(alloc, &contents)?,
            running: Vec::new(alloc),
        })
    }

    /// Adds a call of a session with its outcome, and does what it did.
    pub(crate) fn record(
        &mut self,
        alloc: Global,
        by: &Token,
        call: Call,
        outcome: Outcome,
    ) -> Result<(), AllocError>
        requires { IsLaterCall call }
        ensures ok { OnOk result
            (past_in self.new ≡ with_event (call_event by.now call outcome) (past_in self.old)) }
        ensures err { OnErr result (past_in self.new ≡ past_in self.old) }
    {
        let token = by.copy()?;
        self.events.reserve(self.running.len() + 1)?;
        self.store.apply(alloc, by, &call, &outcome)?;
        drop_ended(&mut self.running, by, &call, &outcome);
        self.events
            .push_reserved(Event::Called(token, call, outcome));
        Ok(())
    }

    /// Adds a listing, and gives the numbers of the locks that stand.
    pub(crate) fn list(&mut self, alloc: Global, by: &Token) -> Result<Vec<u64>, AllocError>
        ensures ok { IfOk result (λ numbers. past_in self.new
            ≡ with_event (done_event by.now lists numbers.items) (past_in self.old)) }
        ensures value { IfOk result
            (λ numbers. numbers.items ≡ (folder_after (past_in self.old)).locks) }
        ensures numbers { IfOk result (λ numbers. All IsLockNumber numbers.items) }
        ensures ascending { IfOk result (λ numbers. IsNonDecreasing numbers.items) }
        ensures err { OnErr result (past_in self.new ≡ past_in self.old) }
    {
        let numbers = self.store.locks(alloc)?;
        let told = Answer::Locks(self.store.locks(alloc)?);
        self.record(alloc, by, Call::Locks, Outcome::Done(told))?;
        Ok(numbers)
    }

    /// Adds a read, and gives what it found.
    pub(crate) fn read(
        &mut self,
        alloc: Global,
        by: &Token,
        name: Name,
        limit: u64,
    ) -> Result<Found, AllocError>
        requires { IsName name }
        ensures ok { IfOk result (λ found. past_in self.new
            ≡ with_event (done_event by.now (reads name) (found_of found)) (past_in self.old)) }
        ensures value { IfOk result (λ found. found_of found
            ≡ found_within limit ((folder_after (past_in self.old)).file name)) }
        ensures limit { IfOk result (IsWithinLimit limit) }
        ensures err { OnErr result (past_in self.new ≡ past_in self.old) }
    {
        let found = self.store.find(name, limit)?;
        let told = Answer::Found(self.store.find(name, limit)?);
        self.record(alloc, by, Call::Read(name), Outcome::Done(told))?;
        Ok(found)
    }

    /// Adds a begin that failed.
    pub(crate) fn record_failed_begin(&mut self, command: Command) -> Result<(), AllocError>
        ensures ok { OnOk result (past_in self.new
            ≡ with_event (begin_event None (command_of command)) (past_in self.old)) }
        ensures err { OnErr result (past_in self.new ≡ past_in self.old) }
    {
        self.events.reserve(self.running.len() + 1)?;
        self.events.push_reserved(Event::Begun(None, command));
        Ok(())
    }

    /// Adds a begin that gave the token, and makes room for the session's answer.
    pub(crate) fn begin(&mut self, token: Token, command: Command) -> Result<(), AllocError>
        requires { own_events token (history_of self.old.events.items) ≡ [] }
        ensures ok { OnOk result (past_in self.new
            ≡ with_event (begin_event (Some token) (command_of command)) (past_in self.old)) }
        ensures err { OnErr result (past_in self.new ≡ past_in self.old) }
    {
        let kept = token.copy()?;
        self.running.reserve(1)?;
        self.events.reserve(self.running.len() + 2)?;
        self.events
            .push_reserved(Event::Begun(Some(token), command));
        self.running.push_reserved(kept);
        Ok(())
    }

    /// Adds the answer of a session that runs. There is room for it.
    pub(crate) fn answer(&mut self, by: &Token, status: u8)
        requires { is_running by.now (history_of self.old.events.items) ≡ true }
        ensures { past_in self.new ≡ with_event
            (call_event by.now (Call.Answered status) (Outcome.Done Answer.Empty))
            (past_in self.old) }
    {
        let token = take_token(&mut self.running, by);
        self.events.push_reserved(Event::Called(
            token,
            Call::Answered(status),
            Outcome::Done(Answer::Empty),
        ));
    }

    /// Whether an event has the token.
    pub(crate) fn knows(&self, token: &Token) -> bool
        ensures { (result ≡ false)
            ↔ (own_events token.now (history_of self.now.events.items) ≡ []) }
    {
        for event in &self.events {
            if event.is_of(token) {
                return true;
            }
        }
        false
    }

    /// Whether the session runs.
    pub(crate) fn runs(&self, token: &Token) -> bool
        ensures { result ≡ is_running token.now (history_of self.now.events.items) }
    {
        is_among(&self.running, token)
    }
}

// Drops the session from those that run, where the call was its last: it answered or died.
fn drop_ended(running: &mut Vec<Token>, by: &Token, call: &Call, outcome: &Outcome)
    ensures rest { (other : TokenText) → has_token other running.new.items
        ≡ (has_token other running.old.items
        && not (ends call.now outcome.now && bytes_eq by.now other)) }
    ensures len { vec_len running.new ≤ vec_len running.old }
{
    if matches!(call, Call::Answered(_)) || matches!(outcome, Outcome::Died(_)) {
        drop_token(running, by);
    }
}
