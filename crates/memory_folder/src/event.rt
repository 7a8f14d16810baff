// The events of a folder in memory.
ghost use Rattle.std.specs.Prelude.{◌≡◌, IfOk, bytes_eq};
ghost use Rattle.memory_folder.specs.Events.{event_of};

use crate::Effect;
use acct_outside::{Call, Created, Found, Token, Verdict};
use acct_text::{Bytes, Word};
use std::alloc::{AllocError, Global};

/// What a session was asked to do at its begin.
#[derive(Drop)]
pub(crate) struct Command {
    pub words: Vec<Word>,
    pub input: Bytes,
    pub day: u32,
}

/// What a call answered.
#[derive(Drop)]
pub(crate) enum Answer {
    /// Nothing but that it was done.
    Empty,
    Locks(Vec<u64>),
    Found(Found),
    Verdict(Verdict),
    Created(Created),
}

/// How a call came to its end.
#[derive(Drop)]
pub(crate) enum Outcome {
    Done(Answer),
    Failed(Effect),
    Died(Effect),
}

/// One call of one session.
#[derive(Drop)]
pub(crate) enum Event {
    /// A begin with the token that it gave; one that gave none has failed.
    Begun(Option<Token>, Command),
    /// A later call of the session with this token.
    Called(Token, Call, Outcome),
}

impl Command {
    /// A copy of what a session is asked to do.
    pub(crate) fn of(
        alloc: Global,
        words: &[Word],
        input: &Bytes,
        day: u32,
    ) -> Result<Self, AllocError>
        ensures words { IfOk result (λ command. command.words.items ≡ words.now) }
        ensures input { IfOk result (λ command. command.input ≡ input.now) }
        ensures day { IfOk result (λ command. command.day ≡ day) }
    {
        let mut copies = Vec::new(alloc);
        for word in words {
            copies.push(Word::of(alloc, word.as_slice())?)?;
        }
        Ok(Command {
            words: copies,
            input: input.copy()?,
            day,
        })
    }
}

impl Event {
    /// Whether the event has the session's token.
    pub(crate) fn is_of(&self, token: &Token) -> bool
        ensures { result ≡ bytes_eq (event_of self.now).token token.now }
    {
        match self {
            Event::Begun(Some(given), _) => given.as_slice() == token.as_slice(),
            Event::Begun(None, _) => token.as_slice().is_empty(),
            Event::Called(by, _, _) => by.as_slice() == token.as_slice(),
        }
    }
}
