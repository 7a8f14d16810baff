// The journal of a folder: what it was asked, call by call, and what each call came to.
ghost use Rattle.std.specs.Prelude.{◌≡◌, List, [], ◌∷◌};
ghost use Rattle.std.specs.Borrow.{ftrue};
ghost use Rattle.acct_outside.specs.Journal.{Entry};

use crate::{Name, Token};
use acct_text::{Bytes, Word};
use std::marker::Model;

/// What a folder was asked so far, and what each call came to. Contracts alone read it: it takes no memory, and
/// its calls do nothing.
#[derive(Drop)]
pub struct Journal {
    pub ghost entries: { List Entry },
}

impl Model for Journal {
    ghost also_owns = { λ _. ftrue };
}

/// What a folder is asked, by the name of the method.
#[derive(Clone, Copy)]
pub enum Ask<'a> {
    /// To name the folder by a prefix.
    Enter(&'a Bytes),
    /// A begin, with its words, its input and its day.
    Begin(&'a [Word], &'a Bytes, u32),
    /// A listing of the lock numbers.
    Locks,
    /// A read of a name.
    Read(Name),
    /// Whether the session of a token runs.
    Verdict(&'a Token),
    /// A create of the lock with a number.
    Create(u64),
    /// A write of a piece at a name.
    Write(Name, &'a [u8]),
    /// An append of a piece at a name.
    Append(Name, &'a [u8]),
    /// A rename from a name to another.
    Rename(Name, Name),
    /// A removal of a name.
    Remove(Name),
    /// An answer, with its status.
    Answered(u8),
}

// What a folder notes: what it is asked, or what that came to.
#[derive(Clone, Copy)]
pub(crate) enum Note<'a> {
    // It is asked this.
    Asked(Ask<'a>),
    // The listing that was asked for last showed these numbers.
    Showed(&'a [u64]),
    // What was asked last was done.
    Done,
}

impl Journal {
    ghost use Rattle.acct_outside.specs.Journal.{replied, showed, was_done, was_refused};
    ghost use Rattle.acct_outside.specs.Noted.{asked_with, noted};

    /// The journal of a folder that was asked nothing.
    pub fn new() -> Self
        ensures { result.entries ≡ [] }
    {
        Journal {}
    }

    // The journal with what is noted.
    fn with(&self, _note: &Note<'_>) -> Self
        ensures { result.entries ≡ noted _note.now self.now.entries }
    {
        Journal {}
    }

    /// Notes what the folder is asked: it is refused, unless it is told to come to something else.
    pub fn note(&mut self, asked: Ask<'_>)
        ensures { self.new.entries ≡ asked_with asked.entry was_refused ∷ self.old.entries }
    {
        *self = self.with(&Note::Asked(asked));
    }

    /// Notes that what was asked last was done.
    pub fn done(&mut self)
        ensures { self.new.entries ≡ replied was_done self.old.entries }
    {
        *self = self.with(&Note::Done);
    }

    /// Notes that the listing that was asked for last showed these numbers.
    pub fn showed(&mut self, numbers: &[u64])
        ensures { self.new.entries ≡ replied (showed numbers.now) self.old.entries }
    {
        *self = self.with(&Note::Showed(numbers));
    }
}
