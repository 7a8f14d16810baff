// The states in which a session judges the greatest lock, before it makes one of its own:
//
// 1. `Looking`: it knows nothing of the locks. `look` leads to `Seen`.
// 2. `Seen`: it knows the number of the greatest lock. `read` leads to `Judged` where that is free,
//    to `Asking` where it is held; where there is no lock, `none` leads to `Judged`.
// 3. `Asking`: it knows which session holds the greatest lock. `ask` leads to `Judged` once that is
//    told dead.
ghost use Rattle.std.specs.Prelude.{◌≡◌, ◌<◌, IfOk, IsErrOf, All};
ghost use Rattle.acct_outside.specs.declared.Name.TheVariants.{Lock};
ghost use Rattle.acct_outside.specs.Calls.{lists, reads, asks};
ghost use Rattle.acct_outside.specs.Contract.{IsLockNumber, locks_result, found_result};
ghost use Rattle.suite_rules.specs.Standing.{Standing};
ghost use Rattle.suite_rules.specs.Steps.{StandsIn};
ghost use Rattle.lock_steps.specs.Stands.{HasNoLock, HasLooked, HasReadHeld, HasJudged, HoldsTold};
ghost use Rattle.lock_steps.specs.NextCall.{IsCallWhere, IsNextCall};
ghost use Rattle.lock_steps.specs.Outcomes.{folder_failed, Looks, Reads, ReadsText, AsksAlive};
ghost use Rattle.lock_steps.specs.Steps.{SeeksLock};

use crate::claiming::Judged;
use crate::holder::Holder;
use crate::listing::greatest_of;
use crate::lock_text::LockText;
use crate::{LockEnd, LockRefusal};
use acct_outside::{
    Call, Folder, FolderFault, Found, GREATEST_LOCK, LOCK_LIMIT, Name, Token, Verdict,
};
use std::alloc::{AllocError, Global};
use std::marker::Model;

/// A session that has called nothing of the lock. Contracts see its token.
#[derive(Drop)]
pub struct Looking {
    holder: Holder,
}

impl Model for Looking {
    ghost use Rattle.acct_outside.specs.Tokens.{Token as TokenText};

    ghost Value = { TokenText };

    ghost view = { λ looking. looking.holder.token };
}

/// A session that knows the greatest lock of its listing.
#[derive(Drop)]
pub struct Seen {
    pub(crate) holder: Holder,
    pub(crate) greatest: u64,
}

impl Model for Seen {
    ghost use Rattle.std.specs.Prelude.{◌<◌};
    ghost use Rattle.acct_outside.specs.Names.{greatest_lock};
    ghost use Rattle.lock_steps.specs.States.{Lister};

    ghost Value = { Lister };

    ghost view = { λ seen. record { token = seen.holder.token; greatest = seen.greatest } };

    ghost invariant = { λ seen. seen.greatest < greatest_lock };
}

/// A session that knows which other holds the greatest lock.
#[derive(Drop)]
pub struct Asking {
    seen: Seen,
    asked: Token,
}

impl Model for Asking {
    ghost use Rattle.lock_steps.specs.States.{Asker};

    ghost Value = { Asker };

    ghost view = { λ asking. record {
      token = asking.seen.token;
      greatest = asking.seen.greatest;
      asked = asking.asked;
    } };
}

/// What the text of the greatest lock leads to.
#[derive(Drop)]
pub enum Told {
    /// The lock is free.
    Judged(Judged),
    /// A session holds the lock, which may have died.
    Ask(Asking),
}

impl Looking {
    /// The first state of the session with this token. The error says that memory ran out for the
    /// text with which the lock will be freed.
    pub fn start(alloc: Global, token: Token) -> Result<Self, AllocError>
        ensures { IfOk result (λ looking. looking ≡ token) }
    {
        Ok(Looking {
            holder: Holder::new(alloc, token)?,
        })
    }

    /// The call that `look` makes.
    pub fn next_call(&self) -> Call
        ensures { IsNextCall HasNoLock lists result }
    {
        Call::Locks
    }

    /// Lists the locks.
    ///
    /// At `Exhausted` the greatest has the last number.
    pub fn look<F: Folder>(self, folder: &mut F) -> Result<Seen, LockEnd>
        requires { StandsIn (F.moment folder.old) self HasNoLock }
        ensures { SeeksLock (F.moment folder.old) (F.moment folder.new) self lists (Looks self)
            HasLooked result }
    {
        let listed = folder.locks(&self.holder.token);
        self.after_listing(listed)
    }

    // What the listing leads to.
    fn after_listing(self, listed: Result<Vec<u64>, FolderFault>) -> Result<Seen, LockEnd>
        requires { IfOk listed (λ numbers. All IsLockNumber numbers.items) }
        ensures shown { Looks self (locks_result listed) result }
        ensures failed { IsErrOf result folder_failed → IsErrOf listed FolderFault.Failed }
    {
        let numbers = listed?;
        let greatest = greatest_of(&numbers);
        if greatest == GREATEST_LOCK {
            return Err(LockEnd::Refused(LockRefusal::Exhausted));
        }
        Ok(Seen {
            holder: self.holder,
            greatest,
        })
    }
}

impl Seen {
    /// The number of the greatest lock, 0 for none.
    pub fn greatest(&self) -> u64
        ensures { result ≡ self.now.greatest }
    {
        self.greatest
    }

    /// Says that no lock stood, so that there is nothing to judge.
    pub fn none(self) -> Judged
        requires { self.greatest ≡ 0 }
        ensures value { result ≡ self }
        ensures judged { (stood : Standing) → HasLooked self stood → HasJudged result stood }
    {
        Judged::new(self)
    }

    /// The call that `read` makes.
    pub fn next_call(&self) -> Call
        ensures { IsCallWhere (0 < self.now.greatest) (λ deeds. HasLooked self.now)
            (reads (Lock self.now.greatest)) result }
    {
        Call::Read(Name::Lock(self.greatest))
    }

    /// Reads the greatest lock.
    ///
    /// At `Gone` it stands no more. At `Damaged` its text is neither that of a free lock nor that
    /// of a held one, or has more than 256 bytes. Want of memory may also come after the read, for
    /// the token in the text.
    pub fn read<F: Folder>(self, alloc: Global, folder: &mut F) -> Result<Told, LockEnd>
        requires lock { 0 < self.greatest }
        requires stands { StandsIn (F.moment folder.old) self.token (HasLooked self) }
        ensures { SeeksLock (F.moment folder.old) (F.moment folder.new) self.token
            (reads (Lock self.greatest)) (Reads self) HoldsTold result }
    {
        let found = folder.read(&self.holder.token, Name::Lock(self.greatest), LOCK_LIMIT);
        self.after_read(alloc, found)
    }

    // What the read of the greatest lock leads to.
    fn after_read(self, alloc: Global, found: Result<Found, FolderFault>) -> Result<Told, LockEnd>
        ensures shown { Reads self (found_result found) result }
        ensures failed { IsErrOf result folder_failed → IsErrOf found FolderFault.Failed }
    {
        match found? {
            Found::Absent => Err(LockEnd::Refused(LockRefusal::Gone(self.greatest))),
            Found::TooLarge => Err(LockEnd::Refused(LockRefusal::Damaged(self.greatest))),
            Found::Held(text) => self.after_text(alloc, text.as_slice()),
        }
    }

    // What the text of the greatest lock leads to.
    fn after_text(self, alloc: Global, text: &[u8]) -> Result<Told, LockEnd>
        ensures shown { ReadsText self text.now result }
        ensures failed { ¬ (IsErrOf result folder_failed) }
    {
        match LockText::read(alloc, text)? {
            LockText::Free => Ok(Told::Judged(Judged::new(self))),
            LockText::Held(asked) => Ok(Told::Ask(Asking { seen: self, asked })),
            LockText::Damaged => Err(LockEnd::Refused(LockRefusal::Damaged(self.greatest))),
        }
    }
}

impl Asking {
    /// The call that `ask` makes. The error says that memory ran out for its token.
    pub fn next_call(&self) -> Result<Call, AllocError>
        ensures { IfOk result (IsNextCall (HasReadHeld self.now) (asks self.now.asked)) }
    {
        Ok(Call::Verdict(self.asked.copy()?))
    }

    /// Asks whether the session that holds the greatest lock still runs.
    ///
    /// At `Held` it does.
    pub fn ask<F: Folder>(self, folder: &mut F) -> Result<Judged, LockEnd>
        requires { StandsIn (F.moment folder.old) self.token (HasReadHeld self) }
        ensures { SeeksLock (F.moment folder.old) (F.moment folder.new) self.token (asks self.asked)
            (AsksAlive self) HasJudged result }
    {
        let verdict = folder.verdict(&self.seen.holder.token, &self.asked);
        self.after_verdict(verdict)
    }

    // What the verdict leads to.
    fn after_verdict(self, verdict: Result<Verdict, FolderFault>) -> Result<Judged, LockEnd>
        ensures shown { AsksAlive self verdict result }
        ensures failed { IsErrOf result folder_failed → IsErrOf verdict FolderFault.Failed }
    {
        match verdict? {
            Verdict::Alive => Err(LockEnd::Refused(LockRefusal::Held(self.asked))),
            Verdict::Dead => Ok(Judged::new(self.seen)),
        }
    }
}
