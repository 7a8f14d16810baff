// The states in which a session makes a lock, and learns whether that is the greatest:
//
// 1. `Judged`: nobody keeps the greatest lock. `claim` makes the next, and leads to `Claimed`.
// 2. `Claimed`: its create was done. `confirm` lists the locks, and leads to `Keeper` where its own
//    is the greatest, to `Loser` where a greater one stands.
// 3. `Loser`: a greater lock stands. `withdraw` removes its own, and no more is left.
ghost use Rattle.std.specs.Prelude.{◌≡◌, ◌+◌, IfOk, IsErrOf, Err, All};
ghost use Rattle.acct_outside.specs.declared.Name.TheVariants.{Lock};
ghost use Rattle.acct_outside.specs.Calls.{lists, creates, removes};
ghost use Rattle.acct_outside.specs.Contract.{IsLockNumber, locks_result};
ghost use Rattle.suite_rules.specs.Steps.{StandsIn};
ghost use Rattle.lock_steps.specs.Stands.{HasJudged, HasMade, WasOvertaken, HoldsConfirmed, HoldsNever};
ghost use Rattle.lock_steps.specs.NextCall.{IsNextCall};
ghost use Rattle.lock_steps.specs.Outcomes.{folder_failed, Claims, Confirms, Withdraws};
ghost use Rattle.lock_steps.specs.Steps.{SeeksLock};

use crate::holder::Holder;
use crate::judging::Seen;
use crate::keeping::{Keeper, Unknown};
use crate::listing::greatest_of;
use crate::watching::Watcher;
use crate::{LockEnd, LockRefusal};
use acct_outside::{Call, Created, Folder, FolderFault, Name};
use std::marker::Model;

/// A session that may make the next lock, as nobody keeps the greatest.
#[derive(Drop)]
pub struct Judged {
    seen: Seen,
}

impl Model for Judged {
    ghost use Rattle.lock_steps.specs.States.{Lister};

    ghost Value = { Lister };

    ghost view = { λ judged. judged.seen };
}

/// A session that has made the lock of its number.
#[derive(Drop)]
pub struct Claimed {
    holder: Holder,
    number: u64,
}

impl Model for Claimed {
    ghost use Rattle.acct_outside.specs.Contract.{IsLockNumber};
    ghost use Rattle.lock_steps.specs.States.{Maker};

    ghost Value = { Maker };

    ghost view = { λ claimed. record { token = claimed.holder.token; number = claimed.number } };

    ghost invariant = { λ claimed. IsLockNumber claimed.number };
}

/// A session whose lock was outrun by a greater one.
#[derive(Drop)]
pub struct Loser {
    holder: Holder,
    number: u64,
    greatest: u64,
}

impl Model for Loser {
    ghost use Rattle.std.specs.Prelude.{◌<◌};
    ghost use Rattle.acct_outside.specs.Contract.{IsLockNumber};
    ghost use Rattle.lock_steps.specs.States.{Overtaken};

    ghost Value = { Overtaken };

    ghost view = { λ loser. record {
      token = loser.holder.token;
      number = loser.number;
      greatest = loser.greatest;
    } };

    ghost invariant = { λ loser. IsLockNumber loser.number × (loser.number < loser.greatest) };
}

/// What the second listing showed.
#[derive(Drop)]
pub enum Confirmed {
    /// The own lock is the greatest.
    Keeper(Keeper<Unknown>),
    /// A greater lock stands.
    Loser(Loser),
}

impl Judged {
    /// The session has judged the greatest lock that it has seen.
    pub(crate) fn new(seen: Seen) -> Self
        ensures { result ≡ seen }
    {
        Judged { seen }
    }

    /// The session as one that takes no lock, and watches whether another does.
    pub fn watch(self) -> Watcher
        ensures { result ≡ self }
    {
        let seen = self.seen;
        Watcher::new(seen.holder.into_token(), seen.greatest)
    }

    /// The call that `claim` makes.
    pub fn next_call(&self) -> Call
        ensures { IsNextCall (HasJudged self.now) (creates (self.now.greatest + 1)) result }
    {
        Call::Create(self.seen.greatest + 1)
    }

    /// Makes the lock one above the greatest.
    ///
    /// At `Raced` another session made it first.
    pub fn claim<F: Folder>(self, folder: &mut F) -> Result<Claimed, LockEnd>
        requires { StandsIn (F.moment folder.old) self.token (HasJudged self) }
        ensures { SeeksLock (F.moment folder.old) (F.moment folder.new) self.token
            (creates (self.greatest + 1)) (Claims self) HasMade result }
    {
        let created = folder.create(&self.seen.holder.token, self.seen.greatest + 1);
        self.after_create(created)
    }

    // What the create leads to.
    fn after_create(self, created: Result<Created, FolderFault>) -> Result<Claimed, LockEnd>
        ensures shown { Claims self created result }
        ensures failed { IsErrOf result folder_failed → IsErrOf created FolderFault.Failed }
    {
        let number = self.seen.greatest + 1;
        match created? {
            Created::Done => Ok(Claimed {
                holder: self.seen.holder,
                number,
            }),
            Created::Exists => Err(LockEnd::Refused(LockRefusal::Raced(number))),
        }
    }
}

impl Claimed {
    /// The call that `confirm` makes.
    pub fn next_call(&self) -> Call
        ensures { IsNextCall (HasMade self.now) lists result }
    {
        Call::Locks
    }

    /// Lists the locks again, to see whether the own one is the greatest.
    ///
    /// At `Outrun` neither the own lock nor a greater one is the greatest: the own was taken away.
    pub fn confirm<F: Folder>(self, folder: &mut F) -> Result<Confirmed, LockEnd>
        requires { StandsIn (F.moment folder.old) self.token (HasMade self) }
        ensures { SeeksLock (F.moment folder.old) (F.moment folder.new) self.token lists
            (Confirms self) HoldsConfirmed result }
    {
        let listed = folder.locks(&self.holder.token);
        self.after_listing(listed)
    }

    // What the second listing leads to.
    fn after_listing(self, listed: Result<Vec<u64>, FolderFault>) -> Result<Confirmed, LockEnd>
        requires { IfOk listed (λ numbers. All IsLockNumber numbers.items) }
        ensures shown { Confirms self (locks_result listed) result }
        ensures failed { IsErrOf result folder_failed → IsErrOf listed FolderFault.Failed }
    {
        let numbers = listed?;
        let greatest = greatest_of(&numbers);
        if greatest < self.number {
            return Err(LockEnd::Refused(LockRefusal::Outrun(self.number, greatest)));
        }
        if greatest > self.number {
            return Ok(Confirmed::Loser(Loser {
                holder: self.holder,
                number: self.number,
                greatest,
            }));
        }
        Ok(Confirmed::Keeper(Keeper::of_listing(self.holder, self.number, numbers)))
    }
}

impl Loser {
    /// The call that `withdraw` makes.
    pub fn next_call(&self) -> Call
        ensures { IsNextCall (WasOvertaken self.now) (removes (Lock self.now.number)) result }
    {
        Call::Remove(Name::Lock(self.number))
    }

    /// Removes the own lock, and refuses with `Outrun`, its number and that of the greatest.
    ///
    /// At `Folder` the lock may stand.
    pub fn withdraw<F: Folder>(self, folder: &mut F) -> LockEnd
        requires { StandsIn (F.moment folder.old) self.token (WasOvertaken self) }
        ensures { SeeksLock (F.moment folder.old) (F.moment folder.new) self.token
            (removes (Lock self.number)) (λ answer _. Withdraws self answer result) HoldsNever
            (Err result) }
    {
        let removed = folder.remove(&self.holder.token, Name::Lock(self.number));
        self.after_removal(removed)
    }

    // What the removal leads to.
    fn after_removal(self, removed: Result<(), FolderFault>) -> LockEnd
        ensures shown { Withdraws self removed result }
        ensures failed { result ≡ folder_failed → IsErrOf removed FolderFault.Failed }
    {
        match removed {
            Ok(()) => LockEnd::Refused(LockRefusal::Outrun(self.number, self.greatest)),
            Err(fault) => LockEnd::Folder(fault),
        }
    }
}
