// The states of a keeper, the one session that may change the account files:
//
// 1. `Keeper`: its lock is the greatest. `clean_next` removes the lower locks one by one.
//    Once none is left, `stage_free` leads to `Freeing`.
// 2. `Freeing`: the text that frees its lock is staged. `move_free` leads to `Ended`.
// 3. `Ended`: its lock is free. Only the answer of the session is left.
ghost use Rattle.std.specs.Prelude.{◌≡◌, ◌<◌, IfOk, IsErrOf, length, nat_lt, slice_index, filter, All};
ghost use Rattle.acct_outside.specs.declared.Name.TheVariants.{FreeStage, Lock};
ghost use Rattle.acct_outside.specs.Tokens.{free_text};
ghost use Rattle.acct_outside.specs.Calls.{writes, renames, removes};
ghost use Rattle.acct_outside.specs.Contract.{IsLockNumber};
ghost use Rattle.suite_rules.specs.Knowledge.{Knowledge};
ghost use Rattle.suite_rules.specs.Outcomes.{LeadsTo};
ghost use Rattle.suite_rules.specs.Steps.{StandsIn};
ghost use Rattle.lock_steps.specs.Stands.{Keeps, KnowsAnything, KnowsNone, HasStagedFree, HasFreed};
ghost use Rattle.lock_steps.specs.NextCall.{IsNextCall, unlocking_call};
ghost use Rattle.lock_steps.specs.Outcomes.{as_it_came, cleaned_once, freeing_of, the_end};
ghost use Rattle.lock_steps.specs.Steps.{FreesLock};

use crate::holder::Holder;
use acct_outside::{Call, Folder, FolderFault, Name, Token};
use std::alloc::AllocError;
use std::collections::VecDeque;
use std::marker::{Model, PhantomData};

/// What a keeper knows of the intent.
pub trait Knowing {
    /// Such is its knowledge, where the folder tells its history.
    ghost knows: { Knowledge → Type 0 };
}

/// A keeper may know anything of the intent, or nothing.
#[derive(Clone, Copy)]
pub struct Unknown;

impl Knowing for Unknown {
    ghost knows = { KnowsAnything };
}

/// A keeper knows that no intent stands.
#[derive(Clone, Copy)]
pub struct Clean;

impl Knowing for Clean {
    ghost knows = { KnowsNone };
}

/// The session whose lock is the greatest, and what it knows of the intent.
#[derive(Drop)]
pub struct Keeper<K> {
    holder: Holder,
    number: u64,
    lower: VecDeque<u64>,
    knowing: PhantomData<K>,
}

impl<K> Model for Keeper<K> {
    ghost use Rattle.std.specs.Prelude.{◌<◌, ◌≤◌, All};
    ghost use Rattle.acct_outside.specs.Contract.{IsLockNumber};
    ghost use Rattle.lock_steps.specs.States.{Kept};

    ghost Value = { Kept };

    ghost view = { λ keeper. record {
      token = keeper.holder.token;
      number = keeper.number;
      lower = keeper.lower.items;
    } };

    ghost invariant = { λ keeper.
        IsLockNumber keeper.number
        × All (λ other. (1 ≤ other) × (other < keeper.number)) keeper.lower.items };
}

/// A keeper that has staged the text with which it frees its lock.
#[derive(Drop)]
pub struct Freeing {
    holder: Holder,
    number: u64,
}

impl Model for Freeing {
    ghost use Rattle.acct_outside.specs.Contract.{IsLockNumber};
    ghost use Rattle.lock_steps.specs.States.{Maker};

    ghost Value = { Maker };

    ghost view = { λ freeing. record { token = freeing.holder.token; number = freeing.number } };

    ghost invariant = { λ freeing. IsLockNumber freeing.number };
}

/// The lock is free, and only the answer of the session is left.
#[derive(Clone, Copy)]
pub struct Ended;

impl Keeper<Unknown> {
    /// The keeper of the number, where these locks are listed.
    pub(crate) fn of_listing(holder: Holder, number: u64, mut numbers: Vec<u64>) -> Self
        requires number { IsLockNumber number }
        requires numbers { All IsLockNumber numbers.items }
        ensures { result ≡ record {
          token = holder.token;
          number = number;
          lower = filter (λ other. nat_lt other number) numbers.items;
        } }
    {
        numbers.retain(|other| *other < number);
        Keeper {
            holder,
            number,
            lower: VecDeque::from(numbers),
            knowing: PhantomData,
        }
    }

    /// Says that the keeper knows that no intent stands. The folder stays as it is.
    pub fn cleaned<F: Folder>(self, folder: &F) -> Keeper<Clean>
        requires { StandsIn (F.moment folder.now) self.token (Keeps self KnowsNone) }
        ensures value { result ≡ self }
        ensures clean { StandsIn (F.moment folder.now) self.token (Keeps result KnowsNone) }
    {
        let _ = folder;
        Keeper {
            holder: self.holder,
            number: self.number,
            lower: self.lower,
            knowing: PhantomData,
        }
    }
}

impl Keeper<Clean> {
    /// The keeper as one that may know anything of the intent: it frees its lock all the same.
    pub fn forget(self) -> Keeper<Unknown>
        ensures { result ≡ self }
    {
        Keeper {
            holder: self.holder,
            number: self.number,
            lower: self.lower,
            knowing: PhantomData,
        }
    }
}

impl<K: Knowing> Keeper<K> {
    /// How many of the lower locks are left to remove.
    pub fn lower(&self) -> usize
        ensures { result ≡ length self.now.lower }
    {
        self.lower.len()
    }

    /// The number of its lock, from 1 to 999999999999999999.
    pub fn number(&self) -> u64
        ensures value { result ≡ self.now.number }
        ensures bounds { IsLockNumber result }
    {
        self.number
    }

    /// The token of its session.
    pub fn token(&self) -> &Token
        ensures { result.now ≡ self.now.token }
    {
        &self.holder.token
    }

    /// The call by which it goes on to free its lock: that of `clean_next` where a lower lock is left,
    /// else that of `stage_free`. The error says that memory ran out for the free text.
    pub fn unlocking_call(&self) -> Result<Call, AllocError>
        ensures { IfOk result (IsNextCall (Keeps self.now K.knows) (unlocking_call self.now)) }
    {
        if self.lower() == 0 {
            Ok(Call::Write(Name::FreeStage, self.holder.free.copy()?))
        } else {
            Ok(Call::Remove(Name::Lock(self.lower[0])))
        }
    }

    /// Removes the first of the lower locks that are left, in the order of the second listing.
    ///
    /// At a fault the keeper is spent.
    pub fn clean_next<F: Folder>(self, folder: &mut F) -> Result<Self, FolderFault>
        requires left { 0 < length self.lower }
        requires stands { StandsIn (F.moment folder.old) self.token (Keeps self K.knows) }
        ensures { FreesLock (F.moment folder.old) (F.moment folder.new) self.token
            (removes (Lock (slice_index self.lower 0))) (cleaned_once self)
            (λ keeper. Keeps keeper K.knows) result }
    {
        let removed = folder.remove(&self.holder.token, Name::Lock(self.lower[0]));
        self.after_removal(removed)
    }

    // What the removal of the first lower lock leads to.
    fn after_removal(mut self, removed: Result<(), FolderFault>) -> Result<Self, FolderFault>
        ensures shown { LeadsTo (cleaned_once self) as_it_came removed result }
        ensures failed { IsErrOf result FolderFault.Failed → IsErrOf removed FolderFault.Failed }
    {
        removed?;
        let _ = self.lower.pop_front();
        Ok(self)
    }

    /// Writes the text that frees its lock, once no lower lock is left.
    ///
    /// At a fault the keeper is spent, and its lock stands.
    pub fn stage_free<F: Folder>(self, folder: &mut F) -> Result<Freeing, FolderFault>
        requires none_left { length self.lower ≡ 0 }
        requires stands { StandsIn (F.moment folder.old) self.token (Keeps self K.knows) }
        ensures { FreesLock (F.moment folder.old) (F.moment folder.new) self.token
            (writes FreeStage free_text) (freeing_of self) HasStagedFree result }
    {
        let free = self.holder.free.as_slice();
        let written = folder.write(&self.holder.token, Name::FreeStage, free);
        self.after_write(written)
    }

    // What the write of the free text leads to.
    fn after_write(self, written: Result<(), FolderFault>) -> Result<Freeing, FolderFault>
        ensures shown { LeadsTo (freeing_of self) as_it_came written result }
        ensures failed { IsErrOf result FolderFault.Failed → IsErrOf written FolderFault.Failed }
    {
        written?;
        Ok(Freeing {
            holder: self.holder,
            number: self.number,
        })
    }
}

impl Freeing {
    /// The call that `move_free` makes.
    pub fn next_call(&self) -> Call
        ensures { IsNextCall (HasStagedFree self.now) (renames FreeStage (Lock self.now.number))
            result }
    {
        Call::Rename(Name::FreeStage, Name::Lock(self.number))
    }

    /// Moves the staged text to its lock, which is free then.
    ///
    /// At a fault the lock may be held or free.
    pub fn move_free<F: Folder>(self, folder: &mut F) -> Result<Ended, FolderFault>
        requires { StandsIn (F.moment folder.old) self.token (HasStagedFree self) }
        ensures { FreesLock (F.moment folder.old) (F.moment folder.new) self.token
            (renames FreeStage (Lock self.number)) the_end (λ _. HasFreed self.number) result }
    {
        let moved = folder.rename(&self.holder.token, Name::FreeStage, Name::Lock(self.number));
        self.after_move(moved)
    }

    // What the move of the free text leads to.
    fn after_move(self, moved: Result<(), FolderFault>) -> Result<Ended, FolderFault>
        ensures shown { LeadsTo the_end as_it_came moved result }
        ensures failed { IsErrOf result FolderFault.Failed → IsErrOf moved FolderFault.Failed }
    {
        moved?;
        Ok(Ended)
    }
}
