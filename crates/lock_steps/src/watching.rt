// The states of a session that takes no lock, and shows what it finds of one moment all the same: where the
// greatest lock is judged before its reads and still the greatest behind them, nobody kept a lock in between
// (docs/ARCHITECTURE.md, "Reports").
//
// 1. `Watcher`: nobody keeps the greatest lock. `read_intent` reads the intent, and leads to `Reading`.
// 2. `Reading`: the intent is read. While `left` isn't 0, `read_next` reads the next of the wanted tables that
//    the intent doesn't list, and login.defs as the last. Then `confirm` lists the locks again, and leads to `Shown`
//    where the same one is the greatest.
// 3. `Shown`: all was found at one moment. It makes no call.
ghost use Rattle.std.specs.Prelude.{◌≡◌, ◌<◌, ◌≤◌, ◌≢◌, Ok, Some, IfOk, IfErr, IfSome, IsErrOf, All, length};
ghost use Rattle.std.specs.Option.{option_copied};
ghost use Rattle.acct_text.specs.declared.Tab.{Tab as Table};
ghost use Rattle.acct_text.specs.Bytes.{Bytes as Text};
ghost use Rattle.acct_text.specs.Files.{table_of};
ghost use Rattle.acct_text.specs.Limits.{table_limit};
ghost use Rattle.acct_outside.specs.Calls.{found_bytes, lists, reads};
ghost use Rattle.acct_outside.specs.Contract.{IsLockNumber, IsWithinLimit, locks_result, found_result};
ghost use Rattle.suite_rules.specs.Steps.{StandsIn};
ghost use Rattle.lock_steps.specs.Stands.{HasJudged};
ghost use Rattle.lock_steps.specs.NextCall.{IsNextCall};
ghost use Rattle.lock_steps.specs.Outcomes.{folder_failed};
ghost use Rattle.lock_steps.specs.Steps.{SeeksLock};
ghost use Rattle.lock_steps.specs.Gathered.{AreSmall, AreUnread, is_large};
ghost use Rattle.lock_steps.specs.Watching.{begun_reading, gathering_call, gathering_left, ConfirmsFound, HasGathered, HasReported, next_left, ReadsIntentFirst, GathersOn, Watches};

use crate::gathered::{Gathered, IntentFound};
use crate::listing::greatest_of;
use crate::{LockEnd, LockRefusal};
use acct_outside::{Call, Folder, FolderFault, Found, INTENT_LIMIT, Name, Token};
use acct_text::{Bytes, Files, TABLE_LIMIT, Tab};
use intent_file::{Intent, IntentFault, NewTable};
use std::alloc::Global;
use std::collections::VecDeque;
use std::marker::Model;

/// A session that has judged the greatest lock, and takes none.
#[derive(Drop)]
pub struct Watcher {
    token: Token,
    greatest: u64,
}

impl Model for Watcher {
    ghost use Rattle.lock_steps.specs.States.{Lister};

    ghost Value = { Lister };

    ghost view = { λ watcher. record { token = watcher.token; greatest = watcher.greatest } };
}

/// A session that has read the intent since, and reads what it doesn't list of the wanted tables.
#[derive(Drop)]
pub struct Reading {
    token: Token,
    number: u64,
    wanted: &'static [Tab],
    gathered: Gathered,
    left: VecDeque<Name>,
}

impl Model for Reading {
    ghost use Rattle.lock_steps.specs.Gathered.{AreUnread};
    ghost use Rattle.lock_steps.specs.Watching.{Gatherer};

    ghost Value = { Gatherer };

    ghost view = { λ reading. record {
      token = reading.token;
      number = reading.number;
      wanted = reading.wanted.now;
      gathered = reading.gathered;
      left = reading.left.items;
    } };

    ghost invariant = { λ reading. AreUnread reading.gathered.large reading.left.items };
}

/// What was found under the greatest lock of two listings.
#[derive(Drop)]
pub struct Shown {
    number: u64,
    wanted: &'static [Tab],
    gathered: Gathered,
}

impl Model for Shown {
    ghost use Rattle.lock_steps.specs.Watching.{Report};

    ghost Value = { Report };

    ghost view = { λ shown. record {
      number = shown.number;
      wanted = shown.wanted.now;
      gathered = shown.gathered;
    } };
}

impl Watcher {
    /// The session of this token has judged the greatest lock, which has this number, 0 for none.
    pub(crate) fn new(token: Token, greatest: u64) -> Self
        ensures { result ≡ record { token = token; greatest = greatest } }
    {
        Watcher { token, greatest }
    }

    /// The call that `read_intent` makes.
    pub fn next_call(&self) -> Call
        ensures { IsNextCall (HasJudged self.now) (reads Name.Intent) result }
    {
        Call::Read(Name::Intent)
    }

    /// Reads the intent, whatever is found there, for a report that wants these tables.
    ///
    /// Want of memory may also come after the read, for the listed tables.
    pub fn read_intent<F: Folder>(
        self,
        alloc: Global,
        wanted: &'static [Tab],
        folder: &mut F,
    ) -> Result<Reading, FolderFault>
        requires { StandsIn (F.moment folder.old) self.token (HasJudged self) }
        ensures { Watches (F.moment folder.old) (F.moment folder.new) self.token
            (reads Name.Intent) (ReadsIntentFirst self wanted.now) HasGathered result }
    {
        let found = folder.read(&self.token, Name::Intent, INTENT_LIMIT);
        self.after_intent(alloc, wanted, found)
    }

    // What the read of the intent leads to.
    fn after_intent(
        self,
        alloc: Global,
        wanted: &'static [Tab],
        found: Result<Found, FolderFault>,
    ) -> Result<Reading, FolderFault>
        ensures shown { ReadsIntentFirst self wanted.now (found_result found) result }
        ensures failed { IsErrOf result FolderFault.Failed → IsErrOf found FolderFault.Failed }
    {
        match found? {
            Found::Absent => self.begin(alloc, wanted, IntentFound::Absent, Vec::new(alloc)),
            Found::Held(text) => self.after_text(alloc, wanted, text.as_slice()),
            Found::TooLarge => { self.begin(alloc, wanted, IntentFound::TooLarge, Vec::new(alloc)) }
        }
    }

    // What the bytes of an intent lead to.
    fn after_text(
        self,
        alloc: Global,
        wanted: &'static [Tab],
        text: &[u8],
    ) -> Result<Reading, FolderFault>
        ensures shown { ReadsIntentFirst self wanted.now (Ok (found_bytes text.now)) result }
        ensures failed { ¬ (IsErrOf result FolderFault.Failed) }
    {
        match Intent::read(alloc, text) {
            Ok(intent) => self.begin(alloc, wanted, IntentFound::Listed, intent.into_tables()),
            Err(IntentFault::Part(part)) => {
                self.begin(alloc, wanted, IntentFound::Damaged(part), Vec::new(alloc))
            }
            Err(IntentFault::Memory) => Err(FolderFault::Memory),
        }
    }

    // Before any other read, where this stands at the intent and it lists these tables.
    fn begin(
        self,
        alloc: Global,
        wanted: &'static [Tab],
        intent: IntentFound,
        tables: Vec<NewTable>,
    ) -> Result<Reading, FolderFault>
        requires { All (λ new. length new.bytes ≤ table_limit) tables.items }
        ensures begun { IfOk result (λ reading.
            reading ≡ begun_reading self wanted.now intent tables.items) }
        ensures failed { IfErr result (λ fault. fault ≡ FolderFault.Memory) }
    {
        let gathered = Gathered::new(alloc, wanted, intent, tables);
        let left = gathered.names_behind(alloc)?;
        Ok(Reading {
            token: self.token,
            number: self.greatest,
            wanted,
            gathered,
            left,
        })
    }
}

impl Reading {
    /// How many reads are left: one for each wanted table that the intent doesn't list, and one for
    /// login.defs;
    /// none where the intent is too large or doesn't read.
    pub fn left(&self) -> usize
        ensures { result ≡ gathering_left self.now }
    {
        self.left.len()
    }

    /// A law: the names that are left are tables and login.defs, none of them twice.
    pub fn is_sound(&self)
        ensures { AreUnread self.now.gathered.large self.now.left }
    {
        // The invariant is known where a field is used.
        let _ = &self.left;
    }

    /// The call that it makes next: that of `read_next` while any read is left, else that of `confirm`.
    pub fn next_call(&self) -> Call
        ensures { IsNextCall (HasGathered self.now) (gathering_call self.now) result }
    {
        if self.left() == 0 {
            Call::Locks
        } else {
            Call::Read(self.left[0])
        }
    }

    /// Reads the next table, or login.defs, whatever is found there.
    ///
    /// Want of memory may also come after the read, for the name of a file that is too large.
    pub fn read_next<F: Folder>(self, folder: &mut F) -> Result<Reading, FolderFault>
        requires left { 0 < length self.left }
        requires stands { StandsIn (F.moment folder.old) self.token (HasGathered self) }
        ensures { Watches (F.moment folder.old) (F.moment folder.new) self.token
            (reads (next_left self)) (GathersOn self) HasGathered result }
    {
        let found = folder.read(&self.token, self.left[0], TABLE_LIMIT);
        self.after_read(found)
    }

    // What the read of the next name leads to.
    fn after_read(self, found: Result<Found, FolderFault>) -> Result<Reading, FolderFault>
        requires left { 0 < length self.left }
        requires limit { IfOk found (IsWithinLimit table_limit) }
        ensures shown { GathersOn self (found_result found) result }
        ensures failed { IsErrOf result FolderFault.Failed → IsErrOf found FolderFault.Failed }
    {
        let found = found?;
        let Reading {
            token,
            number,
            wanted,
            mut gathered,
            mut left,
        } = self;
        gathered.put(left[0], found)?;
        let _ = left.pop_front();
        Ok(Reading {
            token,
            number,
            wanted,
            gathered,
            left,
        })
    }

    /// Lists the locks again, to see whether the greatest is the same as before the reads.
    ///
    /// At `Outrun` it has another number, the second one: a session may have kept a lock in between.
    pub fn confirm<F: Folder>(self, folder: &mut F) -> Result<Shown, LockEnd>
        requires none_left { length self.left ≡ 0 }
        requires stands { StandsIn (F.moment folder.old) self.token (HasGathered self) }
        ensures { SeeksLock (F.moment folder.old) (F.moment folder.new) self.token lists
            (ConfirmsFound self) HasReported result }
    {
        let listed = folder.locks(&self.token);
        self.after_listing(listed)
    }

    // What the second listing leads to.
    fn after_listing(self, listed: Result<Vec<u64>, FolderFault>) -> Result<Shown, LockEnd>
        requires { IfOk listed (λ numbers. All IsLockNumber numbers.items) }
        ensures shown { ConfirmsFound self (locks_result listed) result }
        ensures failed { IsErrOf result folder_failed → IsErrOf listed FolderFault.Failed }
    {
        let numbers = listed?;
        let greatest = greatest_of(&numbers);
        if greatest != self.number {
            return Err(LockEnd::Refused(LockRefusal::Outrun(self.number, greatest)));
        }
        Ok(Shown {
            number: self.number,
            wanted: self.wanted,
            gathered: self.gathered,
        })
    }
}

impl Shown {
    /// What was found at the intent.
    pub fn intent(&self) -> IntentFound
        ensures { result ≡ self.now.gathered.intent }
    {
        self.gathered.intent
    }

    /// The six tables, none with more than 16,777,216 bytes: of one that the intent lists its bytes, and
    /// none of one that is absent or too large. A table that isn't wanted is empty.
    pub fn files(&self) -> &Files
        ensures value { result.now ≡ self.now.gathered.files }
        ensures small { (table : Table) (bytes : Text) → table_of result.now table ≡ Some bytes
            → length bytes ≤ table_limit }
    {
        &self.gathered.files
    }

    /// The bytes of login.defs, at most 16,777,216, and none where it is absent or too large.
    pub fn defs(&self) -> Option<&Bytes>
        ensures value { option_copied result ≡ self.now.gathered.defs }
        ensures small { IfSome self.now.gathered.defs (λ bytes. length bytes ≤ table_limit) }
    {
        self.gathered.defs.as_ref()
    }

    /// A law: no table, and not login.defs, has more than 16,777,216 bytes.
    pub fn is_small(&self)
        ensures { AreSmall self.now.gathered.files self.now.gathered.defs }
    {
        self.gathered.is_small();
    }

    /// Whether the name was read, and more than 16,777,216 bytes were found there.
    pub fn too_large(&self, name: Name) -> bool
        ensures { result ≡ is_large self.now.gathered name }
    {
        self.gathered.is_large(name)
    }
}
