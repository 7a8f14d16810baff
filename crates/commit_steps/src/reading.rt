// The states in which a keeper reads what its command is decided on:
//
// 1. `Loader`: it has read the tables before the next. `load_next` reads the next.
// 2. `Loaded`: the six tables and login.defs are read. `prepare` leads to `Backing`, and `release`
//    back to the keeper, where no change is to be made.
ghost use Rattle.std.specs.Prelude.{◌≡◌, ◌≤◌, Option, Some, IfOk, IfErr, IfSome, IsSome, IsErrOf, length};
ghost use Rattle.std.specs.Option.{option_copied};
ghost use Rattle.acct_text.specs.declared.Tab.{Tab};
ghost use Rattle.acct_text.specs.Bytes.{Bytes};
ghost use Rattle.acct_text.specs.Files.{table_of};
ghost use Rattle.acct_text.specs.Limits.{table_limit};
ghost use Rattle.acct_outside.specs.Calls.{reads};
ghost use Rattle.acct_outside.specs.Contract.{IsWithinLimit, found_result};
ghost use Rattle.suite_rules.specs.Steps.{StandsIn, own_command, TakesStep};
ghost use Rattle.suite_rules.specs.Outcomes.{before_commit};
ghost use Rattle.lock_steps.specs.NextCall.{IsNextCall};
ghost use Rattle.intent_file.specs.Intent.{ReadsIntent, intent_text};
ghost use Rattle.commit_steps.specs.States.{AreSound, MakesChange, change_by, intended, next_name, table_behind, start_of, walk_of};
ghost use Rattle.commit_steps.specs.Stands.{HasRead, StandsEnded, HoldsLoading};
ghost use Rattle.commit_steps.specs.Outcomes.{Loads, LoadsContent, LoadsTable, is_missing};

use crate::backing::Backing;
use crate::prepared::Prepared;
use crate::{LoadEnd, Loading};
use acct_outside::{Call, CommitStage, Folder, FolderFault, Found, Name, StageFault};
use acct_text::{Bytes, Files, NewTables, TABLE_LIMIT, Tab};
use lock_steps::{Clean, Keeper};
use std::alloc::{AllocError, Global};
use std::marker::Model;

/// A keeper that reads the tables and login.defs, one by one.
#[derive(Drop)]
pub struct Loader {
    keeper: Keeper<Clean>,
    files: Files,
    next: Option<Tab>,
}

impl Model for Loader {
    ghost use Rattle.commit_steps.specs.States.{Reader, AreSound};

    ghost Value = { Reader };

    ghost view = { λ loader. record {
      keeper = loader.keeper;
      files = loader.files;
      next = loader.next;
    } };

    ghost invariant = { λ loader. AreSound loader.next loader.files };
}

/// A keeper that has read the tables and login.defs.
#[derive(Drop)]
pub struct Loaded {
    keeper: Keeper<Clean>,
    files: Files,
    defs: Option<Bytes>,
}

impl Model for Loaded {
    ghost use Rattle.std.specs.Prelude.{◌≤◌, None, IfSome, length};
    ghost use Rattle.acct_text.specs.Limits.{table_limit};
    ghost use Rattle.commit_steps.specs.States.{Inputs, AreSound};

    ghost Value = { Inputs };

    ghost view = { λ loaded. record {
      keeper = loaded.keeper;
      files = loaded.files;
      defs = loaded.defs;
    } };

    ghost invariant = { λ loaded.
        AreSound None loaded.files × IfSome loaded.defs (λ bytes. length bytes ≤ table_limit) };
}

impl Loader {
    /// The keeper before its first read, that of passwd. It makes no call of the folder.
    pub fn start(keeper: Keeper<Clean>) -> Self
        ensures { result ≡ start_of keeper }
    {
        Loader {
            keeper,
            files: Files::none(),
            next: Some(Tab::Passwd),
        }
    }

    /// A law: of the tables that it has read, passwd and group stand, and each is within its limit.
    pub fn is_sound(&self)
        ensures { AreSound self.now.next self.now.files }
    {
        // The invariant is known where a field is used.
        let _ = &self.next;
    }

    /// Reads the next table, or login.defs once all tables are read.
    ///
    /// At `TooLarge` it has more than 16,777,216 bytes, and at `NoTable` it is passwd or group, and
    /// absent; both hand the keeper back. `Fault` says that the folder failed or found no memory.
    pub fn load_next<F: Folder>(self, folder: &mut F) -> Result<Loading, LoadEnd>
        requires { StandsIn (F.moment folder.old) self.keeper.token (HasRead self) }
        ensures step { TakesStep (F.moment folder.old) (F.moment folder.new) self.keeper.token
            (reads (next_name self.next)) (λ answer. Loads self answer result) HoldsLoading
            own_command (LoadEnd.Fault (before_commit FolderFault.Failed)) result }
        ensures refused { IfErr result (StandsEnded (F.moment folder.new) self.keeper.token) }
    {
        let name = self.next_name();
        let found = folder.read(self.keeper.token(), name, TABLE_LIMIT);
        self.after_read(name, found)
    }

    /// The call that `load_next` makes.
    pub fn next_call(&self) -> Call
        ensures { IsNextCall (HasRead self.now) (reads (next_name self.now.next)) result }
    {
        Call::Read(self.next_name())
    }

    // The name that is read next.
    fn next_name(&self) -> Name
        ensures { result ≡ next_name self.now.next }
    {
        match self.next {
            Some(table) => Name::Table(table),
            None => Name::Defs,
        }
    }

    // What the read of the next name leads to.
    fn after_read(self, name: Name, found: Result<Found, FolderFault>) -> Result<Loading, LoadEnd>
        requires name { name ≡ next_name self.next }
        requires limit { IfOk found (IsWithinLimit table_limit) }
        ensures shown { Loads self (found_result found) result }
        ensures failed { IsErrOf result (LoadEnd.Fault (before_commit FolderFault.Failed))
            → IsErrOf found FolderFault.Failed }
    {
        match found {
            Ok(Found::Absent) => self.after_content(None),
            Ok(Found::Held(bytes)) => self.after_content(Some(bytes)),
            Ok(Found::TooLarge) => Err(LoadEnd::TooLarge(name, self.keeper)),
            Err(fault) => Err(LoadEnd::Fault(StageFault {
                fault,
                stage: CommitStage::Before,
            })),
        }
    }

    // What the content of the next name leads to, None where it is absent.
    fn after_content(self, content: Option<Bytes>) -> Result<Loading, LoadEnd>
        requires { IfSome content (λ bytes. length bytes ≤ table_limit) }
        ensures shown { LoadsContent self self.next content result }
        ensures failed { ¬ (IsErrOf result (LoadEnd.Fault (before_commit FolderFault.Failed))) }
    {
        match self.next {
            Some(table) => self.after_table(table, content),
            None => Ok(Loading::Done(Loaded {
                keeper: self.keeper,
                files: self.files,
                defs: content,
            })),
        }
    }

    // What the content of the next table leads to, None where it is absent.
    fn after_table(mut self, table: Tab, content: Option<Bytes>) -> Result<Loading, LoadEnd>
        requires next { self.next ≡ Some table }
        requires limit { IfSome content (λ bytes. length bytes ≤ table_limit) }
        ensures shown { LoadsTable self table content result }
        ensures failed { ¬ (IsErrOf result (LoadEnd.Fault (before_commit FolderFault.Failed))) }
    {
        if is_missing(table, &content) {
            return Err(LoadEnd::NoTable(table, self.keeper));
        }
        self.files.put(table, content);
        self.next = table_behind(table);
        Ok(Loading::More(self))
    }
}

// Whether the table is absent, and one without which no tool runs.
fn is_missing(table: Tab, content: &Option<Bytes>) -> bool
    ensures { result ≡ is_missing table content.now }
{
    match table {
        Tab::Passwd | Tab::Group => content.is_none(),
        _ => false,
    }
}

// The table that is read after this one, and none after the last.
fn table_behind(table: Tab) -> Option<Tab>
    ensures { result ≡ table_behind table }
{
    match table {
        Tab::Passwd => Some(Tab::Shadow),
        Tab::Shadow => Some(Tab::Group),
        Tab::Group => Some(Tab::Gshadow),
        Tab::Gshadow => Some(Tab::Subuid),
        Tab::Subuid => Some(Tab::Subgid),
        Tab::Subgid => None,
    }
}

impl Loaded {
    /// The six tables. Passwd and group stand, and none has more than 16,777,216 bytes.
    pub fn files(&self) -> &Files
        ensures value { result.now ≡ self.now.files }
        ensures passwd { IsSome result.now.passwd }
        ensures group { IsSome result.now.group }
        ensures small { (table : Tab) (bytes : Bytes) → table_of result.now table ≡ Some bytes
            → length bytes ≤ table_limit }
    {
        &self.files
    }

    /// The bytes of login.defs, at most 16,777,216, and none where it is absent.
    pub fn defs(&self) -> Option<&Bytes>
        ensures value { option_copied result ≡ self.now.defs }
        ensures small { IfSome self.now.defs (λ bytes. length bytes ≤ table_limit) }
    {
        self.defs.as_ref()
    }

    /// The keeper again, where no change is to be made. It makes no call of the folder.
    pub fn release(self) -> Keeper<Clean>
        ensures { result ≡ self.keeper }
    {
        self.keeper
    }

    /// The keeper that it reads with.
    pub(crate) fn keeper(&self) -> &Keeper<Clean>
        ensures { result.now ≡ self.now.keeper }
    {
        &self.keeper
    }

    /// Makes the intent of these new tables, whose bytes it keeps. It makes no call of the folder.
    ///
    /// Each of them stands and differs, and none has more than 16,777,216 bytes; there is one at
    /// least. The error says that memory ran out: the keeper is spent then.
    pub fn prepare(self, alloc: Global, new: NewTables) -> Result<Backing, AllocError>
        requires { MakesChange new self.files }
        ensures value { IfOk result (λ backing. backing ≡ walk_of (change_by new self)) }
        ensures reads { IfOk result (λ backing.
            ReadsIntent (intent_text (intended backing.change)) (intended backing.change)) }
    {
        Ok(Backing::start(Prepared::new(alloc, self, new)?))
    }
}
