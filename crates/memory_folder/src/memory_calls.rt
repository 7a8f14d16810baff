// The calls of a folder in memory. Each is noted and counted, then fails where a mishap is planned for it,
// and else finds its answer and records its event.
ghost use Rattle.std.specs.Prelude.{◌≡◌, ◌↔◌, [], All, IfOk, IsOk, Ok, false};
ghost use Rattle.std.specs.List.Sorted.{IsNonDecreasing};
ghost use Rattle.acct_outside.specs.Calls.{begins, lists, reads, asks, creates, writes, appends, renames, removes, answers};
ghost use Rattle.acct_outside.specs.Faults.{CountsFailure};
ghost use Rattle.acct_outside.specs.Journal.{enters, listing_reply, makes, plain_reply, was_done};
ghost use Rattle.acct_outside.specs.Life.{is_running};
ghost use Rattle.memory_folder.specs.NewTokens.{IsFirstUnused};
ghost use Rattle.memory_folder.specs.Events.{has_token};
ghost use Rattle.acct_outside.specs.Contract.{IsName, IsLockNumber, IsWithinLimit, MayAct, TellsRead, TellsBegin, WhereTold, locks_result};

use crate::event::{Answer, Command, Outcome};
use crate::memory::MemoryFolder;
use acct_outside::{Ask, Call, Created, Folder, FolderFault, Found, Name, Token, Verdict};
use acct_text::{Bytes, Word};

impl Folder for MemoryFolder {
    ghost use Rattle.std.specs.Prelude.{Some};
    ghost use Rattle.memory_folder.specs.Memory.{FailsAsPlanned, CountsCall, IsUncounted, NotesIn, HasRunning, TellsIn, alive_of, faults_of, moment_of, no_others, past_of};

    ghost moment = { moment_of };

    fn enter(&mut self, prefix: &Bytes) -> Result<(), FolderFault>
        ensures done { IsOk result }
        ensures told { past_of self.new ≡ past_of self.old }
        ensures faults { faults_of self.new ≡ faults_of self.old }
        ensures uncounted { IsUncounted self.old self.new }
        ensures noted { NotesIn self.old self.new (enters prefix.now was_done) }
    {
        self.journal.note(Ask::Enter(prefix));
        self.journal.done();
        Ok(())
    }

    fn begin(&mut self, words: &[Word], input: &Bytes, day: u32) -> Result<Token, FolderFault>
        ensures told { WhereTold (Some (past_of self.old)) (Some (past_of self.new))
            (TellsBegin no_others
            (record { words = words.now; input = input.now; day = day }) result) }
        ensures runs { IfOk result (HasRunning self.new) }
        ensures acts { IfOk result (MayAct (moment_of self.new)) }
        ensures faults { CountsFailure FolderFault.Failed (faults_of self.old)
            (faults_of self.new) result }
        ensures counted { CountsCall self.old self.new result }
        ensures planned { FailsAsPlanned self.old self.new []
            (begins (record { words = words.now; input = input.now; day = day })) result }
        ensures token { IfOk result (IsFirstUnused (past_of self.old) (alive_of self.old)) }
        ensures noted { NotesIn self.old self.new (makes
            (begins (record { words = words.now; input = input.now; day = day }))
            (plain_reply result)) }
    {
        self.journal.note(Ask::Begin(words, input, day));
        self.mishaps.count();
        let Ok(command) = Command::of(self.alloc, words, input, day) else {
            return Err(FolderFault::Memory);
        };
        match self.mishaps.planned() {
            Ok(None) => self.start(command),
            Ok(Some(_)) => Err(self.fail_begin(command)),
            Err(_) => Err(FolderFault::Memory),
        }
    }

    fn locks(&mut self, by: &Token) -> Result<Vec<u64>, FolderFault>
        ensures told { TellsIn self.old self.new by.now lists (locks_result result) }
        ensures numbers { IfOk result (λ numbers. All IsLockNumber numbers.items) }
        ensures ascending { IfOk result (λ numbers. IsNonDecreasing numbers.items) }
        ensures faults { CountsFailure FolderFault.Failed (faults_of self.old)
            (faults_of self.new) result }
        ensures counted { CountsCall self.old self.new result }
        ensures planned { FailsAsPlanned self.old self.new by.now lists result }
        ensures noted { NotesIn self.old self.new
            (makes lists (listing_reply (locks_result result))) }
    {
        self.journal.note(Ask::Locks);
        self.mishaps.count();
        self.pass(by, Call::Locks)?;
        let numbers = self.log.list(self.alloc, by)?;
        self.journal.showed(&numbers);
        Ok(numbers)
    }

    fn read(&mut self, by: &Token, name: Name, limit: u64) -> Result<Found, FolderFault>
        requires { IsName name }
        ensures told { TellsRead (moment_of self.old) (moment_of self.new) by.now name limit
            result }
        ensures limit { IfOk result (IsWithinLimit limit) }
        ensures faults { CountsFailure FolderFault.Failed (faults_of self.old)
            (faults_of self.new) result }
        ensures counted { CountsCall self.old self.new result }
        ensures planned { FailsAsPlanned self.old self.new by.now (reads name) result }
        ensures noted { NotesIn self.old self.new (makes (reads name) (plain_reply result)) }
    {
        self.journal.note(Ask::Read(name));
        self.mishaps.count();
        self.pass(by, Call::Read(name))?;
        let found = self.log.read(self.alloc, by, name, limit)?;
        self.journal.done();
        Ok(found)
    }

    fn verdict(&mut self, by: &Token, token: &Token) -> Result<Verdict, FolderFault>
        ensures told { TellsIn self.old self.new by.now (asks token.now) result }
        ensures dead { IfOk result (λ verdict. (verdict ≡ Verdict.Dead)
            ↔ ((is_running token.now (past_of self.old).history ≡ false)
            × (has_token token.now (alive_of self.old) ≡ false))) }
        ensures faults { CountsFailure FolderFault.Failed (faults_of self.old)
            (faults_of self.new) result }
        ensures counted { CountsCall self.old self.new result }
        ensures planned { FailsAsPlanned self.old self.new by.now (asks token.now) result }
        ensures noted { NotesIn self.old self.new (makes (asks token.now) (plain_reply result)) }
    {
        self.journal.note(Ask::Verdict(token));
        self.mishaps.count();
        let call = self.pass(by, Call::Verdict(token.copy()?))?;
        let verdict = self.judge(token);
        let told = Answer::Verdict(verdict);
        self.log.record(self.alloc, by, call, Outcome::Done(told))?;
        self.journal.done();
        Ok(verdict)
    }

    fn create(&mut self, by: &Token, number: u64) -> Result<Created, FolderFault>
        requires { IsLockNumber number }
        ensures told { TellsIn self.old self.new by.now (creates number) result }
        ensures faults { CountsFailure FolderFault.Failed (faults_of self.old)
            (faults_of self.new) result }
        ensures counted { CountsCall self.old self.new result }
        ensures planned { FailsAsPlanned self.old self.new by.now (creates number) result }
        ensures noted { NotesIn self.old self.new (makes (creates number) (plain_reply result)) }
    {
        self.journal.note(Ask::Create(number));
        self.mishaps.count();
        let call = self.pass(by, Call::Create(number))?;
        let created = self.log.store.created(number);
        let told = Answer::Created(created);
        self.log.record(self.alloc, by, call, Outcome::Done(told))?;
        self.journal.done();
        Ok(created)
    }

    fn write(&mut self, by: &Token, name: Name, piece: &[u8]) -> Result<(), FolderFault>
        requires { IsName name }
        ensures told { TellsIn self.old self.new by.now (writes name piece.now) result }
        ensures faults { CountsFailure FolderFault.Failed (faults_of self.old)
            (faults_of self.new) result }
        ensures counted { CountsCall self.old self.new result }
        ensures planned { FailsAsPlanned self.old self.new by.now (writes name piece.now) result }
        ensures noted { NotesIn self.old self.new
            (makes (writes name piece.now) (plain_reply result)) }
    {
        self.journal.note(Ask::Write(name, piece));
        self.mishaps.count();
        self.act(by, Call::Write(name, Bytes::of(self.alloc, piece)?))
    }

    fn append(&mut self, by: &Token, name: Name, piece: &[u8]) -> Result<(), FolderFault>
        requires { IsName name }
        ensures told { TellsIn self.old self.new by.now (appends name piece.now) result }
        ensures faults { CountsFailure FolderFault.Failed (faults_of self.old)
            (faults_of self.new) result }
        ensures counted { CountsCall self.old self.new result }
        ensures planned { FailsAsPlanned self.old self.new by.now (appends name piece.now) result }
        ensures noted { NotesIn self.old self.new
            (makes (appends name piece.now) (plain_reply result)) }
    {
        self.journal.note(Ask::Append(name, piece));
        self.mishaps.count();
        self.act(by, Call::Append(name, Bytes::of(self.alloc, piece)?))
    }

    fn rename(&mut self, by: &Token, from: Name, to: Name) -> Result<(), FolderFault>
        requires from { IsName from }
        requires to { IsName to }
        ensures told { TellsIn self.old self.new by.now (renames from to) result }
        ensures faults { CountsFailure FolderFault.Failed (faults_of self.old)
            (faults_of self.new) result }
        ensures counted { CountsCall self.old self.new result }
        ensures planned { FailsAsPlanned self.old self.new by.now (renames from to) result }
        ensures noted { NotesIn self.old self.new (makes (renames from to) (plain_reply result)) }
    {
        self.journal.note(Ask::Rename(from, to));
        self.mishaps.count();
        self.act(by, Call::Rename(from, to))
    }

    fn remove(&mut self, by: &Token, name: Name) -> Result<(), FolderFault>
        requires { IsName name }
        ensures told { TellsIn self.old self.new by.now (removes name) result }
        ensures faults { CountsFailure FolderFault.Failed (faults_of self.old)
            (faults_of self.new) result }
        ensures counted { CountsCall self.old self.new result }
        ensures planned { FailsAsPlanned self.old self.new by.now (removes name) result }
        ensures noted { NotesIn self.old self.new (makes (removes name) (plain_reply result)) }
    {
        self.journal.note(Ask::Remove(name));
        self.mishaps.count();
        self.act(by, Call::Remove(name))
    }

    fn answered(&mut self, by: &Token, status: u8)
        requires { HasRunning self.old by.now }
        ensures told { TellsIn self.old self.new by.now (answers status) (Ok tt) }
        ensures faults { faults_of self.new ≡ faults_of self.old }
        ensures uncounted { IsUncounted self.old self.new }
        ensures noted { NotesIn self.old self.new (makes (answers status) was_done) }
    {
        self.journal.note(Ask::Answered(status));
        self.log.answer(by, status);
        self.journal.done();
    }

    fn faults(&self) -> u64 {
        self.mishaps.faults
    }
}
