// The calls of a staged folder: before each but `enter`, `answered` and `faults`, the next list of steps. Each
// is noted in the folder's own journal; what its other sessions ask of the folder in memory isn't.
ghost use Rattle.std.specs.Prelude.{◌≡◌, ◌∷◌, List, All, IfOk, IsErrOf, Ok};
ghost use Rattle.std.specs.List.Sorted.{IsNonDecreasing};
ghost use Rattle.acct_outside.specs.Calls.{Call, answers, appends, asks, creates, lists, removes, renames, writes};
ghost use Rattle.acct_outside.specs.Contract.{BeginsSession, CallsFolder, EntersFolder, IsLockNumber, IsName, IsWithinLimit, ListsLocks, MayAct, MayAnswer, NeverAdmits, ReadsFolder, locks_result};
ghost use Rattle.acct_outside.specs.Journal.{Entry, enters, listing_reply, makes, plain_reply, was_done, was_refused};
ghost use Rattle.side_by_side.specs.Lists.{CallsAtOnce, CallsNext};

use crate::staged::StagedFolder;
use acct_outside::{Ask, Created, Folder, FolderFault, Found, Journal, Name, Token, Verdict};
use acct_text::{Bytes, Word};
use suite_session::Tools;

impl<T: Tools> Folder for StagedFolder<T> {
    ghost use Rattle.side_by_side.specs.Staged.{staged_moment};

    ghost moment = { staged_moment };

    fn enter(&mut self, prefix: &Bytes) -> Result<(), FolderFault>
        ensures memory { ¬ (IsErrOf result FolderFault.Failed) }
        ensures call { EntersFolder (staged_moment self.old) (staged_moment self.new) prefix.now
            result }
        ensures stays { self.new ≡ record self.old {
          journal = enters prefix.now was_done ∷ self.old.journal;
        } }
    {
        self.journal.note(Ask::Enter(prefix));
        self.journal.done();
        Ok(())
    }

    fn begin(&mut self, words: &[Word], input: &Bytes, day: u32) -> Result<Token, FolderFault>
        ensures call { BeginsSession (staged_moment self.old) (staged_moment self.new)
            (record { words = words.now; input = input.now; day = day }) result }
        ensures own { IfOk result (NeverAdmits (staged_moment self.new).admits) }
        ensures next { CallsNext self.old self.new (λ before now. BeginsSession before now
            (record { words = words.now; input = input.now; day = day }) result) result }
    {
        self.journal.note(Ask::Begin(words, input, day));
        self.schedule.play_next(&mut self.others, &mut self.folder)?;
        let answer = self.folder.begin(words, input, day);
        settle(&mut self.journal, &answer);
        answer
    }

    fn locks(&mut self, by: &Token) -> Result<Vec<u64>, FolderFault>
        requires { MayAct (staged_moment self.old) by.now }
        ensures call { ListsLocks (staged_moment self.old) (staged_moment self.new) by.now result }
        ensures numbers { IfOk result (λ numbers. All IsLockNumber numbers.items) }
        ensures ascending { IfOk result (λ numbers. IsNonDecreasing numbers.items) }
        ensures next { CallsNext self.old self.new (λ before now. ListsLocks before now by.now
            result) result }
    {
        self.journal.note(Ask::Locks);
        self.schedule.play_next(&mut self.others, &mut self.folder)?;
        let answer = self.folder.locks(by);
        settle_listing(&mut self.journal, &answer);
        answer
    }

    fn read(&mut self, by: &Token, name: Name, limit: u64) -> Result<Found, FolderFault>
        requires acts { MayAct (staged_moment self.old) by.now }
        requires name { IsName name }
        ensures call { ReadsFolder (staged_moment self.old) (staged_moment self.new) by.now
            name limit result }
        ensures limit { IfOk result (IsWithinLimit limit) }
        ensures next { CallsNext self.old self.new (λ before now. ReadsFolder before now by.now name
            limit result) result }
    {
        self.journal.note(Ask::Read(name));
        self.schedule.play_next(&mut self.others, &mut self.folder)?;
        let answer = self.folder.read(by, name, limit);
        settle(&mut self.journal, &answer);
        answer
    }

    fn verdict(&mut self, by: &Token, token: &Token) -> Result<Verdict, FolderFault>
        requires { MayAct (staged_moment self.old) by.now }
        ensures call { CallsFolder (staged_moment self.old) (staged_moment self.new) by.now
            (asks token.now) result }
        ensures next { CallsNext self.old self.new (λ before now. CallsFolder before now by.now
            (asks token.now) result) result }
    {
        self.journal.note(Ask::Verdict(token));
        self.schedule.play_next(&mut self.others, &mut self.folder)?;
        let answer = self.folder.verdict(by, token);
        settle(&mut self.journal, &answer);
        answer
    }

    fn create(&mut self, by: &Token, number: u64) -> Result<Created, FolderFault>
        requires acts { MayAct (staged_moment self.old) by.now }
        requires number { IsLockNumber number }
        ensures call { CallsFolder (staged_moment self.old) (staged_moment self.new) by.now
            (creates number) result }
        ensures next { CallsNext self.old self.new (λ before now. CallsFolder before now by.now
            (creates number) result) result }
    {
        self.journal.note(Ask::Create(number));
        self.schedule.play_next(&mut self.others, &mut self.folder)?;
        let answer = self.folder.create(by, number);
        settle(&mut self.journal, &answer);
        answer
    }

    fn write(&mut self, by: &Token, name: Name, piece: &[u8]) -> Result<(), FolderFault>
        requires acts { MayAct (staged_moment self.old) by.now }
        requires name { IsName name }
        ensures call { CallsFolder (staged_moment self.old) (staged_moment self.new) by.now
            (writes name piece.now) result }
        ensures next { CallsNext self.old self.new (λ before now. CallsFolder before now by.now
            (writes name piece.now) result) result }
    {
        self.journal.note(Ask::Write(name, piece));
        self.schedule.play_next(&mut self.others, &mut self.folder)?;
        let answer = self.folder.write(by, name, piece);
        settle(&mut self.journal, &answer);
        answer
    }

    fn append(&mut self, by: &Token, name: Name, piece: &[u8]) -> Result<(), FolderFault>
        requires acts { MayAct (staged_moment self.old) by.now }
        requires name { IsName name }
        ensures call { CallsFolder (staged_moment self.old) (staged_moment self.new) by.now
            (appends name piece.now) result }
        ensures next { CallsNext self.old self.new (λ before now. CallsFolder before now by.now
            (appends name piece.now) result) result }
    {
        self.journal.note(Ask::Append(name, piece));
        self.schedule.play_next(&mut self.others, &mut self.folder)?;
        let answer = self.folder.append(by, name, piece);
        settle(&mut self.journal, &answer);
        answer
    }

    fn rename(&mut self, by: &Token, from: Name, to: Name) -> Result<(), FolderFault>
        requires acts { MayAct (staged_moment self.old) by.now }
        requires from { IsName from }
        requires to { IsName to }
        ensures call { CallsFolder (staged_moment self.old) (staged_moment self.new) by.now
            (renames from to) result }
        ensures next { CallsNext self.old self.new (λ before now. CallsFolder before now by.now
            (renames from to) result) result }
    {
        self.journal.note(Ask::Rename(from, to));
        self.schedule.play_next(&mut self.others, &mut self.folder)?;
        let answer = self.folder.rename(by, from, to);
        settle(&mut self.journal, &answer);
        answer
    }

    fn remove(&mut self, by: &Token, name: Name) -> Result<(), FolderFault>
        requires acts { MayAct (staged_moment self.old) by.now }
        requires name { IsName name }
        ensures call { CallsFolder (staged_moment self.old) (staged_moment self.new) by.now
            (removes name) result }
        ensures next { CallsNext self.old self.new (λ before now. CallsFolder before now by.now
            (removes name) result) result }
    {
        self.journal.note(Ask::Remove(name));
        self.schedule.play_next(&mut self.others, &mut self.folder)?;
        let answer = self.folder.remove(by, name);
        settle(&mut self.journal, &answer);
        answer
    }

    fn answered(&mut self, by: &Token, status: u8)
        requires { MayAnswer (staged_moment self.old) by.now }
        ensures call { CallsFolder (staged_moment self.old) (staged_moment self.new) by.now
            (answers status) (Ok tt) }
        ensures at_once { CallsAtOnce self.old self.new (λ before now. CallsFolder before now by.now
            (answers status) (Ok tt)) }
    {
        self.journal.note(Ask::Answered(status));
        self.folder.answered(by, status);
        self.journal.done();
    }

    fn faults(&self) -> u64 {
        self.folder.faults()
    }
}

// Notes that the call that was noted last was done, where it was.
fn settle<T>(journal: &mut Journal, answer: &Result<T, FolderFault>)
    ensures { (call : Call) (older : List Entry) →
        journal.old.entries ≡ makes call was_refused ∷ older →
        journal.new.entries ≡ makes call (plain_reply answer.now) ∷ older }
{
    if answer.is_ok() {
        journal.done();
    }
}

// Notes what the listing showed that was noted last, where it was done.
fn settle_listing(journal: &mut Journal, answer: &Result<Vec<u64>, FolderFault>)
    ensures { (older : List Entry) → journal.old.entries ≡ makes lists was_refused ∷ older →
        journal.new.entries ≡ makes lists (listing_reply (locks_result answer.now)) ∷ older }
{
    if let Ok(numbers) = answer {
        journal.showed(numbers);
    }
}
