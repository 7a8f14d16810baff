// The folder of the account files as a session sees it.
ghost use Rattle.std.specs.Prelude.{◌≡◌, All, IfOk, IsErrOf, Ok};
ghost use Rattle.std.specs.List.Sorted.{IsNonDecreasing};
ghost use Rattle.acct_outside.specs.Calls.{asks, creates, writes, appends, renames, removes, answers};
ghost use Rattle.acct_outside.specs.Moment.{Moment};
ghost use Rattle.acct_outside.specs.Contract.{IsName, IsLockNumber, NeverAdmits, MayAct, MayAnswer, EntersFolder, BeginsSession, ListsLocks, ReadsFolder, CallsFolder, IsWithinLimit};

use crate::{Created, FolderFault, Found, Name, Token, Verdict};
use acct_text::{Bytes, Word};

/// A folder of account files, as a session sees it.
///
/// It may tell its history: then each call but `enter` and `faults` extends it by events of other
/// sessions that the folder admits, and then by its own. Each call answers `Failed` only where the
/// count of faults rose, and may then have happened or not. At `Memory` the call changed nothing and
/// has no event. Each call but `faults` is noted in the folder's journal, whatever it came to.
pub trait Folder {
    /// What the folder tells of itself: the history, where it tells one, which event of another
    /// session may come next, how often it has failed, and what it was asked.
    ghost moment: { Self → Moment };

    /// Names the folder by the prefix, for all calls from then on. It answers `Memory` alone, and then
    /// the folder has the name that it had.
    fn enter(&mut self, prefix: &Bytes) -> Result<(), FolderFault>
        ensures memory { ¬ (IsErrOf result FolderFault.Failed) }
        ensures call { EntersFolder (moment self.old) (moment self.new) prefix.now result };

    /// Begins a session, and gives it a token that no earlier begin gave.
    fn begin(&mut self, words: &[Word], input: &Bytes, day: u32) -> Result<Token, FolderFault>
        ensures call { BeginsSession (moment self.old) (moment self.new)
            (record { words = words.now; input = input.now; day = day }) result }
        ensures own { IfOk result (NeverAdmits (moment self.new).admits) };

    /// The numbers of the locks that stand, of one moment and ascending.
    fn locks(&mut self, by: &Token) -> Result<Vec<u64>, FolderFault>
        requires { MayAct (moment self.old) by.now }
        ensures call { ListsLocks (moment self.old) (moment self.new) by.now result }
        ensures numbers { IfOk result (λ numbers. All IsLockNumber numbers.items) }
        ensures ascending { IfOk result (λ numbers. IsNonDecreasing numbers.items) };

    /// What stands at the name: `TooLarge` exactly where it has more bytes than the limit.
    fn read(&mut self, by: &Token, name: Name, limit: u64) -> Result<Found, FolderFault>
        requires acts { MayAct (moment self.old) by.now }
        requires name { IsName name }
        ensures call { ReadsFolder (moment self.old) (moment self.new) by.now name limit result }
        ensures limit { IfOk result (IsWithinLimit limit) };

    /// Whether a session still runs: from its begin until it has answered or died. Dead is told only
    /// of one that doesn't.
    fn verdict(&mut self, by: &Token, token: &Token) -> Result<Verdict, FolderFault>
        requires { MayAct (moment self.old) by.now }
        ensures { CallsFolder (moment self.old) (moment self.new) by.now (asks token.now) result };

    /// Makes a lock with the text `held BY` and a newline, and answers `Exists` exactly where the name
    /// stands. Others see the whole text or no lock.
    fn create(&mut self, by: &Token, number: u64) -> Result<Created, FolderFault>
        requires acts { MayAct (moment self.old) by.now }
        requires number { IsLockNumber number }
        ensures { CallsFolder (moment self.old) (moment self.new) by.now (creates number) result };

    /// Replaces the whole file by the piece, which later appends may follow. A failed write leaves any
    /// bytes or nothing at its name.
    fn write(&mut self, by: &Token, name: Name, piece: &[u8]) -> Result<(), FolderFault>
        requires acts { MayAct (moment self.old) by.now }
        requires name { IsName name }
        ensures { CallsFolder (moment self.old) (moment self.new) by.now (writes name piece.now)
            result };

    /// Adds the piece at the end of the file. Where nothing stands there, it fails. A failed append
    /// leaves any bytes or nothing at its name.
    fn append(&mut self, by: &Token, name: Name, piece: &[u8]) -> Result<(), FolderFault>
        requires acts { MayAct (moment self.old) by.now }
        requires name { IsName name }
        ensures { CallsFolder (moment self.old) (moment self.new) by.now (appends name piece.now)
            result };

    /// Moves what stands at a name over another. Where nothing stands there, it fails.
    fn rename(&mut self, by: &Token, from: Name, to: Name) -> Result<(), FolderFault>
        requires acts { MayAct (moment self.old) by.now }
        requires from { IsName from }
        requires to { IsName to }
        ensures { CallsFolder (moment self.old) (moment self.new) by.now (renames from to) result };

    /// Removes what stands at the name, if anything does.
    fn remove(&mut self, by: &Token, name: Name) -> Result<(), FolderFault>
        requires acts { MayAct (moment self.old) by.now }
        requires name { IsName name }
        ensures { CallsFolder (moment self.old) (moment self.new) by.now (removes name) result };

    /// The last event of a session. It takes no memory and can't be refused.
    fn answered(&mut self, by: &Token, status: u8)
        requires { MayAnswer (moment self.old) by.now }
        ensures { CallsFolder (moment self.old) (moment self.new) by.now (answers status) (Ok tt) };

    /// How often the folder has failed. A count that stands at 18,446,744,073,709,551,615 has risen.
    fn faults(&self) -> u64
        ensures { result ≡ (moment self.now).faults };
}
