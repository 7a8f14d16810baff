// The folder DIR/etc on a file system, trusted to do what it is asked: what its calls do there is a few
// lines over whole files. What each step relies on is on the disk before it (docs/OPERATING.md, "What is
// on the disk when").
ghost use Rattle.std.specs.Prelude.{◌≡◌, ◌↔◌, Ok, All, IsOk, IfOk, IsErrOf, string_bytes};
ghost use Rattle.std.specs.List.Sorted.{IsNonDecreasing};
ghost use Rattle.acct_outside.specs.declared.FolderFault.TheVariants.{Failed};
ghost use Rattle.acct_outside.specs.Contract.{IsLockNumber, IsWithinLimit};
ghost use Rattle.acct_outside.specs.Faults.{CountsFailure};
ghost use Rattle.acct_outside.specs.Journal.{Settles, replied, was_done};
ghost use Rattle.acct_outside.specs.Tokens.{held_text as held};
ghost use Rattle.real_folder.specs.Paths.{IsOfCall, etc_after, path_at};

use crate::faults::{Faults, SystemError, about};
use crate::files;
use crate::files::Links;
use crate::lock_file::{Claimed, Hold, LockFile, hold_in};
use crate::names::{lock_number, own_path, path_of};
use crate::process::{locked_token, own_identity};
use crate::shadow_locks::{ShadowLocks, shadow_lock_file};
use crate::staged_file::StagedFile;
use acct_outside::{Created, FolderFault, Found, Journal, Name, Token};
use acct_text::Bytes;
use std::alloc::{AllocError, Global};
use std::fs::File;
use std::rt::{Clock, Files};
use std::{fs, io};

mod calls;
mod staging;

/// DIR/etc on a file system, for one session: its token is that of the process, and its lock is held
/// until the folder is dropped.
#[derive(Drop)]
pub struct RealFolder<R: Files<File = File> + Clock + AllocGlobal + Clone + Drop> {
    rt: R,
    /// The number of the process.
    process: u32,
    place: Place,
    /// How the session's lock is held, as its token tells.
    hold: Hold,
    /// The file of the session's lock, from its create on.
    lock_file: Option<LockFile>,
    /// The lock files of shadow-utils, from the create of the session's lock until that is freed.
    shadow_locks: ShadowLocks,
    /// The staging file that the session wrote last, until it is renamed.
    staged: Option<StagedFile>,
    /// The path of the lock that was read last, empty where none was: a verdict is on its holder.
    judged: String,
    faults: Faults,
}

/// The path of the folder, with what it was asked.
#[derive(Drop)]
struct Place {
    /// The path of DIR/etc, empty until `enter` named it.
    etc: String,
    journal: Journal,
    /// The path is that of the prefix by which the folder was named last.
    ghost named: { string_bytes etc ≡ etc_after journal.entries },
}

impl Place {
    // Takes the path of the prefix by which the folder was asked to be named just now.
    fn take_name(&mut self, etc: String)
        requires { string_bytes etc ≡ etc_after (replied was_done self.old.journal.entries) }
        ensures { self.new.journal.entries ≡ replied was_done self.old.journal.entries }
    {
        self.etc = etc;
        self.journal.done();
    }
}

impl<R: Files<File = File> + Clock + AllocGlobal + Clone + Drop> RealFolder<R> {
    /// A folder that isn't named yet, for a session of the process with this number (getpid(2)).
    pub fn new(rt: R, process: u32) -> Self {
        let place = Place {
            etc: String::new(rt.alloc()),
            journal: Journal::new(),
        };
        let judged = String::new(rt.alloc());
        let shadow_locks = ShadowLocks::new(rt.alloc());
        RealFolder {
            rt,
            process,
            place,
            hold: Hold::Kernel,
            lock_file: None,
            shadow_locks,
            staged: None,
            judged,
            faults: Faults::new(),
        }
    }

    /// Why the system last refused a call.
    pub fn last_error(&self) -> Option<&SystemError> {
        self.faults.last.as_ref()
    }

    // Where the name stands.
    fn path(&self, name: Name) -> Result<String, AllocError>
        ensures { IfOk result (λ p. string_bytes p ≡ path_at (string_bytes self.now.place.etc) name) }
    {
        path_of(self.rt.alloc(), self.place.etc.as_str(), name)
    }

    // Where the file stands that the session fills before it is its lock.
    fn own_path(&self, by: &Token) -> Result<String, AllocError> {
        let by = String::from_utf8_lossy(self.rt.alloc(), by.as_slice())?;
        own_path(self.rt.alloc(), self.place.etc.as_str(), by.as_str())
    }

    // What the system answered about a path.
    fn at<T>(&self, path: &str, done: io::Result<T>) -> Result<T, SystemError>
        ensures { IfOk result (λ value. done ≡ Ok value) }
    {
        about(self.rt.alloc(), path, done)
    }

    // Answers a call that changes nothing: an error of the system is want of memory, or counted. A call
    // that was done is noted as such.
    fn answer_look<T>(&mut self, found: Result<T, SystemError>) -> Result<T, FolderFault>
        requires { IsOfCall self.old.place.journal.entries }
        ensures answers { IsOk result ↔ IsOk found }
        ensures answer { IfOk result (λ answer. found ≡ Ok answer) }
        ensures faults { CountsFailure Failed self.old.faults.count self.new.faults.count result }
        ensures settles { Settles self.old.place.journal.entries self.new.place.journal.entries result }
    {
        match found {
            Err(e) if e.kind() == io::ErrorKind::OutOfMemory => Err(FolderFault::Memory),
            found => self.answer_change(found),
        }
    }

    // Answers a call that changes files: each error of the system is counted, also want of memory
    // there, since the change may have happened. A call that was done is noted as such.
    fn answer_change<T>(&mut self, done: Result<T, SystemError>) -> Result<T, FolderFault>
        requires { IsOfCall self.old.place.journal.entries }
        ensures answers { IsOk result ↔ IsOk done }
        ensures answer { IfOk result (λ answer. done ≡ Ok answer) }
        ensures never_memory { ¬ (IsErrOf result FolderFault.Memory) }
        ensures faults { CountsFailure Failed self.old.faults.count self.new.faults.count result }
        ensures settles { Settles self.old.place.journal.entries self.new.place.journal.entries result }
    {
        match done {
            Ok(answer) => {
                self.place.journal.done();
                Ok(answer)
            }
            Err(error) => {
                self.faults.note(error);
                Err(FolderFault::Failed)
            }
        }
    }

    // The token of the session, which tells how the folder's file system lets it hold a lock. No file is
    // made: that is left to the create of the lock.
    fn own_token(&mut self) -> Result<Token, SystemError>
        ensures faults { self.new.faults.count ≡ self.old.faults.count }
        ensures journal { self.new.place.journal.entries ≡ self.old.place.journal.entries }
    {
        let alloc = self.rt.alloc();
        self.hold = self.at(
            self.place.etc.as_str(),
            hold_in(&self.rt, self.place.etc.as_str()),
        )?;
        let identity = own_identity(&self.rt, self.process)?;
        match self.hold {
            Hold::Kernel => token_of(alloc, &locked_token(alloc, identity.as_str())?),
            Hold::Text => token_of(alloc, &identity),
        }
    }

    // The numbers of the locks in the folder, ascending.
    fn lock_numbers(&self) -> io::Result<Vec<u64>>
        ensures numbers { IfOk result (λ numbers. All IsLockNumber numbers.items) }
        ensures ascending { IfOk result (λ numbers. IsNonDecreasing numbers.items) }
    {
        let mut numbers = Vec::new(self.rt.alloc());
        self.push_numbers(&mut numbers)?;
        numbers.sort()?;
        Ok(numbers)
    }

    // Pushes the numbers of the locks in the folder.
    fn push_numbers(&self, numbers: &mut Vec<u64>) -> io::Result<()>
        requires { All IsLockNumber numbers.old.items }
        ensures { All IsLockNumber numbers.new.items }
    {
        for entry in fs::read_dir(&self.rt, self.place.etc.as_str())? {
            if let Some(number) = lock_number(entry?.file_name()) {
                numbers.push(number)?;
            }
        }
        Ok(())
    }

    // Reads a file. An intent that is found is to last before anyone carries it out.
    fn read_at(&self, name: Name, path: &str, limit: u64) -> Result<Found, SystemError>
        ensures { IfOk result (IsWithinLimit limit) }
    {
        let found = self.at(path, files::read(&self.rt, path, links_at(name), limit))?;
        if name == Name::Intent && !matches!(found, Found::Absent) {
            self.sync_folder()?;
        }
        Ok(found)
    }

    // Makes what was renamed in the folder last.
    fn sync_folder(&self) -> Result<(), SystemError> {
        let etc = self.place.etc.as_str();
        self.at(etc, files::sync_folder(&self.rt, etc))
    }

    // Takes the lock files of shadow-utils, by a file that has the session's own name meanwhile.
    fn take_shadow_locks(&mut self, own: &str, lock: &str) -> Result<(), SystemError>
        ensures faults { self.new.faults.count ≡ self.old.faults.count }
        ensures journal { self.new.place.journal.entries ≡ self.old.place.journal.entries }
    {
        let made = shadow_lock_file(&self.rt, own, self.hold, self.process);
        let file = self.at(lock, made)?;
        self.shadow_locks.take(&self.rt, self.process, file, own)
    }

    // Claims a file and makes a lock of it.
    fn make_lock(&mut self, own: String, lock: &str, text: &[u8]) -> Result<Created, SystemError>
        ensures faults { self.new.faults.count ≡ self.old.faults.count }
        ensures journal { self.new.place.journal.entries ≡ self.old.place.journal.entries }
    {
        self.take_shadow_locks(own.as_str(), lock)?;
        let claimed = self.at(lock, Claimed::at(&self.rt, own.as_str(), self.hold))?;
        let mut file = LockFile::new(claimed, own);
        let placed = self.at(lock, file.place(&self.rt, lock, text));
        self.lock_file = Some(file);
        placed
    }

    // Removes the file of a name. Before the intent goes, by which a recovery redoes them, the renames
    // to the tables are to last.
    fn remove_at(&self, name: Name, path: &str) -> Result<(), SystemError> {
        if name == Name::Intent {
            self.sync_folder()?;
        }
        self.at(path, files::remove(&self.rt, path))
    }
}

// The text of a lock that the session holds.
fn held_text(alloc: Global, by: &Token) -> Result<Bytes, AllocError>
    ensures { IfOk result (λ text. text ≡ held by.now) }
{
    let mut text = Bytes::of(alloc, b"held ")?;
    text.push(by.as_slice())?;
    text.push(b"\n")?;
    Ok(text)
}

// The token that the text is.
fn token_of(alloc: Global, text: &String) -> Result<Token, SystemError> {
    match Token::read(alloc, text.as_str().as_bytes())? {
        Some(token) => Ok(token),
        None => Err(SystemError::from(io::Error::other("/proc gives no token"))),
    }
}

// Whether a link may stand at the name. Only login.defs(5) is never replaced.
fn links_at(name: Name) -> Links {
    match name {
        Name::Defs => Links::Followed,
        _ => Links::Refused,
    }
}
