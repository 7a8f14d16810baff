// The file of a lock (docs/LOCK.md, "How a lock is made"), which the create of the lock makes:
//
// 1. claimed: it is made under a name that no other session uses, and the kernel locks it (flock(2));
// 2. filled: it holds its whole text, on the disk;
// 3. placed: a hard link gives it the name of the lock, in one step and only where nothing stands there.
//
// The kernel lets go of it when the last process that holds it open ends, in whichever namespace.
use crate::files;
use crate::names::is_own_name;
use acct_outside::{Created, LOCK_LIMIT};
use std::fs::{File, Permissions, TryLockError};
use std::io::{ErrorKind, Read};
use std::os::unix::fs::{MetadataExt, PermissionsExt};
use std::rt::Files;
use std::{fs, io};

/// All may read who holds a lock.
pub(crate) const LOCK_MODE: u32 = 0o644;

/// Nobody else may open a file that isn't locked yet, as he could lock it first.
const CLAIM_MODE: u32 = 0o600;

/// How often a claim is begun anew before it gives up.
const CLAIMS: usize = 100;

/// Whether the kernel has locked a file for the session that holds it open.
#[derive(Clone, Copy, PartialEq, Eq)]
pub(crate) enum Hold {
    /// It has.
    Kernel,
    /// It hasn't: the file system has no such locks, and the text of the lock alone tells its holder.
    Text,
}

/// How a lock is held in a folder: whether the kernel locks the folder itself, shared and for this moment,
/// tells whether it locks files there. So nothing is made or written, and who may only read can ask.
pub(crate) fn hold_in<R: Files<File = File>>(rt: &R, etc: &str) -> io::Result<Hold> {
    match File::open(rt, etc)?.try_lock_shared() {
        Ok(()) | Err(TryLockError::WouldBlock) => Ok(Hold::Kernel),
        Err(TryLockError::Error(_)) => Ok(Hold::Text),
    }
}

/// The file of a session's lock, open until the session ends.
#[derive(Drop)]
pub(crate) struct LockFile {
    file: File,
    hold: Hold,
    /// The session's own name for it, until it bears the lock's.
    own: Option<String>,
}

// Makes an empty file at a path where nothing stands, and has the kernel lock it. Without such locks
// it is removed again, and none is given.
//
// Before it is locked a keeper may take it for one that was left over, and remove it: then the claim
// begins anew.
fn claim<R: Files<File = File>>(rt: &R, path: &str) -> io::Result<Option<File>> {
    for _ in 0..CLAIMS {
        let file = files::make(rt, path, CLAIM_MODE)?;
        if file.lock().is_err() {
            files::remove(rt, path)?;
            return Ok(None);
        }
        if stands_at(rt, &file, path)? {
            return Ok(Some(file));
        }
    }
    Err(io::Error::from(ErrorKind::TimedOut))
}

/// Whether the path is one of the file's names.
pub(crate) fn stands_at<R: Files>(rt: &R, file: &File, path: &str) -> io::Result<bool> {
    let own = file.metadata()?;
    match fs::symlink_metadata(rt, path) {
        Ok(standing) => Ok(standing.dev() == own.dev() && standing.ino() == own.ino()),
        Err(e) if e.kind() == ErrorKind::NotFound => Ok(false),
        Err(e) => Err(e),
    }
}

/// A file that was claimed, and how it is held.
#[derive(Drop)]
pub(crate) struct Claimed {
    /// The file, which is empty.
    pub file: File,
    /// Whether the kernel has locked it.
    pub hold: Hold,
}

impl Claimed {
    /// Claims a file under the session's own name. Where the kernel locks no file nothing but its text
    /// will keep it.
    pub(crate) fn at<R: Files<File = File>>(rt: &R, own: &str, hold: Hold) -> io::Result<Self> {
        let locked = match hold {
            Hold::Kernel => claim_own(rt, own)?,
            Hold::Text => None,
        };
        match locked {
            Some(file) => Ok(Claimed {
                file,
                hold: Hold::Kernel,
            }),
            None => Ok(Claimed {
                file: files::make(rt, own, CLAIM_MODE)?,
                hold: Hold::Text,
            }),
        }
    }
}

// Claims a file as `claim` does, in place of one that a process left which had the number and the start of
// this one and was stopped.
fn claim_own<R: Files<File = File>>(rt: &R, own: &str) -> io::Result<Option<File>> {
    match claim(rt, own) {
        Err(e) if e.kind() == ErrorKind::AlreadyExists => {
            remove_unheld(rt, own)?;
            claim(rt, own)
        }
        claimed => claimed,
    }
}

impl LockFile {
    /// The file that was claimed under the session's own name.
    pub(crate) fn new(claimed: Claimed, own: String) -> Self {
        LockFile {
            file: claimed.file,
            hold: claimed.hold,
            own: Some(own),
        }
    }

    /// Fills the file and gives it the lock's name, in place of its own.
    pub(crate) fn place<R: Files<File = File>>(
        &mut self,
        rt: &R,
        lock: &str,
        text: &[u8],
    ) -> io::Result<Created> {
        self.fill(text)?;
        let linked = self.link(rt, lock);
        self.forget(rt);
        match linked {
            Err(e) if e.kind() == ErrorKind::AlreadyExists => Ok(Created::Exists),
            Err(e) if has_no_links(&e) => self.make_in_place(rt, lock, text),
            linked => linked.map(|_| Created::Done),
        }
    }

    // Writes the text of the lock to the disk, for all to read.
    fn fill(&mut self, text: &[u8]) -> io::Result<()> {
        self.file
            .set_permissions(Permissions::from_mode(LOCK_MODE))?;
        files::fill(&mut self.file, text)
    }

    // Gives the file the lock's name beside its own.
    fn link<R: Files<File = File>>(&self, rt: &R, lock: &str) -> io::Result<()> {
        match &self.own {
            Some(own) => fs::hard_link(rt, own.as_str(), lock),
            None => Err(io::Error::from(ErrorKind::NotFound)),
        }
    }

    /// Removes the session's own name, where it stands. One that stays harms nobody, and the next keeper
    /// removes it.
    pub(crate) fn forget<R: Files<File = File>>(&mut self, rt: &R) {
        if let Some(own) = self.own.take() {
            let _ = fs::remove_file(rt, own.as_str());
        }
    }

    // Makes the file anew under the lock's name, where the file system has no hard links. There it is
    // empty until it is filled, and is removed again where it can't be.
    fn make_in_place<R: Files<File = File>>(
        &mut self,
        rt: &R,
        lock: &str,
        text: &[u8],
    ) -> io::Result<Created> {
        match make_held(rt, lock, self.hold) {
            Err(e) if e.kind() == ErrorKind::AlreadyExists => return Ok(Created::Exists),
            file => self.file = file?,
        }
        if let Err(e) = self.fill(text) {
            let _ = fs::remove_file(rt, lock);
            return Err(e);
        }
        Ok(Created::Done)
    }
}

// Makes an empty file at a path where nothing stands, held as its token tells.
fn make_held<R: Files<File = File>>(rt: &R, path: &str, hold: Hold) -> io::Result<File> {
    match hold {
        Hold::Kernel => claim(rt, path)?.ok_or(io::Error::from(ErrorKind::Unsupported)),
        Hold::Text => files::make(rt, path, CLAIM_MODE),
    }
}

/// Whether the error says that the file system has no hard links (link(2), EPERM and EOPNOTSUPP).
pub(crate) fn has_no_links(error: &io::Error) -> bool {
    error.kind() == ErrorKind::PermissionDenied || error.kind() == ErrorKind::Unsupported
}

/// How a lock is kept, as one open of its file tells.
#[derive(Clone, Copy, PartialEq, Eq)]
pub(crate) enum Keeping {
    /// It is gone, or its text is another: its holder has moved on.
    Moved,
    /// The kernel still has it locked, or doesn't say.
    Locked,
    /// Nobody has it locked.
    Free,
}

/// How the lock with this text is kept.
///
/// The text and the kernel are asked of one open file, as another may bear the name by then: one that
/// is free stands there unlocked, though the former holder may not have ended.
pub(crate) fn keeping_of<R: Files<File = File> + AllocGlobal>(
    rt: &R,
    lock: &str,
    text: &[u8],
) -> io::Result<Keeping> {
    let file = match File::open(rt, lock) {
        Err(e) if e.kind() == ErrorKind::NotFound => return Ok(Keeping::Moved),
        file => file?,
    };
    let mut bytes = Vec::new(rt.alloc());
    (&file).take(LOCK_LIMIT).read_to_end(&mut bytes)?;
    if bytes.as_slice() != text {
        return Ok(Keeping::Moved);
    }
    match file.try_lock_shared() {
        Ok(()) => Ok(Keeping::Free),
        Err(_) => Ok(Keeping::Locked),
    }
}

/// Removes the files that sessions left under names of their own when they were stopped, each that
/// nobody holds.
pub(crate) fn remove_left_over<R: Files<File = File> + AllocGlobal + Clone + Drop>(
    rt: &R,
    etc: &str,
) -> io::Result<()> {
    for entry in fs::read_dir(rt, etc)? {
        let entry = entry?;
        if is_own_name(entry.file_name()) && entry.metadata()?.is_file() {
            remove_unheld(rt, entry.path().as_str())?;
        }
    }
    Ok(())
}

// Removes a file that nobody holds. It is locked meanwhile, so that nobody claims it.
fn remove_unheld<R: Files<File = File>>(rt: &R, path: &str) -> io::Result<()> {
    let file = File::open(rt, path)?;
    match file.try_lock_shared() {
        Ok(()) => fs::remove_file(rt, path),
        Err(_) => Ok(()),
    }
}
