// The lock files of shadow-utils (docs/LOCK.md, "Beside shadow-utils"), which the create of the suite's
// lock takes before it makes that:
//
// 1. made: a file under the session's own name tells the number of its process, and the kernel locks it;
// 2. taken: hard links give it the names of the six locks, where nothing stands or what the dead left;
// 3. let go: these names are removed, and then the kernel's lock goes.
use crate::faults::{SystemError, about};
use crate::files;
use crate::lock_file::{Claimed, Hold, has_no_links, stands_at};
use crate::names::shadow_lock_path;
use crate::process::has_ended;
use acct_text::{Bytes, Tab, push_decimal, read_decimal};
use std::alloc::{AllocError, Global};
use std::fs::{File, TryLockError};
use std::io::{Error, ErrorKind, Read};
use std::rt::Files;
use std::{fs, io};

/// How often a lock is tried that others take and let go meanwhile.
const TRIES: usize = 100;

/// The most bytes that shadow-utils reads of a lock.
const TEXT_LIMIT: usize = 31;

/// What stands behind the number of a process.
const TEXT_END: &[u8] = b"\0";

/// What stands there where the kernel has the file locked.
const KERNEL_END: &[u8] = b"\0flock";

/// The greatest number of a process.
const GREATEST_PROCESS: u64 = 2147483647;

/// The lock files of shadow-utils in a folder, and the file that has their names where a session took
/// them.
#[derive(Drop)]
pub(crate) struct ShadowLocks {
    /// Their paths, one for each table.
    paths: Vec<String>,
    /// The file, from their taking on.
    file: Option<File>,
}

/// Makes the file of the locks under the session's own name: the number of the process and a NUL byte,
/// as shadow-utils has it, and behind that a mark where the kernel has locked it. It is the owner's
/// alone, so that nobody else can have the kernel lock it.
pub(crate) fn shadow_lock_file<R: Files<File = File> + AllocGlobal>(
    rt: &R,
    own: &str,
    hold: Hold,
    process: u32,
) -> io::Result<File> {
    let mut claimed = Claimed::at(rt, own, hold)?;
    let text = text_of(rt.alloc(), process, claimed.hold)?;
    files::fill(&mut claimed.file, text.as_slice())?;
    Ok(claimed.file)
}

// The text of the file.
fn text_of(alloc: Global, process: u32, hold: Hold) -> Result<Bytes, AllocError> {
    let mut text = Bytes::new(alloc);
    push_decimal(&mut text, u64::from(process))?;
    text.push(match hold {
        Hold::Kernel => KERNEL_END,
        Hold::Text => TEXT_END,
    })?;
    Ok(text)
}

impl ShadowLocks {
    /// Those of no folder.
    pub(crate) fn new(alloc: Global) -> Self {
        ShadowLocks {
            paths: Vec::new(alloc),
            file: None,
        }
    }

    /// Names those of a folder.
    pub(crate) fn name(&mut self, alloc: Global, etc: &str) -> Result<(), AllocError> {
        self.paths.clear();
        for table in &Tab::all() {
            self.paths.push(shadow_lock_path(alloc, etc, *table)?)?;
        }
        Ok(())
    }

    /// Takes all of them with the file that was made under the session's own name, and removes that
    /// name. One that is held is an error that names its process, and then, as where the own name stays,
    /// none is taken.
    pub(crate) fn take<R: Files<File = File> + AllocGlobal>(
        &mut self,
        rt: &R,
        process: u32,
        file: File,
        own: &str,
    ) -> Result<(), SystemError> {
        self.file = Some(file);
        let taken = self.link_all(rt, process, own);
        let taken = taken.and(about(rt.alloc(), own, files::remove(rt, own)));
        if taken.is_err() {
            self.let_go(rt);
        }
        taken
    }

    // Gives the file with the session's own name those of the locks, one after another.
    fn link_all<R: Files<File = File> + AllocGlobal>(
        &self,
        rt: &R,
        process: u32,
        own: &str,
    ) -> Result<(), SystemError> {
        for path in &self.paths {
            about(
                rt.alloc(),
                path.as_str(),
                link(rt, process, own, path.as_str()),
            )?;
        }
        Ok(())
    }

    /// Lets all of them go, each that is still the file's.
    pub(crate) fn let_go<R: Files<File = File>>(&mut self, rt: &R) {
        if let Some(file) = self.file.take() {
            for path in &self.paths {
                let _ = remove_name(rt, &file, path.as_str());
            }
        }
    }
}

// Gives the file with the session's own name that of a lock. Where the file system has no hard links,
// shadow-utils can't lock there either, and none is given.
fn link<R: Files<File = File> + AllocGlobal>(
    rt: &R,
    process: u32,
    own: &str,
    lock: &str,
) -> io::Result<()> {
    for _ in 0..TRIES {
        match fs::hard_link(rt, own, lock) {
            Err(e) if e.kind() == ErrorKind::AlreadyExists => remove_stale(rt, process, lock)?,
            Err(e) if has_no_links(&e) => return Ok(()),
            linked => return linked,
        }
    }
    Err(Error::from(ErrorKind::TimedOut))
}

// Removes a lock whose taker has ended. Where it hasn't, the error names its process.
fn remove_stale<R: Files<File = File> + AllocGlobal>(
    rt: &R,
    process: u32,
    lock: &str,
) -> io::Result<()> {
    let file = match File::open(rt, lock) {
        Err(e) if e.kind() == ErrorKind::NotFound => return Ok(()),
        file => file?,
    };
    let mut bytes = [0u8; TEXT_LIMIT];
    let count = (&file).read(&mut bytes)?;
    let Some(taker) = Taker::read(&bytes[..count]) else {
        return Err(Error::other("held, but it names no process"));
    };
    if !taker.is_gone(rt, process, &file) {
        return Err(taker.error(rt.alloc()));
    }
    remove_name(rt, &file, lock)
}

// Removes a name of the file, where it still is one: another may have taken the lock meanwhile.
fn remove_name<R: Files>(rt: &R, file: &File, path: &str) -> io::Result<()> {
    if stands_at(rt, file, path)? {
        return files::remove(rt, path);
    }
    Ok(())
}

/// Who took a lock, as its text tells.
#[derive(Clone, Copy)]
struct Taker {
    /// The number of its process.
    process: u32,
    /// Whether the kernel has the lock's file locked for it: only this suite does so.
    hold: Hold,
}

impl Taker {
    // Who a text tells of, and none where no tool writes such a text.
    fn read(text: &[u8]) -> Option<Self> {
        let (digits, hold) = match text.strip_suffix(KERNEL_END) {
            Some(digits) => (digits, Hold::Kernel),
            None => (text.strip_suffix(TEXT_END).unwrap_or(text), Hold::Text),
        };
        match read_decimal(digits, GREATEST_PROCESS) {
            Ok(number) if number > 0 => Some(Taker {
                process: number as u32,
                hold,
            }),
            _ => None,
        }
    }

    // Whether it has ended, as a process with the number `own` asks of the lock's file. The kernel locks
    // the file meanwhile, so that of the sessions of the suite one alone removes it.
    fn is_gone<R: Files + AllocGlobal>(self, rt: &R, own: u32, file: &File) -> bool {
        match file.try_lock() {
            Err(TryLockError::WouldBlock) => false,
            Ok(()) if self.hold == Hold::Kernel => true,
            _ => has_ended(rt, own, self.process),
        }
    }

    // The error of a session that needs the lock.
    fn error(self, alloc: Global) -> Error {
        match format!(in alloc; "held by process {}", self.process) {
            Ok(words) => Error::other(words.as_str()),
            Err(e) => Error::from(e),
        }
    }
}
