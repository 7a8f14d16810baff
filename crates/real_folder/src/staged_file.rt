// The staging file that a session writes in pieces (docs/OPERATING.md, "What is on the disk when"):
//
// 1. begun: it is made anew, and holds its first piece;
// 2. continued: further pieces are put behind that;
// 3. synced: all of it is on the disk, and then it is renamed.
//
// It stays open from the first to the last, so that it is synced once, whatever its pieces are.
use crate::files;
use crate::lock_file::LOCK_MODE;
use acct_outside::Name;
use std::fs::{File, OpenFile};
use std::io;
use std::io::Write;
use std::rt::Files;

/// What is staged holds hashes, and is its owner's until it takes on the mode of a table.
const STAGE_MODE: u32 = 0o600;

/// A staging file that is open, for pieces that are still to come.
#[derive(Drop)]
pub(crate) struct StagedFile {
    name: Name,
    file: File,
}

impl StagedFile {
    /// Makes the file anew with its first piece, so that nobody reads it who could read what stood
    /// there.
    pub(crate) fn begun<R: Files<File = File>>(
        rt: &R,
        name: Name,
        path: &str,
        piece: &[u8],
    ) -> io::Result<Self> {
        let mut file = files::renew(rt, path, mode_of(name))?;
        file.write_all(piece)?;
        Ok(StagedFile { name, file })
    }

    /// Whether it stands at the name.
    pub(crate) fn is_at(&self, name: Name) -> bool {
        self.name == name
    }

    /// Puts a piece behind what it holds.
    pub(crate) fn push(&mut self, piece: &[u8]) -> io::Result<()> {
        self.file.write_all(piece)
    }

    /// Makes all its pieces last, with its mode and owner.
    pub(crate) fn sync(&self) -> io::Result<()> {
        self.file.sync_all()
    }
}

// The mode of what is written at a name. All may read a freed lock.
fn mode_of(name: Name) -> u32 {
    match name {
        Name::FreeStage => LOCK_MODE,
        _ => STAGE_MODE,
    }
}
