// What a real folder does at the staging names: a file is written in pieces, and renamed once all of it is on
// the disk (docs/OPERATING.md, "What is on the disk when").
ghost use Rattle.std.specs.Prelude.{◌≡◌};

use super::RealFolder;
use crate::faults::SystemError;
use crate::files;
use crate::lock_file::remove_left_over;
use crate::staged_file::StagedFile;
use acct_outside::Name;
use std::fs::File;
use std::rt::{Clock, Files};
use std::{fs, io};

impl<R: Files<File = File> + Clock + AllocGlobal + Clone + Drop> RealFolder<R> {
    /// Begins a staging file with its first piece, and with the access of the table that it is for. Of
    /// what is to be a backup only the rename knows the table.
    pub(super) fn begin_at(
        &mut self,
        name: Name,
        path: &str,
        table: &str,
        piece: &[u8],
    ) -> Result<(), SystemError>
        ensures faults { self.new.faults.count ≡ self.old.faults.count }
        ensures journal { self.new.place.journal.entries ≡ self.old.place.journal.entries }
    {
        self.staged = None;
        let file = self.at(path, StagedFile::begun(&self.rt, name, path, piece))?;
        if let Name::Staged(_) = name {
            files::take_on(&self.rt, path, table)?;
        }
        self.staged = Some(file);
        Ok(())
    }

    /// Puts a piece behind what the session stages at the name. Where a piece fails, the file is let go.
    pub(super) fn continue_at(
        &mut self,
        name: Name,
        path: &str,
        piece: &[u8],
    ) -> Result<(), SystemError>
        ensures faults { self.new.faults.count ≡ self.old.faults.count }
        ensures journal { self.new.place.journal.entries ≡ self.old.place.journal.entries }
    {
        let Some(mut file) = self.take_staged(name) else {
            let absent = io::Error::new(io::ErrorKind::NotFound, "not being staged");
            return self.at(path, Err(absent));
        };
        let pushed = file.push(piece);
        if pushed.is_err() {
            remove_part(&self.rt, path);
        } else {
            self.staged = Some(file);
        }
        self.at(path, pushed)
    }

    // The file that the session stages at the name, which it lets go.
    fn take_staged(&mut self, name: Name) -> Option<StagedFile>
        ensures faults { self.new.faults.count ≡ self.old.faults.count }
        ensures journal { self.new.place.journal.entries ≡ self.old.place.journal.entries }
    {
        match self.staged.take() {
            Some(file) => if file.is_at(name) { Some(file) } else { None },
            None => None,
        }
    }

    // Makes what the session stages at the name last, and lets it go.
    fn sync_staged(&mut self, name: Name, path: &str) -> Result<(), SystemError>
        ensures faults { self.new.faults.count ≡ self.old.faults.count }
        ensures journal { self.new.place.journal.entries ≡ self.old.place.journal.entries }
    {
        match self.take_staged(name) {
            Some(file) => self.at(path, file.sync()),
            None => Ok(()),
        }
    }

    /// Renames a file to a name, once all that the session staged there is on the disk. The rename to
    /// the intent is the commit, and is to last once it is answered. With the freed lock go those of
    /// shadow-utils, and what others left over.
    pub(super) fn rename_to(
        &mut self,
        from: Name,
        to: Name,
        old: &str,
        new: &str,
        table: &str,
    ) -> Result<(), SystemError>
        ensures faults { self.new.faults.count ≡ self.old.faults.count }
        ensures journal { self.new.place.journal.entries ≡ self.old.place.journal.entries }
    {
        if let Name::Backup(_) = to {
            files::take_on(&self.rt, old, table)?;
        }
        self.sync_staged(from, old)?;
        if let Name::Lock(_) = to {
            self.shadow_locks.let_go(&self.rt);
            let _ = remove_left_over(&self.rt, self.place.etc.as_str());
        }
        self.at(new, fs::rename(&self.rt, old, new))?;
        if to == Name::Intent {
            self.sync_folder()?;
        }
        Ok(())
    }
}

/// The table whose mode and owner go with what is staged for it or is its backup.
pub(super) fn model_of(name: Name) -> Name {
    match name {
        Name::Staged(table) | Name::Backup(table) => Name::Table(table),
        other => other,
    }
}

/// Removes what a write or an append has left that failed: a part of a file would only fill the disk.
pub(super) fn remove_part<R: Files>(rt: &R, path: &str) {
    let _ = files::remove(rt, path);
}
