// The calls of the folder DIR/etc on a file system. It tells no history; each call is noted, as refused
// until it is done.
ghost use Rattle.real_folder.specs.Untold.{untold};

use super::staging::{model_of, remove_part};
use super::{RealFolder, held_text};
use crate::names::etc_of;
use crate::verdict::{ends_unseen, verdict_of};
use acct_outside::{Ask, Created, Folder, FolderFault, Found, Name, Token, Verdict};
use acct_text::{Bytes, Word};
use std::fs::File;
use std::io;
use std::rt::{Clock, Files};

impl<R: Files<File = File> + Clock + AllocGlobal + Clone + Drop> Folder for RealFolder<R> {
    ghost moment = { λ folder. untold folder.faults.count folder.place.journal.entries };

    fn enter(&mut self, prefix: &Bytes) -> Result<(), FolderFault> {
        self.place.journal.note(Ask::Enter(prefix));
        let etc = etc_of(self.rt.alloc(), prefix)?;
        self.place.take_name(etc);
        Ok(())
    }

    fn begin(&mut self, words: &[Word], input: &Bytes, day: u32) -> Result<Token, FolderFault> {
        self.place.journal.note(Ask::Begin(words, input, day));
        let token = self.own_token();
        self.answer_look(token)
    }

    fn locks(&mut self, _by: &Token) -> Result<Vec<u64>, FolderFault> {
        self.place.journal.note(Ask::Locks);
        let numbers = self.at(self.place.etc.as_str(), self.lock_numbers());
        let numbers = self.answer_look(numbers)?;
        self.place.journal.showed(&numbers);
        Ok(numbers)
    }

    fn read(&mut self, _by: &Token, name: Name, limit: u64) -> Result<Found, FolderFault> {
        self.place.journal.note(Ask::Read(name));
        let path = self.path(name)?;
        let found = self.read_at(name, path.as_str(), limit);
        if let Name::Lock(_) = name {
            self.judged = path;
        }
        self.answer_look(found)
    }

    fn verdict(&mut self, by: &Token, token: &Token) -> Result<Verdict, FolderFault> {
        self.place.journal.note(Ask::Verdict(token));
        let text = held_text(self.rt.alloc(), token)?;
        let verdict = verdict_of(&self.rt, by, token, self.judged.as_str(), text.as_slice());
        self.answer_look(verdict)
    }

    fn create(&mut self, by: &Token, number: u64) -> Result<Created, FolderFault> {
        self.place.journal.note(Ask::Create(number));
        if ends_unseen(by) {
            let unseen = self.at(self.place.etc.as_str(), Err(no_proc()));
            return self.answer_change(unseen);
        }
        let alloc = self.rt.alloc();
        self.shadow_locks.name(alloc, self.place.etc.as_str())?;
        let lock = self.path(Name::Lock(number))?;
        let own = self.own_path(by)?;
        let text = held_text(self.rt.alloc(), by)?;
        let created = self.make_lock(own, lock.as_str(), text.as_slice());
        self.answer_change(created)
    }

    fn write(&mut self, _by: &Token, name: Name, piece: &[u8]) -> Result<(), FolderFault> {
        self.place.journal.note(Ask::Write(name, piece));
        let path = self.path(name)?;
        let table = self.path(model_of(name))?;
        let begun = self.begin_at(name, path.as_str(), table.as_str(), piece);
        if begun.is_err() {
            remove_part(&self.rt, path.as_str());
        }
        self.answer_change(begun)
    }

    // The piece goes behind those that this session wrote there. What another left there is no part of
    // what it stages, so it fails.
    fn append(&mut self, _by: &Token, name: Name, piece: &[u8]) -> Result<(), FolderFault> {
        self.place.journal.note(Ask::Append(name, piece));
        let path = self.path(name)?;
        let continued = self.continue_at(name, path.as_str(), piece);
        self.answer_change(continued)
    }

    fn rename(&mut self, _by: &Token, from: Name, to: Name) -> Result<(), FolderFault> {
        self.place.journal.note(Ask::Rename(from, to));
        let old = self.path(from)?;
        let new = self.path(to)?;
        let table = self.path(model_of(to))?;
        let renamed = self.rename_to(from, to, old.as_str(), new.as_str(), table.as_str());
        self.answer_change(renamed)
    }

    fn remove(&mut self, _by: &Token, name: Name) -> Result<(), FolderFault> {
        self.place.journal.note(Ask::Remove(name));
        let path = self.path(name)?;
        self.staged = None;
        let removed = self.remove_at(name, path.as_str());
        self.answer_change(removed)
    }

    // The session ends with its process, which the verdict of others tells.
    fn answered(&mut self, _by: &Token, status: u8) {
        self.place.journal.note(Ask::Answered(status));
        self.staged = None;
        self.shadow_locks.let_go(&self.rt);
        if let Some(file) = &mut self.lock_file {
            file.forget(&self.rt);
        }
        self.place.journal.done();
    }

    fn faults(&self) -> u64 {
        self.faults.count
    }
}

// The error of a session whose end nobody can tell.
fn no_proc() -> io::Error {
    io::Error::other("no locks of the kernel here, and no /proc: mount /proc")
}
