// A session in the real folder, and its calls.
ghost use Rattle.acct_outside.specs.Contract.{IsName};

use crate::disk::{Disk, Lack};
use crate::names::name_of;
use crate::texts::{bytes_of, cut, push_answer, push_line, push_number, push_text};
use acct_outside::{Created, Folder, FolderFault, Found, Name, Token, Verdict};
use acct_text::{Bytes, push_decimal, read_decimal};
use real_folder::RealFolder;
use std::alloc::{AllocError, Global};
use std::fs::File;
use std::rt::{Clock, Files};
use std::{io, str};

/// A session, and the token as which it calls.
pub(crate) struct Session<R: Files<File = File> + Clock + AllocGlobal + Clone + Drop> {
    rt: R,
    /// The number of the process.
    process: u32,
    folder: RealFolder<Disk<R>>,
    by: Bytes,
}

// One call for all that it has, so that who holds it has few ways through it.
impl<R: Files<File = File> + Clock + AllocGlobal + Clone + Drop> Drop for Session<R> {
    fn drop(self) {
        let Session {
            rt: _,
            process: _,
            folder: _,
            by: _,
        } = self;
    }
}

impl<R: Files<File = File> + Clock + AllocGlobal + Clone + Drop> Session<R> {
    /// One that entered no folder.
    pub(crate) fn new(rt: &R, process: u32) -> io::Result<Self> {
        let by = Bytes::of(rt.alloc(), b"me")?;
        let folder = RealFolder::new(Disk::new(rt.clone()?, Lack::Nothing), process);
        Ok(Session {
            rt: rt.clone()?,
            process,
            folder,
            by,
        })
    }

    /// Ends, and begins another in this folder, with the token `me`.
    pub(crate) fn begin_anew(&mut self, dir: &str) -> io::Result<()> {
        self.by = Bytes::of(self.rt.alloc(), b"me")?;
        self.enter(dir, Lack::Nothing)
    }

    fn enter(&mut self, dir: &str, lack: Lack) -> io::Result<()> {
        self.folder = RealFolder::new(Disk::new(self.rt.clone()?, lack), self.process);
        let dir = bytes_of(self.rt.alloc(), dir)?;
        let _ = self.folder.enter(&dir);
        Ok(())
    }

    /// Makes a call, and shows what it answers. A token that it gives is the last one from then on.
    pub(crate) fn play(
        &mut self,
        call: &str,
        own: &mut String,
        shown: &mut Bytes,
    ) -> io::Result<()> {
        let (word, rest) = cut(call);
        match word {
            "enter" => self.enter(rest, Lack::Nothing),
            "linkless" => self.enter(rest, Lack::Links),
            "procless" => self.enter(rest, Lack::Proc),
            "stage-syncless" => self.enter(rest, Lack::StageSync),
            "folder-syncless" => self.enter(rest, Lack::FolderSync),
            "begin" => self.begin(own, shown),
            "as" => {
                self.by = Bytes::of(self.rt.alloc(), rest.as_bytes())?;
                Ok(())
            }
            _ => self.call(word, rest, shown),
        }
    }

    // Begins with no words, and keeps the token.
    fn begin(&mut self, own: &mut String, shown: &mut Bytes) -> io::Result<()> {
        let alloc = self.rt.alloc();
        match self.folder.begin(&[], &Bytes::new(alloc), 20000) {
            Ok(token) => {
                *own = text_of(alloc, &token)?;
                push_answer(shown, "done")?;
            }
            Err(_) => self.push_fault(shown)?,
        }
        Ok(())
    }

    // Makes a call as the session's token.
    fn call(&mut self, word: &str, rest: &str, shown: &mut Bytes) -> io::Result<()> {
        match Token::read(self.rt.alloc(), self.by.as_slice())? {
            Some(by) => self.call_by(&by, word, rest, shown)?,
            None => push_answer(shown, "no token")?,
        }
        Ok(())
    }

    fn call_by(
        &mut self,
        by: &Token,
        word: &str,
        rest: &str,
        shown: &mut Bytes,
    ) -> Result<(), AllocError> {
        match word {
            "locks" => self.list(by, shown),
            "verdict" => self.judge(by, rest, shown),
            "faults" => push_number(shown, self.folder.faults()),
            "answered" => {
                self.folder.answered(by, 0);
                Ok(())
            }
            _ => self.call_at(by, word, rest, shown),
        }
    }

    // Makes a call about a name.
    fn call_at(
        &mut self,
        by: &Token,
        word: &str,
        rest: &str,
        shown: &mut Bytes,
    ) -> Result<(), AllocError> {
        let (text, rest) = cut(rest);
        let Some(name) = name_of(text.as_bytes()) else {
            return push_answer(shown, "no name");
        };
        match word {
            "create" => self.create(by, name, shown),
            "read" => self.read(by, name, rest, shown),
            "rename" => self.rename(by, name, rest, shown),
            "write" => self.write(by, name, rest, shown),
            "append" => self.append(by, name, rest, shown),
            "remove" => {
                let removed = self.folder.remove(by, name);
                self.push_done(removed, shown)
            }
            _ => push_answer(shown, "no call"),
        }
    }
}

// The calls about a name, and what is shown of them.
impl<R: Files<File = File> + Clock + AllocGlobal + Clone + Drop> Session<R> {
    fn create(&mut self, by: &Token, name: Name, shown: &mut Bytes) -> Result<(), AllocError>
        requires { IsName name }
    {
        let Name::Lock(number) = name else {
            return push_answer(shown, "no lock");
        };
        match self.folder.create(by, number) {
            Ok(Created::Done) => push_answer(shown, "done"),
            Ok(Created::Exists) => push_answer(shown, "exists"),
            Err(_) => self.push_fault(shown),
        }
    }

    fn read(
        &mut self,
        by: &Token,
        name: Name,
        limit: &str,
        shown: &mut Bytes,
    ) -> Result<(), AllocError>
        requires { IsName name }
    {
        let limit = read_decimal(limit.as_bytes(), 4096).unwrap_or(0);
        match self.folder.read(by, name, limit) {
            Ok(Found::Held(text)) => push_text(shown, b" held ", text.as_slice()),
            Ok(Found::TooLarge) => push_answer(shown, "too large"),
            Ok(Found::Absent) => push_answer(shown, "absent"),
            Err(_) => self.push_fault(shown),
        }
    }

    fn rename(
        &mut self,
        by: &Token,
        from: Name,
        to: &str,
        shown: &mut Bytes,
    ) -> Result<(), AllocError>
        requires { IsName from }
    {
        let Some(to) = name_of(to.as_bytes()) else {
            return push_answer(shown, "no name");
        };
        let renamed = self.folder.rename(by, from, to);
        self.push_done(renamed, shown)
    }

    fn write(
        &mut self,
        by: &Token,
        name: Name,
        text: &str,
        shown: &mut Bytes,
    ) -> Result<(), AllocError>
        requires { IsName name }
    {
        let text = bytes_of(self.rt.alloc(), text)?;
        let written = self.folder.write(by, name, text.as_slice());
        self.push_done(written, shown)
    }

    fn append(
        &mut self,
        by: &Token,
        name: Name,
        text: &str,
        shown: &mut Bytes,
    ) -> Result<(), AllocError>
        requires { IsName name }
    {
        let text = bytes_of(self.rt.alloc(), text)?;
        let appended = self.folder.append(by, name, text.as_slice());
        self.push_done(appended, shown)
    }

    fn list(&mut self, by: &Token, shown: &mut Bytes) -> Result<(), AllocError> {
        match self.folder.locks(by) {
            Ok(numbers) => push_numbers(shown, numbers.as_slice()),
            Err(_) => self.push_fault(shown),
        }
    }

    fn judge(&mut self, by: &Token, holder: &str, shown: &mut Bytes) -> Result<(), AllocError> {
        let Some(holder) = Token::read(self.rt.alloc(), holder.as_bytes())? else {
            return push_answer(shown, "no token");
        };
        match self.folder.verdict(by, &holder) {
            Ok(Verdict::Alive) => push_answer(shown, "alive"),
            Ok(Verdict::Dead) => push_answer(shown, "dead"),
            Err(_) => self.push_fault(shown),
        }
    }

    // Pushes whether a call was done.
    fn push_done(
        &self,
        done: Result<(), FolderFault>,
        shown: &mut Bytes,
    ) -> Result<(), AllocError> {
        match done {
            Ok(()) => push_answer(shown, "done"),
            Err(_) => self.push_fault(shown),
        }
    }

    // Pushes why the last call failed.
    fn push_fault(&self, shown: &mut Bytes) -> Result<(), AllocError> {
        let Some(error) = self.folder.last_error() else {
            return push_answer(shown, "failed");
        };
        let text = error.text(self.rt.alloc())?;
        self.push_reason(text.as_str(), shown)
    }

    // Pushes a reason. The number of this process at its end is `~i`.
    fn push_reason(&self, text: &str, shown: &mut Bytes) -> Result<(), AllocError> {
        let own = format!(in self.rt.alloc(); "process {}", self.process)?;
        match text.strip_suffix(own.as_str()) {
            Some(front) => {
                shown.push(b" failed: ")?;
                shown.push(front.as_bytes())?;
                push_line(shown, "process ~i")
            }
            None => push_text(shown, b" failed: ", text.as_bytes()),
        }
    }
}

// The text of a token.
fn text_of(alloc: Global, token: &Token) -> Result<String, AllocError> {
    String::from_str(alloc, str::from_utf8(token.as_slice()).unwrap_or(""))
}

// Pushes numbers on one line, each behind a blank.
fn push_numbers(shown: &mut Bytes, numbers: &[u64]) -> Result<(), AllocError> {
    for number in numbers {
        shown.push(b" ")?;
        push_decimal(shown, *number)?;
    }
    shown.push(b"\n")
}
