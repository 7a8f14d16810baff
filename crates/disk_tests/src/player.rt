// The lines of a text, one after another: each is carried out, and shown with what it answers.
use crate::clock::push_day;
use crate::files::play_on_disk;
use crate::session::Session;
use crate::streams::{push_puts, push_takes};
use crate::texts::{cut, expanded, push_line};
use acct_text::Bytes;
use std::fs::File;
use std::rt::{Clock, Files};
use std::{fs, io};

/// Two sessions, and what was shown so far.
pub(crate) struct Player<R: Files<File = File> + Clock + AllocGlobal + Clone + Drop> {
    rt: R,
    first: Session<R>,
    second: Session<R>,
    /// The token that the last begin gave.
    own: String,
    /// The file that is held.
    held: Option<File>,
    shown: Bytes,
}

// One call for all that it has, so that who holds it has few ways through it.
impl<R: Files<File = File> + Clock + AllocGlobal + Clone + Drop> Drop for Player<R> {
    fn drop(self) {
        let Player {
            rt: _,
            first: _,
            second: _,
            own: _,
            held: _,
            shown: _,
        } = self;
    }
}

impl<R: Files<File = File> + Clock + AllocGlobal + Clone + Drop> Player<R> {
    /// Nothing was played.
    pub(crate) fn new(rt: R, process: u32) -> io::Result<Self> {
        let first = Session::new(&rt, process)?;
        let second = Session::new(&rt, process)?;
        let own = String::new(rt.alloc());
        let shown = Bytes::new(rt.alloc());
        Ok(Player {
            rt,
            first,
            second,
            own,
            held: None,
            shown,
        })
    }

    /// What was shown so far.
    pub(crate) fn shown(&self) -> &[u8] {
        self.shown.as_slice()
    }

    /// Plays a line, and shows it with what it answers. What was shown before is left out.
    pub(crate) fn play(&mut self, line: &str) -> io::Result<()> {
        match line.as_bytes() {
            [b' ', ..] => Ok(()),
            [] | [b'#', ..] => Ok(push_line(&mut self.shown, line)?),
            _ => {
                push_line(&mut self.shown, line)?;
                self.play_expanded(line)
            }
        }
    }

    // Carries a line out, with the parts of the token in it.
    fn play_expanded(&mut self, line: &str) -> io::Result<()> {
        let line = expanded(self.rt.alloc(), self.own.as_str(), line)?;
        self.carry_out(line.as_str())
    }

    fn carry_out(&mut self, line: &str) -> io::Result<()> {
        let (word, rest) = cut(line);
        match word {
            "1" => self.first.play(rest, &mut self.own, &mut self.shown),
            "2" => self.second.play(rest, &mut self.own, &mut self.shown),
            "=" => self.begin_image(rest),
            "hold" => self.hold(rest),
            "release" => {
                self.held = None;
                Ok(())
            }
            "day" => Ok(push_day(self.rt.alloc(), rest, &mut self.shown)?),
            "take" => Ok(push_takes(self.rt.alloc(), rest, &mut self.shown)?),
            "fill" => Ok(push_puts(self.rt.alloc(), rest, &mut self.shown)?),
            _ => play_on_disk(&self.rt, word, rest, &mut self.shown),
        }
    }

    // Makes an image with an empty folder, which both sessions enter.
    fn begin_image(&mut self, dir: &str) -> io::Result<()> {
        self.first.begin_anew(dir)?;
        self.second.begin_anew(dir)?;
        let _ = fs::remove_dir_all(&self.rt, dir);
        make_folder(&self.rt, dir)
    }

    // Makes a file and has the kernel lock it.
    fn hold(&mut self, path: &str) -> io::Result<()> {
        let file = File::create(&self.rt, path)?;
        let locked = file.lock();
        self.held = Some(file);
        locked
    }
}

// Makes DIR/etc.
fn make_folder<R: Files + AllocGlobal>(rt: &R, dir: &str) -> io::Result<()> {
    let etc = format!(in rt.alloc(); "{dir}/etc")?;
    fs::create_dir_all(rt, etc.as_str())
}
