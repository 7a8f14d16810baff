// A folder in memory with the commands that run in it.
ghost use Rattle.std.specs.Prelude.{All, IfOk};
ghost use Rattle.acct_outside.specs.Contract.{IsName};

use crate::beside::{Beside, effect_of};
use crate::names::{counted, name_of};
use crate::shown::{push_repeated, show_in};
use acct_outside::Token;
use acct_text::Bytes;
use memory_folder::{MemoryFolder, Mishap};
use std::alloc::{AllocError, Global};
use std::mem;
use whole_commands::{Contents, Failing, IMAGE, Streams, die_after, put};

/// A folder in the making, until a command runs in it.
pub(crate) struct Scene {
    alloc: Global,
    /// The files before the first command, of which the last of a name counts.
    files: Vec<File>,
    /// The sessions that are told alive.
    alive: Vec<Token>,
    /// The calls that fail.
    plan: Vec<Mishap>,
    /// The input of the next command.
    input: Bytes,
    /// The stream of the next command that fails.
    failing: Option<Failing>,
    /// The commands beside the next.
    beside: Beside,
    /// The folder, once a command ran in it.
    folder: Option<Standing>,
}

/// A file before the first command.
struct File {
    name: Bytes,
    text: Bytes,
}

/// A folder in which a command ran.
struct Standing {
    folder: MemoryFolder,
}

// Each has one call for all that it has, so that who holds it has few ways through it.
impl Drop for Scene {
    fn drop(self) {
        let Scene {
            alloc: _,
            files: _,
            alive: _,
            plan: _,
            input: _,
            failing: _,
            beside: _,
            folder: _,
        } = self;
    }
}

impl Drop for File {
    fn drop(self) {
        let File { name: _, text: _ } = self;
    }
}

impl Drop for Standing {
    fn drop(self) {
        let Standing { folder: _ } = self;
    }
}

impl Scene {
    // A folder without files.
    fn bare(alloc: Global) -> Self {
        Scene {
            alloc,
            files: Vec::new(alloc),
            alive: Vec::new(alloc),
            plan: Vec::new(alloc),
            input: Bytes::new(alloc),
            failing: None,
            beside: Beside::none(alloc),
            folder: None,
        }
    }

    /// A folder whose passwd and group are empty, with no other files.
    pub(crate) fn empty(alloc: Global) -> Result<Self, AllocError> {
        let mut scene = Scene::bare(alloc);
        scene.put(b"passwd", b"")?;
        scene.put(b"group", b"")?;
        Ok(scene)
    }

    // A folder with the files of a small system.
    fn image(alloc: Global) -> Result<Self, AllocError> {
        let mut scene = Scene::bare(alloc);
        for (name, text) in IMAGE {
            scene.put(name, text)?;
        }
        Ok(scene)
    }

    /// Plays a line, and pushes what it shows; tells whether the line says something. One of what was
    /// shown before doesn't.
    pub(crate) fn play(&mut self, line: &[u8], shown: &mut Bytes) -> Result<bool, AllocError> {
        match line {
            [] | [b'#', ..] => Ok(true),
            [b'$', b' ', command @ ..] => self.show(command, shown),
            [b'%', b' ', death @ ..] => self.die(death),
            [b'&', b' ', other @ ..] => self.beside.add_between(other),
            [b':', b' ', other @ ..] => self.let_wait(other),
            [b'/', b' ', steps @ ..] => self.beside.add_steps(steps),
            _ => self.set(line),
        }
    }

    // Does what a line says of the folder before the first command, or of the next command's streams.
    fn set(&mut self, line: &[u8]) -> Result<bool, AllocError> {
        match line {
            [b'=', b' ', scene @ ..] => self.begin(scene),
            [b'<', b' ', name @ ..] => self.put(name, b""),
            [b'<', b'<', b' ', name @ ..] => self.put_again(name),
            [b'|', line @ ..] => self.add_line(1, line),
            [b'_', b' ', line @ ..] => self.add_repeated(line),
            [b'\\', ..] => self.open_last_line(),
            [b'>', b' ', line @ ..] => self.add_input(1, line),
            [b'>', b'>', b' ', line @ ..] => self.add_repeated_input(line),
            [b'@', b' ', token @ ..] => self.let_live(token),
            [b'!', b' ', mishap @ ..] => self.let_fail(mishap),
            _ => Ok(false),
        }
    }

    // Begins a new folder, or leaves a file out of it.
    fn begin(&mut self, scene: &[u8]) -> Result<bool, AllocError> {
        if let Some(name) = scene.strip_prefix(b"without ") {
            self.files.retain(|file| file.name.as_slice() != name);
            return Ok(true);
        }
        match scene {
            b"image" => *self = Scene::image(self.alloc)?,
            b"empty" => *self = Scene::empty(self.alloc)?,
            _ => return Ok(false),
        }
        Ok(true)
    }

    // Puts a file of this text.
    fn put(&mut self, name: &[u8], text: &[u8]) -> Result<bool, AllocError> {
        let name = Bytes::of(self.alloc, name)?;
        let text = Bytes::of(self.alloc, text)?;
        self.files.push(File { name, text })?;
        Ok(true)
    }

    // Puts a file with the text that it has.
    fn put_again(&mut self, name: &[u8]) -> Result<bool, AllocError> {
        let mut text = Bytes::new(self.alloc);
        for file in &self.files {
            if file.name.as_slice() == name {
                text = file.text.copy()?;
            }
        }
        let name = Bytes::of(self.alloc, name)?;
        self.files.push(File { name, text })?;
        Ok(true)
    }

    // Adds a line to the last file: the text, so many times.
    fn add_line(&mut self, count: usize, text: &[u8]) -> Result<bool, AllocError> {
        if let Some(file) = self.files.last_mut() {
            push_repeated(&mut file.text, text, count)?;
        }
        Ok(true)
    }

    // Adds a line to the last file, of a count and a text.
    fn add_repeated(&mut self, line: &[u8]) -> Result<bool, AllocError> {
        match counted(line) {
            Some((count, text)) => self.add_line(count, text),
            None => Ok(false),
        }
    }

    // Takes the end of the last file's last line away.
    fn open_last_line(&mut self) -> Result<bool, AllocError> {
        if let Some(file) = self.files.last_mut() {
            let text = file.text.as_slice();
            file.text = Bytes::of(self.alloc, text.strip_suffix(b"\n").unwrap_or(text))?;
        }
        Ok(true)
    }

    // Adds a line to the input of the next command: the text, so many times.
    fn add_input(&mut self, count: usize, text: &[u8]) -> Result<bool, AllocError> {
        push_repeated(&mut self.input, text, count)?;
        Ok(true)
    }

    // Adds a line to the input of the next command, of a count and a text.
    fn add_repeated_input(&mut self, line: &[u8]) -> Result<bool, AllocError> {
        match counted(line) {
            Some((count, text)) => self.add_input(count, text),
            None => Ok(false),
        }
    }

    // Tells a session alive.
    fn let_live(&mut self, token: &[u8]) -> Result<bool, AllocError> {
        let Some(token) = Token::read(self.alloc, token)? else {
            return Ok(false);
        };
        self.alive.push(token)?;
        Ok(true)
    }

    // Lets a call of the folder fail, or of a stream of the next command.
    fn let_fail(&mut self, mishap: &[u8]) -> Result<bool, AllocError> {
        if let Some((call, effect)) = counted(mishap) {
            return self.plan(call as u64, effect);
        }
        self.failing = match mishap {
            b"input" => Some(Failing::Input),
            b"clock" => Some(Failing::Clock),
            b"output" => Some(Failing::Output),
            b"message" => Some(Failing::Message),
            _ => return Ok(false),
        };
        Ok(true)
    }

    // Plans that a call of the folder fails.
    fn plan(&mut self, call: u64, effect: &[u8]) -> Result<bool, AllocError> {
        let Some(effect) = effect_of(self.alloc, effect)? else {
            return Ok(false);
        };
        self.plan.push(Mishap { call, effect })?;
        Ok(true)
    }

    // Lets a command make so many calls of the folder, and die within the next.
    fn die(&mut self, death: &[u8]) -> Result<bool, AllocError> {
        let Some((calls, command)) = counted(death) else {
            return Ok(false);
        };
        self.make()?;
        match &mut self.folder {
            Some(standing) => {
                Ok(die_after(self.alloc, &mut standing.folder, command, calls).is_ok())
            }
            None => Ok(false),
        }
    }

    // Lets a command with the input wait beside the next one.
    fn let_wait(&mut self, other: &[u8]) -> Result<bool, AllocError> {
        let input = mem::replace(&mut self.input, Bytes::new(self.alloc));
        self.beside.add(other, input.as_slice())
    }

    // Shows what a command tells and does, with those beside it.
    fn show(&mut self, command: &[u8], shown: &mut Bytes) -> Result<bool, AllocError> {
        self.make()?;
        let input = mem::replace(&mut self.input, Bytes::new(self.alloc));
        if self.beside.is_none() {
            return self.show_alone(command, input.as_slice(), shown);
        }
        let mut beside = mem::replace(&mut self.beside, Beside::none(self.alloc));
        if let Some(standing) = &mut self.folder {
            beside.push_shown(&mut standing.folder, command, input.as_slice(), shown)?;
        }
        Ok(true)
    }

    // Shows what a command with this input and no others beside it tells and does.
    fn show_alone(
        &mut self,
        command: &[u8],
        input: &[u8],
        shown: &mut Bytes,
    ) -> Result<bool, AllocError> {
        let mut streams = Streams::new(self.alloc, input, self.failing)?;
        self.failing = None;
        if let Some(standing) = &mut self.folder {
            show_in(
                self.alloc,
                &mut standing.folder,
                command,
                &mut streams,
                shown,
            )?;
        }
        Ok(true)
    }

    // Makes the folder, where no command ran in it.
    fn make(&mut self) -> Result<(), AllocError> {
        if self.folder.is_none() {
            self.folder = Some(self.made()?);
        }
        Ok(())
    }

    // The folder of the files, with the sessions and the plan, which it takes.
    fn made(&mut self) -> Result<Standing, AllocError> {
        let files = contents(self.alloc, self.files.as_slice())?;
        let alive = mem::replace(&mut self.alive, Vec::new(self.alloc));
        let plan = mem::replace(&mut self.plan, Vec::new(self.alloc));
        let folder = MemoryFolder::new(self.alloc, files, alive, plan)?;
        Ok(Standing { folder })
    }
}

// The files by their names; a text that is no name has none.
fn contents(alloc: Global, files: &[File]) -> Result<Contents, AllocError>
    ensures { IfOk result (λ files. All (λ file. IsName file.0) files.items) }
{
    let mut contents = Vec::new(alloc);
    for file in files {
        if let Some(name) = name_of(file.name.as_slice()) {
            put(&mut contents, name, file.text.as_slice())?;
        }
    }
    Ok(contents)
}
