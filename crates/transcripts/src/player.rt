// The lines of a transcript, one after another: each is played in the scene, or kept for a sweep.
use crate::scene::Scene;
use crate::shown::push_line;
use crate::sweep::Sweep;
use acct_text::Bytes;
use std::alloc::{AllocError, Global};

/// The scene as far as it was played, the lines of the sweep that was begun, and what was shown.
pub(crate) struct Player {
    alloc: Global,
    scene: Scene,
    sweep: Option<Sweep>,
    shown: Bytes,
}

// One call for all that it has, so that who holds it has few ways through it.
impl Drop for Player {
    fn drop(self) {
        let Player {
            alloc: _,
            scene: _,
            sweep: _,
            shown: _,
        } = self;
    }
}

impl Player {
    /// Nothing was played.
    pub(crate) fn new(alloc: Global) -> Result<Self, AllocError> {
        let scene = Scene::empty(alloc)?;
        Ok(Player {
            alloc,
            scene,
            sweep: None,
            shown: Bytes::new(alloc),
        })
    }

    /// What was shown so far.
    pub(crate) fn shown(&self) -> &[u8] {
        self.shown.as_slice()
    }

    /// Plays each line of a transcript.
    pub(crate) fn play_all(&mut self, text: &[u8]) -> Result<(), AllocError> {
        let lines = text.strip_suffix(b"\n").unwrap_or(text);
        for line in lines.split(|byte| *byte == b'\n') {
            self.play(line)?;
        }
        Ok(())
    }

    // Plays a line, and shows the line itself, and behind a command or the end of a sweep what it tells
    // and does. A line of what was shown before shows nothing.
    fn play(&mut self, line: &[u8]) -> Result<(), AllocError> {
        match line {
            [b'*', b' ', numbers @ ..] => {
                self.sweep = Some(Sweep::of(self.alloc, numbers));
                push_line(&mut self.shown, line)
            }
            b"*" => {
                push_line(&mut self.shown, line)?;
                self.end_sweep()
            }
            _ => self.play_in(line),
        }
    }

    // Keeps a line for the sweep that was begun, or plays it in the scene.
    fn play_in(&mut self, line: &[u8]) -> Result<(), AllocError> {
        match &mut self.sweep {
            Some(sweep) => {
                push_line(&mut self.shown, line)?;
                sweep.add(line)
            }
            None => self.play_alone(line),
        }
    }

    // Plays a line in the scene.
    fn play_alone(&mut self, line: &[u8]) -> Result<(), AllocError> {
        let mut shown = Bytes::new(self.alloc);
        if !self.scene.play(line, &mut shown)? {
            return Ok(());
        }
        push_line(&mut self.shown, line)?;
        self.shown.push(shown.as_slice())
    }

    // Plays the sweep that was begun, and shows what it tells and does.
    fn end_sweep(&mut self) -> Result<(), AllocError> {
        match self.sweep.take() {
            Some(sweep) => sweep.push_runs(self.alloc, &mut self.shown),
            None => Ok(()),
        }
    }
}
