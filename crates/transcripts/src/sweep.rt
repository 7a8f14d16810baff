// Lines that are played for each number of a range, each time in a new scene.
use crate::names::counted;
use crate::scene::Scene;
use crate::shown::{push_line, push_run};
use acct_text::{Bytes, push_decimal, read_decimal};
use std::alloc::{AllocError, Global};

/// The first number and the last, and the lines.
pub(crate) struct Sweep {
    first: u64,
    last: u64,
    lines: Bytes,
}

// One call for all that it has.
impl Drop for Sweep {
    fn drop(self) {
        let Sweep {
            first: _,
            last: _,
            lines: _,
        } = self;
    }
}

impl Sweep {
    /// A sweep over these two numbers and those between them, without lines; over 0 where they are none.
    pub(crate) fn of(alloc: Global, numbers: &[u8]) -> Self {
        let (first, rest) = counted(numbers).unwrap_or((0, b"0"));
        Sweep {
            first: first as u64,
            last: read_decimal(rest, 1000).unwrap_or(0),
            lines: Bytes::new(alloc),
        }
    }

    /// Adds a line.
    pub(crate) fn add(&mut self, line: &[u8]) -> Result<(), AllocError> {
        push_line(&mut self.lines, line)
    }

    /// Plays the lines for each number, and pushes what they show, once for each run of numbers at which
    /// they show the same.
    pub(crate) fn push_runs(&self, alloc: Global, played: &mut Bytes) -> Result<(), AllocError> {
        let mut first = self.first;
        let mut shown = self.shown_at(alloc, first)?;
        for number in self.first..self.last {
            let next = self.shown_at(alloc, number + 1)?;
            if next.as_slice() != shown.as_slice() {
                push_run(played, first, number, shown.as_slice())?;
                first = number + 1;
                shown = next;
            }
        }
        push_run(played, first, self.last, shown.as_slice())
    }

    // What the lines show with this number, without the lines themselves.
    fn shown_at(&self, alloc: Global, number: u64) -> Result<Bytes, AllocError> {
        let mut shown = Bytes::new(alloc);
        self.push_shown(alloc, number, &mut shown)?;
        Ok(shown)
    }

    // Pushes this.
    fn push_shown(&self, alloc: Global, number: u64, shown: &mut Bytes) -> Result<(), AllocError> {
        let mut scene = Scene::empty(alloc)?;
        for line in self.lines.as_slice().split(|byte| *byte == b'\n') {
            play_at(alloc, &mut scene, line, number, shown)?;
        }
        Ok(())
    }
}

// Plays a line with the number.
fn play_at(
    alloc: Global,
    scene: &mut Scene,
    line: &[u8],
    number: u64,
    shown: &mut Bytes,
) -> Result<(), AllocError> {
    let line = with_number(alloc, line, number)?;
    scene.play(line.as_slice(), shown)?;
    Ok(())
}

// The line with the number in place of each `~`.
fn with_number(alloc: Global, line: &[u8], number: u64) -> Result<Bytes, AllocError> {
    let mut text = Bytes::new(alloc);
    let mut is_behind = false;
    for part in line.split(|byte| *byte == b'~') {
        if is_behind {
            push_decimal(&mut text, number)?;
        }
        text.push(part)?;
        is_behind = true;
    }
    Ok(text)
}
