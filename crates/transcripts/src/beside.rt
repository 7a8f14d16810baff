// The commands beside the next one, and the steps that all of them take.
use crate::names::counted;
use acct_text::{Bytes, read_decimal};
use memory_folder::{Effect, MemoryFolder};
use side_by_side::Step;
use std::alloc::{AllocError, Global};
use whole_commands::{Asked, TO_END, push_done_beside, push_turns};

/// What a call did that failed, or within which a command died; None where the text is none of these.
pub(crate) fn effect_of(alloc: Global, text: &[u8]) -> Result<Option<Effect>, AllocError> {
    if text == b"junk".as_slice() {
        return Ok(Some(Effect::Left(Some(Bytes::of(alloc, b"junk")?))));
    }
    Ok(plain_effect(text))
}

// One that leaves no other bytes.
fn plain_effect(text: &[u8]) -> Option<Effect> {
    if text == b"happened".as_slice() {
        return Some(Effect::Happened);
    }
    if text == b"nothing".as_slice() {
        return Some(Effect::Nothing);
    }
    if text == b"gone".as_slice() {
        return Some(Effect::Left(None));
    }
    None
}

/// Commands at the places from 1, and steps in which the next command is at place 0.
pub(crate) struct Beside {
    alloc: Global,
    commands: Vec<Asked>,
    steps: Vec<Step>,
}

// One call for all that it has.
impl Drop for Beside {
    fn drop(self) {
        let Beside {
            alloc: _,
            commands: _,
            steps: _,
        } = self;
    }
}

impl Beside {
    /// No commands and no steps.
    pub(crate) fn none(alloc: Global) -> Self {
        Beside {
            alloc,
            commands: Vec::new(alloc),
            steps: Vec::new(alloc),
        }
    }

    /// Whether no command waits.
    pub(crate) fn is_none(&self) -> bool {
        self.commands.is_empty()
    }

    /// Lets a command with this input wait at the next place.
    pub(crate) fn add(&mut self, command: &[u8], input: &[u8]) -> Result<bool, AllocError> {
        let command = Asked::of(self.alloc, command, input)?;
        self.commands.push(command)?;
        Ok(true)
    }

    /// Lets a command without input run whole once the next one has made so many more calls.
    pub(crate) fn add_between(&mut self, other: &[u8]) -> Result<bool, AllocError> {
        let Some((calls, command)) = counted(other) else {
            return Ok(false);
        };
        push_turns(&mut self.steps, 0, calls)?;
        self.add(command, b"")?;
        push_turns(&mut self.steps, self.commands.len(), TO_END)?;
        Ok(true)
    }

    /// Adds the steps of a schedule.
    pub(crate) fn add_steps(&mut self, schedule: &[u8]) -> Result<bool, AllocError> {
        for part in schedule.split(|byte| *byte == b',') {
            let part = part.strip_prefix(b" ").unwrap_or(part);
            match counted(part) {
                Some((place, what)) => self.add_step(place, what)?,
                None => return Ok(false),
            }
        }
        Ok(true)
    }

    // Adds so many turns of the command at the place, or its death.
    fn add_step(&mut self, place: usize, what: &[u8]) -> Result<(), AllocError> {
        if let Ok(calls) = read_decimal(what, 1000) {
            return push_turns(&mut self.steps, place, calls as usize);
        }
        let effect = effect_of(self.alloc, what)?.unwrap_or(Effect::Nothing);
        self.steps.push(Step::Die(place, effect))?;
        Ok(())
    }

    /// Adds the next command with its input, lets all take their steps and then, one after another, what they have
    /// left, and pushes what they tell and do.
    pub(crate) fn push_shown(
        &mut self,
        folder: &mut MemoryFolder,
        command: &[u8],
        input: &[u8],
        shown: &mut Bytes,
    ) -> Result<(), AllocError> {
        let command = Asked::of(self.alloc, command, input)?;
        self.commands.insert(0, command)?;
        for place in 0..self.commands.len() {
            push_turns(&mut self.steps, place, TO_END)?;
        }
        push_done_beside(
            self.alloc,
            shown,
            folder,
            self.commands.as_slice(),
            self.steps.as_slice(),
        )
    }
}
