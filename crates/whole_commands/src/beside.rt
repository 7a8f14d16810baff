// Commands beside others: sessions that take the steps of a schedule in the folder in memory that they
// share.
ghost use Rattle.std.specs.Prelude.{All, IfOk};
ghost use Rattle.suite_session.specs.Session.{IsWaiting};

use crate::play::{DAY, words_of};
use acct_text::{Bytes, TABLE_LIMIT, push_decimal};
use memory_folder::{Effect, MemoryFolder};
use side_by_side::{Step, play};
use std::alloc::{AllocError, Global};
use suite_core::Session;
use suite_session::StartFault;

/// More calls of the folder than a command here makes.
pub const TO_END: usize = 100;

/// A command that is to be run, and its input.
pub struct Asked {
    command: Bytes,
    input: Bytes,
}

// One call for all that it has, so that who holds it has few ways through it.
impl Drop for Asked {
    fn drop(self) {
        let Asked {
            command: _,
            input: _,
        } = self;
    }
}

impl Asked {
    /// The words of the command, with a blank between two, and what one that reads an input takes.
    pub fn of(alloc: Global, command: &[u8], input: &[u8]) -> Result<Self, AllocError> {
        let command = Bytes::of(alloc, command)?;
        let input = Bytes::of(alloc, input)?;
        Ok(Asked { command, input })
    }
}

/// Pushes so many turns of the session at the place, as far as it has them left.
pub fn push_turns(steps: &mut Vec<Step>, place: usize, count: usize) -> Result<(), AllocError> {
    for _ in 0..count {
        steps.push(Step::Turn(place))?;
    }
    Ok(())
}

/// The sessions of these commands, which haven't begun.
///
/// The error is the first fault of the words of one, or `Memory`.
pub fn sessions_of(alloc: Global, commands: &[Asked]) -> Result<Vec<Session>, StartFault>
    ensures { IfOk result (λ sessions. All IsWaiting sessions.items) }
{
    let mut sessions = Vec::new(alloc);
    for command in commands {
        let session = session_of(alloc, command)?;
        if let Err(failed) = sessions.push(session) {
            return Err(AllocError::from(failed).into());
        }
    }
    Ok(sessions)
}

// The session of a command, which hasn't begun; `Memory` too where its input has more than 16 MiB.
fn session_of(alloc: Global, asked: &Asked) -> Result<Session, StartFault>
    ensures { IfOk result IsWaiting }
{
    let words = words_of(alloc, asked.command.as_slice())?;
    if asked.input.as_slice().len() as u64 > TABLE_LIMIT {
        return Err(AllocError.into());
    }
    Session::start(alloc, words.as_slice(), asked.input.copy()?, DAY)
}

/// The sessions of these commands, once they took the steps in the folder.
///
/// The error is the first fault of the words of one, and then nothing is done, or `Memory`.
pub(crate) fn played(
    alloc: Global,
    folder: &mut MemoryFolder,
    commands: &[Asked],
    steps: &[Step],
) -> Result<Vec<Session>, StartFault> {
    let mut sessions = sessions_of(alloc, commands)?;
    play(&mut sessions, steps, folder)?;
    Ok(sessions)
}

/// A command makes this many calls of the folder, and dies within the next, of which nothing happens.
///
/// The error is the fault of its words, and then nothing is done, or `Memory`.
pub fn die_after(
    alloc: Global,
    folder: &mut MemoryFolder,
    command: &[u8],
    calls: usize,
) -> Result<(), StartFault> {
    let steps = death_after(alloc, calls)?;
    let commands = [Asked::of(alloc, command, b"")?];
    drop(played(alloc, folder, &commands, steps.as_slice())?);
    Ok(())
}

// So many turns of the session at place 0, and then its death.
fn death_after(alloc: Global, calls: usize) -> Result<Vec<Step>, AllocError> {
    let mut steps = Vec::new(alloc);
    push_turns(&mut steps, 0, calls)?;
    steps.push(Step::Die(0, Effect::Nothing))?;
    Ok(steps)
}

/// Pushes what each session tells, that at place 0 behind the others.
pub(crate) fn push_answers(told: &mut Bytes, sessions: &[Session]) -> Result<(), AllocError> {
    let Some((first, others)) = sessions.split_first() else {
        return Ok(());
    };
    for session in others {
        push_answer(told, session)?;
    }
    push_answer(told, first)
}

// Pushes what the session tells: its status, and behind a blank what it prints.
fn push_answer(told: &mut Bytes, session: &Session) -> Result<(), AllocError> {
    let Some(answer) = session.answer() else {
        return told.push(b"no answer\n");
    };
    let (out, err) = (answer.out.as_slice(), answer.err.as_slice());
    push_decimal(told, u64::from(answer.outcome.status))?;
    if out.is_empty() && err.is_empty() {
        return told.push(b"\n");
    }
    told.push(b" ")?;
    told.push(out)?;
    told.push(err)
}
