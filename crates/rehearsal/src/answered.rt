// One command of a rehearsal, in a folder in memory of its own.
ghost use Rattle.std.specs.Prelude.{◌≡◌, None, IfOk};
ghost use Rattle.memory_folder.specs.Memory.{past_of};
ghost use Rattle.suite_session.specs.Stands.{IsDecided};
ghost use Rattle.rehearsal.specs.Alone.{IsLawful, defs_at};
ghost use Rattle.rehearsal.specs.Answered.{is_changed};
ghost use Rattle.rehearsal.specs.Images.{IsAnswered};

use crate::clock::RehearsalClock;
use crate::run_alone;
use acct_outside::Name;
use acct_text::{Bytes, Word};
use memory_folder::{MemoryFolder, MemorySink, MemorySource};
use std::alloc::{AllocError, Global};
use suite_core::{Cause, Outcome, Which};

/// Runs the command of the words in the folder, and tells whether it changed the tables. Its input is
/// empty, and what it says isn't kept. The error says that memory ran out.
pub(crate) fn run_in(
    alloc: Global,
    words: &[Word],
    folder: &mut MemoryFolder,
) -> Result<bool, AllocError>
    requires lawful { IsLawful (past_of folder.old) }
    requires settings { defs_at (past_of folder.old) ≡ None }
    ensures { IfOk result (λ changes.
        IsAnswered words.now (past_of folder.old) (past_of folder.new) changes) }
{
    is_changed(run_alone(
        alloc,
        words,
        folder,
        &mut MemorySource::new(alloc, Bytes::new(alloc), Vec::new(alloc)),
        &mut MemorySink::new(alloc, Vec::new(alloc)),
        &mut MemorySink::new(alloc, Vec::new(alloc)),
        &mut RehearsalClock::new(),
    ))
}

// Whether a tool's answer changed the tables. Nothing stands in the way of a command here, and nothing
// outside fails, so that where no tool answered memory ran out, as the error says.
fn is_changed(outcome: Outcome) -> Result<bool, AllocError>
    ensures { IfOk result (λ changed.
        IsDecided outcome.cause × (changed ≡ is_changed outcome.cause)) }
{
    is_change(&outcome.cause)
}

// The same of the cause.
fn is_change(cause: &Cause) -> Result<bool, AllocError>
    ensures { IfOk result (λ changed. IsDecided cause.now × (changed ≡ is_changed cause.now)) }
{
    match cause {
        Cause::Changed => Ok(true),
        Cause::Same | Cause::Refused(_) | Cause::RefusedLine(..) => Ok(false),
        Cause::NoTable(_) | Cause::BadSetting(_) => Ok(false),
        Cause::TooLarge(Which::File(Name::Table(_) | Name::Defs)) => Ok(false),
        _ => Err(AllocError),
    }
}
