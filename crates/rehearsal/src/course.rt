// The course of a rehearsal: its commands one after another, each on what the one before left.
ghost use Rattle.std.specs.Prelude.{◌≡◌, ◌+◌, ◌<◌, IfOk, if◌then◌else◌};
ghost use Rattle.rehearsal.specs.Asked.{IsWithinBounds, most_commands};
ghost use Rattle.rehearsal.specs.Course.{after_words, beginning, reached};
ghost use Rattle.rehearsal.specs.Images.{AllStand};

use crate::answered::run_in;
use crate::asked::Rehearsal;
use crate::commands::Command;
use crate::images::{empty_files, files_in, folder_of};
use acct_text::{Files, Word};
use std::alloc::{AllocError, Global};

/// How far a rehearsal has come.
#[derive(Drop)]
pub struct Reached {
    /// The tables that the last command left.
    pub files: Files,
    /// How many commands have changed them.
    pub changed: u64,
}

impl Reached {
    // Where each rehearsal begins: six empty tables, and no change.
    fn beginning(alloc: Global) -> Self
        ensures { result ≡ beginning }
    {
        Reached {
            files: empty_files(alloc),
            changed: 0,
        }
    }

    // What the command of the words leaves. The error says that memory ran out.
    fn after_words(&self, alloc: Global, words: &[Word]) -> Result<Self, AllocError>
        requires tables { AllStand self.now.files }
        requires changed { self.now.changed < most_commands }
        ensures { IfOk result (λ next. next ≡ after_words words.now self.now) }
    {
        let mut folder = folder_of(alloc, &self.files)?;
        let changes = run_in(alloc, words, &mut folder)?;
        let files = files_in(&folder)?;
        let changed = counted(self.changed, changes);
        Ok(Reached { files, changed })
    }
}

// One more, where the command changed the tables.
fn counted(changed: u64, changes: bool) -> u64
    requires { changed < most_commands }
    ensures { result ≡ (if changes then changed + 1 else changed) }
{
    if changes { changed + 1 } else { changed }
}

/// What all commands of the rehearsal leave. The error says that memory ran out.
pub(crate) fn course_of(alloc: Global, asked: Rehearsal) -> Result<Reached, AllocError>
    requires { IsWithinBounds asked }
    ensures { IfOk result (λ last. last ≡ reached asked.seed asked.count) }
{
    let mut state = Reached::beginning(alloc);
    'commands: for place in 0..asked.count {
        let words = Command::at(asked.seed, place).words(alloc)?;
        state = state.after_words(alloc, words.as_slice())?;
    }
    Ok(state)
}
