// A folder in memory in which the sessions of a schedule take their steps between the calls of others.
ghost use Rattle.std.specs.Prelude.{◌≡◌, []};
ghost use Rattle.side_by_side.specs.Scenes.{TakePart, scene};
ghost use Rattle.side_by_side.specs.Staged.{scene_in, stage_with};

use crate::schedule::Schedule;
use crate::step::Step;
use acct_outside::Journal;
use memory_folder::MemoryFolder;
use std::marker::Model;
use suite_session::{Session, Tools};

/// A folder in memory with other sessions, which take their steps by a schedule: the first list of it
/// before the first call, the next before the next, counted without `enter`, `answered` and `faults`.
/// Contracts see the folder, these sessions, the lists that are left and what was asked.
///
/// It tells the history of that folder, and admits exactly the lawful events of sessions other than
/// those that call it. Where a list finds no memory, the call answers `Memory`, and the steps before
/// that are taken.
#[derive(Drop)]
pub struct StagedFolder<T: Tools> {
    pub(crate) folder: MemoryFolder,
    pub(crate) others: Vec<Session<T>>,
    pub(crate) schedule: Schedule,
    pub(crate) journal: Journal,
}

impl<T: Tools> Model for StagedFolder<T> {
    ghost use Rattle.side_by_side.specs.Scenes.{TakePart, scene};
    ghost use Rattle.side_by_side.specs.Staged.{Stage, stage_with};
    ghost use Rattle.side_by_side.specs.Lists.{lists_left};

    ghost Value = { Stage };

    ghost view = { λ staged. stage_with staged.folder staged.others.items
        (lists_left staged.schedule) staged.journal.entries };

    ghost invariant = { λ staged. TakePart (scene staged.folder staged.others.items) };
}

impl<T: Tools> StagedFolder<T> {
    /// A folder in which these sessions take part, with the lists of their steps.
    pub fn new(folder: MemoryFolder, others: Vec<Session<T>>, schedule: Vec<Vec<Step>>) -> Self
        requires { TakePart (scene folder others.items) }
        ensures { result ≡ stage_with folder others.items schedule.items [] }
    {
        StagedFolder {
            folder,
            others,
            schedule: Schedule {
                lists: schedule,
                taken: 0,
            },
            journal: Journal::new(),
        }
    }

    /// The folder in memory, as it stands.
    pub fn folder(&self) -> &MemoryFolder
        ensures { result.now ≡ self.now.files }
    {
        &self.folder
    }

    /// The other sessions, which take part in the folder.
    pub fn others(&self) -> &[Session<T>]
        ensures others { result.now ≡ self.now.others }
        ensures take_part { TakePart (scene_in self.now) }
    {
        &self.others
    }
}
