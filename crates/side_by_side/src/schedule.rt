// A schedule: lists of steps, of which one is taken before each call of a staged folder.
ghost use Rattle.std.specs.Prelude.{◌≡◌, List, OnOk, drop};
ghost use Rattle.acct_outside.specs.Journal.{Entry};
ghost use Rattle.side_by_side.specs.Scenes.{TakePart, scene};
ghost use Rattle.side_by_side.specs.Steps.{TakesSteps};
ghost use Rattle.side_by_side.specs.Lists.{lists_behind, next_list};

use crate::playing::play;
use crate::step::Step;
use memory_folder::MemoryFolder;
use std::alloc::AllocError;
use suite_session::{Session, Tools};

/// The lists of steps, and how many of them were taken.
#[derive(Drop)]
pub(crate) struct Schedule {
    pub lists: Vec<Vec<Step>>,
    pub taken: usize,
}

impl Schedule {
    ghost use Rattle.side_by_side.specs.Staged.{stage_with};
    ghost use Rattle.side_by_side.specs.Lists.{PlaysNext, lists_left};

    /// The sessions take the steps of the next list; none where no list is left. The error says that
    /// there was no memory for a step: then those before it are taken, and the list is none that is left.
    pub(crate) fn play_next<T: Tools>(
        &mut self,
        sessions: &mut Vec<Session<T>>,
        folder: &mut MemoryFolder,
    ) -> Result<(), AllocError>
        requires { TakePart (scene folder.old sessions.old.items) }
        ensures played { (journal : List Entry) →
            PlaysNext (stage_with folder.old sessions.old.items (lists_left self.old) journal)
            (stage_with folder.new sessions.new.items (lists_left self.new) journal) }
        ensures take_part { TakePart (scene folder.new sessions.new.items) }
        ensures whole { OnOk result (TakesSteps (next_list (lists_left self.old))
            (scene folder.old sessions.old.items) (scene folder.new sessions.new.items)) }
    {
        let list = self.taken;
        self.taken = place_behind(&self.lists, list);
        play(sessions, list_at(&self.lists, list), folder)
    }
}

// The list at the place, counted from 0; an empty one behind the last.
fn list_at(lists: &[Vec<Step>], place: usize) -> &[Step]
    ensures { result.now ≡ next_list (drop place lists.now) }
{
    if place < lists.len() {
        &lists[place]
    } else {
        &[]
    }
}

// The place behind that of a list, counted from 0; the same where no list stands there.
fn place_behind(lists: &[Vec<Step>], place: usize) -> usize
    ensures { drop result lists.now ≡ lists_behind (drop place lists.now) }
{
    if place < lists.len() {
        place + 1
    } else {
        place
    }
}
