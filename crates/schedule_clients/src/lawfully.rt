// A schedule that is played in a folder whose history is lawful.
ghost use Rattle.side_by_side.specs.Scenes.{TakePart, scene};
ghost use Rattle.schedule_clients.specs.Lawfully.{DiesPromising, HoldsLawfully};

use memory_folder::MemoryFolder;
use side_by_side::{Step, play};
use std::alloc::AllocError;
use suite_course::answers_keep_promises;
use suite_session::{Session, Tools};

/// Plays a schedule of sessions in the folder that they share, also where some die.
///
/// Where the history was lawful it is so still, the settled files are those of its first moment as the
/// committed commands changed them, and each session that belongs to the folder has what the top call
/// promises of one that has its answer, however long ago it gave that. One that belonged to it and died
/// had that at the moment before its death, also where it died in the call of its answer. The error says
/// that there was no memory for a step: then the same holds of the steps before it.
pub fn play_lawfully<T: Tools>(
    sessions: &mut Vec<Session<T>>,
    steps: &[Step],
    folder: &mut MemoryFolder,
) -> Result<(), AllocError>
    requires { TakePart (scene folder.old sessions.old.items) }
    ensures take_part { TakePart (scene folder.new sessions.new.items) }
    ensures lawfully { HoldsLawfully (scene folder.old sessions.old.items)
        (scene folder.new sessions.new.items) }
    ensures deaths { DiesPromising (scene folder.old sessions.old.items)
        (scene folder.new sessions.new.items) }
{
    answers_keep_promises::<MemoryFolder>();
    play(sessions, steps, folder)
}
