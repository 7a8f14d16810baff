// The steps of a schedule, in order, over sessions and the folder in memory that they share.
ghost use Rattle.std.specs.Prelude.{◌≡◌, OnErr, OnOk};
ghost use Rattle.side_by_side.specs.Scenes.{TakePart, TakesPart, has_ended, scene, telling};
ghost use Rattle.side_by_side.specs.Steps.{Acts, TakesFront, MovesBy, TakesSteps};
ghost use Rattle.side_by_side.specs.Advances.{Advances};

use crate::step::Step;
use memory_folder::MemoryFolder;
use std::alloc::AllocError;
use suite_session::{Session, Tools};

/// Takes the steps in order, each by the session at its place, in the folder that they share.
///
/// The sessions take part in the folder before and after: each belongs to it, or has died there, and no
/// two have one token. The history gets events that are lawful after a lawful one, and none of a session
/// that has begun and isn't among these. The error says that there was no memory for a step: then those
/// before it are taken.
pub fn play<T: Tools>(
    sessions: &mut Vec<Session<T>>,
    steps: &[Step],
    folder: &mut MemoryFolder,
) -> Result<(), AllocError>
    requires { TakePart (scene folder.old sessions.old.items) }
    ensures front { TakesFront steps.now (scene folder.old sessions.old.items)
        (scene folder.new sessions.new.items) }
    ensures whole { OnOk result (TakesSteps steps.now (scene folder.old sessions.old.items)
        (scene folder.new sessions.new.items)) }
    ensures take_part { TakePart (scene folder.new sessions.new.items) }
    ensures advances { Advances (scene folder.old sessions.old.items)
        (scene folder.new sessions.new.items) }
{
    'steps: for step in steps {
        take(sessions, step, folder)?;
    }
    Ok(())
}

// Takes one step, if a session stands at its place.
fn take<T: Tools>(
    sessions: &mut Vec<Session<T>>,
    step: &Step,
    folder: &mut MemoryFolder,
) -> Result<(), AllocError>
    requires { TakePart (scene folder.old sessions.old.items) }
    ensures taken { OnOk result (MovesBy step.now (scene folder.old sessions.old.items)
        (scene folder.new sessions.new.items)) }
    ensures stays { OnErr result (scene folder.new sessions.new.items
        ≡ scene folder.old sessions.old.items) }
{
    let place = step.place();
    if place >= sessions.len() {
        return Ok(());
    }
    act(&mut sessions[place], step, folder)
}

// The session takes the step, unless it has ended.
fn act<T: Tools>(
    session: &mut Session<T>,
    step: &Step,
    folder: &mut MemoryFolder,
) -> Result<(), AllocError>
    requires { TakesPart (telling folder.old) session.old }
    ensures acts { OnOk result (Acts step.now (telling folder.old) (telling folder.new) session.old
        session.new) }
    ensures session { OnErr result (session.new ≡ session.old) }
    ensures folder { OnErr result (telling folder.new ≡ telling folder.old) }
{
    if has_ended(session, folder) {
        return Ok(());
    }
    match step {
        Step::Turn(_) => {
            session.turn(folder);
            Ok(())
        }
        Step::Die(_, effect) => session.die(folder, effect.copy()?),
    }
}

// Whether the session died or has answered.
fn has_ended<T: Tools>(session: &Session<T>, folder: &MemoryFolder) -> bool
    ensures { result ≡ has_ended (telling folder.now) session.now }
{
    match session.token() {
        Some(token) => !folder.runs(token),
        None => false,
    }
}
