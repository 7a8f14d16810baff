// What a transcript shows of a command: its status with what it prints, and the lines of tables that
// went and came.
use crate::beside::{played, push_answers};
use crate::play::{push_changes, tables, told};
use crate::{Asked, Streams};
use acct_text::Bytes;
use memory_folder::MemoryFolder;
use side_by_side::Step;
use std::alloc::{AllocError, Global};
use suite_session::StartFault;

/// Runs a command on these streams, and pushes what it tells on lines of its own, a line for each line
/// of a table that went, `-passwd LINE`, and one for each that came, `+passwd LINE`.
pub fn push_done(
    alloc: Global,
    text: &mut Bytes,
    folder: &mut MemoryFolder,
    command: &[u8],
    streams: &mut Streams,
) -> Result<(), AllocError> {
    let before = tables(alloc, folder)?;
    let told = told(alloc, folder, command, streams)?;
    match told.as_slice().strip_suffix(b" ") {
        Some(status) => {
            text.push(status)?;
            text.push(b"\n")?;
        }
        None => text.push(told.as_slice())?,
    }
    push_changes(text, &before, &tables(alloc, folder)?)
}

/// The same of commands that take these steps side by side: what each tells, the first
/// behind the others, and what all did.
pub fn push_done_beside(
    alloc: Global,
    text: &mut Bytes,
    folder: &mut MemoryFolder,
    commands: &[Asked],
    steps: &[Step],
) -> Result<(), AllocError> {
    let before = tables(alloc, folder)?;
    if push_told(alloc, text, folder, commands, steps).is_err() {
        text.push(b"no such words\n")?;
    }
    push_changes(text, &before, &tables(alloc, folder)?)
}

// Pushes what each of these commands tells, once they took the steps.
fn push_told(
    alloc: Global,
    text: &mut Bytes,
    folder: &mut MemoryFolder,
    commands: &[Asked],
    steps: &[Step],
) -> Result<(), StartFault> {
    let sessions = played(alloc, folder, commands, steps)?;
    push_answers(text, sessions.as_slice())?;
    Ok(())
}
