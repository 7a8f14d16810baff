// What a transcript shows of a folder: the names that stand in it, and the lines of a file, each
// behind a blank.
use crate::names::name_of;
use acct_outside::Name;
use acct_text::{Bytes, Tab, push_decimal};
use memory_folder::MemoryFolder;
use std::alloc::{AllocError, Global};
use whole_commands::{Streams, push_done};

/// What stands for the want of an end.
const NO_END: &[u8] = b" (no newline at the end)\n";

/// Pushes a line.
pub(crate) fn push_line(shown: &mut Bytes, line: &[u8]) -> Result<(), AllocError> {
    shown.push(line)?;
    shown.push(b"\n")
}

/// Pushes a line of the text, so many times.
pub(crate) fn push_repeated(
    shown: &mut Bytes,
    text: &[u8],
    count: usize,
) -> Result<(), AllocError> {
    for _ in 0..count {
        shown.push(text)?;
    }
    shown.push(b"\n")
}

/// Pushes what was shown at the numbers from the first to the last, behind a line with these.
pub(crate) fn push_run(
    played: &mut Bytes,
    first: u64,
    last: u64,
    shown: &[u8],
) -> Result<(), AllocError> {
    played.push(b" at ")?;
    push_decimal(played, first)?;
    if first < last {
        played.push(b" to ")?;
        push_decimal(played, last)?;
    }
    played.push(b"\n")?;
    played.push(shown)
}

/// Pushes each line of a file; nothing where it is empty or absent.
pub(crate) fn push_file(
    shown: &mut Bytes,
    folder: &MemoryFolder,
    name: Name,
) -> Result<(), AllocError> {
    match folder.file(name) {
        Some(text) => push_text(shown, text.as_slice()),
        None => Ok(()),
    }
}

// Pushes each line of a text.
fn push_text(shown: &mut Bytes, text: &[u8]) -> Result<(), AllocError> {
    let ended = text.strip_suffix(b"\n");
    if text.is_empty() {
        return Ok(());
    }
    for line in ended.unwrap_or(text).split(|byte| *byte == b'\n') {
        shown.push(b" ")?;
        push_line(shown, line)?;
    }
    match ended {
        Some(_) => Ok(()),
        None => shown.push(NO_END),
    }
}

/// Pushes the names that stand: the tables with their backups and what is staged for them, the
/// intent, what else is staged, and the locks up to 9.
pub(crate) fn push_names(shown: &mut Bytes, folder: &MemoryFolder) -> Result<(), AllocError> {
    for table in &Tab::all() {
        push_name(shown, folder, Name::Table(*table), table.name(), "")?;
        push_name(shown, folder, Name::Backup(*table), table.name(), "-")?;
        push_name(shown, folder, Name::Staged(*table), table.name(), "+")?;
    }
    push_name(shown, folder, Name::Intent, "accounts.intent", "")?;
    push_name(shown, folder, Name::IntentStage, "accounts.intent", "+")?;
    push_name(shown, folder, Name::BackupStage, "accounts.backup", "+")?;
    push_name(shown, folder, Name::FreeStage, "accounts.free", "+")?;
    for number in 1..10 {
        if folder.file(Name::Lock(number)).is_some() {
            shown.push(b" accounts.lock.")?;
            push_decimal(shown, number)?;
            shown.push(b"\n")?;
        }
    }
    Ok(())
}

// Pushes a name, where it stands.
fn push_name(
    shown: &mut Bytes,
    folder: &MemoryFolder,
    name: Name,
    text: &str,
    ending: &str,
) -> Result<(), AllocError> {
    if folder.file(name).is_none() {
        return Ok(());
    }
    shown.push(b" ")?;
    shown.push(text.as_bytes())?;
    push_line(shown, ending.as_bytes())
}

/// Shows what a command tells and does in a folder, or what stands there.
pub(crate) fn show_in(
    alloc: Global,
    folder: &mut MemoryFolder,
    command: &[u8],
    streams: &mut Streams,
    shown: &mut Bytes,
) -> Result<(), AllocError> {
    if command == b"ls".as_slice() {
        return push_names(shown, folder);
    }
    match command.strip_prefix(b"cat ") {
        Some(name) => match name_of(name) {
            Some(name) => push_file(shown, folder, name),
            None => push_line(shown, b" no such name"),
        },
        None => push_done(alloc, shown, folder, command, streams),
    }
}
