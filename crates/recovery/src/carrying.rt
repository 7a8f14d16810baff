// The calls by which a keeper carries out an intent that stands, be it one that it found or that of
// its own commit: the bytes of each listed table are staged piece by piece and moved, and then the
// intent goes.
ghost use Rattle.std.specs.Prelude.{◌≡◌, IfOk};
ghost use Rattle.acct_outside.specs.declared.Name.TheVariants.{Intent};
ghost use Rattle.acct_outside.specs.Calls.{removes};
ghost use Rattle.acct_outside.specs.Contract.{CallsFolder, MayAct};
ghost use Rattle.acct_outside.specs.NamedCalls.{IsLaterCall, call_of};
ghost use Rattle.suite_rules.specs.Outcomes.{installs, pieces_left, stages, stages_more};

use acct_outside::{Call, Folder, FolderFault, Name, Token, piece_at, piece_count};
use acct_text::Bytes;
use intent_file::NewTable;
use std::alloc::{AllocError, Global};

/// The call of `stage_table`. The error says that memory ran out for the piece.
pub fn stage_call(alloc: Global, new: &NewTable) -> Result<Call, AllocError>
    ensures names { IfOk result (λ call. call_of call ≡ stages new.now) }
    ensures later { IfOk result IsLaterCall }
{
    let piece = Bytes::of(alloc, piece_at(new.bytes.as_slice(), 0))?;
    Ok(Call::Write(Name::Staged(new.table), piece))
}

/// The call of `append_table`. The error says that memory ran out for the piece.
pub fn append_call(alloc: Global, new: &NewTable, place: usize) -> Result<Call, AllocError>
    ensures names { IfOk result (λ call. call_of call ≡ stages_more place new.now) }
    ensures later { IfOk result IsLaterCall }
{
    let piece = Bytes::of(alloc, piece_at(new.bytes.as_slice(), place))?;
    Ok(Call::Append(Name::Staged(new.table), piece))
}

/// The call of `move_table`.
pub fn move_call(new: &NewTable) -> Call
    ensures names { call_of result ≡ installs new.now }
    ensures later { IsLaterCall result }
{
    Call::Rename(Name::Staged(new.table), Name::Table(new.table))
}

/// Writes the first piece of the bytes of a listed table to its staging name.
///
/// At `Failed` it, or other bytes, may stand there; at `Memory` nothing is changed.
pub fn stage_table<F: Folder>(by: &Token, new: &NewTable, folder: &mut F) -> Result<(), FolderFault>
    requires { MayAct (F.moment folder.old) by.now }
    ensures { CallsFolder (F.moment folder.old) (F.moment folder.new) by.now (stages new.now)
        result }
{
    let piece = piece_at(new.bytes.as_slice(), 0);
    folder.write(by, Name::Staged(new.table), piece)
}

/// Appends the piece at the place, from 0, of the bytes of a listed table to those that are staged.
///
/// At `Failed` any bytes may stand there; at `Memory` nothing is changed.
pub fn append_table<F: Folder>(
    by: &Token,
    new: &NewTable,
    place: usize,
    folder: &mut F,
) -> Result<(), FolderFault>
    requires { MayAct (F.moment folder.old) by.now }
    ensures { CallsFolder (F.moment folder.old) (F.moment folder.new) by.now
        (stages_more place new.now) result }
{
    let piece = piece_at(new.bytes.as_slice(), place);
    folder.append(by, Name::Staged(new.table), piece)
}

/// How many pieces of a text are left to append, once so many are staged; none before its write.
pub fn pieces_left(staged: usize, text: &[u8]) -> usize
    ensures { result ≡ pieces_left staged text.now }
{
    if staged == 0 {
        0
    } else {
        piece_count(text).saturating_sub(staged)
    }
}

/// Moves the staged bytes of a listed table to its place.
///
/// At `Failed` they may be there; at `Memory` nothing is changed.
pub fn move_table<F: Folder>(by: &Token, new: &NewTable, folder: &mut F) -> Result<(), FolderFault>
    requires { MayAct (F.moment folder.old) by.now }
    ensures { CallsFolder (F.moment folder.old) (F.moment folder.new) by.now (installs new.now)
        result }
{
    folder.rename(by, Name::Staged(new.table), Name::Table(new.table))
}

/// Removes the intent, once all tables that it lists are in place.
///
/// At `Failed` it may be gone; at `Memory` nothing is changed.
pub fn remove_intent<F: Folder>(by: &Token, folder: &mut F) -> Result<(), FolderFault>
    requires { MayAct (F.moment folder.old) by.now }
    ensures { CallsFolder (F.moment folder.old) (F.moment folder.new) by.now (removes Intent)
        result }
{
    folder.remove(by, Name::Intent)
}
