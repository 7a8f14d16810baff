// The state of a keeper that backs up the tables that differ, before its commit. `go_on` makes its next
// call, and leads to `IntentStaged` once all are backed up.
ghost use Rattle.std.specs.Prelude.{◌≡◌, ◌<◌, false, true, IfOk, IsSome, IsSomeAnd};
ghost use Rattle.acct_outside.specs.Calls.{renames, writes};
ghost use Rattle.acct_outside.specs.Contract.{CallsFolder, MayAct};
ghost use Rattle.acct_outside.specs.Pieces.{piece_at};
ghost use Rattle.suite_rules.specs.Steps.{StandsIn};
ghost use Rattle.lock_steps.specs.NextCall.{IsNextCall};
ghost use Rattle.commit_steps.specs.NextCall.{backing_call};
ghost use Rattle.commit_steps.specs.States.{append_on, backup_pieces, has_staged, next_table, old_bytes, old_files, step_on, steps_left, walk_of};
ghost use Rattle.commit_steps.specs.Stands.{BacksUp};
ghost use Rattle.commit_steps.specs.Walks.{BacksOn, token_of};

use crate::committing::IntentStaged;
use crate::prepared::Prepared;
use crate::walking::{Walked, Walking};
use acct_outside::{
    Call, CommitStage, Folder, FolderFault, Name, StageFault, piece_at, piece_count,
};
use acct_text::{Bytes, Tab};
use recovery::{leads, pieces_left};
use std::alloc::{AllocError, Global};
use std::marker::Model;

/// A keeper that backs up the tables that differ, and then stages the intent.
#[derive(Drop)]
pub struct Backing {
    walking: Walking,
}

impl Model for Backing {
    ghost use Rattle.commit_steps.specs.States.{Walker};

    ghost Value = { Walker };

    ghost view = { λ backing. backing.walking };
}

/// Where the next call of a backup leads to.
pub type Backed = Walked<Backing, IntentStaged>;

impl Backing {
    /// The change before its first backup.
    pub(crate) fn start(prepared: Prepared) -> Self
        ensures { result ≡ walk_of prepared }
    {
        Backing {
            walking: Walking::start(prepared),
        }
    }

    // How many steps are left: for each table that differs the write and then the rename. The appends
    // aren't counted.
    fn left(&self) -> usize
        ensures { result ≡ steps_left self.now }
    {
        self.walking.left()
    }

    // How many pieces of the next table's old bytes are left to append.
    fn pieces(&self) -> usize
        ensures { result ≡ backup_pieces self.now }
    {
        if self.left() == 0 {
            return 0;
        }
        pieces_left(self.walking.staged(), self.old())
    }

    // The old bytes of the next table.
    fn old(&self) -> &[u8]
        requires { 0 < steps_left self.now }
        ensures { IsSomeAnd (next_table self.now)
            (λ next. result.now ≡ old_bytes self.now.change next.table) }
    {
        let table = self.walking.next().table;
        self.walking.prepared().old(table).as_slice()
    }

    /// The call that `go_on` makes. The error says that memory ran out for the piece.
    pub fn next_call(&self, alloc: Global) -> Result<Call, AllocError>
        ensures { IfOk result (IsNextCall (BacksUp self.now) (backing_call self.now)) }
    {
        if self.left() == 0 {
            return self.intent_call(alloc);
        }
        if self.pieces() != 0 {
            return self.append_call(alloc);
        }
        self.backup_call(alloc)
    }

    // The write of the intent's first piece.
    fn intent_call(&self, alloc: Global) -> Result<Call, AllocError>
        requires { steps_left self.now ≡ 0 }
        ensures { IfOk result (IsNextCall (BacksUp self.now) (backing_call self.now)) }
    {
        let piece = Bytes::of(alloc, self.walking.prepared().intent_piece(0))?;
        Ok(Call::Write(Name::IntentStage, piece))
    }

    // The append of the next piece of the next table's old bytes.
    fn append_call(&self, alloc: Global) -> Result<Call, AllocError>
        requires left { 0 < steps_left self.now }
        requires pieces { 0 < backup_pieces self.now }
        ensures { IfOk result (IsNextCall (BacksUp self.now) (backing_call self.now)) }
    {
        let piece = Bytes::of(alloc, piece_at(self.old(), self.walking.staged()))?;
        Ok(Call::Append(Name::BackupStage, piece))
    }

    // The step for the backup of the next table.
    fn backup_call(&self, alloc: Global) -> Result<Call, AllocError>
        requires left { 0 < steps_left self.now }
        requires whole { backup_pieces self.now ≡ 0 }
        ensures { IfOk result (IsNextCall (BacksUp self.now) (backing_call self.now)) }
    {
        if self.walking.has_staged() {
            let table = self.walking.next().table;
            return Ok(Call::Rename(Name::BackupStage, Name::Backup(table)));
        }
        let piece = Bytes::of(alloc, piece_at(self.old(), 0))?;
        Ok(Call::Write(Name::BackupStage, piece))
    }

    /// Makes the next call: it stages the first piece of the next table's old bytes, appends a further one
    /// or moves them all to its backup; with all tables backed up it stages the first piece of the intent.
    ///
    /// At a fault the keeper is spent, and nothing is committed.
    pub fn go_on<F: Folder>(self, folder: &mut F) -> Result<Backed, StageFault>
        requires { StandsIn (F.moment folder.old) (token_of self) (BacksUp self) }
        ensures { BacksOn self (F.moment folder.old) (F.moment folder.new) result }
    {
        if self.left() == 0 {
            return self.stage_intent(folder);
        }
        if self.pieces() == 0 {
            return self.back_up_next(folder);
        }
        let token = self.walking.prepared().token();
        let old = self.old();
        let count = piece_count(old);
        let piece = piece_at(old, self.walking.staged());
        let appended = folder.append(token, Name::BackupStage, piece);
        let walking = self.walking.append_on(count);
        let on = Walked::More(Backing { walking });
        leads(on, appended, CommitStage::Before)
    }

    // Writes the first piece of the next table's old bytes, or moves them all to its backup.
    fn back_up_next<F: Folder>(self, folder: &mut F) -> Result<Backed, StageFault>
        requires left { 0 < steps_left self }
        requires whole { backup_pieces self ≡ 0 }
        requires stands { StandsIn (F.moment folder.old) (token_of self) (BacksUp self) }
        ensures { BacksOn self (F.moment folder.old) (F.moment folder.new) result }
    {
        let table = self.walking.next().table;
        let is_staged = self.walking.has_staged();
        let called = back_up(self.walking.prepared(), table, is_staged, folder);
        let walking = self.walking.step_on();
        let on = Walked::More(Backing { walking });
        leads(on, called, CommitStage::Before)
    }

    // Writes the first piece of the intent to its staging name, once all tables that differ are backed up.
    fn stage_intent<F: Folder>(self, folder: &mut F) -> Result<Backed, StageFault>
        requires left { steps_left self ≡ 0 }
        requires stands { StandsIn (F.moment folder.old) (token_of self) (BacksUp self) }
        ensures { BacksOn self (F.moment folder.old) (F.moment folder.new) result }
    {
        let prepared = self.walking.into_prepared();
        let piece = prepared.intent_piece(0);
        let written = folder.write(prepared.token(), Name::IntentStage, piece);
        leads(
            Walked::Done(IntentStaged::of(prepared)),
            written,
            CommitStage::Before,
        )
    }
}

// Makes the next step for the backup of a table: the first piece of its old bytes is staged, and once all
// are, they are moved.
fn back_up<F: Folder>(
    prepared: &Prepared,
    table: Tab,
    is_staged: bool,
    folder: &mut F,
) -> Result<(), FolderFault>
    requires acts { MayAct (F.moment folder.old) prepared.now.inputs.keeper.token }
    requires stands { IsSome (old_files prepared.now table) }
    ensures moved { is_staged ≡ true → CallsFolder (F.moment folder.old) (F.moment folder.new)
        prepared.now.inputs.keeper.token (renames Name.BackupStage (Name.Backup table)) result }
    ensures staged { is_staged ≡ false → CallsFolder (F.moment folder.old) (F.moment folder.new)
        prepared.now.inputs.keeper.token
        (writes Name.BackupStage (piece_at 0 (old_bytes prepared.now table))) result }
{
    if is_staged {
        return folder.rename(prepared.token(), Name::BackupStage, Name::Backup(table));
    }
    let piece = piece_at(prepared.old(table).as_slice(), 0);
    folder.write(prepared.token(), Name::BackupStage, piece)
}
