// The state of a keeper after its commit, whose intent stands. `go_on` makes its next call, and leads back
// to the keeper once all tables that differ are in place and the intent is removed.
ghost use Rattle.std.specs.Prelude.{◌≡◌, ◌<◌, false, true, IfOk};
ghost use Rattle.acct_outside.specs.Contract.{CallsFolder, MayAct};
ghost use Rattle.suite_rules.specs.Steps.{StandsIn};
ghost use Rattle.suite_rules.specs.Outcomes.{installs, stages};
ghost use Rattle.lock_steps.specs.NextCall.{IsNextCall};
ghost use Rattle.commit_steps.specs.NextCall.{installing_call};
ghost use Rattle.commit_steps.specs.States.{append_on, has_staged, install_pieces, step_on, steps_left, walk_of};
ghost use Rattle.commit_steps.specs.Stands.{Installs};
ghost use Rattle.commit_steps.specs.Walks.{InstallsOn, token_of};

use crate::prepared::Prepared;
use crate::walking::{Walked, Walking};
use acct_outside::{Call, CommitStage, Folder, FolderFault, Name, StageFault, Token, piece_count};
use intent_file::NewTable;
use lock_steps::{Clean, Keeper};
use recovery::{
    append_call, append_table, leads, move_call, move_table, pieces_left, remove_intent,
    stage_call, stage_table,
};
use std::alloc::{AllocError, Global};
use std::marker::Model;

/// A keeper that has committed, and puts the tables that differ in place.
#[derive(Drop)]
pub struct Installing {
    walking: Walking,
}

impl Model for Installing {
    ghost use Rattle.commit_steps.specs.States.{Walker};

    ghost Value = { Walker };

    ghost view = { λ installing. installing.walking };
}

/// Where the next call of an installation leads to.
pub type Installed = Walked<Installing, Keeper<Clean>>;

impl Installing {
    /// The change before its first table is in place.
    pub(crate) fn start(prepared: Prepared) -> Self
        ensures { result ≡ walk_of prepared }
    {
        Installing {
            walking: Walking::start(prepared),
        }
    }

    // How many steps are left: for each table that differs the write and then the rename. The appends
    // aren't counted.
    fn left(&self) -> usize
        ensures { result ≡ steps_left self.now }
    {
        self.walking.left()
    }

    // How many pieces of the next table are left to append.
    fn pieces(&self) -> usize
        ensures { result ≡ install_pieces self.now }
    {
        if self.left() == 0 {
            return 0;
        }
        pieces_left(self.walking.staged(), self.walking.next().bytes.as_slice())
    }

    /// The call that `go_on` makes. The error says that memory ran out for the piece.
    pub fn next_call(&self, alloc: Global) -> Result<Call, AllocError>
        ensures { IfOk result (IsNextCall (Installs self.now) (installing_call self.now)) }
    {
        if self.left() == 0 {
            return Ok(Call::Remove(Name::Intent));
        }
        if self.pieces() != 0 {
            return append_call(alloc, self.walking.next(), self.walking.staged());
        }
        self.install_call(alloc)
    }

    // The call for the next table.
    fn install_call(&self, alloc: Global) -> Result<Call, AllocError>
        requires left { 0 < steps_left self.now }
        requires whole { install_pieces self.now ≡ 0 }
        ensures { IfOk result (IsNextCall (Installs self.now) (installing_call self.now)) }
    {
        let next = self.walking.next();
        if self.walking.has_staged() {
            return Ok(move_call(next));
        }
        stage_call(alloc, next)
    }

    /// Makes the next call: it stages the first piece of the next table's new bytes, appends a further one
    /// or moves them all to the table; with all tables in place it removes the intent.
    ///
    /// At a fault the keeper is spent, and the change stands; the intent may stand too.
    pub fn go_on<F: Folder>(self, folder: &mut F) -> Result<Installed, StageFault>
        requires { StandsIn (F.moment folder.old) (token_of self) (Installs self) }
        ensures { InstallsOn self (F.moment folder.old) (F.moment folder.new) result }
    {
        if self.left() == 0 {
            return self.clear(folder);
        }
        if self.pieces() == 0 {
            return self.install_next(folder);
        }
        let token = self.walking.prepared().token();
        let staged = self.walking.staged();
        let next = self.walking.next();
        let count = piece_count(next.bytes.as_slice());
        let appended = append_table(token, next, staged, folder);
        let walking = self.walking.append_on(count);
        let on = Walked::More(Installing { walking });
        leads(on, appended, CommitStage::Committed)
    }

    // Writes the first piece of the next table's new bytes, or moves them all to the table.
    fn install_next<F: Folder>(self, folder: &mut F) -> Result<Installed, StageFault>
        requires left { 0 < steps_left self }
        requires whole { install_pieces self ≡ 0 }
        requires stands { StandsIn (F.moment folder.old) (token_of self) (Installs self) }
        ensures { InstallsOn self (F.moment folder.old) (F.moment folder.new) result }
    {
        let token = self.walking.prepared().token();
        let is_staged = self.walking.has_staged();
        let called = install(token, self.walking.next(), is_staged, folder);
        let walking = self.walking.step_on();
        let on = Walked::More(Installing { walking });
        leads(on, called, CommitStage::Committed)
    }

    // Removes the intent, once all tables that differ are in place.
    fn clear<F: Folder>(self, folder: &mut F) -> Result<Installed, StageFault>
        requires left { steps_left self ≡ 0 }
        requires stands { StandsIn (F.moment folder.old) (token_of self) (Installs self) }
        ensures { InstallsOn self (F.moment folder.old) (F.moment folder.new) result }
    {
        let loaded = self.walking.into_prepared().into_loaded();
        let removed = remove_intent(loaded.keeper().token(), folder);
        leads(
            Walked::Done(loaded.release()),
            removed,
            CommitStage::Committed,
        )
    }
}

// Makes the next step for a table: the first piece of its new bytes is staged, and once all are, they are
// moved.
fn install<F: Folder>(
    by: &Token,
    new: &NewTable,
    is_staged: bool,
    folder: &mut F,
) -> Result<(), FolderFault>
    requires { MayAct (F.moment folder.old) by.now }
    ensures moved { is_staged ≡ true → CallsFolder (F.moment folder.old) (F.moment folder.new)
        by.now (installs new.now) result }
    ensures staged { is_staged ≡ false → CallsFolder (F.moment folder.old) (F.moment folder.new)
        by.now (stages new.now) result }
{
    if is_staged {
        move_table(by, new, folder)
    } else {
        stage_table(by, new, folder)
    }
}
