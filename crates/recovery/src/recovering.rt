// The states of a keeper that carries out an intent that stands and reads:
//
// 1. `Recovering`: the tables that were moved are in place, the others of the list are left.
//    `stage_next` writes the first piece of the first that is left, and leads to `Moving`.
// 2. `Moving`: some pieces are staged. `append_next` puts the next behind them; once none is left
//    `move_next` moves them to their table, and leads back to `Recovering` with one table less.
// 3. `Keeper<Clean>`: no table is left. `remove_intent` leads to it from `Recovering`.
ghost use Rattle.std.specs.Prelude.{◌≡◌, ◌<◌, length, drop, slice_get, IfOk, IsErrOf, OnOk, Some};
ghost use Rattle.acct_outside.specs.declared.Name.TheVariants.{Intent as IntentName};
ghost use Rattle.acct_outside.specs.Calls.{removes};
ghost use Rattle.suite_rules.specs.Steps.{StandsIn, own_command, TakesStep, TakesNext};
ghost use Rattle.suite_rules.specs.Outcomes.{before_commit, LeadsTo, stages, stages_more, installs};
ghost use Rattle.lock_steps.specs.Stands.{Keeps, KnowsNone, KnowsNoneYet};
ghost use Rattle.lock_steps.specs.NextCall.{IsNextCall};
ghost use Rattle.recovery.specs.NextCall.{moving_call, recovering_call};
ghost use Rattle.recovery.specs.States.{appended_once, moved_once, mover_of, moving_pieces};
ghost use Rattle.recovery.specs.Stands.{Recovers, HasStagedNext};
ghost use Rattle.recovery.specs.Outcomes.{failed_before};

use crate::carrying::{
    append_call, append_table, move_call, move_table, pieces_left, remove_intent, stage_call,
    stage_table,
};
use crate::leading::leads;
use crate::reading::at_before;
use acct_outside::{Call, CommitStage, Folder, FolderFault, Name, StageFault, Token, piece_count};
use intent_file::{Intent, NewTable};
use lock_steps::{Clean, Keeper, Unknown};
use std::alloc::{AllocError, Global};
use std::collections::VecDeque;
use std::marker::Model;

/// A keeper that carries out the intent, with the tables that are left.
#[derive(Drop)]
pub struct Recovering {
    keeper: Keeper<Unknown>,
    left: VecDeque<NewTable>,
}

impl Model for Recovering {
    ghost use Rattle.recovery.specs.States.{Recoverer};

    ghost Value = { Recoverer };

    ghost view = { λ recovering. record {
      keeper = recovering.keeper;
      left = recovering.left.items;
    } };
}

/// A keeper that stages the bytes of the first table that is left, with the pieces that it has staged.
#[derive(Drop)]
pub struct Moving {
    recovering: Recovering,
    staged: usize,
}

impl Model for Moving {
    ghost use Rattle.std.specs.Prelude.{◌<◌, length};
    ghost use Rattle.recovery.specs.States.{Mover, mover_of};

    ghost Value = { Mover };

    ghost view = { λ moving. mover_of moving.staged moving.recovering };

    ghost invariant = { λ moving. (0 < length moving.recovering.left) × (0 < moving.staged) };
}

impl Recovering {
    /// The recovery of an intent of which no table is moved.
    pub(crate) fn new(keeper: Keeper<Unknown>, intent: Intent) -> Self
        ensures { result ≡ record { keeper = keeper; left = intent.tables } }
    {
        Recovering {
            keeper,
            left: VecDeque::from(intent.into_tables()),
        }
    }

    /// How many of the listed tables are left to move.
    pub fn left(&self) -> usize
        ensures { result ≡ length self.now.left }
    {
        self.left.len()
    }

    // The token of its session.
    fn token(&self) -> &Token
        ensures { result.now ≡ self.now.keeper.token }
    {
        self.keeper.token()
    }

    // The first of the tables that are left.
    fn next(&self) -> &NewTable
        requires { 0 < length self.now.left }
        ensures { slice_get self.now.left 0 ≡ Some result.now }
    {
        &self.left[0]
    }

    /// The call that it makes next: that of `stage_next`, or of `remove_intent` once no table is left. The
    /// error says that memory ran out for the piece.
    pub fn next_call(&self, alloc: Global) -> Result<Call, AllocError>
        ensures { IfOk result (IsNextCall (Recovers self.now) (recovering_call self.now)) }
    {
        if self.left() == 0 {
            return Ok(Call::Remove(Name::Intent));
        }
        stage_call(alloc, self.next())
    }

    /// Writes the first piece of the first table that is left to its staging name.
    ///
    /// At a fault the keeper is spent, and the intent stands.
    pub fn stage_next<F: Folder>(self, folder: &mut F) -> Result<Moving, StageFault>
        requires left { 0 < length self.left }
        requires stands { StandsIn (F.moment folder.old) self.keeper.token (Recovers self) }
        ensures { TakesNext (F.moment folder.old) (F.moment folder.new) self.keeper.token
            (slice_get self.left 0) stages
            (λ next answer. LeadsTo (mover_of 1 self) before_commit answer result)
            HasStagedNext own_command failed_before result }
    {
        let staged = stage_table(self.token(), self.next(), folder);
        leads(self.begun(), staged, CommitStage::Before)
    }

    // Its first piece is staged.
    fn begun(self) -> Moving
        requires { 0 < length self.left }
        ensures { result ≡ mover_of 1 self }
    {
        Moving {
            recovering: self,
            staged: 1,
        }
    }

    // One table less is left.
    fn moved_once(mut self) -> Self
        ensures { result ≡ record self { left = drop 1 self.left } }
    {
        let _ = self.left.pop_front();
        self
    }

    /// Removes the intent, once no table is left.
    ///
    /// At a fault the keeper is spent, and the intent may stand.
    pub fn remove_intent<F: Folder>(self, folder: &mut F) -> Result<Keeper<Clean>, StageFault>
        requires left { length self.left ≡ 0 }
        requires stands { StandsIn (F.moment folder.old) self.keeper.token (Recovers self) }
        ensures { TakesStep (F.moment folder.old) (F.moment folder.new) self.keeper.token
            (removes IntentName) (λ answer. LeadsTo self.keeper before_commit answer result)
            (λ keeper. Keeps keeper KnowsNoneYet) own_command failed_before result }
    {
        let removed = remove_intent(self.token(), folder);
        self.after_removal(folder, removed)
    }

    // What the removal of the intent leads to.
    fn after_removal<F: Folder>(
        self,
        folder: &F,
        removed: Result<(), FolderFault>,
    ) -> Result<Keeper<Clean>, StageFault>
        requires { OnOk removed
            (StandsIn (F.moment folder.now) self.keeper.token (Keeps self.keeper KnowsNone)) }
        ensures shown { LeadsTo self.keeper before_commit removed result }
        ensures failed { IsErrOf result failed_before → IsErrOf removed FolderFault.Failed }
    {
        match removed {
            Ok(()) => Ok(self.keeper.cleaned(folder)),
            Err(fault) => Err(at_before(fault)),
        }
    }
}

impl Moving {
    /// How many pieces of the table are left to append.
    pub fn pieces(&self) -> usize
        ensures { result ≡ moving_pieces self.now }
    {
        pieces_left(self.staged, self.recovering.next().bytes.as_slice())
    }

    /// The call that it makes next: that of `append_next`, or of `move_next` once no piece is left. The
    /// error says that memory ran out for the piece.
    pub fn next_call(&self, alloc: Global) -> Result<Call, AllocError>
        ensures { IfOk result (IsNextCall (HasStagedNext self.now) (moving_call self.now)) }
    {
        if self.pieces() == 0 {
            return Ok(move_call(self.recovering.next()));
        }
        append_call(alloc, self.recovering.next(), self.staged)
    }

    /// Puts the next piece of the table behind those that are staged.
    ///
    /// At a fault the keeper is spent, and the intent stands.
    pub fn append_next<F: Folder>(self, folder: &mut F) -> Result<Self, StageFault>
        requires left { 0 < moving_pieces self }
        requires stands { StandsIn (F.moment folder.old) self.keeper.token (HasStagedNext self) }
        ensures { TakesNext (F.moment folder.old) (F.moment folder.new)
            self.keeper.token (slice_get self.left 0) (stages_more self.staged)
            (λ next answer. LeadsTo (appended_once self) before_commit answer result)
            HasStagedNext own_command failed_before result }
    {
        let next = self.recovering.next();
        let count = piece_count(next.bytes.as_slice());
        let appended = append_table(self.recovering.token(), next, self.staged, folder);
        leads(self.appended_once(count), appended, CommitStage::Before)
    }

    // One piece more is staged, of so many.
    fn appended_once(mut self, count: usize) -> Self
        requires { self.staged < count }
        ensures { result ≡ appended_once self }
    {
        self.staged += 1;
        self
    }

    /// Moves the staged bytes to their table, which is in place then, once no piece is left to append.
    ///
    /// At a fault the keeper is spent, and the intent stands.
    pub fn move_next<F: Folder>(self, folder: &mut F) -> Result<Recovering, StageFault>
        requires whole { moving_pieces self ≡ 0 }
        requires stands { StandsIn (F.moment folder.old) self.keeper.token (HasStagedNext self) }
        ensures { TakesNext (F.moment folder.old) (F.moment folder.new)
            self.keeper.token (slice_get self.left 0) installs
            (λ next answer. LeadsTo (moved_once self) before_commit answer result) Recovers
            own_command failed_before result }
    {
        let token = self.recovering.token();
        let moved = move_table(token, self.recovering.next(), folder);
        leads(self.recovering.moved_once(), moved, CommitStage::Before)
    }
}
