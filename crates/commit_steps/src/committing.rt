// The state of a keeper between its backups and its installations. `append_intent` puts the next piece
// behind those of the intent that are staged. Once none is left `commit` leads on: it is the one call by
// which the change is made.
ghost use Rattle.std.specs.Prelude.{◌≡◌, ◌<◌, ⊤, IfErr, IfOk};
ghost use Rattle.acct_outside.specs.declared.Name.TheVariants.{Intent, IntentStage};
ghost use Rattle.acct_outside.specs.Calls.{appends, renames};
ghost use Rattle.acct_outside.specs.Faults.{CountsFailure};
ghost use Rattle.suite_rules.specs.Deeds.{SuiteDeeds};
ghost use Rattle.suite_rules.specs.Steps.{StandsIn, MakesCall, StaysLawful, Leaves, TakesStep, asked, own_command};
ghost use Rattle.suite_rules.specs.Outcomes.{LeadsTo, at_commit, before_commit};
ghost use Rattle.lock_steps.specs.NextCall.{IsCallWhere};
ghost use Rattle.commit_steps.specs.NextCall.{MayCommit, committing_call};
ghost use Rattle.commit_steps.specs.States.{append_intent, intent_left, intent_piece, begun_of, walk_of};
ghost use Rattle.commit_steps.specs.Stands.{HasStagedIntent, Installs, IsDeed, StandsUnsure};

use crate::installing::Installing;
use crate::leads::commits;
use crate::prepared::Prepared;
use acct_outside::{Call, CommitStage, Folder, FolderFault, Name, StageFault};
use acct_text::Bytes;
use recovery::leads;
use std::alloc::{AllocError, Global};
use std::marker::Model;

/// A keeper that has backed up its tables, and stages its intent.
#[derive(Drop)]
pub struct IntentStaged {
    prepared: Prepared,
    /// How many first pieces of the intent are staged.
    staged: usize,
}

impl Model for IntentStaged {
    ghost use Rattle.commit_steps.specs.States.{Stager};

    ghost Value = { Stager };

    ghost view = { λ stager. record { change = stager.prepared; staged = stager.staged } };
}

impl IntentStaged {
    /// The change of which the intent's first piece is staged.
    pub(crate) fn of(prepared: Prepared) -> Self
        ensures { result ≡ begun_of prepared }
    {
        IntentStaged {
            prepared,
            staged: 1,
        }
    }

    /// How many pieces of the intent are left to append.
    pub fn pieces(&self) -> usize
        ensures { result ≡ intent_left self.now }
    {
        self.prepared.intent_pieces().saturating_sub(self.staged)
    }

    /// The call that it makes next: that of `append_intent`, or of `commit` once no piece is left, which is
    /// lawful where the new files are the deed of what the session was asked. The error says that memory
    /// ran out for the piece.
    pub fn next_call(&self, alloc: Global) -> Result<Call, AllocError>
        ensures { IfOk result (IsCallWhere ⊤ (MayCommit self.now) (committing_call self.now)) }
    {
        if self.pieces() == 0 {
            return Ok(Call::Rename(Name::IntentStage, Name::Intent));
        }
        let piece = Bytes::of(alloc, self.prepared.intent_piece(self.staged))?;
        Ok(Call::Append(Name::IntentStage, piece))
    }

    /// Appends the next piece of the intent to those that are staged.
    ///
    /// At a fault the keeper is spent, and nothing is committed.
    pub fn append_intent<F: Folder>(self, folder: &mut F) -> Result<Self, StageFault>
        requires pieces { 0 < intent_left self }
        requires stands { StandsIn (F.moment folder.old) self.change.inputs.keeper.token
            (HasStagedIntent self) }
        ensures { TakesStep (F.moment folder.old) (F.moment folder.new)
            self.change.inputs.keeper.token
            (appends IntentStage (intent_piece self.staged self.change))
            (λ answer. LeadsTo (append_intent self) before_commit answer result) HasStagedIntent
            own_command (before_commit FolderFault.Failed) result }
    {
        let count = self.prepared.intent_pieces();
        let piece = self.prepared.intent_piece(self.staged);
        let appended = folder.append(self.prepared.token(), Name::IntentStage, piece);
        leads(self.append_on(count), appended, CommitStage::Before)
    }

    // One piece more is staged, of so many.
    fn append_on(mut self, count: usize) -> Self
        requires { self.staged < count }
        ensures { result ≡ append_intent self }
    {
        self.staged += 1;
        self
    }

    /// Moves the staged intent to its name, once no piece is left to append: done, the change stands, and whoever becomes keeper after
    /// a death carries it out.
    ///
    /// It is lawful where the new files are the deed of what the session was asked. At a fault the
    /// keeper is spent. `Failed` has the stage Unsure, as the rename may have happened; `Memory` has
    /// the stage Before.
    pub fn commit<F: Folder>(self, folder: &mut F) -> Result<Installing, StageFault>
        requires whole { intent_left self ≡ 0 }
        requires stands { StandsIn (F.moment folder.old) self.change.inputs.keeper.token
            (HasStagedIntent self) }
        ensures call { MakesCall (F.moment folder.old) (F.moment folder.new)
            self.change.inputs.keeper.token (renames IntentStage Intent)
            (λ answer. LeadsTo (walk_of self.change) at_commit answer result) }
        ensures next { IfOk result (λ installing. StandsIn (F.moment folder.new)
            self.change.inputs.keeper.token (Installs installing)) }
        ensures unsure { IfErr result
            (StandsUnsure (F.moment folder.new).told self.change.inputs.keeper.token) }
        ensures own { Leaves asked self.change.inputs.keeper.token (F.moment folder.old)
            (F.moment folder.new) }
        ensures lawful { (deeds : SuiteDeeds) →
            StandsIn (F.moment folder.old) self.change.inputs.keeper.token
            (IsDeed deeds self.change)
            → StaysLawful deeds (F.moment folder.old) (F.moment folder.new) }
        ensures faults { CountsFailure (at_commit FolderFault.Failed) (F.moment folder.old).faults
            (F.moment folder.new).faults result }
    {
        let token = self.prepared.token();
        let moved = folder.rename(token, Name::IntentStage, Name::Intent);
        commits(Installing::start(self.prepared), moved)
    }
}
