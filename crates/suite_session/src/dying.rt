// The death of a session in its next call, in a folder in memory.
ghost use Rattle.std.specs.Prelude.{◌≡◌, OnErr, OnOk};
ghost use Rattle.memory_folder.specs.Memory.{faults_of, journal_of, moment_of, past_of};
ghost use Rattle.suite_session.specs.Belongs.{Belongs};
ghost use Rattle.suite_session.specs.Dying.{SessionDies};
ghost use Rattle.suite_session.specs.Stands.{StaysOurs};
ghost use Rattle.suite_session.specs.Turning.{KeepsOthers};

use crate::runner::{Runner, memory_answer};
use crate::session::{Phase, Session};
use crate::state::State;
use crate::tools::Tools;
use crate::turning::asks_once;
use acct_outside::CommitStage;
use memory_folder::{Effect, MemoryFolder};
use std::alloc::{AllocError, Global};
use std::mem;

impl<T: Tools> Session<T> {
    /// Lets the session die within its next call, which had this effect as far as it can have had it. A
    /// lawful history stays lawful, and each other session that belongs to the folder does so still.
    ///
    /// One that hasn't begun ends without an event, as one that found no memory for its begin. Where no
    /// call is left, nothing changes. The error says that memory ran out, and nothing is changed then.
    pub fn die(&mut self, folder: &mut MemoryFolder, effect: Effect) -> Result<(), AllocError>
        requires { Belongs (moment_of folder.old) self.old }
        ensures dies { OnOk result
            (SessionDies (past_of folder.old) (past_of folder.new) effect self.old self.new) }
        ensures kept { OnErr result (self.new ≡ self.old) }
        ensures told { OnErr result (past_of folder.new ≡ past_of folder.old) }
        ensures faults { faults_of folder.new ≡ faults_of folder.old }
        ensures journal { journal_of folder.new ≡ journal_of folder.old }
        ensures lawful { StaysOurs (moment_of folder.old) (moment_of folder.new) }
        ensures others { KeepsOthers (moment_of folder.old) (moment_of folder.new)
            self.old self.new }
    {
        if let Phase::Waiting(asked) = &self.phase {
            let answer = memory_answer(self.alloc, CommitStage::Before);
            let unbegun = Phase::Unbegun(asked.tool(), answer);
            drop(mem::replace(&mut self.phase, unbegun));
            return Ok(());
        }
        if let Phase::Begun(runner, state) = &self.phase {
            return die_in(self.alloc, runner, state, folder, effect);
        }
        Ok(())
    }
}

// Lets a session that has begun die within the call of its state.
fn die_in(
    alloc: Global,
    runner: &Runner,
    state: &State,
    folder: &mut MemoryFolder,
    effect: Effect,
) -> Result<(), AllocError>
    requires { Belongs (moment_of folder.old) (Phase.Begun runner.now state.now) }
    ensures dies { OnOk result (SessionDies (past_of folder.old) (past_of folder.new) effect
        (Phase.Begun runner.now state.now) (Phase.Begun runner.now state.now)) }
    ensures told { OnErr result (past_of folder.new ≡ past_of folder.old) }
    ensures faults { faults_of folder.new ≡ faults_of folder.old }
    ensures journal { journal_of folder.new ≡ journal_of folder.old }
    ensures lawful { StaysOurs (moment_of folder.old) (moment_of folder.new) }
    ensures others { KeepsOthers (moment_of folder.old) (moment_of folder.new)
        (Phase.Begun runner.now state.now) (Phase.Begun runner.now state.now) }
{
    asks_once(&runner.asked);
    let call = state.next_call(alloc)?;
    folder.die(&runner.token, call, effect)
}
