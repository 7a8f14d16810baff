// The plan of calls that fail in a folder in memory.
ghost use Rattle.std.specs.Prelude.{◌≡◌, ◌≤◌, IfOk};
ghost use Rattle.acct_outside.specs.Faults.{HasRisen, next_count};
ghost use Rattle.memory_folder.specs.Plan.{planned_effect};

use crate::Effect;
use std::alloc::AllocError;

/// A call of a folder in memory that fails: its number, counted from 1 over all calls but `enter`,
/// `answered` and `faults`, and what it does.
#[derive(Drop)]
pub struct Mishap {
    /// The number of the call. Of several with one number the first counts.
    pub call: u64,
    /// What the call does. It counts as `Nothing` where the call can't have done that.
    pub effect: Effect,
}

/// The plan with the calls and the faults so far.
#[derive(Drop)]
pub(crate) struct Mishaps {
    pub plan: Vec<Mishap>,
    pub calls: u64,
    pub faults: u64,
}

impl Mishaps {
    /// Counts a call.
    pub(crate) fn count(&mut self)
        ensures { self.new ≡ record self.old { calls = next_count self.old.calls } }
    {
        self.calls = risen(self.calls);
    }

    /// Counts a fault.
    pub(crate) fn fail(&mut self)
        ensures counted { self.new ≡ record self.old { faults = next_count self.old.faults } }
        ensures rises { HasRisen self.old.faults self.new.faults }
        ensures falls_not { self.old.faults ≤ self.new.faults }
    {
        self.faults = risen(self.faults);
    }

    /// What the call that was counted last is to do as it fails, and None where it isn't to fail.
    pub(crate) fn planned(&self) -> Result<Option<Effect>, AllocError>
        ensures { IfOk result
            (λ effect. effect ≡ planned_effect self.now.calls self.now.plan.items) }
    {
        for mishap in &self.plan {
            if mishap.call == self.calls {
                return Ok(Some(mishap.effect.copy()?));
            }
        }
        Ok(None)
    }
}

/// A count with one more, up to its end.
pub(crate) fn risen(count: u64) -> u64
    ensures next { result ≡ next_count count }
    ensures rises { HasRisen count result }
    ensures falls_not { count ≤ result }
{
    if count == u64::MAX { count } else { count + 1 }
}
