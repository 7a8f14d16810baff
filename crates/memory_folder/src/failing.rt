// The calls of a stream or clock in memory that fail.
ghost use Rattle.std.specs.Prelude.{◌≡◌, ◌≤◌, IsTrue, ◌↔◌, Contains, false, if◌then◌else◌};
ghost use Rattle.acct_outside.specs.Faults.{HasRisen, next_count};

use crate::mishap::risen;

/// The numbers of the calls that fail, with the calls and the faults so far, and whether the last call
/// was one.
#[derive(Drop)]
pub(crate) struct Failing {
    pub failing: Vec<u64>,
    pub calls: u64,
    pub faults: u64,
    pub last_failed: bool,
}

impl Failing {
    /// These calls fail, counted from 1.
    pub(crate) fn new(failing: Vec<u64>) -> Self
        ensures failing { result.failing.items ≡ failing.items }
        ensures calls { result.calls ≡ 0 }
        ensures faults { result.faults ≡ 0 }
        ensures last { result.last_failed ≡ false }
    {
        Failing {
            failing,
            calls: 0,
            faults: 0,
            last_failed: false,
        }
    }

    /// Counts a call, and says whether it fails.
    pub(crate) fn next(&mut self) -> bool
        ensures fails { IsTrue result ↔ Contains self.old.failing.items
            (next_count self.old.calls) }
        ensures faults { self.new.faults
            ≡ (if result then next_count self.old.faults else self.old.faults) }
        ensures falls_not { self.old.faults ≤ self.new.faults }
        ensures rises { IsTrue result → HasRisen self.old.faults self.new.faults }
        ensures calls { self.new.calls ≡ next_count self.old.calls }
        ensures failing { self.new.failing.items ≡ self.old.failing.items }
        ensures last { self.new.last_failed ≡ result }
    {
        self.calls = risen(self.calls);
        self.last_failed = self.failing.contains(&self.calls);
        if self.last_failed {
            self.faults = risen(self.faults);
        }
        self.last_failed
    }
}
