// The numbers that the ranges of a file take, and the gaps between them (useradd(8), subuid(5),
// subgid(5)).
ghost use Rattle.std.specs.Prelude.{◌≡◌, ℕ, ◌+◌, ◌-◌, ◌<◌, ◌≤◌, ◌&&◌, ◌||◌, not, [], None, IfOk, MatchOption, OnOk};
ghost use Rattle.std.specs.Option.{ForSome};
ghost use Rattle.acct_text.specs.Lines.{lines_of};
ghost use Rattle.account_model.specs.FreeRange.{free_range};
ghost use Rattle.account_model.specs.Ids.{in_range};
ghost use Rattle.subid_ranges.specs.Numbers.{MeetsRun, MissesRun};
ghost use Rattle.subid_ranges.specs.RangeLines.{ranges_of};

use crate::gathered::{Gathered, gather};
use crate::range_line::end_of;
use acct_lines::SubidLine;
use id_choice::{Run, Runs};
use std::alloc::{AllocError, Global};

/// The numbers that ranges take. The newest range stands apart until the next comes: `settle` takes
/// the memory for one more, and `put` adds it without, so whoever changes lines between the two has
/// nothing to undo.
#[derive(Drop)]
pub(crate) struct Taken {
    /// The numbers of all ranges, the newest perhaps not among them.
    pub runs: Runs,
    /// The newest range, where it isn't among the runs.
    pub newest: Option<Run>,
    ghost ordered: { ForSome newest (λ run. run.first ≤ run.last) },
}

impl Taken {
    ghost use Rattle.id_choice.specs.Used.{FindsLeast};
    ghost use Rattle.subid_ranges.specs.Taken.{AreFree, AreMet, IsGap, TakesThoseOf, is_taken};

    /// No number. It allocates nothing.
    pub(crate) fn new(alloc: Global) -> Taken
        ensures { TakesThoseOf [] result }
    {
        Taken {
            runs: Runs::new(alloc),
            newest: None,
        }
    }

    /// The numbers of the ranges of a file with these bytes, whose lines may stand in any order.
    pub(crate) fn of(alloc: Global, text: &[u8]) -> Result<Taken, AllocError>
        ensures { IfOk result (TakesThoseOf (ranges_of (lines_of text.now))) }
    {
        let ranges = gather(alloc, Vec::new(alloc), text)?;
        Ok(Taken {
            runs: Runs::of(alloc, ranges)?,
            newest: None,
        })
    }

    /// Takes the memory for one more range. The numbers stay the same, also at `AllocError`.
    pub(crate) fn settle(&mut self) -> Result<(), AllocError>
        ensures settled { OnOk result (self.new.newest ≡ None) }
        ensures same { (number : ℕ) → is_taken self.new number ≡ is_taken self.old number }
    {
        if let Some(run) = self.newest {
            self.runs.add(run.first, run.last)?;
            self.newest = None;
        }
        Ok(())
    }

    /// Adds the numbers from the first to the last.
    pub(crate) fn put(&mut self, first: u32, last: u32)
        requires settled { self.old.newest ≡ None }
        requires ordered { first ≤ last }
        ensures { (number : ℕ) → is_taken self.new number
            ≡ (in_range first last number || is_taken self.old number) }
    {
        self.newest = Some(Run { first, last });
    }

    /// Takes the numbers from the first to the last out.
    pub(crate) fn remove(&mut self, first: u32, last: u32) -> Result<(), AllocError>
        requires { first ≤ last }
        ensures { OnOk result ((number : ℕ) → is_taken self.new number
            ≡ (is_taken self.old number && not (in_range first last number))) }
    {
        self.settle()?;
        self.runs.remove_all(first, last)
    }

    /// The least start, from `min` on, of `count` numbers of which none passes `max` and none is
    /// taken.
    ///
    /// Where the numbers from a start on meet a run, so do those from each later start within the
    /// run: the next start to try is behind it.
    pub(crate) fn free_gap(&self, min: u32, max: u32, count: u32) -> Option<u32>
        requires { 0 < count }
        ensures { FindsLeast (IsGap min max count self.now) result }
    {
        let mut start = min;
        'starts: while let Some(last) = last_of(start, count, max) {
            match self.last_met(start, last) {
                None => return Some(start),
                Some(end) if end < max => start = end + 1,
                Some(_) => return None,
            }
        }
        None
    }

    /// Where a run or the newest range ends that has one of the numbers from the first to the last.
    pub(crate) fn last_met(&self, first: u32, last: u32) -> Option<u32>
        requires { first ≤ last }
        ensures { MatchOption result (AreFree self.now first last) (AreMet self.now first last) }
    {
        match end_where_met(self.newest, first, last) {
            Some(end) => Some(end),
            None => end_where_met(self.runs.last_up_to(last), first, last),
        }
    }
}

impl Gathered for Vec<Run> {
    ghost use Rattle.subid_ranges.specs.Taken.{AreRunsOf};
    ghost use Rattle.std.specs.Vec.{vec_items};

    ghost is_of = { λ ranges runs. AreRunsOf ranges (vec_items runs) };

    fn note(&mut self, _alloc: Global, range: &SubidLine<'_>) -> Result<(), AllocError> {
        self.push(Run {
            first: range.first,
            last: end_of(range),
        })?;
        Ok(())
    }
}

impl Gathered for Taken {
    ghost use Rattle.subid_ranges.specs.Taken.{TakesThoseOf};

    ghost is_of = { TakesThoseOf };

    fn note(&mut self, _alloc: Global, range: &SubidLine<'_>) -> Result<(), AllocError> {
        self.settle()?;
        self.put(range.first, end_of(range));
        Ok(())
    }
}

/// The least start, from `min` on, of `count` IDs of which none passes `max` and none lies in a
/// range of a file with these bytes; none where there is no such start.
pub fn free_gap_in(
    alloc: Global,
    text: &[u8],
    min: u32,
    max: u32,
    count: u32,
) -> Result<Option<u32>, AllocError>
    requires { 0 < count }
    ensures { IfOk result (λ start.
        start ≡ free_range min max count (ranges_of (lines_of text.now))) }
{
    let taken = Taken::of(alloc, text)?;
    Ok(taken.free_gap(min, max, count))
}

// Where the run ends, if there is one and it has one of the numbers from the first to the last.
fn end_where_met(run: Option<Run>, first: u32, last: u32) -> Option<u32>
    ensures { MatchOption result (MissesRun run first last) (MeetsRun run first last) }
{
    let run = run?;
    if run.first <= last && first <= run.last {
        Some(run.last)
    } else {
        None
    }
}

// The last of `count` numbers from a start on, where it doesn't pass the maximum.
fn last_of(start: u32, count: u32, max: u32) -> Option<u32>
    requires { 0 < count }
    ensures { MatchOption result (max < start + count - 1)
        (λ last. (last ≡ start + count - 1) × (last ≤ max)) }
{
    let last = u64::from(start) + u64::from(count) - 1;
    if last > u64::from(max) {
        return None;
    }
    Some(last as u32)
}
