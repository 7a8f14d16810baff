// The numbers that the ranges of a file take, which follow ranges that come and go (useradd(8),
// userdel(8), subuid(5), subgid(5)).
ghost use Rattle.std.specs.Prelude.{◌≡◌, ◌<◌, ◌≤◌, ◌↔◌, ◌∷◌, ◌++◌, [], false, true, IfOk, IsTrue, List, MatchOption, OnOk};
ghost use Rattle.std.specs.List.{AllByRecursion};
ghost use Rattle.acct_text.specs.Lines.{Line, lines_of};
ghost use Rattle.account_model.specs.Records.{greatest_id, last_id, subid_format};
ghost use Rattle.account_model.specs.Written.{IsWritten};
ghost use Rattle.account_model.specs.declared.records.SubidRecord.{SubidRecord};
ghost use Rattle.account_model.specs.FreeRange.{free_range};
ghost use Rattle.subid_ranges.specs.Gathered.{GathersMore};
ghost use Rattle.subid_ranges.specs.RangeLines.{ranges_of};

use crate::gathered::{Gathered, gather};
use crate::range_line::end_of;
use crate::taken::Taken;
use acct_lines::{SubidLine, SubidRecord};
use std::alloc::{AllocError, Global};

/// The numbers that the ranges of a file take, which follow ranges that come and go. No answer takes a
/// pass over the lines.
#[derive(Drop)]
pub struct RangeNumbers {
    taken: Taken,
    // whether no two of the ranges have a number in common
    are_apart: bool,
}

impl RangeNumbers {
    ghost use Rattle.subid_ranges.specs.RangeNumbers.{AreApart, AreNumbersOf, LosesRange, LosesRanges};

    /// Those of the ranges of a file with these bytes, in one pass.
    pub fn of(alloc: Global, text: &[u8]) -> Result<RangeNumbers, AllocError>
        ensures { IfOk result (AreNumbersOf (ranges_of (lines_of text.now))) }
    {
        gather(alloc, RangeNumbers::new(alloc), text)
    }

    // No range.
    fn new(alloc: Global) -> RangeNumbers
        ensures { AreNumbersOf [] result }
    {
        RangeNumbers {
            taken: Taken::new(alloc),
            are_apart: true,
        }
    }

    /// Adds a range, which comes behind the others. At `AllocError` nothing is known of the numbers
    /// from then on.
    pub fn add(&mut self, alloc: Global, range: &SubidRecord) -> Result<(), AllocError>
        requires { IsWritten subid_format range.now }
        ensures { OnOk result (GathersMore AreNumbersOf (range.now ∷ []) self.old self.new) }
    {
        let line = SubidLine {
            owner: range.owner.as_slice(),
            first: range.first,
            count: range.count,
        };
        self.note(alloc, &line)
    }

    /// Takes the numbers of a range out, which is one of the ranges.
    ///
    /// It answers `false` and leaves the numbers as they are where two of the ranges have a number in
    /// common, as others may hold those of this one; so it does for a range of no number, or of one
    /// past `u32::MAX`. At `AllocError` nothing is known of the numbers from then on.
    pub fn remove(&mut self, range: &SubidRecord) -> Result<bool, AllocError>
        ensures removed { IfOk result (λ goes.
            goes ≡ true → LosesRange range.now self.old self.new) }
        ensures stays { IfOk result (λ goes. goes ≡ false → self.new ≡ self.old) }
        ensures answered { IfOk result (λ goes. (ranges : List SubidRecord) →
            AreNumbersOf ranges self.old → IsWritten subid_format range.now →
            (IsTrue goes ↔ AreApart ranges)) }
    {
        match last_of(range) {
            Some(last) if self.are_apart => {
                self.taken.remove(range.first, last)?;
                Ok(true)
            }
            _ => Ok(false),
        }
    }

    /// Takes the numbers of these ranges out, which are among the ranges.
    ///
    /// It answers `false` where two of the ranges have a number in common, as `remove` does; nothing is
    /// known of the numbers from then on, nor at `AllocError`.
    pub fn remove_each(&mut self, ranges: &[SubidRecord]) -> Result<bool, AllocError>
        ensures removed { IfOk result (λ goes.
            goes ≡ true → LosesRanges ranges.now self.old self.new) }
        ensures answered { IfOk result (λ goes. (kept : List SubidRecord) →
            AreNumbersOf (ranges.now ++ kept) self.old →
            AllByRecursion (IsWritten subid_format) ranges.now →
            AreApart (ranges.now ++ kept) → goes ≡ true) }
    {
        'pieces: for range in ranges {
            if !self.remove(range)? {
                return Ok(false);
            }
        }
        Ok(true)
    }

    /// The least start, from `min` on, of `count` IDs of which none passes `max` and none lies in a
    /// range of any owner; none where there is no such start.
    pub fn free_gap(&self, min: u32, max: u32, count: u32) -> Option<u32>
        requires { 0 < count }
        ensures { (lines : List Line) → AreNumbersOf (ranges_of lines) self.now
            → result ≡ free_range min max count (ranges_of lines) }
    {
        self.taken.free_gap(min, max, count)
    }
}

impl Gathered for RangeNumbers {
    ghost use Rattle.subid_ranges.specs.RangeNumbers.{AreNumbersOf};

    ghost is_of = { AreNumbersOf };

    fn note(&mut self, alloc: Global, range: &SubidLine<'_>) -> Result<(), AllocError> {
        if self.taken.last_met(range.first, end_of(range)).is_some() {
            self.are_apart = false;
        }
        self.taken.note(alloc, range)
    }
}

// The last ID of a range; none where it has no ID, or where that passes the greatest.
fn last_of(range: &SubidRecord) -> Option<u32>
    ensures { MatchOption result (0 < range.now.count → greatest_id < last_id range.now)
        (λ last. (last ≡ last_id range.now) × (range.now.first ≤ last)) }
{
    range.first.checked_add(range.count.checked_sub(1)?)
}
