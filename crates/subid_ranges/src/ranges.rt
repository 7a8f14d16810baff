// The ranges of a file of subuid or subgid: where a new one fits, and the edits (subuid(5),
// subgid(5)).
ghost use Rattle.std.specs.Prelude.{◌≡◌, ◌+◌, ◌-◌, ◌<◌, ◌≤◌, IfOk, IfSome, OnOk, OnErr, Some};
ghost use Rattle.std.specs.List.{AllByRecursion};
ghost use Rattle.acct_text.specs.Bytes.{newline};
ghost use Rattle.acct_text.specs.Lines.{lines_of, file_bytes};
ghost use Rattle.acct_text.specs.Pieces.{Lacks};
ghost use Rattle.account_model.specs.FreeRange.{FitsAt, Meeting, free_range};
ghost use Rattle.account_model.specs.Ids.{IsLeast};
ghost use Rattle.account_model.specs.Records.{greatest_id, subid_format};
ghost use Rattle.account_model.specs.UsermodRanges.{has_range};
ghost use Rattle.account_model.specs.Written.{IsNameField, IsSubid};
ghost use Rattle.subid_ranges.specs.Owned.{owned_ranges};
ghost use Rattle.subid_ranges.specs.RangeLines.{holds_at, ids_from, is_bad, meets_at, meeting_line, new_range, owner_of, ranges_of, with_range, without_range};
ghost use Rattle.subid_ranges.specs.Refusals.{AnswersRange, add_refusal, bad_refusal, gap_refusal};

use crate::range_line::{end_of, range_in};
use crate::taken::Taken;
use crate::{OwnedRanges, RangeFault};
use account_model::GREATEST_ID;
use acct_lines::{SubidRecord, TableRecord};
use acct_tables::{FileLine, Lines, append_line, is_owner};
use acct_text::Bytes;
use line_edits::{RangeCut, SubidChange, changed_text};
use std::alloc::{AllocError, Global};
use std::marker::Model;

/// The lines of a file of subordinate IDs, each a range of an owner or other text.
#[derive(Drop)]
pub struct Ranges {
    text: Bytes,
    // the numbers of its ranges
    taken: Taken,
}

impl Model for Ranges {
    ghost use Rattle.std.specs.Prelude.{List};
    ghost use Rattle.acct_text.specs.Lines.{Line, lines_of};
    ghost use Rattle.subid_ranges.specs.RangeLines.{ranges_of};
    ghost use Rattle.subid_ranges.specs.Taken.{TakesThoseOf};

    ghost Value = { List Line };

    ghost view = { λ r. lines_of r.text };

    ghost invariant = { λ r. TakesThoseOf (ranges_of (lines_of r.text)) r.taken };
}

impl Ranges {
    /// The ranges of a file with these bytes.
    pub fn load(alloc: Global, text: &[u8]) -> Result<Ranges, AllocError>
        ensures lines { IfOk result (λ ranges. ranges ≡ lines_of text.now) }
        ensures same_bytes { IfOk result (λ ranges. file_bytes ranges ≡ text.now) }
    {
        let taken = Taken::of(alloc, text)?;
        let bytes = Bytes::of(alloc, text)?;
        Ok(Ranges { text: bytes, taken })
    }

    /// The least start, from `min` on, of `count` IDs of which none passes `max` and none lies in a
    /// range of any owner; none where there is no such start.
    pub fn free_gap(&self, min: u32, max: u32, count: u32) -> Option<u32>
        requires some { 0 < count }
        requires small { max ≤ greatest_id }
        ensures { result ≡ free_range min max count (ranges_of self.now) }
    {
        self.taken.free_gap(min, max, count)
    }

    /// Allots `count` IDs to the owner at the least free start, which it gives: the line
    /// `owner:start:count` comes behind the last line, which gets an end where it had none.
    ///
    /// `NoGap` comes exactly where `free_gap` is none. At any fault the ranges are as before.
    pub fn allot(
        &mut self,
        alloc: Global,
        owner: &[u8],
        min: u32,
        max: u32,
        count: u32,
    ) -> Result<u32, RangeFault>
        requires some { 0 < count }
        requires small { max ≤ greatest_id }
        requires named { IsNameField owner.now }
        ensures refused { AnswersRange result (gap_refusal min max count self.old) }
        ensures found { IfOk result (λ start.
            free_range min max count (ranges_of self.old) ≡ Some start) }
        ensures least { IfOk result (IsLeast (FitsAt min max count (ranges_of self.old))) }
        ensures allotted { IfOk result (λ start.
            self.new ≡ with_range owner.now start count self.old) }
        ensures unchanged { OnErr result (self.new ≡ self.old) }
    {
        let Some(start) = self.free_gap(min, max, count) else {
            return Err(RangeFault::NoGap);
        };
        self.append(alloc, owner, start, count)?;
        Ok(start)
    }

    /// Adds the IDs from the first to the last to the owner's: the line `owner:first:count` comes
    /// behind the last line, which gets an end where it had none (usermod(8), `-v` and `-w`).
    ///
    /// `BadRange` comes where `first` passes `last` or `last` passes `GREATEST_ID`. Else `Overlap`
    /// comes with the number of the first line, counted from 1 over all lines, whose range has an
    /// ID in common, of any owner. At any fault the ranges are as before.
    pub fn add(
        &mut self,
        alloc: Global,
        owner: &[u8],
        first: u32,
        last: u32,
    ) -> Result<(), RangeFault>
        requires { IsNameField owner.now }
        ensures refused { AnswersRange result (add_refusal first last self.old) }
        ensures apart { OnOk result
            (AllByRecursion (λ r. Meeting first last r → ⊥) (ranges_of self.old)) }
        ensures added { OnOk result
            (self.new ≡ with_range owner.now first (last + 1 - first) self.old) }
        ensures unchanged { OnErr result (self.new ≡ self.old) }
    {
        if is_bad(first, last) {
            return Err(RangeFault::BadRange);
        }
        if let Some(line) = self.overlap(first, last) {
            return Err(RangeFault::Overlap(line));
        }
        self.append(alloc, owner, first, last - first + 1)?;
        Ok(())
    }

    /// Takes the IDs from the first to the last out of each line whose owner is the name, or the
    /// decimal text of the UID (usermod(8), `-V` and `-W`).
    ///
    /// What is left below stays in the line's place, what is left above follows it as a line of the
    /// same owner, and a line with nothing left goes. A line that becomes one line keeps its end or
    /// the want of one; two lines both have an end.
    ///
    /// `BadRange` comes where `first` passes `last` or `last` passes `GREATEST_ID`. At any fault the
    /// ranges are as before.
    pub fn take_away(
        &mut self,
        alloc: Global,
        owner: &[u8],
        uid: Option<u32>,
        first: u32,
        last: u32,
    ) -> Result<(), RangeFault>
        ensures refused { AnswersRange result (bad_refusal first last) }
        ensures taken { OnOk result
            (self.new ≡ without_range owner.now uid first last self.old) }
        ensures unchanged { OnErr result (self.new ≡ self.old) }
    {
        if is_bad(first, last) {
            return Err(RangeFault::BadRange);
        }
        let cut = RangeCut {
            owner: Bytes::of(alloc, owner)?,
            uid,
            first,
            last,
        };
        let left = changed_text::<SubidRecord>(
            alloc,
            self.text.as_slice(),
            &SubidChange::Cut(cut),
        )?;
        self.taken = Taken::of(alloc, left.as_slice())?;
        self.text = left;
        Ok(())
    }

    /// The first ID and the count of each range whose owner is the name, or the decimal text of the
    /// UID, in the order of lines.
    pub fn of_owner<'a>(&'a self, owner: &'a [u8], uid: Option<u32>) -> OwnedRanges<'a>
        ensures { result ≡ owned_ranges owner.now uid self.now }
    {
        OwnedRanges::new(self.text.as_slice(), owner, uid)
    }

    /// Whether a line whose owner is the name, or the decimal text of the UID, has all IDs from the
    /// first to the last. It takes no memory; lines are searched only where one has one of these.
    pub fn has_range(&self, owner: &[u8], uid: Option<u32>, first: u32, last: u32) -> bool
        requires { first ≤ last }
        ensures { result ≡ has_range (owner_of owner.now uid) (ids_from first last) self.now }
    {
        match self.taken.last_met(first, last) {
            Some(_) => self.holds(owner, uid, first, last),
            None => false,
        }
    }

    /// The bytes of the file: those of its lines, one behind the other.
    pub fn text(&self, alloc: Global) -> Result<Bytes, AllocError>
        ensures { IfOk result (λ bytes. bytes ≡ file_bytes self.now) }
    {
        Bytes::of(alloc, self.text.as_slice())
    }

    /// Adds `count` IDs from the first on to the owner's, whichever lines they meet: the line
    /// `owner:first:count` comes behind the last line, which gets an end where it had none.
    ///
    /// At `AllocError` the ranges are as before.
    pub fn append(
        &mut self,
        alloc: Global,
        owner: &[u8],
        first: u32,
        count: u32,
    ) -> Result<(), AllocError>
        requires { IsSubid (new_range owner.now first count) }
        ensures appended { OnOk result (self.new ≡ with_range owner.now first count self.old) }
        ensures unchanged { OnErr result (self.new ≡ self.old) }
    {
        let owner = Bytes::of(alloc, owner)?;
        let range = SubidRecord {
            owner,
            first,
            count,
        };
        let line = range.print(alloc)?;
        self.taken.settle()?;
        append_line(alloc, &mut self.text, line.as_slice())?;
        self.taken.put(first, first + (count - 1));
        Ok(())
    }

    // Whether a line of the owner's has all IDs from the first to the last.
    fn holds(&self, owner: &[u8], uid: Option<u32>, first: u32, last: u32) -> bool
        ensures { result ≡ has_range (owner_of owner.now uid) (ids_from first last) self.now }
    {
        let mut left = Lines::of(self.text.as_slice());
        'lines: while let Some(line) = left.take() {
            if holds_in(&line, owner, uid, first, last) {
                return true;
            }
        }
        false
    }

    // The number of the first line whose range has one of these IDs; the lines are searched only
    // where one has.
    fn overlap(&self, first: u32, last: u32) -> Option<usize>
        requires { first ≤ last }
        ensures { result ≡ meeting_line first last self.now }
    {
        self.taken.last_met(first, last)?;
        self.meeting_line(first, last)
    }

    // The number of the first line, counted from 1, whose range has one of these IDs.
    fn meeting_line(&self, first: u32, last: u32) -> Option<usize>
        ensures { result ≡ meeting_line first last self.now }
    {
        let mut number = 0usize;
        let mut left = Lines::of(self.text.as_slice());
        'lines: while let Some(line) = left.take() {
            number += 1;
            if meets_in(&line, first, last) {
                return Some(number);
            }
        }
        None
    }
}

// Whether the line is a range with one of these IDs.
fn meets_in(line: &FileLine<'_>, first: u32, last: u32) -> bool
    requires { Lacks newline line.now.text.now }
    ensures { result ≡ meets_at first last (subid_format.read line.now.text.now) }
{
    match range_in(line.text) {
        Some(range) => range.first <= last && first <= end_of(&range),
        None => false,
    }
}

// Whether the line is a range of the owner's with all these IDs.
fn holds_in(line: &FileLine<'_>, owner: &[u8], uid: Option<u32>, first: u32, last: u32) -> bool
    requires { Lacks newline line.now.text.now }
    ensures { result ≡ holds_at owner.now uid first last (subid_format.read line.now.text.now) }
{
    match range_in(line.text) {
        Some(range) => {
            is_owner(range.owner, owner, uid) && range.first <= first && last <= end_of(&range)
        }
        None => false,
    }
}

// Whether there is no range from the first ID to the last.
fn is_bad(first: u32, last: u32) -> bool
    ensures { result ≡ is_bad first last }
{
    first > last || last > GREATEST_ID
}
