// A table of subordinate IDs that is carried from command to command (useradd(8), userdel(8),
// usermod(8), `-l`; subuid(5), subgid(5)).
ghost use Rattle.std.specs.Prelude.{◌≡◌, false, true, ◌<◌, is_some, IfOk, OnOk};
ghost use Rattle.std.specs.List.{list_any};
ghost use Rattle.account_model.specs.Records.{subid_format};
ghost use Rattle.account_model.specs.Tables.{table_records};
ghost use Rattle.account_model.specs.FreeRange.{free_range};
ghost use Rattle.account_model.specs.SubidOwner.{is_owned};
ghost use Rattle.table.specs.TableEdits.{AreWritten, table_by};
ghost use Rattle.line_edits.specs.SubidChanges.{subid_becomes};
ghost use Rattle.carried_tables.specs.RangeNumbers.{is_numbered};

use crate::range_edits::{cut_of, edited_ranges};
use acct_lines::SubidRecord;
use acct_text::Bytes;
use itoa::Buffer;
use line_edits::{Edit, SubidChange};
use std::alloc::{AllocError, Global};
use std::marker::Model;
use std::mem::replace;
use subid_ranges::{RangeNumbers, free_gap_in};
use table::Table;

// From so many edits on, of which one takes IDs out of ranges, these are made in one pass, as an owner
// may have many ranges.
const MANY_WITH_CUT: usize = 8;

/// A table of subordinate IDs, beside which the numbers of its ranges are kept once a range is added by
/// an index. Contracts see it as the bytes of its file, and none where the file is absent.
pub struct RangeTable<'a> {
    pub(crate) table: Table<'a, SubidRecord>,
    // those of its ranges, where they are known
    pub(crate) numbers: Option<RangeNumbers>,
    // whether edits are made where the ranges stand
    wants_index: bool,
}

// One call for what may be there, so that who holds several tables has few ways through them.
impl<'a> Drop for RangeTable<'a> {
    fn drop(self) {
        let RangeTable {
            table: _,
            numbers: _,
            wants_index: _,
        } = self;
    }
}

impl<'a> Model for RangeTable<'a> {
    ghost use Rattle.std.specs.Prelude.{ℕ, List, Option, IfSome};
    ghost use Rattle.carried_tables.specs.RangeNumbers.{AreNumbersIn};

    ghost Value = { Option (List ℕ) };

    ghost view = { λ t. t.table };

    ghost invariant = { λ t. IfSome t.numbers (AreNumbersIn t.table) };
}

impl<'a> RangeTable<'a> {
    /// The table of this file, which is kept elsewhere and absent where there is none.
    pub(crate) fn lent(alloc: Global, file: &'a Option<Bytes>) -> Self
        ensures { result ≡ file.now }
    {
        RangeTable {
            table: Table::lent(alloc, file),
            numbers: None,
            wants_index: false,
        }
    }

    /// From here on edits are made where the ranges stand, by an index that the first of them makes.
    pub fn index(&mut self)
        ensures { self.new ≡ self.old }
    {
        self.wants_index = true;
    }

    /// Takes the table out, without the numbers.
    pub(crate) fn take(&mut self, alloc: Global) -> Table<'a, SubidRecord>
        ensures { result ≡ self.old }
    {
        self.numbers = None;
        replace(&mut self.table, Table::owning(alloc, None))
    }

    /// Whether there is a file.
    pub fn is_there(&self) -> bool
        ensures { result ≡ is_some self.now }
    {
        self.table.is_there()
    }

    /// A copy of the bytes; none where there is no file.
    pub fn copy(&self, alloc: Global) -> Result<Option<Bytes>, AllocError>
        ensures { IfOk result (λ file. file ≡ self.now) }
    {
        if !self.table.is_there() {
            return Ok(None);
        }
        Ok(Some(self.table.seen()?.into_bytes(alloc)?))
    }

    /// Whether the owner of a range is the name, or the decimal text of the UID. By an index it takes no
    /// pass.
    pub fn has_owner(&self, name: &[u8], uid: Option<u32>) -> bool
        ensures { result ≡ list_any (is_owned name.now uid) (table_records subid_format self.now) }
    {
        self.table.has(name) || self.has_number(uid)
    }

    // Whether the owner of a range is the decimal text of the UID.
    pub(crate) fn has_number(&self, uid: Option<u32>) -> bool
        ensures { result ≡ list_any (is_numbered uid) (table_records subid_format self.now) }
    {
        let Some(uid) = uid else {
            return false;
        };
        let mut buffer = Buffer::new();
        self.table.has(buffer.format(uid).as_bytes())
    }

    /// The least start, from `min` on, of `count` IDs of which none passes `max` and none lies in a
    /// range of any owner; none where there is no such start. It takes no pass where the numbers are
    /// known.
    pub fn free_gap(
        &self,
        alloc: Global,
        min: u32,
        max: u32,
        count: u32,
    ) -> Result<Option<u32>, AllocError>
        requires { 0 < count }
        ensures { IfOk result (λ start.
            start ≡ free_range min max count (table_records subid_format self.now)) }
    {
        match &self.numbers {
            Some(numbers) => Ok(numbers.free_gap(min, max, count)),
            None => free_gap_in(alloc, self.table.seen()?.as_slice(), min, max, count),
        }
    }

    /// Carries the edits out, in their order, in a pass over the lines, and tells whether the table may
    /// differ then. Where an index is wanted they are made where the ranges stand, unless many take IDs out
    /// of ranges: then a range that is added, an owner that gets another name, one whose ranges go, and one
    /// whose only range loses an end take no pass. At `AllocError` some of the edits may be made, or the
    /// table is gone.
    pub(crate) fn edit(
        &mut self,
        alloc: Global,
        edits: &[Edit<SubidRecord, SubidChange>],
    ) -> Result<bool, AllocError>
        requires { AreWritten subid_format subid_becomes edits.now }
        ensures edited { OnOk result
            (self.new ≡ table_by subid_format subid_becomes edits.now self.old) }
        ensures left { IfOk result (λ differ. differ ≡ false → self.new ≡ self.old) }
    {
        if edits.is_empty() {
            return Ok(false);
        }
        if !self.table.is_there() {
            return Ok(false);
        }
        if !self.wants_index || are_many_with_cut(edits) {
            return self.remake(alloc, edits);
        }
        self.edit_in_place(alloc, edits)?;
        Ok(true)
    }

    // Makes the edits in a pass over the lines. Where these stay, the table is left as it stands.
    fn remake(
        &mut self,
        alloc: Global,
        edits: &[Edit<SubidRecord, SubidChange>],
    ) -> Result<bool, AllocError>
        requires there { is_some self.old ≡ true }
        requires written { AreWritten subid_format subid_becomes edits.now }
        ensures edited { OnOk result
            (self.new ≡ table_by subid_format subid_becomes edits.now self.old) }
        ensures left { IfOk result (λ differ. differ ≡ false → self.new ≡ self.old) }
    {
        let made = edited_ranges(alloc, self.table.seen()?.as_slice(), edits)?;
        if made.as_slice() == self.table.seen()?.as_slice() {
            return Ok(false);
        }
        self.numbers = None;
        self.table = Table::owning(alloc, Some(made));
        Ok(true)
    }
}

// Whether the edits are many, and one of them takes IDs out of ranges.
fn are_many_with_cut(edits: &[Edit<SubidRecord, SubidChange>]) -> bool {
    edits.len() >= MANY_WITH_CUT && edits.iter().any(|edit| cut_of(edit).is_some())
}
