// Edits of a table of subordinate IDs where the ranges stand, and the numbers behind them (useradd(8),
// userdel(8), usermod(8), `-l`, `-V` and `-W`; subuid(5), subgid(5)).
ghost use Rattle.std.specs.Prelude.{◌≡◌, ◌∷◌, [], None, true, is_some, length, IfOk, IfSome, OnOk};
ghost use Rattle.account_model.specs.Edits.Edit.{Become};
ghost use Rattle.account_model.specs.Records.{subid_format};
ghost use Rattle.account_model.specs.Tables.{table_after, table_records};
ghost use Rattle.table.specs.TableEdits.{AreWritten, table_by};
ghost use Rattle.line_edits.specs.SubidChanges.{subid_becomes};
ghost use Rattle.carried_tables.specs.RangeNumbers.{AreNumbersIn, IsCutBy, IsOnlyOf};

use crate::RangeTable;
use crate::range_numbers::{numbers_after, numbers_and, numbers_without};
use acct_lines::SubidRecord;
use acct_text::Bytes;
use itoa::Buffer;
use line_edits::{Becoming, Edit, EditedRecord, RangeCut, SubidChange};
use std::alloc::{AllocError, Global};
use subid_ranges::RangeNumbers;

impl<'a> RangeTable<'a> {
    /// Carries the edits out, in their order, by an index. The numbers follow a range that is added, an
    /// owner that gets another name, and, while no two ranges have a number in common, one whose ranges
    /// go, or whose only range loses an end; behind others they aren't known.
    /// At `AllocError` some of the edits may be made, or the table is gone.
    pub(crate) fn edit_in_place(
        &mut self,
        alloc: Global,
        edits: &[Edit<SubidRecord, SubidChange>],
    ) -> Result<(), AllocError>
        requires there { is_some self.old ≡ true }
        requires written { AreWritten subid_format subid_becomes edits.now }
        ensures { OnOk result (self.new ≡ table_by subid_format subid_becomes edits.now self.old) }
    {
        self.table.index(alloc)?;
        let mut left = edits;
        'edits: while !left.is_empty() {
            let (one, later) = left.split_at(1);
            self.edit_one(alloc, one)?;
            left = later;
        }
        Ok(())
    }

    // Carries out the only edit of a list.
    fn edit_one(
        &mut self,
        alloc: Global,
        one: &[Edit<SubidRecord, SubidChange>],
    ) -> Result<(), AllocError>
        requires there { is_some self.old ≡ true }
        requires written { AreWritten subid_format subid_becomes one.now }
        requires single { length one.now ≡ 1 }
        ensures { OnOk result (self.new ≡ table_by subid_format subid_becomes one.now self.old) }
    {
        if let Edit::Become(change) = &one[0] {
            match change {
                SubidChange::Remove(name, uid) => return self.remove(alloc, name.as_slice(), *uid),
                SubidChange::Cut(cut) => return self.cut(alloc, change, cut, one),
                SubidChange::Rename(..) => {}
            }
        }
        let before = self.numbers.take();
        let after = numbers_after(alloc, before, &self.table, &one[0])?;
        self.edit_lines(alloc, one, after)
    }

    // Makes edits of the lines, behind which the numbers are these.
    fn edit_lines(
        &mut self,
        alloc: Global,
        edits: &[Edit<SubidRecord, SubidChange>],
        after: Option<RangeNumbers>,
    ) -> Result<(), AllocError>
        requires written { AreWritten subid_format subid_becomes edits.now }
        requires after { IfSome after
            (AreNumbersIn (table_by subid_format subid_becomes edits.now self.old)) }
        ensures { OnOk result (self.new ≡ table_by subid_format subid_becomes edits.now self.old) }
    {
        self.numbers = None;
        self.table.edit(alloc, edits)?;
        self.numbers = after;
        Ok(())
    }

    // Takes IDs out of the ranges of an owner, by the only edit of a list. Where it has one range alone,
    // of which a part at most is left, no other line is looked at.
    fn cut(
        &mut self,
        alloc: Global,
        change: &SubidChange,
        cut: &RangeCut,
        one: &[Edit<SubidRecord, SubidChange>],
    ) -> Result<(), AllocError>
        requires by { IsCutBy change.now cut.now one.now }
        requires written { AreWritten subid_format subid_becomes one.now }
        ensures { OnOk result (self.new ≡ table_by subid_format subid_becomes one.now self.old) }
    {
        let Some(range) = self.only_range(alloc, cut)? else {
            return self.edit_lines(alloc, one, None);
        };
        let before = self.numbers.take();
        let others = numbers_without(alloc, before, &self.table, cut.owner.as_slice())?;
        match range.becoming(alloc, change)? {
            Becoming::Changes(left) => {
                let after = numbers_and(alloc, others, &left)?;
                self.edit_lines(alloc, &[Edit::Put(left)], after)
            }
            Becoming::Goes => self.remove_lines(alloc, cut.owner.copy()?, others),
            _ => self.edit_lines(alloc, one, None),
        }
    }

    // The range of an owner that has one alone, with its name.
    fn only_range(&self, alloc: Global, cut: &RangeCut) -> Result<Option<SubidRecord>, AllocError>
        ensures { IfOk result (λ found. IfSome found
            (IsOnlyOf cut.now.owner cut.now.uid (table_records subid_format self.now))) }
    {
        if self.has_number(cut.uid) {
            return Ok(None);
        }
        let mut ranges = self.table.all_named(alloc, cut.owner.as_slice())?;
        if ranges.len() != 1 {
            return Ok(None);
        }
        Ok(ranges.pop())
    }

    // Removes the ranges of an owner, by the name and by the decimal text of the UID.
    fn remove(&mut self, alloc: Global, name: &[u8], uid: Option<u32>) -> Result<(), AllocError>
        ensures { OnOk result (self.new ≡ table_after subid_format
            (Become (subid_becomes (SubidChange.Remove name.now uid)) ∷ []) self.old) }
    {
        let Some(uid) = uid else {
            return self.remove_named(alloc, name);
        };
        let mut buffer = Buffer::new();
        self.remove_named(alloc, buffer.format(uid).as_bytes())?;
        self.remove_named(alloc, name)
    }

    // Removes the ranges whose owner is this text.
    fn remove_named(&mut self, alloc: Global, owner: &[u8]) -> Result<(), AllocError>
        ensures { OnOk result (self.new ≡ table_after subid_format
            (Become (subid_becomes (SubidChange.Remove owner.now None)) ∷ []) self.old) }
    {
        let before = self.numbers.take();
        let after = numbers_without(alloc, before, &self.table, owner)?;
        self.remove_lines(alloc, Bytes::of(alloc, owner)?, after)
    }

    // Removes the lines whose owner is this text, behind which the numbers are these.
    fn remove_lines(
        &mut self,
        alloc: Global,
        owner: Bytes,
        after: Option<RangeNumbers>,
    ) -> Result<(), AllocError>
        requires { IfSome after (AreNumbersIn (table_after subid_format
            (Become (subid_becomes (SubidChange.Remove owner None)) ∷ []) self.old)) }
        ensures { OnOk result (self.new ≡ table_after subid_format
            (Become (subid_becomes (SubidChange.Remove owner None)) ∷ []) self.old) }
    {
        self.edit_lines(
            alloc,
            &[Edit::Become(SubidChange::Remove(owner, None))],
            after,
        )
    }
}
