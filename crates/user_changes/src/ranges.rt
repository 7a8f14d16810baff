// The subordinate IDs that a user loses and gets (usermod(8), `-v`, `-V`, `-w` and `-W`; subuid(5),
// subgid(5)).
ghost use Rattle.std.specs.Prelude.{◌≡◌, ◌++◌, ◌∷◌, [], map, Some, IfOk, OnOk};
ghost use Rattle.account_model.specs.Edits.Edit.{Add, Become};
ghost use Rattle.account_model.specs.Tables.{no_edits};
ghost use Rattle.account_model.specs.Request.{operand};
ghost use Rattle.account_model.specs.Usermod.{new_name, range_owner, subgid_change, subuid_change};
ghost use Rattle.account_model.specs.UsermodRanges.{add_range, change_asked, cut_range, edits_before_adding, range_edits, renaming};
ghost use Rattle.account_model.specs.Users.{uid_of};
ghost use Rattle.account_model.specs.Written.{IsNameField};
ghost use Rattle.command_values.specs.Ranges.{ids_named};
ghost use Rattle.carried_tables.specs.Scripts.{HasAlso};
ghost use Rattle.line_edits.specs.SeenEdits.{seen_edits};
ghost use Rattle.line_edits.specs.SubidChanges.{subid_becomes};
ghost use Rattle.user_changes.specs.Ranges.{id_change, owner_by, owner_in, ranges_asked};

use crate::changes::new_name;
use crate::lacked::user_ranges;
use account_model::IdSort;
use acct_lines::SubidRecord;
use acct_text::Bytes;
use command_values::{Asked, IdRange};
use line_edits::{Edit, RangeCut, SubidChange};
use std::alloc::{AllocError, Global};
use table_edits::{Script, Tables};

/// The IDs of subuid or of subgid that a user loses and gets.
#[derive(Drop)]
pub(crate) struct UserRanges {
    /// The user, by the name so far.
    pub old_name: Bytes,
    /// The name of the user from now on.
    pub new_name: Bytes,
    /// The UID of the user from now on.
    pub uid: Option<u32>,
    /// The IDs that go, in the order in which they were given.
    pub removed: Vec<IdRange>,
    /// The IDs that come behind them, in their order.
    pub added: Vec<IdRange>,
}

/// Renames the owner in subuid and subgid, where `-l` gives another name, and changes the ranges there.
/// `old_uid` is the user's UID so far.
pub(crate) fn write_ranges(
    alloc: Global,
    script: &mut Script,
    asked: &Asked,
    tables: &Tables,
    old_uid: u32,
) -> Result<(), AllocError>
    requires named { IsNameField (new_name asked.now) }
    requires uid { Some old_uid ≡ uid_of (operand asked.now) tables.now }
    ensures { OnOk result (HasAlso
        (record no_edits {
          subuid = range_edits (range_owner asked.now tables.now)
              (subuid_change asked.now tables.now);
          subgid = range_edits (range_owner asked.now tables.now)
              (subgid_change asked.now tables.now);
        })
        script.old script.new) }
{
    let uids = user_ranges(alloc, asked, tables, old_uid, IdSort::Uid)?;
    uids.push_edits(alloc, &mut script.subuid)?;
    let gids = user_ranges(alloc, asked, tables, old_uid, IdSort::Gid)?;
    gids.push_edits(alloc, &mut script.subgid)
}

/// The UIDs that `-V` and `-v` name, or the GIDs of `-W` and `-w`, of a user with that UID so far.
pub(crate) fn asked_ranges(
    alloc: Global,
    asked: &Asked,
    old_uid: u32,
    sort: IdSort,
) -> Result<UserRanges, AllocError>
    ensures owner { IfOk result (λ ranges. owner_in ranges ≡ owner_by asked.now (Some old_uid)) }
    ensures change { IfOk result (λ ranges. id_change ranges ≡ ranges_asked sort asked.now) }
{
    match sort {
        IdSort::Uid => UserRanges::of(alloc, asked, old_uid, b'V', b'v'),
        IdSort::Gid => UserRanges::of(alloc, asked, old_uid, b'W', b'w'),
    }
}

impl UserRanges {
    // The IDs that the two options remove and add.
    fn of(
        alloc: Global,
        asked: &Asked,
        old_uid: u32,
        removing: u8,
        adding: u8,
    ) -> Result<UserRanges, AllocError>
        ensures owner { IfOk result
            (λ ranges. owner_in ranges ≡ owner_by asked.now (Some old_uid)) }
        ensures change { IfOk result (λ ranges.
            id_change ranges ≡ change_asked (removing ∷ []) (adding ∷ []) asked.now) }
    {
        Ok(UserRanges {
            old_name: Bytes::of(alloc, asked.operand())?,
            new_name: Bytes::of(alloc, new_name(asked))?,
            uid: uid_after(asked, old_uid),
            removed: asked.ranges(alloc, removing)?,
            added: asked.ranges(alloc, adding)?,
        })
    }

    // Adds the edits of the table: those before ranges are added, and then the new ranges.
    fn push_edits(
        &self,
        alloc: Global,
        edits: &mut Vec<Edit<SubidRecord, SubidChange>>,
    ) -> Result<(), AllocError>
        ensures { OnOk result (seen_edits subid_becomes edits.new.items
            ≡ seen_edits subid_becomes edits.old.items
            ++ range_edits (owner_in self.now) (id_change self.now)) }
    {
        self.push_removals(alloc, edits)?;
        self.push_additions(edits)
    }

    /// Adds the renaming of an owner that gets another name, and then the removals of IDs.
    pub(crate) fn push_removals(
        &self,
        alloc: Global,
        edits: &mut Vec<Edit<SubidRecord, SubidChange>>,
    ) -> Result<(), AllocError>
        ensures { OnOk result (seen_edits subid_becomes edits.new.items
            ≡ seen_edits subid_becomes edits.old.items
            ++ edits_before_adding (owner_in self.now) (id_change self.now)) }
    {
        self.push_renaming(edits)?;
        for ids in &self.removed {
            edits.push(Edit::Become(self.cut(ids)?))?;
        }
        Ok(())
    }

    // Adds the renaming of an owner that gets another name.
    fn push_renaming(
        &self,
        edits: &mut Vec<Edit<SubidRecord, SubidChange>>,
    ) -> Result<(), AllocError>
        ensures { OnOk result (seen_edits subid_becomes edits.new.items
            ≡ seen_edits subid_becomes edits.old.items ++ renaming (owner_in self.now)) }
    {
        if self.old_name.as_slice() == self.new_name.as_slice() {
            return Ok(());
        }
        let change = SubidChange::Rename(self.old_name.copy()?, self.new_name.copy()?);
        edits.push(Edit::Become(change))?;
        Ok(())
    }

    // Adds the additions of IDs.
    fn push_additions(
        &self,
        edits: &mut Vec<Edit<SubidRecord, SubidChange>>,
    ) -> Result<(), AllocError>
        ensures { OnOk result (seen_edits subid_becomes edits.new.items
            ≡ seen_edits subid_becomes edits.old.items
            ++ map (add_range (owner_in self.now)) (id_change self.now).added) }
    {
        for ids in &self.added {
            edits.push(Edit::Add(self.range(ids)?))?;
        }
        Ok(())
    }

    // The change by which the IDs go out of the user's ranges.
    fn cut(&self, ids: &IdRange) -> Result<SubidChange, AllocError>
        ensures { IfOk result (λ change.
            Become (subid_becomes change) ≡ cut_range (owner_in self.now) (ids_named ids.now)) }
    {
        Ok(SubidChange::Cut(RangeCut {
            owner: self.new_name.copy()?,
            uid: self.uid,
            first: ids.first,
            last: ids.last,
        }))
    }

    // The record of the IDs.
    fn range(&self, ids: &IdRange) -> Result<SubidRecord, AllocError>
        ensures { IfOk result (λ range.
            Add range ≡ add_range (owner_in self.now) (ids_named ids.now)) }
    {
        Ok(SubidRecord {
            owner: self.new_name.copy()?,
            first: ids.first,
            count: ids.last - ids.first + 1,
        })
    }
}

// The UID of `-u`, and else the user's own.
fn uid_after(asked: &Asked, old_uid: u32) -> Option<u32>
    ensures { result ≡ (owner_by asked.now (Some old_uid)).uid }
{
    match asked.id(b'u') {
        Some(uid) => Some(uid),
        None => Some(old_uid),
    }
}
