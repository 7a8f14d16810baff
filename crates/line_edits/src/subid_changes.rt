// What the tools do with records of subuid and subgid (subuid(5), subgid(5)).
ghost use Rattle.std.specs.Prelude.{◌≡◌, [], IfOk};
ghost use Rattle.std.specs.List.{cons_option};
ghost use Rattle.account_model.specs.Records.{subid_format};
ghost use Rattle.account_model.specs.SubidOwner.{left_above, left_below, left_without};
ghost use Rattle.account_model.specs.Written.{IsWritten};
ghost use Rattle.line_edits.specs.SeenEdits.{records_in};

use crate::{Becoming, EditedRecord};
use acct_lines::{SubidRecord, TableRecord, first_field};
use acct_tables::{is_owned, is_owner, last_id};
use acct_text::Bytes;
use std::alloc::{AllocError, Global};

/// What becomes of the records of subuid or subgid.
#[derive(Drop)]
pub enum SubidChange {
    /// The records of the first owner get the second.
    Rename(Bytes, Bytes),
    /// The records go of which the owner is this name, or the text of this UID.
    Remove(Bytes, Option<u32>),
    /// The IDs go out of the records of their owner.
    Cut(RangeCut),
}

/// The IDs that go out of the ranges of an owner (usermod(8), `-V` and `-W`).
#[derive(Drop)]
pub struct RangeCut {
    /// The name of the owner.
    pub owner: Bytes,
    /// The UID of the owner, where it is known: a record may have its decimal text as owner.
    pub uid: Option<u32>,
    /// The first ID that goes.
    pub first: u32,
    /// The last ID that goes.
    pub last: u32,
}

impl EditedRecord for SubidRecord {
    ghost use Rattle.std.specs.Prelude.{refl};
    ghost use Rattle.line_edits.specs.SubidChanges.{subid_becomes};

    type Change = SubidChange;

    ghost becomes = { subid_becomes };

    fn becoming(self, _alloc: Global, change: &SubidChange) -> Result<Becoming<Self>, AllocError> {
        match change {
            SubidChange::Rename(old, new) if self.name() == old.as_slice() => {
                Ok(Becoming::Changes(SubidRecord {
                    owner: new.copy()?,
                    first: self.first,
                    count: self.count,
                }))
            }
            SubidChange::Remove(user, uid) if is_owned(&self, user.as_slice(), *uid) => {
                Ok(Becoming::Goes)
            }
            SubidChange::Cut(cut) if is_owned(&self, cut.owner.as_slice(), cut.uid) => {
                left_without(&self, cut.first, cut.last)
            }
            _ => Ok(Becoming::Stays),
        }
    }

    fn only_name(change: &SubidChange) -> Option<&[u8]> {
        match change {
            SubidChange::Rename(old, _) => Some(old.as_slice()),
            SubidChange::Remove(user, uid) if uid.is_none() => Some(user.as_slice()),
            _ => None,
        }
    }

    fn leaves_fields(change: &SubidChange, line: &[u8]) -> bool {
        match change {
            SubidChange::Rename(..) => false,
            SubidChange::Remove(user, uid) => !is_owner(first_field(line), user.as_slice(), *uid),
            SubidChange::Cut(cut) => !is_owner(first_field(line), cut.owner.as_slice(), cut.uid),
        }
    }

    ghost no_blank = { refl };
}

// What is left of a range without the IDs.
fn left_without(
    range: &SubidRecord,
    first: u32,
    last: u32,
) -> Result<Becoming<SubidRecord>, AllocError>
    requires { IsWritten subid_format range.now }
    ensures { IfOk result (λ left.
        records_in range.now left ≡ left_without first last range.now) }
{
    let below = left_below(range, first)?;
    match (below, left_above(range, last)?) {
        (Some(below), Some(above)) => Ok(Becoming::Splits(below, above)),
        (Some(left), None) => Ok(Becoming::Changes(left)),
        (None, Some(left)) => Ok(Becoming::Changes(left)),
        (None, None) => Ok(Becoming::Goes),
    }
}

// What is left of a range below the first ID.
fn left_below(range: &SubidRecord, first: u32) -> Result<Option<SubidRecord>, AllocError>
    requires { IsWritten subid_format range.now }
    ensures { IfOk result (λ left. cons_option left [] ≡ left_below first range.now) }
{
    if range.first >= first {
        return Ok(None);
    }
    Ok(Some(SubidRecord {
        owner: range.owner.copy()?,
        first: range.first,
        count: first.min(last_id(range) + 1) - range.first,
    }))
}

// What is left of a range above the last ID.
fn left_above(range: &SubidRecord, last: u32) -> Result<Option<SubidRecord>, AllocError>
    requires { IsWritten subid_format range.now }
    ensures { IfOk result (λ left. cons_option left [] ≡ left_above last range.now) }
{
    if last >= last_id(range) {
        return Ok(None);
    }
    let first = range.first.max(last + 1);
    Ok(Some(SubidRecord {
        owner: range.owner.copy()?,
        first,
        count: last_id(range) + 1 - first,
    }))
}
