// What the tools do with records of group (group(5)).
ghost use Rattle.std.specs.Prelude.{◌≡◌, Some, OnOk};
ghost use Rattle.line_edits.specs.GroupChanges.{group_after};

use crate::joined_texts::joined_group;
use crate::lists::{add_name, remove_name};
use crate::{Becoming, ChangedNames, EditedRecord, Membership, Rewritten};
use acct_lines::{GroupLine, GroupRecord, TableRecord, lists};
use acct_tables::Marks;
use acct_text::{Bytes, Names};
use std::alloc::{AllocError, Global};

/// What is done with a record of group.
#[derive(Drop)]
pub enum GroupAct {
    /// The group gets the GID.
    SetGid(u32),
    /// The group gets the name.
    Rename(Bytes),
    /// The password field becomes this one.
    SetPassword(Bytes),
    /// The user goes behind the last member, where it is none.
    AddMember(Bytes),
    /// The user is no member any more.
    RemoveMember(Bytes),
    /// The members become these.
    SetMembers(Names),
    /// The user joins or leaves the group, and has the new name in it.
    SetMembership(Membership),
}

/// What becomes of the records of group.
#[derive(Drop)]
pub enum GroupChange {
    /// The act is done with the records of the name. Others stay.
    Named(Bytes, GroupAct),
    /// The act is done with all records.
    All(GroupAct),
    /// The records of the name go.
    Remove(Bytes),
}

impl EditedRecord for GroupRecord {
    ghost use Rattle.std.specs.Prelude.{refl};
    ghost use Rattle.line_edits.specs.GroupChanges.{group_becomes};

    type Change = GroupChange;

    ghost becomes = { group_becomes };

    fn becoming(
        mut self,
        alloc: Global,
        change: &GroupChange,
    ) -> Result<Becoming<Self>, AllocError> {
        match change {
            GroupChange::Named(name, act) if self.name() == name.as_slice() => {
                act_on(alloc, &mut self, act)?;
            }
            GroupChange::All(act) => act_on(alloc, &mut self, act)?,
            GroupChange::Remove(name) if self.name() == name.as_slice() => return Ok(
                Becoming::Goes,
            ),
            _ => return Ok(Becoming::Stays),
        }
        Ok(Becoming::Changes(self))
    }

    fn rewritten(
        alloc: Global,
        change: &GroupChange,
        line: &[u8],
    ) -> Result<Option<Rewritten>, AllocError> {
        match change {
            GroupChange::All(GroupAct::SetMembership(membership)) => joined_group(
                alloc, membership, line,
            ),
            _ => Ok(None),
        }
    }

    fn only_name(change: &GroupChange) -> Option<&[u8]> {
        match change {
            GroupChange::Named(name, _) | GroupChange::Remove(name) => Some(name.as_slice()),
            GroupChange::All(_) => None,
        }
    }

    fn several_names(change: &GroupChange) -> Option<ChangedNames<'_>> {
        match change {
            GroupChange::All(act) => match act {
                GroupAct::SetMembership(membership) => membership.only_groups(),
                _ => None,
            },
            _ => None,
        }
    }

    fn other_marks(change: &GroupChange) -> Option<Marks<'_>> {
        match change {
            GroupChange::All(act) => match act {
                GroupAct::RemoveMember(user) => Some(Marks::one(user.as_slice())),
                GroupAct::SetMembership(membership) => membership.marks(),
                _ => None,
            },
            _ => None,
        }
    }

    fn leaves_fields(change: &GroupChange, line: &[u8]) -> bool {
        let (GroupChange::All(act), Ok(group)) = (change, GroupLine::read(line)) else {
            return false;
        };
        match act {
            GroupAct::RemoveMember(user) => !lists(group.members, user.as_slice()),
            GroupAct::SetMembership(membership) => {
                !membership.joins(group.name) && !lists(group.members, membership.user.as_slice())
            }
            _ => false,
        }
    }

    ghost no_blank = { refl };
}

// Does the act with the record. At `AllocError` a user who joins may have the old name in it.
fn act_on(alloc: Global, group: &mut GroupRecord, act: &GroupAct) -> Result<(), AllocError>
    ensures { OnOk result (group.new ≡ group_after act.now group.old) }
{
    match act {
        GroupAct::SetGid(gid) => group.gid = *gid,
        GroupAct::Rename(name) => group.name = name.copy()?,
        GroupAct::SetPassword(password) => group.password = password.copy()?,
        GroupAct::AddMember(user) => return add_name(&mut group.members, user.as_slice()),
        GroupAct::RemoveMember(user) => {
            return remove_name(alloc, &mut group.members, user.as_slice());
        }
        GroupAct::SetMembers(members) => group.members = members.copy()?,
        GroupAct::SetMembership(membership) => {
            membership.join_or_leave(alloc, group.name.as_slice(), &mut group.members)?;
            return membership.rename_in(alloc, group);
        }
    }
    Ok(())
}
