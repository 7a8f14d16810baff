// What the tools do with records of gshadow (gshadow(5)).
ghost use Rattle.std.specs.Prelude.{◌≡◌, ◌||◌, Some, OnOk};
ghost use Rattle.account_model.specs.Text.{is_listed};
ghost use Rattle.acct_lines.specs.Shown.{gshadow_shown};
ghost use Rattle.line_edits.specs.GshadowChanges.{gshadow_after};

use crate::joined_texts::joined_gshadow;
use crate::lists::{add_name, remove_name};
use crate::{Becoming, ChangedNames, EditedRecord, Membership, Rewritten};
use acct_lines::{GshadowLine, GshadowRecord, TableRecord, lists};
use acct_tables::Marks;
use acct_text::{Bytes, Names};
use std::alloc::{AllocError, Global};

/// What is done with a record of gshadow.
#[derive(Drop)]
pub enum GshadowAct {
    /// The group gets the name.
    Rename(Bytes),
    /// The password field becomes this one.
    SetPassword(Bytes),
    /// The administrators become these.
    SetAdministrators(Names),
    /// The user goes behind the last member, where it is none.
    AddMember(Bytes),
    /// The user is no member any more.
    RemoveMember(Bytes),
    /// The members become these.
    SetMembers(Names),
    /// The user is neither administrator nor member any more.
    RemoveUser(Bytes),
    /// The user joins or leaves the group, and has the new name in it.
    SetMembership(Membership),
}

/// What becomes of the records of gshadow.
#[derive(Drop)]
pub enum GshadowChange {
    /// The act is done with the records of the name. Others stay.
    Named(Bytes, GshadowAct),
    /// The act is done with all records.
    All(GshadowAct),
    /// The records of the name go.
    Remove(Bytes),
}

impl EditedRecord for GshadowRecord {
    ghost use Rattle.std.specs.Prelude.{refl};
    ghost use Rattle.line_edits.specs.GshadowChanges.{gshadow_becomes};

    type Change = GshadowChange;

    ghost becomes = { gshadow_becomes };

    fn becoming(
        mut self,
        alloc: Global,
        change: &GshadowChange,
    ) -> Result<Becoming<Self>, AllocError> {
        match change {
            GshadowChange::Named(name, act) if self.name() == name.as_slice() => {
                act_on(alloc, &mut self, act)?;
            }
            GshadowChange::All(act) => act_on(alloc, &mut self, act)?,
            GshadowChange::Remove(name) if self.name() == name.as_slice() => return Ok(
                Becoming::Goes,
            ),
            _ => return Ok(Becoming::Stays),
        }
        Ok(Becoming::Changes(self))
    }

    fn rewritten(
        alloc: Global,
        change: &GshadowChange,
        line: &[u8],
    ) -> Result<Option<Rewritten>, AllocError> {
        match change {
            GshadowChange::All(GshadowAct::SetMembership(membership)) => joined_gshadow(
                alloc, membership, line,
            ),
            _ => Ok(None),
        }
    }

    fn only_name(change: &GshadowChange) -> Option<&[u8]> {
        match change {
            GshadowChange::Named(name, _) | GshadowChange::Remove(name) => Some(name.as_slice()),
            GshadowChange::All(_) => None,
        }
    }

    fn several_names(change: &GshadowChange) -> Option<ChangedNames<'_>> {
        match change {
            GshadowChange::All(act) => match act {
                GshadowAct::SetMembership(membership) => membership.only_groups(),
                _ => None,
            },
            _ => None,
        }
    }

    fn other_marks(change: &GshadowChange) -> Option<Marks<'_>> {
        match change {
            GshadowChange::All(act) => match act {
                GshadowAct::RemoveUser(user) => Some(Marks::one(user.as_slice())),
                GshadowAct::SetMembership(membership) => membership.marks(),
                _ => None,
            },
            _ => None,
        }
    }

    fn leaves_fields(change: &GshadowChange, line: &[u8]) -> bool {
        let (GshadowChange::All(act), Ok(group)) = (change, GshadowLine::read(line)) else {
            return false;
        };
        match act {
            GshadowAct::RemoveUser(user) => !has_user(&group, user.as_slice()),
            GshadowAct::SetMembership(membership) => {
                !membership.joins(group.name) && !has_user(&group, membership.user.as_slice())
            }
            _ => false,
        }
    }

    ghost no_blank = { refl };
}

// Whether the group has the administrator or member.
fn has_user(group: &GshadowLine<'_>, user: &[u8]) -> bool
    ensures { result ≡ (is_listed user.now (gshadow_shown group.now).administrators
        || is_listed user.now (gshadow_shown group.now).members) }
{
    lists(group.administrators, user) || lists(group.members, user)
}

// Does the act with the record. At `AllocError` the user may have left one list alone.
fn act_on(alloc: Global, group: &mut GshadowRecord, act: &GshadowAct) -> Result<(), AllocError>
    ensures { OnOk result (group.new ≡ gshadow_after act.now group.old) }
{
    match act {
        GshadowAct::Rename(name) => group.name = name.copy()?,
        GshadowAct::SetPassword(password) => group.password = password.copy()?,
        GshadowAct::SetAdministrators(names) => group.administrators = names.copy()?,
        GshadowAct::AddMember(user) => return add_name(&mut group.members, user.as_slice()),
        GshadowAct::RemoveMember(user) => {
            return remove_name(alloc, &mut group.members, user.as_slice());
        }
        GshadowAct::SetMembers(members) => group.members = members.copy()?,
        GshadowAct::RemoveUser(user) => {
            remove_name(alloc, &mut group.administrators, user.as_slice())?;
            return remove_name(alloc, &mut group.members, user.as_slice());
        }
        GshadowAct::SetMembership(membership) => {
            membership.join_or_leave(alloc, group.name.as_slice(), &mut group.members)?;
            return membership.rename_in(alloc, group);
        }
    }
    Ok(())
}
