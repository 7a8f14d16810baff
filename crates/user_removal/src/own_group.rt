// The group of the user's name, which goes with the user where users have groups of their own
// (userdel(8); login.defs(5), USERGROUPS_ENAB).
ghost use Rattle.std.specs.Prelude.{◌≡◌, IfOk, OnOk, option_map};
ghost use Rattle.std.specs.List.{list_any};
ghost use Rattle.account_model.specs.Request.{operand};
ghost use Rattle.account_model.specs.Userdel.{kept_text, own_group, reason_to_keep};
ghost use Rattle.account_model.specs.Userdel.KeptGroup.{has_members, is_primary_of};
ghost use Rattle.login_defs.specs.Held.{GivesBySettings};
ghost use Rattle.carried_tables.specs.Scripts.{HasAlso};
ghost use Rattle.user_removal.specs.KeptGroups.{has_others, notices_of_group, removal_of_group};

use crate::others::{AccountId, first_other};
use account_model::GroupRecord;
use acct_text::{Bytes, Names};
use command_values::Asked;
use login_defs::Defs;
use std::alloc::{AllocError, Global};
use table_edits::{Script, Tables};

/// The group that goes with the user, where nothing keeps it.
pub(crate) fn own_group(
    alloc: Global,
    asked: &Asked,
    tables: &Tables,
    defs: &Defs,
) -> Result<Option<GroupRecord>, AllocError>
    ensures { IfOk result (GivesBySettings defs.now (own_group asked.now tables.now)) }
{
    if !defs.flag() {
        return Ok(None);
    }
    tables.group_named(alloc, asked.operand())
}

/// Removes the group where nothing keeps it.
pub(crate) fn remove_own_group(
    alloc: Global,
    script: &mut Script,
    asked: &Asked,
    tables: &Tables,
    group: &Option<GroupRecord>,
) -> Result<(), AllocError>
    ensures { OnOk result (HasAlso (removal_of_group asked.now tables.now group.now)
        script.old script.new) }
{
    let Some(group) = group else {
        return Ok(());
    };
    match kept_notice(alloc, asked, tables, group)? {
        Some(_) => Ok(()),
        None => script.remove_group(alloc, asked.operand()),
    }
}

/// The notice of a group that is kept; none where it goes, or where there is none.
pub(crate) fn kept_notices(
    alloc: Global,
    asked: &Asked,
    tables: &Tables,
    group: &Option<GroupRecord>,
) -> Result<Names, AllocError>
    ensures { IfOk result (λ notices.
        notices ≡ notices_of_group asked.now tables.now group.now) }
{
    let mut notices = Names::new(alloc);
    if let Some(group) = group {
        if let Some(notice) = kept_notice(alloc, asked, tables, group)? {
            notices.push(notice.as_slice())?;
        }
    }
    Ok(notices)
}

// Why the group is kept: members that are left; without `-f` another user whose primary group it
// is.
fn kept_notice(
    alloc: Global,
    asked: &Asked,
    tables: &Tables,
    group: &GroupRecord,
) -> Result<Option<Bytes>, AllocError>
    ensures { IfOk result (λ notice. notice ≡ option_map (kept_text (operand asked.now))
        (reason_to_keep asked.now tables.now group.now)) }
{
    let user = asked.operand();
    if has_others(&group.members, user) {
        return Ok(Some(members_notice(alloc, user)?));
    }
    if asked.has(b'f') {
        return Ok(None);
    }
    match first_other(alloc, tables, user, AccountId::Gid(group.gid))? {
        Some(other) => Ok(Some(primary_notice(alloc, user, other.name.as_slice())?)),
        None => Ok(None),
    }
}

// Whether a group has a member that isn't the user.
fn has_others(members: &Names, user: &[u8]) -> bool
    ensures { result ≡ has_others user.now members.now }
{
    members
        .as_slice()
        .iter()
        .any(|member| member.as_slice() != user)
}

// The notice of a group that has members.
fn members_notice(alloc: Global, group: &[u8]) -> Result<Bytes, AllocError>
    ensures { IfOk result (λ text. text ≡ kept_text group.now has_members) }
{
    let mut text = Bytes::of(alloc, b"group ")?;
    text.push(group)?;
    text.push(b" kept: it has members")?;
    Ok(text)
}

// The notice of a group that is the primary group of the user.
fn primary_notice(alloc: Global, group: &[u8], user: &[u8]) -> Result<Bytes, AllocError>
    ensures { IfOk result (λ text. text ≡ kept_text group.now (is_primary_of user.now)) }
{
    let mut text = Bytes::of(alloc, b"group ")?;
    text.push(group)?;
    text.push(b" kept: primary group of ")?;
    text.push(user)?;
    Ok(text)
}
