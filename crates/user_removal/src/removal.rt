// userdel LOGIN (userdel(8)): removes a user.
ghost use Rattle.std.specs.Prelude.{◌≡◌, ◌∷◌, [], List, Some, None, IfOk, OnOk, if◌then◌else◌};
ghost use Rattle.account_model.specs.Request.{operand};
ghost use Rattle.account_model.specs.Settings.{Setting};
ghost use Rattle.account_model.specs.Tables.{in_order};
ghost use Rattle.account_model.specs.Userdel.{is_shared, own_uid, remove_user as user_removal, userdel};
ghost use Rattle.login_defs.specs.Held.{HasSettings};
ghost use Rattle.table_edits.specs.Acting.{ActsBy, IsOutputOf};
ghost use Rattle.carried_tables.specs.Scripts.{HasAlso, seen_script};
ghost use Rattle.user_removal.specs.KeptGroups.{removal_of_group};
ghost use Rattle.user_removal.specs.Removals.{lines_removal, lists_removal, ranges_removal};

use crate::others::{AccountId, first_other};
use crate::own_group::{kept_notices, own_group, remove_own_group};
use account_model::GroupRecord;
use acct_text::Bytes;
use command_values::{Asked, ToolFault};
use line_edits::{
    Edit, GroupAct, GroupChange, GshadowAct, GshadowChange, PasswdChange, ShadowChange, SubidChange,
};
use login_defs::Defs;
use std::alloc::{AllocError, Global};
use table_edits::{Script, Tables};
use tool_answers::Output;

/// The edits that remove the user, with its ranges and the group of its name.
///
/// `NoUser` refuses where there is no such user.
pub fn userdel(
    alloc: Global,
    asked: &Asked,
    tables: &Tables,
    defs: &Defs,
) -> Result<Script, ToolFault>
    ensures { (settings : List Setting) → HasSettings defs.now settings
        → ActsBy (userdel asked.now tables.now settings) result }
{
    tables.check_user(alloc, asked.operand())?;
    let group = own_group(alloc, asked, tables, defs)?;
    Ok(removal(alloc, asked, tables, &group)?)
}

/// What userdel prints: a notice where the group of the user's name is kept.
pub fn userdel_output(
    alloc: Global,
    asked: &Asked,
    tables: &Tables,
    defs: &Defs,
) -> Result<Output, AllocError>
    ensures { IfOk result (λ output. (settings : List Setting) → HasSettings defs.now settings
        → IsOutputOf asked.now.tool (userdel asked.now tables.now settings) output) }
{
    let group = own_group(alloc, asked, tables, defs)?;
    let notices = kept_notices(alloc, asked, tables, &group)?;
    Output::noticed(alloc, asked.tool(), &notices)
}

// The user goes, and then its own group, where nothing keeps it.
fn removal(
    alloc: Global,
    asked: &Asked,
    tables: &Tables,
    group: &Option<GroupRecord>,
) -> Result<Script, AllocError>
    ensures { IfOk result (λ script. seen_script script ≡ in_order
        (user_removal (operand asked.now) tables.now
        ∷ removal_of_group asked.now tables.now group.now ∷ [])) }
{
    let mut script = Script::new(alloc);
    remove_user(alloc, &mut script, tables, asked.operand())?;
    remove_own_group(alloc, &mut script, asked, tables, group)?;
    Ok(script)
}

// The user goes from passwd and shadow, from all lists of group and gshadow, and with its ranges.
fn remove_user(
    alloc: Global,
    script: &mut Script,
    tables: &Tables,
    user: &[u8],
) -> Result<(), AllocError>
    ensures { OnOk result (HasAlso (user_removal user.now tables.now) script.old script.new) }
{
    remove_lines(alloc, script, user)?;
    remove_from_lists(alloc, script, user)?;
    remove_ranges(alloc, script, user, own_uid(alloc, tables, user)?)
}

// The user goes from passwd and shadow.
fn remove_lines(alloc: Global, script: &mut Script, user: &[u8]) -> Result<(), AllocError>
    ensures { OnOk result (HasAlso (lines_removal user.now) script.old script.new) }
{
    let change = PasswdChange::Remove(Bytes::of(alloc, user)?);
    script.passwd.push(Edit::Become(change))?;
    let change = ShadowChange::Remove(Bytes::of(alloc, user)?);
    script.shadow.push(Edit::Become(change))?;
    Ok(())
}

// The user goes from all lists of group and gshadow.
fn remove_from_lists(alloc: Global, script: &mut Script, user: &[u8]) -> Result<(), AllocError>
    ensures { OnOk result (HasAlso (lists_removal user.now) script.old script.new) }
{
    let act = GroupAct::RemoveMember(Bytes::of(alloc, user)?);
    script.group.push(Edit::Become(GroupChange::All(act)))?;
    let act = GshadowAct::RemoveUser(Bytes::of(alloc, user)?);
    script.gshadow.push(Edit::Become(GshadowChange::All(act)))?;
    Ok(())
}

// The ranges of the user go, those by the UID where it is known.
fn remove_ranges(
    alloc: Global,
    script: &mut Script,
    user: &[u8],
    uid: Option<u32>,
) -> Result<(), AllocError>
    ensures { OnOk result (HasAlso (ranges_removal user.now uid) script.old script.new) }
{
    let change = SubidChange::Remove(Bytes::of(alloc, user)?, uid);
    script.subuid.push(Edit::Become(change))?;
    let change = SubidChange::Remove(Bytes::of(alloc, user)?, uid);
    script.subgid.push(Edit::Become(change))?;
    Ok(())
}

// The UID whose text owns ranges that go with the user: none where another user has it.
fn own_uid(alloc: Global, tables: &Tables, user: &[u8]) -> Result<Option<u32>, AllocError>
    ensures { IfOk result (λ uid. uid ≡ own_uid user.now tables.now) }
{
    match tables.user_named(alloc, user)? {
        Some(owner) => unshared(alloc, tables, user, owner.uid),
        None => Ok(None),
    }
}

// The UID, where no other user has it.
fn unshared(
    alloc: Global,
    tables: &Tables,
    user: &[u8],
    uid: u32,
) -> Result<Option<u32>, AllocError>
    ensures { IfOk result (λ own.
        own ≡ (if is_shared user.now tables.now uid then None else Some uid)) }
{
    if first_other(alloc, tables, user, AccountId::Uid(uid))?.is_some() {
        return Ok(None);
    }
    Ok(Some(uid))
}
