// groupmod GROUP (groupmod(8)): changes a group's GID, name or password.
ghost use Rattle.std.specs.Prelude.{◌≡◌, codes, Some, IfOk, OnOk};
ghost use Rattle.account_model.specs.Action.{with_option};
ghost use Rattle.account_model.specs.Hashes.{set_group_hash};
ghost use Rattle.account_model.specs.Groupmod.{groupmod, groupmod_used_gid, groupmod_script, taken_gid, taken_group_name, gid_script, set_gid, rename_group};
ghost use Rattle.account_model.specs.Refusals.{missing_group, refuse_value};
ghost use Rattle.account_model.specs.Users.{group_named as group_of_name};
ghost use Rattle.carried_tables.specs.Scripts.{HasAlso, seen_script};
ghost use Rattle.table_edits.specs.Acting.{ActsBy};
ghost use Rattle.table_edits.specs.Stopping.{StopsBy};

use account_model::{GroupRecord, Refusal};
use acct_text::Bytes;
use command_values::{Asked, Form, ToolFault};
use line_edits::{Edit, GroupAct, GshadowAct, PasswdAct, PasswdChange, PrimaryGroup};
use std::alloc::{AllocError, Global};
use table_edits::{Script, Tables, set_group_hash};

/// The script that changes the group: the hash of `-p`, the GID of `-g`, and at last the name of
/// `-n`, as the others find the group by the old one.
///
/// `BadValue` refuses a value of `-g`, `-n` or `-p`, `NoGroup` a group that isn't there,
/// `GroupExists` another name that is taken, and without `-o` `GidInUse` another group's GID.
pub fn groupmod(alloc: Global, asked: &Asked, tables: &Tables) -> Result<Script, ToolFault>
    ensures { ActsBy (groupmod asked.now tables.now) result }
{
    let group = asked.operand();
    asked.check_value(alloc, b'g', Form::Id)?;
    asked.check_value(alloc, b'n', Form::Name)?;
    asked.check_value(alloc, b'p', Form::Field)?;
    let old = group_to_change(alloc, tables, group)?;
    check_new_name(alloc, asked, tables, group)?;
    check_new_gid(alloc, asked, tables, group, &old)?;
    Ok(changed_group(alloc, asked, tables, group, &old)?)
}

// The group of the name, by its first record; `NoGroup` refuses one that isn't there.
fn group_to_change(alloc: Global, tables: &Tables, group: &[u8]) -> Result<GroupRecord, ToolFault>
    ensures refused { StopsBy (missing_group group.now tables.now) result }
    ensures found { IfOk result (λ old. group_of_name group.now tables.now ≡ Some old) }
{
    match tables.group_named(alloc, group)? {
        Some(old) => Ok(old),
        None => Err(ToolFault::Refused(Refusal::NoGroup(Bytes::of(alloc, group)?))),
    }
}

// Refuses a name of `-n` that differs from the group's and is taken: `GroupExists`.
fn check_new_name(
    alloc: Global,
    asked: &Asked,
    tables: &Tables,
    group: &[u8],
) -> Result<(), ToolFault>
    ensures { StopsBy
        (refuse_value (codes "n") asked.now (taken_group_name group.now tables.now)) result }
{
    match asked.value(b'n') {
        Some(name) => check_name_free(alloc, tables, group, name),
        None => Ok(()),
    }
}

// Refuses a name that differs from the group's and is taken in group or gshadow: `GroupExists`.
fn check_name_free(
    alloc: Global,
    tables: &Tables,
    group: &[u8],
    name: &[u8],
) -> Result<(), ToolFault>
    ensures { StopsBy (taken_group_name group.now tables.now name.now) result }
{
    if name == group || !(tables.has_group(name) || tables.has_gshadow(name)) {
        return Ok(());
    }
    Err(ToolFault::Refused(Refusal::GroupExists(Bytes::of(alloc, name)?)))
}

// Refuses a GID of `-g` that is another group's where `-o` isn't given: `GidInUse`.
fn check_new_gid(
    alloc: Global,
    asked: &Asked,
    tables: &Tables,
    group: &[u8],
    old: &GroupRecord,
) -> Result<(), ToolFault>
    requires { group_of_name group.now tables.now ≡ Some old.now }
    ensures { StopsBy (groupmod_used_gid group.now asked.now tables.now) result }
{
    if asked.has(b'o') {
        return Ok(());
    }
    match asked.id(b'g') {
        Some(gid) => check_gid_free(alloc, tables, gid, old),
        None => Ok(()),
    }
}

// Refuses a GID that differs from the group's and is in use: `GidInUse`.
fn check_gid_free(
    alloc: Global,
    tables: &Tables,
    gid: u32,
    old: &GroupRecord,
) -> Result<(), ToolFault>
    ensures { StopsBy (taken_gid tables.now gid old.now) result }
{
    if gid == old.gid || !tables.is_gid_used(alloc, gid)? {
        return Ok(());
    }
    Err(ToolFault::Refused(Refusal::GidInUse(gid)))
}

// The edits of a group that can be changed so.
fn changed_group(
    alloc: Global,
    asked: &Asked,
    tables: &Tables,
    group: &[u8],
    old: &GroupRecord,
) -> Result<Script, AllocError>
    requires { group_of_name group.now tables.now ≡ Some old.now }
    ensures { IfOk result (λ script.
        seen_script script ≡ groupmod_script group.now asked.now tables.now) }
{
    let mut script = Script::new(alloc);
    write_hash(alloc, &mut script, asked, tables, group)?;
    write_gid(alloc, &mut script, asked, tables, group, old)?;
    write_name(alloc, &mut script, asked, group)?;
    Ok(script)
}

// Sets the hash of `-p`.
fn write_hash(
    alloc: Global,
    script: &mut Script,
    asked: &Asked,
    tables: &Tables,
    group: &[u8],
) -> Result<(), AllocError>
    ensures { OnOk result (HasAlso
        (with_option (codes "p") asked.now (λ hash. set_group_hash group.now hash tables.now))
        script.old script.new) }
{
    match asked.value(b'p') {
        Some(hash) => set_group_hash(alloc, script, tables, group, hash),
        None => Ok(()),
    }
}

// Sets the GID of `-g`.
fn write_gid(
    alloc: Global,
    script: &mut Script,
    asked: &Asked,
    tables: &Tables,
    group: &[u8],
    old: &GroupRecord,
) -> Result<(), AllocError>
    requires { group_of_name group.now tables.now ≡ Some old.now }
    ensures { OnOk result
        (HasAlso (gid_script group.now asked.now tables.now) script.old script.new) }
{
    match asked.id(b'g') {
        Some(gid) => set_gid(alloc, script, group, gid, old),
        None => Ok(()),
    }
}

// Sets the name of `-n`.
fn write_name(
    alloc: Global,
    script: &mut Script,
    asked: &Asked,
    group: &[u8],
) -> Result<(), AllocError>
    ensures { OnOk result (HasAlso
        (with_option (codes "n") asked.now (rename_group group.now)) script.old script.new) }
{
    match asked.value(b'n') {
        Some(name) => rename_group(alloc, script, group, name),
        None => Ok(()),
    }
}

// Gives the group the GID, and so every user whose primary group had the old one.
fn set_gid(
    alloc: Global,
    script: &mut Script,
    group: &[u8],
    gid: u32,
    old: &GroupRecord,
) -> Result<(), AllocError>
    ensures { OnOk result (HasAlso (set_gid group.now gid old.now) script.old script.new) }
{
    script.change_group(alloc, group, GroupAct::SetGid(gid))?;
    let users = PrimaryGroup::of(alloc, old.gid)?;
    let change = PasswdChange::OfGroup(users, PasswdAct::SetGid(gid));
    script.passwd.push(Edit::Become(change))?;
    Ok(())
}

// Gives the group the name, in group and gshadow.
fn rename_group(
    alloc: Global,
    script: &mut Script,
    old: &[u8],
    new: &[u8],
) -> Result<(), AllocError>
    ensures { OnOk result (HasAlso (rename_group old.now new.now) script.old script.new) }
{
    let act = GroupAct::Rename(Bytes::of(alloc, new)?);
    let gshadow_act = GshadowAct::Rename(Bytes::of(alloc, new)?);
    script.change_both(alloc, old, act, gshadow_act)
}
