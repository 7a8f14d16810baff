// The edits of gpasswd(1), option by option.
ghost use Rattle.std.specs.Prelude.{◌≡◌, ◌∷◌, [], IfOk, OnOk, codes};
ghost use Rattle.account_model.specs.Action.{with_option, with_flag};
ghost use Rattle.account_model.specs.Gpasswd.{gpasswd_script};
ghost use Rattle.account_model.specs.Hashes.{set_administrators, set_group_hash, locked};
ghost use Rattle.account_model.specs.Members.{add_to_group, each_members, remove_from_group};
ghost use Rattle.account_model.specs.Request.{operand};
ghost use Rattle.account_model.specs.Values.{list_value as names_of_list};
ghost use Rattle.carried_tables.specs.Scripts.{HasAlso, seen_script};

use acct_text::{Bytes, Names};
use command_values::{Asked, list_value};
use line_edits::{GroupAct, GshadowAct};
use std::alloc::{AllocError, Global};
use table_edits::{Script, Tables, demand_gshadow, set_group_hash};

/// The edits that the options ask for, in their order.
pub(super) fn script_of(alloc: Global, asked: &Asked, tables: &Tables) -> Result<Script, AllocError>
    ensures { IfOk result (λ script. seen_script script
        ≡ gpasswd_script (operand asked.now) asked.now tables.now) }
{
    let mut script = Script::new(alloc);
    add_member(alloc, asked, asked.operand(), &mut script)?;
    remove_member(alloc, asked, asked.operand(), &mut script)?;
    list_administrators(alloc, asked, tables, &mut script)?;
    list_members(alloc, asked, &mut script)?;
    remove_password(alloc, asked, tables, &mut script)?;
    restrict(alloc, asked, tables, &mut script)?;
    Ok(script)
}

/// `-a` adds a member to the group.
pub(crate) fn add_member(
    alloc: Global,
    asked: &Asked,
    group: &[u8],
    script: &mut Script,
) -> Result<(), AllocError>
    ensures { OnOk result (HasAlso
        (with_option (codes "a") asked.now (add_to_group group.now)) script.old script.new) }
{
    let Some(user) = asked.value(b'a') else {
        return Ok(());
    };
    script.add_to_group(alloc, group, user)
}

/// `-d` removes a member from the group.
pub(crate) fn remove_member(
    alloc: Global,
    asked: &Asked,
    group: &[u8],
    script: &mut Script,
) -> Result<(), AllocError>
    ensures { OnOk result (HasAlso
        (with_option (codes "d") asked.now (remove_from_group group.now)) script.old script.new) }
{
    let Some(user) = asked.value(b'd') else {
        return Ok(());
    };
    let act = GroupAct::RemoveMember(Bytes::of(alloc, user)?);
    let gshadow_act = GshadowAct::RemoveMember(Bytes::of(alloc, user)?);
    script.change_both(alloc, group, act, gshadow_act)
}

// `-A` sets the administrators.
fn list_administrators(
    alloc: Global,
    asked: &Asked,
    tables: &Tables,
    script: &mut Script,
) -> Result<(), AllocError>
    ensures { OnOk result (HasAlso (with_option (codes "A") asked.now
        (λ users. set_administrators (operand asked.now) (names_of_list users) tables.now))
        script.old script.new) }
{
    let Some(users) = asked.value(b'A') else {
        return Ok(());
    };
    let administrators = list_value(alloc, users)?;
    set_administrators(alloc, script, tables, asked.operand(), administrators)
}

// `-M` sets the members.
fn list_members(alloc: Global, asked: &Asked, script: &mut Script) -> Result<(), AllocError>
    ensures { OnOk result (HasAlso (with_option (codes "M") asked.now
        (λ users. each_members (operand asked.now) (λ _. names_of_list users)))
        script.old script.new) }
{
    let Some(users) = asked.value(b'M') else {
        return Ok(());
    };
    let act = GroupAct::SetMembers(list_value(alloc, users)?);
    let gshadow_act = GshadowAct::SetMembers(list_value(alloc, users)?);
    script.change_both(alloc, asked.operand(), act, gshadow_act)
}

// `-r` sets an empty hash.
fn remove_password(
    alloc: Global,
    asked: &Asked,
    tables: &Tables,
    script: &mut Script,
) -> Result<(), AllocError>
    ensures { OnOk result (HasAlso (with_flag (codes "r") asked.now
        (set_group_hash (operand asked.now) [] tables.now))
        script.old script.new) }
{
    if !asked.has(b'r') {
        return Ok(());
    }
    set_group_hash(alloc, script, tables, asked.operand(), b"")
}

// `-R` sets the hash `!`.
fn restrict(
    alloc: Global,
    asked: &Asked,
    tables: &Tables,
    script: &mut Script,
) -> Result<(), AllocError>
    ensures { OnOk result (HasAlso (with_flag (codes "R") asked.now
        (set_group_hash (operand asked.now) locked tables.now))
        script.old script.new) }
{
    if !asked.has(b'R') {
        return Ok(());
    }
    set_group_hash(alloc, script, tables, asked.operand(), b"!")
}

// The administrators of the group become these in gshadow, where a line is made on demand.
fn set_administrators(
    alloc: Global,
    script: &mut Script,
    tables: &Tables,
    name: &[u8],
    administrators: Names,
) -> Result<(), AllocError>
    ensures { OnOk result (HasAlso (set_administrators name.now administrators tables.now)
        script.old script.new) }
{
    demand_gshadow(alloc, script, tables, name)?;
    script.change_gshadow(alloc, name, GshadowAct::SetAdministrators(administrators))
}
