// The edits that make a user (useradd(8)).
ghost use Rattle.std.specs.Prelude.{◌≡◌, ◌++◌, ◌∷◌, [], None, map, IfOk, OnOk};
ghost use Rattle.account_model.specs.Edits.Edit.{Add, Put};
ghost use Rattle.account_model.specs.GivenGroups.{unknown_groups};
ghost use Rattle.account_model.specs.Members.{add_to_group};
ghost use Rattle.account_model.specs.NewRanges.{allotted};
ghost use Rattle.account_model.specs.Tables.{in_order, no_edits};
ghost use Rattle.account_model.specs.Useradd.{add_own_group, add_user, join_groups as joined_groups, new_user};
ghost use Rattle.carried_tables.specs.Scripts.{HasAlso, seen_script};
ghost use Rattle.line_edits.specs.SeenEdits.{seen_edits};
ghost use Rattle.line_edits.specs.SubidChanges.{subid_becomes};

use crate::plan::NewIds;
use crate::records::new_user;
use account_model::{Allotment, Plan, ShadowRecord, SubidRecord};
use acct_text::Bytes;
use command_values::Asked;
use line_edits::{Edit, SubidChange};
use std::alloc::{AllocError, Global};
use table_edits::{Script, Tables, add_group, group_names};

/// The edits that make a user of these IDs with this line of shadow, by the plan: the lines of the
/// user, a group of its own, the groups of `-G` and the subordinate ranges.
pub(crate) fn user_script(
    alloc: Global,
    asked: &Asked,
    tables: &Tables,
    plan: Plan,
    ids: NewIds,
    shadow: ShadowRecord,
) -> Result<Script, AllocError>
    requires { unknown_groups asked.now tables.now ≡ None }
    ensures { IfOk result (λ script. seen_script script
        ≡ add_user asked.now tables.now plan shadow ids.uid ids.gid) }
{
    let mut script = Script::new(alloc);
    add_lines(alloc, &mut script, asked, tables, ids, shadow)?;
    add_own_group(alloc, &mut script, asked, tables, plan, ids)?;
    join_groups(alloc, &mut script, asked, tables)?;
    add_ranges(alloc, &mut script, asked, plan)?;
    Ok(script)
}

// The lines of the user in passwd and shadow.
fn add_lines(
    alloc: Global,
    script: &mut Script,
    asked: &Asked,
    tables: &Tables,
    ids: NewIds,
    shadow: ShadowRecord,
) -> Result<(), AllocError>
    ensures { OnOk result (HasAlso
        (record no_edits {
          passwd = Add (new_user asked.now tables.now ids.uid ids.gid) ∷ [];
          shadow = Put shadow ∷ [];
        })
        script.old script.new) }
{
    let user = new_user(alloc, asked, tables, ids)?;
    script.passwd.push(Edit::Add(user))?;
    script.shadow.push(Edit::Put(shadow))?;
    Ok(())
}

// The group of the user's own, where one is made.
fn add_own_group(
    alloc: Global,
    script: &mut Script,
    asked: &Asked,
    tables: &Tables,
    plan: Plan,
    ids: NewIds,
) -> Result<(), AllocError>
    ensures { OnOk result (HasAlso (add_own_group asked.now tables.now plan ids.gid)
        script.old script.new) }
{
    if !plan.own_group {
        return Ok(());
    }
    add_group(alloc, script, tables, asked.operand(), b"!", ids.gid)
}

// The user joins the groups of `-G`.
fn join_groups(
    alloc: Global,
    script: &mut Script,
    asked: &Asked,
    tables: &Tables,
) -> Result<(), AllocError>
    requires { unknown_groups asked.now tables.now ≡ None }
    ensures { OnOk result (HasAlso (joined_groups asked.now tables.now) script.old script.new) }
{
    let groups = group_names(alloc, asked, tables)?;
    join_all(alloc, script, groups.as_slice(), asked.operand())
}

// The user joins the groups of these names.
fn join_all(
    alloc: Global,
    script: &mut Script,
    groups: &[Bytes],
    user: &[u8],
) -> Result<(), AllocError>
    ensures { OnOk result (HasAlso
        (in_order (map (λ group. add_to_group group user.now) groups.now)) script.old script.new) }
{
    for group in groups {
        script.add_to_group(alloc, group.as_slice(), user)?;
    }
    Ok(())
}

// The subordinate ranges of the user.
fn add_ranges(
    alloc: Global,
    script: &mut Script,
    asked: &Asked,
    plan: Plan,
) -> Result<(), AllocError>
    ensures { OnOk result (HasAlso
        (record no_edits {
          subuid = allotted asked.now plan.subuid;
          subgid = allotted asked.now plan.subgid;
        })
        script.old script.new) }
{
    add_range(alloc, &mut script.subuid, asked, plan.subuid)?;
    add_range(alloc, &mut script.subgid, asked, plan.subgid)
}

// The new line of a table of ranges, where there is a range.
fn add_range(
    alloc: Global,
    edits: &mut Vec<Edit<SubidRecord, SubidChange>>,
    asked: &Asked,
    allotment: Allotment,
) -> Result<(), AllocError>
    ensures { OnOk result (seen_edits subid_becomes edits.new.items
        ≡ seen_edits subid_becomes edits.old.items ++ allotted asked.now allotment) }
{
    let Allotment::Range(first, count) = allotment else {
        return Ok(());
    };
    let owner = Bytes::of(alloc, asked.operand())?;
    edits.push(Edit::Add(SubidRecord {
        owner,
        first,
        count,
    }))?;
    Ok(())
}
