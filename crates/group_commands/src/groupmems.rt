// groupmems -g GROUP (groupmems(8)): changes or lists the members of a group.
ghost use Rattle.std.specs.Prelude.{◌≡◌, ◌++◌, ◌∷◌, [], codes, flat_map, IfOk, OnOk};
ghost use Rattle.acct_text.specs.Bytes.{newline};
ghost use Rattle.account_model.specs.Action.{with_flag};
ghost use Rattle.account_model.specs.Groupmems.{asked_group, groupmems, groupmems_refusals, groupmems_script, member_lines};
ghost use Rattle.account_model.specs.Members.{each_members};
ghost use Rattle.account_model.specs.Text.{first_some};
ghost use Rattle.table_edits.specs.Acting.{ActsBy, IsOutputOf};
ghost use Rattle.carried_tables.specs.Scripts.{HasAlso, seen_script};
ghost use Rattle.table_edits.specs.Stopping.{StopsBy};

use crate::gpasswd::script::{add_member, remove_member};
use crate::gpasswd::{check_added, check_comma, check_removed};
use acct_text::{Bytes, Names};
use command_values::{Asked, ToolFault};
use line_edits::{GroupAct, GshadowAct};
use std::alloc::{AllocError, Global};
use table_edits::{Script, Tables};
use tool_answers::Output;

/// The script that sets the members of the group; `-l` changes nothing.
///
/// `NoGroup` refuses a group that isn't there, `NoUser` a user of `-a` that isn't, `NotMember` a user of
/// `-d` that is no member, and `BadName` one of `-a` with a comma.
pub fn groupmems(alloc: Global, asked: &Asked, tables: &Tables) -> Result<Script, ToolFault>
    ensures { ActsBy (groupmems asked.now tables.now) result }
{
    check_names(alloc, asked, tables)?;
    if asked.has(b'l') {
        return Ok(Script::new(alloc));
    }
    Ok(changed_members(alloc, asked)?)
}

/// What groupmems prints: with `-l` the members of the group, and else nothing.
pub fn groupmems_output(alloc: Global, asked: &Asked, tables: &Tables) -> Result<Output, AllocError>
    ensures { IfOk result (IsOutputOf asked.now.tool (groupmems asked.now tables.now)) }
{
    if !asked.has(b'l') {
        return Ok(Output::silent(alloc));
    }
    Ok(Output::shown(alloc, member_lines(alloc, tables, group_of(asked))?))
}

// The group of `-g`.
fn group_of<'a>(asked: &'a Asked) -> &'a [u8]
    ensures { result.now ≡ asked_group asked.now }
{
    asked.value_or(b'g', b"")
}

// Refuses the group and the users that aren't there.
fn check_names(alloc: Global, asked: &Asked, tables: &Tables) -> Result<(), ToolFault>
    ensures { StopsBy (first_some
        (groupmems_refusals (asked_group asked.now) asked.now tables.now)) result }
{
    tables.check_group(alloc, group_of(asked))?;
    check_added(alloc, asked, tables)?;
    check_removed(alloc, asked, tables, group_of(asked))?;
    check_comma(alloc, asked)
}

// The edits that the options ask for, in their order.
fn changed_members(alloc: Global, asked: &Asked) -> Result<Script, AllocError>
    ensures { IfOk result (λ script. seen_script script
        ≡ groupmems_script (asked_group asked.now) asked.now) }
{
    let mut script = Script::new(alloc);
    add_member(alloc, asked, group_of(asked), &mut script)?;
    remove_member(alloc, asked, group_of(asked), &mut script)?;
    purge(alloc, asked, &mut script)?;
    Ok(script)
}

// `-p` removes all members.
fn purge(alloc: Global, asked: &Asked, script: &mut Script) -> Result<(), AllocError>
    ensures { OnOk result (HasAlso (with_flag (codes "p") asked.now
        (each_members (asked_group asked.now) (λ _. []))) script.old script.new) }
{
    if !asked.has(b'p') {
        return Ok(());
    }
    let act = GroupAct::SetMembers(Names::new(alloc));
    let gshadow_act = GshadowAct::SetMembers(Names::new(alloc));
    script.change_both(alloc, group_of(asked), act, gshadow_act)
}

// The members of the group in group, each on a line of its own; none of a group that isn't there.
fn member_lines(alloc: Global, tables: &Tables, group: &[u8]) -> Result<Bytes, AllocError>
    ensures { IfOk result (λ lines. lines ≡ member_lines group.now tables.now) }
{
    match tables.group_named(alloc, group)? {
        Some(group) => lines_of(alloc, group.members.as_slice()),
        None => Ok(Bytes::new(alloc)),
    }
}

// The names, each on a line of its own.
fn lines_of(alloc: Global, names: &[Bytes]) -> Result<Bytes, AllocError>
    ensures { IfOk result (λ lines.
        lines ≡ flat_map (λ name. name ++ newline ∷ []) names.now) }
{
    let mut lines = Bytes::new(alloc);
    'names: for name in names {
        push_line(&mut lines, name.as_slice())?;
    }
    Ok(lines)
}

// Adds a line.
fn push_line(lines: &mut Bytes, name: &[u8]) -> Result<(), AllocError>
    ensures { OnOk result (lines.new ≡ lines.old ++ (name.now ++ newline ∷ [])) }
{
    lines.push(name)?;
    lines.push(b"\n")
}
