// gpasswd GROUP (gpasswd(1)): administers a group.
ghost use Rattle.std.specs.Prelude.{◌≡◌, ◌∷◌, [], codes, IfOk};
ghost use Rattle.account_model.specs.Gpasswd.{gpasswd, gpasswd_refusals, gshadow_members_of, is_member, members_of, not_member};
ghost use Rattle.account_model.specs.Refusals.{bad_list_name, missing_user, missing_users, refuse_value};
ghost use Rattle.account_model.specs.Request.{operand};
ghost use Rattle.account_model.specs.Text.{first_some, is_listed as stands_in};
ghost use Rattle.account_model.specs.Values.{list_value as names_of_list};
ghost use Rattle.tool_answers.specs.Refusing.{RefusesBy};
ghost use Rattle.table_edits.specs.Acting.{ActsBy};
ghost use Rattle.table_edits.specs.Stopping.{StopsBy};

use account_model::Refusal;
use acct_text::Bytes;
use command_values::{Asked, ToolFault, check_list_name, list_value};
use script::script_of;
use std::alloc::{AllocError, Global};
use table_edits::{Script, Tables};

pub(crate) mod script;

/// The script that sets the members, the administrators and the hash of the group.
///
/// `NoGroup` refuses a group that isn't there, `NoUser` a user of `-a`, `-A` or `-M` that isn't,
/// `NotMember` a user of `-d` that is no member, and `BadName` one of `-a` with a comma.
pub fn gpasswd(alloc: Global, asked: &Asked, tables: &Tables) -> Result<Script, ToolFault>
    ensures { ActsBy (gpasswd asked.now tables.now) result }
{
    check_names(alloc, asked, tables)?;
    Ok(script_of(alloc, asked, tables)?)
}

// Refuses the group and the users that aren't there.
fn check_names(alloc: Global, asked: &Asked, tables: &Tables) -> Result<(), ToolFault>
    ensures { StopsBy
        (first_some (gpasswd_refusals (operand asked.now) asked.now tables.now)) result }
{
    tables.check_group(alloc, asked.operand())?;
    check_added(alloc, asked, tables)?;
    check_removed(alloc, asked, tables, asked.operand())?;
    check_list(alloc, asked, tables, b'A')?;
    check_list(alloc, asked, tables, b'M')?;
    check_comma(alloc, asked)
}

/// Refuses a user of `-a` that isn't there.
pub(crate) fn check_added(alloc: Global, asked: &Asked, tables: &Tables) -> Result<(), ToolFault>
    ensures { StopsBy
        (refuse_value (codes "a") asked.now (λ user. missing_user user tables.now)) result }
{
    match asked.value(b'a') {
        Some(user) => tables.check_user(alloc, user),
        None => Ok(()),
    }
}

/// Refuses a user of `-d` that is no member of the group.
pub(crate) fn check_removed(
    alloc: Global,
    asked: &Asked,
    tables: &Tables,
    group: &[u8],
) -> Result<(), ToolFault>
    ensures { StopsBy
        (refuse_value (codes "d") asked.now (not_member group.now tables.now)) result }
{
    match asked.value(b'd') {
        Some(user) => check_member(alloc, tables, user, group),
        None => Ok(()),
    }
}

// Refuses a user who isn't a member of the group: `NotMember`.
fn check_member(alloc: Global, tables: &Tables, user: &[u8], group: &[u8]) -> Result<(), ToolFault>
    ensures { StopsBy (not_member group.now tables.now user.now) result }
{
    if is_member(alloc, tables, user, group)? {
        return Ok(());
    }
    let (user, group) = (Bytes::of(alloc, user)?, Bytes::of(alloc, group)?);
    Err(ToolFault::Refused(Refusal::NotMember(user, group)))
}

// Whether the user is a member of the group, in group or in gshadow.
fn is_member(alloc: Global, tables: &Tables, user: &[u8], group: &[u8]) -> Result<bool, AllocError>
    ensures { IfOk result (λ is. is ≡ is_member user.now group.now tables.now) }
{
    let in_group = is_group_member(alloc, tables, user, group)?;
    Ok(in_group || is_gshadow_member(alloc, tables, user, group)?)
}

// Whether the user is a member of the group in group.
fn is_group_member(
    alloc: Global,
    tables: &Tables,
    user: &[u8],
    group: &[u8],
) -> Result<bool, AllocError>
    ensures { IfOk result (λ is. is ≡ stands_in user.now (members_of group.now tables.now)) }
{
    match tables.group_named(alloc, group)? {
        Some(group) => Ok(group.members.contains(user)),
        None => Ok(false),
    }
}

// Whether the user is a member of the group in gshadow.
fn is_gshadow_member(
    alloc: Global,
    tables: &Tables,
    user: &[u8],
    group: &[u8],
) -> Result<bool, AllocError>
    ensures { IfOk result (λ is.
        is ≡ stands_in user.now (gshadow_members_of group.now tables.now)) }
{
    match tables.gshadow_named(alloc, group)? {
        Some(group) => Ok(group.members.contains(user)),
        None => Ok(false),
    }
}

// Refuses the first user of an option's list that isn't there.
fn check_list(alloc: Global, asked: &Asked, tables: &Tables, letter: u8) -> Result<(), ToolFault>
    ensures { StopsBy (refuse_value (letter ∷ []) asked.now
        (λ users. missing_users (names_of_list users) tables.now)) result }
{
    match asked.value(letter) {
        Some(users) => check_listed(alloc, tables, users),
        None => Ok(()),
    }
}

// Refuses the first user between the commas of a text that isn't there.
fn check_listed(alloc: Global, tables: &Tables, users: &[u8]) -> Result<(), ToolFault>
    ensures { StopsBy (missing_users (names_of_list users.now) tables.now) result }
{
    let names = list_value(alloc, users)?;
    tables.check_users(alloc, &names)
}

/// Refuses a user of `-a` who can't stand in a list.
pub(crate) fn check_comma(alloc: Global, asked: &Asked) -> Result<(), ToolFault>
    ensures { RefusesBy (refuse_value (codes "a") asked.now bad_list_name) result }
{
    match asked.value(b'a') {
        Some(user) => check_list_name(alloc, user),
        None => Ok(()),
    }
}
