// groupdel GROUP (groupdel(8)): removes a group.
ghost use Rattle.std.specs.Prelude.{◌==◌, Some, find, option_map};
ghost use Rattle.account_model.specs.declared.refusal.Refusal.TheVariants.{PrimaryGroup};
ghost use Rattle.account_model.specs.Groupdel.{groupdel, still_primary};
ghost use Rattle.account_model.specs.Tables.{passwd_records};
ghost use Rattle.table_edits.specs.Acting.{ActsBy};
ghost use Rattle.table_edits.specs.Stopping.{StopsBy};

use account_model::Refusal;
use acct_text::Bytes;
use command_values::{Asked, ToolFault};
use std::alloc::Global;
use table_edits::{Script, Tables};

/// The script that removes the group from group and gshadow.
///
/// `NoGroup` refuses where there is no such group, and then without `-f` `PrimaryGroup` where it is
/// a user's primary group.
pub fn groupdel(alloc: Global, asked: &Asked, tables: &Tables) -> Result<Script, ToolFault>
    ensures { ActsBy (groupdel asked.now tables.now) result }
{
    let group = asked.operand();
    tables.check_group(alloc, group)?;
    if !asked.has(b'f') {
        check_unused(alloc, tables, group)?;
    }
    let mut script = Script::new(alloc);
    script.remove_group(alloc, group)?;
    Ok(script)
}

// Refuses a group that is the primary group of a user: `PrimaryGroup`, with the first such one.
fn check_unused(alloc: Global, tables: &Tables, name: &[u8]) -> Result<(), ToolFault>
    ensures { StopsBy (still_primary name.now tables.now) result }
{
    match tables.group_named(alloc, name)? {
        Some(group) => check_gid_unused(alloc, tables, name, group.gid),
        None => Ok(()),
    }
}

// Refuses a group whose GID is that of a user's primary group: `PrimaryGroup`, with the first such
// user.
fn check_gid_unused(alloc: Global, tables: &Tables, group: &[u8], gid: u32) -> Result<(), ToolFault>
    ensures { StopsBy (option_map (λ user. PrimaryGroup group.now user.name)
        (find (λ user. user.gid == gid) (passwd_records tables.now))) result }
{
    match tables.user_of_gid(alloc, gid)? {
        Some(user) => refuse_primary(alloc, group, user.name.as_slice()),
        None => Ok(()),
    }
}

// Refuses the primary group of the user: `PrimaryGroup`.
fn refuse_primary(alloc: Global, group: &[u8], user: &[u8]) -> Result<(), ToolFault>
    ensures { StopsBy (Some (PrimaryGroup group.now user.now)) result }
{
    let (group, user) = (Bytes::of(alloc, group)?, Bytes::of(alloc, user)?);
    Err(ToolFault::Refused(Refusal::PrimaryGroup(group, user)))
}
