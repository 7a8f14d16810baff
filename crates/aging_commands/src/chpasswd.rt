// chpasswd -e and chgpasswd -e (chpasswd(8), chgpasswd(8)): set the hashes of users and of groups, from
// lines NAME:HASH of the input.
ghost use Rattle.std.specs.Prelude.{◌≡◌, ◌≤◌, length, map, IfOk, OnOk};
ghost use Rattle.acct_text.specs.Limits.{table_limit};
ghost use Rattle.account_model.specs.Chpasswd.{set_hashes, set_user_hash};
ghost use Rattle.account_model.specs.Tables.{in_order};
ghost use Rattle.table_edits.specs.Acting.{ActsBy};
ghost use Rattle.carried_tables.specs.Scripts.{HasAlso, seen_script};
ghost use Rattle.aging_commands.specs.HashLines.{script_for, seen_new};

use crate::hash_lines::{NewHash, read_hashes};
use account_model::HashesOf;
use acct_text::Bytes;
use command_values::ToolFault;
use line_edits::{HashChange, ShadowAct};
use std::alloc::{AllocError, Global};
use table_edits::{Script, Tables, change_user_hash, demand_shadow, set_group_hash};

/// The script that sets the hashes of the users, and with shadow their last change to the day, or those of
/// the groups.
///
/// `BadLine` refuses the whole input where one of its lines is bad: the first, counted from 1.
pub fn set_hashes(
    alloc: Global,
    whose: HashesOf,
    input: &[u8],
    tables: &Tables,
    day: u32,
) -> Result<Script, ToolFault>
    requires { length input.now ≤ table_limit }
    ensures { ActsBy (set_hashes whose input.now tables.now day) result }
{
    let hashes = read_hashes(alloc, whose, input, tables)?;
    Ok(new_hashes(alloc, whose, &hashes, tables, day)?)
}

// The edits of the lines, in their order.
fn new_hashes(
    alloc: Global,
    whose: HashesOf,
    hashes: &[NewHash],
    tables: &Tables,
    day: u32,
) -> Result<Script, AllocError>
    ensures { IfOk result (λ script. seen_script script
        ≡ in_order (map (λ hash. script_for whose tables.now day (seen_new hash)) hashes.now)) }
{
    let mut script = Script::new(alloc);
    'hashes: for hash in hashes {
        set_hash(alloc, &mut script, whose, hash, tables, day)?;
    }
    Ok(script)
}

// What a line does.
fn set_hash(
    alloc: Global,
    script: &mut Script,
    whose: HashesOf,
    new: &NewHash,
    tables: &Tables,
    day: u32,
) -> Result<(), AllocError>
    ensures { OnOk result
        (HasAlso (script_for whose tables.now day (seen_new new.now)) script.old script.new) }
{
    match whose {
        HashesOf::Users => set_user_hash(alloc, script, new, tables, day),
        HashesOf::Groups => set_group_hash(alloc, script, tables, new.name, new.hash),
    }
}

// The line of shadow on demand, then the hash, then the last change.
fn set_user_hash(
    alloc: Global,
    script: &mut Script,
    new: &NewHash,
    tables: &Tables,
    day: u32,
) -> Result<(), AllocError>
    ensures { OnOk result (HasAlso
        (set_user_hash new.now.name.now new.now.hash.now tables.now day) script.old script.new) }
{
    let change = HashChange::Set(Bytes::of(alloc, new.hash)?);
    demand_shadow(alloc, script, tables, new.name)?;
    change_user_hash(alloc, script, tables, new.name, change)?;
    script.change_shadow(alloc, new.name, ShadowAct::SetLastChange(day))
}
