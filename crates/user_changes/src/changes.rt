// usermod LOGIN (usermod(8)): changes a user.
ghost use Rattle.std.specs.Prelude.{◌≡◌, ◌∷◌, [], None, Some, IfOk, codes};
ghost use Rattle.account_model.specs.GivenGroups.{unknown_groups};
ghost use Rattle.account_model.specs.Refusals.{bad_values};
ghost use Rattle.account_model.specs.Text.{first_some};
ghost use Rattle.account_model.specs.Usermod.{new_name, usermod, usermod_checks, usermod_script};
ghost use Rattle.account_model.specs.UsermodRanges.{is_range};
ghost use Rattle.account_model.specs.Users.{uid_of};
ghost use Rattle.account_model.specs.Request.{operand};
ghost use Rattle.account_model.specs.Written.{IsNameField};
ghost use Rattle.tool_answers.specs.Refusing.{RefusesBy};
ghost use Rattle.table_edits.specs.Acting.{ActsBy};
ghost use Rattle.carried_tables.specs.Scripts.{seen_script};

use crate::conflicts::check_conflicts;
use crate::fields::{write_passwd, write_shadow};
use crate::hash::write_hash;
use crate::memberships::write_memberships;
use crate::ranges::write_ranges;
use command_values::{Asked, Form, ToolFault};
use std::alloc::{AllocError, Global};
use table_edits::{Script, Tables};

/// The script that changes the user, on a day counted from 1970-01-01: the hash of `-p`, `-L` and
/// `-U`, as it finds the user by the old name, and then each table once.
///
/// `BadValue` refuses a value of an option, `NoUser` a user that isn't there, `UserExists` a name
/// of `-l` and `UidInUse` a UID of `-u` that is another user's, `NoGroup` a group of `-g` or `-G`,
/// `EmptyHash` a password that `-U` would leave empty, `Meets` a range that is taken, `NoShadow`
/// the aging where shadow is absent, and `BadName` a user whose name can't stand in a list.
pub fn usermod(alloc: Global, asked: &Asked, tables: &Tables, day: u32) -> Result<Script, ToolFault>
    ensures { ActsBy (usermod asked.now tables.now day) result }
{
    check_values(alloc, asked)?;
    let old_uid = check_conflicts(alloc, asked, tables)?;
    Ok(changed_user(alloc, asked, tables, old_uid, day)?)
}

// Refuses the values of options: `BadValue`.
fn check_values(alloc: Global, asked: &Asked) -> Result<(), ToolFault>
    ensures { RefusesBy (first_some (usermod_checks asked.now)) result }
{
    asked.check_value(alloc, b'c', Form::Field)?;
    asked.check_value(alloc, b'd', Form::Folder)?;
    asked.check_value(alloc, b'e', Form::Expiration)?;
    asked.check_value(alloc, b'f', Form::Days)?;
    asked.check_value(alloc, b's', Form::Shell)?;
    asked.check_value(alloc, b'p', Form::Field)?;
    asked.check_value(alloc, b'l', Form::Name)?;
    asked.check_value(alloc, b'u', Form::Id)?;
    check_ranges(alloc, asked)
}

// Refuses the ranges of `-v`, `-V`, `-w` and `-W`: `BadValue`.
fn check_ranges(alloc: Global, asked: &Asked) -> Result<(), ToolFault>
    ensures { RefusesBy (first_some
        (bad_values (codes "v") is_range asked.now
        ∷ bad_values (codes "V") is_range asked.now
        ∷ bad_values (codes "w") is_range asked.now
        ∷ bad_values (codes "W") is_range asked.now
        ∷ [])) result }
{
    asked.check_values(alloc, b'v', Form::Range)?;
    asked.check_values(alloc, b'V', Form::Range)?;
    asked.check_values(alloc, b'w', Form::Range)?;
    asked.check_values(alloc, b'W', Form::Range)
}

// The edits of a user that can be changed so; `old_uid` is the UID so far.
fn changed_user(
    alloc: Global,
    asked: &Asked,
    tables: &Tables,
    old_uid: u32,
    day: u32,
) -> Result<Script, AllocError>
    requires named { IsNameField (new_name asked.now) }
    requires uid { Some old_uid ≡ uid_of (operand asked.now) tables.now }
    requires groups { unknown_groups asked.now tables.now ≡ None }
    ensures { IfOk result (λ script.
        seen_script script ≡ usermod_script asked.now tables.now day) }
{
    let mut script = Script::new(alloc);
    write_hash(alloc, &mut script, asked, tables)?;
    write_passwd(alloc, &mut script, asked, tables)?;
    write_shadow(alloc, &mut script, asked, day)?;
    write_memberships(alloc, &mut script, asked, tables)?;
    write_ranges(alloc, &mut script, asked, tables, old_uid)?;
    Ok(script)
}

/// The name of `-l`, and else the user's.
pub(crate) fn new_name<'a>(asked: &'a Asked<'_>) -> &'a [u8]
    ensures { result.now ≡ new_name asked.now }
{
    asked.value_or(b'l', asked.operand())
}
