// What usermod(8) refuses by the tables: what is missing, and what is taken.
ghost use Rattle.std.specs.Prelude.{◌≡◌, None, Some, IfOk, OnOk, codes};
ghost use Rattle.account_model.specs.GivenGroups.{unknown_groups};
ghost use Rattle.account_model.specs.Names.{is_valid_name};
ghost use Rattle.account_model.specs.Refusals.{bad_value, missing_user};
ghost use Rattle.account_model.specs.Text.{first_some};
ghost use Rattle.account_model.specs.Request.{operand};
ghost use Rattle.account_model.specs.Users.{uid_of};
ghost use Rattle.account_model.specs.Usermod.{empty_hash, is_uid_taken, no_shadow, taken_name, taken_uid, unlistable_name, usermod_conflicts};
ghost use Rattle.tool_answers.specs.Refusing.{RefusesBy};
ghost use Rattle.table_edits.specs.Stopping.{StopsBy};

use crate::changes::new_name;
use crate::hash::{hash_of, sets_aging};
use crate::meetings::check_meetings;
use account_model::{IdSort, Refusal};
use acct_text::Bytes;
use command_values::{Asked, ToolFault, check_list_name, has_byte};
use std::alloc::{AllocError, Global};
use table_edits::{Tables, check_given_group, check_given_groups, group_names};

/// Refuses what is missing or taken, in this order, and else gives the user's UID. `Memory` may come
/// at each step.
pub(crate) fn check_conflicts(
    alloc: Global,
    asked: &Asked,
    tables: &Tables,
) -> Result<u32, ToolFault>
    requires { bad_value (codes "l") is_valid_name asked.now ≡ None }
    ensures refused { StopsBy (first_some (usermod_conflicts asked.now tables.now)) result }
    ensures uid { IfOk result (λ uid. Some uid ≡ uid_of (operand asked.now) tables.now) }
    ensures groups { OnOk result (unknown_groups asked.now tables.now ≡ None) }
{
    let old_uid = old_uid(alloc, asked, tables)?;
    check_new_name(alloc, asked, tables)?;
    check_new_uid(alloc, asked, tables, old_uid)?;
    check_given_group(alloc, asked, tables)?;
    check_given_groups(alloc, asked, tables)?;
    check_hash(alloc, asked, tables)?;
    check_meetings(alloc, asked, tables, old_uid, IdSort::Uid)?;
    check_meetings(alloc, asked, tables, old_uid, IdSort::Gid)?;
    check_shadow(asked, tables)?;
    check_listed(alloc, asked, tables)?;
    Ok(old_uid)
}

// The user's UID; refuses a user that isn't there: `NoUser`.
fn old_uid(alloc: Global, asked: &Asked, tables: &Tables) -> Result<u32, ToolFault>
    ensures refused { StopsBy (missing_user (operand asked.now) tables.now) result }
    ensures uid { IfOk result (λ uid. Some uid ≡ uid_of (operand asked.now) tables.now) }
{
    let name = asked.operand();
    match tables.user_named(alloc, name)? {
        Some(user) => Ok(user.uid),
        None => Err(ToolFault::Refused(Refusal::NoUser(Bytes::of(alloc, name)?))),
    }
}

// Refuses a name of `-l` that another user has, in passwd or in shadow: `UserExists`.
fn check_new_name(alloc: Global, asked: &Asked, tables: &Tables) -> Result<(), ToolFault>
    ensures { StopsBy (taken_name asked.now tables.now) result }
{
    let name = new_name(asked);
    if name == asked.operand() || !(tables.has_user(name) || tables.has_shadow(name)) {
        return Ok(());
    }
    Err(ToolFault::Refused(Refusal::UserExists(Bytes::of(alloc, name)?)))
}

// Refuses a UID of `-u` that is another user's where `-o` isn't given: `UidInUse`.
fn check_new_uid(
    alloc: Global,
    asked: &Asked,
    tables: &Tables,
    old_uid: u32,
) -> Result<(), ToolFault>
    requires { Some old_uid ≡ uid_of (operand asked.now) tables.now }
    ensures { StopsBy (taken_uid asked.now tables.now) result }
{
    let Some(uid) = asked.id(b'u') else {
        return Ok(());
    };
    if is_uid_taken(alloc, asked, tables, old_uid, uid)? {
        return Err(ToolFault::Refused(Refusal::UidInUse(uid)));
    }
    Ok(())
}

// Whether the UID is used by another user, and `-o` isn't given.
fn is_uid_taken(
    alloc: Global,
    asked: &Asked,
    tables: &Tables,
    old_uid: u32,
    uid: u32,
) -> Result<bool, AllocError>
    requires { Some old_uid ≡ uid_of (operand asked.now) tables.now }
    ensures { IfOk result (λ taken. taken ≡ is_uid_taken asked.now tables.now uid) }
{
    if asked.has(b'o') || !tables.is_uid_used(alloc, uid)? {
        return Ok(false);
    }
    Ok(uid != old_uid)
}

// Refuses to unlock a hash that would be empty then: `EmptyHash`.
fn check_hash(alloc: Global, asked: &Asked, tables: &Tables) -> Result<(), ToolFault>
    ensures { StopsBy (empty_hash asked.now tables.now) result }
{
    let user = asked.operand();
    if !asked.has(b'U') || hash_of(alloc, tables, user)?.as_slice() != b"!".as_slice() {
        return Ok(());
    }
    Err(ToolFault::Refused(Refusal::EmptyHash(Bytes::of(alloc, user)?)))
}

// Refuses to set the aging where shadow is absent: `NoShadow`.
fn check_shadow(asked: &Asked, tables: &Tables) -> Result<(), ToolFault>
    ensures { RefusesBy (no_shadow asked.now tables.now) result }
{
    if sets_aging(asked) && !tables.has_shadow_file() {
        return Err(ToolFault::Refused(Refusal::NoShadow));
    }
    Ok(())
}

// Refuses a user with a comma in the name, whom `-G` would add to a list: `BadName`.
fn check_listed(alloc: Global, asked: &Asked, tables: &Tables) -> Result<(), ToolFault>
    requires { unknown_groups asked.now tables.now ≡ None }
    ensures { StopsBy (unlistable_name asked.now tables.now) result }
{
    let user = asked.operand();
    if !has_byte(user, b',') {
        return Ok(());
    }
    if group_names(alloc, asked, tables)?.is_empty() {
        return Ok(());
    }
    check_list_name(alloc, user)
}
