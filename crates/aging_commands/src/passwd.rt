// passwd LOGIN (passwd(1)) without prompts: locks, unlocks, empties or ages the password of a user, or
// shows its state.
ghost use Rattle.std.specs.Prelude.{◌≡◌, ◌&&◌, codes, is_none, Some, None, IfOk, OnOk, if◌then◌else◌};
ghost use Rattle.account_model.specs.Refusals.{refuse_if};
ghost use Rattle.account_model.specs.Request.{has_option, operand};
ghost use Rattle.account_model.specs.Tables.{no_edits};
ghost use Rattle.account_model.specs.Text.{first_some};
ghost use Rattle.account_model.specs.Users.{passwd_field};
ghost use Rattle.account_model.specs.Passwd.{opens_freely, passwd, passwd_refusals, passwd_script, password_after, password_status, set_password_aging, sets_password_aging};
ghost use Rattle.tool_answers.specs.Refusing.{RefusesBy};
ghost use Rattle.table_edits.specs.Acting.{ActsBy, IsOutputOf};
ghost use Rattle.carried_tables.specs.Scripts.{HasAlso, seen_script};
ghost use Rattle.table_edits.specs.Stopping.{StopsBy};
ghost use Rattle.line_edits.specs.HashChanges.{hash_by};
ghost use Rattle.line_edits.specs.ShadowChanges.{given_days};
ghost use Rattle.aging_commands.specs.AgingFields.{SetsPasswordAging, counting_record};

use crate::chage::days;
use crate::status::status_line;
use account_model::{Refusal, ShadowRecord};
use acct_text::Bytes;
use command_values::{Asked, Form, ToolFault};
use line_edits::{DaysChange, HashChange, ShadowAct, ShadowFields};
use std::alloc::{AllocError, Global};
use table_edits::{Script, Tables, change_user_hash, demand_shadow, hash_alone};
use tool_answers::Output;

/// The script that changes the hash and the aging of the user; `-S` changes nothing.
///
/// `BadValue` refuses the value of an option, `NoUser` a user that passwd doesn't have, `NoShadow` aging
/// without shadow, and `EmptyHash` to unlock a user that would have no password then.
pub fn passwd(alloc: Global, asked: &Asked, tables: &Tables) -> Result<Script, ToolFault>
    ensures { ActsBy (passwd asked.now tables.now) result }
{
    check_passwd(alloc, asked, tables)?;
    if asked.has(b'S') {
        return Ok(Script::new(alloc));
    }
    Ok(changed_password(alloc, asked, tables)?)
}

/// What passwd prints: with `-S` the state of the user's password, and else nothing.
pub fn passwd_output(alloc: Global, asked: &Asked, tables: &Tables) -> Result<Output, AllocError>
    ensures { IfOk result (IsOutputOf asked.now.tool (passwd asked.now tables.now)) }
{
    if !asked.has(b'S') {
        return Ok(Output::silent(alloc));
    }
    Ok(Output::shown(alloc, password_status(alloc, tables, asked.operand())?))
}

// Tests the refusals in their order.
fn check_passwd(alloc: Global, asked: &Asked, tables: &Tables) -> Result<(), ToolFault>
    ensures { StopsBy (first_some (passwd_refusals asked.now tables.now)) result }
{
    asked.check_value(alloc, b'n', Form::Days)?;
    asked.check_value(alloc, b'x', Form::Days)?;
    asked.check_value(alloc, b'w', Form::Days)?;
    asked.check_value(alloc, b'i', Form::Days)?;
    tables.check_user(alloc, asked.operand())?;
    check_shadow(asked, tables)?;
    check_hash(alloc, asked, tables)
}

// Refuses aging where shadow is absent: `NoShadow`.
fn check_shadow(asked: &Asked, tables: &Tables) -> Result<(), ToolFault>
    ensures { RefusesBy (refuse_if
        (sets_password_aging asked.now && is_none tables.now.shadow) Refusal.NoShadow) result }
{
    if sets_aging(asked) && !tables.has_shadow_file() {
        return Err(ToolFault::Refused(Refusal::NoShadow));
    }
    Ok(())
}

// Refuses to unlock a hash that would be empty then: `EmptyHash`.
fn check_hash(alloc: Global, asked: &Asked, tables: &Tables) -> Result<(), ToolFault>
    ensures { StopsBy (refuse_if (opens_freely asked.now tables.now)
        (Refusal.EmptyHash (operand asked.now))) result }
{
    let user = asked.operand();
    if !asked.has(b'u') || counting(alloc, tables, user)?.hash.as_slice() != b"!".as_slice() {
        return Ok(());
    }
    Err(ToolFault::Refused(Refusal::EmptyHash(Bytes::of(alloc, user)?)))
}

// Whether an option sets the aging.
fn sets_aging(asked: &Asked) -> bool
    ensures { result ≡ sets_password_aging asked.now }
{
    asked.has(b'e') || asked.has(b'n') || asked.has(b'x') || asked.has(b'w') || asked.has(b'i')
}

// The edits of a user that can be changed so.
fn changed_password(alloc: Global, asked: &Asked, tables: &Tables) -> Result<Script, AllocError>
    ensures { IfOk result (λ script. seen_script script ≡ passwd_script asked.now tables.now) }
{
    let user = asked.operand();
    let mut script = Script::new(alloc);
    demand_shadow(alloc, &mut script, tables, user)?;
    change_user_hash(alloc, &mut script, tables, user, hash_change(alloc, asked))?;
    change_aging(alloc, &mut script, asked)?;
    Ok(script)
}

// What becomes of the hash.
fn hash_change(alloc: Global, asked: &Asked) -> HashChange
    ensures { hash_by result ≡ password_after asked.now }
{
    if asked.has(b'd') {
        HashChange::Set(Bytes::new(alloc))
    } else if asked.has(b'l') {
        HashChange::Lock
    } else if asked.has(b'u') {
        HashChange::Unlock
    } else {
        HashChange::Keep
    }
}

// Sets the fields of shadow, where an option does.
fn change_aging(alloc: Global, script: &mut Script, asked: &Asked) -> Result<(), AllocError>
    ensures { OnOk result (HasAlso
        (if sets_password_aging asked.now then set_password_aging asked.now else no_edits)
        script.old script.new) }
{
    if !sets_aging(asked) {
        return Ok(());
    }
    script.change_shadow(
        alloc,
        asked.operand(),
        ShadowAct::SetFields(aging_fields(asked)),
    )
}

// The fields of shadow that the options set.
fn aging_fields(asked: &Asked) -> ShadowFields
    ensures { SetsPasswordAging asked.now result }
{
    ShadowFields {
        last_change: last_change(asked),
        minimum: days(asked, b'n'),
        maximum: days(asked, b'x'),
        warning: days(asked, b'w'),
        inactive: days(asked, b'i'),
        ..ShadowFields::none()
    }
}

// A change to day 0 where the password is to expire.
fn last_change(asked: &Asked) -> DaysChange
    ensures { given_days result
        ≡ (if has_option (codes "e") asked.now then Some (Some 0) else None) }
{
    if asked.has(b'e') {
        DaysChange::Becomes(0)
    } else {
        DaysChange::Stays
    }
}

// The line of the user that `-S` prints.
fn password_status(alloc: Global, tables: &Tables, user: &[u8]) -> Result<Bytes, AllocError>
    ensures { IfOk result (λ line. line ≡ password_status user.now tables.now) }
{
    status_line(alloc, user, &counting(alloc, tables, user)?)
}

// The user's record of shadow, and without one a record of the password field of passwd alone. That is
// empty for a user that isn't there.
fn counting(alloc: Global, tables: &Tables, user: &[u8]) -> Result<ShadowRecord, AllocError>
    ensures { IfOk result (λ r. r ≡ counting_record user.now tables.now) }
{
    match tables.shadow_named(alloc, user)? {
        Some(record) => Ok(record),
        None => {
            let password = password_of(alloc, tables, user)?;
            Ok(hash_alone(alloc, Bytes::of(alloc, user)?, password))
        }
    }
}

// The password field of the user in passwd.
fn password_of(alloc: Global, tables: &Tables, user: &[u8]) -> Result<Bytes, AllocError>
    ensures { IfOk result (λ password. password ≡ passwd_field user.now tables.now) }
{
    match tables.user_named(alloc, user)? {
        Some(record) => Ok(record.password),
        None => Ok(Bytes::new(alloc)),
    }
}
