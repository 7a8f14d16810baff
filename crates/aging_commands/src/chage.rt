// chage LOGIN (chage(1)): changes or lists the aging of a user.
ghost use Rattle.std.specs.Prelude.{◌≡◌, ◌∷◌, [], is_none, IfOk, option_and_then};
ghost use Rattle.account_model.specs.Chage.{chage, chage_refusals, chage_script};
ghost use Rattle.account_model.specs.Refusals.{refuse_if};
ghost use Rattle.account_model.specs.Request.{value_of};
ghost use Rattle.account_model.specs.Text.{first_some};
ghost use Rattle.account_model.specs.Values.{date_value, days_value};
ghost use Rattle.tool_answers.specs.Refusing.{RefusesBy};
ghost use Rattle.table_edits.specs.Acting.{ActsBy};
ghost use Rattle.carried_tables.specs.Scripts.{seen_script};
ghost use Rattle.table_edits.specs.Stopping.{StopsBy};
ghost use Rattle.line_edits.specs.ShadowChanges.{given_days};
ghost use Rattle.aging_commands.specs.AgingFields.{SetsAging};

pub use crate::listing::chage_output;
use account_model::Refusal;
use command_values::{Asked, Form, ToolFault, read_date, read_days};
use line_edits::{DaysChange, ShadowAct, ShadowFields};
use std::alloc::{AllocError, Global};
use table_edits::{Script, Tables, demand_shadow};

/// The script that sets the fields of the user's record in shadow; `-l` changes nothing.
///
/// `BadValue` refuses the value of an option, `NoShadow` the tables without shadow, and `NoUser` a
/// user that passwd doesn't have, each with `-l` as well.
pub fn chage(alloc: Global, asked: &Asked, tables: &Tables) -> Result<Script, ToolFault>
    ensures { ActsBy (chage asked.now tables.now) result }
{
    check_chage(alloc, asked, tables)?;
    if asked.has(b'l') {
        return Ok(Script::new(alloc));
    }
    Ok(changed_aging(alloc, asked, tables)?)
}

// Tests the refusals in their order.
fn check_chage(alloc: Global, asked: &Asked, tables: &Tables) -> Result<(), ToolFault>
    ensures { StopsBy (first_some (chage_refusals asked.now tables.now)) result }
{
    asked.check_value(alloc, b'd', Form::Date)?;
    asked.check_value(alloc, b'E', Form::Date)?;
    asked.check_value(alloc, b'I', Form::Days)?;
    asked.check_value(alloc, b'm', Form::Days)?;
    asked.check_value(alloc, b'M', Form::Days)?;
    asked.check_value(alloc, b'W', Form::Days)?;
    check_shadow(tables)?;
    tables.check_user(alloc, asked.operand())
}

// Refuses tables without shadow: `NoShadow`.
fn check_shadow(tables: &Tables) -> Result<(), ToolFault>
    ensures { RefusesBy (refuse_if (is_none tables.now.shadow) Refusal.NoShadow) result }
{
    if tables.has_shadow_file() {
        return Ok(());
    }
    Err(ToolFault::Refused(Refusal::NoShadow))
}

// The edits of a user that can be changed so.
fn changed_aging(alloc: Global, asked: &Asked, tables: &Tables) -> Result<Script, AllocError>
    ensures { IfOk result (λ script. seen_script script ≡ chage_script asked.now tables.now) }
{
    let user = asked.operand();
    let mut script = Script::new(alloc);
    demand_shadow(alloc, &mut script, tables, user)?;
    script.change_shadow(alloc, user, ShadowAct::SetFields(aging_fields(asked)))?;
    Ok(script)
}

// The fields of shadow that the options set.
fn aging_fields(asked: &Asked) -> ShadowFields
    ensures { SetsAging asked.now result }
{
    ShadowFields {
        last_change: date(asked, b'd'),
        minimum: days(asked, b'm'),
        maximum: days(asked, b'M'),
        warning: days(asked, b'W'),
        inactive: days(asked, b'I'),
        expiration: date(asked, b'E'),
        ..ShadowFields::none()
    }
}

// The day that the option gives; `-1` empties the field.
fn date(asked: &Asked, letter: u8) -> DaysChange
    ensures { given_days result ≡ option_and_then date_value (value_of (letter ∷ []) asked.now) }
{
    match asked.value(letter) {
        Some(text) => DaysChange::of_value(read_date(text)),
        None => DaysChange::Stays,
    }
}

/// The number of days that the option gives; `-1` empties the field.
pub(crate) fn days(asked: &Asked, letter: u8) -> DaysChange
    ensures { given_days result ≡ option_and_then days_value (value_of (letter ∷ []) asked.now) }
{
    match asked.value(letter) {
        Some(text) => DaysChange::of_value(read_days(text)),
        None => DaysChange::Stays,
    }
}
