// useradd LOGIN (useradd(8)): makes a user.
ghost use Rattle.std.specs.Prelude.{◌≡◌, ◌&&◌, List, None, IfOk, OnOk};
ghost use Rattle.account_model.specs.GivenGroups.{unknown_groups};
ghost use Rattle.account_model.specs.NewAccount.{settings_for};
ghost use Rattle.account_model.specs.NewRanges.{no_gap};
ghost use Rattle.account_model.specs.Refusals.{refuse_if};
ghost use Rattle.account_model.specs.Request.{operand};
ghost use Rattle.account_model.specs.Settings.{Setting};
ghost use Rattle.account_model.specs.Text.{first_some};
ghost use Rattle.account_model.specs.Useradd.{useradd, useradd_checks, useradd_conflicts, used_uid, used_up};
ghost use Rattle.account_model.specs.Users.{has_group, has_user};
ghost use Rattle.tool_answers.specs.Refusing.{RefusesBy};
ghost use Rattle.command_values.specs.Chosen.{AddsSettings};
ghost use Rattle.login_defs.specs.Held.{HasSettings, IsHeld};
ghost use Rattle.table_edits.specs.Acting.{ActsBy};
ghost use Rattle.table_edits.specs.Stopping.{StopsBy};
ghost use Rattle.user_creation.specs.Plans.{ArePlannedIds};

use crate::plan::{NewIds, plan_of};
use crate::records::new_shadow;
use crate::script::user_script;
use account_model::{Allotment, Plan, Refusal};
use acct_text::{Bytes, Tab};
use command_values::{Asked, Form, ToolFault, check_name};
use login_defs::Defs;
use std::alloc::Global;
use table_edits::{Script, Tables, check_given_group, check_given_groups};

/// The edits that make the user, on the day, in days since 1970-01-01.
///
/// `BadName`, `BadKey` and `BadValue` refuse the words; `UserExists` and `GroupExists` a name that
/// is taken; `NoGroup` a group of `-g` or `-G` that isn't there; `UidInUse` a UID that is taken
/// without `-o`; `NoFreeUid`, `NoFreeGid` and `NoGap` where no ID or no range is left.
pub fn useradd(
    alloc: Global,
    asked: &Asked,
    tables: &Tables,
    defs: &Defs,
    day: u32,
) -> Result<Script, ToolFault>
    requires held { IsHeld defs.now }
    ensures { (settings : List Setting) → HasSettings defs.now settings
        → ActsBy (useradd asked.now tables.now settings day) result }
{
    let settings = check_words(alloc, asked, defs)?;
    let plan = plan_of(alloc, asked, tables, &settings)?;
    let ids = check_conflicts(alloc, asked, tables, plan)?;
    let shadow = new_shadow(alloc, asked, &settings, day)?;
    Ok(user_script(alloc, asked, tables, plan, ids, shadow)?)
}

// Refuses a bad name and bad values, and gives the settings with those of the `-K` words.
fn check_words(alloc: Global, asked: &Asked, defs: &Defs) -> Result<Defs, ToolFault>
    ensures refused { RefusesBy (first_some (useradd_checks asked.now)) result }
    ensures settings { IfOk result (AddsSettings (settings_for asked.now) defs.now) }
{
    check_name(alloc, asked.operand())?;
    let settings = asked.settings(alloc, defs)?;
    asked.check_value(alloc, b'c', Form::Field)?;
    asked.check_value(alloc, b'd', Form::Folder)?;
    asked.check_value(alloc, b'b', Form::Folder)?;
    asked.check_value(alloc, b'e', Form::Expiration)?;
    asked.check_value(alloc, b'f', Form::Days)?;
    asked.check_value(alloc, b's', Form::Shell)?;
    asked.check_value(alloc, b'p', Form::Field)?;
    asked.check_value(alloc, b'u', Form::Id)?;
    Ok(settings)
}

// Refuses what is taken, missing or used up, and gives the IDs of the plan.
fn check_conflicts(
    alloc: Global,
    asked: &Asked,
    tables: &Tables,
    plan: Plan,
) -> Result<NewIds, ToolFault>
    ensures refused { StopsBy (first_some (useradd_conflicts asked.now tables.now plan)) result }
    ensures ids { IfOk result (ArePlannedIds plan) }
    ensures groups { OnOk result (unknown_groups asked.now tables.now ≡ None) }
{
    check_login(alloc, asked, tables)?;
    check_given_group(alloc, asked, tables)?;
    check_given_groups(alloc, asked, tables)?;
    check_own_group(alloc, asked, tables, plan.own_group)?;
    check_given_uid(alloc, asked, tables)?;
    planned_ids(plan)
}

// Refuses a name that a user has: `UserExists`.
fn check_login(alloc: Global, asked: &Asked, tables: &Tables) -> Result<(), ToolFault>
    ensures { StopsBy (refuse_if (has_user (operand asked.now) tables.now)
        (Refusal.UserExists (operand asked.now))) result }
{
    let login = asked.operand();
    if !tables.has_user(login) {
        return Ok(());
    }
    Err(ToolFault::Refused(Refusal::UserExists(Bytes::of(alloc, login)?)))
}

// Refuses a group of the user's own where one has the name: `GroupExists`.
fn check_own_group(
    alloc: Global,
    asked: &Asked,
    tables: &Tables,
    own_group: bool,
) -> Result<(), ToolFault>
    ensures { StopsBy (refuse_if (own_group && has_group (operand asked.now) tables.now)
        (Refusal.GroupExists (operand asked.now))) result }
{
    let login = asked.operand();
    if !own_group || !tables.has_group(login) {
        return Ok(());
    }
    Err(ToolFault::Refused(Refusal::GroupExists(Bytes::of(alloc, login)?)))
}

// Refuses a UID of `-u` that a user has where `-o` isn't given: `UidInUse`.
fn check_given_uid(alloc: Global, asked: &Asked, tables: &Tables) -> Result<(), ToolFault>
    ensures { StopsBy (used_uid asked.now tables.now) result }
{
    if asked.has(b'o') {
        return Ok(());
    }
    let Some(uid) = asked.id(b'u') else {
        return Ok(());
    };
    if tables.is_uid_used(alloc, uid)? {
        return Err(ToolFault::Refused(Refusal::UidInUse(uid)));
    }
    Ok(())
}

// Refuses where no ID or no range is left, and gives the IDs of the plan.
fn planned_ids(plan: Plan) -> Result<NewIds, ToolFault>
    ensures refused { RefusesBy (first_some (used_up plan)) result }
    ensures ids { IfOk result (ArePlannedIds plan) }
{
    let uid = plan.uid.ok_or(ToolFault::Refused(Refusal::NoFreeUid))?;
    let gid = plan.gid.ok_or(ToolFault::Refused(Refusal::NoFreeGid))?;
    check_gap(Tab::Subuid, plan.subuid)?;
    check_gap(Tab::Subgid, plan.subgid)?;
    Ok(NewIds { uid, gid })
}

// Refuses where a range is wanted and there is no gap for it: `NoGap`.
fn check_gap(tab: Tab, allotment: Allotment) -> Result<(), ToolFault>
    ensures { RefusesBy (no_gap tab allotment) result }
{
    match allotment {
        Allotment::Full => Err(ToolFault::Refused(Refusal::NoGap(tab))),
        _ => Ok(()),
    }
}
