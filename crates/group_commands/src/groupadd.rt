// groupadd NAME (groupadd(8)): makes a group.
ghost use Rattle.std.specs.Prelude.{◌≡◌, List, IfOk};
ghost use Rattle.account_model.specs.Groupadd.{groupadd, groupadd_checks, groupadd_used_gid, is_content, is_gid_taken, new_gid};
ghost use Rattle.account_model.specs.NewAccount.{settings_for};
ghost use Rattle.account_model.specs.Refusals.{refuse_if};
ghost use Rattle.account_model.specs.Request.{operand};
ghost use Rattle.account_model.specs.Settings.{Setting};
ghost use Rattle.account_model.specs.Text.{first_some};
ghost use Rattle.tool_answers.specs.Refusing.{RefusesBy};
ghost use Rattle.command_values.specs.Chosen.{AddsSettings};
ghost use Rattle.login_defs.specs.Held.{HasSettings};
ghost use Rattle.table_edits.specs.Acting.{ActsBy};
ghost use Rattle.table_edits.specs.Stopping.{StopsBy};
ghost use Rattle.group_commands.specs.GroupaddGid.{GivesGid};

use account_model::{IdSort, Refusal};
use acct_text::Bytes;
use command_values::{Asked, Form, ToolFault, check_name, free_id};
use login_defs::Defs;
use std::alloc::{AllocError, Global};
use table_edits::{Script, Tables, add_group};

/// The edits that make the group of the name, with the GID of `-g` or a chosen one.
///
/// `BadName`, `BadKey` and `BadValue` refuse the words, `GroupExists` a name that is taken,
/// `GidInUse` a GID that is taken without `-o` and `-f`, and `NoFreeGid` where there is none left.
/// With `-f` a group that exists stays as it is.
pub fn groupadd(
    alloc: Global,
    asked: &Asked,
    tables: &Tables,
    defs: &Defs,
) -> Result<Script, ToolFault>
    ensures { (settings : List Setting) → HasSettings defs.now settings
        → ActsBy (groupadd asked.now tables.now settings) result }
{
    let settings = check_words(alloc, asked, defs)?;
    if is_content(asked, tables) {
        return Ok(Script::new(alloc));
    }
    let gid = gid_without_conflict(alloc, asked, tables, &settings)?;
    let hash = asked.value_or(b'p', b"!");
    let mut script = Script::new(alloc);
    add_group(alloc, &mut script, tables, asked.operand(), hash, gid)?;
    Ok(script)
}

// Refuses a bad name and bad values, and gives the settings with those of the `-K` words.
fn check_words(alloc: Global, asked: &Asked, defs: &Defs) -> Result<Defs, ToolFault>
    ensures refused { RefusesBy
        (first_some (groupadd_checks (operand asked.now) asked.now)) result }
    ensures settings { IfOk result (AddsSettings (settings_for asked.now) defs.now) }
{
    check_name(alloc, asked.operand())?;
    let settings = asked.settings(alloc, defs)?;
    asked.check_value(alloc, b'p', Form::Field)?;
    asked.check_value(alloc, b'g', Form::Id)?;
    Ok(settings)
}

// Whether `-f` is given and the group exists.
fn is_content(asked: &Asked, tables: &Tables) -> bool
    ensures { result ≡ is_content (operand asked.now) asked.now tables.now }
{
    asked.has(b'f') && tables.has_group(asked.operand())
}

// The GID of the new group, where neither its name nor its GID is taken.
fn gid_without_conflict(
    alloc: Global,
    asked: &Asked,
    tables: &Tables,
    settings: &Defs,
) -> Result<u32, ToolFault>
    ensures { GivesGid asked.now tables.now settings.now result }
{
    let name = asked.operand();
    if tables.has_group(name) {
        return Err(ToolFault::Refused(Refusal::GroupExists(Bytes::of(alloc, name)?)));
    }
    check_given_gid(alloc, asked, tables)?;
    new_gid(alloc, asked, tables, settings)?.ok_or(ToolFault::Refused(Refusal::NoFreeGid))
}

// Refuses the GID of `-g` where it is taken: `GidInUse`. With `-f` another one is chosen.
fn check_given_gid(alloc: Global, asked: &Asked, tables: &Tables) -> Result<(), ToolFault>
    ensures { StopsBy (groupadd_used_gid asked.now tables.now) result }
{
    if asked.has(b'f') {
        return Ok(());
    }
    match asked.id(b'g') {
        Some(gid) => check_gid_free(alloc, asked, tables, gid),
        None => Ok(()),
    }
}

// Refuses a GID that is taken: `GidInUse`.
fn check_gid_free(alloc: Global, asked: &Asked, tables: &Tables, gid: u32) -> Result<(), ToolFault>
    ensures { StopsBy (refuse_if (is_gid_taken asked.now tables.now gid) (Refusal.GidInUse gid))
        result }
{
    if is_gid_taken(alloc, asked, tables, gid)? {
        return Err(ToolFault::Refused(Refusal::GidInUse(gid)));
    }
    Ok(())
}

// Whether a group has the GID, and `-o` isn't given.
fn is_gid_taken(alloc: Global, asked: &Asked, tables: &Tables, gid: u32) -> Result<bool, AllocError>
    ensures { IfOk result (λ taken. taken ≡ is_gid_taken asked.now tables.now gid) }
{
    if asked.has(b'o') {
        return Ok(false);
    }
    tables.is_gid_used(alloc, gid)
}

// The GID of `-g`, and a chosen one where `-g` isn't given, or where with `-f` its GID is taken.
fn new_gid(
    alloc: Global,
    asked: &Asked,
    tables: &Tables,
    settings: &Defs,
) -> Result<Option<u32>, AllocError>
    ensures { IfOk result (λ chosen. (old : List Setting)
        → HasSettings settings.now (settings_for asked.now old)
        → chosen ≡ new_gid asked.now tables.now old) }
{
    if let Some(gid) = asked.id(b'g') {
        if !asked.has(b'f') || !is_gid_taken(alloc, asked, tables, gid)? {
            return Ok(Some(gid));
        }
    }
    let used = tables.used_gids(alloc)?;
    Ok(free_id(IdSort::Gid, asked.kind(), settings, used.ids()))
}
