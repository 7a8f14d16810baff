// What a new user is to get, whether or not anything refuses it (useradd(8), `-u`, `-g`, `-U`, `-N`
// and `-r`).
ghost use Rattle.std.specs.Prelude.{◌≡◌, IfOk, option_map, unwrap_or};
ghost use Rattle.account_model.specs.GivenGroups.{given_group};
ghost use Rattle.account_model.specs.Useradd.{default_gid, gid_beside, makes_group, new_uid, plan_of};
ghost use Rattle.login_defs.specs.Held.{GivesBySettings, IsHeld};
ghost use Rattle.user_creation.specs.Plans.{GivesPrimaryGid};

use crate::ranges::{allotment_of, gid_bounds, uid_bounds};
use account_model::{IdSort, Plan};
use command_values::{Asked, free_id};
use login_defs::Defs;
use std::alloc::{AllocError, Global};
use table_edits::{Tables, given_group};

// The primary GID without `-g` and without a group of the user's own.
const DEFAULT_GID: u32 = 100;

/// The IDs of a new user that nothing refuses.
#[derive(Clone, Copy)]
pub(crate) struct NewIds {
    pub uid: u32,
    pub gid: u32,
}

/// What a new user is to get, by what is asked, the tables and the settings.
pub(crate) fn plan_of(
    alloc: Global,
    asked: &Asked,
    tables: &Tables,
    settings: &Defs,
) -> Result<Plan, AllocError>
    requires held { IsHeld settings.now }
    ensures { IfOk result (GivesBySettings settings.now (plan_of asked.now tables.now)) }
{
    let uid = new_uid(alloc, asked, tables, settings)?;
    Ok(Plan {
        own_group: makes_group(asked, settings),
        uid,
        gid: primary_gid(alloc, asked, tables, settings, uid)?,
        subuid: allotment_of(
            alloc,
            asked,
            tables.subuid_ranges(),
            uid,
            uid_bounds(settings),
        )?,
        subgid: allotment_of(
            alloc,
            asked,
            tables.subgid_ranges(),
            uid,
            gid_bounds(settings),
        )?,
    })
}

// Whether a group of the user's own is made: with `-U`, or where the settings say so and neither
// `-g` nor `-N` is given.
fn makes_group(asked: &Asked, settings: &Defs) -> bool
    ensures { GivesBySettings settings.now (makes_group asked.now) result }
{
    asked.has(b'U') || (settings.flag() && !asked.has(b'g') && !asked.has(b'N'))
}

// The UID of `-u`, and else a chosen one.
fn new_uid(
    alloc: Global,
    asked: &Asked,
    tables: &Tables,
    settings: &Defs,
) -> Result<Option<u32>, AllocError>
    ensures { IfOk result (GivesBySettings settings.now (new_uid asked.now tables.now)) }
{
    if let Some(uid) = asked.id(b'u') {
        return Ok(Some(uid));
    }
    let used = tables.used_uids(alloc)?;
    Ok(free_id(IdSort::Uid, asked.kind(), settings, used.ids()))
}

// The primary GID of a user of the UID: that of the user's own group, else that of `-g`, else the
// default.
fn primary_gid(
    alloc: Global,
    asked: &Asked,
    tables: &Tables,
    settings: &Defs,
    uid: Option<u32>,
) -> Result<Option<u32>, AllocError>
    ensures { IfOk result (GivesPrimaryGid settings.now asked.now tables.now uid) }
{
    if !makes_group(asked, settings) {
        return Ok(Some(given_gid(alloc, asked, tables)?));
    }
    match uid {
        Some(uid) => own_gid(alloc, asked, tables, settings, uid),
        None => Ok(None),
    }
}

// The GID of the own group of a user of the UID: the UID where no group has it, and else a chosen
// one, for which alone all GIDs are gathered.
fn own_gid(
    alloc: Global,
    asked: &Asked,
    tables: &Tables,
    settings: &Defs,
    uid: u32,
) -> Result<Option<u32>, AllocError>
    ensures { IfOk result (GivesBySettings settings.now
        (λ under. gid_beside asked.now tables.now under uid)) }
{
    if !tables.is_gid_used(alloc, uid)? {
        return Ok(Some(uid));
    }
    let used = tables.used_gids(alloc)?;
    let kind = asked.kind();
    Ok(
        used.ids()
            .choose(settings.range(IdSort::Gid, kind), kind, Some(uid)),
    )
}

// The GID of `-g`, and else the default.
fn given_gid(alloc: Global, asked: &Asked, tables: &Tables) -> Result<u32, AllocError>
    ensures { IfOk result (λ gid. gid ≡ unwrap_or (option_map (λ group. group.gid)
        (given_group asked.now tables.now)) default_gid) }
{
    match given_group(alloc, asked, tables)? {
        Some(group) => Ok(group.gid),
        None => Ok(DEFAULT_GID),
    }
}
