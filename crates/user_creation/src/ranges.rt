// The subordinate IDs that a new user gets (useradd(8), subuid(5), subgid(5); SUB_UID_MIN, SUB_UID_MAX
// and SUB_UID_COUNT of login.defs(5), and the same of GIDs).
ghost use Rattle.std.specs.Prelude.{◌≡◌, ◌≤◌, IfOk};
ghost use Rattle.account_model.specs.NewRanges.{allotment, id_number, may_have_ranges};
ghost use Rattle.account_model.specs.Records.{greatest_id};
ghost use Rattle.login_defs.specs.Held.{GivesBySettings, IsHeld};
ghost use Rattle.user_creation.specs.Allotments.{gid_bounds_under, is_open, subordinate_of, uid_bounds_under};

use account_model::{Allotment, Key};
use carried_tables::RangeTable;
use command_values::Asked;
use login_defs::Defs;
use std::alloc::{AllocError, Global};

/// The bounds of a new range, and its count.
#[derive(Clone, Copy)]
pub(crate) struct Bounds {
    minimum: u32,
    maximum: u32,
    count: u32,
}

/// What a new user of the UID gets of a table of subordinate IDs.
pub(crate) fn allotment_of(
    alloc: Global,
    asked: &Asked,
    file: &RangeTable,
    uid: Option<u32>,
    bounds: Bounds,
) -> Result<Allotment, AllocError>
    requires { bounds.maximum ≤ greatest_id }
    ensures { IfOk result (λ given. given
        ≡ allotment asked.now uid (subordinate_of file.now bounds)) }
{
    if bounds.count == 0 {
        return Ok(Allotment::Unwanted);
    }
    if !is_open(asked, file, uid) {
        return Ok(Allotment::Unwanted);
    }
    match file.free_gap(alloc, bounds.minimum, bounds.maximum, bounds.count)? {
        Some(first) => Ok(Allotment::Range(first, bounds.count)),
        None => Ok(Allotment::Full),
    }
}

// Whether there is a file in which the user may have ranges, and has none yet.
fn is_open(asked: &Asked, file: &RangeTable, uid: Option<u32>) -> bool
    ensures { result ≡ is_open asked.now uid file.now }
{
    file.is_there() && may_have_ranges(asked) && !file.has_owner(asked.operand(), uid)
}

/// Whether the user is no system user, or `-F` is given.
pub(crate) fn may_have_ranges(asked: &Asked) -> bool
    ensures { result ≡ may_have_ranges asked.now }
{
    !asked.has(b'r') || asked.has(b'F')
}

/// The bounds of subordinate UIDs by the settings.
pub(crate) fn uid_bounds(settings: &Defs) -> Bounds
    requires held { IsHeld settings.now }
    ensures small { result.maximum ≤ greatest_id }
    ensures given { GivesBySettings settings.now uid_bounds_under result }
{
    Bounds {
        minimum: id_number(settings, Key::SubUidMin),
        maximum: id_number(settings, Key::SubUidMax),
        count: id_number(settings, Key::SubUidCount),
    }
}

/// The bounds of subordinate GIDs by the settings.
pub(crate) fn gid_bounds(settings: &Defs) -> Bounds
    requires held { IsHeld settings.now }
    ensures small { result.maximum ≤ greatest_id }
    ensures given { GivesBySettings settings.now gid_bounds_under result }
{
    Bounds {
        minimum: id_number(settings, Key::SubGidMin),
        maximum: id_number(settings, Key::SubGidMax),
        count: id_number(settings, Key::SubGidCount),
    }
}

// The number of a key that is never -1.
fn id_number(settings: &Defs, key: Key) -> u32
    ensures { GivesBySettings settings.now (id_number key) result }
{
    settings.value(key).unwrap_or(0)
}
