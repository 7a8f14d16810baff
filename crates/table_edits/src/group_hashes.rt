// Hashes of groups where they stand, and the lines of gshadow that are made on demand (group(5),
// gshadow(5)).
ghost use Rattle.std.specs.Prelude.{OnOk};
ghost use Rattle.account_model.specs.Hashes.{set_group_hash as group_hash, demand_gshadow as gshadow_on_demand, make_gshadow as gshadow_line};
ghost use Rattle.carried_tables.specs.Scripts.{HasAlso};

use crate::{Script, Tables};
use acct_lines::{GroupRecord, GshadowRecord};
use acct_text::{Bytes, Names};
use line_edits::{Edit, GroupAct, GshadowAct};
use std::alloc::{AllocError, Global};

/// Makes the gshadow line on demand: where gshadow lacks the group, its record goes there, and
/// `x` into the password field of group.
pub fn demand_gshadow(
    alloc: Global,
    script: &mut Script,
    tables: &Tables,
    name: &[u8],
) -> Result<(), AllocError>
    ensures { OnOk result
        (HasAlso (gshadow_on_demand name.now tables.now) script.old script.new) }
{
    if !tables.has_gshadow_file() || tables.has_gshadow(name) {
        return Ok(());
    }
    match tables.group_named(alloc, name)? {
        Some(group) => make_gshadow(alloc, script, &group),
        None => Ok(()),
    }
}

/// Sets the hash of the group where it stands: in gshadow, with the line on demand, and without
/// gshadow in group.
pub fn set_group_hash(
    alloc: Global,
    script: &mut Script,
    tables: &Tables,
    name: &[u8],
    hash: &[u8],
) -> Result<(), AllocError>
    ensures { OnOk result
        (HasAlso (group_hash name.now hash.now tables.now) script.old script.new) }
{
    demand_gshadow(alloc, script, tables, name)?;
    let hash = Bytes::of(alloc, hash)?;
    if tables.has_gshadow_file() {
        script.change_gshadow(alloc, name, GshadowAct::SetPassword(hash))
    } else {
        script.change_group(alloc, name, GroupAct::SetPassword(hash))
    }
}

// Moves the password of the group to a new record of gshadow.
fn make_gshadow(alloc: Global, script: &mut Script, group: &GroupRecord) -> Result<(), AllocError>
    ensures { OnOk result (HasAlso (gshadow_line group.now) script.old script.new) }
{
    let act = GroupAct::SetPassword(Bytes::of(alloc, b"x")?);
    script.change_group(alloc, group.name.as_slice(), act)?;
    let record = GshadowRecord {
        name: group.name.copy()?,
        password: group.password.copy()?,
        administrators: Names::new(alloc),
        members: group.members.copy()?,
    };
    script.gshadow.push(Edit::AddMissing(record))?;
    Ok(())
}
