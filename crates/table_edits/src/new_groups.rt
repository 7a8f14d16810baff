// A group that a command makes (groupadd(8); useradd(8), `-U`).
ghost use Rattle.std.specs.Prelude.{◌≡◌, IfOk, OnOk};
ghost use Rattle.account_model.specs.NewAccount.{add_group as addition_of_group, new_group, new_gshadow};
ghost use Rattle.carried_tables.specs.Scripts.{HasAlso};

use crate::{Script, Tables};
use acct_lines::{GroupRecord, GshadowRecord};
use acct_text::{Bytes, Names};
use line_edits::Edit;
use std::alloc::{AllocError, Global};

/// Makes the group, behind the other lines. The hash stands in gshadow, and without gshadow in group.
pub fn add_group(
    alloc: Global,
    script: &mut Script,
    tables: &Tables,
    name: &[u8],
    hash: &[u8],
    gid: u32,
) -> Result<(), AllocError>
    ensures { OnOk result
        (HasAlso (addition_of_group name.now hash.now gid tables.now) script.old script.new) }
{
    let password = if tables.has_gshadow_file() {
        b"x"
    } else {
        hash
    };
    let line = new_group(alloc, name, password, gid)?;
    script.group.push(Edit::Add(line))?;
    let line = new_gshadow(alloc, name, hash)?;
    script.gshadow.push(Edit::Put(line))?;
    Ok(())
}

// A record of group without members.
fn new_group(
    alloc: Global,
    name: &[u8],
    password: &[u8],
    gid: u32,
) -> Result<GroupRecord, AllocError>
    ensures { IfOk result (λ group. group ≡ new_group name.now password.now gid) }
{
    Ok(GroupRecord {
        name: Bytes::of(alloc, name)?,
        password: Bytes::of(alloc, password)?,
        gid,
        members: Names::new(alloc),
    })
}

// A record of gshadow without administrators and members.
fn new_gshadow(alloc: Global, name: &[u8], hash: &[u8]) -> Result<GshadowRecord, AllocError>
    ensures { IfOk result (λ group. group ≡ new_gshadow name.now hash.now) }
{
    Ok(GshadowRecord {
        name: Bytes::of(alloc, name)?,
        password: Bytes::of(alloc, hash)?,
        administrators: Names::new(alloc),
        members: Names::new(alloc),
    })
}
