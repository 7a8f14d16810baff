// Hashes of users where they stand, and the lines of shadow that are made on demand (passwd(5),
// shadow(5)).
ghost use Rattle.std.specs.Prelude.{◌≡◌, OnOk};
ghost use Rattle.account_model.specs.Hashes.{demand_shadow as shadow_on_demand, each_user_hash, make_shadow as shadow_line};
ghost use Rattle.account_model.specs.Records.{hash_alone as record_of_hash};
ghost use Rattle.carried_tables.specs.Scripts.{HasAlso};
ghost use Rattle.line_edits.specs.HashChanges.{hash_by};

use crate::{Script, Tables};
use acct_lines::{PasswdRecord, ShadowRecord};
use acct_text::Bytes;
use line_edits::{Edit, HashChange, PasswdAct, ShadowAct};
use std::alloc::{AllocError, Global};

/// Makes the shadow line on demand: where shadow lacks the user, a record with the hash of
/// passwd goes there, and `x` into the password field of passwd.
pub fn demand_shadow(
    alloc: Global,
    script: &mut Script,
    tables: &Tables,
    name: &[u8],
) -> Result<(), AllocError>
    ensures { OnOk result
        (HasAlso (shadow_on_demand name.now tables.now) script.old script.new) }
{
    if !tables.has_shadow_file() || tables.has_shadow(name) {
        return Ok(());
    }
    match tables.user_named(alloc, name)? {
        Some(user) => make_shadow(alloc, script, &user),
        None => Ok(()),
    }
}

/// Changes the hash of the user where it stands: in shadow, and without shadow in passwd. A
/// line on demand is for the caller to make before.
pub fn change_user_hash(
    alloc: Global,
    script: &mut Script,
    tables: &Tables,
    name: &[u8],
    change: HashChange,
) -> Result<(), AllocError>
    ensures { OnOk result (HasAlso
        (each_user_hash name.now (hash_by change) tables.now) script.old script.new) }
{
    if tables.has_shadow_file() {
        script.change_shadow(alloc, name, ShadowAct::ChangeHash(change))
    } else {
        script.change_user(alloc, name, PasswdAct::ChangePassword(change))
    }
}

// Moves the hash of the user to a new record of shadow.
fn make_shadow(alloc: Global, script: &mut Script, user: &PasswdRecord) -> Result<(), AllocError>
    ensures { OnOk result (HasAlso (shadow_line user.now) script.old script.new) }
{
    let act = PasswdAct::SetPassword(Bytes::of(alloc, b"x")?);
    script.change_user(alloc, user.name.as_slice(), act)?;
    let record = hash_alone(alloc, user.name.copy()?, user.password.copy()?);
    script.shadow.push(Edit::AddMissing(record))?;
    Ok(())
}

/// A record of shadow with a name and a hash, and nothing else.
pub fn hash_alone(alloc: Global, name: Bytes, hash: Bytes) -> ShadowRecord
    ensures { result ≡ record_of_hash name hash }
{
    ShadowRecord {
        name,
        hash,
        last_change: None,
        minimum: None,
        maximum: None,
        warning: None,
        inactive: None,
        expiration: None,
        rest: Bytes::new(alloc),
    }
}
