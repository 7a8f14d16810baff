// The hash of a user (usermod(8), `-p`, `-L` and `-U`).
ghost use Rattle.std.specs.Prelude.{◌≡◌, ◌||◌, IfOk, OnOk, if◌then◌else◌};
ghost use Rattle.account_model.specs.Hashes.{demand_shadow, each_user_hash};
ghost use Rattle.account_model.specs.Request.{operand};
ghost use Rattle.account_model.specs.Tables.{no_edits};
ghost use Rattle.account_model.specs.UsermodHash.{hash_after, hash_script, relocked_hash, sets_aging, sets_hash};
ghost use Rattle.account_model.specs.Users.{hash_of, passwd_field};
ghost use Rattle.carried_tables.specs.Scripts.{HasAlso};
ghost use Rattle.line_edits.specs.HashChanges.{hash_by};

use acct_text::Bytes;
use command_values::Asked;
use line_edits::HashChange;
use std::alloc::{AllocError, Global};
use table_edits::{Script, Tables, change_user_hash, demand_shadow};

/// Makes the line of shadow on demand, and then changes the hash.
pub(crate) fn write_hash(
    alloc: Global,
    script: &mut Script,
    asked: &Asked,
    tables: &Tables,
) -> Result<(), AllocError>
    ensures { OnOk result
        (HasAlso (hash_script asked.now tables.now) script.old script.new) }
{
    write_line(alloc, script, asked, tables)?;
    change_hash(alloc, script, asked, tables)
}

// Makes the line of shadow on demand, where the hash or the aging is set.
fn write_line(
    alloc: Global,
    script: &mut Script,
    asked: &Asked,
    tables: &Tables,
) -> Result<(), AllocError>
    ensures { OnOk result (HasAlso
        (if sets_hash asked.now || sets_aging asked.now
        then demand_shadow (operand asked.now) tables.now else no_edits)
        script.old script.new) }
{
    if sets_hash(asked) || sets_aging(asked) {
        return demand_shadow(alloc, script, tables, asked.operand());
    }
    Ok(())
}

// Changes the hash where it stands.
fn change_hash(
    alloc: Global,
    script: &mut Script,
    asked: &Asked,
    tables: &Tables,
) -> Result<(), AllocError>
    ensures { OnOk result (HasAlso
        (if sets_hash asked.now
        then each_user_hash (operand asked.now) (hash_after asked.now) tables.now else no_edits)
        script.old script.new) }
{
    if !sets_hash(asked) {
        return Ok(());
    }
    let change = hash_change(alloc, asked)?;
    change_user_hash(alloc, script, tables, asked.operand(), change)
}

// The hash of `-p`, and else what `-L` and `-U` make of the old one.
fn hash_change(alloc: Global, asked: &Asked) -> Result<HashChange, AllocError>
    ensures { IfOk result (λ change. hash_by change ≡ hash_after asked.now) }
{
    match asked.value(b'p') {
        Some(hash) => Ok(HashChange::Set(Bytes::of(alloc, hash)?)),
        None => Ok(lock_change(asked)),
    }
}

// What `-L` and `-U` make of a hash.
fn lock_change(asked: &Asked) -> HashChange
    ensures { hash_by result ≡ relocked_hash asked.now }
{
    if asked.has(b'L') {
        HashChange::Lock
    } else if asked.has(b'U') {
        HashChange::Unlock
    } else {
        HashChange::Keep
    }
}

// Whether an option sets the hash.
fn sets_hash(asked: &Asked) -> bool
    ensures { result ≡ sets_hash asked.now }
{
    asked.has(b'p') || asked.has(b'L') || asked.has(b'U')
}

/// Whether an option sets the aging.
pub(crate) fn sets_aging(asked: &Asked) -> bool
    ensures { result ≡ sets_aging asked.now }
{
    asked.has(b'e') || asked.has(b'f')
}

/// The hash of the user: that of shadow, and without a record there the password field of passwd.
/// It is empty for a user that isn't there.
pub(crate) fn hash_of(alloc: Global, tables: &Tables, name: &[u8]) -> Result<Bytes, AllocError>
    ensures { IfOk result (λ hash. hash ≡ hash_of name.now tables.now) }
{
    match tables.shadow_named(alloc, name)? {
        Some(shadow) => Ok(shadow.hash),
        None => password_of(alloc, tables, name),
    }
}

// The password field of the user in passwd.
fn password_of(alloc: Global, tables: &Tables, name: &[u8]) -> Result<Bytes, AllocError>
    ensures { IfOk result (λ password. password ≡ passwd_field name.now tables.now) }
{
    match tables.user_named(alloc, name)? {
        Some(user) => Ok(user.password),
        None => Ok(Bytes::new(alloc)),
    }
}
