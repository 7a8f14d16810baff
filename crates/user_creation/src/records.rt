// The lines of a new user (useradd(8), passwd(5), shadow(5)).
ghost use Rattle.std.specs.Prelude.{◌≡◌, None, IfOk, codes};
ghost use Rattle.account_model.specs.Useradd.{new_aging, new_home, new_shadow, new_user};
ghost use Rattle.account_model.specs.Values.{days_value, expiration_value, field_value};
ghost use Rattle.login_defs.specs.Held.{GivesBySettings};

use crate::plan::NewIds;
use account_model::{Key, PasswdRecord, ShadowRecord};
use acct_text::Bytes;
use command_values::{Asked, read_days, read_expiration};
use login_defs::Defs;
use std::alloc::{AllocError, Global};
use table_edits::Tables;

/// The new line of passwd. The hash stands there where there is no shadow.
pub(crate) fn new_user(
    alloc: Global,
    asked: &Asked,
    tables: &Tables,
    ids: NewIds,
) -> Result<PasswdRecord, AllocError>
    ensures { IfOk result (λ user. user ≡ new_user asked.now tables.now ids.uid ids.gid) }
{
    let password = if tables.has_shadow_file() {
        b"x"
    } else {
        asked.value_or(b'p', b"!")
    };
    Ok(PasswdRecord {
        name: Bytes::of(alloc, asked.operand())?,
        password: Bytes::of(alloc, password)?,
        uid: ids.uid,
        gid: ids.gid,
        comment: Bytes::of(alloc, asked.value_or(b'c', b""))?,
        home: new_home(alloc, asked)?,
        shell: Bytes::of(alloc, asked.value_or(b's', b""))?,
    })
}

// The home of `-d`, and else LOGIN in the folder of `-b` or in /home.
fn new_home(alloc: Global, asked: &Asked) -> Result<Bytes, AllocError>
    ensures { IfOk result (λ home. home ≡ new_home asked.now) }
{
    if let Some(home) = asked.value(b'd') {
        return Bytes::of(alloc, home);
    }
    let mut home = Bytes::of(alloc, asked.value_or(b'b', b"/home"))?;
    home.push(b"/")?;
    home.push(asked.operand())?;
    Ok(home)
}

/// The new line of shadow, by the settings and the day, in days since 1970-01-01.
pub(crate) fn new_shadow(
    alloc: Global,
    asked: &Asked,
    settings: &Defs,
    day: u32,
) -> Result<ShadowRecord, AllocError>
    ensures { IfOk result (GivesBySettings settings.now (λ under. new_shadow asked.now under day)) }
{
    Ok(ShadowRecord {
        name: Bytes::of(alloc, asked.operand())?,
        hash: Bytes::of(alloc, asked.value_or(b'p', b"!"))?,
        last_change: Some(day),
        minimum: new_aging(asked, settings, Key::PassMinDays),
        maximum: new_aging(asked, settings, Key::PassMaxDays),
        warning: new_aging(asked, settings, Key::PassWarnAge),
        inactive: given_inactive(asked),
        expiration: given_expiration(asked),
        rest: Bytes::new(alloc),
    })
}

// The aging by the settings; a system user has none.
fn new_aging(asked: &Asked, settings: &Defs, key: Key) -> Option<u32>
    ensures { GivesBySettings settings.now (λ under. new_aging asked.now under key) result }
{
    if asked.has(b'r') {
        return None;
    }
    settings.value(key)
}

// The days of `-f`.
fn given_inactive(asked: &Asked) -> Option<u32>
    ensures { result ≡ field_value days_value (codes "f") asked.now None }
{
    read_days(asked.value(b'f')?)?.days()
}

// The date of `-e`.
fn given_expiration(asked: &Asked) -> Option<u32>
    ensures { result ≡ field_value expiration_value (codes "e") asked.now None }
{
    read_expiration(asked.value(b'e')?)?.days()
}
