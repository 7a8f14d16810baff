// The numeric keys of login.defs, with their names (login.defs(5)).
ghost use Rattle.std.specs.Prelude.{◌≡◌, ◌<◌, bytes_eq};
ghost use Rattle.account_model.specs.Settings.{keys, key_name, find_key as key_named, is_days_key as counts_days};
ghost use Rattle.login_defs.specs.Places.{key_place};

use account_model::Key;

/// How many keys there are.
pub(crate) const COUNT: usize = 17;

/// The key of this name.
pub(crate) fn find_key(name: &[u8]) -> Option<Key>
    ensures { result ≡ key_named name.now }
{
    all_keys().iter().copied().find(|key| is_named(*key, name))
}

/// The place of the key among all keys, counted from 0.
pub(crate) fn place_of(key: Key) -> usize
    ensures place { result ≡ key_place key }
    ensures within { result < 17 }
{
    key as usize
}

/// Whether the key is a number of days, which may be -1.
pub(crate) fn is_days_key(key: Key) -> bool
    ensures { result ≡ counts_days key }
{
    matches!(key, Key::PassMinDays | Key::PassMaxDays | Key::PassWarnAge)
}

fn is_named(key: Key, name: &[u8]) -> bool
    ensures { result ≡ bytes_eq (key_name key) name.now }
{
    name_of(key).as_bytes() == name
}

// The keys in the order of their places.
fn all_keys() -> [Key; COUNT]
    ensures { result ≡ keys }
{
    [
        Key::UidMin,
        Key::GidMin,
        Key::UidMax,
        Key::GidMax,
        Key::SysUidMin,
        Key::SysGidMin,
        Key::SysUidMax,
        Key::SysGidMax,
        Key::SubUidMin,
        Key::SubGidMin,
        Key::SubUidMax,
        Key::SubGidMax,
        Key::SubUidCount,
        Key::SubGidCount,
        Key::PassMinDays,
        Key::PassMaxDays,
        Key::PassWarnAge,
    ]
}

fn name_of(key: Key) -> &'static str
    ensures { result.now ≡ key_name key }
{
    match key {
        Key::UidMin => "UID_MIN",
        Key::GidMin => "GID_MIN",
        Key::UidMax => "UID_MAX",
        Key::GidMax => "GID_MAX",
        Key::SysUidMin => "SYS_UID_MIN",
        Key::SysGidMin => "SYS_GID_MIN",
        Key::SysUidMax => "SYS_UID_MAX",
        Key::SysGidMax => "SYS_GID_MAX",
        Key::SubUidMin => "SUB_UID_MIN",
        Key::SubGidMin => "SUB_GID_MIN",
        Key::SubUidMax => "SUB_UID_MAX",
        Key::SubGidMax => "SUB_GID_MAX",
        Key::SubUidCount => "SUB_UID_COUNT",
        Key::SubGidCount => "SUB_GID_COUNT",
        Key::PassMinDays => "PASS_MIN_DAYS",
        Key::PassMaxDays => "PASS_MAX_DAYS",
        Key::PassWarnAge => "PASS_WARN_AGE",
    }
}
