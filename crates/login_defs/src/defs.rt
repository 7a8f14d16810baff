// What the settings give, and what a command takes from them (login.defs(5)).
ghost use Rattle.std.specs.Prelude.{◌≡◌, ◌≤◌, List, [], length, unwrap_or, IfOk, OnOk, OnErr};
ghost use Rattle.acct_text.specs.Limits.{table_limit};
ghost use Rattle.account_model.specs.Settings.{Setting, settings_of, bad_line, number as number_of, range as range_of, user_groups, default_value, range_between, one_less as lessened};
ghost use Rattle.login_defs.specs.Places.{key_place};
ghost use Rattle.login_defs.specs.Held.{HasSettings, AddsSetting, GivesBySettings, held_value, signed};
ghost use Rattle.login_defs.specs.Faults.{setting_fault, file_fault};
ghost use Rattle.login_defs.specs.LineSetting.{AddsLine, line_fault};
ghost use Rattle.std.specs.Result.{result_err};

use crate::keys::{COUNT, find_key, place_of};
use crate::lines::setting_of;
use crate::values::{KeyValue, allowed_value};
use crate::{IdSort, Key, Kind};
use acct_text::cut_once;

/// Why a settings file is refused.
#[derive(Clone, Copy)]
pub enum DefsFault {
    /// This line, counted from 1, is the first with a numeric key and a value that the key
    /// doesn't allow.
    BadNumber(u32),
}

/// Why a setting of a command line is refused (useradd(8), `-K`).
#[derive(Clone, Copy)]
pub enum KeyFault {
    /// The key is none that the suite knows.
    UnknownKey,
    /// The key is numeric, and doesn't allow the value.
    BadNumber,
}

// The key that isn't a number.
const USER_GROUPS: &[u8] = b"USERGROUPS_ENAB";

/// The settings of login.defs: of each key what its last line gave.
#[derive(Clone, Copy, Drop)]
pub struct Defs {
    // by the place of the key; none where it isn't given
    values: [Option<KeyValue>; COUNT],
    user_groups: bool,
}

impl Defs {
    /// The settings of a file that is absent: no key is given.
    pub fn absent() -> Defs
        ensures { HasSettings result [] }
    {
        Defs {
            values: [None; COUNT],
            user_groups: false,
        }
    }

    /// The settings of a file of at most 16,777,216 bytes. The last line of a key counts; blank
    /// lines, comments, keys alone and unknown keys are ignored.
    ///
    /// `BadNumber` names the first line with a numeric key and a value that the key doesn't allow.
    pub fn read(text: &[u8]) -> Result<Defs, DefsFault>
        requires { length text.now ≤ table_limit }
        ensures settings { IfOk result (λ defs. HasSettings defs (settings_of text.now)) }
        ensures fault { result_err result ≡ file_fault text.now }
    {
        let mut defs = Defs::absent();
        let mut rest = text;
        let mut number = 1u32;
        'lines: while let Some(cut) = cut_once(b'\n', rest) {
            defs.take_line(cut.before, number)?;
            rest = cut.behind;
            number += 1;
        }
        defs.take_line(rest, number)?;
        Ok(defs)
    }

    /// Sets a key, as `-K KEY=VALUE` of useradd(8) does: the settings are those before, and this
    /// one behind them.
    ///
    /// `UnknownKey`: the key is neither numeric nor USERGROUPS_ENAB. `BadNumber`: the key doesn't
    /// allow the value. At either the settings are as before.
    pub fn with(&mut self, key: &[u8], value: &[u8]) -> Result<(), KeyFault>
        ensures fault { result_err result ≡ setting_fault key.now value.now }
        ensures set { OnOk result (AddsSetting self.old self.new
            (record { key = key.now; value = value.now })) }
        ensures unchanged { OnErr result (self.new ≡ self.old) }
    {
        if key == USER_GROUPS {
            self.user_groups = value == b"yes".as_slice();
            return Ok(());
        }
        let Some(key) = find_key(key) else {
            return Err(KeyFault::UnknownKey);
        };
        let Some(value) = allowed_value(key, value) else {
            return Err(KeyFault::BadNumber);
        };
        self.values[place_of(key)] = Some(value);
        Ok(())
    }

    /// The number of a key: what its last setting gave, and else the default of login.defs(5).
    /// -1 stands for an empty number of days, and for SYS_UID_MAX and SYS_GID_MAX below a UID_MIN
    /// or GID_MIN of 0.
    pub fn number(&self, key: Key) -> i64
        ensures { GivesBySettings self.now (λ settings. signed (number_of key settings)) result }
    {
        match self.value(key) {
            Some(number) => i64::from(number),
            None => -1,
        }
    }

    /// Whether useradd(8) makes a group for each user: USERGROUPS_ENAB is `yes`.
    pub fn flag(&self) -> bool
        ensures { GivesBySettings self.now user_groups result }
    {
        self.user_groups
    }

    /// The least and the greatest ID that may be chosen, and none where the range is empty.
    pub fn range(&self, of: IdSort, kind: Kind) -> Option<(u32, u32)>
        ensures { GivesBySettings self.now (range_of of kind) result }
    {
        match (of, kind) {
            (IdSort::Uid, Kind::Regular) => self.between(Key::UidMin, Key::UidMax),
            (IdSort::Uid, Kind::System) => self.between(Key::SysUidMin, Key::SysUidMax),
            (IdSort::Gid, Kind::Regular) => self.between(Key::GidMin, Key::GidMax),
            (IdSort::Gid, Kind::System) => self.between(Key::SysGidMin, Key::SysGidMax),
        }
    }

    // The numbers of a least and a greatest key, where the one doesn't pass the other.
    fn between(&self, least: Key, greatest: Key) -> Option<(u32, u32)>
        ensures { GivesBySettings self.now
            (λ settings. range_between (number_of least settings) (number_of greatest settings))
            result }
    {
        let low = self.value(least)?;
        let high = self.value(greatest)?;
        if low <= high { Some((low, high)) } else { None }
    }

    /// The number of a key, as `number` gives it, and none in place of -1.
    pub fn value(&self, key: Key) -> Option<u32>
        ensures { GivesBySettings self.now (number_of key) result }
    {
        self.given_or(key, self.default(key))
    }

    // The number of a key that isn't given; -1 is none.
    fn default(&self, key: Key) -> Option<u32>
        ensures { GivesBySettings self.now (default_value key) result }
    {
        match key {
            Key::UidMin | Key::GidMin => Some(1000),
            Key::UidMax | Key::GidMax => Some(60000),
            Key::SysUidMin | Key::SysGidMin => Some(101),
            Key::SysUidMax => one_less(self.given_or(Key::UidMin, Some(1000))),
            Key::SysGidMax => one_less(self.given_or(Key::GidMin, Some(1000))),
            Key::SubUidMin | Key::SubGidMin => Some(100000),
            Key::SubUidMax | Key::SubGidMax => Some(600100000),
            Key::SubUidCount | Key::SubGidCount => Some(65536),
            Key::PassMinDays | Key::PassMaxDays | Key::PassWarnAge => None,
        }
    }

    // The number that the key was given, none in place of -1, and else the default.
    fn given_or(&self, key: Key, default: Option<u32>) -> Option<u32>
        ensures { result ≡ unwrap_or (held_value self.now key) default }
    {
        match self.values[place_of(key)] {
            Some(KeyValue::Number(number)) => Some(number),
            Some(KeyValue::Empty) => None,
            None => default,
        }
    }

    // Takes the setting of a line of the file, if it has one.
    fn take_line(&mut self, line: &[u8], number: u32) -> Result<(), DefsFault>
        ensures taken { OnOk result (AddsLine self.old self.new line.now) }
        ensures fault { result_err result ≡ line_fault number line.now }
    {
        let Some(setting) = setting_of(line) else {
            return Ok(());
        };
        match self.with(setting.key, setting.value) {
            Ok(()) => Ok(()),
            Err(KeyFault::UnknownKey) => Ok(()),
            Err(KeyFault::BadNumber) => Err(DefsFault::BadNumber(number)),
        }
    }
}

// One less, and none below 0.
fn one_less(number: Option<u32>) -> Option<u32>
    ensures { result ≡ lessened number }
{
    match number {
        Some(number) => number.checked_sub(1),
        None => None,
    }
}
