// Numbers as login.defs writes them: decimal, octal after `0`, hexadecimal after `0x` or `0X`
// (login.defs(5); the bases are those of strtol(3)).
ghost use Rattle.std.specs.Prelude.{◌≡◌, ◌≤◌, ◌<◌, ◌^◌, option_map};
ghost use Rattle.account_model.specs.Settings.{allowed_value as value_allowed, setting_number, radix_number, within};
ghost use Rattle.login_defs.specs.KeyValues.{value_number};

use crate::keys::is_days_key;
use account_model::{GREATEST_DAYS, GREATEST_ID, Key};

/// The value of a numeric key.
#[derive(Clone, Copy)]
pub(crate) enum KeyValue {
    /// -1, which stands for an empty number of days.
    Empty,
    /// This ID, or this number of IDs or days.
    Number(u32),
}

/// The value that the text gives the key, and none where it isn't allowed.
pub(crate) fn allowed_value(key: Key, text: &[u8]) -> Option<KeyValue>
    ensures { option_map value_number result ≡ value_allowed key text.now }
{
    if !is_days_key(key) {
        return number(text, GREATEST_ID).map(KeyValue::Number);
    }
    if text == b"-1".as_slice() {
        return Some(KeyValue::Empty);
    }
    number(text, GREATEST_DAYS).map(KeyValue::Number)
}

// The number that the text writes, of at most `greatest`.
fn number(text: &[u8], greatest: u32) -> Option<u32>
    ensures { result ≡ within greatest (setting_number text.now) }
{
    match text {
        [b'0', b'x' | b'X', digits @ ..] => digits_within(digits, 16, greatest),
        [b'0', ..] => digits_within(text, 8, greatest),
        _ => digits_within(text, 10, greatest),
    }
}

// The number that digits of this radix write, of at most `greatest`.
fn digits_within(text: &[u8], radix: u32, greatest: u32) -> Option<u32>
    requires least { 2 ≤ radix }
    requires most { radix ≤ 16 }
    ensures { result ≡ within greatest (radix_number radix text.now) }
{
    if text.is_empty() {
        return None;
    }
    let mut value = 0u64;
    for byte in text {
        let digit = char::from(*byte).to_digit(radix)?;
        value = value * u64::from(radix) + u64::from(digit);
        if value > u64::from(greatest) {
            return None;
        }
    }
    Some(value as u32)
}
