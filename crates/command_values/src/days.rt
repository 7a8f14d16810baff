// Numbers of days and dates, as the values of options write them (useradd(8), usermod(8), chage(1)).
ghost use Rattle.std.specs.Prelude.{◌≡◌, ℕ, Option, option_map};
ghost use Rattle.account_model.specs.Values.{days_value, date_value, expiration_value};
ghost use Rattle.acct_lines.specs.DaysValues.{days_held};
ghost use Rattle.command_values.specs.FieldNumbers.{IsFieldNumber};

use crate::form::number_within;
use account_model::GREATEST_DAYS;
use acct_dates::read_day;
use acct_lines::DaysValue;

/// The number of days that a text writes, at most 2147483647, or the empty field that `-1` makes
/// (chage(1), `-m`); none where it writes neither.
pub fn read_days(text: &[u8]) -> Option<DaysValue>
    ensures { option_map days_held result ≡ days_value text.now }
{
    if text == b"-1".as_slice() {
        return Some(DaysValue::Empty);
    }
    match number_within(text, GREATEST_DAYS) {
        Some(days) => Some(DaysValue::Days(days)),
        None => None,
    }
}

/// The day that a text writes, counted from 1970-01-01: a number up to 2147483647, or a date
/// YYYY-MM-DD; or the empty field that `-1` makes (chage(1), `-d` and `-E`). None where it writes
/// neither.
pub fn read_date(text: &[u8]) -> Option<DaysValue>
    ensures { option_map days_held result ≡ date_value text.now }
{
    match read_day(text) {
        Ok(day) => Some(DaysValue::of(field_number(day))),
        Err(_) => None,
    }
}

/// The same, and an empty text empties the field as well (useradd(8) and usermod(8), `-e`).
pub fn read_expiration(text: &[u8]) -> Option<DaysValue>
    ensures { option_map days_held result ≡ expiration_value text.now }
{
    if text.is_empty() {
        return Some(DaysValue::Empty);
    }
    read_date(text)
}

// A number as a field has it: none for -1.
fn field_number(number: i64) -> Option<u32>
    ensures { (wanted : Option ℕ) → IsFieldNumber number wanted → result ≡ wanted }
{
    u32::try_from(number).ok()
}
