// A text as a day: `-1`, the number of a day, or a date (chage(1), `-d` and `-E`; useradd(8) and
// usermod(8), `-e`).
ghost use Rattle.std.specs.Prelude.{◌≡◌, ◌<◌, ◌≤◌, ◌^◌, if◌then◌else◌, IfOk};
ghost use Rattle.std.specs.Str.Parse.{digits_value};
ghost use Rattle.acct_text.specs.Pieces.{cut_at};
ghost use Rattle.account_model.specs.Text.{hyphen};
ghost use Rattle.account_model.specs.Dates.{are_digits, day_of_written, read_date_pieces, read_day as day_of_text};
ghost use Rattle.acct_dates.specs.Days.{answered, calendar_date};

use account_model::GREATEST_DAYS;
use acct_text::{NumberFault, cut_once, read_decimal};
use jiff::civil::Date;
use thiserror::Error;

// The greatest day, as the number that is read.
const GREATEST_DAY: u64 = GREATEST_DAYS as u64;

/// Why a text is no day.
#[derive(Clone, Copy, Debug, Error)]
pub enum DateFault {
    /// The text is neither `-1` nor digits, nor of the form YYYY-MM-DD.
    #[error("neither a number of days nor a date")]
    Shape,
    /// The text is of that form, and the calendar has no such day.
    #[error("no day of the calendar")]
    NoSuchDay,
    /// The number is above 2147483647, or the date before 1970-01-01.
    #[error("the day is out of range")]
    OutOfRange,
}

/// The day that the text writes, counted from 1970-01-01: a number up to 2147483647, or a date
/// YYYY-MM-DD. `-1`, which is no day and empties a field, gives -1.
///
/// `Shape` comes where the text is neither `-1` nor digits, nor of the form of a date; `NoSuchDay`
/// where it is of that form and the calendar has no such day; `OutOfRange` where the number is too
/// large, or the date before 1970-01-01.
pub fn read_day(text: &[u8]) -> Result<i64, DateFault>
    ensures { result ≡ answered (day_of_text text.now) }
{
    if text == b"-1".as_slice() {
        return Ok(-1);
    }
    match read_decimal(text, GREATEST_DAY) {
        Ok(day) => Ok(day as i64),
        Err(NumberFault::TooLarge) => Err(DateFault::OutOfRange),
        Err(NumberFault::Empty) => Err(DateFault::Shape),
        Err(NumberFault::NotDigit(_)) => read_date(text),
    }
}

// The day of a date YYYY-MM-DD.
fn read_date(text: &[u8]) -> Result<i64, DateFault>
    ensures { result ≡ answered (read_date_pieces (cut_at hyphen text.now)) }
{
    let Some(first) = cut_once(b'-', text) else {
        return Err(DateFault::Shape);
    };
    let Some(second) = cut_once(b'-', first.behind) else {
        return Err(DateFault::Shape);
    };
    let year = number(first.before, 4)?;
    let month = number(second.before, 2)?;
    let day = number(second.behind, 2)?;
    day_of(WrittenDate { year, month, day })
}

// The number of exactly so many digits.
fn number(text: &[u8], count: usize) -> Result<u16, DateFault>
    requires { count ≤ 4 }
    ensures value { result ≡ (if are_digits count text.now then Ok (digits_value 10 text.now)
        else Err DateFault.Shape) }
    ensures within { IfOk result (λ number. number < 10 ^ count) }
{
    if text.len() != count {
        return Err(DateFault::Shape);
    }
    match read_decimal(text, 9999) {
        Ok(number) => Ok(number as u16),
        Err(_) => Err(DateFault::Shape),
    }
}

// A date as it is written, which the calendar may lack.
#[derive(Clone, Copy)]
struct WrittenDate {
    year: u16,
    month: u16,
    day: u16,
}

// The day of a date that the calendar has, from 1970 on.
fn day_of(written: WrittenDate) -> Result<i64, DateFault>
    requires year { written.year < 10000 }
    requires month { written.month < 100 }
    requires day { written.day < 100 }
    ensures { result ≡ answered (day_of_written (calendar_date written)) }
{
    let Ok(date) = Date::new(written.year as i16, written.month as i8, written.day as i8) else {
        return Err(DateFault::NoSuchDay);
    };
    if written.year < 1970 {
        return Err(DateFault::OutOfRange);
    }
    Ok(i64::from(date.to_plain().to_unix_epoch_day()))
}
