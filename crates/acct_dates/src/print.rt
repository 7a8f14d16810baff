// A day as a text: a date, and behind the last of them a number (chage(1), `-l`).
ghost use Rattle.std.specs.Prelude.{◌≡◌, ◌<◌, IfOk, MatchOption};
ghost use Rattle.account_model.specs.Dates.{print_day as text_of_day};
ghost use Rattle.acct_text.specs.Limits.{last_day};
ghost use Rattle.jiff.specs.Words.{date_text};

use acct_text::{Bytes, LAST_DAY, Piece};
use jiff::ToSpan;
use jiff::civil::{Date, date};
use std::alloc::{AllocError, Global};

/// The text of a day: YYYY-MM-DD up to 9999-12-31, and its number behind that.
pub fn print_day(alloc: Global, day: u64) -> Result<Bytes, AllocError>
    ensures { IfOk result (λ text. text ≡ text_of_day day) }
{
    match date_of(day) {
        Some(date) => Bytes::of(alloc, date.to_string(alloc)?.as_bytes()),
        None => Bytes::made_of(alloc, &[Piece::Number(day)]),
    }
}

// The date of a day up to the last.
fn date_of(day: u64) -> Option<Date>
    ensures { MatchOption result (last_day < day) (λ date. date_text date ≡ text_of_day day) }
{
    if day > LAST_DAY {
        return None;
    }
    date(1970, 1, 1).checked_add((day as i64).days()).ok()
}
