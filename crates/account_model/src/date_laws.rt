//! Laws of days and dates.
ghost use Rattle.std.specs.Prelude.{◌≡◌, ◌≤◌, ℕ, Ok, Some};
ghost use Rattle.account_model.specs.Dates.{Date, CountsDays, IsCounted, day_of, date_of, next_date, print_day, read_day};
ghost use Rattle.account_model.specs.Records.{greatest_days};

/// Each day from 1970-01-01 on has one date of the calendar, and each such date has one day. A day
/// that is printed is read again (chage(1), `-d`, `-E` and `-l`).
pub fn days_have_dates()
    ensures date { (day : ℕ) → IsCounted (date_of day) }
    ensures day { (day : ℕ) → day_of (date_of day) ≡ day }
    ensures back { (date : Date) → IsCounted date → date_of (day_of date) ≡ date }
    ensures printed { (day : ℕ) → day ≤ greatest_days → read_day (print_day day) ≡ Ok (Some day) }
{}

/// Days count the dates of the calendar one after another from 1970-01-01 on, and nothing else
/// counts them so. A calendar of a library that gives the next date the next number therefore gives
/// the same days.
pub fn days_are_counted()
    ensures counts { CountsDays day_of }
    ensures only { (count : Date → ℕ) (date : Date) → CountsDays count → IsCounted date
        → count date ≡ day_of date }
    ensures next { (date : Date) → IsCounted date → IsCounted (next_date date) }
{}
