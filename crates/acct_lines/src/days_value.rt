// What a value says of a field that may hold a day or a number of days, or be empty (shadow(5)).
ghost use Rattle.std.specs.Prelude.{◌≡◌};
ghost use Rattle.acct_lines.specs.DaysValues.{days_held};

/// What a field of days is to hold.
#[derive(Clone, Copy)]
pub enum DaysValue {
    /// Nothing: it is empty.
    Empty,
    /// This day, counted from 1970-01-01, or this number of days.
    Days(u32),
}

impl DaysValue {
    /// The field's number; none where it is empty.
    pub fn days(self) -> Option<u32>
        ensures { result ≡ days_held self }
    {
        match self {
            DaysValue::Empty => None,
            DaysValue::Days(days) => Some(days),
        }
    }

    /// What a field with this number holds; without one it is empty.
    pub fn of(days: Option<u32>) -> Self
        ensures { days_held result ≡ days }
    {
        match days {
            Some(days) => DaysValue::Days(days),
            None => DaysValue::Empty,
        }
    }
}
