// The clock of the system, or the moment that its environment sets in its place.
ghost use Rattle.std.specs.Prelude.{◌≡◌, ◌≤◌, Some, IfOk, IfSome};
ghost use Rattle.real_folder.specs.Untold.{untold_clock};
ghost use Rattle.acct_text.specs.Limits.{last_day};

use crate::faults::{Faults, SystemError};
use acct_outside::{Clock, ClockFault};
use acct_text::{LAST_DAY, read_decimal};
use std::env::VarError;
use std::rt::{Clock as SystemClock, Env};
use std::{env, io};

const SECONDS_OF_A_DAY: u64 = 86400;

/// The variable that sets the moment for builds that are to be the same twice.
const EPOCH: &str = "SOURCE_DATE_EPOCH";

/// The clock of the system, which counts days of 86,400 seconds from 1970-01-01 in UTC.
///
/// Where SOURCE_DATE_EPOCH is set and isn't empty, the moment is the seconds since 1970-01-01 that it
/// gives in decimal digits; anything else in it is a fault.
#[derive(Drop)]
pub struct RealClock<R: SystemClock + Env + AllocGlobal + Drop> {
    rt: R,
    gave: Option<u32>,
    faults: Faults,
}

impl<R: SystemClock + Env + AllocGlobal + Drop> RealClock<R> {
    /// A clock that gave no day yet.
    pub fn new(rt: R) -> Self {
        RealClock {
            rt,
            gave: None,
            faults: Faults::new(),
        }
    }

    /// Why the last call gave no day, and none where it gave one.
    pub fn last_error(&self) -> Option<&SystemError> {
        self.faults.last.as_ref()
    }

    // Today, and an error where it isn't a day of the years 1970 to 9999.
    fn today(&self) -> Result<u32, SystemError>
        ensures { IfOk result (λ day. day ≤ last_day) }
    {
        match env::var(&self.rt, EPOCH) {
            Ok(text) if !text.as_str().is_empty() => day_of_text(text.as_str()),
            Ok(_) | Err(VarError::NotPresent) => self.day_of_system(),
            Err(VarError::NotUnicode) => Err(no_time()),
            Err(VarError::OutOfMemory) => {
                Err(SystemError::from(io::Error::from(io::ErrorKind::OutOfMemory)))
            }
        }
    }

    // The day of the system's time.
    fn day_of_system(&self) -> Result<u32, SystemError>
        ensures { IfOk result (λ day. day ≤ last_day) }
    {
        match day_of(self.rt.since_1970()?.as_secs()) {
            Some(day) => Ok(day),
            None => Err(SystemError::from(io::Error::other("the time is past the year 9999"))),
        }
    }
}

// The day of a moment in seconds since 1970-01-01, and none where it is past 9999-12-31.
fn day_of(seconds: u64) -> Option<u32>
    ensures { IfSome result (λ day. day ≤ last_day) }
{
    let day = seconds / SECONDS_OF_A_DAY;
    if day > LAST_DAY {
        return None;
    }
    Some(day as u32)
}

// The day of a moment that is written in decimal digits.
fn day_of_text(seconds: &str) -> Result<u32, SystemError>
    ensures { IfOk result (λ day. day ≤ last_day) }
{
    let Ok(seconds) = read_decimal(seconds.as_bytes(), u64::MAX) else {
        return Err(no_time());
    };
    match day_of(seconds) {
        Some(day) => Ok(day),
        None => Err(no_time()),
    }
}

// The error of a variable that gives no moment.
fn no_time() -> SystemError {
    SystemError::from(io::Error::other("SOURCE_DATE_EPOCH is no time"))
}

impl<R: SystemClock + Env + AllocGlobal + Drop> Clock for RealClock<R> {
    ghost moment = { λ clock. untold_clock clock.gave clock.faults };

    fn day(&mut self) -> Result<u32, ClockFault> {
        match self.today() {
            Ok(day) => {
                self.gave = Some(day);
                self.faults.pass();
                Ok(day)
            }
            Err(error) => {
                self.faults.note(error);
                Err(ClockFault::Failed)
            }
        }
    }

    fn faults(&self) -> u64 {
        self.faults.count
    }
}
