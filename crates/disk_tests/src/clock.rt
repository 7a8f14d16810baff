// Which day the clock gives, by the system's time and by SOURCE_DATE_EPOCH.
use crate::texts::{bytes_of, cut, push_answer, push_number, push_text};
use acct_outside::Clock;
use acct_text::{Bytes, read_decimal};
use real_folder::RealClock;
use std::alloc::{AllocError, Global};
use std::env::FillError;
use std::io;
use std::rt::{Clock as SystemClock, Env};
use std::time::Duration;

/// A system whose time is so many seconds after 1970-01-01, with SOURCE_DATE_EPOCH where it is set.
#[derive(Drop)]
struct Stopped<'a> {
    seconds: u64,
    epoch: Option<&'a [u8]>,
}

impl<'a> SystemClock for Stopped<'a> {
    fn monotonic(&self) -> io::Result<Duration> {
        self.since_1970()
    }

    fn since_1970(&self) -> io::Result<Duration> {
        Ok(Duration::from_secs(self.seconds))
    }
}

impl<'a> Env for Stopped<'a> {
    fn arg(&self, _place: usize, _buffer: &mut [u8]) -> Result<usize, FillError> {
        Err(FillError::NotPresent)
    }

    fn var(&self, name: &str, buffer: &mut [u8]) -> Result<usize, FillError> {
        let Some(value) = self.epoch else {
            return Err(FillError::NotPresent);
        };
        if name != "SOURCE_DATE_EPOCH" {
            return Err(FillError::NotPresent);
        }
        if value.len() > buffer.len() {
            return Err(FillError::TooLong);
        }
        buffer[..value.len()].copy_from_slice(value);
        Ok(value.len())
    }

    fn var_at(&self, _place: usize, _buffer: &mut [u8]) -> Result<usize, FillError> {
        Err(FillError::NotPresent)
    }
}

/// Pushes the day that a moment has, in seconds after 1970-01-01, with SOURCE_DATE_EPOCH behind a `=`.
pub(crate) fn push_day(alloc: Global, line: &str, shown: &mut Bytes) -> Result<(), AllocError> {
    let (seconds, epoch) = cut(line);
    let seconds = read_decimal(seconds.as_bytes(), u64::MAX).unwrap_or(0);
    match epoch.strip_prefix('=') {
        Some(epoch) => {
            let epoch = bytes_of(alloc, epoch)?;
            push_day_of(
                alloc,
                Stopped {
                    seconds,
                    epoch: Some(epoch.as_slice()),
                },
                shown,
            )
        }
        None => push_day_of(
            alloc,
            Stopped {
                seconds,
                epoch: None,
            },
            shown,
        ),
    }
}

fn push_day_of(alloc: Global, system: Stopped<'_>, shown: &mut Bytes) -> Result<(), AllocError> {
    let mut clock = RealClock::new((system, alloc));
    match clock.day() {
        Ok(day) => push_number(shown, u64::from(day)),
        Err(_) => push_refusal(alloc, &clock, shown),
    }
}

fn push_refusal(
    alloc: Global,
    clock: &RealClock<(Stopped<'_>, Global)>,
    shown: &mut Bytes,
) -> Result<(), AllocError> {
    match clock.last_error() {
        Some(error) => push_text(shown, b" failed: ", error.text(alloc)?.as_str().as_bytes()),
        None => push_answer(shown, "failed"),
    }
}
