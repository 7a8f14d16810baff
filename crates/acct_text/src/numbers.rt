// Decimal numbers, as the numeric fields of the six tables hold them (passwd(5), shadow(5)).
ghost use Rattle.std.specs.Prelude.{◌≡◌, ◌++◌, OnOk, OnErr};
ghost use Rattle.std.specs.Fmt.{decimal};
ghost use Rattle.std.specs.Str.Parse.{IsNumeral};
ghost use Rattle.acct_text.specs.Numbers.{number_of, first_other};

use crate::Bytes;
use std::alloc::AllocError;
use thiserror::Error;

/// Why a text is no number within a bound.
#[derive(Clone, Copy, Debug, PartialEq, Eq, Error)]
pub enum NumberFault {
    /// The text is empty.
    #[error("no digit")]
    Empty,
    /// The place of the first byte that is no digit, counted from 0.
    #[error("byte {0} is no digit")]
    NotDigit(usize),
    /// The text is all digits, and their number passes the bound.
    #[error("the number is too large")]
    TooLarge,
}

/// The number, of at most `max`, that the text writes in decimal digits alone.
///
/// Leading zeros are read. `Empty` comes where the text is empty; else `NotDigit` with the place of
/// the first byte that is no digit, counted from 0; else `TooLarge` where the number passes `max`.
pub fn read_decimal(text: &[u8], max: u64) -> Result<u64, NumberFault>
    ensures { result ≡ number_of max text.now }
{
    if text.is_empty() {
        return Err(NumberFault::Empty);
    }
    if let Some(place) = place_of_other(text) {
        return Err(NumberFault::NotDigit(place));
    }
    value_of(text, max)
}

// The place of the first byte that is no digit.
fn place_of_other(text: &[u8]) -> Option<usize>
    ensures { result ≡ first_other text.now }
{
    text.iter().position(|byte| !byte.is_ascii_digit())
}

// The number that digits write.
fn value_of(text: &[u8], max: u64) -> Result<u64, NumberFault>
    requires { IsNumeral 10 text.now }
    ensures { result ≡ number_of max text.now }
{
    let mut value = 0u64;
    for digit in text {
        let next = u128::from(value) * 10 + u128::from(*digit - b'0');
        if next > u128::from(max) {
            return Err(NumberFault::TooLarge);
        }
        value = next as u64;
    }
    Ok(value)
}

/// Adds a number in decimal, without leading zeros. At `AllocError` the bytes are as before.
pub fn push_decimal(out: &mut Bytes, value: u64) -> Result<(), AllocError>
    ensures ok { OnOk result (out.new ≡ out.old ++ decimal value) }
    ensures err { OnErr result (out.new ≡ out.old) }
{
    let text = value.to_string(out.allocator())?;
    out.push(text.as_bytes())
}
