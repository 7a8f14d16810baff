// What `passwd -S` prints of a user (passwd(1), `-S`).
ghost use Rattle.std.specs.Prelude.{◌≡◌, ◌++◌, ◌∷◌, ◌||◌, IfOk, OnOk};
ghost use Rattle.acct_text.specs.Bytes.{blank};
ghost use Rattle.account_model.specs.Useradd.{opens_nothing};
ghost use Rattle.account_model.specs.Passwd.{password_state as state_of, status_days, status_line};

use crate::listing::shown_date;
use account_model::ShadowRecord;
use acct_text::{Bytes, push_decimal};
use std::alloc::{AllocError, Global};

/// The line of the user, with the hash and the aging of this record.
pub(crate) fn status_line(
    alloc: Global,
    user: &[u8],
    aging: &ShadowRecord,
) -> Result<Bytes, AllocError>
    ensures { IfOk result (λ line. line ≡ status_line user.now aging.now.hash aging.now) }
{
    let date = shown_date(alloc, aging.last_change)?;
    let mut line = Bytes::of(alloc, user)?;
    push_word(&mut line, password_state(aging.hash.as_slice()))?;
    push_word(&mut line, date.as_slice())?;
    push_days(&mut line, aging.minimum)?;
    push_days(&mut line, aging.maximum)?;
    push_days(&mut line, aging.warning)?;
    push_days(&mut line, aging.inactive)?;
    line.push(b"\n")?;
    Ok(line)
}

// Adds a blank and a word.
fn push_word(line: &mut Bytes, word: &[u8]) -> Result<(), AllocError>
    ensures { OnOk result (line.new ≡ line.old ++ blank ∷ word.now) }
{
    line.push(b" ")?;
    line.push(word)
}

// Adds a blank and a number of days.
fn push_days(line: &mut Bytes, days: Option<u32>) -> Result<(), AllocError>
    ensures { OnOk result (line.new ≡ line.old ++ blank ∷ status_days days) }
{
    match days {
        Some(days) => {
            line.push(b" ")?;
            push_decimal(line, u64::from(days))
        }
        None => push_word(line, b"-1"),
    }
}

// Whether there is a password, and whether it can be used.
fn password_state(hash: &[u8]) -> &'static [u8]
    ensures { result.now ≡ state_of hash.now }
{
    match hash.first() {
        None => b"NP",
        Some(first) if *first == b'!' || *first == b'*' => b"L",
        Some(_) => b"P",
    }
}
