// What `chage -l` prints of a user (chage(1), `-l`).
ghost use Rattle.std.specs.Prelude.{◌≡◌, ◌++◌, IfOk, OnOk};
ghost use Rattle.account_model.specs.Chage.{aging_report as report_of, chage, shown_date as text_of_date, shown_days as text_of_days, shown_end as text_of_end, shown_expiry as text_of_expiry, shown_last_change as text_of_last_change, shown_line};
ghost use Rattle.account_model.specs.Users.{aging_of};
ghost use Rattle.table_edits.specs.Acting.{IsOutputOf};

use account_model::ShadowRecord;
use acct_dates::print_day;
use acct_text::{Bytes, push_decimal};
use command_values::Asked;
use std::alloc::{AllocError, Global};
use table_edits::{Tables, hash_alone};
use tool_answers::Output;

// A password of as many days never expires.
const ENDLESS_DAYS: u32 = 10_000;

/// What chage prints: with `-l` the aging of the user, and else nothing.
pub fn chage_output(alloc: Global, asked: &Asked, tables: &Tables) -> Result<Output, AllocError>
    ensures { IfOk result (IsOutputOf asked.now.tool (chage asked.now tables.now)) }
{
    if !asked.has(b'l') {
        return Ok(Output::silent(alloc));
    }
    Ok(Output::shown(alloc, aging_of(alloc, tables, asked.operand())?))
}

// What is printed of the user; one that shadow lacks has no aging.
fn aging_of(alloc: Global, tables: &Tables, user: &[u8]) -> Result<Bytes, AllocError>
    ensures { IfOk result (λ text. text ≡ report_of (aging_of user.now tables.now)) }
{
    match tables.shadow_named(alloc, user)? {
        Some(record) => aging_report(alloc, &record),
        None => {
            let record = hash_alone(alloc, Bytes::of(alloc, user)?, Bytes::new(alloc));
            aging_report(alloc, &record)
        }
    }
}

// The seven lines on the aging of a user with this record of shadow.
fn aging_report(alloc: Global, user: &ShadowRecord) -> Result<Bytes, AllocError>
    ensures { IfOk result (λ lines. lines ≡ report_of user.now) }
{
    let mut lines = Bytes::new(alloc);
    push_last_change(alloc, &mut lines, b"last change", user.last_change)?;
    push_expiry(alloc, &mut lines, b"password expires", user)?;
    push_days(alloc, &mut lines, b"minimum days", user.minimum)?;
    push_days(alloc, &mut lines, b"maximum days", user.maximum)?;
    push_days(alloc, &mut lines, b"warning days", user.warning)?;
    push_days(alloc, &mut lines, b"inactive days", user.inactive)?;
    push_date(alloc, &mut lines, b"account expires", user.expiration)?;
    Ok(lines)
}

// Adds a line with the day of the last change.
fn push_last_change(
    alloc: Global,
    lines: &mut Bytes,
    heading: &[u8],
    day: Option<u32>,
) -> Result<(), AllocError>
    ensures { OnOk result
        (lines.new ≡ lines.old ++ shown_line heading.now (text_of_last_change day)) }
{
    let value = shown_last_change(alloc, day)?;
    push_line(lines, heading, &value)
}

// Adds a line with the day when the password expires.
fn push_expiry(
    alloc: Global,
    lines: &mut Bytes,
    heading: &[u8],
    user: &ShadowRecord,
) -> Result<(), AllocError>
    ensures { OnOk result (lines.new ≡ lines.old
        ++ shown_line heading.now (text_of_expiry user.now.last_change user.now.maximum)) }
{
    let value = shown_expiry(alloc, user.last_change, user.maximum)?;
    push_line(lines, heading, &value)
}

// Adds a line with a number of days.
fn push_days(
    alloc: Global,
    lines: &mut Bytes,
    heading: &[u8],
    days: Option<u32>,
) -> Result<(), AllocError>
    ensures { OnOk result (lines.new ≡ lines.old ++ shown_line heading.now (text_of_days days)) }
{
    let value = shown_days(alloc, days)?;
    push_line(lines, heading, &value)
}

// Adds a line with a date.
fn push_date(
    alloc: Global,
    lines: &mut Bytes,
    heading: &[u8],
    day: Option<u32>,
) -> Result<(), AllocError>
    ensures { OnOk result (lines.new ≡ lines.old ++ shown_line heading.now (text_of_date day)) }
{
    let value = shown_date(alloc, day)?;
    push_line(lines, heading, &value)
}

// Adds a line `HEADING: VALUE`.
fn push_line(lines: &mut Bytes, heading: &[u8], value: &Bytes) -> Result<(), AllocError>
    ensures { OnOk result (lines.new ≡ lines.old ++ shown_line heading.now value.now) }
{
    lines.push(heading)?;
    lines.push(b": ")?;
    lines.push(value.as_slice())?;
    lines.push(b"\n")
}

// A number of days.
fn shown_days(alloc: Global, days: Option<u32>) -> Result<Bytes, AllocError>
    ensures { IfOk result (λ text. text ≡ text_of_days days) }
{
    let mut text = Bytes::new(alloc);
    match days {
        Some(days) => push_decimal(&mut text, u64::from(days))?,
        None => text.push(b"none")?,
    }
    Ok(text)
}

/// A date.
pub(crate) fn shown_date(alloc: Global, day: Option<u32>) -> Result<Bytes, AllocError>
    ensures { IfOk result (λ text. text ≡ text_of_date day) }
{
    match day {
        Some(day) => print_day(alloc, u64::from(day)),
        None => Bytes::of(alloc, b"never"),
    }
}

// The last change: on day 0 the password must be changed.
fn shown_last_change(alloc: Global, day: Option<u32>) -> Result<Bytes, AllocError>
    ensures { IfOk result (λ text. text ≡ text_of_last_change day) }
{
    if day == Some(0) {
        return Bytes::of(alloc, b"must change");
    }
    shown_date(alloc, day)
}

// When the password expires, by the last change and the maximum.
fn shown_expiry(
    alloc: Global,
    last_change: Option<u32>,
    maximum: Option<u32>,
) -> Result<Bytes, AllocError>
    ensures { IfOk result (λ text. text ≡ text_of_expiry last_change maximum) }
{
    match last_change {
        Some(0) => Bytes::of(alloc, b"must change"),
        Some(day) => shown_end(alloc, day, maximum),
        None => Bytes::of(alloc, b"never"),
    }
}

// The day that lies the maximum behind the last change.
fn shown_end(alloc: Global, day: u32, maximum: Option<u32>) -> Result<Bytes, AllocError>
    ensures { IfOk result (λ text. text ≡ text_of_end day maximum) }
{
    match maximum {
        Some(days) if days < ENDLESS_DAYS => print_day(alloc, u64::from(day) + u64::from(days)),
        _ => Bytes::of(alloc, b"never"),
    }
}
