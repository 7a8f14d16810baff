// getsubids NAME (getsubids(1)): lists the subordinate ranges of a user.
ghost use Rattle.std.specs.Prelude.{◌≡◌, ◌++◌, filter, map, IfOk, OnOk};
ghost use Rattle.account_model.specs.Getsubids.{getsubids, range_line, range_lines_from};
ghost use Rattle.account_model.specs.Records.{subid_format};
ghost use Rattle.account_model.specs.SubidOwner.{is_owned};
ghost use Rattle.account_model.specs.Tables.{table_records};
ghost use Rattle.account_model.specs.Users.{uid_of};
ghost use Rattle.subid_ranges.specs.Owned.{first_and_count};
ghost use Rattle.check_reports.specs.Decided.{DecidesBy};
ghost use Rattle.check_reports.specs.Listed.{listed_file, range_for};

use crate::decision::told;
use account_model::{PasswdRecord, Refusal};
use acct_tables::{find_record, text_of};
use acct_text::Piece::{Number, Text};
use acct_text::{Bytes, Files};
use command_values::Asked;
use std::alloc::{AllocError, Global};
use subid_ranges::OwnedRanges;
use tool_answers::{Decision, refuse};

/// Lists the ranges of the user in subuid(5), or with `-g` in subgid(5). `NoRanges` refuses a user
/// who has none there.
pub fn getsubids(alloc: Global, asked: &Asked, files: &Files) -> Result<Decision, AllocError>
    ensures { IfOk result (DecidesBy asked.now.tool (getsubids asked.now files.now) files.now) }
{
    let user = asked.operand();
    let uid = uid_of(alloc, files, user)?;
    let ranges = ranges_of(alloc, listed_file(asked, files), user, uid)?;
    if ranges.is_empty() {
        return refuse(
            alloc,
            asked.tool(),
            Refusal::NoRanges(Bytes::of(alloc, user)?),
        );
    }
    let lines = range_lines(alloc, user, ranges.as_slice())?;
    Ok(told(alloc, 0, lines))
}

// The file that is listed.
fn listed_file<'a>(asked: &Asked, files: &'a Files) -> &'a Option<Bytes>
    ensures { result.now ≡ listed_file asked.now files.now }
{
    if asked.has(b'g') {
        &files.subgid
    } else {
        &files.subuid
    }
}

// The UID of the user, where passwd has one.
fn uid_of(alloc: Global, files: &Files, name: &[u8]) -> Result<Option<u32>, AllocError>
    ensures { IfOk result (λ uid. uid ≡ uid_of name.now files.now) }
{
    let user: Option<PasswdRecord> = find_record(alloc, text_of(&files.passwd), name)?;
    Ok(user.map(|user| user.uid))
}

// The ranges of the file that are the user's, by the name or the UID: the first ID and the count of
// each.
fn ranges_of(
    alloc: Global,
    file: &Option<Bytes>,
    user: &[u8],
    uid: Option<u32>,
) -> Result<Vec<(u32, u32)>, AllocError>
    ensures { IfOk result (λ ranges. ranges.items ≡ map first_and_count
        (filter (is_owned user.now uid) (table_records subid_format file.now))) }
{
    OwnedRanges::new(text_of(file), user, uid).collect(alloc)
}

// A line for each range, numbered from 0.
fn range_lines(alloc: Global, user: &[u8], ranges: &[(u32, u32)]) -> Result<Bytes, AllocError>
    ensures { IfOk result (λ lines. lines
        ≡ range_lines_from 0 user.now (map (range_for user.now) ranges.now)) }
{
    let mut lines = Bytes::new(alloc);
    for (number, range) in ranges.iter().enumerate() {
        push_range(&mut lines, number, user, *range)?;
    }
    Ok(lines)
}

// Adds the line of a range.
fn push_range(
    lines: &mut Bytes,
    number: usize,
    user: &[u8],
    range: (u32, u32),
) -> Result<(), AllocError>
    ensures { OnOk result (lines.new
        ≡ lines.old ++ range_line number user.now (range_for user.now range)) }
{
    let (first, count) = range;
    lines.push_pieces(&[
        Number(number as u64),
        Text(b": "),
        Text(user),
        Text(b" "),
        Number(u64::from(first)),
        Text(b" "),
        Number(u64::from(count)),
        Text(b"\n"),
    ])
}
