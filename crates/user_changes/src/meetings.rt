// The lines that the ranges meet which a user gets (usermod(8), `-v` and `-w`; subuid(5),
// subgid(5)).
ghost use Rattle.std.specs.Prelude.{◌≡◌, ◌+◌, ◌-◌, Some, IfOk, OnOk, option_map};
ghost use Rattle.acct_text.specs.Lines.{lines_of};
ghost use Rattle.acct_text.specs.Files.{table_of};
ghost use Rattle.account_model.specs.declared.refusal.Refusal.TheVariants.{Meets};
ghost use Rattle.account_model.specs.Edits.{edited_by};
ghost use Rattle.account_model.specs.Records.{subid_format};
ghost use Rattle.account_model.specs.Usermod.{new_name, range_owner};
ghost use Rattle.account_model.specs.UsermodRanges.{edits_before_adding, meeting_in};
ghost use Rattle.account_model.specs.Users.{uid_of};
ghost use Rattle.account_model.specs.Request.{operand};
ghost use Rattle.account_model.specs.Written.{IsNameField};
ghost use Rattle.subid_ranges.specs.RangeLines.{meeting_line, with_range};
ghost use Rattle.table_edits.specs.Stopping.{StopsBy};
ghost use Rattle.user_changes.specs.Ranges.{id_change, first_meeting_in, owner_in, range_change, range_table};

use crate::lacked::{lines_before, range_file, range_table, user_ranges};
use crate::ranges::UserRanges;
use account_model::{IdSort, Refusal};
use acct_text::Tab;
use command_values::{Asked, IdRange, ToolFault};
use std::alloc::Global;
use subid_ranges::{RangeFault, Ranges};
use table_edits::Tables;

/// Refuses the first new range of `-v`, or of `-w`, that meets a line of subuid, or of subgid, as it
/// stands then: `Meets`. An absent table is met by none. `old_uid` is the UID so far.
pub(crate) fn check_meetings(
    alloc: Global,
    asked: &Asked,
    tables: &Tables,
    old_uid: u32,
    sort: IdSort,
) -> Result<(), ToolFault>
    requires named { IsNameField (new_name asked.now) }
    requires uid { Some old_uid ≡ uid_of (operand asked.now) tables.now }
    ensures { StopsBy (meeting_in (range_table sort) (range_owner asked.now tables.now)
        (range_change sort asked.now tables.now) (table_of tables.now (range_table sort))) result }
{
    let ranges = user_ranges(alloc, asked, tables, old_uid, sort)?;
    check_added(alloc, &ranges, tables, sort)
}

// Refuses the first new range that meets a line of the table: `Meets`. Its file is copied only where a
// range is new.
fn check_added(
    alloc: Global,
    ranges: &UserRanges,
    tables: &Tables,
    sort: IdSort,
) -> Result<(), ToolFault>
    requires { IsNameField (owner_in ranges.now).new_name }
    ensures { StopsBy (meeting_in (range_table sort) (owner_in ranges.now) (id_change ranges.now)
        (table_of tables.now (range_table sort))) result }
{
    if ranges.added.is_empty() {
        return Ok(());
    }
    match range_file(alloc, tables, sort)? {
        Some(text) => check_lines(alloc, ranges, range_table(sort), text.as_slice()),
        None => Ok(()),
    }
}

// Refuses the first new range that meets a line of the text, as it stands after the renaming, the
// removals and the ranges added before: `Meets`.
fn check_lines(alloc: Global, ranges: &UserRanges, tab: Tab, text: &[u8]) -> Result<(), ToolFault>
    requires { IsNameField (owner_in ranges.now).new_name }
    ensures { StopsBy (first_meeting_in tab (owner_in ranges.now) (id_change ranges.now)
        (lines_of text.now)) result }
{
    let mut lines = lines_before(alloc, ranges, text)?;
    for ids in &ranges.added {
        add_range(alloc, &mut lines, ranges.new_name.as_slice(), tab, ids)?;
    }
    Ok(())
}

// Adds the IDs to the owner's, where no line has one of them; else `Meets` refuses.
fn add_range(
    alloc: Global,
    lines: &mut Ranges,
    owner: &[u8],
    tab: Tab,
    ids: &IdRange,
) -> Result<(), ToolFault>
    requires { IsNameField owner.now }
    ensures refused { StopsBy (option_map (Meets ids.now.first ids.now.last tab)
        (meeting_line ids.now.first ids.now.last lines.old)) result }
    ensures added { OnOk result (lines.new ≡ with_range owner.now ids.now.first
        (ids.now.last + 1 - ids.now.first) lines.old) }
{
    match lines.add(alloc, owner, ids.first, ids.last) {
        Ok(()) => Ok(()),
        Err(RangeFault::Overlap(line)) => Err(ToolFault::Refused(Refusal::Meets(
            ids.first, ids.last, tab, line,
        ))),
        // the IDs are a range, so nothing but memory can be wanting
        Err(_) => Err(ToolFault::Memory),
    }
}
