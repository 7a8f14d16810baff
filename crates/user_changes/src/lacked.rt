// The ranges of `-v` and `-w` that a user lacks; the others are no change (usermod(8); subuid(5),
// subgid(5)).
ghost use Rattle.std.specs.Prelude.{◌≡◌, [], map, unwrap_or, Some, IfOk, OnOk};
ghost use Rattle.acct_text.specs.Lines.{lines_of};
ghost use Rattle.acct_text.specs.Files.{table_of};
ghost use Rattle.account_model.specs.Edits.{edited_by};
ghost use Rattle.account_model.specs.Records.{subid_format};
ghost use Rattle.account_model.specs.Request.{operand};
ghost use Rattle.account_model.specs.Usermod.{new_name, range_owner};
ghost use Rattle.account_model.specs.UsermodRanges.{change_in, edits_before_adding, new_ranges};
ghost use Rattle.account_model.specs.Users.{uid_of};
ghost use Rattle.account_model.specs.Written.{IsNameField};
ghost use Rattle.command_values.specs.Ranges.{ids_named};
ghost use Rattle.user_changes.specs.Ranges.{id_change, owner_in, range_change, range_table};

use crate::ranges::{UserRanges, asked_ranges};
use account_model::IdSort;
use acct_text::{Bytes, Tab};
use carried_tables::edited_ranges;
use command_values::{Asked, IdRange};
use std::alloc::{AllocError, Global};
use subid_ranges::Ranges;
use table_edits::Tables;

/// The UIDs of `-V` and `-v`, or the GIDs of `-W` and `-w`, of a user with that UID so far, without
/// the ranges that the user has already.
pub(crate) fn user_ranges(
    alloc: Global,
    asked: &Asked,
    tables: &Tables,
    old_uid: u32,
    sort: IdSort,
) -> Result<UserRanges, AllocError>
    requires named { IsNameField (new_name asked.now) }
    requires uid { Some old_uid ≡ uid_of (operand asked.now) tables.now }
    ensures owner { IfOk result (λ ranges. owner_in ranges ≡ range_owner asked.now tables.now) }
    ensures change { IfOk result (λ ranges.
        id_change ranges ≡ range_change sort asked.now tables.now) }
{
    let mut ranges = asked_ranges(alloc, asked, old_uid, sort)?;
    leave_held(alloc, &mut ranges, tables, sort)?;
    Ok(ranges)
}

/// The table of the ranges of such IDs.
pub(crate) fn range_table(sort: IdSort) -> Tab
    ensures { result ≡ range_table sort }
{
    match sort {
        IdSort::Uid => Tab::Subuid,
        IdSort::Gid => Tab::Subgid,
    }
}

/// A copy of the bytes of that table; none where there is no file.
pub(crate) fn range_file(
    alloc: Global,
    tables: &Tables,
    sort: IdSort,
) -> Result<Option<Bytes>, AllocError>
    ensures { IfOk result (λ file. file ≡ table_of tables.now (range_table sort)) }
{
    match sort {
        IdSort::Uid => tables.subuid_ranges().copy(alloc),
        IdSort::Gid => tables.subgid_ranges().copy(alloc),
    }
}

// Leaves out the new ranges that the user has already. The table's file is copied only where a
// range is to come.
fn leave_held(
    alloc: Global,
    ranges: &mut UserRanges,
    tables: &Tables,
    sort: IdSort,
) -> Result<(), AllocError>
    requires { IsNameField (owner_in ranges.old).new_name }
    ensures owner { OnOk result (owner_in ranges.new ≡ owner_in ranges.old) }
    ensures change { OnOk result (id_change ranges.new
        ≡ change_in (table_of tables.now (range_table sort)) (owner_in ranges.old)
        (id_change ranges.old)) }
{
    if ranges.added.is_empty() {
        return Ok(());
    }
    let file = range_file(alloc, tables, sort)?;
    ranges.added = lacked_ranges(alloc, ranges, text_in(&file))?;
    Ok(())
}

// The bytes of a file; an absent one has none.
fn text_in(file: &Option<Bytes>) -> &[u8]
    ensures { result.now ≡ unwrap_or file.now [] }
{
    match file {
        Some(text) => text.as_slice(),
        None => b"",
    }
}

// The new ranges that the user lacks, as the lines of the text stand when the turn of each comes,
// after the renaming and the removals.
fn lacked_ranges(
    alloc: Global,
    ranges: &UserRanges,
    text: &[u8],
) -> Result<Vec<IdRange>, AllocError>
    requires { IsNameField (owner_in ranges.now).new_name }
    ensures { IfOk result (λ lacked. map ids_named lacked.items
        ≡ new_ranges (owner_in ranges.now) (id_change ranges.now).added (edited_by subid_format
        (edits_before_adding (owner_in ranges.now) (id_change ranges.now)) (lines_of text.now))) }
{
    let owner = ranges.new_name.as_slice();
    let mut lines = lines_before(alloc, ranges, text)?;
    let mut lacked = Vec::new(alloc);
    for ids in &ranges.added {
        if lines.has_range(owner, ranges.uid, ids.first, ids.last) {
            continue;
        }
        lines.append(alloc, owner, ids.first, ids.last - ids.first + 1)?;
        lacked.push(*ids)?;
    }
    Ok(lacked)
}

/// The lines of the text after the renaming and the removals.
pub(crate) fn lines_before(
    alloc: Global,
    ranges: &UserRanges,
    text: &[u8],
) -> Result<Ranges, AllocError>
    requires { IsNameField (owner_in ranges.now).new_name }
    ensures { IfOk result (λ lines. lines ≡ edited_by subid_format
        (edits_before_adding (owner_in ranges.now) (id_change ranges.now)) (lines_of text.now)) }
{
    let mut edits = Vec::new(alloc);
    ranges.push_removals(alloc, &mut edits)?;
    let text = edited_ranges(alloc, text, edits.as_slice())?;
    Ranges::load(alloc, text.as_slice())
}
