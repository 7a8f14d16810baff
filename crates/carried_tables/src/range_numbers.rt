// How the numbers that the ranges of a table take follow an edit of its lines, and how they are gathered
// where they don't (useradd(8), userdel(8), usermod(8), `-l`; subuid(5), subgid(5)).
ghost use Rattle.std.specs.Prelude.{◌≡◌, ◌∷◌, [], None, true, is_some, IfOk, IfSome};
ghost use Rattle.account_model.specs.Edits.Edit.{Become};
ghost use Rattle.account_model.specs.RecordEdits.{IsWrittenEdit};
ghost use Rattle.account_model.specs.Records.{subid_format};
ghost use Rattle.account_model.specs.Tables.{table_after};
ghost use Rattle.account_model.specs.Written.{IsWritten};
ghost use Rattle.line_edits.specs.SeenEdits.{seen_edit};
ghost use Rattle.line_edits.specs.SubidChanges.{subid_becomes};
ghost use Rattle.carried_tables.specs.RangeNumbers.{AreNumbersIn, FollowsGain};

use acct_lines::SubidRecord;
use line_edits::{Edit, SubidChange};
use std::alloc::{AllocError, Global};
use subid_ranges::RangeNumbers;
use table::Table;

/// The numbers after the edit, where those before tell them, or a range is added: then they are gathered
/// where they aren't known.
pub(crate) fn numbers_after(
    alloc: Global,
    known: Option<RangeNumbers>,
    table: &Table<SubidRecord>,
    edit: &Edit<SubidRecord, SubidChange>,
) -> Result<Option<RangeNumbers>, AllocError>
    requires there { is_some table.now ≡ true }
    requires written { IsWrittenEdit subid_format (seen_edit subid_becomes edit.now) }
    requires known { IfSome known (AreNumbersIn table.now) }
    ensures { IfOk result (λ after. IfSome after (AreNumbersIn
        (table_after subid_format (seen_edit subid_becomes edit.now ∷ []) table.now))) }
{
    match edit {
        Edit::Add(range) => {
            let mut numbers = known_or_gathered(alloc, known, table)?;
            numbers.add(alloc, range)?;
            Ok(Some(numbers))
        }
        Edit::Become(change) => match change {
            SubidChange::Rename(..) => Ok(known),
            _ => Ok(None),
        },
        _ => Ok(None),
    }
}

/// The numbers without those of the ranges of the owner, where those before tell them.
pub(crate) fn numbers_without(
    alloc: Global,
    known: Option<RangeNumbers>,
    table: &Table<SubidRecord>,
    owner: &[u8],
) -> Result<Option<RangeNumbers>, AllocError>
    requires { IfSome known (AreNumbersIn table.now) }
    ensures { IfOk result (λ after. IfSome after (AreNumbersIn (table_after subid_format
        (Become (subid_becomes (SubidChange.Remove owner.now None)) ∷ []) table.now))) }
{
    let Some(mut numbers) = known else {
        return Ok(None);
    };
    let ranges = table.all_named(alloc, owner)?;
    if !numbers.remove_each(&ranges)? {
        return Ok(None);
    }
    Ok(Some(numbers))
}

/// The numbers with those of one more range, if they are known.
pub(crate) fn numbers_and(
    alloc: Global,
    known: Option<RangeNumbers>,
    range: &SubidRecord,
) -> Result<Option<RangeNumbers>, AllocError>
    requires { IsWritten subid_format range.now }
    ensures { IfOk result (FollowsGain range.now known) }
{
    let Some(mut numbers) = known else {
        return Ok(None);
    };
    numbers.add(alloc, range)?;
    Ok(Some(numbers))
}

// The numbers of the ranges, in a pass over the lines where they aren't known.
fn known_or_gathered(
    alloc: Global,
    known: Option<RangeNumbers>,
    table: &Table<SubidRecord>,
) -> Result<RangeNumbers, AllocError>
    requires { IfSome known (AreNumbersIn table.now) }
    ensures { IfOk result (AreNumbersIn table.now) }
{
    match known {
        Some(numbers) => Ok(numbers),
        None => RangeNumbers::of(alloc, table.seen()?.as_slice()),
    }
}
