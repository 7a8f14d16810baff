// The edits of subuid and subgid. Removals of IDs from one owner that follow one another take one
// pass over the lines together (usermod(8), `-V` and `-W`; subuid(5), subgid(5)).
ghost use Rattle.std.specs.Prelude.{◌≡◌, ◌<◌, ◌≤◌, ◌++◌, ◌∷◌, [], true, false, length, take, IfOk, IfSome, IsSome, OnOk, Some};
ghost use Rattle.std.specs.List.{AllByRecursion};
ghost use Rattle.acct_text.specs.Bytes.{newline};
ghost use Rattle.acct_text.specs.Lines.{file_bytes, lines_of};
ghost use Rattle.acct_text.specs.Pieces.{Lacks};
ghost use Rattle.account_model.specs.Edits.{edited_by};
ghost use Rattle.account_model.specs.Edits.Edit.{Become};
ghost use Rattle.account_model.specs.RecordEdits.{IsWrittenEdit};
ghost use Rattle.account_model.specs.Records.{greatest_id, last_id, subid_format};
ghost use Rattle.account_model.specs.declared.records.SubidRecord.{SubidRecord};
ghost use Rattle.acct_lines.specs.Shown.{subid_shown};
ghost use Rattle.acct_tables.specs.SeenLines.{seen_line};
ghost use Rattle.carried_tables.specs.RangeRemovals.{HasNone, IsApart, KeepsApart, Removes};
ghost use Rattle.line_edits.specs.SeenEdits.{seen_edit, seen_edits};
ghost use Rattle.line_edits.specs.SubidChanges.{subid_becomes};

use crate::cut_ranges::{canonical_range, push_left_of};
use crate::removed_owner::text_without_owner;
use acct_lines::{SubidLine, SubidRecord};
use acct_tables::{FileLine, Lines, is_owner};
use acct_text::Bytes;
use id_choice::{Run, Runs};
use line_edits::{Edit, RangeCut, SubidChange};
use std::alloc::{AllocError, Global};
use table::edited_text;

/// IDs that go out of the ranges of one owner, by edits that follow one another.
#[derive(Drop)]
pub(crate) struct Removals<'a> {
    /// The name of the owner.
    pub owner: &'a [u8],
    /// The UID of the owner, where it is known.
    pub uid: Option<u32>,
    /// The IDs that go.
    pub ids: Runs,
    /// How many edits these are.
    pub count: usize,
}

/// The bytes of a file of subordinate IDs after the edits, in their order: the lines that they
/// don't touch keep their bytes.
///
/// The first removals in a row of IDs from one owner take one pass over the file in all, in which
/// only a line that loses an ID is edited; so does the removal of all ranges of an owner, where it is
/// the only edit, and reads no line into memory. Each other edit takes a pass.
pub fn edited_ranges(
    alloc: Global,
    text: &[u8],
    edits: &[Edit<SubidRecord, SubidChange>],
) -> Result<Bytes, AllocError>
    requires { AllByRecursion (IsWrittenEdit subid_format) (seen_edits subid_becomes edits.now) }
    ensures { IfOk result (λ bytes. bytes ≡ file_bytes
        (edited_by subid_format (seen_edits subid_becomes edits.now) (lines_of text.now))) }
{
    match edits {
        [Edit::Become(SubidChange::Remove(owner, uid))] => {
            text_without_owner(alloc, text, owner, *uid)
        }
        _ => {
            let first = first_cut(edits);
            if first == 0 {
                return edited_from_cut(alloc, text, edits);
            }
            let before = edited_text(alloc, text, &edits[..first])?;
            edited_from_cut(alloc, before.as_slice(), &edits[first..])
        }
    }
}

// The place of the first removal of IDs, or the number of all edits.
fn first_cut(edits: &[Edit<SubidRecord, SubidChange>]) -> usize
    ensures { result ≤ length edits.now }
{
    for index in 0..edits.len() {
        if cut_of(&edits[index]).is_some() {
            return index;
        }
    }
    edits.len()
}

/// The IDs that the edit removes, if it removes some.
pub(crate) fn cut_of(edit: &Edit<SubidRecord, SubidChange>) -> Option<&RangeCut>
    ensures { IfSome result (λ cut.
        seen_edit subid_becomes edit.now ≡ Become (subid_becomes (SubidChange.Cut cut.now))) }
{
    match edit {
        Edit::Become(SubidChange::Cut(cut)) => Some(cut),
        _ => None,
    }
}

// The IDs that the first edit removes, if there is one that removes some.
fn leading_cut(edits: &[Edit<SubidRecord, SubidChange>]) -> Option<&RangeCut> {
    cut_of(edits.first()?)
}

// The text after the edits, of which the first may remove IDs.
fn edited_from_cut(
    alloc: Global,
    text: &[u8],
    edits: &[Edit<SubidRecord, SubidChange>],
) -> Result<Bytes, AllocError>
    requires { AllByRecursion (IsWrittenEdit subid_format) (seen_edits subid_becomes edits.now) }
    ensures { IfOk result (λ bytes. bytes ≡ file_bytes
        (edited_by subid_format (seen_edits subid_becomes edits.now) (lines_of text.now))) }
{
    match leading_cut(edits) {
        Some(cut) => edited_with_cut(alloc, text, cut, edits),
        None => edited_text(alloc, text, edits),
    }
}

// The text after the edits, of which the first ones remove IDs from the owner of these.
fn edited_with_cut(
    alloc: Global,
    text: &[u8],
    cut: &RangeCut,
    edits: &[Edit<SubidRecord, SubidChange>],
) -> Result<Bytes, AllocError>
    requires { AllByRecursion (IsWrittenEdit subid_format) (seen_edits subid_becomes edits.now) }
    ensures { IfOk result (λ bytes. bytes ≡ file_bytes
        (edited_by subid_format (seen_edits subid_becomes edits.now) (lines_of text.now))) }
{
    let removals = removals_of(alloc, cut, edits)?;
    let left = text_without(alloc, text, &edits[..removals.count], &removals)?;
    edited_text(alloc, left.as_slice(), &edits[removals.count..])
}

// The leading edits that each remove IDs from the owner of these.
fn removals_of<'a>(
    alloc: Global,
    cut: &'a RangeCut,
    edits: &[Edit<SubidRecord, SubidChange>],
) -> Result<Removals<'a>, AllocError>
    ensures inside { IfOk result (λ removals. removals.count ≤ length edits.now) }
    ensures kept { IfOk result (λ removals. AllByRecursion
        (KeepsApart removals.owner.now removals.uid removals.ids)
        (seen_edits subid_becomes (take removals.count edits.now))) }
{
    let owner = cut.owner.as_slice();
    let mut ids = Runs::new(alloc);
    'edits: for index in 0..edits.len() {
        let Some(lost) = ids_of(&edits[index], owner, cut.uid) else {
            return Ok(Removals {
                owner,
                uid: cut.uid,
                ids,
                count: index,
            });
        };
        ids.add(lost.first, lost.last)?;
    }
    Ok(Removals {
        owner,
        uid: cut.uid,
        ids,
        count: edits.len(),
    })
}

// The IDs that the edit removes from this owner, if it removes some.
fn ids_of(edit: &Edit<SubidRecord, SubidChange>, owner: &[u8], uid: Option<u32>) -> Option<Run>
    ensures { IfSome result (λ run.
        Removes owner.now uid run.first run.last (seen_edit subid_becomes edit.now)) }
{
    let cut = cut_of(edit)?;
    if cut.first > cut.last || cut.uid != uid || cut.owner.as_slice() != owner {
        return None;
    }
    Some(Run {
        first: cut.first,
        last: cut.last,
    })
}

// The text after removals of IDs, in one pass.
fn text_without(
    alloc: Global,
    text: &[u8],
    edits: &[Edit<SubidRecord, SubidChange>],
    removals: &Removals<'_>,
) -> Result<Bytes, AllocError>
    requires written { AllByRecursion (IsWrittenEdit subid_format)
        (seen_edits subid_becomes edits.now) }
    requires kept { AllByRecursion
        (KeepsApart removals.now.owner.now removals.now.uid removals.now.ids)
        (seen_edits subid_becomes edits.now) }
    ensures { IfOk result (λ bytes. bytes ≡ file_bytes
        (edited_by subid_format (seen_edits subid_becomes edits.now) (lines_of text.now))) }
{
    let mut made = Bytes::new(alloc);
    let mut left = Lines::of(text);
    'lines: while let Some(line) = left.take() {
        push_left(alloc, &mut made, &line, edits, removals)?;
    }
    Ok(made)
}

// Adds what is left of a line.
fn push_left(
    alloc: Global,
    made: &mut Bytes,
    line: &FileLine<'_>,
    edits: &[Edit<SubidRecord, SubidChange>],
    removals: &Removals<'_>,
) -> Result<(), AllocError>
    requires one_line { Lacks newline line.now.text.now }
    requires written { AllByRecursion (IsWrittenEdit subid_format)
        (seen_edits subid_becomes edits.now) }
    requires kept { AllByRecursion
        (KeepsApart removals.now.owner.now removals.now.uid removals.now.ids)
        (seen_edits subid_becomes edits.now) }
    ensures { OnOk result (made.new ≡ made.old ++ file_bytes
        (edited_by subid_format (seen_edits subid_becomes edits.now) (seen_line line.now ∷ []))) }
{
    if !loses(removals, line.text) {
        return line.push_to(made);
    }
    match canonical_range(alloc, line)? {
        Some(range) => push_left_of(alloc, made, range, edits),
        None => push_edited(alloc, made, line, edits),
    }
}

// Adds what is left of a line that is a range, whose text goes from edit to edit: a line that isn't
// canonical, or lacks its end, stays so for as long as its range is one and whole.
fn push_edited(
    alloc: Global,
    made: &mut Bytes,
    line: &FileLine<'_>,
    edits: &[Edit<SubidRecord, SubidChange>],
) -> Result<(), AllocError>
    requires one_line { Lacks newline line.now.text.now }
    requires range { IsSome (subid_format.read line.now.text.now) }
    requires written { AllByRecursion (IsWrittenEdit subid_format)
        (seen_edits subid_becomes edits.now) }
    ensures { OnOk result (made.new ≡ made.old ++ file_bytes
        (edited_by subid_format (seen_edits subid_becomes edits.now) (seen_line line.now ∷ []))) }
{
    let mut alone = Bytes::new(alloc);
    line.push_to(&mut alone)?;
    let left = edited_text(alloc, alone.as_slice(), edits)?;
    made.push(left.as_slice())
}

// Whether the line is a range of the owner with one of the IDs. It takes no memory.
fn loses(removals: &Removals<'_>, line: &[u8]) -> bool
    requires { Lacks newline line.now }
    ensures stays { result ≡ false → (r : SubidRecord) → subid_format.read line.now ≡ Some r
        → IsApart removals.now.owner.now removals.now.uid removals.now.ids r }
    ensures range { result ≡ true → IsSome (subid_format.read line.now) }
{
    match SubidLine::read(line) {
        Ok(range) => {
            is_owner(range.owner, removals.owner, removals.uid)
                && has_some(&removals.ids, range.first, end_of(&range))
        }
        Err(_) => false,
    }
}

// Whether one of the numbers from the first to the last is there.
fn has_some(ids: &Runs, first: u32, last: u32) -> bool
    ensures { result ≡ false → HasNone ids.now first last }
{
    match ids.first_from(first) {
        Some(run) => run.first <= last,
        None => false,
    }
}

// The last ID of a range.
fn end_of(range: &SubidLine<'_>) -> u32
    requires some { 0 < range.now.count }
    requires last { last_id (subid_shown range.now) ≤ greatest_id }
    ensures { result ≡ last_id (subid_shown range.now) }
{
    range.first + (range.count - 1)
}
