// The records of hashes that are made of main ones whose names have none (pwconv(8)).
ghost use Rattle.std.specs.Prelude.{◌≡◌, ◌+◌, ◌^◌, ◌<◌, ◌++◌, ◌∷◌, List, option_to_list, IfOk, OnOk};
ghost use Rattle.std.specs.List.{AllByRecursion, cons_option};
ghost use Rattle.acct_text.specs.Lines.{file_bytes, lines_of};
ghost use Rattle.account_model.specs.Edits.{edited_by, with_line};
ghost use Rattle.account_model.specs.Format.{has_named, records_of};
ghost use Rattle.account_model.specs.RecordEdits.{IsWrittenEdit};
ghost use Rattle.account_model.specs.Tables.{table_records};
ghost use Rattle.acct_tables.specs.SeenLines.{missing_end};
ghost use Rattle.check_reports.specs.Gathered.{Grows, IsGrown, IsMaking, made_edits};
ghost use Rattle.check_reports.specs.Sorted.{IsOrderOf};

use crate::gathering::{FieldTaking, UserTaking};
use crate::printing::{push_days, push_field, push_list, push_three_days};
use crate::secrets::AccountLine;
use crate::sorting::ByPlace;
use account_model::{GroupRecord, GshadowRecord, PasswdRecord, ShadowRecord};
use acct_lines::{GroupLine, PasswdLine, TableRecord};
use acct_tables::{Lines, NameIndex, text_of};
use acct_text::Bytes;
use std::alloc::{AllocError, Global};

/// How a record of hashes is made of a main one.
pub(crate) trait Making<M: TableRecord, H: TableRecord> {
    // the record that is made
    ghost make: { Self → M → H };

    // it has the name of the main one
    ghost is_making: { IsMaking M.format H.format make };
}

/// How the line of one is.
pub(crate) trait MadeLine<'a, M: TableRecord, P: AccountLine<'a, M>, H: TableRecord>: Making<M, H> {
    /// Adds the canonical line of the record that is made, without a newline.
    fn push_made(&self, alloc: Global, text: &mut Bytes, main: &P) -> Result<(), AllocError>
        ensures { OnOk result (text.new ≡ text.old
            ++ H.format.print (Self.make self.now (P.shown main.now))) };
}

impl Making<PasswdRecord, ShadowRecord> for UserTaking {
    ghost use Rattle.std.specs.Prelude.{Some, refl};
    ghost use Rattle.account_model.specs.Records.{hash_alone};

    ghost make = { λ taking user. record (hash_alone user.name user.password) {
      last_change = Some taking.day;
      minimum = taking.minimum;
      maximum = taking.maximum;
      warning = taking.warning;
    } };

    ghost is_making = { record { named = λ taking user. refl; no_blank = refl } };
}

impl<'a> MadeLine<'a, PasswdRecord, PasswdLine<'a>, ShadowRecord> for UserTaking {
    fn push_made(
        &self,
        _alloc: Global,
        text: &mut Bytes,
        user: &PasswdLine<'a>,
    ) -> Result<(), AllocError> {
        text.push(user.name)?;
        push_field(text, user.password)?;
        push_three_days(text, Some(self.day), self.minimum, self.maximum)?;
        push_days(text, self.warning)?;
        text.push(b":::")
    }
}

impl Making<GroupRecord, GshadowRecord> for FieldTaking {
    ghost use Rattle.std.specs.Prelude.{refl};
    ghost use Rattle.account_model.specs.Hashes.{gshadow_of};

    ghost make = { λ _ group. gshadow_of group };

    ghost is_making = { record { named = λ taking group. refl; no_blank = refl } };
}

impl<'a> MadeLine<'a, GroupRecord, GroupLine<'a>, GshadowRecord> for FieldTaking {
    fn push_made(
        &self,
        alloc: Global,
        text: &mut Bytes,
        group: &GroupLine<'a>,
    ) -> Result<(), AllocError> {
        text.push(group.name)?;
        push_field(text, group.password)?;
        text.push(b":")?;
        push_list(alloc, text, group.members)
    }
}

// The bytes of a table with lines that are appended.
#[derive(Drop)]
struct Grown<'a> {
    text: Bytes,
    // the names of the records that stood there
    there: NameIndex<'a>,
    // how many main records were looked at
    place: usize,
}

/// The text with a new record for each main record whose name it lacks, by the order of main records.
pub(crate) fn with_missing<
    'a,
    M: TableRecord,
    P: AccountLine<'a, M>,
    H: TableRecord,
    T: MadeLine<'a, M, P, H>,
>(
    alloc: Global,
    main: &'a Option<Bytes>,
    order: &ByPlace<'_>,
    text: &[u8],
    making: &T,
) -> Result<Bytes, AllocError>
    requires order { IsOrderOf M.format (table_records M.format main.now) order.now }
    requires written { AllByRecursion (IsWrittenEdit H.format)
        (made_edits (T.make making.now) (table_records M.format main.now)) }
    ensures { IfOk result (λ bytes. bytes ≡ file_bytes (edited_by H.format
        (made_edits (T.make making.now) (table_records M.format main.now)) (lines_of text.now))) }
{
    let mut grown = Grown {
        text: Bytes::of(alloc, text)?,
        there: NameIndex::of::<H>(alloc, text)?,
        place: 0,
    };
    let mut left = Lines::of(text_of(main));
    'lines: while let Some(line) = left.take() {
        grow::<M, P, H, T>(alloc, &mut grown, order, line.text, making)?;
    }
    Ok(grown.text)
}

// Adds the record that is made of a line's, where no record has its name.
fn grow<'a, M: TableRecord, P: AccountLine<'a, M>, H: TableRecord, T: MadeLine<'a, M, P, H>>(
    alloc: Global,
    grown: &mut Grown<'_>,
    order: &ByPlace<'_>,
    line: &'a [u8],
    making: &T,
) -> Result<(), AllocError>
    requires room { grown.old.place + 1 < 2 ^ 64 }
    requires written { AllByRecursion (IsWrittenEdit H.format)
        (made_edits (T.make making.now) (option_to_list (M.format.read line.now))) }
    ensures { OnOk result ((before rest : List M)
        → IsOrderOf M.format (before ++ cons_option (M.format.read line.now) rest) order.now
        → IsGrown M.format H.format before grown.old
        → Grows M.format H.format (T.make making.now) before
        (option_to_list (M.format.read line.now)) grown.old grown.new) }
{
    let Some(main) = P::account_in(line) else {
        return Ok(());
    };
    let is_known = is_known::<M, P, H>(grown, order, &main);
    grown.place += 1;
    if is_known {
        return Ok(());
    }
    append_made::<M, P, H, T>(alloc, &mut grown.text, &main, making)
}

// Whether a record has the name of the next main record.
fn is_known<'a, M: TableRecord, P: AccountLine<'a, M>, H: TableRecord>(
    grown: &Grown<'_>,
    order: &ByPlace<'_>,
    main: &P,
) -> bool
    ensures { (before rest : List M)
        → IsOrderOf M.format (before ++ P.shown main.now ∷ rest) order.now
        → IsGrown M.format H.format before grown.now
        → result ≡ has_named H.format (M.format.name (P.shown main.now))
        (records_of H.format (lines_of grown.now.text)) }
{
    let name = main.name();
    if grown.there.has_near(name, grown.place) {
        return true;
    }
    order.has_before(name, grown.place)
}

// Adds the line of the record that is made of a main one, behind the last.
fn append_made<'a, M: TableRecord, P: AccountLine<'a, M>, H: TableRecord, T: MadeLine<'a, M, P, H>>(
    alloc: Global,
    text: &mut Bytes,
    main: &P,
    making: &T,
) -> Result<(), AllocError>
    ensures { OnOk result (text.new ≡ file_bytes (with_line
        (H.format.print (T.make making.now (P.shown main.now))) (lines_of text.old))) }
{
    push_missing_end(text)?;
    making.push_made(alloc, text, main)?;
    text.push(b"\n")
}

// Adds the newline that the last line lacks, if it does.
fn push_missing_end(text: &mut Bytes) -> Result<(), AllocError>
    ensures { OnOk result (text.new ≡ text.old ++ missing_end text.old) }
{
    let Some(last) = text.as_slice().last() else {
        return Ok(());
    };
    if *last == b'\n' {
        return Ok(());
    }
    text.push(b"\n")
}
