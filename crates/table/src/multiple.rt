// What edits of a table meet: the first record that they touch and whose name has several (passwd(5),
// shadow(5), group(5), gshadow(5), subuid(5), subgid(5)). An edit is asked about in the places that it is
// carried out in, one after another, and none about the places of others.
ghost use Rattle.std.specs.Prelude.{◌≡◌, ◌∷◌, [], true, false, Some, find, nat_le, option_map, IfOk, IfSome};
ghost use Rattle.std.specs.List.{AllByRecursion, cons_option, list_any};
ghost use Rattle.acct_text.specs.Bytes.{newline};
ghost use Rattle.acct_text.specs.Pieces.{Lacks};
ghost use Rattle.account_model.specs.Format.{count_named, is_named, records_of};
ghost use Rattle.account_model.specs.RecordEdits.{IsWrittenEdit};
ghost use Rattle.line_edits.specs.SeenEdits.{seen_edit, seen_edits};
ghost use Rattle.line_edits.specs.Touching.{is_met};
ghost use Rattle.acct_tables.specs.Cells.{cell_at, cells_from, lines_now};
ghost use Rattle.table.specs.Met.{AreEditedAt, MeetsAt, TouchesNamed, first_in, has_met, meets};
ghost use Rattle.table.specs.TableCells.{Reaches, cells_there, records_read};
ghost use Rattle.table.specs.TableEdits.{AreWritten, multiple_by};

use crate::Checked;
use crate::keyed_cells::KeyedCells;
use crate::keys::KeyedRecord;
use crate::named_texts::are_several_named;
use crate::texts_there::TextsThere;
use acct_tables::{MANY, Texts, name_of};
use acct_text::Bytes;
use line_edits::{ChangedNames, Edit, leaves, touches};
use std::alloc::{AllocError, Global};

impl<'a, R: KeyedRecord + Drop> KeyedCells<'a, R> {
    /// What edits meet, before they are made. Where they are many, the index is made.
    pub(crate) fn check(
        &mut self,
        alloc: Global,
        edits: &[Edit<R, R::Change>],
    ) -> Result<Checked, AllocError>
        requires { AreWritten R.format R.becomes edits.now }
        ensures multiple { IfOk result (λ checked. checked.multiple ≡
            multiple_by R.format R.becomes edits.now (records_of R.format (lines_now self.old))) }
        ensures places { IfOk result (λ checked. AreEditedAt R.format
            (seen_edits R.becomes edits.now) (cells_from 0 (lines_now self.old))
            checked.places.items) }
        ensures same { self.new ≡ self.old }
    {
        if edits.len() >= MANY {
            self.index(alloc)?;
        }
        let met = self.first_met(alloc, edits)?;
        Ok(Checked {
            multiple: self.name_met(alloc, edits, met.place)?,
            places: self.kept_places(alloc, edits, met.places),
        })
    }

    // The places, unless texts were put or added, so that lines may have others in the file.
    fn kept_places(
        &self,
        alloc: Global,
        _edits: &[Edit<R, R::Change>],
        places: Vec<usize>,
    ) -> Vec<usize>
        requires { AreEditedAt R.format (seen_edits R.becomes _edits.now) self.now places.items }
        ensures { AreEditedAt R.format (seen_edits R.becomes _edits.now)
            (cells_from 0 (lines_now self.now)) result.items }
    {
        match self.file.kept_text() {
            Some(_) => places,
            None => Vec::new(alloc),
        }
    }

    /// The first place with a record that this edit touches and whose name has several. None is looked for
    /// where the edit touches records of one name alone, which hasn't.
    pub(crate) fn met_by(
        &self,
        alloc: Global,
        edit: &Edit<R, R::Change>,
        name: Option<&[u8]>,
        places: &[usize],
    ) -> Result<Option<usize>, AllocError>
        requires written { IsWrittenEdit R.format (seen_edit R.becomes edit.now) }
        requires only { IfSome name (λ name.
            TouchesNamed R.format (seen_edit R.becomes edit.now) name.now) }
        requires named { IfSome name (λ name.
            Reaches R.format (is_named R.format name.now) self.now places.now) }
        requires met { MeetsAt R.format (seen_edit R.becomes edit.now) self.now places.now }
        ensures { IfOk result (λ place. place ≡
            first_in (has_met R.format (seen_edit R.becomes edit.now ∷ []) self.now) self.now) }
    {
        match name {
            Some(name) if self.is_single(name, places) => Ok(None),
            _ => self.met_of(alloc, edit, places),
        }
    }

    // Whether the name hasn't several records, all of which stand in these places.
    fn is_single(&self, name: &[u8], places: &[usize]) -> bool
        requires { Reaches R.format (is_named R.format name.now) self.now places.now }
        ensures { result ≡ true → nat_le 2
            (count_named R.format name.now (records_of R.format (lines_now self.now))) ≡ false }
    {
        !are_several_named::<R>(TextsThere::of(&self.file, places), name)
    }

    // The first of the places with one that this edit touches.
    fn met_of(
        &self,
        alloc: Global,
        edit: &Edit<R, R::Change>,
        places: &[usize],
    ) -> Result<Option<usize>, AllocError>
        requires { IsWrittenEdit R.format (seen_edit R.becomes edit.now) }
        ensures { IfOk result (λ place. place ≡
            first_in (has_met R.format (seen_edit R.becomes edit.now ∷ []) self.now)
            (cells_there self.now places.now)) }
    {
        'places: for place in places {
            if self.meets_at(alloc, edit, *place)? {
                return Ok(Some(*place));
            }
        }
        Ok(None)
    }

    // Whether one that this edit touches stands in a place.
    fn meets_at(
        &self,
        alloc: Global,
        edit: &Edit<R, R::Change>,
        place: usize,
    ) -> Result<bool, AllocError>
        requires { IsWrittenEdit R.format (seen_edit R.becomes edit.now) }
        ensures { IfOk result (λ found. found ≡
            list_any (has_met R.format (seen_edit R.becomes edit.now ∷ []) self.now)
            (cons_option (cell_at place self.now) [])) }
    {
        match self.file.cell(place) {
            Some(cell) => self.meets_one(alloc, edit, cell.texts),
            None => Ok(false),
        }
    }

    // Whether one of the texts is such a record.
    fn meets_one(
        &self,
        alloc: Global,
        edit: &Edit<R, R::Change>,
        mut left: Texts<'_>,
    ) -> Result<bool, AllocError>
        requires written { IsWrittenEdit R.format (seen_edit R.becomes edit.now) }
        requires one_line { AllByRecursion (Lacks newline) left }
        ensures { IfOk result (λ found. found ≡ list_any
            (meets R.format (seen_edit R.becomes edit.now ∷ []) self.now) left.entry) }
    {
        'texts: while let Some(text) = left.take() {
            if self.meets(alloc, edit, text)? {
                return Ok(true);
            }
        }
        Ok(false)
    }

    // Whether the text is such a record. A name is looked up before its record is read.
    fn meets(
        &self,
        alloc: Global,
        edit: &Edit<R, R::Change>,
        text: &[u8],
    ) -> Result<bool, AllocError>
        requires written { IsWrittenEdit R.format (seen_edit R.becomes edit.now) }
        requires one_line { Lacks newline text.now }
        ensures { IfOk result (λ found. found
            ≡ meets R.format (seen_edit R.becomes edit.now ∷ []) self.now text.now) }
    {
        if leaves(edit, text) {
            return Ok(false);
        }
        let Some(name) = name_of::<R>(text) else {
            return Ok(false);
        };
        if !self.has_several(alloc, name)? {
            return Ok(false);
        }
        touches(alloc, edit, text)
    }

    // The name of the first such record, which stands in this place, if there is one.
    fn name_met(
        &self,
        alloc: Global,
        edits: &[Edit<R, R::Change>],
        place: Option<usize>,
    ) -> Result<Option<Bytes>, AllocError>
        requires written { AreWritten R.format R.becomes edits.now }
        requires first { first_in (has_met R.format (seen_edits R.becomes edits.now) self.now)
            self.now ≡ place }
        ensures { IfOk result (λ name. name ≡ multiple_by R.format R.becomes edits.now
            (records_of R.format (lines_now self.now))) }
    {
        match place {
            Some(place) => self.name_at(alloc, edits, place),
            None => Ok(None),
        }
    }

    // The same where there is one.
    fn name_at(
        &self,
        alloc: Global,
        edits: &[Edit<R, R::Change>],
        place: usize,
    ) -> Result<Option<Bytes>, AllocError>
        requires written { AreWritten R.format R.becomes edits.now }
        requires first { first_in (has_met R.format (seen_edits R.becomes edits.now) self.now)
            self.now ≡ Some place }
        ensures { IfOk result (λ name. name ≡ multiple_by R.format R.becomes edits.now
            (records_of R.format (lines_now self.now))) }
    {
        match self.file.cell(place) {
            Some(cell) => self.name_among(alloc, edits, cell.texts),
            None => Ok(None),
        }
    }

    // The name of the first such record among texts.
    fn name_among(
        &self,
        alloc: Global,
        edits: &[Edit<R, R::Change>],
        mut left: Texts<'_>,
    ) -> Result<Option<Bytes>, AllocError>
        requires written { AreWritten R.format R.becomes edits.now }
        requires one_line { AllByRecursion (Lacks newline) left }
        ensures { IfOk result (λ name. name ≡ option_map R.format.name
            (find (is_met R.format (seen_edits R.becomes edits.now)
            (records_of R.format (lines_now self.now))) (records_read R.format left.entry))) }
    {
        'texts: while let Some(text) = left.take() {
            if self.is_met(alloc, edits, text)? {
                return name_in::<R>(alloc, text);
            }
        }
        Ok(None)
    }

    // Whether the text is such a record.
    fn is_met(
        &self,
        alloc: Global,
        edits: &[Edit<R, R::Change>],
        text: &[u8],
    ) -> Result<bool, AllocError>
        requires written { AreWritten R.format R.becomes edits.now }
        requires one_line { Lacks newline text.now }
        ensures { IfOk result (λ found. found
            ≡ meets R.format (seen_edits R.becomes edits.now) self.now text.now) }
    {
        'edits: for edit in edits {
            if self.meets(alloc, edit, text)? {
                return Ok(true);
            }
        }
        Ok(false)
    }
}

/// The name of all records that the edit may touch; none where it may touch others.
pub(crate) fn touched_name<R: KeyedRecord>(edit: &Edit<R, R::Change>) -> Option<&[u8]>
    ensures { IfSome result (λ name.
        TouchesNamed R.format (seen_edit R.becomes edit.now) name.now) }
{
    let Edit::Become(change) = edit else {
        return None;
    };
    match R::touched_names(change) {
        Some(ChangedNames::One(name)) => Some(name),
        _ => None,
    }
}

// The name of the record that the text is; none of other text.
fn name_in<R: KeyedRecord>(alloc: Global, text: &[u8]) -> Result<Option<Bytes>, AllocError>
    ensures { IfOk result (λ name. name ≡ option_map R.format.name (R.format.read text.now)) }
{
    match name_of::<R>(text) {
        Some(name) => Ok(Some(Bytes::of(alloc, name)?)),
        None => Ok(None),
    }
}
