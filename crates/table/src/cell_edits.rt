// Edits of a table's lines where they stand (passwd(5), shadow(5), group(5), gshadow(5), subuid(5),
// subgid(5)). An edit goes to the places where records may stand that it touches; what it brings there is told before the texts are put.
ghost use Rattle.std.specs.Prelude.{◌≡◌, ◌<◌, ◌∷◌, [], true, false, AllPairs, Some, find, is_some, option_map, IfOk, OnOk};
ghost use Rattle.account_model.specs.Edits.{edited, put_first, with_line};
ghost use Rattle.account_model.specs.Edits as model;
ghost use Rattle.account_model.specs.Format.{has_named, records_of};
ghost use Rattle.account_model.specs.RecordEdits.{IsWrittenEdit};
ghost use Rattle.account_model.specs.Written.{IsWritten};
ghost use Rattle.line_edits.specs.SeenEdits.{seen_edit};
ghost use Rattle.acct_tables.specs.Cells.{cells_from, lines_now};
ghost use Rattle.table.specs.Changed.{changed_there};
ghost use Rattle.table.specs.Met.{AreEditedAt};
ghost use Rattle.table.specs.TableCells.{TouchesAt, cells_there, has_named_in};

use crate::keyed_cells::KeyedCells;
use crate::keys::KeyedRecord;
use crate::new_texts::{are_left, changed_texts, texts_with};
use acct_tables::Spot;
use line_edits::Edit;
use std::alloc::{AllocError, Global};

impl<'a, R: KeyedRecord + Drop> KeyedCells<'a, R> {
    /// Carries the edit out, and tells whether lines may differ then. At `AllocError` it may be made in
    /// part.
    pub(crate) fn edit(
        &mut self,
        alloc: Global,
        edit: &Edit<R, R::Change>,
    ) -> Result<bool, AllocError>
        requires { IsWrittenEdit R.format (seen_edit R.becomes edit.now) }
        ensures edited { OnOk result (lines_now self.new
            ≡ edited R.format (lines_now self.old) (seen_edit R.becomes edit.now)) }
        ensures same { IfOk result (λ differ. differ ≡ false
            → lines_now self.new ≡ lines_now self.old) }
    {
        match edit {
            Edit::Become(change) => return self.change(alloc, change),
            Edit::Add(item) => self.add(alloc, item)?,
            Edit::AddMissing(item) => self.add_missing(alloc, item)?,
            Edit::Put(item) => self.put(alloc, item)?,
        }
        Ok(true)
    }

    // Puts in place of each record what becomes of it, and tells whether one may differ then.
    fn change(&mut self, alloc: Global, change: &R::Change) -> Result<bool, AllocError>
        requires { IsWrittenEdit R.format (model.Become (R.becomes change.now)) }
        ensures edited { OnOk result (lines_now self.new
            ≡ edited R.format (lines_now self.old) (model.Become (R.becomes change.now))) }
        ensures same { IfOk result (λ differ. differ ≡ false
            → lines_now self.new ≡ lines_now self.old) }
    {
        let places = self.touched(alloc, change)?;
        self.change_in(alloc, change, places.as_slice())
    }

    /// The same where these places are told of a file of these lines, if there are such.
    pub(crate) fn change_at_told(
        &mut self,
        alloc: Global,
        change: &R::Change,
        places: &[usize],
    ) -> Result<bool, AllocError>
        requires written { IsWrittenEdit R.format (model.Become (R.becomes change.now)) }
        requires places { AreEditedAt R.format (model.Become (R.becomes change.now) ∷ [])
            (cells_from 0 (lines_now self.old)) places.now }
        ensures edited { OnOk result (lines_now self.new
            ≡ edited R.format (lines_now self.old) (model.Become (R.becomes change.now))) }
        ensures same { IfOk result (λ differ. differ ≡ false
            → lines_now self.new ≡ lines_now self.old) }
    {
        if places.is_empty() {
            return self.change(alloc, change);
        }
        match self.file.kept_text() {
            Some(_) => self.change_in(alloc, change, places),
            None => self.change(alloc, change),
        }
    }

    // The same in these places, where all such records stand.
    fn change_in(
        &mut self,
        alloc: Global,
        change: &R::Change,
        places: &[usize],
    ) -> Result<bool, AllocError>
        requires written { IsWrittenEdit R.format (model.Become (R.becomes change.now)) }
        requires places { TouchesAt R.format (R.becomes change.now) self.old places.now }
        ensures edited { OnOk result (lines_now self.new
            ≡ edited R.format (lines_now self.old) (model.Become (R.becomes change.now))) }
        ensures same { IfOk result (λ differ. differ ≡ false
            → lines_now self.new ≡ lines_now self.old) }
    {
        self.wear(visits::<R>(change, places.len()));
        self.change_each(alloc, change, places)
    }

    // Notes that an edit comes to so many places by a key.
    fn wear(&mut self, count: usize)
        ensures { self.new ≡ self.old }
    {
        self.worn = self.worn.saturating_add(count);
    }

    // Puts in each of the places what becomes of the records there, and tells whether one may differ then.
    fn change_each(
        &mut self,
        alloc: Global,
        change: &R::Change,
        places: &[usize],
    ) -> Result<bool, AllocError>
        requires written { IsWrittenEdit R.format (model.Become (R.becomes change.now)) }
        requires ascending { AllPairs (λ earlier later. earlier < later) places.now }
        ensures changed { OnOk result (self.new
            ≡ changed_there R.format (R.becomes change.now) places.now self.old) }
        ensures same { IfOk result (λ differ. differ ≡ false → self.new ≡ self.old) }
    {
        let mut differ = false;
        'places: for place in places {
            let changes = self.change_at(alloc, change, *place)?;
            differ = differ || changes;
        }
        Ok(differ)
    }

    // Puts in a place what becomes of the records there, and tells whether one may differ then.
    fn change_at(
        &mut self,
        alloc: Global,
        change: &R::Change,
        place: usize,
    ) -> Result<bool, AllocError>
        requires { IsWrittenEdit R.format (model.Become (R.becomes change.now)) }
        ensures changed { OnOk result (self.new
            ≡ changed_there R.format (R.becomes change.now) (place ∷ []) self.old) }
        ensures same { IfOk result (λ differ. differ ≡ false → self.new ≡ self.old) }
    {
        if self.is_left_at(change, place) {
            return Ok(false);
        }
        let Some(cell) = self.file.cell(place) else {
            return Ok(false);
        };
        let texts = changed_texts::<R>(alloc, cell.texts, change)?;
        R::bring(change, Spot::At(place), &mut self.keys);
        self.file.put(place, texts)?;
        Ok(true)
    }

    // Whether the change surely leaves the records in a place.
    fn is_left_at(&self, change: &R::Change, place: usize) -> bool
        ensures { result ≡ true
            → self.now ≡ changed_there R.format (R.becomes change.now) (place ∷ []) self.now }
    {
        match self.file.cell(place) {
            Some(cell) => are_left::<R>(cell.texts, change),
            None => true,
        }
    }

    // Adds the record behind the last line.
    fn add(&mut self, alloc: Global, item: &R) -> Result<(), AllocError>
        requires { IsWritten R.format item.now }
        ensures { OnOk result (lines_now self.new
            ≡ with_line (R.format.print item.now) (lines_now self.old)) }
    {
        let place = self.file.add(item.print(alloc)?)?;
        item.note(Spot::At(place), &mut self.keys);
        Ok(())
    }

    // The same where no record has its name.
    fn add_missing(&mut self, alloc: Global, item: &R) -> Result<(), AllocError>
        requires { IsWritten R.format item.now }
        ensures { OnOk result (lines_now self.new
            ≡ edited R.format (lines_now self.old) (model.AddMissing item.now)) }
    {
        if self.has(item.name()) {
            return Ok(());
        }
        self.add(alloc, item)
    }

    // Puts the record in place of the first of its name, or adds it.
    fn put(&mut self, alloc: Global, item: &R) -> Result<(), AllocError>
        requires { IsWritten R.format item.now }
        ensures { OnOk result (lines_now self.new
            ≡ edited R.format (lines_now self.old) (model.Put item.now)) }
    {
        match self.place_named(alloc, item.name())? {
            Some(place) => self.put_at(alloc, item, place),
            None => self.add(alloc, item),
        }
    }

    // The first place with a record of the name; none where no record has it.
    fn place_named(&self, alloc: Global, name: &[u8]) -> Result<Option<usize>, AllocError>
        ensures first { IfOk result (λ place. place ≡ option_map (λ cell. cell.place)
            (find (has_named_in R.format name.now) self.now)) }
        ensures has { IfOk result (λ place. is_some place
            ≡ has_named R.format name.now (records_of R.format (lines_now self.now))) }
    {
        let places = self.places_of(alloc, name)?;
        Ok(self.first_named_of(name, places.as_slice()))
    }

    // The first of the places with a record of the name.
    fn first_named_of(&self, name: &[u8], places: &[usize]) -> Option<usize>
        ensures { result ≡ option_map (λ cell. cell.place)
            (find (has_named_in R.format name.now) (cells_there self.now places.now)) }
    {
        'places: for place in places {
            if self.has_named_at(name, *place) {
                return Some(*place);
            }
        }
        None
    }

    // Puts the record in place of the first of its name, which stands in this place.
    fn put_at(&mut self, alloc: Global, item: &R, place: usize) -> Result<(), AllocError>
        requires written { IsWritten R.format item.now }
        requires first { option_map (λ cell. cell.place)
            (find (has_named_in R.format (R.format.name item.now)) self.old) ≡ Some place }
        ensures { OnOk result (lines_now self.new
            ≡ put_first R.format item.now (lines_now self.old)) }
    {
        let Some(cell) = self.file.cell(place) else {
            return Ok(());
        };
        let texts = texts_with(alloc, cell.texts, item)?;
        item.note(Spot::At(place), &mut self.keys);
        self.file.put(place, texts)
    }
}

// How many of so many places a change comes to by a key or a name.
fn visits<R: KeyedRecord>(change: &R::Change, places: usize) -> usize {
    if R::needed(change).is_some() || R::touched_names(change).is_some() {
        places
    } else {
        0
    }
}
