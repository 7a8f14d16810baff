// The places in which a look-up or an edit reads the texts (passwd(5), shadow(5), group(5), gshadow(5),
// subuid(5), subgid(5)): those that the index tells of its key or its names, and where it tells nothing
// those of lines with marks, or all.
ghost use Rattle.std.specs.Prelude.{Bool, map, IfOk, IfSome};
ghost use Rattle.std.specs.Vec.{vec_items};
ghost use Rattle.account_model.specs.Format.{is_named};
ghost use Rattle.account_model.specs.Text.{is_listed};
ghost use Rattle.acct_tables.specs.Marks.{marks_in};
ghost use Rattle.acct_tables.specs.Cells.{AreMarked};
ghost use Rattle.acct_tables.specs.KeyPlaces.{has_key};
ghost use Rattle.table.specs.TableCells.{Reaches, TouchesAt};

use crate::key_names::own_key;
use crate::keyed_cells::KeyedCells;
use crate::keys::KeyedRecord;
use acct_tables::Marks;
use line_edits::ChangedNames;
use std::alloc::{AllocError, Global};

impl<'a, R: KeyedRecord + Drop> KeyedCells<'a, R> {
    /// The places where records may have the key, from the first to the last: those that are told of it, and
    /// all where nothing is told.
    pub(crate) fn reached(&self, alloc: Global, key: u64) -> Result<Vec<usize>, AllocError>
        ensures { IfOk result (λ places.
            Reaches R.format (λ r. has_key key (R.keys r)) self.now places.items) }
    {
        match self.keys.places(alloc, key)? {
            Some(places) => Ok(places),
            None => self.all(alloc),
        }
    }

    // All places, from the first to the last.
    fn all(&self, alloc: Global) -> Result<Vec<usize>, AllocError>
        ensures { IfOk result (λ places.
            (test : R → Bool) → Reaches R.format test self.now places.items) }
    {
        self.file.places(alloc)
    }

    // The places of lines with one of the marks, from the first to the last, and all where texts were put.
    fn marked(&self, alloc: Global, marks: Marks<'_>) -> Result<Vec<usize>, AllocError>
        ensures { IfOk result (λ places.
            AreMarked (marks_in marks.entry) self.now places.items) }
    {
        match self.file.marked(alloc, marks)? {
            Some(places) => Ok(places),
            None => self.file.places(alloc),
        }
    }

    /// The places where records of the name may stand, from the first to the last: those that are told of its
    /// own key, and where nothing is told those of lines with the name.
    pub(crate) fn places_of(&self, alloc: Global, name: &[u8]) -> Result<Vec<usize>, AllocError>
        ensures { IfOk result (λ places.
            Reaches R.format (is_named R.format name.now) self.now places.items) }
    {
        match self.keys.places(alloc, own_key(name))? {
            Some(places) => Ok(places),
            None => self.marked(alloc, Marks::one(name)),
        }
    }

    /// The places where records may stand that the change touches, from the first to the last: those that are
    /// told of its key or names, and where nothing is told those of lines with a mark of it.
    pub(crate) fn touched(
        &self,
        alloc: Global,
        change: &R::Change,
    ) -> Result<Vec<usize>, AllocError>
        ensures { IfOk result (λ places.
            TouchesAt R.format (R.becomes change.now) self.now places.items) }
    {
        match self.told_of(alloc, change)? {
            Some(places) => Ok(places),
            None => self.marked_of(alloc, change),
        }
    }

    // Those that are told of a key that the change needs, or of the names that it tells; none where nothing is
    // told.
    fn told_of(&self, alloc: Global, change: &R::Change) -> Result<Option<Vec<usize>>, AllocError>
        ensures { IfOk result (λ places. IfSome places (λ places.
            TouchesAt R.format (R.becomes change.now) self.now places.items)) }
    {
        if let Some(key) = R::needed(change) {
            return self.keys.places(alloc, key);
        }
        match R::touched_names(change) {
            Some(ChangedNames::Each(names)) if self.keys.tells() => {
                Ok(Some(self.places_of_each(alloc, names)?))
            }
            _ => Ok(None),
        }
    }

    // Those of lines with a mark of the change, and all where it has none or texts were put.
    fn marked_of(&self, alloc: Global, change: &R::Change) -> Result<Vec<usize>, AllocError>
        ensures { IfOk result (λ places.
            TouchesAt R.format (R.becomes change.now) self.now places.items) }
    {
        let _ = &self.file;
        match R::marks(change) {
            Some(marks) => self.marked(alloc, marks),
            None => self.all(alloc),
        }
    }

    // The places where records of one of the names may stand, from the first to the last.
    fn places_of_each(&self, alloc: Global, names: &[Vec<u8>]) -> Result<Vec<usize>, AllocError>
        ensures { IfOk result (λ places. Reaches R.format
            (λ r. is_listed (R.format.name r) (map vec_items names.now)) self.now places.items) }
    {
        let _ = &self.file;
        let mut places = Vec::new(alloc);
        'names: for name in names {
            let found = self.places_of(alloc, name.as_slice())?;
            places.extend_from_slice(&found)?;
        }
        places.sort_unstable();
        places.dedup();
        Ok(places)
    }
}
