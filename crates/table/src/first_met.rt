// The first place of a record that edits touch and whose name has several (passwd(5), shadow(5), group(5),
// gshadow(5), subuid(5), subgid(5)). An edit isn't asked about that does the same as one of the last two,
// nor one that needs a key which no record in front of that place has.
ghost use Rattle.std.specs.Prelude.{◌≡◌, ◌∷◌, ◌≤◌, ℕ, List, [], true, None, Some, IfOk, IfSome, MatchOption};
ghost use Rattle.account_model.specs.Format.{is_named};
ghost use Rattle.account_model.specs.RecordEdits.{IsWrittenEdit};
ghost use Rattle.line_edits.specs.SeenEdits.{seen_edit, seen_edits};
ghost use Rattle.table.specs.FirstMet.{AreAsked, IsSettled, NeedsKey, StandsNoEarlier};
ghost use Rattle.table.specs.Met.{AreEditedAt, IsEditedAt, MeetsAt, TouchesNamed, earlier, first_in, has_met};
ghost use Rattle.table.specs.TableCells.{Reaches};
ghost use Rattle.table.specs.TableEdits.{AreWritten};

use crate::keyed_cells::KeyedCells;
use crate::keys::KeyedRecord;
use crate::last_edits::{LastEdits, have_same};
use crate::multiple::touched_name;
use line_edits::Edit;
use std::alloc::{AllocError, Global};

/// What is known of such records by the edits that were asked about.
#[derive(Drop)]
pub(crate) struct FirstMet<'e, E> {
    /// The first place with one.
    pub(crate) place: Option<usize>,
    /// A key that no record in front of that place has.
    pub(crate) key: Option<u64>,
    /// The last edits that were asked about.
    pub(crate) last: LastEdits<'e, E>,
    /// The places where records may stand that the last of these touches.
    pub(crate) places: Vec<usize>,
}

impl<'a, R: KeyedRecord + Drop> KeyedCells<'a, R> {
    /// What is known by all edits.
    pub(crate) fn first_met<'e>(
        &mut self,
        alloc: Global,
        edits: &'e [Edit<R, R::Change>],
    ) -> Result<FirstMet<'e, Edit<R, R::Change>>, AllocError>
        requires { AreWritten R.format R.becomes edits.now }
        ensures place { IfOk result (λ met. met.place
            ≡ first_in (has_met R.format (seen_edits R.becomes edits.now) self.old) self.old) }
        ensures places { IfOk result (λ met. AreEditedAt R.format
            (seen_edits R.becomes edits.now) self.old met.places.items) }
        ensures same { self.new ≡ self.old }
    {
        let _ = &self.file;
        let mut met = FirstMet {
            place: None,
            key: None,
            last: LastEdits::none(),
            places: Vec::new(alloc),
        };
        'edits: for edit in edits {
            if is_settled::<R>(&met, edit) {
                continue;
            }
            met = self.met_after(alloc, met, edit)?;
        }
        Ok(met)
    }

    // What is known with this edit too. Where it may touch many records, the index is made.
    fn met_after<'e>(
        &mut self,
        alloc: Global,
        met: FirstMet<'e, Edit<R, R::Change>>,
        edit: &'e Edit<R, R::Change>,
    ) -> Result<FirstMet<'e, Edit<R, R::Change>>, AllocError>
        requires written { IsWrittenEdit R.format (seen_edit R.becomes edit.now) }
        requires asked { AreAsked R.format R.keys R.becomes self.old met }
        ensures place { IfOk result (λ after. after.place ≡ earlier met.entry.place
            (first_in (has_met R.format (seen_edit R.becomes edit.now ∷ []) self.old) self.old)) }
        ensures asked { IfOk result (AreAsked R.format R.keys R.becomes self.old) }
        ensures places { IfOk result (λ after.
            IsEditedAt R.format (seen_edit R.becomes edit.now) self.old after.places.items) }
        ensures same { self.new ≡ self.old }
    {
        let name = touched_name::<R>(edit);
        let places = self.met_places(alloc, edit, name)?;
        let reached = places.as_slice();
        self.index_for(alloc, edit, name, reached)?;
        let found = self.met_by(alloc, edit, name, reached)?;
        let place = earlier(met.place, found);
        Ok(FirstMet {
            place,
            key: self.key_behind(alloc, edit, place)?,
            last: met.last.with(edit),
            places,
        })
    }

    // The places where records may stand that the edit touches, all of the name where it is one alone, from
    // the first to the last.
    fn met_places(
        &self,
        alloc: Global,
        edit: &Edit<R, R::Change>,
        name: Option<&[u8]>,
    ) -> Result<Vec<usize>, AllocError>
        requires { IfSome name (λ name.
            TouchesNamed R.format (seen_edit R.becomes edit.now) name.now) }
        ensures met { IfOk result (λ places.
            MeetsAt R.format (seen_edit R.becomes edit.now) self.now places.items) }
        ensures named { IfOk result (λ places. IfSome name.entry (λ name.
            Reaches R.format (is_named R.format name.now) self.now places.items)) }
        ensures edited { IfOk result (λ places.
            IsEditedAt R.format (seen_edit R.becomes edit.now) self.now places.items) }
    {
        match name {
            Some(name) => self.places_of(alloc, name),
            None => self.other_places(alloc, edit),
        }
    }

    // The same of an edit that may touch records of several names, or none.
    fn other_places(
        &self,
        alloc: Global,
        edit: &Edit<R, R::Change>,
    ) -> Result<Vec<usize>, AllocError>
        ensures met { IfOk result (λ places.
            MeetsAt R.format (seen_edit R.becomes edit.now) self.now places.items) }
        ensures edited { IfOk result (λ places.
            IsEditedAt R.format (seen_edit R.becomes edit.now) self.now places.items) }
    {
        let _ = &self.file;
        match edit {
            Edit::Become(change) => self.touched(alloc, change),
            Edit::Put(item) => self.places_of(alloc, item.name()),
            Edit::Add(_) => Ok(Vec::new(alloc)),
            Edit::AddMissing(_) => Ok(Vec::new(alloc)),
        }
    }

    // The key that the edit needs, where no record in front of the place has it.
    fn key_behind(
        &self,
        alloc: Global,
        edit: &Edit<R, R::Change>,
        place: Option<usize>,
    ) -> Result<Option<u64>, AllocError>
        ensures { IfOk result (λ key. IfSome key (StandsNoEarlier R.format R.keys self.now place)) }
    {
        let (Edit::Become(change), Some(place)) = (edit, place) else {
            return Ok(None);
        };
        let Some(key) = R::needed(change) else {
            return Ok(None);
        };
        let places = self.reached(alloc, key)?;
        if !begin_from(places.as_slice(), place) {
            return Ok(None);
        }
        Ok(Some(key))
    }
}

// Whether the first of the places isn't in front of this one.
fn begin_from(places: &[usize], place: usize) -> bool
    ensures { result ≡ true
        → (first : ℕ) → (later : List ℕ) → places.now ≡ first ∷ later → place ≤ first }
{
    match places.first() {
        Some(first) => place <= *first,
        None => true,
    }
}

// Whether the edit surely meets no record in front of the first that is met so far.
fn is_settled<R: KeyedRecord>(
    met: &FirstMet<'_, Edit<R, R::Change>>,
    edit: &Edit<R, R::Change>,
) -> bool
    ensures { result ≡ true → IsSettled R.keys R.becomes (seen_edit R.becomes edit.now) met.now }
{
    have_same::<R>(&met.last, edit) || needs_key::<R>(edit, met.key)
}

// Whether there is a key, and the edit needs it.
fn needs_key<R: KeyedRecord>(edit: &Edit<R, R::Change>, key: Option<u64>) -> bool
    ensures { result ≡ true
        → MatchOption key ⊥ (NeedsKey R.keys (seen_edit R.becomes edit.now)) }
{
    match (edit, key) {
        (Edit::Become(change), Some(key)) => R::needed(change) == Some(key),
        _ => false,
    }
}

// The lower one of two places, or the only one.
fn earlier(one: Option<usize>, other: Option<usize>) -> Option<usize>
    ensures { result ≡ earlier one other }
{
    match (one, other) {
        (Some(place), Some(found)) => Some(place.min(found)),
        (Some(place), None) => Some(place),
        (None, found) => found,
    }
}
