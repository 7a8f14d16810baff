// A carried table whose records have IDs, beside which the used IDs are kept (passwd(5), group(5)).
ghost use Rattle.std.specs.Prelude.{◌≡◌, ◌≤◌, List, ◌∷◌, [], false, true, is_some, length, map, IfOk, IfSome, OnOk};
ghost use Rattle.account_model.specs.Edits as model;
ghost use Rattle.account_model.specs.RecordEdits.{IsWrittenEdit};
ghost use Rattle.account_model.specs.Tables.{table_after, table_records};
ghost use Rattle.account_model.specs.Ids.{is_used};
ghost use Rattle.id_choice.specs.Used.{AreThoseOf};
ghost use Rattle.line_edits.specs.SeenEdits.{seen_edit, seen_edits};
ghost use Rattle.carried_tables.specs.KeptIds.{AreIdsOf, FollowEdit, Renumbers, ids_in, table_counts};
ghost use Rattle.table.specs.TableEdits.{AreEditedIn, AreWritten, multiple_by, table_by};

use crate::IdsInUse;
use crate::ids::{IdRecord, OfId, Renumbering};
use crate::kept_ids::KeptIds;
use acct_tables::listed_ids;
use acct_text::Bytes;
use id_choice::UsedIds;
use line_edits::Edit;
use std::alloc::{AllocError, Global};
use std::marker::Model;
use std::mem::replace;
use table::{Checked, Table};

/// A table of the records R, and their IDs where they were gathered. Contracts see it as the bytes of
/// its file, and none where the file is absent.
pub struct IdTable<'a, R: IdRecord> {
    table: Table<'a, R>,
    // none until they are gathered, and where memory was wanting while they changed
    ids: Option<KeptIds>,
}

// One call for what may be there, so that who holds several tables has few ways through them.
impl<'a, R: IdRecord + Drop> Drop for IdTable<'a, R> {
    fn drop(self) {
        let IdTable { table: _, ids: _ } = self;
    }
}

impl<'a, R: IdRecord> Model for IdTable<'a, R> {
    ghost use Rattle.std.specs.Prelude.{ℕ, List, Option, IfSome};
    ghost use Rattle.carried_tables.specs.KeptIds.{AreIdsOf, table_counts};

    ghost Value = { Option (List ℕ) };

    ghost view = { λ t. t.table };

    ghost invariant = { λ t. IfSome t.ids (λ ids.
        AreIdsOf ids (table_counts R.format R.id_of t.table)) };
}

impl<'a, R: IdRecord + Drop> IdTable<'a, R> {
    /// The table of this file, which is kept elsewhere and absent where there is none.
    pub(crate) fn lent(alloc: Global, file: &'a Option<Bytes>) -> Self
        ensures { result ≡ file.now }
    {
        IdTable {
            table: Table::lent(alloc, file),
            ids: None,
        }
    }

    /// Makes the index of the table and gathers the IDs, in a pass each, unless that is done.
    pub(crate) fn index(&mut self, alloc: Global) -> Result<(), AllocError>
        ensures { self.new ≡ self.old }
    {
        self.table.index(alloc)?;
        self.gather(alloc)
    }

    /// Takes the table out, without the IDs.
    pub(crate) fn take(&mut self, alloc: Global) -> Table<'a, R>
        ensures { result ≡ self.old }
    {
        self.ids = None;
        replace(&mut self.table, Table::owning(alloc, None))
    }

    /// The table, for what doesn't ask for IDs.
    pub fn table(&self) -> &Table<'a, R>
        ensures { result.now ≡ self.now }
    {
        &self.table
    }

    /// The IDs of all records, which are gathered for this call where they aren't known.
    pub fn used(&self, alloc: Global) -> Result<IdsInUse<'_>, AllocError>
        ensures { IfOk result (λ used.
            AreThoseOf (ids_in used) (map R.id_of (table_records R.format self.now))) }
    {
        match &self.ids {
            Some(ids) => Ok(IdsInUse::Kept(&ids.used)),
            None => Ok(IdsInUse::Gathered(UsedIds::of(alloc, self.listed(alloc)?)?)),
        }
    }

    // The IDs of all records, in the order of lines.
    fn listed(&self, alloc: Global) -> Result<Vec<u32>, AllocError>
        ensures { IfOk result (λ ids.
            ids.items ≡ map R.id_of (table_records R.format self.now)) }
    {
        listed_ids::<R>(alloc, self.table.seen()?.as_slice())
    }

    /// Whether a record has the ID. Where the IDs aren't known it takes a pass over the lines.
    pub fn has_id(&self, alloc: Global, id: u32) -> Result<bool, AllocError>
        ensures { IfOk result (λ has.
            has ≡ is_used (map R.id_of (table_records R.format self.now)) id) }
    {
        match &self.ids {
            Some(ids) => Ok(ids.used.holds(id)),
            None => Ok(self.table.first_passing(alloc, &OfId { id })?.is_some()),
        }
    }

    /// Whether it is known that no record has the ID.
    pub fn lacks(&self, id: u32) -> bool
        ensures { result ≡ true
            → is_used (map R.id_of (table_records R.format self.now)) id ≡ false }
    {
        match &self.ids {
            Some(ids) => !ids.used.holds(id),
            None => false,
        }
    }

    /// Whether it is known that no two records have the ID.
    pub fn is_alone(&self, id: u32) -> bool
        ensures { result ≡ true → table_counts R.format R.id_of self.now id ≤ 1 }
    {
        match &self.ids {
            Some(ids) => !ids.shared.holds(id),
            None => false,
        }
    }

    /// What the edits meet, before they are made.
    pub(crate) fn check(
        &mut self,
        alloc: Global,
        edits: &[Edit<R, R::Change>],
    ) -> Result<Checked, AllocError>
        requires { AreWritten R.format R.becomes edits.now }
        ensures multiple { IfOk result (λ checked. checked.multiple ≡
            multiple_by R.format R.becomes edits.now (table_records R.format self.old)) }
        ensures places { IfOk result (λ checked.
            AreEditedIn R.format (seen_edits R.becomes edits.now) self.old checked.places.items) }
        ensures same { self.new ≡ self.old }
    {
        self.table.check(alloc, edits)
    }

    /// Carries the edits out, in their order, one change in these places alone, where such are told; and
    /// tells whether the table may differ then. Where the IDs are known they follow an added record, and one
    /// whose ID goes or changes where no other has its name or its ID; behind other edits they are gathered
    /// anew. At `AllocError` some of the edits may be made, or the table is gone.
    pub(crate) fn edit(
        &mut self,
        alloc: Global,
        edits: &[Edit<R, R::Change>],
        places: &[usize],
    ) -> Result<bool, AllocError>
        requires written { AreWritten R.format R.becomes edits.now }
        requires places { AreEditedIn R.format (seen_edits R.becomes edits.now) self.old places.now }
        ensures edited { OnOk result (self.new ≡ table_by R.format R.becomes edits.now self.old) }
        ensures left { IfOk result (λ differ. differ ≡ false → self.new ≡ self.old) }
    {
        if self.ids.is_none() || !self.table.is_there() {
            self.ids = None;
            return match places {
                [] => self.table.edit(alloc, edits),
                _ => self.table.edit_at(alloc, edits, places),
            };
        }
        let mut left = edits;
        'edits: while !left.is_empty() {
            let (one, later) = left.split_at(1);
            self.edit_one(alloc, one)?;
            left = later;
        }
        self.gather(alloc)?;
        Ok(!edits.is_empty())
    }

    // Carries out the only edit of a list. Where the IDs don't follow it, they are unknown behind it.
    fn edit_one(&mut self, alloc: Global, one: &[Edit<R, R::Change>]) -> Result<(), AllocError>
        requires there { is_some self.old ≡ true }
        requires written { AreWritten R.format R.becomes one.now }
        requires single { length one.now ≡ 1 }
        ensures { OnOk result (self.new ≡ table_by R.format R.becomes one.now self.old) }
    {
        let known = ids_after(alloc, self.ids.take(), &self.table, &one[0])?;
        self.table.edit(alloc, one)?;
        self.ids = known;
        Ok(())
    }

    // Gathers the IDs where they are unknown.
    fn gather(&mut self, alloc: Global) -> Result<(), AllocError>
        ensures { self.new ≡ self.old }
    {
        if self.ids.is_none() {
            let ids = KeptIds::of(alloc, self.listed(alloc)?)?;
            self.ids = Some(ids);
        }
        Ok(())
    }
}

// The IDs after the edit, where those before tell them; none else.
fn ids_after<R: IdRecord + Drop>(
    alloc: Global,
    before: Option<KeptIds>,
    table: &Table<R>,
    edit: &Edit<R, R::Change>,
) -> Result<Option<KeptIds>, AllocError>
    requires there { is_some table.now ≡ true }
    requires written { IsWrittenEdit R.format (seen_edit R.becomes edit.now) }
    requires before { IfSome before (λ ids.
        AreIdsOf ids (table_counts R.format R.id_of table.now)) }
    ensures { IfOk result (λ after. IfSome after (λ ids. AreIdsOf ids (table_counts R.format
        R.id_of (table_after R.format (seen_edit R.becomes edit.now ∷ []) table.now)))) }
{
    let Some(mut ids) = before else {
        return Ok(None);
    };
    if !follow(alloc, &mut ids, table, edit)? {
        return Ok(None);
    }
    Ok(Some(ids))
}

// Makes of the IDs before the edit those after it, where it tells them; answers whether it does.
fn follow<R: IdRecord + Drop>(
    alloc: Global,
    ids: &mut KeptIds,
    table: &Table<R>,
    edit: &Edit<R, R::Change>,
) -> Result<bool, AllocError>
    ensures { IfOk result (λ is_known. is_known ≡ true → FollowEdit R.format R.id_of ids.old ids.new
        (table_records R.format table.now) (seen_edit R.becomes edit.now)) }
{
    match edit {
        Edit::Add(item) => {
            ids.add(item.id())?;
            Ok(true)
        }
        Edit::Become(change) => follow_change(alloc, ids, table, change),
        Edit::AddMissing(_) | Edit::Put(_) => Ok(false),
    }
}

// The same of a change.
fn follow_change<R: IdRecord + Drop>(
    alloc: Global,
    ids: &mut KeptIds,
    table: &Table<R>,
    change: &R::Change,
) -> Result<bool, AllocError>
    ensures { IfOk result (λ is_known. is_known ≡ true → FollowEdit R.format R.id_of ids.old ids.new
        (table_records R.format table.now) (model.Become (R.becomes change.now))) }
{
    if R::keeps_ids(change) {
        return Ok(true);
    }
    match R::renumbers(change) {
        Some(renumbering) => renumber(alloc, ids, table, renumbering),
        None => Ok(false),
    }
}

// The same of one that changes the IDs of a name alone: a name that has no record changes nothing.
fn renumber<R: IdRecord + Drop>(
    alloc: Global,
    ids: &mut KeptIds,
    table: &Table<R>,
    renumbering: Renumbering<'_>,
) -> Result<bool, AllocError>
    ensures { IfOk result (λ is_known. is_known ≡ true → (f : R → List R)
        → Renumbers R.format R.id_of f renumbering.entry.name.now renumbering.entry.new_id
        → FollowEdit R.format R.id_of ids.old ids.new
        (table_records R.format table.now) (model.Become f)) }
{
    let Some(found) = table.find(alloc, renumbering.name)? else {
        return Ok(true);
    };
    if table.has_several(alloc, renumbering.name)? {
        return Ok(false);
    }
    ids.swap(found.id(), renumbering.new_id)
}
