// The IDs of the records of a table, kept beside it through its edits (passwd(5), group(5)).
ghost use Rattle.std.specs.Prelude.{◌≡◌, [], ◌∷◌, true, IfOk, OnOk};
ghost use Rattle.carried_tables.specs.KeptIds.{AreIdsOf, FollowSwap, counts_of, new_ids};

use id_choice::UsedIds;
use std::alloc::{AllocError, Global};

/// The IDs that records have, and among them those that several records may have.
#[derive(Drop)]
pub(crate) struct KeptIds {
    /// The IDs that are used.
    pub(crate) used: UsedIds,
    /// Each ID that two records or more have; it may hold others too.
    pub(crate) shared: UsedIds,
}

impl KeptIds {
    /// The IDs of a list, in any order. They are sorted first, as IDs in their order cost little more
    /// than a push each.
    pub(crate) fn of(alloc: Global, ids: Vec<u32>) -> Result<Self, AllocError>
        ensures { IfOk result (λ kept. AreIdsOf kept (counts_of ids.items)) }
    {
        let mut sorted = ids;
        sorted.sort_unstable();
        let mut kept = KeptIds {
            used: UsedIds::new(alloc),
            shared: UsedIds::new(alloc),
        };
        'ids: for id in &sorted {
            kept.add(*id)?;
        }
        Ok(kept)
    }

    /// One more record has the ID.
    pub(crate) fn add(&mut self, id: u32) -> Result<(), AllocError>
        ensures { OnOk result (FollowSwap self.old self.new [] (id ∷ [])) }
    {
        if self.used.holds(id) {
            return self.shared.add(id);
        }
        self.used.add(id)
    }

    /// One record less has the ID, where it is known to be the only one; tells whether it is.
    pub(crate) fn lose(&mut self, id: u32) -> Result<bool, AllocError>
        ensures { IfOk result (λ is_known. is_known ≡ true
            → FollowSwap self.old self.new (id ∷ []) []) }
    {
        if self.shared.holds(id) {
            return Ok(false);
        }
        self.used.remove(id)?;
        Ok(true)
    }

    /// A record loses an ID and gets another, or goes, where it is known to be the only one with the
    /// ID; tells whether it is. The gained one comes first, so that it is told as shared where they
    /// are the same.
    pub(crate) fn swap(&mut self, lost: u32, gained: Option<u32>) -> Result<bool, AllocError>
        ensures { IfOk result (λ is_known. is_known ≡ true
            → FollowSwap self.old self.new (lost ∷ []) (new_ids gained)) }
    {
        self.gain(gained)?;
        self.lose(lost)
    }

    // One more record has the ID, where there is one.
    fn gain(&mut self, gained: Option<u32>) -> Result<(), AllocError>
        ensures { OnOk result (FollowSwap self.old self.new [] (new_ids gained)) }
    {
        match gained {
            Some(id) => self.add(id),
            None => Ok(()),
        }
    }
}

/// The IDs that users or groups have, for one question.
#[derive(Drop)]
pub enum IdsInUse<'a> {
    /// They are gathered for it.
    Gathered(UsedIds),
    /// They are kept beside the table.
    Kept(&'a UsedIds),
}

impl<'a> IdsInUse<'a> {
    ghost use Rattle.carried_tables.specs.KeptIds.{ids_in};

    /// The IDs.
    pub fn ids(&self) -> &UsedIds
        ensures { result.now ≡ ids_in self.now }
    {
        match self {
            IdsInUse::Gathered(ids) => ids,
            IdsInUse::Kept(ids) => ids,
        }
    }
}
