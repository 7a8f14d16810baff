// The IDs that users or groups have, and the choice of one that isn't among them (useradd(8),
// groupadd(8)). Contracts see them as a set: they name members, and no order.
ghost use Rattle.std.specs.Prelude.{◌≡◌, List, ℕ, [], ◌∷◌, IfOk, OnOk, OnErr};
ghost use Rattle.account_model.specs.Ids.{is_used};
ghost use Rattle.id_choice.specs.Runs.{LosesOne};
ghost use Rattle.id_choice.specs.Used.{AreThoseOf, GivesByUsed, id_for};

use crate::Runs;
use crate::choice::chosen_id;
use account_model::Kind;
use std::alloc::{AllocError, Global};
use std::marker::Model;

/// A set of used IDs.
#[derive(Drop)]
pub struct UsedIds {
    ids: Runs,
}

impl Model for UsedIds {
    ghost Value = { List ℕ };

    ghost view = { λ used. used.ids };
}

impl UsedIds {
    /// No ID is used. It allocates nothing before the first `add`.
    pub fn new(alloc: Global) -> UsedIds
        ensures { AreThoseOf result [] }
    {
        UsedIds {
            ids: Runs::new(alloc),
        }
    }

    /// The IDs of a list, which may come in any order, and each any number of times. They are sorted
    /// first, as IDs in their order cost little more than a push each.
    pub fn of(alloc: Global, ids: Vec<u32>) -> Result<UsedIds, AllocError>
        ensures { IfOk result (λ used. AreThoseOf used ids.items) }
    {
        let mut sorted = ids;
        sorted.sort_unstable();
        let mut used = UsedIds::new(alloc);
        'ids: for id in &sorted {
            used.add(*id)?;
        }
        Ok(used)
    }

    /// Adds an ID, which may be used already. At `AllocError` the set is as before.
    pub fn add(&mut self, id: u32) -> Result<(), AllocError>
        ensures added { OnOk result (AreThoseOf self.new (id ∷ self.old)) }
        ensures unchanged { OnErr result (self.new ≡ self.old) }
    {
        self.ids.add(id, id)
    }

    /// Takes the ID out, which may be unused. At `AllocError` the set is as before.
    pub fn remove(&mut self, id: u32) -> Result<(), AllocError>
        ensures removed { OnOk result (LosesOne self.old id self.new) }
        ensures unchanged { OnErr result (self.new ≡ self.old) }
    {
        self.ids.remove(id)
    }

    /// Whether the ID is used.
    pub fn holds(&self, id: u32) -> bool
        ensures { result ≡ is_used self.now id }
    {
        self.ids.holds(id)
    }

    /// The preferred ID where it isn't used, and else the choice from the range of a least and a
    /// greatest ID. From a regular range that is the least ID where none of the range is used, else
    /// the one behind the greatest used one, and where that passes the range the least free one.
    /// From a system range it is the same from the other end.
    ///
    /// It is none where there is no free ID: each of the range is used, or the range is empty.
    pub fn choose(
        &self,
        range: Option<(u32, u32)>,
        kind: Kind,
        preferred: Option<u32>,
    ) -> Option<u32>
        ensures { GivesByUsed self.now (id_for preferred kind range) result }
    {
        match preferred {
            Some(id) if !self.holds(id) => preferred,
            _ => chosen_id(&self.ids, range, kind),
        }
    }
}
