// The places where records may have a key, told without a pass over the lines (passwd(5), shadow(5),
// group(5), gshadow(5), subuid(5), subgid(5)).
ghost use Rattle.std.specs.Prelude.{◌==◌, ◌≡◌, ℕ, ◌%◌, ◌<◌, ◌≤◌, ◌∷◌, [], false, length, option_map, IfOk, IfSome};
ghost use Rattle.acct_tables.specs.KeyPlaces.{ArePlacesOf, IsHeldWith, IsOfNone, IsUntold, NotesOf, listed_places, open_slot, slot_number, told_places};

use crate::place_lists::{ListedPlaces, PlaceLists};
use std::alloc::{AllocError, Global};
use std::marker::Model;

// The least and the greatest number of slots. The least suits a small file that a batch makes large.
const LEAST: usize = 16_384;

const GREATEST: usize = 1_048_576;

// What a slot holds where any place may have a key in it.
const OPEN: u32 = u32::MAX;

/// Where a record stands that has a key.
#[derive(Clone, Copy)]
pub enum Spot {
    /// At this place.
    At(usize),
    /// At any place.
    Anywhere,
}

/// For each key the places where records may have it, each a number by which the caller knows a line.
/// Keys fall into a fixed number of slots, and those of one slot have the same places. Contracts see by
/// `told_places` what is told of each key: the places from the newest note on, or none where any place
/// may have it.
#[derive(Drop)]
pub struct KeyPlaces {
    // for each slot the number of the list of its places, or `OPEN`
    slots: Vec<u32>,
    lists: PlaceLists,
}

impl Model for KeyPlaces {
    ghost use Rattle.std.specs.Prelude.{ℕ, List};
    ghost use Rattle.acct_tables.specs.KeyPlaces.{AreHeld};
    ghost use Rattle.acct_tables.specs.declared.place_lists.Link.{Link};

    ghost Value = { List ℕ × List Link };

    ghost view = { λ index. (index.slots.items, index.lists) };

    ghost invariant = { λ index. AreHeld index.lists index.slots.items };
}

impl KeyPlaces {
    /// The index of no records, with as many slots as suit a file of so many bytes.
    pub fn for_file(alloc: Global, bytes: usize) -> Result<Self, AllocError>
        ensures { IfOk result (λ index. IsOfNone (told_places index)) }
    {
        let count = (bytes / 8).max(LEAST).min(GREATEST);
        Ok(KeyPlaces {
            slots: vec![in alloc; 0; count]?,
            lists: PlaceLists::new(alloc),
        })
    }

    /// The index that tells nothing: any place may have each key, whatever is noted. It takes no memory.
    pub fn untold(alloc: Global) -> Self
        ensures { IsUntold (told_places result) }
    {
        KeyPlaces {
            slots: Vec::new(alloc),
            lists: PlaceLists::new(alloc),
        }
    }

    /// Whether it was made to tell of records.
    pub fn tells(&self) -> bool {
        !self.slots.is_empty()
    }

    /// Notes that a record there has the key. It never fails: without memory, past 3,000,000 notes and
    /// at a place from 4,294,967,295 on, any place may have the key from then on.
    pub fn note(&mut self, key: u64, spot: Spot)
        ensures { NotesOf (key ∷ []) spot (told_places self.old) (told_places self.new) }
    {
        let slot = slot_of(&self.slots, key);
        if let Some(list) = self.list(key) {
            self.slots[slot] = held_with(&mut self.lists, list, spot);
        }
    }

    /// The places where records may have the key, from the first to the last, each once; none where any
    /// place may have it.
    pub fn places(&self, alloc: Global, key: u64) -> Result<Option<Vec<usize>>, AllocError>
        ensures { IfOk result (λ places. IfSome places (λ found.
            ArePlacesOf (told_places self.now) key found.items)) }
    {
        let Some(list) = self.list(key) else {
            return Ok(None);
        };
        let mut places = self.lists.places(alloc, list)?;
        places.sort_unstable();
        places.dedup();
        Ok(Some(places))
    }

    /// The same places in no order, and as often as they were noted; none where any place may have the
    /// key. They take no memory.
    pub fn listed(&self, key: u64) -> Option<ListedPlaces<'_>>
        ensures { result ≡ told_places self.now key }
    {
        let list = self.list(key)?;
        Some(self.lists.listed(list))
    }

    // The list of the key's slot; none where that is open.
    fn list(&self, key: u64) -> Option<u32>
        ensures shut { IfSome result (λ list. (list == open_slot) ≡ false) }
        ensures inside { IfSome result (λ list. list ≤ length self.now.1) }
        ensures told { told_places self.now key ≡ option_map (listed_places self.now.1) result }
    {
        match self.slots.get(slot_of(&self.slots, key)) {
            Some(list) if *list != OPEN => Some(*list),
            _ => None,
        }
    }
}

// The slot of the key, counted from 0; of no slots the first.
fn slot_of(slots: &[u32], key: u64) -> usize
    ensures { result ≡ slot_number slots.now key }
{
    (key % slots.len().max(1) as u64) as usize
}

// What a slot, which holds this, holds for a record there more. Without memory it is open.
fn held_with(lists: &mut PlaceLists, held: u32, spot: Spot) -> u32
    requires shut { (held == open_slot) ≡ false }
    requires inside { held ≤ length lists.old }
    ensures { IsHeldWith spot held lists.old lists.new result }
{
    match spot {
        Spot::At(place) if place < u32::MAX as usize => {
            lists.longer(place as u32, held).unwrap_or(OPEN)
        }
        _ => OPEN,
    }
}
