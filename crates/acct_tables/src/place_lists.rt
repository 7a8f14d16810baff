// Lists of places, of which each longer one is a place in front of another (passwd(5), shadow(5),
// group(5), gshadow(5), subuid(5), subgid(5)).
ghost use Rattle.std.specs.Prelude.{◌≡◌, ◌∷◌, ℕ, ◌<◌, ◌≤◌, [], length, IfOk, IfSome, MatchOption, Some, true, false};
ghost use Rattle.acct_tables.specs.KeyPlaces.{list_from, listed_places, with_place};

use std::alloc::{AllocError, Global};
use std::marker::Model;

// The greatest number of lists, which take 24 MB.
const MOST_LISTS: usize = 3_000_000;

/// A place in front of an older list.
#[derive(Clone, Copy, Drop)]
pub(crate) struct Link {
    /// The place.
    pub(crate) place: u32,
    /// The number of the older list.
    pub(crate) older: u32,
}

/// Lists of places, counted from 1; the list of the number 0 is empty. Contracts see the links, the
/// newest first.
#[derive(Drop)]
pub(crate) struct PlaceLists {
    links: Vec<Link>,
}

impl Model for PlaceLists {
    ghost use Rattle.std.specs.Prelude.{◌≤◌, List, length, reverse};
    ghost use Rattle.acct_tables.specs.KeyPlaces.{AreLinked};
    ghost use Rattle.acct_tables.specs.declared.place_lists.Link.{Link};

    ghost Value = { List Link };

    ghost view = { λ lists. reverse lists.links.items };

    ghost invariant = { λ lists.
        AreLinked (reverse lists.links.items) × length lists.links.items ≤ 3000000 };
}

impl PlaceLists {
    /// No lists but the empty one. It allocates nothing.
    pub(crate) fn new(alloc: Global) -> Self
        ensures { result ≡ [] }
    {
        PlaceLists {
            links: Vec::new(alloc),
        }
    }

    /// The number of the list with the place in front of those of an older one. None without memory,
    /// and where there are 3,000,000 lists: then the lists are as before.
    pub(crate) fn longer(&mut self, place: u32, older: u32) -> Option<u32>
        requires { older ≤ length self.old }
        ensures kept { (number : ℕ) → number ≤ length self.old
            → listed_places self.new number ≡ listed_places self.old number }
        ensures grown { length self.old ≤ length self.new }
        ensures few { IfSome result (λ number. number < 4294967295) }
        ensures inside { IfSome result (λ number. number ≤ length self.new) }
        ensures longer { IfSome result (λ number. listed_places self.new number
            ≡ with_place place (listed_places self.old older)) }
    {
        if self.begins_with(place, older) {
            return Some(older);
        }
        if self.links.len() >= MOST_LISTS {
            return None;
        }
        if self.links.push(Link { place, older }).is_err() {
            return None;
        }
        Some(self.links.len() as u32)
    }

    /// The places of the list, each as often as it is there.
    pub(crate) fn places(&self, alloc: Global, number: u32) -> Result<Vec<usize>, AllocError>
        requires { number ≤ length self.now }
        ensures { IfOk result (λ places. places.items ≡ listed_places self.now number) }
    {
        let mut places = Vec::new(alloc);
        let mut listed = self.listed(number);
        'listed: while let Some(place) = listed.take() {
            places.push(place)?;
        }
        Ok(places)
    }

    /// The places of the list, each as often as it is there, without memory.
    pub(crate) fn listed(&self, number: u32) -> ListedPlaces<'_>
        requires { number ≤ length self.now }
        ensures { result ≡ listed_places self.now number }
    {
        ListedPlaces {
            lists: self,
            left: number,
        }
    }

    // Whether the list begins with the place.
    fn begins_with(&self, place: u32, number: u32) -> bool
        requires { number ≤ length self.now }
        ensures there { result ≡ true → with_place place (listed_places self.now number)
            ≡ listed_places self.now number }
        ensures other { result ≡ false → with_place place (listed_places self.now number)
            ≡ place ∷ listed_places self.now number }
    {
        match self.link(number) {
            Some(link) => link.place == place,
            None => false,
        }
    }

    // The link with which the list begins; none where it is empty.
    fn link(&self, number: u32) -> Option<Link>
        requires { number ≤ length self.now }
        ensures list { listed_places self.now number ≡ list_from self.now result }
        ensures older { IfSome result (λ link. link.older < number) }
    {
        if number == 0 {
            return None;
        }
        Some(self.links[number as usize - 1])
    }
}

/// The places of a list that are still to be looked at. Contracts see these.
#[derive(Drop)]
pub struct ListedPlaces<'a> {
    lists: &'a PlaceLists,
    // the number of the list that is left
    left: u32,
}

impl<'a> Model for ListedPlaces<'a> {
    ghost use Rattle.std.specs.Prelude.{ℕ, ◌≤◌, List, length};
    ghost use Rattle.acct_tables.specs.KeyPlaces.{listed_places};

    ghost Value = { List ℕ };

    ghost view = { λ listed. listed_places listed.lists.now listed.left };

    ghost invariant = { λ listed. listed.left ≤ length listed.lists.now };
}

impl<'a> ListedPlaces<'a> {
    /// Takes the next place; none where all are taken.
    pub fn take(&mut self) -> Option<usize>
        ensures taken { MatchOption result (self.old ≡ []) (λ place. self.old ≡ place ∷ self.new) }
        ensures over { self.old ≡ [] → self.new ≡ [] }
    {
        let link = self.lists.link(self.left)?;
        self.left = link.older;
        Some(link.place as usize)
    }
}
