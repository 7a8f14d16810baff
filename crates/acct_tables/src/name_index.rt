// Where the records of each name stand among the lines of a file, found for all names in one pass
// (passwd(5), shadow(5), group(5), gshadow(5)).
ghost use Rattle.std.specs.Prelude.{◌≡◌, ◌+◌, ◌<◌, ◌≤◌, ◌^◌, [], is_some, IfOk, IfSome, OnOk};
ghost use Rattle.acct_text.specs.Lines.{lines_of};
ghost use Rattle.acct_tables.specs.NameIndex.{IsNoted, TellsOf, TellsAtMost, are_several, begins_before, line_names, told, with_last};

use crate::{Lines, name_of};
use acct_lines::TableRecord;
use indexmap::IndexMap;
use std::alloc::{AllocError, Global};

/// From so many look-ups on an index takes less time than a pass over the lines for each.
pub const MANY: usize = 8;

/// The records of one name.
#[derive(Clone, Copy, Drop)]
pub struct NamedLines {
    /// The line of the first, counted from 0 over all lines.
    pub first: usize,
    /// How many they are, at least 1.
    pub count: usize,
}

/// For each name that a record of a file has, the line of the first and how many there are. A look-up
/// takes no pass over the lines and no memory.
pub struct NameIndex<'a> {
    names: IndexMap<&'a [u8], NamedLines>,
}

// One call for a map, so that who holds several indexes has few ways through them.
impl<'a> Drop for NameIndex<'a> {
    fn drop(self) {
        let NameIndex { names: _ } = self;
    }
}

impl<'a> NameIndex<'a> {
    /// The index of no lines. It allocates nothing before the first `add`.
    pub fn new(alloc: Global) -> Self
        ensures { TellsOf [] (told result) }
    {
        NameIndex {
            names: IndexMap::new(alloc),
        }
    }

    /// The index of the lines of a file of such records with these bytes, in one pass.
    pub fn of<R: TableRecord>(alloc: Global, text: &'a [u8]) -> Result<Self, AllocError>
        ensures { IfOk result (λ index.
            TellsOf (line_names R.format (lines_of text.now)) (told index)) }
    {
        let mut index = NameIndex::new(alloc);
        let mut place = 0usize;
        let mut left = Lines::of(text);
        'lines: while let Some(line) = left.take() {
            if let Some(name) = name_of::<R>(line.text) {
                index.add(name, place)?;
            }
            place += 1;
        }
        Ok(index)
    }

    /// Notes one more record of the name, which stands at this place, behind all that are noted.
    pub fn add(&mut self, name: &'a [u8], place: usize) -> Result<(), AllocError>
        requires behind { TellsAtMost place (told self.old) }
        requires room { place + 1 < 2 ^ 64 }
        ensures { OnOk result (IsNoted name.now place (told self.old) (told self.new)) }
    {
        // A name is hashed once where this is its first record, as mostly.
        let Some(found) = self.names.insert(name, with_last(place, None))? else {
            return Ok(());
        };
        self.names.insert(name, with_last(place, Some(found)))?;
        Ok(())
    }

    /// The records of the name; none where no record has it.
    pub fn get(&self, name: &[u8]) -> Option<NamedLines>
        ensures { result ≡ told self.now name.now }
    {
        self.names.get(name).copied()
    }

    /// The records of the name, as `get` tells them. Where it is the name that was noted at this turn,
    /// counted from 0 over the different names, it isn't hashed.
    pub fn get_near(&self, name: &[u8], turn: usize) -> Option<NamedLines>
        ensures { result ≡ told self.now name.now }
    {
        match self.names.get_index(turn) {
            Some((noted, lines)) if *noted == name => Some(*lines),
            _ => self.get(name),
        }
    }

    /// Whether a record has the name.
    pub fn has(&self, name: &[u8]) -> bool
        ensures { result ≡ is_some (told self.now name.now) }
    {
        self.get(name).is_some()
    }

    /// Whether a record has the name. Where it is the name that was noted at this turn, as in
    /// `get_near`, it isn't hashed.
    pub fn has_near(&self, name: &[u8], turn: usize) -> bool
        ensures { result ≡ is_some (told self.now name.now) }
    {
        self.get_near(name, turn).is_some()
    }

    /// Whether a record in front of this place, counted from 0 over all lines, has the name.
    pub fn has_before(&self, name: &[u8], place: usize) -> bool
        ensures { result ≡ begins_before place (told self.now name.now) }
    {
        // In a table of records with different names, each is noted at the turn of its line.
        match self.get_near(name, place) {
            Some(found) => found.first < place,
            None => false,
        }
    }

    /// Whether several records have the name.
    pub fn has_several(&self, name: &[u8]) -> bool
        ensures { result ≡ are_several (told self.now name.now) }
    {
        match self.get(name) {
            Some(found) => found.count >= 2,
            None => false,
        }
    }
}

/// The records of a name with one more at this place, behind the others.
pub(crate) fn with_last(place: usize, found: Option<NamedLines>) -> NamedLines
    requires behind { IfSome found (λ lines. lines.count ≤ place) }
    requires room { place + 1 < 2 ^ 64 }
    ensures { result ≡ with_last place found }
{
    match found {
        Some(lines) => NamedLines {
            first: lines.first,
            count: lines.count + 1,
        },
        None => NamedLines {
            first: place,
            count: 1,
        },
    }
}
