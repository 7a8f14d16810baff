// The way over the tables that differ, which backups and installations go alike: for each table the
// bytes are staged in pieces, and then moved.
ghost use Rattle.std.specs.Prelude.{◌≡◌, ◌<◌, ◌≤◌, true, length, slice_get, IsSome, Some};
ghost use Rattle.commit_steps.specs.States.{append_on, changed, has_staged, old_files, step_on, steps_left, walk_of};

use crate::prepared::Prepared;
use acct_text::Bytes;
use intent_file::NewTable;
use std::marker::Model;

/// Where a step on the way leads to.
#[derive(Drop)]
pub enum Walked<W, E> {
    /// More is to be staged or moved.
    More(W),
    /// All tables are done, and what comes behind them.
    Done(E),
}

/// A change, and how far its tables are done: those before the place, and so many pieces of the one there.
#[derive(Drop)]
pub(crate) struct Walking {
    prepared: Prepared,
    place: usize,
    staged: usize,
}

impl Model for Walking {
    ghost use Rattle.std.specs.Prelude.{◌≡◌, ◌<◌, ◌≤◌, nat_lt, true, length};
    ghost use Rattle.commit_steps.specs.States.{Walker, changed, has_staged};

    ghost Value = { Walker };

    ghost view = { λ walking. record {
      change = walking.prepared;
      place = walking.place;
      staged = walking.staged;
    } };

    ghost invariant = { λ walking.
        (walking.place ≤ length (changed walking.prepared))
        × (nat_lt 0 walking.staged ≡ true → walking.place < length (changed walking.prepared)) };
}

impl Walking {
    /// The way before the first of the tables.
    pub(crate) fn start(prepared: Prepared) -> Self
        ensures { result ≡ walk_of prepared }
    {
        Walking {
            prepared,
            place: 0,
            staged: 0,
        }
    }

    /// The change whose tables are gone over.
    pub(crate) fn prepared(&self) -> &Prepared
        ensures { result.now ≡ self.now.change }
    {
        &self.prepared
    }

    /// The change again.
    pub(crate) fn into_prepared(self) -> Prepared
        ensures { result ≡ self.change }
    {
        self.prepared
    }

    /// How many first pieces of the next table's bytes are staged.
    pub(crate) fn staged(&self) -> usize
        ensures { result ≡ self.now.staged }
    {
        self.staged
    }

    /// Whether any piece is.
    pub(crate) fn has_staged(&self) -> bool
        ensures { result ≡ has_staged self.now }
    {
        self.staged > 0
    }

    /// How many steps are left: two for each table, one for that of which a piece is staged.
    pub(crate) fn left(&self) -> usize
        ensures { result ≡ steps_left self.now }
    {
        let tables = self.prepared.tables().len() - self.place;
        if self.has_staged() {
            2 * tables - 1
        } else {
            2 * tables
        }
    }

    /// The first of the tables that aren't done. It stood before the change.
    pub(crate) fn next(&self) -> &NewTable
        requires { 0 < steps_left self.now }
        ensures is_next { slice_get (changed self.now.change) self.now.place ≡ Some result.now }
        ensures stands { IsSome (old_files self.now.change result.now.table) }
    {
        &self.prepared.tables()[self.place]
    }

    /// One step further.
    pub(crate) fn step_on(mut self) -> Self
        requires { 0 < steps_left self }
        ensures { result ≡ step_on self }
    {
        if self.staged > 0 {
            self.place += 1;
            self.staged = 0;
        } else {
            self.staged = 1;
        }
        self
    }

    /// One piece more is staged, of so many.
    pub(crate) fn append_on(mut self, count: usize) -> Self
        requires begun { has_staged self ≡ true }
        requires within { self.staged < count }
        ensures { result ≡ append_on self }
    {
        self.staged += 1;
        self
    }
}
