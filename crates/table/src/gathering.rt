// The index of the keys of a table's lines, gathered in one pass (passwd(5),
// shadow(5), group(5), gshadow(5), subuid(5), subgid(5)).
ghost use Rattle.std.specs.Prelude.{IfOk};
ghost use Rattle.acct_tables.specs.KeyPlaces.{Widens, told_places};
ghost use Rattle.table.specs.TableCells.{HoldsIn, HoldsThere, IsKeyed};

use crate::keys::KeyedRecord;
use acct_tables::{Cell, KeyPlaces, LineFile};
use std::alloc::{AllocError, Global};

/// The index of the records of a file, which has so many bytes.
pub(crate) fn gathered<R: KeyedRecord>(
    alloc: Global,
    file: &LineFile<'_>,
    bytes: usize,
) -> Result<KeyPlaces, AllocError>
    ensures { IfOk result (λ keys.
        HoldsThere R.format (IsKeyed R.keys (told_places keys)) file.now) }
{
    let mut keys = KeyPlaces::for_file(alloc, bytes)?;
    let mut left = file.cells();
    'cells: while let Some(cell) = left.take() {
        note_cell::<R>(cell, &mut keys);
    }
    Ok(keys)
}

// Notes the keys of the records that stand in a place.
fn note_cell<R: KeyedRecord>(cell: Cell<'_>, keys: &mut KeyPlaces)
    ensures widens { Widens (told_places keys.old) (told_places keys.new) }
    ensures told { HoldsIn R.format
        (IsKeyed R.keys (told_places keys.new) cell.entry.place) cell.entry }
{
    let Cell {
        place,
        texts: mut left,
        ended: _,
    } = cell;
    'texts: while let Some(text) = left.take() {
        R::note_line(text, place, keys);
    }
}
