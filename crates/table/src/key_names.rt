// Names as keys: those of the records themselves, and the members and administrators of groups, by the
// hashes of the names (passwd(5), shadow(5), group(5), gshadow(5), subuid(5), subgid(5)).
ghost use Rattle.std.specs.Prelude.{◌≡◌, ◌∷◌, []};
ghost use Rattle.account_model.specs.Naming.{first_field as first_of};
ghost use Rattle.account_model.specs.Records.{read_names};
ghost use Rattle.account_model.specs.Text.{nonempty};
ghost use Rattle.acct_tables.specs.KeyPlaces.{NotesOf, told_places};
ghost use Rattle.table.specs.Keys.{name_keys, own_given, own_key};

use acct_lines::first_field;
use acct_tables::{KeyPlaces, Spot, name_hash};
use acct_text::{Bytes, Names, cut_once};

/// Notes that a record there has these names.
pub(crate) fn note_names(names: &Names, spot: Spot, index: &mut KeyPlaces)
    ensures { NotesOf (name_keys names.now) spot
        (told_places index.old) (told_places index.new) }
{
    'names: for name in names.as_slice() {
        note_name(name.as_slice(), spot, index);
    }
}

/// Notes that a record there has the names between the commas of the text.
pub(crate) fn note_listed(text: &[u8], spot: Spot, index: &mut KeyPlaces)
    ensures { NotesOf (name_keys (read_names text.now)) spot
        (told_places index.old) (told_places index.new) }
{
    let mut rest = text;
    'names: while let Some(cut) = cut_once(b',', rest) {
        note_piece(cut.before, spot, index);
        rest = cut.behind;
    }
    note_piece(rest, spot, index);
}

// Notes that a record there has the piece of a list, where that is a name.
fn note_piece(piece: &[u8], spot: Spot, index: &mut KeyPlaces)
    ensures { NotesOf (name_keys (nonempty (piece.now ∷ []))) spot
        (told_places index.old) (told_places index.new) }
{
    if piece.is_empty() {
        return;
    }
    note_name(piece, spot, index);
}

/// Notes that a record there has the name.
pub(crate) fn note_name(name: &[u8], spot: Spot, index: &mut KeyPlaces)
    ensures { NotesOf (name_keys (name.now ∷ [])) spot
        (told_places index.old) (told_places index.new) }
{
    index.note(name_hash(name), spot);
}

/// The key of each record that has the name for its own. A list with the name has another key of it.
pub fn own_key(name: &[u8]) -> u64
    ensures { result ≡ own_key name.now }
{
    name_hash(name).wrapping_add(1)
}

/// Notes that a record there has the name for its own.
pub(crate) fn note_own(name: &[u8], spot: Spot, index: &mut KeyPlaces)
    ensures { NotesOf (own_key name.now ∷ []) spot (told_places index.old) (told_places index.new) }
{
    index.note(own_key(name), spot);
}

/// Notes the name that records there are given for their own, if one is.
pub(crate) fn note_given(name: &Option<Bytes>, spot: Spot, index: &mut KeyPlaces)
    ensures { NotesOf (own_given name.now) spot (told_places index.old) (told_places index.new) }
{
    if let Some(name) = name {
        note_own(name.as_slice(), spot, index);
    }
}

/// Notes that the record which a line is, if it is one, has its own name, which is the first field.
pub(crate) fn note_first(line: &[u8], spot: Spot, index: &mut KeyPlaces)
    ensures { NotesOf (own_key (first_of line.now) ∷ []) spot
        (told_places index.old) (told_places index.new) }
{
    note_own(first_field(line), spot, index);
}
