// The keys of records, and what changes do to them. Each record has the key of its own name; a user has
// the primary group for a key too (passwd(5), shadow(5), subuid(5), subgid(5)).
ghost use Rattle.std.specs.Prelude.{◌≡◌, ℕ, List, IfSome};
ghost use Rattle.acct_tables.specs.KeyPlaces.{NotesOf, told_places};
ghost use Rattle.table.specs.Keys.{BringsOnly, HaveOwnKeys, Needs, keys_in, user_given};
ghost use Rattle.acct_tables.specs.declared.key_places.Spot.TheVariants.{At};

use crate::key_names::{note_first, note_given, note_own, own_key};
use acct_lines::{PasswdLine, PasswdRecord, ShadowRecord, SubidRecord};
use acct_tables::{KeyPlaces, Spot};
use line_edits::{EditedRecord, PasswdAct, PasswdChange, ShadowAct, ShadowChange, SubidChange};

/// A record with keys, of which an index tells where they are.
pub trait KeyedRecord: EditedRecord {
    // its keys
    ghost keys: { Self → List ℕ };

    // the keys that a change may bring to records
    ghost brought: { Self.Change → List ℕ };

    /// Notes the keys of the record that the line at a place is; other text has none. It may note more.
    fn note_line(line: &[u8], place: usize, index: &mut KeyPlaces)
        ensures { NotesOf (keys_in keys (Self.format.read line.now)) (At place)
            (told_places index.old) (told_places index.new) };

    /// Notes its keys there.
    fn note(&self, spot: Spot, index: &mut KeyPlaces)
        ensures { NotesOf (keys self.now) spot (told_places index.old) (told_places index.new) };

    /// A key without which a record is surely left by the change; none where no such key is known.
    fn needed(change: &Self::Change) -> Option<u64>
        ensures { IfSome result (Needs keys (Self.becomes change.now)) };

    /// Notes the keys there that the change may bring to a record. The records that it makes of one have
    /// only these keys, and keys of that one.
    fn bring(change: &Self::Change, spot: Spot, index: &mut KeyPlaces)
        ensures notes { NotesOf (brought change.now) spot
            (told_places index.old) (told_places index.new) }
        ensures brings { BringsOnly keys (Self.becomes change.now) (brought change.now) };

    // each record has the key of its own name
    ghost own: { HaveOwnKeys Self.format keys };
}

impl KeyedRecord for PasswdRecord {
    ghost use Rattle.std.specs.Prelude.{[], ◌∷◌};
    ghost use Rattle.table.specs.Keys.{first-has, own_key, user_brought, user_keys};

    ghost keys = { user_keys };

    ghost brought = { user_brought };

    fn note_line(line: &[u8], place: usize, index: &mut KeyPlaces) {
        if let Ok(user) = PasswdLine::read(line) {
            note_own(user.name, Spot::At(place), index);
            index.note(u64::from(user.gid), Spot::At(place));
        }
    }

    fn note(&self, spot: Spot, index: &mut KeyPlaces) {
        note_own(self.name.as_slice(), spot, index);
        index.note(u64::from(self.gid), spot);
    }

    fn needed(change: &PasswdChange) -> Option<u64> {
        match change {
            PasswdChange::Named(name, _) | PasswdChange::Remove(name) => {
                Some(own_key(name.as_slice()))
            }
            PasswdChange::OfGroup(group, _) => Some(u64::from(group.gid())),
        }
    }

    fn bring(change: &PasswdChange, spot: Spot, index: &mut KeyPlaces) {
        match change {
            PasswdChange::Named(_, act) | PasswdChange::OfGroup(_, act) => {
                bring_to_user(act, spot, index)
            }
            PasswdChange::Remove(_) => {}
        }
    }

    ghost own = { λ user. first-has (own_key user.name) (user.gid ∷ []) };
}

// Notes the name and the GID there that the act gives.
fn bring_to_user(act: &PasswdAct, spot: Spot, index: &mut KeyPlaces)
    ensures { NotesOf (user_given act.now) spot (told_places index.old) (told_places index.new) }
{
    match act {
        PasswdAct::SetGid(gid) => index.note(u64::from(*gid), spot),
        PasswdAct::SetFields(fields) => {
            note_given(&fields.name, spot, index);
            if let Some(gid) = fields.gid {
                index.note(u64::from(gid), spot);
            }
        }
        PasswdAct::SetPassword(_) | PasswdAct::ChangePassword(_) => {}
    }
}

impl KeyedRecord for ShadowRecord {
    ghost use Rattle.std.specs.Prelude.{[]};
    ghost use Rattle.table.specs.Keys.{first-has, own_key, shadow_brought, shadow_keys};

    ghost keys = { shadow_keys };

    ghost brought = { shadow_brought };

    fn note_line(line: &[u8], place: usize, index: &mut KeyPlaces) {
        note_first(line, Spot::At(place), index);
    }

    fn note(&self, spot: Spot, index: &mut KeyPlaces) {
        note_own(self.name.as_slice(), spot, index);
    }

    fn needed(change: &ShadowChange) -> Option<u64> {
        match change {
            ShadowChange::Named(name, _) | ShadowChange::Remove(name) => {
                Some(own_key(name.as_slice()))
            }
        }
    }

    fn bring(change: &ShadowChange, spot: Spot, index: &mut KeyPlaces) {
        if let ShadowChange::Named(_, ShadowAct::SetFields(fields)) = change {
            note_given(&fields.name, spot, index);
        }
    }

    ghost own = { λ user. first-has (own_key user.name) [] };
}

impl KeyedRecord for SubidRecord {
    ghost use Rattle.std.specs.Prelude.{[]};
    ghost use Rattle.table.specs.Keys.{first-has, own_key, subid_brought, subid_keys};

    ghost keys = { subid_keys };

    ghost brought = { subid_brought };

    fn note_line(line: &[u8], place: usize, index: &mut KeyPlaces) {
        note_first(line, Spot::At(place), index);
    }

    fn note(&self, spot: Spot, index: &mut KeyPlaces) {
        note_own(self.owner.as_slice(), spot, index);
    }

    fn needed(change: &SubidChange) -> Option<u64> {
        match change {
            SubidChange::Rename(old, _) => Some(own_key(old.as_slice())),
            SubidChange::Remove(user, uid) if uid.is_none() => Some(own_key(user.as_slice())),
            SubidChange::Cut(cut) if cut.uid.is_none() => Some(own_key(cut.owner.as_slice())),
            SubidChange::Remove(..) | SubidChange::Cut(_) => None,
        }
    }

    fn bring(change: &SubidChange, spot: Spot, index: &mut KeyPlaces) {
        match change {
            SubidChange::Rename(_, new) => note_own(new.as_slice(), spot, index),
            SubidChange::Remove(..) | SubidChange::Cut(_) => {}
        }
    }

    ghost own = { λ range. first-has (own_key range.owner) [] };
}
