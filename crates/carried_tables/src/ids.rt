// The IDs that users and groups have by their records (passwd(5), group(5)).
ghost use Rattle.std.specs.Prelude.{◌≡◌, true, IfSome, IsSome};
ghost use Rattle.carried_tables.specs.KeptIds.{AreNumbered, KeepsIds, Renumbers, keeps_gid, keeps_uid};

use acct_lines::{GroupRecord, PasswdRecord};
use acct_tables::NumberedRecord;
use acct_text::Bytes;
use line_edits::{GroupAct, GroupChange, PasswdAct, PasswdChange};
use table::{KeyedRecord, RecordTest};

/// What a change does with the IDs of the records of one name.
#[derive(Clone, Copy)]
pub struct Renumbering<'e> {
    /// The name.
    pub name: &'e [u8],
    /// The ID that each of them gets; none where they go.
    pub new_id: Option<u32>,
}

/// A record with an ID of its own, of which edits are made.
pub trait IdRecord: KeyedRecord + NumberedRecord {
    /// Whether the change surely leaves a record with its ID in the place of each.
    fn keeps_ids(change: &Self::Change) -> bool
        ensures { result ≡ true → KeepsIds Self.id_of (Self.becomes change.now) };

    /// The name of the only records whose IDs the change may change or take out, and what it makes of
    /// these IDs; none where it may change those of records of any name.
    fn renumbers(change: &Self::Change) -> Option<Renumbering<'_>>
        ensures { IfSome result (λ renumbering. Renumbers Self.format Self.id_of
            (Self.becomes change.now) renumbering.name.now renumbering.new_id) };

    // the line of each record has the decimal text of its ID
    ghost numbered: { AreNumbered Self.format Self.id_of };
}

impl IdRecord for PasswdRecord {
    ghost use Rattle.table.proofs.NumberLemmas.{uid-of-user};

    fn keeps_ids(change: &PasswdChange) -> bool {
        match change {
            PasswdChange::Named(_, act) => keeps_uid(act),
            PasswdChange::OfGroup(_, act) => keeps_uid(act),
            PasswdChange::Remove(_) => false,
        }
    }

    fn renumbers(change: &PasswdChange) -> Option<Renumbering<'_>> {
        match change {
            PasswdChange::Named(name, PasswdAct::SetFields(fields)) => renumbered(name, fields.uid),
            PasswdChange::Remove(name) => Some(Renumbering {
                name: name.as_slice(),
                new_id: None,
            }),
            _ => None,
        }
    }

    ghost numbered = { uid-of-user };
}

impl IdRecord for GroupRecord {
    ghost use Rattle.table.proofs.NumberLemmas.{gid-of-group};

    fn keeps_ids(change: &GroupChange) -> bool {
        match change {
            GroupChange::Named(_, act) => keeps_gid(act),
            GroupChange::All(act) => keeps_gid(act),
            GroupChange::Remove(_) => false,
        }
    }

    fn renumbers(change: &GroupChange) -> Option<Renumbering<'_>> {
        match change {
            GroupChange::Named(name, GroupAct::SetGid(gid)) => renumbered(name, Some(*gid)),
            GroupChange::Remove(name) => Some(Renumbering {
                name: name.as_slice(),
                new_id: None,
            }),
            _ => None,
        }
    }

    ghost numbered = { gid-of-group };
}

/// That a record has the ID.
#[derive(Clone, Copy)]
pub(crate) struct OfId {
    pub(crate) id: u32,
}

impl<R: IdRecord> RecordTest<R> for OfId {
    ghost use Rattle.std.specs.Prelude.{◌==◌};

    ghost accepts = { λ test item. R.id_of item == test.id };

    fn number(&self) -> u32 {
        self.id
    }

    fn key(&self) -> Option<u64> {
        None
    }

    fn passes(&self, line: &[u8]) -> bool {
        match R::id_in(line) {
            Some(id) => id == self.id,
            None => false,
        }
    }
}

// That the records of the name get the ID; none where it isn't given.
fn renumbered(name: &Bytes, id: Option<u32>) -> Option<Renumbering<'_>>
    ensures name { IfSome result (λ renumbering. renumbering.name.now ≡ name.now) }
    ensures id { IfSome result (λ renumbering. renumbering.new_id ≡ id) }
    ensures given { IfSome result (λ renumbering. IsSome id) }
{
    Some(Renumbering {
        name: name.as_slice(),
        new_id: Some(id?),
    })
}

// Whether the act leaves the UID of the user.
fn keeps_uid(act: &PasswdAct) -> bool
    ensures { result ≡ keeps_uid act.now }
{
    match act {
        PasswdAct::SetFields(fields) => fields.uid.is_none(),
        _ => true,
    }
}

// Whether the act leaves the GID of the group.
fn keeps_gid(act: &GroupAct) -> bool
    ensures { result ≡ keeps_gid act.now }
{
    match act {
        GroupAct::SetGid(_) => false,
        _ => true,
    }
}
