// The keys of groups, which beside that of their own name are the names in their lists, and what changes
// do to them (group(5), gshadow(5)).
ghost use Rattle.std.specs.Prelude.{◌≡◌, ℕ, List, true, false, IfSome};
ghost use Rattle.line_edits.specs.Memberships.{joins};
ghost use Rattle.acct_tables.specs.KeyPlaces.{NotesOf, told_places};
ghost use Rattle.table.specs.Keys.{IsGroupLeaver, IsGshadowLeaver, IsLeaver, either_name, group_given, gshadow_given, name_keys};

use crate::key_names::{note_listed, note_name, note_names, note_own, own_key};
use crate::keys::KeyedRecord;
use acct_lines::{GroupLine, GroupRecord, GshadowLine, GshadowRecord};
use acct_tables::{KeyPlaces, Spot, name_hash};
use line_edits::{GroupAct, GroupChange, GshadowAct, GshadowChange, Membership, UserGroups};

impl KeyedRecord for GroupRecord {
    ghost use Rattle.table.specs.Keys.{first-has, own_key, group_brought, group_keys};

    ghost keys = { group_keys };

    ghost brought = { group_brought };

    fn note_line(line: &[u8], place: usize, index: &mut KeyPlaces) {
        if let Ok(group) = GroupLine::read(line) {
            note_own(group.name, Spot::At(place), index);
            note_listed(group.members, Spot::At(place), index);
        }
    }

    fn note(&self, spot: Spot, index: &mut KeyPlaces) {
        note_own(self.name.as_slice(), spot, index);
        note_names(&self.members, spot, index);
    }

    fn needed(change: &GroupChange) -> Option<u64> {
        match change {
            GroupChange::All(act) => leaver_of_group(act),
            GroupChange::Named(name, _) | GroupChange::Remove(name) => Some(own_key(
                name.as_slice(),
            )),
        }
    }

    fn bring(change: &GroupChange, spot: Spot, index: &mut KeyPlaces) {
        match change {
            GroupChange::Named(_, act) | GroupChange::All(act) => {
                bring_to_group(act, spot, index)
            }
            GroupChange::Remove(_) => {}
        }
    }

    ghost own = { λ group. first-has (own_key group.name) _ };
}

// The key of the user without whom the act leaves a group; none at other acts.
fn leaver_of_group(act: &GroupAct) -> Option<u64>
    ensures { IfSome result (IsGroupLeaver act.now) }
{
    match act {
        GroupAct::RemoveMember(user) => Some(name_hash(user.as_slice())),
        GroupAct::SetMembership(membership) => leaver(membership),
        _ => None,
    }
}

// Notes the name and the members there that the act may bring to a group.
fn bring_to_group(act: &GroupAct, spot: Spot, index: &mut KeyPlaces)
    ensures { NotesOf (group_given act.now) spot (told_places index.old) (told_places index.new) }
{
    match act {
        GroupAct::Rename(name) => note_own(name.as_slice(), spot, index),
        GroupAct::AddMember(user) => note_name(user.as_slice(), spot, index),
        GroupAct::SetMembers(members) => note_names(members, spot, index),
        GroupAct::SetMembership(membership) => note_user(membership, spot, index),
        _ => {}
    }
}

impl KeyedRecord for GshadowRecord {
    ghost use Rattle.table.specs.Keys.{first-has, own_key, gshadow_brought, gshadow_keys};

    ghost keys = { gshadow_keys };

    ghost brought = { gshadow_brought };

    fn note_line(line: &[u8], place: usize, index: &mut KeyPlaces) {
        if let Ok(group) = GshadowLine::read(line) {
            note_own(group.name, Spot::At(place), index);
            note_listed(group.administrators, Spot::At(place), index);
            note_listed(group.members, Spot::At(place), index);
        }
    }

    fn note(&self, spot: Spot, index: &mut KeyPlaces) {
        note_own(self.name.as_slice(), spot, index);
        note_names(&self.administrators, spot, index);
        note_names(&self.members, spot, index);
    }

    fn needed(change: &GshadowChange) -> Option<u64> {
        match change {
            GshadowChange::All(act) => leaver_of_gshadow(act),
            GshadowChange::Named(name, _) | GshadowChange::Remove(name) => Some(own_key(
                name.as_slice(),
            )),
        }
    }

    fn bring(change: &GshadowChange, spot: Spot, index: &mut KeyPlaces) {
        match change {
            GshadowChange::Named(_, act) | GshadowChange::All(act) => {
                bring_to_gshadow(act, spot, index)
            }
            GshadowChange::Remove(_) => {}
        }
    }

    ghost own = { λ group. first-has (own_key group.name) _ };
}

// The key of the user without whom the act leaves a record of gshadow; none at other acts.
fn leaver_of_gshadow(act: &GshadowAct) -> Option<u64>
    ensures { IfSome result (IsGshadowLeaver act.now) }
{
    match act {
        GshadowAct::RemoveUser(user) => Some(name_hash(user.as_slice())),
        GshadowAct::SetMembership(membership) => leaver(membership),
        _ => None,
    }
}

// Notes the name, the administrators and the members there that the act may bring to a record of gshadow.
fn bring_to_gshadow(act: &GshadowAct, spot: Spot, index: &mut KeyPlaces)
    ensures { NotesOf (gshadow_given act.now) spot
        (told_places index.old) (told_places index.new) }
{
    match act {
        GshadowAct::Rename(name) => note_own(name.as_slice(), spot, index),
        GshadowAct::SetAdministrators(names) | GshadowAct::SetMembers(names) => {
            note_names(names, spot, index)
        }
        GshadowAct::AddMember(user) => note_name(user.as_slice(), spot, index),
        GshadowAct::SetMembership(membership) => note_user(membership, spot, index),
        _ => {}
    }
}

// Notes the user there, by either name.
fn note_user(membership: &Membership, spot: Spot, index: &mut KeyPlaces)
    ensures { NotesOf (name_keys (either_name membership.now)) spot
        (told_places index.old) (told_places index.new) }
{
    note_name(membership.user.as_slice(), spot, index);
    note_name(membership.new_name.as_slice(), spot, index);
}

// The key of the user where it joins no group; none else.
fn leaver(membership: &Membership) -> Option<u64>
    ensures { IfSome result (IsLeaver membership.now) }
{
    if !joins_none(&membership.groups) {
        return None;
    }
    Some(name_hash(membership.user.as_slice()))
}

// Whether a user joins no group by these.
fn joins_none(groups: &UserGroups) -> bool
    ensures { result ≡ true → (group : List ℕ) → joins groups.now group ≡ false }
{
    match groups {
        UserGroups::Kept => true,
        UserGroups::Also(groups) | UserGroups::Only(groups) => groups.is_empty(),
    }
}
