// What becomes of a user in the lists of all groups (usermod(8), `-G`, `-a` and `-l`).
ghost use Rattle.std.specs.Prelude.{◌≡◌, ℕ, List, map, true, IfSome, OnOk};
ghost use Rattle.std.specs.Vec.{vec_items};
ghost use Rattle.account_model.specs.Text.{is_listed};
ghost use Rattle.account_model.specs.Records.{read_names};
ghost use Rattle.line_edits.specs.Memberships.{Adds, AreMarksIn, ChangesOnlyIn, joins, members_with};
ghost use Rattle.line_edits.specs.Naming.{names_in};

use crate::lists::{add_name, remove_name};
use crate::{ChangedNames, NameSet};
use acct_lines::lists;
use acct_tables::{ListRecord, MANY, Marks};
use acct_text::{Bytes, Names};
use std::alloc::{AllocError, Global};

/// What becomes of a user in the lists of groups.
#[derive(Drop)]
pub struct Membership {
    /// The user, by the name so far.
    pub user: Bytes,
    /// The name of the user from now on, which goes into each list in place of the old one.
    pub new_name: Bytes,
    /// The groups that the user joins and leaves.
    pub groups: UserGroups,
}

/// Of which groups a user is a member, by their names.
#[derive(Drop)]
pub enum UserGroups {
    /// Of those as before.
    Kept,
    /// Of these, and of others as before (usermod(8), `-a -G`).
    Also(NameSet),
    /// Of these alone (usermod(8), `-G`).
    Only(NameSet),
}

impl Membership {
    /// Whether the group is one of those that the user joins.
    pub(crate) fn joins(&self, group: &[u8]) -> bool
        ensures { result ≡ joins self.now.groups group.now }
    {
        match &self.groups {
            UserGroups::Kept => false,
            UserGroups::Also(groups) | UserGroups::Only(groups) => groups.has(group),
        }
    }

    /// Whether the user keeps its name, joins the group, and isn't among its members yet, as this
    /// text lists them.
    pub(crate) fn adds_to(&self, group: &[u8], members: &[u8]) -> bool
        ensures { result ≡ true → Adds self.now group.now (read_names members.now) }
    {
        let user = self.user.as_slice();
        if user.is_empty() {
            return false;
        }
        if user != self.new_name.as_slice() {
            return false;
        }
        self.joins(group) && !lists(members, user)
    }

    /// The user and the groups that it joins, where these are few; none else.
    pub(crate) fn marks(&self) -> Option<Marks<'_>>
        ensures { IfSome result (AreMarksIn self.now) }
    {
        let groups = self.joined();
        if groups.len() > MANY {
            return None;
        }
        Some(Marks {
            first: self.user.as_slice(),
            others: groups,
        })
    }

    // The groups that the user joins, each once.
    fn joined(&self) -> &[Vec<u8>]
        ensures { (group : List ℕ) →
            is_listed group (map vec_items result.now) ≡ joins self.now.groups group }
    {
        match &self.groups {
            UserGroups::Kept => &[],
            UserGroups::Also(groups) | UserGroups::Only(groups) => groups.each(),
        }
    }

    /// The groups that the user joins, where it keeps its name and leaves none; none else.
    pub(crate) fn only_groups(&self) -> Option<ChangedNames<'_>>
        ensures { IfSome result (λ groups. ChangesOnlyIn self.now (names_in groups)) }
    {
        if self.user.as_slice() != self.new_name.as_slice() {
            return None;
        }
        match &self.groups {
            UserGroups::Kept => Some(ChangedNames::Each(&[])),
            UserGroups::Also(groups) => Some(ChangedNames::Each(groups.each())),
            UserGroups::Only(_) => None,
        }
    }

    /// Lets the user, by the name so far, join or leave a group with these members.
    pub(crate) fn join_or_leave(
        &self,
        alloc: Global,
        group: &[u8],
        members: &mut Names,
    ) -> Result<(), AllocError>
        ensures { OnOk result (members.new ≡
            members_with self.now.groups self.now.user group.now members.old) }
    {
        let user = self.user.as_slice();
        match &self.groups {
            UserGroups::Also(groups) | UserGroups::Only(groups) if groups.has(group) => {
                add_name(members, user)
            }
            UserGroups::Only(_) => remove_name(alloc, members, user),
            UserGroups::Kept | UserGroups::Also(_) => Ok(()),
        }
    }

    /// Gives the user the new name in each list of the record.
    pub(crate) fn rename_in<R: ListRecord>(
        &self,
        alloc: Global,
        item: &mut R,
    ) -> Result<(), AllocError>
        ensures { OnOk result (item.new ≡ R.renamed self.now.user self.now.new_name item.old) }
    {
        item.rename(alloc, self.user.as_slice(), self.new_name.as_slice())
    }
}
