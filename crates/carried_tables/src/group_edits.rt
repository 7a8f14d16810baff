// Edits that several tools make of groups, each behind those that the script has (group(5),
// gshadow(5)).
ghost use Rattle.std.specs.Prelude.{[], ◌∷◌, OnOk};
ghost use Rattle.account_model.specs.Edits.Edit.{Become};
ghost use Rattle.account_model.specs.Groupdel.{remove_group as group_removal};
ghost use Rattle.account_model.specs.Members.{add_to_group as addition_to_group};
ghost use Rattle.account_model.specs.Tables.{no_edits};
ghost use Rattle.carried_tables.specs.Scripts.{HasAlso};
ghost use Rattle.line_edits.specs.GroupChanges.{group_becomes};
ghost use Rattle.line_edits.specs.GshadowChanges.{gshadow_becomes};
ghost use Rattle.line_edits.specs.declared.group_changes.GroupChange.TheVariants.{Named};
ghost use Rattle.line_edits.specs.declared.gshadow_changes.GshadowChange.TheVariants.{Named as NamedThere};

use crate::Script;
use acct_text::Bytes;
use line_edits::{Edit, GroupAct, GroupChange, GshadowAct, GshadowChange};
use std::alloc::{AllocError, Global};

impl Script {
    /// Does the act with the records of the group in group(5).
    pub fn change_group(
        &mut self,
        alloc: Global,
        name: &[u8],
        act: GroupAct,
    ) -> Result<(), AllocError>
        ensures { OnOk result (HasAlso
            (record no_edits { group = Become (group_becomes (Named name.now act)) ∷ [] })
            self.old self.new) }
    {
        let change = GroupChange::Named(Bytes::of(alloc, name)?, act);
        self.group.push(Edit::Become(change))?;
        Ok(())
    }

    /// Does the act with the records of the group in gshadow(5).
    pub fn change_gshadow(
        &mut self,
        alloc: Global,
        name: &[u8],
        act: GshadowAct,
    ) -> Result<(), AllocError>
        ensures { OnOk result (HasAlso
            (record no_edits { gshadow = Become (gshadow_becomes (NamedThere name.now act)) ∷ [] })
            self.old self.new) }
    {
        let change = GshadowChange::Named(Bytes::of(alloc, name)?, act);
        self.gshadow.push(Edit::Become(change))?;
        Ok(())
    }

    /// Does the acts with the records of the group in group(5) and gshadow(5).
    pub fn change_both(
        &mut self,
        alloc: Global,
        name: &[u8],
        act: GroupAct,
        gshadow_act: GshadowAct,
    ) -> Result<(), AllocError>
        ensures { OnOk result (HasAlso
            (record no_edits {
              group = Become (group_becomes (Named name.now act)) ∷ [];
              gshadow = Become (gshadow_becomes (NamedThere name.now gshadow_act)) ∷ [];
            })
            self.old self.new) }
    {
        self.change_group(alloc, name, act)?;
        self.change_gshadow(alloc, name, gshadow_act)
    }

    /// Adds the user to the members of the group, in group and in gshadow.
    pub fn add_to_group(
        &mut self,
        alloc: Global,
        group: &[u8],
        user: &[u8],
    ) -> Result<(), AllocError>
        ensures { OnOk result
            (HasAlso (addition_to_group group.now user.now) self.old self.new) }
    {
        let act = GroupAct::AddMember(Bytes::of(alloc, user)?);
        let gshadow_act = GshadowAct::AddMember(Bytes::of(alloc, user)?);
        self.change_both(alloc, group, act, gshadow_act)
    }

    /// Removes the group from group and gshadow.
    pub fn remove_group(&mut self, alloc: Global, group: &[u8]) -> Result<(), AllocError>
        ensures { OnOk result (HasAlso (group_removal group.now) self.old self.new) }
    {
        let change = GroupChange::Remove(Bytes::of(alloc, group)?);
        self.group.push(Edit::Become(change))?;
        let change = GshadowChange::Remove(Bytes::of(alloc, group)?);
        self.gshadow.push(Edit::Become(change))?;
        Ok(())
    }
}
