// Edits that several tools make of users, each behind those that the script has (passwd(5),
// shadow(5)).
ghost use Rattle.std.specs.Prelude.{[], ◌∷◌, OnOk};
ghost use Rattle.account_model.specs.Edits.Edit.{Become};
ghost use Rattle.account_model.specs.Tables.{no_edits};
ghost use Rattle.carried_tables.specs.Scripts.{HasAlso};
ghost use Rattle.line_edits.specs.PasswdChanges.{passwd_becomes};
ghost use Rattle.line_edits.specs.ShadowChanges.{shadow_becomes};
ghost use Rattle.line_edits.specs.declared.passwd_changes.PasswdChange.TheVariants.{Named};
ghost use Rattle.line_edits.specs.declared.shadow_changes.ShadowChange.TheVariants.{Named as NamedThere};

use crate::Script;
use acct_text::Bytes;
use line_edits::{Edit, PasswdAct, PasswdChange, ShadowAct, ShadowChange};
use std::alloc::{AllocError, Global};

impl Script {
    /// Does the act with the records of the user in passwd(5).
    pub fn change_user(
        &mut self,
        alloc: Global,
        name: &[u8],
        act: PasswdAct,
    ) -> Result<(), AllocError>
        ensures { OnOk result (HasAlso
            (record no_edits { passwd = Become (passwd_becomes (Named name.now act)) ∷ [] })
            self.old self.new) }
    {
        let change = PasswdChange::Named(Bytes::of(alloc, name)?, act);
        self.passwd.push(Edit::Become(change))?;
        Ok(())
    }

    /// Does the act with the records of the user in shadow(5).
    pub fn change_shadow(
        &mut self,
        alloc: Global,
        name: &[u8],
        act: ShadowAct,
    ) -> Result<(), AllocError>
        ensures { OnOk result (HasAlso
            (record no_edits { shadow = Become (shadow_becomes (NamedThere name.now act)) ∷ [] })
            self.old self.new) }
    {
        let change = ShadowChange::Named(Bytes::of(alloc, name)?, act);
        self.shadow.push(Edit::Become(change))?;
        Ok(())
    }
}
