// The groups that a user joins and leaves, and the name in them (usermod(8), `-G`, `-a` and `-l`).
ghost use Rattle.std.specs.Prelude.{◌≡◌, [], ◌∷◌, None, IfOk, OnOk};
ghost use Rattle.account_model.specs.Edits.{each, edit_if};
ghost use Rattle.account_model.specs.GivenGroups.{unknown_groups};
ghost use Rattle.account_model.specs.Tables.{no_edits};
ghost use Rattle.account_model.specs.Usermod.{changed_group, changed_gshadow, sets_lists};
ghost use Rattle.carried_tables.specs.Scripts.{HasAlso};
ghost use Rattle.user_changes.specs.Memberships.{group_edit, gshadow_edit, membership, user_groups};

use crate::changes::new_name;
use acct_text::{Bytes, Names};
use command_values::Asked;
use line_edits::{
    Edit, GroupAct, GroupChange, GshadowAct, GshadowChange, Membership, NameSet, UserGroups,
};
use std::alloc::{AllocError, Global};
use table_edits::{Script, Tables, group_names};

/// Changes the lists of all groups, in group and in gshadow, where an option asks for it.
pub(crate) fn write_memberships(
    alloc: Global,
    script: &mut Script,
    asked: &Asked,
    tables: &Tables,
) -> Result<(), AllocError>
    requires { unknown_groups asked.now tables.now ≡ None }
    ensures { OnOk result (HasAlso
        (record no_edits {
          group = edit_if (sets_lists asked.now) (each (changed_group asked.now tables.now));
          gshadow = edit_if (sets_lists asked.now) (each (changed_gshadow asked.now tables.now));
        })
        script.old script.new) }
{
    if !sets_lists(asked) {
        return Ok(());
    }
    let names = group_names(alloc, asked, tables)?;
    write_groups(alloc, script, asked, &names)?;
    write_gshadow(alloc, script, asked, &names)
}

// Whether an option changes the lists.
fn sets_lists(asked: &Asked) -> bool
    ensures { result ≡ sets_lists asked.now }
{
    asked.has(b'G') || asked.has(b'l')
}

// Changes the members of all groups in group, of which `-G` names these.
fn write_groups(
    alloc: Global,
    script: &mut Script,
    asked: &Asked,
    names: &Names,
) -> Result<(), AllocError>
    ensures { OnOk result (HasAlso
        (record no_edits { group = group_edit (membership asked.now names.now) ∷ [] })
        script.old script.new) }
{
    let act = GroupAct::SetMembership(membership(alloc, asked, names)?);
    script.group.push(Edit::Become(GroupChange::All(act)))?;
    Ok(())
}

// Changes the administrators and members of all groups in gshadow, of which `-G` names these.
fn write_gshadow(
    alloc: Global,
    script: &mut Script,
    asked: &Asked,
    names: &Names,
) -> Result<(), AllocError>
    ensures { OnOk result (HasAlso
        (record no_edits { gshadow = gshadow_edit (membership asked.now names.now) ∷ [] })
        script.old script.new) }
{
    let act = GshadowAct::SetMembership(membership(alloc, asked, names)?);
    script.gshadow.push(Edit::Become(GshadowChange::All(act)))?;
    Ok(())
}

// What becomes of the user in each group, where `-G` names these.
fn membership(alloc: Global, asked: &Asked, names: &Names) -> Result<Membership, AllocError>
    ensures { IfOk result (λ result. result ≡ membership asked.now names.now) }
{
    Ok(Membership {
        user: Bytes::of(alloc, asked.operand())?,
        new_name: Bytes::of(alloc, new_name(asked))?,
        groups: user_groups(alloc, asked, names)?,
    })
}

// The groups of `-G`, and with `-a` those of before as well.
fn user_groups(alloc: Global, asked: &Asked, names: &Names) -> Result<UserGroups, AllocError>
    ensures { IfOk result (λ groups. groups ≡ user_groups asked.now names.now) }
{
    if !asked.has(b'G') {
        return Ok(UserGroups::Kept);
    }
    let groups = NameSet::of(alloc, names.copy()?)?;
    if asked.has(b'a') {
        Ok(UserGroups::Also(groups))
    } else {
        Ok(UserGroups::Only(groups))
    }
}
