// A user who joins a group, told by the parts of the group's line: a long list of members isn't read
// name by name (usermod(8), `-a -G`).
ghost use Rattle.std.specs.Prelude.{◌∷◌, [], IfOk, IfSome};
ghost use Rattle.account_model.specs.Records.{group_format, gshadow_format};
ghost use Rattle.line_edits.specs.Memberships.{group_by, gshadow_by};
ghost use Rattle.line_edits.specs.Rewriting.{IsRewritten};

use crate::{Membership, Rewritten};
use acct_lines::{GroupLine, GshadowLine, listed_text, push_listed};
use std::alloc::{AllocError, Global};

/// The canonical texts of the group that the line is, before and after the user joins it; none where
/// the user doesn't, or gets another name, and where the line is other text.
pub(crate) fn joined_group(
    alloc: Global,
    membership: &Membership,
    line: &[u8],
) -> Result<Option<Rewritten>, AllocError>
    ensures { IfOk result (λ texts. IfSome texts (IsRewritten group_format
        (λ group. group_by membership.now group ∷ []) line.now)) }
{
    let Ok(group) = GroupLine::read(line) else {
        return Ok(None);
    };
    if !membership.adds_to(group.name, group.members) {
        return Ok(None);
    }
    let mut members = listed_text(alloc, group.members)?;
    let kept = group.printed_with(alloc, members.as_slice())?;
    push_listed(&mut members, membership.user.as_slice())?;
    let new = group.printed_with(alloc, members.as_slice())?;
    Ok(Some(Rewritten { kept, new }))
}

/// The same of a line of gshadow(5).
pub(crate) fn joined_gshadow(
    alloc: Global,
    membership: &Membership,
    line: &[u8],
) -> Result<Option<Rewritten>, AllocError>
    ensures { IfOk result (λ texts. IfSome texts (IsRewritten gshadow_format
        (λ group. gshadow_by membership.now group ∷ []) line.now)) }
{
    let Ok(group) = GshadowLine::read(line) else {
        return Ok(None);
    };
    if !membership.adds_to(group.name, group.members) {
        return Ok(None);
    }
    let administrators = listed_text(alloc, group.administrators)?;
    let mut members = listed_text(alloc, group.members)?;
    let kept = group.printed_with(alloc, administrators.as_slice(), members.as_slice())?;
    push_listed(&mut members, membership.user.as_slice())?;
    let new = group.printed_with(alloc, administrators.as_slice(), members.as_slice())?;
    Ok(Some(Rewritten { kept, new }))
}
