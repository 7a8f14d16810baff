// Groups that a command looks for in group(5). An absent table has none.
ghost use Rattle.std.specs.Prelude.{◌≡◌, IfOk};
ghost use Rattle.account_model.specs.GivenGroups.{find_gid as first_of_gid};
ghost use Rattle.account_model.specs.Ids.{is_used, used_gids as gids_of};
ghost use Rattle.account_model.specs.Tables.{group_records};
ghost use Rattle.carried_tables.specs.KeptIds.{ids_in};
ghost use Rattle.id_choice.specs.Used.{AreThoseOf};

use crate::Tables;
use acct_lines::GroupRecord;
use carried_tables::IdsInUse;
use std::alloc::{AllocError, Global};
use table::OfGid;

impl<'a> Tables<'a> {
    /// The first group with the GID. Where the used GIDs are known and it isn't one of them, it takes no
    /// pass over group(5).
    pub fn group_of_gid(&self, alloc: Global, gid: u32) -> Result<Option<GroupRecord>, AllocError>
        ensures { IfOk result (λ found. found ≡ first_of_gid gid (group_records self.now)) }
    {
        if self.carried.group().lacks(gid) {
            return Ok(None);
        }
        self.carried
            .group()
            .table()
            .first_passing(alloc, &OfGid { gid })
    }

    /// Whether a group has the GID. It gathers no GIDs.
    pub fn is_gid_used(&self, alloc: Global, gid: u32) -> Result<bool, AllocError>
        ensures { IfOk result (λ used. used ≡ is_used (gids_of self.now) gid) }
    {
        self.carried.group().has_id(alloc, gid)
    }

    /// The GIDs of all groups.
    pub fn used_gids(&self, alloc: Global) -> Result<IdsInUse<'a>, AllocError>
        ensures { IfOk result (λ used. AreThoseOf (ids_in used) (gids_of self.now)) }
    {
        self.carried.group().used(alloc)
    }
}
