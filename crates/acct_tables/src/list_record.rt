// The records with lists of users, in which a user is renamed (group(5), gshadow(5)).
ghost use Rattle.std.specs.Prelude.{◌≡◌, ℕ, List, OnOk};

use crate::TableRecord;
use crate::renaming::rename_in;
use acct_lines::{GroupRecord, GshadowRecord};
use std::alloc::{AllocError, Global};

/// A record with lists of users.
pub trait ListRecord: TableRecord {
    // the record with the old name renamed to the new one in each list
    ghost renamed: { List ℕ → List ℕ → Self → Self };

    /// Renames the old name to the new one in each list that holds it. There the new name stands
    /// once, in its first place or the old one's; a list without the old name stays.
    ///
    /// At `AllocError` it may be renamed in the first list alone.
    fn rename(&mut self, alloc: Global, old: &[u8], new: &[u8]) -> Result<(), AllocError>
        ensures { OnOk result (self.new ≡ renamed old.now new.now self.old) };
}

impl ListRecord for GroupRecord {
    ghost use Rattle.account_model.specs.Members.{group_renamed};

    ghost renamed = { group_renamed };

    fn rename(&mut self, alloc: Global, old: &[u8], new: &[u8]) -> Result<(), AllocError> {
        rename_in(alloc, &mut self.members, old, new)
    }
}

impl ListRecord for GshadowRecord {
    ghost use Rattle.account_model.specs.Members.{gshadow_renamed};

    ghost renamed = { gshadow_renamed };

    fn rename(&mut self, alloc: Global, old: &[u8], new: &[u8]) -> Result<(), AllocError> {
        rename_in(alloc, &mut self.administrators, old, new)?;
        rename_in(alloc, &mut self.members, old, new)
    }
}
