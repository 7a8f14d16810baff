// Users and groups that a command looks for by name. An absent table has none, and of a name that
// stands twice the first record counts.
ghost use Rattle.std.specs.Prelude.{◌≡◌, IfOk};
ghost use Rattle.account_model.specs.Refusals.{missing_group};
ghost use Rattle.account_model.specs.Users.{find_user, find_shadow, group_named as group_of_name, gshadow_named as gshadow_of_name, has_group, has_gshadow, has_shadow, has_user};
ghost use Rattle.table_edits.specs.Stopping.{StopsBy};

use crate::Tables;
use account_model::Refusal;
use acct_lines::{GroupRecord, GshadowRecord, PasswdRecord, ShadowRecord};
use acct_text::Bytes;
use std::alloc::{AllocError, Global};
use tool_answers::ToolFault;

impl Tables<'_> {
    /// The first record of passwd that has the name.
    pub fn user_named(&self, alloc: Global, name: &[u8]) -> Result<Option<PasswdRecord>, AllocError>
        ensures { IfOk result (λ found. found ≡ find_user name.now self.now) }
    {
        self.carried.passwd().table().find(alloc, name)
    }

    /// The first record of shadow that has the name.
    pub fn shadow_named(
        &self,
        alloc: Global,
        name: &[u8],
    ) -> Result<Option<ShadowRecord>, AllocError>
        ensures { IfOk result (λ found. found ≡ find_shadow name.now self.now) }
    {
        self.carried.shadow().find(alloc, name)
    }

    /// The first record of group that has the name.
    pub fn group_named(&self, alloc: Global, name: &[u8]) -> Result<Option<GroupRecord>, AllocError>
        ensures { IfOk result (λ found. found ≡ group_of_name name.now self.now) }
    {
        self.carried.group().table().find(alloc, name)
    }

    /// The first record of gshadow that has the name.
    pub fn gshadow_named(
        &self,
        alloc: Global,
        name: &[u8],
    ) -> Result<Option<GshadowRecord>, AllocError>
        ensures { IfOk result (λ found. found ≡ gshadow_of_name name.now self.now) }
    {
        self.carried.gshadow().find(alloc, name)
    }

    /// Whether a record of passwd has the name. It takes no memory.
    pub fn has_user(&self, name: &[u8]) -> bool
        ensures { result ≡ has_user name.now self.now }
    {
        self.carried.passwd().table().has(name)
    }

    /// Whether a record of shadow has the name. It takes no memory.
    pub fn has_shadow(&self, name: &[u8]) -> bool
        ensures { result ≡ has_shadow name.now self.now }
    {
        self.carried.shadow().has(name)
    }

    /// Whether a record of group has the name. It takes no memory.
    pub fn has_group(&self, name: &[u8]) -> bool
        ensures { result ≡ has_group name.now self.now }
    {
        self.carried.group().table().has(name)
    }

    /// Whether a record of gshadow has the name. It takes no memory.
    pub fn has_gshadow(&self, name: &[u8]) -> bool
        ensures { result ≡ has_gshadow name.now self.now }
    {
        self.carried.gshadow().has(name)
    }

    /// Refuses a name that no group has: `NoGroup`.
    pub fn check_group(&self, alloc: Global, name: &[u8]) -> Result<(), ToolFault>
        ensures { StopsBy (missing_group name.now self.now) result }
    {
        if self.has_group(name) {
            return Ok(());
        }
        Err(no_group(alloc, name)?)
    }
}

/// The fault that tells that no group has the name or the GID.
pub(crate) fn no_group(alloc: Global, name: &[u8]) -> Result<ToolFault, AllocError>
    ensures { IfOk result (λ fault. fault ≡ ToolFault.Refused (Refusal.NoGroup name.now)) }
{
    Ok(ToolFault::Refused(Refusal::NoGroup(Bytes::of(alloc, name)?)))
}
