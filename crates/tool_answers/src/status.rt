// The statuses of refusals, by the tool's row ("EXIT VALUES" of each page).
ghost use Rattle.std.specs.Prelude.{◌≡◌};
ghost use Rattle.account_model.specs.Statuses.{file_status, lock_status, multiple_status, refusal_status, update_status};

use account_model::{
    BAD_ARGUMENT, GENERAL_FAILURE, PRIMARY_OF_USER, Refusal, Tool, ToolStatuses, USED_ID, USED_NAME,
};
use acct_text::Tab;

/// The status of a command that found no memory, whatever its tool is.
pub const MEMORY_STATUS: u8 = 100;

/// The status of a lock that isn't got.
pub fn lock_status(tool: Tool) -> u8
    ensures { result ≡ lock_status tool }
{
    tool.row().statuses.lock
}

/// The status of a folder that can't be changed.
pub fn update_status(tool: Tool) -> u8
    ensures { result ≡ update_status tool }
{
    tool.row().statuses.update
}

/// The status of a file that can't be used.
pub fn file_status(tool: Tool) -> u8
    ensures { result ≡ file_status tool }
{
    tool.row().statuses.file
}

/// The status with which a tool ends after a refusal.
pub fn refusal_status(tool: Tool, refusal: &Refusal) -> u8
    ensures { result ≡ refusal_status tool refusal.now }
{
    let statuses = tool.row().statuses;
    match refusal {
        Refusal::BadName(_) | Refusal::BadKey(_) | Refusal::Meets(..) => BAD_ARGUMENT,
        Refusal::EmptyHash(_) | Refusal::NotMember(..) => BAD_ARGUMENT,
        Refusal::BadValue(..) => statuses.bad_value,
        Refusal::UserExists(_) | Refusal::GroupExists(_) => USED_NAME,
        Refusal::NoUser(_) => statuses.no_user,
        Refusal::NoGroup(_) => statuses.no_group,
        Refusal::UidInUse(_) | Refusal::GidInUse(_) => USED_ID,
        Refusal::NoFreeUid | Refusal::NoFreeGid => USED_ID,
        Refusal::NoGap(_) | Refusal::BadLine(..) => GENERAL_FAILURE,
        Refusal::NoGshadow | Refusal::NoRanges(_) => GENERAL_FAILURE,
        Refusal::PrimaryGroup(..) => PRIMARY_OF_USER,
        Refusal::NoShadow => statuses.no_shadow,
        Refusal::Multiple(tab, _) => multiple_status(statuses, *tab),
    }
}

// The status for several records of a name in this table.
fn multiple_status(statuses: ToolStatuses, tab: Tab) -> u8
    ensures { result ≡ multiple_status statuses tab }
{
    match tab {
        Tab::Group | Tab::Gshadow => statuses.multiple_groups,
        _ => statuses.multiple,
    }
}
