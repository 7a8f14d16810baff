//! The statuses that go by the tool ("EXIT VALUES" of each manual page).

/// The command can't be done, for no reason that has a number of its own.
pub const GENERAL_FAILURE: u8 = 1;

/// What the command asks for makes no sense: its words, and for chage a value.
pub const BAD_USAGE: u8 = 2;

/// A value or a name can't be used.
pub const BAD_ARGUMENT: u8 = 3;

// pwck and grpck can't use a file.
const UNUSABLE_FILE: u8 = 3;

// pwck and grpck don't get the lock.
const UNLOCKED_FILES: u8 = 4;

// pwck and grpck can't change the tables.
const UNCHANGED_FILES: u8 = 5;

/// The UID or the GID is in use, or none is free.
pub const USED_ID: u8 = 4;

// passwd doesn't get the lock.
const BUSY_FILE: u8 = 5;

// passwd can't use a value.
const INVALID_ARGUMENT: u8 = 6;

// The user or the group doesn't exist.
const UNKNOWN_ACCOUNT: u8 = 6;

/// The group is a user's primary group.
pub const PRIMARY_OF_USER: u8 = 8;

/// The name is in use.
pub const USED_NAME: u8 = 9;

// The group files can't be changed.
const GROUP_FAILURE: u8 = 10;

// shadow is wanted and absent.
const ABSENT_SHADOW: u8 = 15;

/// The status of each thing that may be wrong with a command, where it goes by the tool.
#[derive(Clone, Copy)]
pub struct ToolStatuses {
    /// Words that ask for nothing.
    pub syntax: u8,
    /// A lock that isn't got.
    pub lock: u8,
    /// A folder that can't be changed.
    pub update: u8,
    /// A table, login.defs or a setting that can't be used.
    pub file: u8,
    /// Several records of a name in group or gshadow.
    pub multiple_groups: u8,
    /// Several records of a name in another table.
    pub multiple: u8,
    /// An option's value that can't be used.
    pub bad_value: u8,
    /// A user that isn't there.
    pub no_user: u8,
    /// A group that isn't there.
    pub no_group: u8,
    /// The table shadow isn't there.
    pub no_shadow: u8,
}

/// Those of a tool that has none of its own.
pub(crate) const COMMON_STATUSES: ToolStatuses = ToolStatuses {
    syntax: BAD_USAGE,
    lock: GENERAL_FAILURE,
    update: GENERAL_FAILURE,
    file: GENERAL_FAILURE,
    multiple_groups: GENERAL_FAILURE,
    multiple: GENERAL_FAILURE,
    bad_value: BAD_ARGUMENT,
    no_user: UNKNOWN_ACCOUNT,
    no_group: UNKNOWN_ACCOUNT,
    no_shadow: BAD_USAGE,
};

/// useradd(8), usermod(8), userdel(8).
pub(crate) const USER_STATUSES: ToolStatuses = ToolStatuses {
    multiple_groups: GROUP_FAILURE,
    ..COMMON_STATUSES
};

/// chfn(1), chsh(1).
pub(crate) const CHFN_STATUSES: ToolStatuses = ToolStatuses {
    bad_value: GENERAL_FAILURE,
    no_user: GENERAL_FAILURE,
    ..COMMON_STATUSES
};

/// groupadd(8), groupmod(8), groupdel(8).
pub(crate) const GROUP_STATUSES: ToolStatuses = ToolStatuses {
    lock: GROUP_FAILURE,
    update: GROUP_FAILURE,
    file: GROUP_FAILURE,
    multiple_groups: GROUP_FAILURE,
    multiple: GROUP_FAILURE,
    ..COMMON_STATUSES
};

/// gpasswd(1), groupmems(8).
pub(crate) const GPASSWD_STATUSES: ToolStatuses = ToolStatuses {
    no_user: BAD_ARGUMENT,
    no_group: BAD_ARGUMENT,
    ..COMMON_STATUSES
};

/// chage(1).
pub(crate) const CHAGE_STATUSES: ToolStatuses = ToolStatuses {
    bad_value: BAD_USAGE,
    no_user: GENERAL_FAILURE,
    no_shadow: ABSENT_SHADOW,
    ..COMMON_STATUSES
};

/// passwd(1).
pub(crate) const PASSWD_STATUSES: ToolStatuses = ToolStatuses {
    lock: BUSY_FILE,
    bad_value: INVALID_ARGUMENT,
    no_user: GENERAL_FAILURE,
    no_shadow: GENERAL_FAILURE,
    ..COMMON_STATUSES
};

/// pwconv(8), pwunconv(8), grpconv(8), grpunconv(8).
pub(crate) const CONVERSION_STATUSES: ToolStatuses = ToolStatuses {
    no_shadow: GENERAL_FAILURE,
    ..COMMON_STATUSES
};

/// getsubids(1).
pub(crate) const GETSUBIDS_STATUSES: ToolStatuses = ToolStatuses {
    syntax: GENERAL_FAILURE,
    ..COMMON_STATUSES
};

/// pwck(8), grpck(8).
pub(crate) const CHECK_STATUSES: ToolStatuses = ToolStatuses {
    syntax: GENERAL_FAILURE,
    lock: UNLOCKED_FILES,
    update: UNCHANGED_FILES,
    file: UNUSABLE_FILE,
    ..COMMON_STATUSES
};
