//! Why a tool refuses. The texts stand in `specs/Messages`, the statuses in `specs/Statuses`.
use acct_text::{Bytes, Tab};

/// What is wrong with a line of the input of chpasswd(8) or chgpasswd(8).
#[derive(Drop)]
pub enum LineProblem {
    /// The line has no `:`.
    NoColon,
    /// The hash, which stands behind the first `:`, has one too.
    HashColon,
    /// The user of this name isn't in passwd.
    UnknownUser(Bytes),
    /// The group of this name isn't in group.
    UnknownGroup(Bytes),
    /// The line ends in a carriage return, which no hash of crypt(5) has.
    LineEnd,
}

/// The cause of a refusal, with its values in the order of its text.
#[derive(Drop)]
pub enum Refusal {
    /// A command would make this name, which isn't valid, or put it into a list, where no name
    /// with a comma can stand.
    BadName(Bytes),
    /// This word of `-K` isn't KEY=VALUE with a key of login.defs(5) and a value that it allows.
    BadKey(Bytes),
    /// The option of this letter has this value, which it can't have.
    BadValue(u8, Bytes),
    /// The new user's name is taken.
    UserExists(Bytes),
    /// The new group's name is taken.
    GroupExists(Bytes),
    /// No user has the name.
    NoUser(Bytes),
    /// No group has the name, or the GID that the word writes.
    NoGroup(Bytes),
    /// A user has the UID, and `-o` isn't given.
    UidInUse(u32),
    /// A group has the GID, and `-o` isn't given.
    GidInUse(u32),
    /// Each UID of the range is used, or the range is empty.
    NoFreeUid,
    /// Each GID of the range is used, or the range is empty.
    NoFreeGid,
    /// The table has no gap for a new range of subordinate IDs.
    NoGap(Tab),
    /// The range from the first ID to the second has a number in common with that of a line of the
    /// table. Lines count from 1, as the file stands by then.
    Meets(u32, u32, Tab, usize),
    /// To unlock the user would leave no password.
    EmptyHash(Bytes),
    /// The group is the primary group of the user, the first such one.
    PrimaryGroup(Bytes, Bytes),
    /// The user isn't a member of the group.
    NotMember(Bytes, Bytes),
    /// The command or its option needs shadow, which is absent.
    NoShadow,
    /// The command needs gshadow, which is absent.
    NoGshadow,
    /// This line of the input, counted from 1, is the first bad one.
    BadLine(u32, LineProblem),
    /// No range is owned by the name.
    NoRanges(Bytes),
    /// The first line of the table that would change has a name of which the table has several
    /// records.
    Multiple(Tab, Bytes),
}
