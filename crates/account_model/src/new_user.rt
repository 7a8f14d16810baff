//! What a new user is to get, before anything refuses it (useradd(8)).

/// What a new user is to get (useradd(8), `-u`, `-g`, `-U`, `-N` and `-r`).
#[derive(Clone, Copy)]
pub struct Plan {
    /// Whether a group of the user's own is made.
    pub own_group: bool,
    /// The UID; none where there is no free one.
    pub uid: Option<u32>,
    /// The primary GID; none where there is no free one for the user's own group.
    pub gid: Option<u32>,
    /// The range of subordinate UIDs.
    pub subuid: Allotment,
    /// The range of subordinate GIDs.
    pub subgid: Allotment,
}

/// What a new user gets of a table of subordinate IDs (subuid(5), subgid(5)).
#[derive(Clone, Copy)]
pub enum Allotment {
    /// No range is wanted.
    Unwanted,
    /// A range is wanted, and there is no gap for it.
    Full,
    /// The range of this first ID and this count.
    Range(u32, u32),
}
