//! Whose hashes a command sets from its input.

/// Whose hashes the lines of an input set.
#[derive(Clone, Copy, Debug, PartialEq, Eq, Drop)]
pub enum HashesOf {
    /// Those of users (chpasswd(8)).
    Users,
    /// Those of groups (chgpasswd(8)).
    Groups,
}
