// What is wrong with a line, and the text of that, which is this suite's own (pwck(8), grpck(8)).
ghost use Rattle.std.specs.Prelude.{◌≡◌, ◌++◌, codes, IfOk};
ghost use Rattle.std.specs.Fmt.{decimal};
ghost use Rattle.account_model.specs.Problems.{is_notice, problem_text};
ghost use Rattle.check_reports.specs.Seen.{seen_problem, unknown_problem};

use acct_text::Piece::{Number, Text};
use acct_text::{Bytes, pair, triple};
use std::alloc::{AllocError, Global};

/// What is wrong with a line.
#[derive(Clone, Copy)]
pub(crate) enum Problem<'a> {
    /// The line is other text.
    InvalidEntry,
    /// An earlier record has this name.
    DuplicateName(&'a [u8]),
    /// passwd: this name isn't valid.
    InvalidUserName(&'a [u8]),
    /// passwd: no group has the primary GID of this user.
    NoPrimaryGroup(&'a [u8], u32),
    /// passwd: shadow lacks this user.
    NoShadowEntry(&'a [u8]),
    /// passwd: the password field of this user isn't `x`.
    PasswordNotInShadow(&'a [u8]),
    /// shadow: passwd lacks this user.
    NoPasswdEntry(&'a [u8]),
    /// shadow: the last change of this user lies after today. It is a notice.
    ChangeInFuture(&'a [u8]),
    /// group: this name isn't valid.
    InvalidGroupName(&'a [u8]),
    /// group: gshadow lacks this group.
    NoGshadowEntry(&'a [u8]),
    /// gshadow: group lacks this group.
    NoGroupEntry(&'a [u8]),
    /// gshadow: passwd lacks an administrator of this group, the user.
    UnknownAdministrator(&'a [u8], &'a [u8]),
    /// group and gshadow: passwd lacks a member of this group, the user.
    UnknownMember(&'a [u8], &'a [u8]),
}

/// Which list of a group names a user.
#[derive(Clone, Copy)]
pub(crate) enum Listing {
    /// The administrators (gshadow(5)).
    Administrator,
    /// The members.
    Member,
}

impl Listing {
    /// The problem of a user in the group's list who isn't in passwd.
    pub(crate) fn problem<'a>(self, group: &'a [u8], user: &'a [u8]) -> Problem<'a>
        ensures { seen_problem result ≡ unknown_problem self group.now user.now }
    {
        match self {
            Listing::Administrator => Problem::UnknownAdministrator(group, user),
            Listing::Member => Problem::UnknownMember(group, user),
        }
    }
}

impl<'a> Problem<'a> {
    /// Whether it is a notice, which `-q` of pwck leaves out.
    pub(crate) fn is_notice(&self) -> bool
        ensures { result ≡ is_notice (seen_problem self.now) }
    {
        match self {
            Problem::ChangeInFuture(_) => true,
            _ => false,
        }
    }

    /// The text of the problem, without a newline.
    pub(crate) fn text(&self, alloc: Global) -> Result<Bytes, AllocError>
        ensures { IfOk result (λ text. text ≡ problem_text (seen_problem self.now)) }
    {
        match self {
            Problem::InvalidEntry => Bytes::of(alloc, b"invalid entry"),
            Problem::DuplicateName(name) => pair(alloc, b"duplicate name ", name),
            Problem::InvalidUserName(name) => pair(alloc, b"invalid user name ", name),
            Problem::NoPrimaryGroup(name, gid) => no_primary_group(alloc, name, *gid),
            Problem::NoShadowEntry(name) => triple(alloc, b"user ", name, b" has no shadow entry"),
            Problem::PasswordNotInShadow(name) => {
                triple(alloc, b"password of user ", name, b" is not in shadow")
            }
            Problem::NoPasswdEntry(name) => triple(alloc, b"user ", name, b" has no passwd entry"),
            Problem::ChangeInFuture(name) => {
                triple(alloc, b"last change of user ", name, b" is in the future")
            }
            Problem::InvalidGroupName(name) => pair(alloc, b"invalid group name ", name),
            Problem::NoGshadowEntry(name) => {
                triple(alloc, b"group ", name, b" has no gshadow entry")
            }
            Problem::NoGroupEntry(name) => triple(alloc, b"group ", name, b" has no group entry"),
            Problem::UnknownAdministrator(group, user) => {
                listed(alloc, group, b" has unknown administrator ", user)
            }
            Problem::UnknownMember(group, user) => {
                listed(alloc, group, b" has unknown member ", user)
            }
        }
    }
}

// No group has the primary GID of the user.
fn no_primary_group(alloc: Global, name: &[u8], gid: u32) -> Result<Bytes, AllocError>
    ensures { IfOk result (λ text. text ≡
        codes "user " ++ name.now ++ codes " has no primary group " ++ decimal gid) }
{
    Bytes::made_of(
        alloc,
        &[
            Text(b"user "),
            Text(name),
            Text(b" has no primary group "),
            Number(u64::from(gid)),
        ],
    )
}

// What is told of a group and of a user whom it lists.
fn listed<'x>(
    alloc: Global,
    group: &'x [u8],
    told: &'x [u8],
    user: &'x [u8],
) -> Result<Bytes, AllocError>
    ensures { IfOk result (λ text. text ≡
        codes "group " ++ group.now ++ told.now ++ user.now) }
{
    Bytes::made_of(
        alloc,
        &[Text(b"group "), Text(group), Text(told), Text(user)],
    )
}
