//! What every crate of the suite reads and writes: bytes, words and lists of names; the six
//! account tables and their files; lines, fields and decimal numbers; texts that are made of pieces.
//!
//! A place in a text counts its bytes from 0. Want of memory is the only error of a call that
//! allocates, and leaves what was there as it was.
#![tactic(auto)]

mod bytes;
mod cuts;
mod files;
mod laws;
mod limits;
mod names;
mod new_tables;
mod numbers;
mod pieces;
mod tables;

pub use bytes::{Bytes, Word};
pub use cuts::{Sides, cut_once, fields, join, join_fields, lines};
pub use files::Files;
pub use laws::{one_cut_into_lines, one_cut_into_pieces, one_number};
pub use limits::{LAST_DAY, TABLE_LIMIT};
pub use names::Names;
pub use new_tables::{NewTable, NewTables};
pub use numbers::{NumberFault, push_decimal, read_decimal};
pub use pieces::{Piece, pair, triple};

/// A table of accounts. The variants stand in the order in which the suite reads and writes tables.
#[derive(Clone, Copy, Debug, PartialEq, Eq, PartialOrd)]
pub enum Tab {
    /// The users (passwd(5)).
    Passwd,
    /// Hashes and aging of the users (shadow(5)).
    Shadow,
    /// The groups and their members (group(5)).
    Group,
    /// Hashes, administrators and members of the groups (gshadow(5)).
    Gshadow,
    /// Subordinate UIDs of the users (subuid(5)).
    Subuid,
    /// Subordinate GIDs of the users (subgid(5)).
    Subgid,
}
