//! What a command looks up in the six tables and does to them (passwd(5), shadow(5), group(5),
//! gshadow(5), subuid(5), subgid(5)).
//!
//! `Tables` are those that commands carry from one to the next, as a command looks at them: `lookups`
//! finds records by their names, `users` and `groups` by their IDs, and `given_groups` the groups that
//! `-g` and `-G` name; where a word names none, the command is refused. Where many records are asked for,
//! whoever opens the tables makes an index of them first.
//!
//! A tool builds a `Script`, which has for each table the list of its edits: `user_hashes` and
//! `group_hashes` add those that put a hash where it stands, with the lines of shadow and gshadow that are
//! made on demand, and `new_groups` a group with its hash.
#![tactic(auto)]

mod given_groups;
mod group_hashes;
mod groups;
mod lookups;
mod new_groups;
mod tables;
mod user_hashes;
mod users;

pub use carried_tables::Script;
pub use given_groups::{check_given_group, check_given_groups, given_group, group_names};
pub use group_hashes::{demand_gshadow, set_group_hash};
pub use new_groups::add_group;
pub use tables::Tables;
pub use user_hashes::{change_user_hash, demand_shadow, hash_alone};
