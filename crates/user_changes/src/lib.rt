//! How a user is changed: usermod(8), chfn(1) and chsh(1). What a command decides on the tables, by its
//! request and the day.
//!
//! `usermod` refuses bad values, then what is missing or taken (`conflicts`, and `meetings` for
//! the ranges of subuid(5) and subgid(5) that the user lacks, which `lacked` tells), and then
//! builds the script of its edits: `hash`, `fields`, `memberships` and `ranges` have those of the
//! tables. `chfn` and `chsh` set one field each; `comment` cuts a comment into its parts.
#![tactic(auto)]

mod changes;
pub mod chfn;
pub mod chsh;
mod comment;
mod conflicts;
mod fields;
mod hash;
mod lacked;
mod meetings;
mod memberships;
mod ranges;

pub use changes::usermod;
