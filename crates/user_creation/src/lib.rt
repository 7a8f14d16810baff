//! How a user is made: useradd(8). What a command decides on the tables, by its request, the settings
//! of login.defs(5) and the day.
//!
//! `useradd` tests the refusals in their order, and then builds the script of its edits;
//! `useradd_output` tells of a hash that all can read, and of ranges that are inherited (`notice`).
//! `plan` has the IDs and ranges that the user is to get, `ranges` those of subuid(5) and subgid(5),
//! `records` the new lines, and `script` the edits.
#![tactic(auto)]

mod creation;
mod notice;
mod plan;
mod ranges;
mod records;
mod script;

pub use creation::useradd;
pub use notice::useradd_output;
