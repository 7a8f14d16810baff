//! How a user is removed: userdel(8). What a command decides on the tables, by its request and the
//! settings of login.defs(5).
//!
//! `userdel` refuses a user that isn't there, and then builds the script of its edits;
//! `userdel_output` tells why the group of the user's name is kept. `own_group` has that group, and
//! `others` the users with whom an ID is shared.
#![tactic(auto)]

mod others;
mod own_group;
mod removal;

pub use removal::{userdel, userdel_output};
