//! The tools of groups: groupadd(8), groupmod(8), groupdel(8), gpasswd(1) and groupmems(8). Each gives
//! the script of its edits on the tables, by what was asked for and the settings of login.defs(5).
//!
//! Each tool is a module with one function: it tests the refusals in their order, and then builds
//! the script.
#![tactic(auto)]

pub mod gpasswd;
pub mod groupadd;
pub mod groupdel;
pub mod groupmems;
pub mod groupmod;
