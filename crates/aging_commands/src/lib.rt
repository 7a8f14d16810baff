//! The tools of passwords and their aging: chage(1), chpasswd(8) and chgpasswd(8) with `-e`, and
//! passwd(1) without prompts. Each gives the script of its edits on the tables, by what was asked for, or
//! by the input of chpasswd and chgpasswd and the day.
//!
//! Each tool is a module: it tests the refusals in their order, and then builds the script. `listing`
//! prints what `chage -l` reports, and `status` what `passwd -S` does.
#![tactic(auto)]

pub mod chage;
pub mod chpasswd;
mod hash_lines;
mod listing;
pub mod passwd;
mod status;
