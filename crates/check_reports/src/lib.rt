//! The tools that look at whole tables: pwck(8), grpck(8), getsubids(1), and pwconv(8) and its kin,
//! which convert two tables. Each decides by what was asked for, the settings and the day.
//!
//! Each tool is a module: pwck and grpck say what the problems of their records are. `report` walks
//! the lines of a table and tells the problems of each, of which `problem` has the texts; `known`
//! looks names and GIDs up, and `hashes` keeps what pwck asks of the lines of shadow, so that each
//! is read once. `sorting` puts the records of a table in order. `line_changes` makes a change of every
//! record of a table in one walk, which keeps the fields and hashes of its records (`secrets`), and
//! `printing` prints those that change. `conversion` moves hashes back to the main table. `pwconv` moves
//! them to that of hashes, of which `gathering` changes the records and `making` adds those that are
//! missing.
#![tactic(auto)]

pub mod conversion;
mod decision;
mod gathering;
pub mod getsubids;
pub mod grpck;
mod hashes;
mod known;
mod line_changes;
mod making;
mod printing;
mod problem;
mod problems;
pub mod pwck;
pub mod pwconv;
mod report;
mod secrets;
mod sorting;
