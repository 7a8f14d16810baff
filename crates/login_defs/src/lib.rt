//! The settings of login.defs (login.defs(5)): which numbers and ranges a command takes from them.
//!
//! `Defs` keeps for each key what its last line gave. `lines` finds the key and the value of a
//! line, `values` reads a number, and `keys` names the keys.
#![tactic(auto)]

mod defs;
mod keys;
mod lines;
mod values;

pub use account_model::{IdSort, Key, Kind};
pub use defs::{Defs, DefsFault, KeyFault};
