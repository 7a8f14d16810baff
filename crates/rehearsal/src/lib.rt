//! Callers of the top call: the rehearsal, some thousands of commands in a row on tables in memory with
//! a summary of what they leave (docs/OPERATING.md, "Rehearsing"), and clients whose contracts show that
//! the clauses of the calls below compose.
//!
//! `asks_for_rehearsal` tells the words apart from those of a tool, and `rehearse` answers them. Each
//! command runs as one that is alone in a folder of its own (`alone`), over the tables that the one
//! before left. `twice` and `together` know of the top call and of sessions nothing but their clauses.
#![tactic(auto)]

mod alone;
mod answered;
mod asked;
mod clock;
mod commands;
mod course;
mod endings;
mod images;
mod summary;
mod together;
mod twice;

pub use alone::run_alone;
pub use asked::asks_for_rehearsal;
pub use endings::rehearse;
pub use together::{turn_both, turn_once};
pub use twice::{Twice, add_one_gid_twice};
