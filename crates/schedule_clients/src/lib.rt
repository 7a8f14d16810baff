//! A client of sessions side by side. Its contract follows from the clauses of `play` and from laws over
//! definitions alone, and shows that these compose.
#![tactic(auto)]

mod lawfully;

pub use lawfully::play_lawfully;
