//! A test of a whole command over a folder that no transcript has: one in memory in which other sessions
//! take their steps between the calls of the command.
//!
//! It stands in a crate of its own, as a crate with tests is proved twice.
#![tactic(auto)]

#[cfg(test)]
mod staged;
