//! Sessions side by side in one folder in memory: they take turns, and die, as a schedule says.
//!
//! `play` takes the steps of a schedule in order. A `StagedFolder` is a folder for one more session,
//! in which those of a schedule take their steps between its calls.
#![tactic(auto)]

mod playing;
mod schedule;
mod staged;
mod staged_calls;
mod step;

pub use playing::play;
pub use staged::StagedFolder;
pub use step::Step;
