//! The tools as one suite, and the top call.
//!
//! `Suite` decides each command by `suite_tools`. `run_suite` reads the words and carries out
//! what they ask for; a `Session` of these tools can also be turned call by call.
#![tactic(auto)]

mod apart;
mod deciding;
mod top;

pub use apart::{ids_stay_apart, untouched_lines_stay};
pub use deciding::Suite;
pub use suite_answers::{Answer, Cause, Outcome, Which};
pub use suite_course::{answers_keep_promises, tools_have_deeds};
pub use top::run_suite;

/// A session of a command, which makes one call of the folder a turn.
pub type Session = suite_session::Session<Suite>;
