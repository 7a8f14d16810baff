//! The course of a command from its request to its outcome, whatever its tools are.
//!
//! It takes the input and asks the clock for the day, enters the folder, turns its session to the
//! answer, and serves the streams. What the history of the folder then promises of a session that
//! answers stands in `specs/Shows`, of one that was alone in `specs/Alone`, and of the whole call in
//! `specs/Top`; the law of it is `answers_keep_promises`.
#![tactic(auto)]

mod course;
mod ending;
mod laws;
mod running;
mod streams;
mod supplies;

pub use ending::refuse_words;
pub use laws::{answers_keep_promises, tools_have_deeds};
pub use running::run_request;
pub use supplies::Lack;
