//! The session of a command: how it shares the account files with others, whatever its tool is.
//!
//! A session takes the lock, carries out an intent that another left, loads the files, lets the tool
//! decide, commits through an intent of its own, frees the lock and answers. A report takes no lock: it
//! reads the files between two listings of the locks. `State` names each step, with the one call of the
//! folder that it makes next. What the tools decide is their crates' matter: a session asks them by the
//! trait `Tools`.
#![tactic(auto)]

mod committing;
mod dying;
mod laws;
mod loading;
mod locking;
mod next_call;
mod recovering;
mod reporting;
mod runner;
mod session;
mod start_fault;
mod state;
mod tools;
mod turning;
mod unlocking;

pub use laws::belonging_stays;
pub use runner::{Question, faulty_line, memory_answer};
pub use session::{Session, outcome_after};
pub use start_fault::StartFault;
pub use suite_answers::{Answer, Cause, Outcome, Which};
pub use tools::{Decided, Tools};
