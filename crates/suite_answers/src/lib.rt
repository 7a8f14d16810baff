//! What a command of the account suite answers: why, with which status, and what it says on the
//! error stream. What a tool decides on the tables brings its own texts (`tool_answers`); all other
//! answers are made here, for each tool.
#![tactic(auto)]

mod answer;
mod cause;
mod laws;
mod memory;
mod message;
mod reason;

pub use account_model::{LineProblem, Refusal, Tool, WordFault};
pub use acct_outside::{CommitStage, Name, Token};
pub use answer::Answer;
pub use cause::{Cause, OUTPUT_FAULT_STATUS, Outcome, Which};
pub use laws::changes_succeed;
pub use memory::put_memory_text;
pub use tool_answers::MEMORY_STATUS;
