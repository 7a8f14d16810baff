//! What a tool answers: its decision on the tables, or why it refuses; with the text of each refusal
//! and of each fault of words, the line that says it, and the statuses of each tool.
//!
//! A tool goes no further by a `ToolFault`. What it decides is a `Decision`, with what it prints.
//! What a command meets outside the tables has its texts in `suite_answers`, beside `Cause`.
#![tactic(auto)]

mod decision;
mod line_text;
mod message;
mod near;
mod refusal;
mod rule_text;
mod status;
mod tool_fault;
mod word_fault;
mod wrapper_hint;

pub use account_model::{LineProblem, Refusal, Tool, WordFault};
pub use decision::{Decision, Output, decision_by, refuse, refuse_line};
pub use line_text::{line_fault_message, line_refusal_message};
pub use message::{messages, push_line, speaker};
use near::unknown_text;
pub use refusal::refusal_text;
use rule_text::rule_text;
pub use status::{MEMORY_STATUS, file_status, lock_status, refusal_status, update_status};
pub use tool_fault::ToolFault;
use word_fault::word_fault_text;
pub use word_fault::{faulty_tool, syntax_status, word_fault_message, word_fault_status};
use wrapper_hint::wrapper_hint;
