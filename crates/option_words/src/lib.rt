//! What the words of a command ask for (getopt_long(3), and the manual page of each tool), and the
//! words of a line of a batch.
//!
//! `read_words` takes the words behind `plan` where they begin with that (`plan`). It keeps the limits
//! of words, finds the tool and reads the other words from left to right (`reading`), each by what it
//! is (`meaning`) and by the tool's table of options (`forms`).
//! Then it tests the prefix, the number of operands and the tool's rules (`rules`).
//! `read_line_words` does the same for the words that `split_line` cuts from a line (`splitting`), and
//! `BatchLines` gives what the lines of a batch ask for, one after another (`batch`).
#![tactic(auto)]

mod batch;
mod forms;
mod meaning;
mod parsed;
mod plan;
mod reading;
mod report;
mod rules;
mod splitting;
mod words;

pub use account_model::{Given, PlanForm, Tool, WordFault};
pub use batch::{BatchLine, BatchLines, FaultyLine, LineRequest, first_faulty};
pub use parsed::{Options, Parsed};
pub use plan::{command_words, plan_of};
pub use splitting::{ends_in_return, split_line};
pub use words::{read_line_words, read_words};
