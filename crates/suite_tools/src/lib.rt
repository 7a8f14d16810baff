//! What a command decides, a batch of commands too: all tools behind one call, below the session.
//!
//! `decide` opens the six tables with the indices that pay (`opening`), and asks the tool (`answer`, the
//! one match over all tools). A tool answers with the script of its edits and what it prints, or refuses.
//! The script is carried out on the tables, and those that differ then are the change (`change`). A
//! report decides by itself, from whole tables. A batch is carried out line by line (`lines`), each of
//! which asks its tool and edits (`carry`) what those before it have written (`written`).
#![tactic(auto)]

mod answer;
mod carry;
mod change;
mod dispatch;
mod lines;
mod opening;
mod written;

pub use dispatch::decide;
pub use tool_answers::{Decision, Output};
