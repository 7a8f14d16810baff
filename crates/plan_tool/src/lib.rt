//! What a plan tells in place of a change: the sizes of the tables that would change, a unified diff of
//! them, or one JSON object.
//!
//! `as_plan` turns the decision of a command into that of its plan. `changes` finds the tables that would
//! change. `diff` says what becomes of their lines, for which `line_places` tells where a line may stand;
//! `hunks` prints that, and `json` prints the object, with the records of `records` and the strings of
//! `strings`.
#![tactic(auto)]

mod changes;
mod diff;
mod hunks;
mod json;
mod line_places;
mod planned;
mod records;
mod strings;

pub use account_model::{Fate, PlanForm};
use changes::{PlannedFiles, TableChange, changes};
use diff::{DiffLine, diff_lines};
use hunks::push_diff;
use json::json_told;
use line_places::LinePlaces;
pub use planned::as_plan;
use strings::push_string;
