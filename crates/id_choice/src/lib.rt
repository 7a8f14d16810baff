//! Which ID a new user or group gets (useradd(8), groupadd(8), login.defs(5)).
//!
//! A command makes `UsedIds` of the IDs of passwd(5) or group(5), and then asks for one that isn't
//! used: the one that it prefers, or else the choice from a range of login.defs(5). The IDs are
//! kept as `Runs` of those that follow one another, so a choice looks at the run beside an end of
//! the range, however many are used. A list in any order is sorted before it becomes runs.
#![tactic(auto)]

mod choice;
mod runs;
mod used;

pub use account_model::Kind;
pub use runs::{Run, Runs};
pub use used::UsedIds;
