//! What a command reads from its options (the manual page of each tool).
//!
//! `Asked` keeps what was asked for. Its values are tested by `Form`, its `-K` words become
//! settings, and a list of names is cut by `list_value`. What refuses answers `ToolFault`.
#![tactic(auto)]

mod asked;
mod checks;
mod days;
mod form;
mod id_range;
mod lists;
mod ranges;
mod row_law;
mod settings;

pub use asked::Asked;
pub use checks::{check_list_name, check_name};
pub use days::{read_date, read_days, read_expiration};
pub use form::{Form, has_byte, read_id};
pub use id_range::IdRange;
pub use lists::list_value;
pub use ranges::read_range;
pub use row_law::requests_keep_their_row;
pub use settings::free_id;
pub use tool_answers::ToolFault;
