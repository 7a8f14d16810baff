//! The records of the six account tables: a line read as a record of its table, and a record
//! printed as its canonical line (passwd(5), shadow(5), group(5), gshadow(5), subuid(5),
//! subgid(5)).
//!
//! `TableRecord` is what the five records share. `PasswdLine` and its likes show the record of a line
//! where it stands, without memory. `fields` cuts a line and reads its fields, `parts` prints them,
//! `listed` adds names to the text of a list, and each record has a file of its own, which names its
//! fields once for `walks`. `DaysValue` is what a value says of a field of days.
#![tactic(auto)]

mod days_value;
mod fields;
mod group;
mod gshadow;
mod listed;
mod names;
mod parts;
mod passwd;
mod record;
mod shadow;
mod subid;
mod walks;

pub use account_model::{
    GroupRecord, GshadowRecord, LineFault, PasswdRecord, ShadowRecord, SubidRecord,
};
pub use days_value::DaysValue;
pub use fields::{cut_names, first_field, has_first_field, lists};
pub use group::GroupLine;
pub use gshadow::GshadowLine;
pub use listed::{listed_text, push_listed};
pub use names::{is_digits, is_valid_name};
pub use passwd::PasswdLine;
pub use record::{ReadFault, TableRecord};
pub use shadow::ShadowLine;
pub use subid::SubidLine;
