//! The six tables that commands carry from one to the next (passwd(5), shadow(5), group(5), gshadow(5),
//! subuid(5), subgid(5)).
//!
//! `CarriedTables` stand in the place of the files, whose bytes are lent to them. Each call takes a pass
//! over these; who asks much of a table has an index made of it: each is a `Table` of the crate `table`,
//! those of users and of groups with the IDs that are used (`id_table`, `kept_ids`), and those of
//! subordinate IDs with the numbers that their ranges take (`range_table`). A tool builds a `Script`, which
//! has for each table the list of its edits; `group_edits` and `user_edits` add edits that several tools
//! make. `CarriedTables::carry_out` refuses where a script touches one of several records of a name, else
//! edits the tables, and tells which may differ (`touched_tables`). In the end those among them that do are
//! taken out.
//!
//! `ids` is what edits do with IDs. A `RangeTable` decides how edits of ranges are made. Without an index
//! `range_edits` makes them in the text: removals of IDs from one owner that follow one another in one pass
//! over the lines, of which `cut_ranges` has what is left of one range; and the removal of all ranges of an
//! owner (`removed_owner`). By an index `edits_in_place` makes them: a range that comes, an owner that gets
//! another name, one whose ranges go, and one whose only range loses an end take no pass over the lines. How
//! the numbers follow an edit is in `range_numbers`.
#![tactic(auto)]

mod carried_tables;
mod cut_ranges;
mod edits_in_place;
mod group_edits;
mod id_table;
mod ids;
mod kept_ids;
mod range_edits;
mod range_numbers;
mod range_table;
mod removed_owner;
mod script;
mod touched_tables;
mod user_edits;

pub use carried_tables::CarriedTables;
pub use id_table::IdTable;
pub use ids::{IdRecord, Renumbering};
pub use kept_ids::IdsInUse;
pub use range_edits::edited_ranges;
pub use range_table::RangeTable;
pub use script::Script;
pub use touched_tables::TouchedTables;
