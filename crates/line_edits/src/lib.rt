//! What edits make of the records of one table (passwd(5), shadow(5), group(5), gshadow(5), subuid(5),
//! subgid(5)).
//!
//! `edit` has the edits of a table as data, and what a record has so that they can be made of it;
//! `group_changes` and its like what becomes of a record, and `joined_texts` what becomes of a group's
//! line by its parts alone. `touching` tells whether an edit touches the record of a line. `line_changes`
//! makes a change in the text of a file.
#![tactic(auto)]

mod edit;
mod fields;
mod group_changes;
mod gshadow_changes;
mod hash_change;
mod joined_texts;
mod line_changes;
mod lists;
mod memberships;
mod name_set;
mod passwd_changes;
mod primary_group;
mod shadow_changes;
mod subid_changes;
mod touching;

pub use edit::{Becoming, ChangedNames, Edit, EditedRecord, Rewritten};
pub use group_changes::{GroupAct, GroupChange};
pub use gshadow_changes::{GshadowAct, GshadowChange};
pub use hash_change::HashChange;
pub use line_changes::changed_text;
pub use memberships::{Membership, UserGroups};
pub use name_set::NameSet;
pub use passwd_changes::{PasswdAct, PasswdChange, UserFields};
pub use primary_group::PrimaryGroup;
pub use shadow_changes::{DaysChange, ShadowAct, ShadowChange, ShadowFields};
pub use subid_changes::{RangeCut, SubidChange};
pub use touching::{are_same, leaves, touches};
