//! What the account suite means, for code and definitions: the lines of the six tables and what edits
//! make of them (`specs/Records`, `specs/Edits`), what a command is told (`specs/Words`,
//! `specs/Options`), what each tool does, a file beside its manual page, and a batch of commands
//! (`specs/Batch`), and the answer of a command on given files (`specs/Answer`). `src/` has the data
//! that code and definitions share. Each law is a function that does nothing, and whose contract is
//! the law.
#![tactic(auto)]

mod chfn_laws;
mod choice_laws;
mod conversion_laws;
mod date_laws;
mod deed_lines;
mod diff_laws;
mod fate;
mod fault;
mod given;
mod hashes_of;
mod laws;
mod line_laws;
mod line_place;
mod new_user;
mod option_form;
mod passwd_laws;
mod plan_form;
mod plan_laws;
mod records;
mod refusal;
mod renaming_laws;
mod row;
mod rows;
mod settings;
mod subid_laws;
mod tool;
mod tool_statuses;
mod value_form;
mod word_fault;
mod word_laws;
mod words_of;

pub use chfn_laws::chfn_keeps_parts;
pub use choice_laws::{ids_are_chosen, ranges_are_found};
pub use conversion_laws::{conversion_keeps_groups, conversion_keeps_users};
pub use date_laws::{days_are_counted, days_have_dates};
pub use deed_lines::{deeds_leave_unnamed, deeds_leave_untouched};
pub use diff_laws::diffs_are_exact;
pub use fate::Fate;
pub use fault::LineFault;
pub use given::Given;
pub use hashes_of::HashesOf;
pub use laws::{deeds_are_changes, done_lines_stay, reports_are_whole, tools_are_written};
pub use line_laws::{
    faults_are_found, no_edits_no_change, other_text_stays, records_are_found, records_read_back,
    tables_are_edited, touched_lines_are_met, untouched_lines_stay,
};
pub use line_place::LinePlace;
pub use new_user::{Allotment, Plan};
pub use option_form::{OptionForm, Rule, Test};
pub use passwd_laws::lock_then_unlock;
pub use plan_form::PlanForm;
pub use plan_laws::{plans_answer_alike, plans_have_no_deed};
pub use records::{
    GREATEST_DAYS, GREATEST_ID, GroupRecord, GshadowRecord, PasswdRecord, ShadowRecord, SubidRecord,
};
pub use refusal::{LineProblem, Refusal};
pub use renaming_laws::lists_are_renamed;
pub use row::{Done, InputKind, Reporting, ToolRow};
pub use settings::{IdSort, Key, Kind};
pub use subid_laws::ranges_are_cut;
pub use tool::Tool;
pub use tool_statuses::{
    BAD_ARGUMENT, BAD_USAGE, GENERAL_FAILURE, PRIMARY_OF_USER, ToolStatuses, USED_ID, USED_NAME,
};
pub use value_form::{KEY_FORM, NAME_FORM};
pub use word_fault::WordFault;
pub use word_laws::{commands_have_one_reading, lines_read_back, words_have_one_reading};
pub use words_of::WordsOf;
