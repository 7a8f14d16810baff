//! Tests of the public calls that look up and edit texts, lines, IDs, ranges and tables: what no clause
//! says, with values from the manual pages. A call whose clause says that it gives what a definition
//! says has its values as rows of that definition, in proofs/: of days, settings, words, values of
//! options, IDs, numbers and lines. What the edits of a command make of the tables is told by the
//! transcripts of commands (`transcripts`).
//!
//! The tests stand in a crate of their own, as a crate with tests is proved twice.
#![tactic(auto)]

#[cfg(test)]
mod fault_texts;
#[cfg(test)]
mod ids;
#[cfg(test)]
mod places;
#[cfg(test)]
mod ranges;
#[cfg(test)]
mod records;
#[cfg(test)]
mod table_lines;
#[cfg(test)]
mod tables;
#[cfg(test)]
mod texts;
