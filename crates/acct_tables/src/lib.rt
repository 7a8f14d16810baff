//! The lines of an account file, of which some are records, and how these are found (passwd(5),
//! shadow(5), group(5), gshadow(5), subuid(5), subgid(5)).
//!
//! `Lines` takes the lines of a large file one after another where they stand in its bytes, and passes
//! over those without a mark at once. `NameIndex` tells of all names of a file after one pass,
//! and `listed_ids` gathers the IDs of its records.
//!
//! `LineFile` has the lines of a file in places while edits change them. The place of a line is the offset
//! of its first byte in the file, and a line stays where it is in the file's bytes (`FileText`) until other
//! texts are put into its place: one, none or several (`file`, `cell`, `patch`). A line that is added has a
//! place behind the file. So what is done at a place takes no pass over the lines, and what stands between
//! the places that texts were put into is copied at once (`text_between`).
//!
//! `KeyPlaces` tells for a key, a number, in which places records may have it (`key_places`), by lists of
//! places that grow from one another (`place_lists`).
#![tactic(auto)]

mod cell;
mod cell_bytes;
mod cells;
mod file;
mod file_text;
mod ids;
mod key_places;
mod line;
mod line_at;
mod lines;
mod list_record;
mod marked;
mod marks;
mod name_hashes;
mod name_index;
mod name_search;
mod owner;
mod patch;
mod place_lists;
mod renaming;
mod text_between;

pub use acct_lines::TableRecord;
pub use cell::{Cell, Texts};
pub use cells::Cells;
pub use file::LineFile;
pub use file_text::FileText;
pub use ids::{NumberedRecord, listed_ids};
pub use key_places::{KeyPlaces, Spot};
pub use line::{is_named, is_record, name_of, read_record};
pub use lines::{
    FileLine, Lines, append_line, find_record, has_record, has_several_records, text_of,
};
pub use list_record::ListRecord;
pub use marks::{Marks, from_mark, from_marks};
pub use name_hashes::name_hash;
pub use name_index::{MANY, NameIndex, NamedLines};
pub use owner::{is_owned, is_owner, last_id};
pub use place_lists::ListedPlaces;
