//! A table that commands carry from one to the next, what is found in it, and edits of it (passwd(5),
//! shadow(5), group(5), gshadow(5), subuid(5), subgid(5)).
//!
//! A `Table` is the lines of its file in their places, of which every call takes a pass, until an index is
//! asked for or edits are many (`many`). The index tells for a key the places where records may have it
//! (`gathering`). A look-up or an edit reads the texts in the places of its key (`reached_places`), one
//! after another (`texts_there`): they are few, and no other text is a record with the key. `keyed_cells`
//! looks up by names and tests (`named_texts`), `cell_edits` puts new texts (`new_texts`), and `multiple`
//! finds, edit by edit (`first_met`), the first record that edits touch and whose name has several, and where
//! the only edit is made, so that it needn't be looked for again. Edits
//! that do the same as one of the last (`last_edits`) are passed by.
//!
//! Where there is no index, edits go to the places of lines that have marks of them, and the lines are made
//! anew after each that may change one; with an index they are made anew now and then.
//!
//! Each record has the key of its own name; a user has the GID of the primary group for a key too, and a
//! group each name in its lists (`keys`, `list_keys`, `key_names`). `KeyPlaces` of acct_tables tells for a
//! key where records may have it.
//!
//! `search` finds the first record of a file that passes a test.
#![tactic(auto)]

mod cell_edits;
mod first_met;
mod gathering;
mod key_names;
mod keyed_cells;
mod keys;
mod last_edits;
mod list_keys;
mod many;
mod multiple;
mod named_texts;
mod new_texts;
mod reached_places;
mod search;
mod table;
mod texts_there;

pub use keys::KeyedRecord;
pub use search::{OfGid, RecordTest};
pub use table::{Checked, Table, edited_text};
