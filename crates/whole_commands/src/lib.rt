//! Whole commands over a folder in memory, as transcripts and tests play them: what each tells, and
//! what it leaves in the files. Commands that are run here are shown by `transcripts`.
#![tactic(auto)]

mod beside;
mod images;
mod play;
mod transcript;

pub use beside::{Asked, TO_END, die_after, push_turns, sessions_of};
pub use images::{Contents, IMAGE, put, sound_folder, with_file};
pub use play::{Failing, Streams, run, text_at, words_of};
pub use transcript::{push_done, push_done_beside};
