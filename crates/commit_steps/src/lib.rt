//! The commit of a keeper that knows of no intent, by typed steps.
//!
//! A state is spent by its one call of the folder and gives the next. What holds of the session in
//! each, by its own events alone, is in specs/Stands:
//!
//! 1. [`Loader`]: it has read the tables before the next. `load_next` reads one, in the order passwd,
//!    shadow, group, gshadow, subuid, subgid, and then login.defs.
//! 2. [`Loaded`]: all seven are read. `prepare` makes the intent of the new files.
//! 3. [`Backing`]: `go_on` stages and moves the old bytes of each table that differs, and then stages the
//!    intent's first piece.
//! 4. [`IntentStaged`]: `append_intent` stages a further piece, and `commit` moves the intent to its name. From then on the change stands.
//! 5. [`Installing`]: `go_on` stages and moves the new bytes of each table that differs, and then removes
//!    the intent: the keeper is clean again.
//!
//! Before the commit a death leaves the old tables; after it whoever becomes keeper next carries the
//! intent out. No state knows what stands in the folder, so any events of other sessions may come
//! before the next call. What a step writes after the commit is made before it.
#![tactic(auto)]

mod backing;
mod committing;
mod installing;
mod leads;
mod prepared;
mod reading;
mod walking;

use acct_outside::{Name, StageFault};
use acct_text::Tab;
pub use backing::Backing;
pub use committing::IntentStaged;
pub use installing::Installing;
use lock_steps::{Clean, Keeper};
pub use reading::{Loaded, Loader};
pub use walking::Walked;

/// What a read of the inputs leads to.
#[derive(Drop)]
pub enum Loading {
    /// More is to be read.
    More(Loader),
    /// The six tables and login.defs are read.
    Done(Loaded),
}

/// Why a read of the inputs didn't lead on.
#[derive(Drop)]
pub enum LoadEnd {
    /// The folder failed, or the read found no memory. No call of the session is left then but its
    /// answer.
    Fault(StageFault),
    /// What stands at the name has more than 16,777,216 bytes. The keeper is as it was.
    TooLarge(Name, Keeper<Clean>),
    /// The table, passwd or group, is absent. The keeper is as it was.
    NoTable(Tab, Keeper<Clean>),
}
