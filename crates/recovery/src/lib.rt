//! Carrying out the intent that a session left behind, by typed steps.
//!
//! A state is spent by its one call of the folder and gives the next. What holds of the session in
//! each, by its own events alone, is in specs/Stands:
//!
//! 1. `Keeper<Unknown>`: it keeps the lock, and may know nothing of the intent. [`read_intent`] reads
//!    it. Where none stands, the keeper is clean.
//! 2. [`Recovering`]: an intent stands and reads. Of the tables that it lists, those that were moved
//!    are in place, and the others are left. `stage_next` writes the first piece of the first of these.
//! 3. [`Moving`]: some of its pieces are staged. `append_next` puts the next behind them, and once
//!    none is left `move_next` moves them to their table, and leads back.
//! 4. `Keeper<Clean>`: once no table is left, `remove_intent` removes the intent.
//!
//! Until then the intent stands, so whoever becomes keeper after a death carries it out again. No
//! state knows what stands in the folder, so any events of other sessions may come before the next
//! call.
//!
//! A session carries out the intent of its own commit by the same calls ([`stage_table`],
//! [`append_table`], [`move_table`], [`remove_intent`]), and knows the same of it (specs/Carrying).
#![tactic(auto)]

mod carrying;
mod leading;
mod reading;
mod recovering;

use acct_outside::StageFault;
pub use carrying::{
    append_call, append_table, move_call, move_table, pieces_left, remove_intent, stage_call,
    stage_table,
};
pub use leading::leads;
use lock_steps::{Clean, Keeper, Unknown};
pub use reading::read_intent;
pub use recovering::{Moving, Recovering};

/// What the read of the intent leads to.
#[derive(Drop)]
pub enum IntentSeen {
    /// No intent stands.
    Clean(Keeper<Clean>),
    /// An intent stands, and all of its tables are left to move.
    Listed(Recovering),
}

/// Why the read of the intent didn't lead on.
#[derive(Drop)]
pub enum RecoveryEnd {
    /// The folder failed, or memory ran out. No call of the session is left then but its answer.
    Fault(StageFault),
    /// An intent stands that doesn't read: the first part that doesn't stand, counted from 0 as in
    /// `IntentFault::Part`, and the keeper as it was.
    Damaged(u32, Keeper<Unknown>),
    /// The intent has more than 100,664,320 bytes. The keeper is as it was.
    TooLarge(Keeper<Unknown>),
}
