// The states of a session that has begun, in the order in which they follow. Each names the call of
// the folder that it makes next; a step out of order can't be written.
//
// 1. Judging the greatest lock: `Looking`, `Reading`, `Asking`. A report goes on at 7.
// 2. Taking a lock: `Claiming`, `Confirming`, and `Withdrawing` where a greater lock outran the own one.
// 3. Carrying out an intent that another session left: `ReadingIntent`, `Recovering`, `Moving`.
// 4. Loading the files: `Loading`. After the last read the tool decides.
// 5. Committing a change: `BackingUp`, `Committing`, `Installing`.
// 6. Freeing the lock: `Unlocking`, `Freeing`. It goes on at 8.
// 7. Reading without a lock: `Watching`, `Gathering`. After the last listing the tool decides.
// 8. Answering.

use commit_steps::{Backing, Installing, IntentStaged, Loader};
use lock_steps::{
    Asking, Claimed, Freeing, Judged, Keeper, Looking, Loser, Reading, Seen, Unknown, Watcher,
};
use recovery::{Moving, Recovering};
use suite_answers::Answer;

/// What a session does next.
#[derive(Drop)]
pub(crate) enum State {
    /// It lists the locks.
    Looking(Looking),
    /// It reads the greatest lock.
    Reading(Seen),
    /// It asks whether the session that holds the greatest lock still runs.
    Asking(Asking),
    /// It creates a lock of its own.
    Claiming(Judged),
    /// It lists the locks again.
    Confirming(Claimed),
    /// It removes its own lock, which was outrun.
    Withdrawing(Loser),
    /// It reads the intent.
    ReadingIntent(Keeper<Unknown>),
    /// It stages the first piece of a table that the intent lists, or removes the intent once none is
    /// left.
    Recovering(Recovering),
    /// It appends a further piece of that table, or moves it to its place once all are staged.
    Moving(Moving),
    /// It reads the next table, or login.defs. Once all are read, the tool decides.
    Loading(Loader),
    /// It stages a piece of the next backup or moves it, or stages the intent once all are moved.
    BackingUp(Backing, Answer),
    /// It appends a further piece of the intent, or moves it to its name: the commit.
    Committing(IntentStaged, Answer),
    /// It stages a piece of the next table or moves it, or removes the intent once all are moved.
    Installing(Installing, Answer),
    /// It removes a lower lock, or stages the free text once none is left.
    Unlocking(Keeper<Unknown>, Answer),
    /// It moves the free text to its lock.
    Freeing(Freeing, Answer),
    /// A report, it reads the intent.
    Watching(Watcher),
    /// A report, it reads the next file, or lists the locks again once none is left.
    Gathering(Reading),
    /// It answers: no other call is left.
    Answering(Answer),
}
