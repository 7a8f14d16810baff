//! The rules under which sessions share the folder of the account files, and what they keep.
//!
//! A history is the list of all calls of all sessions. specs/Standing says what a session's own
//! events tell, specs/Rules which calls it may make next, specs/Lawful which histories keep the
//! rules. The laws below hold for every lawful history: commands run side by side, and may die at
//! any call.
#![tactic(auto)]

ghost use Rattle.suite_rules.specs.Deeds.{SuiteDeeds};
ghost use Rattle.suite_rules.specs.Invariant.{InvariantHolds};
ghost use Rattle.suite_rules.specs.Laws.{CommittedOnce, LawfulCut, LawfulSettles, OneKeeper, OwnStanding, PlacesStay, ReportsHold};

/// What a suite of tools does to the six account files.
///
/// A type that carries lawful histories takes its tools by this trait, so that the laws below speak
/// of their deeds.
pub trait Deeds {
    /// The new files of each command on given files, and whether its answer there has status 0
    /// without a change.
    ghost deeds: { SuiteDeeds };
}

/// A prefix of a lawful history is lawful, and a call that is lawful as done is lawful as failed or
/// died: so a session may die at each call.
pub fn lawful_cut()
    ensures { LawfulCut }
{}

/// The events of other sessions leave the life and the standing of a session as they are.
pub fn own_standing()
    ensures { OwnStanding }
{}

/// The greatest lock number never falls, at most one running session is keeper, and no number is
/// kept by two sessions.
pub fn one_keeper()
    ensures { OneKeeper }
{}

/// The settled files are the first ones as changed by the committed commands in the order of their
/// locks, a keeper that knows of no intent has seen them, and each backup is its table just before
/// its last change.
pub fn lawful_settles()
    ensures { LawfulSettles }
{}

/// Later commitments leave the place of a session, and what it has seen is the fold of its place,
/// also after it freed its lock.
pub fn places_stay()
    ensures { PlacesStay }
{}

/// What a session without a lock has found between two listings with the same greatest lock, which it
/// had judged, is what was committed under that lock's number and lower ones; that stays so.
pub fn reports_hold()
    ensures { ReportsHold }
{}

/// A session commits at most once, and has committed what it was asked once its commit was done.
pub fn committed_once()
    ensures { CommittedOnce }
{}

/// What stands in the folder of every lawful history: its locks, those of running sessions, what
/// the keeper knows, what sessions without a lock have found, the fold and the backups.
pub fn invariant()
    ensures { InvariantHolds }
{}
