// Sessions in one folder in memory that are turned in alternation.
ghost use Rattle.std.specs.Prelude.{◌≡◌, ◌<◌, None, IsSome, is_none, ◌||◌};
ghost use Rattle.memory_folder.specs.Memory.{moment_of, past_of};
ghost use Rattle.suite_session.specs.Belongs.{Belongs};
ghost use Rattle.suite_session.specs.Session.{answer_of, outcome_of, phase_left};
ghost use Rattle.rehearsal.specs.Alone.{IsLawful};
ghost use Rattle.rehearsal.specs.Together.{BelongTogether, HasPromised, IsFoldOfCommitted, StayTogether};

use memory_folder::MemoryFolder;
use suite_core::{Session, answers_keep_promises};

/// Makes one call of a session. Each other session that belongs to the folder together with it does so
/// still.
pub fn turn_once(session: &mut Session, folder: &mut MemoryFolder)
    requires lawful { IsLawful (past_of folder.old) }
    requires belongs { Belongs (moment_of folder.old) session.old }
    ensures together { StayTogether folder.old folder.new session.old session.new }
    ensures nearer { answer_of session.old ≡ None → phase_left session.new < phase_left session.old }
    ensures ends { IsSome (answer_of session.old) → IsSome (outcome_of session.new) }
{
    session.turn(folder);
}

/// Turns two sessions in alternation, call by call, until both have answered.
///
/// Then the settled files are those of the folder's first moment as the committed commands changed
/// them, in the order of their locks. Each session has what the top call promises of its answer, also
/// the one that answered long before the other.
pub fn turn_both(one: &mut Session, other: &mut Session, folder: &mut MemoryFolder)
    requires { BelongTogether folder.old one.old other.old }
    ensures together { BelongTogether folder.new one.new other.new }
    ensures one_answered { IsSome (outcome_of one.new) }
    ensures other_answered { IsSome (outcome_of other.new) }
    ensures settled { IsFoldOfCommitted (past_of folder.new) }
    ensures one_promised { HasPromised (past_of folder.new) one.new }
    ensures other_promised { HasPromised (past_of folder.new) other.new }
{
    answers_keep_promises::<MemoryFolder>();
    'turns: while is_any_going(one, other) {
        turn_once(one, folder);
        turn_once(other, folder);
    }
    turn_once(one, folder);
    turn_once(other, folder);
}

// Whether one of them has calls left before that of its answer.
fn is_any_going(one: &Session, other: &Session) -> bool
    ensures { result ≡ (is_none (answer_of one.now) || is_none (answer_of other.now)) }
{
    one.is_going() || other.is_going()
}
