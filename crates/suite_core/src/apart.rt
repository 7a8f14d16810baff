// Laws over definitions alone: IDs stay apart and untouched lines stay, whichever commands run side by
// side.
ghost use Rattle.suite_core.specs.Apart.{IdsStayApart, NoNewHolders};
ghost use Rattle.suite_core.specs.Untouched.{UntouchedLinesStay};

use account_model::deeds_leave_untouched;
use ids_apart::{deeds_add_no_holders, deeds_keep_ids_apart};
use suite_rules::lawful_settles;

/// No ID that has a holder gets another: two users with one UID, two groups with one GID and two owners
/// of one subordinate ID had it in the first settled files, unless a committed command or a line of a
/// batch names the UID or the GID with `-o`. So where these had none in common, two owners never get
/// one subordinate ID, and without `-o` two users never get one UID and two groups never one GID.
///
/// It holds after each front of the committed commands of any history, and so of the settled files
/// of every lawful one.
pub fn ids_stay_apart()
    ensures meetings { NoNewHolders }
    ensures apart { IdsStayApart }
{
    deeds_add_no_holders();
    deeds_keep_ids_apart();
    lawful_settles();
}

/// The committed commands make of the first settled files what their edits make, one command after
/// another, and a line that none of these touches stays byte for byte, so each line that no committed
/// command names; in its order too, unless a committed command sorts (pwck(8) and grpck(8), `-s`).
///
/// It holds after each front of the committed commands of any history, and so of the settled files
/// of every lawful one, where the commands were asked on days that shadow(5) holds.
pub fn untouched_lines_stay()
    ensures { UntouchedLinesStay }
{
    deeds_leave_untouched();
    lawful_settles();
}
