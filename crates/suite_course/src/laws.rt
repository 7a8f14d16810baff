// Laws over definitions alone: the tools have deeds, and what holds of each session with an answer.
ghost use Rattle.suite_rules.specs.Deeds.{SuiteDeeds};
ghost use Rattle.suite_session.specs.Deeds.{AreOfTools};
ghost use Rattle.suite_course.specs.Turned.{AnswersKeepPromises};

use account_model::deeds_are_changes;
use acct_outside::Folder;

/// The tools have deeds: their new files are changes. So the laws of histories hold for them.
pub fn tools_have_deeds()
    ensures { (deeds : SuiteDeeds) × AreOfTools deeds }
{
    deeds_are_changes();
}

/// A session that belongs to a folder and has its answer to give, or gave it, has what the top call
/// promises: the settled files, what its cause says, that a report changes no name and a plan answers by
/// what its command answers, and where it was alone what it leaves and that its answer is its tool's.
///
/// A session that is turned call by call belongs to its folder, in whatever order and however long ago
/// it answered, by the clauses of `Session::turn`.
pub fn answers_keep_promises<F: Folder>()
    ensures { AnswersKeepPromises F.moment }
{}
