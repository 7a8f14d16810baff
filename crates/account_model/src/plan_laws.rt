//! Laws of plans. Each is a function that does nothing, and whose contract is the law.
ghost use Rattle.account_model.specs.PlanLaws.{PlansAnswerAlike, PlansHaveNoDeed};

/// A plan has the status and the message of its command on the same files, and its cause but for a
/// change: where the command changes the tables, the plan leaves them the same.
pub fn plans_answer_alike()
    ensures { PlansAnswerAlike }
{}

/// A plan has no deed.
pub fn plans_have_no_deed()
    ensures { PlansHaveNoDeed }
{}
