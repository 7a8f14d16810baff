//! Laws of chosen IDs and ranges. Each is a function that does nothing, and whose contract is the law.
ghost use Rattle.account_model.specs.ChoiceLaws.{IdsAreChosen, RangesAreFound};

/// There is one choice of an ID, and `chosen_id` computes it (useradd(8), groupadd(8)).
pub fn ids_are_chosen()
    ensures { IdsAreChosen }
{}

/// There is one free range for a count of 1 or more, and `free_range` computes its start (subuid(5), subgid(5)).
pub fn ranges_are_found()
    ensures { RangesAreFound }
{}
