// The choice of an ID from a range: the next to those that are used, or one between them
// (useradd(8), groupadd(8), login.defs(5)).
ghost use Rattle.std.specs.Prelude.{◌≤◌};
ghost use Rattle.account_model.specs.Ids.{FreeIn, IsChosenId, RegularChoice, SystemChoice, UsedIn};
ghost use Rattle.id_choice.specs.Used.{FindsGreatest, FindsLeast};

use crate::Runs;
use account_model::Kind;

/// The choice from a range that may be empty, among the IDs that aren't used.
pub(crate) fn chosen_id(used: &Runs, range: Option<(u32, u32)>, kind: Kind) -> Option<u32>
    ensures { IsChosenId kind range used.now result }
{
    let (low, high) = range?;
    if high < low {
        return None;
    }
    match kind {
        Kind::Regular => regular_id(used, low, high),
        Kind::System => system_id(used, low, high),
    }
}

// The choice from a regular range.
fn regular_id(used: &Runs, low: u32, high: u32) -> Option<u32>
    requires { low ≤ high }
    ensures { RegularChoice low high used.now result }
{
    match greatest_used(used, low, high) {
        None => Some(low),
        Some(id) if id < high => Some(id + 1),
        Some(_) => least_free(used, low, high),
    }
}

// The choice from a system range.
fn system_id(used: &Runs, low: u32, high: u32) -> Option<u32>
    requires { low ≤ high }
    ensures { SystemChoice low high used.now result }
{
    match least_used(used, low, high) {
        None => Some(high),
        Some(id) if low < id => Some(id - 1),
        Some(_) => greatest_free(used, low, high),
    }
}

// The greatest used ID of the range.
fn greatest_used(used: &Runs, low: u32, high: u32) -> Option<u32>
    requires { low ≤ high }
    ensures { FindsGreatest (UsedIn low high used.now) result }
{
    match used.last_up_to(high) {
        Some(run) if low <= run.last => Some(run.last.min(high)),
        _ => None,
    }
}

// The least used ID of the range.
fn least_used(used: &Runs, low: u32, high: u32) -> Option<u32>
    requires { low ≤ high }
    ensures { FindsLeast (UsedIn low high used.now) result }
{
    match used.first_from(low) {
        Some(run) if run.first <= high => Some(run.first.max(low)),
        _ => None,
    }
}

// The least ID of the range that isn't used: its first, or the one behind the run that holds it.
fn least_free(used: &Runs, low: u32, high: u32) -> Option<u32>
    requires { low ≤ high }
    ensures { FindsLeast (FreeIn low high used.now) result }
{
    match used.last_up_to(low) {
        Some(run) if high <= run.last => None,
        Some(run) if low <= run.last => Some(run.last + 1),
        _ => Some(low),
    }
}

// The greatest ID of the range that isn't used: its last, or the one before the run that holds it.
fn greatest_free(used: &Runs, low: u32, high: u32) -> Option<u32>
    requires { low ≤ high }
    ensures { FindsGreatest (FreeIn low high used.now) result }
{
    match used.first_from(high) {
        Some(run) if run.first <= low => None,
        Some(run) if run.first <= high => Some(run.first - 1),
        _ => Some(high),
    }
}
