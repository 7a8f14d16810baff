// Ranges of IDs in the values of options (usermod(8), `-v`, `-V`, `-w` and `-W`).
ghost use Rattle.std.specs.Prelude.{◌≡◌, ◌≤◌, ◌∷◌, [], map, option_map, option_and_then, IfOk, IfSome};
ghost use Rattle.account_model.specs.Records.{greatest_id};
ghost use Rattle.account_model.specs.UsermodRanges.{range_of_ids, range_value, ranges_given};
ghost use Rattle.command_values.specs.Options.{value_at};
ghost use Rattle.command_values.specs.Ranges.{ids_named};

use crate::asked::value_at;
use crate::{Asked, IdRange, read_id};
use account_model::Given;
use acct_text::cut_once;
use std::alloc::{AllocError, Global};

/// The IDs that a text `FIRST-LAST` names; none where it is no such text, or where the first ID
/// passes the last.
pub fn read_range(text: &[u8]) -> Option<IdRange>
    ensures { option_map ids_named result ≡ range_value text.now }
{
    let cut = cut_once(b'-', text)?;
    ids_from(read_id(cut.before), read_id(cut.behind))
}

// The IDs from the first to the last, where both are there and in order.
fn ids_from(first: Option<u32>, last: Option<u32>) -> Option<IdRange>
    requires { IfSome last (λ id. id ≤ greatest_id) }
    ensures { option_map ids_named result ≡ range_of_ids first last }
{
    let first = first?;
    let last = last?;
    if first > last {
        return None;
    }
    Some(IdRange { first, last })
}

impl Asked<'_> {
    /// The IDs that the values of the option name, in the order in which they were given, for an
    /// option of which each counts. A value that names none is left out.
    pub fn ranges(&self, alloc: Global, letter: u8) -> Result<Vec<IdRange>, AllocError>
        ensures { IfOk result (λ ranges.
            map ids_named ranges.items ≡ ranges_given (letter ∷ []) self.now) }
    {
        let mut ranges = Vec::new(alloc);
        for option in self.options() {
            if let Some(ids) = range_at(option, letter) {
                ranges.push(ids)?;
            }
        }
        Ok(ranges)
    }
}

// The IDs that the value of an option names, where it has the letter.
fn range_at(option: &Given, letter: u8) -> Option<IdRange>
    ensures { option_map ids_named result
        ≡ option_and_then range_value (value_at letter option.now) }
{
    read_range(value_at(option, letter)?)
}
