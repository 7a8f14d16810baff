// Lists of names (gpasswd(1), `-M` and `-A`; useradd(8), `-G`).
ghost use Rattle.std.specs.Prelude.{◌≡◌, IfOk};
ghost use Rattle.account_model.specs.Text.{distinct as without_repeats};
ghost use Rattle.account_model.specs.Values.{list_value as names_of_list};

use acct_lines::cut_names;
use acct_text::{Bytes, Names};
use std::alloc::{AllocError, Global};

/// The names between the commas of a text. Empty ones are left out, and of equal ones the first is
/// kept.
pub fn list_value(alloc: Global, text: &[u8]) -> Result<Names, AllocError>
    ensures { IfOk result (λ names. names ≡ names_of_list text.now) }
{
    let names = cut_names(alloc, text)?;
    distinct(alloc, names.as_slice())
}

// The names, of equal ones the first alone.
fn distinct(alloc: Global, names: &[Bytes]) -> Result<Names, AllocError>
    ensures { IfOk result (λ kept. kept ≡ without_repeats names.now) }
{
    let mut kept = Names::new(alloc);
    for name in names {
        if !kept.contains(name.as_slice()) {
            kept.push(name.as_slice())?;
        }
    }
    Ok(kept)
}
