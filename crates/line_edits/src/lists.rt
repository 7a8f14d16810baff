// Lists of names with one more and with one less: the members and administrators of groups
// (group(5), gshadow(5)).
ghost use Rattle.std.specs.Prelude.{◌≡◌, OnOk};
ghost use Rattle.account_model.specs.Members.{with_name, without_name};

use acct_text::Names;
use std::alloc::{AllocError, Global};

/// Puts the name behind the names, where it isn't among them. At `AllocError` they are as before.
pub(crate) fn add_name(names: &mut Names, name: &[u8]) -> Result<(), AllocError>
    ensures { OnOk result (names.new ≡ with_name name.now names.old) }
{
    if !names.contains(name) {
        names.push(name)?;
    }
    Ok(())
}

/// Takes the name away from the names. At `AllocError` they are as before.
pub(crate) fn remove_name(alloc: Global, names: &mut Names, name: &[u8]) -> Result<(), AllocError>
    ensures { OnOk result (names.new ≡ without_name name.now names.old) }
{
    let mut others = Names::new(alloc);
    for other in names.as_slice() {
        if other.as_slice() != name {
            others.push(other.as_slice())?;
        }
    }
    *names = others;
    Ok(())
}
