// A user renamed in a list of names (usermod(8), `-l`).
ghost use Rattle.std.specs.Prelude.{◌≡◌, bytes_eq, IfOk, OnOk};
ghost use Rattle.account_model.specs.Members.{name_once, in_place_of, renamed_in};
ghost use Rattle.acct_tables.specs.Renaming.{renamed_name};

use acct_text::Names;
use std::alloc::{AllocError, Global};

/// Puts the new name in the place of the old one, and once. Where the old one is the same, or isn't
/// among the names, they stay.
pub(crate) fn rename_in(
    alloc: Global,
    names: &mut Names,
    old: &[u8],
    new: &[u8],
) -> Result<(), AllocError>
    ensures { OnOk result (names.new ≡ renamed_in old.now new.now names.old) }
{
    if old != new && names.contains(old) {
        *names = put_in_place(alloc, names, old, new)?;
    }
    Ok(())
}

// The names with the new one in the place of the old one; of the new one the first stays.
fn put_in_place(alloc: Global, names: &Names, old: &[u8], new: &[u8]) -> Result<Names, AllocError>
    ensures { IfOk result (λ renamed. renamed ≡
        name_once new.now (in_place_of old.now new.now names.now)) }
{
    let mut renamed = Names::new(alloc);
    let mut stands = false;
    for name in names.as_slice() {
        if !becomes_new(name.as_slice(), old, new) {
            renamed.push(name.as_slice())?;
        } else if !stands {
            renamed.push(new)?;
            stands = true;
        }
    }
    Ok(renamed)
}

// Whether the name is the new one after the renaming.
fn becomes_new(name: &[u8], old: &[u8], new: &[u8]) -> bool
    ensures { result ≡ bytes_eq (renamed_name old.now new.now name.now) new.now }
{
    name == old || name == new
}
