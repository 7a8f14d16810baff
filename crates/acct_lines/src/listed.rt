// The text of a list of names, with a comma between each two (group(5), gshadow(5)).
ghost use Rattle.std.specs.Prelude.{◌≡◌, IfOk, OnOk};
ghost use Rattle.account_model.specs.Records.{print_names, read_names};
ghost use Rattle.acct_lines.specs.Listed.{listed_behind};

use acct_text::{Bytes, cut_once};
use std::alloc::{AllocError, Global};

/// The canonical text of the list that a text is: empty names are left out.
pub fn listed_text(alloc: Global, text: &[u8]) -> Result<Bytes, AllocError>
    ensures { IfOk result (λ list. list ≡ print_names (read_names text.now)) }
{
    let mut list = Bytes::with_room(alloc, text.len())?;
    let mut rest = text;
    'names: while let Some(cut) = cut_once(b',', rest) {
        push_listed(&mut list, cut.before)?;
        rest = cut.behind;
    }
    push_listed(&mut list, rest)?;
    Ok(list)
}

/// Adds a name behind those of such a text; an empty one is left out. At `AllocError` the text may
/// have a comma more.
pub fn push_listed(list: &mut Bytes, name: &[u8]) -> Result<(), AllocError>
    ensures { OnOk result (list.new ≡ listed_behind list.old name.now) }
{
    if name.is_empty() {
        return Ok(());
    }
    if !list.as_slice().is_empty() {
        list.push(b",")?;
    }
    list.push(name)
}
