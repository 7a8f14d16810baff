// The fields that a record prints, each added behind those of its line so far.
ghost use Rattle.std.specs.Prelude.{◌≡◌, ◌++◌, [], ◌∷◌, OnOk};
ghost use Rattle.std.specs.Fmt.{decimal};
ghost use Rattle.acct_text.specs.Bytes.{colon};
ghost use Rattle.account_model.specs.Records.{print_days, print_names};

use acct_text::{Bytes, Names, Piece, join};
use std::alloc::{AllocError, Global};

/// Adds a number in decimal.
pub(crate) fn push_number(alloc: Global, line: &mut Names, number: u32) -> Result<(), AllocError>
    ensures { OnOk result (line.new ≡ line.old ++ decimal number ∷ []) }
{
    let text = Bytes::made_of(alloc, &[Piece::Number(u64::from(number))])?;
    line.push(text.as_slice())
}

/// Adds a number of days; an empty field where there is none (shadow(5)).
pub(crate) fn push_days(
    alloc: Global,
    line: &mut Names,
    days: Option<u32>,
) -> Result<(), AllocError>
    ensures { OnOk result (line.new ≡ line.old ++ print_days days ∷ []) }
{
    match days {
        Some(days) => push_number(alloc, line, days),
        None => line.push(b""),
    }
}

/// Adds a list of names, with a comma between each two.
pub(crate) fn push_names(alloc: Global, line: &mut Names, names: &Names) -> Result<(), AllocError>
    ensures { OnOk result (line.new ≡ line.old ++ print_names names.now ∷ []) }
{
    let text = join(alloc, b',', names)?;
    line.push(text.as_slice())
}

/// Adds a field behind those of a line, with the colon between.
pub(crate) fn push_field(line: &mut Bytes, field: &[u8]) -> Result<(), AllocError>
    ensures { OnOk result (line.new ≡ line.old ++ colon ∷ field.now) }
{
    line.push(b":")?;
    line.push(field)
}
