// Whose a range of subordinate IDs is, and where it ends (subuid(5), subgid(5)).
ghost use Rattle.std.specs.Prelude.{◌≡◌, ◌≤◌, bytes_eq};
ghost use Rattle.std.specs.Fmt.{decimal};
ghost use Rattle.account_model.specs.Records.{greatest_id, last_id, subid_format};
ghost use Rattle.account_model.specs.declared.records.SubidRecord.{SubidRecord};
ghost use Rattle.account_model.specs.SubidOwner.{is_owned};
ghost use Rattle.account_model.specs.Written.{IsWritten};

use acct_lines::{SubidRecord, TableRecord};
use itoa::Buffer;

/// The last ID of a range.
pub fn last_id(range: &SubidRecord) -> u32
    requires { IsWritten subid_format range.now }
    ensures is { result ≡ last_id range.now }
    ensures small { result ≤ greatest_id }
{
    range.first + (range.count - 1)
}

/// Whether the owner of a range is the name, or the decimal text of the UID.
pub fn is_owned(range: &SubidRecord, name: &[u8], uid: Option<u32>) -> bool
    ensures { result ≡ is_owned name.now uid range.now }
{
    is_owner(range.name(), name, uid)
}

/// Whether an owner, as a range has it, is the name, or the decimal text of the UID.
pub fn is_owner(owner: &[u8], name: &[u8], uid: Option<u32>) -> bool
    ensures { (r : SubidRecord) → r.owner ≡ owner.now → result ≡ is_owned name.now uid r }
{
    owner == name
        || match uid {
            Some(uid) => is_decimal(owner, uid),
            None => false,
        }
}

// Whether the text is the decimal text of the number.
fn is_decimal(text: &[u8], number: u32) -> bool
    ensures { result ≡ bytes_eq text.now (decimal number) }
{
    let mut buffer = Buffer::new();
    text == buffer.format(number).as_bytes()
}
