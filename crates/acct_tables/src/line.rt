// What a line of a table is: a record, or other text.
ghost use Rattle.std.specs.Prelude.{◌≡◌, is_some, option_map, IfOk, IfSome};
ghost use Rattle.std.specs.Option.{option_copied};
ghost use Rattle.acct_text.specs.Bytes.{newline};
ghost use Rattle.acct_text.specs.Pieces.{Lacks};
ghost use Rattle.account_model.specs.Written.{IsWritten};
ghost use Rattle.acct_tables.specs.TableLines.{text_is_named};

use acct_lines::{ReadFault, TableRecord, first_field, has_first_field};
use std::alloc::{AllocError, Global};

/// The record that a line is; none where it is other text.
pub fn read_record<R: TableRecord>(alloc: Global, line: &[u8]) -> Result<Option<R>, AllocError>
    ensures found { IfOk result (λ found. found ≡ R.format.read line.now) }
    ensures written { Lacks newline line.now
        → IfOk result (λ found. IfSome found (IsWritten R.format)) }
{
    match R::read(alloc, line) {
        Ok(found) => Ok(Some(found)),
        Err(ReadFault::Line(_)) => Ok(None),
        Err(ReadFault::Memory) => Err(AllocError),
    }
}

/// Whether the line is a record. It takes no memory.
pub fn is_record<R: TableRecord>(line: &[u8]) -> bool
    ensures { result ≡ is_some (R.format.read line.now) }
{
    R::fault(line).is_none()
}

/// The name of the record that the line is; none where it is other text. It takes no memory.
pub fn name_of<R: TableRecord>(line: &[u8]) -> Option<&[u8]>
    ensures { option_copied result ≡ option_map R.format.name (R.format.read line.now) }
{
    if !is_record::<R>(line) {
        return None;
    }
    Some(first_field(line))
}

/// Whether the line is a record of the name. It takes no memory.
pub fn is_named<R: TableRecord>(line: &[u8], name: &[u8]) -> bool
    ensures { result ≡ text_is_named R.format name.now line.now }
{
    has_first_field(line, name) && is_record::<R>(line)
}
