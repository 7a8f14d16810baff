// A field of a record that a tool sets or leaves as it is, and the name of a line by which one is left.
ghost use Rattle.std.specs.Prelude.{◌≡◌, not, bytes_eq, OnOk, unwrap_or};
ghost use Rattle.account_model.specs.Naming.{first_field as first_of};

use acct_lines::has_first_field;
use acct_text::Bytes;
use std::alloc::AllocError;

/// Puts the new text into a field, where one is given.
pub(crate) fn set_given(field: &mut Bytes, new: &Option<Bytes>) -> Result<(), AllocError>
    ensures { OnOk result (field.new ≡ unwrap_or new.now field.old) }
{
    if let Some(text) = new {
        *field = text.copy()?;
    }
    Ok(())
}

/// Whether the line begins with another name.
pub(crate) fn has_other_name(line: &[u8], name: &[u8]) -> bool
    ensures { result ≡ not (bytes_eq (first_of line.now) name.now) }
{
    !has_first_field(line, name)
}
